//! Lengths and parts of texts.

use crate::answer::{Answer, Refusal};
use crate::literals::Literal;
use arrow_logic::{length, substring};
use std::alloc::Global;

pub(super) fn length(alloc: Global, arguments: &[Literal<'_>]) -> Answer {
    let [array] = arguments else {
        return Answer::Refused(Refusal::Usage);
    };
    match array {
        Literal::Array(array) => Answer::of_kernel(length::length(alloc, array.as_array())),
        Literal::Number(_) => Answer::Refused(Refusal::Usage),
    }
}

pub(super) fn substring(alloc: Global, arguments: &[Literal<'_>]) -> Answer {
    match arguments {
        [array, start] => part(alloc, array, start, &None),
        [array, start, length] => {
            let Some(length) = length_of(length) else {
                return Answer::Refused(Refusal::Usage);
            };
            part(alloc, array, start, &Some(length))
        }
        _ => Answer::Refused(Refusal::Usage),
    }
}

// The length that an argument is, if it is one of 64 bits.
fn length_of(argument: &Literal<'_>) -> Option<u64> {
    let Literal::Number(length) = argument else {
        return None;
    };
    // (read with a sign, since the grammar lets one stand before 0)
    let length: i128 = length.parse().ok()?;
    u64::try_from(length).ok()
}

// The parts of texts from a start on, of so many characters at most.
fn part(alloc: Global, array: &Literal<'_>, start: &Literal<'_>, length: &Option<u64>) -> Answer {
    let Literal::Number(start) = start else {
        return Answer::Refused(Refusal::Usage);
    };
    let Ok(start) = start.parse() else {
        return Answer::Refused(Refusal::Usage);
    };
    match array {
        Literal::Array(array) => {
            Answer::of_kernel(substring::substring(alloc, array.as_array(), start, length))
        }
        Literal::Number(_) => Answer::Refused(Refusal::Usage),
    }
}
