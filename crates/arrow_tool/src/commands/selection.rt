//! Rows that are kept, joined, chosen, moved, and named by their numbers or by ranges.

ghost use Rattle.std.specs.Prelude.{◌≡◌, length, IfOk};
ghost use Rattle.arrow_flat.specs.Parts.{boolean_rows};
ghost use Rattle.arrow_arrays.specs.Any.{any_array_rows, any_array_type};

use super::{as_boolean, only_boolean};
use crate::answer::{Answer, Refusal};
use crate::literals::Literal;
use arrow_arrays::array::{AnyArray, are_within};
use arrow_flat::array::{AnyPrimitive, BooleanArray};
use arrow_select::{concatenate, filter, if_then_else, take, window};
use arrow_types::error::Error;
use std::alloc::{AllocError, Global};

pub(super) fn concatenate(alloc: Global, arguments: &[Literal<'_>]) -> Result<Answer, AllocError> {
    let mut arrays = Vec::new(alloc);
    for argument in arguments {
        match argument {
            Literal::Array(array) => arrays.push(array.as_array())?,
            Literal::Number(_) => return Ok(Answer::Refused(Refusal::Usage)),
        }
    }
    Ok(Answer::of_kernel(concatenate::concatenate(alloc, &arrays)))
}

pub(super) fn filter(alloc: Global, arguments: &[Literal<'_>]) -> Answer {
    let [array, predicate] = arguments else {
        return Answer::Refused(Refusal::Usage);
    };
    let Some(predicate) = as_boolean(predicate) else {
        return Answer::Refused(Refusal::Usage);
    };
    match array {
        Literal::Array(array) if array.as_array().len() == predicate.len() => {
            Answer::of_kernel(filter::filter(alloc, array.as_array(), predicate))
        }
        _ => Answer::Refused(Refusal::Usage),
    }
}

pub(super) fn build_filter(alloc: Global, arguments: &[Literal<'_>]) -> Answer {
    let [predicate, array] = arguments else {
        return Answer::Refused(Refusal::Usage);
    };
    let Some(predicate) = as_boolean(predicate) else {
        return Answer::Refused(Refusal::Usage);
    };
    match array {
        Literal::Array(array) if array.as_array().len() == predicate.len() => {
            Answer::of_kernel(build_and_apply(alloc, predicate, array.as_array()))
        }
        _ => Answer::Refused(Refusal::Usage),
    }
}

// The rows that a filter keeps which is built of the predicate.
fn build_and_apply(
    alloc: Global,
    predicate: &BooleanArray,
    array: &AnyArray,
) -> Result<AnyArray, Error>
    requires lengths { length (boolean_rows predicate.now) ≡ length (any_array_rows array.now) }
    ensures { IfOk result (λ kept. any_array_type kept ≡ any_array_type array.now) }
{
    let built = filter::build_filter(alloc, predicate)?;
    built.apply(array)
}

pub(super) fn ranges(alloc: Global, arguments: &[Literal<'_>]) -> Answer {
    let Some(predicate) = only_boolean(arguments) else {
        return Answer::Refused(Refusal::Usage);
    };
    match filter::build_filter(alloc, predicate) {
        Ok(built) => Answer::Ranges(built),
        Err(error) => Answer::Refused(Refusal::Kernel(error)),
    }
}

pub(super) fn if_then_else(alloc: Global, arguments: &[Literal<'_>]) -> Answer {
    let [predicate, lhs, rhs] = arguments else {
        return Answer::Refused(Refusal::Usage);
    };
    let Some(predicate) = as_boolean(predicate) else {
        return Answer::Refused(Refusal::Usage);
    };
    let Literal::Array(lhs) = lhs else {
        return Answer::Refused(Refusal::Usage);
    };
    let Literal::Array(rhs) = rhs else {
        return Answer::Refused(Refusal::Usage);
    };
    Answer::of_kernel(if_then_else::if_then_else(alloc, predicate, lhs.as_array(), rhs.as_array()))
}

pub(super) fn if_then_else_ranges(alloc: Global, arguments: &[Literal<'_>]) -> Answer {
    let Some(predicate) = only_boolean(arguments) else {
        return Answer::Refused(Refusal::Usage);
    };
    match if_then_else::if_then_else_ranges(alloc, predicate) {
        Ok(ranges) => Answer::SideRanges(ranges),
        Err(error) => Answer::Refused(Refusal::Kernel(error)),
    }
}

pub(super) fn shift(alloc: Global, arguments: &[Literal<'_>]) -> Answer {
    let [array, offset] = arguments else {
        return Answer::Refused(Refusal::Usage);
    };
    let Literal::Number(offset) = offset else {
        return Answer::Refused(Refusal::Usage);
    };
    let Ok(offset) = offset.parse() else {
        return Answer::Refused(Refusal::Usage);
    };
    match array {
        Literal::Array(array) => {
            Answer::of_kernel(window::shift(alloc, array.as_array(), offset))
        }
        Literal::Number(_) => Answer::Refused(Refusal::Usage),
    }
}

pub(super) fn take(alloc: Global, arguments: &[Literal<'_>]) -> Answer {
    let [array, indices] = arguments else {
        return Answer::Refused(Refusal::Usage);
    };
    let Literal::Array(indices) = indices else {
        return Answer::Refused(Refusal::Usage);
    };
    let AnyArray::Primitive(AnyPrimitive::Int32(indices)) = indices.as_array() else {
        return Answer::Refused(Refusal::Usage);
    };
    match array {
        Literal::Array(array) if are_within(indices, array.as_array().len()) => {
            Answer::of_kernel(take::take(alloc, array.as_array(), indices))
        }
        _ => Answer::Refused(Refusal::Usage),
    }
}
