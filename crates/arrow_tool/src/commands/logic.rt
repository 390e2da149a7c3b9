//! Truth values that are connected, turned and counted, and rows that are null.

use super::{as_boolean, only_boolean};
use crate::answer::{Answer, Refusal};
use crate::literals::Literal;
use arrow_logic::{boolean, boolean_kleene};
use std::alloc::Global;

/// What joins the truth values of two arrays.
#[derive(Clone, Copy)]
pub(crate) enum Connective {
    And,
    Or,
    KleeneAnd,
    KleeneOr,
}

/// What is asked of the truth values of an array.
#[derive(Clone, Copy)]
pub(crate) enum Quantifier {
    Any,
    All,
}

pub(super) fn connect(alloc: Global, connective: Connective, arguments: &[Literal<'_>]) -> Answer {
    let [lhs, rhs] = arguments else {
        return Answer::Refused(Refusal::Usage);
    };
    let (Some(lhs), Some(rhs)) = (as_boolean(lhs), as_boolean(rhs)) else {
        return Answer::Refused(Refusal::Usage);
    };
    if lhs.len() != rhs.len() {
        return Answer::Refused(Refusal::Usage);
    }
    Answer::of_predicate(match connective {
        Connective::And => boolean::and(alloc, lhs, rhs),
        Connective::Or => boolean::or(alloc, lhs, rhs),
        Connective::KleeneAnd => boolean_kleene::and(alloc, lhs, rhs),
        Connective::KleeneOr => boolean_kleene::or(alloc, lhs, rhs),
    })
}

pub(super) fn not(alloc: Global, arguments: &[Literal<'_>]) -> Answer {
    let Some(array) = only_boolean(arguments) else {
        return Answer::Refused(Refusal::Usage);
    };
    Answer::of_predicate(boolean::not(alloc, array))
}

pub(super) fn quantify(quantifier: Quantifier, arguments: &[Literal<'_>]) -> Answer {
    let Some(array) = only_boolean(arguments) else {
        return Answer::Refused(Refusal::Usage);
    };
    Answer::Truth(match quantifier {
        Quantifier::Any => boolean::any(array),
        Quantifier::All => boolean::all(array),
    })
}

// Which rows are null, or which are not.
pub(super) fn is_null(alloc: Global, is_null: bool, arguments: &[Literal<'_>]) -> Answer {
    let [array] = arguments else {
        return Answer::Refused(Refusal::Usage);
    };
    match array {
        Literal::Array(array) if is_null => {
            Answer::of_predicate(boolean::is_null(alloc, array.as_array()))
        }
        Literal::Array(array) => {
            Answer::of_predicate(boolean::is_not_null(alloc, array.as_array()))
        }
        Literal::Number(_) => Answer::Refused(Refusal::Usage),
    }
}
