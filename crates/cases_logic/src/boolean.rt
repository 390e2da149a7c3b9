//! Both logics of truth values, and which rows are null.

use arrow_arrays::array::AnyArray;
use arrow_flat::scalar::AnyScalar;
use arrow_logic::{boolean, boolean_kleene};
use arrow_text::call::Call;
use arrow_text::fault::Fault;
use arrow_text::types::find;
use arrow_text::write::{show, write_truths};
use std::alloc::Global;

/// What joins two truth values.
#[derive(Clone, Copy)]
enum Connective {
    And,
    Or,
    KleeneAnd,
    KleeneOr,
}

/// What is asked of an array: of each row, or of all.
#[derive(Clone, Copy)]
enum Question {
    Not,
    IsNull,
    IsNotNull,
    Any,
    All,
    KleeneAny,
    KleeneAll,
}

/// What a call asks, by its arguments: two arrays, an array and a scalar, or an array.
#[derive(Clone, Copy)]
enum Asked {
    Arrays(Connective),
    Scalar(Connective),
    Array(Question),
}

/// The calls of both logics.
const CALLS: [(&str, Asked); 15] = [
    ("boolean::and", Asked::Arrays(Connective::And)),
    ("boolean::or", Asked::Arrays(Connective::Or)),
    ("boolean::and_scalar", Asked::Scalar(Connective::And)),
    ("boolean::or_scalar", Asked::Scalar(Connective::Or)),
    ("boolean::not", Asked::Array(Question::Not)),
    ("boolean::is_null", Asked::Array(Question::IsNull)),
    ("boolean::is_not_null", Asked::Array(Question::IsNotNull)),
    ("boolean::any", Asked::Array(Question::Any)),
    ("boolean::all", Asked::Array(Question::All)),
    ("boolean_kleene::and", Asked::Arrays(Connective::KleeneAnd)),
    ("boolean_kleene::or", Asked::Arrays(Connective::KleeneOr)),
    (
        "boolean_kleene::and_scalar",
        Asked::Scalar(Connective::KleeneAnd),
    ),
    (
        "boolean_kleene::or_scalar",
        Asked::Scalar(Connective::KleeneOr),
    ),
    ("boolean_kleene::any", Asked::Array(Question::KleeneAny)),
    ("boolean_kleene::all", Asked::Array(Question::KleeneAll)),
];

// Answers a call of either logic; `false` where it is none.
pub(crate) fn answer(alloc: Global, call: &Call<'_>, out: &mut String) -> Result<bool, Fault> {
    let Some(asked) = find(&CALLS, call.name) else {
        return Ok(false);
    };
    match *asked {
        Asked::Arrays(connective) => connect(alloc, connective, call, out),
        Asked::Scalar(connective) => connect_scalar(alloc, connective, call, out),
        Asked::Array(question) => ask(alloc, question, call, out),
    }?;
    Ok(true)
}

// Appends the rows of two arrays, joined. `Usage` unless both are of truth values and have as many rows.
fn connect(
    alloc: Global,
    connective: Connective,
    call: &Call<'_>,
    out: &mut String,
) -> Result<(), Fault> {
    let pair = call.pair(alloc, 0)?;
    let (AnyArray::Boolean(lhs), AnyArray::Boolean(rhs)) = (&*pair.left, &*pair.right) else {
        return Err(Fault::Usage);
    };
    if lhs.len() != rhs.len() {
        return Err(Fault::Usage);
    }
    let truths = match connective {
        Connective::And => boolean::and(alloc, lhs, rhs),
        Connective::Or => boolean::or(alloc, lhs, rhs),
        Connective::KleeneAnd => boolean_kleene::and(alloc, lhs, rhs),
        Connective::KleeneOr => boolean_kleene::or(alloc, lhs, rhs),
    };
    write_truths(out, truths)
}

// Appends the rows of an array, each joined to a scalar. `Usage` unless both are truth values.
fn connect_scalar(
    alloc: Global,
    connective: Connective,
    call: &Call<'_>,
    out: &mut String,
) -> Result<(), Fault> {
    let (left, right) = call.array_and_scalar(alloc, 0)?;
    let (AnyArray::Boolean(lhs), AnyScalar::Boolean(rhs)) = (&*left.array, &*right.scalar) else {
        return Err(Fault::Usage);
    };
    let truths = match connective {
        Connective::And => boolean::and_scalar(alloc, lhs, rhs),
        Connective::Or => boolean::or_scalar(alloc, lhs, rhs),
        Connective::KleeneAnd => boolean_kleene::and_scalar(alloc, lhs, rhs),
        Connective::KleeneOr => boolean_kleene::or_scalar(alloc, lhs, rhs),
    };
    write_truths(out, truths)
}

// Appends what is asked of an array. `Usage` unless it is of truth values, where more is asked than which rows are null.
fn ask(alloc: Global, question: Question, call: &Call<'_>, out: &mut String) -> Result<(), Fault> {
    let given = call.only_array(alloc)?;
    let truths = match (question, &*given.array) {
        (Question::IsNull, array) => boolean::is_null(alloc, array),
        (Question::IsNotNull, array) => boolean::is_not_null(alloc, array),
        (Question::Not, AnyArray::Boolean(array)) => boolean::not(alloc, array),
        (Question::Any, AnyArray::Boolean(array)) => return show(out, boolean::any(array)),
        (Question::All, AnyArray::Boolean(array)) => return show(out, boolean::all(array)),
        (Question::KleeneAny, AnyArray::Boolean(array)) => {
            return show(out, boolean_kleene::any(array));
        }
        (Question::KleeneAll, AnyArray::Boolean(array)) => {
            return show(out, boolean_kleene::all(array));
        }
        _ => return Err(Fault::Usage),
    };
    write_truths(out, truths)
}
