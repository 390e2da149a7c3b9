//! Calls of logic and comparisons, for the program `cases`: each reads its arguments, tests its conditions, and prints what the
//! call answered.
#![tactic(auto)]

/// What a function makes of two values of one element type, and another where the values stand in no order. The right one is
/// of an enum by element type. `Usage` where their element types differ.
macro_rules! of_elements {
    (($left:expr, $right:expr), $kind:ident, $ordered:ident, $unordered:ident, ($($argument:expr),*)) => {
        match ($left, $right) {
            (AnyPrimitive::Int8(lhs), $kind::Int8(rhs)) => $ordered($($argument,)* lhs, rhs),
            (AnyPrimitive::Int16(lhs), $kind::Int16(rhs)) => $ordered($($argument,)* lhs, rhs),
            (AnyPrimitive::Int32(lhs), $kind::Int32(rhs)) => $ordered($($argument,)* lhs, rhs),
            (AnyPrimitive::Int64(lhs), $kind::Int64(rhs)) => $ordered($($argument,)* lhs, rhs),
            (AnyPrimitive::Int128(lhs), $kind::Int128(rhs)) => $ordered($($argument,)* lhs, rhs),
            (AnyPrimitive::Int256(lhs), $kind::Int256(rhs)) => $ordered($($argument,)* lhs, rhs),
            (AnyPrimitive::UInt8(lhs), $kind::UInt8(rhs)) => $ordered($($argument,)* lhs, rhs),
            (AnyPrimitive::UInt16(lhs), $kind::UInt16(rhs)) => $ordered($($argument,)* lhs, rhs),
            (AnyPrimitive::UInt32(lhs), $kind::UInt32(rhs)) => $ordered($($argument,)* lhs, rhs),
            (AnyPrimitive::UInt64(lhs), $kind::UInt64(rhs)) => $ordered($($argument,)* lhs, rhs),
            (AnyPrimitive::DaysMs(lhs), $kind::DaysMs(rhs)) => $unordered($($argument,)* lhs, rhs),
            (AnyPrimitive::MonthDayNano(lhs), $kind::MonthDayNano(rhs)) => {
                $unordered($($argument,)* lhs, rhs)
            }
            _ => Err(Fault::Usage),
        }
    };
}

mod boolean;
mod compare;
mod nullif;
mod texts;
mod typed;
mod types;
mod validities;

use arrow_text::call::{Answer, Call, answer_by};
use arrow_text::fault::Fault;
use std::alloc::Global;

/// The calls, but for both logics, comparisons, and whether a call is asked for a data type.
const CALLS: [(&str, Answer); 11] = [
    ("comparison::finish_eq_validities", validities::finish),
    ("comparison::finish_neq_validities", validities::finish),
    ("length::length", texts::length),
    ("nullif::can_nullif", nullif::can_nullif),
    ("nullif::nullif", nullif::nullif),
    ("nullif::nullif_scalar", nullif::nullif_scalar),
    ("nullif::primitive_nullif", nullif::nullif),
    ("nullif::primitive_nullif_scalar", nullif::nullif_scalar),
    ("substring::substring", texts::substring),
    ("utils::check_same_len", validities::check_same_len),
    ("utils::combine_validities", validities::combine_validities),
];

/// Appends the answer of a call to `out`; `false` where the call has none of these names.
pub fn answer(alloc: Global, call: &Call<'_>, out: &mut String) -> Result<bool, Fault> {
    Ok(
        answer_by(alloc, &CALLS, call, out)?
            || boolean::answer(alloc, call, out)?
            || types::answer(alloc, call, out)?
            || compare::answer(alloc, call, out)?,
    )
}
