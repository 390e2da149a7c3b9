//! Rows of two arrays that are held against one another.

ghost use Rattle.std.specs.Prelude.{◌≡◌, ◌↔◌, length, IsTrue};
ghost use Rattle.arrow_types.specs.Physical.{physical_type_of};
ghost use Rattle.arrow_arrays.specs.Any.{any_array_rows, any_array_type};
ghost use Rattle.arrow_compare.specs.Compared.{HasEquality, HasOrder};

use crate::answer::{Answer, Refusal};
use crate::literals::{Literal, WrittenArray};
use arrow_arrays::array::AnyArray;
use arrow_compare::comparison;
use arrow_logic::nullif;
use std::alloc::Global;

/// What is asked of each row of an array and the row of another.
#[derive(Clone, Copy)]
pub(crate) enum Relation {
    Eq,
    EqAndValidity,
    Neq,
    NeqAndValidity,
    Lt,
    LtEq,
    Gt,
    GtEq,
}

pub(super) fn relate(alloc: Global, relation: Relation, arguments: &[Literal<'_>]) -> Answer {
    let [lhs, rhs] = arguments else {
        return Answer::Refused(Refusal::Usage);
    };
    let Literal::Array(left) = lhs else {
        return Answer::Refused(Refusal::Usage);
    };
    let Literal::Array(right) = rhs else {
        return Answer::Refused(Refusal::Usage);
    };
    relate_arrays(alloc, relation, left, right)
}

// Whether two arrays have one length and one data type, whose rows stand in an order.
fn can_relate(lhs: &AnyArray, rhs: &AnyArray) -> bool
    ensures one_length { IsTrue result → length (any_array_rows lhs.now) ≡ length (any_array_rows rhs.now) }
    ensures one_type { IsTrue result → any_array_type lhs.now ≡ any_array_type rhs.now }
    ensures has_equality { IsTrue result → HasEquality (physical_type_of (any_array_type lhs.now)) }
    ensures has_order { IsTrue result → HasOrder (physical_type_of (any_array_type lhs.now)) }
{
    lhs.len() == rhs.len() && are_of_one_type(lhs, rhs) && comparison::can_lt(lhs.data_type())
}

// Whether two arrays are of one data type.
fn are_of_one_type(lhs: &AnyArray, rhs: &AnyArray) -> bool
    ensures { IsTrue result ↔ (any_array_type lhs.now ≡ any_array_type rhs.now) }
{
    *lhs.data_type() == *rhs.data_type()
}

fn relate_arrays(
    alloc: Global,
    relation: Relation,
    lhs: &WrittenArray,
    rhs: &WrittenArray,
) -> Answer {
    let (lhs, rhs) = (lhs.as_array(), rhs.as_array());
    if !can_relate(lhs, rhs) {
        return Answer::Refused(Refusal::Usage);
    }
    Answer::of_predicate(match relation {
        Relation::Eq => comparison::eq(alloc, lhs, rhs),
        Relation::EqAndValidity => comparison::eq_and_validity(alloc, lhs, rhs),
        Relation::Neq => comparison::neq(alloc, lhs, rhs),
        Relation::NeqAndValidity => comparison::neq_and_validity(alloc, lhs, rhs),
        Relation::Lt => comparison::lt(alloc, lhs, rhs),
        Relation::LtEq => comparison::lt_eq(alloc, lhs, rhs),
        Relation::Gt => comparison::gt(alloc, lhs, rhs),
        Relation::GtEq => comparison::gt_eq(alloc, lhs, rhs),
    })
}

pub(super) fn nullif(alloc: Global, arguments: &[Literal<'_>]) -> Answer {
    let [lhs, rhs] = arguments else {
        return Answer::Refused(Refusal::Usage);
    };
    let Literal::Array(lhs) = lhs else {
        return Answer::Refused(Refusal::Usage);
    };
    let Literal::Array(rhs) = rhs else {
        return Answer::Refused(Refusal::Usage);
    };
    let (lhs, rhs) = (lhs.as_array(), rhs.as_array());
    if lhs.len() != rhs.len() || !nullif::can_nullif(lhs.data_type(), rhs.data_type()) {
        return Answer::Refused(Refusal::Usage);
    }
    Answer::of_kernel(nullif::nullif(alloc, lhs, rhs))
}
