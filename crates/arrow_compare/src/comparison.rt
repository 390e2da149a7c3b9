//! Relations of the rows of an array of any type and of another, or of a scalar, and which data types have them.
//!
//! A null row has no relation: the answer there is null. The calls named `and_validity` look at nulls too: two nulls are the
//! same, and a null and a value are not. With a scalar each row, and the scalar, is read through its dictionaries.

ghost use Rattle.std.specs.Prelude.{◌≡◌, length, map};
ghost use Rattle.arrow_types.specs.ArrowType.{boolean, logical};
ghost use Rattle.arrow_types.specs.Physical.{physical_type_of};
ghost use Rattle.arrow_types.specs.Relation.{related, through};
ghost use Rattle.arrow_types.specs.Relation as relation;
ghost use Rattle.arrow_flat.specs.AnyScalar.{meaning_of};
ghost use Rattle.arrow_arrays.specs.Any.{any_array_rows, any_array_type};
ghost use Rattle.arrow_flat.specs.RowByRow.{row_by_row};
ghost use Rattle.arrow_relate.specs.Same.{differs, is_same};
ghost use Rattle.arrow_compare.specs.Compared.{HasEquality, HasEqualityThrough, HasOrder, HasOrderThrough};
ghost use Rattle.arrow_flat.specs.Truths.{AnswersTruths};

mod answers;
mod arrays;
mod scalars;
mod supported;
mod values;

use arrays::{relate, same};
use arrow_arrays::array::AnyArray;
use arrow_flat::array::BooleanArray;
use arrow_flat::scalar::AnyScalar;
use arrow_logic::boolean;
use arrow_relate::relation::Relation;
use arrow_types::error::Error;
use scalars::{relate_scalar, same_scalar};
use std::alloc::Global;
pub use supported::{
    can_eq, can_eq_scalar, can_gt, can_gt_eq, can_gt_eq_scalar, can_gt_scalar, can_lt, can_lt_eq,
    can_lt_eq_scalar, can_lt_scalar, can_neq, can_neq_scalar,
};

/// Whether each row equals that of the other side, and null where one of the two is.
///
/// # Requires
/// The data types of both are equal, extensions around each apart; both have as many rows; and they are of truth values,
/// integers of any width, intervals, texts or bytes, by how they lie in memory.
///
/// # Errors
/// `OutOfMemory` where memory is refused.
///
/// Source: arrow2's `comparison::eq`.
pub fn eq(alloc: Global, lhs: &AnyArray, rhs: &AnyArray) -> Result<BooleanArray, Error>
    requires one_type { logical (any_array_type lhs.now) ≡ logical (any_array_type rhs.now) }
    requires one_length { length (any_array_rows lhs.now) ≡ length (any_array_rows rhs.now) }
    requires has_equality { HasEquality (physical_type_of (any_array_type lhs.now)) }
    ensures { AnswersTruths result
        (row_by_row (related relation.eq) (any_array_rows lhs.now) (any_array_rows rhs.now)) }
{
    relate(alloc, Relation::Eq, lhs, rhs)
}

/// Whether the rows of both sides are the same: two nulls are, and a null and a value are not. No row is null.
///
/// # Requires
/// The data types of both are equal, extensions around each apart; both have as many rows; and they are of truth values,
/// integers of any width, intervals, texts or bytes, by how they lie in memory.
///
/// # Errors
/// `OutOfMemory` where memory is refused.
///
/// Source: arrow2's `comparison::eq_and_validity`.
pub fn eq_and_validity(alloc: Global, lhs: &AnyArray, rhs: &AnyArray) -> Result<BooleanArray, Error>
    requires one_type { logical (any_array_type lhs.now) ≡ logical (any_array_type rhs.now) }
    requires one_length { length (any_array_rows lhs.now) ≡ length (any_array_rows rhs.now) }
    requires has_equality { HasEquality (physical_type_of (any_array_type lhs.now)) }
    ensures { AnswersTruths result (row_by_row is_same (any_array_rows lhs.now) (any_array_rows rhs.now)) }
{
    same(alloc, lhs, rhs)
}

/// Whether each row equals the scalar, and null where the row is; all are null where the scalar is. Each row, and the scalar,
/// is read through its dictionaries.
///
/// # Requires
/// The data types of both are equal, extensions around each apart; and they are of truth values, integers of any width,
/// intervals, texts or bytes, by how they lie in memory, or of dictionaries of these, at any depth.
///
/// # Errors
/// `OutOfMemory` where memory is refused.
///
/// Source: arrow2's `comparison::eq_scalar`.
pub fn eq_scalar(alloc: Global, lhs: &AnyArray, rhs: &AnyScalar) -> Result<BooleanArray, Error>
    requires one_type { logical (any_array_type lhs.now) ≡ logical (meaning_of rhs.now).0 }
    requires has_equality { HasEqualityThrough (any_array_type lhs.now) }
    ensures { AnswersTruths result
        (map (λ s. related relation.eq (through s) (through (meaning_of rhs.now).1))
        (any_array_rows lhs.now)) }
{
    relate_scalar(alloc, Relation::Eq, lhs, rhs)
}

/// Whether each row is the scalar: a null row is a null scalar, and no value. No row is null. Each row, and the scalar, is
/// read through its dictionaries.
///
/// # Requires
/// The data types of both are equal, extensions around each apart; and they are of truth values, integers of any width,
/// intervals, texts or bytes, by how they lie in memory, or of dictionaries of these, at any depth.
///
/// # Errors
/// `OutOfMemory` where memory is refused.
///
/// Source: arrow2's `comparison::eq_scalar_and_validity`.
pub fn eq_scalar_and_validity(
    alloc: Global,
    lhs: &AnyArray,
    rhs: &AnyScalar,
) -> Result<BooleanArray, Error>
    requires one_type { logical (any_array_type lhs.now) ≡ logical (meaning_of rhs.now).0 }
    requires has_equality { HasEqualityThrough (any_array_type lhs.now) }
    ensures { AnswersTruths result
        (map (λ s. is_same (through s) (through (meaning_of rhs.now).1)) (any_array_rows lhs.now)) }
{
    same_scalar(alloc, lhs, rhs)
}

/// Whether each row differs from that of the other side, and null where one of the two is.
///
/// # Requires
/// The data types of both are equal, extensions around each apart; both have as many rows; and they are of truth values,
/// integers of any width, intervals, texts or bytes, by how they lie in memory.
///
/// # Errors
/// `OutOfMemory` where memory is refused.
///
/// Source: arrow2's `comparison::neq`.
pub fn neq(alloc: Global, lhs: &AnyArray, rhs: &AnyArray) -> Result<BooleanArray, Error>
    requires one_type { logical (any_array_type lhs.now) ≡ logical (any_array_type rhs.now) }
    requires one_length { length (any_array_rows lhs.now) ≡ length (any_array_rows rhs.now) }
    requires has_equality { HasEquality (physical_type_of (any_array_type lhs.now)) }
    ensures { AnswersTruths result
        (row_by_row (related relation.neq) (any_array_rows lhs.now) (any_array_rows rhs.now)) }
{
    relate(alloc, Relation::Neq, lhs, rhs)
}

/// Whether the rows of both sides differ: the rows of [`eq_and_validity`] turned. No row is null.
///
/// # Requires
/// The data types of both are equal, extensions around each apart; both have as many rows; and they are of truth values,
/// integers of any width, intervals, texts or bytes, by how they lie in memory.
///
/// # Errors
/// `OutOfMemory` where memory is refused.
///
/// Source: arrow2's `comparison::neq_and_validity`.
pub fn neq_and_validity(
    alloc: Global,
    lhs: &AnyArray,
    rhs: &AnyArray,
) -> Result<BooleanArray, Error>
    requires one_type { logical (any_array_type lhs.now) ≡ logical (any_array_type rhs.now) }
    requires one_length { length (any_array_rows lhs.now) ≡ length (any_array_rows rhs.now) }
    requires has_equality { HasEquality (physical_type_of (any_array_type lhs.now)) }
    ensures { AnswersTruths result (row_by_row differs (any_array_rows lhs.now) (any_array_rows rhs.now)) }
{
    boolean::not(alloc, &same(alloc, lhs, rhs)?)
}

/// Whether each row differs from the scalar, and null where the row is; all are null where the scalar is. Each row, and the
/// scalar, is read through its dictionaries.
///
/// # Requires
/// The data types of both are equal, extensions around each apart; and they are of truth values, integers of any width,
/// intervals, texts or bytes, by how they lie in memory, or of dictionaries of these, at any depth.
///
/// # Errors
/// `OutOfMemory` where memory is refused.
///
/// Source: arrow2's `comparison::neq_scalar`.
pub fn neq_scalar(alloc: Global, lhs: &AnyArray, rhs: &AnyScalar) -> Result<BooleanArray, Error>
    requires one_type { logical (any_array_type lhs.now) ≡ logical (meaning_of rhs.now).0 }
    requires has_equality { HasEqualityThrough (any_array_type lhs.now) }
    ensures { AnswersTruths result
        (map (λ s. related relation.neq (through s) (through (meaning_of rhs.now).1))
        (any_array_rows lhs.now)) }
{
    relate_scalar(alloc, Relation::Neq, lhs, rhs)
}

/// Whether each row is not the scalar: the rows of [`eq_scalar_and_validity`] turned. No row is null.
///
/// # Requires
/// The data types of both are equal, extensions around each apart; and they are of truth values, integers of any width,
/// intervals, texts or bytes, by how they lie in memory, or of dictionaries of these, at any depth.
///
/// # Errors
/// `OutOfMemory` where memory is refused.
///
/// Source: arrow2's `comparison::neq_scalar_and_validity`.
pub fn neq_scalar_and_validity(
    alloc: Global,
    lhs: &AnyArray,
    rhs: &AnyScalar,
) -> Result<BooleanArray, Error>
    requires one_type { logical (any_array_type lhs.now) ≡ logical (meaning_of rhs.now).0 }
    requires has_equality { HasEqualityThrough (any_array_type lhs.now) }
    ensures { AnswersTruths result
        (map (λ s. differs (through s) (through (meaning_of rhs.now).1)) (any_array_rows lhs.now)) }
{
    boolean::not(alloc, &same_scalar(alloc, lhs, rhs)?)
}

/// Whether each row comes before that of the other side, and null where one of the two is.
///
/// # Requires
/// The data types of both are equal, extensions around each apart; both have as many rows; and they are of truth values,
/// integers of any width, texts or bytes, by how they lie in memory: dates, times, decimals and intervals of months are
/// integers, and the other intervals are in no order.
///
/// # Errors
/// `OutOfMemory` where memory is refused.
///
/// Source: arrow2's `comparison::lt`.
pub fn lt(alloc: Global, lhs: &AnyArray, rhs: &AnyArray) -> Result<BooleanArray, Error>
    requires one_type { logical (any_array_type lhs.now) ≡ logical (any_array_type rhs.now) }
    requires one_length { length (any_array_rows lhs.now) ≡ length (any_array_rows rhs.now) }
    requires has_order { HasOrder (physical_type_of (any_array_type lhs.now)) }
    ensures { AnswersTruths result
        (row_by_row (related relation.lt) (any_array_rows lhs.now) (any_array_rows rhs.now)) }
{
    relate(alloc, Relation::Lt, lhs, rhs)
}

/// Whether each row comes before the scalar, and null where the row is; all are null where the scalar is. Each row,
/// and the scalar, is read through its dictionaries.
///
/// # Requires
/// The data types of both are equal, extensions around each apart; and they are of truth values, integers of any width,
/// texts or bytes, by how they lie in memory, or of dictionaries of these, at any depth. Dates, times, decimals and intervals
/// of months are integers, and the other intervals are in no order.
///
/// # Errors
/// `OutOfMemory` where memory is refused.
///
/// Source: arrow2's `comparison::lt_scalar`.
pub fn lt_scalar(alloc: Global, lhs: &AnyArray, rhs: &AnyScalar) -> Result<BooleanArray, Error>
    requires one_type { logical (any_array_type lhs.now) ≡ logical (meaning_of rhs.now).0 }
    requires has_order { HasOrderThrough (any_array_type lhs.now) }
    ensures { AnswersTruths result
        (map (λ s. related relation.lt (through s) (through (meaning_of rhs.now).1))
        (any_array_rows lhs.now)) }
{
    relate_scalar(alloc, Relation::Lt, lhs, rhs)
}

/// Whether each row does not come after that of the other side, and null where one of the two is.
///
/// # Requires
/// The data types of both are equal, extensions around each apart; both have as many rows; and they are of truth values,
/// integers of any width, texts or bytes, by how they lie in memory: dates, times, decimals and intervals of months are
/// integers, and the other intervals are in no order.
///
/// # Errors
/// `OutOfMemory` where memory is refused.
///
/// Source: arrow2's `comparison::lt_eq`.
pub fn lt_eq(alloc: Global, lhs: &AnyArray, rhs: &AnyArray) -> Result<BooleanArray, Error>
    requires one_type { logical (any_array_type lhs.now) ≡ logical (any_array_type rhs.now) }
    requires one_length { length (any_array_rows lhs.now) ≡ length (any_array_rows rhs.now) }
    requires has_order { HasOrder (physical_type_of (any_array_type lhs.now)) }
    ensures { AnswersTruths result
        (row_by_row (related relation.lt_eq) (any_array_rows lhs.now) (any_array_rows rhs.now)) }
{
    relate(alloc, Relation::LtEq, lhs, rhs)
}

/// Whether each row does not come after the scalar, and null where the row is; all are null where the scalar is. Each row,
/// and the scalar, is read through its dictionaries.
///
/// # Requires
/// The data types of both are equal, extensions around each apart; and they are of truth values, integers of any width,
/// texts or bytes, by how they lie in memory, or of dictionaries of these, at any depth. Dates, times, decimals and intervals
/// of months are integers, and the other intervals are in no order.
///
/// # Errors
/// `OutOfMemory` where memory is refused.
///
/// Source: arrow2's `comparison::lt_eq_scalar`.
pub fn lt_eq_scalar(alloc: Global, lhs: &AnyArray, rhs: &AnyScalar) -> Result<BooleanArray, Error>
    requires one_type { logical (any_array_type lhs.now) ≡ logical (meaning_of rhs.now).0 }
    requires has_order { HasOrderThrough (any_array_type lhs.now) }
    ensures { AnswersTruths result
        (map (λ s. related relation.lt_eq (through s) (through (meaning_of rhs.now).1))
        (any_array_rows lhs.now)) }
{
    relate_scalar(alloc, Relation::LtEq, lhs, rhs)
}

/// Whether each row comes after that of the other side, and null where one of the two is.
///
/// # Requires
/// The data types of both are equal, extensions around each apart; both have as many rows; and they are of truth values,
/// integers of any width, texts or bytes, by how they lie in memory: dates, times, decimals and intervals of months are
/// integers, and the other intervals are in no order.
///
/// # Errors
/// `OutOfMemory` where memory is refused.
///
/// Source: arrow2's `comparison::gt`.
pub fn gt(alloc: Global, lhs: &AnyArray, rhs: &AnyArray) -> Result<BooleanArray, Error>
    requires one_type { logical (any_array_type lhs.now) ≡ logical (any_array_type rhs.now) }
    requires one_length { length (any_array_rows lhs.now) ≡ length (any_array_rows rhs.now) }
    requires has_order { HasOrder (physical_type_of (any_array_type lhs.now)) }
    ensures { AnswersTruths result
        (row_by_row (related relation.gt) (any_array_rows lhs.now) (any_array_rows rhs.now)) }
{
    relate(alloc, Relation::Gt, lhs, rhs)
}

/// Whether each row comes after the scalar, and null where the row is; all are null where the scalar is. Each row,
/// and the scalar, is read through its dictionaries.
///
/// # Requires
/// The data types of both are equal, extensions around each apart; and they are of truth values, integers of any width,
/// texts or bytes, by how they lie in memory, or of dictionaries of these, at any depth. Dates, times, decimals and intervals
/// of months are integers, and the other intervals are in no order.
///
/// # Errors
/// `OutOfMemory` where memory is refused.
///
/// Source: arrow2's `comparison::gt_scalar`.
pub fn gt_scalar(alloc: Global, lhs: &AnyArray, rhs: &AnyScalar) -> Result<BooleanArray, Error>
    requires one_type { logical (any_array_type lhs.now) ≡ logical (meaning_of rhs.now).0 }
    requires has_order { HasOrderThrough (any_array_type lhs.now) }
    ensures { AnswersTruths result
        (map (λ s. related relation.gt (through s) (through (meaning_of rhs.now).1))
        (any_array_rows lhs.now)) }
{
    relate_scalar(alloc, Relation::Gt, lhs, rhs)
}

/// Whether each row does not come before that of the other side, and null where one of the two is.
///
/// # Requires
/// The data types of both are equal, extensions around each apart; both have as many rows; and they are of truth values,
/// integers of any width, texts or bytes, by how they lie in memory: dates, times, decimals and intervals of months are
/// integers, and the other intervals are in no order.
///
/// # Errors
/// `OutOfMemory` where memory is refused.
///
/// Source: arrow2's `comparison::gt_eq`.
pub fn gt_eq(alloc: Global, lhs: &AnyArray, rhs: &AnyArray) -> Result<BooleanArray, Error>
    requires one_type { logical (any_array_type lhs.now) ≡ logical (any_array_type rhs.now) }
    requires one_length { length (any_array_rows lhs.now) ≡ length (any_array_rows rhs.now) }
    requires has_order { HasOrder (physical_type_of (any_array_type lhs.now)) }
    ensures { AnswersTruths result
        (row_by_row (related relation.gt_eq) (any_array_rows lhs.now) (any_array_rows rhs.now)) }
{
    relate(alloc, Relation::GtEq, lhs, rhs)
}

/// Whether each row does not come before the scalar, and null where the row is; all are null where the scalar is. Each row,
/// and the scalar, is read through its dictionaries.
///
/// # Requires
/// The data types of both are equal, extensions around each apart; and they are of truth values, integers of any width,
/// texts or bytes, by how they lie in memory, or of dictionaries of these, at any depth. Dates, times, decimals and intervals
/// of months are integers, and the other intervals are in no order.
///
/// # Errors
/// `OutOfMemory` where memory is refused.
///
/// Source: arrow2's `comparison::gt_eq_scalar`.
pub fn gt_eq_scalar(alloc: Global, lhs: &AnyArray, rhs: &AnyScalar) -> Result<BooleanArray, Error>
    requires one_type { logical (any_array_type lhs.now) ≡ logical (meaning_of rhs.now).0 }
    requires has_order { HasOrderThrough (any_array_type lhs.now) }
    ensures { AnswersTruths result
        (map (λ s. related relation.gt_eq (through s) (through (meaning_of rhs.now).1))
        (any_array_rows lhs.now)) }
{
    relate_scalar(alloc, Relation::GtEq, lhs, rhs)
}
