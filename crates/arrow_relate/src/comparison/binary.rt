//! Relations of rows of bytes: by the first that differs, unsigned; a beginning comes before what goes on.

ghost use Rattle.std.specs.Prelude.{map};
ghost use Rattle.arrow_types.specs.Relation.{related};
ghost use Rattle.arrow_types.specs.Relation as relation;
ghost use Rattle.arrow_relate.specs.Related.{relation_of};
ghost use Rattle.arrow_types.specs.Slot.{Bytes};
ghost use Rattle.arrow_flat.specs.ByteRows.{byte_slots};
ghost use Rattle.arrow_flat.specs.Parts.{rows_by};
ghost use Rattle.arrow_relate.specs.Same.{is_same, differs};
ghost use Rattle.arrow_flat.specs.Truths.{AnswersTruths};

use crate::fixed::{Equal, Greater, GreaterOrEqual, Less, LessOrEqual, NotEqual};
use crate::relation::Relation;
use crate::stored::{relate_scalar_by, same_scalar_by};
use arrow_flat::array::{BinaryArray, BooleanArray};
use arrow_types::error::Error;
use arrow_types::types::Offset;
use std::alloc::Global;

// Relations of two arrays are the same of texts and of any bytes.
pub use crate::comparison::bytes::{
    eq, eq_and_validity, gt, gt_eq, lt, lt_eq, neq, neq_and_validity, relate,
};

/// Whether each row equals the scalar, and null where the row is.
///
/// # Errors
/// `OutOfMemory` where memory is refused.
///
/// Source: arrow2's `comparison::binary::eq_scalar`.
pub fn eq_scalar<O: Offset>(
    alloc: Global,
    lhs: &BinaryArray<O>,
    rhs: &[u8],
) -> Result<BooleanArray, Error>
    ensures { AnswersTruths result
        (map (λ s. related relation.eq s (Bytes rhs.now)) (rows_by (byte_slots Bytes) lhs.now)) }
{
    relate_scalar_by::<Equal, _, _>(alloc, lhs, rhs)
}

/// Whether each row is the scalar: a null is not. No row is null.
///
/// # Errors
/// `OutOfMemory` where memory is refused.
///
/// Source: arrow2's `comparison::binary::eq_scalar_and_validity`.
pub fn eq_scalar_and_validity<O: Offset>(
    alloc: Global,
    lhs: &BinaryArray<O>,
    rhs: &[u8],
) -> Result<BooleanArray, Error>
    ensures { AnswersTruths result
        (map (λ s. is_same s (Bytes rhs.now)) (rows_by (byte_slots Bytes) lhs.now)) }
{
    same_scalar_by::<Equal, _, _>(alloc, lhs, rhs)
}

/// Whether each row differs from the scalar, and null where the row is.
///
/// # Errors
/// `OutOfMemory` where memory is refused.
///
/// Source: arrow2's `comparison::binary::neq_scalar`.
pub fn neq_scalar<O: Offset>(
    alloc: Global,
    lhs: &BinaryArray<O>,
    rhs: &[u8],
) -> Result<BooleanArray, Error>
    ensures { AnswersTruths result
        (map (λ s. related relation.neq s (Bytes rhs.now)) (rows_by (byte_slots Bytes) lhs.now)) }
{
    relate_scalar_by::<NotEqual, _, _>(alloc, lhs, rhs)
}

/// Whether each row differs from the scalar: a null does. No row is null.
///
/// # Errors
/// `OutOfMemory` where memory is refused.
///
/// Source: arrow2's `comparison::binary::neq_scalar_and_validity`.
pub fn neq_scalar_and_validity<O: Offset>(
    alloc: Global,
    lhs: &BinaryArray<O>,
    rhs: &[u8],
) -> Result<BooleanArray, Error>
    ensures { AnswersTruths result
        (map (λ s. differs s (Bytes rhs.now)) (rows_by (byte_slots Bytes) lhs.now)) }
{
    same_scalar_by::<NotEqual, _, _>(alloc, lhs, rhs)
}

/// Whether each row comes before the scalar, and null where the row is.
///
/// # Errors
/// `OutOfMemory` where memory is refused.
///
/// Source: arrow2's `comparison::binary::lt_scalar`.
pub fn lt_scalar<O: Offset>(
    alloc: Global,
    lhs: &BinaryArray<O>,
    rhs: &[u8],
) -> Result<BooleanArray, Error>
    ensures { AnswersTruths result
        (map (λ s. related relation.lt s (Bytes rhs.now)) (rows_by (byte_slots Bytes) lhs.now)) }
{
    relate_scalar_by::<Less, _, _>(alloc, lhs, rhs)
}

/// Whether each row does not come after the scalar, and null where the row is.
///
/// # Errors
/// `OutOfMemory` where memory is refused.
///
/// Source: arrow2's `comparison::binary::lt_eq_scalar`.
pub fn lt_eq_scalar<O: Offset>(
    alloc: Global,
    lhs: &BinaryArray<O>,
    rhs: &[u8],
) -> Result<BooleanArray, Error>
    ensures { AnswersTruths result
        (map (λ s. related relation.lt_eq s (Bytes rhs.now)) (rows_by (byte_slots Bytes) lhs.now)) }
{
    relate_scalar_by::<LessOrEqual, _, _>(alloc, lhs, rhs)
}

/// Whether each row comes after the scalar, and null where the row is.
///
/// # Errors
/// `OutOfMemory` where memory is refused.
///
/// Source: arrow2's `comparison::binary::gt_scalar`.
pub fn gt_scalar<O: Offset>(
    alloc: Global,
    lhs: &BinaryArray<O>,
    rhs: &[u8],
) -> Result<BooleanArray, Error>
    ensures { AnswersTruths result
        (map (λ s. related relation.gt s (Bytes rhs.now)) (rows_by (byte_slots Bytes) lhs.now)) }
{
    relate_scalar_by::<Greater, _, _>(alloc, lhs, rhs)
}

/// Whether each row does not come before the scalar, and null where the row is.
///
/// # Errors
/// `OutOfMemory` where memory is refused.
///
/// Source: arrow2's `comparison::binary::gt_eq_scalar`.
pub fn gt_eq_scalar<O: Offset>(
    alloc: Global,
    lhs: &BinaryArray<O>,
    rhs: &[u8],
) -> Result<BooleanArray, Error>
    ensures { AnswersTruths result
        (map (λ s. related relation.gt_eq s (Bytes rhs.now)) (rows_by (byte_slots Bytes) lhs.now)) }
{
    relate_scalar_by::<GreaterOrEqual, _, _>(alloc, lhs, rhs)
}

/// Whether each row is so related to the scalar, and null where the row is.
///
/// # Errors
/// `OutOfMemory` where memory is refused.
#[inline(never)]
pub fn relate_scalar<O: Offset>(
    alloc: Global,
    by: Relation,
    lhs: &BinaryArray<O>,
    rhs: &[u8],
) -> Result<BooleanArray, Error>
    ensures { AnswersTruths result
        (map (λ s. related (relation_of by) s (Bytes rhs.now)) (rows_by (byte_slots Bytes) lhs.now)) }
{
    by_relation!(by, relate_scalar_by::<_, _, _>(alloc, lhs, rhs))
}
