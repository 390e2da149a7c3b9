//! Two-valued logic on arrays of truth values, in which a null gives a null, and which rows of any array are null.

ghost use Rattle.std.specs.Prelude.{◌≡◌, ◌↔◌, ℕ, ◌+◌, ◌*◌, ◌<◌, ◌==◌, true, not, None, All, Contains, IsTrue, IfOk, IsOkUnless, length, map, option_copied, replicate, slice_index_or};
ghost use Rattle.std.specs.Int.{bit_at};
ghost use Rattle.arrow_types.specs.declared.error.Error.{Error};
ghost use Rattle.arrow_types.specs.ArrowType.{boolean, plain};
ghost use Rattle.arrow_types.specs.Logic.{both, either, negated};
ghost use Rattle.arrow_types.specs.Relation.{is_null};
ghost use Rattle.arrow_types.specs.Rows.{selects};
ghost use Rattle.arrow_types.specs.Slot.{Boolean, Null};
ghost use Rattle.arrow_flat.specs.Parts.{boolean_rows};
ghost use Rattle.arrow_flat.specs.Scalars.{slot_by as scalar_slot};
ghost use Rattle.arrow_arrays.specs.Any.{any_array_rows, kind_of, null_kind};
ghost use Rattle.arrow_logic.specs.Connective.{slot_by};
ghost use Rattle.arrow_flat.specs.RowByRow.{row_by_row};
ghost use Rattle.arrow_flat.specs.Truths.{AnswersTruths};

use crate::connective::Connective;
use arrow_arrays::array::AnyArray;
use arrow_flat::array::BooleanArray;
use arrow_flat::array::truths::truths;
use arrow_flat::array::validity::{combine_validities, shared};
use arrow_flat::scalar::BooleanScalar;
use arrow_memory::bitmap::{Bitmap, WORD_BITS};
use arrow_types::error::Error;
use std::alloc::Global;

/// Whether both rows are true, and null where one is null.
///
/// # Requires
/// Both have as many rows.
///
/// # Errors
/// `OutOfMemory` where memory is refused.
///
/// Source: arrow2's `boolean::and`.
pub fn and(alloc: Global, lhs: &BooleanArray, rhs: &BooleanArray) -> Result<BooleanArray, Error>
    requires { length (boolean_rows lhs.now) ≡ length (boolean_rows rhs.now) }
    ensures { AnswersTruths result (row_by_row both (boolean_rows lhs.now) (boolean_rows rhs.now)) }
{
    connect(alloc, Connective::And, lhs, rhs)
}

/// Whether one row at least is true, and null where one is null.
///
/// # Requires
/// Both have as many rows.
///
/// # Errors
/// `OutOfMemory` where memory is refused.
///
/// Source: arrow2's `boolean::or`.
pub fn or(alloc: Global, lhs: &BooleanArray, rhs: &BooleanArray) -> Result<BooleanArray, Error>
    requires { length (boolean_rows lhs.now) ≡ length (boolean_rows rhs.now) }
    ensures { AnswersTruths result (row_by_row either (boolean_rows lhs.now) (boolean_rows rhs.now)) }
{
    connect(alloc, Connective::Or, lhs, rhs)
}

/// Each row turned; a null stays.
///
/// # Errors
/// `OutOfMemory` where memory is refused.
///
/// Source: arrow2's `boolean::not`.
pub fn not(alloc: Global, array: &BooleanArray) -> Result<BooleanArray, Error>
    ensures { AnswersTruths result (map negated (boolean_rows array.now)) }
{
    let values = array.values().not(alloc)?;
    Ok(truths(values, shared(array.validity())?))
}

/// [`and`] of each row and a scalar: all are null where the scalar is.
///
/// # Errors
/// `OutOfMemory` where memory is refused.
///
/// Source: arrow2's `boolean::and_scalar`.
pub fn and_scalar(
    alloc: Global,
    array: &BooleanArray,
    scalar: &BooleanScalar,
) -> Result<BooleanArray, Error>
    ensures { AnswersTruths result
        (map (λ s. both s (scalar_slot Boolean scalar.now.value)) (boolean_rows array.now)) }
{
    connect_scalar(alloc, Connective::And, array, scalar.value())
}

/// [`or`] of each row and a scalar: all are null where the scalar is.
///
/// # Errors
/// `OutOfMemory` where memory is refused.
///
/// Source: arrow2's `boolean::or_scalar`.
pub fn or_scalar(
    alloc: Global,
    array: &BooleanArray,
    scalar: &BooleanScalar,
) -> Result<BooleanArray, Error>
    ensures { AnswersTruths result
        (map (λ s. either s (scalar_slot Boolean scalar.now.value)) (boolean_rows array.now)) }
{
    connect_scalar(alloc, Connective::Or, array, scalar.value())
}

/// Whether each row is null. Of a dictionary its keys decide; no row of a union is null, and each of the null type is.
///
/// # Errors
/// `OutOfMemory` where memory is refused.
///
/// Source: arrow2's `boolean::is_null`.
pub fn is_null(alloc: Global, input: &AnyArray) -> Result<BooleanArray, Error>
    ensures { AnswersTruths result (map (λ s. Boolean (is_null s)) (any_array_rows input.now)) }
{
    let nulls = match input.validity() {
        None => Bitmap::new_constant(alloc, is_of_nulls(input), input.len())?,
        Some(validity) => validity.not(alloc)?,
    };
    Ok(truths(nulls, None))
}

/// Whether each row is no null: the rows of [`is_null`] turned.
///
/// # Errors
/// `OutOfMemory` where memory is refused.
///
/// Source: arrow2's `boolean::is_not_null`.
pub fn is_not_null(alloc: Global, input: &AnyArray) -> Result<BooleanArray, Error>
    ensures { AnswersTruths result (map (λ s. Boolean (not (is_null s))) (any_array_rows input.now)) }
{
    let valid = match input.validity() {
        None => Bitmap::new_constant(alloc, !is_of_nulls(input), input.len())?,
        Some(validity) => validity.clone()?,
    };
    Ok(truths(valid, None))
}

/// Whether some row is true, a word at a time up to the first that has one.
///
/// Source: arrow2's `boolean::any`.
pub fn any(array: &BooleanArray) -> bool
    ensures { IsTrue result ↔ Contains (boolean_rows array.now) (Boolean true) }
{
    for j in 0..array.len().div_ceil(WORD_BITS) {
        if true_word(array, j) != 0 {
            return true;
        }
    }
    false
}

/// Whether every row is true: none is null, and none is false.
///
/// Source: arrow2's `boolean::all`.
pub fn all(array: &BooleanArray) -> bool
    ensures { IsTrue result ↔ All (λ s. s ≡ Boolean true) (boolean_rows array.now) }
{
    // The validity has a bit for each value.
    let _ = array.validity();
    array.null_count() == 0 && array.values().unset_bits() == 0
}

// Which of the 64 rows from row 64 j on are true, a bit each.
fn true_word(array: &BooleanArray, j: usize) -> u64
    ensures { (k : ℕ) → k < 64 → (bit_at result k == 1)
        ≡ selects (slice_index_or (boolean_rows array.now) (64 * j + k) Null) }
{
    let word = array.values().word(j);
    match array.validity() {
        None => word,
        Some(validity) => word & validity.word(j),
    }
}

// Whether an array is of the null type: then all rows are null, and no validity says so.
fn is_of_nulls(input: &AnyArray) -> bool
    ensures { IsTrue result ↔ (kind_of input.now ≡ null_kind) }
{
    matches!(input, AnyArray::Null(_))
}

// What a connective makes of the rows of two arrays: of the values bit by bit, null where a side is null.
fn connect(
    alloc: Global,
    connective: Connective,
    lhs: &BooleanArray,
    rhs: &BooleanArray,
) -> Result<BooleanArray, Error>
    requires { length (boolean_rows lhs.now) ≡ length (boolean_rows rhs.now) }
    ensures array_type { IfOk result (λ array. array.arrow_type ≡ plain boolean) }
    ensures rows { IfOk result (λ array. boolean_rows array
        ≡ row_by_row (slot_by connective) (boolean_rows lhs.now) (boolean_rows rhs.now)) }
    ensures err { IsOkUnless result Error.OutOfMemory }
{
    let validity = combine_validities(alloc, lhs.validity(), rhs.validity())?;
    let values = connective.of_bits(alloc, lhs.values(), rhs.values())?;
    Ok(truths(values, validity))
}

// What a connective makes of each row and a truth value, or a null.
fn connect_scalar(
    alloc: Global,
    connective: Connective,
    array: &BooleanArray,
    scalar: Option<bool>,
) -> Result<BooleanArray, Error>
    ensures array_type { IfOk result (λ array. array.arrow_type ≡ plain boolean) }
    ensures rows { IfOk result (λ answer. boolean_rows answer
        ≡ map (λ s. slot_by connective s (scalar_slot Boolean scalar)) (boolean_rows array.now)) }
    ensures err { IsOkUnless result Error.OutOfMemory }
{
    let len = array.len();
    match scalar {
        Some(value) if value == connective.decider() => {
            let values = Bitmap::new_constant(alloc, value, len)?;
            Ok(truths(values, shared(array.validity())?))
        }
        Some(_) => Ok(truths(array.values().clone()?, shared(array.validity())?)),
        None => {
            let unset = Bitmap::new_zeroed(alloc, len)?;
            Ok(truths(unset.clone()?, Some(unset)))
        }
    }
}
