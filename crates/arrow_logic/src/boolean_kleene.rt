//! Kleene's logic on arrays of truth values, in which a null is a truth value that is not known.

ghost use Rattle.std.specs.Prelude.{◌≡◌, ◌↔◌, true, All, Contains, IsTrue, IfOk, IsOkUnless, length, map, option_copied};
ghost use Rattle.arrow_types.specs.declared.error.Error.{Error};
ghost use Rattle.arrow_types.specs.ArrowType.{boolean, plain};
ghost use Rattle.arrow_types.specs.Logic.{kleene_both, kleene_either};
ghost use Rattle.arrow_types.specs.Slot.{Boolean};
ghost use Rattle.arrow_flat.specs.Parts.{boolean_rows, FitsRows};
ghost use Rattle.arrow_flat.specs.Scalars.{slot_by as scalar_slot};
ghost use Rattle.arrow_logic.specs.Connective.{decides, kleene_by, known_side};
ghost use Rattle.arrow_flat.specs.RowByRow.{row_by_row};
ghost use Rattle.arrow_flat.specs.Validities.{combined};
ghost use Rattle.arrow_flat.specs.Truths.{AnswersTruths};

use crate::boolean;
use crate::connective::Connective;
use arrow_flat::array::BooleanArray;
use arrow_flat::array::truths::truths;
use arrow_flat::array::validity::shared;
use arrow_flat::scalar::BooleanScalar;
use arrow_memory::bitmap::Bitmap;
use arrow_types::error::Error;
use std::alloc::Global;

/// Whether both rows are true: false where one is false, whatever the other is, and otherwise null where one is null.
///
/// # Requires
/// Both have as many rows.
///
/// # Errors
/// `OutOfMemory` where memory is refused.
///
/// Source: arrow2's `boolean_kleene::and`.
pub fn and(alloc: Global, lhs: &BooleanArray, rhs: &BooleanArray) -> Result<BooleanArray, Error>
    requires { length (boolean_rows lhs.now) ≡ length (boolean_rows rhs.now) }
    ensures { AnswersTruths result (row_by_row kleene_both (boolean_rows lhs.now) (boolean_rows rhs.now)) }
{
    connect(alloc, Connective::And, lhs, rhs)
}

/// Whether one row at least is true: true where one is true, whatever the other is, and otherwise null where one is null.
///
/// # Requires
/// Both have as many rows.
///
/// # Errors
/// `OutOfMemory` where memory is refused.
///
/// Source: arrow2's `boolean_kleene::or`.
pub fn or(alloc: Global, lhs: &BooleanArray, rhs: &BooleanArray) -> Result<BooleanArray, Error>
    requires { length (boolean_rows lhs.now) ≡ length (boolean_rows rhs.now) }
    ensures { AnswersTruths result (row_by_row kleene_either (boolean_rows lhs.now) (boolean_rows rhs.now)) }
{
    connect(alloc, Connective::Or, lhs, rhs)
}

/// [`and`] of each row and a scalar.
///
/// # Errors
/// `OutOfMemory` where memory is refused.
///
/// Source: arrow2's `boolean_kleene::and_scalar`.
pub fn and_scalar(
    alloc: Global,
    array: &BooleanArray,
    scalar: &BooleanScalar,
) -> Result<BooleanArray, Error>
    ensures { AnswersTruths result
        (map (λ s. kleene_both s (scalar_slot Boolean scalar.now.value)) (boolean_rows array.now)) }
{
    connect_scalar(alloc, Connective::And, array, scalar.value())
}

/// [`or`] of each row and a scalar.
///
/// # Errors
/// `OutOfMemory` where memory is refused.
///
/// Source: arrow2's `boolean_kleene::or_scalar`.
pub fn or_scalar(
    alloc: Global,
    array: &BooleanArray,
    scalar: &BooleanScalar,
) -> Result<BooleanArray, Error>
    ensures { AnswersTruths result
        (map (λ s. kleene_either s (scalar_slot Boolean scalar.now.value)) (boolean_rows array.now)) }
{
    connect_scalar(alloc, Connective::Or, array, scalar.value())
}

/// Whether some row is true.
///
/// Source: arrow2's `boolean_kleene::any`.
pub fn any(array: &BooleanArray) -> bool
    ensures { IsTrue result ↔ Contains (boolean_rows array.now) (Boolean true) }
{
    boolean::any(array)
}

/// Whether every row is true.
///
/// Source: arrow2's `boolean_kleene::all`.
pub fn all(array: &BooleanArray) -> bool
    ensures { IsTrue result ↔ All (λ s. s ≡ Boolean true) (boolean_rows array.now) }
{
    boolean::all(array)
}

// What a connective makes of the rows of two arrays: of the values bit by bit, and known where `known_rows` says so.
fn connect(
    alloc: Global,
    connective: Connective,
    lhs: &BooleanArray,
    rhs: &BooleanArray,
) -> Result<BooleanArray, Error>
    requires { length (boolean_rows lhs.now) ≡ length (boolean_rows rhs.now) }
    ensures array_type { IfOk result (λ array. array.arrow_type ≡ plain boolean) }
    ensures rows { IfOk result (λ array. boolean_rows array
        ≡ row_by_row (kleene_by connective) (boolean_rows lhs.now) (boolean_rows rhs.now)) }
    ensures err { IsOkUnless result Error.OutOfMemory }
{
    // A validity has a bit for each value.
    let _ = lhs.validity();
    let _ = rhs.validity();
    let validity = known_rows(alloc, connective, lhs, rhs)?;
    let values = connective.of_bits(alloc, lhs.values(), rhs.values())?;
    Ok(truths(values, validity))
}

// The rows of two arrays that are known: none is said to be where neither has a validity. Of two with one it is one pass.
fn known_rows(
    alloc: Global,
    connective: Connective,
    lhs: &BooleanArray,
    rhs: &BooleanArray,
) -> Result<Option<Bitmap>, Error>
    requires { length (boolean_rows lhs.now) ≡ length (boolean_rows rhs.now) }
    ensures ok { IfOk result (λ bits. bits
        ≡ combined (known_side lhs.now.validity (map (decides connective) (boolean_rows rhs.now)))
        (known_side rhs.now.validity (map (decides connective) (boolean_rows lhs.now)))) }
    ensures err { IsOkUnless result Error.OutOfMemory }
{
    let (left, right) = (lhs.values(), rhs.values());
    match (lhs.validity(), rhs.validity()) {
        (Some(left_valid), Some(right_valid)) => {
            let known = connective.known(alloc, left_valid, left, right_valid, right)?;
            Ok(Some(known))
        }
        (validity, None) => known_side(alloc, connective, validity, rhs),
        (None, validity) => known_side(alloc, connective, validity, lhs),
    }
}

// The rows that a validity marks as valid, and those at which the other side decides; none where there is no validity.
fn known_side(
    alloc: Global,
    connective: Connective,
    validity: Option<&Bitmap>,
    other: &BooleanArray,
) -> Result<Option<Bitmap>, Error>
    requires { FitsRows (option_copied validity) (length (boolean_rows other.now)) }
    ensures ok { IfOk result (λ known. known
        ≡ known_side (option_copied validity.entry) (map (decides connective) (boolean_rows other.now))) }
    ensures err { IsOkUnless result Error.OutOfMemory }
{
    match validity {
        None => Ok(None),
        Some(valid) => {
            let deciding = connective.deciding(alloc, other)?;
            Ok(Some(valid.or(alloc, &deciding)?))
        }
    }
}

// What a connective makes of each row and a truth value, or a null.
fn connect_scalar(
    alloc: Global,
    connective: Connective,
    array: &BooleanArray,
    scalar: Option<bool>,
) -> Result<BooleanArray, Error>
    ensures array_type { IfOk result (λ array. array.arrow_type ≡ plain boolean) }
    ensures rows { IfOk result (λ answer. boolean_rows answer
        ≡ map (λ s. kleene_by connective s (scalar_slot Boolean scalar)) (boolean_rows array.now)) }
    ensures err { IsOkUnless result Error.OutOfMemory }
{
    let len = array.len();
    match scalar {
        Some(value) if value == connective.decider() => {
            Ok(truths(Bitmap::new_constant(alloc, value, len)?, None))
        }
        Some(_) => Ok(truths(array.values().clone()?, shared(array.validity())?)),
        // What decides is known; the values beneath it are that one.
        None => {
            let deciding = connective.deciding(alloc, array)?;
            Ok(truths(array.values().clone()?, Some(deciding)))
        }
    }
}
