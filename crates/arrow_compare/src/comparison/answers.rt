//! What becomes of the answers to the values of a dictionary, and of answers that are null.

ghost use Rattle.std.specs.Prelude.{◌≡◌, length, map, replicate, IfOk, IsOkUnless};
ghost use Rattle.arrow_types.specs.declared.error.Error.{Error};
ghost use Rattle.arrow_types.specs.ArrowType.{boolean, plain};
ghost use Rattle.arrow_types.specs.Rows.{gather};
ghost use Rattle.arrow_types.specs.Slot.{Boolean, Null};
ghost use Rattle.arrow_flat.specs.Parts.{boolean_rows};
ghost use Rattle.arrow_arrays.specs.AnyKeys.{key_rows};
ghost use Rattle.arrow_arrays.specs.KeyedParts.{AreKeys};
ghost use Rattle.arrow_compare.specs.Filled.{known_or};
ghost use Rattle.arrow_flat.specs.Truths.{AnswersTruths};

use arrow_arrays::array::AnyKeys;
use arrow_flat::array::BooleanArray;
use arrow_flat::array::truths::truths;
use arrow_memory::bitmap::Bitmap;
use arrow_take::take::boolean::take;
use arrow_types::error::Error;
use std::alloc::Global;

// The answer that each key names, and null where it is null.
pub(super) fn take_answers(
    alloc: Global,
    answers: &BooleanArray,
    keys: &AnyKeys,
) -> Result<BooleanArray, Error>
    requires { AreKeys (length (boolean_rows answers.now)) (key_rows keys.now) }
    ensures array_type { IfOk result (λ array. array.arrow_type ≡ answers.now.arrow_type) }
    ensures rows { IfOk result (λ array. boolean_rows array
        ≡ gather (boolean_rows answers.now) (key_rows keys.now) answers.now.arrow_type) }
    ensures err { IsOkUnless result Error.OutOfMemory }
{
    match keys {
        AnyKeys::Int8(keys) => take(alloc, answers, keys),
        AnyKeys::Int16(keys) => take(alloc, answers, keys),
        AnyKeys::Int32(keys) => take(alloc, answers, keys),
        AnyKeys::Int64(keys) => take(alloc, answers, keys),
        AnyKeys::UInt8(keys) => take(alloc, answers, keys),
        AnyKeys::UInt16(keys) => take(alloc, answers, keys),
        AnyKeys::UInt32(keys) => take(alloc, answers, keys),
        AnyKeys::UInt64(keys) => take(alloc, answers, keys),
    }
}

// Each answer, and the spare one where it is null. Where none is, they are handed on.
#[inline(always)]
pub(super) fn known_or(
    alloc: Global,
    spare: bool,
    answers: BooleanArray,
) -> Result<BooleanArray, Error>
    requires { answers.arrow_type ≡ plain boolean }
    ensures { AnswersTruths result (map (known_or spare) (boolean_rows answers)) }
{
    if answers.validity().is_none() {
        return Ok(answers);
    }
    Ok(truths(known_bits(alloc, spare, &answers)?, None))
}

// A bit for each answer, and the spare one where it is null, a word at a time.
fn known_bits(alloc: Global, spare: bool, answers: &BooleanArray) -> Result<Bitmap, Error>
    ensures ok { IfOk result (λ bits. map Boolean bits ≡ map (known_or spare) (boolean_rows answers.now)) }
    ensures err { IsOkUnless result Error.OutOfMemory }
{
    let values = answers.values();
    match (answers.validity(), spare) {
        (None, _) => Ok(values.clone()?),
        (Some(validity), false) => values.and(alloc, validity),
        (Some(validity), true) => values.or(alloc, &validity.not(alloc)?),
    }
}

// So many answers, all null.
#[inline(never)]
pub(super) fn all_null(alloc: Global, len: usize) -> Result<BooleanArray, Error>
    ensures array_type { IfOk result (λ array. array.arrow_type ≡ plain boolean) }
    ensures rows { IfOk result (λ array. boolean_rows array ≡ replicate len Null) }
    ensures err { IsOkUnless result Error.OutOfMemory }
{
    let unset = Bitmap::new_zeroed(alloc, len)?;
    Ok(truths(unset.clone()?, Some(unset)))
}
