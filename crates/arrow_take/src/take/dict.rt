//! Dictionaries by index: the keys are taken, and the values kept.

ghost use Rattle.std.specs.Prelude.{◌≡◌, length, map, IfOk, IsOkUnless};
ghost use Rattle.arrow_types.specs.declared.error.Error.{Error};
ghost use Rattle.arrow_types.specs.ArrowType.{null, plain};
ghost use Rattle.arrow_types.specs.Fits.{Fits};
ghost use Rattle.arrow_types.specs.Rows.{gather};
ghost use Rattle.arrow_flat.specs.Parts.{rows_by};
ghost use Rattle.arrow_arrays.specs.AnyKeys.{key_rows, key_type_of};
ghost use Rattle.arrow_arrays.specs.KeyedParts.{keyed_rows};
ghost use Rattle.arrow_take.specs.Taken.{AreIndices};

use crate::take::primitive;
use arrow_arrays::array::{AnyKeys, DictionaryArray};
use arrow_flat::array::PrimitiveArray;
use arrow_types::error::Error;
use arrow_types::types::{Index, NativeType};
use std::alloc::Global;

/// The rows that the indices name, in their order, and null where an index is null, whatever lies beneath it. The
/// values are those of before.
///
/// # Requires
/// Each index that is not null is that of a row.
///
/// # Errors
/// `OutOfMemory` where memory is refused.
///
/// Source: arrow2's `take::dict::take`.
pub fn take<I: Index>(
    alloc: Global,
    values: &DictionaryArray,
    indices: &PrimitiveArray<I>,
) -> Result<DictionaryArray, Error>
    requires inside { AreIndices (length (keyed_rows values.now)) (rows_by (map I.slot) indices.now) }
    ensures array_type { IfOk result (λ taken. taken.arrow_type ≡ values.now.arrow_type) }
    ensures rows { IfOk result (λ taken. keyed_rows taken
        ≡ gather (keyed_rows values.now) (rows_by (map I.slot) indices.now) values.now.arrow_type) }
    ensures values { IfOk result (λ taken. taken.child ≡ values.now.child) }
    ensures fits { IfOk result (λ taken. Fits taken.arrow_type (keyed_rows taken)) }
    ensures err { IsOkUnless result Error.OutOfMemory }
{
    // There are as many rows as keys, and as a `usize` counts.
    let (_, _) = (values.len(), indices.len());
    let keys = take_keys(alloc, values.keys(), indices)?;
    let child = Box::new(alloc, values.values().clone()?)?;
    Ok(DictionaryArray::new(values.data_type().clone()?, keys, child))
}

// The keys that the indices name, null where an index is.
fn take_keys<I: Index>(
    alloc: Global,
    keys: &AnyKeys,
    indices: &PrimitiveArray<I>,
) -> Result<AnyKeys, Error>
    requires { AreIndices (length (key_rows keys.now)) (rows_by (map I.slot) indices.now) }
    ensures ok { IfOk result (λ taken. key_rows taken
        ≡ gather (key_rows keys.now) (rows_by (map I.slot) indices.now) (plain null)) }
    ensures same { IfOk result (λ taken. key_type_of taken ≡ key_type_of keys.now) }
    ensures err { IsOkUnless result Error.OutOfMemory }
{
    match keys {
        AnyKeys::Int8(keys) => Ok(AnyKeys::Int8(take_key(alloc, keys, indices)?)),
        AnyKeys::Int16(keys) => Ok(AnyKeys::Int16(take_key(alloc, keys, indices)?)),
        AnyKeys::Int32(keys) => Ok(AnyKeys::Int32(take_key(alloc, keys, indices)?)),
        AnyKeys::Int64(keys) => Ok(AnyKeys::Int64(take_key(alloc, keys, indices)?)),
        AnyKeys::UInt8(keys) => Ok(AnyKeys::UInt8(take_key(alloc, keys, indices)?)),
        AnyKeys::UInt16(keys) => Ok(AnyKeys::UInt16(take_key(alloc, keys, indices)?)),
        AnyKeys::UInt32(keys) => Ok(AnyKeys::UInt32(take_key(alloc, keys, indices)?)),
        AnyKeys::UInt64(keys) => Ok(AnyKeys::UInt64(take_key(alloc, keys, indices)?)),
    }
}

// The keys of one type that the indices name, null where an index is.
fn take_key<K: NativeType, I: Index>(
    alloc: Global,
    keys: &PrimitiveArray<K>,
    indices: &PrimitiveArray<I>,
) -> Result<PrimitiveArray<K>, Error>
    requires { AreIndices (length (rows_by (map K.slot) keys.now)) (rows_by (map I.slot) indices.now) }
    ensures ok { IfOk result (λ taken. rows_by (map K.slot) taken
        ≡ gather (rows_by (map K.slot) keys.now) (rows_by (map I.slot) indices.now) (plain null)) }
    ensures err { IsOkUnless result Error.OutOfMemory }
{
    // The null slot of the keys' type is null.
    let _ = keys.data_type();
    primitive::take(alloc, keys, indices)
}
