//! Dictionaries that are kept: their keys as numbers, over the values as they are.

ghost use Rattle.std.specs.Prelude.{◌≡◌, count_by, length, map, IfOk, IsOkUnless};
ghost use Rattle.arrow_types.specs.declared.error.Error.{Error};
ghost use Rattle.arrow_types.specs.Fits.{Fits};
ghost use Rattle.arrow_types.specs.Rows.{select};
ghost use Rattle.arrow_arrays.specs.AnyKeys.{key_rows, key_type_of};
ghost use Rattle.arrow_arrays.specs.KeyedParts.{keyed_rows};
ghost use Rattle.arrow_select.specs.Selection.{mask_in};

use crate::filter::primitive::filter_values;
use crate::filter::selection::Selection;
use arrow_arrays::array::{AnyKeys, DictionaryArray};
use arrow_types::error::Error;
use std::alloc::Global;

// The rows that are kept, of which there are so many. The values are those of before.
pub(super) fn filter_dictionary(
    alloc: Global,
    array: &DictionaryArray,
    selection: Selection<'_>,
    count: usize,
) -> Result<DictionaryArray, Error>
    requires lengths { length (mask_in selection) ≡ length (keyed_rows array.now) }
    requires count { count ≡ count_by (λ is_kept. is_kept) (mask_in selection) }
    ensures array_type { IfOk result (λ kept. kept.arrow_type ≡ array.now.arrow_type) }
    ensures rows { IfOk result (λ kept. keyed_rows kept
        ≡ select (mask_in selection.entry) (keyed_rows array.now)) }
    ensures fits { IfOk result (λ kept. Fits kept.arrow_type (keyed_rows kept)) }
    ensures err { IsOkUnless result Error.OutOfMemory }
{
    // There are as many rows as keys.
    let _ = array.len();
    let keys = filter_keys(alloc, array.keys(), selection, count)?;
    let values = Box::new(alloc, array.values().clone()?)?;
    Ok(DictionaryArray::new(array.data_type().clone()?, keys, values))
}

// The keys that are kept, of any key type.
fn filter_keys(
    alloc: Global,
    keys: &AnyKeys,
    selection: Selection<'_>,
    count: usize,
) -> Result<AnyKeys, Error>
    requires lengths { length (mask_in selection) ≡ length (key_rows keys.now) }
    requires count { count ≡ count_by (λ is_kept. is_kept) (mask_in selection) }
    ensures ok { IfOk result (λ kept. key_rows kept ≡ select (mask_in selection.entry) (key_rows keys.now)) }
    ensures same { IfOk result (λ kept. key_type_of kept ≡ key_type_of keys.now) }
    ensures err { IsOkUnless result Error.OutOfMemory }
{
    macro_rules! of_type {
        ($keys:ident, $type:ident) => {
            Ok(AnyKeys::$type(filter_values(alloc, $keys, selection, count)?))
        };
    }
    match keys {
        AnyKeys::Int8(keys) => of_type!(keys, Int8),
        AnyKeys::Int16(keys) => of_type!(keys, Int16),
        AnyKeys::Int32(keys) => of_type!(keys, Int32),
        AnyKeys::Int64(keys) => of_type!(keys, Int64),
        AnyKeys::UInt8(keys) => of_type!(keys, UInt8),
        AnyKeys::UInt16(keys) => of_type!(keys, UInt16),
        AnyKeys::UInt32(keys) => of_type!(keys, UInt32),
        AnyKeys::UInt64(keys) => of_type!(keys, UInt64),
    }
}
