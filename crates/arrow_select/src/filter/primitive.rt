//! Numbers and intervals that are kept.

ghost use Rattle.std.specs.Prelude.{◌≡◌, count_by, length, map, IfOk, IsOkUnless};
ghost use Rattle.arrow_types.specs.declared.error.Error.{Error};
ghost use Rattle.arrow_types.specs.Fits.{Fits};
ghost use Rattle.arrow_types.specs.Rows.{select};
ghost use Rattle.arrow_flat.specs.AnyPrimitive.{any_rows, any_type};
ghost use Rattle.arrow_flat.specs.Parts.{rows_by};
ghost use Rattle.arrow_select.specs.Selection.{mask_in};

use crate::filter::selection::{Selection, kept_rows};
use arrow_flat::array::{AnyPrimitive, PrimitiveArray};
use arrow_memory::buffer::Buffer;
use arrow_types::error::Error;
use arrow_types::types::NativeType;
use std::alloc::Global;

// The rows that are kept, in an array of the same type, of any element type.
pub(super) fn filter_primitive(
    alloc: Global,
    array: &AnyPrimitive,
    selection: Selection<'_>,
    count: usize,
) -> Result<AnyPrimitive, Error>
    requires lengths { length (mask_in selection) ≡ length (any_rows array.now) }
    requires count { count ≡ count_by (λ is_kept. is_kept) (mask_in selection) }
    ensures array_type { IfOk result (λ kept. any_type kept ≡ any_type array.now) }
    ensures rows { IfOk result (λ kept. any_rows kept
        ≡ select (mask_in selection.entry) (any_rows array.now)) }
    ensures fits { IfOk result (λ kept. Fits (any_type kept) (any_rows kept)) }
    ensures err { IsOkUnless result Error.OutOfMemory }
{
    macro_rules! of_element {
        ($array:ident, $element:ident) => {
            Ok(AnyPrimitive::$element(filter_values(alloc, $array, selection, count)?))
        };
    }
    match array {
        AnyPrimitive::Int8(array) => of_element!(array, Int8),
        AnyPrimitive::Int16(array) => of_element!(array, Int16),
        AnyPrimitive::Int32(array) => of_element!(array, Int32),
        AnyPrimitive::Int64(array) => of_element!(array, Int64),
        AnyPrimitive::Int128(array) => of_element!(array, Int128),
        AnyPrimitive::Int256(array) => of_element!(array, Int256),
        AnyPrimitive::UInt8(array) => of_element!(array, UInt8),
        AnyPrimitive::UInt16(array) => of_element!(array, UInt16),
        AnyPrimitive::UInt32(array) => of_element!(array, UInt32),
        AnyPrimitive::UInt64(array) => of_element!(array, UInt64),
        AnyPrimitive::DaysMs(array) => of_element!(array, DaysMs),
        AnyPrimitive::MonthDayNano(array) => of_element!(array, MonthDayNano),
    }
}

// The same of one element type. Where all rows are kept the array is shared, and nothing is copied.
pub(super) fn filter_values<T: NativeType>(
    alloc: Global,
    array: &PrimitiveArray<T>,
    selection: Selection<'_>,
    count: usize,
) -> Result<PrimitiveArray<T>, Error>
    requires lengths { length (mask_in selection) ≡ length (rows_by (map T.slot) array.now) }
    requires count { count ≡ count_by (λ is_kept. is_kept) (mask_in selection) }
    ensures array_type { IfOk result (λ kept. kept.arrow_type ≡ array.now.arrow_type) }
    ensures rows { IfOk result (λ kept. rows_by (map T.slot) kept
        ≡ select (mask_in selection.entry) (rows_by (map T.slot) array.now)) }
    ensures fits { IfOk result (λ kept. Fits kept.arrow_type (rows_by (map T.slot) kept)) }
    ensures err { IsOkUnless result Error.OutOfMemory }
{
    let data_type = array.data_type();
    if count == array.len() {
        return Ok(array.clone()?);
    }
    let values = array.values().as_slice();
    let (kept, validity) = kept_rows(alloc, values, array.validity(), selection, count)?;
    let kept = Buffer::from_vec(alloc, kept)?;
    Ok(PrimitiveArray::new(data_type.clone()?, kept, validity))
}
