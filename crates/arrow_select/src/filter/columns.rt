//! Columns without children that are kept under a validity of their own: the fields of structs and of sparse unions.

ghost use Rattle.std.specs.Prelude.{◌≡◌, count_by, length, map, option_copied, IfOk, IfSome, IsOkUnless};
ghost use Rattle.arrow_types.specs.declared.error.Error.{Error};
ghost use Rattle.arrow_types.specs.Fits.{Fits};
ghost use Rattle.arrow_flat.specs.AnyPrimitive.{any_rows, any_type};
ghost use Rattle.arrow_flat.specs.ByteRows.{byte_slots};
ghost use Rattle.arrow_flat.specs.Parts.{FitsRows, boolean_rows, rows_by};
ghost use Rattle.arrow_arrays.specs.Any.{any_array_rows};
ghost use Rattle.arrow_select.specs.Selected.{KeptUnder, kept_rows_under};
ghost use Rattle.arrow_select.specs.Selection.{mask_in};

use crate::filter::boolean::filter_boolean;
use crate::filter::bytes::filter_bytes;
use crate::filter::primitive::filter_values;
use crate::filter::selection::Selection;
use arrow_arrays::array::AnyArray;
use arrow_flat::array::{AnyPrimitive, BooleanArray, ByteRows, FlatArray, PrimitiveArray, Values};
use arrow_flat_growable::growable::GrowableKind;
use arrow_flat_growable::under::under;
use arrow_memory::bitmap::Bitmap;
use arrow_types::error::Error;
use arrow_types::types::{NativeType, Offset};
use std::alloc::Global;

/// One row in so many is few: of lists each run of them is then an `extend`, and no bit is made for each item.
pub(super) const FEW: usize = 16;

// Whether no column has children, so that the rows of each can be kept by themselves.
pub(super) fn are_flat(columns: &[AnyArray]) -> bool {
    for column in columns {
        if !is_flat(column) {
            return false;
        }
    }
    true
}

// Whether a column has no children.
pub(super) fn is_flat(column: &AnyArray) -> bool {
    match column {
        AnyArray::Primitive(_) | AnyArray::Boolean(_) => true,
        AnyArray::Utf8(_) | AnyArray::LargeUtf8(_) => true,
        AnyArray::Binary(_) | AnyArray::LargeBinary(_) => true,
        _ => false,
    }
}

// The rows of a column that are kept, null where a bit of the validity is not set: none where the column has children.
pub(super) fn kept_under(
    alloc: Global,
    column: &AnyArray,
    validity: Option<&Bitmap>,
    selection: Selection<'_>,
    count: usize,
) -> Result<Option<AnyArray>, Error>
    requires lengths { length (mask_in selection) ≡ length (any_array_rows column.now) }
    requires fits { FitsRows (option_copied validity) (length (any_array_rows column.now)) }
    requires count { count ≡ count_by (λ is_kept. is_kept) (mask_in selection) }
    ensures ok { IfOk result (λ made. IfSome made
        (KeptUnder (mask_in selection.entry) (option_copied validity.entry) column.now)) }
    ensures err { IsOkUnless result Error.OutOfMemory }
{
    // The kind of the array follows from its data type.
    let _ = column.data_type();
    match column {
        AnyArray::Primitive(values) => {
            let kept = primitive_under(alloc, values, validity, selection, count)?;
            Ok(Some(AnyArray::Primitive(kept)))
        }
        AnyArray::Boolean(values) => {
            let kept = boolean_under(alloc, values, validity, selection, count)?;
            Ok(Some(AnyArray::Boolean(kept)))
        }
        AnyArray::Utf8(values) => {
            let kept = bytes_under(alloc, values, validity, selection, count)?;
            Ok(Some(AnyArray::Utf8(kept)))
        }
        AnyArray::LargeUtf8(values) => {
            let kept = bytes_under(alloc, values, validity, selection, count)?;
            Ok(Some(AnyArray::LargeUtf8(kept)))
        }
        AnyArray::Binary(values) => {
            let kept = bytes_under(alloc, values, validity, selection, count)?;
            Ok(Some(AnyArray::Binary(kept)))
        }
        AnyArray::LargeBinary(values) => {
            let kept = bytes_under(alloc, values, validity, selection, count)?;
            Ok(Some(AnyArray::LargeBinary(kept)))
        }
        _ => Ok(None),
    }
}

// Numbers and intervals of any element type.
fn primitive_under(
    alloc: Global,
    array: &AnyPrimitive,
    validity: Option<&Bitmap>,
    selection: Selection<'_>,
    count: usize,
) -> Result<AnyPrimitive, Error>
    requires lengths { length (mask_in selection) ≡ length (any_rows array.now) }
    requires fits { FitsRows (option_copied validity) (length (any_rows array.now)) }
    requires count { count ≡ count_by (λ is_kept. is_kept) (mask_in selection) }
    ensures array_type { IfOk result (λ kept. any_type kept ≡ any_type array.now) }
    ensures rows { IfOk result (λ kept. any_rows kept
        ≡ kept_rows_under (mask_in selection.entry) (option_copied validity.entry) (any_rows array.now)) }
    ensures fits { IfOk result (λ kept. Fits (any_type kept) (any_rows kept)) }
    ensures err { IsOkUnless result Error.OutOfMemory }
{
    macro_rules! of_element {
        ($array:ident, $element:ident) => {
            Ok(AnyPrimitive::$element(values_under(alloc, $array, validity, selection, count)?))
        };
    }
    match array {
        AnyPrimitive::Int8(array) => of_element!(array, Int8),
        AnyPrimitive::Int16(array) => of_element!(array, Int16),
        AnyPrimitive::Int32(array) => of_element!(array, Int32),
        AnyPrimitive::Int64(array) => of_element!(array, Int64),
        AnyPrimitive::Int128(array) => of_element!(array, Int128),
        AnyPrimitive::Int256(array) => of_element!(array, Int256),
        AnyPrimitive::UInt8(array) => of_element!(array, UInt8),
        AnyPrimitive::UInt16(array) => of_element!(array, UInt16),
        AnyPrimitive::UInt32(array) => of_element!(array, UInt32),
        AnyPrimitive::UInt64(array) => of_element!(array, UInt64),
        AnyPrimitive::DaysMs(array) => of_element!(array, DaysMs),
        AnyPrimitive::MonthDayNano(array) => of_element!(array, MonthDayNano),
    }
}

// The same of one element type.
fn values_under<T: NativeType>(
    alloc: Global,
    array: &PrimitiveArray<T>,
    validity: Option<&Bitmap>,
    selection: Selection<'_>,
    count: usize,
) -> Result<PrimitiveArray<T>, Error>
    requires lengths { length (mask_in selection) ≡ length (rows_by (map T.slot) array.now) }
    requires fits { FitsRows (option_copied validity) (length (rows_by (map T.slot) array.now)) }
    requires count { count ≡ count_by (λ is_kept. is_kept) (mask_in selection) }
    ensures array_type { IfOk result (λ kept. kept.arrow_type ≡ array.now.arrow_type) }
    ensures rows { IfOk result (λ kept. rows_by (map T.slot) kept
        ≡ kept_rows_under (mask_in selection.entry) (option_copied validity.entry)
        (rows_by (map T.slot) array.now)) }
    ensures fits { IfOk result (λ kept. Fits kept.arrow_type (rows_by (map T.slot) kept)) }
    ensures err { IsOkUnless result Error.OutOfMemory }
{
    let values = under(alloc, array, validity)?;
    Ok(filter_values(alloc, &values, selection, count)?)
}

// Booleans.
fn boolean_under(
    alloc: Global,
    array: &BooleanArray,
    validity: Option<&Bitmap>,
    selection: Selection<'_>,
    count: usize,
) -> Result<BooleanArray, Error>
    requires lengths { length (mask_in selection) ≡ length (boolean_rows array.now) }
    requires fits { FitsRows (option_copied validity) (length (boolean_rows array.now)) }
    requires count { count ≡ count_by (λ is_kept. is_kept) (mask_in selection) }
    ensures array_type { IfOk result (λ kept. kept.arrow_type ≡ array.now.arrow_type) }
    ensures rows { IfOk result (λ kept. boolean_rows kept
        ≡ kept_rows_under (mask_in selection.entry) (option_copied validity.entry) (boolean_rows array.now)) }
    ensures fits { IfOk result (λ kept. Fits kept.arrow_type (boolean_rows kept)) }
    ensures err { IsOkUnless result Error.OutOfMemory }
{
    let values = under(alloc, array, validity)?;
    Ok(filter_boolean(alloc, &values, selection, count)?)
}

// Texts and bytes.
fn bytes_under<O: Offset, K: GrowableKind>(
    alloc: Global,
    array: &FlatArray<ByteRows<O, K>>,
    validity: Option<&Bitmap>,
    selection: Selection<'_>,
    count: usize,
) -> Result<FlatArray<ByteRows<O, K>>, Error>
    requires lengths { length (mask_in selection) ≡ length (rows_by (byte_slots K.slot) array.now) }
    requires fits { FitsRows (option_copied validity) (length (rows_by (byte_slots K.slot) array.now)) }
    requires count { count ≡ count_by (λ is_kept. is_kept) (mask_in selection) }
    ensures array_type { IfOk result (λ kept. kept.arrow_type ≡ array.now.arrow_type) }
    ensures rows { IfOk result (λ kept. rows_by (byte_slots K.slot) kept
        ≡ kept_rows_under (mask_in selection.entry) (option_copied validity.entry)
        (rows_by (byte_slots K.slot) array.now)) }
    ensures fits { IfOk result (λ kept. Fits kept.arrow_type (rows_by (byte_slots K.slot) kept)) }
    ensures err { IsOkUnless result Error.OutOfMemory }
{
    let values = under(alloc, array, validity)?;
    Ok(filter_bytes(alloc, &values, selection, count)?)
}
