//! Arrays of any type but structs and unions by index.

ghost use Rattle.std.specs.Prelude.{◌≡◌, ◌≢◌, Err, length, map, IfOk, IfErr, IsOkUnless};
ghost use Rattle.arrow_types.specs.declared.error.Error.{Error};
ghost use Rattle.arrow_types.specs.Fits.{Fits};
ghost use Rattle.arrow_types.specs.Rows.{gather};
ghost use Rattle.arrow_memory.specs.Grown.{IsGrowthError};
ghost use Rattle.arrow_flat.specs.AnyPrimitive.{any_type, any_rows};
ghost use Rattle.arrow_flat.specs.NullParts.{null_rows};
ghost use Rattle.arrow_flat.specs.Parts.{rows_by};
ghost use Rattle.arrow_arrays.specs.Any.{any_array_type, any_array_rows, kind_of, struct_kind, union_kind};
ghost use Rattle.arrow_take.specs.Taken.{AreIndices};

use crate::take::{
    binary, boolean, dict, fixed_size_binary, fixed_size_list, list, map, primitive, utf8,
};
use arrow_arrays::array::AnyArray;
use arrow_flat::array::{AnyPrimitive, NullArray, PrimitiveArray};
use arrow_types::error::Error;
use arrow_types::types::Index;
use std::alloc::Global;

// The rows that the indices name, of an array of any type but a struct or a union.
pub(super) fn take_one<I: Index>(
    alloc: Global,
    values: &AnyArray,
    indices: &PrimitiveArray<I>,
) -> Result<AnyArray, Error>
    requires inside { AreIndices (length (any_array_rows values.now)) (rows_by (map I.slot) indices.now) }
    requires no_struct { kind_of values.now ≢ struct_kind }
    requires no_union { kind_of values.now ≢ union_kind }
    ensures array_type { IfOk result (λ taken. any_array_type taken ≡ any_array_type values.now) }
    ensures rows { IfOk result (λ taken. any_array_rows taken
        ≡ gather (any_array_rows values.now) (rows_by (map I.slot) indices.now)
        (any_array_type values.now)) }
    ensures fits { IfOk result (λ taken. Fits (any_array_type taken) (any_array_rows taken)) }
    ensures overflow { result ≡ Err Error.Overflow
        → Fits (any_array_type values.now)
        (gather (any_array_rows values.now) (rows_by (map I.slot) indices.now) (any_array_type values.now))
        → ⊥ }
    ensures others { IfErr result IsGrowthError }
{
    match values {
        AnyArray::Null(values) => Ok(AnyArray::Null(take_nulls(values, indices)?)),
        AnyArray::Boolean(values) => {
            Ok(AnyArray::Boolean(boolean::take(alloc, values, indices)?))
        }
        AnyArray::Primitive(values) => {
            Ok(AnyArray::Primitive(take_primitive(alloc, values, indices)?))
        }
        AnyArray::Utf8(values) => Ok(AnyArray::Utf8(utf8::take(alloc, values, indices)?)),
        AnyArray::LargeUtf8(values) => {
            Ok(AnyArray::LargeUtf8(utf8::take(alloc, values, indices)?))
        }
        AnyArray::Binary(values) => Ok(AnyArray::Binary(binary::take(alloc, values, indices)?)),
        AnyArray::LargeBinary(values) => {
            Ok(AnyArray::LargeBinary(binary::take(alloc, values, indices)?))
        }
        AnyArray::List(values) => Ok(AnyArray::List(list::take(alloc, values, indices)?)),
        AnyArray::FixedSizeList(values) => {
            Ok(AnyArray::FixedSizeList(fixed_size_list::take(alloc, values, indices)?))
        }
        AnyArray::Dictionary(values) => {
            Ok(AnyArray::Dictionary(dict::take(alloc, values, indices)?))
        }
        AnyArray::FixedSizeBinary(values) => {
            Ok(AnyArray::FixedSizeBinary(fixed_size_binary::take(alloc, values, indices)?))
        }
        AnyArray::Map(values) => Ok(AnyArray::Map(map::take(alloc, values, indices)?)),
        AnyArray::Struct(_) | AnyArray::Union(_) => unreachable!(),
    }
}

// As many nulls as there are indices.
fn take_nulls<I: Index>(values: &NullArray, indices: &PrimitiveArray<I>) -> Result<NullArray, Error>
    requires { AreIndices (length (null_rows values.now)) (rows_by (map I.slot) indices.now) }
    ensures array_type { IfOk result (λ taken. taken.arrow_type ≡ values.now.arrow_type) }
    ensures rows { IfOk result (λ taken. null_rows taken
        ≡ gather (null_rows values.now) (rows_by (map I.slot) indices.now) values.now.arrow_type) }
    ensures fits { IfOk result (λ taken. Fits taken.arrow_type (null_rows taken)) }
    ensures err { IsOkUnless result Error.OutOfMemory }
{
    let data_type = values.data_type().clone()?;
    Ok(NullArray::new(data_type, indices.len()))
}

// The rows that the indices name, of an array of any element type.
fn take_primitive<I: Index>(
    alloc: Global,
    values: &AnyPrimitive,
    indices: &PrimitiveArray<I>,
) -> Result<AnyPrimitive, Error>
    requires { AreIndices (length (any_rows values.now)) (rows_by (map I.slot) indices.now) }
    ensures array_type { IfOk result (λ taken. any_type taken ≡ any_type values.now) }
    ensures rows { IfOk result (λ taken. any_rows taken
        ≡ gather (any_rows values.now) (rows_by (map I.slot) indices.now) (any_type values.now)) }
    ensures fits { IfOk result (λ taken. Fits (any_type taken) (any_rows taken)) }
    ensures err { IsOkUnless result Error.OutOfMemory }
{
    macro_rules! of_element {
        ($array:ident, $element:ident) => {
            Ok(AnyPrimitive::$element(primitive::take(alloc, $array, indices)?))
        };
    }
    match values {
        AnyPrimitive::Int8(array) => of_element!(array, Int8),
        AnyPrimitive::Int16(array) => of_element!(array, Int16),
        AnyPrimitive::Int32(array) => of_element!(array, Int32),
        AnyPrimitive::Int64(array) => of_element!(array, Int64),
        AnyPrimitive::Int128(array) => of_element!(array, Int128),
        AnyPrimitive::Int256(array) => of_element!(array, Int256),
        AnyPrimitive::UInt8(array) => of_element!(array, UInt8),
        AnyPrimitive::UInt16(array) => of_element!(array, UInt16),
        AnyPrimitive::UInt32(array) => of_element!(array, UInt32),
        AnyPrimitive::UInt64(array) => of_element!(array, UInt64),
        AnyPrimitive::DaysMs(array) => of_element!(array, DaysMs),
        AnyPrimitive::MonthDayNano(array) => of_element!(array, MonthDayNano),
    }
}
