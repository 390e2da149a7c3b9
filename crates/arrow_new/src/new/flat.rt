//! Arrays without children whose rows are all null.

ghost use Rattle.std.specs.Prelude.{◌≡◌, ◌+◌, Err, [], IfOk, IfErr, IsOkUnless, map, replicate};
ghost use Rattle.arrow_types.specs.Slot.{Null};
ghost use Rattle.arrow_types.specs.Carried.{IsCarried};
ghost use Rattle.arrow_types.specs.Physical.{physical_type_of};
ghost use Rattle.arrow_types.specs.TypeOf.{type_of};
ghost use Rattle.arrow_types.specs.declared.datatypes.physical_type.PhysicalType.TheVariants as physical;
ghost use Rattle.arrow_types.specs.declared.error.Error.{Error};
ghost use Rattle.arrow_memory.specs.Grown.{IsGrowthError};
ghost use Rattle.arrow_flat.specs.ByteRows.{byte_slots};
ghost use Rattle.arrow_flat.specs.Faults.{IsCarriedAs};
ghost use Rattle.arrow_flat.specs.FixedRows.{fixed_size_in};
ghost use Rattle.arrow_flat.specs.Parts.{rows_by};
ghost use Rattle.arrow_arrays.specs.AnyKeys.{key_rows, key_type_of};
ghost use Rattle.arrow_arrays.specs.TypeParts.{IsFlatType};
ghost use Rattle.arrow_arrays.specs.Nulls.{IsNulls, FitNulls, nulls_of};

use arrow_arrays::array::{AnyArray, AnyKeys};
use arrow_flat::array::{
    AnyPrimitive, BooleanArray, ByteKind, ByteRows, FixedSizeBinaryArray, FlatArray, NullArray,
    PrimitiveArray,
};
use arrow_memory::bitmap::Bitmap;
use arrow_memory::buffer::Buffer;
use arrow_memory::offset::{Offsets, OffsetsBuffer};
use arrow_types::datatypes::{DataType, IntegerType, PhysicalType};
use arrow_types::error::Error;
use arrow_types::types::{NativeType, Offset, PrimitiveType};
use std::alloc::Global;

// So many values whose bits are all zero.
pub(super) fn zeros<T: NativeType>(alloc: Global, count: usize) -> Result<Buffer<T>, Error>
    ensures ok { IfOk result (λ values. values ≡ replicate count T.zero) }
    ensures err { IsOkUnless result Error.OutOfMemory }
{
    let mut values = Vec::with_capacity(alloc, count)?;
    values.resize(count, T::default())?;
    Buffer::from_vec(alloc, values)
}

// The offsets of so many rows of no item.
pub(super) fn zero_offsets<O: Offset>(
    alloc: Global,
    length: usize,
) -> Result<OffsetsBuffer<O>, Error>
    ensures ok { IfOk result (λ offsets. offsets ≡ replicate (length + 1) 0) }
    ensures err { IsOkUnless result Error.OutOfMemory }
{
    let mut offsets = Offsets::with_capacity(alloc, length)?;
    offsets.extend_constant(length)?;
    offsets.into_buffer()
}

// Null rows of a data type without children.
pub(super) fn null_rows(
    alloc: Global,
    data_type: DataType,
    length: usize,
) -> Result<AnyArray, Error>
    requires carried { IsCarried (type_of data_type) }
    requires flat { IsFlatType (physical_type_of (type_of data_type)) }
    ensures ok { IfOk result (IsNulls (type_of data_type) length) }
    ensures err { IfErr result IsGrowthError }
    ensures overflow { result ≡ Err Error.Overflow → FitNulls length (type_of data_type) → ⊥ }
{
    match data_type.to_physical_type() {
        PhysicalType::Null => Ok(nulls(data_type, length)),
        PhysicalType::Boolean => null_booleans(alloc, data_type, length),
        PhysicalType::Primitive(element) => null_primitives(alloc, data_type, element, length),
        PhysicalType::Utf8 => Ok(AnyArray::Utf8(null_bytes(alloc, data_type, length)?)),
        PhysicalType::LargeUtf8 => Ok(AnyArray::LargeUtf8(null_bytes(alloc, data_type, length)?)),
        PhysicalType::Binary => Ok(AnyArray::Binary(null_bytes(alloc, data_type, length)?)),
        PhysicalType::LargeBinary => {
            Ok(AnyArray::LargeBinary(null_bytes(alloc, data_type, length)?))
        }
        PhysicalType::FixedSizeBinary => null_fixed_bytes(alloc, data_type, length),
        _ => unreachable!(),
    }
}

// Nulls of the null type.
fn nulls(data_type: DataType, length: usize) -> AnyArray
    requires { IsCarriedAs physical.Null (type_of data_type) }
    ensures { IsNulls (type_of data_type) length result }
{
    let Ok(array) = NullArray::try_new(data_type, length) else {
        unreachable!();
    };
    AnyArray::Null(array)
}

// Null truth values.
fn null_booleans(alloc: Global, data_type: DataType, length: usize) -> Result<AnyArray, Error>
    requires { IsCarriedAs physical.Boolean (type_of data_type) }
    ensures ok { IfOk result (IsNulls (type_of data_type) length) }
    ensures err { IsOkUnless result Error.OutOfMemory }
{
    let values = Bitmap::new_zeroed(alloc, length)?;
    let validity = values.clone()?;
    let Ok(array) = BooleanArray::try_new(data_type, values, Some(validity)) else {
        unreachable!();
    };
    Ok(AnyArray::Boolean(array))
}

// Null numbers or intervals of one element type.
fn null_values<T: NativeType>(
    alloc: Global,
    data_type: DataType,
    length: usize,
) -> Result<PrimitiveArray<T>, Error>
    requires { IsCarriedAs (physical.Primitive T.PRIMITIVE) (type_of data_type) }
    ensures same { IfOk result (λ array. array.arrow_type ≡ type_of data_type) }
    ensures rows { IfOk result (λ array. rows_by (map T.slot) array ≡ nulls_of (type_of data_type) length) }
    ensures err { IsOkUnless result Error.OutOfMemory }
{
    let values = zeros(alloc, length)?;
    let validity = Bitmap::new_zeroed(alloc, length)?;
    let Ok(array) = PrimitiveArray::try_new(data_type, values, Some(validity)) else {
        unreachable!();
    };
    Ok(array)
}

// Null texts or bytes, under offsets of either width.
fn null_bytes<O: Offset, K: ByteKind>(
    alloc: Global,
    data_type: DataType,
    length: usize,
) -> Result<FlatArray<ByteRows<O, K>>, Error>
    requires kind { IsCarriedAs (K.physical_type O.IS_LARGE) (type_of data_type) }
    requires empty { K.Allows [] }
    ensures same { IfOk result (λ array. array.arrow_type ≡ type_of data_type) }
    ensures rows { IfOk result (λ array. rows_by (byte_slots K.slot) array ≡ replicate length Null) }
    ensures err { IsOkUnless result Error.OutOfMemory }
{
    let offsets = zero_offsets(alloc, length)?;
    let bytes = zeros(alloc, 0)?;
    let validity = Bitmap::new_zeroed(alloc, length)?;
    let Ok(array) = FlatArray::<ByteRows<O, K>>::try_new(data_type, offsets, bytes, Some(validity))
    else {
        unreachable!();
    };
    Ok(array)
}

// How many bytes a row of the data type has; of another type, 0.
fn row_size(data_type: &DataType) -> usize
    ensures { result ≡ fixed_size_in (type_of data_type.now) }
{
    match data_type {
        DataType::FixedSizeBinary(size) => *size,
        DataType::Extension(_, inner, _) => row_size(inner),
        _ => 0,
    }
}

// Null rows of bytes of a fixed size.
fn null_fixed_bytes(alloc: Global, data_type: DataType, length: usize) -> Result<AnyArray, Error>
    requires { IsCarriedAs physical.FixedSizeBinary (type_of data_type) }
    ensures ok { IfOk result (IsNulls (type_of data_type) length) }
    ensures err { IfErr result IsGrowthError }
    ensures overflow { result ≡ Err Error.Overflow → FitNulls length (type_of data_type) → ⊥ }
{
    let Some(count) = length.checked_mul(row_size(&data_type)) else {
        return Err(Error::Overflow);
    };
    let values = zeros(alloc, count)?;
    let validity = Bitmap::new_zeroed(alloc, length)?;
    let Ok(array) = FixedSizeBinaryArray::try_new(data_type, values, Some(validity)) else {
        unreachable!();
    };
    Ok(AnyArray::FixedSizeBinary(array))
}

// Null numbers or intervals.
fn null_primitives(
    alloc: Global,
    data_type: DataType,
    element: PrimitiveType,
    length: usize,
) -> Result<AnyArray, Error>
    requires { IsCarriedAs (physical.Primitive element) (type_of data_type) }
    ensures ok { IfOk result (IsNulls (type_of data_type) length) }
    ensures err { IsOkUnless result Error.OutOfMemory }
{
    let array = match element {
        PrimitiveType::Int8 => AnyPrimitive::Int8(null_values(alloc, data_type, length)?),
        PrimitiveType::Int16 => AnyPrimitive::Int16(null_values(alloc, data_type, length)?),
        PrimitiveType::Int32 => AnyPrimitive::Int32(null_values(alloc, data_type, length)?),
        PrimitiveType::Int64 => AnyPrimitive::Int64(null_values(alloc, data_type, length)?),
        PrimitiveType::Int128 => AnyPrimitive::Int128(null_values(alloc, data_type, length)?),
        PrimitiveType::Int256 => AnyPrimitive::Int256(null_values(alloc, data_type, length)?),
        PrimitiveType::UInt8 => AnyPrimitive::UInt8(null_values(alloc, data_type, length)?),
        PrimitiveType::UInt16 => AnyPrimitive::UInt16(null_values(alloc, data_type, length)?),
        PrimitiveType::UInt32 => AnyPrimitive::UInt32(null_values(alloc, data_type, length)?),
        PrimitiveType::UInt64 => AnyPrimitive::UInt64(null_values(alloc, data_type, length)?),
        PrimitiveType::DaysMs => AnyPrimitive::DaysMs(null_values(alloc, data_type, length)?),
        PrimitiveType::MonthDayNano => {
            AnyPrimitive::MonthDayNano(null_values(alloc, data_type, length)?)
        }
        _ => unreachable!(),
    };
    Ok(AnyArray::Primitive(array))
}

// Keys of a dictionary, all null.
pub(super) fn null_keys(alloc: Global, keys: IntegerType, length: usize) -> Result<AnyKeys, Error>
    ensures same { IfOk result (λ any. key_type_of any ≡ keys) }
    ensures rows { IfOk result (λ any. key_rows any ≡ replicate length Null) }
    ensures err { IsOkUnless result Error.OutOfMemory }
{
    match keys {
        IntegerType::Int8 => Ok(AnyKeys::Int8(null_values(alloc, DataType::Int8, length)?)),
        IntegerType::Int16 => Ok(AnyKeys::Int16(null_values(alloc, DataType::Int16, length)?)),
        IntegerType::Int32 => Ok(AnyKeys::Int32(null_values(alloc, DataType::Int32, length)?)),
        IntegerType::Int64 => Ok(AnyKeys::Int64(null_values(alloc, DataType::Int64, length)?)),
        IntegerType::UInt8 => Ok(AnyKeys::UInt8(null_values(alloc, DataType::UInt8, length)?)),
        IntegerType::UInt16 => Ok(AnyKeys::UInt16(null_values(alloc, DataType::UInt16, length)?)),
        IntegerType::UInt32 => Ok(AnyKeys::UInt32(null_values(alloc, DataType::UInt32, length)?)),
        IntegerType::UInt64 => Ok(AnyKeys::UInt64(null_values(alloc, DataType::UInt64, length)?)),
    }
}
