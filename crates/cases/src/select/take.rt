//! Rows that are named by their numbers.

ghost use Rattle.std.specs.Prelude.{length, map};
ghost use Rattle.arrow_flat.specs.AnyPrimitive.{any_rows};
ghost use Rattle.arrow_flat.specs.Parts.{rows_by};
ghost use Rattle.arrow_arrays.specs.Any.{any_array_rows};
ghost use Rattle.arrow_arrays.specs.KeyedParts.{AreKeys};

use crate::select::lists::{as_any, as_primitive};
use arrow_arrays::array::{AnyArray, are_within};
use arrow_flat::array::{AnyElement, AnyPrimitive, PrimitiveArray};
use arrow_select::take::{
    binary, boolean, can_take, dict, fixed_size_binary, fixed_size_list, list, map, primitive,
    structure, take, union, utf8,
};
use arrow_text::call::Call;
use arrow_text::fault::Fault;
use arrow_text::write::{show, write_made};
use arrow_types::error::Error;
use arrow_types::types::Index;
use std::alloc::Global;

// Whether a type is listed as one of which rows are taken.
pub(crate) fn answer_can_take(
    alloc: Global,
    call: &Call<'_>,
    out: &mut String,
) -> Result<(), Fault> {
    call.takes(1)?;
    let data_type = call.data_type(alloc, 0)?;
    show(out, can_take(&data_type))
}

// The rows of an array that indices name, integers of any of eight types: by the call for arrays of any kind or by that
// for those of one.
pub(crate) fn answer(alloc: Global, call: &Call<'_>, out: &mut String) -> Result<(), Fault> {
    let given = call.pair(alloc, 0)?;
    let (name, array) = (call.name, &*given.left);
    match as_primitive(&given.right)? {
        AnyPrimitive::Int8(indices) => take_rows(alloc, name, array, indices, out),
        AnyPrimitive::Int16(indices) => take_rows(alloc, name, array, indices, out),
        AnyPrimitive::Int32(indices) => take_rows(alloc, name, array, indices, out),
        AnyPrimitive::Int64(indices) => take_rows(alloc, name, array, indices, out),
        AnyPrimitive::UInt8(indices) => take_rows(alloc, name, array, indices, out),
        AnyPrimitive::UInt16(indices) => take_rows(alloc, name, array, indices, out),
        AnyPrimitive::UInt32(indices) => take_rows(alloc, name, array, indices, out),
        AnyPrimitive::UInt64(indices) => take_rows(alloc, name, array, indices, out),
        _ => Err(Fault::Usage),
    }
}

// The same of indices of one type, each of which is null or that of a row.
fn take_rows<I: Index>(
    alloc: Global,
    name: &str,
    array: &AnyArray,
    indices: &PrimitiveArray<I>,
    out: &mut String,
) -> Result<(), Fault> {
    if !are_within(indices, array.len()) {
        return Err(Fault::Usage);
    }
    if name == "take::take" {
        return write_made(out, take(alloc, array, indices));
    }
    if name != name_for(array) {
        return Err(Fault::Usage);
    }
    write_made(out, take_typed(alloc, array, indices))
}

// The name of the call for arrays of this one's kind. Nulls have none of their own.
fn name_for(array: &AnyArray) -> &'static str {
    match array {
        AnyArray::Primitive(_) => "take::primitive::take",
        AnyArray::Boolean(_) => "take::boolean::take",
        AnyArray::Utf8(_) | AnyArray::LargeUtf8(_) => "take::utf8::take",
        AnyArray::Binary(_) | AnyArray::LargeBinary(_) => "take::binary::take",
        AnyArray::Dictionary(_) => "take::dict::take",
        AnyArray::List(_) => "take::list::take",
        AnyArray::FixedSizeList(_) => "take::fixed_size_list::take",
        AnyArray::Struct(_) => "take::structure::take",
        AnyArray::Map(_) => "take::map::take",
        AnyArray::Union(_) => "take::union::take",
        AnyArray::FixedSizeBinary(_) => "take::fixed_size_binary::take",
        AnyArray::Null(_) => "take::take",
    }
}

// The rows by the call for arrays of this one's kind.
fn take_typed<I: Index>(
    alloc: Global,
    array: &AnyArray,
    indices: &PrimitiveArray<I>,
) -> Result<AnyArray, Error>
    requires { AreKeys (length (any_array_rows array.now)) (rows_by (map I.slot) indices.now) }
{
    match array {
        AnyArray::Primitive(array) => take_primitive(alloc, array, indices),
        AnyArray::Boolean(array) => Ok(AnyArray::Boolean(boolean::take(alloc, array, indices)?)),
        AnyArray::Utf8(array) => Ok(AnyArray::Utf8(utf8::take(alloc, array, indices)?)),
        AnyArray::LargeUtf8(array) => Ok(AnyArray::LargeUtf8(utf8::take(alloc, array, indices)?)),
        AnyArray::Binary(array) => Ok(AnyArray::Binary(binary::take(alloc, array, indices)?)),
        AnyArray::LargeBinary(array) => {
            Ok(AnyArray::LargeBinary(binary::take(alloc, array, indices)?))
        }
        AnyArray::List(array) => Ok(AnyArray::List(list::take(alloc, array, indices)?)),
        AnyArray::FixedSizeList(array) => {
            Ok(AnyArray::FixedSizeList(fixed_size_list::take(alloc, array, indices)?))
        }
        AnyArray::Struct(array) => Ok(AnyArray::Struct(structure::take(alloc, array, indices)?)),
        AnyArray::Map(array) => Ok(AnyArray::Map(map::take(alloc, array, indices)?)),
        AnyArray::Union(array) => Ok(AnyArray::Union(union::take(alloc, array, indices)?)),
        AnyArray::FixedSizeBinary(array) => {
            Ok(AnyArray::FixedSizeBinary(fixed_size_binary::take(alloc, array, indices)?))
        }
        AnyArray::Dictionary(array) => Ok(AnyArray::Dictionary(dict::take(alloc, array, indices)?)),
        array => take(alloc, array, indices),
    }
}

// The same of numbers or intervals of any element type.
fn take_primitive<I: Index>(
    alloc: Global,
    array: &AnyPrimitive,
    indices: &PrimitiveArray<I>,
) -> Result<AnyArray, Error>
    requires { AreKeys (length (any_rows array.now)) (rows_by (map I.slot) indices.now) }
{
    match array {
        AnyPrimitive::Int8(array) => take_elements(alloc, array, indices),
        AnyPrimitive::Int16(array) => take_elements(alloc, array, indices),
        AnyPrimitive::Int32(array) => take_elements(alloc, array, indices),
        AnyPrimitive::Int64(array) => take_elements(alloc, array, indices),
        AnyPrimitive::Int128(array) => take_elements(alloc, array, indices),
        AnyPrimitive::Int256(array) => take_elements(alloc, array, indices),
        AnyPrimitive::UInt8(array) => take_elements(alloc, array, indices),
        AnyPrimitive::UInt16(array) => take_elements(alloc, array, indices),
        AnyPrimitive::UInt32(array) => take_elements(alloc, array, indices),
        AnyPrimitive::UInt64(array) => take_elements(alloc, array, indices),
        AnyPrimitive::DaysMs(array) => take_elements(alloc, array, indices),
        AnyPrimitive::MonthDayNano(array) => take_elements(alloc, array, indices),
    }
}

// The same of one element type.
fn take_elements<T: AnyElement, I: Index>(
    alloc: Global,
    array: &PrimitiveArray<T>,
    indices: &PrimitiveArray<I>,
) -> Result<AnyArray, Error>
    requires { AreKeys (length (rows_by (map T.slot) array.now)) (rows_by (map I.slot) indices.now) }
{
    let taken = primitive::take(alloc, array, indices)?;
    as_any(&taken)
}
