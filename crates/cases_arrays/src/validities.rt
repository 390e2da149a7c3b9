//! Arrays under another validity.

use arrow_arrays::array::{
    AnyArray, AnyOffset, AnyRows, FixedSizeListArray, ListArray, MapArray, StructArray,
};
use arrow_flat::array::validity::fits_rows;
use arrow_flat::array::{
    AnyElement, AnyPrimitive, ByteRows, FixedSizeBinaryArray, FlatArray, PrimitiveArray, Values,
};
use arrow_memory::bitmap::Bitmap;
use arrow_text::call::Call;
use arrow_text::fault::Fault;
use arrow_text::write::{write_made, write_truths};
use std::alloc::Global;

// An array under another validity.
pub(crate) fn with_validity(alloc: Global, call: &Call<'_>, out: &mut String) -> Result<(), Fault> {
    call.takes(2)?;
    let array = call.array(alloc, 0)?;
    let validity = call.validity(alloc, 1)?;
    write_under(&*array.array, validity, out)
}

// Appends an array under another validity, by the array's kind.
fn write_under(array: &AnyArray, validity: Option<Bitmap>, out: &mut String) -> Result<(), Fault> {
    match array {
        AnyArray::Boolean(array) => write_truths(out, Ok(flat(array, validity)?)),
        AnyArray::Primitive(array) => of_primitive(array, validity, out),
        AnyArray::Utf8(array) => bytes(array, validity, out),
        AnyArray::LargeUtf8(array) => bytes(array, validity, out),
        AnyArray::Binary(array) => bytes(array, validity, out),
        AnyArray::LargeBinary(array) => bytes(array, validity, out),
        AnyArray::FixedSizeBinary(array) => fixed_size_binary(array, validity, out),
        AnyArray::List(array) => list(array, validity, out),
        AnyArray::FixedSizeList(array) => fixed_size_list(array, validity, out),
        AnyArray::Struct(array) => struct_of(array, validity, out),
        AnyArray::Map(array) => map(array, validity, out),
        AnyArray::Null(_) | AnyArray::Union(_) | AnyArray::Dictionary(_) => Err(Fault::Usage),
    }
}

// The rows of a flat array under another validity.
fn flat<V: Values>(array: &FlatArray<V>, validity: Option<Bitmap>) -> Result<FlatArray<V>, Fault> {
    let copy = array.clone()?;
    if !fits_rows(&validity, copy.len()) {
        return Err(Fault::Usage);
    }
    Ok(copy.with_validity(validity))
}

/// What an expression says of the array, whatever its element type.
macro_rules! of_any {
    ($any:expr, $array:ident => $result:expr) => {
        match $any {
            AnyPrimitive::Int8($array) => $result,
            AnyPrimitive::Int16($array) => $result,
            AnyPrimitive::Int32($array) => $result,
            AnyPrimitive::Int64($array) => $result,
            AnyPrimitive::Int128($array) => $result,
            AnyPrimitive::Int256($array) => $result,
            AnyPrimitive::UInt8($array) => $result,
            AnyPrimitive::UInt16($array) => $result,
            AnyPrimitive::UInt32($array) => $result,
            AnyPrimitive::UInt64($array) => $result,
            AnyPrimitive::DaysMs($array) => $result,
            AnyPrimitive::MonthDayNano($array) => $result,
        }
    };
}

// Numbers or intervals under another validity.
fn of_primitive(
    array: &AnyPrimitive,
    validity: Option<Bitmap>,
    out: &mut String,
) -> Result<(), Fault> {
    of_any!(array, array => primitive(array, validity, out))
}

// The same of one element type.
fn primitive<T: AnyElement>(
    array: &PrimitiveArray<T>,
    validity: Option<Bitmap>,
    out: &mut String,
) -> Result<(), Fault> {
    let array = flat(array, validity)?;
    write_made(out, Ok(AnyArray::Primitive(T::to_any(&array)?)))
}

// Texts or bytes under another validity.
fn bytes<O: AnyOffset, K: AnyRows>(
    array: &FlatArray<ByteRows<O, K>>,
    validity: Option<Bitmap>,
    out: &mut String,
) -> Result<(), Fault> {
    let array = flat(array, validity)?;
    write_made(out, K::to_any(&array))
}

// Bytes of a fixed size under another validity.
fn fixed_size_binary(
    array: &FixedSizeBinaryArray,
    validity: Option<Bitmap>,
    out: &mut String,
) -> Result<(), Fault> {
    let array = flat(array, validity)?;
    write_made(out, Ok(AnyArray::FixedSizeBinary(array)))
}

// Lists under another validity.
fn list(array: &ListArray, validity: Option<Bitmap>, out: &mut String) -> Result<(), Fault> {
    let copy = array.clone()?;
    if !fits_rows(&validity, copy.len()) {
        return Err(Fault::Usage);
    }
    write_made(out, Ok(AnyArray::List(copy.with_validity(validity))))
}

// Lists of a fixed size under another validity.
fn fixed_size_list(
    array: &FixedSizeListArray,
    validity: Option<Bitmap>,
    out: &mut String,
) -> Result<(), Fault> {
    let copy = array.clone()?;
    let count = copy.values().len() / copy.size();
    if !fits_rows(&validity, count) {
        return Err(Fault::Usage);
    }
    write_made(
        out,
        Ok(AnyArray::FixedSizeList(copy.with_validity(validity))),
    )
}

// Structs under another validity.
fn struct_of(array: &StructArray, validity: Option<Bitmap>, out: &mut String) -> Result<(), Fault> {
    let copy = array.clone()?;
    if !fits_rows(&validity, copy.len()) {
        return Err(Fault::Usage);
    }
    write_made(out, Ok(AnyArray::Struct(copy.with_validity(validity))))
}

// Maps under another validity.
fn map(array: &MapArray, validity: Option<Bitmap>, out: &mut String) -> Result<(), Fault> {
    let copy = array.clone()?;
    if !fits_rows(&validity, copy.len()) {
        return Err(Fault::Usage);
    }
    write_made(out, Ok(AnyArray::Map(copy.with_validity(validity))))
}
