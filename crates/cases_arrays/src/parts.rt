//! Calls of the parts of arrays: keys, offsets, and where the rows of unions lie.

use crate::within::{check_within, show_both};
use arrow_arrays::array::{self, AnyArray};
use arrow_flat::array::AnyPrimitive;
use arrow_text::fault::Fault;
use arrow_text::write::show;

/// The sizes that a part of an array has, or where it begins.
#[derive(Clone, Copy)]
pub(crate) enum OfPart {
    /// How many bytes a row of bytes of a fixed size has.
    BytesSize,
    /// How many keys a dictionary has.
    Keys,
    /// How many items a row of a list of a fixed size has.
    ListSize,
    /// How many offsets a list has.
    Offsets,
    /// In which row of its fields a sparse union begins.
    Start,
}

// Appends a size of an array's part.
pub(crate) fn size(method: OfPart, array: &AnyArray, out: &mut String) -> Result<(), Fault> {
    match (method, array) {
        (OfPart::BytesSize, AnyArray::FixedSizeBinary(array)) => show(out, array.size()),
        (OfPart::Keys, AnyArray::Dictionary(array)) => show(out, array.keys().len()),
        (OfPart::ListSize, AnyArray::FixedSizeList(array)) => show(out, array.size()),
        (OfPart::Offsets, AnyArray::List(array)) => show(out, array.offsets().len()),
        (OfPart::Start, AnyArray::Union(array)) => show(out, array.start()),
        _ => Err(Fault::Usage),
    }
}

// The key of a row of a dictionary.
pub(crate) fn key(array: &AnyArray, i: usize, out: &mut String) -> Result<(), Fault> {
    match array {
        AnyArray::Dictionary(array) if i < array.keys().len() => {
            write_key(out, array.keys().key(i))
        }
        _ => Err(Fault::Usage),
    }
}

// Appends a key; `none` of a null.
fn write_key(out: &mut String, key: Option<usize>) -> Result<(), Fault> {
    match key {
        Some(key) => show(out, key),
        None => show(out, "none"),
    }
}

// Where a row of a list begins and ends.
pub(crate) fn start_end(array: &AnyArray, i: usize, out: &mut String) -> Result<(), Fault> {
    let AnyArray::List(array) = array else {
        return Err(Fault::Usage);
    };
    let offsets = array.offsets();
    check_within(i, 2, offsets.len())?;
    let (start, end) = offsets.start_end(i);
    show_both(out, start, end)
}

// The field of a union that a row lies in, and in which row of it.
pub(crate) fn index(array: &AnyArray, i: usize, out: &mut String) -> Result<(), Fault> {
    match array {
        AnyArray::Union(array) if i < array.len() => {
            let (field, place) = array.index(i);
            show_both(out, field, place)
        }
        _ => Err(Fault::Usage),
    }
}

// Whether each index is null or below a number.
pub(crate) fn are_within(array: &AnyArray, len: usize, out: &mut String) -> Result<(), Fault> {
    match array {
        AnyArray::Primitive(array) => show(out, are_indices_within(array, len)?),
        _ => Err(Fault::Usage),
    }
}

// The same of indices of any integer type.
fn are_indices_within(array: &AnyPrimitive, len: usize) -> Result<bool, Fault> {
    match array {
        AnyPrimitive::Int8(array) => Ok(array::are_within(array, len)),
        AnyPrimitive::Int16(array) => Ok(array::are_within(array, len)),
        AnyPrimitive::Int32(array) => Ok(array::are_within(array, len)),
        AnyPrimitive::Int64(array) => Ok(array::are_within(array, len)),
        AnyPrimitive::UInt8(array) => Ok(array::are_within(array, len)),
        AnyPrimitive::UInt16(array) => Ok(array::are_within(array, len)),
        AnyPrimitive::UInt32(array) => Ok(array::are_within(array, len)),
        AnyPrimitive::UInt64(array) => Ok(array::are_within(array, len)),
        _ => Err(Fault::Usage),
    }
}
