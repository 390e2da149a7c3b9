//! Calls of buffers, whose values are those of arrays of 32-bit integers, and bytes that are copied a few at a time.

use crate::within::check_within;
use arrow_arrays::array::AnyArray;
use arrow_flat::array::AnyPrimitive;
use arrow_memory::buffer::Buffer;
use arrow_memory::bytes;
use arrow_text::call::Call;
use arrow_text::fault::Fault;
use arrow_text::row::read_bytes;
use arrow_text::write::{show, write_bytes};
use std::alloc::Global;

/// How many bytes are copied as a block.
const BLOCK: usize = 32;

// The first argument, a buffer: the values of an array, null rows too.
fn read_values(alloc: Global, call: &Call<'_>) -> Result<Buffer<i32>, Fault> {
    let array = call.array(alloc, 0)?;
    values_of(&*array.array)
}

// The values of an array.
fn values_of(array: &AnyArray) -> Result<Buffer<i32>, Fault> {
    match array {
        AnyArray::Primitive(AnyPrimitive::Int32(array)) => Ok(array.values().clone()?),
        _ => Err(Fault::Usage),
    }
}

/// The methods of a buffer that take nothing else.
#[derive(Clone, Copy)]
pub(crate) enum OfBuffer {
    Clone,
    FromVec,
    IsEmpty,
    Len,
}

// The calls that take a buffer.
pub(crate) fn of_buffer(
    alloc: Global,
    method: OfBuffer,
    call: &Call<'_>,
    out: &mut String,
) -> Result<(), Fault> {
    call.takes(1)?;
    let values = read_values(alloc, call)?;
    match method {
        OfBuffer::Clone => clone(&values, out),
        OfBuffer::FromVec => from_vec(alloc, &values, out),
        OfBuffer::IsEmpty => show(out, values.is_empty()),
        OfBuffer::Len => show(out, values.len()),
    }
}

// A clone of the buffer.
fn clone(values: &Buffer<i32>, out: &mut String) -> Result<(), Fault> {
    let copy = values.clone()?;
    write_values(out, &copy)
}

// The same values, of a `Vec` of their own.
fn from_vec(alloc: Global, values: &Buffer<i32>, out: &mut String) -> Result<(), Fault> {
    let values = Vec::from_slice(alloc, values.as_slice())?;
    let moved = Buffer::from_vec(alloc, values)?;
    write_values(out, &moved)
}

// A part of a buffer, which is kept of it.
pub(crate) fn slice(alloc: Global, call: &Call<'_>, out: &mut String) -> Result<(), Fault> {
    let (offset, len) = call.range_of(3, 1)?;
    let mut values = read_values(alloc, call)?;
    check_within(offset, len, values.len())?;
    values.slice(offset, len);
    write_values(out, &values)
}

// A part of a buffer, which is made of it.
pub(crate) fn sliced(alloc: Global, call: &Call<'_>, out: &mut String) -> Result<(), Fault> {
    let (offset, len) = call.range_of(3, 1)?;
    let values = read_values(alloc, call)?;
    check_within(offset, len, values.len())?;
    write_values(out, &values.sliced(offset, len))
}

// Appends the values, as an array of them is written.
fn write_values(out: &mut String, values: &Buffer<i32>) -> Result<(), Fault> {
    out.push_str("i32[")?;
    for (i, value) in values.as_slice().iter().enumerate() {
        if i > 0 {
            out.push(',')?;
        }
        show(out, *value)?;
    }
    Ok(out.push(']')?)
}

// Bytes behind others, with room for a block of them.
pub(crate) fn append_span(alloc: Global, call: &Call<'_>, out: &mut String) -> Result<(), Fault> {
    let (start, end) = call.range_of(4, 2)?;
    let mut bytes = read_bytes(alloc, call.argument(0)?)?;
    let from = read_bytes(alloc, call.argument(1)?)?;
    append(&mut bytes, &from, start, end, out)
}

// The same of bytes that are lent.
fn append(
    bytes: &mut Vec<u8>,
    from: &[u8],
    start: usize,
    end: usize,
    out: &mut String,
) -> Result<(), Fault> {
    check_within(start, 0, end)?;
    check_within(end, 0, from.len())?;
    bytes.reserve(BLOCK)?;
    bytes::append_span(bytes, from, start, end, from.len(), BLOCK)?;
    write_bytes(out, bytes)
}
