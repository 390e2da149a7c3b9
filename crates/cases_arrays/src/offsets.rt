//! Calls of offsets, of 32 and of 64 bits.

use crate::within::{check_within, show_both};
use arrow_memory::offset::OffsetsBuffer;
use arrow_text::call::Call;
use arrow_text::fault::Fault;
use arrow_text::number::Integer;
use arrow_text::parts::read_offsets;
use arrow_text::write::show;
use arrow_types::types::Offset;
use std::alloc::Global;

/// The methods of offsets.
#[derive(Clone, Copy)]
pub(crate) enum Method {
    Clone,
    Last,
    Len,
    Range,
    Slice,
    StartEnd,
    TryFrom,
}

// The calls of offsets, by the width of the first argument.
pub(crate) fn of_offsets(
    alloc: Global,
    method: Method,
    call: &Call<'_>,
    out: &mut String,
) -> Result<(), Fault> {
    match call.arguments.first() {
        Some(piece) if piece.text().starts_with("offsets64") => {
            of_width::<i64>(alloc, method, call, out)
        }
        _ => of_width::<i32>(alloc, method, call, out),
    }
}

// The calls of offsets of one width.
fn of_width<O: Offset + Integer>(
    alloc: Global,
    method: Method,
    call: &Call<'_>,
    out: &mut String,
) -> Result<(), Fault> {
    match method {
        Method::Range => range::<O>(alloc, call, out),
        Method::Slice => slice::<O>(alloc, call, out),
        Method::StartEnd => start_end::<O>(alloc, call, out),
        method => of_one::<O>(alloc, method, call, out),
    }
}

// The calls that take offsets and nothing else.
fn of_one<O: Offset + Integer>(
    alloc: Global,
    method: Method,
    call: &Call<'_>,
    out: &mut String,
) -> Result<(), Fault> {
    call.takes(1)?;
    let offsets = read::<O>(alloc, call)?;
    match method {
        Method::Clone => write_copy(out, &offsets),
        Method::Last => show(out, offsets.last().to_usize()),
        Method::Len => show(out, offsets.len()),
        _ => write_offsets(out, &offsets),
    }
}

// Argument 0, offsets as they stand on a line: `offsets32[0,2,3]`.
pub(crate) fn read<O: Offset + Integer>(
    alloc: Global,
    call: &Call<'_>,
) -> Result<OffsetsBuffer<O>, Fault> {
    let piece = call.argument(0)?;
    let numbers = read_offsets::<O>(alloc, piece.between(opening::<O>(), "]")?)?;
    Ok(OffsetsBuffer::try_from(alloc, numbers)?)
}

// What stands before the first of some offsets.
fn opening<O: Offset>() -> &'static str {
    if O::IS_LARGE {
        "offsets64["
    } else {
        "offsets32["
    }
}

// Appends a clone of offsets.
fn write_copy<O: Offset>(out: &mut String, offsets: &OffsetsBuffer<O>) -> Result<(), Fault> {
    let copy = offsets.clone()?;
    write_offsets(out, &copy)
}

// Appends offsets as they stand on a line.
pub(crate) fn write_offsets<O: Offset>(
    out: &mut String,
    offsets: &OffsetsBuffer<O>,
) -> Result<(), Fault> {
    out.push_str(opening::<O>())?;
    for i in 0..offsets.len() {
        if i > 0 {
            out.push(',')?;
        }
        let (place, _) = offsets.range(i, 0);
        show(out, place)?;
    }
    Ok(out.push(']')?)
}

// Where a row begins and ends.
fn start_end<O: Offset + Integer>(
    alloc: Global,
    call: &Call<'_>,
    out: &mut String,
) -> Result<(), Fault> {
    let i = call.integer_of(2, 1)?;
    let offsets = read::<O>(alloc, call)?;
    check_within(i, 2, offsets.len())?;
    let (start, end) = offsets.start_end(i);
    show_both(out, start, end)
}

// Where rows begin and end.
fn range<O: Offset + Integer>(
    alloc: Global,
    call: &Call<'_>,
    out: &mut String,
) -> Result<(), Fault> {
    let (start, len) = call.range_of(3, 1)?;
    let offsets = read::<O>(alloc, call)?;
    check_within(start, len, offsets.len() - 1)?;
    let (start, end) = offsets.range(start, len);
    show_both(out, start, end)
}

// Offsets of which a part is kept.
fn slice<O: Offset + Integer>(
    alloc: Global,
    call: &Call<'_>,
    out: &mut String,
) -> Result<(), Fault> {
    let (offset, len) = call.range_of(3, 1)?;
    if len == 0 {
        return Err(Fault::Usage);
    }
    let mut offsets = read::<O>(alloc, call)?;
    check_within(offset, len, offsets.len())?;
    offsets.slice(offset, len);
    write_offsets(out, &offsets)
}
