//! Bitmaps and offsets under construction: a list of steps, one after the other.

use crate::bitmaps::write_made_bits;
use crate::offsets::{read, write_offsets};
use crate::within::check_within;
use arrow_memory::bitmap::MutableBitmap;
use arrow_memory::offset::Offsets;
use arrow_text::call::Call;
use arrow_text::fault::Fault;
use arrow_text::number::Integer;
use arrow_text::piece::Piece;
use arrow_text::types::find;
use arrow_types::error::Error;
use arrow_types::types::Offset;
use std::alloc::Global;
use std::fmt::Display;

// Appends a value and a space, if the step takes no argument.
fn show_alone<T: Display + Drop>(out: &mut String, step: &Call<'_>, value: T) -> Result<(), Fault> {
    step.takes(0)?;
    Ok(write!(out, "{value} ")?)
}

// Appends a refusal's name, where a step was refused.
fn write_refusal(out: &mut String, outcome: Result<(), Error>) -> Result<(), Fault> {
    match outcome {
        Ok(()) => Ok(()),
        Err(error) => Ok(write!(out, "{error:?} ")?),
    }
}

/// The steps on bits.
#[derive(Clone, Copy)]
enum BitsStep {
    ExtendConstant,
    ExtendFromBitmap,
    IsEmpty,
    Len,
    Push,
    PushWord,
}

/// The steps on bits by their names.
const BITS_STEPS: [(&str, BitsStep); 6] = [
    ("extend_constant", BitsStep::ExtendConstant),
    ("extend_from_bitmap", BitsStep::ExtendFromBitmap),
    ("is_empty", BitsStep::IsEmpty),
    ("len", BitsStep::Len),
    ("push", BitsStep::Push),
    ("push_word", BitsStep::PushWord),
];

// Bits that are appended, and the bitmap at the end. A first step makes them.
pub(crate) fn bits(alloc: Global, call: &Call<'_>, out: &mut String) -> Result<(), Fault> {
    let Some((first, steps)) = call.arguments.split_first() else {
        return Err(Fault::Usage);
    };
    let mut bits = new_bits(alloc, *first)?;
    bits_steps(alloc, &mut bits, steps, out)?;
    write_made_bits(out, bits.into_bitmap())
}

// No bits: `new()`, or `with_capacity(8)`.
fn new_bits(alloc: Global, piece: Piece<'_>) -> Result<MutableBitmap, Fault> {
    let step = piece.step(alloc)?;
    match step.name {
        "new" => {
            step.takes(0)?;
            Ok(MutableBitmap::new(alloc))
        }
        "with_capacity" => Ok(MutableBitmap::with_capacity(alloc, step.integer_of(1, 0)?)?),
        _ => Err(Fault::Usage),
    }
}

// The steps on bits, one after the other.
fn bits_steps(
    alloc: Global,
    bits: &mut MutableBitmap,
    steps: &[Piece<'_>],
    out: &mut String,
) -> Result<(), Fault> {
    for step in steps {
        bits_step(alloc, bits, *step, out)?;
    }
    Ok(())
}

// One step on bits, and what it prints.
fn bits_step(
    alloc: Global,
    bits: &mut MutableBitmap,
    piece: Piece<'_>,
    out: &mut String,
) -> Result<(), Fault> {
    let step = piece.step(alloc)?;
    match find(&BITS_STEPS, step.name) {
        Some(kind) => take_bits_step(alloc, *kind, bits, &step, out),
        None => Err(Fault::Usage),
    }
}

// A step of a kind on bits, and what it prints.
fn take_bits_step(
    alloc: Global,
    kind: BitsStep,
    bits: &mut MutableBitmap,
    step: &Call<'_>,
    out: &mut String,
) -> Result<(), Fault> {
    match kind {
        BitsStep::ExtendConstant => push_often(bits, step, out),
        BitsStep::ExtendFromBitmap => extend_from_bitmap(alloc, bits, step, out),
        BitsStep::IsEmpty => show_alone(out, step, bits.is_empty()),
        BitsStep::Len => show_alone(out, step, bits.len()),
        BitsStep::Push => push_bit(bits, step, out),
        BitsStep::PushWord => push_word(bits, step, out),
    }
}

// Appends a bit.
fn push_bit(bits: &mut MutableBitmap, step: &Call<'_>, out: &mut String) -> Result<(), Fault> {
    step.takes(1)?;
    let bit = step.argument(0)?.truth()?;
    write_refusal(out, bits.push(bit))
}

// Appends a bit so often.
fn push_often(bits: &mut MutableBitmap, step: &Call<'_>, out: &mut String) -> Result<(), Fault> {
    let additional = step.integer_of(2, 0)?;
    let bit = step.argument(1)?.truth()?;
    write_refusal(out, bits.extend_constant(additional, bit))
}

// Appends a part of a bitmap.
fn extend_from_bitmap(
    alloc: Global,
    bits: &mut MutableBitmap,
    step: &Call<'_>,
    out: &mut String,
) -> Result<(), Fault> {
    let (start, len) = step.range_of(3, 1)?;
    let source = step.bits(alloc, 0)?;
    check_within(start, len, source.len())?;
    write_refusal(out, bits.extend_from_bitmap(&source, start, len))
}

// Appends the lowest bits of a word.
fn push_word(bits: &mut MutableBitmap, step: &Call<'_>, out: &mut String) -> Result<(), Fault> {
    let word = step.integer_of(2, 0)?;
    let len = step.integer(1)?;
    check_within(len, 0, 64)?;
    write_refusal(out, bits.push_word(word, len))
}

/// The steps on offsets.
#[derive(Clone, Copy)]
enum OffsetsStep {
    ExtendConstant,
    Last,
    Len,
    TryExtendFromSlice,
    TryExtendFromValid,
    TryPushUsize,
}

/// The steps on offsets by their names.
const OFFSETS_STEPS: [(&str, OffsetsStep); 6] = [
    ("extend_constant", OffsetsStep::ExtendConstant),
    ("last", OffsetsStep::Last),
    ("len", OffsetsStep::Len),
    ("try_extend_from_slice", OffsetsStep::TryExtendFromSlice),
    ("try_extend_from_valid", OffsetsStep::TryExtendFromValid),
    ("try_push_usize", OffsetsStep::TryPushUsize),
];

// Offsets that rows are appended to, and the offsets at the end. A first step makes them.
pub(crate) fn offsets<O: Offset + Integer>(
    alloc: Global,
    call: &Call<'_>,
    out: &mut String,
) -> Result<(), Fault> {
    let Some((first, steps)) = call.arguments.split_first() else {
        return Err(Fault::Usage);
    };
    let mut offsets = new_offsets::<O>(alloc, *first)?;
    offsets_steps(alloc, &mut offsets, steps, out)?;
    let offsets = offsets.into_buffer()?;
    write_offsets(out, &offsets)
}

// The offset 0 alone: `with_capacity(8)`.
fn new_offsets<O: Offset>(alloc: Global, piece: Piece<'_>) -> Result<Offsets<O>, Fault> {
    let step = piece.step(alloc)?;
    let capacity = step.integer_of(1, 0)?;
    match step.name {
        "with_capacity" => Ok(Offsets::with_capacity(alloc, capacity)?),
        _ => Err(Fault::Usage),
    }
}

// The steps on offsets, one after the other.
fn offsets_steps<O: Offset + Integer>(
    alloc: Global,
    offsets: &mut Offsets<O>,
    steps: &[Piece<'_>],
    out: &mut String,
) -> Result<(), Fault> {
    for step in steps {
        offsets_step(alloc, offsets, *step, out)?;
    }
    Ok(())
}

// One step on offsets, and what it prints.
fn offsets_step<O: Offset + Integer>(
    alloc: Global,
    offsets: &mut Offsets<O>,
    piece: Piece<'_>,
    out: &mut String,
) -> Result<(), Fault> {
    let step = piece.step(alloc)?;
    match find(&OFFSETS_STEPS, step.name) {
        Some(kind) => take_offsets_step(alloc, *kind, offsets, &step, out),
        None => Err(Fault::Usage),
    }
}

// A step of a kind on offsets, and what it prints.
fn take_offsets_step<O: Offset + Integer>(
    alloc: Global,
    kind: OffsetsStep,
    offsets: &mut Offsets<O>,
    step: &Call<'_>,
    out: &mut String,
) -> Result<(), Fault> {
    match kind {
        OffsetsStep::ExtendConstant => extend_constant(offsets, step, out),
        OffsetsStep::Last => show_alone(out, step, offsets.last().to_usize()),
        OffsetsStep::Len => show_alone(out, step, offsets.len()),
        OffsetsStep::TryExtendFromSlice => extend_from_slice(alloc, offsets, step, out),
        OffsetsStep::TryExtendFromValid => extend_from_valid(alloc, offsets, step, out),
        OffsetsStep::TryPushUsize => try_push(offsets, step, out),
    }
}

// Appends rows of no item.
fn extend_constant<O: Offset>(
    offsets: &mut Offsets<O>,
    step: &Call<'_>,
    out: &mut String,
) -> Result<(), Fault> {
    let additional = step.integer_of(1, 0)?;
    write_refusal(out, offsets.extend_constant(additional))
}

// Appends a row.
fn try_push<O: Offset>(
    offsets: &mut Offsets<O>,
    step: &Call<'_>,
    out: &mut String,
) -> Result<(), Fault> {
    let length = step.integer_of(1, 0)?;
    write_refusal(out, offsets.try_push_usize(length))
}

// Appends rows of other offsets.
fn extend_from_slice<O: Offset + Integer>(
    alloc: Global,
    offsets: &mut Offsets<O>,
    step: &Call<'_>,
    out: &mut String,
) -> Result<(), Fault> {
    let (start, len) = step.range_of(3, 1)?;
    let other = read::<O>(alloc, step)?;
    check_within(start, len, other.len() - 1)?;
    write_refusal(out, offsets.try_extend_from_slice(&other, start, len))
}

// Appends rows of other offsets from one on, up to the end of a validity.
fn extend_from_valid<O: Offset + Integer>(
    alloc: Global,
    offsets: &mut Offsets<O>,
    step: &Call<'_>,
    out: &mut String,
) -> Result<(), Fault> {
    let start = step.integer_of(3, 1)?;
    let other = read::<O>(alloc, step)?;
    let validity = step.bits(alloc, 2)?;
    check_within(start, 0, validity.len())?;
    let len = validity.len() - start;
    check_within(start, len, other.len() - 1)?;
    write_refusal(
        out,
        offsets.try_extend_from_valid(&other, &validity, start, len),
    )
}
