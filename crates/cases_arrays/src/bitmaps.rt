//! Calls of bitmaps.

ghost use Rattle.std.specs.Prelude.{◌+◌, ◌≡◌, ◌≤◌, length, OnOk};

use crate::within::{check_below, check_within, show_both};
use arrow_memory::bitmap::Bitmap;
use arrow_text::call::Call;
use arrow_text::fault::Fault;
use arrow_text::write::{show, write_bits};
use arrow_types::error::Error;
use std::alloc::Global;

// Appends the bitmap that a call made, if it was not refused.
pub(crate) fn write_made_bits(
    out: &mut String,
    outcome: Result<Bitmap, Error>,
) -> Result<(), Fault> {
    match outcome {
        Ok(bits) => write_bits(out, &bits),
        Err(error) => Err(Fault::Refused(error)),
    }
}

/// The methods of a bitmap that take nothing else.
#[derive(Clone, Copy)]
pub(crate) enum OfBitmap {
    Clone,
    FromBools,
    IsEmpty,
    Len,
    Not,
    UnsetBits,
}

// The calls that take a bitmap.
pub(crate) fn of_bitmap(
    alloc: Global,
    method: OfBitmap,
    call: &Call<'_>,
    out: &mut String,
) -> Result<(), Fault> {
    let bits = call.only_bits(alloc)?;
    match method {
        OfBitmap::Clone => clone(&bits, out),
        OfBitmap::FromBools => from_bools(alloc, &bits, out),
        OfBitmap::IsEmpty => show(out, bits.is_empty()),
        OfBitmap::Len => show(out, bits.len()),
        OfBitmap::Not => write_made_bits(out, bits.not(alloc)),
        OfBitmap::UnsetBits => show(out, bits.unset_bits()),
    }
}

// A clone of the bitmap.
fn clone(bits: &Bitmap, out: &mut String) -> Result<(), Fault> {
    let copy = bits.clone()?;
    write_bits(out, &copy)
}

// The same bits, packed from a list of truth values.
fn from_bools(alloc: Global, bits: &Bitmap, out: &mut String) -> Result<(), Fault> {
    let mut truths = Vec::new(alloc);
    for i in 0..bits.len() {
        truths.push(bits.get_bit(i))?;
    }
    write_made_bits(out, Bitmap::from_bools(alloc, &truths))
}

// So many bits that are not set.
pub(crate) fn new_zeroed(alloc: Global, call: &Call<'_>, out: &mut String) -> Result<(), Fault> {
    write_made_bits(out, Bitmap::new_zeroed(alloc, call.integer_of(1, 0)?))
}

// So many bits that are equal to a truth value.
pub(crate) fn new_constant(alloc: Global, call: &Call<'_>, out: &mut String) -> Result<(), Fault> {
    call.takes(2)?;
    let value = call.argument(0)?.truth()?;
    write_made_bits(out, Bitmap::new_constant(alloc, value, call.integer(1)?))
}

// The bits of a part, each so many times.
pub(crate) fn repeated(alloc: Global, call: &Call<'_>, out: &mut String) -> Result<(), Fault> {
    let (start, len) = call.range_of(4, 1)?;
    let times = call.integer(3)?;
    let bits = call.bits(alloc, 0)?;
    check_within(start, len, bits.len())?;
    if len.checked_mul(times).is_none() {
        return Err(Fault::Usage);
    }
    write_made_bits(out, bits.repeated(alloc, start, len, times))
}

/// The methods of a bitmap that take a number too.
#[derive(Clone, Copy)]
pub(crate) enum OfBitmapAt {
    GetBit,
    Word,
}

// The calls that take a bitmap and a number.
pub(crate) fn of_bitmap_at(
    alloc: Global,
    method: OfBitmapAt,
    call: &Call<'_>,
    out: &mut String,
) -> Result<(), Fault> {
    let i = call.integer_of(2, 1)?;
    let bits = call.bits(alloc, 0)?;
    match method {
        OfBitmapAt::GetBit if i < bits.len() => show(out, bits.get_bit(i)),
        OfBitmapAt::GetBit => Err(Fault::Usage),
        OfBitmapAt::Word => show(out, bits.word(i)),
    }
}

/// The methods of a bitmap that take two numbers too.
#[derive(Clone, Copy)]
pub(crate) enum OfBitmapPart {
    RunAt,
    Runs,
    Slice,
    Sliced,
}

// The calls that take a bitmap and two numbers.
pub(crate) fn of_bitmap_part(
    alloc: Global,
    method: OfBitmapPart,
    call: &Call<'_>,
    out: &mut String,
) -> Result<(), Fault> {
    let (start, len) = call.range_of(3, 1)?;
    let bits = call.bits(alloc, 0)?;
    match method {
        OfBitmapPart::RunAt => run_at(&bits, start, len, out),
        OfBitmapPart::Runs => runs(&bits, start, len, out),
        OfBitmapPart::Slice => slice(bits, start, len, out),
        OfBitmapPart::Sliced => sliced(bits, start, len, out),
    }
}

// A part of a bitmap, which is kept of it.
fn slice(bits: Bitmap, offset: usize, len: usize, out: &mut String) -> Result<(), Fault> {
    check_within(offset, len, bits.len())?;
    let mut part = bits;
    part.slice(offset, len);
    write_bits(out, &part)
}

// A part of a bitmap, which is made of it.
fn sliced(bits: Bitmap, offset: usize, len: usize, out: &mut String) -> Result<(), Fault> {
    check_within(offset, len, bits.len())?;
    write_bits(out, &bits.sliced(offset, len))
}

// A bit, and where the run of such bits ends.
fn run_at(bits: &Bitmap, start: usize, end: usize, out: &mut String) -> Result<(), Fault> {
    check_below(start, end)?;
    check_within(end, 0, bits.len())?;
    let (bit, run_end) = bits.run_at(start, end);
    show_both(out, bit, run_end)
}

// The runs of a part of a bitmap, one after the other.
fn runs(bits: &Bitmap, start: usize, len: usize, out: &mut String) -> Result<(), Fault> {
    check_within(start, len, bits.len())?;
    write_runs(bits, start, len, out)
}

// Each run of set bits among `len` bits from `start` on, and the count of the others before it; `none` of no bit.
fn write_runs(bits: &Bitmap, start: usize, len: usize, out: &mut String) -> Result<(), Fault>
    requires { start + len ≤ length bits.now }
{
    if len == 0 {
        return Ok(out.push_str("none")?);
    }
    let mut runs = bits.runs(start, len);
    let mut left = len;
    for _run in 0..len {
        let (unset, set) = runs.next_set();
        write!(out, "({unset},{set})")?;
        left = left.saturating_sub(unset).saturating_sub(set);
        if left == 0 {
            break;
        }
        out.push(' ')?;
    }
    Ok(())
}

// That two bitmaps have as many bits.
fn check_alike(left: &Bitmap, right: &Bitmap) -> Result<(), Fault>
    ensures { OnOk result (length left.now ≡ length right.now) }
{
    if left.len() == right.len() {
        Ok(())
    } else {
        Err(Fault::Usage)
    }
}

/// The methods of two bitmaps.
#[derive(Clone, Copy)]
pub(crate) enum OfBitmaps {
    And,
    AndNot,
    Eq,
    Or,
}

// The calls that take two bitmaps.
pub(crate) fn of_bitmaps(
    alloc: Global,
    method: OfBitmaps,
    call: &Call<'_>,
    out: &mut String,
) -> Result<(), Fault> {
    call.takes(2)?;
    let left = call.bits(alloc, 0)?;
    let right = call.bits(alloc, 1)?;
    write_of_bitmaps(alloc, method, &left, &right, out)
}

// The same of bitmaps that are lent.
fn write_of_bitmaps(
    alloc: Global,
    method: OfBitmaps,
    left: &Bitmap,
    right: &Bitmap,
    out: &mut String,
) -> Result<(), Fault> {
    if let OfBitmaps::Eq = method {
        return show(out, *left == *right);
    }
    check_alike(left, right)?;
    match method {
        OfBitmaps::And => write_made_bits(out, left.and(alloc, right)),
        OfBitmaps::AndNot => write_made_bits(out, left.and_not(alloc, right)),
        _ => write_made_bits(out, left.or(alloc, right)),
    }
}

// Whether parts of two bitmaps are equal.
pub(crate) fn equal_range(alloc: Global, call: &Call<'_>, out: &mut String) -> Result<(), Fault> {
    let start = call.integer_of(5, 1)?;
    let (other_start, len) = call.range(3)?;
    let left = call.bits(alloc, 0)?;
    let right = call.bits(alloc, 2)?;
    check_within(start, len, left.len())?;
    check_within(other_start, len, right.len())?;
    show(out, left.equal_range(start, &right, other_start, len))
}
