//! Bitmaps as text, as `bits[tft*3]`, and validities, which may be `none`.

ghost use Rattle.std.specs.Prelude.{◌+◌, ◌≤◌, IfOk};

use crate::fault::Fault;
use crate::piece::Piece;
use arrow_memory::bitmap::{Bitmap, MutableBitmap};
use std::alloc::Global;

/// A bitmap: `bits[tft*3]`, and slices of it, as `@1+2`.
pub fn read_bits(alloc: Global, piece: Piece<'_>) -> Result<Bitmap, Fault> {
    letters_between(alloc, piece, "bits[", "]")
}

/// A validity: a bitmap, or `none`.
pub fn read_validity(alloc: Global, piece: Piece<'_>) -> Result<Option<Bitmap>, Fault> {
    match piece.text() {
        "none" => Ok(None),
        _ => Ok(Some(read_bits(alloc, piece)?)),
    }
}

// The bits of letters in brackets, and slices of them, one after the other, as `tft*3@1+2`.
pub(crate) fn letters_between(
    alloc: Global,
    piece: Piece<'_>,
    opening: &str,
    closing: &str,
) -> Result<Bitmap, Fault> {
    let parts = piece.split(alloc, '@')?;
    match parts.split_first() {
        Some((body, slices)) => sliced_letters(alloc, body.between(opening, closing)?, slices),
        None => Err(piece.fault()),
    }
}

// The bits of letters, of which slices are taken.
fn sliced_letters(
    alloc: Global,
    letters: Piece<'_>,
    slices: &[Piece<'_>],
) -> Result<Bitmap, Fault> {
    let mut bits = bits_of(alloc, letters)?;
    for slice in slices {
        let (offset, len) = slice_within(*slice, bits.len())?;
        bits.slice(offset, len);
    }
    Ok(bits)
}

// Where a slice of so many rows begins and how long it is, as `1+2`.
pub(crate) fn slice_within(piece: Piece<'_>, rows: usize) -> Result<(usize, usize), Fault>
    ensures { IfOk result (λ slice. slice.0 + slice.1 ≤ rows) }
{
    let (offset, len) = piece.parted('+').ok_or(piece.fault())?;
    let offset = offset.integer()?;
    let len = len.integer()?;
    if offset > rows || len > rows - offset {
        return Err(Fault::Usage);
    }
    Ok((offset, len))
}

// The bits of letters: a `t` is set, and a letter may be repeated, as `t*64`.
fn bits_of(alloc: Global, letters: Piece<'_>) -> Result<Bitmap, Fault> {
    let mut bits = MutableBitmap::new(alloc);
    let mut last = None;
    let mut count = None;
    for c in letters.text().chars() {
        match c {
            't' | 'f' => {
                push_letter(&mut bits, last, count)?;
                (last, count) = (Some(c == 't'), None);
            }
            '*' if count.is_none() && last.is_some() => count = Some(0),
            '0'..='9' => count = Some(counted(count, c).ok_or(letters.fault())?),
            _ => return Err(letters.fault()),
        }
    }
    push_letter(&mut bits, last, count)?;
    Ok(bits.into_bitmap()?)
}

// A number with one more digit behind it; none where no number has begun, or where it is too large.
fn counted(count: Option<u32>, digit: char) -> Option<u32> {
    count?.checked_mul(10)?.checked_add(digit.to_digit(10)?)
}

// Appends a bit, if there is one, as often as it is said.
fn push_letter(
    bits: &mut MutableBitmap,
    bit: Option<bool>,
    count: Option<u32>,
) -> Result<(), Fault> {
    match bit {
        Some(bit) => Ok(bits.extend_constant(count.unwrap_or(1) as usize, bit)?),
        None => Ok(()),
    }
}
