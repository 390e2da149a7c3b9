//! Rows as text: their validity, what is stored, and the rows of children that they name.

use crate::fault::Fault;
use crate::number::Element;
use crate::piece::Piece;
use arrow_memory::bitmap::{Bitmap, MutableBitmap};
use std::alloc::Global;

/// How many rows one text may stand for.
const MOST: usize = 1 << 24;

/// Rows parted by commas; `row*3` stands for three such rows.
pub fn rows_in<'a>(alloc: Global, piece: Piece<'a>) -> Result<Vec<Piece<'a>>, Fault> {
    let mut rows = Vec::new(alloc);
    push_rows(alloc, piece, &mut rows)?;
    Ok(rows)
}

// Appends the rows that a text says.
pub(crate) fn push_rows<'a>(
    alloc: Global,
    piece: Piece<'a>,
    rows: &mut Vec<Piece<'a>>,
) -> Result<(), Fault> {
    let items = piece.items(alloc, ',')?;
    for item in &items {
        let (row, count) = row_and_count(alloc, *item)?;
        push_often(rows, row, count)?;
    }
    Ok(())
}

// A row, and how often it is said.
fn row_and_count<'a>(alloc: Global, item: Piece<'a>) -> Result<(Piece<'a>, usize), Fault> {
    let parts = item.split(alloc, '*')?;
    match parts.as_slice() {
        [row] => Ok((*row, 1)),
        [row, count] => Ok((*row, count.integer()?)),
        _ => Err(item.fault()),
    }
}

// Appends an item so often.
pub(crate) fn push_often<T: Copy>(items: &mut Vec<T>, item: T, count: usize) -> Result<(), Fault> {
    if count > MOST {
        return Err(Fault::Usage);
    }
    Ok(items.resize(items.len().saturating_add(count), item)?)
}

impl<'a> Piece<'a> {
    /// Whether the row is null: an underscore, behind which what is stored may stand.
    pub fn is_null(self) -> bool {
        self.text().starts_with('_')
    }

    /// What is stored in the row, if the text says it.
    pub fn stored(self) -> Option<Piece<'a>> {
        match self.strip_prefix("_") {
            None => Some(self),
            Some(rest) if rest.is_empty() => None,
            Some(rest) => Some(rest),
        }
    }

    /// The truth value that is stored in the row, false where nothing is; or whether the row is no null.
    fn bit(self, is_stored: bool) -> Result<bool, Fault> {
        match self.stored() {
            _ if !is_stored => Ok(!self.is_null()),
            Some(stored) => stored.truth(),
            None => Ok(false),
        }
    }

    /// The element that is stored in the row; zero where the text says none. A null that may not be is no element.
    pub(crate) fn element<T: Element>(self, may_be_null: bool) -> Result<T, Fault> {
        let stored = if may_be_null {
            self.stored()
        } else {
            Some(self)
        };
        match stored {
            Some(stored) => T::read(stored),
            None => Ok(T::default()),
        }
    }
}

/// A bit for each row, set where it is not null; none where no row is null, unless one is asked for.
pub fn validity_of(
    alloc: Global,
    rows: &[Piece<'_>],
    is_kept: bool,
) -> Result<Option<Bitmap>, Fault> {
    if !is_kept && !rows.iter().any(|row| row.is_null()) {
        return Ok(None);
    }
    bits_of(alloc, rows, false).map(Some)
}

// A bit for each row: the truth value that is stored in it, or whether it is no null.
pub(crate) fn bits_of(
    alloc: Global,
    rows: &[Piece<'_>],
    are_stored: bool,
) -> Result<Bitmap, Fault> {
    let mut bits = MutableBitmap::new(alloc);
    for row in rows {
        bits.push(row.bit(are_stored)?)?;
    }
    Ok(bits.into_bitmap()?)
}

/// The bytes that a text says: characters in quotes, or pairs of digits behind an `x`.
pub fn read_bytes(alloc: Global, piece: Piece<'_>) -> Result<Vec<u8>, Fault> {
    let mut bytes = Vec::new(alloc);
    push_bytes(&mut bytes, piece)?;
    Ok(bytes)
}

/// Appends the bytes that a text says.
pub fn push_bytes(bytes: &mut Vec<u8>, piece: Piece<'_>) -> Result<(), Fault> {
    match piece.strip_prefix("x") {
        Some(digits) => push_pairs(bytes, digits),
        None => push_quoted(bytes, piece.between("\"", "\"")?),
    }
}

// Appends a byte for each pair of digits to the base of 16.
fn push_pairs(bytes: &mut Vec<u8>, digits: Piece<'_>) -> Result<(), Fault> {
    let mut first = None;
    for digit in digits.text().chars() {
        let value = digit.to_digit(16).ok_or(digits.fault())?;
        match first {
            None => first = Some(value),
            Some(high) => {
                let byte = u8::try_from(high.saturating_mul(16).saturating_add(value));
                bytes.push(byte.unwrap_or(u8::MAX))?;
                first = None;
            }
        }
    }
    match first {
        None => Ok(()),
        Some(_) => Err(digits.fault()),
    }
}

// Appends the characters of a text that stood in quotes.
fn push_quoted(bytes: &mut Vec<u8>, quoted: Piece<'_>) -> Result<(), Fault> {
    let mut is_escaped = false;
    for byte in quoted.text().bytes() {
        match byte {
            b'\\' if !is_escaped => {
                is_escaped = true;
                continue;
            }
            b'n' if is_escaped => bytes.push(b'\n')?,
            b'"' | b'\\' if is_escaped => bytes.push(byte)?,
            b'"' => return Err(quoted.fault()),
            _ if is_escaped => return Err(quoted.fault()),
            _ => bytes.push(byte)?,
        }
        is_escaped = false;
    }
    if is_escaped {
        return Err(quoted.fault());
    }
    Ok(())
}
