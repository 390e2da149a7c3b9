//! Numbers and the elements of primitive arrays as text.

use crate::fault::Fault;
use crate::piece::Piece;
use crate::write::show;
use arrow_types::types::{NativeType, days_ms, i256, months_days_ns};
use std::fmt::Display;
use std::num::ParseIntError;
use std::str::FromStr;

/// An integer of a type of its own width.
pub trait Integer: Copy + FromStr<Err = ParseIntError> {}

impl Integer for i8 {}

impl Integer for i16 {}

impl Integer for i32 {}

impl Integer for i64 {}

impl Integer for i128 {}

impl Integer for u8 {}

impl Integer for u16 {}

impl Integer for u32 {}

impl Integer for u64 {}

impl Integer for u128 {}

impl Integer for usize {}

/// An element of primitive arrays, which text can say.
pub trait Element: NativeType {
    /// The element that this text says.
    fn read(piece: Piece<'_>) -> Result<Self, Fault>;

    /// Appends the text of an element.
    fn write(self, out: &mut String) -> Result<(), Fault>;
}

impl Element for i8 {
    fn read(piece: Piece<'_>) -> Result<i8, Fault> {
        piece.integer()
    }

    fn write(self, out: &mut String) -> Result<(), Fault> {
        show(out, self)
    }
}

impl Element for i16 {
    fn read(piece: Piece<'_>) -> Result<i16, Fault> {
        piece.integer()
    }

    fn write(self, out: &mut String) -> Result<(), Fault> {
        show(out, self)
    }
}

impl Element for i32 {
    fn read(piece: Piece<'_>) -> Result<i32, Fault> {
        piece.integer()
    }

    fn write(self, out: &mut String) -> Result<(), Fault> {
        show(out, self)
    }
}

impl Element for i64 {
    fn read(piece: Piece<'_>) -> Result<i64, Fault> {
        piece.integer()
    }

    fn write(self, out: &mut String) -> Result<(), Fault> {
        show(out, self)
    }
}

impl Element for i128 {
    fn read(piece: Piece<'_>) -> Result<i128, Fault> {
        piece.integer()
    }

    fn write(self, out: &mut String) -> Result<(), Fault> {
        show(out, self)
    }
}

impl Element for u8 {
    fn read(piece: Piece<'_>) -> Result<u8, Fault> {
        piece.integer()
    }

    fn write(self, out: &mut String) -> Result<(), Fault> {
        show(out, self)
    }
}

impl Element for u16 {
    fn read(piece: Piece<'_>) -> Result<u16, Fault> {
        piece.integer()
    }

    fn write(self, out: &mut String) -> Result<(), Fault> {
        show(out, self)
    }
}

impl Element for u32 {
    fn read(piece: Piece<'_>) -> Result<u32, Fault> {
        piece.integer()
    }

    fn write(self, out: &mut String) -> Result<(), Fault> {
        show(out, self)
    }
}

impl Element for u64 {
    fn read(piece: Piece<'_>) -> Result<u64, Fault> {
        piece.integer()
    }

    fn write(self, out: &mut String) -> Result<(), Fault> {
        show(out, self)
    }
}

// The two parts of a text that a colon parts.
fn halves(piece: Piece<'_>) -> Result<(Piece<'_>, Piece<'_>), Fault> {
    piece.parted(':').ok_or(piece.fault())
}

// The two numbers of a text that a colon parts.
fn pair<S: Integer, T: Integer>(piece: Piece<'_>) -> Result<(S, T), Fault> {
    let (first, second) = halves(piece)?;
    Ok((first.integer()?, second.integer()?))
}

// Appends two numbers, parted by a colon.
fn write_pair<S: Display + Drop, T: Display + Drop>(
    out: &mut String,
    first: S,
    second: T,
) -> Result<(), Fault> {
    Ok(write!(out, "{first}:{second}")?)
}

/// A number of 256 bits is said by its halves, as `-1:0`.
impl Element for i256 {
    fn read(piece: Piece<'_>) -> Result<i256, Fault> {
        let (high, low) = pair(piece)?;
        Ok(i256::new(high, low))
    }

    fn write(self, out: &mut String) -> Result<(), Fault> {
        write_pair(out, self.high(), self.low())
    }
}

/// Days and milliseconds, as `1:-500`.
impl Element for days_ms {
    fn read(piece: Piece<'_>) -> Result<days_ms, Fault> {
        let (days, milliseconds) = pair(piece)?;
        Ok(days_ms::new(days, milliseconds))
    }

    fn write(self, out: &mut String) -> Result<(), Fault> {
        write_pair(out, self.days(), self.milliseconds())
    }
}

/// Months, days and nanoseconds, as `1:-2:3`.
impl Element for months_days_ns {
    fn read(piece: Piece<'_>) -> Result<months_days_ns, Fault> {
        let (months, rest) = halves(piece)?;
        let months = months.integer()?;
        let (days, ns) = pair(rest)?;
        Ok(months_days_ns::new(months, days, ns))
    }

    fn write(self, out: &mut String) -> Result<(), Fault> {
        write_pair(out, self.months(), self.days())?;
        write_tail(out, self.ns())
    }
}

// Appends a number behind a colon.
fn write_tail(out: &mut String, last: i64) -> Result<(), Fault> {
    Ok(write!(out, ":{last}")?)
}
