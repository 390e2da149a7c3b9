//! Tests of places, before the calls that ask for them.

ghost use Rattle.std.specs.Prelude.{◌+◌, ◌<◌, ◌≤◌, OnOk};

use arrow_text::fault::Fault;
use std::fmt::Display;

// That `i` is a place of so many.
pub(crate) fn check_below(i: usize, count: usize) -> Result<(), Fault>
    ensures { OnOk result (i < count) }
{
    if i < count { Ok(()) } else { Err(Fault::Usage) }
}

// That `len` places from `offset` on are among so many.
pub(crate) fn check_within(offset: usize, len: usize, count: usize) -> Result<(), Fault>
    ensures { OnOk result (offset + len ≤ count) }
{
    if offset <= count && len <= count - offset {
        Ok(())
    } else {
        Err(Fault::Usage)
    }
}

// Appends two values, parted by a space.
pub(crate) fn show_both<T: Display + Drop, U: Display + Drop>(
    out: &mut String,
    first: T,
    second: U,
) -> Result<(), Fault> {
    Ok(write!(out, "{first} {second}")?)
}
