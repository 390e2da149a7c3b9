//! Lengths and parts of texts and bytes.

use arrow_logic::{length, substring};
use arrow_text::call::Call;
use arrow_text::fault::Fault;
use arrow_text::piece::Piece;
use arrow_text::write::write_made;
use std::alloc::Global;

// Appends how many bytes each text has.
pub(crate) fn length(alloc: Global, call: &Call<'_>, out: &mut String) -> Result<(), Fault> {
    let array = call.only_array(alloc)?;
    write_made(out, length::length(alloc, &array.array))
}

// Appends a part of each row.
pub(crate) fn substring(alloc: Global, call: &Call<'_>, out: &mut String) -> Result<(), Fault> {
    let start = call.integer_of(3, 1)?;
    let length = length_of(call.argument(2)?)?;
    let array = call.array(alloc, 0)?;
    write_made(
        out,
        substring::substring(alloc, &array.array, start, &length),
    )
}

// The length that a piece is: a number, or `none`.
fn length_of(piece: Piece<'_>) -> Result<Option<u64>, Fault> {
    match piece.text() {
        "none" => Ok(None),
        _ => piece.integer().map(Some),
    }
}
