//! Rows that are joined, moved and chosen.

use crate::select::lists::{are_of_one_type, as_boolean, lend_all};
use arrow_growable::growable::join_arrays;
use arrow_select::concatenate::concatenate;
use arrow_select::if_then_else::if_then_else;
use arrow_select::window::shift;
use arrow_text::call::Call;
use arrow_text::fault::Fault;
use arrow_text::write::write_made;
use std::alloc::Global;

// All rows of arrays: of any, or by `join_arrays` of some of one data type.
pub(crate) fn answer_join(alloc: Global, call: &Call<'_>, out: &mut String) -> Result<(), Fault> {
    let given = call.arrays(alloc, 0)?;
    let arrays = lend_all(alloc, &given)?;
    if call.name != "join_arrays" {
        return write_made(out, concatenate(alloc, &arrays));
    }
    if !are_of_one_type(&arrays) {
        return Err(Fault::Usage);
    }
    write_made(out, join_arrays(alloc, &arrays))
}

// Rows that are moved along an array.
pub(crate) fn answer_shift(alloc: Global, call: &Call<'_>, out: &mut String) -> Result<(), Fault> {
    let offset = call.integer_of(2, 1)?;
    let given = call.array(alloc, 0)?;
    write_made(out, shift(alloc, &given.array, offset))
}

// Rows of two arrays, as a predicate chooses.
pub(crate) fn answer_choice(alloc: Global, call: &Call<'_>, out: &mut String) -> Result<(), Fault> {
    let given = call.arrays(alloc, 0)?;
    match given.arrays.as_slice() {
        [predicate, left, right] => {
            let predicate = as_boolean(predicate)?;
            write_made(out, if_then_else(alloc, predicate, left, right))
        }
        _ => Err(Fault::Usage),
    }
}
