//! Ranges of the rows of a predicate.

use crate::select::filter::read_filter;
use crate::select::lists::as_boolean;
use arrow_select::if_then_else::if_then_else_ranges;
use arrow_text::call::Call;
use arrow_text::fault::Fault;
use std::alloc::Global;

// The ranges of the rows that a prepared filter keeps, with a space between two, and `none` of no row.
pub(crate) fn answer_kept(alloc: Global, call: &Call<'_>, out: &mut String) -> Result<(), Fault> {
    call.takes(1)?;
    let prepared = read_filter(alloc, call.argument(0)?)?;
    let ranges = prepared.ranges();
    if ranges.is_empty() {
        out.push_str("none")?;
    }
    for (place, (start, len)) in ranges.iter().enumerate() {
        if place > 0 {
            out.push(' ')?;
        }
        write!(out, "({start},{len})")?;
    }
    Ok(())
}

// The ranges of the rows of each side, the side before each.
pub(crate) fn answer_sides(alloc: Global, call: &Call<'_>, out: &mut String) -> Result<(), Fault> {
    let given = call.only_array(alloc)?;
    let ranges = if_then_else_ranges(alloc, as_boolean(&given.array)?)?;
    if ranges.is_empty() {
        out.push_str("none")?;
    }
    for (place, (side, start, len)) in ranges.iter().enumerate() {
        if place > 0 {
            out.push(' ')?;
        }
        write!(out, "({side},{start},{len})")?;
    }
    Ok(())
}
