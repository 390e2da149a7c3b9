//! Validities of two sides, taken together, and lengths that are held against one another.

ghost use Rattle.std.specs.Prelude.{IsTrue, option_copied};
ghost use Rattle.arrow_flat.specs.Validities.{AreOneLength};

use arrow_arrays::array::AnyArray;
use arrow_flat::array::BooleanArray;
use arrow_flat::array::validity::fits_rows;
use arrow_logic::utils;
use arrow_memory::bitmap::Bitmap;
use arrow_relate::comparison::{finish_eq_validities, finish_neq_validities};
use arrow_text::call::Call;
use arrow_text::fault::Fault;
use arrow_text::write::{show, write_truths, write_validity};
use std::alloc::Global;

// Appends the validity of rows that are null where those of either side are. `Usage` unless two that are there have as many
// bits.
pub(crate) fn combine_validities(
    alloc: Global,
    call: &Call<'_>,
    out: &mut String,
) -> Result<(), Fault> {
    call.takes(2)?;
    let (lhs, rhs) = (call.validity(alloc, 0)?, call.validity(alloc, 1)?);
    let (lhs, rhs) = (lhs.as_ref(), rhs.as_ref());
    if !are_one_length(lhs, rhs) {
        return Err(Fault::Usage);
    }
    let combined = utils::combine_validities(alloc, lhs, rhs)?;
    write_validity(out, combined.as_ref())
}

// Whether two validities have as many bits, where both are there.
fn are_one_length(lhs: Option<&Bitmap>, rhs: Option<&Bitmap>) -> bool
    ensures { IsTrue result → AreOneLength (option_copied lhs.entry) (option_copied rhs.entry) }
{
    match (lhs, rhs) {
        (Some(lhs), Some(rhs)) => lhs.len() == rhs.len(),
        _ => true,
    }
}

// Appends `ok` where two arrays have as many rows.
pub(crate) fn check_same_len(
    alloc: Global,
    call: &Call<'_>,
    out: &mut String,
) -> Result<(), Fault> {
    let pair = call.pair(alloc, 0)?;
    utils::check_same_len(&pair.left, &pair.right)?;
    show(out, "ok")
}

// Appends comparisons of truth values that two validities finish: of equal rows, or of those that differ.
pub(crate) fn finish(alloc: Global, call: &Call<'_>, out: &mut String) -> Result<(), Fault> {
    call.takes(3)?;
    let given = call.array(alloc, 0)?;
    let AnyArray::Boolean(truths) = &*given.array else {
        return Err(Fault::Usage);
    };
    let truths = truths.clone()?;
    let (lhs, rhs) = (call.validity(alloc, 1)?, call.validity(alloc, 2)?);
    let of_equal = call.name == "comparison::finish_eq_validities";
    write_finished(alloc, of_equal, truths, lhs, rhs, out)
}

// Appends what two validities finish. `Usage` unless each has a bit for each truth value.
fn write_finished(
    alloc: Global,
    of_equal: bool,
    truths: BooleanArray,
    lhs: Option<Bitmap>,
    rhs: Option<Bitmap>,
    out: &mut String,
) -> Result<(), Fault> {
    if !fits_rows(&lhs, truths.len()) || !fits_rows(&rhs, truths.len()) {
        return Err(Fault::Usage);
    }
    let finished = if of_equal {
        finish_eq_validities(alloc, truths, lhs, rhs)
    } else {
        finish_neq_validities(alloc, truths, lhs, rhs)
    };
    write_truths(out, finished)
}
