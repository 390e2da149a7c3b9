//! Runs of indices: those that name rows one behind the other, and those that are null.

ghost use Rattle.std.specs.Prelude.{◌≡◌, ◌+◌, ◌<◌, ◌≤◌, Some, None, length, map, option_copied, slice_index_or, IfSome};
ghost use Rattle.arrow_types.specs.Rows.{masked};
ghost use Rattle.arrow_types.specs.Slot.{Null};
ghost use Rattle.arrow_memory.specs.Sliced.{sliced};
ghost use Rattle.arrow_flat.specs.Parts.{FitsRows};
ghost use Rattle.arrow_arrays.specs.KeyedParts.{key_in};
ghost use Rattle.arrow_take.specs.Taken.{AreIndices, run_of};

use crate::take::indices::index_at;
use arrow_memory::bitmap::Bitmap;
use arrow_types::types::Index;

// The place that index `row` names, if it is not null, and how many indices from there on name the places from this one
// on, or are null too: of rows of which there are `len`.
pub(super) fn run_at<I: Index>(
    stored: &[I],
    validity: Option<&Bitmap>,
    row: usize,
    len: usize,
) -> (Option<usize>, usize)
    requires fits { FitsRows (option_copied validity) (length stored.now) }
    requires within { row < length stored.now }
    requires inside { AreIndices len (masked (option_copied validity) (map I.slot stored.now)) }
    ensures some { 0 < result.1 }
    ensures within { row + result.1 ≤ length stored.now }
    ensures inside { IfSome result.0 (λ start. start + result.1 ≤ len) }
    ensures run { sliced (masked (option_copied validity.entry) (map I.slot stored.now)) row result.1
        ≡ run_of result.0 result.1 }
{
    let place = index_at(stored, validity, row);
    let count = match place {
        Some(start) => rising_from(stored, validity, row, start, len),
        None => nulls_from(stored, validity, row, len),
    };
    (place, count)
}

// How many indices from `row` on name the places from `start` on, of rows of which there are `len`: the first does.
fn rising_from<I: Index>(
    stored: &[I],
    validity: Option<&Bitmap>,
    row: usize,
    start: usize,
    len: usize,
) -> usize
    requires fits { FitsRows (option_copied validity) (length stored.now) }
    requires within { row < length stored.now }
    requires inside { AreIndices len (masked (option_copied validity) (map I.slot stored.now)) }
    requires first { key_in (slice_index_or
        (masked (option_copied validity) (map I.slot stored.now)) row Null) ≡ Some start }
    ensures some { 0 < result }
    ensures within { row + result ≤ length stored.now }
    ensures inside { start + result ≤ len }
    ensures run { sliced (masked (option_copied validity.entry) (map I.slot stored.now)) row result
        ≡ run_of (Some start) result }
{
    let mut count = 1;
    while row + count < stored.len()
        && start + count < len
        && index_at(stored, validity, row + count) == Some(start + count)
    {
        count += 1;
    }
    count
}

// How many indices from `row` on are null: the first is.
fn nulls_from<I: Index>(stored: &[I], validity: Option<&Bitmap>, row: usize, len: usize) -> usize
    requires fits { FitsRows (option_copied validity) (length stored.now) }
    requires within { row < length stored.now }
    requires inside { AreIndices len (masked (option_copied validity) (map I.slot stored.now)) }
    requires first { key_in (slice_index_or
        (masked (option_copied validity) (map I.slot stored.now)) row Null) ≡ None }
    ensures some { 0 < result }
    ensures within { row + result ≤ length stored.now }
    ensures run { sliced (masked (option_copied validity.entry) (map I.slot stored.now)) row result
        ≡ run_of None result }
{
    let mut count = 1;
    while row + count < stored.len() && index_at(stored, validity, row + count).is_none() {
        count += 1;
    }
    count
}
