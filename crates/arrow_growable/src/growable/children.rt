//! Children under construction: each grows by the rows that the rows of an array name of it.

ghost use Rattle.std.specs.Prelude.{◌≡◌, ◌+◌, ◌-◌, ◌*◌, ◌^◌, ◌<◌, ◌≤◌, Err, length, map, replicate, All, IfErr, IfOk, IfSome, IsOkUnless, IsTrue, OnOk, option_copied};
ghost use Rattle.std.specs.List.{flat_map};
ghost use Rattle.arrow_types.specs.declared.error.Error.{Error};
ghost use Rattle.arrow_types.specs.Slot.{null_slot};
ghost use Rattle.arrow_memory.specs.Grown.{IsGrowthError};
ghost use Rattle.arrow_memory.specs.Sliced.{sliced};
ghost use Rattle.arrow_flat.specs.Parts.{bits_of_slice};
ghost use Rattle.arrow_arrays.specs.Any.{any_array_rows, any_array_type};
ghost use Rattle.arrow_flat_growable.specs.Grown.{FitsItself, FitsWith, null_rows_of};
ghost use Rattle.arrow_growable.specs.AnyGrowable.{IsFlat, grown_of};
ghost use Rattle.arrow_growable.specs.Child.{AreBoundAs, BindsRows, CannotGrow, GrownBy, IsWell, LiesIn, SameBound, SomeCannotGrow, SomeCannotHoldNulls, bound_rows, emptied_of, grown_by, grown_by_nulls, spread};
ghost use Rattle.arrow_growable.specs.Spans.{AreEven, AreSpans, span_count, span_nulls, span_place};

use crate::growable::Growable;
use crate::growable::any::AnyGrowable;
use crate::growable::fields::extend_flat;
use crate::growable::spans::Spans;
use arrow_arrays::array::AnyArray;
use arrow_memory::bitmap::{Bitmap, Mask, WORD_BITS};
use arrow_types::error::Error;
use std::alloc::Global;

/// The fewest rows of fixed-size lists whose items are appended under a validity of their own, where some may be null.
const SOME: usize = 8;

// Appends to each child what `len` rows of bound array `index` name of it, from row `start` on: null slots for
// those that are null.
#[cycle(extend)]
pub(crate) fn extend_children(
    alloc: Global,
    children: &mut [AnyGrowable],
    rows: &Spans,
    validity: Option<&Bitmap>,
    index: usize,
    start: usize,
    len: usize,
) -> Result<(), Error>
    requires sound { AreSpans rows.now }
    requires part { start + len ≤ span_count rows.now }
    requires covered { IfSome validity (λ bits. start + len ≤ length bits.now) }
    requires bound { All (λ g. BindsRows g index (span_place rows.now (span_count rows.now)))
        (map grown_of children.old) }
    requires well { All IsWell (map grown_of children.old) }
    ensures ok { OnOk result (map grown_of children.new
        ≡ map (grown_by (span_nulls rows.now) (bits_of_slice (option_copied validity.entry) start len)
        (span_place rows.now) index start) (map grown_of children.old)) }
    ensures fits { OnOk result (All FitsItself (map grown_of children.new)) }
    ensures kept { AreBoundAs (map grown_of children.old) (map grown_of children.new) }
    ensures overflow { result ≡ Err Error.Overflow
        → SomeCannotGrow (span_nulls rows.now) (bits_of_slice (option_copied validity.entry) start len)
        (span_place rows.now) index start (map grown_of children.old) }
    ensures others { IfErr result IsGrowthError }
{
    for child in children {
        extend_child(alloc, child, rows, validity, index, start, len)?;
    }
    Ok(())
}

// Appends to a child what `len` rows of bound array `index` name of it, from row `start` on.
#[cycle(extend)]
fn extend_child(
    alloc: Global,
    child: &mut AnyGrowable,
    rows: &Spans,
    validity: Option<&Bitmap>,
    index: usize,
    start: usize,
    len: usize,
) -> Result<(), Error>
    requires sound { AreSpans rows.now }
    requires part { start + len ≤ span_count rows.now }
    requires covered { IfSome validity (λ bits. start + len ≤ length bits.now) }
    requires bound { BindsRows (grown_of child.old) index (span_place rows.now (span_count rows.now)) }
    requires well { IsWell (grown_of child.old) }
    ensures ok { OnOk result (GrownBy (grown_of child.old) (grown_of child.new)
        (spread (span_nulls rows.now) (null_slot (grown_of child.old).arrow_type)
        (bits_of_slice (option_copied validity.entry) start len) (span_place rows.now)
        (bound_rows (grown_of child.old) index) start)) }
    ensures kept { SameBound (grown_of child.old) (grown_of child.new) }
    ensures overflow { result ≡ Err Error.Overflow
        → CannotGrow (grown_of child.old) index
        (LiesIn (bits_of_slice (option_copied validity.entry) start len) (span_place rows.now) start)
        (spread (span_nulls rows.now) (null_slot (grown_of child.old).arrow_type)
        (bits_of_slice (option_copied validity.entry) start len) (span_place rows.now)
        (bound_rows (grown_of child.old) index) start) }
    ensures others { IfErr result IsGrowthError }
{
    match validity {
        None => extend_run(child, rows, index, start, len),
        Some(validity) => extend_nullable(alloc, child, rows, validity, index, start, len),
    }
}

// The same of rows of which some may be null: a call of its own, so that those without nulls need few registers.
#[cycle(extend)]
#[inline(never)]
fn extend_nullable(
    alloc: Global,
    child: &mut AnyGrowable,
    rows: &Spans,
    validity: &Bitmap,
    index: usize,
    start: usize,
    len: usize,
) -> Result<(), Error>
    requires sound { AreSpans rows.now }
    requires part { start + len ≤ span_count rows.now }
    requires covered { start + len ≤ length validity.now }
    requires bound { BindsRows (grown_of child.old) index (span_place rows.now (span_count rows.now)) }
    requires well { IsWell (grown_of child.old) }
    ensures ok { OnOk result (GrownBy (grown_of child.old) (grown_of child.new)
        (spread (span_nulls rows.now) (null_slot (grown_of child.old).arrow_type)
        (sliced validity.now start len) (span_place rows.now)
        (bound_rows (grown_of child.old) index) start)) }
    ensures kept { SameBound (grown_of child.old) (grown_of child.new) }
    ensures overflow { result ≡ Err Error.Overflow
        → CannotGrow (grown_of child.old) index
        (LiesIn (sliced validity.now start len) (span_place rows.now) start)
        (spread (span_nulls rows.now) (null_slot (grown_of child.old).arrow_type)
        (sliced validity.now start len) (span_place rows.now)
        (bound_rows (grown_of child.old) index) start) }
    ensures others { IfErr result IsGrowthError }
{
    if rows.have_none_beneath(validity, start, len) {
        return extend_run(child, rows, index, start, len);
    }
    if go_under(child, rows, len) {
        return extend_under(alloc, child, rows, validity, index, start, len);
    }
    extend_runs(child, rows, validity, index, start, len)
}

// Whether `len` rows, of which some may be null, name rows of a child that are appended under a validity of their own: many
// fixed-size lists of values that have no children.
fn go_under(child: &AnyGrowable, rows: &Spans, len: usize) -> bool
    ensures flat { IsTrue result → IsFlat child.now }
    ensures even { IsTrue result → AreEven rows.now }
{
    len >= SOME && child.is_flat() && rows.are_even()
}

// Appends to a child without children what `len` rows from row `start` on name, where each row has as many rows of it: all of
// them under the validity, each bit for as many.
fn extend_under(
    alloc: Global,
    child: &mut AnyGrowable,
    rows: &Spans,
    validity: &Bitmap,
    index: usize,
    start: usize,
    len: usize,
) -> Result<(), Error>
    requires flat { IsFlat child.old }
    requires even { AreEven rows.now }
    requires sound { AreSpans rows.now }
    requires part { start + len ≤ span_count rows.now }
    requires covered { start + len ≤ length validity.now }
    requires bound { BindsRows (grown_of child.old) index (span_place rows.now (span_count rows.now)) }
    requires well { IsWell (grown_of child.old) }
    ensures ok { OnOk result (GrownBy (grown_of child.old) (grown_of child.new)
        (spread (span_nulls rows.now) (null_slot (grown_of child.old).arrow_type)
        (sliced validity.now start len) (span_place rows.now)
        (bound_rows (grown_of child.old) index) start)) }
    ensures kept { SameBound (grown_of child.old) (grown_of child.new) }
    ensures overflow { result ≡ Err Error.Overflow
        → CannotGrow (grown_of child.old) index
        (LiesIn (sliced validity.now start len) (span_place rows.now) start)
        (spread (span_nulls rows.now) (null_slot (grown_of child.old).arrow_type)
        (sliced validity.now start len) (span_place rows.now)
        (bound_rows (grown_of child.old) index) start) }
    ensures others { IfErr result IsGrowthError }
{
    // The rows of the child are as many as a `usize` counts.
    let (first, _end) = rows.range(start, len);
    let own = mask_of_items(alloc, validity, start, len, rows.size())?;
    extend_flat(child, index, first, &own)
}

// The bits of `len` rows from row `start` on, each for so many items.
fn mask_of_items(
    alloc: Global,
    validity: &Bitmap,
    start: usize,
    len: usize,
    size: usize,
) -> Result<Mask, Error>
    requires within { start + len ≤ length validity.now }
    requires counted { len * size < 2 ^ 64 }
    ensures ok { IfOk result (λ own. own ≡ flat_map (replicate size) (sliced validity.now start len)) }
    ensures err { IsOkUnless result Error.OutOfMemory }
{
    if len * size <= WORD_BITS {
        return Ok(Mask::repeated(validity, start, len, size));
    }
    let bits = validity.repeated(alloc, start, len, size)?;
    Ok(Mask::from_bitmap(bits))
}

// Appends what `len` rows from row `start` on name, a run of null rows and one of valid rows at a time.
#[cycle(extend)]
fn extend_runs(
    child: &mut AnyGrowable,
    rows: &Spans,
    validity: &Bitmap,
    index: usize,
    start: usize,
    len: usize,
) -> Result<(), Error>
    requires sound { AreSpans rows.now }
    requires part { start + len ≤ span_count rows.now }
    requires covered { start + len ≤ length validity.now }
    requires bound { BindsRows (grown_of child.old) index (span_place rows.now (span_count rows.now)) }
    requires well { IsWell (grown_of child.old) }
    ensures ok { OnOk result (GrownBy (grown_of child.old) (grown_of child.new)
        (spread (span_nulls rows.now) (null_slot (grown_of child.old).arrow_type)
        (sliced validity.now start len) (span_place rows.now)
        (bound_rows (grown_of child.old) index) start)) }
    ensures kept { SameBound (grown_of child.old) (grown_of child.new) }
    ensures overflow { result ≡ Err Error.Overflow
        → CannotGrow (grown_of child.old) index
        (LiesIn (sliced validity.now start len) (span_place rows.now) start)
        (spread (span_nulls rows.now) (null_slot (grown_of child.old).arrow_type)
        (sliced validity.now start len) (span_place rows.now)
        (bound_rows (grown_of child.old) index) start) }
    ensures others { IfErr result IsGrowthError }
{
    prove!(start <= validity.len());
    let mut left = validity.runs(start, len);
    let end = start + len;
    let mut row = start;
    while row < end {
        let (nulls, count) = left.next_set();
        extend_nulls(child, rows.nulls_of(nulls))?;
        extend_run(child, rows, index, row + nulls, count)?;
        row += nulls + count;
    }
    Ok(())
}

// Appends what `len` rows from row `start` on name, none of which is null.
#[cycle(extend)]
fn extend_run(
    child: &mut AnyGrowable,
    rows: &Spans,
    index: usize,
    start: usize,
    len: usize,
) -> Result<(), Error>
    requires sound { AreSpans rows.now }
    requires part { start + len ≤ span_count rows.now }
    requires bound { BindsRows (grown_of child.old) index (span_place rows.now (span_count rows.now)) }
    requires well { IsWell (grown_of child.old) }
    ensures ok { OnOk result (GrownBy (grown_of child.old) (grown_of child.new)
        (sliced (bound_rows (grown_of child.old) index) (span_place rows.now start)
        (span_place rows.now (start + len) - span_place rows.now start))) }
    ensures kept { SameBound (grown_of child.old) (grown_of child.new) }
    ensures overflow { result ≡ Err Error.Overflow
        → CannotGrow (grown_of child.old) index
        (λ j. (span_place rows.now start ≤ j) × (j < span_place rows.now (start + len)))
        (sliced (bound_rows (grown_of child.old) index) (span_place rows.now start)
        (span_place rows.now (start + len) - span_place rows.now start)) }
    ensures others { IfErr result IsGrowthError }
{
    let (first, end) = rows.range(start, len);
    child.extend(index, first, end - first)
}

// Appends so many null slots to each child.
#[cycle(extend_validity)]
pub(crate) fn extend_all_nulls(children: &mut [AnyGrowable], count: usize) -> Result<(), Error>
    requires well { All IsWell (map grown_of children.old) }
    ensures ok { OnOk result (map grown_of children.new
        ≡ map (grown_by_nulls count) (map grown_of children.old)) }
    ensures fits { OnOk result (All FitsItself (map grown_of children.new)) }
    ensures kept { AreBoundAs (map grown_of children.old) (map grown_of children.new) }
    ensures overflow { result ≡ Err Error.Overflow → SomeCannotHoldNulls count (map grown_of children.old) }
    ensures others { IfErr result IsGrowthError }
{
    for child in children {
        extend_nulls(child, count)?;
    }
    Ok(())
}

// Appends so many null slots to a child.
#[cycle(extend_validity)]
pub(crate) fn extend_nulls(child: &mut AnyGrowable, count: usize) -> Result<(), Error>
    requires well { IsWell (grown_of child.old) }
    ensures ok { OnOk result (GrownBy (grown_of child.old) (grown_of child.new)
        (null_rows_of (grown_of child.old) count)) }
    ensures kept { SameBound (grown_of child.old) (grown_of child.new) }
    ensures overflow { result ≡ Err Error.Overflow
        → FitsWith (grown_of child.old) (null_rows_of (grown_of child.old) count) → ⊥ }
    ensures others { IfErr result IsGrowthError }
{
    if count == 0 {
        return Ok(());
    }
    child.extend_validity(count)
}

// An array of all rows of each child, which is left without rows.
#[cycle(as_box)]
pub(crate) fn box_children(
    alloc: Global,
    children: &mut [AnyGrowable],
) -> Result<Vec<AnyArray>, Error>
    requires well { All IsWell (map grown_of children.old) }
    ensures types { IfOk result (λ arrays. map any_array_type arrays.items
        ≡ map (λ g. g.arrow_type) (map grown_of children.old)) }
    ensures rows { IfOk result (λ arrays. map any_array_rows arrays.items
        ≡ map (λ g. g.rows) (map grown_of children.old)) }
    ensures left { OnOk result (map grown_of children.new ≡ map emptied_of (map grown_of children.old)) }
    ensures kept { AreBoundAs (map grown_of children.old) (map grown_of children.new) }
    ensures err { IsOkUnless result Error.OutOfMemory }
{
    let mut arrays: Vec<AnyArray> = Vec::with_capacity(alloc, children.len())?;
    for child in children {
        arrays.push(child.as_box()?)?;
    }
    Ok(arrays)
}
