//! Lists of two arrays, as a predicate chooses: offsets and items a run of rows at a time, by a growable over both children.

ghost use Rattle.std.specs.Prelude.{◌≡◌, ◌+◌, ◌-◌, ◌<◌, ◌≤◌, ◌∷◌, [], false, length, map, slice_index, IfErr, IfOk, IsOkUnless, OnOk};
ghost use Rattle.arrow_types.specs.declared.error.Error.{Error};
ghost use Rattle.arrow_types.specs.Fits.{Fits};
ghost use Rattle.arrow_types.specs.Physical.{physical_type_of};
ghost use Rattle.arrow_types.specs.Rows.{chosen};
ghost use Rattle.arrow_memory.specs.Grown.{IsGrowthError};
ghost use Rattle.arrow_memory.specs.Offsets.{last_of, with_rows};
ghost use Rattle.arrow_flat.specs.Parts.{FitsRows, boolean_rows};
ghost use Rattle.arrow_flat.specs.Pieces.{pieces};
ghost use Rattle.arrow_arrays.specs.AnyOffsetsBuffer.{lists_of, offsets_of};
ghost use Rattle.arrow_arrays.specs.Any.{any_array_rows, any_array_type, layout_of};
ghost use Rattle.arrow_arrays.specs.ListParts.{list_rows};
ghost use Rattle.arrow_arrays.specs.TypeParts.{item_type};
ghost use Rattle.arrow_flat_growable.specs.Grown.{FitsItself, NamesRows, appended, bound_to, named_rows};
ghost use Rattle.arrow_growable.specs.AnyGrowable.{grown_of};
ghost use Rattle.arrow_growable.specs.Growing.{HasAppended};
ghost use Rattle.arrow_growable.specs.Lists.{greatest_in};
ghost use Rattle.arrow_choice.specs.Choice.{AreOneLength, IsLent, MarksChosen, all_chosen, chosen_lists};
ghost use Rattle.arrow_memory.specs.Ends.{ends_from};
ghost use Rattle.arrow_flat_growable.specs.Ends.{concatenated};

use crate::if_then_else::bytes::room;
use crate::if_then_else::runs::Runs;
use crate::if_then_else::words::chosen_validity;
use arrow_arrays::array::{AnyArray, AnyOffsetsBuffer, ListArray};
use arrow_flat::array::BooleanArray;
use arrow_growable::growable::{AnyGrowable, Growable, make_growable};
use arrow_memory::bitmap::Bitmap;
use arrow_memory::offset::{Offsets, OffsetsBuffer};
use arrow_types::error::Error;
use arrow_types::types::{Index, Offset};
use std::alloc::Global;

/// Where rows lie, and the items that they lie in.
type Lent<'a, O> = (&'a OffsetsBuffer<O>, &'a AnyArray);

// The rows that the predicate chooses, in an array of the left one's type. `Overflow` says no more here than that it came.
pub(super) fn chosen_lists(
    alloc: Global,
    predicate: &BooleanArray,
    lhs: &ListArray,
    rhs: &ListArray,
) -> Result<ListArray, Error>
    requires one_type { rhs.now.arrow_type ≡ lhs.now.arrow_type }
    requires lengths { AreOneLength (boolean_rows predicate.now) (list_rows lhs.now) (list_rows rhs.now) }
    ensures array_type { IfOk result (λ all. all.arrow_type ≡ lhs.now.arrow_type) }
    ensures rows { IfOk result (λ all. list_rows all
        ≡ chosen (boolean_rows predicate.now) (list_rows lhs.now) (list_rows rhs.now) lhs.now.arrow_type) }
    ensures fits { IfOk result (λ all. Fits all.arrow_type (list_rows all)) }
    ensures others { IfErr result IsGrowthError }
{
    // Each array has as many rows as it has values.
    prove!(lhs.len() == predicate.len());
    prove!(rhs.len() == predicate.len());
    let validity = chosen_validity(alloc, predicate, lhs.validity(), rhs.validity())?;
    let among = predicate.clone()?.with_validity(validity.clone()?);
    let (left, right) = (lhs.values(), rhs.values());
    match (lhs.offsets(), rhs.offsets()) {
        (AnyOffsetsBuffer::Small(ends), AnyOffsetsBuffer::Small(others)) => {
            let (offsets, items) = chosen_items(alloc, &among, (ends, left), (others, right))?;
            let offsets = AnyOffsetsBuffer::Small(offsets);
            list_of(alloc, predicate, lhs, rhs, offsets, items, validity)
        }
        (AnyOffsetsBuffer::Large(ends), AnyOffsetsBuffer::Large(others)) => {
            let (offsets, items) = chosen_items(alloc, &among, (ends, left), (others, right))?;
            let offsets = AnyOffsetsBuffer::Large(offsets);
            list_of(alloc, predicate, lhs, rhs, offsets, items, validity)
        }
        _ => unreachable!(),
    }
}

// An array of the rows that the predicate chooses, of where they end, their items and their validity.
fn list_of(
    alloc: Global,
    predicate: &BooleanArray,
    lhs: &ListArray,
    rhs: &ListArray,
    offsets: AnyOffsetsBuffer,
    items: AnyArray,
    validity: Option<Bitmap>,
) -> Result<ListArray, Error>
    requires lengths { AreOneLength (boolean_rows predicate.now) (list_rows lhs.now) (list_rows rhs.now) }
    requires marks { MarksChosen predicate.now lhs.now.validity rhs.now.validity validity }
    requires width { physical_type_of lhs.now.arrow_type ≡ lists_of offsets }
    requires ends { offsets_of offsets ≡ 0 ∷ ends_from 0 (map length
        (chosen_lists predicate.now lhs.now rhs.now validity)) }
    requires few { last_of (offsets_of offsets) ≤ greatest_in (lists_of offsets) }
    requires items { any_array_rows items
        ≡ concatenated (chosen_lists predicate.now lhs.now rhs.now validity) }
    requires child { any_array_type items ≡ item_type lhs.now.arrow_type }
    requires fits { Fits (any_array_type items) (any_array_rows items) }
    ensures array_type { IfOk result (λ all. all.arrow_type ≡ lhs.now.arrow_type) }
    ensures rows { IfOk result (λ all. list_rows all
        ≡ chosen (boolean_rows predicate.now) (list_rows lhs.now) (list_rows rhs.now) lhs.now.arrow_type) }
    ensures fits { IfOk result (λ all. Fits all.arrow_type (list_rows all)) }
    ensures err { IsOkUnless result Error.OutOfMemory }
{
    // There are as many rows as a `usize` counts, and a bit for each in a validity.
    let _ = predicate.len();
    let _ = predicate.validity();
    let _ = lhs.validity();
    let _ = rhs.validity();
    let data_type = lhs.data_type().clone()?;
    Ok(ListArray::new(data_type, offsets, Box::new(alloc, items)?, validity))
}

// Where the rows end that a predicate chooses, and their items: none of a row that is null.
fn chosen_items<O: Offset>(
    alloc: Global,
    predicate: &BooleanArray,
    left: Lent<'_, O>,
    right: Lent<'_, O>,
) -> Result<(OffsetsBuffer<O>, AnyArray), Error>
    requires one_type { any_array_type right.1.now ≡ any_array_type left.1.now }
    requires left { IsLent left.0.now (length (any_array_rows left.1.now)) (length predicate.now.values) }
    requires right { IsLent right.0.now (length (any_array_rows right.1.now)) (length predicate.now.values) }
    requires fits { FitsRows predicate.now.validity (length predicate.now.values) }
    ensures offsets { IfOk result (λ parts. parts.0 ≡ 0 ∷ ends_from 0
        (map length (all_chosen predicate.now.validity predicate.now.values
        (pieces left.entry.0.now (any_array_rows left.entry.1.now))
        (pieces right.entry.0.now (any_array_rows right.entry.1.now))))) }
    ensures items { IfOk result (λ parts. any_array_rows parts.1
        ≡ concatenated (all_chosen predicate.now.validity predicate.now.values
        (pieces left.entry.0.now (any_array_rows left.entry.1.now))
        (pieces right.entry.0.now (any_array_rows right.entry.1.now)))) }
    ensures item_type { IfOk result (λ parts. any_array_type parts.1 ≡ any_array_type left.entry.1.now) }
    ensures fits { IfOk result (λ parts. Fits (any_array_type parts.1) (any_array_rows parts.1)) }
    ensures few { IfOk result (λ parts. last_of parts.0 ≤ O.greatest) }
    ensures others { IfErr result IsGrowthError }
{
    let mut offsets = Offsets::with_capacity(alloc, predicate.len())?;
    let capacity = room(left.0).max(room(right.0));
    let mut items = make_growable(alloc, &[left.1, right.1], false, capacity)?;
    append_by_kind(&mut items, &mut offsets, predicate, left, right)?;
    // The last offset is at most the greatest of its type.
    prove!(offsets.last().to_usize() <= usize::MAX);
    Ok((offsets.into_buffer()?, items.as_box()?))
}

// Appends the rows that the predicate chooses, by the growable of the items' kind, which is found once.
fn append_by_kind<O: Offset>(
    items: &mut AnyGrowable,
    offsets: &mut Offsets<O>,
    predicate: &BooleanArray,
    left: Lent<'_, O>,
    right: Lent<'_, O>,
) -> Result<(), Error>
    requires bound { grown_of items.old ≡ bound_to (layout_of left.1.now ∷ layout_of right.1.now ∷ []) }
    requires none { offsets.old ≡ 0 ∷ [] }
    requires left { IsLent left.0.now (length (any_array_rows left.1.now)) (length predicate.now.values) }
    requires right { IsLent right.0.now (length (any_array_rows right.1.now)) (length predicate.now.values) }
    requires fits { FitsRows predicate.now.validity (length predicate.now.values) }
    ensures items { OnOk result (HasAppended (layout_of left.entry.1.now ∷ layout_of right.entry.1.now ∷ [])
        (grown_of items.new) (concatenated (all_chosen predicate.now.validity predicate.now.values
        (pieces left.entry.0.now (any_array_rows left.entry.1.now))
        (pieces right.entry.0.now (any_array_rows right.entry.1.now))))) }
    ensures offsets { OnOk result (offsets.new ≡ 0 ∷ ends_from 0
        (map length (all_chosen predicate.now.validity predicate.now.values
        (pieces left.entry.0.now (any_array_rows left.entry.1.now))
        (pieces right.entry.0.now (any_array_rows right.entry.1.now))))) }
    ensures others { IfErr result IsGrowthError }
{
    match items {
        AnyGrowable::Null(nulls) => append_lists(nulls, offsets, predicate, left, right),
        AnyGrowable::Boolean(values) => append_lists(values, offsets, predicate, left, right),
        AnyGrowable::Primitive(values) => append_lists(values, offsets, predicate, left, right),
        AnyGrowable::Utf8(texts) => append_lists(texts, offsets, predicate, left, right),
        AnyGrowable::LargeUtf8(texts) => append_lists(texts, offsets, predicate, left, right),
        AnyGrowable::Binary(bytes) => append_lists(bytes, offsets, predicate, left, right),
        AnyGrowable::LargeBinary(bytes) => append_lists(bytes, offsets, predicate, left, right),
        AnyGrowable::FixedSizeBinary(bytes) => append_lists(bytes, offsets, predicate, left, right),
        AnyGrowable::Nested(nested) => append_lists(nested, offsets, predicate, left, right),
        AnyGrowable::Dictionary(keys) => append_lists(keys, offsets, predicate, left, right),
        AnyGrowable::Union(variants) => append_lists(variants, offsets, predicate, left, right),
    }
}

// Appends the rows that the predicate chooses, a run of valid rows of one array or of null ones at a time.
fn append_lists<'a, G: Growable<'a>, O: Offset>(
    items: &mut G,
    offsets: &mut Offsets<O>,
    predicate: &BooleanArray,
    left: Lent<'_, O>,
    right: Lent<'_, O>,
) -> Result<(), Error>
    requires bound { G.state items.old ≡ bound_to (layout_of left.1.now ∷ layout_of right.1.now ∷ []) }
    requires none { offsets.old ≡ 0 ∷ [] }
    requires left { IsLent left.0.now (length (any_array_rows left.1.now)) (length predicate.now.values) }
    requires right { IsLent right.0.now (length (any_array_rows right.1.now)) (length predicate.now.values) }
    requires fits { FitsRows predicate.now.validity (length predicate.now.values) }
    ensures items { OnOk result (HasAppended (layout_of left.entry.1.now ∷ layout_of right.entry.1.now ∷ [])
        (G.state items.new) (concatenated (all_chosen predicate.now.validity predicate.now.values
        (pieces left.entry.0.now (any_array_rows left.entry.1.now))
        (pieces right.entry.0.now (any_array_rows right.entry.1.now))))) }
    ensures offsets { OnOk result (offsets.new ≡ 0 ∷ ends_from 0
        (map length (all_chosen predicate.now.validity predicate.now.values
        (pieces left.entry.0.now (any_array_rows left.entry.1.now))
        (pieces right.entry.0.now (any_array_rows right.entry.1.now))))) }
    ensures others { IfErr result IsGrowthError }
{
    prove!(0 < left.0.len());
    prove!(0 < right.0.len());
    let mut runs = Runs::new(predicate);
    while let Some((truth, start, count)) = runs.next() {
        match truth {
            Some(true) => append_run(items, offsets, 0, left.0, start, count)?,
            Some(false) => append_run(items, offsets, 1, right.0, start, count)?,
            None => offsets.extend_constant(count)?,
        }
    }
    Ok(())
}

// Appends `count` rows of a bound array from row `start` on: where they end, and their items.
#[inline(always)]
fn append_run<'a, G: Growable<'a>, O: Offset>(
    items: &mut G,
    offsets: &mut Offsets<O>,
    index: usize,
    rows: &OffsetsBuffer<O>,
    start: usize,
    count: usize,
) -> Result<(), Error>
    requires part { start + count < length rows.now }
    requires named { NamesRows (G.state items.old) index (slice_index rows.now start)
        (slice_index rows.now (start + count) - slice_index rows.now start) }
    requires well { (G.state items.old).failed ≡ false }
    ensures offsets { OnOk result (offsets.new ≡ with_rows offsets.old rows.now start count) }
    ensures items { OnOk result (G.state items.new ≡ appended (G.state items.old)
        (named_rows (G.state items.old) index (slice_index rows.now start)
        (slice_index rows.now (start + count) - slice_index rows.now start))) }
    ensures fits { OnOk result (FitsItself (G.state items.new)) }
    ensures others { IfErr result IsGrowthError }
{
    let (first, end) = rows.range(start, count);
    offsets.try_extend_from_slice(rows, start, count)?;
    items.extend(index, first, end - first)
}
