//! Texts and bytes that are kept: where the rows end and lie first, and then the bytes, for which there is room.

ghost use Rattle.std.specs.Prelude.{◌≡◌, ◌+◌, ◌-◌, ◌<◌, ◌≤◌, ◌∷◌, ◌++◌, List, ℕ, count_by, length, map, slice_index, IfOk, OnOk, IsOkUnless};
ghost use Rattle.std.specs.List.{All, range_with_len};
ghost use Rattle.arrow_types.specs.declared.error.Error.{Error};
ghost use Rattle.arrow_types.specs.Fits.{Fits};
ghost use Rattle.arrow_types.specs.Rows.{select};
ghost use Rattle.arrow_memory.specs.Offsets.{last_of};
ghost use Rattle.arrow_flat.specs.ByteRows.{byte_slots, row_bytes};
ghost use Rattle.arrow_flat.specs.Parts.{rows_by};
ghost use Rattle.arrow_flat.specs.Pieces.{pieces};
ghost use Rattle.arrow_flat_growable.specs.GrownRows.{valid_values};
ghost use Rattle.arrow_select.specs.Laws.{places_from};
ghost use Rattle.arrow_select.specs.Selected.{at_set};
ghost use Rattle.arrow_select.specs.Selection.{mask_in};
ghost use Rattle.arrow_take.specs.Spans.{spanned, IsSpanWithin};
ghost use Rattle.arrow_memory.specs.Ends.{ends_from};
ghost use Rattle.arrow_flat_growable.specs.Ends.{row_length};

use crate::filter::prepared::Filter;
use crate::filter::selection::{Selection, kept_validity};
use arrow_flat::array::{ByteKind, ByteRows, FlatArray};
use arrow_flat_growable::growable::GrowableKind;
use arrow_memory::bitmap::Bitmap;
use arrow_memory::buffer::Buffer;
use arrow_memory::offset::{Offsets, OffsetsBuffer};
use arrow_take::spans::copy_spans;
use arrow_types::error::Error;
use arrow_types::types::Offset;
use std::alloc::Global;

// The rows that are kept, in an array of the same type. What lies beneath a null comes with it, so no row is
// looked at, and all have at most the bytes of the array, which fit. Where all rows are kept the array is shared, and
// nothing is copied.
pub(super) fn filter_bytes<O: Offset, K: GrowableKind>(
    alloc: Global,
    array: &FlatArray<ByteRows<O, K>>,
    selection: Selection<'_>,
    count: usize,
) -> Result<FlatArray<ByteRows<O, K>>, Error>
    requires lengths { length (mask_in selection) ≡ length (rows_by (byte_slots K.slot) array.now) }
    requires count { count ≡ count_by (λ is_kept. is_kept) (mask_in selection) }
    ensures array_type { IfOk result (λ kept. kept.arrow_type ≡ array.now.arrow_type) }
    ensures rows { IfOk result (λ kept. rows_by (byte_slots K.slot) kept
        ≡ select (mask_in selection.entry) (rows_by (byte_slots K.slot) array.now)) }
    ensures fits { IfOk result (λ kept. Fits kept.arrow_type (rows_by (byte_slots K.slot) kept)) }
    ensures err { IsOkUnless result Error.OutOfMemory }
{
    let (data_type, validity) = (array.data_type(), array.validity());
    // The rows lie in the values as the offsets say, which are at most the greatest.
    let (rows, _) = (array.offsets(), array.values());
    let _ = rows.range(0, rows.len() - 1);
    if count == array.len() {
        return Ok(array.clone()?);
    }
    let validity = kept_validity(alloc, validity, selection, count)?;
    let (ends, bytes) = kept_parts(alloc, array, selection, count)?;
    let bytes = Buffer::from_vec(alloc, bytes)?;
    Ok(FlatArray::<ByteRows<O, K>>::new(data_type.clone()?, ends, bytes, validity))
}

// Where the rows end that are kept, of which there are so many, and their bytes.
fn kept_parts<O: Offset, K: ByteKind>(
    alloc: Global,
    array: &FlatArray<ByteRows<O, K>>,
    selection: Selection<'_>,
    count: usize,
) -> Result<(OffsetsBuffer<O>, Vec<u8>), Error>
    requires lengths { length (mask_in selection) ≡ length array.now.values.offsets - 1 }
    ensures rows { IfOk result (λ parts. pieces parts.0 parts.1.items
        ≡ at_set (mask_in selection.entry) (row_bytes array.now.values)) }
    ensures within { IfOk result (λ parts. last_of parts.0 ≤ length parts.1.items) }
    ensures err { IsOkUnless result Error.OutOfMemory }
{
    let (rows, values) = (array.offsets(), array.values().as_slice());
    prove!(0 < rows.len());
    let (spans, ends) = spans_of(alloc, rows, selection, count)?;
    let total = ends.last().to_usize();
    let bytes = copy_spans(alloc, values, &spans, total)?;
    Ok((ends.into_buffer()?, bytes))
}

// Where the bytes lie of the rows that are kept, of which there are so many, a span for each run of them, and where these
// rows end.
fn spans_of<O: Offset>(
    alloc: Global,
    rows: &OffsetsBuffer<O>,
    selection: Selection<'_>,
    count: usize,
) -> Result<(Vec<(usize, usize)>, Offsets<O>), Error>
    requires lengths { length rows.now ≡ length (mask_in selection) + 1 }
    ensures within { IfOk result (λ kept. All (IsSpanWithin (last_of rows.now)) kept.0.items) }
    ensures bytes { IfOk result (λ kept. (bytes : List ℕ) → last_of rows.now ≤ length bytes
        → spanned bytes kept.0.items ≡ valid_values (mask_in selection.entry) rows.now bytes 0) }
    ensures ends { IfOk result (λ kept. kept.1
        ≡ 0 ∷ ends_from 0 (map (row_length rows.now) (places_from 0 (mask_in selection.entry)))) }
    ensures err { IsOkUnless result Error.OutOfMemory }
{
    match selection {
        Selection::Mask(mask) => kept_spans(alloc, rows, mask, count),
        Selection::Ranges(filter) => ranged_spans(alloc, rows, filter),
    }
}

// Where the bytes lie of the rows at which the mask is set, of which there are so many, a span for each run of them, and where
// these rows end: in one walk over the mask.
fn kept_spans<O: Offset>(
    alloc: Global,
    rows: &OffsetsBuffer<O>,
    mask: &Bitmap,
    count: usize,
) -> Result<(Vec<(usize, usize)>, Offsets<O>), Error>
    requires lengths { length rows.now ≡ length mask.now + 1 }
    ensures within { IfOk result (λ kept. All (IsSpanWithin (last_of rows.now)) kept.0.items) }
    ensures bytes { IfOk result (λ kept. (bytes : List ℕ) → last_of rows.now ≤ length bytes
        → spanned bytes kept.0.items ≡ valid_values mask.now rows.now bytes 0) }
    ensures ends { IfOk result (λ kept. kept.1
        ≡ 0 ∷ ends_from 0 (map (row_length rows.now) (places_from 0 mask.now))) }
    ensures err { IsOkUnless result Error.OutOfMemory }
{
    let len = mask.len();
    // All rows end at the greatest offset at most, and so do those that are kept.
    let _ = rows.range(0, len);
    let mut ends = Offsets::with_capacity(alloc, count)?;
    // No more runs than rows that are kept, and one more at most than rows that are not.
    let runs = count.min(len.saturating_sub(count)) + 1;
    let mut spans = Vec::with_capacity(alloc, runs)?;
    let mut left = mask.runs(0, len);
    let mut row = 0;
    while row < len {
        let (unset, count) = left.next_set();
        row += unset;
        spans.push(rows.range(row, count))?;
        append_ends(&mut ends, rows, row, count)?;
        row += count;
    }
    Ok((spans, ends))
}

// The same of a prepared filter, by its ranges.
fn ranged_spans<O: Offset>(
    alloc: Global,
    rows: &OffsetsBuffer<O>,
    filter: &Filter,
) -> Result<(Vec<(usize, usize)>, Offsets<O>), Error>
    requires lengths { length rows.now ≡ length filter.now + 1 }
    ensures within { IfOk result (λ kept. All (IsSpanWithin (last_of rows.now)) kept.0.items) }
    ensures bytes { IfOk result (λ kept. (bytes : List ℕ) → last_of rows.now ≤ length bytes
        → spanned bytes kept.0.items ≡ valid_values filter.now rows.now bytes 0) }
    ensures ends { IfOk result (λ kept. kept.1
        ≡ 0 ∷ ends_from 0 (map (row_length rows.now) (places_from 0 filter.now))) }
    ensures err { IsOkUnless result Error.OutOfMemory }
{
    // All rows end at the greatest offset at most, and so do those that are kept.
    let _ = rows.range(0, filter.mask_len());
    let ranges = filter.ranges();
    let mut ends = Offsets::with_capacity(alloc, filter.count())?;
    let mut spans = Vec::with_capacity(alloc, ranges.len())?;
    for &(start, len) in ranges {
        spans.push(rows.range(start, len))?;
        append_ends(&mut ends, rows, start, len)?;
    }
    Ok((spans, ends))
}

// Appends where `len` rows from row `start` on end. These offsets fit.
pub(super) fn append_ends<O: Offset>(
    ends: &mut Offsets<O>,
    rows: &OffsetsBuffer<O>,
    start: usize,
    len: usize,
) -> Result<(), Error>
    requires part { start + len < length rows.now }
    requires fits { last_of ends.old + (slice_index rows.now (start + len) - slice_index rows.now start)
        ≤ O.greatest }
    ensures ok { OnOk result (ends.new
        ≡ ends.old ++ ends_from (last_of ends.old) (map (row_length rows.now) (range_with_len start len))) }
    ensures err { IsOkUnless result Error.OutOfMemory }
{
    prove!(start < rows.len());
    ends.try_extend_from_slice(rows, start, len)
}
