//! Lists that are kept: where their rows end first, and which items are theirs, and then the items.

ghost use Rattle.std.specs.Prelude.{◌≡◌, ◌+◌, ◌<◌, ◌≤◌, ◌^◌, ◌∷◌, ◌++◌, count_by, length, map, replicate, IfOk, IfSome, IsOkUnless, OnOk};
ghost use Rattle.arrow_types.specs.declared.error.Error.{Error};
ghost use Rattle.arrow_types.specs.Physical.{physical_type_of};
ghost use Rattle.arrow_types.specs.Rows.{select};
ghost use Rattle.arrow_memory.specs.Offsets.{last_of};
ghost use Rattle.arrow_arrays.specs.AnyOffsetsBuffer.{lists_of, offsets_of};
ghost use Rattle.arrow_arrays.specs.Layout.{rows};
ghost use Rattle.arrow_arrays.specs.ListParts.{list_rows};
ghost use Rattle.arrow_memory.specs.Ends.{ends_from};
ghost use Rattle.arrow_flat_growable.specs.Ends.{row_length};
ghost use Rattle.arrow_growable.specs.Lists.{greatest_in};
ghost use Rattle.arrow_select.specs.Laws.{places_from};
ghost use Rattle.arrow_select.specs.Selected.{item_mask};
ghost use Rattle.arrow_select.specs.Selection.{mask_in};
ghost use Rattle.arrow_take.specs.Answers.{Gives};

use crate::filter::any::count_set;
use crate::filter::bytes::append_ends;
use crate::filter::columns::{FEW, is_flat, kept_under};
use crate::filter::selection::{Selection, kept_validity};
use arrow_arrays::array::{AnyOffsetsBuffer, ListArray};
use arrow_memory::bitmap::{Bitmap, MutableBitmap};
use arrow_memory::offset::{Offsets, OffsetsBuffer};
use arrow_types::error::Error;
use arrow_types::types::{Index, Offset};
use std::alloc::Global;

// The rows that are kept, in an array of the same type: none where the items have children, where the rows are given as ranges,
// or where few are kept. What lies beneath a null comes with it, so no row is looked at, and all have at most the array's items.
pub(super) fn filter_list(
    alloc: Global,
    array: &ListArray,
    selection: Selection<'_>,
    count: usize,
) -> Result<Option<ListArray>, Error>
    requires lengths { length (mask_in selection) ≡ length (list_rows array.now) }
    requires count { count ≡ count_by (λ is_kept. is_kept) (mask_in selection) }
    ensures ok { IfOk result (λ made. IfSome made (λ kept. Gives (λ a. a.arrow_type) list_rows kept
        array.now.arrow_type (select (mask_in selection.entry) (list_rows array.now)))) }
    ensures err { IsOkUnless result Error.OutOfMemory }
{
    let Selection::Mask(mask) = selection else {
        return Ok(None);
    };
    let items = array.values();
    if !is_flat(items) || count < mask.len() / FEW {
        return Ok(None);
    }
    // The rows are those that the offsets name.
    let _ = array.len();
    match array.offsets() {
        AnyOffsetsBuffer::Small(rows) => {
            let (ends, own) = kept_items(alloc, rows, mask, count, items.len())?;
            list_of(
                alloc,
                array,
                mask,
                count,
                AnyOffsetsBuffer::Small(ends),
                &own,
            )
        }
        AnyOffsetsBuffer::Large(rows) => {
            let (ends, own) = kept_items(alloc, rows, mask, count, items.len())?;
            list_of(
                alloc,
                array,
                mask,
                count,
                AnyOffsetsBuffer::Large(ends),
                &own,
            )
        }
    }
}

// An array of the rows that a mask keeps, of where they end and of which items are theirs: none where the items have children.
fn list_of(
    alloc: Global,
    array: &ListArray,
    mask: &Bitmap,
    count: usize,
    ends: AnyOffsetsBuffer,
    own: &Bitmap,
) -> Result<Option<ListArray>, Error>
    requires lengths { length array.now.offsets ≡ length mask.now + 1 }
    requires count { count ≡ count_by (λ is_kept. is_kept) mask.now }
    requires width { physical_type_of array.now.arrow_type ≡ lists_of ends }
    requires ends { offsets_of ends
        ≡ 0 ∷ ends_from 0 (map (row_length array.now.offsets) (places_from 0 mask.now)) }
    requires few { last_of (offsets_of ends) ≤ greatest_in (lists_of ends) }
    requires own { own.now ≡ item_mask mask.now array.now.offsets (length (rows array.now.child)) }
    ensures ok { IfOk result (λ made. IfSome made (λ kept. Gives (λ a. a.arrow_type) list_rows kept
        array.now.arrow_type (select mask.now (list_rows array.now)))) }
    ensures err { IsOkUnless result Error.OutOfMemory }
{
    // There are as many rows as a `usize` counts, and the offsets say where they lie.
    let (_, _, _) = (mask.len(), array.len(), array.offsets());
    let items = array.values();
    let Some(items) = kept_under(alloc, items, None, Selection::Mask(own), count_set(own))? else {
        return Ok(None);
    };
    let validity = kept_validity(alloc, array.validity(), Selection::Mask(mask), count)?;
    let data_type = array.data_type().clone()?;
    Ok(Some(ListArray::new(data_type, ends, Box::new(alloc, items)?, validity)))
}

// Where the rows end at which the mask is set, of which there are so many, and a bit for each of `items` items, set for theirs.
fn kept_items<O: Offset>(
    alloc: Global,
    rows: &OffsetsBuffer<O>,
    mask: &Bitmap,
    count: usize,
    items: usize,
) -> Result<(OffsetsBuffer<O>, Bitmap), Error>
    requires lengths { length rows.now ≡ length mask.now + 1 }
    requires within { last_of rows.now ≤ items }
    ensures ends { IfOk result (λ kept. kept.0
        ≡ 0 ∷ ends_from 0 (map (row_length rows.now) (places_from 0 mask.now))) }
    ensures few { IfOk result (λ kept. last_of kept.0 ≤ O.greatest) }
    ensures own { IfOk result (λ kept. kept.1 ≡ item_mask mask.now rows.now items) }
    ensures err { IsOkUnless result Error.OutOfMemory }
{
    let len = mask.len();
    // All rows end at the greatest offset at most, and so do those that are kept.
    let _ = rows.range(0, len);
    let mut ends = Offsets::with_capacity(alloc, count)?;
    let mut own = MutableBitmap::with_capacity(alloc, items)?;
    append_bits(&mut own, rows.range(0, 0).0, false)?;
    let mut left = mask.runs(0, len);
    let mut row = 0;
    while row < len {
        let (unset, set) = left.next_set();
        let (begin, first) = rows.range(row, unset);
        row += unset;
        let end = rows.range(row, set).1;
        append_ends(&mut ends, rows, row, set)?;
        append_bits(&mut own, first - begin, false)?;
        append_bits(&mut own, end - first, true)?;
        row += set;
    }
    let behind = items - own.len();
    append_bits(&mut own, behind, false)?;
    // The last offset is at most the greatest of its type.
    let _ = ends.last().to_usize();
    Ok((ends.into_buffer()?, own.into_bitmap()?))
}

// Appends a bit so many times.
fn append_bits(own: &mut MutableBitmap, count: usize, bit: bool) -> Result<(), Error>
    requires { length own.old + count < 2 ^ 64 }
    ensures ok { OnOk result (own.new ≡ own.old ++ replicate count bit) }
    ensures err { IsOkUnless result Error.OutOfMemory }
{
    own.extend_constant(count, bit)
}
