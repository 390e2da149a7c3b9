//! Fixed-size lists that are kept: their items, by the bits of their rows, each for as many items.

ghost use Rattle.std.specs.Prelude.{◌≡◌, ◌*◌, ◌^◌, ◌<◌, count_by, length, option_copied, option_map, replicate, IfOk, IfSome, IsOkUnless};
ghost use Rattle.std.specs.List.{flat_map};
ghost use Rattle.arrow_types.specs.declared.error.Error.{Error};
ghost use Rattle.arrow_types.specs.Rows.{select};
ghost use Rattle.arrow_arrays.specs.FixedListParts.{fixed_list_rows};
ghost use Rattle.arrow_select.specs.Selection.{mask_in};
ghost use Rattle.arrow_take.specs.Answers.{Gives};

use crate::filter::any::count_set;
use crate::filter::columns::{FEW, is_flat, kept_under};
use crate::filter::selection::{Selection, kept_validity};
use arrow_arrays::array::FixedSizeListArray;
use arrow_memory::bitmap::Bitmap;
use arrow_types::error::Error;
use std::alloc::Global;

// The rows that are kept, in an array of the same type: none where the items have children, where the rows are given as ranges,
// or where few are kept. The items of a null row are null.
pub(super) fn filter_fixed_size_list(
    alloc: Global,
    array: &FixedSizeListArray,
    selection: Selection<'_>,
    count: usize,
) -> Result<Option<FixedSizeListArray>, Error>
    requires lengths { length (mask_in selection) ≡ length (fixed_list_rows array.now) }
    requires count { count ≡ count_by (λ is_kept. is_kept) (mask_in selection) }
    ensures ok { IfOk result (λ made. IfSome made (λ kept. Gives (λ a. a.arrow_type) fixed_list_rows kept
        array.now.arrow_type (select (mask_in selection.entry) (fixed_list_rows array.now)))) }
    ensures err { IsOkUnless result Error.OutOfMemory }
{
    let Selection::Mask(mask) = selection else {
        return Ok(None);
    };
    let (items, size) = (array.values(), array.size());
    if !is_flat(items) || count < mask.len() / FEW {
        return Ok(None);
    }
    // There are as many items as a `usize` counts.
    let _ = items.len();
    let own = each(alloc, mask, size)?;
    let valid = each_valid(alloc, array.validity(), size)?;
    let selected = Selection::Mask(&own);
    let Some(items) = kept_under(alloc, items, valid.as_ref(), selected, count_set(&own))? else {
        return Ok(None);
    };
    let validity = kept_validity(alloc, array.validity(), selection, count)?;
    let data_type = array.data_type().clone()?;
    Ok(Some(FixedSizeListArray::new(data_type, Box::new(alloc, items)?, validity)))
}

// The bits, each of them so many times.
fn each(alloc: Global, bits: &Bitmap, times: usize) -> Result<Bitmap, Error>
    requires { length bits.now * times < 2 ^ 64 }
    ensures ok { IfOk result (λ made. made ≡ flat_map (replicate times) bits.now) }
    ensures err { IsOkUnless result Error.OutOfMemory }
{
    bits.repeated(alloc, 0, bits.len(), times)
}

// The same of a validity: none where there is none.
fn each_valid(
    alloc: Global,
    validity: Option<&Bitmap>,
    times: usize,
) -> Result<Option<Bitmap>, Error>
    requires { IfSome (option_copied validity) (λ bits. length bits * times < 2 ^ 64) }
    ensures ok { IfOk result (λ made. made
        ≡ option_map (flat_map (replicate times)) (option_copied validity.entry)) }
    ensures err { IsOkUnless result Error.OutOfMemory }
{
    match validity {
        None => Ok(None),
        Some(bits) => Ok(Some(each(alloc, bits, times)?)),
    }
}
