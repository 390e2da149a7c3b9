//! How the rows are given that are kept, and what is stored of them.

ghost use Rattle.std.specs.Prelude.{◌≡◌, count_by, length, option_copied, option_map, IfOk, IsOkUnless};
ghost use Rattle.arrow_types.specs.declared.error.Error.{Error};
ghost use Rattle.arrow_flat.specs.Parts.{FitsRows};
ghost use Rattle.arrow_select.specs.Selected.{at_set};
ghost use Rattle.arrow_select.specs.Selection.{mask_in};

use crate::filter::prepared::Filter;
use crate::filter::ranged::{ranged_bits, ranged_values};
use crate::filter::words::{set_bits, set_rows};
use arrow_memory::bitmap::Bitmap;
use arrow_types::error::Error;
use arrow_types::types::NativeType;
use std::alloc::Global;

/// Where the rows stand that are kept: where a mask is set, or in the ranges of a prepared filter.
#[derive(Clone, Copy)]
pub(super) enum Selection<'a> {
    Mask(&'a Bitmap),
    Ranges(&'a Filter),
}

// The values that are kept, of which there are so many, and their validity: none where theirs is none.
pub(super) fn kept_rows<T: NativeType>(
    alloc: Global,
    values: &[T],
    validity: Option<&Bitmap>,
    selection: Selection<'_>,
    count: usize,
) -> Result<(Vec<T>, Option<Bitmap>), Error>
    requires lengths { length (mask_in selection) ≡ length values.now }
    requires fits { FitsRows (option_copied validity) (length (mask_in selection)) }
    requires count { count ≡ count_by (λ is_kept. is_kept) (mask_in selection) }
    ensures values { IfOk result (λ rows. rows.0.items ≡ at_set (mask_in selection.entry) values.now) }
    ensures validity { IfOk result (λ rows. rows.1
        ≡ option_map (at_set (mask_in selection.entry)) (option_copied validity.entry)) }
    ensures err { IsOkUnless result Error.OutOfMemory }
{
    match selection {
        Selection::Mask(mask) => set_rows(alloc, values, validity, mask, count),
        Selection::Ranges(filter) => {
            let kept = ranged_values(alloc, values, filter)?;
            let valid = match validity {
                None => None,
                Some(bits) => Some(ranged_bits(alloc, bits, filter)?),
            };
            Ok((kept, valid))
        }
    }
}

// The validity of the rows that are kept, of which there are so many. There is none where theirs is none.
pub(super) fn kept_validity(
    alloc: Global,
    validity: Option<&Bitmap>,
    selection: Selection<'_>,
    count: usize,
) -> Result<Option<Bitmap>, Error>
    requires { FitsRows (option_copied validity) (length (mask_in selection)) }
    ensures ok { IfOk result (λ kept. kept
        ≡ option_map (at_set (mask_in selection.entry)) (option_copied validity.entry)) }
    ensures err { IsOkUnless result Error.OutOfMemory }
{
    match validity {
        None => Ok(None),
        Some(bits) => Ok(Some(kept_bits(alloc, bits, selection, count)?)),
    }
}

// The bits that are kept, of which there are so many.
pub(super) fn kept_bits(
    alloc: Global,
    bits: &Bitmap,
    selection: Selection<'_>,
    count: usize,
) -> Result<Bitmap, Error>
    requires { length (mask_in selection) ≡ length bits.now }
    ensures ok { IfOk result (λ kept. kept ≡ at_set (mask_in selection.entry) bits.now) }
    ensures err { IsOkUnless result Error.OutOfMemory }
{
    match selection {
        Selection::Mask(mask) => set_bits(alloc, bits, mask, count),
        Selection::Ranges(filter) => ranged_bits(alloc, bits, filter),
    }
}
