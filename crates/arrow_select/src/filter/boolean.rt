//! Truth values that are kept.

ghost use Rattle.std.specs.Prelude.{◌≡◌, count_by, length, IfOk, IsOkUnless};
ghost use Rattle.arrow_types.specs.declared.error.Error.{Error};
ghost use Rattle.arrow_types.specs.Fits.{Fits};
ghost use Rattle.arrow_types.specs.Rows.{select};
ghost use Rattle.arrow_flat.specs.Parts.{boolean_rows};
ghost use Rattle.arrow_select.specs.Selection.{mask_in};

use crate::filter::selection::{Selection, kept_bits, kept_validity};
use arrow_flat::array::BooleanArray;
use arrow_types::error::Error;
use std::alloc::Global;

// The rows that are kept, in an array of the same type. Where all rows are kept the array is shared, and
// nothing is copied.
pub(super) fn filter_boolean(
    alloc: Global,
    array: &BooleanArray,
    selection: Selection<'_>,
    count: usize,
) -> Result<BooleanArray, Error>
    requires lengths { length (mask_in selection) ≡ length (boolean_rows array.now) }
    requires count { count ≡ count_by (λ is_kept. is_kept) (mask_in selection) }
    ensures array_type { IfOk result (λ kept. kept.arrow_type ≡ array.now.arrow_type) }
    ensures rows { IfOk result (λ kept. boolean_rows kept
        ≡ select (mask_in selection.entry) (boolean_rows array.now)) }
    ensures fits { IfOk result (λ kept. Fits kept.arrow_type (boolean_rows kept)) }
    ensures err { IsOkUnless result Error.OutOfMemory }
{
    let data_type = array.data_type();
    if count == array.len() {
        return Ok(array.clone()?);
    }
    let validity = kept_validity(alloc, array.validity(), selection, count)?;
    let kept = kept_bits(alloc, array.values(), selection, count)?;
    Ok(BooleanArray::new(data_type.clone()?, kept, validity))
}
