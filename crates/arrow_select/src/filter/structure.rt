//! Structs that are kept: each field by itself, null where the struct's row is.

ghost use Rattle.std.specs.Prelude.{◌≡◌, count_by, length, map, option_copied, IfOk, IfSome, IsOkUnless};
ghost use Rattle.std.specs.List.{All};
ghost use Rattle.arrow_types.specs.declared.error.Error.{Error};
ghost use Rattle.arrow_types.specs.Rows.{select};
ghost use Rattle.arrow_flat.specs.Parts.{FitsRows};
ghost use Rattle.arrow_arrays.specs.Any.{any_array_rows};
ghost use Rattle.arrow_arrays.specs.StructParts.{struct_rows};
ghost use Rattle.arrow_take.specs.Answers.{Gives};
ghost use Rattle.arrow_select.specs.Selected.{KeptColumns};
ghost use Rattle.arrow_select.specs.Selection.{mask_in};

use crate::filter::columns::{are_flat, kept_under};
use crate::filter::selection::{Selection, kept_validity};
use arrow_arrays::array::{AnyArray, StructArray};
use arrow_memory::bitmap::Bitmap;
use arrow_types::error::Error;
use std::alloc::Global;

// The rows that are kept, in an array of the same type: none where a field has children.
pub(super) fn filter_struct(
    alloc: Global,
    array: &StructArray,
    selection: Selection<'_>,
    count: usize,
) -> Result<Option<StructArray>, Error>
    requires lengths { length (mask_in selection) ≡ length (struct_rows array.now) }
    requires count { count ≡ count_by (λ is_kept. is_kept) (mask_in selection) }
    ensures ok { IfOk result (λ made. IfSome made (λ kept. Gives (λ a. a.arrow_type) struct_rows kept
        array.now.arrow_type (select (mask_in selection.entry) (struct_rows array.now)))) }
    ensures err { IsOkUnless result Error.OutOfMemory }
{
    // There are as many rows as a `usize` counts, and the fields are those of the type.
    let _ = array.len();
    let (data_type, columns) = (array.data_type(), array.values());
    if !are_flat(columns) {
        return Ok(None);
    }
    let Some(fields) = kept_columns(alloc, columns, array.validity(), selection, count)? else {
        return Ok(None);
    };
    let validity = kept_validity(alloc, array.validity(), selection, count)?;
    Ok(Some(StructArray::new(data_type.clone()?, fields, validity)))
}

// The rows of each column that are kept, null where a bit of the validity is not set: none where a column has children.
fn kept_columns(
    alloc: Global,
    columns: &[AnyArray],
    validity: Option<&Bitmap>,
    selection: Selection<'_>,
    count: usize,
) -> Result<Option<Vec<AnyArray>>, Error>
    requires lengths { All (λ column. length (any_array_rows column) ≡ length (mask_in selection))
        columns.now }
    requires fits { FitsRows (option_copied validity) (length (mask_in selection)) }
    requires count { count ≡ count_by (λ is_kept. is_kept) (mask_in selection) }
    ensures ok { IfOk result (λ made. IfSome made (λ kept.
        KeptColumns (mask_in selection.entry) (option_copied validity.entry) columns.now kept.items)) }
    ensures err { IsOkUnless result Error.OutOfMemory }
{
    let mut all = Vec::with_capacity(alloc, columns.len())?;
    for column in columns {
        let Some(kept) = kept_under(alloc, column, validity, selection, count)? else {
            return Ok(None);
        };
        all.push(kept)?;
    }
    Ok(Some(all))
}
