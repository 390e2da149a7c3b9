//! Sparse unions that are kept: the type ids, and each field by itself, null where a row is of another one.

ghost use Rattle.std.specs.Prelude.{◌≡◌, ◌<◌, Some, count_by, length, map, slice_index_or, IfOk, IfSome, IsOkUnless};
ghost use Rattle.std.specs.Ordering.{int_eq};
ghost use Rattle.arrow_types.specs.declared.error.Error.{Error};
ghost use Rattle.arrow_types.specs.Rows.{select};
ghost use Rattle.arrow_types.specs.Slot.{id_at};
ghost use Rattle.arrow_arrays.specs.Layout.{field_ids};
ghost use Rattle.arrow_arrays.specs.TypeParts.{field_types};
ghost use Rattle.arrow_arrays.specs.UnionParts.{union_rows};
ghost use Rattle.arrow_take.specs.Answers.{Gives};
ghost use Rattle.arrow_select.specs.Selection.{mask_in};
ghost use Rattle.arrow_take.specs.SparseUnions.{HasPart, HaveParts};
ghost use Rattle.arrow_growable.specs.Variants.{IsSparse};
ghost use Rattle.arrow_growable.specs.Variants.{have_id};

use crate::filter::columns::{are_flat, kept_under};
use crate::filter::selection::{Selection, kept_rows};
use arrow_arrays::array::{AnyArray, UnionArray};
use arrow_growable::growable::fields::id_of_field;
use arrow_growable::growable::ids::rows_of_id;
use arrow_memory::buffer::Buffer;
use arrow_types::error::Error;
use std::alloc::Global;

// The rows that are kept of a sparse union, in an array of the same type: none where a field has children.
pub(super) fn filter_sparse(
    alloc: Global,
    array: &UnionArray,
    selection: Selection<'_>,
    count: usize,
) -> Result<Option<UnionArray>, Error>
    requires sparse { IsSparse array.now }
    requires lengths { length (mask_in selection) ≡ length array.now.types }
    requires count { count ≡ count_by (λ is_kept. is_kept) (mask_in selection) }
    ensures ok { IfOk result (λ made. IfSome made (λ kept. Gives (λ a. a.arrow_type) union_rows kept
        array.now.arrow_type (select (mask_in selection.entry) (union_rows array.now)))) }
    ensures err { IsOkUnless result Error.OutOfMemory }
{
    if !are_flat(array.fields()) {
        return Ok(None);
    }
    let Some(fields) = kept_fields(alloc, array, selection, count)? else {
        return Ok(None);
    };
    let types = array.types().as_slice();
    let (types, _) = kept_rows(alloc, types, None, selection, count)?;
    let types = Buffer::from_vec(alloc, types)?;
    let data_type = array.data_type().clone()?;
    Ok(Some(UnionArray::new(data_type, types, fields, None)))
}

// What each field has of the rows that are kept: none where a field has children.
fn kept_fields(
    alloc: Global,
    array: &UnionArray,
    selection: Selection<'_>,
    count: usize,
) -> Result<Option<Vec<AnyArray>>, Error>
    requires sparse { IsSparse array.now }
    requires lengths { length (mask_in selection) ≡ length array.now.types }
    requires count { count ≡ count_by (λ is_kept. is_kept) (mask_in selection) }
    ensures count { IfOk result (λ made. IfSome made (λ fields. length fields.items
        ≡ length (field_types array.now.arrow_type))) }
    ensures parts { IfOk result (λ made. IfSome made (λ fields. HaveParts array.now.arrow_type
        (select (mask_in selection.entry) (union_rows array.now)) fields.items)) }
    ensures err { IsOkUnless result Error.OutOfMemory }
{
    let width = array.fields().len();
    let mut fields = Vec::with_capacity(alloc, width)?;
    for f in 0..width {
        let Some(field) = kept_field(alloc, array, f, selection, count)? else {
            return Ok(None);
        };
        fields.push(field)?;
    }
    Ok(Some(fields))
}

// What a field has of the rows that are kept: none where it has children.
fn kept_field(
    alloc: Global,
    array: &UnionArray,
    f: usize,
    selection: Selection<'_>,
    count: usize,
) -> Result<Option<AnyArray>, Error>
    requires sparse { IsSparse array.now }
    requires lengths { length (mask_in selection) ≡ length array.now.types }
    requires count { count ≡ count_by (λ is_kept. is_kept) (mask_in selection) }
    requires field { f < length array.now.children }
    ensures part { IfOk result (λ made. IfSome made (HasPart array.now.arrow_type
        (select (mask_in selection.entry) (union_rows array.now)) f)) }
    ensures err { IsOkUnless result Error.OutOfMemory }
{
    let id = id_of_field(array.data_type(), f);
    let own = rows_of_id(alloc, array.types().as_slice(), id)?;
    let part = array.fields()[f]
        .clone()?
        .sliced(array.start(), array.len());
    let Some(kept) = kept_under(alloc, &part, Some(&own), selection, count)? else {
        return Ok(None);
    };
    Ok(Some(kept))
}
