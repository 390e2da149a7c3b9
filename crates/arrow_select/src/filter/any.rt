//! The rows of an array of any type that are kept.

ghost use Rattle.std.specs.Prelude.{◌≡◌, [], ◌∷◌, Err, count_by, length, IfOk, IfErr, IfSome, IsOkUnless, OnOk};
ghost use Rattle.arrow_types.specs.declared.error.Error.{Error};
ghost use Rattle.arrow_types.specs.Fits.{Fits};
ghost use Rattle.arrow_types.specs.Rows.{mask_of, select};
ghost use Rattle.arrow_arrays.specs.Any.{any_array_type, any_array_rows, layout_of};
ghost use Rattle.arrow_flat_growable.specs.Grown.{FitsItself, IsRefusal, bound_to};
ghost use Rattle.arrow_flat.specs.Parts.{boolean_rows};
ghost use Rattle.arrow_growable.specs.AnyGrowable.{grown_of};
ghost use Rattle.arrow_growable.specs.Growing.{HasAppended};
ghost use Rattle.arrow_memory.specs.Grown.{IsGrowthError};
ghost use Rattle.arrow_arrays.specs.UnionParts.{union_rows};
ghost use Rattle.arrow_take.specs.Answers.{Gives};
ghost use Rattle.arrow_select.specs.Extended.{BindsAt, RefusesRange, with_kept};
ghost use Rattle.arrow_select.specs.Selection.{mask_in};

use crate::filter::boolean::filter_boolean;
use crate::filter::bytes::filter_bytes;
use crate::filter::dict::filter_dictionary;
use crate::filter::fixed_size_list::filter_fixed_size_list;
use crate::filter::list::filter_list;
use crate::filter::prepared::Filter;
use crate::filter::primitive::filter_primitive;
use crate::filter::selection::Selection;
use crate::filter::structure::filter_struct;
use crate::filter::union::filter_sparse;
use arrow_arrays::array::{AnyArray, UnionArray};
use arrow_flat::array::BooleanArray;
use arrow_growable::growable::{AnyGrowable, Growable, make_growable};
use arrow_memory::bitmap::Bitmap;
use arrow_types::error::Error;
use std::alloc::Global;

// The mask of a predicate: its bits, and where it has a validity those that are set in both, joined a word at a time.
pub(super) fn mask_of_predicate(alloc: Global, filter: &BooleanArray) -> Result<Bitmap, Error>
    ensures ok { IfOk result (λ mask. mask ≡ mask_of (boolean_rows filter.now)) }
    ensures err { IsOkUnless result Error.OutOfMemory }
{
    let mask = match filter.validity() {
        None => filter.values().clone()?,
        Some(validity) => filter.values().and(alloc, validity)?,
    };
    Ok(mask)
}

// How many bits of a mask are set, counted a word at a time.
pub(super) fn count_set(mask: &Bitmap) -> usize
    ensures { result ≡ count_by (λ is_kept. is_kept) mask.now }
{
    mask.len() - mask.unset_bits()
}

// The rows that are kept, of which there are so many, in order, in an array of the same type.
pub(super) fn kept(
    alloc: Global,
    array: &AnyArray,
    selection: Selection<'_>,
    count: usize,
) -> Result<AnyArray, Error>
    requires lengths { length (mask_in selection) ≡ length (any_array_rows array.now) }
    requires count { count ≡ count_by (λ is_kept. is_kept) (mask_in selection) }
    ensures array_type { IfOk result (λ kept. any_array_type kept ≡ any_array_type array.now) }
    ensures rows { IfOk result (λ kept. any_array_rows kept
        ≡ select (mask_in selection.entry) (any_array_rows array.now)) }
    ensures fits { IfOk result (λ kept. Fits (any_array_type kept) (any_array_rows kept)) }
    ensures overflow { result ≡ Err Error.Overflow
        → Fits (any_array_type array.now) (select (mask_in selection.entry) (any_array_rows array.now))
        → ⊥ }
    ensures others { IfErr result IsGrowthError }
{
    match array {
        AnyArray::Primitive(values) => {
            let kept = filter_primitive(alloc, values, selection, count)?;
            Ok(AnyArray::Primitive(kept))
        }
        AnyArray::Boolean(values) => {
            let kept = filter_boolean(alloc, values, selection, count)?;
            Ok(AnyArray::Boolean(kept))
        }
        AnyArray::Utf8(values) => {
            let kept = filter_bytes(alloc, values, selection, count)?;
            Ok(AnyArray::Utf8(kept))
        }
        AnyArray::LargeUtf8(values) => {
            let kept = filter_bytes(alloc, values, selection, count)?;
            Ok(AnyArray::LargeUtf8(kept))
        }
        AnyArray::Binary(values) => {
            let kept = filter_bytes(alloc, values, selection, count)?;
            Ok(AnyArray::Binary(kept))
        }
        AnyArray::LargeBinary(values) => {
            let kept = filter_bytes(alloc, values, selection, count)?;
            Ok(AnyArray::LargeBinary(kept))
        }
        AnyArray::Dictionary(values) => {
            let kept = filter_dictionary(alloc, values, selection, count)?;
            Ok(AnyArray::Dictionary(kept))
        }
        _ => match kept_nested(alloc, array, selection, count)? {
            Some(kept) => Ok(kept),
            None => kept_by_growable(alloc, array, selection, count),
        },
    }
}

// The rows that are kept of an array whose children have none, a child at a time: none of another one.
fn kept_nested(
    alloc: Global,
    array: &AnyArray,
    selection: Selection<'_>,
    count: usize,
) -> Result<Option<AnyArray>, Error>
    requires lengths { length (mask_in selection) ≡ length (any_array_rows array.now) }
    requires count { count ≡ count_by (λ is_kept. is_kept) (mask_in selection) }
    ensures ok { IfOk result (λ made. IfSome made (λ kept. Gives any_array_type any_array_rows kept
        (any_array_type array.now) (select (mask_in selection.entry) (any_array_rows array.now)))) }
    ensures err { IsOkUnless result Error.OutOfMemory }
{
    match array {
        AnyArray::List(values) => {
            let kept = filter_list(alloc, values, selection, count)?;
            Ok(kept.map(AnyArray::List))
        }
        AnyArray::FixedSizeList(values) => {
            let kept = filter_fixed_size_list(alloc, values, selection, count)?;
            Ok(kept.map(AnyArray::FixedSizeList))
        }
        AnyArray::Struct(values) => {
            let kept = filter_struct(alloc, values, selection, count)?;
            Ok(kept.map(AnyArray::Struct))
        }
        AnyArray::Union(values) => {
            let kept = kept_union(alloc, values, selection, count)?;
            Ok(kept.map(AnyArray::Union))
        }
        _ => Ok(None),
    }
}

// The rows that are kept of a union, if it is sparse and no field has children.
fn kept_union(
    alloc: Global,
    array: &UnionArray,
    selection: Selection<'_>,
    count: usize,
) -> Result<Option<UnionArray>, Error>
    requires lengths { length (mask_in selection) ≡ length (union_rows array.now) }
    requires count { count ≡ count_by (λ is_kept. is_kept) (mask_in selection) }
    ensures ok { IfOk result (λ made. IfSome made (λ kept. Gives (λ a. a.arrow_type) union_rows kept
        array.now.arrow_type (select (mask_in selection.entry) (union_rows array.now)))) }
    ensures err { IsOkUnless result Error.OutOfMemory }
{
    // The type, the fields and the ids are those of a union, with an id a row.
    let (_, _, _) = (array.data_type(), array.fields(), array.types());
    let _ = array.len();
    match array.offsets() {
        None => filter_sparse(alloc, array, selection, count),
        Some(_) => Ok(None),
    }
}

// The same by a growable, for an array of any type.
fn kept_by_growable(
    alloc: Global,
    array: &AnyArray,
    selection: Selection<'_>,
    count: usize,
) -> Result<AnyArray, Error>
    requires lengths { length (mask_in selection) ≡ length (any_array_rows array.now) }
    ensures array_type { IfOk result (λ kept. any_array_type kept ≡ any_array_type array.now) }
    ensures rows { IfOk result (λ kept. any_array_rows kept
        ≡ select (mask_in selection.entry) (any_array_rows array.now)) }
    ensures fits { IfOk result (λ kept. Fits (any_array_type kept) (any_array_rows kept)) }
    ensures overflow { result ≡ Err Error.Overflow
        → Fits (any_array_type array.now) (select (mask_in selection.entry) (any_array_rows array.now))
        → ⊥ }
    ensures others { IfErr result IsGrowthError }
{
    let growable = make_growable(alloc, &[array], false, count)?;
    selected(growable, array, selection)
}

// The rows that are kept, by a growable over the array that has none yet.
fn selected(
    growable: AnyGrowable,
    array: &AnyArray,
    selection: Selection<'_>,
) -> Result<AnyArray, Error>
    requires bound { grown_of growable ≡ bound_to (layout_of array.now ∷ []) }
    requires lengths { length (mask_in selection) ≡ length (any_array_rows array.now) }
    ensures array_type { IfOk result (λ kept. any_array_type kept ≡ any_array_type array.now) }
    ensures rows { IfOk result (λ kept. any_array_rows kept
        ≡ select (mask_in selection.entry) (any_array_rows array.now)) }
    ensures fits { IfOk result (λ kept. Fits (any_array_type kept) (any_array_rows kept)) }
    ensures overflow { result ≡ Err Error.Overflow
        → Fits (any_array_type array.now) (select (mask_in selection.entry) (any_array_rows array.now))
        → ⊥ }
    ensures others { IfErr result IsGrowthError }
{
    let mut growable = growable;
    match selection {
        Selection::Mask(mask) => append_selected(&mut growable, array, mask)?,
        Selection::Ranges(filter) => append_ranges(&mut growable, array, filter)?,
    }
    growable.as_box()
}

// Appends the rows at which the mask is set, a run of them at a time.
fn append_selected(growable: &mut AnyGrowable, array: &AnyArray, mask: &Bitmap) -> Result<(), Error>
    requires bound { grown_of growable.old ≡ bound_to (layout_of array.now ∷ []) }
    requires lengths { length mask.now ≡ length (any_array_rows array.now) }
    ensures ok { OnOk result (HasAppended (layout_of array.now ∷ []) (grown_of growable.new)
        (select mask.now (any_array_rows array.now))) }
    ensures overflow { result ≡ Err Error.Overflow
        → Fits (any_array_type array.now) (select mask.now (any_array_rows array.now)) → ⊥ }
    ensures others { IfErr result IsGrowthError }
{
    let len = array.len();
    let mut left = mask.runs(0, len);
    let mut row = 0;
    while row < len {
        let (unset, count) = left.next_set();
        row += unset;
        growable.extend(0, row, count)?;
        row += count;
    }
    Ok(())
}

// Appends the rows that a prepared filter keeps, a range of them at a time.
fn append_ranges(growable: &mut AnyGrowable, array: &AnyArray, filter: &Filter) -> Result<(), Error>
    requires bound { grown_of growable.old ≡ bound_to (layout_of array.now ∷ []) }
    requires lengths { length filter.now ≡ length (any_array_rows array.now) }
    ensures ok { OnOk result (HasAppended (layout_of array.now ∷ []) (grown_of growable.new)
        (select filter.now (any_array_rows array.now))) }
    ensures overflow { result ≡ Err Error.Overflow
        → Fits (any_array_type array.now) (select filter.now (any_array_rows array.now)) → ⊥ }
    ensures others { IfErr result IsGrowthError }
{
    extend_ranges(growable, filter, 0)
}

// As [`Filter::extend_into`], of a growable of any type by name.
fn extend_ranges(growable: &mut AnyGrowable, filter: &Filter, index: usize) -> Result<(), Error>
    requires { BindsAt (grown_of growable.old) index filter.now }
    ensures ok { OnOk result (grown_of growable.new ≡ with_kept (grown_of growable.old) index filter.now) }
    ensures fits { OnOk result (FitsItself (grown_of growable.old) → FitsItself (grown_of growable.new)) }
    ensures err { IfErr result (RefusesRange filter.now index (grown_of growable.old)
        (grown_of growable.new)) }
    ensures others { IfErr result IsRefusal }
{
    for &(start, len) in filter.ranges() {
        growable.extend(index, start, len)?;
    }
    Ok(())
}
