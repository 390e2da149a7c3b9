//! Rows of unions under construction: each run of rows of one field goes to its child by one call.

ghost use Rattle.std.specs.Prelude.{◌≡◌, ◌+◌, ◌^◌, ◌<◌, ◌≤◌, ◌⊎◌, ◌++◌, Err, Some, pos, length, map, replicate, All, IfErr, IfOk, IsOkUnless, OnOk, slice_index_or};
ghost use Rattle.std.specs.List.{range_with_len};
ghost use Rattle.arrow_types.specs.declared.error.Error.{Error};
ghost use Rattle.arrow_types.specs.Fits.{Fits};
ghost use Rattle.arrow_types.specs.Slot.{id_at, null_slot};
ghost use Rattle.arrow_types.specs.TypeOf.{type_of};
ghost use Rattle.arrow_types.specs.declared.datatypes.physical_type.PhysicalType.TheVariants as physical;
ghost use Rattle.arrow_memory.specs.Grown.{IsGrowthError};
ghost use Rattle.arrow_memory.specs.Sliced.{sliced};
ghost use Rattle.arrow_flat.specs.Faults.{IsCarriedAs};
ghost use Rattle.arrow_arrays.specs.Layout.{field_ids, rows, type_of_layout};
ghost use Rattle.arrow_arrays.specs.UnionParts.{child_rows_of, mode_by, union_layout, union_rows};
ghost use Rattle.arrow_flat_growable.specs.Grown.{CannotHold, FitsItself, FitsWith, null_rows_of, source_at};
ghost use Rattle.arrow_growable.specs.AnyGrowable.{grown_of};
ghost use Rattle.arrow_growable.specs.Child.{AreBoundAs, BindsRows, IsWell, SomeCannotHoldNulls, bound_rows};
ghost use Rattle.arrow_growable.specs.GrownUnion.{AreFew, GrowsVariants, HoldsVariants, IsBoundUnion, IsUnionOver, NullsRefused, OthersCannotHold, RowsRefused, RunRefused, nth_grown, offsets_in, placed_behind, source_type, variant_rows, with_others, with_rows, with_run};

use crate::growable::Growable;
use crate::growable::any::AnyGrowable;
use crate::growable::children::{extend_all_nulls, extend_nulls};
use crate::growable::fields::{append_ids, extend_by_fields, go_by_fields};
use crate::growable::union_runs::run_of;
use arrow_arrays::array::UnionArray;
use arrow_types::datatypes::DataType;
use arrow_types::error::Error;

/// The most rows that a child of a dense union has, since an offset has 32 bits.
const MOST: usize = 2_147_483_648;

// Appends `len` rows of bound array `index`, from row `start` on, field by field or a run of one field at a time.
#[cycle(extend)]
pub(crate) fn extend_variants(
    types: &mut Vec<i8>,
    offsets: &mut Option<Vec<i32>>,
    children: &mut [AnyGrowable],
    arrays: &[&UnionArray],
    index: usize,
    start: usize,
    len: usize,
) -> Result<(), Error>
    requires index { index < length arrays.now }
    requires part { start + len ≤ length (rows (source_at (map (λ r. union_layout r.now) arrays.now) index)) }
    requires bound { IsBoundUnion (map (λ r. union_layout r.now) arrays.now)
        (source_type (map (λ r. union_layout r.now) arrays.now) index) (offsets_in offsets.old)
        (map grown_of children.old) }
    requires holds { HoldsVariants
        (source_type (map (λ r. union_layout r.now) arrays.now) index) types.old.items
        (offsets_in offsets.old) (map grown_of children.old) }
    ensures ok { OnOk result (GrowsVariants
        (source_type (map (λ r. union_layout r.now) arrays.now) index) types.old.items
        (offsets_in offsets.old) (map grown_of children.old) types.new.items (offsets_in offsets.new)
        (map grown_of children.new)
        (sliced (rows (source_at (map (λ r. union_layout r.now) arrays.now) index)) start len)) }
    ensures bound { IsBoundUnion (map (λ r. union_layout r.now) arrays.now)
        (source_type (map (λ r. union_layout r.now) arrays.now) index) (offsets_in offsets.new)
        (map grown_of children.new) }
    ensures overflow { result ≡ Err Error.Overflow
        → RowsRefused (map (λ r. union_layout r.now) arrays.now) types.old.items (offsets_in offsets.old)
        (map grown_of children.old) index start len }
    ensures others { IfErr result IsGrowthError }
{
    let array: &UnionArray = arrays[index];
    // So many rows fit a `usize`.
    let _ = array.len();
    if go_by_fields(children, array, start, len) {
        return extend_by_fields(types, children, array, index, start, len);
    }
    let end = start + len;
    let mut row = start;
    while row < end {
        let (field, child_row, count) = run_of(array, row, end);
        append_ids(types, array, row, count)?;
        extend_variant(offsets, children, field, index, child_row, count)?;
        row += count;
    }
    Ok(())
}

// Appends so many null slots, which are null slots of the first field.
#[cycle(extend_validity)]
pub(crate) fn extend_null_variants(
    types: &mut Vec<i8>,
    offsets: &mut Option<Vec<i32>>,
    children: &mut [AnyGrowable],
    data_type: &DataType,
    count: usize,
) -> Result<(), Error>
    requires room { length types.old.items + count < 2 ^ 64 }
    requires over { IsUnionOver (type_of data_type.now) (offsets_in offsets.old) (map grown_of children.old) }
    requires holds { HoldsVariants (type_of data_type.now) types.old.items (offsets_in offsets.old)
        (map grown_of children.old) }
    ensures ok { OnOk result (GrowsVariants (type_of data_type.now) types.old.items (offsets_in offsets.old)
        (map grown_of children.old) types.new.items (offsets_in offsets.new) (map grown_of children.new)
        (replicate count (null_slot (type_of data_type.now)))) }
    ensures kept { AreBoundAs (map grown_of children.old) (map grown_of children.new) }
    ensures mode { mode_by (child_rows_of (offsets_in offsets.new))
        ≡ mode_by (child_rows_of (offsets_in offsets.old)) }
    ensures overflow { result ≡ Err Error.Overflow
        → Fits (type_of data_type.now)
        (variant_rows (type_of data_type.now) types.old.items (offsets_in offsets.old)
        (map grown_of children.old) ++ replicate count (null_slot (type_of data_type.now))) → ⊥ }
    ensures others { IfErr result IsGrowthError }
{
    append_first_id(types, data_type, count)?;
    extend_null_variant(offsets, children, count)
}

// Appends `count` rows of a field, those of bound array `index` from row `child_row` of its child on.
#[cycle(extend)]
fn extend_variant(
    offsets: &mut Option<Vec<i32>>,
    children: &mut [AnyGrowable],
    field: usize,
    index: usize,
    child_row: usize,
    count: usize,
) -> Result<(), Error>
    requires field { field < length children.old }
    requires bound { BindsRows (nth_grown (map grown_of children.old) field) index (child_row + count) }
    requires well { All IsWell (map grown_of children.old) }
    requires few { AreFew (offsets_in offsets.old)
        (length (nth_grown (map grown_of children.old) field).rows) }
    ensures ok { OnOk result (map grown_of children.new
        ≡ with_run (offsets_in offsets.old) field
        (sliced (bound_rows (nth_grown (map grown_of children.old) field) index) child_row count) count
        (map grown_of children.old)) }
    ensures places { OnOk result (offsets_in offsets.new
        ≡ placed_behind (offsets_in offsets.old)
        (length (nth_grown (map grown_of children.old) field).rows) count) }
    ensures few { OnOk result (AreFew (offsets_in offsets.old)
        (length (nth_grown (map grown_of children.old) field).rows + count)) }
    ensures well { OnOk result (All IsWell (map grown_of children.new)) }
    ensures kept { AreBoundAs (map grown_of children.old) (map grown_of children.new) }
    ensures mode { mode_by (child_rows_of (offsets_in offsets.new))
        ≡ mode_by (child_rows_of (offsets_in offsets.old)) }
    ensures overflow { result ≡ Err Error.Overflow
        → RunRefused (offsets_in offsets.old) field index child_row count (map grown_of children.old) }
    ensures others { IfErr result IsGrowthError }
{
    match offsets {
        None => extend_sparse(children, field, index, child_row, count),
        Some(offsets) => extend_dense(offsets, children, field, index, child_row, count),
    }
}

// The same of a sparse union: each other child has a null slot in each row.
#[cycle(extend)]
fn extend_sparse(
    children: &mut [AnyGrowable],
    field: usize,
    index: usize,
    child_row: usize,
    count: usize,
) -> Result<(), Error>
    requires field { field < length children.old }
    requires bound { BindsRows (nth_grown (map grown_of children.old) field) index (child_row + count) }
    requires well { All IsWell (map grown_of children.old) }
    ensures ok { OnOk result (map grown_of children.new
        ≡ with_rows field (sliced (bound_rows
        (nth_grown (map grown_of children.old) field) index) child_row count)
        (with_others field count (map grown_of children.old))) }
    ensures well { OnOk result (All IsWell (map grown_of children.new)) }
    ensures kept { AreBoundAs (map grown_of children.old) (map grown_of children.new) }
    ensures overflow { result ≡ Err Error.Overflow
        → CannotHold (nth_grown (map grown_of children.old) field) index child_row count
        ⊎ OthersCannotHold field count (map grown_of children.old) }
    ensures others { IfErr result IsGrowthError }
{
    extend_others(children, field, count)?;
    extend_chosen(children, field, index, child_row, count)
}

// The same of a dense union: the rows lie behind those of the child, and other children stay as they are.
#[cycle(extend)]
fn extend_dense(
    offsets: &mut Vec<i32>,
    children: &mut [AnyGrowable],
    field: usize,
    index: usize,
    child_row: usize,
    count: usize,
) -> Result<(), Error>
    requires field { field < length children.old }
    requires bound { BindsRows (nth_grown (map grown_of children.old) field) index (child_row + count) }
    requires well { All IsWell (map grown_of children.old) }
    requires few { length (nth_grown (map grown_of children.old) field).rows ≤ 2 ^ 31 }
    ensures ok { OnOk result (map grown_of children.new
        ≡ with_rows field (sliced (bound_rows
        (nth_grown (map grown_of children.old) field) index) child_row count) (map grown_of children.old)) }
    ensures places { OnOk result (offsets.new.items
        ≡ offsets.old.items ++ map pos
        (range_with_len (length (nth_grown (map grown_of children.old) field).rows) count)) }
    ensures few { OnOk result (length (nth_grown (map grown_of children.old) field).rows + count ≤ 2 ^ 31) }
    ensures well { OnOk result (All IsWell (map grown_of children.new)) }
    ensures kept { AreBoundAs (map grown_of children.old) (map grown_of children.new) }
    ensures overflow { result ≡ Err Error.Overflow
        → CannotHold (nth_grown (map grown_of children.old) field) index child_row count
        ⊎ (2 ^ 31 < length (nth_grown (map grown_of children.old) field).rows + count) }
    ensures others { IfErr result IsGrowthError }
{
    let place = children[field].len();
    append_places(offsets, place, count)?;
    extend_chosen(children, field, index, child_row, count)
}

// Appends the rows to the child of the field.
#[cycle(extend)]
fn extend_chosen(
    children: &mut [AnyGrowable],
    field: usize,
    index: usize,
    child_row: usize,
    count: usize,
) -> Result<(), Error>
    requires field { field < length children.old }
    requires bound { BindsRows (nth_grown (map grown_of children.old) field) index (child_row + count) }
    requires well { All IsWell (map grown_of children.old) }
    ensures ok { OnOk result (map grown_of children.new
        ≡ with_rows field (sliced (bound_rows
        (nth_grown (map grown_of children.old) field) index) child_row count) (map grown_of children.old)) }
    ensures well { OnOk result (All IsWell (map grown_of children.new)) }
    ensures kept { AreBoundAs (map grown_of children.old) (map grown_of children.new) }
    ensures overflow { result ≡ Err Error.Overflow
        → CannotHold (nth_grown (map grown_of children.old) field) index child_row count }
    ensures others { IfErr result IsGrowthError }
{
    children[field].extend(index, child_row, count)
}

// Appends so many null slots to each child but that of a field.
fn extend_others(children: &mut [AnyGrowable], field: usize, count: usize) -> Result<(), Error>
    requires field { field < length children.old }
    requires well { All IsWell (map grown_of children.old) }
    ensures ok { OnOk result (map grown_of children.new
        ≡ with_others field count (map grown_of children.old)) }
    ensures well { OnOk result (All IsWell (map grown_of children.new)) }
    ensures kept { AreBoundAs (map grown_of children.old) (map grown_of children.new) }
    ensures overflow { result ≡ Err Error.Overflow
        → OthersCannotHold field count (map grown_of children.old) }
    ensures others { IfErr result IsGrowthError }
{
    extend_all_nulls(&mut children[..field], count)?;
    extend_all_nulls(&mut children[field + 1..], count)
}

// Appends rows of the first field that are null slots: in a sparse union to all children, in a dense one to the first.
#[cycle(extend_validity)]
fn extend_null_variant(
    offsets: &mut Option<Vec<i32>>,
    children: &mut [AnyGrowable],
    count: usize,
) -> Result<(), Error>
    requires some { 0 < length children.old }
    requires well { All IsWell (map grown_of children.old) }
    requires few { AreFew (offsets_in offsets.old) (length (nth_grown (map grown_of children.old) 0).rows) }
    ensures ok { OnOk result (map grown_of children.new
        ≡ with_run (offsets_in offsets.old) 0
        (null_rows_of (nth_grown (map grown_of children.old) 0) count) count (map grown_of children.old)) }
    ensures places { OnOk result (offsets_in offsets.new
        ≡ placed_behind (offsets_in offsets.old)
        (length (nth_grown (map grown_of children.old) 0).rows) count) }
    ensures few { OnOk result (AreFew (offsets_in offsets.old)
        (length (nth_grown (map grown_of children.old) 0).rows + count)) }
    ensures well { OnOk result (All IsWell (map grown_of children.new)) }
    ensures kept { AreBoundAs (map grown_of children.old) (map grown_of children.new) }
    ensures mode { mode_by (child_rows_of (offsets_in offsets.new))
        ≡ mode_by (child_rows_of (offsets_in offsets.old)) }
    ensures overflow { result ≡ Err Error.Overflow
        → NullsRefused (offsets_in offsets.old) count (map grown_of children.old) }
    ensures others { IfErr result IsGrowthError }
{
    match offsets {
        None => extend_all_nulls(children, count),
        Some(offsets) => extend_first_nulls(offsets, children, count),
    }
}

// Appends so many null slots to the first child of a dense union.
#[cycle(extend_validity)]
fn extend_first_nulls(
    offsets: &mut Vec<i32>,
    children: &mut [AnyGrowable],
    count: usize,
) -> Result<(), Error>
    requires some { 0 < length children.old }
    requires well { All IsWell (map grown_of children.old) }
    requires few { length (nth_grown (map grown_of children.old) 0).rows ≤ 2 ^ 31 }
    ensures ok { OnOk result (map grown_of children.new
        ≡ with_rows 0 (null_rows_of (nth_grown (map grown_of children.old) 0) count)
        (map grown_of children.old)) }
    ensures places { OnOk result (offsets.new.items
        ≡ offsets.old.items ++ map pos
        (range_with_len (length (nth_grown (map grown_of children.old) 0).rows) count)) }
    ensures few { OnOk result (length (nth_grown (map grown_of children.old) 0).rows + count ≤ 2 ^ 31) }
    ensures well { OnOk result (All IsWell (map grown_of children.new)) }
    ensures kept { AreBoundAs (map grown_of children.old) (map grown_of children.new) }
    ensures overflow { result ≡ Err Error.Overflow
        → (FitsWith (nth_grown (map grown_of children.old) 0)
        (null_rows_of (nth_grown (map grown_of children.old) 0) count) → ⊥)
        ⊎ (2 ^ 31 < length (nth_grown (map grown_of children.old) 0).rows + count) }
    ensures others { IfErr result IsGrowthError }
{
    let place = children[0].len();
    append_places(offsets, place, count)?;
    extend_nulls(&mut children[0], count)
}

// Appends the type id of the first field so often.
fn append_first_id(types: &mut Vec<i8>, data_type: &DataType, count: usize) -> Result<(), Error>
    requires kind { IsCarriedAs physical.Union (type_of data_type.now) }
    requires room { length types.old.items + count < 2 ^ 64 }
    ensures ok { OnOk result (types.new.items
        ≡ types.old.items ++ replicate count (id_at (field_ids (type_of data_type.now)) 0)) }
    ensures err { IsOkUnless result Error.OutOfMemory }
{
    Ok(types.resize(types.len() + count, first_id(data_type))?)
}

// The type id of the first field of a union.
fn first_id(data_type: &DataType) -> i8
    requires { IsCarriedAs physical.Union (type_of data_type.now) }
    ensures { result ≡ id_at (field_ids (type_of data_type.now)) 0 }
{
    match data_type {
        DataType::Union(_, Some(ids), _) => ids[0] as i8,
        DataType::Extension(_, inner, _) => first_id(inner),
        _ => 0,
    }
}

// Appends the offsets of `count` rows of a child, from row `place` on.
fn append_places(offsets: &mut Vec<i32>, place: usize, count: usize) -> Result<(), Error>
    requires { place ≤ 2 ^ 31 }
    ensures ok { OnOk result (offsets.new.items ≡ offsets.old.items ++ map pos (range_with_len place count)) }
    ensures few { OnOk result (place + count ≤ 2 ^ 31) }
    ensures overflow { result ≡ Err Error.Overflow → 2 ^ 31 < place + count }
    ensures others { IfErr result IsGrowthError }
{
    if MOST - place < count {
        return Err(Error::Overflow);
    }
    offsets.reserve(count)?;
    for i in 0..count {
        offsets.push((place + i) as i32)?;
    }
    Ok(())
}
