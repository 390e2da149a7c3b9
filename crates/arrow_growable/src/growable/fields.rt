//! Rows of sparse unions under construction, each field by itself: its own rows, and nulls where a row is of another one.

ghost use Rattle.std.specs.Prelude.{◌≡◌, ◌+◌, ◌<◌, ◌≤◌, ◌++◌, Err, None, All, IfErr, IfOk, IsOkUnless, IsTrue, OnOk, length, map};
ghost use Rattle.arrow_types.specs.declared.error.Error.{Error};
ghost use Rattle.arrow_types.specs.declared.datatypes.physical_type.PhysicalType.TheVariants as physical;
ghost use Rattle.arrow_types.specs.Fits.{Fits};
ghost use Rattle.arrow_types.specs.Rows.{mask};
ghost use Rattle.arrow_types.specs.Slot.{Null, id_at, null_slot};
ghost use Rattle.arrow_types.specs.TypeOf.{type_of};
ghost use Rattle.arrow_memory.specs.Grown.{IsGrowthError};
ghost use Rattle.arrow_memory.specs.Sliced.{sliced};
ghost use Rattle.arrow_flat.specs.Faults.{IsCarriedAs};
ghost use Rattle.arrow_arrays.specs.Layout.{field_ids};
ghost use Rattle.arrow_arrays.specs.TypeParts.{field_types};
ghost use Rattle.arrow_arrays.specs.UnionParts.{union_rows};
ghost use Rattle.arrow_flat_growable.specs.Grown.{FitsWith};
ghost use Rattle.arrow_growable.specs.AnyGrowable.{IsFlat, grown_of};
ghost use Rattle.arrow_growable.specs.Child.{AreBoundAs, BindsRows, GrownBy, IsWell, SameBound, bound_rows};
ghost use Rattle.arrow_growable.specs.Fields.{BindsFields, GrownFields, SomeFieldRefused};
ghost use Rattle.arrow_growable.specs.GrownUnion.{GrowsVariants, HoldsVariants, IsUnionOver, variant_rows};
ghost use Rattle.arrow_growable.specs.Variants.{IsSparse};

use crate::growable::any::AnyGrowable;
use crate::growable::ids::{changes, mask_of_id};
use arrow_arrays::array::UnionArray;
use arrow_memory::bitmap::Mask;
use arrow_types::datatypes::DataType;
use arrow_types::error::Error;
use std::alloc::Global;

/// The fewest rows of which each field is appended by itself.
const SOME: usize = 16;

/// The longest that their runs of one field may be, on average.
const SHORT: usize = 8;

// Whether `len` rows from row `start` on are appended field by field: many short runs of a sparse union, none of whose
// fields has children.
pub(crate) fn go_by_fields(
    children: &[AnyGrowable],
    array: &UnionArray,
    start: usize,
    len: usize,
) -> bool
    requires { start + len ≤ length array.now.types }
    ensures sparse { IsTrue result → IsSparse array.now }
    ensures flat { IsTrue result → All IsFlat children.now }
{
    // The type, the fields and the ids are those of a union.
    let (_, _) = (array.data_type(), array.fields());
    let ids = &array.types().as_slice()[start..start + len];
    array.offsets().is_none() && len >= SOME && changes(ids) > len / SHORT && are_flat(children)
}

// Appends `len` rows of bound array `index` from row `start` on, which is a sparse union, field by field. No child has children.
pub(crate) fn extend_by_fields(
    types: &mut Vec<i8>,
    children: &mut [AnyGrowable],
    array: &UnionArray,
    index: usize,
    start: usize,
    len: usize,
) -> Result<(), Error>
    requires sparse { IsSparse array.now }
    requires part { start + len ≤ length array.now.types }
    requires flat { All IsFlat children.old }
    requires over { IsUnionOver array.now.arrow_type None (map grown_of children.old) }
    requires bound { BindsFields array.now index (map grown_of children.old) }
    requires holds { HoldsVariants array.now.arrow_type types.old.items None (map grown_of children.old) }
    ensures ok { OnOk result (GrowsVariants array.now.arrow_type types.old.items None
        (map grown_of children.old) types.new.items None (map grown_of children.new)
        (sliced (union_rows array.now) start len)) }
    ensures kept { AreBoundAs (map grown_of children.old) (map grown_of children.new) }
    ensures overflow { result ≡ Err Error.Overflow → Fits array.now.arrow_type
        (variant_rows array.now.arrow_type types.old.items None (map grown_of children.old)
        ++ sliced (union_rows array.now) start len) → ⊥ }
    ensures others { IfErr result IsGrowthError }
{
    let alloc = *types.allocator();
    append_ids(types, array, start, len)?;
    extend_fields(alloc, children, array, index, start, len)
}

// Appends the type ids of `count` rows of an array, from row `row` on.
pub(crate) fn append_ids(
    types: &mut Vec<i8>,
    array: &UnionArray,
    row: usize,
    count: usize,
) -> Result<(), Error>
    requires { row + count ≤ length array.now.types }
    ensures ok { OnOk result (types.new.items ≡ types.old.items ++ sliced array.now.types row count) }
    ensures err { IsOkUnless result Error.OutOfMemory }
{
    Ok(types.extend_from_slice(&array.types().as_slice()[row..row + count])?)
}

// Appends to each child what `len` rows of a sparse union have of its field, from row `start` on. No child has children.
fn extend_fields(
    alloc: Global,
    children: &mut [AnyGrowable],
    array: &UnionArray,
    index: usize,
    start: usize,
    len: usize,
) -> Result<(), Error>
    requires sparse { IsSparse array.now }
    requires part { start + len ≤ length array.now.types }
    requires flat { All IsFlat children.old }
    requires bound { BindsFields array.now index (map grown_of children.old) }
    requires well { All IsWell (map grown_of children.old) }
    ensures ok { OnOk result (GrownFields array.now.arrow_type (sliced (union_rows array.now) start len)
        (map grown_of children.old) (map grown_of children.new) (length children.old)) }
    ensures kept { AreBoundAs (map grown_of children.old) (map grown_of children.new) }
    ensures overflow { result ≡ Err Error.Overflow
        → SomeFieldRefused array.now.arrow_type (sliced (union_rows array.now) start len)
        (map grown_of children.old) }
    ensures others { IfErr result IsGrowthError }
{
    // The rows lie in each child, whose rows are those of a `usize`.
    prove!(start <= array.fields()[0].len());
    let ids = &array.types().as_slice()[start..start + len];
    let first = array.start() + start;
    for f in 0..children.len() {
        let own = mask_of_id(alloc, ids, id_of_field(array.data_type(), f))?;
        extend_flat(&mut children[f], index, first, &own)?;
    }
    Ok(())
}

// Appends to a child without children rows of bound array `index` from row `start` on, a row for each bit of a mask: null
// where the bit is not set.
pub(crate) fn extend_flat(
    child: &mut AnyGrowable,
    index: usize,
    start: usize,
    own: &Mask,
) -> Result<(), Error>
    requires flat { IsFlat child.old }
    requires bound { BindsRows (grown_of child.old) index (start + length own.now) }
    requires well { IsWell (grown_of child.old) }
    ensures ok { OnOk result (GrownBy (grown_of child.old) (grown_of child.new)
        (mask own.now (sliced (bound_rows (grown_of child.old) index) start (length own.now)))) }
    ensures kept { SameBound (grown_of child.old) (grown_of child.new) }
    ensures overflow { result ≡ Err Error.Overflow → FitsWith (grown_of child.old)
        (mask own.now (sliced (bound_rows (grown_of child.old) index) start (length own.now))) → ⊥ }
    ensures null { null_slot (grown_of child.old).arrow_type ≡ Null }
    ensures others { IfErr result IsGrowthError }
{
    child.extend_masked(index, start, own)
}

// Whether no child has children, and a null slot of each is null.
fn are_flat(children: &[AnyGrowable]) -> bool
    ensures { IsTrue result → All IsFlat children.now }
{
    for child in children {
        if !child.is_flat() {
            return false;
        }
    }
    true
}

/// The type id of a field of a union, by its number.
///
/// # Requires
/// The data type is a union's, and has this field.
pub fn id_of_field(data_type: &DataType, f: usize) -> i8
    requires kind { IsCarriedAs physical.Union (type_of data_type.now) }
    requires field { f < length (field_types (type_of data_type.now)) }
    ensures { result ≡ id_at (field_ids (type_of data_type.now)) f }
{
    match data_type {
        DataType::Union(_, ids, _) => match ids {
            None => f as i8,
            Some(ids) => ids[f] as i8,
        },
        DataType::Extension(_, inner, _) => id_of_field(inner, f),
        _ => unreachable!(),
    }
}
