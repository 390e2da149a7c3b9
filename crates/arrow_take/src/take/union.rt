//! Unions by index: the type ids, and each field by the indices of its own rows. Where these have no room for the places of
//! a dense union's rows, runs of rows are appended to a growable.

ghost use Rattle.std.specs.Prelude.{◌≡◌, ◌<◌, ◌&&◌, [], ◌∷◌, Err, Some, length, map, option_copied, option_map, slice_index_or, IfErr, IfOk, IsOkUnless};
ghost use Rattle.std.specs.Ordering.{int_eq};
ghost use Rattle.arrow_types.specs.declared.error.Error.{Error};
ghost use Rattle.arrow_types.specs.declared.datatypes.physical_type.PhysicalType.TheVariants as physical;
ghost use Rattle.arrow_types.specs.Rows.{gather, valid_at};
ghost use Rattle.arrow_types.specs.Slot.{id_at};
ghost use Rattle.arrow_types.specs.TypeOf.{type_of};
ghost use Rattle.arrow_memory.specs.Grown.{IsGrowthError};
ghost use Rattle.arrow_flat.specs.Faults.{IsCarriedAs};
ghost use Rattle.arrow_flat.specs.Parts.{FitsRows, rows_by};
ghost use Rattle.arrow_arrays.specs.KeyedParts.{key_in};
ghost use Rattle.arrow_arrays.specs.Layout.{field_ids};
ghost use Rattle.arrow_arrays.specs.TypeParts.{field_types};
ghost use Rattle.arrow_arrays.specs.UnionParts.{union_layout, union_rows};
ghost use Rattle.arrow_flat_growable.specs.Grown.{bound_to};
ghost use Rattle.arrow_take.specs.Taken.{AnswersUnions, AreIndices, valid_index};
ghost use Rattle.arrow_take.specs.SparseUnions.{HasPart, HaveParts, PartDoesNotFit, SomePartDoesNotFit, id_or, taken_id};
ghost use Rattle.arrow_growable.specs.Variants.{have_id};
ghost use Rattle.arrow_take.specs.DenseUnions.{ArePlaces, CanName, HasUnionParts, NamesPart};

use crate::take::append::append_taken;
use crate::take::dense::{can_name, own_places, take_offsets, take_places};
use crate::take::indices::{ByIndex, append_named};
use crate::validity::is_valid;
use arrow_arrays::array::{AnyArray, UnionArray};
use arrow_flat::array::PrimitiveArray;
use arrow_growable::growable::GrowableUnion;
use arrow_growable::growable::fields::id_of_field;
use arrow_memory::bitmap::Bitmap;
use arrow_memory::buffer::Buffer;
use arrow_types::datatypes::DataType;
use arrow_types::error::Error;
use arrow_types::types::Index;
use std::alloc::Global;

/// The rows that the indices name, in their order, and the type's null slot where an index is null, whatever lies beneath
/// it: a row of the first field that is null.
///
/// # Requires
/// Each index that is not null is that of a row.
///
/// # Errors
/// `Overflow` where the rows do not fit the type, `OutOfMemory` where memory is refused.
///
/// Source: of our own.
#[cycle(take)]
pub fn take<I: Index>(
    alloc: Global,
    values: &UnionArray,
    indices: &PrimitiveArray<I>,
) -> Result<UnionArray, Error>
    requires inside { AreIndices (length (union_rows values.now)) (rows_by (map I.slot) indices.now) }
    ensures answer { AnswersUnions result values.now (rows_by (map I.slot) indices.now) }
{
    // The type, the fields and the ids are those of a union, with an id a row.
    let (_, _, _) = (values.data_type(), values.fields(), values.types());
    let _ = values.len();
    let _ = values.offsets();
    if can_name::<I>(values) {
        take_parts(alloc, values, indices)
    } else {
        take_runs(alloc, values, indices)
    }
}

// The same, by a growable over the array.
fn take_runs<I: Index>(
    alloc: Global,
    values: &UnionArray,
    indices: &PrimitiveArray<I>,
) -> Result<UnionArray, Error>
    requires inside { AreIndices (length (union_rows values.now)) (rows_by (map I.slot) indices.now) }
    ensures answer { AnswersUnions result values.now (rows_by (map I.slot) indices.now) }
{
    let bound = vec![in alloc; values]?;
    let growable = GrowableUnion::new(alloc, bound, indices.len())?;
    grown(growable, values, values.len(), indices)
}

// The same, by a growable that has no row yet.
fn grown<'a, I: Index>(
    growable: GrowableUnion<'a>,
    values: &UnionArray,
    len: usize,
    indices: &PrimitiveArray<I>,
) -> Result<UnionArray, Error>
    requires bound { growable ≡ bound_to (union_layout values.now ∷ []) }
    requires len { len ≡ length (union_rows values.now) }
    requires inside { AreIndices len (rows_by (map I.slot) indices.now) }
    ensures answer { AnswersUnions result values.now (rows_by (map I.slot) indices.now) }
{
    let mut growable = growable;
    append_taken(&mut growable, len, indices)?;
    growable.into_array()
}

// The same, by the type ids and what each field has of the rows.
#[cycle(take)]
fn take_parts<I: Index>(
    alloc: Global,
    values: &UnionArray,
    indices: &PrimitiveArray<I>,
) -> Result<UnionArray, Error>
    requires union { HasUnionParts values.now }
    requires named { CanName I.greatest values.now }
    requires inside { AreIndices (length values.now.types) (rows_by (map I.slot) indices.now) }
    ensures answer { AnswersUnions result values.now (rows_by (map I.slot) indices.now) }
{
    // There are at most as many indices as a `usize` counts.
    let _ = indices.len();
    let types = take_types(alloc, values, indices)?;
    let places = take_places(alloc, values, indices)?;
    let offsets = take_offsets(alloc, values, &types)?;
    let fields = take_fields(alloc, values, indices, &types, places.as_ref())?;
    let types = Buffer::from_vec(alloc, types)?;
    let data_type = values.data_type().clone()?;
    Ok(UnionArray::new(data_type, types, fields, offsets))
}

// The type id of each row that the indices name, and that of the first field where an index is null.
fn take_types<I: Index>(
    alloc: Global,
    values: &UnionArray,
    indices: &PrimitiveArray<I>,
) -> Result<Vec<i8>, Error>
    requires union { HasUnionParts values.now }
    requires inside { AreIndices (length values.now.types) (rows_by (map I.slot) indices.now) }
    ensures ok { IfOk result (λ types. types.items
        ≡ map (taken_id values.now) (rows_by (map I.slot) indices.now)) }
    ensures err { IsOkUnless result Error.OutOfMemory }
{
    let types = values.types().as_slice();
    let first = id_of_field(values.data_type(), 0);
    let (stored, validity) = (indices.values().as_slice(), indices.validity());
    let mut taken = Vec::with_capacity(alloc, stored.len())?;
    append_named(&mut taken, &TypeIds { types, first }, stored, validity);
    Ok(taken)
}

/// The type ids of rows, and another one for a null index.
#[derive(Drop)]
struct TypeIds<'a> {
    types: &'a [i8],
    first: i8,
}

impl<'a, I: Index> ByIndex<I> for TypeIds<'a> {
    type Item = i8;

    ghost count = { λ s. length s.types.now };

    ghost named = { λ s index. id_or s.first s.types.now (key_in index) };

    ghost holds = { λ s. Unit {0} };

    fn at(&self, index: I, is_valid: bool) -> i8 {
        if is_valid {
            self.types[index.to_usize()]
        } else {
            self.first
        }
    }
}

// What each field has of the rows that the indices name: these have the ids `types`, and are in a dense union those rows of
// its children.
#[cycle(take)]
fn take_fields<I: Index>(
    alloc: Global,
    values: &UnionArray,
    indices: &PrimitiveArray<I>,
    types: &[i8],
    places: Option<&PrimitiveArray<I>>,
) -> Result<Vec<AnyArray>, Error>
    requires union { HasUnionParts values.now }
    requires inside { AreIndices (length values.now.types) (rows_by (map I.slot) indices.now) }
    requires types { types.now ≡ map (taken_id values.now) (rows_by (map I.slot) indices.now) }
    requires places { ArePlaces values.now (rows_by (map I.slot) indices.now)
        (option_map (rows_by (map I.slot)) (option_copied places)) }
    ensures count { IfOk result (λ fields. length fields.items
        ≡ length (field_types values.now.arrow_type)) }
    ensures parts { IfOk result (λ fields. HaveParts values.now.arrow_type
        (gather (union_rows values.now) (rows_by (map I.slot) indices.now) values.now.arrow_type)
        fields.items) }
    ensures overflow { result ≡ Err Error.Overflow → SomePartDoesNotFit values.now.arrow_type
        (gather (union_rows values.now) (rows_by (map I.slot) indices.now) values.now.arrow_type) }
    ensures others { IfErr result IsGrowthError }
{
    let count = values.fields().len();
    let mut fields = Vec::with_capacity(alloc, count)?;
    for f in 0..count {
        fields.push(take_field(alloc, values, indices, types, places, f)?)?;
    }
    Ok(fields)
}

// What a field has of these rows.
#[cycle(take)]
fn take_field<I: Index>(
    alloc: Global,
    values: &UnionArray,
    indices: &PrimitiveArray<I>,
    types: &[i8],
    places: Option<&PrimitiveArray<I>>,
    f: usize,
) -> Result<AnyArray, Error>
    requires union { HasUnionParts values.now }
    requires inside { AreIndices (length values.now.types) (rows_by (map I.slot) indices.now) }
    requires types { types.now ≡ map (taken_id values.now) (rows_by (map I.slot) indices.now) }
    requires places { ArePlaces values.now (rows_by (map I.slot) indices.now)
        (option_map (rows_by (map I.slot)) (option_copied places)) }
    requires field { f < length values.now.children }
    ensures part { IfOk result (HasPart values.now.arrow_type
        (gather (union_rows values.now) (rows_by (map I.slot) indices.now) values.now.arrow_type) f) }
    ensures overflow { result ≡ Err Error.Overflow → PartDoesNotFit values.now.arrow_type
        (gather (union_rows values.now) (rows_by (map I.slot) indices.now) values.now.arrow_type) f }
    ensures others { IfErr result IsGrowthError }
{
    let (child, own) = part_of_field(alloc, values, indices, types, places, f)?;
    let taken = crate::take::take(alloc, &child.array, &own)?;
    Ok(taken)
}

// Rows of a field: a struct, so that these are let go by a call and not kind by kind.
#[derive(Drop)]
struct Child {
    array: AnyArray,
}

// The rows of a field, and the indices of those that it has of these rows. In a sparse union they lie beside the union's
// own, and the indices are the same, null where the row is of another field.
fn part_of_field<I: Index>(
    alloc: Global,
    values: &UnionArray,
    indices: &PrimitiveArray<I>,
    types: &[i8],
    places: Option<&PrimitiveArray<I>>,
    f: usize,
) -> Result<(Child, PrimitiveArray<I>), Error>
    requires union { HasUnionParts values.now }
    requires inside { AreIndices (length values.now.types) (rows_by (map I.slot) indices.now) }
    requires types { types.now ≡ map (taken_id values.now) (rows_by (map I.slot) indices.now) }
    requires places { ArePlaces values.now (rows_by (map I.slot) indices.now)
        (option_map (rows_by (map I.slot)) (option_copied places)) }
    requires field { f < length values.now.children }
    ensures ok { IfOk result (λ named. NamesPart values.now (rows_by (map I.slot) indices.now) f
        named.0.array (rows_by (map I.slot) named.1)) }
    ensures err { IsOkUnless result Error.OutOfMemory }
{
    let id = id_of_field(values.data_type(), f);
    match places {
        None => {
            let own = own_indices(alloc, values, indices, types, id)?;
            let array = values.fields()[f]
                .clone()?
                .sliced(values.start(), values.len());
            Ok((Child { array }, own))
        }
        Some(places) => {
            let own = own_places(alloc, places, types, id)?;
            let array = values.fields()[f].clone()?;
            Ok((Child { array }, own))
        }
    }
}

// The same indices, null where the row that they name is not of the field with this id. Their rows have the ids `types`.
fn own_indices<I: Index>(
    alloc: Global,
    values: &UnionArray,
    indices: &PrimitiveArray<I>,
    types: &[i8],
    id: i8,
) -> Result<PrimitiveArray<I>, Error>
    requires inside { AreIndices (length values.now.types) (rows_by (map I.slot) indices.now) }
    requires types { types.now ≡ map (taken_id values.now) (rows_by (map I.slot) indices.now) }
    ensures ok { IfOk result (λ own. rows_by (map I.slot) own
        ≡ map (valid_index (Some (have_id id values.now.types))) (rows_by (map I.slot) indices.now)) }
    ensures err { IsOkUnless result Error.OutOfMemory }
{
    let validity = indices.validity();
    let own = Bitmap::collect_bool(alloc, types.len(), |row| is_own(validity, types, id, row))?;
    Ok(indices.clone()?.with_validity(Some(own)))
}

// Whether a row is there and has an id.
fn is_own(validity: Option<&Bitmap>, types: &[i8], id: i8, row: usize) -> bool
    requires fits { FitsRows (option_copied validity) (length types.now) }
    requires within { row < length types.now }
    ensures { result ≡ valid_at (option_copied validity.entry) row && int_eq id (slice_index_or types.now row id) }
{
    is_valid(validity, row) && types[row] == id
}
