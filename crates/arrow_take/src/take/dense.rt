//! What unions by index are made of where they are dense: which row of its field's child each row is, and which it comes to be.

ghost use Rattle.std.specs.Prelude.{◌≡◌, ◌<◌, Err, Some, pos, length, map, option_copied, option_map, slice_index_or, IfErr, IfOk, IfSome, IsOkUnless, IsTrue};
ghost use Rattle.std.specs.List.{All};
ghost use Rattle.std.specs.Ordering.{int_eq};
ghost use Rattle.arrow_types.specs.declared.error.Error.{Error};
ghost use Rattle.arrow_types.specs.declared.datatypes.UnionMode.TheVariants.{Dense};
ghost use Rattle.arrow_types.specs.Carried.{IsTypeId};
ghost use Rattle.arrow_types.specs.Rows.{masked};
ghost use Rattle.arrow_memory.specs.Grown.{IsGrowthError};
ghost use Rattle.arrow_flat.specs.Parts.{FitsRows, rows_by};
ghost use Rattle.arrow_arrays.specs.TypeParts.{mode_in};
ghost use Rattle.arrow_take.specs.Taken.{AreIndices};
ghost use Rattle.arrow_growable.specs.Variants.{have_id};
ghost use Rattle.arrow_take.specs.DenseUnions.{AreFew, HasOffsets, ArePlaces, CanName, HasUnionParts, IsPlace, NamesRows, SomeRankPasses, kept, ranks};

use crate::take::indices::index_at;
use arrow_arrays::array::UnionArray;
use arrow_flat::array::PrimitiveArray;
use arrow_memory::bitmap::{Bitmap, MutableBitmap};
use arrow_memory::buffer::Buffer;
use arrow_types::error::Error;
use arrow_types::types::Index;
use std::alloc::Global;

// How many type ids there are.
const IDS: usize = 128;

// Whether integers of this type name each row of each child of a dense union.
pub(super) fn can_name<I: Index>(values: &UnionArray) -> bool
    ensures { IsTrue result → CanName I.greatest values.now }
{
    if values.offsets().is_none() {
        return true;
    }
    for child in values.fields() {
        if I::from_usize(child.len()).is_none() {
            return false;
        }
    }
    true
}

// Which row of its child each row of a dense union is that the indices name, as such an index, and null where the index is.
pub(super) fn take_places<I: Index>(
    alloc: Global,
    values: &UnionArray,
    indices: &PrimitiveArray<I>,
) -> Result<Option<PrimitiveArray<I>>, Error>
    requires union { HasUnionParts values.now }
    requires named { CanName I.greatest values.now }
    requires inside { AreIndices (length values.now.types) (rows_by (map I.slot) indices.now) }
    ensures ok { IfOk result (λ places. ArePlaces values.now (rows_by (map I.slot) indices.now)
        (option_map (rows_by (map I.slot)) places)) }
    ensures err { IsOkUnless result Error.OutOfMemory }
{
    let Some(_) = values.offsets() else {
        return Ok(None);
    };
    let (stored, validity) = (indices.values().as_slice(), indices.validity());
    let mut places = Vec::with_capacity(alloc, stored.len())?;
    for row in 0..stored.len() {
        places.push_reserved(place_of(values, index_at(stored, validity, row)));
    }
    Ok(Some(with_values(alloc, indices, places)?))
}

// Which row of its child a row is, and 0 where there is none.
fn place_of<I: Index>(values: &UnionArray, row: Option<usize>) -> I
    requires union { HasUnionParts values.now }
    requires named { NamesRows I.greatest values.now.children }
    requires inside { IfSome row (λ n. n < length values.now.types) }
    ensures { IfSome row (λ n. IsPlace values.now (Some n) (I.slot result)) }
{
    match row {
        None => I::default(),
        Some(n) => match I::from_usize(values.index(n).1) {
            Some(place) => place,
            None => unreachable!(),
        },
    }
}

// Other indices, null where these are.
fn with_values<I: Index>(
    alloc: Global,
    indices: &PrimitiveArray<I>,
    values: Vec<I>,
) -> Result<PrimitiveArray<I>, Error>
    requires { length values.items ≡ length indices.now.values }
    ensures ok { IfOk result (λ array. rows_by (map I.slot) array
        ≡ masked indices.now.validity (map I.slot values.items)) }
    ensures err { IsOkUnless result Error.OutOfMemory }
{
    let validity = match indices.validity() {
        None => None,
        Some(bits) => Some(bits.clone()?),
    };
    let data_type = indices.data_type().clone()?;
    Ok(PrimitiveArray::new(data_type, Buffer::from_vec(alloc, values)?, validity))
}

// The offsets of rows of these type ids, each field's one behind the other: none in a sparse union.
pub(super) fn take_offsets(
    alloc: Global,
    values: &UnionArray,
    types: &[i8],
) -> Result<Option<Buffer<i32>>, Error>
    requires ids { All IsTypeId types.now }
    ensures ok { IfOk result (HasOffsets (mode_in values.now.arrow_type) types.now) }
    ensures overflow { result ≡ Err Error.Overflow
        → (mode_in values.now.arrow_type ≡ Dense) × SomeRankPasses types.now }
    ensures others { IfErr result IsGrowthError }
{
    if values.offsets().is_none() {
        return Ok(None);
    }
    Ok(Some(Buffer::from_vec(alloc, rank(alloc, types)?)?))
}

// How many rows before each have its type id.
fn rank(alloc: Global, types: &[i8]) -> Result<Vec<i32>, Error>
    requires ids { All IsTypeId types.now }
    ensures ok { IfOk result (λ offsets. offsets.items ≡ map pos (ranks types.now)) }
    ensures few { IfOk result (λ _. AreFew types.now) }
    ensures overflow { result ≡ Err Error.Overflow → SomeRankPasses types.now }
    ensures others { IfErr result IsGrowthError }
{
    let mut counts = Vec::with_capacity(alloc, IDS)?;
    counts.resize(IDS, 0_usize)?;
    let mut offsets = Vec::with_capacity(alloc, types.len())?;
    for row in 0..types.len() {
        let id = types[row] as usize;
        let count = counts[id];
        let Ok(offset) = i32::try_from(count) else {
            return Err(Error::Overflow);
        };
        offsets.push_reserved(offset);
        counts[id] = count + 1;
    }
    Ok(offsets)
}

// Those of these indices whose rows are of the field with this id. Their rows have the ids `types`.
pub(super) fn own_places<I: Index>(
    alloc: Global,
    places: &PrimitiveArray<I>,
    types: &[i8],
    id: i8,
) -> Result<PrimitiveArray<I>, Error>
    requires lengths { length (rows_by (map I.slot) places.now) ≡ length types.now }
    ensures ok { IfOk result (λ own. rows_by (map I.slot) own
        ≡ kept (have_id id types.now) (rows_by (map I.slot) places.now)) }
    ensures err { IsOkUnless result Error.OutOfMemory }
{
    let validity = keep_validity(alloc, places.validity(), types, id)?;
    let own = keep_values(alloc, places.values().as_slice(), types, id)?;
    let data_type = places.data_type().clone()?;
    Ok(PrimitiveArray::new(data_type, Buffer::from_vec(alloc, own)?, validity))
}

// The values of the rows with this id: each is written, and the next over it where it is of another one, so that no branch
// depends on an id.
fn keep_values<I: Index>(alloc: Global, values: &[I], types: &[i8], id: i8) -> Result<Vec<I>, Error>
    requires lengths { length values.now ≡ length types.now }
    ensures ok { IfOk result (λ own. own.items ≡ kept (have_id id types.now) values.now) }
    ensures err { IsOkUnless result Error.OutOfMemory }
{
    let mut own = Vec::with_capacity(alloc, values.len())?;
    own.resize(values.len(), I::default())?;
    let mut count = 0;
    for row in 0..values.len() {
        own[count] = values[row];
        count += usize::from(has_id(types, row, id));
    }
    own.truncate(count);
    Ok(own)
}

// The bits of the rows with this id, where there are any.
fn keep_validity(
    alloc: Global,
    validity: Option<&Bitmap>,
    types: &[i8],
    id: i8,
) -> Result<Option<Bitmap>, Error>
    requires fits { FitsRows (option_copied validity) (length types.now) }
    ensures ok { IfOk result (λ own. own
        ≡ option_map (kept (have_id id types.now)) (option_copied validity.entry)) }
    ensures err { IsOkUnless result Error.OutOfMemory }
{
    let Some(bits) = validity else {
        return Ok(None);
    };
    let mut own = MutableBitmap::with_capacity(alloc, types.len())?;
    for row in 0..types.len() {
        if has_id(types, row, id) {
            own.push(bits.get_bit(row))?;
        }
    }
    Ok(Some(own.into_bitmap()?))
}

// Whether a row has this id.
fn has_id(types: &[i8], row: usize, id: i8) -> bool
    requires within { row < length types.now }
    ensures { result ≡ int_eq id (slice_index_or types.now row id) }
{
    types[row] == id
}
