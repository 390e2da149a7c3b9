//! Arrays of unions.

ghost use Rattle.std.specs.Prelude.{◌≡◌, ◌+◌, ◌<◌, ◌≤◌, ◌↔◌, [], pos, length, map, count_by, slice_get, slice_index_or, option_copied, option_map, None, Some, IsTrue, IfOk, IfErr, IfSome, OnOk, not};
ghost use Rattle.std.specs.List.{All, zip};
ghost use Rattle.std.specs.Cmp.{partial_equiv_from_equiv, on_equiv};
ghost use Rattle.arrow_types.specs.Carried.{IsCarried};
ghost use Rattle.arrow_types.specs.Physical.{physical_type_of};
ghost use Rattle.arrow_types.specs.Relation.{is_null};
ghost use Rattle.arrow_types.specs.SameTree.{same_by, same_by-equivalence};
ghost use Rattle.arrow_types.specs.Slot.{Null, Variant};
ghost use Rattle.arrow_types.specs.TypeOf.{type_of};
ghost use Rattle.arrow_types.specs.declared.datatypes.physical_type.PhysicalType.TheVariants as physical;
ghost use Rattle.arrow_memory.specs.Sliced.{sliced};
ghost use Rattle.arrow_flat.specs.Faults.{IsCarriedAs};
ghost use Rattle.arrow_flat.specs.Parts.{meaning_code};
ghost use Rattle.arrow_arrays.specs.Any.{layout_of, any_array_type, kind_in, union_kind};
ghost use Rattle.arrow_arrays.specs.Layout.{type_of_layout, field_ids};
ghost use Rattle.arrow_arrays.specs.TypeParts.{field_types, mode_in};
ghost use Rattle.arrow_arrays.specs.UnionParts.{IsUnion, IsUnionFault, HoldsUnion, IsKnown, IsInside, SpansRows, FindsField, FitsMode, FitsOffsets, child_rows_of, child_rows_by, mode_by, row_in, rows_of_field, union_rows, union_meaning, union_slice};

use crate::array::any::clone_all;
use crate::array::struct_::have_rows;
use crate::array::{AnyArray, types};
use arrow_flat::array::is_carried_as;
use arrow_memory::bitmap::Bitmap;
use arrow_memory::buffer::Buffer;
use arrow_types::datatypes::{DataType, PhysicalType, UnionMode};
use arrow_types::error::{Error, SpecPart};
use arrow_types::types::Index;
use std::alloc::AllocError;
use std::marker::Model;

/// An array of unions: a type id for each row, and a child for each field ("Union Layout"). A row lies
/// in the child of its id: in a sparse union the row of the same number, in a dense one where its offset says.
#[cycle(arrays)]
pub struct UnionArray {
    data_type: DataType,
    types: Buffer<i8>,
    fields: Vec<AnyArray>,
    offsets: Option<Buffer<i32>>,
    start: usize,
}

// by hand, so that a drop is a call, and is not written out wherever a value is dropped
impl Drop for UnionArray {
    #[cycle(arrays)]
    fn drop(self) {
        let UnionArray {
            data_type: _,
            types: _,
            fields: _,
            offsets: _,
            start: _,
        } = self;
    }
}

impl Model for UnionArray {
    ghost use Rattle.std.specs.Prelude.{map};
    ghost use Rattle.arrow_types.specs.TypeOf.{type_of};
    ghost use Rattle.arrow_arrays.specs.Layout.{depth};
    ghost use Rattle.arrow_arrays.specs.UnionParts.{UnionParts, union_parts_code, union_layout, child_rows_of, IsUnion};

    ghost Value = { UnionParts };

    ghost coded = { union_parts_code };

    ghost use Rattle.arrow_arrays.specs.Any.{layout_of};

    ghost view = { λ a. record {
      arrow_type = type_of a.data_type;
      types = a.types;
      child_rows = child_rows_of a.offsets;
      start = a.start;
      children = map layout_of a.fields.items;
    } };

    ghost invariant = { λ a. IsUnion a.offsets
        (record {
          arrow_type = type_of a.data_type;
          types = a.types;
          child_rows = child_rows_of a.offsets;
          start = a.start;
          children = map layout_of a.fields.items;
        }) };

    ghost size = { λ p. depth (union_layout p) };

    ghost use Rattle.arrow_arrays.specs.UnionFalls.{variants_fall};

    ghost size_decreases = { λ a h. variants_fall a.fields.items (type_of a.data_type) a.types
        (child_rows_of a.offsets) a.start };
}

impl UnionArray {
    /// The array that [`UnionArray::try_new`] makes of parts that are known to be sound: nothing is tested.
    ///
    /// # Requires
    /// The data type is carried and that of a union, there is an array for each field, of its type, each type id is one of
    /// a field, a dense union has an offset for each row, a row of that field, and the fields of a sparse one are as long
    /// as the types.
    pub fn new(
        data_type: DataType,
        types: Buffer<i8>,
        fields: Vec<AnyArray>,
        offsets: Option<Buffer<i32>>,
    ) -> UnionArray
        requires { HoldsUnion (type_of data_type) types (map layout_of fields.items) offsets }
        ensures { result ≡ record {
          arrow_type = type_of data_type;
          types = types;
          child_rows = child_rows_of offsets;
          start = 0;
          children = map layout_of fields.items;
        } }
    {
        // There are at most as many rows as a `usize` counts.
        let _ = types.len();
        UnionArray {
            data_type,
            types,
            fields,
            offsets,
            start: 0,
        }
    }

    /// An array of unions: row `i` is a row of the field whose type id is `types[i]`, the row of the same number
    /// in a sparse union, and where `offsets[i]` says in a dense one. It takes no memory. The offsets of
    /// a field need not rise, and rows may share a row of a field.
    ///
    /// # Errors
    /// `OutOfSpec` of the first that fails: `Kind` where the data type is not carried or no union;
    /// `Child` where `fields` are not one for each field, of its type; `Length` where the offsets are
    /// there and the union is sparse, or are not as many as the types and it is dense, or a sparse one's
    /// fields are not as long as the types; `Offsets` where a dense offset lies outside the child of a
    /// known id; `TypeId` where an id is none of a field.
    pub fn try_new(
        data_type: DataType,
        types: Buffer<i8>,
        fields: Vec<AnyArray>,
        offsets: Option<Buffer<i32>>,
    ) -> Result<UnionArray, Error>
        ensures ok { IfOk result (λ array. array
            ≡ (record {
              arrow_type = type_of data_type;
              types = types;
              child_rows = child_rows_of offsets;
              start = 0;
              children = map layout_of fields.items;
            })) }
        ensures sound { OnOk result
            (IsUnion offsets (record {
              arrow_type = type_of data_type;
              types = types;
              child_rows = child_rows_of offsets;
              start = 0;
              children = map layout_of fields.items;
            })) }
        ensures fault { IfErr result
            (IsUnionFault (type_of data_type) types (map layout_of fields.items) offsets) }
    {
        // There are at most as many rows as a `usize` counts.
        let _ = types.len();
        check_union(&data_type, &types, &fields, &offsets)?;
        Ok(UnionArray::new(data_type, types, fields, offsets))
    }

    /// The data type.
    pub fn data_type(&self) -> &DataType
        ensures same { type_of result.now ≡ self.now.arrow_type }
        ensures carried { IsCarried self.now.arrow_type }
        ensures kind { kind_in (physical_type_of self.now.arrow_type) ≡ union_kind }
    {
        &self.data_type
    }

    /// The type id of each row.
    pub fn types(&self) -> &Buffer<i8>
        ensures same { result.now ≡ self.now.types }
        ensures known { All (IsKnown (field_ids self.now.arrow_type) (length self.now.children))
            self.now.types }
    {
        &self.types
    }

    /// The children, one for each field, whole, where the array is a slice too.
    pub fn fields(&self) -> &[AnyArray]
        ensures same { map layout_of result.now ≡ self.now.children }
        ensures fields { map type_of_layout self.now.children ≡ field_types self.now.arrow_type }
        ensures some { 0 < length self.now.children }
        ensures spans { SpansRows self.now.child_rows self.now.start (length self.now.types)
            self.now.children }
    {
        &self.fields
    }

    /// Where each row of a dense union lies in its child. A sparse union has none.
    pub fn offsets(&self) -> Option<&Buffer<i32>>
        ensures same { option_copied result ≡ option_map (map pos) self.now.child_rows }
        ensures mode { mode_in self.now.arrow_type ≡ mode_by self.now.child_rows }
    {
        self.offsets.as_ref()
    }

    /// The row of each child that row 0 of a sparse union lies in: more than 0 in a slice. A dense union
    /// has 0.
    pub fn start(&self) -> usize
        ensures { result ≡ self.now.start }
    {
        self.start
    }

    /// Which field row `i` lies in, by its number among the fields, and in which row of it.
    ///
    /// # Requires
    /// `i` is below the count of rows.
    pub fn index(&self, i: usize) -> (usize, usize)
        requires { i < length self.now.types }
        ensures row { slice_index_or (union_rows self.now) i Null
            ≡ Variant (slice_index_or self.now.types i (pos 0))
            (row_in self.now.children result.0 result.1) }
        ensures child_row { slice_get
            (child_rows_by self.now.child_rows self.now.start (length self.now.types)) i ≡ Some result.1 }
        ensures field { FindsField (field_ids self.now.arrow_type) (length self.now.children)
            (slice_index_or self.now.types i (pos 0)) (Some result.0) }
        ensures within { result.1 < length (rows_of_field self.now.children result.0) }
    {
        // Its reading opens the parts, so that each row lies in a field.
        let _ = &self.data_type;
        (self.field_of(i), self.child_row_of(i))
    }

    /// The field that row `i` lies in: the first that has its type id.
    fn field_of(&self, i: usize) -> usize
        requires { i < length self.now.types }
        ensures { FindsField (field_ids self.now.arrow_type) (length self.now.children)
            (slice_index_or self.now.types i (pos 0)) (Some result) }
    {
        let Some(field) = types::field_of_id(&self.data_type, self.types.as_slice()[i]) else {
            unreachable!();
        };
        field
    }

    /// The row of its child that row `i` lies in.
    fn child_row_of(&self, i: usize) -> usize
        requires { i < length self.now.types }
        ensures { slice_get (child_rows_by self.now.child_rows self.now.start (length self.now.types)) i
            ≡ Some result }
    {
        match &self.offsets {
            None => self.start + i,
            Some(offsets) => offsets.as_slice()[i].to_usize(),
        }
    }

    /// How many rows there are.
    pub fn len(&self) -> usize
        ensures rows { result ≡ length (union_rows self.now) }
        ensures types { result ≡ length self.now.types }
    {
        self.types.len()
    }

    /// Whether there is no row.
    pub fn is_empty(&self) -> bool
        ensures { IsTrue result ↔ (union_rows self.now ≡ []) }
    {
        self.len() == 0
    }

    /// No bitmap: a union has none.
    pub fn validity(&self) -> Option<&Bitmap>
        ensures { result ≡ None }
    {
        None
    }

    /// Whether row `_i` is valid: each is. A row of a field that is null is a row of the union that is not.
    ///
    /// # Requires
    /// `_i` is below the count of rows.
    pub fn is_valid(&self, _i: usize) -> bool
        requires { _i < length (union_rows self.now) }
        ensures { result ≡ not (is_null (slice_index_or (union_rows self.now) _i Null)) }
    {
        self.validity().is_none()
    }

    /// How many rows are null: none. A row of a field that is null is a row of the union that is not.
    pub fn null_count(&self) -> usize
        ensures { result ≡ count_by is_null (union_rows self.now) }
    {
        0
    }

    /// Keeps `len` rows from row `offset` on. Nothing is copied; the children stay whole.
    ///
    /// # Requires
    /// `offset + len` is at most the count of rows.
    pub fn slice(&mut self, offset: usize, len: usize)
        requires { offset + len ≤ length (union_rows self.old) }
        ensures part { self.new ≡ union_slice self.old offset len }
        ensures rows { union_rows self.new ≡ sliced (union_rows self.old) offset len }
    {
        self.types.slice(offset, len);
        match &mut self.offsets {
            None => self.start += offset,
            Some(offsets) => offsets.slice(offset, len),
        }
    }

    /// The `len` rows from row `offset` on. Nothing is copied.
    ///
    /// # Requires
    /// `offset + len` is at most the count of rows.
    pub fn sliced(self, offset: usize, len: usize) -> UnionArray
        requires { offset + len ≤ length (union_rows self) }
        ensures part { result ≡ union_slice self offset len }
        ensures rows { union_rows result ≡ sliced (union_rows self) offset len }
    {
        let mut part = self;
        part.slice(offset, len);
        part
    }

    /// Whether row `i` is the same as row `j` of the other.
    #[cycle(equal)]
    fn equal_row(&self, i: usize, other: &UnionArray, j: usize) -> bool
        requires one_type { self.now.arrow_type ≡ other.now.arrow_type }
        requires here { i < length self.now.types }
        requires there { j < length other.now.types }
        ensures { IsTrue result ↔ (slice_index_or (union_rows self.now) i Null
            ≡ slice_index_or (union_rows other.now) j Null) }
    {
        let (field, row) = self.index(i);
        let (other_field, other_row) = other.index(j);
        field == other_field
            && self.fields[field].equal_range(row, &other.fields[field], other_row, 1)
    }

    /// Whether `len` rows from row `start` on are the same as those of the other from row
    /// `other_start` on.
    #[cycle(equal)]
    pub(crate) fn equal_range(
        &self,
        start: usize,
        other: &UnionArray,
        other_start: usize,
        len: usize,
    ) -> bool
        requires one_type { self.now.arrow_type ≡ other.now.arrow_type }
        requires here { start + len ≤ length (union_rows self.now) }
        requires there { other_start + len ≤ length (union_rows other.now) }
        ensures { IsTrue result ↔ (sliced (union_rows self.now) start len
            ≡ sliced (union_rows other.now) other_start len) }
    {
        // lengths fit a `usize`, and so do the child_rows below
        let (_rows, _other_rows) = (self.len(), other.len());
        for i in 0..len {
            if !self.equal_row(start + i, other, other_start + i) {
                return false;
            }
        }
        true
    }

    /// Whether the rows are the same, of two arrays of one data type.
    fn equal_rows(&self, other: &UnionArray) -> bool
        requires { self.now.arrow_type ≡ other.now.arrow_type }
        ensures { IsTrue result ↔ (union_rows self.now ≡ union_rows other.now) }
    {
        let len = self.len();
        len == other.len() && self.equal_range(0, other, 0, len)
    }
}

// Tests the parts of a union in order.
fn check_union(
    data_type: &DataType,
    types: &Buffer<i8>,
    fields: &[AnyArray],
    offsets: &Option<Buffer<i32>>,
) -> Result<(), Error>
    ensures ok { OnOk result (HoldsUnion (type_of data_type.now) types.now (map layout_of fields.now)
        offsets.now) }
    ensures fault { IfErr result
        (IsUnionFault (type_of data_type.now) types.now (map layout_of fields.now) offsets.now) }
{
    if !is_carried_as(data_type, PhysicalType::Union) {
        return Err(Error::OutOfSpec(SpecPart::Kind));
    }
    if !types::have_types(fields, types::fields_of(data_type)) {
        return Err(Error::OutOfSpec(SpecPart::Child));
    }
    if !fits_mode(types::mode(data_type), types, fields, offsets) {
        return Err(Error::OutOfSpec(SpecPart::Length));
    }
    if !fits_offsets(data_type, types, fields, offsets) {
        return Err(Error::OutOfSpec(SpecPart::Offsets));
    }
    if !are_known(data_type, types) {
        return Err(Error::OutOfSpec(SpecPart::TypeId));
    }
    Ok(())
}

// Whether there are offsets where the union is dense, as many as the types, and the children of a
// sparse union are as long as the types.
fn fits_mode(
    mode: UnionMode,
    types: &Buffer<i8>,
    fields: &[AnyArray],
    offsets: &Option<Buffer<i32>>,
) -> bool
    ensures { IsTrue result ↔ FitsMode mode types.now offsets.now (map layout_of fields.now) }
{
    match (mode, offsets) {
        (UnionMode::Sparse, None) => have_rows(fields, types.len()),
        (UnionMode::Dense, Some(offsets)) => offsets.len() == types.len(),
        (UnionMode::Sparse, Some(_)) | (UnionMode::Dense, None) => false,
    }
}

// Whether each offset of a dense union lies inside the child of its type id, where that is known.
fn fits_offsets(
    data_type: &DataType,
    types: &Buffer<i8>,
    fields: &[AnyArray],
    offsets: &Option<Buffer<i32>>,
) -> bool
    requires kind { IsCarriedAs physical.Union (type_of data_type.now) }
    requires children { map any_array_type fields.now ≡ field_types (type_of data_type.now) }
    requires counts { IfSome offsets.now (λ zs. length zs ≡ length types.now) }
    ensures { IsTrue result ↔ FitsOffsets (field_ids (type_of data_type.now)) (map layout_of fields.now)
        types.now offsets.now }
{
    match offsets {
        None => true,
        Some(offsets) => are_inside(data_type, types, fields, offsets),
    }
}

// Whether each of as many offsets as type ids lies inside the child of its type id, where that is
// known.
fn are_inside(
    data_type: &DataType,
    types: &Buffer<i8>,
    fields: &[AnyArray],
    offsets: &Buffer<i32>,
) -> bool
    requires kind { IsCarriedAs physical.Union (type_of data_type.now) }
    requires children { map any_array_type fields.now ≡ field_types (type_of data_type.now) }
    requires count { length offsets.now ≡ length types.now }
    ensures { IsTrue result ↔ All
        (λ row. IsInside (field_ids (type_of data_type.now)) (map layout_of fields.now) row.0 row.1)
        (zip types.now offsets.now) }
{
    let (ids, child_rows) = (types.as_slice(), offsets.as_slice());
    for i in 0..ids.len() {
        if !is_inside(data_type, ids[i], fields, child_rows[i]) {
            return false;
        }
    }
    true
}

// Whether an offset lies inside the child of a type id, where that is known.
fn is_inside(data_type: &DataType, id: i8, fields: &[AnyArray], offset: i32) -> bool
    requires kind { IsCarriedAs physical.Union (type_of data_type.now) }
    requires children { map any_array_type fields.now ≡ field_types (type_of data_type.now) }
    ensures { IsTrue result ↔ IsInside (field_ids (type_of data_type.now)) (map layout_of fields.now) id
        offset }
{
    match types::field_of_id(data_type, id) {
        None => true,
        Some(field) => offset.in_range(fields[field].len()),
    }
}

// Whether each type id is one of a field.
fn are_known(data_type: &DataType, types: &Buffer<i8>) -> bool
    requires { IsCarriedAs physical.Union (type_of data_type.now) }
    ensures { IsTrue result ↔ All
        (IsKnown (field_ids (type_of data_type.now)) (length (field_types (type_of data_type.now))))
        types.now }
{
    for id in types.as_slice() {
        if !is_known(data_type, *id) {
            return false;
        }
    }
    true
}

// Whether a type id is one of a field.
fn is_known(data_type: &DataType, id: i8) -> bool
    requires { IsCarriedAs physical.Union (type_of data_type.now) }
    ensures { IsTrue result ↔ IsKnown (field_ids (type_of data_type.now))
        (length (field_types (type_of data_type.now))) id }
{
    match types::field_of_id(data_type, id) {
        None => false,
        Some(_) => true,
    }
}

/// A clone shares what is stored and copies none of it. It takes the memory of the names of data types,
/// and of the lists of children.
impl Clone for UnionArray {
    ghost is_clone = { λ array copy. copy ≡ array };

    #[cycle(clone)]
    fn clone(&self) -> Result<UnionArray, AllocError> {
        Ok(UnionArray {
            types: self.types.clone()?,
            fields: clone_all(&self.fields)?,
            offsets: clone_offsets(&self.offsets)?,
            start: self.start,
            data_type: self.data_type.clone()?,
        })
    }
}

// Shares the offsets, where there are some.
fn clone_offsets(offsets: &Option<Buffer<i32>>) -> Result<Option<Buffer<i32>>, AllocError>
    ensures { IfOk result (λ copy. copy ≡ offsets.now) }
{
    match offsets {
        None => Ok(None),
        Some(offsets) => Ok(Some(offsets.clone()?)),
    }
}

/// Two arrays are equal where their data types and their rows are, whatever the layouts beneath.
impl PartialEq for UnionArray {
    ghost eq = { λ a b. same_by meaning_code (union_meaning a) (union_meaning b) };

    ghost laws = { partial_equiv_from_equiv (on_equiv union_meaning (same_by-equivalence meaning_code)) };

    fn eq(&self, other: &UnionArray) -> bool
        ensures value { result ≡ same_by meaning_code (union_meaning self.now) (union_meaning other.now) }
        ensures rows { IsTrue result
            ↔ ((self.now.arrow_type ≡ other.now.arrow_type)
            × (union_rows self.now ≡ union_rows other.now)) }
    {
        self.data_type == other.data_type && self.equal_rows(other)
    }
}

impl Eq for UnionArray {
    ghost laws = { on_equiv union_meaning (same_by-equivalence meaning_code) };
}
