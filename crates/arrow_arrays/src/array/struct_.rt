//! Arrays of structs.

ghost use Rattle.std.specs.Prelude.{◌≡◌, ◌+◌, ◌<◌, ◌≤◌, ◌↔◌, [], length, map, count_by, slice_index_or, option_copied, IsTrue, IfOk, IfErr, OnOk, not};
ghost use Rattle.std.specs.List.{All};
ghost use Rattle.std.specs.Cmp.{partial_equiv_from_equiv, on_equiv};
ghost use Rattle.arrow_types.specs.Carried.{IsCarried};
ghost use Rattle.arrow_types.specs.Physical.{physical_type_of};
ghost use Rattle.arrow_types.specs.Relation.{is_null};
ghost use Rattle.arrow_types.specs.SameTree.{same_by, same_by-equivalence};
ghost use Rattle.arrow_types.specs.Rows.{valid_at};
ghost use Rattle.arrow_types.specs.Slot.{Null};
ghost use Rattle.arrow_types.specs.TypeOf.{type_of};
ghost use Rattle.arrow_memory.specs.Sliced.{sliced};
ghost use Rattle.arrow_flat.specs.Parts.{FitsRows, MarksNulls, meaning_code};
ghost use Rattle.arrow_arrays.specs.Any.{layout_of, any_array_type, kind_in, struct_kind};
ghost use Rattle.arrow_arrays.specs.Layout.{rows, type_of_layout};
ghost use Rattle.arrow_arrays.specs.SliceOf.{slice_of};
ghost use Rattle.arrow_arrays.specs.StructParts.{IsStruct, IsStructFault, HoldsStruct, HaveRows, FitsColumns, row_count, row_of, struct_rows, struct_meaning, struct_slice, struct_with_bits};
ghost use Rattle.arrow_arrays.specs.TypeParts.{field_types};

use crate::array::any::clone_all;
use crate::array::{AnyArray, types};
use arrow_flat::array::{is_carried_as, validity};
use arrow_memory::bitmap::Bitmap;
use arrow_types::datatypes::{DataType, PhysicalType};
use arrow_types::error::{Error, SpecPart};
use std::alloc::AllocError;
use std::marker::Model;

/// An array of structs: a row of each child, and a validity of its own ("Struct Layout").
#[cycle(arrays)]
pub struct StructArray {
    data_type: DataType,
    values: Vec<AnyArray>,
    validity: Option<Bitmap>,
}

// by hand, so that a drop is a call, and is not written out wherever a value is dropped
impl Drop for StructArray {
    #[cycle(arrays)]
    fn drop(self) {
        let StructArray {
            data_type: _,
            values: _,
            validity: _,
        } = self;
    }
}

impl Model for StructArray {
    ghost use Rattle.std.specs.Prelude.{map};
    ghost use Rattle.arrow_types.specs.TypeOf.{type_of};
    ghost use Rattle.arrow_arrays.specs.Layout.{depth};
    ghost use Rattle.arrow_arrays.specs.StructParts.{StructParts, struct_parts_code, struct_layout, IsStruct};

    ghost Value = { StructParts };

    ghost coded = { struct_parts_code };

    ghost use Rattle.arrow_arrays.specs.Any.{layout_of};

    ghost view = { λ a. record {
      arrow_type = type_of a.data_type;
      validity = a.validity;
      children = map layout_of a.values.items;
    } };

    ghost invariant = { λ a. IsStruct
        (record {
          arrow_type = type_of a.data_type;
          validity = a.validity;
          children = map layout_of a.values.items;
        }) };

    ghost size = { λ p. depth (struct_layout p) };

    ghost use Rattle.arrow_arrays.specs.Falls.{children_fall};

    ghost size_decreases = { λ a h. children_fall a.values.items };
}

impl StructArray {
    /// The array that [`StructArray::try_new`] makes of parts that are known to be sound: nothing is tested.
    ///
    /// # Requires
    /// The data type is carried and that of a struct, there is an array for each field, of its type, and these and a
    /// validity are of one length.
    pub fn new(data_type: DataType, values: Vec<AnyArray>, validity: Option<Bitmap>) -> StructArray
        requires { HoldsStruct (type_of data_type) (map layout_of values.items) validity }
        ensures { result ≡ record {
          arrow_type = type_of data_type;
          validity = validity;
          children = map layout_of values.items;
        } }
    {
        StructArray {
            data_type,
            values,
            validity,
        }
    }

    /// An array of structs: row `i` is row `i` of each of `values`, null where the validity has a bit
    /// that is not set. It takes no memory.
    ///
    /// # Errors
    /// `OutOfSpec` of the first that fails: `Kind` where the data type is not carried or no struct;
    /// `Child` where the values are not one for each field, of its type; `Length` where they are not of
    /// one length, or the validity is not as long.
    pub fn try_new(
        data_type: DataType,
        values: Vec<AnyArray>,
        validity: Option<Bitmap>,
    ) -> Result<StructArray, Error>
        ensures ok { IfOk result (λ array. array
            ≡ record {
              arrow_type = type_of data_type;
              validity = validity;
              children = map layout_of values.items;
            }) }
        ensures sound { OnOk result
            (IsStruct (record {
              arrow_type = type_of data_type;
              validity = validity;
              children = map layout_of values.items;
            })) }
        ensures fault { IfErr result
            (IsStructFault (type_of data_type) (map layout_of values.items) validity) }
    {
        check_struct(&data_type, &values, &validity)?;
        Ok(StructArray::new(data_type, values, validity))
    }

    /// The data type.
    pub fn data_type(&self) -> &DataType
        ensures same { type_of result.now ≡ self.now.arrow_type }
        ensures carried { IsCarried self.now.arrow_type }
        ensures kind { kind_in (physical_type_of self.now.arrow_type) ≡ struct_kind }
    {
        &self.data_type
    }

    /// The children, one for each field: those of the rows alone, where the array is a slice.
    pub fn values(&self) -> &[AnyArray]
        ensures same { map layout_of result.now ≡ self.now.children }
        ensures fields { map type_of_layout self.now.children ≡ field_types self.now.arrow_type }
        ensures some { 0 < length self.now.children }
        ensures lengths { HaveRows (row_count self.now.children) self.now.children }
    {
        &self.values
    }

    /// How many rows there are.
    #[cycle(len)]
    pub fn len(&self) -> usize
        ensures rows { result ≡ length (struct_rows self.now) }
        ensures columns { result ≡ row_count self.now.children }
    {
        self.values[0].len()
    }

    /// Whether there is no row.
    pub fn is_empty(&self) -> bool
        ensures { IsTrue result ↔ (struct_rows self.now ≡ []) }
    {
        self.len() == 0
    }

    /// The validity: a bit for each row, set where the row is valid. Without it no row is null.
    pub fn validity(&self) -> Option<&Bitmap>
        ensures same { option_copied result ≡ self.now.validity }
        ensures fits { FitsRows self.now.validity (row_count self.now.children) }
        ensures marks { MarksNulls (option_copied result) (struct_rows self.now) }
    {
        self.validity.as_ref()
    }

    /// Whether row `i` is valid: whether it is no null.
    ///
    /// # Requires
    /// `i` is below the count of rows.
    pub fn is_valid(&self, i: usize) -> bool
        requires { i < length (struct_rows self.now) }
        ensures { result ≡ not (is_null (slice_index_or (struct_rows self.now) i Null)) }
    {
        validity::row_is_valid(self.validity(), i)
    }

    /// How many rows are null, counted a word of the validity at a time.
    pub fn null_count(&self) -> usize
        ensures { result ≡ count_by is_null (struct_rows self.now) }
    {
        validity::unset_bits(&self.validity)
    }

    /// Keeps `len` rows from row `offset` on. Nothing is copied.
    ///
    /// # Requires
    /// `offset + len` is at most the count of rows.
    #[cycle(slice)]
    pub fn slice(&mut self, offset: usize, len: usize)
        requires { offset + len ≤ length (struct_rows self.old) }
        ensures part { self.new ≡ struct_slice self.old offset len }
        ensures rows { struct_rows self.new ≡ sliced (struct_rows self.old) offset len }
    {
        slice_all(&mut self.values, offset, len);
        validity::slice(&mut self.validity, offset, len);
    }

    /// The `len` rows from row `offset` on. Nothing is copied.
    ///
    /// # Requires
    /// `offset + len` is at most the count of rows.
    pub fn sliced(self, offset: usize, len: usize) -> StructArray
        requires { offset + len ≤ length (struct_rows self) }
        ensures part { result ≡ struct_slice self offset len }
        ensures rows { struct_rows result ≡ sliced (struct_rows self) offset len }
    {
        let mut part = self;
        part.slice(offset, len);
        part
    }

    /// The same columns under another validity: a row is null where a bit is not set.
    ///
    /// # Requires
    /// A validity has a bit for each row.
    pub fn with_validity(self, validity: Option<Bitmap>) -> StructArray
        requires { FitsRows validity (row_count self.children) }
        ensures { result ≡ struct_with_bits self validity }
    {
        let mut array = self;
        array.validity = validity;
        array
    }

    /// Whether row `i` is valid, by its bit.
    fn has_bit(&self, i: usize) -> bool
        requires { i < row_count self.now.children }
        ensures { result ≡ valid_at self.now.validity i }
    {
        validity::is_valid(&self.validity, i)
    }

    /// Whether row `i` is the same as row `j` of the other.
    #[cycle(equal)]
    fn equal_row(&self, i: usize, other: &StructArray, j: usize) -> bool
        requires one_type { self.now.arrow_type ≡ other.now.arrow_type }
        requires here { i < row_count self.now.children }
        requires there { j < row_count other.now.children }
        ensures { IsTrue result ↔ (slice_index_or (struct_rows self.now) i Null
            ≡ slice_index_or (struct_rows other.now) j Null) }
    {
        match (self.has_bit(i), other.has_bit(j)) {
            (true, true) => equal_parts(&self.values, i, &other.values, j),
            (false, false) => true,
            (true, false) | (false, true) => false,
        }
    }

    /// Whether `len` rows from row `start` on are the same as those of the other from row
    /// `other_start` on.
    #[cycle(equal)]
    pub(crate) fn equal_range(
        &self,
        start: usize,
        other: &StructArray,
        other_start: usize,
        len: usize,
    ) -> bool
        requires one_type { self.now.arrow_type ≡ other.now.arrow_type }
        requires here { start + len ≤ length (struct_rows self.now) }
        requires there { other_start + len ≤ length (struct_rows other.now) }
        ensures { IsTrue result ↔ (sliced (struct_rows self.now) start len
            ≡ sliced (struct_rows other.now) other_start len) }
    {
        // lengths fit a `usize`, and so do the places below
        let (_rows, _other_rows) = (self.len(), other.len());
        for i in 0..len {
            if !self.equal_row(start + i, other, other_start + i) {
                return false;
            }
        }
        true
    }

    /// Whether the rows are the same, of two arrays of one data type.
    fn equal_rows(&self, other: &StructArray) -> bool
        requires { self.now.arrow_type ≡ other.now.arrow_type }
        ensures { IsTrue result ↔ (struct_rows self.now ≡ struct_rows other.now) }
    {
        let len = self.len();
        len == other.len() && self.equal_range(0, other, 0, len)
    }
}

// Tests the parts of a struct in order.
fn check_struct(
    data_type: &DataType,
    values: &[AnyArray],
    validity: &Option<Bitmap>,
) -> Result<(), Error>
    ensures ok { OnOk result (HoldsStruct (type_of data_type.now) (map layout_of values.now) validity.now) }
    ensures fault { IfErr result
        (IsStructFault (type_of data_type.now) (map layout_of values.now) validity.now) }
{
    if !is_carried_as(data_type, PhysicalType::Struct) {
        return Err(Error::OutOfSpec(SpecPart::Kind));
    }
    if !types::have_types(values, types::fields_of(data_type)) {
        return Err(Error::OutOfSpec(SpecPart::Child));
    }
    if !fits_columns(values, validity) {
        return Err(Error::OutOfSpec(SpecPart::Length));
    }
    Ok(())
}

// Whether all arrays are of one length, and a validity, where there is one, has a bit for each row.
fn fits_columns(values: &[AnyArray], validity: &Option<Bitmap>) -> bool
    requires { 0 < length values.now }
    ensures { IsTrue result ↔ FitsColumns (map layout_of values.now) validity.now }
{
    let len = values[0].len();
    have_rows(values, len) && validity::fits_rows(validity, len)
}

// Whether all arrays have this many rows.
pub(crate) fn have_rows(values: &[AnyArray], len: usize) -> bool
    ensures { IsTrue result ↔ HaveRows len (map layout_of values.now) }
{
    for array in values {
        if array.len() != len {
            return false;
        }
    }
    true
}

// Keeps `len` rows of each array, from row `offset` on.
#[cycle(slice)]
fn slice_all(values: &mut [AnyArray], offset: usize, len: usize)
    requires { All (λ l. offset + len ≤ length (rows l)) (map layout_of values.old) }
    ensures { map layout_of values.new ≡ map (λ l. slice_of l offset len) (map layout_of values.old) }
{
    for array in values {
        array.slice(offset, len);
    }
}

// Whether row `i` of each array is the same as row `j` of the other.
#[cycle(equal)]
fn equal_parts(values: &[AnyArray], i: usize, others: &[AnyArray], j: usize) -> bool
    requires one_type { map any_array_type values.now ≡ map any_array_type others.now }
    requires here { All (λ l. i < length (rows l)) (map layout_of values.now) }
    requires there { All (λ l. j < length (rows l)) (map layout_of others.now) }
    ensures { IsTrue result ↔ (row_of i (map layout_of values.now) ≡ row_of j (map layout_of others.now)) }
{
    for (k, array) in values.iter().enumerate() {
        if !array.equal_range(i, &others[k], j, 1) {
            return false;
        }
    }
    true
}

/// A clone shares what is stored and copies none of it. It takes the memory of the names of data types,
/// and of the lists of children.
impl Clone for StructArray {
    ghost is_clone = { λ array copy. copy ≡ array };

    #[cycle(clone)]
    fn clone(&self) -> Result<StructArray, AllocError> {
        Ok(StructArray {
            values: clone_all(&self.values)?,
            validity: self.validity.clone()?,
            data_type: self.data_type.clone()?,
        })
    }
}

/// Two arrays are equal where their data types and their rows are, whatever the layouts beneath.
impl PartialEq for StructArray {
    ghost eq = { λ a b. same_by meaning_code (struct_meaning a) (struct_meaning b) };

    ghost laws = { partial_equiv_from_equiv (on_equiv struct_meaning (same_by-equivalence meaning_code)) };

    fn eq(&self, other: &StructArray) -> bool
        ensures value { result ≡ same_by meaning_code (struct_meaning self.now) (struct_meaning other.now) }
        ensures rows { IsTrue result
            ↔ ((self.now.arrow_type ≡ other.now.arrow_type)
            × (struct_rows self.now ≡ struct_rows other.now)) }
    {
        self.data_type == other.data_type && self.equal_rows(other)
    }
}

impl Eq for StructArray {
    ghost laws = { on_equiv struct_meaning (same_by-equivalence meaning_code) };
}
