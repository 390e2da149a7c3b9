//! Arrays of lists of a fixed size.

ghost use Rattle.std.specs.Prelude.{◌≡◌, ◌+◌, ◌*◌, ◌/◌, ◌<◌, ◌≤◌, ◌↔◌, [], length, count_by, slice_index_or, option_copied, IsTrue, IfOk, IfErr, IfSome, OnOk, not};
ghost use Rattle.std.specs.Cmp.{partial_equiv_from_equiv, on_equiv};
ghost use Rattle.arrow_types.specs.Carried.{IsCarried};
ghost use Rattle.arrow_types.specs.Physical.{physical_type_of};
ghost use Rattle.arrow_types.specs.Relation.{is_null};
ghost use Rattle.arrow_types.specs.SameTree.{same_by, same_by-equivalence};
ghost use Rattle.arrow_types.specs.Slot.{Null};
ghost use Rattle.arrow_types.specs.TypeOf.{type_of};
ghost use Rattle.arrow_memory.specs.Sliced.{sliced};
ghost use Rattle.arrow_flat.specs.Parts.{FitsRows, MarksNulls, meaning_code};
ghost use Rattle.arrow_arrays.specs.Any.{layout_of, kind_in, fixed_size_list_kind};
ghost use Rattle.arrow_arrays.specs.FixedListParts.{IsFixedList, IsFixedListFault, HoldsFixedList, FitsItems, fixed_list_rows, fixed_list_meaning, fixed_list_slice, fixed_list_with_bits};
ghost use Rattle.arrow_arrays.specs.Layout.{rows, type_of_layout};
ghost use Rattle.arrow_arrays.specs.Spans.{span_row};
ghost use Rattle.arrow_arrays.specs.TypeParts.{item_type, list_size};

use crate::array::any::{clone_boxed, equal_spans};
use crate::array::{AnyArray, types};
use arrow_flat::array::{is_carried_as, validity};
use arrow_memory::bitmap::Bitmap;
use arrow_types::datatypes::{DataType, PhysicalType};
use arrow_types::error::{Error, SpecPart};
use std::alloc::AllocError;
use std::marker::Model;

/// An array of lists of so many items each ("Fixed-Size List Layout").
#[cycle(arrays)]
pub struct FixedSizeListArray {
    data_type: DataType,
    size: usize,
    values: Box<AnyArray>,
    validity: Option<Bitmap>,
}

// by hand, so that a drop is a call, and is not written out wherever a value is dropped
impl Drop for FixedSizeListArray {
    #[cycle(arrays)]
    fn drop(self) {
        let FixedSizeListArray {
            data_type: _,
            size: _,
            values: _,
            validity: _,
        } = self;
    }
}

impl Model for FixedSizeListArray {
    ghost use Rattle.arrow_types.specs.TypeOf.{type_of};
    ghost use Rattle.arrow_arrays.specs.Layout.{depth};
    ghost use Rattle.arrow_arrays.specs.FixedListParts.{FixedListParts, fixed_list_parts_code, fixed_list_layout, IsFixedList};

    ghost Value = { FixedListParts };

    ghost coded = { fixed_list_parts_code };

    ghost use Rattle.arrow_arrays.specs.Any.{layout_of};

    ghost view = { λ a. record {
      arrow_type = type_of a.data_type;
      validity = a.validity;
      size = a.size;
      child = layout_of a.values.value;
    } };

    ghost invariant = { λ a. IsFixedList
        (record {
          arrow_type = type_of a.data_type;
          validity = a.validity;
          size = a.size;
          child = layout_of a.values.value;
        }) };

    ghost size = { λ p. depth (fixed_list_layout p) };

    ghost use Rattle.arrow_arrays.specs.Falls.{child_falls};

    ghost size_decreases = { λ a h. child_falls a.values.value };
}

impl FixedSizeListArray {
    /// The array that [`FixedSizeListArray::try_new`] makes of parts that are known to be sound: nothing is tested.
    ///
    /// # Requires
    /// The data type is carried and that of a fixed-size list, the values have the type of its items and are rows without
    /// rest, and a validity is as long as the rows.
    pub fn new(
        data_type: DataType,
        values: Box<AnyArray>,
        validity: Option<Bitmap>,
    ) -> FixedSizeListArray
        requires { HoldsFixedList (type_of data_type) (layout_of values.value) validity }
        ensures { result ≡ record {
          arrow_type = type_of data_type;
          validity = validity;
          size = list_size (type_of data_type);
          child = layout_of values.value;
        } }
    {
        FixedSizeListArray {
            size: types::list_size(&data_type),
            data_type,
            values,
            validity,
        }
    }

    /// An array of lists of a fixed size, that of the data type: row `i` is the items of `values` from
    /// `i * size` to `(i + 1) * size`, null where the validity has a bit that is not set. It takes no
    /// memory.
    ///
    /// # Errors
    /// `OutOfSpec` of the first that fails: `Kind` where the data type is not carried or no fixed-size
    /// list; `Child` where the values have another type than its items; `Length` where the values are
    /// not rows without rest, or the validity is not as long as the rows.
    pub fn try_new(
        data_type: DataType,
        values: Box<AnyArray>,
        validity: Option<Bitmap>,
    ) -> Result<FixedSizeListArray, Error>
        ensures ok { IfOk result (λ array. array
            ≡ record {
              arrow_type = type_of data_type;
              validity = validity;
              size = list_size (type_of data_type);
              child = layout_of values.value;
            }) }
        ensures sound { OnOk result
            (IsFixedList (record {
              arrow_type = type_of data_type;
              validity = validity;
              size = list_size (type_of data_type);
              child = layout_of values.value;
            })) }
        ensures fault { IfErr result
            (IsFixedListFault (type_of data_type) (layout_of values.value) validity) }
    {
        check_fixed(&data_type, &values, &validity)?;
        Ok(FixedSizeListArray::new(data_type, values, validity))
    }

    /// The data type.
    pub fn data_type(&self) -> &DataType
        ensures same { type_of result.now ≡ self.now.arrow_type }
        ensures carried { IsCarried self.now.arrow_type }
        ensures kind { kind_in (physical_type_of self.now.arrow_type) ≡ fixed_size_list_kind }
    {
        &self.data_type
    }

    /// The child that holds the items: those of the rows alone, where the array is a slice.
    pub fn values(&self) -> &AnyArray
        ensures same { layout_of result.now ≡ self.now.child }
        ensures items { type_of_layout self.now.child ≡ item_type self.now.arrow_type }
        ensures whole { length (fixed_list_rows self.now) * self.now.size ≡ length (rows self.now.child) }
    {
        &self.values
    }

    /// How many items a row has.
    pub fn size(&self) -> usize
        ensures same { result ≡ self.now.size }
        ensures in_type { self.now.size ≡ list_size self.now.arrow_type }
        ensures some { 0 < self.now.size }
    {
        self.size
    }

    /// How many rows there are.
    #[cycle(len)]
    pub fn len(&self) -> usize
        ensures rows { result ≡ length (fixed_list_rows self.now) }
        ensures items { result * self.now.size ≡ length (rows self.now.child) }
    {
        self.values.len() / self.size
    }

    /// Whether there is no row.
    pub fn is_empty(&self) -> bool
        ensures { IsTrue result ↔ (fixed_list_rows self.now ≡ []) }
    {
        self.len() == 0
    }

    /// The validity: a bit for each row, set where the row is valid. Without it no row is null.
    pub fn validity(&self) -> Option<&Bitmap>
        ensures same { option_copied result ≡ self.now.validity }
        ensures fits { FitsRows self.now.validity (length (rows self.now.child) / self.now.size) }
        ensures marks { MarksNulls (option_copied result) (fixed_list_rows self.now) }
    {
        self.validity.as_ref()
    }

    /// Whether row `i` is valid: whether it is no null.
    ///
    /// # Requires
    /// `i` is below the count of rows.
    pub fn is_valid(&self, i: usize) -> bool
        requires { i < length (fixed_list_rows self.now) }
        ensures { result ≡ not (is_null (slice_index_or (fixed_list_rows self.now) i Null)) }
    {
        validity::row_is_valid(self.validity(), i)
    }

    /// How many rows are null, counted a word of the validity at a time.
    pub fn null_count(&self) -> usize
        ensures { result ≡ count_by is_null (fixed_list_rows self.now) }
    {
        validity::unset_bits(&self.validity)
    }

    /// Keeps `len` rows from row `offset` on. Nothing is copied.
    ///
    /// # Requires
    /// `offset + len` is at most the count of rows.
    #[cycle(slice)]
    pub fn slice(&mut self, offset: usize, len: usize)
        requires { offset + len ≤ length (fixed_list_rows self.old) }
        ensures part { self.new ≡ fixed_list_slice self.old offset len }
        ensures rows { fixed_list_rows self.new ≡ sliced (fixed_list_rows self.old) offset len }
    {
        self.values.slice(offset * self.size, len * self.size);
        validity::slice(&mut self.validity, offset, len);
    }

    /// The `len` rows from row `offset` on. Nothing is copied.
    ///
    /// # Requires
    /// `offset + len` is at most the count of rows.
    pub fn sliced(self, offset: usize, len: usize) -> FixedSizeListArray
        requires { offset + len ≤ length (fixed_list_rows self) }
        ensures part { result ≡ fixed_list_slice self offset len }
        ensures rows { fixed_list_rows result ≡ sliced (fixed_list_rows self) offset len }
    {
        let mut part = self;
        part.slice(offset, len);
        part
    }

    /// The same items under another validity: a row is null where a bit is not set.
    ///
    /// # Requires
    /// A validity has a bit for each row.
    pub fn with_validity(self, validity: Option<Bitmap>) -> FixedSizeListArray
        requires { FitsRows validity (length (rows self.child) / self.size) }
        ensures { result ≡ fixed_list_with_bits self validity }
    {
        let mut array = self;
        array.validity = validity;
        array
    }

    /// Where the items of row `i` begin and how many there are, if it is not null.
    fn span(&self, i: usize) -> Option<(usize, usize)>
        requires { i < length (fixed_list_rows self.now) }
        ensures row { slice_index_or (fixed_list_rows self.now) i Null
            ≡ span_row (rows self.now.child) result }
        ensures within { IfSome result (λ span. span.0 + span.1 ≤ length (rows self.now.child)) }
    {
        if !validity::is_valid(&self.validity, i) {
            return None;
        }
        Some((i * self.size, self.size))
    }

    /// Whether row `i` is the same as row `j` of the other.
    #[cycle(equal)]
    fn equal_row(&self, i: usize, other: &FixedSizeListArray, j: usize) -> bool
        requires one_type { self.now.arrow_type ≡ other.now.arrow_type }
        requires here { i < length (fixed_list_rows self.now) }
        requires there { j < length (fixed_list_rows other.now) }
        ensures { IsTrue result ↔ (slice_index_or (fixed_list_rows self.now) i Null
            ≡ slice_index_or (fixed_list_rows other.now) j Null) }
    {
        equal_spans(self.span(i), &self.values, other.span(j), &other.values)
    }

    /// Whether `len` rows from row `start` on are the same as those of the other from row
    /// `other_start` on.
    #[cycle(equal)]
    pub(crate) fn equal_range(
        &self,
        start: usize,
        other: &FixedSizeListArray,
        other_start: usize,
        len: usize,
    ) -> bool
        requires one_type { self.now.arrow_type ≡ other.now.arrow_type }
        requires here { start + len ≤ length (fixed_list_rows self.now) }
        requires there { other_start + len ≤ length (fixed_list_rows other.now) }
        ensures { IsTrue result ↔ (sliced (fixed_list_rows self.now) start len
            ≡ sliced (fixed_list_rows other.now) other_start len) }
    {
        // lengths fit a `usize`, and so do the places below
        let (_rows, _other_rows) = (self.len(), other.len());
        for i in 0..len {
            if !self.equal_row(start + i, other, other_start + i) {
                return false;
            }
        }
        true
    }

    /// Whether the rows are the same, of two arrays of one data type.
    fn equal_rows(&self, other: &FixedSizeListArray) -> bool
        requires { self.now.arrow_type ≡ other.now.arrow_type }
        ensures { IsTrue result ↔ (fixed_list_rows self.now ≡ fixed_list_rows other.now) }
    {
        let len = self.len();
        len == other.len() && self.equal_range(0, other, 0, len)
    }
}

// Tests the parts of a fixed-size list in order.
fn check_fixed(
    data_type: &DataType,
    values: &AnyArray,
    validity: &Option<Bitmap>,
) -> Result<(), Error>
    ensures ok { OnOk result (HoldsFixedList (type_of data_type.now) (layout_of values.now) validity.now) }
    ensures fault { IfErr result
        (IsFixedListFault (type_of data_type.now) (layout_of values.now) validity.now) }
{
    if !is_carried_as(data_type, PhysicalType::FixedSizeList) {
        return Err(Error::OutOfSpec(SpecPart::Kind));
    }
    if values.data_type() != types::item_type(data_type) {
        return Err(Error::OutOfSpec(SpecPart::Child));
    }
    if !fits_items(values.len(), types::list_size(data_type), validity) {
        return Err(Error::OutOfSpec(SpecPart::Length));
    }
    Ok(())
}

// Whether so many items are rows of a size without rest, and a validity, where there is one, has a bit
// for each row.
fn fits_items(len: usize, size: usize, validity: &Option<Bitmap>) -> bool
    requires { 0 < size }
    ensures { IsTrue result ↔ FitsItems size len validity.now }
{
    len % size == 0 && validity::fits_rows(validity, len / size)
}

/// A clone shares what is stored and copies none of it. It takes the memory of the names of data types,
/// and of the boxes of children.
impl Clone for FixedSizeListArray {
    ghost is_clone = { λ array copy. copy ≡ array };

    #[cycle(clone)]
    fn clone(&self) -> Result<FixedSizeListArray, AllocError> {
        Ok(FixedSizeListArray {
            size: self.size,
            values: clone_boxed(&self.values)?,
            validity: self.validity.clone()?,
            data_type: self.data_type.clone()?,
        })
    }
}

/// Two arrays are equal where their data types and their rows are, whatever the layouts beneath.
impl PartialEq for FixedSizeListArray {
    ghost eq = { λ a b. same_by meaning_code (fixed_list_meaning a) (fixed_list_meaning b) };

    ghost laws = { partial_equiv_from_equiv
        (on_equiv fixed_list_meaning (same_by-equivalence meaning_code)) };

    fn eq(&self, other: &FixedSizeListArray) -> bool
        ensures value { result ≡ same_by meaning_code (fixed_list_meaning self.now)
            (fixed_list_meaning other.now) }
        ensures rows { IsTrue result
            ↔ ((self.now.arrow_type ≡ other.now.arrow_type)
            × (fixed_list_rows self.now ≡ fixed_list_rows other.now)) }
    {
        self.data_type == other.data_type && self.equal_rows(other)
    }
}

impl Eq for FixedSizeListArray {
    ghost laws = { on_equiv fixed_list_meaning (same_by-equivalence meaning_code) };
}
