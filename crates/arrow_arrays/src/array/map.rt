//! Arrays of maps.

ghost use Rattle.std.specs.Prelude.{◌≡◌, ◌+◌, ◌-◌, ◌<◌, ◌≤◌, ◌↔◌, [], length, count_by, slice_index_or, option_copied, IsTrue, IfOk, IfErr, IfSome, OnOk, not};
ghost use Rattle.std.specs.Cmp.{partial_equiv_from_equiv, on_equiv};
ghost use Rattle.arrow_types.specs.Carried.{IsCarried};
ghost use Rattle.arrow_types.specs.Physical.{physical_type_of};
ghost use Rattle.arrow_types.specs.Relation.{is_null};
ghost use Rattle.arrow_types.specs.SameTree.{same_by, same_by-equivalence};
ghost use Rattle.arrow_types.specs.Slot.{Null};
ghost use Rattle.arrow_types.specs.TypeOf.{type_of};
ghost use Rattle.arrow_types.specs.declared.datatypes.physical_type.PhysicalType.TheVariants as physical;
ghost use Rattle.arrow_memory.specs.Offsets.{IsOffsets, last_of};
ghost use Rattle.arrow_memory.specs.Sliced.{sliced};
ghost use Rattle.arrow_flat.specs.Parts.{FitsRows, MarksNulls, meaning_code};
ghost use Rattle.arrow_arrays.specs.Any.{layout_of, kind_in, map_kind};
ghost use Rattle.arrow_arrays.specs.Layout.{rows, type_of_layout};
ghost use Rattle.arrow_arrays.specs.ListParts.{HoldsList, IsList, IsListFault, list_rows, list_meaning, list_slice, list_with_bits};
ghost use Rattle.arrow_arrays.specs.Spans.{span_row};
ghost use Rattle.arrow_arrays.specs.TypeParts.{item_type};

use crate::array::AnyArray;
use crate::array::any::{clone_boxed, equal_spans};
use crate::array::list::check_list;
use arrow_flat::array::validity;
use arrow_memory::bitmap::Bitmap;
use arrow_memory::offset::OffsetsBuffer;
use arrow_types::datatypes::{DataType, PhysicalType};
use arrow_types::error::Error;
use arrow_types::types::Index;
use std::alloc::AllocError;
use std::marker::Model;

/// An array of maps: lists of entries, each a struct of a key and a value ("Map Layout").
#[cycle(arrays)]
pub struct MapArray {
    data_type: DataType,
    offsets: OffsetsBuffer<i32>,
    field: Box<AnyArray>,
    validity: Option<Bitmap>,
}

// by hand, so that a drop is a call, and is not written out wherever a value is dropped
impl Drop for MapArray {
    #[cycle(arrays)]
    fn drop(self) {
        let MapArray {
            data_type: _,
            offsets: _,
            field: _,
            validity: _,
        } = self;
    }
}

impl Model for MapArray {
    ghost use Rattle.arrow_types.specs.declared.datatypes.physical_type.PhysicalType.TheVariants as physical;
    ghost use Rattle.arrow_types.specs.TypeOf.{type_of};
    ghost use Rattle.arrow_arrays.specs.Layout.{depth};
    ghost use Rattle.arrow_arrays.specs.ListParts.{ListParts, list_parts_code, list_layout, IsList};

    ghost Value = { ListParts };

    ghost coded = { list_parts_code };

    ghost use Rattle.arrow_arrays.specs.Any.{layout_of};

    ghost view = { λ a. record {
      arrow_type = type_of a.data_type;
      validity = a.validity;
      offsets = a.offsets;
      child = layout_of a.field.value;
    } };

    ghost invariant = { λ a. IsList physical.Map
        (record {
          arrow_type = type_of a.data_type;
          validity = a.validity;
          offsets = a.offsets;
          child = layout_of a.field.value;
        }) };

    ghost size = { λ p. depth (list_layout p) };

    ghost use Rattle.arrow_arrays.specs.Falls.{child_falls};

    ghost size_decreases = { λ a h. child_falls a.field.value };
}

impl MapArray {
    /// The array that [`MapArray::try_new`] makes of parts that are known to be sound: nothing is tested.
    ///
    /// # Requires
    /// The data type is carried and that of a map, the field has the type of its entries, the last offset is at most
    /// their count, and a validity is as long as the rows.
    pub fn new(
        data_type: DataType,
        offsets: OffsetsBuffer<i32>,
        field: Box<AnyArray>,
        validity: Option<Bitmap>,
    ) -> MapArray
        requires { HoldsList physical.Map (type_of data_type) (length offsets - 1) (last_of offsets)
            (layout_of field.value) validity }
        ensures { result ≡ record {
          arrow_type = type_of data_type;
          validity = validity;
          offsets = offsets;
          child = layout_of field.value;
        } }
    {
        // That the offsets never fall is theirs to say.
        let _ = offsets.len();
        MapArray {
            data_type,
            offsets,
            field,
            validity,
        }
    }

    /// An array of maps: row `i` is the entries of `field` from offset `i` to offset `i + 1`, null where
    /// the validity has a bit that is not set. It takes no memory.
    ///
    /// # Errors
    /// `OutOfSpec` of the first that fails: `Kind` where the data type is not carried, or no map;
    /// `Child` where the field has another type than its entries; `Length` where the validity is not as
    /// long as the rows; `Offsets` where the last offset passes the entries.
    pub fn try_new(
        data_type: DataType,
        offsets: OffsetsBuffer<i32>,
        field: Box<AnyArray>,
        validity: Option<Bitmap>,
    ) -> Result<MapArray, Error>
        ensures ok { IfOk result (λ array. array
            ≡ record {
              arrow_type = type_of data_type;
              validity = validity;
              offsets = offsets;
              child = layout_of field.value;
            }) }
        ensures sound { OnOk result
            (IsList (physical.Map)
            (record {
              arrow_type = type_of data_type;
              validity = validity;
              offsets = offsets;
              child = layout_of field.value;
            })) }
        ensures fault { IfErr result
            (IsListFault (physical.Map)
            (record {
              arrow_type = type_of data_type;
              validity = validity;
              offsets = offsets;
              child = layout_of field.value;
            })) }
    {
        check_list(
            &data_type,
            PhysicalType::Map,
            offsets.len() - 1,
            offsets.last().to_usize(),
            &field,
            &validity,
        )?;
        Ok(MapArray::new(data_type, offsets, field, validity))
    }

    /// The data type.
    pub fn data_type(&self) -> &DataType
        ensures same { type_of result.now ≡ self.now.arrow_type }
        ensures carried { IsCarried self.now.arrow_type }
        ensures kind { kind_in (physical_type_of self.now.arrow_type) ≡ map_kind }
    {
        &self.data_type
    }

    /// The offsets: those of the rows alone, where the array is a slice.
    pub fn offsets(&self) -> &OffsetsBuffer<i32>
        ensures same { result.now ≡ self.now.offsets }
        ensures sound { IsOffsets self.now.offsets }
        ensures within { last_of self.now.offsets ≤ length (rows self.now.child) }
    {
        &self.offsets
    }

    /// The child that holds the entries, each a struct of a key and a value; whole, where the array is a
    /// slice too.
    pub fn field(&self) -> &AnyArray
        ensures same { layout_of result.now ≡ self.now.child }
        ensures items { type_of_layout self.now.child ≡ item_type self.now.arrow_type }
    {
        &self.field
    }

    /// How many rows there are.
    pub fn len(&self) -> usize
        ensures rows { result ≡ length (list_rows self.now) }
        ensures offsets { result + 1 ≡ length self.now.offsets }
    {
        self.offsets.len() - 1
    }

    /// Whether there is no row.
    pub fn is_empty(&self) -> bool
        ensures { IsTrue result ↔ (list_rows self.now ≡ []) }
    {
        self.len() == 0
    }

    /// The validity: a bit for each row, set where the row is valid. Without it no row is null.
    pub fn validity(&self) -> Option<&Bitmap>
        ensures same { option_copied result ≡ self.now.validity }
        ensures fits { FitsRows self.now.validity (length self.now.offsets - 1) }
        ensures marks { MarksNulls (option_copied result) (list_rows self.now) }
    {
        self.validity.as_ref()
    }

    /// Whether row `i` is valid: whether it is no null.
    ///
    /// # Requires
    /// `i` is below the count of rows.
    pub fn is_valid(&self, i: usize) -> bool
        requires { i < length (list_rows self.now) }
        ensures { result ≡ not (is_null (slice_index_or (list_rows self.now) i Null)) }
    {
        validity::row_is_valid(self.validity(), i)
    }

    /// How many rows are null, counted a word of the validity at a time.
    pub fn null_count(&self) -> usize
        ensures { result ≡ count_by is_null (list_rows self.now) }
    {
        validity::unset_bits(&self.validity)
    }

    /// Keeps `len` rows from row `offset` on. Nothing is copied.
    ///
    /// # Requires
    /// `offset + len` is at most the count of rows.
    pub fn slice(&mut self, offset: usize, len: usize)
        requires { offset + len ≤ length (list_rows self.old) }
        ensures part { self.new ≡ list_slice self.old offset len }
        ensures rows { list_rows self.new ≡ sliced (list_rows self.old) offset len }
    {
        prove!(len < self.offsets.len());
        self.offsets.slice(offset, len + 1);
        validity::slice(&mut self.validity, offset, len);
    }

    /// The `len` rows from row `offset` on. Nothing is copied.
    ///
    /// # Requires
    /// `offset + len` is at most the count of rows.
    pub fn sliced(self, offset: usize, len: usize) -> MapArray
        requires { offset + len ≤ length (list_rows self) }
        ensures part { result ≡ list_slice self offset len }
        ensures rows { list_rows result ≡ sliced (list_rows self) offset len }
    {
        let mut part = self;
        part.slice(offset, len);
        part
    }

    /// The same entries under another validity: a row is null where a bit is not set.
    ///
    /// # Requires
    /// A validity has a bit for each row.
    pub fn with_validity(self, validity: Option<Bitmap>) -> MapArray
        requires { FitsRows validity (length self.offsets - 1) }
        ensures { result ≡ list_with_bits self validity }
    {
        let mut array = self;
        array.validity = validity;
        array
    }

    /// Where the entries of row `i` begin and how many there are, if it is not null.
    fn span(&self, i: usize) -> Option<(usize, usize)>
        requires { i + 1 < length self.now.offsets }
        ensures row { slice_index_or (list_rows self.now) i Null ≡ span_row (rows self.now.child) result }
        ensures within { IfSome result (λ span. span.0 + span.1 ≤ length (rows self.now.child)) }
    {
        if !validity::is_valid(&self.validity, i) {
            return None;
        }
        let (start, end) = self.offsets.start_end(i);
        Some((start, end - start))
    }

    /// Whether row `i` is the same as row `j` of the other.
    #[cycle(equal)]
    fn equal_row(&self, i: usize, other: &MapArray, j: usize) -> bool
        requires one_type { self.now.arrow_type ≡ other.now.arrow_type }
        requires here { i + 1 < length self.now.offsets }
        requires there { j + 1 < length other.now.offsets }
        ensures { IsTrue result ↔ (slice_index_or (list_rows self.now) i Null
            ≡ slice_index_or (list_rows other.now) j Null) }
    {
        equal_spans(self.span(i), &self.field, other.span(j), &other.field)
    }

    /// Whether `len` rows from row `start` on are the same as those of the other from row
    /// `other_start` on.
    #[cycle(equal)]
    pub(crate) fn equal_range(
        &self,
        start: usize,
        other: &MapArray,
        other_start: usize,
        len: usize,
    ) -> bool
        requires one_type { self.now.arrow_type ≡ other.now.arrow_type }
        requires here { start + len ≤ length (list_rows self.now) }
        requires there { other_start + len ≤ length (list_rows other.now) }
        ensures { IsTrue result ↔ (sliced (list_rows self.now) start len
            ≡ sliced (list_rows other.now) other_start len) }
    {
        // lengths fit a `usize`, and so do the places below
        let (_rows, _other_rows) = (self.len(), other.len());
        for i in 0..len {
            if !self.equal_row(start + i, other, other_start + i) {
                return false;
            }
        }
        true
    }

    /// Whether the rows are the same, of two arrays of one data type.
    fn equal_rows(&self, other: &MapArray) -> bool
        requires { self.now.arrow_type ≡ other.now.arrow_type }
        ensures { IsTrue result ↔ (list_rows self.now ≡ list_rows other.now) }
    {
        let len = self.len();
        len == other.len() && self.equal_range(0, other, 0, len)
    }
}

/// A clone shares what is stored and copies none of it. It takes the memory of the names of data types,
/// and of the boxes of children.
impl Clone for MapArray {
    ghost is_clone = { λ array copy. copy ≡ array };

    #[cycle(clone)]
    fn clone(&self) -> Result<MapArray, AllocError> {
        Ok(MapArray {
            offsets: self.offsets.clone()?,
            field: clone_boxed(&self.field)?,
            validity: self.validity.clone()?,
            data_type: self.data_type.clone()?,
        })
    }
}

/// Two arrays are equal where their data types and their rows are, whatever the layouts beneath.
impl PartialEq for MapArray {
    ghost eq = { λ a b. same_by meaning_code (list_meaning a) (list_meaning b) };

    ghost laws = { partial_equiv_from_equiv (on_equiv list_meaning (same_by-equivalence meaning_code)) };

    fn eq(&self, other: &MapArray) -> bool
        ensures value { result ≡ same_by meaning_code (list_meaning self.now) (list_meaning other.now) }
        ensures rows { IsTrue result
            ↔ ((self.now.arrow_type ≡ other.now.arrow_type) × (list_rows self.now ≡ list_rows other.now)) }
    {
        self.data_type == other.data_type && self.equal_rows(other)
    }
}

impl Eq for MapArray {
    ghost laws = { on_equiv list_meaning (same_by-equivalence meaning_code) };
}
