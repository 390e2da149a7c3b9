//! Arrays of bytes, each row of as many.

ghost use Rattle.std.specs.Prelude.{◌≡◌, ◌+◌, ◌*◌, ◌/◌, ◌<◌, ◌≤◌, List, length, slice_get, Some, IfOk, IfErr, OnOk, refl};
ghost use Rattle.std.proofs.Common.{rules};
ghost use Rattle.std.proofs.lemmas.List.Elements.{All-map};
ghost use Rattle.arrow_types.specs.Physical.{physical_type_of};
ghost use Rattle.arrow_types.specs.Slot.{Bytes};
ghost use Rattle.arrow_types.specs.TypeOf.{type_of};
ghost use Rattle.arrow_types.specs.declared.datatypes.physical_type.PhysicalType.TheVariants as physical;
ghost use Rattle.arrow_flat.specs.Faults.{IsCarriedAs, NamesKindOrLength};
ghost use Rattle.arrow_flat.specs.FixedRows.{FixedParts, AreFixedRows, fixed_row_bytes, fixed_slots, fixed_slice, fixed_size_in, FitsBytes};
ghost use Rattle.arrow_flat.specs.Parts.{IsValue};
ghost use Rattle.arrow_flat.specs.PieceLaws.{slots_of_chunks};

use crate::array::{FlatArray, Values, is_carried_as, validity};
use arrow_memory::bitmap::Bitmap;
use arrow_memory::buffer::Buffer;
use arrow_types::datatypes::{DataType, PhysicalType};
use arrow_types::error::{Error, SpecPart};
use std::alloc::AllocError;
use std::marker::Model;

/// An array of bytes, as many a row as the data type says: a fixed-size list of bytes ("Fixed-Size List
/// Layout").
pub type FixedSizeBinaryArray = FlatArray<FixedRows>;

/// Rows of so many bytes each, one behind the other.
#[derive(Drop)]
pub struct FixedRows {
    size: usize,
    count: usize,
    bytes: Buffer<u8>,
}

impl Model for FixedRows {
    ghost use Rattle.arrow_flat.specs.FixedRows.{FixedParts, fixed_parts_code, AreFixedRows};

    ghost Value = { FixedParts };

    ghost coded = { fixed_parts_code };

    ghost view = { λ a. record { size = a.size; count = a.count; bytes = a.bytes } };

    ghost invariant = { λ a. AreFixedRows (record { size = a.size; count = a.count; bytes = a.bytes }) };
}

impl FixedRows {
    /// The bytes of row `i`.
    fn row(&self, i: usize) -> &[u8]
        requires { i < length (fixed_row_bytes self.now) }
        ensures { slice_get (fixed_row_bytes self.now) i ≡ Some result.now }
    {
        let bytes = self.bytes.as_slice();
        let (start, end) = (self.start(i), self.start(i + 1));
        &bytes[start..end]
    }

    /// The bytes of `len` rows from row `start` on, one row behind the other.
    fn joined(&self, start: usize, len: usize) -> &[u8]
        requires { start + len ≤ self.now.count }
        ensures bytes { result.now ≡ (fixed_slice self.now start len).bytes }
        ensures sound { AreFixedRows self.now }
    {
        let bytes = self.bytes.as_slice();
        let (from, to) = (self.start(start), self.start(start + len));
        &bytes[from..to]
    }

    /// Where row `i` begins, or, with no row there, where the last one ends.
    fn start(&self, i: usize) -> usize
        requires { i ≤ self.now.count }
        ensures place { result ≡ i * self.now.size }
        ensures within { result ≤ length self.now.bytes }
    {
        i * self.size
    }
}

impl Values for FixedRows {
    ghost slots = { fixed_slots };

    ghost are_of = { λ rows t. (physical_type_of t ≡ physical.FixedSizeBinary)
        × (rows.size ≡ fixed_size_in t) };

    ghost slice = { fixed_slice };

    fn len(&self) -> usize {
        self.count
    }

    fn slice(&mut self, offset: usize, len: usize) {
        let (start, end) = (self.start(offset), self.start(offset + len));
        self.bytes.slice(start, end - start);
        self.count = len;
    }

    fn equal_range(&self, start: usize, other: &FixedRows, other_start: usize, len: usize) -> bool {
        self.joined(start, len) == other.joined(other_start, len)
    }

    ghost copies = { Prim.search rules };

    ghost stored = { λ rows. All-map IsValue Bytes (fixed_row_bytes rows) (λ k d within. refl) };

    ghost slots_of_slice = { λ rows offset len within. slots_of_chunks Bytes rows.count rows.size rows.bytes
        offset len within };

    ghost slice_is_of = { λ x t offset len kind. kind };
}

/// A clone shares the bytes and copies none.
impl Clone for FixedRows {
    ghost is_clone = { λ rows copy. copy ≡ rows };

    fn clone(&self) -> Result<FixedRows, AllocError> {
        Ok(FixedRows {
            size: self.size,
            count: self.count,
            bytes: self.bytes.clone()?,
        })
    }
}

// How many bytes a row of the data type has: 0 of a type whose rows are no bytes of a fixed size.
fn fixed_size(data_type: &DataType) -> usize
    ensures { result ≡ fixed_size_in (type_of data_type.now) }
{
    match data_type {
        DataType::FixedSizeBinary(size) => *size,
        DataType::Extension(_, inner, _) => fixed_size(inner),
        _ => 0,
    }
}

impl FlatArray<FixedRows> {
    /// The array that [`FlatArray::try_new`] makes of parts that are known to be sound: nothing is tested.
    ///
    /// # Requires
    /// The data type is carried and has the physical type of bytes of a fixed size, the values are a multiple of that
    /// size, and a validity is as long as the rows.
    pub fn new(
        data_type: DataType,
        values: Buffer<u8>,
        validity: Option<Bitmap>,
    ) -> FixedSizeBinaryArray
        requires kind { IsCarriedAs physical.FixedSizeBinary (type_of data_type) }
        requires bytes { FitsBytes (fixed_size_in (type_of data_type)) (length values) validity }
        ensures { result ≡ record {
          arrow_type = type_of data_type;
          values = record {
            size = fixed_size_in (type_of data_type);
            count = length values / fixed_size_in (type_of data_type);
            bytes = values;
          };
          validity = validity;
        } }
    {
        let size = fixed_size(&data_type);
        let count = values.len() / size;
        FlatArray {
            data_type,
            values: FixedRows {
                size,
                count,
                bytes: values,
            },
            validity,
        }
    }

    /// An array of the rows that the values are, each as long as the data type says, null where the
    /// validity has a bit that is not set. It takes no memory.
    ///
    /// # Errors
    /// `OutOfSpec` of the first that fails: `Kind` where the data type is not carried or has another
    /// physical type, `Length` where the values are not a multiple of the size, or the validity is not as
    /// long as the rows.
    pub fn try_new(
        data_type: DataType,
        values: Buffer<u8>,
        validity: Option<Bitmap>,
    ) -> Result<FixedSizeBinaryArray, Error>
        ensures ok { IfOk result (λ array. array
            ≡ record {
              arrow_type = type_of data_type;
              values = record {
                size = fixed_size_in (type_of data_type);
                count = length values / fixed_size_in (type_of data_type);
                bytes = values;
              };
              validity = validity;
            }) }
        ensures sound { OnOk result
            (IsCarriedAs physical.FixedSizeBinary (type_of data_type)
            × FitsBytes (fixed_size_in (type_of data_type)) (length values) validity) }
        ensures fault { IfErr result
            (NamesKindOrLength (IsCarriedAs physical.FixedSizeBinary (type_of data_type))
            (FitsBytes (fixed_size_in (type_of data_type)) (length values) validity)) }
    {
        if !is_carried_as(&data_type, PhysicalType::FixedSizeBinary) {
            return Err(Error::OutOfSpec(SpecPart::Kind));
        }
        let size = fixed_size(&data_type);
        let len = values.len();
        if len % size != 0 || !validity::fits_rows(&validity, len / size) {
            return Err(Error::OutOfSpec(SpecPart::Length));
        }
        Ok(FlatArray::<FixedRows>::new(data_type, values, validity))
    }

    /// The bytes of all rows, null rows too.
    pub fn values(&self) -> &Buffer<u8>
        ensures same { result.now ≡ self.now.values.bytes }
        ensures whole { self.now.values.count * self.now.values.size ≡ length self.now.values.bytes }
    {
        &self.values.bytes
    }

    /// How many bytes a row has.
    pub fn size(&self) -> usize
        ensures same { result ≡ self.now.values.size }
        ensures some { 0 < result }
    {
        self.values.size
    }

    /// The bytes of row `i`; of a null row, what is stored beneath it.
    ///
    /// # Requires
    /// `i` is below the count of rows.
    pub fn value(&self, i: usize) -> &[u8]
        requires { i < length (fixed_row_bytes self.now.values) }
        ensures { slice_get (fixed_row_bytes self.now.values) i ≡ Some result.now }
    {
        self.values.row(i)
    }
}
