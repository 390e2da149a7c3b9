//! What arrays of texts and of bytes share: rows of any length, one behind the other.

ghost use Rattle.std.specs.Prelude.{◌≡◌, ◌+◌, ◌-◌, ◌<◌, ◌≤◌, ◌↔◌, Bool, List, ℕ, length, slice_get, slice_index, Some, IfOk, IfErr, OnOk, IsTrue};
ghost use Rattle.std.specs.List.{All, concat};
ghost use Rattle.std.proofs.Common.{rules};
ghost use Rattle.std.proofs.lemmas.List.Elements.{All-map};
ghost use Rattle.arrow_types.specs.ArrowType.{PlainType, plain};
ghost use Rattle.arrow_types.specs.Physical.{physical_type_of};
ghost use Rattle.arrow_types.specs.Slot.{Slot};
ghost use Rattle.arrow_types.specs.TypeOf.{type_of};
ghost use Rattle.arrow_types.specs.declared.datatypes.physical_type.PhysicalType.{PhysicalType};
ghost use Rattle.arrow_memory.specs.Offsets.{last_of};
ghost use Rattle.arrow_memory.specs.Sliced.{sliced};
ghost use Rattle.arrow_flat.specs.ByteRows.{ByteParts, row_bytes, byte_slots, byte_slice};
ghost use Rattle.arrow_flat.specs.Faults.{IsCarriedAs, NamesFirst};
ghost use Rattle.arrow_flat.specs.Parts.{FitsRows, IsValue};
ghost use Rattle.arrow_flat.specs.PieceLaws.{slots_of_pieces};
ghost use Rattle.arrow_flat.specs.Pieces.{pieces, lengths};

use crate::array::{FlatArray, Values, is_carried_as, validity};
use arrow_memory::bitmap::Bitmap;
use arrow_memory::buffer::Buffer;
use arrow_memory::offset::OffsetsBuffer;
use arrow_types::datatypes::{DataType, PhysicalType};
use arrow_types::error::{Error, SpecPart};
use arrow_types::types::{Index, Offset};
use std::alloc::AllocError;
use std::marker::{Model, PhantomData};

/// What rows of bytes are: texts, or any bytes.
pub trait ByteKind {
    // the row that holds these bytes
    ghost slot: { List ℕ → Slot };

    // what each row is, null rows too
    ghost Allows: { List ℕ → Type 0 };

    // the data type and the physical type, by whether the offsets are those of the large forms
    ghost plain_type: { Bool → PlainType };

    ghost physical_type: { Bool → PhysicalType };

    /// Whether a row may have these bytes.
    fn allows(bytes: &[u8]) -> bool
        ensures { IsTrue result ↔ Allows bytes.now };

    /// The data type of such rows: that without an extension around it.
    fn data_type(is_large: bool) -> DataType
        ensures { type_of result ≡ plain (plain_type is_large) };

    /// The physical type of an array of such rows.
    fn physical_type(is_large: bool) -> PhysicalType
        ensures { result ≡ physical_type is_large };

    ghost values: { (bytes : List ℕ) → IsValue (slot bytes) };

    ghost one_to_one: { (x y : List ℕ) → slot x ≡ slot y → x ≡ y };
}

/// Rows of bytes that lie one behind the other: row `i` from offset `i` to offset `i + 1`.
#[derive(Drop)]
pub struct ByteRows<O: Offset, K: ByteKind> {
    offsets: OffsetsBuffer<O>,
    bytes: Buffer<u8>,
    kind: PhantomData<K>,
}

impl<O: Offset, K: ByteKind> Model for ByteRows<O, K> {
    ghost use Rattle.arrow_flat.specs.ByteRows.{ByteParts, byte_parts_code, AreByteRows};

    ghost Value = { ByteParts };

    ghost coded = { byte_parts_code };

    ghost view = { λ a. record { offsets = a.offsets; bytes = a.bytes } };

    ghost invariant = { λ a. AreByteRows K.Allows (record { offsets = a.offsets; bytes = a.bytes }) };
}

impl<O: Offset, K: ByteKind> ByteRows<O, K> {
    /// The bytes of row `i`.
    pub(crate) fn row(&self, i: usize) -> &[u8]
        requires { i < length (row_bytes self.now) }
        ensures row { slice_get (row_bytes self.now) i ≡ Some result.now }
        ensures kind { K.Allows result.now }
    {
        let (start, end) = self.offsets.start_end(i);
        &self.bytes.as_slice()[start..end]
    }

    /// The bytes of `len` rows from row `start` on, one row behind the other.
    fn joined(&self, start: usize, len: usize) -> &[u8]
        requires { start + len < length self.now.offsets }
        ensures { result.now ≡ concat (row_bytes (byte_slice self.now start len)) }
    {
        let (start, end) = self.offsets.range(start, len);
        &self.bytes.as_slice()[start..end]
    }
}

impl<O: Offset, K: ByteKind> Values for ByteRows<O, K> {
    ghost slots = { byte_slots K.slot };

    ghost are_of = { λ rows t. physical_type_of t ≡ K.physical_type O.IS_LARGE };

    ghost slice = { byte_slice };

    fn len(&self) -> usize {
        self.offsets.len() - 1
    }

    fn slice(&mut self, offset: usize, len: usize) {
        prove!(len < self.offsets.len());
        self.offsets.slice(offset, len + 1);
    }

    fn equal_range(
        &self,
        start: usize,
        other: &ByteRows<O, K>,
        other_start: usize,
        len: usize,
    ) -> bool {
        // Places are those of a `usize`, as the counts of rows are.
        let _ = (self.len(), other.len());
        are_as_long(&self.offsets, start, &other.offsets, other_start, len)
            && self.joined(start, len) == other.joined(other_start, len)
    }

    ghost copies = { Prim.search rules };

    ghost stored = { λ rows. All-map IsValue K.slot (row_bytes rows) (λ k d within. K.values _) };

    ghost slots_of_slice = { λ rows offset len within. slots_of_pieces K.slot rows.offsets rows.bytes offset
        len };

    ghost slice_is_of = { λ x t offset len kind. kind };
}

/// A clone shares the offsets and the bytes and copies none.
impl<O: Offset, K: ByteKind> Clone for ByteRows<O, K> {
    ghost is_clone = { λ rows copy. copy ≡ rows };

    fn clone(&self) -> Result<ByteRows<O, K>, AllocError> {
        Ok(ByteRows {
            offsets: self.offsets.clone()?,
            bytes: self.bytes.clone()?,
            kind: PhantomData,
        })
    }
}

// How many bytes row `i` has.
fn row_len<O: Offset>(offsets: &OffsetsBuffer<O>, i: usize) -> usize
    requires { i + 1 < length offsets.now }
    ensures { result ≡ slice_index (lengths offsets.now) i }
{
    let (start, end) = offsets.start_end(i);
    end - start
}

// Whether each of `len` rows from row `start` on is as long as that of others from row `other_start`
// on.
fn are_as_long<O: Offset>(
    offsets: &OffsetsBuffer<O>,
    start: usize,
    others: &OffsetsBuffer<O>,
    other_start: usize,
    len: usize,
) -> bool
    requires here { start + len < length offsets.now }
    requires there { other_start + len < length others.now }
    ensures { IsTrue result ↔ (sliced (lengths offsets.now) start len
        ≡ sliced (lengths others.now) other_start len) }
{
    // Places are those of a `usize`, as the counts of offsets are.
    let _ = (offsets.len(), others.len());
    for i in 0..len {
        if row_len(offsets, start + i) != row_len(others, other_start + i) {
            return false;
        }
    }
    true
}

// Whether each row that the offsets name is as the kind asks: one pass over the bytes of the rows.
fn are_allowed<O: Offset, K: ByteKind>(offsets: &OffsetsBuffer<O>, bytes: &[u8]) -> bool
    requires { last_of offsets.now ≤ length bytes.now }
    ensures { IsTrue result ↔ All K.Allows (pieces offsets.now bytes.now) }
{
    for i in 0..offsets.len() - 1 {
        let (start, end) = offsets.start_end(i);
        if !K::allows(&bytes[start..end]) {
            return false;
        }
    }
    true
}

impl<O: Offset, K: ByteKind> FlatArray<ByteRows<O, K>> {
    /// The array that [`FlatArray::try_new`] makes of parts that are known to be sound: nothing is tested.
    ///
    /// # Requires
    /// The data type is carried and has the physical type of such arrays, the validity is as long as the
    /// rows, the last offset is within the values, and each row of a text array, null rows too, is UTF-8.
    pub fn new(
        data_type: DataType,
        offsets: OffsetsBuffer<O>,
        values: Buffer<u8>,
        validity: Option<Bitmap>,
    ) -> FlatArray<ByteRows<O, K>>
        requires kind { IsCarriedAs (K.physical_type O.IS_LARGE) (type_of data_type) }
        requires length { FitsRows validity (length offsets - 1) }
        requires offsets { last_of offsets ≤ length values }
        requires text { All K.Allows (pieces offsets values) }
        ensures { result ≡ record {
          arrow_type = type_of data_type;
          values = record { offsets = offsets; bytes = values };
          validity = validity;
        } }
    {
        // That the offsets never fall is theirs to say.
        let _ = offsets.len();
        FlatArray {
            data_type,
            values: ByteRows {
                offsets,
                bytes: values,
                kind: PhantomData,
            },
            validity,
        }
    }

    /// An array of the rows that the offsets name in the values, null where the validity has a bit that
    /// is not set. It takes no memory.
    ///
    /// # Errors
    /// `OutOfSpec` of the first that fails: `Kind` where the data type is not carried or has another
    /// physical type, `Length` where the validity is not as long as the rows, `Offsets` where the last
    /// offset passes the values, `Utf8` where a row of a text array, null rows too, is not UTF-8.
    pub fn try_new(
        data_type: DataType,
        offsets: OffsetsBuffer<O>,
        values: Buffer<u8>,
        validity: Option<Bitmap>,
    ) -> Result<FlatArray<ByteRows<O, K>>, Error>
        ensures ok { IfOk result (λ array. array
            ≡ record {
              arrow_type = type_of data_type;
              values = record { offsets = offsets; bytes = values };
              validity = validity;
            }) }
        ensures sound { OnOk result
            (IsCarriedAs (K.physical_type O.IS_LARGE) (type_of data_type)
            × FitsRows validity (length offsets - 1) × (last_of offsets ≤ length values)
            × All K.Allows (pieces offsets values)) }
        ensures fault { IfErr result
            (NamesFirst (IsCarriedAs (K.physical_type O.IS_LARGE) (type_of data_type))
            (FitsRows validity (length offsets - 1)) (last_of offsets ≤ length values)
            (All K.Allows (pieces offsets values))) }
    {
        if !is_carried_as(&data_type, K::physical_type(O::IS_LARGE)) {
            return Err(Error::OutOfSpec(SpecPart::Kind));
        }
        if !validity::fits_rows(&validity, offsets.len() - 1) {
            return Err(Error::OutOfSpec(SpecPart::Length));
        }
        if offsets.last().to_usize() > values.len() {
            return Err(Error::OutOfSpec(SpecPart::Offsets));
        }
        if !are_allowed::<O, K>(&offsets, values.as_slice()) {
            return Err(Error::OutOfSpec(SpecPart::Utf8));
        }
        Ok(FlatArray::<ByteRows<O, K>>::new(data_type, offsets, values, validity))
    }

    /// Where the rows lie in the values.
    pub fn offsets(&self) -> &OffsetsBuffer<O>
        ensures { result.now ≡ self.now.values.offsets }
    {
        &self.values.offsets
    }

    /// The bytes that the rows lie in, and perhaps others before, between and behind them.
    pub fn values(&self) -> &Buffer<u8>
        ensures same { result.now ≡ self.now.values.bytes }
        ensures within { last_of self.now.values.offsets ≤ length self.now.values.bytes }
        ensures allowed { All K.Allows (row_bytes self.now.values) }
    {
        &self.values.bytes
    }
}
