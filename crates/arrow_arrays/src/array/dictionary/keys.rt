//! Keys of dictionaries.

ghost use Rattle.std.specs.Prelude.{◌≡◌, ◌+◌, ◌≤◌, ◌<◌, ◌↔◌, length, count_by, map, option_copied, slice_get, slice_index_or, Some, IsTrue};
ghost use Rattle.arrow_types.specs.Relation.{is_null};
ghost use Rattle.arrow_types.specs.Slot.{Null};
ghost use Rattle.arrow_memory.specs.Sliced.{sliced};
ghost use Rattle.arrow_flat.specs.Parts.{MarksNulls, rows_by};
ghost use Rattle.arrow_arrays.specs.AnyKeys.{key_rows, key_type_of, key_validity, keys_of};
ghost use Rattle.arrow_arrays.specs.KeyedParts.{AreKeys, IsKey, IsKeyIn, key_in};
ghost use Rattle.arrow_arrays.specs.SliceOf.{validity_of_slice};

use arrow_flat::array::{PrimitiveArray, validity};
use arrow_memory::bitmap::Bitmap;
use arrow_types::datatypes::IntegerType;
use arrow_types::types::{DictionaryKey, Index};
use std::alloc::AllocError;

/// The keys of a dictionary, of any key type, null where a row is. Beneath a null any key may lie.
#[derive(Drop)]
pub enum AnyKeys {
    Int8(PrimitiveArray<i8>),
    Int16(PrimitiveArray<i16>),
    Int32(PrimitiveArray<i32>),
    Int64(PrimitiveArray<i64>),
    UInt8(PrimitiveArray<u8>),
    UInt16(PrimitiveArray<u16>),
    UInt32(PrimitiveArray<u32>),
    UInt64(PrimitiveArray<u64>),
}

/// What an expression says of the keys, whatever their type.
macro_rules! of_keys {
    ($any:expr, $keys:ident => $result:expr) => {
        match $any {
            AnyKeys::Int8($keys) => $result,
            AnyKeys::Int16($keys) => $result,
            AnyKeys::Int32($keys) => $result,
            AnyKeys::Int64($keys) => $result,
            AnyKeys::UInt8($keys) => $result,
            AnyKeys::UInt16($keys) => $result,
            AnyKeys::UInt32($keys) => $result,
            AnyKeys::UInt64($keys) => $result,
        }
    };
}

impl AnyKeys {
    /// How many keys there are, null ones too.
    pub fn len(&self) -> usize
        ensures rows { result ≡ length (key_rows self.now) }
        ensures keys { result ≡ length (keys_of self.now) }
    {
        of_keys!(self, keys => keys.len())
    }

    /// The key of row `i`, or `None` where it is null.
    ///
    /// # Requires
    /// `i` is below the count of rows, and the key of that row, if it is not null, is not negative.
    #[tactic(auto, using(crate::proofs::KeyLemmas::key_read))]
    pub fn key(&self, i: usize) -> Option<usize>
        requires within { i < length (key_rows self.now) }
        requires not_negative { IsKeyIn (slice_index_or (key_rows self.now) i Null) }
        ensures { slice_get (keys_of self.now) i ≡ Some result }
    {
        of_keys!(self, keys => key_at(keys, i))
    }

    /// The type of the keys, as a dictionary's data type names it.
    pub(crate) fn key_type(&self) -> IntegerType
        ensures { result ≡ key_type_of self.now }
    {
        match self {
            AnyKeys::Int8(_) => IntegerType::Int8,
            AnyKeys::Int16(_) => IntegerType::Int16,
            AnyKeys::Int32(_) => IntegerType::Int32,
            AnyKeys::Int64(_) => IntegerType::Int64,
            AnyKeys::UInt8(_) => IntegerType::UInt8,
            AnyKeys::UInt16(_) => IntegerType::UInt16,
            AnyKeys::UInt32(_) => IntegerType::UInt32,
            AnyKeys::UInt64(_) => IntegerType::UInt64,
        }
    }

    /// The validity of the keys.
    pub(crate) fn validity(&self) -> Option<&Bitmap>
        ensures same { option_copied result ≡ key_validity self.now }
        ensures marks { MarksNulls (option_copied result) (key_rows self.now) }
    {
        of_keys!(self, keys => keys.validity())
    }

    /// How many keys are null, counted a word of the validity at a time.
    pub(crate) fn null_count(&self) -> usize
        ensures { result ≡ count_by is_null (key_rows self.now) }
    {
        validity::null_count(self.validity())
    }

    /// Whether each key is null or names one of so many values.
    pub(crate) fn are_within(&self, len: usize) -> bool
        ensures { IsTrue result ↔ AreKeys len (key_rows self.now) }
    {
        of_keys!(self, keys => are_within(keys, len))
    }

    /// Keeps `len` keys from row `offset` on. Nothing is copied.
    pub(crate) fn slice(&mut self, offset: usize, len: usize)
        requires { offset + len ≤ length (key_rows self.old) }
        ensures same { key_type_of self.new ≡ key_type_of self.old }
        ensures validity { key_validity self.new ≡ validity_of_slice (key_validity self.old) offset len }
        ensures rows { key_rows self.new ≡ sliced (key_rows self.old) offset len }
    {
        of_keys!(self, keys => keys.slice(offset, len))
    }
}

// The key of row `i`, or `None` where it is null.
fn key_at<K: DictionaryKey>(keys: &PrimitiveArray<K>, i: usize) -> Option<usize>
    requires within { i < length (rows_by (map K.slot) keys.now) }
    requires not_negative { IsKeyIn (slice_index_or (rows_by (map K.slot) keys.now) i Null) }
    ensures { result ≡ key_in (slice_index_or (rows_by (map K.slot) keys.now) i Null) }
{
    // The validity has a bit for each row.
    let _ = keys.validity();
    if keys.is_valid(i) {
        Some(keys.value(i).to_usize())
    } else {
        None
    }
}

// Whether index `i` is null or that of one of so many rows.
fn is_within<I: Index>(indices: &PrimitiveArray<I>, i: usize, len: usize) -> bool
    requires { i < length (rows_by (map I.slot) indices.now) }
    ensures { IsTrue result ↔ IsKey len (slice_index_or (rows_by (map I.slot) indices.now) i Null) }
{
    // The validity has a bit for each row.
    let _ = indices.validity();
    !indices.is_valid(i) || indices.value(i).in_range(len)
}

/// Whether each index is null or that of one of so many rows, whatever lies beneath a null. It takes no memory.
pub fn are_within<I: Index>(indices: &PrimitiveArray<I>, len: usize) -> bool
    ensures { IsTrue result ↔ AreKeys len (rows_by (map I.slot) indices.now) }
{
    for i in 0..indices.len() {
        if !is_within(indices, i, len) {
            return false;
        }
    }
    true
}

/// A clone shares the keys and copies none. It takes the memory of the data type's names.
impl Clone for AnyKeys {
    ghost is_clone = { λ keys copy. copy ≡ keys };

    fn clone(&self) -> Result<AnyKeys, AllocError> {
        match self {
            AnyKeys::Int8(keys) => Ok(AnyKeys::Int8(keys.clone()?)),
            AnyKeys::Int16(keys) => Ok(AnyKeys::Int16(keys.clone()?)),
            AnyKeys::Int32(keys) => Ok(AnyKeys::Int32(keys.clone()?)),
            AnyKeys::Int64(keys) => Ok(AnyKeys::Int64(keys.clone()?)),
            AnyKeys::UInt8(keys) => Ok(AnyKeys::UInt8(keys.clone()?)),
            AnyKeys::UInt16(keys) => Ok(AnyKeys::UInt16(keys.clone()?)),
            AnyKeys::UInt32(keys) => Ok(AnyKeys::UInt32(keys.clone()?)),
            AnyKeys::UInt64(keys) => Ok(AnyKeys::UInt64(keys.clone()?)),
        }
    }
}
