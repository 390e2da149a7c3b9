//! Keys of dictionaries under construction.

ghost use Rattle.std.specs.Prelude.{◌≡◌, ◌+◌, ◌<◌, ◌≤◌, ◌≤ℤ◌, ◌++◌, [], pos, unsigned_abs, length, map, replicate, slice_index_or, option_copied, Err, IfOk, IfErr, IfSome, OnOk, IsOkUnless};
ghost use Rattle.std.specs.List.{All};
ghost use Rattle.arrow_types.specs.declared.error.Error.{Error};
ghost use Rattle.arrow_types.specs.declared.datatypes.physical_type.PhysicalType.TheVariants as physical;
ghost use Rattle.arrow_types.specs.Greatest.{greatest_number};
ghost use Rattle.arrow_types.specs.Rows.{masked};
ghost use Rattle.arrow_types.specs.Slot.{Null};
ghost use Rattle.arrow_types.specs.TypeOf.{type_of};
ghost use Rattle.arrow_memory.specs.Grown.{IsGrowthError};
ghost use Rattle.arrow_memory.specs.Sliced.{sliced};
ghost use Rattle.arrow_flat.specs.Faults.{IsCarriedAs};
ghost use Rattle.arrow_flat.specs.Parts.{FitsRows, bits_of_slice, rows_by};
ghost use Rattle.arrow_arrays.specs.AnyKeys.{key_rows, key_type_of, keys_of};
ghost use Rattle.arrow_arrays.specs.KeyedParts.{AreKeys, IsKeyIn, keys_in};
ghost use Rattle.arrow_flat_growable.specs.Flat.{BindsAll};
ghost use Rattle.arrow_flat_growable.specs.Keys.{BindsKeys, HasKeys, KeyFits, PassesGreatest, SomePasses, StoresAt, fitting_keys, grown_key, grown_key_type, key_slots, key_sources, zero_key};

mod moved;

use crate::growable::parts::{GrowableParts, copy_all};
use arrow_arrays::array::{AnyKeys, DictionaryArray};
use arrow_flat::array::PrimitiveArray;
use arrow_memory::bitmap::Bitmap;
use arrow_memory::buffer::Buffer;
use arrow_types::datatypes::DataType;
use arrow_types::error::Error;
use arrow_types::types::{DictionaryKey, Index};
use moved::{MovedKey, append_moved, step_of};
use std::alloc::Global;

/// The keys of a dictionary under construction, of any key type: one for each row, and key 0 beneath nulls.
#[derive(Drop)]
pub enum GrowableKeys {
    Int8(GrowableParts<i8>),
    Int16(GrowableParts<i16>),
    Int32(GrowableParts<i32>),
    Int64(GrowableParts<i64>),
    UInt8(GrowableParts<u8>),
    UInt16(GrowableParts<u16>),
    UInt32(GrowableParts<u32>),
    UInt64(GrowableParts<u64>),
}

impl GrowableKeys {
    /// No keys, of the type of others, with room for so many, that grow by those of arrays.
    ///
    /// # Requires
    /// The keys of each array are of that type.
    ///
    /// # Errors
    /// `OutOfMemory` where memory is refused, as for a capacity that is too great.
    pub fn new(
        alloc: Global,
        others: &AnyKeys,
        arrays: &[&DictionaryArray],
        capacity: usize,
    ) -> Result<GrowableKeys, Error>
        requires { All (HasKeys (key_type_of others.now)) arrays.now }
        ensures ok { IfOk result (λ keys. key_slots keys ≡ []) }
        ensures same { IfOk result (λ keys. grown_key_type keys ≡ key_type_of others.now) }
        ensures bound { IfOk result (λ keys. BindsAll (BindsKeys (key_sources keys)) arrays.now) }
        ensures err { IsOkUnless result Error.OutOfMemory }
    {
        match others {
            AnyKeys::Int8(_) => Ok(GrowableKeys::Int8(bound(alloc, arrays, capacity)?)),
            AnyKeys::Int16(_) => Ok(GrowableKeys::Int16(bound(alloc, arrays, capacity)?)),
            AnyKeys::Int32(_) => Ok(GrowableKeys::Int32(bound(alloc, arrays, capacity)?)),
            AnyKeys::Int64(_) => Ok(GrowableKeys::Int64(bound(alloc, arrays, capacity)?)),
            AnyKeys::UInt8(_) => Ok(GrowableKeys::UInt8(bound(alloc, arrays, capacity)?)),
            AnyKeys::UInt16(_) => Ok(GrowableKeys::UInt16(bound(alloc, arrays, capacity)?)),
            AnyKeys::UInt32(_) => Ok(GrowableKeys::UInt32(bound(alloc, arrays, capacity)?)),
            AnyKeys::UInt64(_) => Ok(GrowableKeys::UInt64(bound(alloc, arrays, capacity)?)),
        }
    }

    /// No keys, of the same type, that grow by those of the same arrays.
    ///
    /// # Errors
    /// `OutOfMemory` where memory is refused.
    pub fn fresh(&self) -> Result<GrowableKeys, Error>
        ensures ok { IfOk result (λ keys. key_slots keys ≡ []) }
        ensures same { IfOk result (λ keys. grown_key_type keys ≡ grown_key_type self.now) }
        ensures bound { IfOk result (λ keys. key_sources keys ≡ key_sources self.now) }
        ensures err { IsOkUnless result Error.OutOfMemory }
    {
        match self {
            GrowableKeys::Int8(keys) => Ok(GrowableKeys::Int8(keys.without_values()?)),
            GrowableKeys::Int16(keys) => Ok(GrowableKeys::Int16(keys.without_values()?)),
            GrowableKeys::Int32(keys) => Ok(GrowableKeys::Int32(keys.without_values()?)),
            GrowableKeys::Int64(keys) => Ok(GrowableKeys::Int64(keys.without_values()?)),
            GrowableKeys::UInt8(keys) => Ok(GrowableKeys::UInt8(keys.without_values()?)),
            GrowableKeys::UInt16(keys) => Ok(GrowableKeys::UInt16(keys.without_values()?)),
            GrowableKeys::UInt32(keys) => Ok(GrowableKeys::UInt32(keys.without_values()?)),
            GrowableKeys::UInt64(keys) => Ok(GrowableKeys::UInt64(keys.without_values()?)),
        }
    }

    /// Appends `len` keys of bound array `index` from row `start` on, each greater by `by`, and 0 where one is null. They name
    /// values of a dictionary of `count`: where none can pass the greatest of its type, no key is tested by itself.
    ///
    /// # Requires
    /// The keys are those of the array, of the same type, have these rows, and each that is not null is below `count`.
    ///
    /// # Errors
    /// `Overflow` where one that is not null passes the greatest of its type; `OutOfMemory` where memory is refused.
    pub fn extend_within(
        &mut self,
        index: usize,
        others: &AnyKeys,
        start: usize,
        len: usize,
        by: usize,
        count: usize,
    ) -> Result<(), Error>
        requires same { grown_key_type self.old ≡ key_type_of others.now }
        requires bound { StoresAt (key_sources self.old) index (keys_of others.now) }
        requires part { start + len ≤ length (key_rows others.now) }
        requires within { AreKeys count (key_rows others.now) }
        ensures ok { OnOk result (key_slots self.new
            ≡ key_slots self.old ++ map (grown_key by) (sliced (key_rows others.now) start len)) }
        ensures fits { OnOk result (All (KeyFits (greatest_number (key_type_of others.now)) by)
            (sliced (key_rows others.now) start len)) }
        ensures same { grown_key_type self.new ≡ grown_key_type self.old }
        ensures bound { key_sources self.new ≡ key_sources self.old }
        ensures overflow { result ≡ Err Error.Overflow
            → SomePasses (greatest_number (key_type_of others.now)) by (key_rows others.now) start len }
        ensures others { IfErr result IsGrowthError }
    {
        match (self, others) {
            (GrowableKeys::Int8(own), AnyKeys::Int8(others)) => {
                append_within(own, index, others, start, len, by, count)
            }
            (GrowableKeys::Int16(own), AnyKeys::Int16(others)) => {
                append_within(own, index, others, start, len, by, count)
            }
            (GrowableKeys::Int32(own), AnyKeys::Int32(others)) => {
                append_within(own, index, others, start, len, by, count)
            }
            (GrowableKeys::Int64(own), AnyKeys::Int64(others)) => {
                append_within(own, index, others, start, len, by, count)
            }
            (GrowableKeys::UInt8(own), AnyKeys::UInt8(others)) => {
                append_within(own, index, others, start, len, by, count)
            }
            (GrowableKeys::UInt16(own), AnyKeys::UInt16(others)) => {
                append_within(own, index, others, start, len, by, count)
            }
            (GrowableKeys::UInt32(own), AnyKeys::UInt32(others)) => {
                append_within(own, index, others, start, len, by, count)
            }
            (GrowableKeys::UInt64(own), AnyKeys::UInt64(others)) => {
                append_within(own, index, others, start, len, by, count)
            }
            _ => unreachable!(),
        }
    }

    /// Appends so many keys 0.
    ///
    /// # Errors
    /// `OutOfMemory` where memory is refused.
    pub fn extend_nulls(&mut self, additional: usize) -> Result<(), Error>
        ensures ok { OnOk result (key_slots self.new ≡ key_slots self.old ++ replicate additional zero_key) }
        ensures same { grown_key_type self.new ≡ grown_key_type self.old }
        ensures bound { key_sources self.new ≡ key_sources self.old }
        ensures err { IsOkUnless result Error.OutOfMemory }
    {
        match self {
            GrowableKeys::Int8(keys) => append_zeros(keys, additional),
            GrowableKeys::Int16(keys) => append_zeros(keys, additional),
            GrowableKeys::Int32(keys) => append_zeros(keys, additional),
            GrowableKeys::Int64(keys) => append_zeros(keys, additional),
            GrowableKeys::UInt8(keys) => append_zeros(keys, additional),
            GrowableKeys::UInt16(keys) => append_zeros(keys, additional),
            GrowableKeys::UInt32(keys) => append_zeros(keys, additional),
            GrowableKeys::UInt64(keys) => append_zeros(keys, additional),
        }
    }

    /// The keys of an array, null where a validity says so.
    ///
    /// # Requires
    /// The validity, if there is one, has a bit for each key.
    ///
    /// # Errors
    /// `OutOfMemory` where memory is refused.
    pub fn into_keys(self, alloc: Global, validity: Option<Bitmap>) -> Result<AnyKeys, Error>
        requires { FitsRows validity (length (key_slots self)) }
        ensures ok { IfOk result (λ keys. key_rows keys ≡ masked validity (key_slots self)) }
        ensures same { IfOk result (λ keys. key_type_of keys ≡ grown_key_type self) }
        ensures err { IsOkUnless result Error.OutOfMemory }
    {
        match self {
            GrowableKeys::Int8(keys) => {
                Ok(AnyKeys::Int8(into_array(alloc, DataType::Int8, keys, validity)?))
            }
            GrowableKeys::Int16(keys) => {
                Ok(AnyKeys::Int16(into_array(alloc, DataType::Int16, keys, validity)?))
            }
            GrowableKeys::Int32(keys) => {
                Ok(AnyKeys::Int32(into_array(alloc, DataType::Int32, keys, validity)?))
            }
            GrowableKeys::Int64(keys) => {
                Ok(AnyKeys::Int64(into_array(alloc, DataType::Int64, keys, validity)?))
            }
            GrowableKeys::UInt8(keys) => {
                Ok(AnyKeys::UInt8(into_array(alloc, DataType::UInt8, keys, validity)?))
            }
            GrowableKeys::UInt16(keys) => {
                Ok(AnyKeys::UInt16(into_array(alloc, DataType::UInt16, keys, validity)?))
            }
            GrowableKeys::UInt32(keys) => {
                Ok(AnyKeys::UInt32(into_array(alloc, DataType::UInt32, keys, validity)?))
            }
            GrowableKeys::UInt64(keys) => {
                Ok(AnyKeys::UInt64(into_array(alloc, DataType::UInt64, keys, validity)?))
            }
        }
    }
}

// No keys, and room for so many, that grow by those of arrays.
fn bound<K: MovedKey>(
    alloc: Global,
    arrays: &[&DictionaryArray],
    capacity: usize,
) -> Result<GrowableParts<K>, Error>
    requires { All (HasKeys K.KEY_TYPE) arrays.now }
    ensures none { IfOk result (λ keys. keys.1 ≡ []) }
    ensures bound { IfOk result (λ keys. BindsAll (BindsKeys (map (map K.slot) keys.0)) arrays.now) }
    ensures err { IsOkUnless result Error.OutOfMemory }
{
    let mut sources = Vec::with_capacity(alloc, arrays.len())?;
    for array in arrays {
        let keys = K::of_keys(array.keys());
        // The validity has a bit for each key.
        let _ = keys.validity();
        sources.push(keys.values().clone()?)?;
    }
    GrowableParts::with_capacity(alloc, sources, capacity)
}

// Appends `len` keys of bound array `index` from row `start` on, each greater by `by`, and 0 where one is null: without a test
// of each, where none of a dictionary of `count` values can pass the greatest of its type.
fn append_within<K: MovedKey>(
    keys: &mut GrowableParts<K>,
    index: usize,
    others: &PrimitiveArray<K>,
    start: usize,
    len: usize,
    by: usize,
    count: usize,
) -> Result<(), Error>
    requires bound { StoresAt (map (map K.slot) keys.old.0) index
        (keys_in (rows_by (map K.slot) others.now)) }
    requires part { start + len ≤ length (rows_by (map K.slot) others.now) }
    requires within { AreKeys count (rows_by (map K.slot) others.now) }
    ensures same { keys.new.0 ≡ keys.old.0 }
    ensures ok { OnOk result (map K.slot keys.new.1 ≡ map K.slot keys.old.1
        ++ map (grown_key by) (sliced (rows_by (map K.slot) others.now) start len)) }
    ensures fits { OnOk result (All (KeyFits K.greatest by)
        (sliced (rows_by (map K.slot) others.now) start len)) }
    ensures overflow { result ≡ Err Error.Overflow
        → SomePasses K.greatest by (rows_by (map K.slot) others.now) start len }
    ensures others { IfErr result IsGrowthError }
{
    let Some(step) = step_of::<K>(by, count) else {
        return append_tested(keys, others, start, len, by);
    };
    if by > 0 {
        return append_stepped(keys, others, start, len, step);
    }
    match bit_of_all(others.validity(), start, len) {
        Some(true) => keys.append_part(index, start, len),
        Some(false) => append_zeros(keys, len),
        None => append_stepped(keys, others, start, len, step),
    }
}

// Whether these rows are all valid, or all null: neither where some are.
fn bit_of_all(validity: Option<&Bitmap>, start: usize, len: usize) -> Option<bool>
    requires { IfSome validity (λ bits. start + len ≤ length bits.now) }
    ensures { IfSome result (λ bit. bits_of_slice (option_copied validity.entry) start len ≡ replicate len bit) }
{
    let Some(bits) = validity else {
        return Some(true);
    };
    if len == 0 {
        return Some(true);
    }
    prove!(start <= bits.len());
    let (bit, end) = bits.run_at(start, start + len);
    if end < start + len {
        return None;
    }
    Some(bit)
}

// The same where none passes the greatest of its type: each greater by `step`.
fn append_stepped<K: MovedKey>(
    keys: &mut GrowableParts<K>,
    others: &PrimitiveArray<K>,
    start: usize,
    len: usize,
    step: K,
) -> Result<(), Error>
    requires part { start + len ≤ length (rows_by (map K.slot) others.now) }
    requires onward { pos 0 ≤ℤ K.number step }
    requires within { AreKeys (fitting_keys K.greatest (unsigned_abs (K.number step)))
        (rows_by (map K.slot) others.now) }
    ensures same { keys.new.0 ≡ keys.old.0 }
    ensures ok { OnOk result (map K.slot keys.new.1 ≡ map K.slot keys.old.1
        ++ map (grown_key (unsigned_abs (K.number step)))
        (sliced (rows_by (map K.slot) others.now) start len)) }
    ensures err { IsOkUnless result Error.OutOfMemory }
{
    let (stored, validity) = (others.values().as_slice(), others.validity());
    copy_all(&mut keys.values, keys.sources.as_slice(), &mut keys.parts)?;
    keys.values.reserve(len)?;
    append_moved(&mut keys.values, stored, validity, start, len, step);
    Ok(())
}

// The same with a test of each.
fn append_tested<K: MovedKey>(
    keys: &mut GrowableParts<K>,
    others: &PrimitiveArray<K>,
    start: usize,
    len: usize,
    by: usize,
) -> Result<(), Error>
    requires part { start + len ≤ length (rows_by (map K.slot) others.now) }
    requires keys { All IsKeyIn (rows_by (map K.slot) others.now) }
    ensures same { keys.new.0 ≡ keys.old.0 }
    ensures ok { OnOk result (map K.slot keys.new.1 ≡ map K.slot keys.old.1
        ++ map (grown_key by) (sliced (rows_by (map K.slot) others.now) start len)) }
    ensures fits { OnOk result (All (KeyFits K.greatest by)
        (sliced (rows_by (map K.slot) others.now) start len)) }
    ensures overflow { result ≡ Err Error.Overflow
        → SomePasses K.greatest by (rows_by (map K.slot) others.now) start len }
    ensures others { IfErr result IsGrowthError }
{
    copy_all(&mut keys.values, keys.sources.as_slice(), &mut keys.parts)?;
    append_keys(&mut keys.values, others, start, len, by)
}

// Appends `len` keys of others from row `start` on, each greater by `by`, and 0 where one is null.
fn append_keys<K: DictionaryKey>(
    keys: &mut Vec<K>,
    others: &PrimitiveArray<K>,
    start: usize,
    len: usize,
    by: usize,
) -> Result<(), Error>
    requires part { start + len ≤ length (rows_by (map K.slot) others.now) }
    requires keys { All IsKeyIn (rows_by (map K.slot) others.now) }
    ensures ok { OnOk result (map K.slot keys.new.items
        ≡ map K.slot keys.old.items
        ++ map (grown_key by) (sliced (rows_by (map K.slot) others.now) start len)) }
    ensures fits { OnOk result (All (KeyFits K.greatest by)
        (sliced (rows_by (map K.slot) others.now) start len)) }
    ensures overflow { result ≡ Err Error.Overflow
        → SomePasses K.greatest by (rows_by (map K.slot) others.now) start len }
    ensures others { IfErr result IsGrowthError }
{
    // There are as many rows as a `usize` counts.
    let _ = others.len();
    keys.reserve(len)?;
    for i in start..start + len {
        keys.push(grown(others, i, by)?)?;
    }
    Ok(())
}

// The key of row `i`, greater by `by`, and 0 where it is null.
fn grown<K: DictionaryKey>(others: &PrimitiveArray<K>, i: usize, by: usize) -> Result<K, Error>
    requires within { i < length (rows_by (map K.slot) others.now) }
    requires key { IsKeyIn (slice_index_or (rows_by (map K.slot) others.now) i Null) }
    ensures ok { IfOk result (λ key. K.slot key
        ≡ grown_key by (slice_index_or (rows_by (map K.slot) others.now) i Null)) }
    ensures fits { OnOk result (KeyFits K.greatest by
        (slice_index_or (rows_by (map K.slot) others.now) i Null)) }
    ensures err { IsOkUnless result Error.Overflow }
    ensures overflow { result ≡ Err Error.Overflow
        → PassesGreatest K.greatest by (slice_index_or (rows_by (map K.slot) others.now) i Null) }
{
    // The validity has a bit for each row.
    let _ = others.validity();
    if !others.is_valid(i) {
        return Ok(K::default());
    }
    let Some(grown) = others.value(i).to_usize().checked_add(by) else {
        return Err(Error::Overflow);
    };
    let Some(key) = K::from_usize(grown) else {
        return Err(Error::Overflow);
    };
    Ok(key)
}

// Appends so many keys 0.
fn append_zeros<K: DictionaryKey>(
    keys: &mut GrowableParts<K>,
    additional: usize,
) -> Result<(), Error>
    ensures same { keys.new.0 ≡ keys.old.0 }
    ensures ok { OnOk result (map K.slot keys.new.1 ≡ map K.slot keys.old.1 ++ replicate additional zero_key) }
    ensures err { IsOkUnless result Error.OutOfMemory }
{
    keys.append_zeros(additional)
}

// An array of keys.
fn into_array<K: DictionaryKey>(
    alloc: Global,
    data_type: DataType,
    keys: GrowableParts<K>,
    validity: Option<Bitmap>,
) -> Result<PrimitiveArray<K>, Error>
    requires kind { IsCarriedAs (physical.Primitive K.PRIMITIVE) (type_of data_type) }
    requires fits { FitsRows validity (length keys.1) }
    ensures ok { IfOk result (λ array. rows_by (map K.slot) array ≡ masked validity (map K.slot keys.1)) }
    ensures err { IsOkUnless result Error.OutOfMemory }
{
    let keys = Buffer::from_vec(alloc, keys.into_vec()?)?;
    Ok(PrimitiveArray::new(data_type, keys, validity))
}
