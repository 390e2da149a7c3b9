//! Rows of bytes that grow by those of arrays, which are read and appended at once.

ghost use Rattle.std.specs.Prelude.{◌≡◌, ◌+◌, ◌-◌, ◌<◌, ◌≤◌, [], ◌++◌, Bool, List, ℕ, length, map, replicate, slice_index, slice_index_or, Err, IfOk, IfErr, OnOk, OnErr, IsOkUnless};
ghost use Rattle.std.specs.List.{All};
ghost use Rattle.std.specs.Vec.{vec_len, vec_capacity};
ghost use Rattle.arrow_types.specs.declared.error.Error.{Error};
ghost use Rattle.arrow_types.specs.Fits.{byte_count};
ghost use Rattle.arrow_types.specs.TypeOf.{type_of};
ghost use Rattle.arrow_memory.specs.Grown.{IsGrowthError};
ghost use Rattle.arrow_memory.specs.Offsets.{IsOffsets, last_of, valid_items, with_rows, with_valid_rows};
ghost use Rattle.arrow_memory.specs.Sliced.{sliced};
ghost use Rattle.arrow_flat.specs.ByteRows.{row_bytes};
ghost use Rattle.arrow_flat.specs.Faults.{IsCarriedAs};
ghost use Rattle.arrow_flat.specs.Parts.{FitsRows};
ghost use Rattle.arrow_flat.specs.Pieces.{pieces};
ghost use Rattle.arrow_flat_growable.specs.Bytes.{BeginsWith, IsBytesType, stored_rows};
ghost use Rattle.arrow_flat_growable.specs.GrownParts.{AppendsParts, IsBound};
ghost use Rattle.arrow_flat_growable.specs.GrownRows.{filled, total, valid_values};

use crate::growable::empty_nulls::are_nulls_empty;
use crate::growable::parts::{GrowableParts, Part, copy_all};
use arrow_arrays::array::AnyRows;
use arrow_flat::array::{ByteKind, ByteRows, FlatArray};
use arrow_memory::bitmap::{Bitmap, Mask, WORD_BITS, WordRuns};
use arrow_memory::buffer::Buffer;
use arrow_memory::bytes::append_span;
use arrow_memory::offset::{Offsets, OffsetsBuffer};
use arrow_types::datatypes::DataType;
use arrow_types::error::Error;
use arrow_types::types::Offset;
use std::alloc::Global;
use std::marker::{Model, PhantomData};

/// How many bytes a run of rows is copied as where it has no more: eight moves.
const BLOCK: usize = 128;

/// Which rows of bytes can grow.
pub trait GrowableKind: AnyRows {
    // a row may be without bytes
    ghost allows_empty: { Self.Allows [] };

    // a row has the bytes that are counted
    ghost counts: { (bytes : List ℕ) → byte_count (Self.slot bytes) ≡ length bytes };

    // arrays of them lie in memory as texts or bytes
    ghost lies_as_bytes: { (is_large : Bool) → IsBytesType is_large (Self.physical_type is_large) };
}

/// Rows of bytes that lie one behind the other, and that rows are appended to. A null row has no bytes. Their bytes wait as parts.
#[derive(Drop)]
pub(super) struct GrownBytes<O: Offset, K: ByteKind> {
    offsets: Offsets<O>,
    bytes: GrowableParts<u8>,
    kind: PhantomData<K>,
}

impl<O: Offset, K: ByteKind> Model for GrownBytes<O, K> {
    ghost use Rattle.arrow_flat.specs.ByteRows.{ByteParts, byte_parts_code};
    ghost use Rattle.std.specs.Coded.{coded_list, coded×, coded_ℕ};
    ghost use Rattle.std.specs.Prelude.{ℕ, List};
    ghost use Rattle.arrow_flat_growable.specs.Bytes.{AreGrownBytes};

    // the bytes of the arrays that are bound, and the rows
    ghost Value = { List (List ℕ) × ByteParts };

    ghost coded = { coded× (coded_list (coded_list coded_ℕ)) byte_parts_code };

    ghost view = { λ a. (a.bytes.0, record { offsets = a.offsets; bytes = a.bytes.1 }) };

    ghost invariant = { λ a. AreGrownBytes K.Allows (record { offsets = a.offsets; bytes = a.bytes.1 }) };
}

impl<O: Offset, K: GrowableKind> GrownBytes<O, K> {
    /// No rows, and room for so many, but for their bytes.
    pub(super) fn empty(
        alloc: Global,
        bytes: GrowableParts<u8>,
        capacity: usize,
    ) -> Result<GrownBytes<O, K>, Error>
        requires { bytes.1 ≡ [] }
        ensures bytes { IfOk result (λ rows. rows.0 ≡ bytes.0) }
        ensures ok { IfOk result (λ rows. row_bytes rows.1 ≡ []) }
        ensures err { IsOkUnless result Error.OutOfMemory }
    {
        Ok(GrownBytes {
            offsets: Offsets::with_capacity(alloc, capacity)?,
            bytes,
            kind: PhantomData,
        })
    }

    /// No rows, which grow by those of the same arrays.
    pub(super) fn fresh(&self) -> Result<GrownBytes<O, K>, Error>
        ensures bytes { IfOk result (λ rows. rows.0 ≡ self.now.0) }
        ensures ok { IfOk result (λ rows. row_bytes rows.1 ≡ []) }
        ensures err { IsOkUnless result Error.OutOfMemory }
    {
        GrownBytes::empty(self.allocator(), self.bytes.without_values()?, 0)
    }

    /// The allocator of the rows.
    pub(super) fn allocator(&self) -> Global {
        self.bytes.allocator()
    }

    /// Makes room for so many bytes more, where memory is given.
    pub(super) fn reserve_bytes(&mut self, additional: usize)
        ensures { self.new ≡ self.old }
    {
        // It is a wish: a copy asks for what it needs.
        let _ = self.bytes.values.reserve(additional);
    }

    /// How many bytes all rows have.
    pub(super) fn total(&self) -> usize
        ensures bytes { result ≡ total (row_bytes self.now.1) }
        ensures fits { result ≤ O.greatest }
    {
        // The last offset is the count of all bytes, and at most the greatest of its type.
        prove!(0 < self.offsets.len());
        self.offsets.last().to_usize()
    }

    /// Appends so many rows of no bytes.
    pub(super) fn append_empty(&mut self, additional: usize) -> Result<(), Error>
        ensures same { self.new.0 ≡ self.old.0 }
        ensures ok { OnOk result (row_bytes self.new.1 ≡ row_bytes self.old.1 ++ replicate additional []) }
        ensures err { IsOkUnless result Error.OutOfMemory }
    {
        prove!(0 < self.offsets.len());
        self.offsets.extend_constant(additional)
    }

    /// Appends rows of an array, null or not, with their bytes.
    pub(super) fn append_all(
        &mut self,
        index: usize,
        array: &FlatArray<ByteRows<O, K>>,
        start: usize,
        len: usize,
    ) -> Result<(), Error>
        requires some { 0 < len }
        requires bound { IsBound self.old.0 index array.now.values.bytes }
        requires part { start + len ≤ length (row_bytes array.now.values) }
        ensures same { self.new.0 ≡ self.old.0 }
        ensures ok { OnOk result (row_bytes self.new.1
            ≡ row_bytes self.old.1 ++ sliced (row_bytes array.now.values) start len) }
        ensures overflow { result ≡ Err Error.Overflow
            → O.greatest < total (row_bytes self.old.1 ++ sliced (row_bytes array.now.values) start len) }
        ensures others { IfErr result IsGrowthError }
    {
        let (rows, values) = parts(array);
        copy_rows(
            &mut self.offsets,
            &mut self.bytes,
            index,
            rows,
            values,
            start,
            len,
        )
    }

    /// Appends rows that offsets name in bytes, under a validity: those that are null without bytes.
    fn append_valid(
        &mut self,
        index: usize,
        rows: &OffsetsBuffer<O>,
        values: &[u8],
        validity: &Bitmap,
        start: usize,
        len: usize,
    ) -> Result<(), Error>
        requires some { 0 < len }
        requires part { start + len ≤ length (pieces rows.now values.now) }
        requires covered { start + len ≤ length validity.now }
        requires within { last_of rows.now ≤ length values.now }
        requires allowed { All K.Allows (pieces rows.now values.now) }
        requires bound { IsBound self.old.0 index values.now }
        ensures same { self.new.0 ≡ self.old.0 }
        ensures ok { OnOk result (row_bytes self.new.1 ≡ row_bytes self.old.1
            ++ filled (sliced validity.now start len) (sliced (pieces rows.now values.now) start len)) }
        ensures overflow { result ≡ Err Error.Overflow → O.greatest < total (row_bytes self.old.1
            ++ filled (sliced validity.now start len) (sliced (pieces rows.now values.now) start len)) }
        ensures others { IfErr result IsGrowthError }
    {
        copy_valid_rows(
            &mut self.offsets,
            &mut self.bytes,
            index,
            rows,
            values,
            validity,
            start,
            len,
        )
    }

    /// Appends rows of an array from row `start` on, a row for each bit: those without bytes whose bit is not set.
    pub(super) fn append_under(
        &mut self,
        index: usize,
        array: &FlatArray<ByteRows<O, K>>,
        start: usize,
        bits: &Mask,
    ) -> Result<(), Error>
        requires within { start + length bits.now ≤ length (row_bytes array.now.values) }
        requires bound { IsBound self.old.0 index array.now.values.bytes }
        ensures same { self.new.0 ≡ self.old.0 }
        ensures ok { OnOk result (row_bytes self.new.1 ≡ row_bytes self.old.1
            ++ filled bits.now (sliced (row_bytes array.now.values) start (length bits.now))) }
        ensures overflow { result ≡ Err Error.Overflow → O.greatest < total (row_bytes self.old.1
            ++ filled bits.now (sliced (row_bytes array.now.values) start (length bits.now))) }
        ensures others { IfErr result IsGrowthError }
    {
        let len = bits.len();
        if len == 0 {
            return Ok(());
        }
        let (rows, values) = parts(array);
        if len <= WORD_BITS && self.offsets.has_room_for(rows, start, len) {
            return part_masked_rows(&mut self.offsets, &mut self.bytes, index, rows, bits, start);
        }
        let part = part_of(rows, start, len)?;
        let bits = bits.to_bitmap(self.bytes.allocator())?;
        self.append_valid(index, &part, values, &bits, 0, len)
    }

    /// Appends rows of an array, those that are null without bytes.
    pub(super) fn append(
        &mut self,
        index: usize,
        array: &FlatArray<ByteRows<O, K>>,
        start: usize,
        len: usize,
    ) -> Result<(), Error>
        requires within { start + len ≤ length (row_bytes array.now.values) }
        requires bound { IsBound self.old.0 index array.now.values.bytes }
        ensures same { self.new.0 ≡ self.old.0 }
        ensures ok { OnOk result (row_bytes self.new.1
            ≡ row_bytes self.old.1 ++ stored_rows array.now.validity array.now.values start len) }
        ensures overflow { result ≡ Err Error.Overflow
            → O.greatest < total (row_bytes self.old.1
            ++ stored_rows array.now.validity array.now.values start len) }
        ensures others { IfErr result IsGrowthError }
    {
        if len == 0 {
            return Ok(());
        }
        prove!(len <= array.len());
        match array.validity() {
            None => self.append_all(index, array, start, len),
            Some(validity) => {
                let (rows, values) = parts(array);
                self.append_valid(index, rows, values, validity, start, len)
            }
        }
    }

    /// An array of all rows under a validity.
    pub(super) fn into_array(
        self,
        data_type: DataType,
        validity: Option<Bitmap>,
    ) -> Result<FlatArray<ByteRows<O, K>>, Error>
        requires kind { IsCarriedAs (K.physical_type O.IS_LARGE) (type_of data_type) }
        requires fits { FitsRows validity (length (row_bytes self.1)) }
        ensures ok { IfOk result (λ array. array
            ≡ record { arrow_type = type_of data_type; values = self.1; validity = validity }) }
        ensures err { IsOkUnless result Error.OutOfMemory }
    {
        let alloc = self.allocator();
        let GrownBytes { offsets, bytes, .. } = self;
        let offsets = offsets.into_buffer()?;
        let bytes = Buffer::from_vec(alloc, bytes.into_vec()?)?;
        Ok(FlatArray::<ByteRows<O, K>>::new(data_type, offsets, bytes, validity))
    }
}

// Where the rows of an array lie, and the bytes that they lie in.
fn parts<O: Offset, K: ByteKind>(array: &FlatArray<ByteRows<O, K>>) -> (&OffsetsBuffer<O>, &[u8])
    ensures rows { row_bytes array.now.values ≡ pieces result.0.now result.1.now }
    ensures bytes { result.1.now ≡ array.now.values.bytes }
    ensures within { last_of result.0.now ≤ length result.1.now }
    ensures allowed { All K.Allows (pieces result.0.now result.1.now) }
{
    (array.offsets(), array.values().as_slice())
}

// The offsets of `len` rows from row `start` on, by themselves.
fn part_of<O: Offset>(
    rows: &OffsetsBuffer<O>,
    start: usize,
    len: usize,
) -> Result<OffsetsBuffer<O>, Error>
    requires { start + len < length rows.now }
    ensures sound { IsOffsets rows.now }
    ensures ok { IfOk result (λ part. part ≡ sliced rows.now start (len + 1)) }
    ensures err { IsOkUnless result Error.OutOfMemory }
{
    prove!(start < rows.len());
    let mut part = rows.clone()?;
    part.slice(start, len + 1);
    Ok(part)
}

// Appends rows that others name in their bytes. Where that is refused, all is as before.
fn copy_rows<O: Offset>(
    offsets: &mut Offsets<O>,
    bytes: &mut GrowableParts<u8>,
    index: usize,
    rows: &OffsetsBuffer<O>,
    values: &[u8],
    start: usize,
    len: usize,
) -> Result<(), Error>
    requires some { 0 < len }
    requires part { start + len < length rows.now }
    requires within { last_of rows.now ≤ length values.now }
    requires bound { IsBound bytes.old.0 index values.now }
    ensures sound { IsOffsets offsets.old }
    ensures rows_sound { IsOffsets rows.now }
    ensures same { bytes.new.0 ≡ bytes.old.0 }
    ensures ok { OnOk result ((offsets.new ≡ with_rows offsets.old rows.now start len)
        × (bytes.new.1 ≡ bytes.old.1
        ++ sliced values.now (slice_index rows.now start)
        (slice_index rows.now (start + len) - slice_index rows.now start))) }
    ensures overflow { result ≡ Err Error.Overflow
        → O.greatest < last_of offsets.old +
        (slice_index rows.now (start + len) - slice_index rows.now start) }
    ensures others { IfErr result IsGrowthError }
    ensures unchanged { OnErr result ((offsets.new ≡ offsets.old) × (bytes.new.1 ≡ bytes.old.1)) }
{
    prove!(0 < offsets.len());
    let (first, end) = rows.range(start, len);
    // The bytes are those of the source.
    let _ = values.len();
    bytes.copy_many()?;
    bytes.parts.reserve(1)?;
    offsets.try_extend_from_slice(rows, start, len)?;
    let Ok(()) = bytes.parts.push(Part::Of(index, first, end - first)) else {
        unreachable!();
    };
    Ok(())
}

// Appends rows that others name in their bytes, without bytes where their bit is not set. Where that is
// refused, all is as before.
fn copy_valid_rows<O: Offset>(
    offsets: &mut Offsets<O>,
    bytes: &mut GrowableParts<u8>,
    index: usize,
    rows: &OffsetsBuffer<O>,
    values: &[u8],
    validity: &Bitmap,
    start: usize,
    len: usize,
) -> Result<(), Error>
    requires some { 0 < len }
    requires part { start + len < length rows.now }
    requires covered { start + len ≤ length validity.now }
    requires within { last_of rows.now ≤ length values.now }
    requires bound { IsBound bytes.old.0 index values.now }
    ensures sound { IsOffsets offsets.old }
    ensures rows_sound { IsOffsets rows.now }
    ensures same { bytes.new.0 ≡ bytes.old.0 }
    ensures ok { OnOk result ((offsets.new
        ≡ with_valid_rows offsets.old (sliced validity.now start len) rows.now start)
        × (bytes.new.1 ≡ bytes.old.1
        ++ valid_values (sliced validity.now start len) rows.now values.now start)) }
    ensures overflow { result ≡ Err Error.Overflow
        → O.greatest < last_of offsets.old + valid_items (sliced validity.now start len) rows.now start }
    ensures others { IfErr result IsGrowthError }
    ensures unchanged { OnErr result ((offsets.new ≡ offsets.old) × (bytes.new.1 ≡ bytes.old.1)) }
{
    if are_nulls_empty(rows, validity, start, len) {
        return copy_rows(offsets, bytes, index, rows, values, start, len);
    }
    copy_set_rows(offsets, bytes, rows, values, validity, start, len)
}

// The same of at most 64 rows from row `start` on, a row for each bit of a mask, for whose bytes there is room: their bytes wait.
fn part_masked_rows<O: Offset>(
    offsets: &mut Offsets<O>,
    bytes: &mut GrowableParts<u8>,
    index: usize,
    rows: &OffsetsBuffer<O>,
    bits: &Mask,
    start: usize,
) -> Result<(), Error>
    requires some { 0 < length bits.now }
    requires in_word { length bits.now ≤ 64 }
    requires part { start + length bits.now < length rows.now }
    requires there { index < length bytes.old.0 }
    requires within { last_of rows.now ≤ length (slice_index_or bytes.old.0 index []) }
    requires room { (last_of offsets.old +
        (slice_index rows.now (start + length bits.now) - slice_index rows.now start)) ≤ O.greatest }
    ensures sound { IsOffsets offsets.old }
    ensures rows_sound { IsOffsets rows.now }
    ensures same { bytes.new.0 ≡ bytes.old.0 }
    ensures ok { OnOk result ((offsets.new ≡ with_valid_rows offsets.old bits.now rows.now start)
        × (bytes.new.1 ≡ bytes.old.1
        ++ valid_values bits.now rows.now (slice_index_or bytes.old.0 index []) start)) }
    ensures err { IsOkUnless result Error.OutOfMemory }
    ensures unchanged { OnErr result ((offsets.new ≡ offsets.old) × (bytes.new.1 ≡ bytes.old.1)) }
{
    prove!(0 < offsets.len());
    prove!(start < rows.len());
    let len = bits.len();
    bytes.copy_many()?;
    bytes.parts.reserve(len)?;
    let before = offsets.last().to_usize();
    offsets.extend_from_word(rows, start, bits.word(), len)?;
    let count = offsets.last().to_usize() - before;
    push_valid(
        &mut bytes.parts,
        index,
        rows,
        bits.word_runs(),
        start,
        len,
        count,
    );
    Ok(())
}

// Appends the bytes of those of `len` rows from row `start` on whose bit is set, so many: as one part where no other row has any,
// and else as a part for each run. There is room for as many parts as there are rows.
#[inline(always)]
fn push_valid<O: Offset>(
    parts: &mut Vec<Part<u8>>,
    index: usize,
    rows: &OffsetsBuffer<O>,
    runs: WordRuns,
    start: usize,
    len: usize,
    count: usize,
)
    requires some { 0 < len }
    requires part { start + len < length rows.now }
    requires covered { length runs ≡ len }
    requires room { vec_len parts.old + len ≤ vec_capacity parts.old }
    requires counted { count ≡ valid_items runs rows.now start }
    ensures { (sources : List (List ℕ)) → index < length sources
        → last_of rows.now ≤ length (slice_index_or sources index [])
        → AppendsParts sources parts.old.items parts.new.items
        (valid_values runs rows.now (slice_index_or sources index []) start) }
{
    let (first, end) = rows.range(start, len);
    if count < end - first {
        push_runs(parts, index, rows, runs, start, len);
        return;
    }
    parts.push_reserved(Part::Of(index, first, end - first));
}

// Appends a part of a source for each run of those of `len` rows from row `start` on whose bit is set. There is room for as many
// as there are rows.
fn push_runs<O: Offset>(
    parts: &mut Vec<Part<u8>>,
    index: usize,
    rows: &OffsetsBuffer<O>,
    runs: WordRuns,
    start: usize,
    len: usize,
)
    requires part { start + len < length rows.now }
    requires covered { length runs ≡ len }
    requires room { vec_len parts.old + len ≤ vec_capacity parts.old }
    ensures { (sources : List (List ℕ)) → index < length sources
        → last_of rows.now ≤ length (slice_index_or sources index [])
        → AppendsParts sources parts.old.items parts.new.items
        (valid_values runs rows.now (slice_index_or sources index []) start) }
{
    prove!(start < rows.len());
    let mut left = runs;
    let end = start + len;
    let mut row = start;
    while row < end {
        let (nulls, count) = left.next_set();
        let (first, last) = rows.range(row + nulls, count);
        parts.push_reserved(Part::Of(index, first, last - first));
        row += nulls + count;
    }
}

// The same, run by run.
fn copy_set_rows<O: Offset>(
    offsets: &mut Offsets<O>,
    bytes: &mut GrowableParts<u8>,
    rows: &OffsetsBuffer<O>,
    values: &[u8],
    validity: &Bitmap,
    start: usize,
    len: usize,
) -> Result<(), Error>
    requires some { 0 < len }
    requires part { start + len < length rows.now }
    requires covered { start + len ≤ length validity.now }
    requires within { last_of rows.now ≤ length values.now }
    ensures sound { IsOffsets offsets.old }
    ensures rows_sound { IsOffsets rows.now }
    ensures same { bytes.new.0 ≡ bytes.old.0 }
    ensures ok { OnOk result ((offsets.new
        ≡ with_valid_rows offsets.old (sliced validity.now start len) rows.now start)
        × (bytes.new.1 ≡ bytes.old.1
        ++ valid_values (sliced validity.now start len) rows.now values.now start)) }
    ensures overflow { result ≡ Err Error.Overflow
        → O.greatest < last_of offsets.old + valid_items (sliced validity.now start len) rows.now start }
    ensures others { IfErr result IsGrowthError }
    ensures unchanged { OnErr result ((offsets.new ≡ offsets.old) × (bytes.new.1 ≡ bytes.old.1)) }
{
    prove!(0 < offsets.len());
    prove!(start < rows.len());
    copy_all(
        &mut bytes.values,
        bytes.sources.as_slice(),
        &mut bytes.parts,
    )?;
    append_set_rows(
        offsets,
        &mut bytes.values,
        rows,
        values,
        validity,
        start,
        len,
    )
}

// The same of bytes of which no part waits.
fn append_set_rows<O: Offset>(
    offsets: &mut Offsets<O>,
    bytes: &mut Vec<u8>,
    rows: &OffsetsBuffer<O>,
    values: &[u8],
    validity: &Bitmap,
    start: usize,
    len: usize,
) -> Result<(), Error>
    requires some { 0 < len }
    requires part { start + len < length rows.now }
    requires covered { start + len ≤ length validity.now }
    requires within { last_of rows.now ≤ length values.now }
    ensures sound { IsOffsets offsets.old }
    ensures rows_sound { IsOffsets rows.now }
    ensures ok { OnOk result ((offsets.new
        ≡ with_valid_rows offsets.old (sliced validity.now start len) rows.now start)
        × (bytes.new.items ≡ bytes.old.items
        ++ valid_values (sliced validity.now start len) rows.now values.now start)) }
    ensures overflow { result ≡ Err Error.Overflow
        → O.greatest < last_of offsets.old + valid_items (sliced validity.now start len) rows.now start }
    ensures others { IfErr result IsGrowthError }
    ensures unchanged { OnErr result ((offsets.new ≡ offsets.old) × (bytes.new.items ≡ bytes.old.items)) }
{
    prove!(0 < offsets.len());
    prove!(start < rows.len());
    let done = bytes.len();
    let copied = append_valid_rows(offsets, bytes, rows, values, validity, start, len);
    if copied.is_err() {
        bytes.truncate(done);
    }
    copied
}

// The same, but that some bytes may be there where it is refused.
fn append_valid_rows<O: Offset>(
    offsets: &mut Offsets<O>,
    bytes: &mut Vec<u8>,
    rows: &OffsetsBuffer<O>,
    values: &[u8],
    validity: &Bitmap,
    start: usize,
    len: usize,
) -> Result<(), Error>
    requires some { 0 < len }
    requires part { start + len < length rows.now }
    requires covered { start + len ≤ length validity.now }
    requires within { last_of rows.now ≤ length values.now }
    ensures ok { OnOk result ((offsets.new
        ≡ with_valid_rows offsets.old (sliced validity.now start len) rows.now start)
        × (bytes.new.items ≡ bytes.old.items
        ++ valid_values (sliced validity.now start len) rows.now values.now start)) }
    ensures overflow { result ≡ Err Error.Overflow
        → O.greatest < last_of offsets.old + valid_items (sliced validity.now start len) rows.now start }
    ensures others { IfErr result IsGrowthError }
    ensures unchanged { OnErr result
        ((offsets.new ≡ offsets.old) × BeginsWith bytes.old.items bytes.new.items) }
{
    let (first, end) = rows.range(start, len);
    // Room for the bytes of all these rows, which are no more than the array has. It is a wish: a null row takes none.
    let _ = bytes.reserve(end - first);
    append_valid_bytes(bytes, rows, values, validity, start, len)?;
    offsets.try_extend_from_valid(rows, validity, start, len)
}

// Appends the bytes of those of `len` rows from row `start` on whose bit is set, a run at a time. Where that is
// refused, some may be there.
fn append_valid_bytes<O: Offset>(
    bytes: &mut Vec<u8>,
    rows: &OffsetsBuffer<O>,
    values: &[u8],
    validity: &Bitmap,
    start: usize,
    len: usize,
) -> Result<(), Error>
    requires part { start + len < length rows.now }
    requires covered { start + len ≤ length validity.now }
    requires within { last_of rows.now ≤ length values.now }
    ensures ok { OnOk result (bytes.new.items
        ≡ bytes.old.items ++ valid_values (sliced validity.now start len) rows.now values.now start) }
    ensures before { OnErr result (BeginsWith bytes.old.items bytes.new.items) }
    ensures err { IsOkUnless result Error.OutOfMemory }
{
    prove!(start < rows.len());
    let mut left = validity.runs(start, len);
    let end = start + len;
    let mut row = start;
    while row < end {
        let (nulls, count) = left.next_set();
        append_bytes(bytes, rows, values, row + nulls, count)?;
        row += nulls + count;
    }
    Ok(())
}

// Appends the bytes of `len` rows from row `start` on. Where that is refused, all is as before. A block may reach behind these
// rows, up to the end of all bytes: so almost every run is copied as one, which is foreseen before its offsets are read.
fn append_bytes<O: Offset>(
    bytes: &mut Vec<u8>,
    rows: &OffsetsBuffer<O>,
    values: &[u8],
    start: usize,
    len: usize,
) -> Result<(), Error>
    requires part { start + len < length rows.now }
    requires within { last_of rows.now ≤ length values.now }
    ensures ok { OnOk result (bytes.new.items
        ≡ bytes.old.items ++ sliced values.now (slice_index rows.now start)
        (slice_index rows.now (start + len) - slice_index rows.now start)) }
    ensures unchanged { OnErr result (bytes.new.items ≡ bytes.old.items) }
    ensures err { IsOkUnless result Error.OutOfMemory }
{
    if len == 0 {
        return Ok(());
    }
    let (first, end) = rows.range(start, len);
    append_span(bytes, values, first, end, values.len(), BLOCK)
}

/// The bytes of each array, shared.
pub(super) fn bytes_of<O: Offset, K: ByteKind>(
    alloc: Global,
    arrays: &[&FlatArray<ByteRows<O, K>>],
) -> Result<Vec<Buffer<u8>>, Error>
    ensures ok { IfOk result (λ sources. sources.items ≡ map (λ r. r.now.values.bytes) arrays.now) }
    ensures err { IsOkUnless result Error.OutOfMemory }
{
    let mut sources = Vec::with_capacity(alloc, arrays.len())?;
    for array in arrays {
        sources.push(array.values().clone()?)?;
    }
    Ok(sources)
}
