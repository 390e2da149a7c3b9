//! Texts and bytes under construction: few rows of a call wait for those of others.

ghost use Rattle.std.specs.Prelude.{◌≡◌, ◌+◌, ◌<◌, ◌≤◌, ◌++◌, [], true, Bool, List, ℕ, length, map, replicate, Err, IfOk, IfErr, IfSome, OnErr, OnOk, IsOkUnless, IsTrue, if◌then◌else◌, refl};
ghost use Rattle.std.specs.List.{All};
ghost use Rattle.arrow_types.specs.declared.error.Error.{Error};
ghost use Rattle.arrow_types.specs.Fits.{byte_count};
ghost use Rattle.arrow_types.specs.Physical.{physical_type_of};
ghost use Rattle.arrow_memory.specs.Grown.{IsGrowthError};
ghost use Rattle.arrow_memory.specs.Sliced.{sliced};
ghost use Rattle.arrow_flat.specs.ByteRows.{ByteParts, byte_slots, row_bytes};
ghost use Rattle.arrow_flat_growable.specs.Bytes.{SparesBytes, stored_rows};
ghost use Rattle.arrow_flat_growable.specs.GrownRows.{filled, total};
ghost use Rattle.arrow_flat_growable.specs.Waiting.{BindsParts, JoinsLast, LieThere, WaitBehind, Waits, WaitsFor, waiting_rows, with_waiting};

use crate::growable::byte_rows::{GrowableKind, GrownBytes, bytes_of};
use crate::growable::flat::GrowableValues;
use crate::growable::parts::GrowableParts;
use arrow_arrays::array::{AnyArray, AnyOffset};
use arrow_flat::array::{ByteKind, ByteRows, FlatArray};
use arrow_memory::bitmap::{Bitmap, Mask, WORD_BITS};
use arrow_types::datatypes::DataType;
use arrow_types::error::Error;
use arrow_types::types::{Index, Offset};
use std::alloc::Global;
use std::marker::Model;

/// How many calls' rows wait, at most; those of calls that name rows one behind the other count as one.
const CALLS: usize = 64;

/// Rows of bytes that lie one behind the other, and that rows are appended to. A null row has no bytes. Few rows of a call wait,
/// and are measured and copied with those of other calls: a processor reads many offsets at once, where it waits for few at a
/// time between calls.
#[derive(Drop)]
pub struct GrowableBytes<O: Offset, K: ByteKind> {
    arrays: Vec<FlatArray<ByteRows<O, K>>>,
    rows: GrownBytes<O, K>,
    waiting: Vec<Waiting>,
    /// At least as many as all rows have bytes, those that wait too.
    most: usize,
}

/// Rows that wait.
#[derive(Clone, Copy)]
pub(crate) enum Waiting {
    /// Those of the array with a number, from a row on, so many.
    Of(usize, usize, usize),
    /// The same of at most 64 rows, without bytes where their bit of a word is not set.
    Under(usize, usize, usize, u64),
    /// So many without bytes.
    Empty(usize),
}

impl<O: Offset, K: ByteKind> Model for GrowableBytes<O, K> {
    ghost use Rattle.std.specs.Coded.{coded_list, coded×, coded_ℕ};
    ghost use Rattle.std.specs.Prelude.{ℕ, List, map};
    ghost use Rattle.arrow_flat.specs.ByteRows.{ByteParts, byte_parts_code, row_bytes};
    ghost use Rattle.arrow_flat_growable.specs.Waiting.{AreWaiting, with_waiting};

    // how the rows of the arrays that are bound lie, and the rows
    ghost Value = { List ByteParts × List (List ℕ) };

    ghost coded = { coded× (coded_list byte_parts_code) (coded_list (coded_list coded_ℕ)) };

    ghost view = { λ a. (
      map (λ x. x.values) a.arrays.items,
      with_waiting (map (λ x. x.values) a.arrays.items) (row_bytes a.rows.1) a.waiting.items,
    ) };

    ghost invariant = { λ a. AreWaiting (map (λ x. x.values) a.arrays.items) a.rows.0 (row_bytes a.rows.1)
        a.waiting.items a.most O.greatest };
}

impl<O: Offset, K: GrowableKind> GrowableBytes<O, K> {
    /// Appends rows of an array, those that are null without bytes.
    fn append(
        &mut self,
        index: usize,
        array: &FlatArray<ByteRows<O, K>>,
        start: usize,
        len: usize,
    ) -> Result<(), Error>
        requires within { start + len ≤ length (row_bytes array.now.values) }
        requires bound { BindsParts self.old.0 index array.now.values }
        ensures same { self.new.0 ≡ self.old.0 }
        ensures ok { OnOk result (self.new.1
            ≡ self.old.1 ++ stored_rows array.now.validity array.now.values start len) }
        ensures few { OnOk result (total self.new.1 ≤ O.greatest) }
        ensures overflow { result ≡ Err Error.Overflow → O.greatest
            < total (self.old.1 ++ stored_rows array.now.validity array.now.values start len) }
        ensures others { IfErr result IsGrowthError }
    {
        if self.wait_for(index, array, start, len)? {
            return Ok(());
        }
        copy_waiting(
            &mut self.rows,
            &self.arrays,
            &mut self.waiting,
            &mut self.most,
        )?;
        let appended = self.rows.append(index, array, start, len);
        self.most = self.rows.total();
        appended
    }

    /// Appends rows of an array from row `start` on, a row for each bit: those without bytes whose bit is not set.
    fn append_under(
        &mut self,
        index: usize,
        array: &FlatArray<ByteRows<O, K>>,
        start: usize,
        bits: &Mask,
    ) -> Result<(), Error>
        requires within { start + length bits.now ≤ length (row_bytes array.now.values) }
        requires bound { BindsParts self.old.0 index array.now.values }
        ensures same { self.new.0 ≡ self.old.0 }
        ensures ok { OnOk result (self.new.1 ≡ self.old.1
            ++ filled bits.now (sliced (row_bytes array.now.values) start (length bits.now))) }
        ensures few { OnOk result (total self.new.1 ≤ O.greatest) }
        ensures overflow { result ≡ Err Error.Overflow → O.greatest < total (self.old.1
            ++ filled bits.now (sliced (row_bytes array.now.values) start (length bits.now))) }
        ensures others { IfErr result IsGrowthError }
    {
        if self.wait_under(index, array, start, bits)? {
            return Ok(());
        }
        copy_waiting(
            &mut self.rows,
            &self.arrays,
            &mut self.waiting,
            &mut self.most,
        )?;
        let appended = self.rows.append_under(index, array, start, bits);
        self.most = self.rows.total();
        appended
    }

    /// Appends so many rows of no bytes.
    fn append_empty(&mut self, additional: usize) -> Result<(), Error>
        ensures same { self.new.0 ≡ self.old.0 }
        ensures ok { OnOk result (self.new.1 ≡ self.old.1 ++ replicate additional []) }
        ensures few { OnOk result (total self.new.1 ≤ O.greatest) }
        ensures err { IsOkUnless result Error.OutOfMemory }
    {
        self.copy_many()?;
        self.waiting.push(Waiting::Empty(additional))?;
        Ok(())
    }

    // Lets rows of an array wait, those that are null without bytes, where they are few and there is room: whether they do.
    #[inline(always)]
    fn wait_for(
        &mut self,
        index: usize,
        array: &FlatArray<ByteRows<O, K>>,
        start: usize,
        len: usize,
    ) -> Result<bool, Error>
        requires within { start + len ≤ length (row_bytes array.now.values) }
        requires bound { BindsParts self.old.0 index array.now.values }
        ensures same { self.new.0 ≡ self.old.0 }
        ensures ok { IfOk result (λ waits. self.new.1 ≡ (if waits
            then self.old.1 ++ stored_rows array.now.validity array.now.values start len else self.old.1)) }
        ensures few { IfOk result (λ waits. waits ≡ true → total self.new.1 ≤ O.greatest) }
        ensures err { IsOkUnless result Error.OutOfMemory }
    {
        if len == 0 || len > WORD_BITS {
            return Ok(false);
        }
        self.wait(few_rows(index, array, start, len), bytes_in(array))
    }

    // The same of a row for each bit: those without bytes whose bit is not set.
    #[inline(always)]
    fn wait_under(
        &mut self,
        index: usize,
        array: &FlatArray<ByteRows<O, K>>,
        start: usize,
        bits: &Mask,
    ) -> Result<bool, Error>
        requires within { start + length bits.now ≤ length (row_bytes array.now.values) }
        requires bound { BindsParts self.old.0 index array.now.values }
        ensures same { self.new.0 ≡ self.old.0 }
        ensures ok { IfOk result (λ waits. self.new.1 ≡ (if waits then self.old.1
            ++ filled bits.now (sliced (row_bytes array.now.values) start (length bits.now)) else self.old.1)) }
        ensures few { IfOk result (λ waits. waits ≡ true → total self.new.1 ≤ O.greatest) }
        ensures err { IsOkUnless result Error.OutOfMemory }
    {
        let len = bits.len();
        if len == 0 || len > WORD_BITS {
            return Ok(false);
        }
        self.wait(rows_under(index, start, bits), bytes_in(array))
    }

    // Lets rows wait that have at most so many bytes, where all rows then end at the greatest offset at most: whether they do.
    #[inline(always)]
    fn wait(&mut self, rows: Waiting, bytes: usize) -> Result<bool, Error>
        requires wait { Waits self.old.0 rows }
        requires few { total (waiting_rows self.old.0 rows) ≤ bytes }
        ensures same { self.new.0 ≡ self.old.0 }
        ensures ok { IfOk result (λ waits. self.new.1
            ≡ (if waits then self.old.1 ++ waiting_rows self.old.0 rows else self.old.1)) }
        ensures few { IfOk result (λ waits. waits ≡ true → total self.new.1 ≤ O.greatest) }
        ensures err { IsOkUnless result Error.OutOfMemory }
    {
        self.copy_many()?;
        let Some(most) = sum_within::<O>(self.most, bytes) else {
            return Ok(false);
        };
        push_rows(&mut self.waiting, rows)?;
        self.most = most;
        Ok(true)
    }

    // Appends the rows that wait, where there are many.
    #[inline(always)]
    fn copy_many(&mut self) -> Result<(), Error>
        ensures same { self.new.0 ≡ self.old.0 }
        ensures ok { OnOk result (self.new.1 ≡ self.old.1) }
        ensures err { IsOkUnless result Error.OutOfMemory }
    {
        if self.waiting.len() < CALLS {
            return Ok(());
        }
        copy_waiting(
            &mut self.rows,
            &self.arrays,
            &mut self.waiting,
            &mut self.most,
        )
    }
}

// Clones of arrays, which share what is stored.
fn shared<O: Offset, K: ByteKind>(
    alloc: Global,
    arrays: &[&FlatArray<ByteRows<O, K>>],
) -> Result<Vec<FlatArray<ByteRows<O, K>>>, Error>
    ensures ok { IfOk result (λ own. own.items ≡ map (λ r. r.now) arrays.now) }
    ensures err { IsOkUnless result Error.OutOfMemory }
{
    let mut own = Vec::with_capacity(alloc, arrays.len())?;
    for array in arrays {
        own.push((*array).clone()?)?;
    }
    Ok(own)
}

// So many rows of an array, from row `start` on, as they wait: those that are null without bytes.
#[inline(always)]
fn few_rows<O: Offset, K: ByteKind>(
    index: usize,
    array: &FlatArray<ByteRows<O, K>>,
    start: usize,
    len: usize,
) -> Waiting
    requires some { 0 < len }
    requires few { len ≤ 64 }
    requires within { start + len ≤ length (row_bytes array.now.values) }
    ensures { WaitsFor index array.now.values (stored_rows array.now.validity array.now.values start len)
        result }
{
    prove!(len <= array.len());
    match array.validity() {
        None => Waiting::Of(index, start, len),
        Some(validity) => rows_under(index, start, &Mask::from_part(validity, start, len)),
    }
}

// The same of a row for each bit: those without bytes whose bit is not set.
#[inline(always)]
fn rows_under(index: usize, start: usize, bits: &Mask) -> Waiting
    requires some { 0 < length bits.now }
    requires few { length bits.now ≤ 64 }
    ensures { (array : ByteParts) → start + length bits.now ≤ length (row_bytes array) → WaitsFor index array
        (filled bits.now (sliced (row_bytes array) start (length bits.now))) result }
{
    let len = bits.len();
    let mut runs = bits.word_runs();
    let (nulls, count) = runs.next_set();
    if count == len {
        Waiting::Of(index, start, len)
    } else if nulls == len {
        Waiting::Empty(len)
    } else {
        Waiting::Under(index, start, len, bits.word())
    }
}

// Lets rows wait behind those that do: as rows of one call where they lie right behind those of the last one.
#[inline(always)]
fn push_rows(waiting: &mut Vec<Waiting>, rows: Waiting) -> Result<(), Error>
    ensures ok { OnOk result (WaitBehind waiting.old.items rows waiting.new.items) }
    ensures err { IsOkUnless result Error.OutOfMemory }
    ensures unchanged { OnErr result (waiting.new.items ≡ waiting.old.items) }
{
    match joined(waiting, rows) {
        Some(both) => {
            let last = waiting.len() - 1;
            waiting[last] = both;
        }
        None => waiting.push(rows)?,
    }
    Ok(())
}

// The rows of the last call and rows that lie right behind them, as those of one call.
#[inline(always)]
fn joined(waiting: &[Waiting], rows: Waiting) -> Option<Waiting>
    ensures some { IfSome result (λ both. 0 < length waiting.now) }
    ensures both { IfSome result (JoinsLast waiting.now rows) }
{
    let last = waiting.len().checked_sub(1)?;
    let Waiting::Of(index, start, len) = waiting[last] else {
        return None;
    };
    let Waiting::Of(same, next, more) = rows else {
        return None;
    };
    let end = start.checked_add(len)?;
    let both = len.checked_add(more)?;
    if index == same && end == next {
        Some(Waiting::Of(index, start, both))
    } else {
        None
    }
}

// How many bytes an array has: its rows have no more.
#[inline(always)]
fn bytes_in<O: Offset, K: ByteKind>(array: &FlatArray<ByteRows<O, K>>) -> usize
    ensures { total (row_bytes array.now.values) ≤ result }
{
    // Offsets rise.
    let _ = array.offsets().len();
    array.values().len()
}

// The sum of both, where it is at most the greatest offset.
#[inline(always)]
fn sum_within<O: Offset>(most: usize, more: usize) -> Option<usize>
    ensures { IfSome result (λ sum. (sum ≡ most + more) × (sum ≤ O.greatest)) }
{
    let sum = most.checked_add(more)?;
    O::from_usize(sum)?;
    Some(sum)
}

// Appends the rows that wait, of which none is left then, also where that is refused.
#[inline(never)]
fn copy_waiting<O: Offset, K: GrowableKind>(
    rows: &mut GrownBytes<O, K>,
    arrays: &[FlatArray<ByteRows<O, K>>],
    waiting: &mut Vec<Waiting>,
    most: &mut usize,
) -> Result<(), Error>
    requires bytes { rows.old.0 ≡ map (λ p. p.bytes) (map (λ x. x.values) arrays.now) }
    requires wait { All (Waits (map (λ x. x.values) arrays.now)) waiting.old.items }
    requires few { total (with_waiting (map (λ x. x.values) arrays.now) (row_bytes rows.old.1)
        waiting.old.items) ≤ O.greatest }
    ensures same { rows.new.0 ≡ rows.old.0 }
    ensures ok { OnOk result (row_bytes rows.new.1
        ≡ with_waiting (map (λ x. x.values) arrays.now) (row_bytes rows.old.1) waiting.old.items) }
    ensures none { waiting.new.items ≡ [] }
    ensures most { most.new ≡ total (row_bytes rows.new.1) }
    ensures fits { most.new ≤ O.greatest }
    ensures err { IsOkUnless result Error.OutOfMemory }
{
    rows.reserve_bytes(bytes_named(arrays, waiting));
    let copied = append_waiting(rows, arrays, waiting);
    waiting.clear();
    *most = rows.total();
    copied
}

// How many bytes the arrays have where the rows of all calls lie. Their places are read here one behind the other, with nothing
// between, so that a processor reads many of them at once; they are in a cache where the rows are appended.
fn bytes_named<O: Offset, K: ByteKind>(
    arrays: &[FlatArray<ByteRows<O, K>>],
    waiting: &[Waiting],
) -> usize
    requires { All (Waits (map (λ x. x.values) arrays.now)) waiting.now }
{
    let mut bytes: usize = 0;
    for part in waiting {
        bytes = bytes.saturating_add(bytes_of_call(arrays, *part));
    }
    bytes
}

// The same of one call.
#[inline(always)]
fn bytes_of_call<O: Offset, K: ByteKind>(
    arrays: &[FlatArray<ByteRows<O, K>>],
    part: Waiting,
) -> usize
    requires { Waits (map (λ x. x.values) arrays.now) part }
{
    match part {
        Waiting::Of(index, start, len) => bytes_between(arrays, index, start, len),
        Waiting::Under(index, start, len, _) => bytes_between(arrays, index, start, len),
        Waiting::Empty(_) => 0,
    }
}

// How many bytes an array has from where the first of some rows begins to where the last of them ends.
#[inline(always)]
fn bytes_between<O: Offset, K: ByteKind>(
    arrays: &[FlatArray<ByteRows<O, K>>],
    index: usize,
    start: usize,
    len: usize,
) -> usize
    requires { LieThere (map (λ x. x.values) arrays.now) index start len }
{
    let (first, end) = arrays[index].offsets().range(start, len);
    end - first
}

// Appends rows that wait, one call's behind the other's.
fn append_waiting<O: Offset, K: GrowableKind>(
    rows: &mut GrownBytes<O, K>,
    arrays: &[FlatArray<ByteRows<O, K>>],
    waiting: &[Waiting],
) -> Result<(), Error>
    requires bytes { rows.old.0 ≡ map (λ p. p.bytes) (map (λ x. x.values) arrays.now) }
    requires wait { All (Waits (map (λ x. x.values) arrays.now)) waiting.now }
    requires few { total (with_waiting (map (λ x. x.values) arrays.now) (row_bytes rows.old.1) waiting.now)
        ≤ O.greatest }
    ensures same { rows.new.0 ≡ rows.old.0 }
    ensures ok { OnOk result (row_bytes rows.new.1
        ≡ with_waiting (map (λ x. x.values) arrays.now) (row_bytes rows.old.1) waiting.now) }
    ensures err { IsOkUnless result Error.OutOfMemory }
{
    for part in waiting {
        append_rows(rows, arrays, *part)?;
    }
    Ok(())
}

// Appends rows of one call.
#[inline(always)]
fn append_rows<O: Offset, K: GrowableKind>(
    rows: &mut GrownBytes<O, K>,
    arrays: &[FlatArray<ByteRows<O, K>>],
    part: Waiting,
) -> Result<(), Error>
    requires bytes { rows.old.0 ≡ map (λ p. p.bytes) (map (λ x. x.values) arrays.now) }
    requires wait { Waits (map (λ x. x.values) arrays.now) part }
    requires few { total (row_bytes rows.old.1 ++ waiting_rows (map (λ x. x.values) arrays.now) part)
        ≤ O.greatest }
    ensures same { rows.new.0 ≡ rows.old.0 }
    ensures ok { OnOk result (row_bytes rows.new.1
        ≡ row_bytes rows.old.1 ++ waiting_rows (map (λ x. x.values) arrays.now) part) }
    ensures err { IsOkUnless result Error.OutOfMemory }
{
    match part {
        Waiting::Of(index, start, len) => rows.append_all(index, &arrays[index], start, len),
        Waiting::Under(index, start, len, word) => {
            rows.append_under(index, &arrays[index], start, &Mask::from_word(word, len))
        }
        Waiting::Empty(count) => rows.append_empty(count),
    }
}

impl<O: AnyOffset, K: GrowableKind> GrowableValues for GrowableBytes<O, K> {
    ghost use Rattle.std.proofs.lemmas.List.{length-replicate};
    ghost use Rattle.arrow_flat_growable.specs.ByteLaws as laws;

    type Array = FlatArray<ByteRows<O, K>>;

    ghost type_in = { λ array. array.arrow_type };

    ghost bits_in = { λ array. array.validity };

    ghost stored_in = { λ array. byte_slots K.slot array.values };

    ghost slots = { λ rows. map K.slot rows.1 };

    ghost are_of = { λ rows t. physical_type_of t ≡ K.physical_type O.IS_LARGE };

    ghost kind = { K.any_kind O.IS_LARGE };

    ghost binds = { λ rows i array. BindsParts rows.0 i array.values };

    ghost stored_slice = { λ array bits start len. map K.slot
        (filled bits (sliced (row_bytes array.values) start len)) };

    ghost blanks = { λ rows n. replicate n (K.slot []) };

    ghost spares = { SparesBytes };

    fn data_type(array: &FlatArray<ByteRows<O, K>>) -> &DataType {
        array.data_type()
    }

    fn validity(array: &FlatArray<ByteRows<O, K>>) -> Option<&Bitmap> {
        array.validity()
    }

    fn with_capacity(
        alloc: Global,
        array: &FlatArray<ByteRows<O, K>>,
        arrays: &[&FlatArray<ByteRows<O, K>>],
        capacity: usize,
    ) -> Result<GrowableBytes<O, K>, Error> {
        // That rows of the type are stored so follows from the array.
        let _ = array.data_type();
        let bytes = GrowableParts::with_capacity(alloc, bytes_of(alloc, arrays)?, 0)?;
        Ok(GrowableBytes {
            arrays: shared(alloc, arrays)?,
            rows: GrownBytes::empty(alloc, bytes, capacity)?,
            waiting: Vec::new(alloc),
            most: 0,
        })
    }

    fn fresh(&self) -> Result<GrowableBytes<O, K>, Error> {
        Ok(GrowableBytes {
            arrays: self.arrays.clone()?,
            rows: self.rows.fresh()?,
            waiting: Vec::new(self.rows.allocator()),
            most: 0,
        })
    }

    fn extend(
        &mut self,
        index: usize,
        array: &FlatArray<ByteRows<O, K>>,
        start: usize,
        len: usize,
    ) -> Result<(), Error> {
        self.append(index, array, start, len)
    }

    fn extend_under(
        &mut self,
        index: usize,
        array: &FlatArray<ByteRows<O, K>>,
        start: usize,
        bits: &Mask,
    ) -> Result<(), Error> {
        self.append_under(index, array, start, bits)
    }

    fn extend_nulls(&mut self, additional: usize) -> Result<(), Error> {
        self.append_empty(additional)
    }

    fn into_array(
        self,
        data_type: DataType,
        validity: Option<Bitmap>,
    ) -> Result<FlatArray<ByteRows<O, K>>, Error> {
        let GrowableBytes {
            arrays,
            rows,
            waiting,
            most,
        } = self;
        let (mut rows, mut waiting, mut most) = (rows, waiting, most);
        copy_waiting(&mut rows, &arrays, &mut waiting, &mut most)?;
        rows.into_array(data_type, validity)
    }

    fn of_any(array: &AnyArray) -> &FlatArray<ByteRows<O, K>> {
        K::of_any(array)
    }

    fn into_any(array: FlatArray<ByteRows<O, K>>) -> Result<AnyArray, Error> {
        K::to_any(&array)
    }

    ghost rows_of_slice = { λ a bits start len many within. laws.rows_of_slice K.slot bits a.values start
        len many within };

    ghost length_of_slice = { λ a bits start len many within. laws.length_of_slice K.slot bits a.values
        start len many within };

    ghost length_of_blanks = { λ x n. length-replicate n (K.slot []) };

    ghost null_of = { λ x t kind. laws.null_of O.IS_LARGE t (K.physical_type O.IS_LARGE)
        (K.lies_as_bytes O.IS_LARGE) kind };

    ghost spares_none = { refl };

    ghost spares_slice = { λ bits stored a more start len many within spares same. laws.spares_slice K.slot
        K.counts bits stored more a.values start len many within spares same };

    ghost spares_blanks = { λ bits stored x n spares same. laws.spares_blanks (K.slot []) (K.counts []) bits
        stored n spares same };

    ghost fits_stored = { λ x t bits stored kind spares same fits. laws.fits_stored O.IS_LARGE t
        (K.physical_type O.IS_LARGE) (K.lies_as_bytes O.IS_LARGE) kind bits stored spares same fits };

    ghost fits_rows = { λ x t bits stored kind same fits. laws.fits_rows O.IS_LARGE t
        (K.physical_type O.IS_LARGE) (K.lies_as_bytes O.IS_LARGE) kind bits stored same fits };
}
