//! Offsets: where the rows of a text, binary, list or map array lie.

ghost use Rattle.std.specs.Prelude.{◌≡◌, pos, ◌+◌, ◌-◌, ◌<◌, ◌≤◌, ◌+ℤ◌, ◌-ℤ◌, ◌≤ℤ◌, [], ◌∷◌, ◌++◌, length, map, take, ◌==◌, ℕ, replicate, slice_index, slice_index_or, nat_eq, unsigned_abs, IsTrue, ◌↔◌, IfOk, IfErr, OnOk, OnErr, IsOkUnless, Err, if◌then◌else◌};
ghost use Rattle.std.specs.Cmp.{partial_equiv_from_equiv, nat_eq_equiv};
ghost use Rattle.std.specs.Cmp.Lexicographic.{pointwise, lists_equiv};
ghost use Rattle.std.specs.Int.{bit_at};
ghost use Rattle.std.specs.List.{All, sum};
ghost use Rattle.std.specs.Vec.{vec_len, vec_capacity};
ghost use Rattle.arrow_types.specs.declared.error.Error.{Error};
ghost use Rattle.arrow_types.specs.declared.error.SpecPart.{SpecPart};
ghost use Rattle.arrow_memory.specs.Ends.{ends_from, word_lengths};
ghost use Rattle.arrow_memory.specs.Grown.{IsGrowthError};
ghost use Rattle.arrow_memory.specs.Offsets.{AreOffsets, IsOffsets, last_of, with_row, counted_on, with_rows, valid_length, valid_items, valid_ends, with_valid_rows};
ghost use Rattle.arrow_memory.specs.Sliced.{sliced};
ghost use Rattle.arrow_memory.specs.Words.{bits_in, low_bits};

use crate::bitmap::Bitmap;
use crate::buffer::Buffer;
use crate::words::WORD_BITS;
use arrow_types::error::{Error, SpecPart};
use arrow_types::types::{NativeType, Offset};
use std::alloc::{AllocError, Global};
use std::marker::Model;

/// How many rows are measured at once.
const STEP: usize = 32;

/// Offsets that are shared by their clones and slices: at least one, the first not negative, and none
/// less than the one before it. Row `i` is the range from offset `i` to offset `i + 1`.
#[derive(Drop)]
pub struct OffsetsBuffer<O: Offset> {
    offsets: Buffer<O>,
}

impl<O: Offset> Model for OffsetsBuffer<O> {
    ghost use Rattle.std.specs.Prelude.{ℕ, List, map, unsigned_abs};
    ghost use Rattle.arrow_memory.specs.Offsets.{AreOffsets};

    ghost Value = { List ℕ };

    ghost view = { λ a. map unsigned_abs (map O.number a.offsets) };

    ghost invariant = { λ a. AreOffsets (map O.number a.offsets) };
}

#[tactic(auto, using(crate::proofs::OffsetLemmas::as_stored, crate::proofs::OffsetLemmas::seen_offsets))]
impl<O: Offset> OffsetsBuffer<O> {
    /// The offsets of a `Vec`, which is moved and not copied. It takes the memory of one shared owner.
    ///
    /// # Errors
    /// `OutOfSpec(Offsets)` where there is none, the first is negative, or one is less than the one
    /// before it; otherwise `OutOfMemory` where the memory is refused.
    pub fn try_from(alloc: Global, offsets: Vec<O>) -> Result<OffsetsBuffer<O>, Error>
        ensures ok { IfOk result (λ buffer. map pos buffer ≡ map O.number offsets.items) }
        ensures memory { AreOffsets (map O.number offsets.items) → IsOkUnless result Error.OutOfMemory }
        ensures fault { (AreOffsets (map O.number offsets.items) → ⊥) → result
            ≡ Err (Error.OutOfSpec SpecPart.Offsets) }
    {
        if !are_offsets(&offsets) {
            return Err(Error::OutOfSpec(SpecPart::Offsets));
        }
        Ok(OffsetsBuffer {
            offsets: Buffer::from_vec(alloc, offsets)?,
        })
    }

    /// How many offsets there are: one more than the rows.
    pub fn len(&self) -> usize
        ensures count { result ≡ length self.now }
        ensures sound { IsOffsets self.now }
    {
        self.offsets.len()
    }

    /// The offsets.
    pub fn buffer(&self) -> &[O]
        ensures values { map O.number result.now ≡ map pos self.now }
        ensures sound { IsOffsets self.now }
    {
        self.offsets.as_slice()
    }

    /// Where the last row ends, or, with no row, where it would begin.
    pub fn last(&self) -> &O
        ensures { O.number result.now ≡ pos (last_of self.now) }
    {
        last(self.buffer())
    }

    /// Where row `i` begins and ends.
    ///
    /// # Requires
    /// `i + 1` is below the count of offsets.
    pub fn start_end(&self, i: usize) -> (usize, usize)
        requires { i + 1 < length self.now }
        ensures start { result.0 ≡ slice_index self.now i }
        ensures end { result.1 ≡ slice_index self.now (i + 1) }
        ensures rises { result.0 ≤ result.1 }
        ensures within { result.1 ≤ last_of self.now }
    {
        self.range(i, 1)
    }

    /// Where the first of `len` rows from row `start` on begins, and the last of them ends.
    ///
    /// # Requires
    /// `start + len` is below the count of offsets.
    pub fn range(&self, start: usize, len: usize) -> (usize, usize)
        requires { start + len < length self.now }
        ensures start { result.0 ≡ slice_index self.now start }
        ensures end { result.1 ≡ slice_index self.now (start + len) }
        ensures rises { result.0 ≤ result.1 }
        ensures within { result.1 ≤ last_of self.now }
        ensures fits { result.1 ≤ O.greatest }
        ensures sound { IsOffsets self.now }
    {
        let offsets = self.buffer();
        (offsets[start].to_usize(), offsets[start + len].to_usize())
    }

    /// Writes how long rows are from row `start` on, one for each place of `lengths`: 0 for those whose bit of the
    /// word is not set.
    ///
    /// # Requires
    /// There are at most 64 places, and `start` and their count together are below the count of offsets.
    fn write_lengths(&self, lengths: &mut [O], start: usize, word: u64)
        requires in_word { length lengths.old ≤ 64 }
        requires part { start + length lengths.old < length self.now }
        ensures lengths { map O.number lengths.new
            ≡ map pos (word_lengths word self.now start (length lengths.old)) }
        ensures long { length lengths.new ≡ length lengths.old }
    {
        prove!(start < self.len());
        let count = lengths.len();
        let mut done = 0;
        while done + STEP <= count {
            write_some_lengths(lengths, self, start, word, done, STEP);
            done += STEP;
        }
        if done < count {
            write_some_lengths(lengths, self, start, word, done, count - done);
        }
    }

    /// Keeps `len` offsets from place `offset` on: those of `len - 1` rows. Nothing is copied.
    ///
    /// # Requires
    /// `len` is at least 1, and `offset + len` at most the count of offsets.
    pub fn slice(&mut self, offset: usize, len: usize)
        requires part { offset + len ≤ length self.old }
        requires some { 0 < len }
        ensures { self.new ≡ sliced self.old offset len }
    {
        self.offsets.slice(offset, len);
    }
}

/// A clone shares the offsets and copies none. It is refused only where the count of owners is full.
impl<O: Offset> Clone for OffsetsBuffer<O> {
    ghost is_clone = { λ offsets copy. copy ≡ offsets };

    fn clone(&self) -> Result<OffsetsBuffer<O>, AllocError> {
        Ok(OffsetsBuffer {
            offsets: self.offsets.clone()?,
        })
    }
}

/// Two lists of offsets are equal where their numbers are.
impl<O: Offset> PartialEq for OffsetsBuffer<O> {
    ghost eq = { pointwise nat_eq };

    ghost laws = { partial_equiv_from_equiv (lists_equiv nat_eq_equiv) };

    fn eq(&self, other: &OffsetsBuffer<O>) -> bool
        ensures value { result ≡ pointwise nat_eq self.now other.now }
        ensures numbers { IsTrue result ↔ (self.now ≡ other.now) }
    {
        self.buffer() == other.buffer()
    }
}

impl<O: Offset> Eq for OffsetsBuffer<O> {
    ghost laws = { lists_equiv nat_eq_equiv };
}

/// Offsets that rows are appended to, and that are then shared as an [`OffsetsBuffer`].
#[derive(Drop)]
pub struct Offsets<O: Offset> {
    offsets: Vec<O>,
}

impl<O: Offset> Model for Offsets<O> {
    ghost use Rattle.std.specs.Prelude.{ℕ, List, map, unsigned_abs};
    ghost use Rattle.arrow_memory.specs.Offsets.{AreOffsets};

    ghost Value = { List ℕ };

    ghost view = { λ a. map unsigned_abs (map O.number a.offsets.items) };

    ghost invariant = { λ a. AreOffsets (map O.number a.offsets.items) };
}

#[tactic(auto, using(crate::proofs::OffsetLemmas::as_stored, crate::proofs::OffsetLemmas::seen_offsets))]
impl<O: Offset> Offsets<O> {
    /// The offset 0 alone, with room for so many rows.
    ///
    /// # Errors
    /// `OutOfMemory` where it is refused.
    pub fn with_capacity(alloc: Global, capacity: usize) -> Result<Offsets<O>, Error>
        ensures ok { IfOk result (λ offsets. offsets ≡ 0 ∷ []) }
        ensures err { IsOkUnless result Error.OutOfMemory }
    {
        let mut offsets = Vec::with_capacity(alloc, capacity.saturating_add(1))?;
        offsets.push_reserved(O::default());
        Ok(Offsets { offsets })
    }

    /// How many offsets there are: one more than the rows.
    pub fn len(&self) -> usize
        ensures count { result ≡ length self.now }
        ensures sound { IsOffsets self.now }
    {
        self.offsets.len()
    }

    /// Where the last row ends, or, with no row, where it would begin.
    pub fn last(&self) -> &O
        ensures { O.number result.now ≡ pos (last_of self.now) }
    {
        last(self.buffer())
    }

    /// The offsets so far.
    fn buffer(&self) -> &[O]
        ensures values { map O.number result.now ≡ map pos self.now }
        ensures sound { IsOffsets self.now }
    {
        &self.offsets
    }

    /// Appends a row of so many items.
    ///
    /// # Errors
    /// `Overflow` where it would end past the greatest offset, `OutOfMemory` where a growth is refused.
    /// The offsets are then as before.
    #[inline(always)]
    pub fn try_push_usize(&mut self, length: usize) -> Result<(), Error>
        ensures ok { OnOk result (self.new ≡ with_row self.old length) }
        ensures overflow { (result ≡ Err Error.Overflow) ↔ (O.greatest < last_of self.old + length) }
        ensures others { IfErr result IsGrowthError }
        ensures err { OnErr result (self.new ≡ self.old) }
    {
        let Some(end) = self.last().to_usize().checked_add(length) else {
            return Err(Error::Overflow);
        };
        let Some(offset) = O::from_usize(end) else {
            return Err(Error::Overflow);
        };
        self.offsets.push(offset)?;
        Ok(())
    }

    /// Appends so many rows of no item.
    ///
    /// # Errors
    /// `OutOfMemory` where a growth is refused; the offsets are then as before.
    pub fn extend_constant(&mut self, additional: usize) -> Result<(), Error>
        ensures ok { OnOk result (self.new ≡ self.old ++ replicate additional (last_of self.old)) }
        ensures err { IsOkUnless result Error.OutOfMemory }
        ensures unchanged { OnErr result (self.new ≡ self.old) }
    {
        let offset = *self.last();
        self.offsets.reserve(additional)?;
        let len = self.offsets.len() + additional;
        self.offsets.resize(len, offset)?;
        Ok(())
    }

    /// Appends `len` rows of other offsets, from row `start` on: the last offset counted on by their
    /// lengths.
    ///
    /// # Requires
    /// `start + len` is below the count of the other offsets.
    ///
    /// # Errors
    /// As of [`Offsets::try_push_usize`].
    pub fn try_extend_from_slice(
        &mut self,
        other: &OffsetsBuffer<O>,
        start: usize,
        len: usize,
    ) -> Result<(), Error>
        requires { start + len < length other.now }
        ensures ok { OnOk result (self.new ≡ with_rows self.old other.now start len) }
        ensures overflow { (result ≡ Err Error.Overflow)
            ↔ (O.greatest < last_of self.old +
            (slice_index other.now (start + len) - slice_index other.now start)) }
        ensures others { IfErr result IsGrowthError }
        ensures err { OnErr result (self.new ≡ self.old) }
    {
        let (first, end) = other.range(start, len);
        let to = *self.last();
        if O::from_usize(to.to_usize() + (end - first)).is_none() {
            return Err(Error::Overflow);
        }
        self.offsets.reserve(len)?;
        append_rows(&mut self.offsets, to, other, start, len);
        Ok(())
    }

    /// Whether the items of `len` rows of other offsets, from row `start` on, end at the greatest offset at most behind these.
    ///
    /// # Requires
    /// `start + len` is below the count of the other offsets.
    pub fn has_room_for(&self, other: &OffsetsBuffer<O>, start: usize, len: usize) -> bool
        requires { start + len < length other.now }
        ensures { IsTrue result ↔ ((last_of self.now +
            (slice_index other.now (start + len) - slice_index other.now start)) ≤ O.greatest) }
    {
        let (first, end) = other.range(start, len);
        O::from_usize(self.last().to_usize() + (end - first)).is_some()
    }

    /// Appends `len` rows of other offsets, from row `start` on: as long as they are there where their bit of a word is set,
    /// and empty where it is not.
    ///
    /// # Requires
    /// `len` is at most 64, `start + len` below the count of the other offsets, and there is room for the items of these rows
    /// ([`Offsets::has_room_for`]).
    ///
    /// # Errors
    /// `OutOfMemory` where a growth is refused; the offsets are then as before.
    pub fn extend_from_word(
        &mut self,
        other: &OffsetsBuffer<O>,
        start: usize,
        word: u64,
        len: usize,
    ) -> Result<(), Error>
        requires in_word { len ≤ 64 }
        requires part { start + len < length other.now }
        requires room { (last_of self.old +
            (slice_index other.now (start + len) - slice_index other.now start)) ≤ O.greatest }
        ensures ok { OnOk result (self.new ≡ with_valid_rows self.old (low_bits word len) other.now start) }
        ensures err { IsOkUnless result Error.OutOfMemory }
        ensures unchanged { OnErr result (self.new ≡ self.old) }
    {
        prove!(start < other.len());
        let last = *self.last();
        self.offsets.reserve(len)?;
        append_word_of_rows(&mut self.offsets, last, other, start, word, len);
        Ok(())
    }

    /// Appends `len` rows of other offsets, from row `start` on: as long as they are there where their bit
    /// of a validity is set, and empty where it is not.
    ///
    /// # Requires
    /// `start + len` is below the count of the other offsets, and at most that of the bits.
    ///
    /// # Errors
    /// As of [`Offsets::try_push_usize`].
    pub fn try_extend_from_valid(
        &mut self,
        other: &OffsetsBuffer<O>,
        validity: &Bitmap,
        start: usize,
        len: usize,
    ) -> Result<(), Error>
        requires part { start + len < length other.now }
        requires covered { start + len ≤ length validity.now }
        ensures ok { OnOk result (self.new
            ≡ with_valid_rows self.old (sliced validity.now start len) other.now start) }
        ensures overflow { (result ≡ Err Error.Overflow)
            ↔ (O.greatest < last_of self.old + valid_items (sliced validity.now start len) other.now
            start) }
        ensures others { IfErr result IsGrowthError }
        ensures err { OnErr result (self.new ≡ self.old) }
    {
        let last = *self.last();
        if !valid_rows_fit(&last, other, validity, start, len) {
            return Err(Error::Overflow);
        }
        self.offsets.reserve(len)?;
        append_valid_rows(&mut self.offsets, last, other, validity, start, len);
        Ok(())
    }

    /// The offsets so far, shared from now on. Nothing is copied.
    ///
    /// # Errors
    /// `OutOfMemory` where the memory of one shared owner is refused; the offsets are then dropped.
    pub fn into_buffer(self) -> Result<OffsetsBuffer<O>, Error>
        ensures ok { IfOk result (λ buffer. buffer ≡ self) }
        ensures err { IsOkUnless result Error.OutOfMemory }
    {
        let alloc = *self.offsets.allocator();
        let Offsets { offsets } = self;
        Ok(OffsetsBuffer {
            offsets: Buffer::from_vec(alloc, offsets)?,
        })
    }
}

// The last of some offsets.
fn last<O: Offset>(offsets: &[O]) -> &O
    requires { 0 < length offsets.now }
    ensures { O.number result.now
        ≡ slice_index_or (map O.number offsets.now) (length offsets.now - 1) (pos 0) }
{
    &offsets[offsets.len() - 1]
}

// Appends the offsets of `len` rows from row `start` on, counted on from `to`. There is room for
// them.
fn append_rows<O: Offset>(
    offsets: &mut Vec<O>,
    to: O,
    other: &OffsetsBuffer<O>,
    start: usize,
    len: usize,
)
    requires part { start + len < length other.now }
    requires room { vec_len offsets.old + len ≤ vec_capacity offsets.old }
    requires not_negative { pos 0 ≤ℤ O.number to }
    requires fits { unsigned_abs (O.number to) +
        (slice_index other.now (start + len) - slice_index other.now start) ≤ O.greatest }
    ensures { map O.number offsets.new.items
        ≡ map O.number offsets.old.items ++ map pos
        (counted_on (unsigned_abs (O.number to)) other.now start len) }
{
    let values = other.buffer();
    let from = values[start];
    append_shifted(offsets, &values[start + 1..start + 1 + len], from, to);
}

// Appends offsets, counted on from `to` where they were counted on from `from`. There is room for
// them.
fn append_shifted<O: Offset>(offsets: &mut Vec<O>, rows: &[O], from: O, to: O)
    requires room { vec_len offsets.old + length rows.now ≤ vec_capacity offsets.old }
    requires starts { pos 0 ≤ℤ O.number from }
    requires not_negative { pos 0 ≤ℤ O.number to }
    requires fits { All (λ x. (O.number from ≤ℤ O.number x)
        × ((O.number to +ℤ (O.number x -ℤ O.number from)) ≤ℤ pos O.greatest)) rows.now }
    ensures { map O.number offsets.new.items
        ≡ map O.number offsets.old.items ++ map (λ z. O.number to +ℤ (z -ℤ O.number from))
        (map O.number rows.now) }
{
    let done = offsets.len();
    let Ok(()) = offsets.extend_from_slice(rows) else {
        unreachable!();
    };
    shift(&mut offsets[done..], from, to);
}

// Counts offsets on from `to` where they were counted on from `from`.
fn shift<O: Offset>(offsets: &mut [O], from: O, to: O)
    requires starts { pos 0 ≤ℤ O.number from }
    requires not_negative { pos 0 ≤ℤ O.number to }
    requires fits { All (λ x. (O.number from ≤ℤ O.number x)
        × ((O.number to +ℤ (O.number x -ℤ O.number from)) ≤ℤ pos O.greatest)) offsets.old }
    ensures { map O.number offsets.new
        ≡ map (λ z. O.number to +ℤ (z -ℤ O.number from)) (map O.number offsets.old) }
{
    for offset in offsets.iter_mut() {
        *offset = offset.shifted(from, to);
    }
}

// Whether the items of the rows whose bit is set end at the greatest offset at most, counted on from
// `last`. They are counted only where those of all rows may pass it.
fn valid_rows_fit<O: Offset>(
    last: &O,
    other: &OffsetsBuffer<O>,
    validity: &Bitmap,
    start: usize,
    len: usize,
) -> bool
    requires part { start + len < length other.now }
    requires covered { start + len ≤ length validity.now }
    requires not_negative { pos 0 ≤ℤ O.number last.now }
    ensures { IsTrue result ↔ ((unsigned_abs (O.number last.now) + valid_items
        (sliced validity.now start len) other.now start) ≤ O.greatest) }
{
    let place = last.to_usize();
    let (first, end) = other.range(start, len);
    if O::from_usize(place + (end - first)).is_some() {
        return true;
    }
    let items = count_valid_items(other, validity, start, len);
    O::from_usize(place + items).is_some()
}

// How many items the rows have whose bit is set, of `len` rows from row `start` on.
fn count_valid_items<O: Offset>(
    other: &OffsetsBuffer<O>,
    validity: &Bitmap,
    start: usize,
    len: usize,
) -> usize
    requires part { start + len < length other.now }
    requires covered { start + len ≤ length validity.now }
    ensures count { result ≡ valid_items (sliced validity.now start len) other.now start }
    ensures fits { result ≤ O.greatest }
{
    prove!(start < other.len());
    let _ = other.range(start, len);
    let mut items = 0;
    for row in start..start + len {
        items += count_items_of(other, row, validity.get_bit(row));
    }
    items
}

// How many items a row has: none where it is not valid.
fn count_items_of<O: Offset>(other: &OffsetsBuffer<O>, row: usize, is_valid: bool) -> usize
    requires { row + 1 < length other.now }
    ensures { result ≡ valid_length is_valid other.now row }
{
    let (begin, end) = other.start_end(row);
    if is_valid { end - begin } else { 0 }
}

// Appends where the rows end whose bit is set, and empty rows for the others, a word of bits at a
// time: `len` rows from row `start` on, counted on from `last`. There is room for them.
fn append_valid_rows<O: Offset>(
    offsets: &mut Vec<O>,
    last: O,
    other: &OffsetsBuffer<O>,
    validity: &Bitmap,
    start: usize,
    len: usize,
)
    requires part { start + len < length other.now }
    requires covered { start + len ≤ length validity.now }
    requires room { vec_len offsets.old + len ≤ vec_capacity offsets.old }
    requires not_negative { pos 0 ≤ℤ O.number last }
    requires fits { (unsigned_abs (O.number last) + valid_items (sliced validity.now start len) other.now
        start) ≤ O.greatest }
    ensures { map O.number offsets.new.items
        ≡ map O.number offsets.old.items ++ map pos
        (valid_ends (unsigned_abs (O.number last)) (sliced validity.now start len) other.now start) }
{
    prove!(start < other.len());
    let end = start + len;
    let mut last = last;
    let mut row = start;
    while row < end {
        let count = WORD_BITS.min(end - row);
        let word = validity.bits_from(row, count);
        last = append_word_of_rows(offsets, last, other, row, word, count);
        row += count;
    }
}

// Appends where `count` rows from row `start` on end, by the bits of a word, and answers the last of
// these offsets. There is room for them.
fn append_word_of_rows<O: Offset>(
    offsets: &mut Vec<O>,
    last: O,
    other: &OffsetsBuffer<O>,
    start: usize,
    word: u64,
    count: usize,
) -> O
    requires in_word { count ≤ 64 }
    requires part { start + count < length other.now }
    requires room { vec_len offsets.old + count ≤ vec_capacity offsets.old }
    requires not_negative { pos 0 ≤ℤ O.number last }
    requires fits { (unsigned_abs (O.number last) + valid_items (bits_in (word ∷ []) 0 count) other.now
        start) ≤ O.greatest }
    ensures ends { map O.number offsets.new.items
        ≡ map O.number offsets.old.items ++ map pos
        (valid_ends (unsigned_abs (O.number last)) (bits_in (word ∷ []) 0 count) other.now start) }
    ensures last { O.number result
        ≡ pos (unsigned_abs (O.number last) + valid_items (bits_in (word ∷ []) 0 count) other.now start) }
    ensures len { vec_len offsets.new ≡ vec_len offsets.old + count }
    ensures capacity { vec_capacity offsets.old ≤ vec_capacity offsets.new }
{
    let done = offsets.len();
    let Ok(()) = offsets.extend_from_slice(&other.buffer()[start + 1..start + 1 + count]) else {
        unreachable!();
    };
    write_word_of_rows(offsets.slice_mut(done..), last, other, start, word)
}

// Writes where rows from row `start` on end, by the bits of a word, and answers the last of these offsets: how long they
// are first, and then where each of them ends.
fn write_word_of_rows<O: Offset>(
    ends: &mut [O],
    last: O,
    other: &OffsetsBuffer<O>,
    start: usize,
    word: u64,
) -> O
    requires in_word { length ends.old ≤ 64 }
    requires part { start + length ends.old < length other.now }
    requires not_negative { pos 0 ≤ℤ O.number last }
    requires fits { (unsigned_abs (O.number last) + valid_items (bits_in (word ∷ []) 0 (length ends.old))
        other.now start) ≤ O.greatest }
    ensures long { length ends.new ≡ length ends.old }
    ensures ends { map O.number ends.new
        ≡ map pos (valid_ends (unsigned_abs (O.number last)) (bits_in (word ∷ []) 0 (length ends.old))
        other.now start) }
    ensures last { O.number result
        ≡ pos (unsigned_abs (O.number last) + valid_items (bits_in (word ∷ []) 0 (length ends.old))
        other.now start) }
{
    other.write_lengths(ends, start, word);
    count_on(ends, last)
}

// The same of some rows, of which those before row `done` are written. No test depends on a bit, and where the count is known
// when the program is compiled, several rows are measured at once.
#[inline(always)]
fn write_some_lengths<O: Offset>(
    lengths: &mut [O],
    offsets: &OffsetsBuffer<O>,
    start: usize,
    word: u64,
    done: usize,
    count: usize,
)
    requires some { 0 < count }
    requires in_word { done + count ≤ 64 }
    requires in_half { count ≤ 32 }
    requires there { done + count ≤ length lengths.old }
    requires part { start + done + count < length offsets.now }
    requires before { map O.number (take done lengths.old) ≡ map pos (word_lengths word offsets.now start done) }
    ensures long { length lengths.new ≡ length lengths.old }
    ensures so_far { map O.number (take (done + count) lengths.new)
        ≡ map pos (word_lengths word offsets.now start (done + count)) }
{
    prove!(start < offsets.len());
    // Where a row ends is at most the greatest offset of the type.
    let _ = offsets.range(start + done, count);
    let half = half_of(word, done);
    let rows = offsets.buffer();
    for k in 0..count {
        let row = start + done + k;
        let begin = rows[row];
        let end = rows[row + 1];
        lengths[done + k] = length_if(begin, end, half >> k & 1 == 1);
    }
}

// The first 32 bits of a word from a place on.
fn half_of(word: u64, first: usize) -> u32
    requires { first < 64 }
    ensures { (k : ℕ) → k < 32 → (bit_at result k == 1) ≡ (bit_at word (first + k) == 1) }
{
    ((word >> first) % 4_294_967_296) as u32
}

// How long a row is that lies between these offsets: 0 where it is not valid.
fn length_if<O: Offset>(begin: O, end: O, is_valid: bool) -> O
    requires starts { pos 0 ≤ℤ O.number begin }
    requires rises { O.number begin ≤ℤ O.number end }
    requires fits { O.number end ≤ℤ pos O.greatest }
    ensures { O.number result ≡ (if is_valid then O.number end -ℤ O.number begin else pos 0) }
{
    let from = if is_valid { begin } else { end };
    end.shifted(from, O::default())
}

// Writes where rows of these lengths end, counted on from `last`, and answers where the last of them does.
fn count_on<O: Offset>(ends: &mut [O], last: O) -> O
    requires not_negative { pos 0 ≤ℤ O.number last }
    requires lengths { map pos (map unsigned_abs (map O.number ends.old)) ≡ map O.number ends.old }
    requires fits { unsigned_abs (O.number last) + sum (map unsigned_abs (map O.number ends.old)) ≤ O.greatest }
    ensures long { length ends.new ≡ length ends.old }
    ensures ends { map O.number ends.new
        ≡ map pos (ends_from (unsigned_abs (O.number last)) (map unsigned_abs (map O.number ends.old))) }
    ensures last { O.number result
        ≡ pos (unsigned_abs (O.number last) + sum (map unsigned_abs (map O.number ends.old))) }
{
    let mut last = last;
    for k in 0..ends.len() {
        last = counted(ends[k], last);
        ends[k] = last;
    }
    last
}

// Where a row ends that begins at `last` and is so long.
fn counted<O: Offset>(length: O, last: O) -> O
    requires starts { pos 0 ≤ℤ O.number length }
    requires not_negative { pos 0 ≤ℤ O.number last }
    requires fits { (O.number last +ℤ O.number length) ≤ℤ pos O.greatest }
    ensures { O.number result ≡ O.number last +ℤ O.number length }
{
    length.shifted(O::default(), last)
}

// Whether numbers are offsets.
fn are_offsets<O: Offset>(offsets: &[O]) -> bool
    ensures { IsTrue result ↔ AreOffsets (map O.number offsets.now) }
{
    let mut low = O::default();
    for &offset in offsets {
        if offset < low {
            return false;
        }
        low = offset;
    }
    !offsets.is_empty()
}
