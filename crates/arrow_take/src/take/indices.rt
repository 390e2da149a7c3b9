//! Indices of rows, and what they name of what stores the rows.

ghost use Rattle.std.specs.Prelude.{◌≡◌, ◌+◌, ◌*◌, ◌<◌, ◌≤◌, ◌==◌, ℕ, [], ◌++◌, length, map, replicate, slice_index_or, option_copied, if◌then◌else◌, IfOk, IfSome, IsOkUnless, OnOk};
ghost use Rattle.std.specs.Int.{bit_at};
ghost use Rattle.std.specs.Vec.{vec_len, vec_capacity};
ghost use Rattle.arrow_types.specs.declared.error.Error.{Error};
ghost use Rattle.arrow_types.specs.Rows.{masked};
ghost use Rattle.arrow_types.specs.Slot.{Slot, Null};
ghost use Rattle.arrow_flat.specs.Parts.{FitsRows, rows_by};
ghost use Rattle.arrow_memory.specs.Sliced.{sliced};
ghost use Rattle.arrow_memory.specs.Words.{low_bits};
ghost use Rattle.arrow_arrays.specs.KeyedParts.{IsKeyIn, key_in};
ghost use Rattle.arrow_take.specs.Taken.{AreIndices, IsIndex, MarksTaken, named_bit, picked, valid_index};

use crate::validity::is_valid;
use arrow_flat::array::PrimitiveArray;
use arrow_flat::array::validity::valid_word;
use arrow_memory::bitmap::{Bitmap, MutableBitmap, WORD_BITS};
use arrow_types::error::Error;
use arrow_types::types::{Index, NativeType};
use std::alloc::Global;

// The place that index `row` names, if it is not null. What is stored beneath a null does not count: it is read before
// the test, so that the test is a choice of values and no branch.
pub(super) fn index_at<I: Index>(
    stored: &[I],
    validity: Option<&Bitmap>,
    row: usize,
) -> Option<usize>
    requires fits { FitsRows (option_copied validity) (length stored.now) }
    requires within { row < length stored.now }
    requires key { IsKeyIn (slice_index_or
        (masked (option_copied validity) (map I.slot stored.now)) row Null) }
    ensures { result ≡ key_in (slice_index_or
        (masked (option_copied validity.entry) (map I.slot stored.now)) row Null) }
{
    let index = stored[row];
    if is_valid(validity, row) {
        Some(index.to_usize())
    } else {
        None
    }
}

// The values that the indices name; for a null index the first of the values, or zero where there is none.
pub(super) fn gather_values<T: NativeType, I: Index>(
    alloc: Global,
    values: &[T],
    indices: &PrimitiveArray<I>,
) -> Result<Vec<T>, Error>
    requires { AreIndices (length values.now) (rows_by (map I.slot) indices.now) }
    ensures ok { IfOk result (λ taken. taken.items
        ≡ map (picked values.now T.zero) (rows_by (map I.slot) indices.now)) }
    ensures err { IsOkUnless result Error.OutOfMemory }
{
    let (stored, validity) = (indices.values().as_slice(), indices.validity());
    if values.is_empty() {
        return zeros(alloc, stored.len());
    }
    let mut taken = Vec::with_capacity(alloc, stored.len())?;
    append_named(&mut taken, &Values { values }, stored, validity);
    Ok(taken)
}

// So many values whose bits are all zero.
fn zeros<T: NativeType>(alloc: Global, count: usize) -> Result<Vec<T>, Error>
    ensures ok { IfOk result (λ values. values.items ≡ replicate count T.zero) }
    ensures err { IsOkUnless result Error.OutOfMemory }
{
    let mut values = Vec::with_capacity(alloc, count)?;
    values.resize(count, T::default())?;
    Ok(values)
}

/// What indices name, read one by one.
pub(super) trait ByIndex<I: Index> {
    /// What is there for an index.
    type Item: Drop;

    // how many places there are to be named, what an index gives, and what is asked of them
    ghost count: { Self → ℕ };

    ghost named: { Self → Slot → Self.Item };

    ghost holds: { Self → Type 0 };

    /// What is there for an index. What is stored beneath a null one does not count: the index is chosen before it is turned
    /// into a place, so that the test is a choice of values and no branch.
    fn at(&self, index: I, is_valid: bool) -> Self::Item
        requires holds { holds self.now }
        requires inside { IsIndex (count self.now) (if is_valid then I.slot index else Null) }
        ensures { result ≡ named self.now (if is_valid then I.slot index else Null) };
}

/// Values, of which there is one at least; a null index names the first.
#[derive(Drop)]
struct Values<'a, T: NativeType> {
    values: &'a [T],
}

impl<'a, T: NativeType, I: Index> ByIndex<I> for Values<'a, T> {
    type Item = T;

    ghost count = { λ s. length s.values.now };

    ghost named = { λ s. picked s.values.now T.zero };

    ghost holds = { λ s. 0 < length s.values.now };

    fn at(&self, index: I, is_valid: bool) -> T {
        let index = if is_valid { index } else { I::default() };
        self.values[index.to_usize()]
    }
}

// Appends what the indices name, 64 of them at a time. There is room for it.
pub(super) fn append_named<S: ByIndex<I>, I: Index>(
    taken: &mut Vec<S::Item>,
    source: &S,
    stored: &[I],
    validity: Option<&Bitmap>,
)
    requires holds { S.holds source.now }
    requires room { vec_len taken.old + length stored.now ≤ vec_capacity taken.old }
    requires fits { FitsRows (option_copied validity) (length stored.now) }
    requires inside { AreIndices (S.count source.now)
        (masked (option_copied validity) (map I.slot stored.now)) }
    ensures { taken.new.items ≡ taken.old.items
        ++ map (S.named source.now) (masked (option_copied validity.entry) (map I.slot stored.now)) }
{
    let mut row = 0;
    while row < stored.len() {
        let count = WORD_BITS.min(stored.len() - row);
        append_word_named(taken, source, stored, validity, row / WORD_BITS, count);
        row += count;
    }
}

// Appends what `count` indices from index `64 * j` on name. There is room for it, and no branch depends on a bit.
pub(super) fn append_word_named<S: ByIndex<I>, I: Index>(
    taken: &mut Vec<S::Item>,
    source: &S,
    stored: &[I],
    validity: Option<&Bitmap>,
    j: usize,
    count: usize,
)
    requires holds { S.holds source.now }
    requires room { vec_len taken.old + count ≤ vec_capacity taken.old }
    requires fits { FitsRows (option_copied validity) (length stored.now) }
    requires within { 64 * j + count ≤ length stored.now }
    requires in_word { count ≤ 64 }
    requires inside { AreIndices (S.count source.now)
        (masked (option_copied validity) (map I.slot stored.now)) }
    ensures items { taken.new.items
        ≡ taken.old.items ++ map (S.named source.now)
        (sliced (masked (option_copied validity.entry) (map I.slot stored.now)) (64 * j) count) }
    ensures len { vec_len taken.new ≡ vec_len taken.old + count }
    ensures capacity { vec_capacity taken.new ≡ vec_capacity taken.old }
{
    let word = valid_word(validity, j);
    let start = WORD_BITS * j;
    for k in 0..count {
        taken.push_reserved(source.at(stored[start + k], word >> k & 1 == 1));
    }
}

// The bits that the indices name; for a null index one that is not set.
pub(super) fn gather_bits<I: Index>(
    alloc: Global,
    bits: &Bitmap,
    indices: &PrimitiveArray<I>,
) -> Result<Bitmap, Error>
    requires { AreIndices (length bits.now) (rows_by (map I.slot) indices.now) }
    ensures ok { IfOk result (λ taken. taken ≡ map (named_bit bits.now) (rows_by (map I.slot) indices.now)) }
    ensures err { IsOkUnless result Error.OutOfMemory }
{
    let (stored, validity) = (indices.values().as_slice(), indices.validity());
    if bits.is_empty() {
        return Bitmap::new_zeroed(alloc, stored.len());
    }
    let mut taken = MutableBitmap::with_capacity(alloc, stored.len())?;
    append_bits(&mut taken, bits, stored, validity)?;
    taken.into_bitmap()
}

// Appends the bits that the indices name, a word at a time.
fn append_bits<I: Index>(
    taken: &mut MutableBitmap,
    bits: &Bitmap,
    stored: &[I],
    validity: Option<&Bitmap>,
) -> Result<(), Error>
    requires some { 0 < length bits.now }
    requires none { taken.old ≡ [] }
    requires fits { FitsRows (option_copied validity) (length stored.now) }
    requires inside { AreIndices (length bits.now) (masked (option_copied validity) (map I.slot stored.now)) }
    ensures ok { OnOk result (taken.new
        ≡ map (named_bit bits.now) (masked (option_copied validity.entry) (map I.slot stored.now))) }
    ensures err { IsOkUnless result Error.OutOfMemory }
{
    let mut row = 0;
    while row < stored.len() {
        let count = WORD_BITS.min(stored.len() - row);
        let word = bits_at(bits, stored, validity, row / WORD_BITS, count);
        taken.push_word(word, count)?;
        row += count;
    }
    Ok(())
}

// The bits that `count` indices from index `64 * j` on name, as a word.
fn bits_at<I: Index>(
    bits: &Bitmap,
    stored: &[I],
    validity: Option<&Bitmap>,
    j: usize,
    count: usize,
) -> u64
    requires some { 0 < length bits.now }
    requires fits { FitsRows (option_copied validity) (length stored.now) }
    requires within { 64 * j + count ≤ length stored.now }
    requires in_word { count ≤ 64 }
    requires inside { AreIndices (length bits.now) (masked (option_copied validity) (map I.slot stored.now)) }
    ensures { low_bits result count
        ≡ map (named_bit bits.now)
        (sliced (masked (option_copied validity.entry) (map I.slot stored.now)) (64 * j) count) }
{
    match validity {
        None => all_bits_at(bits, stored, j, count),
        Some(_) => valid_bits_at(bits, stored, validity, j, count),
    }
}

// The same where no index is null.
fn all_bits_at<I: Index>(bits: &Bitmap, stored: &[I], j: usize, count: usize) -> u64
    requires some { 0 < length bits.now }
    requires within { 64 * j + count ≤ length stored.now }
    requires in_word { count ≤ 64 }
    requires inside { AreIndices (length bits.now) (map I.slot stored.now) }
    ensures { low_bits result count
        ≡ map (named_bit bits.now) (sliced (map I.slot stored.now) (64 * j) count) }
{
    let start = WORD_BITS * j;
    let mut word = 0;
    for k in 0..count {
        word |= u64::from(bit_at(bits, stored[start + k], true)) << k;
    }
    word
}

// The same where some may be: no branch depends on a bit.
fn valid_bits_at<I: Index>(
    bits: &Bitmap,
    stored: &[I],
    validity: Option<&Bitmap>,
    j: usize,
    count: usize,
) -> u64
    requires some { 0 < length bits.now }
    requires fits { FitsRows (option_copied validity) (length stored.now) }
    requires within { 64 * j + count ≤ length stored.now }
    requires in_word { count ≤ 64 }
    requires inside { AreIndices (length bits.now) (masked (option_copied validity) (map I.slot stored.now)) }
    ensures { low_bits result count
        ≡ map (named_bit bits.now)
        (sliced (masked (option_copied validity.entry) (map I.slot stored.now)) (64 * j) count) }
{
    let valid = valid_word(validity, j);
    let start = WORD_BITS * j;
    let mut word = 0;
    for k in 0..count {
        word |= u64::from(bit_at(bits, stored[start + k], valid >> k & 1 == 1)) << k;
    }
    word
}

// The bit that an index names, and one that is not set where it is null.
fn bit_at<I: Index>(bits: &Bitmap, index: I, is_valid: bool) -> bool
    requires some { 0 < length bits.now }
    requires inside { IsIndex (length bits.now) (if is_valid then I.slot index else Null) }
    ensures { result ≡ named_bit bits.now (if is_valid then I.slot index else Null) }
{
    let index = if is_valid { index } else { I::default() };
    is_valid & bits.get_bit(index.to_usize())
}

// The validity of the rows that the indices name, where theirs is `validity`: a row is null where the index is, or the
// row that it names. There is none where neither has one.
pub(super) fn take_validity<I: Index>(
    alloc: Global,
    validity: Option<&Bitmap>,
    indices: &PrimitiveArray<I>,
) -> Result<Option<Bitmap>, Error>
    requires { IfSome (option_copied validity)
        (λ bits. AreIndices (length bits) (rows_by (map I.slot) indices.now)) }
    ensures ok { IfOk result (λ taken.
        MarksTaken (option_copied validity.entry) (rows_by (map I.slot) indices.now) taken) }
    ensures err { IsOkUnless result Error.OutOfMemory }
{
    match (validity, indices.validity()) {
        (None, None) => Ok(None),
        (None, Some(validity)) => Ok(Some(validity.clone()?)),
        (Some(bits), _) => Ok(Some(gather_bits(alloc, bits, indices)?)),
    }
}

// The same indices, null where the row that they name is null under this validity of the rows by index.
pub(super) fn valid_indices<I: Index>(
    indices: &PrimitiveArray<I>,
    taken: &Option<Bitmap>,
    validity: Option<&Bitmap>,
) -> Result<PrimitiveArray<I>, Error>
    requires { MarksTaken (option_copied validity) (rows_by (map I.slot) indices.now) taken.now }
    ensures ok { IfOk result (λ valid. rows_by (map I.slot) valid
        ≡ map (valid_index (option_copied validity.entry)) (rows_by (map I.slot) indices.now)) }
    ensures err { IsOkUnless result Error.OutOfMemory }
{
    // The validity of the indices has a bit for each.
    let _ = indices.validity();
    Ok(indices.clone()?.with_validity(taken.clone()?))
}
