//! Whether null rows of texts and bytes store no bytes, as builders leave them.

ghost use Rattle.std.specs.Prelude.{◌≡◌, ◌+◌, ◌%◌, ◌<◌, ◌≤◌, ℕ, false, length, slice_index, slice_index_or, IsTrue};
ghost use Rattle.std.specs.Int.{bit_at};
ghost use Rattle.arrow_flat_growable.specs.GrownRows.{AreEmptyNulls};

use arrow_memory::bitmap::{Bitmap, WORD_BITS};
use arrow_memory::offset::OffsetsBuffer;
use arrow_types::types::Offset;

// Whether those of `len` rows from row `start` on are empty whose bit is not set, by words of the bits. It stops at the
// first that is not.
pub(super) fn are_nulls_empty<O: Offset>(
    rows: &OffsetsBuffer<O>,
    validity: &Bitmap,
    start: usize,
    len: usize,
) -> bool
    requires part { start + len < length rows.now }
    requires covered { start + len ≤ length validity.now }
    ensures { IsTrue result → AreEmptyNulls validity.now rows.now start (start + len) }
{
    prove!(start < rows.len());
    let end = start + len;
    let mut next = start;
    while next < end {
        let count = (WORD_BITS - next % WORD_BITS).min(end - next);
        if !are_empty(rows, next, unset_from(validity, next, count)) {
            return false;
        }
        next += count;
    }
    true
}

// Those of `count` bits from bit `first` on that are not set, as a word. They lie in one word of the bitmap.
#[inline(always)]
fn unset_from(validity: &Bitmap, first: usize, count: usize) -> u64
    requires some { 0 < count }
    requires in_word { first % 64 + count ≤ 64 }
    ensures within { (k : ℕ) → bit_at result k ≡ 1 → k < count }
    ensures unset { (k : ℕ) → k < count → slice_index_or validity.now (first + k) false ≡ false
        → bit_at result k ≡ 1 }
{
    let word = validity.word(first / WORD_BITS) >> (first % WORD_BITS);
    !word & (u64::MAX >> (WORD_BITS - count))
}

// Whether the rows are empty whose bit is set in a word, counted from row `start` on.
#[inline(always)]
fn are_empty<O: Offset>(rows: &OffsetsBuffer<O>, start: usize, word: u64) -> bool
    requires { (k : ℕ) → bit_at word k ≡ 1 → start + k + 1 < length rows.now }
    ensures { IsTrue result → (k : ℕ) → bit_at word k ≡ 1
        → slice_index rows.now (start + k + 1) ≡ slice_index rows.now (start + k) }
{
    prove!(0 < rows.len());
    let mut left = word;
    while left != 0 {
        let place = left.trailing_zeros() as usize;
        let (begin, end) = rows.start_end(start + place);
        if begin != end {
            return false;
        }
        left &= !(1 << place);
    }
    true
}
