//! Values and validities that a predicate chooses, by words of 64 rows.

ghost use Rattle.std.specs.Prelude.{◌≡◌, ◌+◌, ◌*◌, ◌<◌, ◌≤◌, ◌==◌, ◌++◌, ℕ, false, if◌then◌else◌, length, option_copied, slice_index_or, IfOk, IsOkUnless};
ghost use Rattle.std.specs.Int.{bit_at};
ghost use Rattle.std.specs.Vec.{vec_len, vec_capacity};
ghost use Rattle.arrow_types.specs.declared.error.Error.{Error};
ghost use Rattle.arrow_memory.specs.Words.{low_bits};
ghost use Rattle.arrow_flat.specs.Parts.{FitsRows};
ghost use Rattle.arrow_choice.specs.Choice.{MarksChosen, chosen_by, valid_chosen};

use arrow_flat::array::BooleanArray;
use arrow_flat::array::validity::valid_word;
use arrow_memory::bitmap::{Bitmap, WORD_BITS};
use arrow_types::error::Error;
use arrow_types::types::NativeType;
use std::alloc::Global;

// The values that bits choose: those of the left side where a bit is set, and of the right one where it is not.
#[inline(never)]
pub(super) fn chosen_values<T: NativeType>(
    alloc: Global,
    bits: &Bitmap,
    left: &[T],
    right: &[T],
) -> Result<Vec<T>, Error>
    requires left { length left.now ≡ length bits.now }
    requires right { length right.now ≡ length bits.now }
    ensures ok { IfOk result (λ values. values.items ≡ chosen_by bits.now left.now right.now) }
    ensures err { IsOkUnless result Error.OutOfMemory }
{
    let len = bits.len();
    let mut values = Vec::with_capacity(alloc, len)?;
    for j in 0..len.div_ceil(WORD_BITS) {
        let start = WORD_BITS * j;
        let end = start + WORD_BITS.min(len - start);
        let word = bits.word(j);
        append_word(&mut values, word, &left[start..end], &right[start..end]);
    }
    Ok(values)
}

// Appends the values that the bits of a word choose, for which there is room. Those of one side are one copy.
#[inline(always)]
fn append_word<T: NativeType>(values: &mut Vec<T>, word: u64, left: &[T], right: &[T])
    requires lengths { length left.now ≡ length right.now }
    requires in_word { length left.now ≤ 64 }
    requires room { vec_len values.old + length left.now ≤ vec_capacity values.old }
    ensures items { values.new.items
        ≡ values.old.items ++ chosen_by (low_bits word (length left.now)) left.now right.now }
    ensures len { vec_len values.new ≡ vec_len values.old + length left.now }
    ensures capacity { vec_capacity values.old ≤ vec_capacity values.new }
{
    if word == 0 {
        append_copy(values, right);
    } else if word == u64::MAX {
        append_copy(values, left);
    } else {
        push_chosen(values, word, left, right);
    }
}

// Appends values in one, for which there is room.
fn append_copy<T: NativeType>(values: &mut Vec<T>, others: &[T])
    requires { vec_len values.old + length others.now ≤ vec_capacity values.old }
    ensures items { values.new.items ≡ values.old.items ++ others.now }
    ensures len { vec_len values.new ≡ vec_len values.old + length others.now }
    ensures capacity { vec_capacity values.old ≤ vec_capacity values.new }
{
    let Ok(()) = values.extend_from_slice(others) else {
        unreachable!();
    };
}

// Appends the values that the bits of a word choose, one by one, for which there is room. No branch depends on a bit.
#[inline(always)]
fn push_chosen<T: NativeType>(values: &mut Vec<T>, word: u64, left: &[T], right: &[T])
    requires lengths { length left.now ≡ length right.now }
    requires in_word { length left.now ≤ 64 }
    requires room { vec_len values.old + length left.now ≤ vec_capacity values.old }
    ensures items { values.new.items
        ≡ values.old.items ++ chosen_by (low_bits word (length left.now)) left.now right.now }
    ensures len { vec_len values.new ≡ vec_len values.old + length left.now }
    ensures capacity { vec_capacity values.old ≤ vec_capacity values.new }
{
    for k in 0..left.len() {
        values.push_reserved(either(word >> k & 1 == 1, left[k], right[k]));
    }
}

// One of two values.
#[inline(always)]
pub(super) fn either<T: Copy>(bit: bool, left: T, right: T) -> T
    ensures { result ≡ (if bit then left else right) }
{
    if bit { left } else { right }
}

// The bits that others choose: those of the left side where a bit is set, and of the right one where it is not.
pub(super) fn chosen_bits(
    alloc: Global,
    bits: &Bitmap,
    left: &Bitmap,
    right: &Bitmap,
) -> Result<Bitmap, Error>
    requires left { length left.now ≡ length bits.now }
    requires right { length right.now ≡ length bits.now }
    ensures ok { IfOk result (λ values. values ≡ chosen_by bits.now left.now right.now) }
    ensures err { IsOkUnless result Error.OutOfMemory }
{
    Bitmap::collect_words(alloc, bits.len(), |j| chosen_word(bits, left, right, j))
}

// The bits that 64 others from bit `64 * j` on choose.
fn chosen_word(bits: &Bitmap, left: &Bitmap, right: &Bitmap, j: usize) -> u64
    ensures { (k : ℕ) → k < 64 → (bit_at result k == 1)
        ≡ (if slice_index_or bits.now (64 * j + k) false then slice_index_or left.now (64 * j + k) false
        else slice_index_or right.now (64 * j + k) false) }
{
    either_word(bits.word(j), left.word(j), right.word(j))
}

// Each bit of the left word where one is set, and of the right one where it is not.
#[tactic(auto, using(crate::proofs::ChosenLemmas::either_each))]
fn either_word(word: u64, left: u64, right: u64) -> u64
    ensures { (k : ℕ) → k < 64 → (bit_at result k == 1)
        ≡ (if bit_at word k == 1 then bit_at left k == 1 else bit_at right k == 1) }
{
    word & left | !word & right
}

// The validity of the rows that a predicate chooses of arrays of these validities. There is none where none of the three
// has one.
pub(super) fn chosen_validity(
    alloc: Global,
    predicate: &BooleanArray,
    left: Option<&Bitmap>,
    right: Option<&Bitmap>,
) -> Result<Option<Bitmap>, Error>
    requires left { FitsRows (option_copied left) (length predicate.now.values) }
    requires right { FitsRows (option_copied right) (length predicate.now.values) }
    ensures predicate { FitsRows predicate.now.validity (length predicate.now.values) }
    ensures ok { IfOk result (λ validity.
        MarksChosen predicate.now (option_copied left.entry) (option_copied right.entry) validity) }
    ensures err { IsOkUnless result Error.OutOfMemory }
{
    if predicate.validity().is_none() && left.is_none() && right.is_none() {
        return Ok(None);
    }
    let len = predicate.values().len();
    let bits = Bitmap::collect_words(alloc, len, |j| valid_rows(predicate, left, right, j))?;
    Ok(Some(bits))
}

// Which of the 64 rows that a predicate chooses from row `64 * j` on are valid, a bit each.
fn valid_rows(
    predicate: &BooleanArray,
    left: Option<&Bitmap>,
    right: Option<&Bitmap>,
    j: usize,
) -> u64
    requires left { FitsRows (option_copied left) (length predicate.now.values) }
    requires right { FitsRows (option_copied right) (length predicate.now.values) }
    ensures { (k : ℕ) → k < 64 → 64 * j + k < length predicate.now.values
        → (bit_at result k == 1) ≡ valid_chosen predicate.now (option_copied left.entry)
        (option_copied right.entry) (64 * j + k) }
{
    let (left, right) = (valid_word(left, j), valid_word(right, j));
    valid_word(predicate.validity(), j) & either_word(predicate.values().word(j), left, right)
}
