//! Words that are changed one after the other, by the bits of others.

ghost use Rattle.std.specs.Prelude.{◌≡◌, ◌+◌, ◌*◌, ◌^◌, ◌<◌, ◌≤◌, ◌==◌, Bool, ℕ, length};
ghost use Rattle.std.specs.Int.{bit_at};
ghost use Rattle.arrow_memory.specs.Words.{is_set};

use crate::words::{WORD_BITS, across, word_from};

/// What two bits give, known when the program is compiled. Of a word it tells all 64 at once.
pub trait Logic {
    ghost bits: { Bool → Bool → Bool };

    /// What each bit of a word gives with the other's.
    fn of_words(left: u64, right: u64) -> u64
        ensures { (k : ℕ) → k < 64 → (bit_at result k == 1)
            ≡ bits (bit_at left k == 1) (bit_at right k == 1) };
}

/// What the second of two bits is.
pub(super) struct Second;

impl Logic for Second {
    ghost bits = { λ x y. y };

    fn of_words(_left: u64, right: u64) -> u64 {
        right
    }
}

// Puts what the bits of words give with the others', from bit `from` of those on, in their place.
pub(crate) fn combine<L: Logic>(words: &mut [u64], others: &[u64], from: usize)
    requires part { from + 64 * length words.old < 64 * length others.now + 64 }
    requires fits { from + 64 * length words.old < 2 ^ 64 + 64 }
    ensures long { length words.new ≡ length words.old }
    ensures each { (i : ℕ) → i < 64 * length words.old → is_set words.new i
        ≡ L.bits (is_set words.old i) (is_set others.now (from + i)) }
{
    let Some(last) = words.len().checked_sub(1) else {
        return;
    };
    combine_within::<L>(words, others, from, last);
    words[last] = L::of_words(words[last], word_from(others, from + WORD_BITS * last));
}

// The same of the first `count` words, where the others go on behind them.
pub(super) fn combine_within<L: Logic>(words: &mut [u64], others: &[u64], from: usize, count: usize)
    requires within { count ≤ length words.old }
    requires part { from + 64 * count < 64 * length others.now }
    ensures long { length words.new ≡ length words.old }
    ensures each { (i : ℕ) → i < 64 * count → is_set words.new i
        ≡ L.bits (is_set words.old i) (is_set others.now (from + i)) }
    ensures left { (i : ℕ) → 64 * count ≤ i → is_set words.new i ≡ is_set words.old i }
{
    let (first, shift) = (from / WORD_BITS, from % WORD_BITS);
    for j in 0..count {
        words[j] = L::of_words(
            words[j],
            across(others[first + j], others[first + j + 1], shift),
        );
    }
}
