//! Logic on four bitmaps in one pass, word by word.

ghost use Rattle.std.specs.Prelude.{◌≡◌, ◌+◌, ◌*◌, ◌^◌, ◌<◌, ◌==◌, Bool, ℕ, length, IfOk, IsOkUnless};
ghost use Rattle.std.specs.Int.{bit_at};
ghost use Rattle.arrow_types.specs.declared.error.Error.{Error};
ghost use Rattle.arrow_memory.specs.Bits.{by_fours};
ghost use Rattle.arrow_memory.specs.Words.{bits_in, is_set, word_of};

use crate::bitmap::Bitmap;
use crate::words::{WORD_BITS, across, word_from};
use arrow_types::error::Error;
use std::alloc::Global;

/// What four bits give, known when the program is compiled. Of a word it tells all 64 at once.
pub trait QuaternaryLogic {
    ghost bits: { Bool → Bool → Bool → Bool → Bool };

    /// What each bit of a word gives with those of the others.
    fn of_words(first: u64, second: u64, third: u64, fourth: u64) -> u64
        ensures { (k : ℕ) → k < 64 → (bit_at result k == 1)
            ≡ bits (bit_at first k == 1) (bit_at second k == 1) (bit_at third k == 1)
            (bit_at fourth k == 1) };
}

impl Bitmap {
    /// What each bit gives with those of three others, word by word.
    ///
    /// # Requires
    /// All have as many bits.
    ///
    /// # Errors
    /// `OutOfMemory` as of [`Bitmap::new_zeroed`].
    pub fn combined_by_fours<L: QuaternaryLogic>(
        &self,
        alloc: Global,
        second: &Bitmap,
        third: &Bitmap,
        fourth: &Bitmap,
    ) -> Result<Bitmap, Error>
        requires second { length self.now ≡ length second.now }
        requires third { length self.now ≡ length third.now }
        requires fourth { length self.now ≡ length fourth.now }
        ensures ok { IfOk result (λ bitmap. bitmap
            ≡ by_fours L.bits self.now second.now third.now fourth.now) }
        ensures err { IsOkUnless result Error.OutOfMemory }
    {
        let mut words = self.to_words(alloc)?;
        combine_by_fours::<L>(
            &mut words,
            &second.words,
            second.offset,
            &third.words,
            third.offset,
            &fourth.words,
            fourth.offset,
        );
        Bitmap::from_words(alloc, words, self.len())
    }
}

// Puts what the bits of words give with those of three others, from a bit of each on, in their place.
fn combine_by_fours<L: QuaternaryLogic>(
    words: &mut [u64],
    second: &[u64],
    second_from: usize,
    third: &[u64],
    third_from: usize,
    fourth: &[u64],
    fourth_from: usize,
)
    requires second { second_from + 64 * length words.old < 64 * length second.now + 64 }
    requires third { third_from + 64 * length words.old < 64 * length third.now + 64 }
    requires fourth { fourth_from + 64 * length words.old < 64 * length fourth.now + 64 }
    requires second_fits { second_from + 64 * length words.old < 2 ^ 64 + 64 }
    requires third_fits { third_from + 64 * length words.old < 2 ^ 64 + 64 }
    requires fourth_fits { fourth_from + 64 * length words.old < 2 ^ 64 + 64 }
    ensures long { length words.new ≡ length words.old }
    ensures each { (i : ℕ) → i < 64 * length words.old → is_set words.new i
        ≡ L.bits (is_set words.old i) (is_set second.now (second_from + i))
        (is_set third.now (third_from + i)) (is_set fourth.now (fourth_from + i)) }
{
    let Some(last) = words.len().checked_sub(1) else {
        return;
    };
    for j in 0..last {
        words[j] = L::of_words(
            words[j],
            word_before_last(second, second_from, j),
            word_before_last(third, third_from, j),
            word_before_last(fourth, fourth_from, j),
        );
    }
    words[last] = L::of_words(
        words[last],
        word_from(second, second_from + WORD_BITS * last),
        word_from(third, third_from + WORD_BITS * last),
        word_from(fourth, fourth_from + WORD_BITS * last),
    );
}

// The 64 bits from bit `64 * j` behind a place on, where there are more.
#[inline(always)]
fn word_before_last(words: &[u64], from: usize, j: usize) -> u64
    requires { from + 64 * j + 64 < 64 * length words.now }
    ensures { result ≡ word_of (bits_in words.now (from + 64 * j) 64) }
{
    let first = from / WORD_BITS + j;
    across(words[first], words[first + 1], from % WORD_BITS)
}
