//! Bitmaps of the bits that a closure answers.

ghost use Rattle.std.specs.Prelude.{◌≡◌, ◌+◌, ◌-◌, ◌*◌, ◌^◌, ◌<◌, ℕ, min, IfOk, IsOkUnless};
ghost use Rattle.arrow_types.specs.declared.error.Error.{Error};
ghost use Rattle.arrow_memory.specs.Gathered.{AnswersBits, AnswersWords, GathersBits};

use crate::bitmap::Bitmap;
use crate::words::WORD_BITS;
use arrow_types::error::Error;
use std::alloc::Global;

/// Half as many bits as a word has.
const HALF_BITS: usize = 32;

impl Bitmap {
    /// The bits of `len` rows, of which `word_at` answers 64 at a time: bit k of its answer to `j` is that of row
    /// `64 * j + k`. It is called once for each word, and what its last answer holds past the last row is left out.
    ///
    /// # Requires
    /// `word_at` may be called on each `j` for which there is a row `64 * j`.
    ///
    /// # Errors
    /// `OutOfMemory` as of [`Bitmap::new_zeroed`].
    pub fn collect_words<F: Fn(usize) -> u64>(
        alloc: Global,
        len: usize,
        word_at: F,
    ) -> Result<Bitmap, Error>
        requires { (j : ℕ) → 64 * j < len → F.pre word_at j }
        ensures ok { IfOk result (λ bits. AnswersWords (F.post word_at) len bits) }
        ensures err { IsOkUnless result Error.OutOfMemory }
    {
        let count = len.div_ceil(WORD_BITS);
        let mut words = Vec::with_capacity(alloc, count)?;
        for j in 0..count {
            words.push_reserved(word_at(j));
        }
        Bitmap::from_words(alloc, words, len)
    }

    /// The bits that `test` answers of the rows below `len`. It is called once for each, in their order.
    ///
    /// # Requires
    /// `test` may be called on each row below `len`.
    ///
    /// # Errors
    /// `OutOfMemory` as of [`Bitmap::new_zeroed`].
    pub fn collect_bool<F: Fn(usize) -> bool>(
        alloc: Global,
        len: usize,
        test: F,
    ) -> Result<Bitmap, Error>
        requires { (row : ℕ) → row < len → F.pre test row }
        ensures ok { IfOk result (λ bits. AnswersBits (F.post test) len bits) }
        ensures err { IsOkUnless result Error.OutOfMemory }
    {
        Bitmap::collect_words(alloc, len, |j| word_of_rows(&test, len, j))
    }
}

// What `test` answers of the 64 rows from row `64 * j` on, as far as they are below `len`.
fn word_of_rows<F: Fn(usize) -> bool>(test: &F, len: usize, j: usize) -> u64
    requires callable { (row : ℕ) → row < len → F.pre test.now row }
    requires some { 64 * j < len }
    ensures { GathersBits (F.post test.now) (64 * j) (min 64 (len - 64 * j)) result }
{
    let start = WORD_BITS * j;
    if len - start < WORD_BITS {
        return bits_of_last(test, start, len - start);
    }
    let low = half_of_rows(test, start);
    let high = half_of_rows(test, start + HALF_BITS);
    u64::from(low) | u64::from(high) << HALF_BITS
}

// What `test` answers of the 32 rows from row `start` on, a bit each, from the least significant one on. The count is
// known when the program is compiled, and no branch depends on a row, so that several rows are tested at once.
fn half_of_rows<F: Fn(usize) -> bool>(test: &F, start: usize) -> u32
    requires callable { (row : ℕ) → row < start + 32 → F.pre test.now row }
    requires fits { start + 32 < 2 ^ 64 }
    ensures { GathersBits (F.post test.now) start 32 result }
{
    let mut half = 0;
    for k in 0..HALF_BITS {
        half |= u32::from(test(start + k)) << k;
    }
    half
}

// The same of fewer than 64 rows, the last ones.
fn bits_of_last<F: Fn(usize) -> bool>(test: &F, start: usize, count: usize) -> u64
    requires callable { (row : ℕ) → row < start + count → F.pre test.now row }
    requires in_word { count < 64 }
    requires fits { start + count < 2 ^ 64 }
    ensures { GathersBits (F.post test.now) start count result }
{
    let mut word = 0;
    for k in 0..count {
        word |= u64::from(test(start + k)) << k;
    }
    word
}
