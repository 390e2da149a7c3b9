//! Logic on bitmaps, word by word.

ghost use Rattle.std.specs.Prelude.{◌≡◌, ◌+◌, ◌*◌, ◌^◌, ◌<◌, ◌&&◌, ◌||◌, ◌==◌, Bool, ℕ, length, map, not, IfOk, IsOkUnless};
ghost use Rattle.std.specs.Int.{bit_at, div_ceil};
ghost use Rattle.arrow_types.specs.declared.error.Error.{Error};
ghost use Rattle.arrow_memory.specs.Bits.{paired, both_bits, either_bits, first_bits};
ghost use Rattle.arrow_memory.specs.Words.{is_set, Reads};

use crate::bitmap::Bitmap;
use crate::words::WORD_BITS;
use crate::words::logic::{Logic, combine};
use arrow_types::error::Error;
use std::alloc::Global;

/// Whether both are set.
pub(crate) struct And;

impl Logic for And {
    ghost bits = { λ x y. x && y };

    fn of_words(left: u64, right: u64) -> u64 {
        left & right
    }
}

/// Whether the first is set, and the second is not.
pub(crate) struct AndNot;

impl Logic for AndNot {
    ghost bits = { λ x y. x && not y };

    fn of_words(left: u64, right: u64) -> u64 {
        left & !right
    }
}

/// Whether one is set at least.
pub(crate) struct Or;

impl Logic for Or {
    ghost bits = { λ x y. x || y };

    fn of_words(left: u64, right: u64) -> u64 {
        left | right
    }
}

impl Bitmap {
    /// The bits that are set in both, word by word.
    ///
    /// # Requires
    /// Both have as many bits.
    ///
    /// # Errors
    /// `OutOfMemory` as of [`Bitmap::new_zeroed`].
    pub fn and(&self, alloc: Global, other: &Bitmap) -> Result<Bitmap, Error>
        requires { length self.now ≡ length other.now }
        ensures ok { IfOk result (λ bitmap. bitmap ≡ both_bits self.now other.now) }
        ensures err { IsOkUnless result Error.OutOfMemory }
    {
        self.combined::<And>(alloc, other)
    }

    /// The bits that are set here and not in the other, word by word.
    ///
    /// # Requires
    /// Both have as many bits.
    ///
    /// # Errors
    /// `OutOfMemory` as of [`Bitmap::new_zeroed`].
    pub fn and_not(&self, alloc: Global, other: &Bitmap) -> Result<Bitmap, Error>
        requires { length self.now ≡ length other.now }
        ensures ok { IfOk result (λ bitmap. bitmap ≡ first_bits self.now other.now) }
        ensures err { IsOkUnless result Error.OutOfMemory }
    {
        self.combined::<AndNot>(alloc, other)
    }

    /// The bits that are set in one at least, word by word.
    ///
    /// # Requires
    /// Both have as many bits.
    ///
    /// # Errors
    /// `OutOfMemory` as of [`Bitmap::new_zeroed`].
    pub fn or(&self, alloc: Global, other: &Bitmap) -> Result<Bitmap, Error>
        requires { length self.now ≡ length other.now }
        ensures ok { IfOk result (λ bitmap. bitmap ≡ either_bits self.now other.now) }
        ensures err { IsOkUnless result Error.OutOfMemory }
    {
        self.combined::<Or>(alloc, other)
    }

    /// Each bit turned, word by word.
    ///
    /// # Errors
    /// `OutOfMemory` as of [`Bitmap::new_zeroed`].
    pub fn not(&self, alloc: Global) -> Result<Bitmap, Error>
        ensures ok { IfOk result (λ bitmap. bitmap ≡ map not self.now) }
        ensures err { IsOkUnless result Error.OutOfMemory }
    {
        let mut words = self.to_words(alloc)?;
        turn(&mut words);
        Bitmap::from_words(alloc, words, self.len())
    }

    /// What each bit gives with the other's, word by word.
    ///
    /// # Requires
    /// Both have as many bits.
    ///
    /// # Errors
    /// `OutOfMemory` as of [`Bitmap::new_zeroed`].
    pub fn combined<L: Logic>(&self, alloc: Global, other: &Bitmap) -> Result<Bitmap, Error>
        requires { length self.now ≡ length other.now }
        ensures ok { IfOk result (λ bitmap. bitmap ≡ paired L.bits self.now other.now) }
        ensures err { IsOkUnless result Error.OutOfMemory }
    {
        let mut words = self.to_words(alloc)?;
        combine::<L>(&mut words, &other.words, other.offset);
        Bitmap::from_words(alloc, words, self.len())
    }

    /// The bits in words of their own, from the first bit of the first word on.
    pub(super) fn to_words(&self, alloc: Global) -> Result<Vec<u64>, Error>
        ensures full { IfOk result (λ words. length words.items ≡ div_ceil (length self.now) 64) }
        ensures ok { IfOk result (λ words. Reads words.items self.now) }
        ensures err { IsOkUnless result Error.OutOfMemory }
    {
        let len = self.len();
        let mut words = Vec::with_capacity(alloc, len.div_ceil(WORD_BITS))?;
        self.append_to(&mut words, 0, 0, len);
        Ok(words)
    }
}

// Turns each bit of words.
fn turn(words: &mut [u64])
    ensures long { length words.new ≡ length words.old }
    ensures each { (i : ℕ) → i < 64 * length words.old → is_set words.new i ≡ not (is_set words.old i) }
{
    for j in 0..words.len() {
        words[j] = turned(words[j]);
    }
}

// A word with each bit turned.
fn turned(word: u64) -> u64
    ensures { (k : ℕ) → k < 64 → (bit_at result k == 1) ≡ not (bit_at word k == 1) }
{
    !word
}
