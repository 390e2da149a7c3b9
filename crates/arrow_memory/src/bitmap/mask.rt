//! Bits for some rows that a call is about, which need no memory where they are few.

ghost use Rattle.std.specs.Prelude.{◌≡◌, ◌+◌, ◌*◌, ◌≤◌, ℕ, length, replicate, IfOk, IsOkUnless};
ghost use Rattle.std.specs.List.{flat_map};
ghost use Rattle.arrow_types.specs.declared.error.Error.{Error};
ghost use Rattle.arrow_memory.specs.Bits.{both_bits};
ghost use Rattle.arrow_memory.specs.Masks.{mask_in, IsMask};
ghost use Rattle.arrow_memory.specs.Sliced.{sliced};
ghost use Rattle.arrow_memory.specs.Words.{low_bits, word_of};

use crate::bitmap::bitmap_ops::And;
use crate::bitmap::{Bitmap, Logic, WordRuns};
use crate::words::{WORD_BITS, equal_bits};
use arrow_types::error::Error;
use std::alloc::{AllocError, Global};
use std::marker::Model;

/// A bit for each of some rows. At most 64 of them are kept in a word, and take no memory.
#[derive(Drop)]
pub struct Mask {
    word: u64,
    len: usize,
    /// The bits, where they are more than a word has.
    bits: Option<Bitmap>,
}

impl Model for Mask {
    ghost use Rattle.std.specs.Prelude.{Bool, List};
    ghost use Rattle.arrow_memory.specs.Masks.{mask_in, IsMask};

    ghost Value = { List Bool };

    ghost view = { λ a. mask_in a.bits a.word a.len };

    ghost invariant = { λ a. IsMask a.bits a.len };
}

#[tactic(auto, using(crate::proofs::MaskLemmas::mask_length))]
impl Mask {
    /// The `len` lowest bits of a word.
    ///
    /// # Requires
    /// `len` is at most 64.
    pub fn from_word(word: u64, len: usize) -> Mask
        requires { len ≤ 64 }
        ensures { result ≡ low_bits word len }
    {
        Mask {
            word,
            len,
            bits: None,
        }
    }

    /// The bits of a bitmap.
    pub fn from_bitmap(bits: Bitmap) -> Mask
        ensures { result ≡ bits }
    {
        let len = bits.len();
        if len <= WORD_BITS {
            return Mask::from_part(&bits, 0, len);
        }
        Mask {
            word: 0,
            len,
            bits: Some(bits),
        }
    }

    /// The `len` bits of a bitmap from bit `start` on.
    ///
    /// # Requires
    /// `len` is at most 64, and `start + len` at most the count of the bitmap's bits.
    pub fn from_part(bits: &Bitmap, start: usize, len: usize) -> Mask
        requires few { len ≤ 64 }
        requires within { start + len ≤ length bits.now }
        ensures { result ≡ sliced bits.now start len }
    {
        Mask::from_word(bits.bits_from(start, len), len)
    }

    /// The `len` bits of a bitmap from bit `start` on, each of them `times` times.
    ///
    /// # Requires
    /// `len * times` is at most 64, and `start + len` at most the count of the bitmap's bits.
    pub fn repeated(bits: &Bitmap, start: usize, len: usize, times: usize) -> Mask
        requires few { len * times ≤ 64 }
        requires within { start + len ≤ length bits.now }
        ensures { result ≡ flat_map (replicate times) (sliced bits.now start len) }
    {
        Mask::from_word(repeated_word(bits, start, len, times), len * times)
    }

    /// How many bits there are.
    pub fn len(&self) -> usize
        ensures { result ≡ length self.now }
    {
        self.len
    }

    /// The bits as a word, the first one lowest.
    ///
    /// # Requires
    /// There are at most 64.
    pub fn word(&self) -> u64
        requires { length self.now ≤ 64 }
        ensures { low_bits result (length self.now) ≡ self.now }
    {
        self.word
    }

    /// The bits as a bitmap, which is shared where there are more than 64.
    ///
    /// # Errors
    /// `OutOfMemory` as of [`Bitmap::new_zeroed`].
    pub fn to_bitmap(&self, alloc: Global) -> Result<Bitmap, Error>
        ensures ok { IfOk result (λ bits. bits ≡ self.now) }
        ensures err { IsOkUnless result Error.OutOfMemory }
    {
        match &self.bits {
            Some(bits) => Ok(bits.clone()?),
            None => Bitmap::from_word(alloc, self.word, self.len),
        }
    }

    /// The bits that are set, as far as those of a validity are set too, from bit `start` of it on.
    ///
    /// # Requires
    /// `start` and the count of bits are together at most the count of bits of the validity.
    ///
    /// # Errors
    /// `OutOfMemory` as of [`Bitmap::new_zeroed`], and only of more than 64 bits.
    pub fn and_part(&self, alloc: Global, validity: &Bitmap, start: usize) -> Result<Mask, Error>
        requires { start + length self.now ≤ length validity.now }
        ensures ok { IfOk result (λ both. both
            ≡ both_bits (sliced validity.now start (length self.now)) self.now) }
        ensures err { IsOkUnless result Error.OutOfMemory }
    {
        if self.len > WORD_BITS {
            let own = self.to_bitmap(alloc)?;
            let part = validity.clone()?.sliced(start, self.len);
            return Ok(Mask::from_bitmap(part.and(alloc, &own)?));
        }
        let part = validity.bits_from(start, self.len);
        Ok(Mask::from_word(both_set(part, self.word), self.len))
    }

    /// The bits, to be taken a run at a time.
    ///
    /// # Requires
    /// There are at most 64.
    #[inline(always)]
    pub fn word_runs(&self) -> WordRuns
        requires { length self.now ≤ 64 }
        ensures { result ≡ self.now }
    {
        WordRuns::new(self.word(), self.len)
    }
}

// The bits of `len` rows from row `start` on, each of them `times` times, as a word.
fn repeated_word(bits: &Bitmap, start: usize, len: usize, times: usize) -> u64
    requires few { len * times ≤ 64 }
    requires within { start + len ≤ length bits.now }
    ensures { result ≡ word_of (flat_map (replicate times) (sliced bits.now start len)) }
{
    if len == 0 || times == 0 {
        return 0;
    }
    let rows = bits.bits_from(start, len);
    let set = equal_bits(times, true);
    let mut word = 0;
    for row in 0..len {
        let run = if rows >> row & 1 == 1 { set } else { 0 };
        word |= run << (row * times);
    }
    word
}

/// A clone shares the bits of a bitmap, and copies those of a word.
impl Clone for Mask {
    ghost is_clone = { λ mask copy. copy ≡ mask };

    fn clone(&self) -> Result<Mask, AllocError> {
        Ok(Mask {
            word: self.word,
            len: self.len,
            bits: match &self.bits {
                Some(bits) => Some(bits.clone()?),
                None => None,
            },
        })
    }
}

// The bits that are set in both words.
fn both_set(left: u64, right: u64) -> u64
    ensures { (len : ℕ) → len ≤ 64 → low_bits result len ≡ both_bits (low_bits left len) (low_bits right len) }
{
    And::of_words(left, right)
}
