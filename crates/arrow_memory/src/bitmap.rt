//! Bitmaps: shared, packed lists of bits.

ghost use Rattle.std.specs.Prelude.{◌≡◌, ◌+◌, ◌*◌, ◌^◌, ◌<◌, ◌≤◌, ◌==◌, ◌↔◌, ℕ, [], length, replicate, false, not, count_by, slice_get, slice_index_or, IsTrue, IfOk, IsOkUnless};
ghost use Rattle.std.specs.Bool.{beq};
ghost use Rattle.std.specs.Int.{bit_at, div_ceil};
ghost use Rattle.std.specs.Vec.{vec_capacity};
ghost use Rattle.std.specs.Cmp.{partial_equiv_from_equiv, bool_eq_equiv};
ghost use Rattle.std.specs.Cmp.Lexicographic.{pointwise, lists_equiv};
ghost use Rattle.arrow_types.specs.declared.error.Error.{Error};
ghost use Rattle.arrow_memory.specs.Sliced.{sliced};
ghost use Rattle.arrow_memory.specs.Words.{bits_in, low_bits, word_of, AppendsBits};

mod bitmap_ops;
mod collect;
mod mask;
mod mutable;
mod quaternary;
mod runs;

pub use crate::words::WORD_BITS;
pub use crate::words::logic::Logic;
use crate::words::{append_bits, bits_from, count_ones, equal_bits, pack, word_within};
use arrow_types::error::Error;
pub use mask::Mask;
pub use mutable::MutableBitmap;
pub use quaternary::QuaternaryLogic;
pub use runs::{BitRuns, WordRuns};
use std::alloc::{AllocError, Global};
use std::marker::Model;
use std::rc::Rc;

/// A list of bits, packed as in Arrow's columnar format ("Validity bitmaps") and shared by its
/// clones and slices.
pub struct Bitmap {
    words: Rc<Vec<u64>>,
    offset: usize,
    len: usize,
}

// by hand, so that a drop is a call, and is not written out wherever a value is dropped
impl Drop for Bitmap {
    fn drop(self) {
        let Bitmap {
            words: _,
            offset: _,
            len: _,
        } = self;
    }
}

impl Model for Bitmap {
    ghost use Rattle.std.specs.Prelude.{Bool, List};
    ghost use Rattle.arrow_memory.specs.Words.{bits_in, Holds};

    ghost Value = { List Bool };

    ghost view = { λ a. bits_in a.words.value.items a.offset a.len };

    ghost invariant = { λ a. Holds a.words.value.items a.offset a.len };
}

#[tactic(auto, using(crate::proofs::WordLemmas::bit_lengths))]
impl Bitmap {
    /// Packs a list of bits. It takes a word of memory for 64 bits, and that of one shared owner.
    ///
    /// # Errors
    /// `OutOfMemory` where either is refused.
    pub fn from_bools(alloc: Global, bits: &[bool]) -> Result<Bitmap, Error>
        ensures ok { IfOk result (λ bitmap. bitmap ≡ bits.now) }
        ensures err { IsOkUnless result Error.OutOfMemory }
    {
        let mut words = Vec::with_capacity(alloc, bits.len().div_ceil(WORD_BITS))?;
        for chunk in bits.chunks(WORD_BITS) {
            words.push(pack(chunk))?;
        }
        Bitmap::from_words(alloc, words, bits.len())
    }

    /// So many bits that are not set.
    ///
    /// # Errors
    /// `OutOfMemory` where the memory of a bit each, or that of one shared owner, is refused.
    pub fn new_zeroed(alloc: Global, len: usize) -> Result<Bitmap, Error>
        ensures ok { IfOk result (λ bitmap. bitmap ≡ replicate len false) }
        ensures err { IsOkUnless result Error.OutOfMemory }
    {
        let words = vec![in alloc; 0; len.div_ceil(WORD_BITS)]?;
        Bitmap::from_words(alloc, words, len)
    }

    /// So many bits that are equal to `value`.
    ///
    /// # Errors
    /// `OutOfMemory` as of [`Bitmap::new_zeroed`].
    pub fn new_constant(alloc: Global, value: bool, len: usize) -> Result<Bitmap, Error>
        ensures ok { IfOk result (λ bitmap. bitmap ≡ replicate len value) }
        ensures err { IsOkUnless result Error.OutOfMemory }
    {
        let words = vec![in alloc; equal_bits(WORD_BITS, value); len.div_ceil(WORD_BITS)]?;
        Bitmap::from_words(alloc, words, len)
    }

    /// The first bits of a word.
    fn from_word(alloc: Global, word: u64, len: usize) -> Result<Bitmap, Error>
        requires { len ≤ 64 }
        ensures ok { IfOk result (λ bitmap. bitmap ≡ low_bits word len) }
        ensures err { IsOkUnless result Error.OutOfMemory }
    {
        let words = vec![in alloc; word; 1]?;
        Bitmap::from_words(alloc, words, len)
    }

    /// The first bits of some words.
    fn from_words(alloc: Global, words: Vec<u64>, len: usize) -> Result<Bitmap, Error>
        requires { len ≤ 64 * length words.items }
        ensures ok { IfOk result (λ bitmap. bitmap ≡ bits_in words.items 0 len) }
        ensures err { IsOkUnless result Error.OutOfMemory }
    {
        Ok(Bitmap {
            words: Rc::new(alloc, words)?,
            offset: 0,
            len,
        })
    }

    /// How many bits there are.
    pub fn len(&self) -> usize
        ensures { result ≡ length self.now }
    {
        self.len
    }

    /// Whether there is no bit.
    pub fn is_empty(&self) -> bool
        ensures { IsTrue result ↔ (self.now ≡ []) }
    {
        self.len() == 0
    }

    /// Whether bit `i` is set.
    ///
    /// # Requires
    /// `i` is below the count of bits.
    pub fn get_bit(&self, i: usize) -> bool
        requires { i < length self.now }
        ensures { slice_get self.now i ≡ Some result }
    {
        let place = self.offset + i;
        self.words[place / WORD_BITS] >> (place % WORD_BITS) & 1 == 1
    }

    /// Bits 64 j to 64 j + 63 as a word: bit k of it is bit 64 j + k, and those past the last bit are zeros. Every
    /// `j` is allowed, and the bits may begin anywhere in their words.
    #[inline(always)]
    pub fn word(&self, j: usize) -> u64
        ensures each { (k : ℕ) → k < 64 → (bit_at result k == 1)
            ≡ slice_index_or self.now (64 * j + k) false }
        ensures word { result ≡ word_of (sliced self.now (64 * j) 64) }
    {
        if j < self.len / WORD_BITS {
            word_within(&self.words, self.offset + WORD_BITS * j)
        } else {
            self.last_word(j)
        }
    }

    /// The same of any `j`, with tests of where the bits end.
    #[inline(never)]
    fn last_word(&self, j: usize) -> u64
        ensures { result ≡ word_of (sliced self.now (64 * j) 64) }
    {
        let len = self.len();
        let start = j.saturating_mul(WORD_BITS).min(len);
        self.bits_from(start, WORD_BITS.min(len - start))
    }

    /// How many bits are not set, counted a word at a time.
    pub fn unset_bits(&self) -> usize
        ensures { result ≡ count_by not self.now }
    {
        self.len - count_ones(&self.words, self.offset, self.offset + self.len)
    }

    /// Keeps `len` bits from place `offset` on. Nothing is copied.
    ///
    /// # Requires
    /// `offset + len` is at most the count of bits.
    pub fn slice(&mut self, offset: usize, len: usize)
        requires { offset + len ≤ length self.old }
        ensures { self.new ≡ sliced self.old offset len }
    {
        self.offset += offset;
        self.len = len;
    }

    /// The `len` bits from place `offset` on. Nothing is copied.
    ///
    /// # Requires
    /// `offset + len` is at most the count of bits.
    pub fn sliced(self, offset: usize, len: usize) -> Bitmap
        requires { offset + len ≤ length self }
        ensures { result ≡ sliced self offset len }
    {
        let mut part = self;
        part.slice(offset, len);
        part
    }

    /// Whether `len` bits from place `start` on are those of the other from place `other_start` on,
    /// compared a word at a time.
    ///
    /// # Requires
    /// `start + len` is at most the count of bits, and `other_start + len` at most that of the other.
    pub fn equal_range(&self, start: usize, other: &Bitmap, other_start: usize, len: usize) -> bool
        requires here { start + len ≤ length self.now }
        requires there { other_start + len ≤ length other.now }
        ensures { IsTrue result ↔ (sliced self.now start len ≡ sliced other.now other_start len) }
    {
        // Each place is a `usize`, since the counts of bits are.
        let _ = (self.len(), other.len());
        let mut place = 0;
        while place < len {
            let count = WORD_BITS.min(len - place);
            let word = self.bits_from(start + place, count);
            if word != other.bits_from(other_start + place, count) {
                return false;
            }
            place += count;
        }
        true
    }

    /// So many bits from bit `first` on as a word, with zeros above.
    pub(crate) fn bits_from(&self, first: usize, count: usize) -> u64
        requires within { first + count ≤ length self.now }
        requires in_word { count ≤ 64 }
        ensures { result ≡ word_of (sliced self.now first count) }
    {
        bits_from(&self.words, self.offset + first, count)
    }

    /// Puts `len` bits from bit `start` on behind the first `place` ones of some words.
    fn append_to(&self, words: &mut Vec<u64>, place: usize, start: usize, len: usize)
        requires part { start + len ≤ length self.now }
        requires full { length words.old.items ≡ div_ceil place 64 }
        requires room { div_ceil (place + len) 64 ≤ vec_capacity words.old }
        requires fits { place + len < 2 ^ 64 }
        ensures full { length words.new.items ≡ div_ceil (place + len) 64 }
        ensures appended { AppendsBits words.old.items words.new.items place (sliced self.now start len) }
    {
        append_bits(words, place, &self.words, self.offset + start, len);
    }
}

/// A clone shares the bits and copies none. It is refused only where the count of owners is full.
impl Clone for Bitmap {
    ghost is_clone = { λ bitmap copy. copy ≡ bitmap };

    fn clone(&self) -> Result<Bitmap, AllocError> {
        Ok(Bitmap {
            words: self.words.clone()?,
            offset: self.offset,
            len: self.len,
        })
    }
}

/// Two bitmaps are equal where their bits are, wherever they begin in their words.
#[tactic(auto, using(crate::proofs::WordLemmas::bit_lengths))]
impl PartialEq for Bitmap {
    ghost eq = { pointwise beq };

    ghost laws = { partial_equiv_from_equiv (lists_equiv bool_eq_equiv) };

    fn eq(&self, other: &Bitmap) -> bool
        ensures value { result ≡ pointwise beq self.now other.now }
        ensures bits { IsTrue result ↔ (self.now ≡ other.now) }
    {
        let len = self.len();
        len == other.len() && self.equal_range(0, other, 0, len)
    }
}

impl Eq for Bitmap {
    ghost laws = { lists_equiv bool_eq_equiv };
}
