//! Bitmaps under construction.

ghost use Rattle.std.specs.Prelude.{◌≡◌, ◌+◌, ◌^◌, ◌<◌, ◌≤◌, ◌↔◌, [], ◌∷◌, ◌++◌, length, replicate, Err, IsTrue, IfOk, IfErr, OnOk, OnErr, IsOkUnless};
ghost use Rattle.std.specs.Int.{div_ceil};
ghost use Rattle.std.specs.Vec.{vec_capacity};
ghost use Rattle.arrow_types.specs.declared.error.Error.{Error};
ghost use Rattle.arrow_memory.specs.Grown.{IsGrowthError};
ghost use Rattle.arrow_memory.specs.Sliced.{sliced};
ghost use Rattle.arrow_memory.specs.Words.{low_bits, word_of, AppendsWord};

use crate::bitmap::Bitmap;
use crate::words::{WORD_BITS, append_equal, append_word, equal_bits, fill_last, low_word};
use arrow_types::error::Error;
use std::alloc::Global;
use std::marker::Model;

/// Bits that are appended, and then shared as a [`Bitmap`].
#[derive(Drop)]
pub struct MutableBitmap {
    words: Vec<u64>,
    len: usize,
}

impl Model for MutableBitmap {
    ghost use Rattle.std.specs.Prelude.{Bool, List};
    ghost use Rattle.arrow_memory.specs.Words.{bits_in, IsPadded};

    ghost Value = { List Bool };

    ghost view = { λ a. bits_in a.words.items 0 a.len };

    ghost invariant = { λ a. IsPadded a.words.items a.len };
}

#[tactic(auto, using(crate::proofs::WordLemmas::bit_lengths))]
impl MutableBitmap {
    /// No bits. It takes no memory, and keeps the allocator for those that come.
    pub fn new(alloc: Global) -> MutableBitmap
        ensures { result ≡ [] }
    {
        MutableBitmap {
            words: Vec::new(alloc),
            len: 0,
        }
    }

    /// No bits, and room for so many.
    ///
    /// # Errors
    /// `OutOfMemory` where it is refused.
    pub fn with_capacity(alloc: Global, capacity: usize) -> Result<MutableBitmap, Error>
        ensures ok { IfOk result (λ bits. bits ≡ []) }
        ensures err { IsOkUnless result Error.OutOfMemory }
    {
        Ok(MutableBitmap {
            words: Vec::with_capacity(alloc, capacity.div_ceil(WORD_BITS))?,
            len: 0,
        })
    }

    /// How many bits there are.
    pub fn len(&self) -> usize
        ensures { result ≡ length self.now }
    {
        self.len
    }

    /// Whether there is no bit.
    pub fn is_empty(&self) -> bool
        ensures { IsTrue result ↔ (self.now ≡ []) }
    {
        self.len() == 0
    }

    /// Appends a bit.
    ///
    /// # Errors
    /// `Overflow` where there are 2^64 - 1 bits already, `OutOfMemory` where a growth is refused. The
    /// bits are then as before.
    pub fn push(&mut self, bit: bool) -> Result<(), Error>
        ensures ok { OnOk result (self.new ≡ self.old ++ bit ∷ []) }
        ensures overflow { (result ≡ Err Error.Overflow) ↔ (2 ^ 64 ≤ length self.old + 1) }
        ensures others { IfErr result IsGrowthError }
        ensures err { OnErr result (self.new ≡ self.old) }
    {
        let total = reserve(&mut self.words, self.len, 1)?;
        append_word(&mut self.words, self.len, u64::from(bit), 1);
        self.len = total;
        Ok(())
    }

    /// Appends a bit so many times, a word at a time.
    ///
    /// # Errors
    /// As of [`MutableBitmap::push`], `Overflow` where there are to be more than 2^64 - 1 bits.
    pub fn extend_constant(&mut self, additional: usize, bit: bool) -> Result<(), Error>
        ensures ok { OnOk result (self.new ≡ self.old ++ replicate additional bit) }
        ensures overflow { (result ≡ Err Error.Overflow) ↔ (2 ^ 64 ≤ length self.old + additional) }
        ensures others { IfErr result IsGrowthError }
        ensures err { OnErr result (self.new ≡ self.old) }
    {
        if additional <= WORD_BITS {
            return self.push_low(equal_bits(additional, bit), additional);
        }
        let total = reserve(&mut self.words, self.len, additional)?;
        append_equal(&mut self.words, self.len, additional, bit);
        self.len = total;
        Ok(())
    }

    /// Appends the `len` bits of a bitmap from place `start` on, a word at a time.
    ///
    /// # Requires
    /// `start + len` is at most the count of the bitmap's bits.
    ///
    /// # Errors
    /// As of [`MutableBitmap::push`], `Overflow` where there are to be more than 2^64 - 1 bits.
    #[inline(always)]
    pub fn extend_from_bitmap(
        &mut self,
        bitmap: &Bitmap,
        start: usize,
        len: usize,
    ) -> Result<(), Error>
        requires { start + len ≤ length bitmap.now }
        ensures ok { OnOk result (self.new ≡ self.old ++ sliced bitmap.now start len) }
        ensures overflow { (result ≡ Err Error.Overflow) ↔ (2 ^ 64 ≤ length self.old + len) }
        ensures others { IfErr result IsGrowthError }
        ensures err { OnErr result (self.new ≡ self.old) }
    {
        if len <= WORD_BITS {
            return self.push_low(bitmap.bits_from(start, len), len);
        }
        let total = reserve(&mut self.words, self.len, len)?;
        bitmap.append_to(&mut self.words, self.len, start, len);
        self.len = total;
        Ok(())
    }

    /// Appends the `len` lowest bits of a word, from the least significant one on.
    ///
    /// # Requires
    /// `len` is at most 64.
    ///
    /// # Errors
    /// As of [`MutableBitmap::push`], `Overflow` where there are to be more than 2^64 - 1 bits.
    #[inline(always)]
    pub fn push_word(&mut self, word: u64, len: usize) -> Result<(), Error>
        requires { len ≤ 64 }
        ensures ok { OnOk result (self.new ≡ self.old ++ low_bits word len) }
        ensures overflow { (result ≡ Err Error.Overflow) ↔ (2 ^ 64 ≤ length self.old + len) }
        ensures others { IfErr result IsGrowthError }
        ensures err { OnErr result (self.new ≡ self.old) }
    {
        self.push_low(low_word(word, len), len)
    }

    // The same of a word that has no other bits set.
    #[inline(always)]
    fn push_low(&mut self, word: u64, len: usize) -> Result<(), Error>
        requires in_word { len ≤ 64 }
        requires low { word ≡ word_of (low_bits word len) }
        ensures ok { OnOk result (self.new ≡ self.old ++ low_bits word len) }
        ensures overflow { (result ≡ Err Error.Overflow) ↔ (2 ^ 64 ≤ length self.old + len) }
        ensures others { IfErr result IsGrowthError }
        ensures err { OnErr result (self.new ≡ self.old) }
    {
        let Some(total) = self.len.checked_add(len) else {
            return Err(Error::Overflow);
        };
        append_low(&mut self.words, self.len, word, len)?;
        self.len = total;
        Ok(())
    }

    /// The bits so far, shared from now on. Nothing is copied.
    ///
    /// # Errors
    /// `OutOfMemory` where the memory of one shared owner is refused; the bits are then dropped.
    pub fn into_bitmap(self) -> Result<Bitmap, Error>
        ensures ok { IfOk result (λ bitmap. bitmap ≡ self) }
        ensures err { IsOkUnless result Error.OutOfMemory }
    {
        let alloc = *self.words.allocator();
        let MutableBitmap { words, len } = self;
        Bitmap::from_words(alloc, words, len)
    }
}

// Makes room for more bits behind `len`, and answers how many there are to be.
fn reserve(words: &mut Vec<u64>, len: usize, more: usize) -> Result<usize, Error>
    requires { length words.old.items ≡ div_ceil len 64 }
    ensures unchanged { words.new.items ≡ words.old.items }
    ensures ok { IfOk result (λ total. (total ≡ len + more) × (div_ceil total 64 ≤ vec_capacity words.new)) }
    ensures overflow { (result ≡ Err Error.Overflow) ↔ (2 ^ 64 ≤ len + more) }
    ensures others { IfErr result IsGrowthError }
{
    let Some(total) = len.checked_add(more) else {
        return Err(Error::Overflow);
    };
    words.reserve(total.div_ceil(WORD_BITS) - words.len())?;
    Ok(total)
}

// Puts the `count` bits of a word behind the first `place` ones: into the last word, where it has room for them.
#[inline(always)]
fn append_low(words: &mut Vec<u64>, place: usize, word: u64, count: usize) -> Result<(), Error>
    requires full { length words.old.items ≡ div_ceil place 64 }
    requires in_word { count ≤ 64 }
    requires fits { place + count < 2 ^ 64 }
    ensures full { OnOk result (length words.new.items ≡ div_ceil (place + count) 64) }
    ensures appended { OnOk result (AppendsWord words.old.items words.new.items place word count) }
    ensures err { IsOkUnless result Error.OutOfMemory }
    ensures unchanged { OnErr result (words.new.items ≡ words.old.items) }
{
    let room = (WORD_BITS - place % WORD_BITS) % WORD_BITS;
    if 0 < count && count <= room {
        fill_last(words, place, word, count);
    } else {
        reserve_word(words, place + count)?;
        append_word(words, place, word, count);
    }
    Ok(())
}

// Makes room for one word more, where so many bits need it.
#[inline(always)]
fn reserve_word(words: &mut Vec<u64>, total: usize) -> Result<(), Error>
    requires { div_ceil total 64 ≤ length words.old.items + 1 }
    ensures unchanged { words.new.items ≡ words.old.items }
    ensures ok { OnOk result (div_ceil total 64 ≤ vec_capacity words.new) }
    ensures err { IsOkUnless result Error.OutOfMemory }
{
    if words.len() < total.div_ceil(WORD_BITS) {
        words.reserve(1)?;
    }
    Ok(())
}
