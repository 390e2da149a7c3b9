//! Runs of equal bits.

ghost use Rattle.std.specs.Prelude.{◌≡◌, ◌≢◌, ◌+◌, ◌-◌, ◌*◌, ◌^◌, ◌<◌, ◌≤◌, ◌++◌, Some, false, true, length, not, replicate, slice_get, IfOk, IsOkUnless, OnOk};
ghost use Rattle.std.specs.List.{flat_map};
ghost use Rattle.arrow_types.specs.declared.error.Error.{Error};
ghost use Rattle.arrow_memory.specs.Sliced.{sliced};
ghost use Rattle.arrow_memory.specs.Words.{bits_in, is_set, low_bits, IsWordAt};

use crate::bitmap::{Bitmap, MutableBitmap};
use crate::words::{WORD_BITS, low_run};
use arrow_types::error::Error;
use std::alloc::Global;
use std::marker::Model;

/// The bits of a part of a bitmap that are left, which are taken from the front, a run at a time.
#[derive(Drop)]
pub struct BitRuns<'a> {
    words: &'a [u64],
    place: usize,
    left: usize,
    /// Those of them that lie in one word, the first one lowest.
    word: u64,
    /// How many these are.
    count: usize,
}

impl<'a> Model for BitRuns<'a> {
    ghost use Rattle.std.specs.Prelude.{Bool, List};
    ghost use Rattle.arrow_memory.specs.Words.{bits_in, AreRuns};

    ghost Value = { List Bool };

    ghost view = { λ a. bits_in a.words.now a.place a.left };

    ghost invariant = { λ a. AreRuns a.words.now a.place a.left a.word a.count };
}

#[tactic(auto, using(crate::proofs::WordLemmas::bit_lengths))]
impl<'a> BitRuns<'a> {
    /// Takes the next run of set bits and those before it, found a word at a time: how many bits come
    /// before it that are not set, and how long it is. It is empty only where no set bit is left.
    #[inline(always)]
    pub fn next_set(&mut self) -> (usize, usize)
        ensures bits { self.old ≡ replicate result.0 false ++ (replicate result.1 true ++ self.new) }
        ensures longest { slice_get self.new 0 ≢ Some true }
        ensures some { 0 < length self.old → 0 < result.0 + result.1 }
    {
        let (start, end) = (self.place, self.place + self.left);
        let (set, next) = run_ends(self.words, start, end, self.word, self.count);
        let taken = next - start;
        let (word, count) = word_behind(self.words, start, end, taken, self.word, self.count);
        self.word = word;
        self.count = count;
        self.place = next;
        self.left = end - next;
        (set - start, next - set)
    }
}

/// The bits of a word that are left, which are taken from the front, a run at a time.
#[derive(Drop)]
pub struct WordRuns {
    /// The first one lowest.
    word: u64,
    count: usize,
}

impl Model for WordRuns {
    ghost use Rattle.std.specs.Prelude.{◌≤◌, Bool, List};
    ghost use Rattle.arrow_memory.specs.Words.{low_bits};

    ghost Value = { List Bool };

    ghost view = { λ a. low_bits a.word a.count };

    ghost invariant = { λ a. a.count ≤ 64 };
}

#[tactic(auto, using(crate::proofs::WordLemmas::bit_lengths))]
impl WordRuns {
    /// The `count` lowest bits of a word.
    pub(super) fn new(word: u64, count: usize) -> WordRuns
        requires { count ≤ 64 }
        ensures { result ≡ low_bits word count }
    {
        WordRuns { word, count }
    }

    /// Takes the next run of set bits and those before it, as [`BitRuns::next_set`] does.
    #[inline(always)]
    pub fn next_set(&mut self) -> (usize, usize)
        ensures bits { self.old ≡ replicate result.0 false ++ (replicate result.1 true ++ self.new) }
        ensures longest { slice_get self.new 0 ≢ Some true }
        ensures some { 0 < length self.old → 0 < result.0 + result.1 }
    {
        let unset = low_run(self.word, self.count, false);
        if unset == self.count {
            self.count = 0;
            return (unset, 0);
        }
        let word = self.word >> unset;
        let set = low_run(word, self.count - unset, true);
        self.count -= unset + set;
        self.word = if self.count > 0 { word >> set } else { 0 };
        (unset, set)
    }
}

// Where the bits from `start` on end that are not set, and then the set ones behind them, at `end` at the latest.
// The first `count` of these bits are those of a word. No word is read where both end among them.
#[inline(always)]
fn run_ends(words: &[u64], start: usize, end: usize, word: u64, count: usize) -> (usize, usize)
    requires order { start ≤ end }
    requires within { end ≤ 64 * length words.now }
    requires in_word { count ≤ 64 }
    requires inside { start + count ≤ end }
    requires word { IsWordAt words.now start count word }
    ensures order { (start ≤ result.0) × (result.0 ≤ result.1) }
    ensures within { result.1 ≤ end }
    ensures some { start < end → start < result.1 }
    ensures unset { bits_in words.now start (result.0 - start) ≡ replicate (result.0 - start) false }
    ensures run { bits_in words.now result.0 (result.1 - result.0) ≡ replicate (result.1 - result.0) true }
    ensures longest { result.1 < end → is_set words.now result.1 ≡ false }
{
    let nulls = low_run(word, count, false);
    if nulls < count {
        let run = low_run(word >> nulls, count - nulls, true);
        if nulls + run < count {
            return (start + nulls, start + nulls + run);
        }
    }
    let set = run_end(words, start, end, false);
    (set, run_end(words, set, end, true))
}

// Of the bits from place `start` on, of which the first `count` are those of a word, those behind the first `taken`: as far as
// they lie in one word, and how many they are.
#[inline(always)]
fn word_behind(
    words: &[u64],
    start: usize,
    end: usize,
    taken: usize,
    word: u64,
    count: usize,
) -> (u64, usize)
    requires order { start + taken ≤ end }
    requires within { end ≤ 64 * length words.now }
    requires in_word { count ≤ 64 }
    requires inside { start + count ≤ end }
    requires word { IsWordAt words.now start count word }
    ensures in_word { result.1 ≤ 64 }
    ensures inside { start + taken + result.1 ≤ end }
    ensures word { IsWordAt words.now (start + taken) result.1 result.0 }
{
    if taken < count {
        return (word >> taken, count - taken);
    }
    rest_of_word(words, start + taken, end)
}

// The bits of a word from a place on, as far as they come before `end`: as a word, and how many they are.
#[inline(always)]
fn rest_of_word(words: &[u64], place: usize, end: usize) -> (u64, usize)
    requires order { place ≤ end }
    requires within { end ≤ 64 * length words.now }
    ensures some { place < end → 0 < result.1 }
    ensures in_word { result.1 ≤ 64 }
    ensures within { place + result.1 ≤ end }
    ensures bits { IsWordAt words.now place result.1 result.0 }
{
    if place == end {
        return (0, 0);
    }
    let used = place % WORD_BITS;
    (
        words[place / WORD_BITS] >> used,
        (WORD_BITS - used).min(end - place),
    )
}

// Where the run of bits from `start` on ends that are equal to `bit`, at `end` at the latest.
fn run_end(words: &[u64], start: usize, end: usize, bit: bool) -> usize
    requires order { start ≤ end }
    requires within { end ≤ 64 * length words.now }
    ensures order { start ≤ result }
    ensures within { result ≤ end }
    ensures run { bits_in words.now start (result - start) ≡ replicate (result - start) bit }
    ensures longest { result < end → is_set words.now result ≡ not bit }
{
    let mut place = start;
    while place < end {
        let (word, count) = rest_of_word(words, place, end);
        let run = low_run(word, count, bit);
        if run < count {
            return place + run;
        }
        place += count;
    }
    end
}

impl Bitmap {
    /// The bit at `start`, and where the run of such bits that begins there ends, at `end` at the latest:
    /// found a word at a time.
    ///
    /// # Requires
    /// `start` is below `end`, and `end` at most the count of bits.
    pub fn run_at(&self, start: usize, end: usize) -> (bool, usize)
        requires some { start < end }
        requires within { end ≤ length self.now }
        ensures some { start < result.1 }
        ensures within { result.1 ≤ end }
        ensures run { sliced self.now start (result.1 - start) ≡ replicate (result.1 - start) result.0 }
        ensures longest { result.1 < end → slice_get self.now result.1 ≡ Some (not result.0) }
    {
        let bit = self.get_bit(start);
        let mut place = start;
        while place < end {
            let count = WORD_BITS.min(end - place);
            let run = low_run(self.bits_from(place, count), count, bit);
            if run < count {
                return (bit, place + run);
            }
            place += count;
        }
        (bit, end)
    }

    /// The `len` bits from bit `start` on, to be taken a run at a time.
    ///
    /// # Requires
    /// `start + len` is at most the count of bits.
    pub fn runs(&self, start: usize, len: usize) -> BitRuns<'_>
        requires { start + len ≤ length self.now }
        ensures { result ≡ sliced self.now start len }
    {
        let (words, place): (&[u64], usize) = (&self.words, self.offset + start);
        let (word, count) = rest_of_word(words, place, place + len);
        BitRuns {
            words,
            place,
            left: len,
            word,
            count,
        }
    }

    /// The `len` bits from bit `start` on, each of them `times` times, a run at a time.
    ///
    /// # Requires
    /// `start + len` is at most the count of bits, and `len * times` below 2^64.
    ///
    /// # Errors
    /// `OutOfMemory` where the memory of the bits, or that of one shared owner, is refused.
    pub fn repeated(
        &self,
        alloc: Global,
        start: usize,
        len: usize,
        times: usize,
    ) -> Result<Bitmap, Error>
        requires within { start + len ≤ length self.now }
        requires counted { len * times < 2 ^ 64 }
        ensures ok { IfOk result (λ bits. bits ≡ flat_map (replicate times) (sliced self.now start len)) }
        ensures err { IsOkUnless result Error.OutOfMemory }
    {
        let mut bits = MutableBitmap::with_capacity(alloc, len * times)?;
        let mut left = self.runs(start, len);
        let mut done = 0;
        while done < len {
            let (unset, set) = left.next_set();
            append_run(&mut bits, unset * times, false)?;
            append_run(&mut bits, set * times, true)?;
            done += unset + set;
        }
        bits.into_bitmap()
    }
}

// Appends a bit so many times.
fn append_run(bits: &mut MutableBitmap, count: usize, bit: bool) -> Result<(), Error>
    requires { length bits.old + count < 2 ^ 64 }
    ensures ok { OnOk result (bits.new ≡ bits.old ++ replicate count bit) }
    ensures err { IsOkUnless result Error.OutOfMemory }
{
    bits.extend_constant(count, bit)
}
