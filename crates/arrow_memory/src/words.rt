//! Bits in words of 64.

ghost use Rattle.std.specs.Prelude.{◌≡◌, ◌+◌, ◌-◌, ◌*◌, ◌%◌, ◌/◌, ◌<◌, ◌≤◌, ◌^◌, length, replicate, slice_index, bit_or};
ghost use Rattle.std.specs.Int.{div_ceil};
ghost use Rattle.std.specs.Vec.{vec_len, vec_capacity};
ghost use Rattle.arrow_memory.specs.Words.{bits_in, low_bits, set_count, word_of, AppendsBits, AppendsWord, IsLowRun};

pub(crate) mod logic;

use logic::{Second, combine_within};

/// The bits of a word.
pub const WORD_BITS: usize = 64;

// The word whose bit k is `bits[k]`, with zeros above.
pub(crate) fn pack(bits: &[bool]) -> u64
    requires { length bits.now ≤ 64 }
    ensures { result ≡ word_of bits.now }
{
    let mut word = 0;
    for bit in bits.iter().rev() {
        word = word << 1 | u64::from(*bit);
    }
    word
}

// A word, or 0 past the last.
fn word_at(words: &[u64], index: usize) -> u64
    ensures { result ≡ slice_index words.now index }
{
    words.get(index).copied().unwrap_or(0)
}

// How many bits are set below a place, in the word of that place.
fn count_ones_below(words: &[u64], place: usize) -> usize
    ensures { result ≡ set_count (bits_in words.now (place - place % 64) (place % 64)) }
{
    let below = (1 << (place % WORD_BITS)) - 1;
    (word_at(words, place / WORD_BITS) & below).count_ones() as usize
}

// How many bits are set from `start` up to `end`.
pub(crate) fn count_ones(words: &[u64], start: usize, end: usize) -> usize
    requires ordered { start ≤ end }
    requires within { end ≤ 64 * length words.now }
    ensures { result ≡ set_count (bits_in words.now start (end - start)) }
{
    let mut ones = count_ones_below(words, end);
    for word in &words[start / WORD_BITS..end / WORD_BITS] {
        ones += word.count_ones() as usize;
    }
    ones - count_ones_below(words, start)
}

// The word whose bits are the 64 from a place on, with zeros past the last word.
pub(crate) fn word_from(words: &[u64], place: usize) -> u64
    ensures { result ≡ word_of (bits_in words.now place 64) }
{
    let shift = place % WORD_BITS;
    let low = word_at(words, place / WORD_BITS) >> shift;
    if shift == 0 {
        return low;
    }
    low | word_at(words, place / WORD_BITS + 1) << (WORD_BITS - shift)
}

// The same of 64 bits that the words hold: it reads no more words than these lie in, and tests for no end.
#[inline(always)]
pub(crate) fn word_within(words: &[u64], place: usize) -> u64
    requires { place + 64 ≤ 64 * length words.now }
    ensures { result ≡ word_of (bits_in words.now place 64) }
{
    let shift = place % WORD_BITS;
    let low = words[place / WORD_BITS] >> shift;
    if shift == 0 {
        return low;
    }
    low | words[place / WORD_BITS + 1] << (WORD_BITS - shift)
}

// How many of the lowest `count` bits of a word are equal to `bit`, up to the first that is not.
pub(crate) fn low_run(word: u64, count: usize, bit: bool) -> usize
    requires { count ≤ 64 }
    ensures { IsLowRun word count bit result }
{
    let others = if bit { !word } else { word };
    count.min(others.trailing_zeros() as usize)
}

// The first `count` bits from a place on as a word, with zeros above. Where they begin and where they end is read, and no branch
// depends on the place.
#[inline(always)]
pub(crate) fn bits_from(words: &[u64], place: usize, count: usize) -> u64
    requires in_word { count ≤ 64 }
    requires within { place + count ≤ 64 * length words.now }
    requires fits { place + count < 2 ^ 64 }
    ensures { result ≡ word_of (bits_in words.now place count) }
{
    if count == 0 {
        return 0;
    }
    let last = place + count - 1;
    let both = across(
        words[place / WORD_BITS],
        words[last / WORD_BITS],
        place % WORD_BITS,
    );
    low_word(both, count)
}

// The lowest `count` bits of a word, with zeros above.
#[inline(always)]
pub(crate) fn low_word(word: u64, count: usize) -> u64
    requires { count ≤ 64 }
    ensures { result ≡ word_of (low_bits word count) }
{
    if count < WORD_BITS {
        word & ((1 << count) - 1)
    } else {
        word
    }
}

// The 64 bits across two words, from bit `shift` of the low one on.
#[inline(always)]
pub(crate) fn across(low: u64, high: u64, shift: usize) -> u64
    requires { shift < 64 }
    ensures { result ≡ bit_or (low / 2 ^ shift) (high * 2 ^ (64 - shift) % 2 ^ 64) }
{
    // in two steps, since at shift 0 all bits of the high word are shifted out
    low >> shift | high << 1 << (WORD_BITS - 1 - shift)
}

// A word of so many equal bits, with zeros above.
pub(crate) fn equal_bits(count: usize, bit: bool) -> u64
    requires { count ≤ 64 }
    ensures { result ≡ word_of (replicate count bit) }
{
    if !bit {
        0
    } else if count < WORD_BITS {
        (1 << count) - 1
    } else {
        u64::MAX
    }
}

// Puts the `count` bits of a word behind the first `place` ones. What the last word holds behind them is zeros.
#[inline(always)]
pub(crate) fn append_word(words: &mut Vec<u64>, place: usize, word: u64, count: usize)
    requires full { length words.old.items ≡ div_ceil place 64 }
    requires in_word { count ≤ 64 }
    requires room { div_ceil (place + count) 64 ≤ vec_capacity words.old }
    requires fits { place + count < 2 ^ 64 }
    ensures full { length words.new.items ≡ div_ceil (place + count) 64 }
    ensures room { vec_capacity words.new ≡ vec_capacity words.old }
    ensures appended { AppendsWord words.old.items words.new.items place word count }
{
    let used = place % WORD_BITS;
    if used > 0 {
        words[place / WORD_BITS] |= word << used;
    }
    if words.len() < (place + count).div_ceil(WORD_BITS) {
        words.push_reserved(word >> ((WORD_BITS - used) % WORD_BITS));
    }
}

// The same of bits for which the last word has room.
#[inline(always)]
pub(crate) fn fill_last(words: &mut Vec<u64>, place: usize, word: u64, count: usize)
    requires full { length words.old.items ≡ div_ceil place 64 }
    requires some { 0 < count }
    requires room { count ≤ (64 - place % 64) % 64 }
    ensures full { length words.new.items ≡ div_ceil (place + count) 64 }
    ensures room { vec_capacity words.new ≡ vec_capacity words.old }
    ensures appended { AppendsWord words.old.items words.new.items place word count }
{
    words[place / WORD_BITS] |= word << (place % WORD_BITS);
}

// Puts `count` words of the bits from place `from` of others behind those that are there.
fn append_words(words: &mut Vec<u64>, others: &[u64], from: usize, count: usize)
    requires part { from + 64 * count ≤ 64 * length others.now }
    requires room { vec_len words.old + count ≤ vec_capacity words.old }
    ensures long { length words.new.items ≡ length words.old.items + count }
    ensures room { vec_capacity words.old ≤ vec_capacity words.new }
    ensures appended { AppendsBits words.old.items words.new.items (64 * length words.old.items)
        (bits_in others.now from (64 * count)) }
{
    let first = from / WORD_BITS;
    if from % WORD_BITS == 0 {
        let Ok(()) = words.extend_from_slice(&others[first..first + count]) else {
            unreachable!();
        };
    } else {
        let done = words.len();
        let Ok(()) = words.resize(done + count, 0) else {
            unreachable!();
        };
        combine_within::<Second>(&mut words[done..], others, from, count);
    }
}

// Puts `len` bits from place `from` of others behind the first `place` ones. Those of one word go as a word.
#[inline(always)]
pub(crate) fn append_bits(
    words: &mut Vec<u64>,
    place: usize,
    others: &[u64],
    from: usize,
    len: usize,
)
    requires full { length words.old.items ≡ div_ceil place 64 }
    requires part { from + len ≤ 64 * length others.now }
    requires room { div_ceil (place + len) 64 ≤ vec_capacity words.old }
    requires fits { place + len < 2 ^ 64 }
    requires ends { from + len < 2 ^ 64 }
    ensures full { length words.new.items ≡ div_ceil (place + len) 64 }
    ensures appended { AppendsBits words.old.items words.new.items place (bits_in others.now from len) }
{
    if len <= WORD_BITS {
        append_word(words, place, bits_from(others, from, len), len);
    } else {
        append_more(words, place, others, from, len);
    }
}

// The same of more bits than a word has: as many as fill the last word, whole words, and what is left.
#[inline(never)]
fn append_more(words: &mut Vec<u64>, place: usize, others: &[u64], from: usize, len: usize)
    requires many { 64 < len }
    requires full { length words.old.items ≡ div_ceil place 64 }
    requires part { from + len ≤ 64 * length others.now }
    requires room { div_ceil (place + len) 64 ≤ vec_capacity words.old }
    requires fits { place + len < 2 ^ 64 }
    requires ends { from + len < 2 ^ 64 }
    ensures full { length words.new.items ≡ div_ceil (place + len) 64 }
    ensures appended { AppendsBits words.old.items words.new.items place (bits_in others.now from len) }
{
    let head = (WORD_BITS - place % WORD_BITS) % WORD_BITS;
    fill_from(words, place, others, from, head);
    let (whole, tail) = ((len - head) / WORD_BITS, (len - head) % WORD_BITS);
    append_words(words, others, from + head, whole);
    push_from(words, others, from + (len - tail), tail);
}

// Puts so many bits from place `from` of others into the last word, which has room for them, behind the first `place` ones.
#[inline(always)]
fn fill_from(words: &mut Vec<u64>, place: usize, others: &[u64], from: usize, count: usize)
    requires full { length words.old.items ≡ div_ceil place 64 }
    requires room { count ≤ (64 - place % 64) % 64 }
    requires part { from + count ≤ 64 * length others.now }
    requires ends { from + count < 2 ^ 64 }
    ensures full { length words.new.items ≡ div_ceil (place + count) 64 }
    ensures room { vec_capacity words.old ≤ vec_capacity words.new }
    ensures appended { AppendsBits words.old.items words.new.items place (bits_in others.now from count) }
{
    if count > 0 {
        fill_last(words, place, bits_from(others, from, count), count);
    }
}

// Puts a word of so many bits from place `from` of others behind whole words, if they are any.
#[inline(always)]
fn push_from(words: &mut Vec<u64>, others: &[u64], from: usize, count: usize)
    requires in_word { count < 64 }
    requires room { div_ceil (64 * length words.old.items + count) 64 ≤ vec_capacity words.old }
    requires part { from + count ≤ 64 * length others.now }
    requires ends { from + count < 2 ^ 64 }
    ensures full { length words.new.items ≡ div_ceil (64 * length words.old.items + count) 64 }
    ensures appended { AppendsBits words.old.items words.new.items (64 * length words.old.items)
        (bits_in others.now from count) }
{
    if count > 0 {
        words.push_reserved(bits_from(others, from, count));
    }
}

// Puts a bit so many times, more often than a word has bits, behind the first `place` bits.
pub(crate) fn append_equal(words: &mut Vec<u64>, place: usize, count: usize, bit: bool)
    requires many { 64 < count }
    requires full { length words.old.items ≡ div_ceil place 64 }
    requires room { div_ceil (place + count) 64 ≤ vec_capacity words.old }
    requires fits { place + count < 2 ^ 64 }
    ensures full { length words.new.items ≡ div_ceil (place + count) 64 }
    ensures appended { AppendsBits words.old.items words.new.items place (replicate count bit) }
{
    let head = WORD_BITS - place % WORD_BITS;
    append_word(words, place, equal_bits(head, bit), head);
    let (whole, tail) = ((count - head) / WORD_BITS, (count - head) % WORD_BITS);
    append_equal_words(words, whole, bit);
    let done = count - tail;
    append_word(words, place + done, equal_bits(tail, bit), tail);
}

// Puts `count` words of equal bits behind those that are there.
fn append_equal_words(words: &mut Vec<u64>, count: usize, bit: bool)
    requires { vec_len words.old + count ≤ vec_capacity words.old }
    ensures long { length words.new.items ≡ length words.old.items + count }
    ensures room { vec_capacity words.old ≤ vec_capacity words.new }
    ensures appended { AppendsBits words.old.items words.new.items (64 * length words.old.items)
        (replicate (64 * count) bit) }
{
    let Ok(()) = words.resize(words.len() + count, equal_bits(WORD_BITS, bit)) else {
        unreachable!();
    };
}
