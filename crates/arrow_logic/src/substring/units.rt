//! What a part of a row is counted in: the characters of a text, or bytes.

ghost use Rattle.std.specs.Prelude.{◌≡◌, ◌↔◌, ◌<◌, ◌≤◌, ◌≤ℤ◌, ◌-◌, ℕ, ℤ, pos, Bool, Option, List, [], map, drop, length, slice_index, take, count_by, encode_utf8_all, IsAscii, IsTrue, IsUtf8};
ghost use Rattle.std.specs.Str.{chars};
ghost use Rattle.std.proofs.lemmas.Str.{IsUtf8-nil};
ghost use Rattle.arrow_types.specs.Part.{cut, part, part_begin};
ghost use Rattle.arrow_types.specs.Slot.{Slot};
ghost use Rattle.arrow_memory.specs.Sliced.{sliced};
ghost use Rattle.arrow_memory.specs.Words.{word_of};
ghost use Rattle.arrow_logic.specs.Substring.{IsCutByBytes, begins, skipped, text_cut, without};
ghost use Rattle.arrow_logic.specs.SubstringLaws.{IsUtf8-cut, part_of_bytes, part_of_text};

use arrow_flat::array::{Binary, ByteKind, Text};
use std::simd::prelude::*;

/// How many bytes are looked at together.
const BLOCK: usize = 16;

/// Rows of bytes that parts can be taken of.
pub(crate) trait Units: ByteKind {
    // the bytes of the part of a row, by its start and the most units that it may have
    ghost cut: { ℤ → Option ℕ → List ℕ → List ℕ };

    /// Where the part lies among the bytes of a row.
    ///
    /// # Requires
    /// A row may have these bytes.
    fn span(row: &[u8], start: i64, count: Option<u64>) -> (usize, usize)
        requires { Self.Allows row.now }
        ensures rises { result.0 ≤ result.1 }
        ensures within { result.1 ≤ length row.now }
        ensures part { sliced row.now result.0 (result.1 - result.0) ≡ cut start count row.now };

    /// Whether each unit is known to be a byte in every row that lies among these bytes.
    fn are_bytes(bytes: &[u8]) -> bool
        ensures { IsTrue result → (place len : ℕ) → IsCutByBytes cut (sliced bytes.now place len) };

    /// Whether each unit is known to be a byte in the row of the first `len` of these bytes, by one look.
    fn are_bytes_in_block(from: &[u8], len: usize) -> bool
        requires { len ≤ length from.now }
        ensures { IsTrue result → IsCutByBytes cut (take len from.now) };

    /// Where the part lies in the row of the first `len` of these bytes, counted from the front.
    ///
    /// # Requires
    /// 16 bytes can be read, the row has no more, it may have them, and `start` is not negative.
    fn span_in_block(from: &[u8], len: usize, start: i64, count: Option<u64>) -> (usize, usize)
        requires block { 16 ≤ length from.now }
        requires few { len ≤ 16 }
        requires allowed { Self.Allows (take len from.now) }
        requires front { pos 0 ≤ℤ start }
        ensures rises { result.0 ≤ result.1 }
        ensures within { result.1 ≤ len }
        ensures part { sliced (take len from.now) result.0 (result.1 - result.0)
            ≡ cut start count (take len from.now) };

    ghost is_part: { (start : ℤ) (count : Option ℕ) (bytes : List ℕ) → part start count (Self.slot bytes)
        ≡ Self.slot (cut start count bytes) };

    // a row may have the bytes of a part, and it may have none
    ghost allows_part: { (start : ℤ) (count : Option ℕ) (bytes : List ℕ) → Self.Allows bytes
        → Self.Allows (cut start count bytes) };

    ghost allows_none: { Self.Allows [] };
}

impl Units for Text {
    ghost cut = { text_cut };

    fn span(row: &[u8], start: i64, count: Option<u64>) -> (usize, usize) {
        let begin = begin_of_part(row, start);
        let end = match count {
            Some(count) => begin + end_of_first(&row[begin..], count as usize),
            None => row.len(),
        };
        (begin, end)
    }

    fn are_bytes(bytes: &[u8]) -> bool {
        are_ascii(bytes)
    }

    fn are_bytes_in_block(from: &[u8], len: usize) -> bool {
        are_ascii_in_block(from, len)
    }

    #[inline(always)]
    fn span_in_block(from: &[u8], len: usize, start: i64, count: Option<u64>) -> (usize, usize) {
        let characters = characters_at_front(from);
        let left = without_lowest(characters, start.unsigned_abs() as usize);
        let begin = len.min(left.trailing_zeros() as usize);
        let end = match count {
            Some(count) => {
                len.min(without_lowest(left, count as usize).trailing_zeros() as usize)
            }
            None => len,
        };
        (begin, end)
    }

    ghost is_part = { part_of_text };

    ghost allows_part = { IsUtf8-cut };

    ghost allows_none = { IsUtf8-nil };
}

impl Units for Binary {
    ghost cut = { cut };

    fn span(row: &[u8], start: i64, count: Option<u64>) -> (usize, usize) {
        span_of_bytes(row, start, count)
    }

    fn are_bytes(_bytes: &[u8]) -> bool {
        true
    }

    fn are_bytes_in_block(_from: &[u8], _len: usize) -> bool {
        true
    }

    fn span_in_block(from: &[u8], len: usize, start: i64, count: Option<u64>) -> (usize, usize) {
        span_of_bytes(&from[..len], start, count)
    }

    ghost is_part = { part_of_bytes };

    ghost allows_part = { λ start count bytes any. any };

    ghost allows_none = { tt };
}

// Where the part of a row lies, which is the first `len` of these bytes: it is counted in bytes where each unit is one.
#[inline(always)]
pub(crate) fn span_in<K: Units>(
    from: &[u8],
    len: usize,
    start: i64,
    count: Option<u64>,
    by_bytes: bool,
) -> (usize, usize)
    requires row { len ≤ length from.now }
    requires allowed { K.Allows (take len from.now) }
    requires by_bytes { IsTrue by_bytes → IsCutByBytes K.cut (take len from.now) }
    ensures rises { result.0 ≤ result.1 }
    ensures within { result.1 ≤ len }
    ensures part { sliced (take len from.now) result.0 (result.1 - result.0)
        ≡ K.cut start count (take len from.now) }
{
    let row = &from[..len];
    if by_bytes {
        return span_of_bytes(row, start, count);
    }
    if K::are_bytes_in_block(from, len) {
        return span_of_bytes(row, start, count);
    }
    if start >= 0 && len <= BLOCK && from.len() >= BLOCK {
        return K::span_in_block(from, len, start, count);
    }
    K::span(row, start, count)
}

// Where a part lies among the bytes of a row, each of which is a unit.
#[inline(always)]
fn span_of_bytes(row: &[u8], start: i64, count: Option<u64>) -> (usize, usize)
    ensures rises { result.0 ≤ result.1 }
    ensures within { result.1 ≤ length row.now }
    ensures part { sliced row.now result.0 (result.1 - result.0) ≡ cut start count row.now }
{
    let units = start.unsigned_abs() as usize;
    let begin = if start < 0 {
        row.len().saturating_sub(units)
    } else {
        units.min(row.len())
    };
    let left = row.len() - begin;
    let count = match count {
        Some(count) => left.min(count as usize),
        None => left,
    };
    (begin, begin + count)
}

// Whether each byte is below 0x80: all are read, and one test is made of what they have together.
fn are_ascii(bytes: &[u8]) -> bool
    ensures { IsTrue result ↔ IsAscii bytes.now }
{
    let mut together = 0;
    for &byte in bytes {
        together |= byte;
    }
    together < 0x80
}

// Whether the first `len` bytes are known to be below 0x80: where they are 16 at most, and 16 can be read.
#[inline(always)]
fn are_ascii_in_block(from: &[u8], len: usize) -> bool
    requires { len ≤ length from.now }
    ensures { IsTrue result → IsAscii (take len from.now) }
{
    if from.len() < BLOCK {
        return false;
    }
    len <= ascii_at_front(from)
}

// How many of 16 bytes come before the first one that is not below 0x80.
#[inline(always)]
fn ascii_at_front(from: &[u8]) -> usize
    requires { 16 ≤ length from.now }
    ensures { (k : ℕ) → k < result → slice_index from.now k < 128 }
{
    let high = u8x16::from_slice(from)
        .simd_ge(u8x16::splat(0x80))
        .to_bitmask();
    BLOCK.min(high.trailing_zeros() as usize)
}

// Which of 16 bytes begin a character, a bit each: those that are not 0x80 to 0xBF, which 0x80 moves below 0x40.
#[inline(always)]
fn characters_at_front(from: &[u8]) -> u64
    requires { 16 ≤ length from.now }
    ensures { result ≡ word_of (map begins (take 16 from.now)) }
{
    let moved = u8x16::from_slice(from) + u8x16::splat(0x80);
    moved.simd_ge(u8x16::splat(0x40)).to_bitmask()
}

// A word of 16 bits without the `count` lowest of those that are set. No branch depends on a bit.
#[inline(always)]
fn without_lowest(word: u64, count: usize) -> u64
    ensures { (bits : List Bool) → length bits ≡ 16 → word ≡ word_of bits → result ≡ word_of (without count bits) }
{
    let mut left = word;
    for _ in 0..count.min(BLOCK) {
        left &= left.wrapping_sub(1);
    }
    left
}

// Whether a byte of a text begins a character, and does not go on with one.
fn begins_character(byte: u8) -> bool
    ensures { result ≡ begins byte }
{
    byte < 0x80 || byte >= 0xC0
}

// Where a part of a text begins: so many characters from the front or, where `start` is negative, from the end.
fn begin_of_part(text: &[u8], start: i64) -> usize
    requires { IsUtf8 text.now }
    ensures rest { drop result text.now
        ≡ encode_utf8_all (drop (part_begin start (length (chars text.now))) (chars text.now)) }
    ensures within { result ≤ length text.now }
{
    let count = start.unsigned_abs() as usize;
    if start < 0 {
        begin_of_last(text, count)
    } else {
        end_of_first(text, count)
    }
}

// Where the first `count` characters of a text end: where it ends, if there are fewer. Nothing is read behind them.
fn end_of_first(text: &[u8], count: usize) -> usize
    ensures place { result ≡ skipped count text.now }
    ensures within { result ≤ length text.now }
{
    let mut left = count;
    for (place, &byte) in text.iter().enumerate() {
        if begins_character(byte) {
            if left == 0 {
                return place;
            }
            left -= 1;
        }
    }
    text.len()
}

// Where the last `count` characters of a text begin: at its front, if there are fewer. Nothing is read before them.
fn begin_of_last(text: &[u8], count: usize) -> usize
    requires text { IsUtf8 text.now }
    requires some { 0 < count }
    ensures place { result ≡ skipped (count_by begins text.now - count) text.now }
    ensures within { result ≤ length text.now }
{
    let mut left = count;
    for place in (0..text.len()).rev() {
        if begins_character(text[place]) {
            left -= 1;
            if left == 0 {
                return place;
            }
        }
    }
    0
}
