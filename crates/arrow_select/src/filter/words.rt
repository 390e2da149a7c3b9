//! Values and bits at which a mask is set, by words of 64.

ghost use Rattle.std.specs.Prelude.{◌≡◌, ◌+◌, ◌*◌, ◌^◌, ◌<◌, ◌≤◌, [], ◌++◌, count_by, length, option_copied, option_map, IsOkUnless, IfOk, IfSome, OnOk, OnErr};
ghost use Rattle.std.specs.Vec.{vec_len, vec_capacity};
ghost use Rattle.arrow_types.specs.declared.error.Error.{Error};
ghost use Rattle.arrow_flat.specs.Parts.{FitsRows};
ghost use Rattle.arrow_memory.specs.Sliced.{sliced};
ghost use Rattle.arrow_memory.specs.Words.{low_bits, word_of};
ghost use Rattle.arrow_select.specs.Selected.{AppendsOrStays, at_set, set_in_word, word_bits, IsRunOf};

use arrow_memory::bitmap::{Bitmap, MutableBitmap, WORD_BITS};
use arrow_types::error::Error;
use arrow_types::types::NativeType;
use std::alloc::Global;

/// How many values a run has at least that is copied in one: fewer are appended one by one.
const LONG_RUN: u32 = 8;

/// Appends the values whose bit in the mask is set, in order: value k where bit k is, from the least significant one on.
/// Bits past the last value are ignored.
///
/// # Requires
/// There are at most 64 values.
///
/// # Errors
/// `OutOfMemory` where memory is refused; `out` is then as before.
pub fn extend_from_word<T: NativeType>(
    out: &mut Vec<T>,
    values: &[T],
    mask: u64,
) -> Result<(), Error>
    requires { length values.now ≤ 64 }
    ensures { AppendsOrStays out.old.items out.new.items (set_in_word mask values.now) result }
{
    let word = low_word(mask, values.len());
    out.reserve(word.count_ones() as usize)?;
    push_set(out, values, word);
    Ok(())
}

// The lowest `count` bits of a word, with zeros above.
#[tactic(auto, using(crate::proofs::SetLemmas::low_and))]
fn low_word(word: u64, count: usize) -> u64
    requires { count ≤ 64 }
    ensures below { result < 2 ^ count }
    ensures same { low_bits result count ≡ low_bits word count }
{
    if count < WORD_BITS {
        word & ((1 << count) - 1)
    } else {
        word
    }
}

// Appends the values at which the bits of a word are set, of which none is set past them. There is room for them.
#[inline(always)]
fn push_set<T: NativeType>(out: &mut Vec<T>, values: &[T], word: u64)
    requires in_word { length values.now ≤ 64 }
    requires below { word < 2 ^ length values.now }
    requires room { vec_len out.old + length (set_in_word word values.now) ≤ vec_capacity out.old }
    ensures items { out.new.items ≡ out.old.items ++ set_in_word word values.now }
    ensures capacity { vec_capacity out.old ≤ vec_capacity out.new }
{
    let mut left = word;
    while left != 0 {
        out.push_reserved(values[left.trailing_zeros() as usize]);
        left &= left - 1;
    }
}

// Where the set bits of a word begin and how many there are, if they are one run and so many that a copy pays.
#[inline(always)]
fn long_run(word: u64) -> Option<(usize, usize)>
    ensures { IfSome result (λ run. IsRunOf word run.0 run.1) }
{
    let (first, ones) = (word.trailing_zeros(), word.count_ones());
    if ones < LONG_RUN || word >> first != u64::MAX >> (64 - ones) {
        return None;
    }
    Some((first as usize, ones as usize))
}

// Appends so many values in one, for which there is room.
#[inline(never)]
fn append_run<T: NativeType>(out: &mut Vec<T>, run: &[T])
    requires { vec_len out.old + length run.now ≤ vec_capacity out.old }
    ensures items { out.new.items ≡ out.old.items ++ run.now }
    ensures capacity { vec_capacity out.old ≤ vec_capacity out.new }
{
    let Ok(()) = out.extend_from_slice(run) else {
        unreachable!();
    };
}

// The same as `push_set`, where a long run is copied in one.
#[inline(always)]
fn append_word<T: NativeType>(out: &mut Vec<T>, values: &[T], word: u64)
    requires in_word { length values.now ≤ 64 }
    requires below { word < 2 ^ length values.now }
    requires room { vec_len out.old + length (set_in_word word values.now) ≤ vec_capacity out.old }
    ensures items { out.new.items ≡ out.old.items ++ set_in_word word values.now }
    ensures capacity { vec_capacity out.old ≤ vec_capacity out.new }
{
    match long_run(word) {
        Some((first, ones)) => append_run(out, &values[first..first + ones]),
        None => push_set(out, values, word),
    }
}

// Appends the values at which the bits of a word are set, and answers the bits of another at which they are, moved together
// as by `gathered`: in one walk, or by a copy and a shift where they are a long run.
#[inline(always)]
fn append_both<T: NativeType>(out: &mut Vec<T>, values: &[T], bits: u64, word: u64) -> u64
    requires in_word { length values.now ≤ 64 }
    requires below { word < 2 ^ length values.now }
    requires room { vec_len out.old + length (set_in_word word values.now) ≤ vec_capacity out.old }
    ensures items { out.new.items ≡ out.old.items ++ set_in_word word values.now }
    ensures capacity { vec_capacity out.old ≤ vec_capacity out.new }
    ensures bits { result ≡ word_of (set_in_word word (word_bits bits)) }
{
    match long_run(word) {
        Some((first, ones)) => {
            append_run(out, &values[first..first + ones]);
            run_of_bits(bits, first, ones)
        }
        None => push_both(out, values, bits, word),
    }
}

// The same, one by one.
#[inline(always)]
fn push_both<T: NativeType>(out: &mut Vec<T>, values: &[T], bits: u64, word: u64) -> u64
    requires in_word { length values.now ≤ 64 }
    requires below { word < 2 ^ length values.now }
    requires room { vec_len out.old + length (set_in_word word values.now) ≤ vec_capacity out.old }
    ensures items { out.new.items ≡ out.old.items ++ set_in_word word values.now }
    ensures capacity { vec_capacity out.old ≤ vec_capacity out.new }
    ensures bits { result ≡ word_of (set_in_word word (word_bits bits)) }
{
    let mut kept = 0;
    let mut count = 0usize;
    let mut left = word;
    while left != 0 {
        let place = left.trailing_zeros();
        out.push_reserved(values[place as usize]);
        kept |= u64::from(bits >> place & 1 == 1) << count;
        count += 1;
        left &= left - 1;
    }
    kept
}

// The values at which the mask is set, of which there are so many, and their validity: none where theirs is none.
pub(super) fn set_rows<T: NativeType>(
    alloc: Global,
    values: &[T],
    validity: Option<&Bitmap>,
    mask: &Bitmap,
    count: usize,
) -> Result<(Vec<T>, Option<Bitmap>), Error>
    requires lengths { length mask.now ≡ length values.now }
    requires fits { FitsRows (option_copied validity) (length mask.now) }
    requires count { count ≡ count_by (λ is_kept. is_kept) mask.now }
    ensures values { IfOk result (λ rows. rows.0.items ≡ at_set mask.now values.now) }
    ensures validity { IfOk result (λ rows. rows.1
        ≡ option_map (at_set mask.now) (option_copied validity.entry)) }
    ensures err { IsOkUnless result Error.OutOfMemory }
{
    match validity {
        None => Ok((set_values(alloc, values, mask, count)?, None)),
        Some(bits) => {
            let (kept, valid) = set_values_and_bits(alloc, values, bits, mask, count)?;
            Ok((kept, Some(valid)))
        }
    }
}

// The values at which the mask is set, of which there are so many. What it appends to and the mask's clone are its own, so
// that neither is read again for a value: where they lie is in registers.
#[tactic(auto, using(crate::proofs::SetLemmas::lengths))]
#[inline(never)]
fn set_values<T: NativeType>(
    alloc: Global,
    values: &[T],
    mask: &Bitmap,
    count: usize,
) -> Result<Vec<T>, Error>
    requires lengths { length mask.now ≡ length values.now }
    requires count { count ≡ count_by (λ is_kept. is_kept) mask.now }
    ensures ok { IfOk result (λ kept. kept.items ≡ at_set mask.now values.now) }
    ensures err { IsOkUnless result Error.OutOfMemory }
{
    let mask = mask.clone()?;
    let mut kept = Vec::with_capacity(alloc, count)?;
    append_set(&mut kept, values, &mask);
    Ok(kept)
}

// The same, and the bits at which the mask is set.
#[tactic(auto, using(crate::proofs::SetLemmas::lengths))]
#[inline(never)]
fn set_values_and_bits<T: NativeType>(
    alloc: Global,
    values: &[T],
    bits: &Bitmap,
    mask: &Bitmap,
    count: usize,
) -> Result<(Vec<T>, Bitmap), Error>
    requires lengths { length mask.now ≡ length values.now }
    requires covered { length mask.now ≡ length bits.now }
    requires count { count ≡ count_by (λ is_kept. is_kept) mask.now }
    ensures values { IfOk result (λ kept. kept.0.items ≡ at_set mask.now values.now) }
    ensures bits { IfOk result (λ kept. kept.1 ≡ at_set mask.now bits.now) }
    ensures err { IsOkUnless result Error.OutOfMemory }
{
    let mut kept = Vec::with_capacity(alloc, count)?;
    let mut valid = MutableBitmap::with_capacity(alloc, count)?;
    append_set_both(&mut kept, &mut valid, values, bits, mask)?;
    Ok((kept, valid.into_bitmap()?))
}

// Appends the values at which the mask is set, and the bits, in one walk over its words. There is room for the values.
#[inline(always)]
fn append_set_both<T: NativeType>(
    kept: &mut Vec<T>,
    valid: &mut MutableBitmap,
    values: &[T],
    bits: &Bitmap,
    mask: &Bitmap,
) -> Result<(), Error>
    requires none { valid.old ≡ [] }
    requires lengths { length mask.now ≡ length values.now }
    requires covered { length mask.now ≡ length bits.now }
    requires room { vec_len kept.old + length (at_set mask.now values.now) ≤ vec_capacity kept.old }
    ensures values { OnOk result (kept.new.items ≡ kept.old.items ++ at_set mask.now values.now) }
    ensures bits { OnOk result (valid.new ≡ at_set mask.now bits.now) }
    ensures err { IsOkUnless result Error.OutOfMemory }
{
    let len = mask.len();
    for j in 0..len.div_ceil(WORD_BITS) {
        let word = mask.word(j);
        if word == 0 {
            continue;
        }
        let start = WORD_BITS * j;
        let count = WORD_BITS.min(len - start);
        let set = append_both(kept, &values[start..start + count], bits.word(j), word);
        valid.push_word(set, word.count_ones() as usize)?;
    }
    Ok(())
}

// Appends the values at which the mask is set. There is room for them.
#[inline(always)]
fn append_set<T: NativeType>(kept: &mut Vec<T>, values: &[T], mask: &Bitmap)
    requires lengths { length mask.now ≡ length values.now }
    requires room { vec_len kept.old + length (at_set mask.now values.now) ≤ vec_capacity kept.old }
    ensures { kept.new.items ≡ kept.old.items ++ at_set mask.now values.now }
{
    let len = mask.len();
    for j in 0..len.div_ceil(WORD_BITS) {
        let bits = mask.word(j);
        if bits == 0 {
            continue;
        }
        let start = WORD_BITS * j;
        let count = WORD_BITS.min(len - start);
        append_word(kept, &values[start..start + count], bits);
    }
}

// The bits at which the mask is set, of which there are so many.
pub(super) fn set_bits(
    alloc: Global,
    bits: &Bitmap,
    mask: &Bitmap,
    count: usize,
) -> Result<Bitmap, Error>
    requires { length mask.now ≡ length bits.now }
    ensures ok { IfOk result (λ kept. kept ≡ at_set mask.now bits.now) }
    ensures err { IsOkUnless result Error.OutOfMemory }
{
    let mut kept = MutableBitmap::with_capacity(alloc, count)?;
    append_set_bits(&mut kept, bits, mask)?;
    kept.into_bitmap()
}

// Appends the bits at which the mask is set, a word at a time.
fn append_set_bits(kept: &mut MutableBitmap, bits: &Bitmap, mask: &Bitmap) -> Result<(), Error>
    requires none { kept.old ≡ [] }
    requires lengths { length mask.now ≡ length bits.now }
    ensures ok { OnOk result (kept.new ≡ at_set mask.now bits.now) }
    ensures err { IsOkUnless result Error.OutOfMemory }
{
    let len = mask.len();
    for j in 0..len.div_ceil(WORD_BITS) {
        let word = mask.word(j);
        if word == 0 {
            continue;
        }
        kept.push_word(gathered(bits.word(j), word), word.count_ones() as usize)?;
    }
    Ok(())
}

// The bits of a word at which a mask is set, moved together from the least significant one on, with zeros above.
#[inline(always)]
fn gathered(bits: u64, mask: u64) -> u64
    ensures { result ≡ word_of (set_in_word mask (word_bits bits)) }
{
    match long_run(mask) {
        Some((first, ones)) => run_of_bits(bits, first, ones),
        None => gather_each(bits, mask),
    }
}

// So many bits of a word from a place on, with zeros above.
#[tactic(auto, using(crate::proofs::SetLemmas::word_of_run))]
fn run_of_bits(bits: u64, first: usize, count: usize) -> u64
    requires some { 0 < count }
    requires within { first + count ≤ 64 }
    ensures { result ≡ word_of (sliced (word_bits bits) first count) }
{
    low_word(bits >> first, count)
}

// The same, bit by bit.
#[inline(always)]
fn gather_each(bits: u64, mask: u64) -> u64
    ensures { result ≡ word_of (set_in_word mask (word_bits bits)) }
{
    let mut kept = 0;
    let mut count = 0usize;
    let mut left = mask;
    while left != 0 {
        kept |= u64::from(bits >> left.trailing_zeros() & 1 == 1) << count;
        count += 1;
        left &= left - 1;
    }
    kept
}
