//! Of which rows of unions a type id is one of some field, 16 rows at a time.

ghost use Rattle.std.specs.Prelude.{◌≡◌, ◌-◌, ◌*◌, ◌<◌, ◌≤◌, length, min, slice_index_or, take, IfOk, IsOkUnless};
ghost use Rattle.std.specs.Int.{w8};
ghost use Rattle.std.specs.Int.RustNames.{FitsSigned};
ghost use Rattle.std.specs.List.{All};
ghost use Rattle.std.specs.Ordering.{int_eq};
ghost use Rattle.arrow_types.specs.declared.error.Error.{Error};
ghost use Rattle.arrow_memory.specs.Sliced.{sliced};
ghost use Rattle.arrow_memory.specs.Words.{word_of};
ghost use Rattle.arrow_growable.specs.Variants.{have_id};

use arrow_memory::bitmap::{Bitmap, Mask, WORD_BITS};
use arrow_types::error::Error;
use std::alloc::Global;
use std::simd::prelude::*;

/// How many ids are compared at once.
const BLOCK: usize = 16;

/// Of which rows a type id is this one.
///
/// # Errors
/// `OutOfMemory` where memory is refused.
pub fn rows_of_id(alloc: Global, types: &[i8], id: i8) -> Result<Bitmap, Error>
    ensures ok { IfOk result (λ own. own ≡ have_id id types.now) }
    ensures err { IsOkUnless result Error.OutOfMemory }
{
    let own = Bitmap::collect_words(alloc, types.len(), |j| word_at(types, id, j))?;
    Ok(own)
}

/// The same as a mask, which takes no memory for a few rows.
///
/// # Errors
/// As of [`rows_of_id`].
#[inline(always)]
pub(crate) fn mask_of_id(alloc: Global, types: &[i8], id: i8) -> Result<Mask, Error>
    ensures ok { IfOk result (λ own. own ≡ have_id id types.now) }
    ensures err { IsOkUnless result Error.OutOfMemory }
{
    if types.len() <= WORD_BITS {
        return Ok(Mask::from_word(word_of_id(types, id), types.len()));
    }
    Ok(Mask::from_bitmap(rows_of_id(alloc, types, id)?))
}

/// About how many type ids differ from the one before: those of each 16 rows are compared with one another alone.
pub(crate) fn changes(types: &[i8]) -> usize {
    let (blocks, _) = types.as_chunks::<16>();
    let mut count: usize = 0;
    for block in blocks {
        let block = i8x16::from_array(*block);
        let next = block.rotate_elements_left::<1>();
        // the last of them has no next one
        let differ = block.simd_ne(next).to_bitmask() & 0x7FFF;
        count = count.wrapping_add(differ.count_ones() as usize);
    }
    count
}

// Word `j` of the rows that have an id.
fn word_at(types: &[i8], id: i8, j: usize) -> u64
    requires { 64 * j < length types.now }
    ensures { result ≡ word_of (have_id id (sliced types.now (64 * j) (min 64 (length types.now - 64 * j)))) }
{
    let start = WORD_BITS * j;
    let count = WORD_BITS.min(types.len() - start);
    word_of_id(&types[start..start + count], id)
}

// Of which of at most 64 rows a type id is this one, a bit each, from the least significant one on.
#[inline(always)]
fn word_of_id(types: &[i8], id: i8) -> u64
    requires { length types.now ≤ 64 }
    ensures { result ≡ word_of (have_id id types.now) }
{
    let mut word = 0;
    let mut row = 0;
    while types.len() - row >= BLOCK {
        word |= block_of_id(&types[row..row + BLOCK], id) << row;
        row += BLOCK;
    }
    while row < types.len() {
        word |= u64::from(has_id(types, id, row)) << row;
        row += 1;
    }
    word
}

// Whether a row has a type id.
fn has_id(types: &[i8], id: i8, row: usize) -> bool
    requires { row < length types.now }
    ensures { result ≡ int_eq id (slice_index_or types.now row id) }
{
    types[row] == id
}

// Shows that ids are numbers of their type, and does nothing.
#[inline(always)]
fn fit(types: &[i8])
    ensures { All (FitsSigned w8) types.now }
{
    for &id in types {
        let _ = id;
    }
}

// Of which of the first 16 rows a type id is this one, a bit each.
#[inline(always)]
fn block_of_id(types: &[i8], id: i8) -> u64
    requires { 16 ≤ length types.now }
    ensures { result ≡ word_of (have_id id (take 16 types.now)) }
{
    fit(types);
    i8x16::from_slice(types)
        .simd_eq(i8x16::splat(id))
        .to_bitmask()
}
