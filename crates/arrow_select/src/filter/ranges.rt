//! The runs of rows that a mask keeps, found by words of 64.

ghost use Rattle.std.specs.Prelude.{◌≡◌, ◌<◌, ◌++◌, length, IfOk, IsOkUnless, OnOk};
ghost use Rattle.arrow_types.specs.declared.error.Error.{Error};
ghost use Rattle.arrow_select.specs.Ranges.{ended, IsRangesOf};
ghost use Rattle.arrow_select.specs.Selected.{IsLowestRun};

use arrow_memory::bitmap::{Bitmap, WORD_BITS};
use arrow_types::error::Error;
use std::alloc::Global;

// The runs of rows at which the mask is set, each its first row and its length. A run that reaches the end of a word is
// under way, and goes on where the next word begins with a set bit.
pub(super) fn ranges_of(alloc: Global, mask: &Bitmap) -> Result<Vec<(usize, usize)>, Error>
    ensures ok { IfOk result (λ ranges. IsRangesOf ranges.items mask.now) }
    ensures err { IsOkUnless result Error.OutOfMemory }
{
    let mut ranges = Vec::new(alloc);
    let mut first = 0;
    let mut count = 0;
    for j in 0..mask.len().div_ceil(WORD_BITS) {
        let mut word = mask.word(j);
        while word != 0 {
            let (start, end, rest) = lowest_run(word);
            let row = WORD_BITS * j + start;
            if row != first + count {
                end_run(&mut ranges, first, count)?;
                first = row;
                count = 0;
            }
            count += end - start;
            word = rest;
        }
    }
    end_run(&mut ranges, first, count)?;
    Ok(ranges)
}

// The lowest run of set bits of a word that is not 0: where it begins, where it ends, and the word without it. Where the
// zeros below it are filled with ones, a carry runs through to its end.
#[inline(always)]
fn lowest_run(word: u64) -> (usize, usize, u64)
    requires { 0 < word }
    ensures { IsLowestRun word result.0 result.1 result.2 }
{
    let filled = word | (word - 1);
    let (start, end) = (word.trailing_zeros(), filled.trailing_ones());
    (start as usize, end as usize, word & filled.wrapping_add(1))
}

// Appends a run that has ended, unless it is empty.
#[inline(always)]
fn end_run(ranges: &mut Vec<(usize, usize)>, first: usize, count: usize) -> Result<(), Error>
    ensures ok { OnOk result (ranges.new.items ≡ ranges.old.items ++ ended first count) }
    ensures err { IsOkUnless result Error.OutOfMemory }
{
    if count > 0 {
        ranges.push((first, count))?;
    }
    Ok(())
}
