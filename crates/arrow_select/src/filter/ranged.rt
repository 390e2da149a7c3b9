//! Values and bits in the ranges of a prepared filter, a range at a time.

ghost use Rattle.std.specs.Prelude.{◌≡◌, ◌+◌, ◌≤◌, ◌++◌, length, IfOk, IsOkUnless, OnOk};
ghost use Rattle.arrow_types.specs.declared.error.Error.{Error};
ghost use Rattle.arrow_memory.specs.Sliced.{sliced};
ghost use Rattle.arrow_select.specs.Selected.{at_set};

use crate::filter::prepared::Filter;
use arrow_memory::bitmap::{Bitmap, MutableBitmap};
use arrow_types::error::Error;
use arrow_types::types::NativeType;
use std::alloc::Global;

/// How many values a range is copied as where it has no more.
const BLOCK: usize = 16;

// The values that the filter keeps. There is room for them, and for a block more, from the first on.
#[inline(never)]
pub(super) fn ranged_values<T: NativeType>(
    alloc: Global,
    values: &[T],
    filter: &Filter,
) -> Result<Vec<T>, Error>
    requires { length filter.now ≡ length values.now }
    ensures ok { IfOk result (λ kept. kept.items ≡ at_set filter.now values.now) }
    ensures err { IsOkUnless result Error.OutOfMemory }
{
    let mut kept = Vec::with_capacity(alloc, filter.count().saturating_add(BLOCK))?;
    for &(start, len) in filter.ranges() {
        append_range(&mut kept, values, start, len)?;
    }
    Ok(kept)
}

// Appends the values of a range. No more than a block are copied as a block, where there are so many behind the first and
// there is room for it, and are then cut: such a copy is a few moves, and needs neither a call nor a loop whose end is
// guessed.
#[inline(always)]
fn append_range<T: NativeType>(
    out: &mut Vec<T>,
    values: &[T],
    start: usize,
    len: usize,
) -> Result<(), Error>
    requires { start + len ≤ length values.now }
    ensures ok { OnOk result (out.new.items ≡ out.old.items ++ sliced values.now start len) }
    ensures err { IsOkUnless result Error.OutOfMemory }
{
    let done = out.len();
    if len <= BLOCK && BLOCK <= values.len() - start && BLOCK <= out.capacity() - done {
        let Ok(()) = out.extend_from_slice(&values[start..start + BLOCK]) else {
            unreachable!();
        };
        out.truncate(done + len);
        return Ok(());
    }
    out.extend_from_slice(&values[start..start + len])?;
    Ok(())
}

// The bits that the filter keeps.
pub(super) fn ranged_bits(alloc: Global, bits: &Bitmap, filter: &Filter) -> Result<Bitmap, Error>
    requires { length filter.now ≡ length bits.now }
    ensures ok { IfOk result (λ kept. kept ≡ at_set filter.now bits.now) }
    ensures err { IsOkUnless result Error.OutOfMemory }
{
    let mut kept = MutableBitmap::with_capacity(alloc, filter.count())?;
    for &(start, len) in filter.ranges() {
        kept.extend_from_bitmap(bits, start, len)?;
    }
    kept.into_bitmap()
}
