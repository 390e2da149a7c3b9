//! Bytes that are copied a few at a time.

ghost use Rattle.std.specs.Prelude.{◌≡◌, ◌-◌, ◌≤◌, ◌++◌, length, IsOkUnless, OnOk, OnErr};
ghost use Rattle.arrow_types.specs.declared.error.Error.{Error};
ghost use Rattle.arrow_memory.specs.Sliced.{sliced};

use arrow_types::error::Error;

/// Appends the bytes from `first` up to `end`. No more than `block` are copied as a block, where that still ends before
/// `until` and there is room for it, and are then cut: a copy whose size is known when compiled is a few moves, and needs
/// neither a call nor a loop whose end is guessed.
///
/// # Requires
/// `first` is at most `end`, and `end` and `until` are at most the count of bytes.
///
/// # Errors
/// `OutOfMemory` where a growth is refused; `bytes` is then as before.
#[inline(always)]
pub fn append_span(
    bytes: &mut Vec<u8>,
    from: &[u8],
    first: usize,
    end: usize,
    until: usize,
    block: usize,
) -> Result<(), Error>
    requires rises { first ≤ end }
    requires within { end ≤ length from.now }
    requires until { until ≤ length from.now }
    ensures ok { OnOk result (bytes.new.items ≡ bytes.old.items ++ sliced from.now first (end - first)) }
    ensures unchanged { OnErr result (bytes.new.items ≡ bytes.old.items) }
    ensures err { IsOkUnless result Error.OutOfMemory }
{
    let (done, count) = (bytes.len(), end - first);
    let behind = until.saturating_sub(first);
    if count <= block && block <= behind && block <= bytes.capacity() - done {
        let Ok(()) = bytes.extend_from_slice(&from[first..first + block]) else {
            unreachable!();
        };
        bytes.truncate(done + count);
        return Ok(());
    }
    bytes.extend_from_slice(&from[first..end])?;
    Ok(())
}
