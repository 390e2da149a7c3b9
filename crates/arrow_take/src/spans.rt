//! Bytes that lie in spans of others, copied one span behind the other.

ghost use Rattle.std.specs.Prelude.{◌≡◌, length, IfOk, IsOkUnless};
ghost use Rattle.std.specs.List.{All};
ghost use Rattle.arrow_types.specs.declared.error.Error.{Error};
ghost use Rattle.arrow_take.specs.Spans.{spanned, IsSpanWithin};

use arrow_memory::bytes::append_span;
use arrow_types::error::Error;
use std::alloc::Global;

/// How many bytes a span is copied as where it has no more: two moves.
const BLOCK: usize = 32;

/// The bytes of the spans, each from its first byte up to its end. There is room for `total`, and for a block more, from the
/// first on.
///
/// # Requires
/// Each span lies within the bytes.
///
/// # Errors
/// `OutOfMemory` where memory is refused.
pub fn copy_spans(
    alloc: Global,
    from: &[u8],
    spans: &[(usize, usize)],
    total: usize,
) -> Result<Vec<u8>, Error>
    requires { All (IsSpanWithin (length from.now)) spans.now }
    ensures ok { IfOk result (λ bytes. bytes.items ≡ spanned from.now spans.now) }
    ensures err { IsOkUnless result Error.OutOfMemory }
{
    let mut bytes = Vec::with_capacity(alloc, total.saturating_add(BLOCK))?;
    for &(first, end) in spans {
        append_span(&mut bytes, from, first, end, from.len(), BLOCK)?;
    }
    Ok(bytes)
}
