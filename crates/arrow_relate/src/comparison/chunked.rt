//! Bits that a closure answers of chunks of eight values, eight bytes to a word.

ghost use Rattle.std.specs.Prelude.{◌≡◌, ◌-◌, ◌*◌, ◌<◌, length, min, slice_index_or, IfOk, IsOkUnless};
ghost use Rattle.std.specs.Int.{div_ceil};
ghost use Rattle.arrow_types.specs.declared.error.Error.{Error};
ghost use Rattle.arrow_relate.specs.Chunked.{Chunked, GathersBytes, TakesChunks, answers_chunk};

use arrow_memory::bitmap::Bitmap;
use arrow_types::error::Error;
use arrow_types::types::NativeType;
use std::alloc::Global;

/// The values of a chunk.
const CHUNK: usize = 8;

/// The first eight values, each by this function.
macro_rules! eight {
    ($at:ident, $values:expr) => {
        [
            $at($values, 0),
            $at($values, 1),
            $at($values, 2),
            $at($values, 3),
            $at($values, 4),
            $at($values, 5),
            $at($values, 6),
            $at($values, 7),
        ]
    };
}

// The bits that `op` answers of chunks of values and of copies of a scalar. It is called once for each chunk.
pub(super) fn bits_of_chunks<T: NativeType, F: Fn([T; 8], [T; 8]) -> u8>(
    alloc: Global,
    stored: &[T],
    scalar: T,
    op: &F,
) -> Result<Bitmap, Error>
    requires { TakesChunks (F.pre op.now) T.zero stored.now scalar }
    ensures ok { IfOk result (Chunked 8 (answers_chunk (F.post op.now) T.zero stored.now scalar)
        (length stored.now)) }
    ensures err { IsOkUnless result Error.OutOfMemory }
{
    Bitmap::collect_words(
        alloc,
        stored.len(),
        |j| word_of_chunks(stored, scalar, op, j),
    )
}

// What `op` answers of the eight chunks from chunk `8 * j` on, a byte each, as far as there are chunks.
fn word_of_chunks<T: NativeType, F: Fn([T; 8], [T; 8]) -> u8>(
    stored: &[T],
    scalar: T,
    op: &F,
    j: usize,
) -> u64
    requires callable { TakesChunks (F.pre op.now) T.zero stored.now scalar }
    requires some { 64 * j < length stored.now }
    ensures { GathersBytes (answers_chunk (F.post op.now) T.zero stored.now scalar) (8 * j)
        (min 8 (div_ceil (length stored.now) 8 - 8 * j)) result }
{
    let first = CHUNK * j;
    let mut word = 0;
    for k in 0..CHUNK.min(stored.len().div_ceil(CHUNK) - first) {
        word |= u64::from(answer_at(stored, scalar, op, first + k)) << (CHUNK * k);
    }
    word
}

// What `op` answers of chunk `j`, of which the last is filled with the default.
fn answer_at<T: NativeType, F: Fn([T; 8], [T; 8]) -> u8>(
    stored: &[T],
    scalar: T,
    op: &F,
    j: usize,
) -> u8
    requires callable { TakesChunks (F.pre op.now) T.zero stored.now scalar }
    requires some { 8 * j < length stored.now }
    ensures { answers_chunk (F.post op.now) T.zero stored.now scalar j result }
{
    let rest = &stored[CHUNK * j..];
    let copies = [scalar; 8];
    if rest.len() < CHUNK {
        return op(eight!(value_or_default, rest), copies);
    }
    op(eight!(value_at, rest), copies)
}

// The value at a place.
fn value_at<T: NativeType>(values: &[T], i: usize) -> T
    requires { i < length values.now }
    ensures { result ≡ slice_index_or values.now i T.zero }
{
    values[i]
}

// The value at a place, or the default behind the last.
fn value_or_default<T: NativeType>(values: &[T], i: usize) -> T
    ensures { result ≡ slice_index_or values.now i T.zero }
{
    values.get(i).copied().unwrap_or_default()
}
