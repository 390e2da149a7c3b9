//! Bytes of a fixed size by index: room for all rows first, and then one row behind the other.

ghost use Rattle.std.specs.Prelude.{◌≡◌, ◌+◌, ◌*◌, ◌<◌, ◌≤◌, ◌++◌, ◌^◌, Err, drop, length, map, replicate, take, IfErr, IfOk, IfSome};
ghost use Rattle.std.specs.List.{concat};
ghost use Rattle.arrow_types.specs.declared.error.Error.{Error};
ghost use Rattle.arrow_memory.specs.Grown.{IsGrowthError};
ghost use Rattle.arrow_memory.specs.Sliced.{sliced};
ghost use Rattle.arrow_flat.specs.FixedRows.{fixed_slots};
ghost use Rattle.arrow_flat.specs.Parts.{rows_by};
ghost use Rattle.arrow_take.specs.Taken.{AnswersFixedRows, AreIndices, fixed_row, taken_row};

use crate::take::indices::{index_at, take_validity};
use arrow_flat::array::{FixedSizeBinaryArray, PrimitiveArray};
use arrow_memory::buffer::Buffer;
use arrow_types::error::Error;
use arrow_types::types::Index;
use std::alloc::Global;

/// The rows that the indices name, in their order, and null where an index is null, whatever lies beneath it.
///
/// # Requires
/// Each index that is not null is that of a row.
///
/// # Errors
/// `Overflow` where the rows do not fit the type, `OutOfMemory` where memory is refused.
///
/// Source: of our own.
pub fn take<I: Index>(
    alloc: Global,
    values: &FixedSizeBinaryArray,
    indices: &PrimitiveArray<I>,
) -> Result<FixedSizeBinaryArray, Error>
    requires inside { AreIndices (length (rows_by fixed_slots values.now))
        (rows_by (map I.slot) indices.now) }
    ensures answer { AnswersFixedRows result values.now (rows_by (map I.slot) indices.now) }
{
    // There are as many rows as a `usize` counts, each as long as the type and the array say.
    let _ = indices.len();
    let _ = values.data_type();
    let _ = values.size();
    let _ = values.values();
    let validity = take_validity(alloc, values.validity(), indices)?;
    let taken = take_rows(alloc, values, indices)?;
    let taken = Buffer::from_vec(alloc, taken)?;
    let data_type = values.data_type().clone()?;
    Ok(FixedSizeBinaryArray::new(data_type, taken, validity))
}

// The bytes of the rows that the indices name, and zeros where an index is null. A size that is one of the usual ones is known
// when its loop is compiled, so that a row is a move or two.
fn take_rows<I: Index>(
    alloc: Global,
    values: &FixedSizeBinaryArray,
    indices: &PrimitiveArray<I>,
) -> Result<Vec<u8>, Error>
    requires inside { AreIndices values.now.values.count (rows_by (map I.slot) indices.now) }
    ensures ok { IfOk result (λ bytes. bytes.items
        ≡ concat (map (taken_row values.now.values.size values.now.values.bytes)
        (rows_by (map I.slot) indices.now))) }
    ensures overflow { result ≡ Err Error.Overflow
        → length (rows_by (map I.slot) indices.now) * values.now.values.size < 2 ^ 64 → ⊥ }
    ensures others { IfErr result IsGrowthError }
{
    let size = values.size();
    let Some(total) = indices.len().checked_mul(size) else {
        return Err(Error::Overflow);
    };
    let mut taken = Vec::new(alloc);
    taken.resize(total, 0)?;
    match size {
        4 => copy_rows(&mut taken, values, 4, indices),
        8 => copy_rows(&mut taken, values, 8, indices),
        16 => copy_rows(&mut taken, values, 16, indices),
        32 => copy_rows(&mut taken, values, 32, indices),
        _ => copy_rows(&mut taken, values, size, indices),
    }
    Ok(taken)
}

// Copies the rows that the indices name, of so many bytes each, over as many zeros. They stay where an index is null.
#[inline(always)]
fn copy_rows<I: Index>(
    taken: &mut [u8],
    values: &FixedSizeBinaryArray,
    size: usize,
    indices: &PrimitiveArray<I>,
)
    requires size { size ≡ values.now.values.size }
    requires some { 0 < size }
    requires zeros { taken.old ≡ replicate (length (rows_by (map I.slot) indices.now) * size) 0 }
    requires inside { AreIndices values.now.values.count (rows_by (map I.slot) indices.now) }
    ensures { taken.new ≡ concat
        (map (taken_row size values.now.values.bytes) (rows_by (map I.slot) indices.now)) }
{
    let bytes = values.values().as_slice();
    let (stored, validity) = (indices.values().as_slice(), indices.validity());
    for row in 0..stored.len() {
        copy_row(
            taken,
            bytes,
            size,
            row * size,
            index_at(stored, validity, row),
        );
    }
}

// Copies a row by where it is to a place that has zeros.
#[inline(always)]
fn copy_row(taken: &mut [u8], bytes: &[u8], size: usize, start: usize, place: Option<usize>)
    requires room { start + size ≤ length taken.old }
    requires within { IfSome place (λ n. n * size + size ≤ length bytes.now) }
    requires zeros { sliced taken.old start size ≡ replicate size 0 }
    ensures { taken.new ≡ take start taken.old
        ++ (fixed_row size bytes.now place ++ drop (start + size) taken.old) }
{
    if let Some(n) = place {
        taken[start..start + size].copy_from_slice(&bytes[n * size..n * size + size]);
    }
}
