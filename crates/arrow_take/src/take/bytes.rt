//! Texts and bytes by index: where the rows lie and end first, and then the bytes, for which there is room.

ghost use Rattle.std.specs.Prelude.{◌≡◌, ◌+◌, ◌-◌, ◌<◌, ◌≤◌, ◌∷◌, Err, length, map, option_copied, sum, IfOk, IfErr, OnOk};
ghost use Rattle.std.specs.List.{concat};
ghost use Rattle.arrow_types.specs.declared.error.Error.{Error};
ghost use Rattle.arrow_types.specs.Fits.{Fits};
ghost use Rattle.arrow_types.specs.Rows.{gather};
ghost use Rattle.arrow_memory.specs.Grown.{IsGrowthError};
ghost use Rattle.arrow_flat.specs.ByteRows.{byte_slots};
ghost use Rattle.arrow_flat.specs.Parts.{FitsRows, rows_by};
ghost use Rattle.arrow_take.specs.Taken.{AreIndices, span_length, taken_bytes, taken_span};
ghost use Rattle.arrow_memory.specs.Ends.{ends_from};

use crate::spans::copy_spans;
use crate::take::indices::{ByIndex, append_word_named, take_validity};
use crate::validity;
use arrow_flat::array::{ByteKind, ByteRows, FlatArray, PrimitiveArray};
use arrow_flat_growable::growable::GrowableKind;
use arrow_memory::bitmap::{Bitmap, WORD_BITS};
use arrow_memory::buffer::Buffer;
use arrow_memory::offset::{Offsets, OffsetsBuffer};
use arrow_types::error::Error;
use arrow_types::types::{Index, Offset};
use std::alloc::Global;

/// The rows that the indices name, in their order, and null where an index is null, whatever lies beneath it.
///
/// # Requires
/// Each index that is not null is that of a row.
///
/// # Errors
/// `Overflow` where the rows do not fit the type, `OutOfMemory` where memory is refused.
///
/// Source: arrow2's `take::utf8::take` and `take::binary::take`.
pub fn take<O: Offset, K: GrowableKind, I: Index>(
    alloc: Global,
    values: &FlatArray<ByteRows<O, K>>,
    indices: &PrimitiveArray<I>,
) -> Result<FlatArray<ByteRows<O, K>>, Error>
    requires inside { AreIndices (length (rows_by (byte_slots K.slot) values.now))
        (rows_by (map I.slot) indices.now) }
    ensures array_type { IfOk result (λ taken. taken.arrow_type ≡ values.now.arrow_type) }
    ensures rows { IfOk result (λ taken. rows_by (byte_slots K.slot) taken
        ≡ gather (rows_by (byte_slots K.slot) values.now)
        (rows_by (map I.slot) indices.now) values.now.arrow_type) }
    ensures fits { IfOk result (λ taken. Fits taken.arrow_type (rows_by (byte_slots K.slot) taken)) }
    ensures overflow { result ≡ Err Error.Overflow
        → Fits values.now.arrow_type
        (gather (rows_by (byte_slots K.slot) values.now)
        (rows_by (map I.slot) indices.now) values.now.arrow_type) → ⊥ }
    ensures others { IfErr result IsGrowthError }
{
    // There are as many rows as a `usize` counts, and the rows lie in the values as the type and the offsets say.
    let (_, _) = (indices.len(), values.offsets().len());
    let _ = values.values();
    let _ = values.data_type();
    let validity = take_validity(alloc, values.validity(), indices)?;
    let (offsets, bytes) = take_rows(alloc, values, indices)?;
    let bytes = Buffer::from_vec(alloc, bytes)?;
    let data_type = values.data_type().clone()?;
    Ok(FlatArray::<ByteRows<O, K>>::new(data_type, offsets, bytes, validity))
}

// Where the rows that the indices name end, and their bytes.
fn take_rows<O: Offset, K: ByteKind, I: Index>(
    alloc: Global,
    values: &FlatArray<ByteRows<O, K>>,
    indices: &PrimitiveArray<I>,
) -> Result<(OffsetsBuffer<O>, Vec<u8>), Error>
    requires { AreIndices (length values.now.values.offsets - 1) (rows_by (map I.slot) indices.now) }
    ensures offsets { IfOk result (λ rows. rows.0
        ≡ 0 ∷ ends_from 0 (map (span_length values.now.validity values.now.values.offsets)
        (rows_by (map I.slot) indices.now))) }
    ensures bytes { IfOk result (λ rows. rows.1.items
        ≡ concat (map (taken_bytes values.now.validity values.now.values.offsets values.now.values.bytes)
        (rows_by (map I.slot) indices.now))) }
    ensures few { OnOk result (sum
        (map (span_length values.now.validity values.now.values.offsets) (rows_by (map I.slot) indices.now))
        ≤ O.greatest) }
    ensures overflow { result ≡ Err Error.Overflow
        → O.greatest < sum (map (span_length values.now.validity values.now.values.offsets)
        (rows_by (map I.slot) indices.now)) }
    ensures others { IfErr result IsGrowthError }
{
    // The rows lie in the values as the offsets say.
    let _ = values.offsets().len();
    let (spans, offsets) = take_spans(alloc, values, indices)?;
    let total = offsets.last().to_usize();
    let bytes = copy_spans(alloc, values.values().as_slice(), &spans, total)?;
    Ok((offsets.into_buffer()?, bytes))
}

/// Where the bytes of rows lie: nowhere where a row or an index is null.
#[derive(Drop)]
struct Spans<'a, O: Offset> {
    rows: &'a OffsetsBuffer<O>,
    validity: Option<&'a Bitmap>,
}

impl<'a, O: Offset, I: Index> ByIndex<I> for Spans<'a, O> {
    type Item = (usize, usize);

    ghost count = { λ s. length s.rows.now - 1 };

    ghost named = { λ s. taken_span (option_copied s.validity) s.rows.now };

    ghost holds = { λ s. FitsRows (option_copied s.validity) (length s.rows.now - 1) };

    // The place is read before the test whether its row is null, so that this too is a choice of values.
    fn at(&self, index: I, is_valid: bool) -> (usize, usize) {
        let index = if is_valid { index } else { I::default() };
        let place = index.to_usize();
        if self.rows.len() <= place + 1 {
            // Without a row each index is null.
            return (0, 0);
        }
        let span = self.rows.start_end(place);
        if is_valid & validity::is_valid(self.validity, place) {
            span
        } else {
            (0, 0)
        }
    }
}

// Where the bytes lie of the rows that the indices name, and their offsets by index, 64 of them at a time: spans first, in a loop
// that does nothing else, so that a processor waits for the memory of many rows at once.
fn take_spans<O: Offset, K: ByteKind, I: Index>(
    alloc: Global,
    values: &FlatArray<ByteRows<O, K>>,
    indices: &PrimitiveArray<I>,
) -> Result<(Vec<(usize, usize)>, Offsets<O>), Error>
    requires { AreIndices (length values.now.values.offsets - 1) (rows_by (map I.slot) indices.now) }
    ensures spans { IfOk result (λ taken. taken.0.items
        ≡ map (taken_span values.now.validity values.now.values.offsets)
        (rows_by (map I.slot) indices.now)) }
    ensures offsets { IfOk result (λ taken. taken.1
        ≡ 0 ∷ ends_from 0 (map (span_length values.now.validity values.now.values.offsets)
        (rows_by (map I.slot) indices.now))) }
    ensures overflow { result ≡ Err Error.Overflow
        → O.greatest < sum (map (span_length values.now.validity values.now.values.offsets)
        (rows_by (map I.slot) indices.now)) }
    ensures others { IfErr result IsGrowthError }
{
    let (rows, validity) = (values.offsets(), values.validity());
    let (stored, nulls) = (indices.values().as_slice(), indices.validity());
    // No offset is less than the one before it.
    let _ = rows.len();
    let mut spans = Vec::with_capacity(alloc, stored.len())?;
    let mut offsets = Offsets::with_capacity(alloc, stored.len())?;
    let named = Spans { rows, validity };
    let mut row = 0;
    while row < stored.len() {
        let count = WORD_BITS.min(stored.len() - row);
        append_word_named(&mut spans, &named, stored, nulls, row / WORD_BITS, count);
        for &(first, end) in &spans[row..] {
            offsets.try_push_usize(end - first)?;
        }
        row += count;
    }
    Ok((spans, offsets))
}
