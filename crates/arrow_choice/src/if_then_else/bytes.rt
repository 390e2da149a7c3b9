//! Texts and bytes of two arrays, as a predicate chooses: each row behind the one before, and no bytes where it is null.

ghost use Rattle.std.specs.Prelude.{◌≡◌, ◌+◌, ◌*◌, ◌<◌, ◌≤◌, ◌∷◌, [], ◌++◌, Err, Some, None, if◌then◌else◌, length, map, option_copied, slice_index_or, IfOk, IfErr, IfSome, IsOkUnless, OnOk};
ghost use Rattle.arrow_types.specs.declared.error.Error.{Error};
ghost use Rattle.arrow_types.specs.Fits.{Fits};
ghost use Rattle.arrow_types.specs.Rows.{chosen};
ghost use Rattle.arrow_memory.specs.Grown.{IsGrowthError};
ghost use Rattle.arrow_memory.specs.Offsets.{last_of};
ghost use Rattle.arrow_memory.specs.Sliced.{sliced};
ghost use Rattle.arrow_flat.specs.ByteRows.{byte_slots};
ghost use Rattle.arrow_flat.specs.Parts.{FitsRows, boolean_rows, rows_by};
ghost use Rattle.arrow_flat.specs.Pieces.{pieces};
ghost use Rattle.arrow_flat_growable.specs.GrownRows.{total, valid_values};
ghost use Rattle.arrow_choice.specs.Choice.{AppendsRows, AreOneLength, IsLent, all_chosen, row_chosen, row_under, rows_from};
ghost use Rattle.arrow_memory.specs.Ends.{ends_from};
ghost use Rattle.arrow_flat_growable.specs.Ends.{concatenated};

use crate::if_then_else::words::{chosen_validity, either};
use arrow_flat::array::validity::valid_word;
use arrow_flat::array::{BooleanArray, ByteRows, FlatArray};
use arrow_flat_growable::growable::GrowableKind;
use arrow_memory::bitmap::{Bitmap, WORD_BITS};
use arrow_memory::buffer::Buffer;
use arrow_memory::bytes::append_span;
use arrow_memory::offset::{Offsets, OffsetsBuffer};
use arrow_types::error::Error;
use arrow_types::types::{Index, Offset};
use std::alloc::Global;

// How many bytes a row is copied as where it has no more: two moves.
const BLOCK: usize = 32;

/// Where rows lie, and the bytes that they lie in.
type Lent<'a, O> = (&'a OffsetsBuffer<O>, &'a [u8]);

// The rows that the predicate chooses, in an array of the left one's type.
pub(super) fn chosen_byte_rows<O: Offset, K: GrowableKind>(
    alloc: Global,
    predicate: &BooleanArray,
    lhs: &FlatArray<ByteRows<O, K>>,
    rhs: &FlatArray<ByteRows<O, K>>,
) -> Result<FlatArray<ByteRows<O, K>>, Error>
    requires lengths { AreOneLength (boolean_rows predicate.now) (rows_by (byte_slots K.slot) lhs.now)
        (rows_by (byte_slots K.slot) rhs.now) }
    ensures array_type { IfOk result (λ all. all.arrow_type ≡ lhs.now.arrow_type) }
    ensures rows { IfOk result (λ all. rows_by (byte_slots K.slot) all
        ≡ chosen (boolean_rows predicate.now) (rows_by (byte_slots K.slot) lhs.now)
        (rows_by (byte_slots K.slot) rhs.now) lhs.now.arrow_type) }
    ensures fits { IfOk result (λ all. Fits all.arrow_type (rows_by (byte_slots K.slot) all)) }
    ensures overflow { result ≡ Err Error.Overflow
        → Fits lhs.now.arrow_type (chosen (boolean_rows predicate.now) (rows_by (byte_slots K.slot) lhs.now)
        (rows_by (byte_slots K.slot) rhs.now) lhs.now.arrow_type) → ⊥ }
    ensures others { IfErr result IsGrowthError }
{
    // Each array has as many rows as it has values.
    prove!(lhs.len() == predicate.len());
    prove!(rhs.len() == predicate.len());
    let data_type = lhs.data_type();
    let left = (lhs.offsets(), lhs.values().as_slice());
    let right = (rhs.offsets(), rhs.values().as_slice());
    let validity = chosen_validity(alloc, predicate, lhs.validity(), rhs.validity())?;
    let (offsets, bytes) = chosen_parts(alloc, predicate.values(), validity.as_ref(), left, right)?;
    let bytes = Buffer::from_vec(alloc, bytes)?;
    Ok(FlatArray::<ByteRows<O, K>>::new(data_type.clone()?, offsets, bytes, validity))
}

// Where the rows end that bits choose, and their bytes: none of a row that is not valid.
fn chosen_parts<O: Offset>(
    alloc: Global,
    bits: &Bitmap,
    validity: Option<&Bitmap>,
    left: Lent<'_, O>,
    right: Lent<'_, O>,
) -> Result<(OffsetsBuffer<O>, Vec<u8>), Error>
    requires left { IsLent left.0.now (length left.1.now) (length bits.now) }
    requires right { IsLent right.0.now (length right.1.now) (length bits.now) }
    requires fits { FitsRows (option_copied validity) (length bits.now) }
    ensures offsets { IfOk result (λ parts. parts.0 ≡ 0 ∷ ends_from 0
        (map length (all_chosen (option_copied validity.entry) bits.now
        (pieces left.entry.0.now left.entry.1.now) (pieces right.entry.0.now right.entry.1.now)))) }
    ensures bytes { IfOk result (λ parts. parts.1.items
        ≡ concatenated (all_chosen (option_copied validity.entry) bits.now
        (pieces left.entry.0.now left.entry.1.now) (pieces right.entry.0.now right.entry.1.now))) }
    ensures few { OnOk result (total (all_chosen (option_copied validity.entry) bits.now
        (pieces left.entry.0.now left.entry.1.now) (pieces right.entry.0.now right.entry.1.now)) ≤ O.greatest) }
    ensures overflow { result ≡ Err Error.Overflow
        → O.greatest < total (all_chosen (option_copied validity.entry) bits.now
        (pieces left.entry.0.now left.entry.1.now) (pieces right.entry.0.now right.entry.1.now)) }
    ensures others { IfErr result IsGrowthError }
{
    let len = bits.len();
    let mut offsets = Offsets::with_capacity(alloc, len)?;
    let mut bytes = Vec::with_capacity(alloc, room(left.0).max(room(right.0)))?;
    for j in 0..len.div_ceil(WORD_BITS) {
        let count = WORD_BITS.min(len - WORD_BITS * j);
        append_word(
            &mut offsets,
            &mut bytes,
            bits,
            validity,
            left,
            right,
            j,
            count,
        )?;
    }
    // The last offset is at most the greatest of its type.
    prove!(offsets.last().to_usize() <= usize::MAX);
    Ok((offsets.into_buffer()?, bytes))
}

// How many bytes all rows have.
pub(super) fn room<O: Offset>(rows: &OffsetsBuffer<O>) -> usize {
    let (first, end) = rows.range(0, rows.len() - 1);
    end - first
}

// Appends the rows, `count` of them from row `64 * j` on, that the bits of a word choose: those of one side in one.
#[inline(always)]
fn append_word<O: Offset>(
    offsets: &mut Offsets<O>,
    bytes: &mut Vec<u8>,
    bits: &Bitmap,
    validity: Option<&Bitmap>,
    left: Lent<'_, O>,
    right: Lent<'_, O>,
    j: usize,
    count: usize,
) -> Result<(), Error>
    requires some { 0 < count }
    requires in_word { count ≤ 64 }
    requires part { 64 * j + count ≤ length bits.now }
    requires left { IsLent left.0.now (length left.1.now) (length bits.now) }
    requires right { IsLent right.0.now (length right.1.now) (length bits.now) }
    requires fits { FitsRows (option_copied validity) (length bits.now) }
    ensures ok { OnOk result (AppendsRows
        (rows_from (row_chosen (option_copied validity.entry) bits.now
        (pieces left.entry.0.now left.entry.1.now) (pieces right.entry.0.now right.entry.1.now)) (64 * j) count)
        offsets.old bytes.old.items offsets.new bytes.new.items) }
    ensures overflow { result ≡ Err Error.Overflow → O.greatest < last_of offsets.old
        + total (rows_from (row_chosen (option_copied validity.entry) bits.now
        (pieces left.entry.0.now left.entry.1.now) (pieces right.entry.0.now right.entry.1.now)) (64 * j) count) }
    ensures others { IfErr result IsGrowthError }
{
    prove!(j < bits.len());
    let word = bits.word(j);
    if word == 0 {
        append_run(offsets, bytes, right, validity, WORD_BITS * j, count)
    } else if word == u64::MAX {
        append_run(offsets, bytes, left, validity, WORD_BITS * j, count)
    } else {
        append_rows(offsets, bytes, bits, validity, left, right, j, count)
    }
}

// Appends `count` rows of one side from row `start` on.
fn append_run<O: Offset>(
    offsets: &mut Offsets<O>,
    bytes: &mut Vec<u8>,
    rows: Lent<'_, O>,
    validity: Option<&Bitmap>,
    start: usize,
    count: usize,
) -> Result<(), Error>
    requires part { start + count < length rows.0.now }
    requires within { last_of rows.0.now ≤ length rows.1.now }
    requires covered { IfSome (option_copied validity) (λ bits. start + count ≤ length bits) }
    ensures ok { OnOk result (AppendsRows
        (rows_from (row_under (option_copied validity.entry)
        (pieces rows.entry.0.now rows.entry.1.now)) start count)
        offsets.old bytes.old.items offsets.new bytes.new.items) }
    ensures overflow { result ≡ Err Error.Overflow → O.greatest < last_of offsets.old
        + total (rows_from (row_under (option_copied validity.entry)
        (pieces rows.entry.0.now rows.entry.1.now)) start count) }
    ensures others { IfErr result IsGrowthError }
{
    match validity {
        None => append_all(offsets, bytes, rows, start, count),
        Some(validity) => append_valid(offsets, bytes, rows, validity, start, count),
    }
}

// The same where no row is null: one copy.
#[tactic(auto, using(crate::proofs::ChosenRuns::run_total, crate::proofs::Common::passed_on))]
fn append_all<O: Offset>(
    offsets: &mut Offsets<O>,
    bytes: &mut Vec<u8>,
    rows: Lent<'_, O>,
    start: usize,
    count: usize,
) -> Result<(), Error>
    requires part { start + count < length rows.0.now }
    requires within { last_of rows.0.now ≤ length rows.1.now }
    ensures ok { OnOk result (AppendsRows
        (rows_from (row_under None (pieces rows.entry.0.now rows.entry.1.now)) start count)
        offsets.old bytes.old.items offsets.new bytes.new.items) }
    ensures overflow { result ≡ Err Error.Overflow → O.greatest < last_of offsets.old
        + total (rows_from (row_under None (pieces rows.entry.0.now rows.entry.1.now)) start count) }
    ensures others { IfErr result IsGrowthError }
{
    let (ends, values) = rows;
    prove!(start < ends.len());
    let (first, end) = ends.range(start, count);
    offsets.try_extend_from_slice(ends, start, count)?;
    append_span(bytes, values, first, end, values.len(), BLOCK)
}

// The same under a validity: a copy for each run of valid rows.
#[tactic(auto, using(crate::proofs::ChosenRuns::valid_total, crate::proofs::Common::passed_on))]
fn append_valid<O: Offset>(
    offsets: &mut Offsets<O>,
    bytes: &mut Vec<u8>,
    rows: Lent<'_, O>,
    validity: &Bitmap,
    start: usize,
    count: usize,
) -> Result<(), Error>
    requires part { start + count < length rows.0.now }
    requires within { last_of rows.0.now ≤ length rows.1.now }
    requires covered { start + count ≤ length validity.now }
    ensures ok { OnOk result (AppendsRows
        (rows_from (row_under (Some validity.now) (pieces rows.entry.0.now rows.entry.1.now)) start count)
        offsets.old bytes.old.items offsets.new bytes.new.items) }
    ensures overflow { result ≡ Err Error.Overflow → O.greatest < last_of offsets.old
        + total (rows_from (row_under (Some validity.now) (pieces rows.entry.0.now rows.entry.1.now)) start
        count) }
    ensures others { IfErr result IsGrowthError }
{
    let (ends, values) = rows;
    prove!(start < ends.len());
    offsets.try_extend_from_valid(ends, validity, start, count)?;
    append_valid_bytes(bytes, ends, values, validity, start, count)
}

// Appends the bytes of those of `count` rows from row `start` on whose bit is set, a run of them at a time.
fn append_valid_bytes<O: Offset>(
    bytes: &mut Vec<u8>,
    ends: &OffsetsBuffer<O>,
    values: &[u8],
    validity: &Bitmap,
    start: usize,
    count: usize,
) -> Result<(), Error>
    requires part { start + count < length ends.now }
    requires within { last_of ends.now ≤ length values.now }
    requires covered { start + count ≤ length validity.now }
    ensures ok { OnOk result (bytes.new.items
        ≡ bytes.old.items ++ valid_values (sliced validity.now start count) ends.now values.now start) }
    ensures err { IsOkUnless result Error.OutOfMemory }
{
    prove!(start < ends.len());
    let mut left = validity.runs(start, count);
    let until = start + count;
    let mut row = start;
    while row < until {
        let (unset, set) = left.next_set();
        row += unset;
        let (first, end) = ends.range(row, set);
        append_span(bytes, values, first, end, values.len(), BLOCK)?;
        row += set;
    }
    Ok(())
}

// Appends the rows that the bits of a word choose, one by one. No branch depends on a bit.
fn append_rows<O: Offset>(
    offsets: &mut Offsets<O>,
    bytes: &mut Vec<u8>,
    bits: &Bitmap,
    validity: Option<&Bitmap>,
    left: Lent<'_, O>,
    right: Lent<'_, O>,
    j: usize,
    count: usize,
) -> Result<(), Error>
    requires some { 0 < count }
    requires in_word { count ≤ 64 }
    requires part { 64 * j + count ≤ length bits.now }
    requires left { IsLent left.0.now (length left.1.now) (length bits.now) }
    requires right { IsLent right.0.now (length right.1.now) (length bits.now) }
    requires fits { FitsRows (option_copied validity) (length bits.now) }
    ensures ok { OnOk result (AppendsRows
        (rows_from (row_chosen (option_copied validity.entry) bits.now
        (pieces left.entry.0.now left.entry.1.now) (pieces right.entry.0.now right.entry.1.now)) (64 * j) count)
        offsets.old bytes.old.items offsets.new bytes.new.items) }
    ensures overflow { result ≡ Err Error.Overflow → O.greatest < last_of offsets.old
        + total (rows_from (row_chosen (option_copied validity.entry) bits.now
        (pieces left.entry.0.now left.entry.1.now) (pieces right.entry.0.now right.entry.1.now)) (64 * j) count) }
    ensures others { IfErr result IsGrowthError }
{
    prove!(j < bits.len());
    prove!(0 < offsets.len());
    let (word, valid) = (bits.word(j), valid_word(validity, j));
    for k in 0..count {
        let side = either(word >> k & 1 == 1, left, right);
        append_row(
            offsets,
            bytes,
            side.0,
            side.1,
            WORD_BITS * j + k,
            valid >> k & 1 == 1,
        )?;
    }
    Ok(())
}

// Appends a row of bytes, without any where it is not valid.
#[inline(always)]
fn append_row<O: Offset>(
    offsets: &mut Offsets<O>,
    bytes: &mut Vec<u8>,
    rows: &OffsetsBuffer<O>,
    values: &[u8],
    row: usize,
    is_valid: bool,
) -> Result<(), Error>
    requires row { row + 1 < length rows.now }
    requires within { last_of rows.now ≤ length values.now }
    ensures ok { OnOk result (AppendsRows
        ((if is_valid then slice_index_or (pieces rows.now values.now) row [] else []) ∷ [])
        offsets.old bytes.old.items offsets.new bytes.new.items) }
    ensures overflow { result ≡ Err Error.Overflow → O.greatest < last_of offsets.old
        + length (if is_valid then slice_index_or (pieces rows.now values.now) row [] else []) }
    ensures others { IfErr result IsGrowthError }
{
    let (first, end) = rows.start_end(row);
    let end = end_if(is_valid, first, end);
    offsets.try_push_usize(end - first)?;
    append_span(bytes, values, first, end, values.len(), BLOCK)
}

// Where a row ends, or where it begins where it is not valid. That is a choice of values and no branch.
#[inline(always)]
fn end_if(is_valid: bool, first: usize, end: usize) -> usize
    ensures { result ≡ (if is_valid then end else first) }
{
    if is_valid { end } else { first }
}
