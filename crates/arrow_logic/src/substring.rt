//! Parts of texts, by characters, and of bytes.

ghost use Rattle.std.specs.Prelude.{◌≡◌, ◌↔◌, ◌<◌, ◌≤◌, ◌+◌, ◌-◌, Err, [], length, map, slice_index, slice_index_or, IfOk, IfErr, IsOkUnless, IsTrue};
ghost use Rattle.std.specs.List.{All};
ghost use Rattle.arrow_types.specs.declared.error.ArgumentFault.{ArgumentFault};
ghost use Rattle.arrow_types.specs.declared.error.Error.{Error};
ghost use Rattle.arrow_types.specs.Part.{part};
ghost use Rattle.arrow_types.specs.TypeOf.{type_of};
ghost use Rattle.arrow_memory.specs.Offsets.{last_of};
ghost use Rattle.arrow_memory.specs.Sliced.{sliced};
ghost use Rattle.arrow_flat.specs.ByteRows.{byte_slots, row_bytes};
ghost use Rattle.arrow_flat.specs.Parts.{FitsRows, rows_by};
ghost use Rattle.arrow_flat.specs.Pieces.{pieces};
ghost use Rattle.arrow_arrays.specs.Any.{any_array_type, any_array_rows};
ghost use Rattle.arrow_logic.specs.Kept.{kept};
ghost use Rattle.arrow_logic.specs.Substring.{HasParts, IsCutByBytes, IsSubstringRefusal};

mod units;

use arrow_arrays::array::AnyArray;
use arrow_flat::array::validity::shared;
use arrow_flat::array::{ByteRows, FlatArray};
use arrow_memory::buffer::Buffer;
use arrow_memory::bytes::append_span;
use arrow_memory::offset::{Offsets, OffsetsBuffer};
use arrow_types::datatypes::DataType;
use arrow_types::error::{ArgumentFault, Error};
use arrow_types::types::Offset;
use std::alloc::Global;
use units::{Units, span_in};

/// How many bytes a part is copied as where it has no more: one move.
const BLOCK: usize = 16;

/// Rows of fewer bytes than these on average are all read once: that costs less than to look for characters in each.
const SHORT: usize = 32;

/// A part of each row, in an array of the same type, null where the row is. The unit is a character of a text and a byte
/// of bytes. Of a row of n units the part begins at the smaller of `start` and n, or, where `start` is negative, at
/// `n + start` and at 0 at least. It has at most `length` units, where a length is given. Nothing is stored beneath a
/// null.
///
/// # Errors
/// `InvalidArgumentError(SubstringType)` exactly where the data type is none of `Utf8`, `LargeUtf8`, `Binary` and
/// `LargeBinary`, as that of an extension around one, and `OutOfMemory` where memory is refused.
///
/// Source: arrow2's `substring::substring`.
pub fn substring(
    alloc: Global,
    array: &AnyArray,
    start: i64,
    length: &Option<u64>,
) -> Result<AnyArray, Error>
    ensures array_type { IfOk result (λ parts. any_array_type parts ≡ any_array_type array.now) }
    ensures rows { IfOk result (λ parts. any_array_rows parts
        ≡ map (part start length.now) (any_array_rows array.now)) }
    ensures refused { (result ≡ Err (Error.InvalidArgumentError ArgumentFault.SubstringType))
        ↔ (HasParts (any_array_type array.now) → ⊥) }
    ensures others { IfErr result IsSubstringRefusal }
{
    if !can_substring(array.data_type()) {
        return Err(Error::InvalidArgumentError(ArgumentFault::SubstringType));
    }
    match array {
        AnyArray::Utf8(rows) => Ok(AnyArray::Utf8(parts_of(alloc, rows, start, *length)?)),
        AnyArray::LargeUtf8(rows) => {
            Ok(AnyArray::LargeUtf8(parts_of(alloc, rows, start, *length)?))
        }
        AnyArray::Binary(rows) => Ok(AnyArray::Binary(parts_of(alloc, rows, start, *length)?)),
        AnyArray::LargeBinary(rows) => {
            Ok(AnyArray::LargeBinary(parts_of(alloc, rows, start, *length)?))
        }
        _ => unreachable!(),
    }
}

/// Whether `substring` can be asked of arrays of a data type: whether it is one of texts or of bytes of any length. Then
/// [`substring`] never answers `InvalidArgumentError`. It takes no memory.
///
/// Source: arrow2's `substring::can_substring`.
pub fn can_substring(data_type: &DataType) -> bool
    ensures { IsTrue result ↔ HasParts (type_of data_type.now) }
{
    matches!(
        data_type,
        DataType::Utf8 | DataType::LargeUtf8 | DataType::Binary | DataType::LargeBinary
    )
}

// The parts of rows of one kind.
fn parts_of<O: Offset, K: Units>(
    alloc: Global,
    rows: &FlatArray<ByteRows<O, K>>,
    start: i64,
    count: Option<u64>,
) -> Result<FlatArray<ByteRows<O, K>>, Error>
    ensures array_type { IfOk result (λ parts. parts.arrow_type ≡ rows.now.arrow_type) }
    ensures rows { IfOk result (λ parts. rows_by (byte_slots K.slot) parts
        ≡ map (part start count) (rows_by (byte_slots K.slot) rows.now)) }
    ensures err { IsOkUnless result Error.OutOfMemory }
{
    // The rows lie in the values as the offsets say, and each is of its kind.
    let _ = rows.values();
    let (offsets, bytes) = copy_parts(alloc, rows, start, count)?;
    let bytes = Buffer::from_vec(alloc, bytes)?;
    let validity = shared(rows.validity())?;
    let data_type = rows.data_type().clone()?;
    Ok(FlatArray::<ByteRows<O, K>>::new(data_type, offsets, bytes, validity))
}

// Where the parts end, and their bytes, one behind the other. There is room for the bytes of all rows from the first on.
fn copy_parts<O: Offset, K: Units>(
    alloc: Global,
    rows: &FlatArray<ByteRows<O, K>>,
    start: i64,
    count: Option<u64>,
) -> Result<(OffsetsBuffer<O>, Vec<u8>), Error>
    ensures parts { IfOk result (λ made. pieces made.0 made.1.items
        ≡ kept [] (K.cut start count) rows.now.validity (row_bytes rows.now.values)) }
    ensures within { IfOk result (λ made. last_of made.0 ≡ length made.1.items) }
    ensures long { IfOk result (λ made. length made.0 ≡ length rows.now.values.offsets) }
    ensures err { IsOkUnless result Error.OutOfMemory }
{
    // Each has a loop of its own, in which it is known how parts are found.
    if have_bytes_as_units(rows) {
        copy_parts_by(alloc, rows, start, count, true)
    } else {
        copy_parts_by(alloc, rows, start, count, false)
    }
}

// The same, by bytes where that is known to do.
#[inline(always)]
fn copy_parts_by<O: Offset, K: Units>(
    alloc: Global,
    rows: &FlatArray<ByteRows<O, K>>,
    start: i64,
    count: Option<u64>,
    by_bytes: bool,
) -> Result<(OffsetsBuffer<O>, Vec<u8>), Error>
    requires by_bytes { IsTrue by_bytes → All (IsCutByBytes K.cut) (row_bytes rows.now.values) }
    ensures parts { IfOk result (λ made. pieces made.0 made.1.items
        ≡ kept [] (K.cut start count) rows.now.validity (row_bytes rows.now.values)) }
    ensures within { IfOk result (λ made. last_of made.0 ≡ length made.1.items) }
    ensures long { IfOk result (λ made. length made.0 ≡ length rows.now.values.offsets) }
    ensures err { IsOkUnless result Error.OutOfMemory }
{
    // The validity has a bit for each row.
    let _ = rows.validity();
    let offsets = rows.offsets();
    let len = offsets.len() - 1;
    let (first, end) = offsets.range(0, len);
    let mut ends = Offsets::with_capacity(alloc, len)?;
    let mut bytes = Vec::with_capacity(alloc, (end - first).saturating_add(BLOCK))?;
    let from = rows.values().as_slice();
    for row in 0..len {
        let (begin, end) = span_of(rows, row, start, count, by_bytes);
        append_span(&mut bytes, from, begin, end, from.len(), BLOCK)?;
        ends.try_push_usize(end - begin)?;
    }
    Ok((ends.into_buffer()?, bytes))
}

// Whether each unit of the rows is known to be a byte: one pass over their bytes, where these are few.
fn have_bytes_as_units<O: Offset, K: Units>(rows: &FlatArray<ByteRows<O, K>>) -> bool
    ensures { IsTrue result → All (IsCutByBytes K.cut) (row_bytes rows.now.values) }
{
    let offsets = rows.offsets();
    let len = offsets.len() - 1;
    let (first, end) = offsets.range(0, len);
    if (end - first) / SHORT >= len {
        return false;
    }
    K::are_bytes(&rows.values().as_slice()[first..end])
}

// Where the bytes of the part of a row lie: nowhere of a null.
#[inline(always)]
fn span_of<O: Offset, K: Units>(
    rows: &FlatArray<ByteRows<O, K>>,
    row: usize,
    start: i64,
    count: Option<u64>,
    by_bytes: bool,
) -> (usize, usize)
    requires within { row + 1 < length rows.now.values.offsets }
    requires fits { FitsRows rows.now.validity (length rows.now.values.offsets - 1) }
    requires by_bytes { IsTrue by_bytes → All (IsCutByBytes K.cut) (row_bytes rows.now.values) }
    ensures rises { result.0 ≤ result.1 }
    ensures within { result.1 ≤ length rows.now.values.bytes }
    ensures part { sliced rows.now.values.bytes result.0 (result.1 - result.0)
        ≡ slice_index_or (kept [] (K.cut start count) rows.now.validity
        (row_bytes rows.now.values)) row [] }
    ensures few { result.1 - result.0
        ≤ slice_index rows.now.values.offsets (row + 1) - slice_index rows.now.values.offsets row }
{
    if !rows.is_valid(row) {
        return (0, 0);
    }
    let (begin, end) = rows.offsets().start_end(row);
    let from = &rows.values().as_slice()[begin..];
    let (first, last) = span_in::<K>(from, end - begin, start, count, by_bytes);
    (begin + first, begin + last)
}
