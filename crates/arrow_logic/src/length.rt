//! How many bytes each text of an array has.

ghost use Rattle.std.specs.Prelude.{◌≡◌, ◌<◌, ◌+◌, ◌-◌, ◌*◌, ◌-ℤ◌, ◌≤ℤ◌, ◌≤◌, ◌++◌, ◌==◌, ◌↔◌, Err, ℕ, pos, length, map, option_copied, IfOk, IfErr, IsOkUnless, IsTrue, if◌then◌else◌};
ghost use Rattle.std.specs.Int.{bit_at};
ghost use Rattle.std.specs.List.{range_with_len};
ghost use Rattle.std.specs.Vec.{vec_len, vec_capacity};
ghost use Rattle.arrow_types.specs.declared.datatypes.physical_type.PhysicalType.TheVariants as physical;
ghost use Rattle.arrow_types.specs.declared.error.ArgumentFault.{ArgumentFault};
ghost use Rattle.arrow_types.specs.declared.error.Error.{Error};
ghost use Rattle.arrow_types.specs.Part.{bytes_of};
ghost use Rattle.arrow_types.specs.Slot.{Text as text};
ghost use Rattle.arrow_types.specs.TypeOf.{type_of};
ghost use Rattle.arrow_flat.specs.ByteRows.{byte_slots, row_bytes};
ghost use Rattle.arrow_flat.specs.Faults.{IsCarriedAs};
ghost use Rattle.arrow_flat.specs.Parts.{rows_by};
ghost use Rattle.arrow_arrays.specs.Any.{any_array_type, any_array_rows};
ghost use Rattle.arrow_logic.specs.Kept.{kept};
ghost use Rattle.arrow_memory.specs.Ends.{word_length};
ghost use Rattle.arrow_logic.specs.Length.{HasBitsFrom, HasLength, IsLengthRefusal, length_type, stored_length, stored_numbers};

use arrow_arrays::array::AnyArray;
use arrow_flat::array::validity::shared;
use arrow_flat::array::{AnyPrimitive, PrimitiveArray, Utf8Array};
use arrow_memory::bitmap::{Bitmap, WORD_BITS};
use arrow_memory::buffer::Buffer;
use arrow_memory::offset::OffsetsBuffer;
use arrow_types::datatypes::DataType;
use arrow_types::error::{ArgumentFault, Error};
use arrow_types::types::Offset;
use std::alloc::Global;

/// Half as many bits as a word has.
const HALF_BITS: usize = 32;

/// How many bytes each text has: an array of `Int32` of one of `Utf8`, and of `Int64` of one of `LargeUtf8`, null where
/// the text is. Beneath a null 0 is stored, whatever lies beneath it there.
///
/// # Errors
/// `InvalidArgumentError(LengthType)` exactly where the data type is neither, as that of an extension around one, and
/// `OutOfMemory` where memory is refused.
///
/// Source: arrow2's `length::length`.
pub fn length(alloc: Global, array: &AnyArray) -> Result<AnyArray, Error>
    ensures array_type { IfOk result (λ lengths. any_array_type lengths
        ≡ length_type (any_array_type array.now)) }
    ensures rows { IfOk result (λ lengths. any_array_rows lengths ≡ map bytes_of (any_array_rows array.now)) }
    ensures stored { IfOk result (λ lengths. stored_numbers lengths
        ≡ map stored_length (any_array_rows array.now)) }
    ensures refused { (result ≡ Err (Error.InvalidArgumentError ArgumentFault.LengthType))
        ↔ (HasLength (any_array_type array.now) → ⊥) }
    ensures others { IfErr result IsLengthRefusal }
{
    if !can_length(array.data_type()) {
        return Err(Error::InvalidArgumentError(ArgumentFault::LengthType));
    }
    match array {
        AnyArray::Utf8(texts) => {
            let lengths = lengths_of(alloc, texts, DataType::Int32)?;
            Ok(AnyArray::Primitive(AnyPrimitive::Int32(lengths)))
        }
        AnyArray::LargeUtf8(texts) => {
            let lengths = lengths_of(alloc, texts, DataType::Int64)?;
            Ok(AnyArray::Primitive(AnyPrimitive::Int64(lengths)))
        }
        _ => unreachable!(),
    }
}

/// Whether `length` can be asked of arrays of a data type: whether it is `Utf8` or `LargeUtf8`. Then [`length`] never
/// answers `InvalidArgumentError`. It takes no memory.
///
/// Source: arrow2's `length::can_length`.
pub fn can_length(data_type: &DataType) -> bool
    ensures { IsTrue result ↔ HasLength (type_of data_type.now) }
{
    matches!(data_type, DataType::Utf8 | DataType::LargeUtf8)
}

// The lengths of the texts, as an array of this data type.
fn lengths_of<O: Offset>(
    alloc: Global,
    texts: &Utf8Array<O>,
    data_type: DataType,
) -> Result<PrimitiveArray<O>, Error>
    requires { IsCarriedAs (physical.Primitive O.PRIMITIVE) (type_of data_type) }
    ensures array_type { IfOk result (λ lengths. lengths.arrow_type ≡ type_of data_type) }
    ensures rows { IfOk result (λ lengths. rows_by (map O.slot) lengths
        ≡ map bytes_of (rows_by (byte_slots text) texts.now)) }
    ensures stored { IfOk result (λ lengths. map O.slot lengths.values
        ≡ map stored_length (rows_by (byte_slots text) texts.now)) }
    ensures err { IsOkUnless result Error.OutOfMemory }
{
    let lengths = stored_lengths(alloc, texts)?;
    let lengths = Buffer::from_vec(alloc, lengths)?;
    let validity = shared(texts.validity())?;
    Ok(PrimitiveArray::new(data_type, lengths, validity))
}

// How many bytes each row has, and 0 for each null. Where there is no validity, the loop that is compiled tests for none.
fn stored_lengths<O: Offset>(alloc: Global, texts: &Utf8Array<O>) -> Result<Vec<O>, Error>
    ensures ok { IfOk result (λ lengths. map O.number lengths.items
        ≡ map pos (kept 0 length texts.now.validity (row_bytes texts.now.values))) }
    ensures err { IsOkUnless result Error.OutOfMemory }
{
    match texts.validity() {
        None => lengths_under(alloc, texts, None),
        Some(validity) => lengths_under(alloc, texts, Some(validity)),
    }
}

// The same under the validity of the texts: by one pass over the offsets, 64 rows at a time.
#[inline(always)]
fn lengths_under<O: Offset>(
    alloc: Global,
    texts: &Utf8Array<O>,
    validity: Option<&Bitmap>,
) -> Result<Vec<O>, Error>
    requires { option_copied validity ≡ texts.now.validity }
    ensures ok { IfOk result (λ lengths. map O.number lengths.items
        ≡ map pos (kept 0 length texts.now.validity (row_bytes texts.now.values))) }
    ensures err { IsOkUnless result Error.OutOfMemory }
{
    // The rows lie in the values as the offsets say, and are as many as the bits of their validity.
    let (_, _) = (texts.values(), texts.validity());
    let offsets = texts.offsets();
    let count = offsets.len() - 1;
    let mut lengths = Vec::with_capacity(alloc, count)?;
    let mut row = 0;
    while row < count {
        let word = word_of_rows(validity, row / WORD_BITS);
        let rows = WORD_BITS.min(count - row);
        append_lengths(&mut lengths, offsets, row, word, rows);
        row += rows;
    }
    Ok(lengths)
}

// A bit for each of 64 rows from row `64 * j` on, set where the row is valid.
#[inline(always)]
fn word_of_rows(validity: Option<&Bitmap>, j: usize) -> u64
    ensures { HasBitsFrom (64 * j) (option_copied validity.entry) result }
{
    match validity {
        Some(validity) => validity.word(j),
        None => u64::MAX,
    }
}

// Appends how many bytes each of `count` rows from row `start` on has, and 0 where its bit of the word is not set. There
// is room for them. Those of a whole word are two halves with a count that is known when the program is compiled.
#[inline(always)]
fn append_lengths<O: Offset>(
    lengths: &mut Vec<O>,
    offsets: &OffsetsBuffer<O>,
    start: usize,
    word: u64,
    count: usize,
)
    requires in_word { count ≤ 64 }
    requires within { start + count < length offsets.now }
    requires room { vec_len lengths.old + count ≤ vec_capacity lengths.old }
    ensures items { map O.number lengths.new.items ≡ map O.number lengths.old.items
        ++ map (λ k. pos (word_length word offsets.now start k)) (range_with_len 0 count) }
    ensures len { vec_len lengths.new ≡ vec_len lengths.old + count }
    ensures capacity { vec_capacity lengths.new ≡ vec_capacity lengths.old }
{
    // The places of rows are below 2 ^ 64.
    let _ = offsets.len();
    if count == WORD_BITS {
        append_half(lengths, offsets, start, word, 0, HALF_BITS);
        append_half(lengths, offsets, start, word, HALF_BITS, HALF_BITS);
    } else {
        let first = count.min(HALF_BITS);
        append_half(lengths, offsets, start, word, 0, first);
        append_half(lengths, offsets, start, word, first, count - first);
    }
}

// The same of the rows of 32 bits at most, from bit `first` on. No branch depends on a bit, so that several rows are
// measured at once.
#[inline(always)]
fn append_half<O: Offset>(
    lengths: &mut Vec<O>,
    offsets: &OffsetsBuffer<O>,
    start: usize,
    word: u64,
    first: usize,
    count: usize,
)
    requires in_word { first ≤ 32 }
    requires in_half { count ≤ 32 }
    requires within { start + first + count < length offsets.now }
    requires room { vec_len lengths.old + count ≤ vec_capacity lengths.old }
    ensures items { map O.number lengths.new.items ≡ map O.number lengths.old.items
        ++ map (λ k. pos (word_length word offsets.now start k)) (range_with_len first count) }
    ensures len { vec_len lengths.new ≡ vec_len lengths.old + count }
    ensures capacity { vec_capacity lengths.new ≡ vec_capacity lengths.old }
{
    prove!(start < offsets.len());
    // Where a row ends is at most the greatest offset of the type.
    let _ = offsets.range(start + first, count);
    let half = half_of(word, first);
    let offsets = offsets.buffer();
    for k in 0..count {
        let row = start + first + k;
        let begin = offsets[row];
        let end = offsets[row + 1];
        lengths.push_reserved(length_if(begin, end, half >> k & 1 == 1));
    }
}

// 32 bits of a word.
fn half_of(word: u64, first: usize) -> u32
    requires { first ≤ 32 }
    ensures { (k : ℕ) → k < 32 → (bit_at result k == 1) ≡ (bit_at word (first + k) == 1) }
{
    ((word >> first) % 4_294_967_296) as u32
}

// How long a row is that lies between these offsets: 0 where it is not valid.
fn length_if<O: Offset>(begin: O, end: O, is_valid: bool) -> O
    requires starts { pos 0 ≤ℤ O.number begin }
    requires rises { O.number begin ≤ℤ O.number end }
    requires fits { O.number end ≤ℤ pos O.greatest }
    ensures { O.number result ≡ (if is_valid then O.number end -ℤ O.number begin else pos 0) }
{
    let from = if is_valid { begin } else { end };
    end.shifted(from, O::default())
}
