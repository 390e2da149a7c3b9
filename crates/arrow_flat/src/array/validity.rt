//! What arrays do with their validity: a bit for each row, set where the row is valid. Without it no
//! row is null ("Validity bitmaps").

ghost use Rattle.std.specs.Prelude.{◌≡◌, ◌+◌, ◌*◌, ◌≤◌, ◌<◌, ◌↔◌, ◌==◌, ℕ, length, replicate, true, IsTrue, IfSome, option_map, List, count_by, not, slice_index_or, option_copied, IfOk, IsOkUnless};
ghost use Rattle.std.specs.Int.{bit_at};
ghost use Rattle.arrow_types.specs.Relation.{is_null};
ghost use Rattle.arrow_types.specs.declared.error.Error.{Error};
ghost use Rattle.arrow_types.specs.Rows.{valid_at};
ghost use Rattle.arrow_types.specs.Slot.{Slot, Null};
ghost use Rattle.arrow_memory.specs.Sliced.{sliced};
ghost use Rattle.arrow_flat.specs.Parts.{FitsRows, unset_in, bits_of_slice, HasRow, MarksNulls};
ghost use Rattle.arrow_flat.specs.Validities.{AreOneLength, combined};

use arrow_memory::bitmap::Bitmap;
use arrow_types::error::Error;
use std::alloc::Global;

/// Whether a validity, where there is one, has a bit for each of so many rows.
pub fn fits_rows(validity: &Option<Bitmap>, len: usize) -> bool
    ensures { IsTrue result ↔ FitsRows validity.now len }
{
    match validity {
        None => true,
        Some(validity) => validity.len() == len,
    }
}

/// Whether row `i` is valid.
///
/// # Requires
/// Where there are bits, `i` is below their count.
pub fn is_valid(validity: &Option<Bitmap>, i: usize) -> bool
    requires { IfSome validity.now (λ bits. i < length bits) }
    ensures { result ≡ valid_at validity.now i }
{
    match validity {
        None => true,
        Some(validity) => validity.get_bit(i),
    }
}

/// Whether row `i` of the array whose validity it is is valid.
///
/// # Requires
/// The validity marks the nulls of some rows, and `i` is below their count.
pub fn row_is_valid(validity: Option<&Bitmap>, i: usize) -> bool
    requires { HasRow (option_copied validity) i }
    ensures { (rows : List Slot) → MarksNulls (option_copied validity.entry) rows → i < length rows → result
        ≡ not (is_null (slice_index_or rows i Null)) }
{
    match validity {
        None => true,
        Some(bits) => bits.get_bit(i),
    }
}

/// How many rows of the array whose validity it is are null, counted a word at a time.
pub fn null_count(validity: Option<&Bitmap>) -> usize
    ensures { (rows : List Slot) → MarksNulls (option_copied validity.entry) rows → result
        ≡ count_by is_null rows }
{
    match validity {
        None => 0,
        Some(bits) => bits.unset_bits(),
    }
}

/// Which of the 64 rows from row `64 * j` on are valid, a bit each: all where there is no validity. Bits past its end may
/// be either.
pub fn valid_word(validity: Option<&Bitmap>, j: usize) -> u64
    ensures { (k : ℕ) → k < 64 → IfSome (option_copied validity.entry) (λ bits. 64 * j + k < length bits)
        → (bit_at result k == 1) ≡ valid_at (option_copied validity.entry) (64 * j + k) }
{
    match validity {
        Some(bits) => bits.word(j),
        None => u64::MAX,
    }
}

/// How many bits are not set, counted a word at a time: none where there is no validity.
pub fn unset_bits(validity: &Option<Bitmap>) -> usize
    ensures { result ≡ unset_in validity.now }
{
    match validity {
        None => 0,
        Some(validity) => validity.unset_bits(),
    }
}

/// Keeps the bits of `len` rows from row `offset` on.
///
/// # Requires
/// Where there are bits, `offset + len` is at most their count.
pub fn slice(validity: &mut Option<Bitmap>, offset: usize, len: usize)
    requires { IfSome validity.old (λ bits. offset + len ≤ length bits) }
    ensures { validity.new ≡ option_map (λ bits. sliced bits offset len) validity.old }
{
    if let Some(validity) = validity {
        validity.slice(offset, len);
    }
}

// Whether of `len` rows from row `start` on the same ones are null as of others from row
// `other_start` on, compared a word at a time.
pub(crate) fn equal_range(
    validity: &Option<Bitmap>,
    start: usize,
    other: &Option<Bitmap>,
    other_start: usize,
    len: usize,
) -> bool
    requires here { IfSome validity.now (λ bits. start + len ≤ length bits) }
    requires there { IfSome other.now (λ bits. other_start + len ≤ length bits) }
    ensures { IsTrue result ↔ (bits_of_slice validity.now start len
        ≡ bits_of_slice other.now other_start len) }
{
    match (validity, other) {
        (None, None) => true,
        (Some(bits), None) => are_set(bits, start, len),
        (None, Some(others)) => are_set(others, other_start, len),
        (Some(bits), Some(others)) => bits.equal_range(start, others, other_start, len),
    }
}

// Whether `len` bits from bit `start` on are set.
fn are_set(bits: &Bitmap, start: usize, len: usize) -> bool
    requires { start + len ≤ length bits.now }
    ensures { IsTrue result ↔ (sliced bits.now start len ≡ replicate len true) }
{
    // A place is a `usize`, as the count of bits is.
    let _ = bits.len();
    if len == 0 {
        return true;
    }
    let (is_set, end) = bits.run_at(start, start + len);
    is_set && end == start + len
}

// Whether row `start` is valid, and how many rows from there on are as it is, of `len` rows.
pub(crate) fn run_at(validity: &Option<Bitmap>, start: usize, len: usize) -> (bool, usize)
    requires some { 0 < len }
    requires within { IfSome validity.now (λ bits. start + len ≤ length bits) }
    ensures some { 0 < result.1 }
    ensures within { result.1 ≤ len }
    ensures run { bits_of_slice validity.now start result.1 ≡ replicate result.1 result.0 }
{
    match validity {
        None => (true, len),
        Some(bits) => {
            // A place is a `usize`, as the count of bits is.
            let _ = bits.len();
            let (is_valid, end) = bits.run_at(start, start + len);
            (is_valid, end - start)
        }
    }
}

/// A clone of a validity, which shares its bits.
///
/// # Errors
/// `OutOfMemory` where the count of owners is full.
#[inline(always)]
pub fn shared(validity: Option<&Bitmap>) -> Result<Option<Bitmap>, Error>
    ensures ok { IfOk result (λ copy. copy ≡ option_copied validity.entry) }
    ensures err { IsOkUnless result Error.OutOfMemory }
{
    match validity {
        None => Ok(None),
        Some(bits) => Ok(Some(bits.clone()?)),
    }
}

/// The validity of rows that are null where a row of either side is: the bits that are set in both. One that is absent
/// marks no row as null, and where both are there is none. A copy of one side shares its bits.
///
/// # Requires
/// Two that are both there have as many bits.
///
/// # Errors
/// `OutOfMemory` where memory is refused.
///
/// Source: arrow2's `combine_validities`.
pub fn combine_validities(
    alloc: Global,
    lhs: Option<&Bitmap>,
    rhs: Option<&Bitmap>,
) -> Result<Option<Bitmap>, Error>
    requires { AreOneLength (option_copied lhs) (option_copied rhs) }
    ensures ok { IfOk result (λ validity. validity
        ≡ combined (option_copied lhs.entry) (option_copied rhs.entry)) }
    ensures err { IsOkUnless result Error.OutOfMemory }
{
    match (lhs, rhs) {
        (Some(lhs), Some(rhs)) => Ok(Some(lhs.and(alloc, rhs)?)),
        (None, _) => shared(rhs),
        (_, None) => shared(lhs),
    }
}
