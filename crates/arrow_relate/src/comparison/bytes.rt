//! Relations of rows of bytes, of texts and of any bytes alike.

ghost use Rattle.std.specs.Prelude.{◌≡◌, ◌+◌, ◌<◌, ◌≤◌, ℕ, List, Some, length, map, refl, slice_get, slice_index};
ghost use Rattle.std.specs.Ordering.{is_eq};
ghost use Rattle.std.specs.Slice.Scan.{IsFirstPlace, differ};
ghost use Rattle.arrow_types.specs.declared.error.Error.{Error};
ghost use Rattle.arrow_types.specs.Relation.{Relation as RowRelation, byte_order, holds, related};
ghost use Rattle.arrow_types.specs.Relation as relation;
ghost use Rattle.arrow_types.specs.Slot.{Boolean};
ghost use Rattle.arrow_flat.specs.ByteRows.{byte_slots, row_bytes};
ghost use Rattle.arrow_flat.specs.Parts.{rows_by};
ghost use Rattle.arrow_flat.specs.RowByRow.{row_by_row};
ghost use Rattle.arrow_relate.specs.Related.{relation_of};
ghost use Rattle.arrow_relate.specs.Same.{differs, is_same};
ghost use Rattle.arrow_flat.specs.Truths.{AnswersTruths};

use crate::fixed::{Equal, FixedRelation, Greater, GreaterOrEqual, Less, LessOrEqual, NotEqual};
use crate::relation::Relation;
use crate::stored::{RelatedBy, RelatedToScalar, relate_by, same_by};
use arrow_flat::array::{Binary, BooleanArray, ByteKind, ByteRows, FlatArray, Text};
use arrow_memory::bitmap::Bitmap;
use arrow_types::error::Error;
use arrow_types::types::{Index, Offset};
use std::alloc::Global;
use std::cmp::Ordering;
use std::marker::{Model, PhantomData};
use std::simd::prelude::*;

/// How many bytes are compared at once.
const BLOCK: usize = 16;

/// Whether each row of the left side equals that of the right one, and null where one of the two is.
///
/// # Requires
/// Both have as many rows.
///
/// # Errors
/// `OutOfMemory` where memory is refused.
///
/// Source: arrow2's `comparison::utf8::eq` and `comparison::binary::eq`.
pub fn eq<O: Offset, K: ComparedBytes>(
    alloc: Global,
    lhs: &FlatArray<ByteRows<O, K>>,
    rhs: &FlatArray<ByteRows<O, K>>,
) -> Result<BooleanArray, Error>
    requires { length (rows_by (byte_slots K.slot) lhs.now) ≡ length (rows_by (byte_slots K.slot) rhs.now) }
    ensures { AnswersTruths result
        (row_by_row (related relation.eq) (rows_by (byte_slots K.slot) lhs.now)
        (rows_by (byte_slots K.slot) rhs.now)) }
{
    relate_by::<Equal, _>(alloc, lhs, rhs)
}

/// Whether the rows of both sides are the same: two nulls are, and a null and a value are not. No row is null.
///
/// # Requires
/// Both have as many rows.
///
/// # Errors
/// `OutOfMemory` where memory is refused.
///
/// Source: arrow2's `comparison::utf8::eq_and_validity` and `comparison::binary::eq_and_validity`.
pub fn eq_and_validity<O: Offset, K: ComparedBytes>(
    alloc: Global,
    lhs: &FlatArray<ByteRows<O, K>>,
    rhs: &FlatArray<ByteRows<O, K>>,
) -> Result<BooleanArray, Error>
    requires { length (rows_by (byte_slots K.slot) lhs.now) ≡ length (rows_by (byte_slots K.slot) rhs.now) }
    ensures { AnswersTruths result
        (row_by_row is_same (rows_by (byte_slots K.slot) lhs.now) (rows_by (byte_slots K.slot) rhs.now)) }
{
    same_by::<Equal, _>(alloc, lhs, rhs)
}

/// Whether each row of the left side differs from that of the right one, and null where one of the two is.
///
/// # Requires
/// Both have as many rows.
///
/// # Errors
/// `OutOfMemory` where memory is refused.
///
/// Source: arrow2's `comparison::utf8::neq` and `comparison::binary::neq`.
pub fn neq<O: Offset, K: ComparedBytes>(
    alloc: Global,
    lhs: &FlatArray<ByteRows<O, K>>,
    rhs: &FlatArray<ByteRows<O, K>>,
) -> Result<BooleanArray, Error>
    requires { length (rows_by (byte_slots K.slot) lhs.now) ≡ length (rows_by (byte_slots K.slot) rhs.now) }
    ensures { AnswersTruths result
        (row_by_row (related relation.neq) (rows_by (byte_slots K.slot) lhs.now)
        (rows_by (byte_slots K.slot) rhs.now)) }
{
    relate_by::<NotEqual, _>(alloc, lhs, rhs)
}

/// Whether the rows of both sides differ: the rows of [`eq_and_validity`] turned.
///
/// # Requires
/// Both have as many rows.
///
/// # Errors
/// `OutOfMemory` where memory is refused.
///
/// Source: arrow2's `comparison::utf8::neq_and_validity` and `comparison::binary::neq_and_validity`.
pub fn neq_and_validity<O: Offset, K: ComparedBytes>(
    alloc: Global,
    lhs: &FlatArray<ByteRows<O, K>>,
    rhs: &FlatArray<ByteRows<O, K>>,
) -> Result<BooleanArray, Error>
    requires { length (rows_by (byte_slots K.slot) lhs.now) ≡ length (rows_by (byte_slots K.slot) rhs.now) }
    ensures { AnswersTruths result
        (row_by_row differs (rows_by (byte_slots K.slot) lhs.now) (rows_by (byte_slots K.slot) rhs.now)) }
{
    same_by::<NotEqual, _>(alloc, lhs, rhs)
}

/// Whether each row of the left side comes before that of the right one, and null where one of the two is.
///
/// # Requires
/// Both have as many rows.
///
/// # Errors
/// `OutOfMemory` where memory is refused.
///
/// Source: arrow2's `comparison::utf8::lt` and `comparison::binary::lt`.
pub fn lt<O: Offset, K: ComparedBytes>(
    alloc: Global,
    lhs: &FlatArray<ByteRows<O, K>>,
    rhs: &FlatArray<ByteRows<O, K>>,
) -> Result<BooleanArray, Error>
    requires { length (rows_by (byte_slots K.slot) lhs.now) ≡ length (rows_by (byte_slots K.slot) rhs.now) }
    ensures { AnswersTruths result
        (row_by_row (related relation.lt) (rows_by (byte_slots K.slot) lhs.now)
        (rows_by (byte_slots K.slot) rhs.now)) }
{
    relate_by::<Less, _>(alloc, lhs, rhs)
}

/// Whether each row of the left side does not come after that of the right one, and null where one of the two is.
///
/// # Requires
/// Both have as many rows.
///
/// # Errors
/// `OutOfMemory` where memory is refused.
///
/// Source: arrow2's `comparison::utf8::lt_eq` and `comparison::binary::lt_eq`.
pub fn lt_eq<O: Offset, K: ComparedBytes>(
    alloc: Global,
    lhs: &FlatArray<ByteRows<O, K>>,
    rhs: &FlatArray<ByteRows<O, K>>,
) -> Result<BooleanArray, Error>
    requires { length (rows_by (byte_slots K.slot) lhs.now) ≡ length (rows_by (byte_slots K.slot) rhs.now) }
    ensures { AnswersTruths result
        (row_by_row (related relation.lt_eq) (rows_by (byte_slots K.slot) lhs.now)
        (rows_by (byte_slots K.slot) rhs.now)) }
{
    relate_by::<LessOrEqual, _>(alloc, lhs, rhs)
}

/// Whether each row of the left side comes after that of the right one, and null where one of the two is.
///
/// # Requires
/// Both have as many rows.
///
/// # Errors
/// `OutOfMemory` where memory is refused.
///
/// Source: arrow2's `comparison::utf8::gt` and `comparison::binary::gt`.
pub fn gt<O: Offset, K: ComparedBytes>(
    alloc: Global,
    lhs: &FlatArray<ByteRows<O, K>>,
    rhs: &FlatArray<ByteRows<O, K>>,
) -> Result<BooleanArray, Error>
    requires { length (rows_by (byte_slots K.slot) lhs.now) ≡ length (rows_by (byte_slots K.slot) rhs.now) }
    ensures { AnswersTruths result
        (row_by_row (related relation.gt) (rows_by (byte_slots K.slot) lhs.now)
        (rows_by (byte_slots K.slot) rhs.now)) }
{
    relate_by::<Greater, _>(alloc, lhs, rhs)
}

/// Whether each row of the left side does not come before that of the right one, and null where one of the two is.
///
/// # Requires
/// Both have as many rows.
///
/// # Errors
/// `OutOfMemory` where memory is refused.
///
/// Source: arrow2's `comparison::utf8::gt_eq` and `comparison::binary::gt_eq`.
pub fn gt_eq<O: Offset, K: ComparedBytes>(
    alloc: Global,
    lhs: &FlatArray<ByteRows<O, K>>,
    rhs: &FlatArray<ByteRows<O, K>>,
) -> Result<BooleanArray, Error>
    requires { length (rows_by (byte_slots K.slot) lhs.now) ≡ length (rows_by (byte_slots K.slot) rhs.now) }
    ensures { AnswersTruths result
        (row_by_row (related relation.gt_eq) (rows_by (byte_slots K.slot) lhs.now)
        (rows_by (byte_slots K.slot) rhs.now)) }
{
    relate_by::<GreaterOrEqual, _>(alloc, lhs, rhs)
}

/// Whether each row is so related to that of the right side, and null where one of the two is.
///
/// # Requires
/// Both have as many rows.
///
/// # Errors
/// `OutOfMemory` where memory is refused.
pub fn relate<O: Offset, K: ComparedBytes>(
    alloc: Global,
    by: Relation,
    lhs: &FlatArray<ByteRows<O, K>>,
    rhs: &FlatArray<ByteRows<O, K>>,
) -> Result<BooleanArray, Error>
    requires { length (rows_by (byte_slots K.slot) lhs.now) ≡ length (rows_by (byte_slots K.slot) rhs.now) }
    ensures { AnswersTruths result
        (row_by_row (related (relation_of by)) (rows_by (byte_slots K.slot) lhs.now)
        (rows_by (byte_slots K.slot) rhs.now)) }
{
    by_relation!(by, relate_by::<_, _>(alloc, lhs, rhs))
}

/// A kind of rows that are compared by their bytes.
pub trait ComparedBytes: ByteKind {
    ghost related_slots: { (op : RowRelation) (x y : List ℕ) → related op (Self.slot x) (Self.slot y)
        ≡ Boolean (holds op (byte_order x y)) };
}

impl ComparedBytes for Text {
    ghost related_slots = { λ op x y. refl };
}

impl ComparedBytes for Binary {
    ghost related_slots = { λ op x y. refl };
}

/// A relation of two rows of bytes.
pub(crate) trait ByteTest: FixedRelation {
    /// Whether it holds of them.
    fn of_rows<K: ComparedBytes>(left: &Row<'_>, right: &Row<'_>) -> bool
        ensures { Boolean result ≡ related Self.op (K.slot left.now) (K.slot right.now) }
    {
        Self::holds(order(left, right))
    }
}

// Rows that are not as long differ without a look at their bytes.
impl ByteTest for Equal {
    fn of_rows<K: ComparedBytes>(left: &Row<'_>, right: &Row<'_>) -> bool {
        are_equal(left, right)
    }
}

impl ByteTest for NotEqual {
    fn of_rows<K: ComparedBytes>(left: &Row<'_>, right: &Row<'_>) -> bool {
        !are_equal(left, right)
    }
}

impl ByteTest for Less {}

impl ByteTest for LessOrEqual {}

impl ByteTest for Greater {}

impl ByteTest for GreaterOrEqual {}

// Whether two rows have the same bytes.
fn are_equal(left: &Row<'_>, right: &Row<'_>) -> bool
    ensures { result ≡ is_eq (byte_order left.now right.now) }
{
    if left.len != right.len {
        return false;
    }
    let (from, other) = (left.from, right.from);
    if BLOCK <= from.len() && BLOCK <= other.len() {
        let alike = alike(from, other);
        if left.len <= alike {
            return true;
        }
        if alike < BLOCK {
            return false;
        }
    }
    are_equal_slices(left.bytes(), right.bytes())
}

// The same by the slices, in a call of its own.
#[inline(never)]
fn are_equal_slices(left: &[u8], right: &[u8]) -> bool
    ensures { result ≡ is_eq (byte_order left.now right.now) }
{
    left == right
}

// How two rows compare, by the first byte that differs, unsigned; a beginning comes before what goes on.
fn order(left: &Row<'_>, right: &Row<'_>) -> Ordering
    ensures { result ≡ byte_order left.now right.now }
{
    let (from, other) = (left.from, right.from);
    if BLOCK <= from.len() && BLOCK <= other.len() {
        let both = left.len.min(right.len);
        let alike = alike(from, other);
        if both <= alike {
            return left.len.cmp(&right.len);
        }
        if alike < BLOCK {
            return from[alike].cmp(&other[alike]);
        }
    }
    left.bytes().cmp(right.bytes())
}

// How many bytes of a block are alike, up to the first two that differ.
fn alike(left: &[u8], right: &[u8]) -> usize
    requires left { 16 ≤ length left.now }
    requires right { 16 ≤ length right.now }
    ensures { IsFirstPlace (differ left.now right.now) 0 16 result }
{
    let differ = u8x16::from_slice(left)
        .simd_ne(u8x16::from_slice(right))
        .to_bitmask();
    if differ == 0 {
        return BLOCK;
    }
    differ.trailing_zeros() as usize
}

/// A row, with what lies behind it in its buffer.
#[derive(Drop)]
pub(crate) struct Row<'a> {
    from: &'a [u8],
    len: usize,
}

impl<'a> Model for Row<'a> {
    ghost use Rattle.std.specs.Prelude.{ℕ, ◌≤◌, List, length, take};
    ghost use Rattle.std.specs.Coded.{coded_list, coded_ℕ};

    ghost Value = { List ℕ };

    ghost coded = { coded_list coded_ℕ };

    ghost view = { λ a. take a.len a.from.now };

    ghost invariant = { λ a. a.len ≤ length a.from.now };
}

impl<'a> Row<'a> {
    /// Bytes with none behind them.
    fn whole(bytes: &'a [u8]) -> Row<'a>
        ensures { result ≡ bytes.now }
    {
        Row {
            from: bytes,
            len: bytes.len(),
        }
    }

    /// Its bytes.
    fn bytes(&self) -> &'a [u8]
        ensures { result.now ≡ self.now }
    {
        let from = self.from;
        &from[..self.len]
    }
}

/// Rows of bytes, lent as the slices that hold them.
#[derive(Drop)]
pub(crate) struct LentRows<'a, O: Offset, K: ByteKind> {
    offsets: &'a [O],
    bytes: &'a [u8],
    kind: PhantomData<K>,
}

impl<'a, O: Offset, K: ByteKind> Model for LentRows<'a, O, K> {
    ghost use Rattle.arrow_flat.specs.ByteRows.{ByteParts, byte_parts_code};
    ghost use Rattle.arrow_relate.specs.LentRows.{AreLentRows, lent_parts};

    ghost Value = { ByteParts };

    ghost coded = { byte_parts_code };

    ghost view = { λ a. lent_parts O.number a.offsets.now a.bytes.now };

    ghost invariant = { λ a. AreLentRows O.number K.Allows a.offsets.now a.bytes.now };
}

impl<'a, O: Offset, K: ByteKind> LentRows<'a, O, K> {
    /// The rows of an array, null rows too.
    fn of(array: &'a FlatArray<ByteRows<O, K>>) -> LentRows<'a, O, K>
        ensures { result ≡ array.now.values }
    {
        LentRows {
            offsets: array.offsets().buffer(),
            bytes: array.values().as_slice(),
            kind: PhantomData,
        }
    }

    /// How many there are.
    fn len(&self) -> usize
        ensures { result ≡ length (row_bytes self.now) }
    {
        self.offsets.len() - 1
    }

    /// Row `i`.
    fn row(&self, i: usize) -> Row<'a>
        requires { i < length (row_bytes self.now) }
        ensures { slice_get (row_bytes self.now) i ≡ Some result }
    {
        let bytes = self.bytes;
        let (start, end) = self.start_end(i);
        Row {
            from: &bytes[start..],
            len: end - start,
        }
    }

    /// Where row `i` begins and ends.
    fn start_end(&self, i: usize) -> (usize, usize)
        requires { i + 1 < length self.now.offsets }
        ensures start { result.0 ≡ slice_index self.now.offsets i }
        ensures end { result.1 ≡ slice_index self.now.offsets (i + 1) }
        ensures rises { result.0 ≤ result.1 }
        ensures within { result.1 ≤ length self.now.bytes }
    {
        let offsets = self.offsets;
        (offsets[i].to_usize(), offsets[i + 1].to_usize())
    }
}

// Whether the relation holds of a row of both sides.
fn are_related<'a, R: ByteTest, O: Offset, K: ComparedBytes>(
    left: &LentRows<'a, O, K>,
    right: &LentRows<'a, O, K>,
    row: usize,
) -> bool
    requires left { row < length (row_bytes left.now) }
    requires right { row < length (row_bytes right.now) }
    ensures { slice_get (row_by_row (related R.op) (byte_slots K.slot left.now)
        (byte_slots K.slot right.now)) row ≡ Some (Boolean result) }
{
    R::of_rows::<K>(&left.row(row), &right.row(row))
}

// Whether the relation holds of a row and a scalar.
fn is_related<'a, R: ByteTest, O: Offset, K: ComparedBytes>(
    rows: &LentRows<'a, O, K>,
    scalar: &Row<'_>,
    row: usize,
) -> bool
    requires { row < length (row_bytes rows.now) }
    ensures { slice_get (map (λ s. related R.op s (K.slot scalar.now)) (byte_slots K.slot rows.now)) row
        ≡ Some (Boolean result) }
{
    R::of_rows::<K>(&rows.row(row), scalar)
}

impl<O: Offset, K: ComparedBytes, R: ByteTest> RelatedBy<R> for ByteRows<O, K> {
    fn related_bits(
        alloc: Global,
        lhs: &FlatArray<ByteRows<O, K>>,
        rhs: &FlatArray<ByteRows<O, K>>,
    ) -> Result<Bitmap, Error> {
        // There are as many values as rows.
        let _ = (lhs.len(), rhs.len());
        let (left, right) = (LentRows::of(lhs), LentRows::of(rhs));
        Bitmap::collect_bool(
            alloc,
            left.len(),
            |row| are_related::<R, O, K>(&left, &right, row),
        )
    }
}

impl<'a, O: Offset, K: ComparedBytes, R: ByteTest> RelatedToScalar<R, &'a [u8]> for ByteRows<O, K> {
    ghost scalar_slot = { λ scalar. K.slot scalar.now };

    ghost IsScalar = { λ scalar. K.Allows scalar.now };

    fn related_scalar_bits(
        alloc: Global,
        lhs: &FlatArray<ByteRows<O, K>>,
        rhs: &'a [u8],
    ) -> Result<Bitmap, Error> {
        let rows = LentRows::of(lhs);
        let scalar = Row::whole(rhs);
        Bitmap::collect_bool(
            alloc,
            rows.len(),
            |row| is_related::<R, O, K>(&rows, &scalar, row),
        )
    }
}
