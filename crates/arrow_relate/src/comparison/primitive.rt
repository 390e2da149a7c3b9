//! Relations of numbers, by value, and whether intervals are equal.

ghost use Rattle.std.specs.Prelude.{◌≡◌, ◌<◌, Some, length, map, slice_get, IfOk, IsOkUnless};
ghost use Rattle.arrow_types.specs.declared.error.Error.{Error};
ghost use Rattle.arrow_types.specs.ArrowType.{boolean, plain};
ghost use Rattle.arrow_types.specs.Relation.{related};
ghost use Rattle.arrow_types.specs.Relation as relation;
ghost use Rattle.arrow_relate.specs.Related.{relation_of};
ghost use Rattle.arrow_types.specs.Slot.{Boolean};
ghost use Rattle.arrow_flat.specs.Parts.{boolean_rows, rows_by};
ghost use Rattle.arrow_flat.specs.RowByRow.{row_by_row};
ghost use Rattle.arrow_relate.specs.Chunked.{AnswersChunks, TakesChunks};
ghost use Rattle.arrow_relate.specs.Same.{is_same, differs};
ghost use Rattle.arrow_flat.specs.Truths.{AnswersTruths};

use crate::comparison::chunked::bits_of_chunks;
use crate::fixed::{Equal, Greater, GreaterOrEqual, Less, LessOrEqual, NotEqual, Test};
use crate::relation::Relation;
use crate::stored::{
    RelatedBy, RelatedToScalar, relate_by, relate_scalar_by, same_by, same_scalar_by,
};
use arrow_flat::array::truths::truths;
use arrow_flat::array::validity::shared;
use arrow_flat::array::{BooleanArray, PrimitiveArray};
use arrow_memory::bitmap::Bitmap;
use arrow_memory::buffer::Buffer;
use arrow_types::error::Error;
use arrow_types::types::{NativeOrd, NativeType};
use std::alloc::Global;

/// Whether each row of the left side equals that of the right one, and null where one of the two is.
///
/// # Requires
/// Both have as many rows.
///
/// # Errors
/// `OutOfMemory` where memory is refused.
///
/// Source: arrow2's `comparison::primitive::eq`.
pub fn eq<T: NativeType>(
    alloc: Global,
    lhs: &PrimitiveArray<T>,
    rhs: &PrimitiveArray<T>,
) -> Result<BooleanArray, Error>
    requires { length (rows_by (map T.slot) lhs.now) ≡ length (rows_by (map T.slot) rhs.now) }
    ensures { AnswersTruths result
        (row_by_row (related relation.eq) (rows_by (map T.slot) lhs.now) (rows_by (map T.slot) rhs.now)) }
{
    relate_by::<Equal, _>(alloc, lhs, rhs)
}

/// Whether the rows of both sides are the same: two nulls are, and a null and a value are not. No row is null.
///
/// # Requires
/// Both have as many rows.
///
/// # Errors
/// `OutOfMemory` where memory is refused.
///
/// Source: arrow2's `comparison::primitive::eq_and_validity`.
pub fn eq_and_validity<T: NativeType>(
    alloc: Global,
    lhs: &PrimitiveArray<T>,
    rhs: &PrimitiveArray<T>,
) -> Result<BooleanArray, Error>
    requires { length (rows_by (map T.slot) lhs.now) ≡ length (rows_by (map T.slot) rhs.now) }
    ensures { AnswersTruths result
        (row_by_row is_same (rows_by (map T.slot) lhs.now) (rows_by (map T.slot) rhs.now)) }
{
    same_by::<Equal, _>(alloc, lhs, rhs)
}

/// Whether each row equals the scalar, and null where the row is.
///
/// # Errors
/// `OutOfMemory` where memory is refused.
///
/// Source: arrow2's `comparison::primitive::eq_scalar`.
pub fn eq_scalar<T: NativeType>(
    alloc: Global,
    lhs: &PrimitiveArray<T>,
    rhs: T,
) -> Result<BooleanArray, Error>
    ensures { AnswersTruths result
        (map (λ s. related relation.eq s (T.slot rhs)) (rows_by (map T.slot) lhs.now)) }
{
    relate_scalar_by::<Equal, _, _>(alloc, lhs, rhs)
}

/// Whether each row is the scalar: a null is not. No row is null.
///
/// # Errors
/// `OutOfMemory` where memory is refused.
///
/// Source: arrow2's `comparison::primitive::eq_scalar_and_validity`.
pub fn eq_scalar_and_validity<T: NativeType>(
    alloc: Global,
    lhs: &PrimitiveArray<T>,
    rhs: T,
) -> Result<BooleanArray, Error>
    ensures { AnswersTruths result (map (λ s. is_same s (T.slot rhs)) (rows_by (map T.slot) lhs.now)) }
{
    same_scalar_by::<Equal, _, _>(alloc, lhs, rhs)
}

/// Whether each row of the left side differs from that of the right one, and null where one of the two is.
///
/// # Requires
/// Both have as many rows.
///
/// # Errors
/// `OutOfMemory` where memory is refused.
///
/// Source: arrow2's `comparison::primitive::neq`.
pub fn neq<T: NativeType>(
    alloc: Global,
    lhs: &PrimitiveArray<T>,
    rhs: &PrimitiveArray<T>,
) -> Result<BooleanArray, Error>
    requires { length (rows_by (map T.slot) lhs.now) ≡ length (rows_by (map T.slot) rhs.now) }
    ensures { AnswersTruths result
        (row_by_row (related relation.neq) (rows_by (map T.slot) lhs.now) (rows_by (map T.slot) rhs.now)) }
{
    relate_by::<NotEqual, _>(alloc, lhs, rhs)
}

/// Whether the rows of both sides differ: the rows of [`eq_and_validity`] turned.
///
/// # Requires
/// Both have as many rows.
///
/// # Errors
/// `OutOfMemory` where memory is refused.
///
/// Source: arrow2's `comparison::primitive::neq_and_validity`.
pub fn neq_and_validity<T: NativeType>(
    alloc: Global,
    lhs: &PrimitiveArray<T>,
    rhs: &PrimitiveArray<T>,
) -> Result<BooleanArray, Error>
    requires { length (rows_by (map T.slot) lhs.now) ≡ length (rows_by (map T.slot) rhs.now) }
    ensures { AnswersTruths result
        (row_by_row differs (rows_by (map T.slot) lhs.now) (rows_by (map T.slot) rhs.now)) }
{
    same_by::<NotEqual, _>(alloc, lhs, rhs)
}

/// Whether each row differs from the scalar, and null where the row is.
///
/// # Errors
/// `OutOfMemory` where memory is refused.
///
/// Source: arrow2's `comparison::primitive::neq_scalar`.
pub fn neq_scalar<T: NativeType>(
    alloc: Global,
    lhs: &PrimitiveArray<T>,
    rhs: T,
) -> Result<BooleanArray, Error>
    ensures { AnswersTruths result
        (map (λ s. related relation.neq s (T.slot rhs)) (rows_by (map T.slot) lhs.now)) }
{
    relate_scalar_by::<NotEqual, _, _>(alloc, lhs, rhs)
}

/// Whether each row differs from the scalar: a null does. No row is null.
///
/// # Errors
/// `OutOfMemory` where memory is refused.
///
/// Source: arrow2's `comparison::primitive::neq_scalar_and_validity`.
pub fn neq_scalar_and_validity<T: NativeType>(
    alloc: Global,
    lhs: &PrimitiveArray<T>,
    rhs: T,
) -> Result<BooleanArray, Error>
    ensures { AnswersTruths result (map (λ s. differs s (T.slot rhs)) (rows_by (map T.slot) lhs.now)) }
{
    same_scalar_by::<NotEqual, _, _>(alloc, lhs, rhs)
}

/// Whether each row of the left side comes before that of the right one, and null where one of the two is.
///
/// # Requires
/// Both have as many rows.
///
/// # Errors
/// `OutOfMemory` where memory is refused.
///
/// Source: arrow2's `comparison::primitive::lt`.
pub fn lt<T: NativeOrd>(
    alloc: Global,
    lhs: &PrimitiveArray<T>,
    rhs: &PrimitiveArray<T>,
) -> Result<BooleanArray, Error>
    requires { length (rows_by (map T.slot) lhs.now) ≡ length (rows_by (map T.slot) rhs.now) }
    ensures { AnswersTruths result
        (row_by_row (related relation.lt) (rows_by (map T.slot) lhs.now) (rows_by (map T.slot) rhs.now)) }
{
    relate_by::<Less, _>(alloc, lhs, rhs)
}

/// Whether each row comes before the scalar, and null where the row is.
///
/// # Errors
/// `OutOfMemory` where memory is refused.
///
/// Source: arrow2's `comparison::primitive::lt_scalar`.
pub fn lt_scalar<T: NativeOrd>(
    alloc: Global,
    lhs: &PrimitiveArray<T>,
    rhs: T,
) -> Result<BooleanArray, Error>
    ensures { AnswersTruths result
        (map (λ s. related relation.lt s (T.slot rhs)) (rows_by (map T.slot) lhs.now)) }
{
    relate_scalar_by::<Less, _, _>(alloc, lhs, rhs)
}

/// Whether each row of the left side does not come after that of the right one, and null where one of the two is.
///
/// # Requires
/// Both have as many rows.
///
/// # Errors
/// `OutOfMemory` where memory is refused.
///
/// Source: arrow2's `comparison::primitive::lt_eq`.
pub fn lt_eq<T: NativeOrd>(
    alloc: Global,
    lhs: &PrimitiveArray<T>,
    rhs: &PrimitiveArray<T>,
) -> Result<BooleanArray, Error>
    requires { length (rows_by (map T.slot) lhs.now) ≡ length (rows_by (map T.slot) rhs.now) }
    ensures { AnswersTruths result
        (row_by_row (related relation.lt_eq) (rows_by (map T.slot) lhs.now) (rows_by (map T.slot) rhs.now)) }
{
    relate_by::<LessOrEqual, _>(alloc, lhs, rhs)
}

/// Whether each row does not come after the scalar, and null where the row is.
///
/// # Errors
/// `OutOfMemory` where memory is refused.
///
/// Source: arrow2's `comparison::primitive::lt_eq_scalar`.
pub fn lt_eq_scalar<T: NativeOrd>(
    alloc: Global,
    lhs: &PrimitiveArray<T>,
    rhs: T,
) -> Result<BooleanArray, Error>
    ensures { AnswersTruths result
        (map (λ s. related relation.lt_eq s (T.slot rhs)) (rows_by (map T.slot) lhs.now)) }
{
    relate_scalar_by::<LessOrEqual, _, _>(alloc, lhs, rhs)
}

/// Whether each row of the left side comes after that of the right one, and null where one of the two is.
///
/// # Requires
/// Both have as many rows.
///
/// # Errors
/// `OutOfMemory` where memory is refused.
///
/// Source: arrow2's `comparison::primitive::gt`.
pub fn gt<T: NativeOrd>(
    alloc: Global,
    lhs: &PrimitiveArray<T>,
    rhs: &PrimitiveArray<T>,
) -> Result<BooleanArray, Error>
    requires { length (rows_by (map T.slot) lhs.now) ≡ length (rows_by (map T.slot) rhs.now) }
    ensures { AnswersTruths result
        (row_by_row (related relation.gt) (rows_by (map T.slot) lhs.now) (rows_by (map T.slot) rhs.now)) }
{
    relate_by::<Greater, _>(alloc, lhs, rhs)
}

/// Whether each row comes after the scalar, and null where the row is.
///
/// # Errors
/// `OutOfMemory` where memory is refused.
///
/// Source: arrow2's `comparison::primitive::gt_scalar`.
pub fn gt_scalar<T: NativeOrd>(
    alloc: Global,
    lhs: &PrimitiveArray<T>,
    rhs: T,
) -> Result<BooleanArray, Error>
    ensures { AnswersTruths result
        (map (λ s. related relation.gt s (T.slot rhs)) (rows_by (map T.slot) lhs.now)) }
{
    relate_scalar_by::<Greater, _, _>(alloc, lhs, rhs)
}

/// Whether each row of the left side does not come before that of the right one, and null where one of the two is.
///
/// # Requires
/// Both have as many rows.
///
/// # Errors
/// `OutOfMemory` where memory is refused.
///
/// Source: arrow2's `comparison::primitive::gt_eq`.
pub fn gt_eq<T: NativeOrd>(
    alloc: Global,
    lhs: &PrimitiveArray<T>,
    rhs: &PrimitiveArray<T>,
) -> Result<BooleanArray, Error>
    requires { length (rows_by (map T.slot) lhs.now) ≡ length (rows_by (map T.slot) rhs.now) }
    ensures { AnswersTruths result
        (row_by_row (related relation.gt_eq) (rows_by (map T.slot) lhs.now) (rows_by (map T.slot) rhs.now)) }
{
    relate_by::<GreaterOrEqual, _>(alloc, lhs, rhs)
}

/// Whether each row does not come before the scalar, and null where the row is.
///
/// # Errors
/// `OutOfMemory` where memory is refused.
///
/// Source: arrow2's `comparison::primitive::gt_eq_scalar`.
pub fn gt_eq_scalar<T: NativeOrd>(
    alloc: Global,
    lhs: &PrimitiveArray<T>,
    rhs: T,
) -> Result<BooleanArray, Error>
    ensures { AnswersTruths result
        (map (λ s. related relation.gt_eq s (T.slot rhs)) (rows_by (map T.slot) lhs.now)) }
{
    relate_scalar_by::<GreaterOrEqual, _, _>(alloc, lhs, rhs)
}

/// Whether each row is so related to that of the right side, and null where one of the two is.
///
/// # Requires
/// Both have as many rows.
///
/// # Errors
/// `OutOfMemory` where memory is refused.
pub fn relate<T: NativeOrd>(
    alloc: Global,
    by: Relation,
    lhs: &PrimitiveArray<T>,
    rhs: &PrimitiveArray<T>,
) -> Result<BooleanArray, Error>
    requires { length (rows_by (map T.slot) lhs.now) ≡ length (rows_by (map T.slot) rhs.now) }
    ensures { AnswersTruths result
        (row_by_row (related (relation_of by)) (rows_by (map T.slot) lhs.now)
        (rows_by (map T.slot) rhs.now)) }
{
    by_relation!(by, relate_by::<_, _>(alloc, lhs, rhs))
}

/// Whether each row is so related to the scalar, and null where the row is.
///
/// # Errors
/// `OutOfMemory` where memory is refused.
pub fn relate_scalar<T: NativeOrd>(
    alloc: Global,
    by: Relation,
    lhs: &PrimitiveArray<T>,
    rhs: T,
) -> Result<BooleanArray, Error>
    ensures { AnswersTruths result
        (map (λ s. related (relation_of by) s (T.slot rhs)) (rows_by (map T.slot) lhs.now)) }
{
    by_relation!(by, relate_scalar_by::<_, _, _>(alloc, lhs, rhs))
}

/// What a closure answers of the values of an array and a scalar, eight rows at a time. It is called once for each chunk of
/// eight values, null rows too, of which the last is filled with the default of the type, and on eight copies of the
/// scalar: bit k of its answer is row `8 * j + k`, and those past the last row are left out. A row is null where the
/// array's is.
///
/// # Requires
/// The closure may be called on all such chunks.
///
/// # Errors
/// `OutOfMemory` where memory is refused.
///
/// Source: arrow2's `comparison::primitive::compare_op_scalar`.
pub fn compare_op_scalar<T: NativeType, F: Fn([T; 8], [T; 8]) -> u8>(
    alloc: Global,
    lhs: &PrimitiveArray<T>,
    rhs: T,
    op: F,
) -> Result<BooleanArray, Error>
    requires { TakesChunks (F.pre op) T.zero lhs.now.values rhs }
    ensures array_type { IfOk result (λ array. array.arrow_type ≡ plain boolean) }
    ensures rows { IfOk result (λ array. AnswersChunks (F.post op) T.zero lhs.now rhs (boolean_rows array)) }
    ensures err { IsOkUnless result Error.OutOfMemory }
{
    let bits = bits_of_chunks(alloc, lhs.values().as_slice(), rhs, &op)?;
    Ok(truths(bits, shared(lhs.validity())?))
}

impl<T: NativeType, R: Test<T>> RelatedBy<R> for Buffer<T> {
    fn related_bits(
        alloc: Global,
        lhs: &PrimitiveArray<T>,
        rhs: &PrimitiveArray<T>,
    ) -> Result<Bitmap, Error> {
        // There are as many values as rows.
        let _ = (lhs.len(), rhs.len());
        let (left, right) = (lhs.values().as_slice(), rhs.values().as_slice());
        Bitmap::collect_bool(alloc, left.len(), |row| R::of(left[row], right[row]))
    }
}

impl<T: NativeType, R: Test<T>> RelatedToScalar<R, T> for Buffer<T> {
    ghost scalar_slot = { T.slot };

    ghost IsScalar = { λ scalar. Unit {0} };

    fn related_scalar_bits(
        alloc: Global,
        lhs: &PrimitiveArray<T>,
        rhs: T,
    ) -> Result<Bitmap, Error> {
        let left = lhs.values().as_slice();
        Bitmap::collect_bool(alloc, left.len(), |row| is_related::<T, R>(left, rhs, row))
    }
}

// Whether the relation holds of a value and another one.
fn is_related<T: NativeType, R: Test<T>>(values: &[T], other: T, row: usize) -> bool
    requires { row < length values.now }
    ensures { slice_get (map (λ s. related R.op s (T.slot other)) (map T.slot values.now)) row
        ≡ Some (Boolean result) }
{
    R::of(values[row], other)
}
