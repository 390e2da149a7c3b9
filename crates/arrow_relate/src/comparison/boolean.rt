//! Relations of truth values: false comes before true.

ghost use Rattle.std.specs.Prelude.{◌≡◌, ◌*◌, ◌<◌, if◌then◌else◌, length, map, replicate, IfOk, IsOkUnless};
ghost use Rattle.arrow_types.specs.declared.error.Error.{Error};
ghost use Rattle.arrow_types.specs.ArrowType.{boolean, plain};
ghost use Rattle.arrow_types.specs.Relation.{related};
ghost use Rattle.arrow_types.specs.Relation as relation;
ghost use Rattle.arrow_relate.specs.Related.{relation_of};
ghost use Rattle.arrow_types.specs.Slot.{Boolean};
ghost use Rattle.arrow_flat.specs.Parts.{boolean_rows};
ghost use Rattle.arrow_flat.specs.RowByRow.{row_by_row};
ghost use Rattle.arrow_relate.specs.Same.{is_same, differs};
ghost use Rattle.arrow_memory.specs.Words.{word_of};
ghost use Rattle.arrow_relate.specs.Chunked.{AnswersByWords, Chunked, TakesWords, answers_word};
ghost use Rattle.arrow_flat.specs.Truths.{AnswersTruths};

use crate::fixed::{Equal, FixedRelation, Greater, GreaterOrEqual, Less, LessOrEqual, NotEqual};
use crate::relation::Relation;
use crate::stored::{
    RelatedBy, RelatedToScalar, relate_by, relate_scalar_by, same_by, same_scalar_by,
};
use arrow_flat::array::BooleanArray;
use arrow_flat::array::truths::truths;
use arrow_flat::array::validity::shared;
use arrow_memory::bitmap::Bitmap;
use arrow_types::error::Error;
use std::alloc::Global;

/// Whether each row of the left side equals that of the right one, and null where one of the two is.
///
/// # Requires
/// Both have as many rows.
///
/// # Errors
/// `OutOfMemory` where memory is refused.
///
/// Source: arrow2's `comparison::boolean::eq`.
pub fn eq(alloc: Global, lhs: &BooleanArray, rhs: &BooleanArray) -> Result<BooleanArray, Error>
    requires { length (boolean_rows lhs.now) ≡ length (boolean_rows rhs.now) }
    ensures { AnswersTruths result
        (row_by_row (related relation.eq) (boolean_rows lhs.now) (boolean_rows rhs.now)) }
{
    relate_by::<Equal, _>(alloc, lhs, rhs)
}

/// Whether the rows of both sides are the same: two nulls are, and a null and a value are not. No row is null.
///
/// # Requires
/// Both have as many rows.
///
/// # Errors
/// `OutOfMemory` where memory is refused.
///
/// Source: arrow2's `comparison::boolean::eq_and_validity`.
pub fn eq_and_validity(
    alloc: Global,
    lhs: &BooleanArray,
    rhs: &BooleanArray,
) -> Result<BooleanArray, Error>
    requires { length (boolean_rows lhs.now) ≡ length (boolean_rows rhs.now) }
    ensures { AnswersTruths result (row_by_row is_same (boolean_rows lhs.now) (boolean_rows rhs.now)) }
{
    same_by::<Equal, _>(alloc, lhs, rhs)
}

/// Whether each row equals the scalar, and null where the row is.
///
/// # Errors
/// `OutOfMemory` where memory is refused.
///
/// Source: arrow2's `comparison::boolean::eq_scalar`.
pub fn eq_scalar(alloc: Global, lhs: &BooleanArray, rhs: bool) -> Result<BooleanArray, Error>
    ensures { AnswersTruths result (map (λ s. related relation.eq s (Boolean rhs)) (boolean_rows lhs.now)) }
{
    relate_scalar_by::<Equal, _, _>(alloc, lhs, rhs)
}

/// Whether each row is the scalar: a null is not. No row is null.
///
/// # Errors
/// `OutOfMemory` where memory is refused.
///
/// Source: arrow2's `comparison::boolean::eq_scalar_and_validity`.
pub fn eq_scalar_and_validity(
    alloc: Global,
    lhs: &BooleanArray,
    rhs: bool,
) -> Result<BooleanArray, Error>
    ensures { AnswersTruths result (map (λ s. is_same s (Boolean rhs)) (boolean_rows lhs.now)) }
{
    same_scalar_by::<Equal, _, _>(alloc, lhs, rhs)
}

/// Whether each row of the left side differs from that of the right one, and null where one of the two is.
///
/// # Requires
/// Both have as many rows.
///
/// # Errors
/// `OutOfMemory` where memory is refused.
///
/// Source: arrow2's `comparison::boolean::neq`.
pub fn neq(alloc: Global, lhs: &BooleanArray, rhs: &BooleanArray) -> Result<BooleanArray, Error>
    requires { length (boolean_rows lhs.now) ≡ length (boolean_rows rhs.now) }
    ensures { AnswersTruths result
        (row_by_row (related relation.neq) (boolean_rows lhs.now) (boolean_rows rhs.now)) }
{
    relate_by::<NotEqual, _>(alloc, lhs, rhs)
}

/// Whether the rows of both sides differ: the rows of [`eq_and_validity`] turned.
///
/// # Requires
/// Both have as many rows.
///
/// # Errors
/// `OutOfMemory` where memory is refused.
///
/// Source: arrow2's `comparison::boolean::neq_and_validity`.
pub fn neq_and_validity(
    alloc: Global,
    lhs: &BooleanArray,
    rhs: &BooleanArray,
) -> Result<BooleanArray, Error>
    requires { length (boolean_rows lhs.now) ≡ length (boolean_rows rhs.now) }
    ensures { AnswersTruths result (row_by_row differs (boolean_rows lhs.now) (boolean_rows rhs.now)) }
{
    same_by::<NotEqual, _>(alloc, lhs, rhs)
}

/// Whether each row differs from the scalar, and null where the row is.
///
/// # Errors
/// `OutOfMemory` where memory is refused.
///
/// Source: arrow2's `comparison::boolean::neq_scalar`.
pub fn neq_scalar(alloc: Global, lhs: &BooleanArray, rhs: bool) -> Result<BooleanArray, Error>
    ensures { AnswersTruths result (map (λ s. related relation.neq s (Boolean rhs)) (boolean_rows lhs.now)) }
{
    relate_scalar_by::<NotEqual, _, _>(alloc, lhs, rhs)
}

/// Whether each row differs from the scalar: a null does. No row is null.
///
/// # Errors
/// `OutOfMemory` where memory is refused.
///
/// Source: arrow2's `comparison::boolean::neq_scalar_and_validity`.
pub fn neq_scalar_and_validity(
    alloc: Global,
    lhs: &BooleanArray,
    rhs: bool,
) -> Result<BooleanArray, Error>
    ensures { AnswersTruths result (map (λ s. differs s (Boolean rhs)) (boolean_rows lhs.now)) }
{
    same_scalar_by::<NotEqual, _, _>(alloc, lhs, rhs)
}

/// Whether each row of the left side comes before that of the right one, and null where one of the two is.
///
/// # Requires
/// Both have as many rows.
///
/// # Errors
/// `OutOfMemory` where memory is refused.
///
/// Source: arrow2's `comparison::boolean::lt`.
pub fn lt(alloc: Global, lhs: &BooleanArray, rhs: &BooleanArray) -> Result<BooleanArray, Error>
    requires { length (boolean_rows lhs.now) ≡ length (boolean_rows rhs.now) }
    ensures { AnswersTruths result
        (row_by_row (related relation.lt) (boolean_rows lhs.now) (boolean_rows rhs.now)) }
{
    relate_by::<Less, _>(alloc, lhs, rhs)
}

/// Whether each row comes before the scalar, and null where the row is.
///
/// # Errors
/// `OutOfMemory` where memory is refused.
///
/// Source: arrow2's `comparison::boolean::lt_scalar`.
pub fn lt_scalar(alloc: Global, lhs: &BooleanArray, rhs: bool) -> Result<BooleanArray, Error>
    ensures { AnswersTruths result (map (λ s. related relation.lt s (Boolean rhs)) (boolean_rows lhs.now)) }
{
    relate_scalar_by::<Less, _, _>(alloc, lhs, rhs)
}

/// Whether each row of the left side does not come after that of the right one, and null where one of the two is.
///
/// # Requires
/// Both have as many rows.
///
/// # Errors
/// `OutOfMemory` where memory is refused.
///
/// Source: arrow2's `comparison::boolean::lt_eq`.
pub fn lt_eq(alloc: Global, lhs: &BooleanArray, rhs: &BooleanArray) -> Result<BooleanArray, Error>
    requires { length (boolean_rows lhs.now) ≡ length (boolean_rows rhs.now) }
    ensures { AnswersTruths result
        (row_by_row (related relation.lt_eq) (boolean_rows lhs.now) (boolean_rows rhs.now)) }
{
    relate_by::<LessOrEqual, _>(alloc, lhs, rhs)
}

/// Whether each row does not come after the scalar, and null where the row is.
///
/// # Errors
/// `OutOfMemory` where memory is refused.
///
/// Source: arrow2's `comparison::boolean::lt_eq_scalar`.
pub fn lt_eq_scalar(alloc: Global, lhs: &BooleanArray, rhs: bool) -> Result<BooleanArray, Error>
    ensures { AnswersTruths result
        (map (λ s. related relation.lt_eq s (Boolean rhs)) (boolean_rows lhs.now)) }
{
    relate_scalar_by::<LessOrEqual, _, _>(alloc, lhs, rhs)
}

/// Whether each row of the left side comes after that of the right one, and null where one of the two is.
///
/// # Requires
/// Both have as many rows.
///
/// # Errors
/// `OutOfMemory` where memory is refused.
///
/// Source: arrow2's `comparison::boolean::gt`.
pub fn gt(alloc: Global, lhs: &BooleanArray, rhs: &BooleanArray) -> Result<BooleanArray, Error>
    requires { length (boolean_rows lhs.now) ≡ length (boolean_rows rhs.now) }
    ensures { AnswersTruths result
        (row_by_row (related relation.gt) (boolean_rows lhs.now) (boolean_rows rhs.now)) }
{
    relate_by::<Greater, _>(alloc, lhs, rhs)
}

/// Whether each row comes after the scalar, and null where the row is.
///
/// # Errors
/// `OutOfMemory` where memory is refused.
///
/// Source: arrow2's `comparison::boolean::gt_scalar`.
pub fn gt_scalar(alloc: Global, lhs: &BooleanArray, rhs: bool) -> Result<BooleanArray, Error>
    ensures { AnswersTruths result (map (λ s. related relation.gt s (Boolean rhs)) (boolean_rows lhs.now)) }
{
    relate_scalar_by::<Greater, _, _>(alloc, lhs, rhs)
}

/// Whether each row of the left side does not come before that of the right one, and null where one of the two is.
///
/// # Requires
/// Both have as many rows.
///
/// # Errors
/// `OutOfMemory` where memory is refused.
///
/// Source: arrow2's `comparison::boolean::gt_eq`.
pub fn gt_eq(alloc: Global, lhs: &BooleanArray, rhs: &BooleanArray) -> Result<BooleanArray, Error>
    requires { length (boolean_rows lhs.now) ≡ length (boolean_rows rhs.now) }
    ensures { AnswersTruths result
        (row_by_row (related relation.gt_eq) (boolean_rows lhs.now) (boolean_rows rhs.now)) }
{
    relate_by::<GreaterOrEqual, _>(alloc, lhs, rhs)
}

/// Whether each row does not come before the scalar, and null where the row is.
///
/// # Errors
/// `OutOfMemory` where memory is refused.
///
/// Source: arrow2's `comparison::boolean::gt_eq_scalar`.
pub fn gt_eq_scalar(alloc: Global, lhs: &BooleanArray, rhs: bool) -> Result<BooleanArray, Error>
    ensures { AnswersTruths result
        (map (λ s. related relation.gt_eq s (Boolean rhs)) (boolean_rows lhs.now)) }
{
    relate_scalar_by::<GreaterOrEqual, _, _>(alloc, lhs, rhs)
}

/// Whether each row is so related to that of the right side, and null where one of the two is.
///
/// # Requires
/// Both have as many rows.
///
/// # Errors
/// `OutOfMemory` where memory is refused.
pub fn relate(
    alloc: Global,
    by: Relation,
    lhs: &BooleanArray,
    rhs: &BooleanArray,
) -> Result<BooleanArray, Error>
    requires { length (boolean_rows lhs.now) ≡ length (boolean_rows rhs.now) }
    ensures { AnswersTruths result
        (row_by_row (related (relation_of by)) (boolean_rows lhs.now) (boolean_rows rhs.now)) }
{
    by_relation!(by, relate_by::<_, _>(alloc, lhs, rhs))
}

/// Whether each row is so related to the scalar, and null where the row is.
///
/// # Errors
/// `OutOfMemory` where memory is refused.
#[inline(never)]
pub fn relate_scalar(
    alloc: Global,
    by: Relation,
    lhs: &BooleanArray,
    rhs: bool,
) -> Result<BooleanArray, Error>
    ensures { AnswersTruths result
        (map (λ s. related (relation_of by) s (Boolean rhs)) (boolean_rows lhs.now)) }
{
    by_relation!(by, relate_scalar_by::<_, _, _>(alloc, lhs, rhs))
}

/// What a closure answers of the values of an array and a scalar, 64 rows at a time. It is called once for each word of
/// values, null rows too: bit k of the first argument is row `64 * j + k`, with zeros past the last row, and the second
/// has ones alone where the scalar is true, and zeros alone where it is false. A bit of its answer is that of the row;
/// those past the last row are left out. A row is null where the array's is.
///
/// # Requires
/// The closure may be called on all such words.
///
/// # Errors
/// `OutOfMemory` where memory is refused.
///
/// Source: arrow2's `comparison::boolean::compare_op_scalar`.
pub fn compare_op_scalar<F: Fn(u64, u64) -> u64>(
    alloc: Global,
    lhs: &BooleanArray,
    rhs: bool,
    op: F,
) -> Result<BooleanArray, Error>
    requires { TakesWords (F.pre op) lhs.now.values rhs }
    ensures array_type { IfOk result (λ array. array.arrow_type ≡ plain boolean) }
    ensures rows { IfOk result (λ array. AnswersByWords (F.post op) lhs.now rhs (boolean_rows array)) }
    ensures err { IsOkUnless result Error.OutOfMemory }
{
    let bits = bits_of_words(alloc, lhs.values(), rhs, &op)?;
    Ok(truths(bits, shared(lhs.validity())?))
}

// The bits that `op` answers of the words of some bits and of a scalar. It is called once for each word.
fn bits_of_words<F: Fn(u64, u64) -> u64>(
    alloc: Global,
    stored: &Bitmap,
    scalar: bool,
    op: &F,
) -> Result<Bitmap, Error>
    requires { TakesWords (F.pre op.now) stored.now scalar }
    ensures ok { IfOk result (Chunked 64 (answers_word (F.post op.now) stored.now scalar)
        (length stored.now)) }
    ensures err { IsOkUnless result Error.OutOfMemory }
{
    Bitmap::collect_words(alloc, stored.len(), |j| answer_at(op, stored, scalar, j))
}

// What `op` answers to word `j` of some bits and a word of the scalar.
fn answer_at<F: Fn(u64, u64) -> u64>(op: &F, bits: &Bitmap, scalar: bool, j: usize) -> u64
    requires callable { TakesWords (F.pre op.now) bits.now scalar }
    requires some { 64 * j < length bits.now }
    ensures { answers_word (F.post op.now) bits.now scalar j result }
{
    op(bits.word(j), repeated(scalar))
}

// A word of equal bits.
fn repeated(bit: bool) -> u64
    ensures { result ≡ word_of (replicate 64 bit) }
{
    if bit { u64::MAX } else { 0 }
}

impl<R: FixedRelation> RelatedBy<R> for Bitmap {
    fn related_bits(
        alloc: Global,
        lhs: &BooleanArray,
        rhs: &BooleanArray,
    ) -> Result<Bitmap, Error> {
        // There are as many values as rows.
        let _ = (lhs.len(), rhs.len());
        lhs.values().combined::<R>(alloc, rhs.values())
    }
}

impl<R: FixedRelation> RelatedToScalar<R, bool> for Bitmap {
    ghost scalar_slot = { Boolean };

    ghost IsScalar = { λ scalar. Unit {0} };

    #[inline(always)]
    fn related_scalar_bits(alloc: Global, lhs: &BooleanArray, rhs: bool) -> Result<Bitmap, Error> {
        let unset = R::holds(false.cmp(&rhs));
        let set = R::holds(true.cmp(&rhs));
        replaced(alloc, lhs.values(), unset, set)
    }
}

// The bits with `unset` for each that is not set, and `set` for each that is. Those that stay as they are, are shared.
#[inline(always)]
fn replaced(alloc: Global, bits: &Bitmap, unset: bool, set: bool) -> Result<Bitmap, Error>
    ensures ok { IfOk result (λ made. made ≡ map (λ bit. if bit then set else unset) bits.now) }
    ensures err { IsOkUnless result Error.OutOfMemory }
{
    if unset == set {
        return Bitmap::new_constant(alloc, set, bits.len());
    }
    if set {
        Ok(bits.clone()?)
    } else {
        bits.not(alloc)
    }
}
