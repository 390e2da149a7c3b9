//! Relations of arrays of any kind, from those of what they store: values are related whatever lies beneath nulls, and the
//! validities are looked at afterwards, a word at a time.

ghost use Rattle.std.specs.Prelude.{◌≡◌, length, map, IfOk, IsOkUnless};
ghost use Rattle.arrow_flat.specs.Truths.{AnswersTruths};
ghost use Rattle.arrow_types.specs.declared.error.Error.{Error};
ghost use Rattle.arrow_types.specs.ArrowType.{boolean, plain};
ghost use Rattle.arrow_types.specs.Relation.{related};
ghost use Rattle.arrow_types.specs.Slot.{Slot, Boolean};
ghost use Rattle.arrow_flat.specs.Parts.{boolean_rows, rows_by};
ghost use Rattle.arrow_flat.specs.RowByRow.{row_by_row};

use crate::comparison::finish;
use crate::fixed::{FixedRelation, Sameness};
use arrow_flat::array::truths::truths;
use arrow_flat::array::validity::{combine_validities, shared};
use arrow_flat::array::{BooleanArray, FlatArray, Values};
use arrow_memory::bitmap::Bitmap;
use arrow_types::error::Error;
use std::alloc::Global;

/// What stores rows of which a relation is known.
pub(crate) trait RelatedBy<R: FixedRelation>: Values {
    /// A bit for each row, set where the relation holds of what both sides store there.
    ///
    /// # Requires
    /// Both have as many rows.
    ///
    /// # Errors
    /// `OutOfMemory` where memory is refused.
    fn related_bits(
        alloc: Global,
        lhs: &FlatArray<Self>,
        rhs: &FlatArray<Self>,
    ) -> Result<Bitmap, Error>
        requires { length (rows_by Self.slots lhs.now) ≡ length (rows_by Self.slots rhs.now) }
        ensures ok { IfOk result (λ bits. map Boolean bits
            ≡ row_by_row (related R.op) (Self.slots lhs.now.values) (Self.slots rhs.now.values)) }
        ensures err { IsOkUnless result Error.OutOfMemory };
}

/// What stores rows of which a relation to a scalar is known.
pub(crate) trait RelatedToScalar<R: FixedRelation, S>: Values {
    // the slot of a scalar
    ghost scalar_slot: { S → Slot };

    // the scalars that there are
    ghost IsScalar: { S → Type 0 };

    /// A bit for each row, set where the relation holds of what is stored there and a scalar.
    ///
    /// # Requires
    /// The scalar is one of the kind.
    ///
    /// # Errors
    /// `OutOfMemory` where memory is refused.
    fn related_scalar_bits(alloc: Global, lhs: &FlatArray<Self>, rhs: S) -> Result<Bitmap, Error>
        requires { IsScalar rhs }
        ensures ok { IfOk result (λ bits. map Boolean bits
            ≡ map (λ s. related R.op s (scalar_slot rhs)) (Self.slots lhs.now.values)) }
        ensures err { IsOkUnless result Error.OutOfMemory };
}

// Whether a relation holds of each row of both sides, and null where one of the two is.
pub(crate) fn relate_by<R: FixedRelation, V: RelatedBy<R>>(
    alloc: Global,
    lhs: &FlatArray<V>,
    rhs: &FlatArray<V>,
) -> Result<BooleanArray, Error>
    requires { length (rows_by V.slots lhs.now) ≡ length (rows_by V.slots rhs.now) }
    ensures { AnswersTruths result
        (row_by_row (related R.op) (rows_by V.slots lhs.now) (rows_by V.slots rhs.now)) }
{
    let bits = V::related_bits(alloc, lhs, rhs)?;
    let either = combine_validities(alloc, lhs.validity(), rhs.validity())?;
    Ok(truths(bits, either))
}

// Whether a relation holds of each row and a scalar, and null where the row is.
#[inline(always)]
pub(crate) fn relate_scalar_by<R: FixedRelation, V: RelatedToScalar<R, S>, S>(
    alloc: Global,
    lhs: &FlatArray<V>,
    rhs: S,
) -> Result<BooleanArray, Error>
    requires { V.IsScalar rhs }
    ensures { AnswersTruths result
        (map (λ s. related R.op s (V.scalar_slot rhs)) (rows_by V.slots lhs.now)) }
{
    let bits = V::related_scalar_bits(alloc, lhs, rhs)?;
    let validity = shared(lhs.validity())?;
    Ok(truths(bits, validity))
}

// Whether the rows of both sides are the same, or whether they differ: two nulls are the same, and a null and a value are
// not. No row is null.
pub(crate) fn same_by<E: Sameness, V: RelatedBy<E>>(
    alloc: Global,
    lhs: &FlatArray<V>,
    rhs: &FlatArray<V>,
) -> Result<BooleanArray, Error>
    requires { length (rows_by V.slots lhs.now) ≡ length (rows_by V.slots rhs.now) }
    ensures { AnswersTruths result
        (row_by_row E.tells (rows_by V.slots lhs.now) (rows_by V.slots rhs.now)) }
{
    let bits = V::related_bits(alloc, lhs, rhs)?;
    let (left, right) = (shared(lhs.validity())?, shared(rhs.validity())?);
    E::shows_rows();
    finish::<E>(alloc, truths(bits, None), left, right)
}

// Whether each row is the scalar, or whether it differs from it: a null does. No row is null.
#[inline(always)]
pub(crate) fn same_scalar_by<E: Sameness, V: RelatedToScalar<E, S>, S>(
    alloc: Global,
    lhs: &FlatArray<V>,
    rhs: S,
) -> Result<BooleanArray, Error>
    requires { V.IsScalar rhs }
    ensures { AnswersTruths result (map (λ s. E.tells s (V.scalar_slot rhs)) (rows_by V.slots lhs.now)) }
{
    let bits = V::related_scalar_bits(alloc, lhs, rhs)?;
    let validity = shared(lhs.validity())?;
    E::shows_rows();
    finish::<E>(alloc, truths(bits, None), validity, None)
}
