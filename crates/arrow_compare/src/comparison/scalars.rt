//! Rows of an array and a scalar of logically one type, each read through its dictionaries.

ghost use Rattle.std.specs.Prelude.{◌≡◌, false, length, map, MatchOption, IfOk, IsOkUnless};
ghost use Rattle.arrow_types.specs.declared.error.Error.{Error};
ghost use Rattle.arrow_types.specs.ArrowType.{boolean, logical, plain};
ghost use Rattle.arrow_types.specs.Physical.{physical_type_of};
ghost use Rattle.arrow_types.specs.Relation.{is_null, related, through};
ghost use Rattle.arrow_types.specs.Slot.{Boolean, Null};
ghost use Rattle.arrow_flat.specs.AnyScalar.{meaning_of};
ghost use Rattle.arrow_flat.specs.Parts.{boolean_rows};
ghost use Rattle.arrow_arrays.specs.Any.{any_array_rows, any_array_type, kind_in};
ghost use Rattle.arrow_relate.specs.Related.{relation_of};
ghost use Rattle.arrow_relate.specs.Same.{is_same};
ghost use Rattle.arrow_compare.specs.Compared.{HasEqualityThrough, HasRelationThrough, type_through};
ghost use Rattle.arrow_compare.specs.Kinds.{IsThrough, KindHasRelation, scalar_kind};
ghost use Rattle.arrow_flat.specs.Truths.{AnswersTruths};

use crate::comparison::answers::{all_null, known_or, take_answers};
use crate::comparison::values::relate_flat;
use crate::kinds::scalar_has_kind;
use arrow_arrays::array::AnyArray;
use arrow_flat::array::BooleanArray;
use arrow_flat::scalar::AnyScalar;
use arrow_logic::boolean;
use arrow_relate::relation::Relation;
use arrow_types::error::Error;
use std::alloc::Global;

// Whether each row is so related to the scalar, and null where the row is, or the scalar.
#[tactic(auto, using(crate::proofs::KindLemmas::value_kind, crate::proofs::KindLemmas::value_relation))]
pub(super) fn relate_scalar(
    alloc: Global,
    by: Relation,
    lhs: &AnyArray,
    rhs: &AnyScalar,
) -> Result<BooleanArray, Error>
    requires one_type { logical (any_array_type lhs.now) ≡ logical (meaning_of rhs.now).0 }
    requires has_relation { HasRelationThrough (relation_of by) (any_array_type lhs.now) }
    ensures array_type { IfOk result (λ array. array.arrow_type ≡ plain boolean) }
    ensures rows { IfOk result (λ array. boolean_rows array
        ≡ map (λ s. related (relation_of by) (through s) (through (meaning_of rhs.now).1))
        (any_array_rows lhs.now)) }
    ensures err { IsOkUnless result Error.OutOfMemory }
{
    match value_of(rhs) {
        None => all_null(alloc, lhs.len()),
        Some(value) => relate_rows(alloc, by, lhs, value),
    }
}

// Whether each row is the scalar: of a null scalar, whether it is null. No row is null.
#[tactic(auto, using(crate::proofs::KindLemmas::value_kind, crate::proofs::KindLemmas::value_relation))]
pub(super) fn same_scalar(
    alloc: Global,
    lhs: &AnyArray,
    rhs: &AnyScalar,
) -> Result<BooleanArray, Error>
    requires one_type { logical (any_array_type lhs.now) ≡ logical (meaning_of rhs.now).0 }
    requires has_equality { HasEqualityThrough (any_array_type lhs.now) }
    ensures array_type { IfOk result (λ array. array.arrow_type ≡ plain boolean) }
    ensures rows { IfOk result (λ array. boolean_rows array
        ≡ map (λ s. is_same (through s) (through (meaning_of rhs.now).1)) (any_array_rows lhs.now)) }
    ensures err { IsOkUnless result Error.OutOfMemory }
{
    match value_of(rhs) {
        None => null_rows(alloc, lhs),
        Some(value) => {
            let equal = relate_rows(alloc, Relation::Eq, lhs, value)?;
            known_or(alloc, false, equal)
        }
    }
}

// The scalar through its dictionaries, or `None` where it, or the value at any depth, is null.
#[cycle(value)]
fn value_of(scalar: &AnyScalar) -> Option<&AnyScalar>
    ensures { MatchOption result (through (meaning_of scalar.now).1 ≡ Null)
        (λ value. IsThrough (meaning_of scalar.now) value.now) }
{
    scalar_has_kind(scalar);
    if !scalar.is_valid() {
        return None;
    }
    match scalar {
        AnyScalar::Dictionary(entry) => {
            // The value is of the type of the dictionary's values.
            let _ = entry.data_type();
            value_of(entry.value()?)
        }
        _ => Some(scalar),
    }
}

// Whether each row, through its dictionaries, is so related to a value, and null where it is. Rows that lie in no dictionary are
// related in place, so that the answer is made where the caller wants it.
#[inline(always)]
fn relate_rows(
    alloc: Global,
    by: Relation,
    lhs: &AnyArray,
    value: &AnyScalar,
) -> Result<BooleanArray, Error>
    requires one_kind { scalar_kind value.now
        ≡ kind_in (physical_type_of (type_through (any_array_type lhs.now))) }
    requires has_relation { KindHasRelation (relation_of by) (scalar_kind value.now) }
    requires valid { is_null (meaning_of value.now).1 ≡ false }
    ensures { AnswersTruths result
        (map (λ s. related (relation_of by) (through s) (meaning_of value.now).1) (any_array_rows lhs.now)) }
{
    // The kind of the array follows from its data type.
    let _ = lhs.data_type();
    match lhs {
        AnyArray::Dictionary(_) => relate_value(alloc, by, lhs, value),
        _ => relate_flat(alloc, by, lhs, value),
    }
}

// The same, a dictionary at a time.
#[cycle(relate)]
fn relate_value(
    alloc: Global,
    by: Relation,
    lhs: &AnyArray,
    value: &AnyScalar,
) -> Result<BooleanArray, Error>
    requires one_kind { scalar_kind value.now
        ≡ kind_in (physical_type_of (type_through (any_array_type lhs.now))) }
    requires has_relation { KindHasRelation (relation_of by) (scalar_kind value.now) }
    requires valid { is_null (meaning_of value.now).1 ≡ false }
    ensures { AnswersTruths result
        (map (λ s. related (relation_of by) (through s) (meaning_of value.now).1) (any_array_rows lhs.now)) }
{
    // The kind of the array follows from its data type.
    let _ = lhs.data_type();
    match lhs {
        AnyArray::Dictionary(array) => {
            let answers = relate_value(alloc, by, array.values(), value)?;
            take_answers(alloc, &answers, array.keys())
        }
        _ => relate_flat(alloc, by, lhs, value),
    }
}

// Whether each row, through its dictionaries, is null. No row of the answer is.
#[cycle(nulls)]
fn null_rows(alloc: Global, lhs: &AnyArray) -> Result<BooleanArray, Error>
    requires has_equality { HasEqualityThrough (any_array_type lhs.now) }
    ensures array_type { IfOk result (λ array. array.arrow_type ≡ plain boolean) }
    ensures rows { IfOk result (λ array. boolean_rows array
        ≡ map (λ s. Boolean (is_null (through s))) (any_array_rows lhs.now)) }
    ensures err { IsOkUnless result Error.OutOfMemory }
{
    // The kind of the array follows from its data type.
    let _ = lhs.data_type();
    match lhs {
        AnyArray::Dictionary(array) => {
            let nulls = null_rows(alloc, array.values())?;
            let nulls = take_answers(alloc, &nulls, array.keys())?;
            known_or(alloc, true, nulls)
        }
        _ => boolean::is_null(alloc, lhs),
    }
}
