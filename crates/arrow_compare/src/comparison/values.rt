//! Rows of an array without dictionaries and a value, a scalar that is no null.

ghost use Rattle.std.specs.Prelude.{◌≡◌, ◌≢◌, false, map, None, Some};
ghost use Rattle.arrow_types.specs.ArrowType.{boolean};
ghost use Rattle.arrow_types.specs.Relation.{is_null, related};
ghost use Rattle.arrow_flat.specs.AnyPrimitive.{any_rows, element_of};
ghost use Rattle.arrow_flat.specs.AnyPrimitiveScalar.{any_scalar_slot, element_of as scalar_element};
ghost use Rattle.arrow_flat.specs.AnyScalar.{meaning_of};
ghost use Rattle.arrow_flat.specs.Scalars.{slot_by};
ghost use Rattle.arrow_arrays.specs.Any.{any_array_rows, kind_of, primitive_kind};
ghost use Rattle.arrow_relate.specs.Related.{relation_of};
ghost use Rattle.arrow_compare.specs.Kinds.{IsEquality, KindHasRelation, scalar_kind};
ghost use Rattle.arrow_flat.specs.Truths.{AnswersTruths};

use arrow_arrays::array::AnyArray;
use arrow_flat::array::{AnyElement, AnyPrimitive, BooleanArray};
use arrow_flat::scalar::{AnyPrimitiveScalar, AnyScalar, PrimitiveScalar};
use arrow_relate::comparison::{binary, boolean, primitive, utf8};
use arrow_relate::relation::Relation;
use arrow_types::error::Error;
use arrow_types::types::NativeOrd;
use std::alloc::Global;

// Whether each row is so related to the value, and null where the row is.
#[inline(always)]
pub(super) fn relate_flat(
    alloc: Global,
    by: Relation,
    lhs: &AnyArray,
    rhs: &AnyScalar,
) -> Result<BooleanArray, Error>
    requires one_kind { kind_of lhs.now ≡ scalar_kind rhs.now }
    requires has_relation { KindHasRelation (relation_of by) (scalar_kind rhs.now) }
    requires valid { is_null (meaning_of rhs.now).1 ≡ false }
    ensures { AnswersTruths result
        (map (λ s. related (relation_of by) s (meaning_of rhs.now).1) (any_array_rows lhs.now)) }
{
    match (lhs, rhs) {
        (AnyArray::Boolean(array), AnyScalar::Boolean(scalar)) => {
            boolean::relate_scalar(alloc, by, array, known(scalar.value()))
        }
        (AnyArray::Primitive(array), AnyScalar::Primitive(scalar)) => {
            relate_primitive(alloc, by, array, scalar)
        }
        (AnyArray::Utf8(array), AnyScalar::Utf8(scalar)) => {
            utf8::relate_scalar(alloc, by, array, known(scalar.value()))
        }
        (AnyArray::LargeUtf8(array), AnyScalar::LargeUtf8(scalar)) => {
            utf8::relate_scalar(alloc, by, array, known(scalar.value()))
        }
        (AnyArray::Binary(array), AnyScalar::Binary(scalar)) => {
            binary::relate_scalar(alloc, by, array, known(scalar.value()))
        }
        (AnyArray::LargeBinary(array), AnyScalar::LargeBinary(scalar)) => {
            binary::relate_scalar(alloc, by, array, known(scalar.value()))
        }
        _ => unreachable!(),
    }
}

// The value of a scalar that is no null.
fn known<T: Copy>(value: Option<T>) -> T
    requires { value ≢ None }
    ensures { value ≡ Some result }
{
    let Some(value) = value else {
        unreachable!();
    };
    value
}

// [`relate_flat`] of primitives of one element type.
#[inline(never)]
fn relate_primitive(
    alloc: Global,
    by: Relation,
    lhs: &AnyPrimitive,
    rhs: &AnyPrimitiveScalar,
) -> Result<BooleanArray, Error>
    requires one_element { element_of lhs.now ≡ scalar_element rhs.now }
    requires has_relation { KindHasRelation (relation_of by) (primitive_kind (scalar_element rhs.now)) }
    requires valid { is_null (any_scalar_slot rhs.now) ≡ false }
    ensures { AnswersTruths result
        (map (λ s. related (relation_of by) s (any_scalar_slot rhs.now)) (any_rows lhs.now)) }
{
    match rhs {
        AnyPrimitiveScalar::Int8(rhs) => relate_number(alloc, by, lhs, rhs),
        AnyPrimitiveScalar::Int16(rhs) => relate_number(alloc, by, lhs, rhs),
        AnyPrimitiveScalar::Int32(rhs) => relate_number(alloc, by, lhs, rhs),
        AnyPrimitiveScalar::Int64(rhs) => relate_number(alloc, by, lhs, rhs),
        AnyPrimitiveScalar::Int128(rhs) => relate_number(alloc, by, lhs, rhs),
        AnyPrimitiveScalar::Int256(rhs) => relate_number(alloc, by, lhs, rhs),
        AnyPrimitiveScalar::UInt8(rhs) => relate_number(alloc, by, lhs, rhs),
        AnyPrimitiveScalar::UInt16(rhs) => relate_number(alloc, by, lhs, rhs),
        AnyPrimitiveScalar::UInt32(rhs) => relate_number(alloc, by, lhs, rhs),
        AnyPrimitiveScalar::UInt64(rhs) => relate_number(alloc, by, lhs, rhs),
        AnyPrimitiveScalar::DaysMs(rhs) => relate_interval(alloc, by, lhs, rhs),
        AnyPrimitiveScalar::MonthDayNano(rhs) => relate_interval(alloc, by, lhs, rhs),
    }
}

// [`relate_flat`] of numbers, where the array is known to have the element type.
fn relate_number<T: AnyElement + NativeOrd>(
    alloc: Global,
    by: Relation,
    lhs: &AnyPrimitive,
    rhs: &PrimitiveScalar<T>,
) -> Result<BooleanArray, Error>
    requires one_element { element_of lhs.now ≡ T.PRIMITIVE }
    requires valid { is_null (slot_by T.slot rhs.now.value) ≡ false }
    ensures { AnswersTruths result
        (map (λ s. related (relation_of by) s (slot_by T.slot rhs.now.value)) (any_rows lhs.now)) }
{
    primitive::relate_scalar(alloc, by, T::of_any(lhs), known(rhs.value()))
}

// The same of intervals, which stand in no order.
fn relate_interval<T: AnyElement>(
    alloc: Global,
    by: Relation,
    lhs: &AnyPrimitive,
    rhs: &PrimitiveScalar<T>,
) -> Result<BooleanArray, Error>
    requires one_element { element_of lhs.now ≡ T.PRIMITIVE }
    requires equality { IsEquality (relation_of by) }
    requires valid { is_null (slot_by T.slot rhs.now.value) ≡ false }
    ensures { AnswersTruths result
        (map (λ s. related (relation_of by) s (slot_by T.slot rhs.now.value)) (any_rows lhs.now)) }
{
    match by {
        Relation::Eq => primitive::eq_scalar(alloc, T::of_any(lhs), known(rhs.value())),
        Relation::Neq => primitive::neq_scalar(alloc, T::of_any(lhs), known(rhs.value())),
        _ => unreachable!(),
    }
}
