//! Rows of two arrays of logically one type.

ghost use Rattle.std.specs.Prelude.{◌≡◌, length, map};
ghost use Rattle.arrow_types.specs.ArrowType.{boolean, logical};
ghost use Rattle.arrow_types.specs.Physical.{physical_type_of};
ghost use Rattle.arrow_types.specs.Relation.{related};
ghost use Rattle.arrow_flat.specs.AnyPrimitive.{any_rows, element_of};
ghost use Rattle.arrow_flat.specs.Parts.{rows_by};
ghost use Rattle.arrow_arrays.specs.Any.{any_array_rows, any_array_type, primitive_kind};
ghost use Rattle.arrow_flat.specs.RowByRow.{row_by_row};
ghost use Rattle.arrow_relate.specs.Related.{relation_of};
ghost use Rattle.arrow_relate.specs.Same.{is_same};
ghost use Rattle.arrow_compare.specs.Compared.{HasEquality, HasRelation};
ghost use Rattle.arrow_compare.specs.Kinds.{IsEquality, KindHasRelation};
ghost use Rattle.arrow_flat.specs.Truths.{AnswersTruths};

use crate::kinds::have_one_kind;
use arrow_arrays::array::AnyArray;
use arrow_flat::array::{AnyElement, AnyPrimitive, BooleanArray, PrimitiveArray};
use arrow_relate::comparison::{binary, boolean, primitive, utf8};
use arrow_relate::relation::Relation;
use arrow_types::error::Error;
use arrow_types::types::NativeOrd;
use std::alloc::Global;

// Whether each row is so related to that of the right side, and null where one of the two is.
pub(super) fn relate(
    alloc: Global,
    by: Relation,
    lhs: &AnyArray,
    rhs: &AnyArray,
) -> Result<BooleanArray, Error>
    requires one_type { logical (any_array_type lhs.now) ≡ logical (any_array_type rhs.now) }
    requires one_length { length (any_array_rows lhs.now) ≡ length (any_array_rows rhs.now) }
    requires has_relation { HasRelation (relation_of by) (physical_type_of (any_array_type lhs.now)) }
    ensures { AnswersTruths result
        (row_by_row (related (relation_of by)) (any_array_rows lhs.now) (any_array_rows rhs.now)) }
{
    have_one_kind(by, lhs, rhs);
    match (lhs, rhs) {
        (AnyArray::Boolean(left), AnyArray::Boolean(right)) => {
            boolean::relate(alloc, by, left, right)
        }
        (AnyArray::Primitive(left), AnyArray::Primitive(right)) => {
            relate_primitive(alloc, by, left, right)
        }
        (AnyArray::Utf8(left), AnyArray::Utf8(right)) => utf8::relate(alloc, by, left, right),
        (AnyArray::LargeUtf8(left), AnyArray::LargeUtf8(right)) => {
            utf8::relate(alloc, by, left, right)
        }
        (AnyArray::Binary(left), AnyArray::Binary(right)) => {
            binary::relate(alloc, by, left, right)
        }
        (AnyArray::LargeBinary(left), AnyArray::LargeBinary(right)) => {
            binary::relate(alloc, by, left, right)
        }
        _ => unreachable!(),
    }
}

// Whether the rows of both sides are the same: two nulls are, and a null and a value are not. No row is null.
pub(super) fn same(alloc: Global, lhs: &AnyArray, rhs: &AnyArray) -> Result<BooleanArray, Error>
    requires one_type { logical (any_array_type lhs.now) ≡ logical (any_array_type rhs.now) }
    requires one_length { length (any_array_rows lhs.now) ≡ length (any_array_rows rhs.now) }
    requires has_equality { HasEquality (physical_type_of (any_array_type lhs.now)) }
    ensures { AnswersTruths result (row_by_row is_same (any_array_rows lhs.now) (any_array_rows rhs.now)) }
{
    have_one_kind(Relation::Eq, lhs, rhs);
    match (lhs, rhs) {
        (AnyArray::Boolean(left), AnyArray::Boolean(right)) => {
            boolean::eq_and_validity(alloc, left, right)
        }
        (AnyArray::Primitive(left), AnyArray::Primitive(right)) => {
            same_primitive(alloc, left, right)
        }
        (AnyArray::Utf8(left), AnyArray::Utf8(right)) => utf8::eq_and_validity(alloc, left, right),
        (AnyArray::LargeUtf8(left), AnyArray::LargeUtf8(right)) => {
            utf8::eq_and_validity(alloc, left, right)
        }
        (AnyArray::Binary(left), AnyArray::Binary(right)) => {
            binary::eq_and_validity(alloc, left, right)
        }
        (AnyArray::LargeBinary(left), AnyArray::LargeBinary(right)) => {
            binary::eq_and_validity(alloc, left, right)
        }
        _ => unreachable!(),
    }
}

// [`relate`] of two arrays of one element type.
fn relate_primitive(
    alloc: Global,
    by: Relation,
    lhs: &AnyPrimitive,
    rhs: &AnyPrimitive,
) -> Result<BooleanArray, Error>
    requires one_element { element_of lhs.now ≡ element_of rhs.now }
    requires one_length { length (any_rows lhs.now) ≡ length (any_rows rhs.now) }
    requires has_relation { KindHasRelation (relation_of by) (primitive_kind (element_of lhs.now)) }
    ensures { AnswersTruths result
        (row_by_row (related (relation_of by)) (any_rows lhs.now) (any_rows rhs.now)) }
{
    match lhs {
        AnyPrimitive::Int8(left) => relate_numbers(alloc, by, left, rhs),
        AnyPrimitive::Int16(left) => relate_numbers(alloc, by, left, rhs),
        AnyPrimitive::Int32(left) => relate_numbers(alloc, by, left, rhs),
        AnyPrimitive::Int64(left) => relate_numbers(alloc, by, left, rhs),
        AnyPrimitive::Int128(left) => relate_numbers(alloc, by, left, rhs),
        AnyPrimitive::Int256(left) => relate_numbers(alloc, by, left, rhs),
        AnyPrimitive::UInt8(left) => relate_numbers(alloc, by, left, rhs),
        AnyPrimitive::UInt16(left) => relate_numbers(alloc, by, left, rhs),
        AnyPrimitive::UInt32(left) => relate_numbers(alloc, by, left, rhs),
        AnyPrimitive::UInt64(left) => relate_numbers(alloc, by, left, rhs),
        AnyPrimitive::DaysMs(left) => relate_intervals(alloc, by, left, rhs),
        AnyPrimitive::MonthDayNano(left) => relate_intervals(alloc, by, left, rhs),
    }
}

// [`relate`] of numbers, where the right array is known to have the element type.
fn relate_numbers<T: AnyElement + NativeOrd>(
    alloc: Global,
    by: Relation,
    lhs: &PrimitiveArray<T>,
    rhs: &AnyPrimitive,
) -> Result<BooleanArray, Error>
    requires one_element { element_of rhs.now ≡ T.PRIMITIVE }
    requires one_length { length (rows_by (map T.slot) lhs.now) ≡ length (any_rows rhs.now) }
    ensures { AnswersTruths result
        (row_by_row (related (relation_of by)) (rows_by (map T.slot) lhs.now) (any_rows rhs.now)) }
{
    primitive::relate(alloc, by, lhs, T::of_any(rhs))
}

// The same of intervals that stand in no order.
fn relate_intervals<T: AnyElement>(
    alloc: Global,
    by: Relation,
    lhs: &PrimitiveArray<T>,
    rhs: &AnyPrimitive,
) -> Result<BooleanArray, Error>
    requires one_element { element_of rhs.now ≡ T.PRIMITIVE }
    requires one_length { length (rows_by (map T.slot) lhs.now) ≡ length (any_rows rhs.now) }
    requires equality { IsEquality (relation_of by) }
    ensures { AnswersTruths result
        (row_by_row (related (relation_of by)) (rows_by (map T.slot) lhs.now) (any_rows rhs.now)) }
{
    match by {
        Relation::Eq => primitive::eq(alloc, lhs, T::of_any(rhs)),
        Relation::Neq => primitive::neq(alloc, lhs, T::of_any(rhs)),
        _ => unreachable!(),
    }
}

// [`same`] of two arrays of one element type.
fn same_primitive(
    alloc: Global,
    lhs: &AnyPrimitive,
    rhs: &AnyPrimitive,
) -> Result<BooleanArray, Error>
    requires one_element { element_of lhs.now ≡ element_of rhs.now }
    requires one_length { length (any_rows lhs.now) ≡ length (any_rows rhs.now) }
    ensures { AnswersTruths result (row_by_row is_same (any_rows lhs.now) (any_rows rhs.now)) }
{
    match lhs {
        AnyPrimitive::Int8(left) => same_elements(alloc, left, rhs),
        AnyPrimitive::Int16(left) => same_elements(alloc, left, rhs),
        AnyPrimitive::Int32(left) => same_elements(alloc, left, rhs),
        AnyPrimitive::Int64(left) => same_elements(alloc, left, rhs),
        AnyPrimitive::Int128(left) => same_elements(alloc, left, rhs),
        AnyPrimitive::Int256(left) => same_elements(alloc, left, rhs),
        AnyPrimitive::UInt8(left) => same_elements(alloc, left, rhs),
        AnyPrimitive::UInt16(left) => same_elements(alloc, left, rhs),
        AnyPrimitive::UInt32(left) => same_elements(alloc, left, rhs),
        AnyPrimitive::UInt64(left) => same_elements(alloc, left, rhs),
        AnyPrimitive::DaysMs(left) => same_elements(alloc, left, rhs),
        AnyPrimitive::MonthDayNano(left) => same_elements(alloc, left, rhs),
    }
}

// [`same`] where the right array is known to have the element type.
fn same_elements<T: AnyElement>(
    alloc: Global,
    lhs: &PrimitiveArray<T>,
    rhs: &AnyPrimitive,
) -> Result<BooleanArray, Error>
    requires one_element { element_of rhs.now ≡ T.PRIMITIVE }
    requires one_length { length (rows_by (map T.slot) lhs.now) ≡ length (any_rows rhs.now) }
    ensures { AnswersTruths result (row_by_row is_same (rows_by (map T.slot) lhs.now) (any_rows rhs.now)) }
{
    primitive::eq_and_validity(alloc, lhs, T::of_any(rhs))
}
