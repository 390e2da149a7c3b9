//! Comparisons of numbers and of intervals.

use crate::compare::Asked;
use arrow_flat::array::{AnyPrimitive, PrimitiveArray};
use arrow_flat::scalar::{AnyPrimitiveScalar, PrimitiveScalar};
use arrow_relate::comparison::primitive;
use arrow_text::fault::Fault;
use arrow_text::write::write_truths;
use arrow_types::types::{NativeOrd, NativeType};
use std::alloc::Global;

// Appends what is asked of two arrays of one element type. `Usage` unless both have one.
pub(crate) fn of_arrays(
    alloc: Global,
    asked: Asked,
    lhs: &AnyPrimitive,
    rhs: &AnyPrimitive,
    out: &mut String,
) -> Result<(), Fault> {
    of_elements!(
        (lhs, rhs),
        AnyPrimitive,
        of_numbers,
        of_intervals,
        (alloc, asked, out)
    )
}

// Appends what is asked of an array and a scalar of one element type. `Usage` unless both have one.
pub(crate) fn of_scalar(
    alloc: Global,
    asked: Asked,
    lhs: &AnyPrimitive,
    rhs: &AnyPrimitiveScalar,
    out: &mut String,
) -> Result<(), Fault> {
    of_elements!(
        (lhs, rhs),
        AnyPrimitiveScalar,
        of_number,
        of_interval,
        (alloc, asked, out)
    )
}

// Of two arrays of numbers. `Usage` unless they have as many rows.
fn of_numbers<T: NativeOrd>(
    alloc: Global,
    asked: Asked,
    out: &mut String,
    lhs: &PrimitiveArray<T>,
    rhs: &PrimitiveArray<T>,
) -> Result<(), Fault> {
    if lhs.len() != rhs.len() {
        return Err(Fault::Usage);
    }
    write_truths(out, of_arrays!(asked, primitive(alloc, lhs, rhs)))
}

// Of numbers and one of them. `Usage` where it is null.
fn of_number<T: NativeOrd>(
    alloc: Global,
    asked: Asked,
    out: &mut String,
    lhs: &PrimitiveArray<T>,
    rhs: &PrimitiveScalar<T>,
) -> Result<(), Fault> {
    let rhs = rhs.value().ok_or(Fault::Usage)?;
    write_truths(out, of_scalar!(asked, primitive(alloc, lhs, rhs)))
}

// Of two arrays of intervals, which stand in no order. `Usage` where one is asked for, and unless they have as many rows.
fn of_intervals<T: NativeType>(
    alloc: Global,
    asked: Asked,
    out: &mut String,
    lhs: &PrimitiveArray<T>,
    rhs: &PrimitiveArray<T>,
) -> Result<(), Fault> {
    if lhs.len() != rhs.len() {
        return Err(Fault::Usage);
    }
    let truths = match asked {
        Asked::Eq => primitive::eq(alloc, lhs, rhs),
        Asked::Neq => primitive::neq(alloc, lhs, rhs),
        Asked::Same => primitive::eq_and_validity(alloc, lhs, rhs),
        Asked::Differing => primitive::neq_and_validity(alloc, lhs, rhs),
        _ => return Err(Fault::Usage),
    };
    write_truths(out, truths)
}

// Of intervals and one of them. `Usage` where an order is asked for, and where it is null.
fn of_interval<T: NativeType>(
    alloc: Global,
    asked: Asked,
    out: &mut String,
    lhs: &PrimitiveArray<T>,
    rhs: &PrimitiveScalar<T>,
) -> Result<(), Fault> {
    let rhs = rhs.value().ok_or(Fault::Usage)?;
    let truths = match asked {
        Asked::Eq => primitive::eq_scalar(alloc, lhs, rhs),
        Asked::Neq => primitive::neq_scalar(alloc, lhs, rhs),
        Asked::Same => primitive::eq_scalar_and_validity(alloc, lhs, rhs),
        Asked::Differing => primitive::neq_scalar_and_validity(alloc, lhs, rhs),
        _ => return Err(Fault::Usage),
    };
    write_truths(out, truths)
}
