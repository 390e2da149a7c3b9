//! Rows that become null where they equal others.

use arrow_arrays::array::AnyArray;
use arrow_flat::array::{AnyElement, AnyPrimitive, PrimitiveArray};
use arrow_flat::scalar::{AnyPrimitiveScalar, AnyScalar, PrimitiveScalar};
use arrow_logic::nullif;
use arrow_text::call::Call;
use arrow_text::fault::Fault;
use arrow_text::write::{show, write_made};
use std::alloc::Global;

// Appends whether `nullif` is offered for two data types.
pub(crate) fn can_nullif(alloc: Global, call: &Call<'_>, out: &mut String) -> Result<(), Fault> {
    call.takes(2)?;
    let (lhs, rhs) = (call.boxed_type(alloc, 0)?, call.boxed_type(alloc, 1)?);
    show(out, nullif::can_nullif(&lhs, &rhs))
}

// Appends the rows of an array, null also where they equal those of another, by the call for any type or for one element
// type. `Usage` unless both have as many rows, and are of one type that the first is offered for.
pub(crate) fn nullif(alloc: Global, call: &Call<'_>, out: &mut String) -> Result<(), Fault> {
    let pair = call.pair(alloc, 0)?;
    let (lhs, rhs) = (&*pair.left, &*pair.right);
    if call.name == "nullif::primitive_nullif" {
        return write_elements(alloc, lhs, rhs, out);
    }
    if lhs.len() != rhs.len() || !nullif::can_nullif(lhs.data_type(), rhs.data_type()) {
        return Err(Fault::Usage);
    }
    write_made(out, nullif::nullif(alloc, lhs, rhs))
}

// Appends the rows of an array, null also where they equal a scalar. `Usage` where it is null, and unless both are of one
// type that the call for any type is offered for.
pub(crate) fn nullif_scalar(alloc: Global, call: &Call<'_>, out: &mut String) -> Result<(), Fault> {
    let (left, right) = call.array_and_scalar(alloc, 0)?;
    let (lhs, rhs) = (&*left.array, &*right.scalar);
    if call.name == "nullif::primitive_nullif_scalar" {
        return write_elements_of_scalar(alloc, lhs, rhs, out);
    }
    if !rhs.is_valid() || !nullif::can_nullif(lhs.data_type(), rhs.data_type()) {
        return Err(Fault::Usage);
    }
    write_made(out, nullif::nullif_scalar(alloc, lhs, rhs))
}

// By the call for one element type. `Usage` unless both have one.
fn write_elements(
    alloc: Global,
    lhs: &AnyArray,
    rhs: &AnyArray,
    out: &mut String,
) -> Result<(), Fault> {
    let (AnyArray::Primitive(lhs), AnyArray::Primitive(rhs)) = (lhs, rhs) else {
        return Err(Fault::Usage);
    };
    of_elements!((lhs, rhs), AnyPrimitive, elements, elements, (alloc, out))
}

// The same of a scalar.
fn write_elements_of_scalar(
    alloc: Global,
    lhs: &AnyArray,
    rhs: &AnyScalar,
    out: &mut String,
) -> Result<(), Fault> {
    let (AnyArray::Primitive(lhs), AnyScalar::Primitive(rhs)) = (lhs, rhs) else {
        return Err(Fault::Usage);
    };
    of_elements!(
        (lhs, rhs),
        AnyPrimitiveScalar,
        element,
        element,
        (alloc, out)
    )
}

// Of two arrays of one element type. `Usage` unless they have as many rows.
fn elements<T: AnyElement>(
    alloc: Global,
    out: &mut String,
    lhs: &PrimitiveArray<T>,
    rhs: &PrimitiveArray<T>,
) -> Result<(), Fault> {
    if lhs.len() != rhs.len() {
        return Err(Fault::Usage);
    }
    let rows = nullif::primitive_nullif(alloc, lhs, rhs)?;
    write_made(out, Ok(AnyArray::Primitive(T::to_any(&rows)?)))
}

// Of an array and a scalar of its element type. `Usage` where the scalar is null.
fn element<T: AnyElement>(
    alloc: Global,
    out: &mut String,
    lhs: &PrimitiveArray<T>,
    rhs: &PrimitiveScalar<T>,
) -> Result<(), Fault> {
    let value = rhs.value().ok_or(Fault::Usage)?;
    let rows = nullif::primitive_nullif_scalar(alloc, lhs, value)?;
    write_made(out, Ok(AnyArray::Primitive(T::to_any(&rows)?)))
}
