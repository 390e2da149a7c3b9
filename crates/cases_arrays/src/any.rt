//! Calls of arrays of any type.

ghost use Rattle.std.specs.Prelude.{IfOk};
ghost use Rattle.arrow_types.specs.Carried.{IsCarried};
ghost use Rattle.arrow_types.specs.TypeOf.{type_of};

use crate::parts::{self, OfPart};
use crate::within::check_within;
use arrow_arrays::array::AnyArray;
use arrow_new::{new_empty_array, new_null_array};
use arrow_text::call::Call;
use arrow_text::fault::Fault;
use arrow_text::types::write_type;
use arrow_text::write::{show, write_array, write_made, write_validity};
use arrow_types::datatypes::DataType;
use arrow_types::error::Error;
use std::alloc::Global;

/// The methods of an array that take nothing else.
#[derive(Clone, Copy)]
pub(crate) enum OfArray {
    Clone,
    DataType,
    IsEmpty,
    Len,
    NullCount,
    Part(OfPart),
    TryNew,
    Validity,
}

// The calls that take an array.
pub(crate) fn of_array(
    alloc: Global,
    method: OfArray,
    call: &Call<'_>,
    out: &mut String,
) -> Result<(), Fault> {
    let array = call.only_array(alloc)?;
    write_of_array(method, &*array.array, out)
}

// The same of an array that is lent.
fn write_of_array(method: OfArray, array: &AnyArray, out: &mut String) -> Result<(), Fault> {
    match method {
        OfArray::Clone => write_made(out, cloned(array)),
        OfArray::DataType => write_type(out, array.data_type()),
        OfArray::IsEmpty => show(out, array.is_empty()),
        OfArray::Len => show(out, array.len()),
        OfArray::NullCount => show(out, array.null_count()),
        OfArray::Part(part) => parts::size(part, array, out),
        OfArray::TryNew => write_array(out, array),
        OfArray::Validity => write_validity(out, array.validity()),
    }
}

/// The methods of an array that take a number too.
#[derive(Clone, Copy)]
pub(crate) enum OfArrayAt {
    AreWithin,
    Index,
    IsValid,
    Key,
    StartEnd,
}

// The calls that take an array and a number.
pub(crate) fn of_array_at(
    alloc: Global,
    method: OfArrayAt,
    call: &Call<'_>,
    out: &mut String,
) -> Result<(), Fault> {
    let i = call.integer_of(2, 1)?;
    let array = call.array(alloc, 0)?;
    write_of_array_at(method, &*array.array, i, out)
}

// The same of an array that is lent.
fn write_of_array_at(
    method: OfArrayAt,
    array: &AnyArray,
    i: usize,
    out: &mut String,
) -> Result<(), Fault> {
    match method {
        OfArrayAt::AreWithin => parts::are_within(array, i, out),
        OfArrayAt::Index => parts::index(array, i, out),
        OfArrayAt::IsValid => is_valid(array, i, out),
        OfArrayAt::Key => parts::key(array, i, out),
        OfArrayAt::StartEnd => parts::start_end(array, i, out),
    }
}

// A clone of the array, or that memory was refused.
fn cloned(array: &AnyArray) -> Result<AnyArray, Error> {
    Ok(array.clone()?)
}

// Whether a row is no null.
fn is_valid(array: &AnyArray, i: usize, out: &mut String) -> Result<(), Fault> {
    if i < array.len() {
        show(out, array.is_valid(i))
    } else {
        Err(Fault::Usage)
    }
}

// Whether two arrays are equal.
pub(crate) fn eq(alloc: Global, call: &Call<'_>, out: &mut String) -> Result<(), Fault> {
    let pair = call.pair(alloc, 0)?;
    show(out, *pair.left == *pair.right)
}

// A part of an array, which is kept of it.
pub(crate) fn slice(alloc: Global, call: &Call<'_>, out: &mut String) -> Result<(), Fault> {
    let (offset, len) = call.range_of(3, 1)?;
    let mut array = call.array(alloc, 0)?;
    slice_within(&mut *array.array, offset, len, out)
}

// The same, if the part is within the array.
fn slice_within(
    array: &mut AnyArray,
    offset: usize,
    len: usize,
    out: &mut String,
) -> Result<(), Fault> {
    check_within(offset, len, array.len())?;
    array.slice(offset, len);
    write_array(out, array)
}

// A part of an array, which is made of it.
pub(crate) fn sliced(alloc: Global, call: &Call<'_>, out: &mut String) -> Result<(), Fault> {
    let (offset, len) = call.range_of(3, 1)?;
    let array = call.array(alloc, 0)?;
    check_within(offset, len, array.array.len())?;
    write_made(out, Ok(array.into_inner().sliced(offset, len)))
}

// Argument 0, a type of which there are arrays.
fn carried(alloc: Global, call: &Call<'_>) -> Result<DataType, Fault>
    ensures { IfOk result (λ data_type. IsCarried (type_of data_type)) }
{
    let data_type = call.data_type(alloc, 0)?;
    if data_type.is_carried() {
        Ok(data_type)
    } else {
        Err(Fault::Usage)
    }
}

// An array without rows.
pub(crate) fn new_empty(alloc: Global, call: &Call<'_>, out: &mut String) -> Result<(), Fault> {
    call.takes(1)?;
    write_made(out, new_empty_array(alloc, carried(alloc, call)?))
}

// An array of null slots.
pub(crate) fn new_null(alloc: Global, call: &Call<'_>, out: &mut String) -> Result<(), Fault> {
    let len = call.integer_of(2, 1)?;
    write_made(out, new_null_array(alloc, carried(alloc, call)?, len))
}
