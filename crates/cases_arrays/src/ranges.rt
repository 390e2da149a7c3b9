//! Parts of two flat arrays that are compared.

ghost use Rattle.std.specs.Prelude.{◌≡◌, IsTrue};
ghost use Rattle.arrow_flat.specs.AnyPrimitive.{element_of};

use crate::within::check_within;
use arrow_arrays::array::AnyArray;
use arrow_flat::array::{AnyPrimitive, FlatArray, Values};
use arrow_text::call::Call;
use arrow_text::fault::Fault;
use arrow_text::write::show;
use std::alloc::Global;

/// So many rows from one on, and from another on of a second array.
#[derive(Clone, Copy)]
struct Ranges {
    start: usize,
    other_start: usize,
    len: usize,
}

// Whether rows of two flat arrays are the same.
pub(crate) fn equal_range(alloc: Global, call: &Call<'_>, out: &mut String) -> Result<(), Fault> {
    let start = call.integer_of(5, 1)?;
    let (other_start, len) = call.range(3)?;
    let ranges = Ranges {
        start,
        other_start,
        len,
    };
    let left = call.array(alloc, 0)?;
    let right = call.array(alloc, 2)?;
    show_equal(&*left.array, &*right.array, ranges, out)
}

// The same of two arrays that are lent.
fn show_equal(
    left: &AnyArray,
    right: &AnyArray,
    ranges: Ranges,
    out: &mut String,
) -> Result<(), Fault> {
    if *left.data_type() != *right.data_type() {
        return Err(Fault::Usage);
    }
    show(out, are_equal(left, right, ranges)?)
}

// Whether rows of two arrays of one kind are the same.
fn are_equal(left: &AnyArray, right: &AnyArray, ranges: Ranges) -> Result<bool, Fault> {
    match (left, right) {
        (AnyArray::Boolean(left), AnyArray::Boolean(right)) => flat(left, right, ranges),
        (AnyArray::Primitive(left), AnyArray::Primitive(right)) => numbers(left, right, ranges),
        (AnyArray::Utf8(left), AnyArray::Utf8(right)) => flat(left, right, ranges),
        (AnyArray::LargeUtf8(left), AnyArray::LargeUtf8(right)) => flat(left, right, ranges),
        (AnyArray::Binary(left), AnyArray::Binary(right)) => flat(left, right, ranges),
        (AnyArray::LargeBinary(left), AnyArray::LargeBinary(right)) => flat(left, right, ranges),
        (AnyArray::FixedSizeBinary(left), AnyArray::FixedSizeBinary(right)) => {
            flat(left, right, ranges)
        }
        _ => Err(Fault::Usage),
    }
}

// The same of arrays that store their rows alike.
fn flat<V: Values>(
    left: &FlatArray<V>,
    right: &FlatArray<V>,
    ranges: Ranges,
) -> Result<bool, Fault> {
    let Ranges {
        start,
        other_start,
        len,
    } = ranges;
    check_within(start, len, left.len())?;
    check_within(other_start, len, right.len())?;
    Ok(left.equal_range(start, right, other_start, len))
}

// The same of numbers or intervals.
fn numbers(left: &AnyPrimitive, right: &AnyPrimitive, ranges: Ranges) -> Result<bool, Fault> {
    let Ranges {
        start,
        other_start,
        len,
    } = ranges;
    if !have_one_type(left, right) {
        return Err(Fault::Usage);
    }
    check_within(start, len, left.len())?;
    check_within(other_start, len, right.len())?;
    Ok(left.equal_range(start, right, other_start, len))
}

// Whether two arrays have one data type, and so one element type.
fn have_one_type(left: &AnyPrimitive, right: &AnyPrimitive) -> bool
    ensures { IsTrue result → element_of left.now ≡ element_of right.now }
{
    *left.data_type() == *right.data_type()
}
