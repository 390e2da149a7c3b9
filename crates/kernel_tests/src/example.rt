//! The example of the front page.

use arrow_arrays::array::AnyArray;
use arrow_flat::array::{AnyPrimitive, BooleanArray, PrimitiveArray};
use arrow_memory::bitmap::Bitmap;
use arrow_memory::buffer::Buffer;
use arrow_select::concatenate::concatenate;
use arrow_select::filter::filter;
use arrow_text::fault::Fault;
use arrow_text::given::Array;
use arrow_types::datatypes::DataType;
use arrow_types::{ArgumentFault, Error};
use std::alloc::Global;
use test_lines::lines::{PLAIN, wrong_line};

// Numbers, as an array of any type.
fn numbers(alloc: Global, values: Vec<i32>) -> Result<AnyArray, Error> {
    let values = Buffer::from_vec(alloc, values)?;
    let array = PrimitiveArray::try_new(DataType::Int32, values, None)?;
    Ok(AnyArray::Primitive(AnyPrimitive::Int32(array)))
}

// The rows at which the mask is true.
fn kept(alloc: Global, array: &AnyArray, mask: &[bool]) -> Result<AnyArray, Error> {
    let mask = Bitmap::from_bools(alloc, mask)?;
    let mask = BooleanArray::try_new(DataType::Boolean, mask, None)?;
    if mask.len() != array.len() {
        return Err(Error::InvalidArgumentError(ArgumentFault::Lengths));
    }
    filter(alloc, array, &mask)
}

// The numbers at which a mask is true.
fn kept_numbers(alloc: Global, values: &[i32], mask: &[bool]) -> Result<Array, Fault> {
    let values = Vec::from_slice(alloc, values)?;
    let all = Array::new(alloc, numbers(alloc, values)?)?;
    Array::new(alloc, kept(alloc, &all.array, mask)?)
}

// Whether those of two arrays, one behind the other, are 5 and 8.
fn joined(alloc: Global, _name: &str, _arrays: &[AnyArray]) -> Result<bool, Fault> {
    let low = kept_numbers(alloc, &[5, 6, 7], &[true, false, false])?;
    let high = kept_numbers(alloc, &[8, 9], &[true, false])?;
    let both = Array::new(alloc, concatenate(alloc, &[&low.array, &high.array])?)?;
    match &*both.array {
        AnyArray::Primitive(AnyPrimitive::Int32(rows)) => {
            Ok(rows.values().as_slice() == [5, 8].as_slice())
        }
        _ => Ok(false),
    }
}

#[test]
fn example(rt: HostRuntime) {
    assert_eq!(rt;
        wrong_line(
            rt.alloc(),
            &[("example", joined)],
            &[["example", ""]],
            &PLAIN
        ),
        None
    );
}
