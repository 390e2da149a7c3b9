//! What lies in arrays, beneath nulls too.

use arrow_arrays::array::{AnyArray, AnyKeys};
use arrow_flat::array::{AnyPrimitive, BooleanArray, PrimitiveArray};
use arrow_text::fault::Fault;
use arrow_text::given::Array;
use arrow_types::error::Error;
use std::alloc::Global;

/// Numbers of 32 bits.
pub type Numbers = PrimitiveArray<i32>;

/// An array of numbers, or the keys of one of dictionaries.
pub fn numbers(array: &AnyArray) -> Result<&Numbers, Fault> {
    match array {
        AnyArray::Primitive(AnyPrimitive::Int32(numbers)) => Ok(numbers),
        AnyArray::Dictionary(array) => match array.keys() {
            AnyKeys::Int32(keys) => Ok(keys),
            _ => Err(Fault::Usage),
        },
        _ => Err(Fault::Usage),
    }
}

/// An array of truth values.
pub fn truths(array: &AnyArray) -> Result<&BooleanArray, Fault> {
    match array {
        AnyArray::Boolean(truths) => Ok(truths),
        _ => Err(Fault::Usage),
    }
}

/// Whether two arrays of numbers are equal, beneath nulls too.
pub fn are_same_numbers(made: &Numbers, wanted: &Numbers) -> bool {
    *made == *wanted && made.values().as_slice() == wanted.values().as_slice()
}

/// Whether a call made an array that is equal to another one.
pub fn is_made(
    alloc: Global,
    outcome: Result<AnyArray, Error>,
    wanted: &AnyArray,
) -> Result<bool, Fault> {
    let made = Array::new(alloc, outcome?)?;
    Ok(*made.array == *wanted)
}
