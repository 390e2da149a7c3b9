//! Arrays: how they are told apart, lent, and compared by type.

ghost use Rattle.std.specs.Prelude.{◌<◌, length, IsTrue};
ghost use Rattle.arrow_arrays.specs.Any.{layouts_in};
ghost use Rattle.arrow_flat_growable.specs.Grown.{AreOfOneType};

use arrow_arrays::array::AnyArray;
use arrow_flat::array::{AnyElement, AnyPrimitive, BooleanArray, PrimitiveArray};
use arrow_text::fault::Fault;
use arrow_text::given::Arrays;
use arrow_types::error::Error;
use std::alloc::Global;

// The array of truth values that an array is.
pub(crate) fn as_boolean(array: &AnyArray) -> Result<&BooleanArray, Fault> {
    match array {
        AnyArray::Boolean(array) => Ok(array),
        _ => Err(Fault::Usage),
    }
}

// The array of numbers or intervals that an array is.
pub(crate) fn as_primitive(array: &AnyArray) -> Result<&AnyPrimitive, Fault> {
    match array {
        AnyArray::Primitive(array) => Ok(array),
        _ => Err(Fault::Usage),
    }
}

// An array of numbers or intervals as one of any type.
pub(crate) fn as_any<T: AnyElement>(array: &PrimitiveArray<T>) -> Result<AnyArray, Error> {
    Ok(AnyArray::Primitive(T::to_any(array)?))
}

// The arrays, lent.
pub(crate) fn lend_all<'a>(alloc: Global, given: &'a Arrays) -> Result<Vec<&'a AnyArray>, Fault> {
    let mut lent = Vec::with_capacity(alloc, given.arrays.len())?;
    for array in &given.arrays {
        lent.push(array)?;
    }
    Ok(lent)
}

// Whether there is an array, and all are of one data type.
pub(crate) fn are_of_one_type(arrays: &[&AnyArray]) -> bool
    ensures some { IsTrue result → 0 < length arrays.now }
    ensures one_type { IsTrue result → AreOfOneType (layouts_in arrays.now) }
{
    let Some(first) = arrays.first() else {
        return false;
    };
    for array in arrays {
        let is_alike = *array.data_type() == *first.data_type();
        if !is_alike {
            return false;
        }
    }
    true
}
