//! Arrays of one data type.

ghost use Rattle.std.specs.Prelude.{◌≡◌, ◌↔◌, IsTrue};
ghost use Rattle.arrow_arrays.specs.Any.{any_array_type};

use arrow_arrays::array::AnyArray;

/// Whether two arrays are of one data type.
pub fn is_of_type(array: &AnyArray, other: &AnyArray) -> bool
    ensures { IsTrue result ↔ (any_array_type array.now ≡ any_array_type other.now) }
{
    *array.data_type() == *other.data_type()
}
