//! Arrays of truth values that are made of bits.

ghost use Rattle.std.specs.Prelude.{◌≡◌, length};
ghost use Rattle.arrow_types.specs.ArrowType.{boolean, plain};
ghost use Rattle.arrow_flat.specs.Parts.{FitsRows};

use crate::array::BooleanArray;
use arrow_memory::bitmap::Bitmap;
use arrow_types::datatypes::DataType;

/// An array of type Boolean. It takes no memory.
///
/// # Requires
/// A validity has a bit for each value.
#[inline(always)]
pub fn truths(values: Bitmap, validity: Option<Bitmap>) -> BooleanArray
    requires { FitsRows validity (length values) }
    ensures { result ≡ record { arrow_type = plain boolean; values = values; validity = validity } }
{
    BooleanArray::new(DataType::Boolean, values, validity)
}
