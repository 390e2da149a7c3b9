//! A column of numbers that is read of texts, as of the fields of a file.

ghost use Rattle.std.specs.Prelude.{◌≡◌, IfOk, IfErr, IsOkUnless};
ghost use Rattle.gevaindy.specs.Errors.Error.{Error};
ghost use Rattle.gevaindy.specs.Any.{any_array_rows};
ghost use Rattle.gevaindy.specs.Refusals.{IsConcatenateRefusal};
ghost use Rattle.gevaindy.specs.Typed.{int_rows};
ghost use Rattle.uses.specs.Texts.{AppendsNumbers, AreRowsOf, int32, texts_in};

use gevaindy::array::{AnyArray, AnyPrimitive, PrimitiveArray};
use gevaindy::bitmap::Bitmap;
use gevaindy::buffer::Buffer;
use gevaindy::compute::concatenate::concatenate;
use gevaindy::datatypes::DataType;
use gevaindy::error::Error;
use std::alloc::Global;

/// The numbers that texts write, a row each, and null where a text writes no number of 32 bits.
///
/// # Errors
/// `OutOfMemory` where memory is refused.
pub fn numbers(alloc: Global, texts: &[&str]) -> Result<PrimitiveArray<i32>, Error>
    ensures array_type { IfOk result (λ array. array.arrow_type ≡ int32) }
    ensures rows { IfOk result (λ array. AreRowsOf texts.now (int_rows array)) }
    ensures err { IsOkUnless result Error.OutOfMemory }
{
    let mut values = Vec::with_capacity(alloc, texts.len())?;
    let mut are_numbers = Vec::with_capacity(alloc, texts.len())?;
    for text in texts {
        let number = text.parse::<i32>();
        are_numbers.push(number.is_ok())?;
        values.push(number.unwrap_or(0))?;
    }
    let values = Buffer::from_vec(alloc, values)?;
    let validity = Bitmap::from_bools(alloc, &are_numbers)?;
    Ok(PrimitiveArray::new(DataType::Int32, values, Some(validity)))
}

/// A column with the numbers of further texts behind its rows.
///
/// # Errors
/// Those of `concatenate`: `ConcatenateTypes` where the column is not of 32-bit integers.
pub fn with_numbers(alloc: Global, column: &AnyArray, texts: &[&str]) -> Result<AnyArray, Error>
    ensures rows { IfOk result (λ all.
        AppendsNumbers (any_array_rows column.now) (texts_in texts.now) (any_array_rows all)) }
    ensures others { IfErr result IsConcatenateRefusal }
{
    let more = numbers(alloc, texts)?;
    let more = AnyArray::Primitive(AnyPrimitive::Int32(more));
    concatenate(alloc, &[column, &more])
}
