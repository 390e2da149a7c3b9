//! The example of the guide: a list of texts, and some of its rows in another order.

ghost use Rattle.std.specs.Prelude.{◌≡◌, ◌≤◌, ◌^◌, Err, length, map, IfOk, IfErr};
ghost use Rattle.std.specs.List.{concat};
ghost use Rattle.gevaindy.specs.Errors.Error.{Error};
ghost use Rattle.gevaindy.specs.Any.{any_array_rows, any_array_type};
ghost use Rattle.gevaindy.specs.ArrowType.{plain, utf8};
ghost use Rattle.gevaindy.specs.Growth.{IsGrowthError};
ghost use Rattle.gevaindy.specs.Slot.{Text};
ghost use Rattle.gevaindy.specs.Typed.{text_rows};
ghost use Rattle.uses.specs.Picked.{picked_rows};
ghost use Rattle.uses.specs.Texts.{texts_in};

use gevaindy::array::{AnyArray, BooleanArray, PrimitiveArray, Utf8Array, are_within};
use gevaindy::bitmap::Bitmap;
use gevaindy::buffer::Buffer;
use gevaindy::compute::filter::filter;
use gevaindy::compute::take::take;
use gevaindy::datatypes::DataType;
use gevaindy::error::{ArgumentFault, Error};
use gevaindy::offset::Offsets;
use std::alloc::Global;

/// Of the rows at which the mask is true those that the places name, in their order.
///
/// # Errors
/// `Lengths` where the mask has not as many rows as the array, or a place is not that of a row which is kept; then
/// those of `filter` and `take`.
pub fn picked(
    alloc: Global,
    array: &AnyArray,
    mask: &[bool],
    places: &PrimitiveArray<u32>,
) -> Result<AnyArray, Error>
    ensures array_type { IfOk result (λ picked. any_array_type picked ≡ any_array_type array.now) }
    ensures rows { IfOk result (λ picked. any_array_rows picked
        ≡ picked_rows mask.now places.now array.now) }
{
    let mask = Bitmap::from_bools(alloc, mask)?;
    let mask = BooleanArray::new(DataType::Boolean, mask, None);
    if mask.len() != array.len() {
        return Err(Error::InvalidArgumentError(ArgumentFault::Lengths));
    }
    let kept = filter(alloc, array, &mask)?;
    if !are_within(places, kept.len()) {
        return Err(Error::InvalidArgumentError(ArgumentFault::Lengths));
    }
    take(alloc, &kept, places)
}

/// Texts as an array, a row each.
///
/// # Errors
/// `Overflow` where they have 2^31 bytes or more together, and `OutOfMemory` where memory is refused.
pub fn texts(alloc: Global, rows: &[&str]) -> Result<Utf8Array<i32>, Error>
    ensures array_type { IfOk result (λ array. array.arrow_type ≡ plain utf8) }
    ensures rows { IfOk result (λ array. text_rows array ≡ map Text (texts_in rows.now)) }
    ensures overflow { result ≡ Err Error.Overflow → 2 ^ 31 ≤ length (concat (texts_in rows.now)) }
    ensures others { IfErr result IsGrowthError }
{
    let mut offsets = Offsets::with_capacity(alloc, rows.len())?;
    let mut bytes = Vec::new(alloc);
    for row in rows {
        offsets.try_push_usize(row.len())?;
        bytes.extend_from_slice(row.as_bytes())?;
    }
    let offsets = offsets.into_buffer()?;
    let bytes = Buffer::from_vec(alloc, bytes)?;
    Ok(Utf8Array::new(DataType::Utf8, offsets, bytes, None))
}
