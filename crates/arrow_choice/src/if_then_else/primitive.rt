//! Numbers and intervals of two arrays, as a predicate chooses.

ghost use Rattle.std.specs.Prelude.{◌≡◌, map, IfOk, IsOkUnless};
ghost use Rattle.arrow_types.specs.declared.error.Error.{Error};
ghost use Rattle.arrow_types.specs.Fits.{Fits};
ghost use Rattle.arrow_types.specs.Rows.{chosen};
ghost use Rattle.arrow_flat.specs.AnyPrimitive.{any_rows, any_type, element_of};
ghost use Rattle.arrow_flat.specs.Parts.{boolean_rows, rows_by};
ghost use Rattle.arrow_choice.specs.Choice.{AreOneLength};

use crate::if_then_else::words::{chosen_validity, chosen_values};
use arrow_flat::array::{AnyPrimitive, BooleanArray, PrimitiveArray};
use arrow_memory::buffer::Buffer;
use arrow_types::error::Error;
use arrow_types::types::NativeType;
use std::alloc::Global;

// The rows that the predicate chooses, in an array of the left one's type, of any element type.
pub(super) fn chosen_primitives(
    alloc: Global,
    predicate: &BooleanArray,
    lhs: &AnyPrimitive,
    rhs: &AnyPrimitive,
) -> Result<AnyPrimitive, Error>
    requires one_type { element_of lhs.now ≡ element_of rhs.now }
    requires lengths { AreOneLength (boolean_rows predicate.now) (any_rows lhs.now) (any_rows rhs.now) }
    ensures array_type { IfOk result (λ all. any_type all ≡ any_type lhs.now) }
    ensures rows { IfOk result (λ all. any_rows all
        ≡ chosen (boolean_rows predicate.now) (any_rows lhs.now) (any_rows rhs.now) (any_type lhs.now)) }
    ensures fits { IfOk result (λ all. Fits (any_type all) (any_rows all)) }
    ensures err { IsOkUnless result Error.OutOfMemory }
{
    macro_rules! of_elements {
        ($($element:ident),*) => {
            match (lhs, rhs) {
                $((AnyPrimitive::$element(left), AnyPrimitive::$element(right)) => {
                    Ok(AnyPrimitive::$element(chosen_numbers(alloc, predicate, left, right)?))
                })*
                _ => unreachable!(),
            }
        };
    }
    of_elements!(
        Int8,
        Int16,
        Int32,
        Int64,
        Int128,
        Int256,
        UInt8,
        UInt16,
        UInt32,
        UInt64,
        DaysMs,
        MonthDayNano
    )
}

// The same of one element type.
fn chosen_numbers<T: NativeType>(
    alloc: Global,
    predicate: &BooleanArray,
    lhs: &PrimitiveArray<T>,
    rhs: &PrimitiveArray<T>,
) -> Result<PrimitiveArray<T>, Error>
    requires lengths { AreOneLength (boolean_rows predicate.now) (rows_by (map T.slot) lhs.now)
        (rows_by (map T.slot) rhs.now) }
    ensures array_type { IfOk result (λ all. all.arrow_type ≡ lhs.now.arrow_type) }
    ensures rows { IfOk result (λ all. rows_by (map T.slot) all
        ≡ chosen (boolean_rows predicate.now) (rows_by (map T.slot) lhs.now)
        (rows_by (map T.slot) rhs.now) lhs.now.arrow_type) }
    ensures fits { IfOk result (λ all. Fits all.arrow_type (rows_by (map T.slot) all)) }
    ensures err { IsOkUnless result Error.OutOfMemory }
{
    // Each array has as many rows as it has values.
    prove!(lhs.len() == predicate.len());
    prove!(rhs.len() == predicate.len());
    let data_type = lhs.data_type();
    let (left, right) = (lhs.values().as_slice(), rhs.values().as_slice());
    let values = chosen_values(alloc, predicate.values(), left, right)?;
    let validity = chosen_validity(alloc, predicate, lhs.validity(), rhs.validity())?;
    let values = Buffer::from_vec(alloc, values)?;
    Ok(PrimitiveArray::new(data_type.clone()?, values, validity))
}
