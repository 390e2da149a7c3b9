//! Truth values of two arrays, as a predicate chooses.

ghost use Rattle.std.specs.Prelude.{◌≡◌, IfOk, IsOkUnless};
ghost use Rattle.arrow_types.specs.declared.error.Error.{Error};
ghost use Rattle.arrow_types.specs.Fits.{Fits};
ghost use Rattle.arrow_types.specs.Rows.{chosen};
ghost use Rattle.arrow_flat.specs.Parts.{boolean_rows};
ghost use Rattle.arrow_choice.specs.Choice.{AreOneLength};

use crate::if_then_else::words::{chosen_bits, chosen_validity};
use arrow_flat::array::BooleanArray;
use arrow_types::error::Error;
use std::alloc::Global;

// The rows that the predicate chooses, in an array of the left one's type.
pub(super) fn chosen_booleans(
    alloc: Global,
    predicate: &BooleanArray,
    lhs: &BooleanArray,
    rhs: &BooleanArray,
) -> Result<BooleanArray, Error>
    requires lengths { AreOneLength (boolean_rows predicate.now) (boolean_rows lhs.now)
        (boolean_rows rhs.now) }
    ensures array_type { IfOk result (λ all. all.arrow_type ≡ lhs.now.arrow_type) }
    ensures rows { IfOk result (λ all. boolean_rows all
        ≡ chosen (boolean_rows predicate.now) (boolean_rows lhs.now)
        (boolean_rows rhs.now) lhs.now.arrow_type) }
    ensures fits { IfOk result (λ all. Fits all.arrow_type (boolean_rows all)) }
    ensures err { IsOkUnless result Error.OutOfMemory }
{
    // Each array has as many rows as it has values.
    prove!(lhs.len() == predicate.len());
    prove!(rhs.len() == predicate.len());
    let data_type = lhs.data_type();
    let values = chosen_bits(alloc, predicate.values(), lhs.values(), rhs.values())?;
    let validity = chosen_validity(alloc, predicate, lhs.validity(), rhs.validity())?;
    Ok(BooleanArray::new(data_type.clone()?, values, validity))
}
