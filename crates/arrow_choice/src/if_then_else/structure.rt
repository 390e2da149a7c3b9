//! Structs of two arrays, as a predicate chooses: each field by the predicate, null where the chosen row is.

ghost use Rattle.std.specs.Prelude.{◌≡◌, Err, length, map, IfOk, IfErr};
ghost use Rattle.std.specs.List.{All};
ghost use Rattle.arrow_types.specs.declared.error.Error.{Error};
ghost use Rattle.arrow_types.specs.Fits.{Fits};
ghost use Rattle.arrow_types.specs.Rows.{chosen};
ghost use Rattle.arrow_memory.specs.Grown.{IsGrowthError};
ghost use Rattle.arrow_flat.specs.Parts.{boolean_rows};
ghost use Rattle.arrow_arrays.specs.Any.{any_array_rows, any_array_type};
ghost use Rattle.arrow_arrays.specs.StructParts.{struct_layout, struct_rows};
ghost use Rattle.arrow_choice.specs.Choice.{AreAsLong, AreOneLength, CannotChoose, SomeCannotChoose, chosen_columns};

use crate::if_then_else::chosen_rows;
use crate::if_then_else::words::chosen_validity;
use arrow_arrays::array::{AnyArray, StructArray};
use arrow_flat::array::BooleanArray;
use arrow_types::error::Error;
use std::alloc::Global;

// The rows that the predicate chooses, in an array of the left one's type.
#[cycle(choose)]
pub(super) fn chosen_structs(
    alloc: Global,
    predicate: &BooleanArray,
    lhs: &StructArray,
    rhs: &StructArray,
) -> Result<StructArray, Error>
    requires one_type { rhs.now.arrow_type ≡ lhs.now.arrow_type }
    requires lengths { AreOneLength (boolean_rows predicate.now) (struct_rows lhs.now) (struct_rows rhs.now) }
    ensures array_type { IfOk result (λ all. all.arrow_type ≡ lhs.now.arrow_type) }
    ensures rows { IfOk result (λ all. struct_rows all
        ≡ chosen (boolean_rows predicate.now) (struct_rows lhs.now) (struct_rows rhs.now)
        lhs.now.arrow_type) }
    ensures fits { IfOk result (λ all. Fits all.arrow_type (struct_rows all)) }
    ensures overflow { result ≡ Err Error.Overflow
        → CannotChoose (boolean_rows predicate.now) (struct_layout lhs.now) (struct_layout rhs.now) }
    ensures others { IfErr result IsGrowthError }
{
    // There are as many rows as a `usize` counts, and the fields are those of the type.
    let _ = predicate.len();
    let (data_type, left, right) = (lhs.data_type(), lhs.values(), rhs.values());
    let validity = chosen_validity(alloc, predicate, lhs.validity(), rhs.validity())?;
    let among = predicate.clone()?.with_validity(validity.clone()?);
    let fields = chosen_fields(alloc, &among, left, right)?;
    Ok(StructArray::new(data_type.clone()?, fields, validity))
}

// The rows of each field that the predicate chooses.
#[cycle(choose)]
fn chosen_fields(
    alloc: Global,
    predicate: &BooleanArray,
    left: &[AnyArray],
    right: &[AnyArray],
) -> Result<Vec<AnyArray>, Error>
    requires one_type { map any_array_type right.now ≡ map any_array_type left.now }
    requires left { AreAsLong (boolean_rows predicate.now) left.now }
    requires right { AreAsLong (boolean_rows predicate.now) right.now }
    ensures types { IfOk result (λ all. map any_array_type all.items ≡ map any_array_type left.now) }
    ensures rows { IfOk result (λ all. map any_array_rows all.items
        ≡ chosen_columns (boolean_rows predicate.now) left.now right.now) }
    ensures fits { IfOk result (λ all.
        All (λ field. Fits (any_array_type field) (any_array_rows field)) all.items) }
    ensures overflow { result ≡ Err Error.Overflow
        → SomeCannotChoose (boolean_rows predicate.now) left.now right.now }
    ensures others { IfErr result IsGrowthError }
{
    prove!(left.len() == right.len());
    let mut all = Vec::with_capacity(alloc, left.len())?;
    for i in 0..left.len() {
        all.push(chosen_rows(alloc, predicate, &left[i], &right[i])?)?;
    }
    Ok(all)
}
