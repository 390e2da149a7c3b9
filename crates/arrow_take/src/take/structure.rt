//! Structs by index: each field is taken by indices that are null where the struct's row is.

ghost use Rattle.std.specs.Prelude.{◌≡◌, Err, length, map, IfOk, IfErr};
ghost use Rattle.std.specs.List.{All};
ghost use Rattle.arrow_types.specs.declared.error.Error.{Error};
ghost use Rattle.arrow_types.specs.Fits.{Fits};
ghost use Rattle.arrow_types.specs.Rows.{gather};
ghost use Rattle.arrow_memory.specs.Grown.{IsGrowthError};
ghost use Rattle.arrow_flat.specs.Parts.{rows_by};
ghost use Rattle.arrow_arrays.specs.Any.{any_array_type, any_array_rows};
ghost use Rattle.arrow_arrays.specs.StructParts.{struct_rows};
ghost use Rattle.arrow_take.specs.Taken.{AreIndices, SomeDoNotFit, taken_rows};

use crate::take::indices::{take_validity, valid_indices};
use arrow_arrays::array::{AnyArray, StructArray};
use arrow_flat::array::PrimitiveArray;
use arrow_types::error::Error;
use arrow_types::types::Index;
use std::alloc::Global;

/// The rows that the indices name, in their order, and null where an index is null, whatever lies beneath it. With no
/// index there are no rows.
///
/// # Requires
/// Each index that is not null is that of a row.
///
/// # Errors
/// `Overflow` where the rows do not fit the type, and `OutOfMemory` where memory is refused.
///
/// Source: arrow2's `take::structure::take`.
#[cycle(take)]
pub fn take<I: Index>(
    alloc: Global,
    values: &StructArray,
    indices: &PrimitiveArray<I>,
) -> Result<StructArray, Error>
    requires inside { AreIndices (length (struct_rows values.now)) (rows_by (map I.slot) indices.now) }
    ensures array_type { IfOk result (λ taken. taken.arrow_type ≡ values.now.arrow_type) }
    ensures rows { IfOk result (λ taken. struct_rows taken
        ≡ gather (struct_rows values.now) (rows_by (map I.slot) indices.now) values.now.arrow_type) }
    ensures fits { IfOk result (λ taken. Fits taken.arrow_type (struct_rows taken)) }
    ensures overflow { result ≡ Err Error.Overflow
        → Fits values.now.arrow_type
        (gather (struct_rows values.now) (rows_by (map I.slot) indices.now) values.now.arrow_type) → ⊥ }
    ensures others { IfErr result IsGrowthError }
{
    // There are as many rows as a `usize` counts, and the fields are those of the type.
    let (_, _) = (indices.len(), values.len());
    let _ = values.data_type();
    let validity = take_validity(alloc, values.validity(), indices)?;
    let valid = valid_indices(indices, &validity, values.validity())?;
    let fields = take_fields(alloc, values.values(), &valid)?;
    let data_type = values.data_type().clone()?;
    Ok(StructArray::new(data_type, fields, validity))
}

// The rows of each field that the indices name.
#[cycle(take)]
fn take_fields<I: Index>(
    alloc: Global,
    fields: &[AnyArray],
    indices: &PrimitiveArray<I>,
) -> Result<Vec<AnyArray>, Error>
    requires inside { All (λ field.
        AreIndices (length (any_array_rows field)) (rows_by (map I.slot) indices.now)) fields.now }
    ensures types { IfOk result (λ taken. map any_array_type taken.items ≡ map any_array_type fields.now) }
    ensures rows { IfOk result (λ taken. map any_array_rows taken.items
        ≡ map (taken_rows (rows_by (map I.slot) indices.now)) fields.now) }
    ensures fits { IfOk result (λ taken.
        All (λ field. Fits (any_array_type field)
        (taken_rows (rows_by (map I.slot) indices.now) field)) fields.now) }
    ensures overflow { result ≡ Err Error.Overflow
        → SomeDoNotFit (rows_by (map I.slot) indices.now) fields.now }
    ensures others { IfErr result IsGrowthError }
{
    let mut taken = Vec::with_capacity(alloc, fields.len())?;
    for field in fields {
        taken.push(crate::take::take(alloc, field, indices)?)?;
    }
    Ok(taken)
}
