//! Numbers and intervals by index.

ghost use Rattle.std.specs.Prelude.{◌≡◌, length, map, IfOk, IsOkUnless};
ghost use Rattle.arrow_types.specs.declared.error.Error.{Error};
ghost use Rattle.arrow_types.specs.Fits.{Fits};
ghost use Rattle.arrow_types.specs.Rows.{gather};
ghost use Rattle.arrow_flat.specs.Parts.{rows_by};
ghost use Rattle.arrow_take.specs.Taken.{AreIndices};

use crate::take::indices::{gather_values, take_validity};
use arrow_flat::array::PrimitiveArray;
use arrow_memory::buffer::Buffer;
use arrow_types::error::Error;
use arrow_types::types::{Index, NativeType};
use std::alloc::Global;

/// The rows that the indices name, in their order, and null where an index is null, whatever lies beneath it.
///
/// # Requires
/// Each index that is not null is that of a row.
///
/// # Errors
/// `OutOfMemory` where memory is refused.
///
/// Source: arrow2's `take::primitive::take`.
pub fn take<T: NativeType, I: Index>(
    alloc: Global,
    values: &PrimitiveArray<T>,
    indices: &PrimitiveArray<I>,
) -> Result<PrimitiveArray<T>, Error>
    requires inside { AreIndices (length (rows_by (map T.slot) values.now))
        (rows_by (map I.slot) indices.now) }
    ensures array_type { IfOk result (λ taken. taken.arrow_type ≡ values.now.arrow_type) }
    ensures rows { IfOk result (λ taken. rows_by (map T.slot) taken
        ≡ gather (rows_by (map T.slot) values.now)
        (rows_by (map I.slot) indices.now) values.now.arrow_type) }
    ensures fits { IfOk result (λ taken. Fits taken.arrow_type (rows_by (map T.slot) taken)) }
    ensures err { IsOkUnless result Error.OutOfMemory }
{
    // There are as many rows as a `usize` counts.
    let _ = indices.len();
    let validity = take_validity(alloc, values.validity(), indices)?;
    let taken = gather_values(alloc, values.values().as_slice(), indices)?;
    let taken = Buffer::from_vec(alloc, taken)?;
    let data_type = values.data_type().clone()?;
    Ok(PrimitiveArray::new(data_type, taken, validity))
}
