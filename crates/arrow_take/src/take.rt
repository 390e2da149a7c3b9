//! Rows by index.

ghost use Rattle.std.specs.Prelude.{◌≡◌, ◌↔◌, Err, length, map, IfOk, IfErr, IsTrue};
ghost use Rattle.arrow_types.specs.declared.error.Error.{Error};
ghost use Rattle.arrow_types.specs.Fits.{Fits};
ghost use Rattle.arrow_types.specs.Rows.{gather};
ghost use Rattle.arrow_types.specs.TypeOf.{type_of};
ghost use Rattle.arrow_memory.specs.Grown.{IsGrowthError};
ghost use Rattle.arrow_flat.specs.Parts.{rows_by};
ghost use Rattle.arrow_arrays.specs.Any.{any_array_type, any_array_rows};
ghost use Rattle.arrow_take.specs.Taken.{AreIndices, CanTake};

mod any;
mod append;
pub mod binary;
pub mod boolean;
mod bytes;
mod dense;
pub mod dict;
pub mod fixed_size_binary;
pub mod fixed_size_list;
mod indices;
pub mod list;
pub mod map;
mod nested;
pub mod primitive;
mod runs;
pub mod structure;
mod types;
pub mod union;
pub mod utf8;

use any::take_one;
use arrow_arrays::array::AnyArray;
use arrow_flat::array::PrimitiveArray;
use arrow_types::datatypes::DataType;
use arrow_types::error::Error;
use arrow_types::types::Index;
use std::alloc::Global;
use types::is_taken;

/// The rows that the indices name, in their order, in an array of the same type, and the type's null slot where an index
/// is null, whatever lies beneath it. With no index there are no rows. Every carried type has rows by index.
///
/// # Requires
/// Each index that is not null is that of a row.
///
/// # Errors
/// `Overflow` where the rows do not fit the type, and `OutOfMemory` where memory is refused.
///
/// Source: arrow2's `take::take`.
#[cycle(take)]
pub fn take<O: Index>(
    alloc: Global,
    values: &AnyArray,
    indices: &PrimitiveArray<O>,
) -> Result<AnyArray, Error>
    requires inside { AreIndices (length (any_array_rows values.now)) (rows_by (map O.slot) indices.now) }
    ensures array_type { IfOk result (λ taken. any_array_type taken ≡ any_array_type values.now) }
    ensures rows { IfOk result (λ taken. any_array_rows taken
        ≡ gather (any_array_rows values.now) (rows_by (map O.slot) indices.now)
        (any_array_type values.now)) }
    ensures fits { IfOk result (λ taken. Fits (any_array_type taken) (any_array_rows taken)) }
    ensures overflow { result ≡ Err Error.Overflow
        → Fits (any_array_type values.now)
        (gather (any_array_rows values.now) (rows_by (map O.slot) indices.now) (any_array_type values.now))
        → ⊥ }
    ensures others { IfErr result IsGrowthError }
{
    match values {
        AnyArray::Struct(values) => {
            Ok(AnyArray::Struct(structure::take(alloc, values, indices)?))
        }
        AnyArray::Union(values) => Ok(AnyArray::Union(union::take(alloc, values, indices)?)),
        _ => take_one(alloc, values, indices),
    }
}

/// Whether `take` can be asked for rows of a data type: whether it is carried, and no extension or decimal of 256 bits, nor
/// a struct or a union with a field of these, at any depth of structs and unions. Rows of these are taken too, as of each
/// carried type. It takes no memory.
///
/// Source: arrow2's `take::can_take`.
pub fn can_take(data_type: &DataType) -> bool
    ensures { IsTrue result ↔ CanTake (type_of data_type.now) }
{
    data_type.is_carried() && is_taken(data_type)
}
