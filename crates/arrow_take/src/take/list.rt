//! Lists, under offsets of either width, by index.

ghost use Rattle.std.specs.Prelude.{length, map};
ghost use Rattle.arrow_flat.specs.Parts.{rows_by};
ghost use Rattle.arrow_arrays.specs.ListParts.{list_rows};
ghost use Rattle.arrow_take.specs.Taken.{AnswersLists, AreIndices};

use crate::take::nested::take_nested;
use arrow_arrays::array::ListArray;
use arrow_flat::array::PrimitiveArray;
use arrow_types::error::Error;
use arrow_types::types::Index;
use std::alloc::Global;

/// The rows that the indices name, in their order, and null where an index is null, whatever lies beneath it.
///
/// # Requires
/// Each index that is not null is that of a row.
///
/// # Errors
/// `Overflow` where the rows do not fit the type, `OutOfMemory` where memory is refused.
///
/// Source: arrow2's `take::list::take`.
pub fn take<I: Index>(
    alloc: Global,
    values: &ListArray,
    indices: &PrimitiveArray<I>,
) -> Result<ListArray, Error>
    requires inside { AreIndices (length (list_rows values.now)) (rows_by (map I.slot) indices.now) }
    ensures answer { AnswersLists result values.now (rows_by (map I.slot) indices.now) }
{
    take_nested(alloc, values, values.len(), indices)
}
