//! Lists of a fixed size by index.

ghost use Rattle.std.specs.Prelude.{length, map};
ghost use Rattle.arrow_flat.specs.Parts.{rows_by};
ghost use Rattle.arrow_arrays.specs.FixedListParts.{fixed_list_rows};
ghost use Rattle.arrow_take.specs.Taken.{AnswersFixedLists, AreIndices};

use crate::take::nested::take_nested;
use arrow_arrays::array::FixedSizeListArray;
use arrow_flat::array::PrimitiveArray;
use arrow_types::error::Error;
use arrow_types::types::Index;
use std::alloc::Global;

/// The rows that the indices name, in their order, and null where an index is null, whatever lies beneath it.
///
/// # Requires
/// Each index that is not null is that of a row.
///
/// # Errors
/// `Overflow` where the rows do not fit the type, `OutOfMemory` where memory is refused.
///
/// Source: arrow2's `take::fixed_size_list::take`.
pub fn take<I: Index>(
    alloc: Global,
    values: &FixedSizeListArray,
    indices: &PrimitiveArray<I>,
) -> Result<FixedSizeListArray, Error>
    requires inside { AreIndices (length (fixed_list_rows values.now)) (rows_by (map I.slot) indices.now) }
    ensures answer { AnswersFixedLists result values.now (rows_by (map I.slot) indices.now) }
{
    take_nested(alloc, values, values.len(), indices)
}
