//! Lists, of either form, and maps by index: one growable over the one array, to which runs of its rows are appended.

ghost use Rattle.std.specs.Prelude.{◌≡◌, [], ◌∷◌, Err, length, map, IfOk, IfErr};
ghost use Rattle.arrow_types.specs.declared.error.Error.{Error};
ghost use Rattle.arrow_types.specs.Fits.{Fits};
ghost use Rattle.arrow_types.specs.Rows.{gather};
ghost use Rattle.arrow_memory.specs.Grown.{IsGrowthError};
ghost use Rattle.arrow_flat.specs.Parts.{rows_by};
ghost use Rattle.arrow_arrays.specs.Layout.{rows, type_of_layout};
ghost use Rattle.arrow_flat_growable.specs.Grown.{bound_to};
ghost use Rattle.arrow_take.specs.Taken.{AreIndices};

use crate::take::append::append_taken;
use arrow_flat::array::PrimitiveArray;
use arrow_growable::growable::{GrowableOf, NestedArray};
use arrow_types::error::Error;
use arrow_types::types::Index;
use std::alloc::Global;

// The rows that the indices name, in their order, and null where an index is null, whatever lies beneath it.
pub(super) fn take_nested<A: NestedArray, I: Index>(
    alloc: Global,
    values: &A,
    len: usize,
    indices: &PrimitiveArray<I>,
) -> Result<A, Error>
    requires len { len ≡ length (rows (A.layout_in values.now)) }
    requires inside { AreIndices len (rows_by (map I.slot) indices.now) }
    ensures array_type { IfOk result (λ taken. type_of_layout (A.layout_in taken)
        ≡ type_of_layout (A.layout_in values.now)) }
    ensures rows { IfOk result (λ taken. rows (A.layout_in taken)
        ≡ gather (rows (A.layout_in values.now)) (rows_by (map I.slot) indices.now)
        (type_of_layout (A.layout_in values.now))) }
    ensures fits { IfOk result (λ taken.
        Fits (type_of_layout (A.layout_in taken)) (rows (A.layout_in taken))) }
    ensures overflow { result ≡ Err Error.Overflow
        → Fits (type_of_layout (A.layout_in values.now))
        (gather (rows (A.layout_in values.now)) (rows_by (map I.slot) indices.now)
        (type_of_layout (A.layout_in values.now))) → ⊥ }
    ensures others { IfErr result IsGrowthError }
{
    let bound = vec![in alloc; values]?;
    let growable = GrowableOf::new(alloc, bound, false, indices.len())?;
    grown(growable, values, len, indices)
}

// The same, by a growable over the array that has no row yet.
fn grown<'a, A: NestedArray + 'a, I: Index>(
    growable: GrowableOf<'a, A>,
    values: &A,
    len: usize,
    indices: &PrimitiveArray<I>,
) -> Result<A, Error>
    requires bound { growable ≡ bound_to (A.layout_in values.now ∷ []) }
    requires len { len ≡ length (rows (A.layout_in values.now)) }
    requires inside { AreIndices len (rows_by (map I.slot) indices.now) }
    ensures array_type { IfOk result (λ taken. type_of_layout (A.layout_in taken)
        ≡ type_of_layout (A.layout_in values.now)) }
    ensures rows { IfOk result (λ taken. rows (A.layout_in taken)
        ≡ gather (rows (A.layout_in values.now)) (rows_by (map I.slot) indices.now)
        (type_of_layout (A.layout_in values.now))) }
    ensures fits { IfOk result (λ taken.
        Fits (type_of_layout (A.layout_in taken)) (rows (A.layout_in taken))) }
    ensures overflow { result ≡ Err Error.Overflow
        → Fits (type_of_layout (A.layout_in values.now))
        (gather (rows (A.layout_in values.now)) (rows_by (map I.slot) indices.now)
        (type_of_layout (A.layout_in values.now))) → ⊥ }
    ensures others { IfErr result IsGrowthError }
{
    let mut growable = growable;
    append_taken(&mut growable, len, indices)?;
    growable.into_array()
}
