//! Rows by index that are appended to a growable, a run of them at a time.

ghost use Rattle.std.specs.Prelude.{◌≡◌, ◌+◌, ◌-◌, ◌<◌, ◌≤◌, [], ◌∷◌, Err, Some, None, slice_index_or, length, map, option_copied, IfErr, IfSome, OnOk};
ghost use Rattle.arrow_types.specs.declared.error.Error.{Error};
ghost use Rattle.arrow_types.specs.Fits.{Fits};
ghost use Rattle.arrow_types.specs.Rows.{gather, masked};
ghost use Rattle.arrow_types.specs.Slot.{Null};
ghost use Rattle.arrow_memory.specs.Grown.{IsGrowthError};
ghost use Rattle.arrow_memory.specs.Sliced.{sliced};
ghost use Rattle.arrow_flat.specs.Parts.{FitsRows, rows_by};
ghost use Rattle.arrow_arrays.specs.KeyedParts.{key_in};
ghost use Rattle.arrow_arrays.specs.Layout.{rows, type_of_layout};
ghost use Rattle.arrow_flat_growable.specs.Grown.{bound_to};
ghost use Rattle.arrow_growable.specs.Growing.{HasAppended};
ghost use Rattle.arrow_take.specs.Taken.{AreIndices, first_bound, run_of};

use crate::take::runs::run_at;
use arrow_flat::array::PrimitiveArray;
use arrow_growable::growable::Growable;
use arrow_types::error::Error;
use arrow_types::types::Index;

// Appends the rows of the one array that is bound which the indices name, a run of them at a time, and null slots where
// indices are null. The growable has no row yet.
pub(super) fn append_taken<'a, G: Growable<'a>, I: Index>(
    growable: &mut G,
    len: usize,
    indices: &PrimitiveArray<I>,
) -> Result<(), Error>
    requires bound { G.state growable.old ≡ bound_to (first_bound (G.state growable.old) ∷ []) }
    requires len { len ≡ length (rows (first_bound (G.state growable.old))) }
    requires inside { AreIndices len (rows_by (map I.slot) indices.now) }
    ensures ok { OnOk result (HasAppended (first_bound (G.state growable.old) ∷ []) (G.state growable.new)
        (gather (rows (first_bound (G.state growable.old))) (rows_by (map I.slot) indices.now)
        (type_of_layout (first_bound (G.state growable.old))))) }
    ensures overflow { result ≡ Err Error.Overflow
        → Fits (type_of_layout (first_bound (G.state growable.old)))
        (gather (rows (first_bound (G.state growable.old))) (rows_by (map I.slot) indices.now)
        (type_of_layout (first_bound (G.state growable.old)))) → ⊥ }
    ensures others { IfErr result IsGrowthError }
{
    let (stored, validity) = (indices.values().as_slice(), indices.validity());
    let mut row = 0;
    while row < stored.len() {
        let (place, count) = run_at(stored, validity, row, len);
        match place {
            Some(start) => growable.extend(0, start, count)?,
            None => growable.extend_validity(count)?,
        }
        row += count;
    }
    Ok(())
}
