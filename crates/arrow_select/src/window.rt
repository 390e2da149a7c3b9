//! Rows that are moved along an array.

ghost use Rattle.std.specs.Prelude.{◌≡◌, ◌↔◌, ◌+◌, ◌≤◌, [], ◌∷◌, Err, length, IfOk, IfErr, OnOk};
ghost use Rattle.arrow_types.specs.declared.error.Error.{Error};
ghost use Rattle.arrow_types.specs.declared.error.ArgumentFault.{ArgumentFault};
ghost use Rattle.arrow_types.specs.Fits.{Fits};
ghost use Rattle.arrow_types.specs.Rows.{shifted};
ghost use Rattle.arrow_arrays.specs.Any.{any_array_type, any_array_rows, layout_of};
ghost use Rattle.arrow_flat_growable.specs.Grown.{bound_to};
ghost use Rattle.arrow_growable.specs.AnyGrowable.{grown_of};
ghost use Rattle.arrow_growable.specs.Growing.{HasAppended};
ghost use Rattle.arrow_select.specs.Growing.{between};
ghost use Rattle.arrow_memory.specs.Grown.{IsGrowthError};
ghost use Rattle.arrow_select.specs.Refusals.{IsShiftRefusal, PassesLength};

use arrow_arrays::array::AnyArray;
use arrow_growable::growable::{AnyGrowable, Growable, make_growable};
use arrow_types::error::{ArgumentFault, Error};
use std::alloc::Global;

/// The rows moved by `offset` rows, in an array of the same type: for an offset above 0, so many null
/// slots and then all rows but the last ones; else all rows but the first ones, and then the null
/// slots.
///
/// # Errors
/// `ShiftOffset` where the offset is the least number or passes the count of rows, either way; then
/// `Overflow` where the rows do not fit the type, and `OutOfMemory` where memory is refused.
///
/// Source: arrow2's `shift`.
pub fn shift(alloc: Global, array: &AnyArray, offset: i64) -> Result<AnyArray, Error>
    ensures passes { (result ≡ Err (Error.InvalidArgumentError ArgumentFault.ShiftOffset))
        ↔ PassesLength offset (length (any_array_rows array.now)) }
    ensures array_type { IfOk result (λ moved. any_array_type moved ≡ any_array_type array.now) }
    ensures rows { IfOk result (λ moved. any_array_rows moved
        ≡ shifted (any_array_rows array.now) offset (any_array_type array.now)) }
    ensures fits { IfOk result (λ moved. Fits (any_array_type moved) (any_array_rows moved)) }
    ensures overflow { result ≡ Err Error.Overflow
        → Fits (any_array_type array.now)
        (shifted (any_array_rows array.now) offset (any_array_type array.now)) → ⊥ }
    ensures others { IfErr result IsShiftRefusal }
{
    let distance = offset.unsigned_abs() as usize;
    let len = array.len();
    if offset == i64::MIN || distance > len {
        return Err(Error::InvalidArgumentError(ArgumentFault::ShiftOffset));
    }
    let front = if offset > 0 { distance } else { 0 };
    let growable = make_growable(alloc, &[array], distance > 0, len)?;
    rows_between(growable, array, front, distance - front)
}

// What [`append_between`] appends, by a growable over the array that has no row yet.
fn rows_between(
    growable: AnyGrowable,
    array: &AnyArray,
    front: usize,
    behind: usize,
) -> Result<AnyArray, Error>
    requires bound { grown_of growable ≡ bound_to (layout_of array.now ∷ []) }
    requires within { front + behind ≤ length (any_array_rows array.now) }
    ensures array_type { IfOk result (λ moved. any_array_type moved ≡ any_array_type array.now) }
    ensures rows { IfOk result (λ moved. any_array_rows moved
        ≡ between (any_array_rows array.now) front behind (any_array_type array.now)) }
    ensures fits { IfOk result (λ moved. Fits (any_array_type moved) (any_array_rows moved)) }
    ensures overflow { result ≡ Err Error.Overflow
        → Fits (any_array_type array.now)
        (between (any_array_rows array.now) front behind (any_array_type array.now)) → ⊥ }
    ensures others { IfErr result IsGrowthError }
{
    let mut growable = growable;
    append_between(&mut growable, array, front, behind)?;
    growable.as_box()
}

// Appends `front` null slots, then rows, and then `behind` null slots: as many as the array has. The
// rows are those from row `behind` on.
fn append_between(
    growable: &mut AnyGrowable,
    array: &AnyArray,
    front: usize,
    behind: usize,
) -> Result<(), Error>
    requires bound { grown_of growable.old ≡ bound_to (layout_of array.now ∷ []) }
    requires within { front + behind ≤ length (any_array_rows array.now) }
    ensures ok { OnOk result (HasAppended (layout_of array.now ∷ []) (grown_of growable.new)
        (between (any_array_rows array.now) front behind (any_array_type array.now))) }
    ensures overflow { result ≡ Err Error.Overflow
        → Fits (any_array_type array.now)
        (between (any_array_rows array.now) front behind (any_array_type array.now)) → ⊥ }
    ensures others { IfErr result IsGrowthError }
{
    growable.extend_validity(front)?;
    growable.extend(0, behind, array.len() - front - behind)?;
    growable.extend_validity(behind)
}
