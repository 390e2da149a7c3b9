//! Two sorted columns as one.

ghost use Rattle.std.specs.Prelude.{◌≡◌, ◌≢◌, ◌<◌, ◌↔◌, Err, length, slice_index_or, IfOk, IsTrue};
ghost use Rattle.gevaindy.specs.Errors.ArgumentFault.{ArgumentFault};
ghost use Rattle.gevaindy.specs.Errors.Error.{Error};
ghost use Rattle.gevaindy.specs.Slot.{Null};
ghost use Rattle.gevaindy.specs.Typed.{int_rows};
ghost use Rattle.uses.specs.Order.{IsMerge, MatchesOrder};

use gevaindy::array::PrimitiveArray;
use gevaindy::array::growable::{Growable, GrowablePrimitive};
use gevaindy::error::{ArgumentFault, Error};
use std::alloc::Global;

/// The rows of two columns of one type in one. Where both are sorted, nulls first, so is it.
///
/// # Errors
/// `ConcatenateTypes` exactly where the data types differ; then `Overflow` where the rows can't be counted, and
/// `OutOfMemory` where memory is refused.
pub fn merged(
    alloc: Global,
    left: &PrimitiveArray<i64>,
    right: &PrimitiveArray<i64>,
) -> Result<PrimitiveArray<i64>, Error>
    ensures types { (result ≡ Err (Error.InvalidArgumentError ArgumentFault.ConcatenateTypes))
        ↔ (left.now.arrow_type ≢ right.now.arrow_type) }
    ensures array_type { IfOk result (λ all. all.arrow_type ≡ left.now.arrow_type) }
    ensures rows { IfOk result (λ all. IsMerge (int_rows left.now) (int_rows right.now) (int_rows all)) }
{
    if !are_of_one_type(left, right) {
        return Err(Error::InvalidArgumentError(ArgumentFault::ConcatenateTypes));
    }
    let both = vec![in alloc; left, right]?;
    let mut growable = GrowablePrimitive::<i64>::new(alloc, both, false, 0)?;
    let (mut i, mut j) = (0, 0);
    while i < left.len() && j < right.len() {
        if comes_first(left, i, right, j) {
            growable.extend(0, i, 1)?;
            i += 1;
        } else {
            growable.extend(1, j, 1)?;
            j += 1;
        }
    }
    growable.extend(0, i, left.len() - i)?;
    growable.extend(1, j, right.len() - j)?;
    growable.into_array()
}

// Whether two columns are of one data type.
fn are_of_one_type(left: &PrimitiveArray<i64>, right: &PrimitiveArray<i64>) -> bool
    ensures { IsTrue result ↔ (left.now.arrow_type ≡ right.now.arrow_type) }
{
    *left.data_type() == *right.data_type()
}

// Whether a row of the left column may stand in front of one of the right, or else the other way round.
fn comes_first(left: &PrimitiveArray<i64>, i: usize, right: &PrimitiveArray<i64>, j: usize) -> bool
    requires here { i < length (int_rows left.now) }
    requires there { j < length (int_rows right.now) }
    ensures { MatchesOrder result (slice_index_or (int_rows left.now) i Null)
        (slice_index_or (int_rows right.now) j Null) }
{
    if !left.is_valid(i) {
        return true;
    }
    if !right.is_valid(j) {
        return false;
    }
    left.value(i) <= right.value(j)
}
