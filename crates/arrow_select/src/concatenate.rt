//! The rows of several arrays, one array behind the other.

ghost use Rattle.std.specs.Prelude.{◌≡◌, ◌↔◌, [], Err, All, IfOk, IfErr, MatchBool};
ghost use Rattle.arrow_types.specs.declared.error.Error.{Error};
ghost use Rattle.arrow_types.specs.declared.error.ArgumentFault.{ArgumentFault};
ghost use Rattle.arrow_types.specs.Fits.{Fits};
ghost use Rattle.arrow_types.specs.Rows.{joined};
ghost use Rattle.arrow_arrays.specs.Any.{any_array_type, any_array_rows, layouts_in};
ghost use Rattle.arrow_growable.specs.Join.{CannotJoin};
ghost use Rattle.arrow_select.specs.Arrays.{HasOther, HasTwo, rows_in, types_in};
ghost use Rattle.arrow_choice.specs.Keys.{HasNoDictionary};
ghost use Rattle.arrow_select.specs.Refusals.{IsConcatenateRefusal};

use arrow_arrays::array::AnyArray;
use arrow_choice::keys::show_all_no_keys;
use arrow_choice::types::is_of_type;
use arrow_growable::growable::join_arrays;
use arrow_types::error::{ArgumentFault, Error};
use std::alloc::Global;

/// The rows of all arrays, one array behind the other, in an array of their data type.
///
/// # Errors
/// `ConcatenateEmpty` of no array, `ConcatenateTypes` where two data types differ; then `Overflow` where
/// the rows do not fit the type, one of them is crowded, or dictionaries in the arrays can't be joined, and of types
/// without dictionaries only where the rows do not fit; `OutOfMemory` where memory is refused.
///
/// Source: arrow2's `concatenate`.
pub fn concatenate(alloc: Global, arrays: &[&AnyArray]) -> Result<AnyArray, Error>
    ensures none { (result ≡ Err (Error.InvalidArgumentError ArgumentFault.ConcatenateEmpty))
        ↔ (arrays.now ≡ []) }
    ensures types { (result ≡ Err (Error.InvalidArgumentError ArgumentFault.ConcatenateTypes))
        ↔ HasTwo (types_in arrays.now) }
    ensures array_type { IfOk result (λ all. All (λ t. t ≡ any_array_type all) (types_in arrays.now)) }
    ensures rows { IfOk result (λ all. any_array_rows all ≡ joined (rows_in arrays.now)) }
    ensures fits { IfOk result (λ all. Fits (any_array_type all) (any_array_rows all)) }
    ensures overflow { result ≡ Err Error.Overflow → CannotJoin (layouts_in arrays.now) }
    ensures no_keys { result ≡ Err Error.Overflow
        → All (λ t. HasNoDictionary t → Fits t (joined (rows_in arrays.now)) → ⊥) (types_in arrays.now) }
    ensures others { IfErr result IsConcatenateRefusal }
{
    let Some(first) = arrays.first() else {
        return Err(Error::InvalidArgumentError(ArgumentFault::ConcatenateEmpty));
    };
    if !have_one_type(arrays, first) {
        return Err(Error::InvalidArgumentError(ArgumentFault::ConcatenateTypes));
    }
    // An array of a type without dictionaries holds none.
    show_all_no_keys(arrays);
    join_arrays(alloc, arrays)
}

// Whether all arrays are of the first one's type.
fn have_one_type(arrays: &[&AnyArray], first: &AnyArray) -> bool
    ensures { MatchBool result (All (λ t. t ≡ any_array_type first.now) (types_in arrays.now))
        (HasOther (any_array_type first.now) (types_in arrays.now)) }
{
    for array in arrays {
        if !is_of_type(array, first) {
            return false;
        }
    }
    true
}
