//! All rows of several arrays, one array behind the other.

ghost use Rattle.std.specs.Prelude.{◌≡◌, ◌<◌, Err, length, map, IfErr, IfOk, OnOk};
ghost use Rattle.arrow_types.specs.declared.error.Error.{Error};
ghost use Rattle.arrow_types.specs.Fits.{Fits};
ghost use Rattle.arrow_types.specs.Rows.{joined};
ghost use Rattle.arrow_memory.specs.Grown.{IsGrowthError};
ghost use Rattle.arrow_arrays.specs.Any.{any_array_rows, any_array_type, layouts_in};
ghost use Rattle.arrow_arrays.specs.Layout.{rows};
ghost use Rattle.arrow_flat_growable.specs.Grown.{AreOfOneType, bound_to, first_type};
ghost use Rattle.arrow_growable.specs.AnyGrowable.{grown_of};
ghost use Rattle.arrow_growable.specs.Growing.{HasAppended};
ghost use Rattle.arrow_growable.specs.Join.{CannotAppendAll, CannotJoin};

use crate::growable::{AnyGrowable, Growable, make_growable};
use arrow_arrays::array::AnyArray;
use arrow_types::error::Error;
use std::alloc::Global;

/// All rows of arrays of one data type, one array behind the other, in an array of that type.
///
/// # Requires
/// There is an array at least, and all are of one data type.
///
/// # Errors
/// `Overflow` only where the rows do not fit the type, one of them is crowded, or the dictionaries can't be joined;
/// `OutOfMemory` where memory is refused.
#[cycle(make)]
pub fn join_arrays(alloc: Global, arrays: &[&AnyArray]) -> Result<AnyArray, Error>
    requires some { 0 < length arrays.now }
    requires one_type { AreOfOneType (layouts_in arrays.now) }
    ensures array_type { IfOk result (λ all. any_array_type all ≡ first_type (layouts_in arrays.now)) }
    ensures rows { IfOk result (λ all. any_array_rows all ≡ joined (map rows (layouts_in arrays.now))) }
    ensures fits { IfOk result (λ all. Fits (any_array_type all) (any_array_rows all)) }
    ensures overflow { result ≡ Err Error.Overflow → CannotJoin (layouts_in arrays.now) }
    ensures others { IfErr result IsGrowthError }
{
    let growable = make_growable(alloc, arrays, false, count_rows(arrays))?;
    all_rows(growable, arrays)
}

// All rows of each array, by a growable over them that has none yet.
fn all_rows(growable: AnyGrowable, arrays: &[&AnyArray]) -> Result<AnyArray, Error>
    requires bound { grown_of growable ≡ bound_to (layouts_in arrays.now) }
    ensures array_type { IfOk result (λ all. any_array_type all ≡ first_type (layouts_in arrays.now)) }
    ensures rows { IfOk result (λ all. any_array_rows all ≡ joined (map rows (layouts_in arrays.now))) }
    ensures fits { IfOk result (λ all. Fits (any_array_type all) (any_array_rows all)) }
    ensures overflow { result ≡ Err Error.Overflow → CannotAppendAll (layouts_in arrays.now) }
    ensures others { IfErr result IsGrowthError }
{
    let mut growable = growable;
    append_all(&mut growable, arrays)?;
    growable.as_box()
}

// How many rows all arrays have, and the greatest number where they are more.
fn count_rows(arrays: &[&AnyArray]) -> usize {
    let mut count = 0usize;
    for array in arrays {
        count = count.saturating_add(array.len());
    }
    count
}

// Appends all rows of each array that is bound.
fn append_all(growable: &mut AnyGrowable, arrays: &[&AnyArray]) -> Result<(), Error>
    requires bound { grown_of growable.old ≡ bound_to (layouts_in arrays.now) }
    ensures ok { OnOk result (HasAppended (layouts_in arrays.now) (grown_of growable.new)
        (joined (map rows (layouts_in arrays.now)))) }
    ensures overflow { result ≡ Err Error.Overflow → CannotAppendAll (layouts_in arrays.now) }
    ensures others { IfErr result IsGrowthError }
{
    for (index, array) in arrays.iter().enumerate() {
        growable.extend(index, 0, array.len())?;
    }
    Ok(())
}
