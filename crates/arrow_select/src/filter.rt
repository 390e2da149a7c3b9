//! The rows at which a predicate is true: of an array, of the columns of a batch, and by a predicate that is prepared.

ghost use Rattle.std.specs.Prelude.{◌≡◌, All, Err, length, map, IfOk, IfErr};
ghost use Rattle.arrow_types.specs.declared.error.Error.{Error};
ghost use Rattle.arrow_types.specs.Fits.{Fits};
ghost use Rattle.arrow_types.specs.Rows.{mask_of, select};
ghost use Rattle.arrow_arrays.specs.Any.{any_array_type, any_array_rows, layout_of};
ghost use Rattle.arrow_arrays.specs.Layout.{rows, type_of_layout};
ghost use Rattle.arrow_arrays.specs.StructParts.{HaveRows};
ghost use Rattle.arrow_flat.specs.Parts.{boolean_rows};
ghost use Rattle.arrow_memory.specs.Grown.{IsGrowthError};
ghost use Rattle.arrow_select.specs.Selected.{FirstDoesNotFit, selected_rows};

mod any;
mod boolean;
mod bytes;
mod columns;
mod dict;
mod fixed_size_list;
mod list;
mod prepared;
mod primitive;
mod ranged;
mod ranges;
mod selection;
mod structure;
mod union;
mod words;

use crate::filter::any::{count_set, kept, mask_of_predicate};
use crate::filter::selection::Selection;
use arrow_arrays::array::AnyArray;
use arrow_arrays::chunk::Chunk;
use arrow_flat::array::BooleanArray;
use arrow_memory::bitmap::Bitmap;
use arrow_types::error::Error;
pub use prepared::{Filter, build_filter};
use std::alloc::Global;
pub use words::extend_from_word;

/// The rows at which the predicate is true, in order, in an array of the same type. A null of the
/// predicate counts as false, whatever is stored beneath it.
///
/// # Requires
/// The predicate has as many rows as the array.
///
/// # Errors
/// `Overflow` where the rows do not fit the type, and `OutOfMemory` where memory is refused.
///
/// Source: arrow2's `filter`.
pub fn filter(alloc: Global, array: &AnyArray, filter: &BooleanArray) -> Result<AnyArray, Error>
    requires lengths { length (boolean_rows filter.now) ≡ length (any_array_rows array.now) }
    ensures array_type { IfOk result (λ kept. any_array_type kept ≡ any_array_type array.now) }
    ensures rows { IfOk result (λ kept. any_array_rows kept
        ≡ select (mask_of (boolean_rows filter.now)) (any_array_rows array.now)) }
    ensures fits { IfOk result (λ kept. Fits (any_array_type kept) (any_array_rows kept)) }
    ensures overflow { result ≡ Err Error.Overflow
        → Fits (any_array_type array.now)
        (select (mask_of (boolean_rows filter.now)) (any_array_rows array.now)) → ⊥ }
    ensures others { IfErr result IsGrowthError }
{
    let mask = mask_of_predicate(alloc, filter)?;
    kept(alloc, array, Selection::Mask(&mask), count_set(&mask))
}

/// Of each column the rows at which the predicate is true, the columns in their order. The mask of the predicate is made once.
/// A null of it counts as false, whatever is stored beneath it, with any number of columns.
///
/// # Requires
/// Each column has as many rows as the predicate. Where there is no column, any predicate will do.
///
/// # Errors
/// The first refusal among the columns, in their order: `Overflow` where the rows of one do not fit its type, while those of
/// each before it do, and `OutOfMemory` where memory is refused.
///
/// Source: arrow2's `filter_chunk`.
pub fn filter_chunk(
    alloc: Global,
    columns: &Chunk,
    filter_values: &BooleanArray,
) -> Result<Chunk, Error>
    requires lengths { HaveRows (length (boolean_rows filter_values.now)) columns.now }
    ensures types { IfOk result (λ kept. map type_of_layout kept ≡ map type_of_layout columns.now) }
    ensures rows { IfOk result (λ kept. map rows kept
        ≡ map (selected_rows (mask_of (boolean_rows filter_values.now))) columns.now) }
    ensures fits { IfOk result (λ kept. All (λ column. Fits (type_of_layout column) (rows column)) kept) }
    ensures overflow { result ≡ Err Error.Overflow
        → FirstDoesNotFit (mask_of (boolean_rows filter_values.now)) columns.now }
    ensures others { IfErr result IsGrowthError }
{
    let mask = mask_of_predicate(alloc, filter_values)?;
    let kept = filter_columns(alloc, columns.arrays(), &mask)?;
    Ok(Chunk::new(kept))
}

// The rows of each column at which the mask is set.
fn filter_columns(
    alloc: Global,
    columns: &[AnyArray],
    mask: &Bitmap,
) -> Result<Vec<AnyArray>, Error>
    requires lengths { HaveRows (length mask.now) (map layout_of columns.now) }
    ensures types { IfOk result (λ kept. map type_of_layout (map layout_of kept.items)
        ≡ map type_of_layout (map layout_of columns.now)) }
    ensures rows { IfOk result (λ kept. map rows (map layout_of kept.items)
        ≡ map (selected_rows mask.now) (map layout_of columns.now)) }
    ensures fits { IfOk result (λ kept.
        All (λ column. Fits (type_of_layout column) (rows column)) (map layout_of kept.items)) }
    ensures overflow { result ≡ Err Error.Overflow → FirstDoesNotFit mask.now (map layout_of columns.now) }
    ensures others { IfErr result IsGrowthError }
{
    let count = count_set(mask);
    let mut all = Vec::with_capacity(alloc, columns.len())?;
    for column in columns {
        all.push(kept(alloc, column, Selection::Mask(mask), count)?)?;
    }
    Ok(all)
}
