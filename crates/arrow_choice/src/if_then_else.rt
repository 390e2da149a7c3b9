//! Rows of two arrays, as a predicate chooses.

ghost use Rattle.std.specs.Prelude.{◌≡◌, ◌≢◌, ◌↔◌, [], ◌∷◌, false, Err, IfOk, IfErr, IsOkUnless, OnOk};
ghost use Rattle.arrow_types.specs.declared.error.Error.{Error};
ghost use Rattle.arrow_types.specs.declared.error.ArgumentFault.{ArgumentFault};
ghost use Rattle.arrow_types.specs.Fits.{Fits};
ghost use Rattle.arrow_types.specs.Ranges.{IsShortestOfSides, named_sides};
ghost use Rattle.arrow_types.specs.Rows.{chosen};
ghost use Rattle.arrow_memory.specs.Grown.{IsGrowthError};
ghost use Rattle.arrow_flat.specs.Parts.{boolean_rows};
ghost use Rattle.arrow_arrays.specs.Any.{any_array_type, any_array_rows, layout_of};
ghost use Rattle.arrow_flat_growable.specs.Grown.{FitsItself, NamesRows, appended, bound_to};
ghost use Rattle.arrow_growable.specs.AnyGrowable.{grown_of};
ghost use Rattle.arrow_growable.specs.Growing.{HasAppended};
ghost use Rattle.arrow_choice.specs.Choice.{AreOneLength, CannotAppendChosen, CannotChoose, CannotHoldRun, run_rows, truth_slot};
ghost use Rattle.arrow_choice.specs.Keys.{HasNoDictionary};
ghost use Rattle.arrow_choice.specs.Sides.{side_of, sides_from};
ghost use Rattle.arrow_choice.specs.Refusals.{IsIfThenElseRefusal};

mod boolean;
mod bytes;
mod list;
mod primitive;
mod runs;
mod structure;
mod words;

use crate::keys::show_all_no_keys;
use crate::types::is_of_type;
use arrow_arrays::array::AnyArray;
use arrow_flat::array::BooleanArray;
use arrow_growable::growable::{AnyGrowable, Growable, make_growable};
use arrow_types::error::{ArgumentFault, Error};
use boolean::chosen_booleans;
use bytes::chosen_byte_rows;
use list::chosen_lists;
use primitive::chosen_primitives;
use runs::Runs;
use std::alloc::Global;
use structure::chosen_structs;

/// The rows of the left array where the predicate is true, those of the right one where it is false, and the type's
/// null slot where it is null, in an array of their data type.
///
/// # Errors
/// `IfThenElseTypes` where the data types differ; then `IfThenElseLengths` where an array has not as many rows as the
/// predicate; then `Overflow` where the rows do not fit the type, one that is chosen is crowded, or dictionaries in the
/// arrays can't be joined, and of types without dictionaries only where the rows do not fit; `OutOfMemory` where memory
/// is refused.
///
/// Source: arrow2's `if_then_else`.
pub fn if_then_else(
    alloc: Global,
    predicate: &BooleanArray,
    lhs: &AnyArray,
    rhs: &AnyArray,
) -> Result<AnyArray, Error>
    ensures types { (result ≡ Err (Error.InvalidArgumentError ArgumentFault.IfThenElseTypes))
        ↔ (any_array_type lhs.now ≢ any_array_type rhs.now) }
    ensures lengths { (result ≡ Err (Error.InvalidArgumentError ArgumentFault.IfThenElseLengths))
        ↔ ((any_array_type lhs.now ≡ any_array_type rhs.now)
        × (AreOneLength (boolean_rows predicate.now) (any_array_rows lhs.now) (any_array_rows rhs.now)
        → ⊥)) }
    ensures array_type { IfOk result (λ all. any_array_type all ≡ any_array_type lhs.now) }
    ensures rows { IfOk result (λ all. any_array_rows all
        ≡ chosen (boolean_rows predicate.now) (any_array_rows lhs.now) (any_array_rows rhs.now)
        (any_array_type lhs.now)) }
    ensures fits { IfOk result (λ all. Fits (any_array_type all) (any_array_rows all)) }
    ensures overflow { result ≡ Err Error.Overflow
        → CannotChoose (boolean_rows predicate.now) (layout_of lhs.now) (layout_of rhs.now) }
    ensures no_keys { result ≡ Err Error.Overflow → HasNoDictionary (any_array_type lhs.now)
        → Fits (any_array_type lhs.now)
        (chosen (boolean_rows predicate.now) (any_array_rows lhs.now) (any_array_rows rhs.now)
        (any_array_type lhs.now)) → ⊥ }
    ensures others { IfErr result IsIfThenElseRefusal }
{
    if !is_of_type(lhs, rhs) {
        return Err(Error::InvalidArgumentError(ArgumentFault::IfThenElseTypes));
    }
    let len = predicate.len();
    if lhs.len() != len || rhs.len() != len {
        return Err(Error::InvalidArgumentError(ArgumentFault::IfThenElseLengths));
    }
    // An array of a type without dictionaries holds none.
    show_all_no_keys(&[lhs, rhs]);
    chosen_rows(alloc, predicate, lhs, rhs)
}

// The rows that the predicate chooses of two arrays of one data type: of numbers, intervals and booleans by words, of texts
// and bytes by words and rows, of structs field by field, of lists by runs of their items, and of others by runs.
#[cycle(choose)]
fn chosen_rows(
    alloc: Global,
    predicate: &BooleanArray,
    lhs: &AnyArray,
    rhs: &AnyArray,
) -> Result<AnyArray, Error>
    requires one_type { any_array_type lhs.now ≡ any_array_type rhs.now }
    requires lengths { AreOneLength (boolean_rows predicate.now) (any_array_rows lhs.now)
        (any_array_rows rhs.now) }
    ensures array_type { IfOk result (λ all. any_array_type all ≡ any_array_type lhs.now) }
    ensures rows { IfOk result (λ all. any_array_rows all
        ≡ chosen (boolean_rows predicate.now) (any_array_rows lhs.now) (any_array_rows rhs.now)
        (any_array_type lhs.now)) }
    ensures fits { IfOk result (λ all. Fits (any_array_type all) (any_array_rows all)) }
    ensures overflow { result ≡ Err Error.Overflow
        → CannotChoose (boolean_rows predicate.now) (layout_of lhs.now) (layout_of rhs.now) }
    ensures others { IfErr result IsGrowthError }
{
    match (lhs, rhs) {
        (AnyArray::Boolean(left), AnyArray::Boolean(right)) => {
            Ok(AnyArray::Boolean(chosen_booleans(alloc, predicate, left, right)?))
        }
        (AnyArray::Primitive(left), AnyArray::Primitive(right)) => {
            // Arrays of one data type have one element type.
            let _ = left.data_type();
            let _ = right.data_type();
            Ok(AnyArray::Primitive(chosen_primitives(alloc, predicate, left, right)?))
        }
        (AnyArray::Utf8(left), AnyArray::Utf8(right)) => {
            Ok(AnyArray::Utf8(chosen_byte_rows(alloc, predicate, left, right)?))
        }
        (AnyArray::LargeUtf8(left), AnyArray::LargeUtf8(right)) => {
            Ok(AnyArray::LargeUtf8(chosen_byte_rows(alloc, predicate, left, right)?))
        }
        (AnyArray::Binary(left), AnyArray::Binary(right)) => {
            Ok(AnyArray::Binary(chosen_byte_rows(alloc, predicate, left, right)?))
        }
        (AnyArray::LargeBinary(left), AnyArray::LargeBinary(right)) => {
            Ok(AnyArray::LargeBinary(chosen_byte_rows(alloc, predicate, left, right)?))
        }
        (AnyArray::Struct(left), AnyArray::Struct(right)) => {
            Ok(AnyArray::Struct(chosen_structs(alloc, predicate, left, right)?))
        }
        (AnyArray::List(left), AnyArray::List(right)) => {
            match chosen_lists(alloc, predicate, left, right) {
                Ok(all) => Ok(AnyArray::List(all)),
                Err(Error::OutOfMemory) => Err(Error::OutOfMemory),
                // Whether a row that is chosen is crowded, only a growable over whole lists says.
                Err(_) => chosen_by_growable(alloc, predicate, lhs, rhs),
            }
        }
        _ => chosen_by_growable(alloc, predicate, lhs, rhs),
    }
}

// The same by runs of rows, for a type of any kind.
fn chosen_by_growable(
    alloc: Global,
    predicate: &BooleanArray,
    lhs: &AnyArray,
    rhs: &AnyArray,
) -> Result<AnyArray, Error>
    requires one_type { any_array_type lhs.now ≡ any_array_type rhs.now }
    requires lengths { AreOneLength (boolean_rows predicate.now) (any_array_rows lhs.now)
        (any_array_rows rhs.now) }
    ensures array_type { IfOk result (λ all. any_array_type all ≡ any_array_type lhs.now) }
    ensures rows { IfOk result (λ all. any_array_rows all
        ≡ chosen (boolean_rows predicate.now) (any_array_rows lhs.now) (any_array_rows rhs.now)
        (any_array_type lhs.now)) }
    ensures fits { IfOk result (λ all. Fits (any_array_type all) (any_array_rows all)) }
    ensures overflow { result ≡ Err Error.Overflow
        → CannotChoose (boolean_rows predicate.now) (layout_of lhs.now) (layout_of rhs.now) }
    ensures others { IfErr result IsGrowthError }
{
    let growable = make_growable(alloc, &[lhs, rhs], false, predicate.len())?;
    chosen_by_runs(growable, predicate, lhs, rhs)
}

// The same by a growable over both arrays that has no row yet.
fn chosen_by_runs(
    growable: AnyGrowable,
    predicate: &BooleanArray,
    lhs: &AnyArray,
    rhs: &AnyArray,
) -> Result<AnyArray, Error>
    requires bound { grown_of growable ≡ bound_to (layout_of lhs.now ∷ layout_of rhs.now ∷ []) }
    requires lengths { AreOneLength (boolean_rows predicate.now) (any_array_rows lhs.now)
        (any_array_rows rhs.now) }
    ensures array_type { IfOk result (λ all. any_array_type all ≡ any_array_type lhs.now) }
    ensures rows { IfOk result (λ all. any_array_rows all
        ≡ chosen (boolean_rows predicate.now) (any_array_rows lhs.now) (any_array_rows rhs.now)
        (any_array_type lhs.now)) }
    ensures fits { IfOk result (λ all. Fits (any_array_type all) (any_array_rows all)) }
    ensures overflow { result ≡ Err Error.Overflow
        → CannotAppendChosen (boolean_rows predicate.now) (layout_of lhs.now) (layout_of rhs.now) }
    ensures others { IfErr result IsGrowthError }
{
    let mut growable = growable;
    append_by_kind(&mut growable, predicate, lhs, rhs)?;
    growable.as_box()
}

// Appends the rows that the predicate chooses, by the growable of the arrays' kind, which is found once.
fn append_by_kind(
    growable: &mut AnyGrowable,
    predicate: &BooleanArray,
    lhs: &AnyArray,
    rhs: &AnyArray,
) -> Result<(), Error>
    requires bound { grown_of growable.old ≡ bound_to (layout_of lhs.now ∷ layout_of rhs.now ∷ []) }
    requires lengths { AreOneLength (boolean_rows predicate.now) (any_array_rows lhs.now)
        (any_array_rows rhs.now) }
    ensures ok { OnOk result (HasAppended (layout_of lhs.now ∷ layout_of rhs.now ∷ [])
        (grown_of growable.new) (chosen (boolean_rows predicate.now) (any_array_rows lhs.now)
        (any_array_rows rhs.now) (any_array_type lhs.now))) }
    ensures overflow { result ≡ Err Error.Overflow
        → CannotAppendChosen (boolean_rows predicate.now) (layout_of lhs.now) (layout_of rhs.now) }
    ensures others { IfErr result IsGrowthError }
{
    match growable {
        AnyGrowable::Null(nulls) => append_chosen(nulls, predicate, lhs, rhs),
        AnyGrowable::Boolean(values) => append_chosen(values, predicate, lhs, rhs),
        AnyGrowable::Primitive(values) => append_chosen(values, predicate, lhs, rhs),
        AnyGrowable::Utf8(texts) => append_chosen(texts, predicate, lhs, rhs),
        AnyGrowable::LargeUtf8(texts) => append_chosen(texts, predicate, lhs, rhs),
        AnyGrowable::Binary(bytes) => append_chosen(bytes, predicate, lhs, rhs),
        AnyGrowable::LargeBinary(bytes) => append_chosen(bytes, predicate, lhs, rhs),
        AnyGrowable::FixedSizeBinary(bytes) => append_chosen(bytes, predicate, lhs, rhs),
        AnyGrowable::Nested(nested) => append_chosen(nested, predicate, lhs, rhs),
        AnyGrowable::Dictionary(keys) => append_chosen(keys, predicate, lhs, rhs),
        AnyGrowable::Union(variants) => append_chosen(variants, predicate, lhs, rhs),
    }
}

// Appends the rows that the predicate chooses, a run of rows of one array or of nulls at a time.
fn append_chosen<'a, G: Growable<'a>>(
    growable: &mut G,
    predicate: &BooleanArray,
    lhs: &AnyArray,
    rhs: &AnyArray,
) -> Result<(), Error>
    requires bound { G.state growable.old ≡ bound_to (layout_of lhs.now ∷ layout_of rhs.now ∷ []) }
    requires lengths { AreOneLength (boolean_rows predicate.now) (any_array_rows lhs.now)
        (any_array_rows rhs.now) }
    ensures ok { OnOk result (HasAppended (layout_of lhs.now ∷ layout_of rhs.now ∷ [])
        (G.state growable.new) (chosen (boolean_rows predicate.now) (any_array_rows lhs.now)
        (any_array_rows rhs.now) (any_array_type lhs.now))) }
    ensures overflow { result ≡ Err Error.Overflow
        → CannotAppendChosen (boolean_rows predicate.now) (layout_of lhs.now) (layout_of rhs.now) }
    ensures others { IfErr result IsGrowthError }
{
    prove!(lhs.len() == rhs.len());
    let mut runs = Runs::new(predicate);
    while let Some((truth, start, count)) = runs.next() {
        append_run(growable, truth, start, count)?;
    }
    Ok(())
}

// Appends rows of the first array that is bound, of the second one, or nulls.
#[inline(always)]
fn append_run<'a, G: Growable<'a>>(
    growable: &mut G,
    truth: Option<bool>,
    start: usize,
    count: usize,
) -> Result<(), Error>
    requires left { NamesRows (G.state growable.old) 0 start count }
    requires right { NamesRows (G.state growable.old) 1 start count }
    requires well { (G.state growable.old).failed ≡ false }
    ensures ok { OnOk result (G.state growable.new
        ≡ appended (G.state growable.old) (run_rows (G.state growable.old) truth start count)) }
    ensures fits { OnOk result (FitsItself (G.state growable.new)) }
    ensures overflow { result ≡ Err Error.Overflow → CannotHoldRun (G.state growable.old) truth start count }
    ensures others { IfErr result IsGrowthError }
{
    match truth {
        Some(true) => growable.extend(0, start, count),
        Some(false) => growable.extend(1, start, count),
        None => growable.extend_validity(count),
    }
}

/// The rows that `if_then_else` copies by a predicate, as ranges in order: the side, the first row, and how many rows.
/// Side 0 is the left array, where the predicate is true, and side 1 the right one, where it is false; side 2 names
/// places at which it is null. No list of ranges that names the same is shorter.
///
/// # Errors
/// `OutOfMemory` where memory is refused.
///
/// Source: of our own.
pub fn if_then_else_ranges(
    alloc: Global,
    predicate: &BooleanArray,
) -> Result<Vec<(usize, usize, usize)>, Error>
    ensures named { IfOk result (λ ranges. named_sides ranges.items
        ≡ sides_from 0 (boolean_rows predicate.now)) }
    ensures shortest { IfOk result (λ ranges. IsShortestOfSides ranges.items) }
    ensures err { IsOkUnless result Error.OutOfMemory }
{
    let mut runs = Runs::new(predicate);
    let mut ranges = Vec::new(alloc);
    while let Some((truth, start, count)) = runs.next() {
        ranges.push((side_number(truth), start, count))?;
    }
    Ok(ranges)
}

// The side of a row of a predicate, null or not.
fn side_number(truth: Option<bool>) -> usize
    ensures { result ≡ side_of (truth_slot truth) }
{
    match truth {
        Some(true) => 0,
        Some(false) => 1,
        None => 2,
    }
}
