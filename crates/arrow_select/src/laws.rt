//! The laws of the kernels: each is the contract of a function over arrays that are handed in, and says of the definitions
//! that the kernels' contracts cite what a caller may replace by what. None makes an array.
#![tactic(auto, using(crate::proofs::LawLemmas::laws, crate::proofs::KeptLemmas::laws, crate::proofs::CanTake::can_by_fields))]

ghost use Rattle.std.specs.Prelude.{◌≡◌, ◌<◌, ◌≤◌, ◌^◌, Bool, List, [], ◌∷◌, All, length, map};
ghost use Rattle.arrow_types.specs.Fits.{Fits};
ghost use Rattle.arrow_types.specs.Rows.{gather, joined, mask_of};
ghost use Rattle.arrow_types.specs.TypeOf.{type_of};
ghost use Rattle.arrow_flat.specs.Parts.{boolean_rows, rows_by};
ghost use Rattle.arrow_arrays.specs.Any.{any_array_rows, any_array_type};
ghost use Rattle.arrow_arrays.specs.Layout.{rows, type_of_layout};
ghost use Rattle.arrow_select.specs.Arrays.{rows_in, types_in};
ghost use Rattle.arrow_choice.specs.Keys.{HasNoDictionary};
ghost use Rattle.arrow_select.specs.Laws.{AreShifted, CanTakeByFields, HasFitting, IsChoice, IsGathered, IsKept, IsSelected, IsShifted, IsStructOrUnion, MeanSame, RowsFit, chosen_of, cut_at, dense_nulls, dense_rows, gathered_of, kept_columns, kept_of, kept_places, rows_of_both, selected_of, shifted_of};
ghost use Rattle.arrow_select.specs.Selected.{FirstDoesNotFit};
ghost use Rattle.arrow_take.specs.Taken.{AreIndices};

pub mod batches;

use crate::filter::Filter;
use arrow_arrays::array::AnyArray;
use arrow_arrays::chunk::Chunk;
use arrow_flat::array::{BooleanArray, PrimitiveArray};
use arrow_types::datatypes::DataType;
use arrow_types::types::Index;

/// The rows at which a predicate is true are the rows by index of the places where it is.
pub fn select_is_gather(array: &AnyArray, filter: &BooleanArray)
    requires { length (boolean_rows filter.now) ≡ length (any_array_rows array.now) }
    ensures { kept_of (boolean_rows filter.now) array.now
        ≡ gathered_of (kept_places (boolean_rows filter.now)) array.now }
{}

/// Rows by index of rows by index are the rows by the indices that the second ones name of the first.
pub fn gather_of_gather<I: Index, J: Index>(
    array: &AnyArray,
    first: &PrimitiveArray<I>,
    second: &PrimitiveArray<J>,
)
    requires inside { AreIndices (length (rows_by (map I.slot) first.now)) (rows_by (map J.slot) second.now) }
    ensures { gather (gather (any_array_rows array.now) (rows_by (map I.slot) first.now)
        (any_array_type array.now)) (rows_by (map J.slot) second.now) (any_array_type array.now)
        ≡ gather (any_array_rows array.now)
        (gather (rows_by (map I.slot) first.now) (rows_by (map J.slot) second.now) first.now.arrow_type)
        (any_array_type array.now) }
{
    // The null slot of the indices' type is null.
    let _ = first.data_type();
}

/// It makes no difference which of three arrays are joined first.
pub fn joined_is_associative(left: &AnyArray, middle: &AnyArray, right: &AnyArray)
    ensures { joined (rows_of_both left.now middle.now ∷ any_array_rows right.now ∷ [])
        ≡ joined (any_array_rows left.now ∷ rows_of_both middle.now right.now ∷ []) }
{}

/// An array that is cut in two and joined has its rows again.
///
/// # Requires
/// It is cut at a row, or behind the last.
pub fn joined_of_cut(array: &AnyArray, at: usize)
    requires { at ≤ length (any_array_rows array.now) }
    ensures { joined (cut_at at (any_array_rows array.now)) ≡ any_array_rows array.now }
{}

/// Arrays of the same types and rows are concatenated to the same type and rows.
///
/// # Requires
/// There is an array, and each result is what `concatenate` answers of its arrays.
pub fn concatenate_goes_by_rows(
    arrays: &[&AnyArray],
    all: &AnyArray,
    others: &[&AnyArray],
    other_all: &AnyArray,
)
    requires some { 0 < length arrays.now }
    requires types { types_in others.now ≡ types_in arrays.now }
    requires rows { rows_in others.now ≡ rows_in arrays.now }
    requires all_type { All (λ t. t ≡ any_array_type all.now) (types_in arrays.now) }
    requires all_rows { any_array_rows all.now ≡ joined (rows_in arrays.now) }
    requires other_type { All (λ t. t ≡ any_array_type other_all.now) (types_in others.now) }
    requires other_rows { any_array_rows other_all.now ≡ joined (rows_in others.now) }
    ensures { MeanSame other_all.now all.now }
{}

/// Arrays of the same type and rows are shifted to the same type and rows.
///
/// # Requires
/// Each result is what `shift` answers of its array by the offset.
pub fn shift_goes_by_rows(
    array: &AnyArray,
    moved: &AnyArray,
    other: &AnyArray,
    other_moved: &AnyArray,
    offset: i64,
)
    requires same { MeanSame other.now array.now }
    requires moved { AreShifted offset array.now moved.now other.now other_moved.now }
    ensures { MeanSame other_moved.now moved.now }
{}

/// Arrays of the same type and rows are filtered to the same type and rows by predicates of the same rows.
///
/// # Requires
/// Each result is what `filter` answers of its array and predicate.
pub fn filter_goes_by_rows(
    array: &AnyArray,
    filter: &BooleanArray,
    kept: &AnyArray,
    other: &AnyArray,
    other_filter: &BooleanArray,
    other_kept: &AnyArray,
)
    requires same { MeanSame other.now array.now }
    requires filters { boolean_rows other_filter.now ≡ boolean_rows filter.now }
    requires kept { IsKept (boolean_rows filter.now) array.now kept.now }
    requires other_kept { IsKept (boolean_rows other_filter.now) other.now other_kept.now }
    ensures { MeanSame other_kept.now kept.now }
{}

/// Arrays of the same type and rows give the same type and rows by indices of the same rows, of any widths.
///
/// # Requires
/// Each result is what `take` answers of its array and indices.
pub fn take_goes_by_rows<I: Index, J: Index>(
    array: &AnyArray,
    indices: &PrimitiveArray<I>,
    taken: &AnyArray,
    other: &AnyArray,
    other_indices: &PrimitiveArray<J>,
    other_taken: &AnyArray,
)
    requires same { MeanSame other.now array.now }
    requires indices { rows_by (map J.slot) other_indices.now ≡ rows_by (map I.slot) indices.now }
    requires taken { IsGathered (rows_by (map I.slot) indices.now) array.now taken.now }
    requires other_taken { IsGathered (rows_by (map J.slot) other_indices.now) other.now other_taken.now }
    ensures { MeanSame other_taken.now taken.now }
{}

/// Of a carried struct or union `can_take` holds exactly where it holds of the type of each field, and of a type that is not
/// carried it does not.
///
/// # Requires
/// The type is a struct or a union, not inside an extension.
pub fn can_take_goes_by_fields(data_type: &DataType)
    requires { IsStructOrUnion (type_of data_type.now) }
    ensures { CanTakeByFields (type_of data_type.now) }
{}

/// Arrays of the same type and rows are filtered to the same type and rows by prepared filters of one mask.
///
/// # Requires
/// Each result is what `Filter::apply` answers of its filter and array.
pub fn apply_goes_by_rows(
    filter: &Filter,
    array: &AnyArray,
    kept: &AnyArray,
    other_filter: &Filter,
    other: &AnyArray,
    other_kept: &AnyArray,
)
    requires filters { other_filter.now ≡ filter.now }
    requires same { MeanSame other.now array.now }
    requires kept { IsSelected filter.now array.now kept.now }
    requires other_kept { IsSelected other_filter.now other.now other_kept.now }
    ensures { MeanSame other_kept.now kept.now }
{}

/// Batches of the same types and rows are filtered to the same types and rows by predicates of the same rows.
///
/// # Requires
/// Each result is what `filter_chunk` answers of its columns and predicate.
pub fn chunk_goes_by_rows(
    columns: &Chunk,
    filter: &BooleanArray,
    kept: &Chunk,
    other: &Chunk,
    other_filter: &BooleanArray,
    other_kept: &Chunk,
)
    requires same_types { map type_of_layout other.now ≡ map type_of_layout columns.now }
    requires same_rows { map rows other.now ≡ map rows columns.now }
    requires filters { boolean_rows other_filter.now ≡ boolean_rows filter.now }
    requires types { map type_of_layout kept.now ≡ map type_of_layout columns.now }
    requires rows { map rows kept.now ≡ kept_columns (boolean_rows filter.now) columns.now }
    requires other_types { map type_of_layout other_kept.now ≡ map type_of_layout other.now }
    requires other_rows { map rows other_kept.now ≡ kept_columns (boolean_rows other_filter.now) other.now }
    ensures types { map type_of_layout other_kept.now ≡ map type_of_layout kept.now }
    ensures rows { map rows other_kept.now ≡ map rows kept.now }
{}

/// Of arrays of the same types and rows the same type and rows are chosen, by predicates of the same rows.
///
/// # Requires
/// Each result is what `if_then_else` answers of its predicate and arrays.
pub fn choice_goes_by_rows(
    predicate: &BooleanArray,
    lhs: &AnyArray,
    rhs: &AnyArray,
    all: &AnyArray,
    other_predicate: &BooleanArray,
    other_lhs: &AnyArray,
    other_rhs: &AnyArray,
    other_all: &AnyArray,
)
    requires predicates { boolean_rows other_predicate.now ≡ boolean_rows predicate.now }
    requires left { MeanSame other_lhs.now lhs.now }
    requires right { MeanSame other_rhs.now rhs.now }
    requires all { IsChoice (boolean_rows predicate.now) lhs.now rhs.now all.now }
    requires other { IsChoice (boolean_rows other_predicate.now) other_lhs.now other_rhs.now other_all.now }
    ensures { MeanSame other_all.now all.now }
{}

/// Where `filter` answered `Ok` of one array, it does not answer `Overflow` of another one of the same type and rows, by a
/// predicate of the same rows: what it keeps of that one fits its type.
///
/// # Requires
/// The result is what `filter` answers of the first array and predicate, so its rows fit.
pub fn filter_fits_alike(
    array: &AnyArray,
    filter: &BooleanArray,
    kept: &AnyArray,
    other: &AnyArray,
    other_filter: &BooleanArray,
)
    requires same { MeanSame other.now array.now }
    requires filters { boolean_rows other_filter.now ≡ boolean_rows filter.now }
    requires kept { IsKept (boolean_rows filter.now) array.now kept.now }
    requires fits { HasFitting kept.now }
    ensures { RowsFit (kept_of (boolean_rows other_filter.now) other.now) }
{}

/// The same of `Filter::apply`, by filters of one mask.
///
/// # Requires
/// The result is what `Filter::apply` answers of the first filter and array, so its rows fit.
pub fn apply_fits_alike(
    filter: &Filter,
    array: &AnyArray,
    kept: &AnyArray,
    other_filter: &Filter,
    other: &AnyArray,
)
    requires filters { other_filter.now ≡ filter.now }
    requires same { MeanSame other.now array.now }
    requires kept { IsSelected filter.now array.now kept.now }
    requires fits { HasFitting kept.now }
    ensures { RowsFit (selected_of other_filter.now other.now) }
{}

/// The same of `filter_chunk`, by predicates of the same rows: what is kept of each column fits its type, so there is no
/// first one of which it does not.
///
/// # Requires
/// The result is what `filter_chunk` answers of the first columns and predicate, so the rows of each column fit.
pub fn chunk_fits_alike(
    columns: &Chunk,
    filter: &BooleanArray,
    kept: &Chunk,
    other: &Chunk,
    other_filter: &BooleanArray,
)
    requires same_types { map type_of_layout other.now ≡ map type_of_layout columns.now }
    requires same_rows { map rows other.now ≡ map rows columns.now }
    requires filters { boolean_rows other_filter.now ≡ boolean_rows filter.now }
    requires types { map type_of_layout kept.now ≡ map type_of_layout columns.now }
    requires rows { map rows kept.now ≡ kept_columns (boolean_rows filter.now) columns.now }
    requires fits { All (λ column. Fits (type_of_layout column) (rows column)) kept.now }
    ensures { FirstDoesNotFit (mask_of (boolean_rows other_filter.now)) other.now → ⊥ }
{}

/// The same of `shift`, by one offset.
///
/// # Requires
/// The result is what `shift` answers of the first array by the offset, so its rows fit.
pub fn shift_fits_alike(array: &AnyArray, moved: &AnyArray, other: &AnyArray, offset: i64)
    requires same { MeanSame other.now array.now }
    requires moved { IsShifted offset array.now moved.now }
    requires fits { HasFitting moved.now }
    ensures { RowsFit (shifted_of offset other.now) }
{}

/// The same of `take`, by indices of the same rows, of any widths.
///
/// # Requires
/// The result is what `take` answers of the first array and indices, so its rows fit.
pub fn take_fits_alike<I: Index, J: Index>(
    array: &AnyArray,
    indices: &PrimitiveArray<I>,
    taken: &AnyArray,
    other: &AnyArray,
    other_indices: &PrimitiveArray<J>,
)
    requires same { MeanSame other.now array.now }
    requires indices { rows_by (map J.slot) other_indices.now ≡ rows_by (map I.slot) indices.now }
    requires taken { IsGathered (rows_by (map I.slot) indices.now) array.now taken.now }
    requires fits { HasFitting taken.now }
    ensures { RowsFit (gathered_of (rows_by (map J.slot) other_indices.now) other.now) }
{}

/// Where `concatenate` answered `Ok` of arrays of a type that holds no dictionary, it does not answer `Overflow` of others of
/// the same types and rows: they hold none, and their rows fit.
///
/// Of a type that holds one it may: the values of dictionaries are joined whole, named or not. Keys of 8 bits, [0] over
/// one value, and over 100 values of which that is the first, are equal rows; in front of the key 28 over 29 values the
/// first array is joined, and the second one is `Overflow`.
///
/// # Requires
/// The result is what `concatenate` answers of the first arrays, so its rows fit, and its type holds no dictionary.
pub fn concatenate_fits_alike(arrays: &[&AnyArray], all: &AnyArray, others: &[&AnyArray])
    requires types { types_in others.now ≡ types_in arrays.now }
    requires rows { rows_in others.now ≡ rows_in arrays.now }
    requires all_type { All (λ t. t ≡ any_array_type all.now) (types_in arrays.now) }
    requires all_rows { any_array_rows all.now ≡ joined (rows_in arrays.now) }
    requires fits { HasFitting all.now }
    requires no_dictionary { HasNoDictionary (any_array_type all.now) }
    ensures no_dictionary { All HasNoDictionary (types_in others.now) }
    ensures fits { All (λ t. Fits t (joined (rows_in others.now))) (types_in others.now) }
{}

/// The same of `if_then_else`, by predicates of the same rows: of a type that holds no dictionary. Of one that holds one
/// how many values the dictionaries of both arrays have decides too.
///
/// # Requires
/// The result is what `if_then_else` answers of the first predicate and arrays, so its rows fit, and its type holds no
/// dictionary.
pub fn choice_fits_alike(
    predicate: &BooleanArray,
    lhs: &AnyArray,
    rhs: &AnyArray,
    all: &AnyArray,
    other_predicate: &BooleanArray,
    other_lhs: &AnyArray,
    other_rhs: &AnyArray,
)
    requires predicates { boolean_rows other_predicate.now ≡ boolean_rows predicate.now }
    requires left { MeanSame other_lhs.now lhs.now }
    requires right { MeanSame other_rhs.now rhs.now }
    requires all { IsChoice (boolean_rows predicate.now) lhs.now rhs.now all.now }
    requires fits { HasFitting all.now }
    requires no_dictionary { HasNoDictionary (any_array_type all.now) }
    ensures no_dictionary { HasNoDictionary (any_array_type other_lhs.now) }
    ensures fits { RowsFit (chosen_of (boolean_rows other_predicate.now) other_lhs.now other_rhs.now) }
{}

/// Rows that are kept of rows that fit a type fit it, whatever the mask. So `filter`, `Filter::apply` and `filter_chunk`
/// never answer `Overflow` of what a kernel answered: its rows fit, as its contract says.
///
/// # Requires
/// The rows of the array fit its type.
pub fn kept_rows_fit(array: &AnyArray)
    requires { HasFitting array.now }
    ensures { (mask : List Bool) → RowsFit (selected_of mask array.now) }
{}

/// A dense union of one field, of the null type, holds 2^31 rows at most: its rows fit exactly where they are no more.
pub fn dense_union_holds(count: usize)
    ensures fits { count ≤ 2 ^ 31 → Fits dense_nulls (dense_rows count) }
    ensures passes { 2 ^ 31 < count → Fits dense_nulls (dense_rows count) → ⊥ }
{}

/// So 2^31 rows fit, and one more does not.
pub fn dense_union_edge()
    ensures fits { Fits dense_nulls (dense_rows 2147483648) }
    ensures passes { Fits dense_nulls (dense_rows 2147483649) → ⊥ }
{}
