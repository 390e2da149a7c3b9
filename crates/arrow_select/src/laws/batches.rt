//! Laws over batches: what an engine that cuts a table into batches may do with each by itself.
#![tactic(auto, using(crate::proofs::BatchLemmas::laws))]

ghost use Rattle.std.specs.Prelude.{◌++◌, length, unsigned_abs};
ghost use Rattle.arrow_types.specs.TypeOf.{type_of};
ghost use Rattle.arrow_arrays.specs.Any.{any_array_rows};
ghost use Rattle.arrow_select.specs.Arrays.{rows_in};
ghost use Rattle.arrow_select.specs.Batches.{AreAtLeast, AreIndicesByBatch, AreRangesOf, ChoosesByBatch, GathersByBatch, GathersByParts, HavePairPredicates, HavePredicates, KeepsByBatch, ShiftsByEdge, indices_in, met_behind, predicates_in};
ghost use Rattle.arrow_select.specs.Ranges.{IsRangesOf};

use crate::filter::Filter;
use arrow_arrays::array::AnyArray;
use arrow_flat::array::{BooleanArray, PrimitiveArray};
use arrow_types::datatypes::DataType;
use arrow_types::types::Index;

/// What `filter` keeps of batches that are concatenated, by predicates that are, is what it keeps of each, concatenated.
///
/// # Requires
/// There is a predicate for each batch, and it has as many rows.
pub fn filter_goes_by_batches(filters: &[&BooleanArray], batches: &[&AnyArray])
    requires { HavePredicates batches.now filters.now }
    ensures { KeepsByBatch (predicates_in filters.now) (rows_in batches.now) }
{}

/// The shortest ranges of two masks, one behind the other, are those of both, moved by the rows before them, with two that
/// touch made one: so the ranges of a prepared filter can be found batch by batch.
///
/// # Requires
/// The ranges are those of the filters, as `Filter::ranges` answers them.
pub fn ranges_go_by_batches(
    first: &Filter,
    first_ranges: &[(usize, usize)],
    second: &Filter,
    second_ranges: &[(usize, usize)],
)
    requires { AreRangesOf first_ranges.now first.now second_ranges.now second.now }
    ensures { IsRangesOf (met_behind first_ranges.now (length first.now) second_ranges.now)
        (first.now ++ second.now) }
{}

/// What `take` answers by indices that are concatenated is what it answers by each batch of them, concatenated.
pub fn take_goes_by_batches<I: Index>(
    array: &AnyArray,
    indices: &[&PrimitiveArray<I>],
    data_type: &DataType,
)
    ensures { GathersByBatch (any_array_rows array.now) (indices_in I.slot indices.now)
        (type_of data_type.now) }
{}

/// What `take` answers of batches that are concatenated, by indices of each batch that are moved by the rows before it, is
/// what it answers of each batch by its own indices, concatenated.
///
/// # Requires
/// There are indices for each batch, and each that is not null names a row of it.
pub fn take_goes_by_parts<I: Index>(
    batches: &[&AnyArray],
    indices: &[&PrimitiveArray<I>],
    data_type: &DataType,
)
    requires { AreIndicesByBatch (rows_in batches.now) (indices_in I.slot indices.now) }
    ensures { GathersByParts (rows_in batches.now) (indices_in I.slot indices.now) (type_of data_type.now) }
{}

/// What `if_then_else` chooses of batches that are concatenated, by predicates that are, is what it chooses of each pair,
/// concatenated.
///
/// # Requires
/// There are as many predicates as batches on each side, each as long as its batches.
pub fn choice_goes_by_batches(
    predicates: &[&BooleanArray],
    lhs: &[&AnyArray],
    rhs: &[&AnyArray],
    data_type: &DataType,
)
    requires { HavePairPredicates lhs.now rhs.now predicates.now }
    ensures { ChoosesByBatch (predicates_in predicates.now) (rows_in lhs.now) (rows_in rhs.now)
        (type_of data_type.now) }
{}

/// Two batches that are shifted as one need no more of each other than the rows at the edge between them: as many as the
/// offset says.
///
/// # Requires
/// Each batch has as many rows as the offset moves by.
pub fn shift_goes_by_edge(first: &AnyArray, second: &AnyArray, offset: i64, data_type: &DataType)
    requires { AreAtLeast (unsigned_abs offset) first.now second.now }
    ensures { ShiftsByEdge (any_array_rows first.now) (any_array_rows second.now) offset
        (type_of data_type.now) }
{}
