//! A column with the values of another one in the place of its nulls.

ghost use Rattle.std.specs.Prelude.{◌≡◌, ◌≢◌, Err, IfOk, IfErr};
ghost use Rattle.gevaindy.specs.Errors.ArgumentFault.{ArgumentFault};
ghost use Rattle.gevaindy.specs.Errors.Error.{Error};
ghost use Rattle.gevaindy.specs.Any.{any_array_rows, any_array_type};
ghost use Rattle.gevaindy.specs.ChoiceRefusals.{IsIfThenElseRefusal};
ghost use Rattle.gevaindy.specs.RowByRow.{row_by_row};
ghost use Rattle.uses.specs.Coalesced.{or_else};

use gevaindy::array::AnyArray;
use gevaindy::compute::boolean::is_not_null;
use gevaindy::compute::if_then_else::if_then_else;
use gevaindy::error::Error;
use std::alloc::Global;

/// Each row of the first column that is not null, and in the place of a null the row of the second one, null or
/// not.
///
/// # Errors
/// Those of `if_then_else`: `IfThenElseTypes` where the data types differ.
#[tactic(auto, using(crate::proofs::ChoiceLemmas::chosen_where_null))]
pub fn coalesced(alloc: Global, first: &AnyArray, second: &AnyArray) -> Result<AnyArray, Error>
    ensures types { result ≡ Err (Error.InvalidArgumentError ArgumentFault.IfThenElseTypes)
        → any_array_type first.now ≢ any_array_type second.now }
    ensures array_type { IfOk result (λ all. any_array_type all ≡ any_array_type first.now) }
    ensures rows { IfOk result (λ all. any_array_rows all
        ≡ row_by_row or_else (any_array_rows first.now) (any_array_rows second.now)) }
    ensures others { IfErr result IsIfThenElseRefusal }
{
    let are_there = is_not_null(alloc, first)?;
    if_then_else(alloc, &are_there, first, second)
}
