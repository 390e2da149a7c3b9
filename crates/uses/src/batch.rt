//! Rows of a batch: by a condition on one column, and by their places.

ghost use Rattle.std.specs.Prelude.{◌≡◌, ◌↔◌, map, IfOk};
ghost use Rattle.gevaindy.specs.Errors.ArgumentFault.{ArgumentFault};
ghost use Rattle.gevaindy.specs.Layout.{rows};
ghost use Rattle.gevaindy.specs.KeyedParts.{AreKeys};
ghost use Rattle.gevaindy.specs.StructParts.{row_count};
ghost use Rattle.gevaindy.specs.Typed.{uint_rows};
ghost use Rattle.uses.specs.Refused.{Refuses};
ghost use Rattle.uses.specs.Batch.{HasTypesOf, above, column_rows, rows_named, rows_where};

use gevaindy::array::{AnyArray, AnyPrimitive, PrimitiveArray, are_within};
use gevaindy::chunk::Chunk;
use gevaindy::compute::comparison::primitive;
use gevaindy::compute::filter::filter_chunk;
use gevaindy::compute::take::take;
use gevaindy::error::{ArgumentFault, Error};
use std::alloc::Global;

/// The rows of a batch, of each column, whose number in one column is above a bound. A null is not.
///
/// # Errors
/// `Caller(0)` where there is no such column, or it is none of 64-bit integers; then those of `filter_chunk`.
pub fn rows_above(alloc: Global, batch: &Chunk, column: usize, bound: i64) -> Result<Chunk, Error>
    ensures types { IfOk result (λ kept. HasTypesOf kept batch.now) }
    ensures rows { IfOk result (λ kept. map rows kept
        ≡ rows_where (above bound (column_rows batch.now column)) batch.now) }
{
    let Some(AnyArray::Primitive(AnyPrimitive::Int64(numbers))) = batch.arrays().get(column) else {
        return Err(Error::InvalidArgumentError(ArgumentFault::Caller(0)));
    };
    let are_above = primitive::gt_scalar(alloc, numbers, bound)?;
    filter_chunk(alloc, batch, &are_above)
}

/// The rows of a batch, of each column, that a list of places names, in its order: as the top rows by a sort of
/// their places. A null place gives a null slot.
///
/// # Errors
/// `Lengths` exactly where a place is not that of a row; then those of `take`.
pub fn rows_at(alloc: Global, batch: &Chunk, places: &PrimitiveArray<u32>) -> Result<Chunk, Error>
    ensures types { IfOk result (λ top. HasTypesOf top batch.now) }
    ensures rows { IfOk result (λ top. map rows top ≡ rows_named (uint_rows places.now) batch.now) }
    ensures places { Refuses result ArgumentFault.Lengths
        ↔ (AreKeys (row_count batch.now) (uint_rows places.now) → ⊥) }
{
    if !are_within(places, batch.len()) {
        return Err(Error::InvalidArgumentError(ArgumentFault::Lengths));
    }
    let columns = batch.arrays();
    let mut taken = Vec::with_capacity(alloc, columns.len())?;
    for column in columns {
        taken.push(take(alloc, column, places)?)?;
    }
    Ok(Chunk::new(taken))
}
