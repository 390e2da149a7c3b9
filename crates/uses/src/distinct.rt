//! Whether the rows of a sorted column are distinct.

ghost use Rattle.std.specs.Prelude.{◌↔◌, IfOk, IsTrue};
ghost use Rattle.gevaindy.specs.Errors.ArgumentFault.{ArgumentFault};
ghost use Rattle.gevaindy.specs.Any.{any_array_rows, any_array_type};
ghost use Rattle.gevaindy.specs.Can.{CanEqual};
ghost use Rattle.uses.specs.Order.{AreApart};
ghost use Rattle.uses.specs.Refused.{Refuses};

use gevaindy::array::AnyArray;
use gevaindy::compute::boolean::any;
use gevaindy::compute::comparison::{can_eq, eq};
use gevaindy::compute::window::shift;
use gevaindy::error::{ArgumentFault, Error};
use gevaindy::laws::comparison::can_eq_has_equality;
use std::alloc::Global;

/// Whether no row equals the one before it. A null equals no row.
///
/// # Errors
/// `Caller(0)` exactly where rows of the type have no equality (`can_eq`); then those of `shift` and `eq`.
pub fn is_distinct(alloc: Global, column: &AnyArray) -> Result<bool, Error>
    ensures answer { IfOk result (λ distinct. IsTrue distinct ↔ AreApart (any_array_rows column.now)) }
    ensures types { Refuses result (ArgumentFault.Caller 0)
        ↔ (CanEqual (any_array_type column.now) → ⊥) }
{
    if !can_eq(column.data_type()) {
        return Err(Error::InvalidArgumentError(ArgumentFault::Caller(0)));
    }
    if column.is_empty() {
        return Ok(true);
    }
    can_eq_has_equality(column.data_type());
    let before = shift(alloc, column, 1)?;
    let are_equal = eq(alloc, column, &before)?;
    Ok(!any(&are_equal))
}
