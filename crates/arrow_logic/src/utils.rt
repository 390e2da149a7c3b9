//! What kernels of two arrays share.

ghost use Rattle.std.specs.Prelude.{◌≡◌, ◌≢◌, ◌↔◌, Err, length, IfErr};
ghost use Rattle.arrow_types.specs.declared.error.ArgumentFault.{ArgumentFault};
ghost use Rattle.arrow_types.specs.declared.error.Error.{Error};
ghost use Rattle.arrow_arrays.specs.Any.{any_array_rows};

use arrow_arrays::array::AnyArray;
pub use arrow_flat::array::validity::combine_validities;
use arrow_types::error::{ArgumentFault, Error};

/// Refuses two arrays whose lengths differ.
///
/// # Errors
/// `Lengths` exactly then.
///
/// Source: arrow2's `check_same_len`.
pub fn check_same_len(lhs: &AnyArray, rhs: &AnyArray) -> Result<(), Error>
    ensures lengths { (result ≡ Err (Error.InvalidArgumentError ArgumentFault.Lengths))
        ↔ (length (any_array_rows lhs.now) ≢ length (any_array_rows rhs.now)) }
    ensures others { IfErr result (λ error. error ≡ Error.InvalidArgumentError ArgumentFault.Lengths) }
{
    if lhs.len() == rhs.len() {
        Ok(())
    } else {
        Err(Error::InvalidArgumentError(ArgumentFault::Lengths))
    }
}
