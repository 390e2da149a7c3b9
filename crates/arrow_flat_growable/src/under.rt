//! Flat arrays under a validity besides their own.

ghost use Rattle.std.specs.Prelude.{◌≡◌, length, option_copied, IfOk, IsOkUnless};
ghost use Rattle.arrow_types.specs.declared.error.Error.{Error};
ghost use Rattle.arrow_types.specs.Rows.{masked};
ghost use Rattle.arrow_flat.specs.Parts.{FitsRows, rows_by};
ghost use Rattle.arrow_flat_growable.specs.Validity.{valid_in_both};

use arrow_flat::array::{FlatArray, Values};
use arrow_memory::bitmap::Bitmap;
use arrow_types::error::Error;
use std::alloc::Global;

/// The same array, null also where a bit of the validity is not set.
///
/// # Requires
/// A validity has a bit for each row.
///
/// # Errors
/// `OutOfMemory` where memory is refused.
pub fn under<V: Values>(
    alloc: Global,
    array: &FlatArray<V>,
    validity: Option<&Bitmap>,
) -> Result<FlatArray<V>, Error>
    requires { FitsRows (option_copied validity) (length (rows_by V.slots array.now)) }
    ensures array_type { IfOk result (λ made. made.arrow_type ≡ array.now.arrow_type) }
    ensures rows { IfOk result (λ made. rows_by V.slots made
        ≡ masked (option_copied validity.entry) (rows_by V.slots array.now)) }
    ensures count { IfOk result (λ made. length (rows_by V.slots made) ≡ length (rows_by V.slots array.now)) }
    ensures err { IsOkUnless result Error.OutOfMemory }
{
    // There is a row for each of the values.
    let _ = array.len();
    match validity {
        None => Ok(array.clone()?),
        Some(bits) => {
            let both = both_valid(alloc, array.validity(), bits)?;
            Ok(array.clone()?.with_validity(Some(both)))
        }
    }
}

// The bits that are set, as far as a validity is set too.
fn both_valid(alloc: Global, own: Option<&Bitmap>, bits: &Bitmap) -> Result<Bitmap, Error>
    requires { FitsRows (option_copied own) (length bits.now) }
    ensures ok { IfOk result (λ both. both ≡ valid_in_both (option_copied own.entry) bits.now) }
    ensures err { IsOkUnless result Error.OutOfMemory }
{
    match own {
        None => Ok(bits.clone()?),
        Some(own) => own.and(alloc, bits),
    }
}
