//! Validities that may be absent.

ghost use Rattle.std.specs.Prelude.{◌≡◌, ◌<◌, length, option_copied, IfSome};
ghost use Rattle.arrow_types.specs.Rows.{valid_at};

use arrow_memory::bitmap::Bitmap;

// Whether row `row` is valid.
pub(crate) fn is_valid(validity: Option<&Bitmap>, row: usize) -> bool
    requires { IfSome (option_copied validity) (λ bits. row < length bits) }
    ensures { result ≡ valid_at (option_copied validity.entry) row }
{
    match validity {
        None => true,
        Some(bits) => bits.get_bit(row),
    }
}
