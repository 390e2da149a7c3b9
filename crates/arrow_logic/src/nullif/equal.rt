//! Which values are equal, a bit each.

ghost use Rattle.std.specs.Prelude.{◌≡◌, length, map, IfOk, IsOkUnless};
ghost use Rattle.arrow_types.specs.declared.error.Error.{Error};
ghost use Rattle.arrow_flat.specs.RowByRow.{row_by_row};

use arrow_memory::bitmap::Bitmap;
use arrow_types::error::Error;
use arrow_types::types::NativeType;
use std::alloc::Global;

// Whether each value equals the other one at its place.
pub(super) fn equal_values<T: NativeType>(
    alloc: Global,
    left: &[T],
    right: &[T],
) -> Result<Bitmap, Error>
    requires { length left.now ≡ length right.now }
    ensures ok { IfOk result (λ bits. bits ≡ row_by_row T.eq left.now right.now) }
    ensures count { IfOk result (λ bits. length bits ≡ length left.now) }
    ensures err { IsOkUnless result Error.OutOfMemory }
{
    Bitmap::collect_bool(alloc, left.len(), |row| left[row] == right[row])
}

// Whether each value equals another one.
pub(super) fn equal_to_value<T: NativeType>(
    alloc: Global,
    values: &[T],
    other: T,
) -> Result<Bitmap, Error>
    ensures ok { IfOk result (λ bits. bits ≡ map (λ x. T.eq x other) values.now) }
    ensures count { IfOk result (λ bits. length bits ≡ length values.now) }
    ensures err { IsOkUnless result Error.OutOfMemory }
{
    Bitmap::collect_bool(alloc, values.len(), |row| values[row] == other)
}
