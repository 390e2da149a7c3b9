//! Bytes under construction.

ghost use Rattle.std.specs.Prelude.{true, false, refl};

use crate::growable::byte_rows::GrowableKind;
use crate::growable::flat::FlatGrowable;
use crate::growable::waiting::GrowableBytes;
use arrow_flat::array::Binary;

/// An array of bytes under construction, under offsets of 32 or of 64 bits.
pub type GrowableBinary<'a, O> = FlatGrowable<'a, GrowableBytes<O, Binary>>;

impl GrowableKind for Binary {
    ghost allows_empty = { tt };

    ghost counts = { λ bytes. refl };

    ghost lies_as_bytes = { elim [ true ↦ tt | false ↦ tt ] };
}
