//! Texts under construction.

ghost use Rattle.std.specs.Prelude.{[], true, false, refl};

use crate::growable::byte_rows::GrowableKind;
use crate::growable::flat::FlatGrowable;
use crate::growable::waiting::GrowableBytes;
use arrow_flat::array::Text;

/// An array of texts under construction, under offsets of 32 or of 64 bits.
pub type GrowableUtf8<'a, O> = FlatGrowable<'a, GrowableBytes<O, Text>>;

impl GrowableKind for Text {
    ghost allows_empty = { ([], (refl, refl)) };

    ghost counts = { λ bytes. refl };

    ghost lies_as_bytes = { elim [ true ↦ tt | false ↦ tt ] };
}
