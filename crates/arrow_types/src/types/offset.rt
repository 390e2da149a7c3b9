//! The integers that offsets are made of.

ghost use Rattle.std.specs.Prelude.{◌≡◌, ◌+ℤ◌, ◌-ℤ◌, ◌≤ℤ◌, pos, Bool, true, false};
ghost use Rattle.std.proofs.Common.{rules};
ghost use Rattle.arrow_types.specs.Greatest.{greatest_offset};

use crate::types::Index;

/// An integer that offsets are made of ("Variable-size Binary Layout"): `i32`, and `i64` in the large
/// forms. Of `to_usize` and `from_usize` see [`Index`].
pub trait Offset: Index {
    ghost IS_LARGE: { Bool };

    /// Whether it is that of the large forms.
    const IS_LARGE: bool;

    /// The offset, counted on from `to` where it was counted on from `from`: `to + (self - from)`.
    ///
    /// # Requires
    /// The offset is at least `from`, neither `from` nor `to` is negative, and the answer is at most
    /// the greatest offset of the type.
    fn shifted(self, from: Self, to: Self) -> Self
        requires starts { pos 0 ≤ℤ Self.number from }
        requires rises { Self.number from ≤ℤ Self.number self }
        requires not_negative { pos 0 ≤ℤ Self.number to }
        requires fits { (Self.number to +ℤ (Self.number self -ℤ Self.number from)) ≤ℤ pos Self.greatest }
        ensures { Self.number result ≡ Self.number to +ℤ (Self.number self -ℤ Self.number from) };

    ghost greatest_is: { Self.greatest ≡ greatest_offset IS_LARGE };
}

impl Offset for i32 {
    ghost IS_LARGE = { false };

    const IS_LARGE: bool = false;

    fn shifted(self, from: i32, to: i32) -> i32 {
        to + (self - from)
    }

    ghost greatest_is = { Prim.search rules };
}

impl Offset for i64 {
    ghost IS_LARGE = { true };

    const IS_LARGE: bool = true;

    fn shifted(self, from: i64, to: i64) -> i64 {
        to + (self - from)
    }

    ghost greatest_is = { Prim.search rules };
}
