//! The integers that name rows of an array.

ghost use Rattle.std.specs.Prelude.{◌≡◌, ◌↔◌, ℕ, ◌≤◌, ◌-◌, ◌^◌, pos, ◌≤ℤ◌, ◌<ℤ◌, IsTrue, IsSome, IfSome};
ghost use Rattle.std.proofs.Common.{rules};

use crate::types::NativeOrd;

/// An integer of 8 to 64 bits that names a row of an array, counted from 0.
pub trait Index: NativeOrd {
    // the greatest number of the type
    ghost greatest: { ℕ };

    /// The number.
    ///
    /// # Requires
    /// The number is not negative.
    fn to_usize(self) -> usize
        requires { pos 0 ≤ℤ Self.number self }
        ensures value { pos result ≡ Self.number self }
        ensures at_most_greatest { result ≤ greatest };

    /// The value of a number, or `None` exactly where it passes the greatest of the type.
    fn from_usize(index: usize) -> Option<Self>
        ensures fits { IsSome result ↔ (index ≤ greatest) }
        ensures value { IfSome result (λ x. Self.number x ≡ pos index) };

    /// Whether it names a row of so many: it is not negative and less than `len`.
    fn in_range(self, len: usize) -> bool
        ensures { IsTrue result ↔ ((pos 0 ≤ℤ Self.number self) × (Self.number self <ℤ pos len)) };

    // a number is that of one value
    ghost one_value: { (x y : Self) → Self.number x ≡ Self.number y → x ≡ y };
}

impl Index for i8 {
    ghost greatest = { 2 ^ 7 - 1 };

    fn to_usize(self) -> usize {
        self as usize
    }

    fn from_usize(index: usize) -> Option<i8> {
        i8::try_from(index).ok()
    }

    fn in_range(self, len: usize) -> bool {
        self >= 0 && (self as usize) < len
    }

    ghost one_value = { Prim.search rules };
}

impl Index for i16 {
    ghost greatest = { 2 ^ 15 - 1 };

    fn to_usize(self) -> usize {
        self as usize
    }

    fn from_usize(index: usize) -> Option<i16> {
        i16::try_from(index).ok()
    }

    fn in_range(self, len: usize) -> bool {
        self >= 0 && (self as usize) < len
    }

    ghost one_value = { Prim.search rules };
}

impl Index for i32 {
    ghost greatest = { 2 ^ 31 - 1 };

    fn to_usize(self) -> usize {
        self as usize
    }

    fn from_usize(index: usize) -> Option<i32> {
        i32::try_from(index).ok()
    }

    fn in_range(self, len: usize) -> bool {
        self >= 0 && (self as usize) < len
    }

    ghost one_value = { Prim.search rules };
}

impl Index for i64 {
    ghost greatest = { 2 ^ 63 - 1 };

    fn to_usize(self) -> usize {
        self as usize
    }

    fn from_usize(index: usize) -> Option<i64> {
        i64::try_from(index).ok()
    }

    fn in_range(self, len: usize) -> bool {
        self >= 0 && (self as usize) < len
    }

    ghost one_value = { Prim.search rules };
}

impl Index for u8 {
    ghost greatest = { 2 ^ 8 - 1 };

    fn to_usize(self) -> usize {
        self as usize
    }

    fn from_usize(index: usize) -> Option<u8> {
        u8::try_from(index).ok()
    }

    fn in_range(self, len: usize) -> bool {
        (self as usize) < len
    }

    ghost one_value = { Prim.search rules };
}

impl Index for u16 {
    ghost greatest = { 2 ^ 16 - 1 };

    fn to_usize(self) -> usize {
        self as usize
    }

    fn from_usize(index: usize) -> Option<u16> {
        u16::try_from(index).ok()
    }

    fn in_range(self, len: usize) -> bool {
        (self as usize) < len
    }

    ghost one_value = { Prim.search rules };
}

impl Index for u32 {
    ghost greatest = { 2 ^ 32 - 1 };

    fn to_usize(self) -> usize {
        self as usize
    }

    fn from_usize(index: usize) -> Option<u32> {
        u32::try_from(index).ok()
    }

    fn in_range(self, len: usize) -> bool {
        (self as usize) < len
    }

    ghost one_value = { Prim.search rules };
}

impl Index for u64 {
    ghost greatest = { 2 ^ 64 - 1 };

    fn to_usize(self) -> usize {
        self as usize
    }

    fn from_usize(index: usize) -> Option<u64> {
        u64::try_from(index).ok()
    }

    fn in_range(self, len: usize) -> bool {
        (self as usize) < len
    }

    ghost one_value = { Prim.search rules };
}
