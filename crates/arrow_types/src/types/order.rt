//! The numbers among the native types, in their order.

ghost use Rattle.std.specs.Prelude.{◌≡◌, ◌↔◌, ℤ, pos, IsTrue};
ghost use Rattle.std.proofs.Common.{rules};
ghost use Rattle.std.specs.Ordering.{int_cmp};
ghost use Rattle.arrow_types.specs.Slot.{Number};

use crate::types::{NativeType, i256};

/// A number that a primitive array holds. `cmp`, `<` and the like are by value, and two numbers
/// compare as equal where `==` holds of them.
pub trait NativeOrd: NativeType + Ord {
    // the value as a whole number
    ghost number: { Self → ℤ };

    ghost slot_is_number: { (x : Self) → Self.slot x ≡ Number (number x) };

    ghost zero_is_zero: { number Self.zero ≡ pos 0 };

    // equal where the numbers are,
    ghost eq_by_number: { (x y : Self) → IsTrue (Self.eq x y) ↔ (number x ≡ number y) };

    // and in their order
    ghost cmp_by_number: { (x y : Self) → Self.cmp x y ≡ int_cmp (number x) (number y) };
}

impl NativeOrd for i8 {
    ghost number = { λ n. n };

    ghost slot_is_number = { Prim.search rules };

    ghost zero_is_zero = { Prim.search rules };

    ghost eq_by_number = { Prim.search rules };

    ghost cmp_by_number = { Prim.search rules };
}

impl NativeOrd for i16 {
    ghost number = { λ n. n };

    ghost slot_is_number = { Prim.search rules };

    ghost zero_is_zero = { Prim.search rules };

    ghost eq_by_number = { Prim.search rules };

    ghost cmp_by_number = { Prim.search rules };
}

impl NativeOrd for i32 {
    ghost number = { λ n. n };

    ghost slot_is_number = { Prim.search rules };

    ghost zero_is_zero = { Prim.search rules };

    ghost eq_by_number = { Prim.search rules };

    ghost cmp_by_number = { Prim.search rules };
}

impl NativeOrd for i64 {
    ghost number = { λ n. n };

    ghost slot_is_number = { Prim.search rules };

    ghost zero_is_zero = { Prim.search rules };

    ghost eq_by_number = { Prim.search rules };

    ghost cmp_by_number = { Prim.search rules };
}

impl NativeOrd for i128 {
    ghost number = { λ n. n };

    ghost slot_is_number = { Prim.search rules };

    ghost zero_is_zero = { Prim.search rules };

    ghost eq_by_number = { Prim.search rules };

    ghost cmp_by_number = { Prim.search rules };
}

impl NativeOrd for i256 {
    ghost number = { λ n. n };

    ghost slot_is_number = { Prim.search rules };

    ghost zero_is_zero = { Prim.search rules };

    ghost eq_by_number = { Prim.search rules };

    ghost cmp_by_number = { Prim.search rules };
}

impl NativeOrd for u8 {
    ghost number = { pos };

    ghost slot_is_number = { Prim.search rules };

    ghost zero_is_zero = { Prim.search rules };

    ghost eq_by_number = { Prim.search rules };

    ghost cmp_by_number = { Prim.search rules };
}

impl NativeOrd for u16 {
    ghost number = { pos };

    ghost slot_is_number = { Prim.search rules };

    ghost zero_is_zero = { Prim.search rules };

    ghost eq_by_number = { Prim.search rules };

    ghost cmp_by_number = { Prim.search rules };
}

impl NativeOrd for u32 {
    ghost number = { pos };

    ghost slot_is_number = { Prim.search rules };

    ghost zero_is_zero = { Prim.search rules };

    ghost eq_by_number = { Prim.search rules };

    ghost cmp_by_number = { Prim.search rules };
}

impl NativeOrd for u64 {
    ghost number = { pos };

    ghost slot_is_number = { Prim.search rules };

    ghost zero_is_zero = { Prim.search rules };

    ghost eq_by_number = { Prim.search rules };

    ghost cmp_by_number = { Prim.search rules };
}
