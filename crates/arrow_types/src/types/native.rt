//! The types of fixed width that primitive arrays hold.

ghost use Rattle.std.specs.Prelude.{◌≡◌, ◌↔◌, IsTrue, pos};
ghost use Rattle.std.proofs.Common.{rules};
ghost use Rattle.arrow_types.specs.Carried.{IsCarriedElement};
ghost use Rattle.arrow_types.specs.declared.types.PrimitiveType.{PrimitiveType};
ghost use Rattle.arrow_types.specs.declared.types.PrimitiveType.TheVariants as primitive;
ghost use Rattle.arrow_types.specs.NumberSlots.{equal_ints, equal_nats, equal_triples};
ghost use Rattle.arrow_types.specs.Relation.{related, eq};
ghost use Rattle.arrow_types.specs.Slot.{Slot, Boolean, Number, DayTime, MonthDayNano};

use crate::types::{PrimitiveType, days_ms, i256, months_days_ns};

/// A type of fixed width that a primitive array holds ("Fixed-size Primitive Layout"): a number of 8
/// to 256 bits, or an interval of days or months. `==` is by value, and `default()` is the value
/// whose bits are all zero.
pub trait NativeType: Copy + Eq + Default {
    ghost PRIMITIVE: { PrimitiveType };

    // the row that holds a value
    ghost slot: { Self → Slot };

    // the value whose bits are all zero
    ghost zero: { Self };

    /// The element type of a primitive array that holds this type.
    const PRIMITIVE: PrimitiveType;

    // no float, so each type whose arrays hold this one is carried
    ghost carried: { IsCarriedElement PRIMITIVE };

    // `==` is equality of values
    ghost values: { (x y : Self) → IsTrue (Self.eq x y) ↔ (x ≡ y) };

    // and of the rows that hold them, so none of these is null
    ghost slots: { (x y : Self) → related eq (slot x) (slot y) ≡ Boolean (Self.eq x y) };

    ghost default_is_zero: { (x : Self) → Self.is_default x → x ≡ zero };
}

impl NativeType for i8 {
    ghost PRIMITIVE = { primitive.Int8 };

    ghost slot = { Number };

    ghost zero = { pos 0 };

    const PRIMITIVE: PrimitiveType = PrimitiveType::Int8;

    ghost carried = { tt };

    ghost values = { Prim.search rules };

    ghost slots = { equal_ints };

    ghost default_is_zero = { Prim.search rules };
}

impl NativeType for i16 {
    ghost PRIMITIVE = { primitive.Int16 };

    ghost slot = { Number };

    ghost zero = { pos 0 };

    const PRIMITIVE: PrimitiveType = PrimitiveType::Int16;

    ghost carried = { tt };

    ghost values = { Prim.search rules };

    ghost slots = { equal_ints };

    ghost default_is_zero = { Prim.search rules };
}

impl NativeType for i32 {
    ghost PRIMITIVE = { primitive.Int32 };

    ghost slot = { Number };

    ghost zero = { pos 0 };

    const PRIMITIVE: PrimitiveType = PrimitiveType::Int32;

    ghost carried = { tt };

    ghost values = { Prim.search rules };

    ghost slots = { equal_ints };

    ghost default_is_zero = { Prim.search rules };
}

impl NativeType for i64 {
    ghost PRIMITIVE = { primitive.Int64 };

    ghost slot = { Number };

    ghost zero = { pos 0 };

    const PRIMITIVE: PrimitiveType = PrimitiveType::Int64;

    ghost carried = { tt };

    ghost values = { Prim.search rules };

    ghost slots = { equal_ints };

    ghost default_is_zero = { Prim.search rules };
}

impl NativeType for i128 {
    ghost PRIMITIVE = { primitive.Int128 };

    ghost slot = { Number };

    ghost zero = { pos 0 };

    const PRIMITIVE: PrimitiveType = PrimitiveType::Int128;

    ghost carried = { tt };

    ghost values = { Prim.search rules };

    ghost slots = { equal_ints };

    ghost default_is_zero = { Prim.search rules };
}

impl NativeType for i256 {
    ghost PRIMITIVE = { primitive.Int256 };

    ghost slot = { Number };

    ghost zero = { pos 0 };

    const PRIMITIVE: PrimitiveType = PrimitiveType::Int256;

    ghost carried = { tt };

    ghost values = { Prim.search rules };

    ghost slots = { equal_ints };

    ghost default_is_zero = { Prim.search rules };
}

impl NativeType for u8 {
    ghost PRIMITIVE = { primitive.UInt8 };

    ghost slot = { λ n. Number (pos n) };

    ghost zero = { 0 };

    const PRIMITIVE: PrimitiveType = PrimitiveType::UInt8;

    ghost carried = { tt };

    ghost values = { Prim.search rules };

    ghost slots = { equal_nats };

    ghost default_is_zero = { Prim.search rules };
}

impl NativeType for u16 {
    ghost PRIMITIVE = { primitive.UInt16 };

    ghost slot = { λ n. Number (pos n) };

    ghost zero = { 0 };

    const PRIMITIVE: PrimitiveType = PrimitiveType::UInt16;

    ghost carried = { tt };

    ghost values = { Prim.search rules };

    ghost slots = { equal_nats };

    ghost default_is_zero = { Prim.search rules };
}

impl NativeType for u32 {
    ghost PRIMITIVE = { primitive.UInt32 };

    ghost slot = { λ n. Number (pos n) };

    ghost zero = { 0 };

    const PRIMITIVE: PrimitiveType = PrimitiveType::UInt32;

    ghost carried = { tt };

    ghost values = { Prim.search rules };

    ghost slots = { equal_nats };

    ghost default_is_zero = { Prim.search rules };
}

impl NativeType for u64 {
    ghost PRIMITIVE = { primitive.UInt64 };

    ghost slot = { λ n. Number (pos n) };

    ghost zero = { 0 };

    const PRIMITIVE: PrimitiveType = PrimitiveType::UInt64;

    ghost carried = { tt };

    ghost values = { Prim.search rules };

    ghost slots = { equal_nats };

    ghost default_is_zero = { Prim.search rules };
}

impl NativeType for days_ms {
    ghost PRIMITIVE = { primitive.DaysMs };

    ghost slot = { λ v. DayTime v.0 v.1 };

    ghost zero = { (pos 0, pos 0) };

    const PRIMITIVE: PrimitiveType = PrimitiveType::DaysMs;

    ghost carried = { tt };

    ghost values = { Prim.search rules };

    ghost slots = { Prim.search rules };

    ghost default_is_zero = { Prim.search rules };
}

impl NativeType for months_days_ns {
    ghost PRIMITIVE = { primitive.MonthDayNano };

    ghost slot = { λ v. MonthDayNano v.0 v.1 v.2 };

    ghost zero = { (pos 0, pos 0, pos 0) };

    const PRIMITIVE: PrimitiveType = PrimitiveType::MonthDayNano;

    ghost carried = { tt };

    ghost values = { equal_triples };

    ghost slots = { Prim.search rules };

    ghost default_is_zero = { Prim.search rules };
}
