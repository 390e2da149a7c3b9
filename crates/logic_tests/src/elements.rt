//! Native types, and the integers that name rows.

ghost use Rattle.std.specs.Prelude.{◌≡◌, ◌<◌, ◌↔◌, ◌≤ℤ◌, IsTrue};
ghost use Rattle.arrow_types.specs.Relation.{related, eq};
ghost use Rattle.arrow_types.specs.Slot.{Boolean};

use crate::check::check_case;
use arrow_types::datatypes::IntegerType;
use arrow_types::laws::{
    equal_is_same, index_of_number, key_of_number, number_of_index, offset_of_number, order_agrees,
    order_chains, order_is_total, order_turns,
};
use arrow_types::types::{
    DictionaryKey, Index, NativeOrd, NativeType, Offset, PrimitiveType, days_ms, i256,
    months_days_ns,
};
use std::cmp::Ordering;

// Generic functions, each proved from the laws of its bound alone and with no proof file.

fn is_zero<T: NativeType>(value: T) -> bool
    ensures { IsTrue result ↔ (value ≡ T.zero) }
{
    value == T::default()
}

fn are_equal_rows<T: NativeType>(a: T, b: T) -> bool
    ensures { related eq (T.slot a) (T.slot b) ≡ Boolean result }
{
    a == b
}

fn larger<T: NativeOrd>(a: T, b: T) -> T
    ensures first { T.number a ≤ℤ T.number result }
    ensures second { T.number b ≤ℤ T.number result }
{
    if a < b { b } else { a }
}

/// The halves of numbers of 256 bits that rise.
const HIGH: [i128; 9] = [-1, -1, -1, 0, 0, 0, 1, 1, 1];

const LOW: [u128; 9] = [0, 1, u128::MAX, 0, 1, u128::MAX, 0, 1, u128::MAX];

// Whether two numbers are in this order, each way that it is asked for.
fn are_in_order(a: i256, b: i256, order: Ordering) -> bool {
    let orders = [a.cmp(&b), order_agrees(a, b), order_turns(b, a)];
    let are_equal = [a == b, equal_is_same(a, b)];
    let are_at_most = [order_is_total(a, b), order_chains(a, a, b)];
    (orders == [order; 3])
        & (a.partial_cmp(&b) == Some(order))
        & (are_equal == [order.is_eq(); 2])
        & (are_at_most == [order.is_le(); 2])
}

#[test]
fn wide_numbers_in_order(rt: HostRuntime) {
    for i in 0..9usize {
        let number = i256::new(HIGH[i], LOW[i]);
        let is_of_halves = (number.high() == HIGH[i]) & (number.low() == LOW[i]);
        for j in 0..9usize {
            let are_right = are_in_order(number, i256::new(HIGH[j], LOW[j]), i.cmp(&j));
            check_case(&rt, is_of_halves & are_right, (i, j));
        }
    }
    let (below, zero) = (i256::new(-1, u128::MAX), i256::new(0, 0));
    let is_zero = i256::default() == zero;
    check_case(&rt, is_zero & (larger(below, zero) == zero), "zero");
}

/// The parts of intervals of days, of which the first is zero.
const DAYS: [i32; 4] = [0, -3, -3, 3];

const MILLISECONDS: [i32; 4] = [0, 2_000, 2_001, 2_000];

/// The parts of intervals of months, of which the first is zero.
const MONTHS: [i32; 5] = [0, 1, 1, 1, 0];

const MONTHS_DAYS: [i32; 5] = [0, -2, -2, 2, -2];

const NANOSECONDS: [i64; 5] = [0, i64::MIN, 0, i64::MIN, i64::MIN];

// The interval of months at a place.
fn interval(i: usize) -> months_days_ns
    requires { i < 5 }
{
    months_days_ns::new(MONTHS[i], MONTHS_DAYS[i], NANOSECONDS[i])
}

#[test]
fn intervals(rt: HostRuntime) {
    for i in 0..4usize {
        let left = days_ms::new(DAYS[i], MILLISECONDS[i]);
        let is_of_parts = (left.days() == DAYS[i]) & (left.milliseconds() == MILLISECONDS[i]);
        let is_right = is_of_parts & (is_zero(left) == (i == 0));
        for j in 0..4usize {
            let is_equal = left == days_ms::new(DAYS[j], MILLISECONDS[j]);
            check_case(&rt, is_right & (is_equal == (i == j)), (i, j));
        }
    }
    for i in 0..5usize {
        let left = interval(i);
        let (months, days, ns) = (left.months(), left.days(), left.ns());
        let is_of_parts = (months == MONTHS[i]) & (days == MONTHS_DAYS[i]) & (ns == NANOSECONDS[i]);
        let is_right = is_of_parts & (is_zero(left) == (i == 0));
        for j in 0..5usize {
            let is_equal = are_equal_rows(left, interval(j));
            check_case(&rt, is_right & (is_equal == (i == j)), (i, j));
        }
    }
}

// Whether an index type has this greatest number, and none above it, and names rows of none, of one and of all.
fn has_greatest<I: Index + DictionaryKey>(greatest: usize) -> bool {
    let Some(last) = I::from_usize(greatest) else {
        return false;
    };
    let (zero, above) = (I::default(), greatest.saturating_add(1));
    let is_last = (above == greatest) | (I::from_usize(above).is_none() & last.in_range(above));
    let numbers = [key_of_number::<I>(greatest), index_of_number::<I>(greatest)];
    (I::from_usize(0) == Some(zero))
        & (numbers == [Some(greatest); 2])
        & (zero.in_range(1) & !zero.in_range(0))
        & (!last.in_range(greatest) & is_last)
}

#[test]
fn indices(rt: HostRuntime) {
    let are_signed = has_greatest::<i8>(127)
        & has_greatest::<i16>(32_767)
        & has_greatest::<i32>(2_147_483_647)
        & has_greatest::<i64>(9_223_372_036_854_775_807);
    let are_natural = has_greatest::<u8>(255)
        & has_greatest::<u16>(65_535)
        & has_greatest::<u32>(4_294_967_295)
        & has_greatest::<u64>(18_446_744_073_709_551_615);
    check_case(&rt, are_signed & are_natural, "greatest numbers");
    let are_within = (-1i8).in_range(1)
        | i16::MIN.in_range(1)
        | i32::MIN.in_range(usize::MAX)
        | (-1i32).in_range(usize::MAX)
        | (-1i64).in_range(usize::MAX);
    check_case(&rt, !are_within, "numbers below 0");
    check_case(&rt, number_of_index(7u16) == Some(7), "an index");
    let found = [
        offset_of_number::<i32>(2_147_483_647),
        offset_of_number::<i32>(2_147_483_648),
        offset_of_number::<i64>(9_223_372_036_854_775_807),
        offset_of_number::<i64>(9_223_372_036_854_775_808),
    ];
    check_case(
        &rt,
        found
            == [
                Some(2_147_483_647),
                None,
                Some(9_223_372_036_854_775_807),
                None,
            ],
        "offsets",
    );
    let last = 9_223_372_036_854_775_806i64.shifted(1, 2);
    let are_shifted = (13i32.shifted(10, 4) == 7) & (last == 9_223_372_036_854_775_807);
    check_case(
        &rt,
        are_shifted & i64::IS_LARGE & !i32::IS_LARGE,
        "offsets that move",
    );
}

#[test]
fn element_types(rt: HostRuntime) {
    let found = [
        i8::PRIMITIVE,
        i16::PRIMITIVE,
        i32::PRIMITIVE,
        i64::PRIMITIVE,
        u8::PRIMITIVE,
        u16::PRIMITIVE,
        u32::PRIMITIVE,
        u64::PRIMITIVE,
        i128::PRIMITIVE,
        i256::PRIMITIVE,
        days_ms::PRIMITIVE,
        months_days_ns::PRIMITIVE,
    ];
    let wanted = [
        PrimitiveType::Int8,
        PrimitiveType::Int16,
        PrimitiveType::Int32,
        PrimitiveType::Int64,
        PrimitiveType::UInt8,
        PrimitiveType::UInt16,
        PrimitiveType::UInt32,
        PrimitiveType::UInt64,
        PrimitiveType::Int128,
        PrimitiveType::Int256,
        PrimitiveType::DaysMs,
        PrimitiveType::MonthDayNano,
    ];
    let keys = [i8::KEY_TYPE, u64::KEY_TYPE];
    let are_right = (found == wanted) & (keys == [IntegerType::Int8, IntegerType::UInt64]);
    let are_equal = are_equal_rows(7u8, 7) & !are_equal_rows(i128::MIN, i128::MAX);
    check_case(&rt, are_right & are_equal, "element types");
}
