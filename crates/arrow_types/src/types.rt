//! The elements of arrays: native types, and the integers that name rows.

mod dictionary_key;
mod index;
mod intervals;
mod native;
mod offset;
mod order;
mod wide;

pub use dictionary_key::DictionaryKey;
pub use index::Index;
pub use intervals::{days_ms, months_days_ns};
pub use native::NativeType;
pub use offset::Offset;
pub use order::NativeOrd;
pub use wide::i256;

/// The element of a primitive array. No array has a float's.
#[derive(Clone, Copy, Debug, PartialEq, Eq, Hash)]
pub enum PrimitiveType {
    Int8,
    Int16,
    Int32,
    Int64,
    Int128,
    Int256,
    UInt8,
    UInt16,
    UInt32,
    UInt64,
    Float16,
    Float32,
    Float64,
    DaysMs,
    MonthDayNano,
}
