//! Growables of arrays of any type, and, handed on, those of each type.

mod any;
mod bound;
mod children;
mod dictionary;
pub mod fields;
mod finish;
mod grown_spans;
pub mod ids;
mod join;
mod make;
mod nested;
mod spans;
mod typed;
mod union;
mod union_runs;
mod variants;

pub use any::{AnyGrowable, AnyGrowablePrimitive};
pub use arrow_flat_growable::growable::{
    BoundNulls, FlatGrowable, Growable, GrowableBinary, GrowableBits, GrowableBoolean,
    GrowableBytes, GrowableFixedRows, GrowableFixedSizeBinary, GrowableKeys, GrowableKind,
    GrowableNull, GrowableParts, GrowablePrimitive, GrowableUtf8, GrowableValidity, GrowableValues,
};
pub use bound::NestedArray;
pub use dictionary::GrowableDictionary;
pub use join::join_arrays;
pub use make::make_growable;
pub use nested::GrowableNested;
pub use typed::{GrowableFixedSizeList, GrowableList, GrowableMap, GrowableOf, GrowableStruct};
pub use union::GrowableUnion;
