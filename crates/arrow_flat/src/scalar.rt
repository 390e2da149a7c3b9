//! Scalars: one row, outside an array.

mod binary;
mod boolean;
mod bytes;
mod dictionary;
mod primitive;
mod utf8;

pub use binary::BinaryScalar;
pub use boolean::BooleanScalar;
pub use bytes::ByteScalar;
pub use dictionary::{AnyScalar, DictionaryScalar};
pub use primitive::{AnyPrimitiveScalar, PrimitiveScalar};
pub use utf8::Utf8Scalar;
