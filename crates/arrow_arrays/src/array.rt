//! Arrays with children, and arrays of any type.

mod any;
mod any_rows;
mod dictionary;
mod fixed_size_list;
mod list;
mod map;
pub(crate) mod struct_;
pub mod types;
mod union;

pub use any::AnyArray;
pub use any_rows::{AnyOffset, AnyRows};
pub use dictionary::{AnyKeys, DictionaryArray, are_within};
pub use fixed_size_list::FixedSizeListArray;
pub use list::{AnyOffsetsBuffer, ListArray};
pub use map::MapArray;
pub use struct_::StructArray;
pub use union::UnionArray;
