//! Arrays whose rows are all null, and arrays without rows, of any data type.
#![tactic(auto)]

mod new;

pub use new::{new_empty_array, new_null_array};
