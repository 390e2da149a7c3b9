//! Flat arrays and scalars. A contract sees an array as its data type, what is stored, and which rows
//! are valid; its rows follow from these.
#![tactic(auto)]

pub mod array;
pub mod scalar;
