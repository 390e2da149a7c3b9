//! Rows of two arrays as a predicate chooses, for every carried type.
#![tactic(auto)]

pub mod if_then_else;
pub mod keys;
pub mod types;
