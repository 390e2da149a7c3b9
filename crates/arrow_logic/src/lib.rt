//! Kernels that answer row by row: two logics, which rows are null, lengths and parts of texts, and what a closure
//! answers. A contract says the type and the rows of what a kernel answers as an expression of the rows of its arguments,
//! and when it refuses.
#![tactic(auto)]

pub mod arity;
pub mod boolean;
pub mod boolean_kleene;
mod connective;
pub mod laws;
pub mod length;
pub mod nullif;
pub mod substring;
pub mod utils;
