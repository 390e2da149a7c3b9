//! Kernels that select rows: arrays in, an array out. A contract says the type and the rows of what a
//! kernel answers as an expression of the rows of its arguments, and when it refuses.
#![tactic(auto)]

pub mod concatenate;
pub mod filter;
pub mod laws;
pub mod window;

pub use arrow_choice::if_then_else;
pub use arrow_take::take;
