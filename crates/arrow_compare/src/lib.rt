//! Comparisons of arrays of any type, with arrays and with scalars: a contract says the type and the rows of what a kernel
//! answers as an expression of the rows of its arguments, whatever lies beneath nulls.
#![tactic(auto)]

pub mod comparison;
mod kinds;
pub mod laws;
