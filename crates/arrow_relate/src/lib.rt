//! Relations of the rows of arrays without children: a contract says the rows of what a kernel answers as an expression of
//! the rows of its arguments, whatever lies beneath nulls.
#![tactic(auto)]

pub mod comparison;
mod fixed;
pub mod relation;
mod stored;
