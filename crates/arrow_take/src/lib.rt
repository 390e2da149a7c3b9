//! Rows of arrays by index, for every carried type.
#![tactic(auto)]

pub mod spans;
pub mod take;
mod validity;
