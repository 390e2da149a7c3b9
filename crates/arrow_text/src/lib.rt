//! Arrays of every carried type as text, both ways.
#![tactic(auto)]

pub mod bits;
pub mod call;
pub mod fault;
mod flat;
pub mod given;
pub mod number;
pub mod parts;
pub mod piece;
pub mod read;
pub mod row;
pub mod scalar;
pub mod types;
pub mod write;
