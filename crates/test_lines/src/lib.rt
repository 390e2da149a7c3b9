//! Lines that tests answer, and what lies in their arrays.
#![tactic(auto)]

pub mod arrays;
pub mod lines;
