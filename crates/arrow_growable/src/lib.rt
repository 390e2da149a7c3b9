//! Arrays of any type that grow by rows of other arrays and by null slots.
#![tactic(auto)]

pub mod growable;
