//! Arrays with children, and arrays of any type. A contract sees an array as its layout: its type, its
//! parts and the layouts of its children; its rows follow from these.
#![tactic(auto)]

pub mod array;
pub mod chunk;
