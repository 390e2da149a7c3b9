//! What every layer speaks of: the error type, the parts of data types, and, in `specs/`, the
//! definitions over types and rows that all contracts cite.
#![tactic(auto)]

pub mod datatypes;
pub mod error;
pub mod laws;
pub mod types;

pub use error::{ArgumentFault, Error, SpecPart, Unsupported};
