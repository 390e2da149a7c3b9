//! Uses of the kernels, as a caller writes them, each proved from their contracts and tested.
#![tactic(auto)]

pub mod batch;
pub mod coalesce;
pub mod csv;
pub mod distinct;
pub mod guide;
pub mod merge;
pub mod store;
