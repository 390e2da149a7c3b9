//! Memory that arrays stand on: bitmaps and buffers, shared and sliced without copying. A contract
//! sees a bitmap as its list of bits, a buffer as its list of values, and offsets as a list of numbers.
#![tactic(auto)]

pub mod bitmap;
pub mod buffer;
pub mod bytes;
pub mod offset;
mod words;
