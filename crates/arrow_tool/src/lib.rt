//! What the program `kernels` does: it reads lines, runs the kernel that each names, and writes one
//! line for each.
#![tactic(auto)]

mod answer;
mod commands;
pub mod engine;
mod line;
mod literals;
pub mod stream;
mod text;
