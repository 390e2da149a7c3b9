//! Tests of `arrow_tool`, by its public calls alone.
#![tactic(auto)]

#[cfg(test)]
mod check;
#[cfg(test)]
mod engine;
#[cfg(test)]
mod stream;
