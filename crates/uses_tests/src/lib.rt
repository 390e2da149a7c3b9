//! Tests of the callers of `uses`.
#![tactic(auto)]

#[cfg(test)]
mod callers;
