//! Tests of the kernels that copy rows, as far as no line of the program `cases` can show them: laws at a concrete type, a growable of
//! the caller's own, what is stored beneath nulls, and the example of the front page. Where they take arrays they answer lines of
//! their own.
#![tactic(auto)]

#[cfg(test)]
mod example;
#[cfg(test)]
mod laws;
#[cfg(test)]
mod selection;
#[cfg(test)]
mod stored;
