//! Tests of logic, of comparisons of flat arrays and of the elements of arrays, as far as no line of the program `cases` can show them:
//! kernels that call closures, generic functions and laws at a concrete type, and texts of errors.
#![tactic(auto)]

#[cfg(test)]
mod arity;
#[cfg(test)]
mod check;
#[cfg(test)]
mod comparison;
#[cfg(test)]
mod elements;
#[cfg(test)]
mod types;
