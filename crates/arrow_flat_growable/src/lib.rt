//! Arrays without children that grow by rows of other arrays and by null slots. A contract sees a growable as its type,
//! the layouts of the arrays that it takes rows from, and the rows that it holds.
#![tactic(auto)]

pub mod growable;
pub mod under;
