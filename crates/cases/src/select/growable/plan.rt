//! What a line asks of a growable: how it is made, and the steps.

use crate::select::filter::read_filter;
use arrow_select::filter::Filter;
use arrow_text::call::Call;
use arrow_text::fault::Fault;
use arrow_text::piece::Piece;
use std::alloc::Global;

/// What is asked of a growable.
#[derive(Drop)]
pub(super) enum Action {
    /// Rows of the array at an index: a first row, and how many.
    Extend(usize, usize, usize),
    /// The rows of the array at an index that a prepared filter keeps.
    ExtendInto(usize, Filter),
    ExtendValidity(usize),
    Len,
    AsBox,
    IntoArray,
}

/// How a growable is made, and what is asked of it.
#[derive(Drop)]
pub(super) struct Plan {
    pub use_validity: bool,
    pub capacity: usize,
    pub actions: Vec<Action>,
    /// Whether it becomes an array at the end.
    pub is_consumed: bool,
}

impl Plan {
    /// Reads the first two arguments, and the steps behind a colon.
    pub(super) fn read(alloc: Global, call: &Call<'_>, steps: &[Piece<'_>]) -> Result<Plan, Fault> {
        let use_validity = call.argument(0)?.truth()?;
        let capacity = call.integer(1)?;
        let mut actions = Vec::new(alloc);
        for step in steps {
            actions.push(read_action(alloc, *step)?)?;
        }
        let is_consumed = matches!(actions.last(), Some(Action::IntoArray));
        if is_consumed {
            let _ = actions.pop();
        }
        Ok(Plan {
            use_validity,
            capacity,
            actions,
            is_consumed,
        })
    }
}

// One step.
fn read_action(alloc: Global, piece: Piece<'_>) -> Result<Action, Fault> {
    let step = piece.step(alloc)?;
    match (step.name, step.arguments.as_slice()) {
        ("extend", [index, start, len]) => {
            Ok(Action::Extend(index.integer()?, start.integer()?, len.integer()?))
        }
        ("extend_into", [index, predicate]) => {
            let index = index.integer()?;
            Ok(Action::ExtendInto(index, read_filter(alloc, *predicate)?))
        }
        ("extend_validity", [additional]) => Ok(Action::ExtendValidity(additional.integer()?)),
        ("len", []) => Ok(Action::Len),
        ("as_box", []) => Ok(Action::AsBox),
        ("into_array", []) => Ok(Action::IntoArray),
        _ => Err(Fault::Usage),
    }
}
