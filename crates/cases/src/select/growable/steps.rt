//! Steps over a growable of any kind.

ghost use Rattle.std.specs.Prelude.{◌≡◌};
ghost use Rattle.arrow_arrays.specs.Any.{layouts_in};
ghost use Rattle.cases.specs.Sources.{TakesRowsOf};

use crate::select::growable::plan::{Action, Plan};
use arrow_arrays::array::AnyArray;
use arrow_growable::growable::Growable;
use arrow_select::filter::Filter;
use arrow_text::fault::Fault;
use arrow_text::write::{show, write_made_or_name, write_name};
use arrow_types::error::Error;

// Takes the steps over a growable of these arrays, and appends what each answers, with a space before it and before the array
// that it becomes at the end.
pub(super) fn run_actions<'a, G: Growable<'a>>(
    growable: &mut G,
    arrays: &[&AnyArray],
    plan: &Plan,
    out: &mut String,
) -> Result<(), Fault>
    requires { TakesRowsOf (layouts_in arrays.now) (G.state growable.old).sources }
{
    for action in &plan.actions {
        out.push(' ')?;
        run_action(growable, arrays, action, out)?;
    }
    if plan.is_consumed {
        out.push(' ')?;
    }
    Ok(())
}

// Takes one step, and appends its answer: how many rows there are, an array, or the name of an error.
fn run_action<'a, G: Growable<'a>>(
    growable: &mut G,
    arrays: &[&AnyArray],
    action: &Action,
    out: &mut String,
) -> Result<(), Fault>
    requires { TakesRowsOf (layouts_in arrays.now) (G.state growable.old).sources }
    ensures { (G.state growable.new).sources ≡ (G.state growable.old).sources }
{
    let outcome = match action {
        Action::Extend(index, start, len) => extend(growable, arrays, *index, *start, *len)?,
        Action::ExtendInto(index, filter) => extend_into(growable, arrays, *index, filter)?,
        Action::ExtendValidity(additional) => growable.extend_validity(*additional),
        Action::Len => Ok(()),
        Action::AsBox => return write_made_or_name(out, growable.as_box()),
        Action::IntoArray => return Err(Fault::Usage),
    };
    match outcome {
        Ok(()) => show(out, growable.len()),
        Err(error) => write_name(out, error),
    }
}

// Appends rows of one of the arrays that are there.
fn extend<'a, G: Growable<'a>>(
    growable: &mut G,
    arrays: &[&AnyArray],
    index: usize,
    start: usize,
    len: usize,
) -> Result<Result<(), Error>, Fault>
    requires { TakesRowsOf (layouts_in arrays.now) (G.state growable.old).sources }
    ensures { (G.state growable.new).sources ≡ (G.state growable.old).sources }
{
    if index >= arrays.len() {
        return Err(Fault::Usage);
    }
    let array = arrays[index];
    let rows = array.len();
    if start > rows || len > rows - start {
        return Err(Fault::Usage);
    }
    Ok(growable.extend(index, start, len))
}

// Appends the rows of one of the arrays that are there which a filter of its length keeps.
fn extend_into<'a, G: Growable<'a>>(
    growable: &mut G,
    arrays: &[&AnyArray],
    index: usize,
    filter: &Filter,
) -> Result<Result<(), Error>, Fault>
    requires { TakesRowsOf (layouts_in arrays.now) (G.state growable.old).sources }
    ensures { (G.state growable.new).sources ≡ (G.state growable.old).sources }
{
    if index >= arrays.len() {
        return Err(Fault::Usage);
    }
    let array = arrays[index];
    if array.len() != filter.mask_len() {
        return Err(Fault::Usage);
    }
    Ok(filter.extend_into(growable, index))
}
