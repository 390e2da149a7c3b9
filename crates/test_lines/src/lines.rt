//! Lines that tests answer: a name and arrays, as in the program `cases`. Among the arrays are those that are wanted.

use arrow_arrays::array::AnyArray;
use arrow_text::call::Call;
use arrow_text::fault::Fault;
use arrow_text::types::find;
use arrow_text::write::show;
use arrow_types::error::Error;
use std::alloc::Global;

/// A line, and how it is refused, or nothing where what its call answers is wanted.
pub type Line = [&'static str; 2];

/// What stands in a line in the place of each comma and of each closing bracket.
pub type Form = [&'static str; 2];

/// A line as it stands.
pub const PLAIN: [Form; 1] = [[",", "]"]];

/// What answers the lines of a name: whether what a call says of the arrays is wanted.
pub type Answer = fn(Global, &str, &[AnyArray]) -> Result<bool, Fault>;

// The answer to a line; `Usage` where none has its name. Where memory is refused the arrays are to be those of the line as before, and
// to be answered.
fn answer(alloc: Global, answers: &[(&str, Answer)], line: &str) -> Result<bool, Fault>
    requires { (answer : _) (alloc : _) (name : _) (arrays : _) → pre answer alloc name arrays }
{
    let call = Call::read(alloc, line)?;
    let answer = find(answers, call.name).ok_or(Fault::Usage)?;
    let arrays = call.arrays(alloc, 0)?;
    match answer(alloc, call.name, &arrays.arrays) {
        Err(Fault::Refused(Error::OutOfMemory)) => {
            let others = call.arrays(alloc, 0)?;
            let are_kept = *arrays.arrays == *others.arrays;
            Ok(answer(alloc, call.name, &arrays.arrays)? & are_kept)
        }
        outcome => outcome,
    }
}

// Whether a line in a form is answered or refused as it is wanted.
fn is_answered(
    alloc: Global,
    answers: &[(&str, Answer)],
    line: &Line,
    form: &Form,
) -> Result<bool, Fault>
    requires { (answer : _) (alloc : _) (name : _) (arrays : _) → pre answer alloc name arrays }
{
    let text = line[0].replace(alloc, ",", form[0])?;
    let text = text.replace(alloc, "]", form[1])?;
    let mut refusal = String::new(alloc);
    let is_right = match answer(alloc, answers, &text) {
        Ok(is_right) => is_right,
        Err(Fault::Refused(Error::OutOfMemory)) => {
            return Err(Fault::Refused(Error::OutOfMemory));
        }
        Err(fault) => {
            show(&mut refusal, fault)?;
            true
        }
    };
    Ok(is_right & (refusal.as_str() == line[1]))
}

/// The first line that in one of these forms is not answered as it is wanted: at once or, where memory was refused, when it is
/// answered once more. So a test passes while each request for memory is refused in turn.
pub fn wrong_line(
    alloc: Global,
    answers: &[(&str, Answer)],
    lines: &[Line],
    forms: &[Form],
) -> Option<(Line, Form)>
    requires { (answer : _) (alloc : _) (name : _) (arrays : _) → pre answer alloc name arrays }
{
    for line in lines {
        for form in forms {
            let mut outcome = is_answered(alloc, answers, line, form);
            if outcome.is_err() {
                outcome = is_answered(alloc, answers, line, form);
            }
            if outcome != Ok(true) {
                return Some((*line, *form));
            }
        }
    }
    None
}
