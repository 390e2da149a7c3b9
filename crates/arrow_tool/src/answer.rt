//! What a line is answered, and how it is printed.

ghost use Rattle.std.specs.Prelude.{◌≡◌, IfOk};
ghost use Rattle.arrow_types.specs.ArrowType.{plain, boolean};
ghost use Rattle.arrow_arrays.specs.Any.{any_array_type};
ghost use Rattle.arrow_tool.specs.Written.{IsWritten};

use crate::literals::WrittenArray;
use arrow_arrays::array::AnyArray;
use arrow_flat::array::BooleanArray;
use arrow_select::filter::Filter;
use arrow_types::error::Error;
use std::fmt;

/// Why a line was refused.
#[derive(Clone, Copy)]
pub(crate) enum Refusal {
    /// It has not the form of a line.
    Syntax,
    /// No command has its name.
    Command,
    /// The arguments are not those that the command takes.
    Usage,
    /// The kernel refused.
    Kernel(Error),
}

/// What a line is answered.
#[derive(Drop)]
pub(crate) enum Answer {
    Array(WrittenArray),
    Truth(bool),
    /// The ranges of the rows that a filter keeps.
    Ranges(Filter),
    /// A side, and a range of its rows: where it begins and how long it is.
    SideRanges(Vec<(usize, usize, usize)>),
    Refused(Refusal),
}

impl Answer {
    /// What a kernel that makes an array has answered.
    pub(crate) fn of_kernel(outcome: Result<AnyArray, Error>) -> Answer
        requires { IfOk outcome (λ array. IsWritten (any_array_type array)) }
    {
        match outcome {
            Ok(array) => Answer::Array(WrittenArray::new(array)),
            Err(error) => Answer::Refused(Refusal::Kernel(error)),
        }
    }

    /// What a kernel that makes an array of truth values has answered.
    pub(crate) fn of_predicate(outcome: Result<BooleanArray, Error>) -> Answer
        requires { IfOk outcome (λ array. array.arrow_type ≡ plain boolean) }
    {
        match outcome {
            Ok(array) => Answer::Array(WrittenArray::new(AnyArray::Boolean(array))),
            Err(error) => Answer::Refused(Refusal::Kernel(error)),
        }
    }

    pub(crate) fn is_refusal(&self) -> bool {
        matches!(self, Answer::Refused(_))
    }
}

impl fmt::Display for Answer {
    fn fmt<W: fmt::Write>(&self, f: &mut fmt::Formatter<W>) -> fmt::Result {
        match self {
            Answer::Array(array) => write!(f, "{array}"),
            Answer::Truth(truth) => write!(f, "{truth}"),
            Answer::Ranges(filter) => write_ranges(f, filter.ranges()),
            Answer::SideRanges(ranges) => write_side_ranges(f, ranges),
            Answer::Refused(refusal) => write!(f, "error {refusal}"),
        }
    }
}

// Prints ranges, with a space between two.
fn write_ranges<W: fmt::Write>(
    f: &mut fmt::Formatter<W>,
    ranges: &[(usize, usize)],
) -> fmt::Result {
    for (i, (start, len)) in ranges.iter().enumerate() {
        write!(f, "{}({start},{len})", space_before(i))?;
    }
    Ok(())
}

// Prints ranges and their sides, with a space between two.
fn write_side_ranges<W: fmt::Write>(
    f: &mut fmt::Formatter<W>,
    ranges: &[(usize, usize, usize)],
) -> fmt::Result {
    for (i, (side, start, len)) in ranges.iter().enumerate() {
        write!(f, "{}({side},{start},{len})", space_before(i))?;
    }
    Ok(())
}

// What stands before a range.
fn space_before(i: usize) -> &'static str {
    if i == 0 { "" } else { " " }
}

impl fmt::Display for Refusal {
    fn fmt<W: fmt::Write>(&self, f: &mut fmt::Formatter<W>) -> fmt::Result {
        match self {
            Refusal::Syntax => f.write_str("Syntax"),
            Refusal::Command => f.write_str("Command"),
            Refusal::Usage => f.write_str("Usage"),
            Refusal::Kernel(Error::InvalidArgumentError(fault)) => write!(f, "{fault:?}"),
            Refusal::Kernel(Error::NotYetImplemented(_)) => f.write_str("NotYetImplemented"),
            Refusal::Kernel(error) => write!(f, "{error:?}"),
        }
    }
}
