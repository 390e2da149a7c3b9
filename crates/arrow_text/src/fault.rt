//! Why a line has no answer.

ghost use Rattle.std.specs.Prelude.{◌≡◌};
ghost use Rattle.arrow_types.specs.declared.error.Error.TheVariants.{OutOfMemory};
ghost use Rattle.arrow_text.specs.declared.fault.Fault.TheVariants.{Refused};

use arrow_types::error::Error;
use std::alloc::{AllocError, AllocFailed};
use std::fmt;

/// Why a line has no answer, as the answer says it.
#[derive(Clone, Copy, PartialEq)]
pub enum Fault {
    /// The text has not the form that is asked for, from this byte of the line on.
    Syntax(usize),
    /// The call does not take these arguments, or a condition of the call does not hold.
    Usage,
    /// The call refused.
    Refused(Error),
}

impl From<Error> for Fault {
    fn from(error: Error) -> Fault {
        Fault::Refused(error)
    }
}

impl From<AllocError> for Fault {
    ghost from_gives = { λ _ fault. fault ≡ Refused OutOfMemory };

    fn from(_error: AllocError) -> Fault {
        Fault::Refused(Error::OutOfMemory)
    }
}

impl<T: Drop> From<AllocFailed<T>> for Fault {
    ghost from_gives = { λ _ fault. fault ≡ Refused OutOfMemory };

    fn from(_error: AllocFailed<T>) -> Fault {
        Fault::Refused(Error::OutOfMemory)
    }
}

impl fmt::Display for Fault {
    fn fmt<W: fmt::Write>(&self, f: &mut fmt::Formatter<W>) -> fmt::Result {
        match self {
            Fault::Syntax(at) => write!(f, "syntax {at}"),
            Fault::Usage => f.write_str("usage"),
            Fault::Refused(Error::InvalidArgumentError(fault)) => write!(f, "error {fault:?}"),
            Fault::Refused(Error::NotYetImplemented(_)) => f.write_str("error NotYetImplemented"),
            Fault::Refused(error) => write!(f, "error {error:?}"),
        }
    }
}
