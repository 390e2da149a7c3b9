//! The errors that calls answer.

ghost use Rattle.std.specs.Prelude.{◌≡◌};
ghost use Rattle.arrow_types.specs.declared.error.Error.TheVariants.{OutOfMemory};

use std::alloc::{AllocError, AllocFailed};

/// What a call was given that it does not take.
#[derive(Debug, Clone, Copy, PartialEq, Eq, thiserror::Error)]
pub enum ArgumentFault {
    /// `concatenate` of no array.
    #[error("concat requires input of at least one array")]
    ConcatenateEmpty,
    /// `concatenate` of arrays whose data types differ.
    #[error("It is not possible to concatenate arrays of different data types.")]
    ConcatenateTypes,
    /// `shift` by more rows than there are.
    #[error("the offset of a shift is greater than the length")]
    ShiftOffset,
    /// `if_then_else` over sides whose data types differ.
    #[error("the two sides have different data types")]
    IfThenElseTypes,
    /// `if_then_else` where the three lengths are not equal.
    #[error("the predicate and the two sides have different lengths")]
    IfThenElseLengths,
    /// `length` of an array that is no text.
    #[error("length is not supported for this type")]
    LengthType,
    /// `substring` of an array that is neither text nor bytes.
    #[error("substring is not supported for this type")]
    SubstringType,
    /// Arrays whose lengths differ.
    #[error("Arrays must have the same length")]
    Lengths,
    /// An error that a closure of the caller's answered, with a number of the caller's.
    #[error("refused by the caller: {0}")]
    Caller(u32),
}

/// What a kernel does not do yet.
#[derive(Debug, Clone, Copy, PartialEq, Eq, thiserror::Error)]
pub enum Unsupported {
    /// `take` of an array of this type.
    #[error("take is not supported for this type")]
    Take,
}

/// The part of an array that breaks Arrow's columnar format.
#[derive(Debug, Clone, Copy, PartialEq, Eq, thiserror::Error)]
pub enum SpecPart {
    /// The data type is not carried, or is not of this array's kind.
    #[error("Kind")]
    Kind,
    /// The number or the data types of the children.
    #[error("Child")]
    Child,
    /// The lengths of the parts disagree.
    #[error("Length")]
    Length,
    /// The offsets fall, or point outside the values.
    #[error("Offsets")]
    Offsets,
    /// A type id that the union does not have.
    #[error("TypeId")]
    TypeId,
    /// A valid key outside the dictionary.
    #[error("Key")]
    Key,
    /// A row of a text array that is not UTF-8.
    #[error("Utf8")]
    Utf8,
}

/// Why a call refused. An error takes no memory.
#[derive(Debug, Clone, Copy, PartialEq, Eq, thiserror::Error)]
pub enum Error {
    /// An argument that the call does not take.
    #[error("{0}")]
    InvalidArgumentError(ArgumentFault),
    /// A case that the call does not do yet.
    #[error("{0}")]
    NotYetImplemented(Unsupported),
    /// An offset, a key, a place or a count that does not fit its type.
    #[error("an offset, key or length does not fit")]
    Overflow,
    /// A request for memory that was refused.
    #[error("out of memory")]
    OutOfMemory,
    /// A growable that refused earlier, and answers nothing since.
    #[error("this growable has failed")]
    Failed,
    /// Parts that break Arrow's columnar format, by the first that does.
    #[error("out of specification: {0}")]
    OutOfSpec(SpecPart),
}

impl From<AllocError> for Error {
    ghost from_gives = { λ _ e. e ≡ OutOfMemory };

    fn from(_error: AllocError) -> Error {
        Error::OutOfMemory
    }
}

impl<T: Drop> From<AllocFailed<T>> for Error {
    ghost from_gives = { λ _ e. e ≡ OutOfMemory };

    fn from(_error: AllocFailed<T>) -> Error {
        Error::from(AllocError)
    }
}
