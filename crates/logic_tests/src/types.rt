//! The texts of errors, and refused memory.

use crate::check::check_case;
use arrow_types::error::{ArgumentFault, Error, SpecPart, Unsupported};
use std::alloc::{AllocError, AllocFailed};
use std::fmt::InlineText;

/// Errors and their texts.
const TEXTS: [(Error, &str); 20] = [
    (
        Error::InvalidArgumentError(ArgumentFault::ConcatenateEmpty),
        "concat requires input of at least one array",
    ),
    (
        Error::InvalidArgumentError(ArgumentFault::ConcatenateTypes),
        "It is not possible to concatenate arrays of different data types.",
    ),
    (
        Error::InvalidArgumentError(ArgumentFault::ShiftOffset),
        "the offset of a shift is greater than the length",
    ),
    (
        Error::InvalidArgumentError(ArgumentFault::IfThenElseTypes),
        "the two sides have different data types",
    ),
    (
        Error::InvalidArgumentError(ArgumentFault::IfThenElseLengths),
        "the predicate and the two sides have different lengths",
    ),
    (
        Error::InvalidArgumentError(ArgumentFault::LengthType),
        "length is not supported for this type",
    ),
    (
        Error::InvalidArgumentError(ArgumentFault::SubstringType),
        "substring is not supported for this type",
    ),
    (
        Error::InvalidArgumentError(ArgumentFault::Lengths),
        "Arrays must have the same length",
    ),
    (
        Error::InvalidArgumentError(ArgumentFault::Caller(4_294_967_295)),
        "refused by the caller: 4294967295",
    ),
    (
        Error::NotYetImplemented(Unsupported::Take),
        "take is not supported for this type",
    ),
    (Error::Overflow, "an offset, key or length does not fit"),
    (Error::OutOfMemory, "out of memory"),
    (Error::Failed, "this growable has failed"),
    (
        Error::OutOfSpec(SpecPart::Kind),
        "out of specification: Kind",
    ),
    (
        Error::OutOfSpec(SpecPart::Child),
        "out of specification: Child",
    ),
    (
        Error::OutOfSpec(SpecPart::Length),
        "out of specification: Length",
    ),
    (
        Error::OutOfSpec(SpecPart::Offsets),
        "out of specification: Offsets",
    ),
    (
        Error::OutOfSpec(SpecPart::TypeId),
        "out of specification: TypeId",
    ),
    (Error::OutOfSpec(SpecPart::Key), "out of specification: Key"),
    (
        Error::OutOfSpec(SpecPart::Utf8),
        "out of specification: Utf8",
    ),
];

#[test]
fn texts_and_refused_memory(rt: HostRuntime) {
    for (error, want) in &TEXTS {
        let text: InlineText<96> = InlineText::of(*error);
        check_case(&rt, text.as_str() == *want, *want);
    }
    let refused = [
        Error::from(AllocError),
        Error::from(AllocFailed { value: 7 }),
    ];
    check_case(&rt, refused == [Error::OutOfMemory; 2], "refused memory");
}
