//! Calls of scalars.

use arrow_text::call::Call;
use arrow_text::fault::Fault;
use arrow_text::types::write_type;
use arrow_text::write::{show, write_scalar};
use std::alloc::Global;

/// The methods of a scalar that take nothing else.
#[derive(Clone, Copy)]
pub(crate) enum OfScalar {
    DataType,
    IsValid,
    New,
}

// The calls that take a scalar.
pub(crate) fn of_scalar(
    alloc: Global,
    method: OfScalar,
    call: &Call<'_>,
    out: &mut String,
) -> Result<(), Fault> {
    call.takes(1)?;
    let scalar = call.scalar(alloc, 0)?;
    match method {
        OfScalar::DataType => write_type(out, scalar.scalar.data_type()),
        OfScalar::IsValid => show(out, scalar.scalar.is_valid()),
        OfScalar::New => write_scalar(out, &*scalar.scalar),
    }
}
