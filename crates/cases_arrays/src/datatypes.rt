//! Calls of data types.

use arrow_text::call::Call;
use arrow_text::fault::Fault;
use arrow_text::types::write_type;
use arrow_text::write::show;
use arrow_types::datatypes::DataType;
use std::alloc::Global;

/// The methods of a data type that take nothing else.
#[derive(Clone, Copy)]
pub(crate) enum OfType {
    Clone,
    IsCarried,
    ToLogicalType,
    ToPhysicalType,
}

// The calls that take a data type.
pub(crate) fn of_type(
    alloc: Global,
    method: OfType,
    call: &Call<'_>,
    out: &mut String,
) -> Result<(), Fault> {
    call.takes(1)?;
    let data_type = call.boxed_type(alloc, 0)?;
    write_of_type(method, &*data_type, out)
}

// The same of a data type that is lent.
fn write_of_type(method: OfType, data_type: &DataType, out: &mut String) -> Result<(), Fault> {
    match method {
        OfType::Clone => clone(data_type, out),
        OfType::IsCarried => show(out, data_type.is_carried()),
        OfType::ToLogicalType => write_type(out, data_type.to_logical_type()),
        OfType::ToPhysicalType => Ok(write!(out, "{:?}", data_type.to_physical_type())?),
    }
}

// A clone of the type.
fn clone(data_type: &DataType, out: &mut String) -> Result<(), Fault> {
    let copy = data_type.clone()?;
    write_type(out, &copy)
}

// Whether two data types are equal.
pub(crate) fn eq(alloc: Global, call: &Call<'_>, out: &mut String) -> Result<(), Fault> {
    call.takes(2)?;
    let left = call.boxed_type(alloc, 0)?;
    let right = call.boxed_type(alloc, 1)?;
    show(out, *left == *right)
}
