//! Copies of data types and fields.

ghost use Rattle.std.specs.Prelude.{◌≡◌, IfOk};
ghost use Rattle.arrow_types.specs.TypeOf.{type_of, field_of, fields_of, ids_of};

use crate::datatypes::{DataType, Field};
use std::alloc::AllocError;

/// A clone is the same type, in memory of its own.
impl Clone for DataType {
    ghost is_clone = { λ t copy. type_of copy ≡ type_of t };

    fn clone(&self) -> Result<DataType, AllocError> {
        copy_type(self)
    }
}

/// A clone is the same field, in memory of its own.
impl Clone for Field {
    ghost is_clone = { λ f copy. field_of copy ≡ field_of f };

    fn clone(&self) -> Result<Field, AllocError> {
        copy_field(self)
    }
}

#[cycle(copy)]
fn copy_type(data_type: &DataType) -> Result<DataType, AllocError>
    ensures { IfOk result (λ copy. type_of copy ≡ type_of data_type.now) }
{
    match data_type {
        DataType::Null => Ok(DataType::Null),
        DataType::Boolean => Ok(DataType::Boolean),
        DataType::Int8 => Ok(DataType::Int8),
        DataType::Int16 => Ok(DataType::Int16),
        DataType::Int32 => Ok(DataType::Int32),
        DataType::Int64 => Ok(DataType::Int64),
        DataType::UInt8 => Ok(DataType::UInt8),
        DataType::UInt16 => Ok(DataType::UInt16),
        DataType::UInt32 => Ok(DataType::UInt32),
        DataType::UInt64 => Ok(DataType::UInt64),
        DataType::Float16 => Ok(DataType::Float16),
        DataType::Float32 => Ok(DataType::Float32),
        DataType::Float64 => Ok(DataType::Float64),
        DataType::Timestamp(unit, timezone) => Ok(DataType::Timestamp(*unit, timezone.clone()?)),
        DataType::Date32 => Ok(DataType::Date32),
        DataType::Date64 => Ok(DataType::Date64),
        DataType::Time32(unit) => Ok(DataType::Time32(*unit)),
        DataType::Time64(unit) => Ok(DataType::Time64(*unit)),
        DataType::Duration(unit) => Ok(DataType::Duration(*unit)),
        DataType::Interval(unit) => Ok(DataType::Interval(*unit)),
        DataType::Binary => Ok(DataType::Binary),
        DataType::FixedSizeBinary(size) => Ok(DataType::FixedSizeBinary(*size)),
        DataType::LargeBinary => Ok(DataType::LargeBinary),
        DataType::Utf8 => Ok(DataType::Utf8),
        DataType::LargeUtf8 => Ok(DataType::LargeUtf8),
        DataType::List(field) => Ok(DataType::List(copy_boxed(field)?)),
        DataType::FixedSizeList(field, size) => {
            Ok(DataType::FixedSizeList(copy_boxed(field)?, *size))
        }
        DataType::LargeList(field) => Ok(DataType::LargeList(copy_boxed(field)?)),
        DataType::Struct(fields) => Ok(DataType::Struct(copy_fields(fields)?)),
        DataType::Union(fields, ids, mode) => {
            Ok(DataType::Union(copy_fields(fields)?, copy_ids(ids)?, *mode))
        }
        DataType::Map(field, is_sorted) => Ok(DataType::Map(copy_boxed(field)?, *is_sorted)),
        DataType::Dictionary(keys, values, is_ordered) => {
            Ok(DataType::Dictionary(*keys, copy_inner(values)?, *is_ordered))
        }
        DataType::Decimal(precision, scale) => Ok(DataType::Decimal(*precision, *scale)),
        DataType::Decimal256(precision, scale) => Ok(DataType::Decimal256(*precision, *scale)),
        DataType::Extension(name, inner, metadata) => {
            let name = name.clone()?;
            let metadata = metadata.clone()?;
            Ok(DataType::Extension(name, copy_inner(inner)?, metadata))
        }
    }
}

#[cycle(copy)]
fn copy_inner(inner: &Box<DataType>) -> Result<Box<DataType>, AllocError>
    ensures { IfOk result (λ copy. type_of copy.value ≡ type_of inner.now.value) }
{
    Ok(Box::new(*Box::allocator(inner), copy_type(inner)?)?)
}

#[cycle(copy)]
fn copy_boxed(field: &Box<Field>) -> Result<Box<Field>, AllocError>
    ensures { IfOk result (λ copy. field_of copy.value ≡ field_of field.now.value) }
{
    Ok(Box::new(*Box::allocator(field), copy_field(field)?)?)
}

#[cycle(copy)]
fn copy_field(field: &Field) -> Result<Field, AllocError>
    ensures { IfOk result (λ copy. field_of copy ≡ field_of field.now) }
{
    Ok(Field {
        name: field.name.clone()?,
        data_type: copy_type(&field.data_type)?,
        is_nullable: field.is_nullable,
    })
}

#[cycle(copy)]
fn copy_fields(fields: &Vec<Field>) -> Result<Vec<Field>, AllocError>
    ensures { IfOk result (λ copy. fields_of copy.items ≡ fields_of fields.now.items) }
{
    let mut copies = Vec::with_capacity(*fields.allocator(), fields.len())?;
    for field in fields {
        copies.push(copy_field(field)?)?;
    }
    Ok(copies)
}

fn copy_ids(ids: &Option<Vec<i32>>) -> Result<Option<Vec<i32>>, AllocError>
    ensures { IfOk result (λ copy. ids_of copy ≡ ids_of ids.now) }
{
    match ids {
        None => Ok(None),
        Some(ids) => Ok(Some(ids.clone()?)),
    }
}
