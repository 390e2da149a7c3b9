//! Scalars as text: a type and a row, as `i32(5)`.

use crate::fault::Fault;
use crate::number::Element;
use crate::parts::{Parts, kind_of};
use crate::piece::Piece;
use crate::row::read_bytes;
use crate::types::{DEEPEST, boxed_type};
use arrow_flat::scalar::{
    AnyPrimitiveScalar, AnyScalar, BinaryScalar, BooleanScalar, DictionaryScalar, PrimitiveScalar,
    Utf8Scalar,
};
use arrow_types::datatypes::{DataType, PhysicalType};
use arrow_types::types::PrimitiveType;
use std::alloc::Global;

/// The scalar that a text says.
pub fn read_scalar(alloc: Global, piece: Piece<'_>) -> Result<Box<AnyScalar>, Fault> {
    scalar_of(alloc, piece, DEEPEST)
}

// A scalar whose parts nest at most so deep.
#[cycle(scalar)]
fn scalar_of(alloc: Global, piece: Piece<'_>, depth: usize) -> Result<Box<AnyScalar>, Fault> {
    if depth == 0 {
        return Err(piece.fault());
    }
    if let Some((head, row)) = piece.headed('(', ")") {
        return typed_row(alloc, head, row);
    }
    match piece.headed('{', "}") {
        Some((head, parts)) => typed_parts(alloc, head, parts, depth - 1),
        None => Err(piece.fault()),
    }
}

// A scalar of the type that a text says, and a row.
fn typed_row(alloc: Global, head: Piece<'_>, row: Piece<'_>) -> Result<Box<AnyScalar>, Fault> {
    let data_type = boxed_type(alloc, head)?;
    scalar_of_row(alloc, &data_type, row, DEEPEST)
}

// A scalar of the type that a text says, and parts.
#[cycle(scalar)]
fn typed_parts(
    alloc: Global,
    head: Piece<'_>,
    parts: Piece<'_>,
    depth: usize,
) -> Result<Box<AnyScalar>, Fault> {
    let data_type = boxed_type(alloc, head)?;
    scalar_of_parts(alloc, &data_type, parts, depth)
}

// A scalar of a type and a row.
fn scalar_of_row(
    alloc: Global,
    data_type: &DataType,
    row: Piece<'_>,
    depth: usize,
) -> Result<Box<AnyScalar>, Fault> {
    if depth == 0 {
        return Err(row.fault());
    }
    match data_type.to_logical_type() {
        DataType::Dictionary(_, values, _) if !row.is_null() => {
            let value = row.strip_prefix("&").unwrap_or(row);
            let value = scalar_of_row(alloc, values, value, depth - 1)?;
            dictionary(alloc, data_type, Some(value))
        }
        _ if row.is_null() => flat_scalar(alloc, data_type, None),
        _ => flat_scalar(alloc, data_type, Some(row)),
    }
}

// A scalar in a box of its own.
fn boxed(alloc: Global, scalar: AnyScalar) -> Result<Box<AnyScalar>, Fault> {
    Ok(Box::new(alloc, scalar)?)
}

// A scalar of a dictionary.
fn dictionary(
    alloc: Global,
    data_type: &DataType,
    value: Option<Box<AnyScalar>>,
) -> Result<Box<AnyScalar>, Fault> {
    let data_type = data_type.clone()?;
    let scalar = DictionaryScalar::try_new(data_type, value)?;
    boxed(alloc, AnyScalar::Dictionary(scalar))
}

// A scalar that has no other one inside.
fn flat_scalar(
    alloc: Global,
    data_type: &DataType,
    value: Option<Piece<'_>>,
) -> Result<Box<AnyScalar>, Fault> {
    match data_type {
        DataType::Boolean => truth(alloc, value),
        DataType::Utf8 => text(alloc, value, false),
        DataType::LargeUtf8 => text(alloc, value, true),
        DataType::Binary => bytes(alloc, value, false),
        DataType::LargeBinary => bytes(alloc, value, true),
        data_type => match data_type.to_physical_type() {
            PhysicalType::Primitive(of) => number(alloc, data_type, of, value),
            PhysicalType::Dictionary(_) => dictionary(alloc, data_type, None),
            _ => Err(Fault::Usage),
        },
    }
}

// A truth value.
fn truth(alloc: Global, value: Option<Piece<'_>>) -> Result<Box<AnyScalar>, Fault> {
    let value = match value {
        Some(value) => Some(value.truth()?),
        None => None,
    };
    boxed(alloc, AnyScalar::Boolean(BooleanScalar::new(value)))
}

// Bytes.
fn bytes(alloc: Global, value: Option<Piece<'_>>, is_large: bool) -> Result<Box<AnyScalar>, Fault> {
    let value = bytes_of(alloc, value)?;
    match is_large {
        false => boxed(alloc, AnyScalar::Binary(BinaryScalar::<i32>::new(value))),
        true => boxed(
            alloc,
            AnyScalar::LargeBinary(BinaryScalar::<i64>::new(value)),
        ),
    }
}

// The bytes of a value.
fn bytes_of(alloc: Global, value: Option<Piece<'_>>) -> Result<Option<Vec<u8>>, Fault> {
    match value {
        Some(value) => read_bytes(alloc, value).map(Some),
        None => Ok(None),
    }
}

// A text.
fn text(alloc: Global, value: Option<Piece<'_>>, is_large: bool) -> Result<Box<AnyScalar>, Fault> {
    let value = text_of(alloc, value)?;
    match is_large {
        false => boxed(alloc, AnyScalar::Utf8(Utf8Scalar::<i32>::new(value))),
        true => boxed(alloc, AnyScalar::LargeUtf8(Utf8Scalar::<i64>::new(value))),
    }
}

// The characters of a value.
fn text_of(alloc: Global, value: Option<Piece<'_>>) -> Result<Option<String>, Fault> {
    let Some(value) = value else {
        return Ok(None);
    };
    match String::from_utf8(read_bytes(alloc, value)?) {
        Ok(text) => Ok(Some(text)),
        Err(_) => Err(value.fault()),
    }
}

// An element of a type that is known when the program runs.
fn number(
    alloc: Global,
    data_type: &DataType,
    of: PrimitiveType,
    value: Option<Piece<'_>>,
) -> Result<Box<AnyScalar>, Fault> {
    let scalar = any_number(data_type, of, value)?;
    boxed(alloc, AnyScalar::Primitive(scalar))
}

/// The scalar of the element type that a primitive type names, as one of any.
macro_rules! any_scalar {
    ($of:expr, $element:expr, $($name:ident)*) => {
        match $of {
            $(PrimitiveType::$name => match $element {
                Ok(scalar) => Ok(AnyPrimitiveScalar::$name(scalar)),
                Err(fault) => Err(fault),
            },)*
            _ => Err(Fault::Usage),
        }
    };
}

// The same, outside a box.
fn any_number(
    data_type: &DataType,
    of: PrimitiveType,
    value: Option<Piece<'_>>,
) -> Result<AnyPrimitiveScalar, Fault> {
    any_scalar!(
        of,
        element(data_type, value),
        Int8 Int16 Int32 Int64 Int128 Int256 UInt8 UInt16 UInt32 UInt64 DaysMs MonthDayNano
    )
}

// An element.
fn element<T: Element>(
    data_type: &DataType,
    value: Option<Piece<'_>>,
) -> Result<PrimitiveScalar<T>, Fault> {
    let value = optional_element(value)?;
    let data_type = data_type.clone()?;
    Ok(PrimitiveScalar::<T>::try_new(data_type, value)?)
}

// The element that a text says, where there is one.
fn optional_element<T: Element>(value: Option<Piece<'_>>) -> Result<Option<T>, Fault> {
    match value {
        Some(value) => T::read(value).map(Some),
        None => Ok(None),
    }
}

// A scalar by its value as it is: of a dictionary a scalar, or an element of a kind that is named.
#[cycle(scalar)]
fn scalar_of_parts(
    alloc: Global,
    data_type: &DataType,
    text: Piece<'_>,
    depth: usize,
) -> Result<Box<AnyScalar>, Fault> {
    let parts = Parts::read(alloc, text)?;
    let value = parts.part("value")?;
    match (parts.get("kind"), value.text()) {
        (Some(word), "none") => number_of_kind(alloc, data_type, word, None),
        (Some(word), _) => number_of_kind(alloc, data_type, word, Some(value)),
        (None, "none") => dictionary(alloc, data_type, None),
        (None, _) => {
            let value = scalar_of(alloc, value, depth)?;
            dictionary(alloc, data_type, Some(value))
        }
    }
}

// An element of a kind that is named.
fn number_of_kind(
    alloc: Global,
    data_type: &DataType,
    word: Piece<'_>,
    value: Option<Piece<'_>>,
) -> Result<Box<AnyScalar>, Fault> {
    match kind_of(word)? {
        PhysicalType::Primitive(of) => number(alloc, data_type, of, value),
        _ => Err(word.fault()),
    }
}
