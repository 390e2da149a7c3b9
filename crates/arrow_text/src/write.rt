//! Arrays, scalars and bitmaps as they are printed: by their type and rows alone.

use crate::fault::Fault;
use crate::number::Element;
use crate::types::{DEEPEST, push_before, push_text, write_type};
use arrow_arrays::array::{AnyArray, DictionaryArray, StructArray, UnionArray};
use arrow_flat::array::{AnyPrimitive, BooleanArray, PrimitiveArray};
use arrow_flat::scalar::{AnyPrimitiveScalar, AnyScalar, PrimitiveScalar};
use arrow_memory::bitmap::Bitmap;
use arrow_types::error::Error;
use std::fmt::{Display, Write};

/// Appends a value as it displays itself.
pub fn show<T: Display + Drop>(out: &mut String, value: T) -> Result<(), Fault> {
    Ok(write!(out, "{value}")?)
}

/// Appends the array that a call made, unless it was refused.
pub fn write_made(out: &mut String, outcome: Result<AnyArray, Error>) -> Result<(), Fault> {
    match &outcome {
        Ok(array) => write_array(out, array),
        Err(error) => Err(Fault::Refused(*error)),
    }
}

/// Appends the array that a call made, or the name of its refusal.
pub fn write_made_or_name(out: &mut String, outcome: Result<AnyArray, Error>) -> Result<(), Fault> {
    match &outcome {
        Ok(array) => write_array(out, array),
        Err(error) => write_name(out, *error),
    }
}

/// Appends the name of a refusal.
pub fn write_name(out: &mut String, error: Error) -> Result<(), Fault> {
    Ok(write!(out, "{error:?}")?)
}

/// Appends the truth values that a call made, unless it was refused.
pub fn write_truths(out: &mut String, outcome: Result<BooleanArray, Error>) -> Result<(), Fault> {
    write_made(out, outcome.map(AnyArray::Boolean))
}

/// Appends an array's type and rows.
pub fn write_array(out: &mut String, array: &AnyArray) -> Result<(), Fault> {
    write_type(out, array.data_type())?;
    write_items(out, array, (0, array.len()), DEEPEST)
}

/// Appends arrays with a space between two; `none` where there is none.
pub fn write_arrays(out: &mut String, arrays: &[AnyArray]) -> Result<(), Fault> {
    if arrays.is_empty() {
        return push_text(out, "none");
    }
    for (place, array) in arrays.iter().enumerate() {
        push_text(out, if place > 0 { " " } else { "" })?;
        write_array(out, array)?;
    }
    Ok(())
}

// Appends rows from one on to another, in brackets.
#[cycle(written)]
fn write_items(
    out: &mut String,
    array: &AnyArray,
    span: (usize, usize),
    depth: usize,
) -> Result<(), Fault> {
    let (start, end) = span;
    out.push('[')?;
    for i in start..end {
        push_text(out, if i > start { "," } else { "" })?;
        write_row(out, array, i, 0, depth)?;
    }
    Ok(out.push(']')?)
}

// Appends row `i`, which so many keys of dictionaries name.
#[cycle(written)]
fn write_row(
    out: &mut String,
    array: &AnyArray,
    i: usize,
    keys: usize,
    depth: usize,
) -> Result<(), Fault> {
    if depth == 0 || i >= array.len() {
        return Err(Fault::Usage);
    }
    match array {
        AnyArray::Union(array) => write_variant(out, array, i, depth - 1),
        array if !array.is_valid(i) => write_null(out, keys),
        AnyArray::Struct(array) => write_struct(out, array, i, depth - 1),
        AnyArray::Dictionary(array) => match key_of(array, i) {
            Some(key) => write_row(out, array.values(), key, keys.saturating_add(1), depth - 1),
            None => Err(Fault::Usage),
        },
        array => match items_of(array, i) {
            Some((items, span)) => write_items(out, items, span, depth - 1),
            None => write_flat(out, array, i),
        },
    }
}

// Appends a null, and an ampersand for each key that names it.
fn write_null(out: &mut String, keys: usize) -> Result<(), Fault> {
    for _ in 0..keys {
        out.push('&')?;
    }
    Ok(out.push('_')?)
}

// The key of a row of a dictionary, if there is one.
fn key_of(array: &DictionaryArray, i: usize) -> Option<usize> {
    let keys = array.keys();
    if i < keys.len() { keys.key(i) } else { None }
}

// The items of a row of a list or a map, and where they lie among those of all rows.
fn items_of(array: &AnyArray, i: usize) -> Option<(&AnyArray, (usize, usize))> {
    match array {
        AnyArray::List(array) if i < array.len() => {
            Some((array.values(), array.offsets().start_end(i)))
        }
        AnyArray::Map(array) if i < array.len() => {
            Some((array.field(), array.offsets().start_end(i)))
        }
        AnyArray::FixedSizeList(array) => {
            let start = i.saturating_mul(array.size());
            Some((array.values(), (start, start.saturating_add(array.size()))))
        }
        _ => None,
    }
}

// Appends a row of an array without children, which is not null.
fn write_flat(out: &mut String, array: &AnyArray, i: usize) -> Result<(), Fault> {
    match array {
        AnyArray::Boolean(array) if i < array.len() => write_truth(out, array.value(i)),
        AnyArray::Primitive(array) => write_any_number(out, array, i),
        AnyArray::Utf8(array) if i < array.len() => write_text(out, array.value(i)),
        AnyArray::LargeUtf8(array) if i < array.len() => write_text(out, array.value(i)),
        AnyArray::Binary(array) if i < array.len() => write_bytes(out, array.value(i)),
        AnyArray::LargeBinary(array) if i < array.len() => write_bytes(out, array.value(i)),
        AnyArray::FixedSizeBinary(array) if i < array.len() => write_bytes(out, array.value(i)),
        _ => Err(Fault::Usage),
    }
}

// Appends `t` or `f`.
fn write_truth(out: &mut String, truth: bool) -> Result<(), Fault> {
    Ok(out.push(if truth { 't' } else { 'f' })?)
}

/// What an expression says of the array, whatever its element type.
macro_rules! of_any {
    ($kind:ident, $any:expr, $array:ident => $result:expr) => {
        match $any {
            $kind::Int8($array) => $result,
            $kind::Int16($array) => $result,
            $kind::Int32($array) => $result,
            $kind::Int64($array) => $result,
            $kind::Int128($array) => $result,
            $kind::Int256($array) => $result,
            $kind::UInt8($array) => $result,
            $kind::UInt16($array) => $result,
            $kind::UInt32($array) => $result,
            $kind::UInt64($array) => $result,
            $kind::DaysMs($array) => $result,
            $kind::MonthDayNano($array) => $result,
        }
    };
}

// Appends an element.
fn write_any_number(out: &mut String, array: &AnyPrimitive, i: usize) -> Result<(), Fault> {
    of_any!(AnyPrimitive, array, array => write_number(out, array, i))
}

// The same of one element type.
fn write_number<T: Element>(
    out: &mut String,
    array: &PrimitiveArray<T>,
    i: usize,
) -> Result<(), Fault> {
    if i < array.len() {
        array.value(i).write(out)
    } else {
        Err(Fault::Usage)
    }
}

// Appends a text in quotes, with a backslash before each quote and backslash, and `\n` for a line feed.
fn write_text(out: &mut String, text: &str) -> Result<(), Fault> {
    out.push('"')?;
    for c in text.chars() {
        match c {
            '"' => out.push_str("\\\"")?,
            '\\' => out.push_str("\\\\")?,
            '\n' => out.push_str("\\n")?,
            c => out.push(c)?,
        }
    }
    Ok(out.push('"')?)
}

/// Appends an `x` and two digits to the base of 16 for each byte.
pub fn write_bytes(out: &mut String, bytes: &[u8]) -> Result<(), Fault> {
    out.push('x')?;
    for byte in bytes {
        write!(out, "{byte:02x}")?;
    }
    Ok(())
}

// Appends the row of each field of a struct.
#[cycle(written)]
fn write_struct(
    out: &mut String,
    array: &StructArray,
    i: usize,
    depth: usize,
) -> Result<(), Fault> {
    out.push('(')?;
    for (place, child) in array.values().iter().enumerate() {
        push_text(out, if place > 0 { "," } else { "" })?;
        write_row(out, child, i, 0, depth)?;
    }
    Ok(out.push(')')?)
}

// Appends the type id of a row of a union, and the row of its field.
#[cycle(written)]
fn write_variant(
    out: &mut String,
    array: &UnionArray,
    i: usize,
    depth: usize,
) -> Result<(), Fault> {
    if i >= array.len() {
        return Err(Fault::Usage);
    }
    let (field, place) = array.index(i);
    let id = array.types().as_slice().get(i).copied().unwrap_or(-1);
    push_before(out, id, ":")?;
    match array.fields().get(field) {
        Some(child) => write_row(out, child, place, 0, depth),
        None => Err(Fault::Usage),
    }
}

/// Appends a bitmap.
pub fn write_bits(out: &mut String, bits: &Bitmap) -> Result<(), Fault> {
    out.push_str("bits[")?;
    for i in 0..bits.len() {
        write_truth(out, bits.get_bit(i))?;
    }
    Ok(out.push(']')?)
}

/// Appends a validity, or `none`.
pub fn write_validity(out: &mut String, validity: Option<&Bitmap>) -> Result<(), Fault> {
    match validity {
        Some(bits) => write_bits(out, bits),
        None => Ok(out.push_str("none")?),
    }
}

/// Appends a scalar's type and its row.
pub fn write_scalar(out: &mut String, scalar: &AnyScalar) -> Result<(), Fault> {
    write_type(out, scalar.data_type())?;
    out.push('(')?;
    write_value(out, scalar, 0, DEEPEST)?;
    Ok(out.push(')')?)
}

// Appends the row of a scalar, which so many keys of dictionaries name.
fn write_value(
    out: &mut String,
    scalar: &AnyScalar,
    keys: usize,
    depth: usize,
) -> Result<(), Fault> {
    if depth == 0 {
        return Err(Fault::Usage);
    }
    match scalar {
        scalar if !scalar.is_valid() => write_null(out, keys),
        AnyScalar::Dictionary(scalar) => match scalar.value() {
            Some(value) => write_value(out, value, keys.saturating_add(1), depth - 1),
            None => Err(Fault::Usage),
        },
        scalar => write_flat_value(out, scalar),
    }
}

// Appends the row of a scalar that has no other one inside, which is not null.
fn write_flat_value(out: &mut String, scalar: &AnyScalar) -> Result<(), Fault> {
    match scalar {
        AnyScalar::Boolean(scalar) => write_truth(out, scalar.value() == Some(true)),
        AnyScalar::Primitive(scalar) => {
            of_any!(AnyPrimitiveScalar, scalar, scalar => write_element(out, scalar))
        }
        AnyScalar::Utf8(scalar) => write_text(out, scalar.value().unwrap_or("")),
        AnyScalar::LargeUtf8(scalar) => write_text(out, scalar.value().unwrap_or("")),
        AnyScalar::Binary(scalar) => write_bytes(out, scalar.value().unwrap_or(&[])),
        AnyScalar::LargeBinary(scalar) => write_bytes(out, scalar.value().unwrap_or(&[])),
        AnyScalar::Dictionary(_) => Err(Fault::Usage),
    }
}

// Appends an element.
fn write_element<T: Element>(out: &mut String, scalar: &PrimitiveScalar<T>) -> Result<(), Fault> {
    match scalar.value() {
        Some(value) => value.write(out),
        None => Err(Fault::Usage),
    }
}
