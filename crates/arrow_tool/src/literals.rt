//! Arrays and numbers as lines write them: `i32[..]`, `bool[..]`, `utf8[..]` and `-7`.

ghost use Rattle.std.specs.Prelude.{◌≡◌, ◌<◌, length};
ghost use Rattle.arrow_arrays.specs.Any.{any_array_type, layout_of};
ghost use Rattle.arrow_arrays.specs.Layout.{rows, type_of_layout};
ghost use Rattle.arrow_tool.specs.Written.{IsWritten};

use crate::text::split_outside_quotes;
use arrow_arrays::array::AnyArray;
use arrow_flat::array::{AnyPrimitive, BooleanArray, PrimitiveArray, Utf8Array};
use arrow_memory::bitmap::Bitmap;
use arrow_memory::buffer::Buffer;
use arrow_memory::offset::Offsets;
use arrow_types::datatypes::DataType;
use arrow_types::error::Error;
use std::alloc::{AllocError, Global};
use std::fmt;
use std::marker::Model;

/// An array of a type that a line can write: Int32, Boolean or Utf8.
pub(crate) struct WrittenArray {
    array: AnyArray,
}

// by hand, so that a drop is a call, and is not written out wherever a value is dropped
impl Drop for WrittenArray {
    fn drop(self) {
        let WrittenArray { array: _ } = self;
    }
}

impl Model for WrittenArray {
    ghost use Rattle.arrow_arrays.specs.Any.{layout_of};
    ghost use Rattle.arrow_arrays.specs.Layout.{Layout, type_of_layout};
    ghost use Rattle.arrow_arrays.specs.StoredLayout.{layout_code};
    ghost use Rattle.arrow_tool.specs.Written.{IsWritten};

    ghost Value = { Layout };

    ghost coded = { layout_code };

    ghost view = { λ a. layout_of a.array };

    ghost invariant = { λ a. IsWritten (type_of_layout (layout_of a.array)) };
}

impl WrittenArray {
    /// The array, which is of such a type.
    pub(crate) fn new(array: AnyArray) -> WrittenArray
        requires { IsWritten (any_array_type array) }
        ensures { result ≡ layout_of array }
    {
        WrittenArray { array }
    }

    /// The array, and that it is of such a type.
    pub(crate) fn as_array(&self) -> &AnyArray
        ensures same { layout_of result.now ≡ self.now }
        ensures written { IsWritten (type_of_layout self.now) }
    {
        &self.array
    }
}

/// Why a line was not read.
#[derive(Debug, Clone, Copy, PartialEq, Eq, thiserror::Error)]
pub(crate) enum ReadError {
    /// It has not the form of a line.
    #[error("not a line")]
    Syntax,
    /// No array has the parts that were read.
    #[error("not an array")]
    Refused(Error),
    #[error("out of memory")]
    OutOfMemory(#[from(alloc)] AllocError),
}

impl From<Error> for ReadError {
    fn from(error: Error) -> ReadError {
        match error {
            Error::OutOfMemory => ReadError::OutOfMemory(AllocError),
            error => ReadError::Refused(error),
        }
    }
}

/// An argument, as it stands on the line.
#[derive(Drop)]
pub(crate) enum Literal<'a> {
    Array(WrittenArray),
    /// A number, of any size: the command that takes it knows its range.
    Number(&'a str),
}

impl Literal<'_> {
    /// Reads an array or a number.
    pub(crate) fn read<'a>(alloc: Global, word: &'a str) -> Result<Literal<'a>, ReadError> {
        if let Some(elements) = elements_of(word, "i32[") {
            return Ok(Literal::Array(read_numbers(alloc, elements)?));
        }
        if let Some(elements) = elements_of(word, "bool[") {
            return Ok(Literal::Array(read_truths(alloc, elements)?));
        }
        if let Some(elements) = elements_of(word, "utf8[") {
            return Ok(Literal::Array(read_texts(alloc, elements)?));
        }
        if is_number(word) {
            return Ok(Literal::Number(word));
        }
        Err(ReadError::Syntax)
    }
}

// Whether this is an optional minus sign and digits.
fn is_number(word: &str) -> bool {
    let digits = word.strip_prefix('-').unwrap_or(word);
    !digits.is_empty() && digits.bytes().all(|byte| byte.is_ascii_digit())
}

// What stands between an array's opening and its closing bracket.
fn elements_of<'a>(word: &'a str, opening: &str) -> Option<&'a str> {
    word.strip_prefix(opening)?.strip_suffix(']')
}

/// An element of an array of a fixed width.
trait Element: Copy + Default {
    /// The element, if the text has the form of one.
    fn read(text: &str) -> Option<Self>;
}

impl Element for i32 {
    fn read(text: &str) -> Option<i32> {
        if text.starts_with('+') {
            return None;
        }
        text.parse().ok()
    }
}

impl Element for bool {
    fn read(text: &str) -> Option<bool> {
        match text {
            "t" => Some(true),
            "f" => Some(false),
            _ => None,
        }
    }
}

// An array of Int32.
fn read_numbers(alloc: Global, elements: &str) -> Result<WrittenArray, ReadError> {
    let (values, validity) = read_elements(alloc, elements)?;
    let values = Buffer::from_vec(alloc, values)?;
    let array = PrimitiveArray::<i32>::try_new(DataType::Int32, values, validity)?;
    Ok(WrittenArray::new(AnyArray::Primitive(AnyPrimitive::Int32(array))))
}

// An array of Boolean.
fn read_truths(alloc: Global, elements: &str) -> Result<WrittenArray, ReadError> {
    let (values, validity) = read_elements(alloc, elements)?;
    let values = Bitmap::from_bools(alloc, &values)?;
    let array = BooleanArray::try_new(DataType::Boolean, values, validity)?;
    Ok(WrittenArray::new(AnyArray::Boolean(array)))
}

// Elements parted by commas: their values, and a validity where one of them is null.
fn read_elements<T: Element>(
    alloc: Global,
    elements: &str,
) -> Result<(Vec<T>, Option<Bitmap>), ReadError> {
    let mut values = Vec::new(alloc);
    let mut validity = Vec::new(alloc);
    if elements.is_empty() {
        return Ok((values, None));
    }
    for element in elements.split(',') {
        let (value, is_valid) = read_element(element).ok_or(ReadError::Syntax)?;
        values.push(value)?;
        validity.push(is_valid)?;
    }
    Ok((values, validity_of(alloc, &validity)?))
}

// An element's value, and whether it is valid. A null may name the value beneath it.
fn read_element<T: Element>(element: &str) -> Option<(T, bool)> {
    match element.strip_prefix('_') {
        None => Some((T::read(element)?, true)),
        Some("") => Some((T::default(), false)),
        Some(beneath) => Some((T::read(beneath)?, false)),
    }
}

// A bitmap of these bits, where one of them is not set.
fn validity_of(alloc: Global, bits: &[bool]) -> Result<Option<Bitmap>, ReadError> {
    if !bits.contains(&false) {
        return Ok(None);
    }
    Ok(Some(Bitmap::from_bools(alloc, bits)?))
}

// An array of Utf8: its texts stand in quotes, and a null names none beneath it.
fn read_texts(alloc: Global, elements: &str) -> Result<WrittenArray, ReadError> {
    let mut offsets = Offsets::<i32>::with_capacity(alloc, 0)?;
    let mut texts = String::new(alloc);
    let mut validity = Vec::new(alloc);
    push_texts(alloc, elements, &mut offsets, &mut texts, &mut validity)?;
    written_texts(alloc, offsets, texts, &validity)
}

// Appends texts, as offsets, bytes and bits of a validity.
fn push_texts(
    alloc: Global,
    elements: &str,
    offsets: &mut Offsets<i32>,
    texts: &mut String,
    validity: &mut Vec<bool>,
) -> Result<(), ReadError> {
    if elements.is_empty() {
        return Ok(());
    }
    for element in &split_outside_quotes(alloc, elements, ',')? {
        let start = texts.len();
        if *element != "_" {
            push_text(texts, element)?;
        }
        offsets.try_push_usize(texts.len().saturating_sub(start))?;
        validity.push(*element != "_")?;
    }
    Ok(())
}

// An array of texts.
fn written_texts(
    alloc: Global,
    offsets: Offsets<i32>,
    texts: String,
    validity: &[bool],
) -> Result<WrittenArray, ReadError> {
    let values = Buffer::from_vec(alloc, texts.into_bytes())?;
    let validity = validity_of(alloc, validity)?;
    let offsets = offsets.into_buffer()?;
    let array = Utf8Array::<i32>::try_new(DataType::Utf8, offsets, values, validity)?;
    Ok(WrittenArray::new(AnyArray::Utf8(array)))
}

// Appends the text that an element in quotes stands for.
fn push_text(texts: &mut String, element: &str) -> Result<(), ReadError> {
    let quoted = element
        .strip_prefix('"')
        .and_then(|rest| rest.strip_suffix('"'))
        .ok_or(ReadError::Syntax)?;
    let mut is_escaped = false;
    for c in quoted.chars() {
        match c {
            '\\' if !is_escaped => {
                is_escaped = true;
                continue;
            }
            'n' if is_escaped => texts.push('\n')?,
            '"' | '\\' if is_escaped => texts.push(c)?,
            '"' => return Err(ReadError::Syntax),
            _ if is_escaped => return Err(ReadError::Syntax),
            _ => texts.push(c)?,
        }
        is_escaped = false;
    }
    if is_escaped {
        return Err(ReadError::Syntax);
    }
    Ok(())
}

/// A row, as a line writes it.
#[derive(Clone, Copy)]
enum Row<'a> {
    Null,
    Number(i32),
    Truth(bool),
    Text(&'a str),
}

impl WrittenArray {
    /// The name of its type.
    fn name(&self) -> &'static str {
        match self.as_array().data_type() {
            DataType::Int32 => "i32",
            DataType::Boolean => "bool",
            DataType::Utf8 => "utf8",
            _ => unreachable!(),
        }
    }

    /// Row `i`.
    fn row(&self, i: usize) -> Row<'_>
        requires { i < length (rows self.now) }
    {
        match self.as_array() {
            AnyArray::Primitive(AnyPrimitive::Int32(array)) if array.is_valid(i) => {
                Row::Number(array.value(i))
            }
            AnyArray::Boolean(array) if array.is_valid(i) => Row::Truth(array.value(i)),
            AnyArray::Utf8(array) if array.is_valid(i) => Row::Text(array.value(i)),
            _ => Row::Null,
        }
    }
}

/// Prints an array as it is read, with `_` for each null.
impl fmt::Display for WrittenArray {
    fn fmt<W: fmt::Write>(&self, f: &mut fmt::Formatter<W>) -> fmt::Result {
        write!(f, "{}[", self.name())?;
        for i in 0..self.as_array().len() {
            if i > 0 {
                f.write_str(",")?;
            }
            write!(f, "{}", self.row(i))?;
        }
        f.write_str("]")
    }
}

impl fmt::Display for Row<'_> {
    fn fmt<W: fmt::Write>(&self, f: &mut fmt::Formatter<W>) -> fmt::Result {
        match self {
            Row::Null => f.write_str("_"),
            Row::Number(number) => write!(f, "{number}"),
            Row::Truth(truth) => f.write_str(if *truth { "t" } else { "f" }),
            Row::Text(text) => write_text(f, text),
        }
    }
}

// Prints a text in quotes, with a backslash before each quote and backslash, and `\n` for a line feed.
fn write_text<W: fmt::Write>(f: &mut fmt::Formatter<W>, text: &str) -> fmt::Result {
    f.write_str("\"")?;
    for c in text.chars() {
        match c {
            '"' => f.write_str("\\\"")?,
            '\\' => f.write_str("\\\\")?,
            '\n' => f.write_str("\\n")?,
            c => f.write_char(c)?,
        }
    }
    f.write_str("\"")
}
