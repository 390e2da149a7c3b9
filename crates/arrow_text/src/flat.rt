//! Arrays without children, by their rows or by their parts.

use crate::bits::letters_between;
use crate::fault::Fault;
use crate::number::{Element, Integer};
use crate::parts::Parts;
use crate::piece::Piece;
use crate::read::{boxed, offsets_of};
use crate::row::{bits_of, push_bytes, push_often, rows_in, validity_of};
use arrow_arrays::array::{AnyArray, AnyOffset, AnyRows};
use arrow_flat::array::{
    AnyElement, Binary, BooleanArray, ByteRows, FixedSizeBinaryArray, FlatArray, NullArray,
    PrimitiveArray, Text,
};
use arrow_memory::bitmap::Bitmap;
use arrow_memory::buffer::Buffer;
use arrow_memory::offset::OffsetsBuffer;
use arrow_types::datatypes::{DataType, PhysicalType};
use arrow_types::types::{PrimitiveType, days_ms, i256, months_days_ns};
use std::alloc::Global;

/// What says an array without children.
#[derive(Clone, Copy)]
pub(crate) enum Source<'b, 'a> {
    /// Its rows, and whether a validity is asked for though no row is null.
    Rows(&'b [Piece<'a>], bool),
    /// Its parts.
    Parts(&'b Parts<'a>),
}

impl Source<'_, '_> {
    /// The validity, if there is one.
    fn validity(self, alloc: Global) -> Result<Option<Bitmap>, Fault> {
        match self {
            Source::Rows(rows, is_marked) => validity_of(alloc, rows, is_marked),
            Source::Parts(parts) => parts.validity(alloc),
        }
    }

    /// How many rows there are, of which nothing is stored.
    fn len(self) -> Result<usize, Fault> {
        match self {
            Source::Rows(rows, _) => count_of_nulls(rows),
            Source::Parts(parts) => parts.part("len")?.integer(),
        }
    }

    /// The truth values.
    fn truths(self, alloc: Global) -> Result<Bitmap, Fault> {
        match self {
            Source::Rows(rows, _) => bits_of(alloc, rows, true),
            Source::Parts(parts) => letters_between(alloc, parts.part("values")?, "", ""),
        }
    }

    /// The elements.
    fn elements<T: Element>(self, alloc: Global) -> Result<Buffer<T>, Fault> {
        match self {
            Source::Rows(rows, _) => elements_of(alloc, rows, true),
            Source::Parts(parts) => {
                let rows = rows_in(alloc, parts.part("values")?)?;
                elements_of(alloc, &rows, false)
            }
        }
    }

    /// The bytes of all rows, and where each row ends.
    fn bytes<O: AnyOffset + Integer>(
        self,
        alloc: Global,
    ) -> Result<(OffsetsBuffer<O>, Buffer<u8>), Fault> {
        match self {
            Source::Rows(rows, _) => bytes_of(alloc, rows),
            Source::Parts(parts) => Ok((parts.offsets(alloc)?, parts.bytes(alloc)?)),
        }
    }

    /// The bytes of all rows, so many each.
    fn bytes_of_size(self, alloc: Global, data_type: &DataType) -> Result<Buffer<u8>, Fault> {
        match (self, data_type.to_logical_type()) {
            (Source::Rows(rows, _), DataType::FixedSizeBinary(size)) => {
                bytes_of_size(alloc, *size, rows)
            }
            (Source::Rows(_, _), _) => Err(Fault::Usage),
            (Source::Parts(parts), _) => parts.bytes(alloc),
        }
    }
}

// An array of a kind that has no children.
pub(crate) fn flat_array(
    alloc: Global,
    data_type: &DataType,
    kind: PhysicalType,
    source: Source<'_, '_>,
) -> Result<Box<AnyArray>, Fault> {
    match kind {
        PhysicalType::Null => nulls(alloc, data_type, source),
        PhysicalType::Boolean => booleans(alloc, data_type, source),
        PhysicalType::Primitive(of) => primitives(alloc, data_type, of, source),
        PhysicalType::Utf8 => byte_rows::<i32, Text>(alloc, data_type, source),
        PhysicalType::LargeUtf8 => byte_rows::<i64, Text>(alloc, data_type, source),
        PhysicalType::Binary => byte_rows::<i32, Binary>(alloc, data_type, source),
        PhysicalType::LargeBinary => byte_rows::<i64, Binary>(alloc, data_type, source),
        PhysicalType::FixedSizeBinary => fixed_bytes(alloc, data_type, source),
        _ => Err(Fault::Usage),
    }
}

// Nulls.
fn nulls(
    alloc: Global,
    data_type: &DataType,
    source: Source<'_, '_>,
) -> Result<Box<AnyArray>, Fault> {
    let len = source.len()?;
    let array = NullArray::try_new(data_type.clone()?, len)?;
    boxed(alloc, AnyArray::Null(array))
}

// How many nulls there are, which nothing is stored beneath.
fn count_of_nulls(rows: &[Piece<'_>]) -> Result<usize, Fault> {
    for row in rows {
        if row.text() != "_" {
            return Err(row.fault());
        }
    }
    Ok(rows.len())
}

// Truth values.
fn booleans(
    alloc: Global,
    data_type: &DataType,
    source: Source<'_, '_>,
) -> Result<Box<AnyArray>, Fault> {
    let values = source.truths(alloc)?;
    let validity = source.validity(alloc)?;
    let array = BooleanArray::try_new(data_type.clone()?, values, validity)?;
    boxed(alloc, AnyArray::Boolean(array))
}

/// A generic call at the element type, which is known when the program runs.
macro_rules! of_element {
    ($of:expr, $read:ident ( $($given:expr),* )) => {
        match $of {
            PrimitiveType::Int8 => $read::<i8>($($given),*),
            PrimitiveType::Int16 => $read::<i16>($($given),*),
            PrimitiveType::Int32 => $read::<i32>($($given),*),
            PrimitiveType::Int64 => $read::<i64>($($given),*),
            PrimitiveType::Int128 => $read::<i128>($($given),*),
            PrimitiveType::Int256 => $read::<i256>($($given),*),
            PrimitiveType::UInt8 => $read::<u8>($($given),*),
            PrimitiveType::UInt16 => $read::<u16>($($given),*),
            PrimitiveType::UInt32 => $read::<u32>($($given),*),
            PrimitiveType::UInt64 => $read::<u64>($($given),*),
            PrimitiveType::DaysMs => $read::<days_ms>($($given),*),
            PrimitiveType::MonthDayNano => $read::<months_days_ns>($($given),*),
            _ => Err(Fault::Usage),
        }
    };
}

// A primitive array.
fn primitives(
    alloc: Global,
    data_type: &DataType,
    of: PrimitiveType,
    source: Source<'_, '_>,
) -> Result<Box<AnyArray>, Fault> {
    of_element!(of, numbers(alloc, data_type, source))
}

// A primitive array of one element type.
fn numbers<T: Element + AnyElement>(
    alloc: Global,
    data_type: &DataType,
    source: Source<'_, '_>,
) -> Result<Box<AnyArray>, Fault> {
    let values = source.elements::<T>(alloc)?;
    let validity = source.validity(alloc)?;
    let array = PrimitiveArray::<T>::try_new(data_type.clone()?, values, validity)?;
    boxed(alloc, AnyArray::Primitive(T::to_any(&array)?))
}

// What is stored in each row, some of which may be null.
fn elements_of<T: Element>(
    alloc: Global,
    rows: &[Piece<'_>],
    has_nulls: bool,
) -> Result<Buffer<T>, Fault> {
    let mut values = Vec::with_capacity(alloc, rows.len())?;
    for row in rows {
        values.push(row.element(has_nulls)?)?;
    }
    Ok(Buffer::from_vec(alloc, values)?)
}

// Texts or bytes.
fn byte_rows<O: AnyOffset + Integer, K: AnyRows>(
    alloc: Global,
    data_type: &DataType,
    source: Source<'_, '_>,
) -> Result<Box<AnyArray>, Fault> {
    let (offsets, bytes) = source.bytes::<O>(alloc)?;
    let validity = source.validity(alloc)?;
    let data_type = data_type.clone()?;
    let array = FlatArray::<ByteRows<O, K>>::try_new(data_type, offsets, bytes, validity)?;
    boxed(alloc, K::to_any(&array)?)
}

// The bytes of all rows, and where each row ends: none where nothing is stored.
fn bytes_of<O: AnyOffset>(
    alloc: Global,
    rows: &[Piece<'_>],
) -> Result<(OffsetsBuffer<O>, Buffer<u8>), Fault> {
    let (bytes, lengths) = bytes_in(alloc, rows, None)?;
    let bytes = Buffer::from_vec(alloc, bytes)?;
    Ok((offsets_of(alloc, &lengths)?, bytes))
}

// The bytes of all rows, and how many each row has: so many, if that is said.
fn bytes_in(
    alloc: Global,
    rows: &[Piece<'_>],
    size: Option<usize>,
) -> Result<(Vec<u8>, Vec<usize>), Fault> {
    let (mut bytes, mut lengths) = (Vec::new(alloc), Vec::new(alloc));
    for row in rows {
        lengths.push(push_stored(&mut bytes, *row, size)?)?;
    }
    Ok((bytes, lengths))
}

// Appends the bytes of a row, and answers how many these are: so many, if that is said, which are zeros where nothing
// is stored.
fn push_stored(bytes: &mut Vec<u8>, row: Piece<'_>, size: Option<usize>) -> Result<usize, Fault> {
    let start = bytes.len();
    match row.stored() {
        Some(stored) => push_bytes(bytes, stored),
        None => push_often(bytes, 0, size.unwrap_or(0)),
    }?;
    let count = bytes.len().saturating_sub(start);
    match size {
        Some(size) if size != count => Err(row.fault()),
        _ => Ok(count),
    }
}

// Rows of so many bytes each.
fn fixed_bytes(
    alloc: Global,
    data_type: &DataType,
    source: Source<'_, '_>,
) -> Result<Box<AnyArray>, Fault> {
    let bytes = source.bytes_of_size(alloc, data_type)?;
    let validity = source.validity(alloc)?;
    let array = FixedSizeBinaryArray::try_new(data_type.clone()?, bytes, validity)?;
    boxed(alloc, AnyArray::FixedSizeBinary(array))
}

// The bytes of all rows, so many each: zeros where nothing is stored.
fn bytes_of_size(alloc: Global, size: usize, rows: &[Piece<'_>]) -> Result<Buffer<u8>, Fault> {
    let (bytes, _lengths) = bytes_in(alloc, rows, Some(size))?;
    Ok(Buffer::from_vec(alloc, bytes)?)
}
