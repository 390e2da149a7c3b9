//! Arrays by their parts, as they are: `list<i32>{offsets=0,2;values=i32[1,2];validity=t}`.

use crate::bits::letters_between;
use crate::fault::Fault;
use crate::flat::{Source, flat_array};
use crate::number::Integer;
use crate::piece::Piece;
use crate::read::{
    dictionary_array, fixed_list_array, list_array, nested_array, push_child, struct_array,
    union_array,
};
use crate::row::{read_bytes, rows_in};
use crate::types::find;
use arrow_arrays::array::{AnyArray, AnyOffsetsBuffer};
use arrow_memory::bitmap::Bitmap;
use arrow_memory::buffer::Buffer;
use arrow_memory::offset::OffsetsBuffer;
use arrow_types::datatypes::{DataType, IntegerType, PhysicalType};
use arrow_types::types::{Offset, PrimitiveType};
use std::alloc::Global;

/// The constructors of arrays by their words; that of dictionaries looks at no width of keys.
const KINDS: [(&str, PhysicalType); 26] = [
    ("null", PhysicalType::Null),
    ("bool", PhysicalType::Boolean),
    ("i8", PhysicalType::Primitive(PrimitiveType::Int8)),
    ("i16", PhysicalType::Primitive(PrimitiveType::Int16)),
    ("i32", PhysicalType::Primitive(PrimitiveType::Int32)),
    ("i64", PhysicalType::Primitive(PrimitiveType::Int64)),
    ("i128", PhysicalType::Primitive(PrimitiveType::Int128)),
    ("i256", PhysicalType::Primitive(PrimitiveType::Int256)),
    ("u8", PhysicalType::Primitive(PrimitiveType::UInt8)),
    ("u16", PhysicalType::Primitive(PrimitiveType::UInt16)),
    ("u32", PhysicalType::Primitive(PrimitiveType::UInt32)),
    ("u64", PhysicalType::Primitive(PrimitiveType::UInt64)),
    ("days_ms", PhysicalType::Primitive(PrimitiveType::DaysMs)),
    (
        "months_days_ns",
        PhysicalType::Primitive(PrimitiveType::MonthDayNano),
    ),
    ("utf8", PhysicalType::Utf8),
    ("large_utf8", PhysicalType::LargeUtf8),
    ("binary", PhysicalType::Binary),
    ("large_binary", PhysicalType::LargeBinary),
    ("fsb", PhysicalType::FixedSizeBinary),
    ("list", PhysicalType::List),
    ("large_list", PhysicalType::LargeList),
    ("fsl", PhysicalType::FixedSizeList),
    ("map", PhysicalType::Map),
    ("struct", PhysicalType::Struct),
    ("union", PhysicalType::Union),
    ("dict", PhysicalType::Dictionary(IntegerType::Int8)),
];

/// Parts by their names.
pub(crate) struct Parts<'a> {
    whole: Piece<'a>,
    parts: Vec<(&'a str, Piece<'a>)>,
}

impl Drop for Parts<'_> {
    fn drop(self) {
        let Parts { whole: _, parts: _ } = self;
    }
}

impl<'a> Parts<'a> {
    /// Reads `name=text`, parted by semicolons.
    pub(crate) fn read(alloc: Global, whole: Piece<'a>) -> Result<Parts<'a>, Fault> {
        let items = whole.items(alloc, ';')?;
        let mut parts = Vec::new(alloc);
        for part in &items {
            parts.push(named(*part)?)?;
        }
        Ok(Parts { whole, parts })
    }

    /// The part of a name, if there is one.
    pub(crate) fn get(&self, name: &str) -> Option<Piece<'a>> {
        find(self.parts.as_slice(), name).copied()
    }

    /// The part of a name.
    pub(crate) fn part(&self, name: &str) -> Result<Piece<'a>, Fault> {
        self.get(name).ok_or(self.whole.fault())
    }

    /// The validity, if there is one.
    pub(crate) fn validity(&self, alloc: Global) -> Result<Option<Bitmap>, Fault> {
        match self.get("validity") {
            Some(letters) => letters_between(alloc, letters, "", "").map(Some),
            None => Ok(None),
        }
    }

    /// The offsets.
    pub(crate) fn offsets<O: Offset + Integer>(
        &self,
        alloc: Global,
    ) -> Result<OffsetsBuffer<O>, Fault> {
        let offsets = read_offsets(alloc, self.part("offsets")?)?;
        Ok(OffsetsBuffer::try_from(alloc, offsets)?)
    }

    /// The bytes of rows.
    pub(crate) fn bytes(&self, alloc: Global) -> Result<Buffer<u8>, Fault> {
        let bytes = read_bytes(alloc, self.part("values")?)?;
        Ok(Buffer::from_vec(alloc, bytes)?)
    }
}

// A part's name, and the part.
fn named<'a>(piece: Piece<'a>) -> Result<(&'a str, Piece<'a>), Fault> {
    match piece.parted('=') {
        Some((name, part)) => Ok((name.text(), part)),
        None => Err(piece.fault()),
    }
}

/// Numbers parted by commas, as offsets and type ids are.
pub fn read_offsets<O: Integer>(alloc: Global, piece: Piece<'_>) -> Result<Vec<O>, Fault> {
    let rows = rows_in(alloc, piece)?;
    let mut offsets = Vec::new(alloc);
    for number in &rows {
        offsets.push(number.integer()?)?;
    }
    Ok(offsets)
}

// The array that a constructor makes of these parts: that of the data type, or one that is named.
#[cycle(parts)]
pub(crate) fn array_of_parts(
    alloc: Global,
    data_type: &DataType,
    text: Piece<'_>,
    depth: usize,
) -> Result<Box<AnyArray>, Fault> {
    let parts = Parts::read(alloc, text)?;
    match kind_in(data_type, &parts)? {
        PhysicalType::List => list_of(alloc, data_type, PhysicalType::List, &parts, depth),
        PhysicalType::LargeList => list_of(
            alloc,
            data_type,
            PhysicalType::LargeList,
            &parts,
            depth,
        ),
        PhysicalType::Map => list_of(alloc, data_type, PhysicalType::Map, &parts, depth),
        PhysicalType::FixedSizeList => fixed_list_of(alloc, data_type, &parts, depth),
        PhysicalType::Struct => struct_of(alloc, data_type, &parts, depth),
        PhysicalType::Union => union_of(alloc, data_type, &parts, depth),
        PhysicalType::Dictionary(_) => dictionary_of(alloc, data_type, &parts, depth),
        kind => flat_array(alloc, data_type, kind, Source::Parts(&parts)),
    }
}

// The kind of arrays whose constructor is called.
fn kind_in(data_type: &DataType, parts: &Parts<'_>) -> Result<PhysicalType, Fault> {
    match parts.get("kind") {
        Some(word) => kind_of(word),
        None => Ok(data_type.to_physical_type()),
    }
}

// The kind of arrays that a word names.
pub(crate) fn kind_of(word: Piece<'_>) -> Result<PhysicalType, Fault> {
    find(&KINDS, word.text()).copied().ok_or(word.fault())
}

// The child.
#[cycle(parts)]
fn child_of(alloc: Global, parts: &Parts<'_>, depth: usize) -> Result<Box<AnyArray>, Fault> {
    nested_array(alloc, parts.part("values")?, depth)
}

// The children, parted by bars.
#[cycle(parts)]
fn children_of(alloc: Global, parts: &Parts<'_>, depth: usize) -> Result<Vec<AnyArray>, Fault> {
    let items = parts.part("values")?.items(alloc, '|')?;
    let mut children = Vec::new(alloc);
    for item in &items {
        push_child(&mut children, nested_array(alloc, *item, depth)?)?;
    }
    Ok(children)
}

// Lists or maps.
#[cycle(parts)]
fn list_of(
    alloc: Global,
    data_type: &DataType,
    kind: PhysicalType,
    parts: &Parts<'_>,
    depth: usize,
) -> Result<Box<AnyArray>, Fault> {
    let offsets = any_offsets(alloc, kind, parts)?;
    let values = child_of(alloc, parts, depth)?;
    list_array(
        alloc,
        data_type,
        kind,
        offsets,
        values,
        parts.validity(alloc)?,
    )
}

// The offsets of lists or maps: of 64 bits where the lists are large.
fn any_offsets(
    alloc: Global,
    kind: PhysicalType,
    parts: &Parts<'_>,
) -> Result<AnyOffsetsBuffer, Fault> {
    match kind {
        PhysicalType::LargeList => parts.offsets(alloc).map(AnyOffsetsBuffer::Large),
        _ => parts.offsets(alloc).map(AnyOffsetsBuffer::Small),
    }
}

// Lists of a fixed size.
#[cycle(parts)]
fn fixed_list_of(
    alloc: Global,
    data_type: &DataType,
    parts: &Parts<'_>,
    depth: usize,
) -> Result<Box<AnyArray>, Fault> {
    let values = child_of(alloc, parts, depth)?;
    fixed_list_array(alloc, data_type, values, parts.validity(alloc)?)
}

// Structs.
#[cycle(parts)]
fn struct_of(
    alloc: Global,
    data_type: &DataType,
    parts: &Parts<'_>,
    depth: usize,
) -> Result<Box<AnyArray>, Fault> {
    let children = children_of(alloc, parts, depth)?;
    struct_array(alloc, data_type, children, parts.validity(alloc)?)
}

// Unions: with offsets where these are given.
#[cycle(parts)]
fn union_of(
    alloc: Global,
    data_type: &DataType,
    parts: &Parts<'_>,
    depth: usize,
) -> Result<Box<AnyArray>, Fault> {
    let types = buffer_of(alloc, parts.part("types")?)?;
    let offsets = optional_buffer_of(alloc, parts.get("offsets"))?;
    let children = children_of(alloc, parts, depth)?;
    union_array(alloc, data_type, types, children, offsets)
}

// A buffer of numbers.
fn buffer_of<T: Integer>(alloc: Global, piece: Piece<'_>) -> Result<Buffer<T>, Fault> {
    Ok(Buffer::from_vec(alloc, read_offsets(alloc, piece)?)?)
}

// A buffer of numbers, where they are given.
fn optional_buffer_of<T: Integer>(
    alloc: Global,
    piece: Option<Piece<'_>>,
) -> Result<Option<Buffer<T>>, Fault> {
    match piece {
        Some(piece) => buffer_of(alloc, piece).map(Some),
        None => Ok(None),
    }
}

// Dictionaries.
#[cycle(parts)]
fn dictionary_of(
    alloc: Global,
    data_type: &DataType,
    parts: &Parts<'_>,
    depth: usize,
) -> Result<Box<AnyArray>, Fault> {
    let keys = nested_array(alloc, parts.part("keys")?, depth)?;
    dictionary_array(alloc, data_type, &keys, child_of(alloc, parts, depth)?)
}
