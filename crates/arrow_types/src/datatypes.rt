//! Data types: what the rows of an array mean, and how they lie in memory.

ghost use Rattle.std.specs.Prelude.{◌≡◌, string_bytes};
ghost use Rattle.arrow_types.specs.ArrowType.{field, name_in, type_in, is_nullable_in, logical};
ghost use Rattle.arrow_types.specs.Physical.{physical_type_of};
ghost use Rattle.arrow_types.specs.TypeOf.{type_of, field_of};

mod carried;
mod clone;
mod equal;
mod physical_type;

use crate::types::PrimitiveType;
pub use physical_type::PhysicalType;

/// The unit of a time, a timestamp or a duration.
#[derive(Clone, Copy, Debug, PartialEq, Eq, Hash)]
pub enum TimeUnit {
    Second,
    Millisecond,
    Microsecond,
    Nanosecond,
}

/// What an interval counts: months, days and milliseconds, or months, days and nanoseconds.
#[derive(Clone, Copy, Debug, PartialEq, Eq, Hash)]
pub enum IntervalUnit {
    YearMonth,
    DayTime,
    MonthDayNano,
}

/// Whether a union finds a row by an offset of its own, or at the same place in each child.
#[derive(Clone, Copy, Debug, PartialEq, Eq, Hash)]
pub enum UnionMode {
    Dense,
    Sparse,
}

/// The integer types, which are also those of dictionary keys.
#[derive(Clone, Copy, Debug, PartialEq, Eq, Hash)]
pub enum IntegerType {
    Int8,
    Int16,
    Int32,
    Int64,
    UInt8,
    UInt16,
    UInt32,
    UInt64,
}

/// The logical type of an array's rows, as in Arrow's schema.
///
/// A float can be named, and no array here holds one: see [`DataType::is_carried`].
#[cycle(types)]
#[derive(Debug, Drop)]
pub enum DataType {
    /// Rows that are all null.
    Null,
    Boolean,
    Int8,
    Int16,
    Int32,
    Int64,
    UInt8,
    UInt16,
    UInt32,
    UInt64,
    Float16,
    Float32,
    Float64,
    /// Units since 1970-01-01 00:00:00, in a time zone where one is named.
    Timestamp(TimeUnit, Option<String>),
    /// Days since 1970-01-01.
    Date32,
    /// Milliseconds since 1970-01-01.
    Date64,
    /// Units since midnight, in 32 bits.
    Time32(TimeUnit),
    /// Units since midnight, in 64 bits.
    Time64(TimeUnit),
    Duration(TimeUnit),
    Interval(IntervalUnit),
    /// Bytes, under offsets of 32 bits.
    Binary,
    /// Bytes, so many a row.
    FixedSizeBinary(usize),
    /// Bytes, under offsets of 64 bits.
    LargeBinary,
    /// UTF-8 text, under offsets of 32 bits.
    Utf8,
    /// UTF-8 text, under offsets of 64 bits.
    LargeUtf8,
    /// Lists, under offsets of 32 bits.
    List(Box<Field>),
    /// Lists of so many items each.
    FixedSizeList(Box<Field>, usize),
    /// Lists, under offsets of 64 bits.
    LargeList(Box<Field>),
    /// A value of each field.
    Struct(Vec<Field>),
    /// A value of one field, which a type id names. Where no ids are given they are 0, 1, 2, ..
    Union(Vec<Field>, Option<Vec<i32>>, UnionMode),
    /// Lists of entries, each a key and a value, and whether the keys of a row are sorted.
    Map(Box<Field>, bool),
    /// Keys into a dictionary of values, and whether the values are ordered.
    Dictionary(IntegerType, Box<DataType>, bool),
    /// Decimal numbers of 128 bits: precision and scale.
    Decimal(usize, usize),
    /// Decimal numbers of 256 bits: precision and scale.
    Decimal256(usize, usize),
    /// A type of the user's own: its name, the type that it stands on, and metadata.
    Extension(String, Box<DataType>, Option<String>),
}

/// A named child of a nested type.
#[cycle(types)]
#[derive(Debug)]
pub struct Field {
    name: String,
    data_type: DataType,
    is_nullable: bool,
}

// by hand, so that a drop is a call, and is not written out wherever a value is dropped
impl Drop for Field {
    #[cycle(types)]
    fn drop(self) {
        let Field {
            name: _,
            data_type: _,
            is_nullable: _,
        } = self;
    }
}

impl Field {
    /// A field of this name and data type, and whether its rows may be null. No kernel reads the
    /// last.
    pub fn new(name: String, data_type: DataType, is_nullable: bool) -> Field
        ensures { field_of result ≡ field (string_bytes name) (type_of data_type) is_nullable }
    {
        Field {
            name,
            data_type,
            is_nullable,
        }
    }

    /// The name.
    pub fn name(&self) -> &str
        ensures { result.now ≡ name_in (field_of self.now) }
    {
        self.name.as_str()
    }

    /// The data type of the child.
    pub fn data_type(&self) -> &DataType
        ensures { type_of result.now ≡ type_in (field_of self.now) }
    {
        &self.data_type
    }

    /// Whether the rows may be null.
    pub fn is_nullable(&self) -> bool
        ensures { result ≡ is_nullable_in (field_of self.now) }
    {
        self.is_nullable
    }
}

impl DataType {
    /// How the rows lie in memory: the layout, and the element of a primitive one. An extension lies
    /// as the type that it stands on.
    pub fn to_physical_type(&self) -> PhysicalType
        ensures { result ≡ physical_type_of (type_of self.now) }
    {
        match self {
            DataType::Null => PhysicalType::Null,
            DataType::Boolean => PhysicalType::Boolean,
            DataType::Int8 => PhysicalType::Primitive(PrimitiveType::Int8),
            DataType::Int16 => PhysicalType::Primitive(PrimitiveType::Int16),
            DataType::Int32
            | DataType::Date32
            | DataType::Time32(_)
            | DataType::Interval(IntervalUnit::YearMonth) => {
                PhysicalType::Primitive(PrimitiveType::Int32)
            }
            DataType::Int64
            | DataType::Date64
            | DataType::Timestamp(_, _)
            | DataType::Time64(_)
            | DataType::Duration(_) => PhysicalType::Primitive(PrimitiveType::Int64),
            DataType::UInt8 => PhysicalType::Primitive(PrimitiveType::UInt8),
            DataType::UInt16 => PhysicalType::Primitive(PrimitiveType::UInt16),
            DataType::UInt32 => PhysicalType::Primitive(PrimitiveType::UInt32),
            DataType::UInt64 => PhysicalType::Primitive(PrimitiveType::UInt64),
            DataType::Float16 => PhysicalType::Primitive(PrimitiveType::Float16),
            DataType::Float32 => PhysicalType::Primitive(PrimitiveType::Float32),
            DataType::Float64 => PhysicalType::Primitive(PrimitiveType::Float64),
            DataType::Interval(IntervalUnit::DayTime) => {
                PhysicalType::Primitive(PrimitiveType::DaysMs)
            }
            DataType::Interval(IntervalUnit::MonthDayNano) => {
                PhysicalType::Primitive(PrimitiveType::MonthDayNano)
            }
            DataType::Decimal(_, _) => PhysicalType::Primitive(PrimitiveType::Int128),
            DataType::Decimal256(_, _) => PhysicalType::Primitive(PrimitiveType::Int256),
            DataType::Binary => PhysicalType::Binary,
            DataType::FixedSizeBinary(_) => PhysicalType::FixedSizeBinary,
            DataType::LargeBinary => PhysicalType::LargeBinary,
            DataType::Utf8 => PhysicalType::Utf8,
            DataType::LargeUtf8 => PhysicalType::LargeUtf8,
            DataType::List(_) => PhysicalType::List,
            DataType::FixedSizeList(_, _) => PhysicalType::FixedSizeList,
            DataType::LargeList(_) => PhysicalType::LargeList,
            DataType::Struct(_) => PhysicalType::Struct,
            DataType::Union(_, _, _) => PhysicalType::Union,
            DataType::Map(_, _) => PhysicalType::Map,
            DataType::Dictionary(keys, _, _) => PhysicalType::Dictionary(*keys),
            DataType::Extension(_, inner, _) => inner.to_physical_type(),
        }
    }

    /// The type without the extensions around it. Those of the types inside it stay.
    pub fn to_logical_type(&self) -> &DataType
        ensures { type_of result.now ≡ logical (type_of self.now) }
    {
        match self {
            DataType::Extension(_, inner, _) => inner.to_logical_type(),
            _ => self,
        }
    }
}
