//! How the rows of a data type lie in memory.

use crate::datatypes::IntegerType;
use crate::types::PrimitiveType;

/// The layouts of Arrow's columnar format ("Physical Memory Layout"): which array holds a data type.
#[derive(Clone, Copy, Debug, PartialEq, Eq, Hash)]
pub enum PhysicalType {
    Null,
    Boolean,
    /// One element of a fixed width a row.
    Primitive(PrimitiveType),
    Binary,
    FixedSizeBinary,
    LargeBinary,
    Utf8,
    LargeUtf8,
    List,
    FixedSizeList,
    LargeList,
    Struct,
    Union,
    Map,
    /// Keys of this type into a dictionary.
    Dictionary(IntegerType),
}
