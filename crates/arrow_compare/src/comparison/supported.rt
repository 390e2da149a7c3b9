//! Which data types the comparisons are asked for. Types that lie in memory in the same way have them too, as those with an
//! extension around them and decimals of 256 bits.

ghost use Rattle.std.specs.Prelude.{◌↔◌, IsTrue};
ghost use Rattle.arrow_types.specs.TypeOf.{type_of};
ghost use Rattle.arrow_compare.specs.Can.{CanEqual, CanEqualScalar, CanOrder, CanOrderScalar, IsOrdered, IsOrderedDictionary, IsOrderedThrough, IsUnorderedInterval};

use arrow_types::datatypes::{DataType, IntervalUnit};

/// Whether [`eq`](crate::comparison::eq) can be asked for rows of a data type: those of [`can_lt`], and intervals of days
/// and milliseconds, or of months, days and nanoseconds, also inside extensions. It takes no memory.
///
/// Source: arrow2's `comparison::can_eq`.
pub fn can_eq(data_type: &DataType) -> bool
    ensures { IsTrue result ↔ CanEqual (type_of data_type.now) }
{
    is_ordered(data_type) || is_unordered_interval(data_type)
}

/// Whether [`neq`](crate::comparison::neq) can be asked for rows of a data type: those of [`can_eq`]. It takes no memory.
///
/// Source: arrow2's `comparison::can_neq`.
pub fn can_neq(data_type: &DataType) -> bool
    ensures { IsTrue result ↔ CanEqual (type_of data_type.now) }
{
    can_eq(data_type)
}

/// Whether [`eq_scalar`](crate::comparison::eq_scalar) can be asked for rows of a data type: those of [`can_lt_scalar`], and
/// intervals of days and milliseconds, or of months, days and nanoseconds, also inside extensions, but in no dictionary. It
/// takes no memory.
///
/// Source: arrow2's `comparison::can_eq_scalar`.
pub fn can_eq_scalar(data_type: &DataType) -> bool
    ensures { IsTrue result ↔ CanEqualScalar (type_of data_type.now) }
{
    is_ordered_through(data_type) || is_unordered_interval(data_type)
}

/// Whether [`neq_scalar`](crate::comparison::neq_scalar) can be asked for rows of a data type: those of [`can_eq_scalar`]. It
/// takes no memory.
///
/// Source: arrow2's `comparison::can_neq_scalar`.
pub fn can_neq_scalar(data_type: &DataType) -> bool
    ensures { IsTrue result ↔ CanEqualScalar (type_of data_type.now) }
{
    can_eq_scalar(data_type)
}

/// Whether [`lt`](crate::comparison::lt) can be asked for rows of a data type: truth values, integers, dates, times, intervals of
/// months, decimals of 128 bits, texts and bytes, without an extension around them. It takes no memory.
///
/// Source: arrow2's `comparison::can_lt`.
pub fn can_lt(data_type: &DataType) -> bool
    ensures { IsTrue result ↔ CanOrder (type_of data_type.now) }
{
    is_ordered(data_type)
}

/// Whether [`lt_scalar`](crate::comparison::lt_scalar) can be asked for rows of a data type: those of [`can_lt`], and
/// dictionaries of these, at any depth, also where extensions are around a dictionary. It takes no memory.
///
/// Source: arrow2's `comparison::can_lt_scalar`.
pub fn can_lt_scalar(data_type: &DataType) -> bool
    ensures { IsTrue result ↔ CanOrderScalar (type_of data_type.now) }
{
    is_ordered_through(data_type)
}

/// Whether [`lt_eq`](crate::comparison::lt_eq) can be asked for rows of a data type: those of [`can_lt`]. It takes no memory.
///
/// Source: arrow2's `comparison::can_lt_eq`.
pub fn can_lt_eq(data_type: &DataType) -> bool
    ensures { IsTrue result ↔ CanOrder (type_of data_type.now) }
{
    is_ordered(data_type)
}

/// Whether [`lt_eq_scalar`](crate::comparison::lt_eq_scalar) can be asked for rows of a data type: those of [`can_lt_scalar`]. It
/// takes no memory.
///
/// Source: arrow2's `comparison::can_lt_eq_scalar`.
pub fn can_lt_eq_scalar(data_type: &DataType) -> bool
    ensures { IsTrue result ↔ CanOrderScalar (type_of data_type.now) }
{
    is_ordered_through(data_type)
}

/// Whether [`gt`](crate::comparison::gt) can be asked for rows of a data type: those of [`can_lt`]. It takes no memory.
///
/// Source: arrow2's `comparison::can_gt`.
pub fn can_gt(data_type: &DataType) -> bool
    ensures { IsTrue result ↔ CanOrder (type_of data_type.now) }
{
    is_ordered(data_type)
}

/// Whether [`gt_scalar`](crate::comparison::gt_scalar) can be asked for rows of a data type: those of [`can_lt_scalar`]. It
/// takes no memory.
///
/// Source: arrow2's `comparison::can_gt_scalar`.
pub fn can_gt_scalar(data_type: &DataType) -> bool
    ensures { IsTrue result ↔ CanOrderScalar (type_of data_type.now) }
{
    is_ordered_through(data_type)
}

/// Whether [`gt_eq`](crate::comparison::gt_eq) can be asked for rows of a data type: those of [`can_lt`]. It takes no memory.
///
/// Source: arrow2's `comparison::can_gt_eq`.
pub fn can_gt_eq(data_type: &DataType) -> bool
    ensures { IsTrue result ↔ CanOrder (type_of data_type.now) }
{
    is_ordered(data_type)
}

/// Whether [`gt_eq_scalar`](crate::comparison::gt_eq_scalar) can be asked for rows of a data type: those of [`can_lt_scalar`]. It
/// takes no memory.
///
/// Source: arrow2's `comparison::can_gt_eq_scalar`.
pub fn can_gt_eq_scalar(data_type: &DataType) -> bool
    ensures { IsTrue result ↔ CanOrderScalar (type_of data_type.now) }
{
    is_ordered_through(data_type)
}

// Whether a type is one whose rows the calls of an order are asked for.
fn is_ordered(data_type: &DataType) -> bool
    ensures { IsTrue result ↔ IsOrdered (type_of data_type.now) }
{
    match data_type {
        DataType::Boolean
        | DataType::Int8
        | DataType::Int16
        | DataType::Int32
        | DataType::Int64
        | DataType::UInt8
        | DataType::UInt16
        | DataType::UInt32
        | DataType::UInt64
        | DataType::Date32
        | DataType::Date64
        | DataType::Time32(_)
        | DataType::Time64(_)
        | DataType::Timestamp(_, _)
        | DataType::Duration(_)
        | DataType::Decimal(_, _)
        | DataType::Utf8
        | DataType::LargeUtf8
        | DataType::Binary
        | DataType::LargeBinary => true,
        DataType::Interval(unit) => matches!(unit, IntervalUnit::YearMonth),
        DataType::Null
        | DataType::Float16
        | DataType::Float32
        | DataType::Float64
        | DataType::FixedSizeBinary(_)
        | DataType::Decimal256(_, _)
        | DataType::List(_)
        | DataType::FixedSizeList(_, _)
        | DataType::LargeList(_)
        | DataType::Struct(_)
        | DataType::Union(_, _, _)
        | DataType::Map(_, _)
        | DataType::Dictionary(_, _, _)
        | DataType::Extension(_, _, _) => false,
    }
}

// Whether it is one of these, or a dictionary of one, at any depth.
#[cycle(through)]
fn is_ordered_through(data_type: &DataType) -> bool
    ensures { IsTrue result ↔ IsOrderedThrough (type_of data_type.now) }
{
    match data_type {
        DataType::Dictionary(_, values, _) => is_ordered_through(values),
        DataType::Extension(_, inner, _) => is_ordered_dictionary(inner),
        _ => is_ordered(data_type),
    }
}

// Whether a type inside an extension is a dictionary of one of these, at any depth, extensions around it apart.
#[cycle(through)]
fn is_ordered_dictionary(data_type: &DataType) -> bool
    ensures { IsTrue result ↔ IsOrderedDictionary (type_of data_type.now) }
{
    match data_type {
        DataType::Dictionary(_, values, _) => is_ordered_through(values),
        DataType::Extension(_, inner, _) => is_ordered_dictionary(inner),
        _ => false,
    }
}

// Whether a type is that of intervals that stand in no order, extensions around it apart.
fn is_unordered_interval(data_type: &DataType) -> bool
    ensures { IsTrue result ↔ IsUnorderedInterval (type_of data_type.now) }
{
    match data_type {
        DataType::Interval(unit) => !matches!(unit, IntervalUnit::YearMonth),
        DataType::Extension(_, inner, _) => is_unordered_interval(inner),
        _ => false,
    }
}
