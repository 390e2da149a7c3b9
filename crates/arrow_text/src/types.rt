//! Data types as text, as `list<struct<a:i8,b:utf8!>>`.

use crate::fault::Fault;
use crate::piece::Piece;
use arrow_types::datatypes::{DataType, Field, IntegerType, IntervalUnit, TimeUnit, UnionMode};
use std::alloc::Global;
use std::fmt::Display;

/// How deep types and arrays may nest in a line.
pub const DEEPEST: usize = 64;

/// The name of a field that has none in the text.
const ITEM: &str = "item";

/// The data type that a text says.
pub fn read_type(alloc: Global, piece: Piece<'_>) -> Result<DataType, Fault> {
    type_of(alloc, piece, DEEPEST)
}

// The same in a box.
pub(crate) fn boxed_type(alloc: Global, piece: Piece<'_>) -> Result<Box<DataType>, Fault> {
    Ok(Box::new(alloc, read_type(alloc, piece)?)?)
}

/// What stands beside a word in a table.
pub fn find<'a, T>(table: &'a [(&str, T)], word: &str) -> Option<&'a T> {
    for (name, found) in table {
        if *name == word {
            return Some(found);
        }
    }
    None
}

// The type that a word says alone.
fn flat_type(word: &str) -> Option<DataType> {
    match word {
        "null" => Some(DataType::Null),
        "bool" => Some(DataType::Boolean),
        "i8" => Some(DataType::Int8),
        "i16" => Some(DataType::Int16),
        "i32" => Some(DataType::Int32),
        "i64" => Some(DataType::Int64),
        "u8" => Some(DataType::UInt8),
        "u16" => Some(DataType::UInt16),
        "u32" => Some(DataType::UInt32),
        "u64" => Some(DataType::UInt64),
        "f16" => Some(DataType::Float16),
        "f32" => Some(DataType::Float32),
        "f64" => Some(DataType::Float64),
        "date32" => Some(DataType::Date32),
        "date64" => Some(DataType::Date64),
        "utf8" => Some(DataType::Utf8),
        "large_utf8" => Some(DataType::LargeUtf8),
        "binary" => Some(DataType::Binary),
        "large_binary" => Some(DataType::LargeBinary),
        _ => None,
    }
}

// The word of a type, with the bracket behind it where it has parts.
fn word(data_type: &DataType) -> &'static str {
    match data_type {
        DataType::Null => "null",
        DataType::Boolean => "bool",
        DataType::Int8 => "i8",
        DataType::Int16 => "i16",
        DataType::Int32 => "i32",
        DataType::Int64 => "i64",
        DataType::UInt8 => "u8",
        DataType::UInt16 => "u16",
        DataType::UInt32 => "u32",
        DataType::UInt64 => "u64",
        DataType::Float16 => "f16",
        DataType::Float32 => "f32",
        DataType::Float64 => "f64",
        DataType::Date32 => "date32",
        DataType::Date64 => "date64",
        DataType::Utf8 => "utf8",
        DataType::LargeUtf8 => "large_utf8",
        DataType::Binary => "binary",
        DataType::LargeBinary => "large_binary",
        DataType::Struct(_) => "struct<",
        DataType::Union(_, _, UnionMode::Sparse) => "union_sparse<",
        DataType::Union(_, _, UnionMode::Dense) => "union_dense<",
        DataType::List(_) => "list<",
        DataType::LargeList(_) => "large_list<",
        DataType::Map(_, false) => "map<",
        DataType::Map(_, true) => "sorted_map<",
        DataType::FixedSizeList(_, _) => "fsl<",
        DataType::Dictionary(_, _, false) => "dict<",
        DataType::Dictionary(_, _, true) => "ordered_dict<",
        DataType::Extension(_, _, _) => "ext<",
        DataType::Time32(_) => "time32<",
        DataType::Time64(_) => "time64<",
        DataType::Duration(_) => "duration<",
        DataType::Timestamp(_, _) => "timestamp<",
        DataType::Interval(_) => "interval<",
        DataType::FixedSizeBinary(_) => "fsb<",
        DataType::Decimal(_, _) => "decimal<",
        DataType::Decimal256(_, _) => "decimal256<",
    }
}

/// The types of a dictionary's keys.
pub(crate) const KEYS: [(&str, IntegerType); 8] = [
    ("i8", IntegerType::Int8),
    ("i16", IntegerType::Int16),
    ("i32", IntegerType::Int32),
    ("i64", IntegerType::Int64),
    ("u8", IntegerType::UInt8),
    ("u16", IntegerType::UInt16),
    ("u32", IntegerType::UInt32),
    ("u64", IntegerType::UInt64),
];

/// The units of time.
const UNITS: [(&str, TimeUnit); 4] = [
    ("s", TimeUnit::Second),
    ("ms", TimeUnit::Millisecond),
    ("us", TimeUnit::Microsecond),
    ("ns", TimeUnit::Nanosecond),
];

/// What intervals count.
const INTERVALS: [(&str, IntervalUnit); 3] = [
    ("year_month", IntervalUnit::YearMonth),
    ("day_time", IntervalUnit::DayTime),
    ("month_day_nano", IntervalUnit::MonthDayNano),
];

/// What the word before an angle bracket makes of the parts that stand in it.
#[derive(Clone, Copy)]
enum Form {
    Struct,
    Union(UnionMode),
    List(Lists),
    FixedSizeList,
    Dictionary(bool),
    Extension,
    Time(Times),
    Interval,
    FixedSizeBinary,
    Decimal(Bits),
}

/// The types of lists of any number of items.
#[derive(Clone, Copy)]
enum Lists {
    List,
    LargeList,
    Map,
    SortedMap,
}

/// The types that have a unit of time.
#[derive(Clone, Copy)]
enum Times {
    Time32,
    Time64,
    Duration,
    Timestamp,
}

/// How many bits a decimal has.
#[derive(Clone, Copy)]
enum Bits {
    Of128,
    Of256,
}

/// The forms by their words.
const FORMS: [(&str, Form); 19] = [
    ("struct", Form::Struct),
    ("union_sparse", Form::Union(UnionMode::Sparse)),
    ("union_dense", Form::Union(UnionMode::Dense)),
    ("list", Form::List(Lists::List)),
    ("large_list", Form::List(Lists::LargeList)),
    ("map", Form::List(Lists::Map)),
    ("sorted_map", Form::List(Lists::SortedMap)),
    ("fsl", Form::FixedSizeList),
    ("dict", Form::Dictionary(false)),
    ("ordered_dict", Form::Dictionary(true)),
    ("ext", Form::Extension),
    ("time32", Form::Time(Times::Time32)),
    ("time64", Form::Time(Times::Time64)),
    ("duration", Form::Time(Times::Duration)),
    ("timestamp", Form::Time(Times::Timestamp)),
    ("interval", Form::Interval),
    ("fsb", Form::FixedSizeBinary),
    ("decimal", Form::Decimal(Bits::Of128)),
    ("decimal256", Form::Decimal(Bits::Of256)),
];

// The type that a text says, nested at most so deep.
#[cycle(read_type)]
fn type_of(alloc: Global, piece: Piece<'_>, depth: usize) -> Result<DataType, Fault> {
    if depth == 0 {
        return Err(piece.fault());
    }
    match piece.headed('<', ">") {
        Some((word, inner)) => {
            let parts = inner.items(alloc, ',')?;
            type_of_parts(alloc, word, &parts, depth - 1)
        }
        None => flat_type(piece.text()).ok_or(piece.fault()),
    }
}

// The type that a word makes of parts.
#[cycle(read_type)]
fn type_of_parts(
    alloc: Global,
    word: Piece<'_>,
    parts: &[Piece<'_>],
    depth: usize,
) -> Result<DataType, Fault> {
    let form = *find(&FORMS, word.text()).ok_or(word.fault())?;
    match (form, parts) {
        (Form::Struct, parts) => Ok(DataType::Struct(fields_of(alloc, parts, false, depth)?)),
        (Form::Union(mode), parts) => union_of(alloc, parts, mode, depth),
        (Form::List(of), [item]) => list_of(alloc, of, *item, depth),
        (Form::FixedSizeList, [size, item]) => fixed_list_of(alloc, *size, *item, depth),
        (Form::Dictionary(is_ordered), [keys, values]) => {
            dictionary_of(alloc, *keys, *values, is_ordered, depth)
        }
        (Form::Extension, [name, inner]) => extension_of(alloc, *name, None, *inner, depth),
        (Form::Extension, [name, metadata, inner]) => {
            extension_of(alloc, *name, Some(*metadata), *inner, depth)
        }
        (form, parts) => measured(alloc, form, word, parts),
    }
}

// A field: a type that may stand behind a name, and before an exclamation mark where no row is null.
#[cycle(read_type)]
fn field_of(alloc: Global, piece: Piece<'_>, depth: usize) -> Result<Field, Fault> {
    let (piece, is_nullable) = without_mark(piece);
    let (name, of) = name_and_type(alloc, piece)?;
    let name = String::from_str(alloc, name)?;
    Ok(Field::new(name, type_of(alloc, of, depth)?, is_nullable))
}

// A field without the exclamation mark behind it, and whether rows may be null: where none stood there.
fn without_mark(piece: Piece<'_>) -> (Piece<'_>, bool) {
    match piece.strip_suffix("!") {
        Some(piece) => (piece, false),
        None => (piece, true),
    }
}

// The name of a field, and its type.
fn name_and_type<'a>(alloc: Global, piece: Piece<'a>) -> Result<(&'a str, Piece<'a>), Fault> {
    let parts = piece.split(alloc, ':')?;
    match parts.as_slice() {
        [of] => Ok((ITEM, *of)),
        [name, of] => Ok((name.text(), *of)),
        _ => Err(piece.fault()),
    }
}

// The fields that stand behind one another, each of which may have its type id before it where it is one of a union.
#[cycle(read_type)]
fn fields_of(
    alloc: Global,
    parts: &[Piece<'_>],
    is_union: bool,
    depth: usize,
) -> Result<Vec<Field>, Fault> {
    let mut fields = Vec::new(alloc);
    for part in parts {
        let part = if is_union { without_id(*part) } else { *part };
        fields.push(field_of(alloc, part, depth)?)?;
    }
    Ok(fields)
}

// A union of fields.
#[cycle(read_type)]
fn union_of(
    alloc: Global,
    parts: &[Piece<'_>],
    mode: UnionMode,
    depth: usize,
) -> Result<DataType, Fault> {
    let fields = fields_of(alloc, parts, true, depth)?;
    Ok(DataType::Union(fields, ids_of(alloc, parts)?, mode))
}

// The type ids that stand before fields, if some do.
fn ids_of(alloc: Global, parts: &[Piece<'_>]) -> Result<Option<Vec<i32>>, Fault> {
    let mut ids = Vec::new(alloc);
    for part in parts {
        if let Some(id) = id_of(*part) {
            ids.push(id.integer()?)?;
        }
    }
    Ok(if ids.is_empty() { None } else { Some(ids) })
}

// What stands before a field as its type id: a text that begins as a number does.
fn id_of(piece: Piece<'_>) -> Option<Piece<'_>> {
    let (id, _) = piece.parted(':')?;
    match id.text().bytes().next() {
        Some(b'-' | b'0'..=b'9') => Some(id),
        _ => None,
    }
}

// A field without the type id before it.
fn without_id(piece: Piece<'_>) -> Piece<'_> {
    match (id_of(piece), piece.parted(':')) {
        (Some(_), Some((_, field))) => field,
        _ => piece,
    }
}

// Lists of any number of items.
#[cycle(read_type)]
fn list_of(alloc: Global, of: Lists, item: Piece<'_>, depth: usize) -> Result<DataType, Fault> {
    let item = Box::new(alloc, field_of(alloc, item, depth)?)?;
    Ok(match of {
        Lists::List => DataType::List(item),
        Lists::LargeList => DataType::LargeList(item),
        Lists::Map => DataType::Map(item, false),
        Lists::SortedMap => DataType::Map(item, true),
    })
}

// Lists of so many items each.
#[cycle(read_type)]
fn fixed_list_of(
    alloc: Global,
    size: Piece<'_>,
    item: Piece<'_>,
    depth: usize,
) -> Result<DataType, Fault> {
    let size = size.integer()?;
    let item = Box::new(alloc, field_of(alloc, item, depth)?)?;
    Ok(DataType::FixedSizeList(item, size))
}

// A dictionary: the type of its keys and that of its values.
#[cycle(read_type)]
fn dictionary_of(
    alloc: Global,
    keys: Piece<'_>,
    values: Piece<'_>,
    is_ordered: bool,
    depth: usize,
) -> Result<DataType, Fault> {
    let keys = *find(&KEYS, keys.text()).ok_or(keys.fault())?;
    let values = Box::new(alloc, type_of(alloc, values, depth)?)?;
    Ok(DataType::Dictionary(keys, values, is_ordered))
}

// A type by a name of its own, with metadata or none.
#[cycle(read_type)]
fn extension_of(
    alloc: Global,
    name: Piece<'_>,
    metadata: Option<Piece<'_>>,
    inner: Piece<'_>,
    depth: usize,
) -> Result<DataType, Fault> {
    let inner = Box::new(alloc, type_of(alloc, inner, depth)?)?;
    let metadata = optional_text(alloc, metadata)?;
    let name = String::from_str(alloc, name.text())?;
    Ok(DataType::Extension(name, inner, metadata))
}

// The characters of a text, if there is one.
fn optional_text(alloc: Global, piece: Option<Piece<'_>>) -> Result<Option<String>, Fault> {
    match piece {
        Some(piece) => Ok(Some(String::from_str(alloc, piece.text())?)),
        None => Ok(None),
    }
}

// A type of a unit or of sizes, as `time32<ms>`, `timestamp<s,UTC>` or `decimal<10,2>`.
fn measured(
    alloc: Global,
    form: Form,
    word: Piece<'_>,
    parts: &[Piece<'_>],
) -> Result<DataType, Fault> {
    match (form, parts) {
        (Form::Time(of), [unit]) => time_of(of, *unit),
        (Form::Time(Times::Timestamp), [unit, zone]) => zoned(alloc, *unit, *zone),
        (Form::Interval, [unit]) => interval_of(*unit),
        (Form::FixedSizeBinary, [size]) => Ok(DataType::FixedSizeBinary(size.integer()?)),
        (Form::Decimal(bits), [precision, scale]) => decimal_of(bits, *precision, *scale),
        _ => Err(word.fault()),
    }
}

// A type of a unit of time, in no time zone.
fn time_of(of: Times, unit: Piece<'_>) -> Result<DataType, Fault> {
    let unit = unit_of(unit)?;
    Ok(match of {
        Times::Time32 => DataType::Time32(unit),
        Times::Time64 => DataType::Time64(unit),
        Times::Duration => DataType::Duration(unit),
        Times::Timestamp => DataType::Timestamp(unit, None),
    })
}

// Points in time, in a time zone.
fn zoned(alloc: Global, unit: Piece<'_>, zone: Piece<'_>) -> Result<DataType, Fault> {
    let unit = unit_of(unit)?;
    let zone = String::from_str(alloc, zone.text())?;
    Ok(DataType::Timestamp(unit, Some(zone)))
}

// What an interval counts.
fn interval_of(unit: Piece<'_>) -> Result<DataType, Fault> {
    match find(&INTERVALS, unit.text()) {
        Some(unit) => Ok(DataType::Interval(*unit)),
        None => Err(unit.fault()),
    }
}

// Decimals of so many bits.
fn decimal_of(bits: Bits, precision: Piece<'_>, scale: Piece<'_>) -> Result<DataType, Fault> {
    let precision = precision.integer()?;
    let scale = scale.integer()?;
    Ok(match bits {
        Bits::Of128 => DataType::Decimal(precision, scale),
        Bits::Of256 => DataType::Decimal256(precision, scale),
    })
}

// A unit of time.
fn unit_of(piece: Piece<'_>) -> Result<TimeUnit, Fault> {
    find(&UNITS, piece.text()).copied().ok_or(piece.fault())
}

/// Appends the text of a data type.
pub fn write_type(out: &mut String, data_type: &DataType) -> Result<(), Fault> {
    push_type(out, data_type, DEEPEST)
}

// The word of a value in a table.
pub(crate) fn word_of<T: PartialEq>(table: &[(&'static str, T)], value: &T) -> &'static str {
    for (word, other) in table {
        if other == value {
            return word;
        }
    }
    ""
}

// Appends a data type that nests at most so deep: what it says before its children, these, and a bracket.
#[cycle(push_type)]
fn push_type(out: &mut String, data_type: &DataType, depth: usize) -> Result<(), Fault> {
    if depth == 0 {
        return Err(Fault::Usage);
    }
    push_head(out, data_type)?;
    match data_type {
        DataType::List(item)
        | DataType::LargeList(item)
        | DataType::Map(item, _)
        | DataType::FixedSizeList(item, _) => push_field(out, item, ">", depth - 1),
        DataType::Struct(fields) => push_fields(out, fields, &None, depth - 1),
        DataType::Union(fields, ids, _) => push_fields(out, fields, ids, depth - 1),
        DataType::Dictionary(_, inner, _) | DataType::Extension(_, inner, _) => {
            push_type(out, inner, depth - 1)?;
            push_text(out, ">")
        }
        _ => Ok(()),
    }
}

// Appends a field, and what stands behind it.
#[cycle(push_type)]
fn push_field(out: &mut String, field: &Field, end: &str, depth: usize) -> Result<(), Fault> {
    push_name(out, field.name())?;
    push_type(out, field.data_type(), depth)?;
    push_text(out, if field.is_nullable() { "" } else { "!" })?;
    push_text(out, end)
}

// Appends fields, with their type ids where there are some, and closes the bracket.
#[cycle(push_type)]
fn push_fields(
    out: &mut String,
    fields: &[Field],
    ids: &Option<Vec<i32>>,
    depth: usize,
) -> Result<(), Fault> {
    for (place, field) in fields.iter().enumerate() {
        push_text(out, if place > 0 { "," } else { "" })?;
        push_id(out, ids, place)?;
        push_field(out, field, "", depth)?;
    }
    push_text(out, ">")
}

// Appends a text.
pub(crate) fn push_text(out: &mut String, text: &str) -> Result<(), Fault> {
    Ok(out.push_str(text)?)
}

// Appends a value and what stands behind it.
pub(crate) fn push_before<T: Display + Drop>(
    out: &mut String,
    value: T,
    text: &str,
) -> Result<(), Fault> {
    Ok(write!(out, "{value}{text}")?)
}

// Appends the type id of a field, where there are some.
fn push_id(out: &mut String, ids: &Option<Vec<i32>>, place: usize) -> Result<(), Fault> {
    match ids {
        Some(ids) => push_before(out, ids.get(place).copied().unwrap_or(-1), ":"),
        None => Ok(()),
    }
}

// Appends a field's name, unless it is that of a field without one.
fn push_name(out: &mut String, name: &str) -> Result<(), Fault> {
    if name == ITEM {
        return Ok(());
    }
    push_before(out, name, ":")
}

// Appends a word, and the parts of a data type that are none themselves.
fn push_head(out: &mut String, data_type: &DataType) -> Result<(), Fault> {
    push_text(out, word(data_type))?;
    match data_type {
        DataType::Timestamp(unit, zone) => push_timestamp(out, *unit, zone),
        DataType::Time32(unit) | DataType::Time64(unit) | DataType::Duration(unit) => {
            push_before(out, word_of(&UNITS, unit), ">")
        }
        DataType::Interval(unit) => push_before(out, word_of(&INTERVALS, unit), ">"),
        DataType::FixedSizeBinary(size) => push_before(out, *size, ">"),
        DataType::FixedSizeList(_, size) => push_before(out, *size, ","),
        DataType::Decimal(precision, scale) => push_both(out, *precision, *scale),
        DataType::Decimal256(precision, scale) => push_both(out, *precision, *scale),
        DataType::Dictionary(keys, _, _) => push_before(out, word_of(&KEYS, keys), ","),
        DataType::Extension(name, _, metadata) => push_named(out, name, metadata),
        _ => Ok(()),
    }
}

// Appends two sizes.
fn push_both(out: &mut String, precision: usize, scale: usize) -> Result<(), Fault> {
    push_before(out, precision, ",")?;
    push_before(out, scale, ">")
}

// Appends the unit of points in time, and their time zone where they have one.
fn push_timestamp(out: &mut String, unit: TimeUnit, zone: &Option<String>) -> Result<(), Fault> {
    let unit = word_of(&UNITS, &unit);
    match zone {
        Some(zone) => {
            push_before(out, unit, ",")?;
            push_before(out, zone.as_str(), ">")
        }
        None => push_before(out, unit, ">"),
    }
}

// Appends the name of an extension, and its metadata where it has some.
fn push_named(out: &mut String, name: &str, metadata: &Option<String>) -> Result<(), Fault> {
    push_before(out, name, ",")?;
    match metadata {
        Some(metadata) => push_before(out, metadata.as_str(), ","),
        None => Ok(()),
    }
}
