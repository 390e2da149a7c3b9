//! Arrays as text: a type and its rows, as `i32[1,_,3]`, or its parts, as `i32{values=1,2}`, and slices of them.

use crate::bits::slice_within;
use crate::fault::Fault;
use crate::flat::{Source, flat_array};
use crate::parts::array_of_parts;
use crate::piece::Piece;
use crate::row::{push_often, push_rows, rows_in, validity_of};
use crate::types::{DEEPEST, KEYS, boxed_type, push_text, word_of};
use crate::write::show;
use arrow_arrays::array::{
    AnyArray, AnyKeys, AnyOffsetsBuffer, DictionaryArray, FixedSizeListArray, ListArray, MapArray,
    StructArray, UnionArray,
};
use arrow_flat::array::AnyPrimitive;
use arrow_memory::bitmap::Bitmap;
use arrow_memory::buffer::Buffer;
use arrow_memory::offset::{Offsets, OffsetsBuffer};
use arrow_types::datatypes::{DataType, Field, IntegerType, PhysicalType, UnionMode};
use arrow_types::error::Error;
use arrow_types::types::Offset;
use std::alloc::Global;

/// The array that a text says.
pub fn read_array(alloc: Global, piece: Piece<'_>) -> Result<Box<AnyArray>, Fault> {
    nested_array(alloc, piece, DEEPEST)
}

// An array in a box of its own: what owns a box is proved faster than what owns an array.
pub(crate) fn boxed(alloc: Global, array: AnyArray) -> Result<Box<AnyArray>, Fault> {
    Ok(Box::new(alloc, array)?)
}

// The array that a text says, whose parts nest at most so deep.
#[cycle(parts)]
pub(crate) fn nested_array(
    alloc: Global,
    piece: Piece<'_>,
    depth: usize,
) -> Result<Box<AnyArray>, Fault> {
    let parts = piece.split(alloc, '@')?;
    match parts.split_first() {
        Some((body, slices)) => take_slices(whole_array(alloc, *body, depth)?, slices),
        None => Err(piece.fault()),
    }
}

// The slices of an array, one after the other.
fn take_slices(mut array: Box<AnyArray>, slices: &[Piece<'_>]) -> Result<Box<AnyArray>, Fault> {
    for slice in slices {
        take_slice(&mut array, *slice)?;
    }
    Ok(array)
}

// Keeps a part of the rows.
fn take_slice(array: &mut AnyArray, slice: Piece<'_>) -> Result<(), Fault> {
    let (offset, len) = slice_within(slice, array.len())?;
    array.slice(offset, len);
    Ok(())
}

// The array that a text without slices says.
#[cycle(parts)]
fn whole_array(alloc: Global, body: Piece<'_>, depth: usize) -> Result<Box<AnyArray>, Fault> {
    if depth == 0 {
        return Err(body.fault());
    }
    match body.headed('{', "}") {
        Some((head, parts)) => array_by_parts(alloc, head, parts, depth - 1),
        None => array_by_rows(alloc, body),
    }
}

// The array of a type and parts.
#[cycle(parts)]
fn array_by_parts(
    alloc: Global,
    head: Piece<'_>,
    parts: Piece<'_>,
    depth: usize,
) -> Result<Box<AnyArray>, Fault> {
    let data_type = boxed_type(alloc, head)?;
    array_of_parts(alloc, &data_type, parts, depth)
}

// The array of a type and rows, behind which a question mark asks for a validity.
fn array_by_rows(alloc: Global, body: Piece<'_>) -> Result<Box<AnyArray>, Fault> {
    let unmarked = body.strip_suffix("?");
    let body = unmarked.unwrap_or(body);
    let (head, rows) = body.headed('[', "]").ok_or(body.fault())?;
    let data_type = boxed_type(alloc, head)?;
    let rows = rows_in(alloc, rows)?;
    array_of_rows(alloc, &data_type, &rows, unmarked.is_some(), DEEPEST)
}

// An array of these rows, with a validity where a row is null or one is asked for.
#[cycle(rows)]
fn array_of_rows(
    alloc: Global,
    data_type: &DataType,
    rows: &[Piece<'_>],
    is_marked: bool,
    depth: usize,
) -> Result<Box<AnyArray>, Fault> {
    if depth == 0 {
        return Err(Fault::Usage);
    }
    match data_type.to_logical_type() {
        DataType::List(item) | DataType::LargeList(item) | DataType::Map(item, _) => {
            lists(alloc, data_type, item, rows, is_marked, depth - 1)
        }
        DataType::FixedSizeList(item, size) => {
            fixed_lists(alloc, data_type, (item, *size), rows, is_marked, depth - 1)
        }
        DataType::Struct(fields) => structs(alloc, data_type, fields, rows, is_marked, depth - 1),
        DataType::Union(fields, ids, mode) => {
            unions(alloc, data_type, (fields, ids, *mode), rows, depth - 1)
        }
        DataType::Dictionary(keys, values, _) => {
            dictionaries(
                alloc,
                data_type,
                (*keys, values),
                rows,
                is_marked,
                depth - 1,
            )
        }
        _ => {
            let kind = data_type.to_physical_type();
            flat_array(alloc, data_type, kind, Source::Rows(&*rows, is_marked))
        }
    }
}

// Lists of an item, or maps of entries.
#[cycle(rows)]
fn lists(
    alloc: Global,
    data_type: &DataType,
    item: &Field,
    rows: &[Piece<'_>],
    is_marked: bool,
    depth: usize,
) -> Result<Box<AnyArray>, Fault> {
    let (items, lengths) = items_in(alloc, rows, None)?;
    let values = array_of_rows(alloc, item.data_type(), &items, false, depth)?;
    let kind = data_type.to_physical_type();
    let offsets = any_offsets_of(alloc, kind, &lengths)?;
    list_array(
        alloc,
        data_type,
        kind,
        offsets,
        values,
        validity_of(alloc, rows, is_marked)?,
    )
}

// The offsets of rows of these lengths: of 64 bits where the lists are large.
fn any_offsets_of(
    alloc: Global,
    kind: PhysicalType,
    lengths: &[usize],
) -> Result<AnyOffsetsBuffer, Fault> {
    match kind {
        PhysicalType::LargeList => offsets_of(alloc, lengths).map(AnyOffsetsBuffer::Large),
        _ => offsets_of(alloc, lengths).map(AnyOffsetsBuffer::Small),
    }
}

// Lists of these parts, or maps.
pub(crate) fn list_array(
    alloc: Global,
    data_type: &DataType,
    kind: PhysicalType,
    offsets: AnyOffsetsBuffer,
    values: Box<AnyArray>,
    validity: Option<Bitmap>,
) -> Result<Box<AnyArray>, Fault> {
    let data_type = data_type.clone()?;
    match (kind, offsets) {
        (PhysicalType::Map, AnyOffsetsBuffer::Small(offsets)) => {
            let array = MapArray::try_new(data_type, offsets, values, validity)?;
            boxed(alloc, AnyArray::Map(array))
        }
        (_, offsets) => {
            let array = ListArray::try_new(data_type, offsets, values, validity)?;
            boxed(alloc, AnyArray::List(array))
        }
    }
}

// The items of all rows, and how many each row has: so many, if that is said.
fn items_in<'a>(
    alloc: Global,
    rows: &[Piece<'a>],
    size: Option<usize>,
) -> Result<(Vec<Piece<'a>>, Vec<usize>), Fault> {
    let (mut items, mut lengths) = (Vec::new(alloc), Vec::new(alloc));
    for row in rows {
        lengths.push(push_items(alloc, *row, size, &mut items)?)?;
    }
    Ok((items, lengths))
}

// Appends the items of a row, and answers how many these are: so many, if that is said, which are null slots where nothing is
// stored.
fn push_items<'a>(
    alloc: Global,
    row: Piece<'a>,
    size: Option<usize>,
    items: &mut Vec<Piece<'a>>,
) -> Result<usize, Fault> {
    let start = items.len();
    match row.stored() {
        Some(stored) => push_rows(alloc, stored.between("[", "]")?, items),
        None => push_often(items, row.nothing(), size.unwrap_or(0)),
    }?;
    let count = items.len().saturating_sub(start);
    match size {
        Some(size) if size != count => Err(row.fault()),
        _ => Ok(count),
    }
}

// The offsets of rows of these lengths.
pub(crate) fn offsets_of<O: Offset>(
    alloc: Global,
    lengths: &[usize],
) -> Result<OffsetsBuffer<O>, Fault> {
    let mut offsets = Offsets::<O>::with_capacity(alloc, lengths.len())?;
    for length in lengths {
        offsets.try_push_usize(*length)?;
    }
    Ok(offsets.into_buffer()?)
}

// Lists of so many items each.
#[cycle(rows)]
fn fixed_lists(
    alloc: Global,
    data_type: &DataType,
    item: (&Field, usize),
    rows: &[Piece<'_>],
    is_marked: bool,
    depth: usize,
) -> Result<Box<AnyArray>, Fault> {
    let (item, size) = item;
    let (items, _lengths) = items_in(alloc, rows, Some(size))?;
    let values = array_of_rows(alloc, item.data_type(), &items, false, depth)?;
    fixed_list_array(
        alloc,
        data_type,
        values,
        validity_of(alloc, rows, is_marked)?,
    )
}

// Lists of a fixed size of these parts.
pub(crate) fn fixed_list_array(
    alloc: Global,
    data_type: &DataType,
    values: Box<AnyArray>,
    validity: Option<Bitmap>,
) -> Result<Box<AnyArray>, Fault> {
    let array = FixedSizeListArray::try_new(data_type.clone()?, values, validity)?;
    boxed(alloc, AnyArray::FixedSizeList(array))
}

/// What the fields of structs or of unions hold.
#[derive(Clone, Copy)]
enum Columns<'b, 'a> {
    /// The rows of structs.
    Struct(&'b [Piece<'a>]),
    /// The type ids of a union's fields, its mode, the type id of each row, and the row of its field.
    Union(&'b [i32], UnionMode, &'b [i8], &'b [Piece<'a>]),
}

impl<'a> Columns<'_, 'a> {
    /// The rows of one field of so many.
    fn column(self, alloc: Global, place: usize, count: usize) -> Result<Vec<Piece<'a>>, Fault> {
        match self {
            Columns::Struct(rows) => column_of(alloc, rows, place, count),
            Columns::Union(ids, mode, types, rows) => {
                let id = ids.get(place).copied().ok_or(Fault::Usage)?;
                variant_of(alloc, id, mode, types, rows)
            }
        }
    }
}

// Structs of fields.
#[cycle(rows)]
fn structs(
    alloc: Global,
    data_type: &DataType,
    fields: &[Field],
    rows: &[Piece<'_>],
    is_marked: bool,
    depth: usize,
) -> Result<Box<AnyArray>, Fault> {
    let children = children_of(alloc, fields, Columns::Struct(&*rows), depth)?;
    struct_array(
        alloc,
        data_type,
        children,
        validity_of(alloc, rows, is_marked)?,
    )
}

// The arrays of fields, each of its own rows.
#[cycle(rows)]
fn children_of(
    alloc: Global,
    fields: &[Field],
    columns: Columns<'_, '_>,
    depth: usize,
) -> Result<Vec<AnyArray>, Fault> {
    let mut children = Vec::new(alloc);
    for (place, field) in fields.iter().enumerate() {
        let column = columns.column(alloc, place, fields.len())?;
        let child = array_of_rows(alloc, field.data_type(), &column, false, depth)?;
        push_child(&mut children, child)?;
    }
    Ok(children)
}

// Appends a child out of its box.
pub(crate) fn push_child(children: &mut Vec<AnyArray>, child: Box<AnyArray>) -> Result<(), Fault> {
    Ok(children.push(Box::into_inner(child))?)
}

// Structs of these parts.
pub(crate) fn struct_array(
    alloc: Global,
    data_type: &DataType,
    children: Vec<AnyArray>,
    validity: Option<Bitmap>,
) -> Result<Box<AnyArray>, Fault> {
    let array = StructArray::try_new(data_type.clone()?, children, validity)?;
    boxed(alloc, AnyArray::Struct(array))
}

// The rows of one field of so many: null slots where nothing is stored.
fn column_of<'a>(
    alloc: Global,
    rows: &[Piece<'a>],
    place: usize,
    count: usize,
) -> Result<Vec<Piece<'a>>, Fault> {
    let mut column = Vec::new(alloc);
    for row in rows {
        column.push(item_of(alloc, *row, place, count)?)?;
    }
    Ok(column)
}

// The row of one field of so many: a null slot where nothing is stored.
fn item_of<'a>(
    alloc: Global,
    row: Piece<'a>,
    place: usize,
    count: usize,
) -> Result<Piece<'a>, Fault> {
    let Some(stored) = row.stored() else {
        return Ok(row.nothing());
    };
    let items = stored.between("(", ")")?.items(alloc, ',')?;
    match items.get(place) {
        Some(item) if items.len() == count => Ok(*item),
        _ => Err(stored.fault()),
    }
}

// The type ids of a union's fields: 0, 1, 2, .. where the type has none.
fn ids_of(alloc: Global, fields: &[Field], ids: &Option<Vec<i32>>) -> Result<Vec<i32>, Fault> {
    let mut found = Vec::new(alloc);
    match ids {
        Some(ids) => found.extend_from_slice(ids)?,
        None => {
            for place in 0..fields.len() {
                found.push(i32::try_from(place).unwrap_or(i32::MAX))?;
            }
        }
    }
    Ok(found)
}

// The type id of each row of a union, and the row of its field.
fn ids_and_rows<'a>(
    alloc: Global,
    ids: &[i32],
    rows: &[Piece<'a>],
) -> Result<(Vec<i8>, Vec<Piece<'a>>), Fault> {
    let (mut types, mut items) = (Vec::new(alloc), Vec::new(alloc));
    for row in rows {
        let (id, item) = id_and_row(ids, *row)?;
        types.push(id)?;
        items.push(item)?;
    }
    Ok((types, items))
}

// The type id of a row, and the row of its field. The null slot is that of the first field.
fn id_and_row<'a>(ids: &[i32], row: Piece<'a>) -> Result<(i8, Piece<'a>), Fault> {
    let (id, item) = match row.stored() {
        None => (ids.first().copied().ok_or(row.fault())?, row),
        Some(_) => {
            let (id, item) = row.parted(':').ok_or(row.fault())?;
            (id.integer()?, item)
        }
    };
    match i8::try_from(id) {
        Ok(known) if ids.contains(&id) => Ok((known, item)),
        _ => Err(row.fault()),
    }
}

// What a field of a union holds: a row for each row of the union in a sparse one, and its own rows in a dense one.
fn variant_of<'a>(
    alloc: Global,
    id: i32,
    mode: UnionMode,
    types: &[i8],
    rows: &[Piece<'a>],
) -> Result<Vec<Piece<'a>>, Fault> {
    let mut column = Vec::new(alloc);
    for (of, item) in types.iter().zip(rows) {
        if i32::from(*of) == id {
            column.push(*item)?;
        } else if mode == UnionMode::Sparse {
            column.push(item.nothing())?;
        }
    }
    Ok(column)
}

// Unions of fields, with type ids or without, of a mode.
#[cycle(rows)]
fn unions(
    alloc: Global,
    data_type: &DataType,
    of: (&[Field], &Option<Vec<i32>>, UnionMode),
    rows: &[Piece<'_>],
    depth: usize,
) -> Result<Box<AnyArray>, Fault> {
    let (fields, ids, mode) = of;
    let ids = ids_of(alloc, fields, ids)?;
    let (types, rows) = ids_and_rows(alloc, &ids, rows)?;
    let fields = fields.get(..ids.len()).unwrap_or(fields);
    let columns = Columns::Union(&ids, mode, &types, &rows);
    let children = children_of(alloc, fields, columns, depth)?;
    union_of_rows(alloc, data_type, mode, types, children)
}

// Unions of rows of these type ids, whose fields hold these children.
fn union_of_rows(
    alloc: Global,
    data_type: &DataType,
    mode: UnionMode,
    types: Vec<i8>,
    children: Vec<AnyArray>,
) -> Result<Box<AnyArray>, Fault> {
    let offsets = offsets_in(alloc, mode, &types)?;
    let types = Buffer::from_vec(alloc, types)?;
    union_array(alloc, data_type, types, children, offsets)
}

// Where each row of a dense union lies; nothing of a sparse one.
fn offsets_in(alloc: Global, mode: UnionMode, types: &[i8]) -> Result<Option<Buffer<i32>>, Fault> {
    match mode {
        UnionMode::Sparse => Ok(None),
        UnionMode::Dense => Ok(Some(places_of(alloc, types)?)),
    }
}

// Unions of these parts.
pub(crate) fn union_array(
    alloc: Global,
    data_type: &DataType,
    types: Buffer<i8>,
    children: Vec<AnyArray>,
    offsets: Option<Buffer<i32>>,
) -> Result<Box<AnyArray>, Fault> {
    let array = UnionArray::try_new(data_type.clone()?, types, children, offsets)?;
    boxed(alloc, AnyArray::Union(array))
}

// Where in its field each row of a dense union lies: behind the rows of the same field before it.
fn places_of(alloc: Global, types: &[i8]) -> Result<Buffer<i32>, Fault> {
    let mut places = Vec::new(alloc);
    for (i, id) in types.iter().enumerate() {
        let mut place = 0i32;
        for other in types.iter().take(i) {
            place = place.saturating_add(i32::from(other == id));
        }
        places.push(place)?;
    }
    Ok(Buffer::from_vec(alloc, places)?)
}

// Dictionaries whose values are the rows' own, in the order in which they come first.
#[cycle(rows)]
fn dictionaries(
    alloc: Global,
    data_type: &DataType,
    of: (IntegerType, &DataType),
    rows: &[Piece<'_>],
    is_marked: bool,
    depth: usize,
) -> Result<Box<AnyArray>, Fault> {
    let (keys, values) = of;
    let found = values_in(alloc, rows)?;
    let values = array_of_rows(alloc, values, &found, false, depth)?;
    let keys = key_array(alloc, keys, &found, rows, is_marked)?;
    dictionary_array(alloc, data_type, &keys, values)
}

// Dictionaries of these values, and of the keys that an array of integers holds.
pub(crate) fn dictionary_array(
    alloc: Global,
    data_type: &DataType,
    keys: &AnyArray,
    values: Box<AnyArray>,
) -> Result<Box<AnyArray>, Fault> {
    let array = DictionaryArray::try_new(data_type.clone()?, keys_in(keys)?, values)?;
    boxed(alloc, AnyArray::Dictionary(array))
}

// The keys that an array of integers holds, which share what is stored.
fn keys_in(array: &AnyArray) -> Result<AnyKeys, Fault> {
    match array {
        AnyArray::Primitive(AnyPrimitive::Int8(keys)) => Ok(AnyKeys::Int8(keys.clone()?)),
        AnyArray::Primitive(AnyPrimitive::Int16(keys)) => Ok(AnyKeys::Int16(keys.clone()?)),
        AnyArray::Primitive(AnyPrimitive::Int32(keys)) => Ok(AnyKeys::Int32(keys.clone()?)),
        AnyArray::Primitive(AnyPrimitive::Int64(keys)) => Ok(AnyKeys::Int64(keys.clone()?)),
        AnyArray::Primitive(AnyPrimitive::UInt8(keys)) => Ok(AnyKeys::UInt8(keys.clone()?)),
        AnyArray::Primitive(AnyPrimitive::UInt16(keys)) => Ok(AnyKeys::UInt16(keys.clone()?)),
        AnyArray::Primitive(AnyPrimitive::UInt32(keys)) => Ok(AnyKeys::UInt32(keys.clone()?)),
        AnyArray::Primitive(AnyPrimitive::UInt64(keys)) => Ok(AnyKeys::UInt64(keys.clone()?)),
        _ => Err(Fault::Usage),
    }
}

// What stands in a row of a dictionary, if the text says it: the value, before which an ampersand may stand.
fn value_in(row: Piece<'_>) -> Option<Piece<'_>> {
    let stored = row.stored()?;
    Some(stored.strip_prefix("&").unwrap_or(stored))
}

// The values of rows, each once, in the order in which they come first.
fn values_in<'a>(alloc: Global, rows: &[Piece<'a>]) -> Result<Vec<Piece<'a>>, Fault> {
    let mut values = Vec::new(alloc);
    for row in rows {
        if let Some(value) = value_in(*row) {
            push_once(&mut values, value)?;
        }
    }
    Ok(values)
}

// Appends a value that does not stand there yet.
fn push_once<'a>(values: &mut Vec<Piece<'a>>, value: Piece<'a>) -> Result<(), Fault> {
    match place_of(values, value) {
        Some(_) => Ok(()),
        None => Ok(values.push(value)?),
    }
}

// Where a value stands, if it does.
fn place_of(values: &[Piece<'_>], value: Piece<'_>) -> Option<usize> {
    for (place, other) in values.iter().enumerate() {
        if other.text() == value.text() {
            return Some(place);
        }
    }
    None
}

// The keys of rows, as an array of their type: too many values for it are refused.
fn key_array(
    alloc: Global,
    of: IntegerType,
    values: &[Piece<'_>],
    rows: &[Piece<'_>],
    is_marked: bool,
) -> Result<Box<AnyArray>, Fault> {
    if values.len() > most_of(of) {
        return Err(Fault::Refused(Error::Overflow));
    }
    let mut text = String::new(alloc);
    write_keys(&mut text, values, rows)?;
    array_of_keys(alloc, of, text.as_str(), is_marked)
}

// Keys of a type, as rows are written.
fn array_of_keys(
    alloc: Global,
    of: IntegerType,
    text: &str,
    is_marked: bool,
) -> Result<Box<AnyArray>, Fault> {
    let data_type = boxed_type(alloc, Piece::new(0, word_of(&KEYS, &of)))?;
    let rows = rows_in(alloc, Piece::new(0, text))?;
    let kind = data_type.to_physical_type();
    flat_array(alloc, &data_type, kind, Source::Rows(&rows, is_marked))
}

// How many values the keys of a type can name.
fn most_of(of: IntegerType) -> usize {
    match of {
        IntegerType::Int8 => 1 << 7,
        IntegerType::Int16 => 1 << 15,
        IntegerType::Int32 => 1 << 31,
        IntegerType::Int64 => 1 << 63,
        IntegerType::UInt8 => 1 << 8,
        IntegerType::UInt16 => 1 << 16,
        IntegerType::UInt32 => 1 << 32,
        IntegerType::UInt64 => usize::MAX,
    }
}

// Appends the keys of rows, as the rows of their array are written.
fn write_keys(text: &mut String, values: &[Piece<'_>], rows: &[Piece<'_>]) -> Result<(), Fault> {
    for (i, row) in rows.iter().enumerate() {
        push_text(text, if i > 0 { "," } else { "" })?;
        push_text(text, if row.is_null() { "_" } else { "" })?;
        push_key(text, values, *row)?;
    }
    Ok(())
}

// Appends the place of a row's value among all, if the row stores one.
fn push_key(text: &mut String, values: &[Piece<'_>], row: Piece<'_>) -> Result<(), Fault> {
    match value_in(row) {
        Some(value) => show(text, place_of(values, value).unwrap_or(0)),
        None => Ok(()),
    }
}
