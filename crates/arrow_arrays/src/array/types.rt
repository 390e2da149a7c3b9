//! What a nested data type says of its children.

ghost use Rattle.std.specs.Prelude.{◌≡◌, ◌↔◌, length, map, None, Some, IsTrue};
ghost use Rattle.arrow_types.specs.ArrowType.{type_in};
ghost use Rattle.arrow_types.specs.TypeOf.{type_of, field_of};
ghost use Rattle.arrow_types.specs.declared.datatypes.physical_type.PhysicalType.TheVariants as physical;
ghost use Rattle.arrow_flat.specs.DictionaryScalar.{values_in};
ghost use Rattle.arrow_flat.specs.Faults.{IsCarriedAs};
ghost use Rattle.arrow_arrays.specs.Any.{any_array_type};
ghost use Rattle.arrow_arrays.specs.Layout.{field_ids};
ghost use Rattle.arrow_arrays.specs.TypeParts.{item_type, list_size, field_types, mode_in};
ghost use Rattle.arrow_arrays.specs.UnionParts.{FindsField};

use crate::array::AnyArray;
use arrow_types::datatypes::{DataType, Field, UnionMode};
use arrow_types::types::Index;

/// The type of the items of a list or of the entries of a map; of another type, the type itself.
pub fn item_type(data_type: &DataType) -> &DataType
    ensures { type_of result.now ≡ item_type (type_of data_type.now) }
{
    match data_type {
        DataType::List(field) | DataType::LargeList(field) => field.data_type(),
        DataType::FixedSizeList(field, _) => field.data_type(),
        DataType::Map(field, _) => field.data_type(),
        DataType::Extension(_, inner, _) => item_type(inner),
        _ => data_type,
    }
}

/// How many items a row of a fixed-size list has; of another type, 0.
pub fn list_size(data_type: &DataType) -> usize
    ensures { result ≡ list_size (type_of data_type.now) }
{
    match data_type {
        DataType::FixedSizeList(_, size) => *size,
        DataType::Extension(_, inner, _) => list_size(inner),
        _ => 0,
    }
}

/// The fields of a struct or a union; of another type, none.
pub fn fields_of(data_type: &DataType) -> &[Field]
    ensures { map (λ field. type_in (field_of field)) result.now ≡ field_types (type_of data_type.now) }
{
    match data_type {
        DataType::Struct(fields) | DataType::Union(fields, _, _) => fields,
        DataType::Extension(_, inner, _) => fields_of(inner),
        _ => &[],
    }
}

/// The type of the values of a dictionary; of another type, the type itself.
pub fn values_type(data_type: &DataType) -> &DataType
    ensures { type_of result.now ≡ values_in (type_of data_type.now) }
{
    match data_type {
        DataType::Dictionary(_, values, _) => values,
        DataType::Extension(_, inner, _) => values_type(inner),
        _ => data_type,
    }
}

/// The mode of a union; of another type, sparse.
pub fn mode(data_type: &DataType) -> UnionMode
    ensures { result ≡ mode_in (type_of data_type.now) }
{
    match data_type {
        DataType::Union(_, _, mode) => *mode,
        DataType::Extension(_, inner, _) => mode(inner),
        _ => UnionMode::Sparse,
    }
}

// The position of the field of a union that has a type id, if one has.
pub(crate) fn field_of_id(data_type: &DataType, id: i8) -> Option<usize>
    requires { IsCarriedAs physical.Union (type_of data_type.now) }
    ensures { FindsField (field_ids (type_of data_type.now)) (length (field_types (type_of data_type.now)))
        id result }
{
    match data_type {
        DataType::Union(fields, ids, _) => match ids {
            None => position_below(id, fields.len()),
            Some(ids) => position_among(id, ids),
        },
        DataType::Extension(_, inner, _) => field_of_id(inner, id),
        _ => unreachable!(),
    }
}

// The position that a number is, if it is one of so many.
fn position_below(id: i8, count: usize) -> Option<usize>
    ensures { FindsField None count id result }
{
    if id.in_range(count) {
        Some(id.to_usize())
    } else {
        None
    }
}

// The position of an id among those that are given.
fn position_among(id: i8, ids: &[i32]) -> Option<usize>
    ensures { FindsField (Some ids.now) (length ids.now) id result }
{
    for (i, given) in ids.iter().enumerate() {
        if *given == i32::from(id) {
            return Some(i);
        }
    }
    None
}

// Whether arrays have the types of fields, one each.
pub(crate) fn have_types(values: &[AnyArray], fields: &[Field]) -> bool
    ensures { IsTrue result ↔ (map any_array_type values.now
        ≡ map (λ field. type_in (field_of field)) fields.now) }
{
    if values.len() != fields.len() {
        return false;
    }
    for (i, field) in fields.iter().enumerate() {
        if values[i].data_type() != field.data_type() {
            return false;
        }
    }
    true
}
