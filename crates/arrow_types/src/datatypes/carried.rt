//! The data types whose arrays are carried.

ghost use Rattle.std.specs.Prelude.{◌↔◌, IsTrue};
ghost use Rattle.arrow_types.specs.ArrowType.{logical};
ghost use Rattle.arrow_types.specs.Carried.{IsPair, HasField, IsTypeId, AreDistinctIds, AreTypeIds, IsCarried, AreCarried};
ghost use Rattle.arrow_types.specs.TypeOf.{type_of, fields_of, ids_of};

use crate::datatypes::{DataType, Field};

/// How many type ids there are: 0, 1, 2, .., 127.
const TYPE_IDS: usize = 128;

impl DataType {
    /// Whether arrays of this type are carried: no float in it anywhere, at least one field in each
    /// struct and union, fixed sizes of at least 1, a struct of two fields in each map (extensions
    /// around it aside), and type ids as Arrow's format has them ("Union Layout"): as many as the
    /// fields, distinct and in 0..=127, or at most 128 fields where no ids are given.
    #[cycle(carried)]
    pub fn is_carried(&self) -> bool
        ensures { IsTrue result ↔ IsCarried (type_of self.now) }
    {
        match self {
            DataType::Float16 | DataType::Float32 | DataType::Float64 => false,
            DataType::FixedSizeBinary(size) => *size > 0,
            DataType::List(field) | DataType::LargeList(field) => field.data_type.is_carried(),
            DataType::FixedSizeList(field, size) => *size > 0 && field.data_type.is_carried(),
            DataType::Struct(fields) => has_carried_fields(fields),
            DataType::Union(fields, ids, _) => {
                are_type_ids(ids, fields.len()) && has_carried_fields(fields)
            }
            DataType::Map(field, _) => field.data_type.is_pair() && field.data_type.is_carried(),
            DataType::Dictionary(_, inner, _) | DataType::Extension(_, inner, _) => {
                inner.is_carried()
            }
            _ => true,
        }
    }

    /// Whether it is a struct of two fields.
    fn is_pair(&self) -> bool
        ensures { IsTrue result ↔ IsPair (logical (type_of self.now)) }
    {
        match self.to_logical_type() {
            DataType::Struct(fields) => fields.len() == 2,
            _ => false,
        }
    }
}

// Whether there is a field and all are carried.
#[cycle(carried)]
fn has_carried_fields(fields: &[Field]) -> bool
    ensures { IsTrue result ↔ (HasField (fields_of fields.now) × AreCarried (fields_of fields.now)) }
{
    for field in fields {
        if !field.data_type.is_carried() {
            return false;
        }
    }
    !fields.is_empty()
}

// Whether these can be the type ids of so many fields. An id that comes twice ends the search, so
// no list is read further than its first 129 ids.
fn are_type_ids(ids: &Option<Vec<i32>>, count: usize) -> bool
    ensures { IsTrue result ↔ AreTypeIds (ids_of ids.now) count }
{
    match ids {
        None => count <= TYPE_IDS,
        Some(ids) => ids.len() == count && are_distinct_ids(ids),
    }
}

// Whether each is a type id and none comes twice.
fn are_distinct_ids(ids: &[i32]) -> bool
    ensures { IsTrue result ↔ AreDistinctIds ids.now }
{
    for (i, id) in ids.iter().enumerate() {
        if !is_type_id(id) || ids[..i].contains(id) {
            return false;
        }
    }
    true
}

fn is_type_id(id: &i32) -> bool
    ensures { IsTrue result ↔ IsTypeId id.now }
{
    (0..=127).contains(id)
}
