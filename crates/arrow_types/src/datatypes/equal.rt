//! Equality of data types and fields.

ghost use Rattle.std.specs.Prelude.{◌≡◌, ◌↔◌, IsTrue};
ghost use Rattle.std.specs.Cmp.{partial_equiv_from_equiv, on_equiv};
ghost use Rattle.arrow_types.specs.SameTree.{same_by, same_by-equivalence};
ghost use Rattle.arrow_types.specs.StoredType.{type_code, field_code};
ghost use Rattle.arrow_types.specs.TypeOf.{type_of, field_of, fields_of, ids_of};

use crate::datatypes::{DataType, Field};

/// Two types are equal where they are the same tree: names, units, sizes, ids and flags included.
impl PartialEq for DataType {
    ghost eq = { λ a b. same_by type_code (type_of a) (type_of b) };

    ghost laws = { partial_equiv_from_equiv (on_equiv type_of (same_by-equivalence type_code)) };

    fn eq(&self, other: &DataType) -> bool
        ensures value { result ≡ same_by type_code (type_of self.now) (type_of other.now) }
        ensures types { IsTrue result ↔ (type_of self.now ≡ type_of other.now) }
    {
        equal_types(self, other)
    }
}

impl Eq for DataType {
    ghost laws = { on_equiv type_of (same_by-equivalence type_code) };
}

/// Two fields are equal where name, data type and nullability are.
impl PartialEq for Field {
    ghost eq = { λ a b. same_by field_code (field_of a) (field_of b) };

    ghost laws = { partial_equiv_from_equiv (on_equiv field_of (same_by-equivalence field_code)) };

    fn eq(&self, other: &Field) -> bool
        ensures value { result ≡ same_by field_code (field_of self.now) (field_of other.now) }
        ensures fields { IsTrue result ↔ (field_of self.now ≡ field_of other.now) }
    {
        equal_fields(self, other)
    }
}

impl Eq for Field {
    ghost laws = { on_equiv field_of (same_by-equivalence field_code) };
}

#[cycle(equal)]
fn equal_types(left: &DataType, right: &DataType) -> bool
    ensures { IsTrue result ↔ (type_of left.now ≡ type_of right.now) }
{
    match (left, right) {
        (DataType::Null, DataType::Null)
        | (DataType::Boolean, DataType::Boolean)
        | (DataType::Int8, DataType::Int8)
        | (DataType::Int16, DataType::Int16)
        | (DataType::Int32, DataType::Int32)
        | (DataType::Int64, DataType::Int64)
        | (DataType::UInt8, DataType::UInt8)
        | (DataType::UInt16, DataType::UInt16)
        | (DataType::UInt32, DataType::UInt32)
        | (DataType::UInt64, DataType::UInt64)
        | (DataType::Float16, DataType::Float16)
        | (DataType::Float32, DataType::Float32)
        | (DataType::Float64, DataType::Float64)
        | (DataType::Date32, DataType::Date32)
        | (DataType::Date64, DataType::Date64)
        | (DataType::Binary, DataType::Binary)
        | (DataType::LargeBinary, DataType::LargeBinary)
        | (DataType::Utf8, DataType::Utf8)
        | (DataType::LargeUtf8, DataType::LargeUtf8) => true,
        (DataType::Timestamp(a, timezone), DataType::Timestamp(b, other_timezone)) => {
            a == b && timezone == other_timezone
        }
        (DataType::Time32(a), DataType::Time32(b))
        | (DataType::Time64(a), DataType::Time64(b))
        | (DataType::Duration(a), DataType::Duration(b)) => a == b,
        (DataType::Interval(a), DataType::Interval(b)) => a == b,
        (DataType::FixedSizeBinary(a), DataType::FixedSizeBinary(b)) => a == b,
        (DataType::Decimal(a, scale), DataType::Decimal(b, other_scale))
        | (DataType::Decimal256(a, scale), DataType::Decimal256(b, other_scale)) => {
            a == b && scale == other_scale
        }
        (DataType::List(a), DataType::List(b)) | (DataType::LargeList(a), DataType::LargeList(b)) =>
            { equal_fields(a, b) }
        (DataType::FixedSizeList(a, size), DataType::FixedSizeList(b, other_size)) => {
            size == other_size && equal_fields(a, b)
        }
        (DataType::Struct(a), DataType::Struct(b)) => equal_children(a, b),
        (DataType::Union(a, ids, mode), DataType::Union(b, other_ids, other_mode)) => {
            mode == other_mode && equal_ids(ids, other_ids) && equal_children(a, b)
        }
        (DataType::Map(a, is_sorted), DataType::Map(b, other_is_sorted)) => {
            is_sorted == other_is_sorted && equal_fields(a, b)
        }
        (
            DataType::Dictionary(keys, a, is_ordered),
            DataType::Dictionary(other_keys, b, other_is_ordered),
        ) => keys == other_keys && is_ordered == other_is_ordered && equal_types(a, b),
        (
            DataType::Extension(name, a, metadata),
            DataType::Extension(other_name, b, other_metadata),
        ) => name == other_name && metadata == other_metadata && equal_types(a, b),
        _ => false,
    }
}

#[cycle(equal)]
fn equal_fields(left: &Field, right: &Field) -> bool
    ensures { IsTrue result ↔ (field_of left.now ≡ field_of right.now) }
{
    left.name == right.name
        && left.is_nullable == right.is_nullable
        && equal_types(&left.data_type, &right.data_type)
}

#[cycle(equal)]
fn equal_children(left: &[Field], right: &[Field]) -> bool
    ensures { IsTrue result ↔ (fields_of left.now ≡ fields_of right.now) }
{
    if left.len() != right.len() {
        return false;
    }
    for (i, field) in left.iter().enumerate() {
        if !equal_fields(field, &right[i]) {
            return false;
        }
    }
    true
}

fn equal_ids(left: &Option<Vec<i32>>, right: &Option<Vec<i32>>) -> bool
    ensures { IsTrue result ↔ (ids_of left.now ≡ ids_of right.now) }
{
    match (left, right) {
        (None, None) => true,
        (Some(left), Some(right)) => left.as_slice() == right.as_slice(),
        _ => false,
    }
}
