//! Which data types `can_take` lists.

ghost use Rattle.std.specs.Prelude.{◌↔◌, IsTrue};
ghost use Rattle.arrow_types.specs.TypeOf.{type_of, fields_of};
ghost use Rattle.arrow_take.specs.Taken.{AreTaken, IsTaken};

use arrow_types::datatypes::{DataType, Field};

// Whether a type is one that `can_take` lists.
#[cycle(is_taken)]
pub(super) fn is_taken(data_type: &DataType) -> bool
    ensures { IsTrue result ↔ IsTaken (type_of data_type.now) }
{
    match data_type {
        DataType::Float16 | DataType::Float32 | DataType::Float64 => false,
        DataType::Decimal256(_, _) | DataType::Extension(_, _, _) => false,
        DataType::Struct(fields) | DataType::Union(fields, _, _) => are_taken(fields),
        _ => true,
    }
}

// Whether the type of each field is.
#[cycle(is_taken)]
fn are_taken(fields: &[Field]) -> bool
    ensures { IsTrue result ↔ AreTaken (fields_of fields.now) }
{
    for field in fields {
        if !is_taken(field.data_type()) {
            return false;
        }
    }
    true
}
