//! Scalars that are truth values.

ghost use Rattle.std.specs.Prelude.{◌≡◌, not};
ghost use Rattle.arrow_types.specs.ArrowType.{plain, boolean};
ghost use Rattle.arrow_types.specs.Relation.{is_null};
ghost use Rattle.arrow_types.specs.Slot.{Boolean};
ghost use Rattle.arrow_types.specs.TypeOf.{type_of};
ghost use Rattle.arrow_flat.specs.Scalars.{slot_by};

use arrow_types::datatypes::DataType;
use std::marker::Model;

/// A truth value, or a null of type Boolean.
pub struct BooleanScalar {
    data_type: DataType,
    value: Option<bool>,
}

// by hand, so that a drop is a call, and is not written out wherever a value is dropped
impl Drop for BooleanScalar {
    fn drop(self) {
        let BooleanScalar {
            data_type: _,
            value: _,
        } = self;
    }
}

impl Model for BooleanScalar {
    ghost use Rattle.std.specs.Prelude.{◌≡◌, Bool};
    ghost use Rattle.std.specs.Coded.{coded_bool};
    ghost use Rattle.arrow_types.specs.ArrowType.{plain, boolean};
    ghost use Rattle.arrow_types.specs.TypeOf.{type_of};
    ghost use Rattle.arrow_flat.specs.Scalars.{ScalarParts, scalar_code};

    ghost Value = { ScalarParts Bool };

    ghost coded = { scalar_code coded_bool };

    ghost view = { λ a. record { arrow_type = type_of a.data_type; value = a.value } };

    ghost invariant = { λ a. type_of a.data_type ≡ plain boolean };
}

impl BooleanScalar {
    /// A truth value, or a null. It takes no memory.
    pub fn new(value: Option<bool>) -> BooleanScalar
        ensures { result ≡ record { arrow_type = plain boolean; value = value } }
    {
        BooleanScalar {
            data_type: DataType::Boolean,
            value,
        }
    }

    /// The data type, which is Boolean.
    pub fn data_type(&self) -> &DataType
        ensures same { type_of result.now ≡ self.now.arrow_type }
        ensures kind { self.now.arrow_type ≡ plain boolean }
    {
        &self.data_type
    }

    /// Whether it is no null.
    pub fn is_valid(&self) -> bool
        ensures { result ≡ not (is_null (slot_by Boolean self.now.value)) }
    {
        self.value.is_some()
    }

    /// The value, or `None` of a null.
    pub fn value(&self) -> Option<bool>
        ensures { result ≡ self.now.value }
    {
        self.value
    }
}
