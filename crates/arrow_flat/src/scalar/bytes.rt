//! What scalars that are texts and those that are bytes share.

ghost use Rattle.std.specs.Prelude.{◌≡◌, not, option_map, IfSome};
ghost use Rattle.arrow_types.specs.ArrowType.{plain};
ghost use Rattle.arrow_types.specs.Relation.{is_null};
ghost use Rattle.arrow_types.specs.TypeOf.{type_of};
ghost use Rattle.arrow_flat.specs.Scalars.{slot_by};

use crate::array::ByteKind;
use arrow_types::datatypes::DataType;
use arrow_types::types::Offset;
use std::marker::{Model, PhantomData};

/// A text or bytes, or a null.
pub struct ByteScalar<O: Offset, K: ByteKind> {
    data_type: DataType,
    value: Option<Vec<u8>>,
    offset: PhantomData<O>,
    kind: PhantomData<K>,
}

// by hand, so that a drop is a call, and is not written out wherever a value is dropped
impl<O: Offset, K: ByteKind> Drop for ByteScalar<O, K> {
    fn drop(self) {
        let ByteScalar {
            data_type: _,
            value: _,
            offset: _,
            kind: _,
        } = self;
    }
}

impl<O: Offset, K: ByteKind> Model for ByteScalar<O, K> {
    ghost use Rattle.std.specs.Prelude.{ℕ, List, option_map};
    ghost use Rattle.std.specs.Coded.{coded_list, coded_ℕ};
    ghost use Rattle.arrow_types.specs.ArrowType.{plain};
    ghost use Rattle.arrow_types.specs.TypeOf.{type_of};
    ghost use Rattle.arrow_flat.specs.Scalars.{ScalarParts, scalar_code, IsByteScalar};

    ghost Value = { ScalarParts (List ℕ) };

    ghost coded = { scalar_code (coded_list coded_ℕ) };

    ghost view = { λ a. record {
      arrow_type = type_of a.data_type;
      value = option_map (λ bytes. bytes.items) a.value;
    } };

    ghost invariant = { λ a. IsByteScalar (K.plain_type O.IS_LARGE) K.Allows
        (record { arrow_type = type_of a.data_type; value = option_map (λ bytes. bytes.items) a.value }) };
}

impl<O: Offset, K: ByteKind> ByteScalar<O, K> {
    /// A row of these bytes, or a null.
    pub(crate) fn of_bytes(value: Option<Vec<u8>>) -> ByteScalar<O, K>
        requires { IfSome value (λ bytes. K.Allows bytes.items) }
        ensures { result ≡ record {
          arrow_type = plain (K.plain_type O.IS_LARGE);
          value = option_map (λ bytes. bytes.items) value;
        } }
    {
        ByteScalar {
            data_type: K::data_type(O::IS_LARGE),
            value,
            offset: PhantomData,
            kind: PhantomData,
        }
    }

    /// The data type.
    pub fn data_type(&self) -> &DataType
        ensures same { type_of result.now ≡ self.now.arrow_type }
        ensures kind { self.now.arrow_type ≡ plain (K.plain_type O.IS_LARGE) }
    {
        &self.data_type
    }

    /// Whether it is no null.
    pub fn is_valid(&self) -> bool
        ensures { result ≡ not (is_null (slot_by K.slot self.now.value)) }
    {
        self.value.is_some()
    }

    /// The bytes, or `None` of a null.
    pub(crate) fn bytes(&self) -> Option<&[u8]>
        ensures value { option_map (λ bytes. bytes.now) result ≡ self.now.value }
        ensures kind { IfSome result (λ bytes. K.Allows bytes.now) }
    {
        match &self.value {
            None => None,
            Some(bytes) => Some(bytes.as_slice()),
        }
    }
}
