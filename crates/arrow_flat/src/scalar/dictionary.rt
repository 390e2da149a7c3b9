//! Scalars of dictionary types, and scalars of any type.

ghost use Rattle.std.specs.Prelude.{◌≡◌, ◌↔◌, not, option_map, MatchOption, IsTrue, IfOk, IfErr, OnOk};
ghost use Rattle.arrow_types.specs.Relation.{is_null};
ghost use Rattle.arrow_types.specs.TypeOf.{type_of};
ghost use Rattle.arrow_flat.specs.AnyScalar.{meaning_of, inner_of};
ghost use Rattle.arrow_flat.specs.DictionaryScalar.{dict_slot, HasDictionary, values_in, IsOf, IsDictionary, NamesKindOrChild};

use crate::scalar::{AnyPrimitiveScalar, BinaryScalar, BooleanScalar, Utf8Scalar};
use arrow_types::datatypes::DataType;
use arrow_types::error::{Error, SpecPart};
use std::marker::Model;

/// A value of a dictionary, or a null, of a dictionary's type.
#[cycle(scalars)]
pub struct DictionaryScalar {
    data_type: DataType,
    value: Option<Box<AnyScalar>>,
}

// by hand, so that a drop is a call, and is not written out wherever a value is dropped
impl Drop for DictionaryScalar {
    #[cycle(scalars)]
    fn drop(self) {
        let DictionaryScalar {
            data_type: _,
            value: _,
        } = self;
    }
}

/// A scalar of any type that has one.
#[cycle(scalars)]
#[derive(Drop)]
pub enum AnyScalar {
    Boolean(BooleanScalar),
    Primitive(AnyPrimitiveScalar),
    Utf8(Utf8Scalar<i32>),
    LargeUtf8(Utf8Scalar<i64>),
    Binary(BinaryScalar<i32>),
    LargeBinary(BinaryScalar<i64>),
    Dictionary(DictionaryScalar),
}

impl Model for DictionaryScalar {
    ghost use Rattle.arrow_types.specs.TypeOf.{type_of};
    ghost use Rattle.arrow_flat.specs.DictionaryScalar.{DictionaryParts, dictionary_code, IsDictionary, dict_depth};

    ghost Value = { DictionaryParts };

    ghost coded = { dictionary_code };

    ghost use Rattle.arrow_flat.specs.AnyScalar.{inner_of};

    ghost view = { λ a. record { arrow_type = type_of a.data_type; value = inner_of a.value } };

    ghost invariant = { λ a. IsDictionary
        (record { arrow_type = type_of a.data_type; value = inner_of a.value }) };

    ghost size = { dict_depth };

    ghost use Rattle.arrow_flat.specs.ScalarFalls.{value_falls};

    ghost size_decreases = { λ a h. value_falls a.data_type a.value };
}

impl DictionaryScalar {
    /// A value of a dictionary of this data type, or a null. It takes no memory.
    ///
    /// # Errors
    /// `OutOfSpec(Kind)` where the data type is no dictionary's, extensions around it apart, and otherwise
    /// `OutOfSpec(Child)` where the value is not of the type of the dictionary's values, extensions around
    /// both apart.
    pub fn try_new(
        data_type: DataType,
        value: Option<Box<AnyScalar>>,
    ) -> Result<DictionaryScalar, Error>
        ensures ok { IfOk result (λ scalar. scalar
            ≡ record { arrow_type = type_of data_type; value = inner_of value }) }
        ensures sound { OnOk result
            (HasDictionary (type_of data_type) × IsOf (values_in (type_of data_type)) (inner_of value)) }
        ensures fault { IfErr result
            (NamesKindOrChild (HasDictionary (type_of data_type))
            (IsOf (values_in (type_of data_type)) (inner_of value))) }
    {
        let Some(values) = values_of(&data_type) else {
            return Err(Error::OutOfSpec(SpecPart::Kind));
        };
        if !is_of(&value, values) {
            return Err(Error::OutOfSpec(SpecPart::Child));
        }
        Ok(DictionaryScalar { data_type, value })
    }

    /// The data type.
    pub fn data_type(&self) -> &DataType
        ensures same { type_of result.now ≡ self.now.arrow_type }
        ensures sound { IsDictionary self.now }
    {
        &self.data_type
    }

    /// Whether it is no null. A value of the dictionary may itself be null.
    pub fn is_valid(&self) -> bool
        ensures { result ≡ not (is_null (dict_slot self.now)) }
    {
        self.value.is_some()
    }

    /// The value, or `None` of a null.
    pub fn value(&self) -> Option<&AnyScalar>
        ensures { option_map (λ scalar. meaning_of scalar.now) result ≡ self.now.value }
    {
        match &self.value {
            None => None,
            Some(scalar) => Some(scalar),
        }
    }
}

impl AnyScalar {
    /// The data type.
    pub fn data_type(&self) -> &DataType
        ensures { type_of result.now ≡ (meaning_of self.now).0 }
    {
        match self {
            AnyScalar::Boolean(scalar) => scalar.data_type(),
            AnyScalar::Primitive(scalar) => scalar.data_type(),
            AnyScalar::Utf8(scalar) => scalar.data_type(),
            AnyScalar::LargeUtf8(scalar) => scalar.data_type(),
            AnyScalar::Binary(scalar) => scalar.data_type(),
            AnyScalar::LargeBinary(scalar) => scalar.data_type(),
            AnyScalar::Dictionary(scalar) => scalar.data_type(),
        }
    }

    /// Whether it is no null.
    pub fn is_valid(&self) -> bool
        ensures { result ≡ not (is_null (meaning_of self.now).1) }
    {
        match self {
            AnyScalar::Boolean(scalar) => scalar.is_valid(),
            AnyScalar::Primitive(scalar) => scalar.is_valid(),
            AnyScalar::Utf8(scalar) => scalar.is_valid(),
            AnyScalar::LargeUtf8(scalar) => scalar.is_valid(),
            AnyScalar::Binary(scalar) => scalar.is_valid(),
            AnyScalar::LargeBinary(scalar) => scalar.is_valid(),
            AnyScalar::Dictionary(scalar) => scalar.is_valid(),
        }
    }
}

// The type of a dictionary's values, or `None` where the data type is no dictionary's.
fn values_of(data_type: &DataType) -> Option<&DataType>
    ensures { MatchOption result (HasDictionary (type_of data_type.now) → ⊥)
        (λ values. HasDictionary (type_of data_type.now)
        × (type_of values.now ≡ values_in (type_of data_type.now))) }
{
    match data_type {
        DataType::Dictionary(_, values, _) => Some(values),
        DataType::Extension(_, inner, _) => values_of(inner),
        _ => None,
    }
}

// Whether a scalar, if there is one, is of this type, extensions around both apart.
fn is_of(value: &Option<Box<AnyScalar>>, data_type: &DataType) -> bool
    ensures { IsTrue result ↔ IsOf (type_of data_type.now) (inner_of value.now) }
{
    match value {
        None => true,
        Some(scalar) => scalar.data_type().to_logical_type() == data_type.to_logical_type(),
    }
}
