//! Scalars that are numbers or intervals.

ghost use Rattle.std.specs.Prelude.{◌≡◌, not, IfOk, IfErr, OnOk};
ghost use Rattle.arrow_types.specs.Relation.{is_null};
ghost use Rattle.arrow_types.specs.TypeOf.{type_of};
ghost use Rattle.arrow_types.specs.declared.datatypes.physical_type.PhysicalType.TheVariants as physical;
ghost use Rattle.arrow_flat.specs.AnyPrimitiveScalar.{any_scalar_type, any_scalar_slot, element_of};
ghost use Rattle.arrow_flat.specs.Faults.{IsCarriedAs, NamesKindOrLength};
ghost use Rattle.arrow_flat.specs.Scalars.{slot_by};

use crate::array::is_carried_as;
use arrow_types::datatypes::{DataType, PhysicalType};
use arrow_types::error::{Error, SpecPart};
use arrow_types::types::{NativeType, days_ms, i256, months_days_ns};
use std::marker::Model;

/// A number or an interval, or a null, of a data type whose rows are stored as `T`.
pub struct PrimitiveScalar<T: NativeType> {
    data_type: DataType,
    value: Option<T>,
}

// by hand, so that a drop is a call, and is not written out wherever a value is dropped
impl<T: NativeType> Drop for PrimitiveScalar<T> {
    fn drop(self) {
        let PrimitiveScalar {
            data_type: _,
            value: _,
        } = self;
    }
}

impl<T: NativeType> Model for PrimitiveScalar<T> {
    ghost use Rattle.arrow_types.specs.TypeOf.{type_of};
    ghost use Rattle.arrow_types.specs.declared.datatypes.physical_type.PhysicalType.TheVariants as physical;
    ghost use Rattle.arrow_flat.specs.Faults.{IsCarriedAs};
    ghost use Rattle.arrow_flat.specs.Scalars.{ScalarParts, scalar_code};

    ghost Value = { ScalarParts T };

    ghost coded = { scalar_code T.code };

    ghost view = { λ a. record { arrow_type = type_of a.data_type; value = a.value } };

    ghost invariant = { λ a. IsCarriedAs (physical.Primitive T.PRIMITIVE) (type_of a.data_type) };
}

impl<T: NativeType> PrimitiveScalar<T> {
    /// A value of this data type, or a null. It takes no memory.
    ///
    /// # Errors
    /// `OutOfSpec(Kind)` where the data type is not carried or has another physical type.
    pub fn try_new(data_type: DataType, value: Option<T>) -> Result<PrimitiveScalar<T>, Error>
        ensures ok { IfOk result (λ scalar. scalar
            ≡ record { arrow_type = type_of data_type; value = value }) }
        ensures sound { OnOk result (IsCarriedAs (physical.Primitive T.PRIMITIVE) (type_of data_type)) }
        ensures fault { IfErr result
            (NamesKindOrLength (IsCarriedAs (physical.Primitive T.PRIMITIVE) (type_of data_type))
            (Unit {0})) }
    {
        if !is_carried_as(&data_type, PhysicalType::Primitive(T::PRIMITIVE)) {
            return Err(Error::OutOfSpec(SpecPart::Kind));
        }
        Ok(PrimitiveScalar { data_type, value })
    }

    /// The data type.
    pub fn data_type(&self) -> &DataType
        ensures same { type_of result.now ≡ self.now.arrow_type }
        ensures kind { IsCarriedAs (physical.Primitive T.PRIMITIVE) self.now.arrow_type }
    {
        &self.data_type
    }

    /// Whether it is no null.
    pub fn is_valid(&self) -> bool
        ensures { result ≡ not (is_null (slot_by T.slot self.now.value)) }
    {
        self.value.is_some()
    }

    /// The value, or `None` of a null.
    pub fn value(&self) -> Option<T>
        ensures { result ≡ self.now.value }
    {
        self.value
    }
}

/// A scalar of any element type.
#[derive(Drop)]
pub enum AnyPrimitiveScalar {
    Int8(PrimitiveScalar<i8>),
    Int16(PrimitiveScalar<i16>),
    Int32(PrimitiveScalar<i32>),
    Int64(PrimitiveScalar<i64>),
    Int128(PrimitiveScalar<i128>),
    Int256(PrimitiveScalar<i256>),
    UInt8(PrimitiveScalar<u8>),
    UInt16(PrimitiveScalar<u16>),
    UInt32(PrimitiveScalar<u32>),
    UInt64(PrimitiveScalar<u64>),
    DaysMs(PrimitiveScalar<days_ms>),
    MonthDayNano(PrimitiveScalar<months_days_ns>),
}

/// What an expression says of the scalar, whatever its element type.
macro_rules! of_any {
    ($any:expr, $scalar:ident => $result:expr) => {
        match $any {
            AnyPrimitiveScalar::Int8($scalar) => $result,
            AnyPrimitiveScalar::Int16($scalar) => $result,
            AnyPrimitiveScalar::Int32($scalar) => $result,
            AnyPrimitiveScalar::Int64($scalar) => $result,
            AnyPrimitiveScalar::Int128($scalar) => $result,
            AnyPrimitiveScalar::Int256($scalar) => $result,
            AnyPrimitiveScalar::UInt8($scalar) => $result,
            AnyPrimitiveScalar::UInt16($scalar) => $result,
            AnyPrimitiveScalar::UInt32($scalar) => $result,
            AnyPrimitiveScalar::UInt64($scalar) => $result,
            AnyPrimitiveScalar::DaysMs($scalar) => $result,
            AnyPrimitiveScalar::MonthDayNano($scalar) => $result,
        }
    };
}

impl AnyPrimitiveScalar {
    /// The data type.
    pub fn data_type(&self) -> &DataType
        ensures same { type_of result.now ≡ any_scalar_type self.now }
        ensures kind { IsCarriedAs (physical.Primitive (element_of self.now)) (any_scalar_type self.now) }
    {
        of_any!(self, scalar => scalar.data_type())
    }

    /// Whether it is no null.
    pub fn is_valid(&self) -> bool
        ensures { result ≡ not (is_null (any_scalar_slot self.now)) }
    {
        of_any!(self, scalar => scalar.is_valid())
    }
}
