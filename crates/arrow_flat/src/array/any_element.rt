//! Primitive arrays as arrays of any element type, and back.

ghost use Rattle.std.specs.Prelude.{◌≡◌, IfOk, IsOkUnless};
ghost use Rattle.arrow_types.specs.declared.error.Error.{Error};
ghost use Rattle.arrow_flat.specs.AnyPrimitive.{any_parts, element_of, seen_by};

use crate::array::{AnyPrimitive, PrimitiveArray};
use arrow_types::error::Error;
use arrow_types::types::{NativeType, days_ms, i256, months_days_ns};

/// An element type of an array of any element type.
pub trait AnyElement: NativeType {
    /// The array as one of any element type. It shares what is stored and copies none of it.
    ///
    /// # Errors
    /// `OutOfMemory` where the memory of the data type's names is refused.
    fn to_any(array: &PrimitiveArray<Self>) -> Result<AnyPrimitive, Error>
        ensures ok { IfOk result (λ any. any_parts any ≡ seen_by Self.slot array.now) }
        ensures err { IsOkUnless result Error.OutOfMemory };

    /// An array of any element type as one of this.
    ///
    /// # Requires
    /// The array's elements are of this type.
    fn of_any(array: &AnyPrimitive) -> &PrimitiveArray<Self>
        requires { element_of array.now ≡ Self.PRIMITIVE }
        ensures { seen_by Self.slot result.now ≡ any_parts array.now };
}

/// The array of the one element type that it can have.
macro_rules! of_element {
    ($any:expr, $element:ident) => {
        match $any {
            AnyPrimitive::$element(array) => array,
            _ => unreachable!(),
        }
    };
}

impl AnyElement for i8 {
    fn to_any(array: &PrimitiveArray<i8>) -> Result<AnyPrimitive, Error> {
        Ok(AnyPrimitive::Int8(array.clone()?))
    }

    fn of_any(array: &AnyPrimitive) -> &PrimitiveArray<i8> {
        of_element!(array, Int8)
    }
}

impl AnyElement for i16 {
    fn to_any(array: &PrimitiveArray<i16>) -> Result<AnyPrimitive, Error> {
        Ok(AnyPrimitive::Int16(array.clone()?))
    }

    fn of_any(array: &AnyPrimitive) -> &PrimitiveArray<i16> {
        of_element!(array, Int16)
    }
}

impl AnyElement for i32 {
    fn to_any(array: &PrimitiveArray<i32>) -> Result<AnyPrimitive, Error> {
        Ok(AnyPrimitive::Int32(array.clone()?))
    }

    fn of_any(array: &AnyPrimitive) -> &PrimitiveArray<i32> {
        of_element!(array, Int32)
    }
}

impl AnyElement for i64 {
    fn to_any(array: &PrimitiveArray<i64>) -> Result<AnyPrimitive, Error> {
        Ok(AnyPrimitive::Int64(array.clone()?))
    }

    fn of_any(array: &AnyPrimitive) -> &PrimitiveArray<i64> {
        of_element!(array, Int64)
    }
}

impl AnyElement for i128 {
    fn to_any(array: &PrimitiveArray<i128>) -> Result<AnyPrimitive, Error> {
        Ok(AnyPrimitive::Int128(array.clone()?))
    }

    fn of_any(array: &AnyPrimitive) -> &PrimitiveArray<i128> {
        of_element!(array, Int128)
    }
}

impl AnyElement for i256 {
    fn to_any(array: &PrimitiveArray<i256>) -> Result<AnyPrimitive, Error> {
        Ok(AnyPrimitive::Int256(array.clone()?))
    }

    fn of_any(array: &AnyPrimitive) -> &PrimitiveArray<i256> {
        of_element!(array, Int256)
    }
}

impl AnyElement for u8 {
    fn to_any(array: &PrimitiveArray<u8>) -> Result<AnyPrimitive, Error> {
        Ok(AnyPrimitive::UInt8(array.clone()?))
    }

    fn of_any(array: &AnyPrimitive) -> &PrimitiveArray<u8> {
        of_element!(array, UInt8)
    }
}

impl AnyElement for u16 {
    fn to_any(array: &PrimitiveArray<u16>) -> Result<AnyPrimitive, Error> {
        Ok(AnyPrimitive::UInt16(array.clone()?))
    }

    fn of_any(array: &AnyPrimitive) -> &PrimitiveArray<u16> {
        of_element!(array, UInt16)
    }
}

impl AnyElement for u32 {
    fn to_any(array: &PrimitiveArray<u32>) -> Result<AnyPrimitive, Error> {
        Ok(AnyPrimitive::UInt32(array.clone()?))
    }

    fn of_any(array: &AnyPrimitive) -> &PrimitiveArray<u32> {
        of_element!(array, UInt32)
    }
}

impl AnyElement for u64 {
    fn to_any(array: &PrimitiveArray<u64>) -> Result<AnyPrimitive, Error> {
        Ok(AnyPrimitive::UInt64(array.clone()?))
    }

    fn of_any(array: &AnyPrimitive) -> &PrimitiveArray<u64> {
        of_element!(array, UInt64)
    }
}

impl AnyElement for days_ms {
    fn to_any(array: &PrimitiveArray<days_ms>) -> Result<AnyPrimitive, Error> {
        Ok(AnyPrimitive::DaysMs(array.clone()?))
    }

    fn of_any(array: &AnyPrimitive) -> &PrimitiveArray<days_ms> {
        of_element!(array, DaysMs)
    }
}

impl AnyElement for months_days_ns {
    fn to_any(array: &PrimitiveArray<months_days_ns>) -> Result<AnyPrimitive, Error> {
        Ok(AnyPrimitive::MonthDayNano(array.clone()?))
    }

    fn of_any(array: &AnyPrimitive) -> &PrimitiveArray<months_days_ns> {
        of_element!(array, MonthDayNano)
    }
}
