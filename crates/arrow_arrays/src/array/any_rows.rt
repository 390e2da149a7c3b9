//! Arrays of texts and of bytes as arrays of any type, and back.

ghost use Rattle.std.specs.Prelude.{◌≡◌, Bool, IfOk, IsOkUnless};
ghost use Rattle.arrow_types.specs.declared.error.Error.{Error};
ghost use Rattle.arrow_types.specs.Slot.{Text as text, Bytes as bytes};
ghost use Rattle.arrow_arrays.specs.Any.{Kind, kind_of, layout_of, byte_layout, text_kind, bytes_kind};

use crate::array::AnyArray;
use arrow_flat::array::{Binary, BinaryArray, ByteKind, ByteRows, FlatArray, Text, Utf8Array};
use arrow_types::error::Error;
use arrow_types::types::Offset;

/// An offset type under which an array of any type may hold texts or bytes: 32 or 64 bits.
pub trait AnyOffset: Offset {
    /// Texts as an array of any type, which shares what is stored.
    ///
    /// # Errors
    /// `OutOfMemory` where the memory of the data type's names is refused.
    fn utf8_to_any(array: &Utf8Array<Self>) -> Result<AnyArray, Error>
        ensures ok { IfOk result (λ any. layout_of any ≡ byte_layout text array.now) }
        ensures err { IsOkUnless result Error.OutOfMemory };

    /// An array of any type as one of texts under such offsets.
    ///
    /// # Requires
    /// The array is of this kind.
    fn utf8_of_any(array: &AnyArray) -> &Utf8Array<Self>
        requires { kind_of array.now ≡ text_kind Self.IS_LARGE }
        ensures { byte_layout text result.now ≡ layout_of array.now };

    /// Bytes as an array of any type, which shares what is stored.
    ///
    /// # Errors
    /// `OutOfMemory` where the memory of the data type's names is refused.
    fn binary_to_any(array: &BinaryArray<Self>) -> Result<AnyArray, Error>
        ensures ok { IfOk result (λ any. layout_of any ≡ byte_layout bytes array.now) }
        ensures err { IsOkUnless result Error.OutOfMemory };

    /// An array of any type as one of bytes under such offsets.
    ///
    /// # Requires
    /// The array is of this kind.
    fn binary_of_any(array: &AnyArray) -> &BinaryArray<Self>
        requires { kind_of array.now ≡ bytes_kind Self.IS_LARGE }
        ensures { byte_layout bytes result.now ≡ layout_of array.now };
}

/// The array of the one kind that it can have.
macro_rules! of_kind {
    ($any:expr, $kind:ident) => {
        match $any {
            AnyArray::$kind(array) => array,
            _ => unreachable!(),
        }
    };
}

impl AnyOffset for i32 {
    fn utf8_to_any(array: &Utf8Array<i32>) -> Result<AnyArray, Error> {
        Ok(AnyArray::Utf8(array.clone()?))
    }

    fn utf8_of_any(array: &AnyArray) -> &Utf8Array<i32> {
        of_kind!(array, Utf8)
    }

    fn binary_to_any(array: &BinaryArray<i32>) -> Result<AnyArray, Error> {
        Ok(AnyArray::Binary(array.clone()?))
    }

    fn binary_of_any(array: &AnyArray) -> &BinaryArray<i32> {
        of_kind!(array, Binary)
    }
}

impl AnyOffset for i64 {
    fn utf8_to_any(array: &Utf8Array<i64>) -> Result<AnyArray, Error> {
        Ok(AnyArray::LargeUtf8(array.clone()?))
    }

    fn utf8_of_any(array: &AnyArray) -> &Utf8Array<i64> {
        of_kind!(array, LargeUtf8)
    }

    fn binary_to_any(array: &BinaryArray<i64>) -> Result<AnyArray, Error> {
        Ok(AnyArray::LargeBinary(array.clone()?))
    }

    fn binary_of_any(array: &AnyArray) -> &BinaryArray<i64> {
        of_kind!(array, LargeBinary)
    }
}

/// What rows of bytes are, where arrays of any type hold them: texts or bytes.
pub trait AnyRows: ByteKind {
    // the kind of their arrays, by whether the offsets are those of the large forms
    ghost any_kind: { Bool → Kind };

    /// The array as one of any type, which shares what is stored.
    ///
    /// # Errors
    /// `OutOfMemory` where the memory of the data type's names is refused.
    fn to_any<O: AnyOffset>(array: &FlatArray<ByteRows<O, Self>>) -> Result<AnyArray, Error>
        ensures ok { IfOk result (λ any. layout_of any ≡ byte_layout Self.slot array.now) }
        ensures err { IsOkUnless result Error.OutOfMemory };

    /// An array of any type as one of such rows.
    ///
    /// # Requires
    /// The array has such rows, under offsets of this type.
    fn of_any<O: AnyOffset>(array: &AnyArray) -> &FlatArray<ByteRows<O, Self>>
        requires { kind_of array.now ≡ any_kind O.IS_LARGE }
        ensures { byte_layout Self.slot result.now ≡ layout_of array.now };
}

impl AnyRows for Text {
    ghost any_kind = { text_kind };

    fn to_any<O: AnyOffset>(array: &Utf8Array<O>) -> Result<AnyArray, Error> {
        O::utf8_to_any(array)
    }

    fn of_any<O: AnyOffset>(array: &AnyArray) -> &Utf8Array<O> {
        O::utf8_of_any(array)
    }
}

impl AnyRows for Binary {
    ghost any_kind = { bytes_kind };

    fn to_any<O: AnyOffset>(array: &BinaryArray<O>) -> Result<AnyArray, Error> {
        O::binary_to_any(array)
    }

    fn of_any<O: AnyOffset>(array: &AnyArray) -> &BinaryArray<O> {
        O::binary_of_any(array)
    }
}
