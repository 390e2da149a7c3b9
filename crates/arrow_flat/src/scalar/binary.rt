//! Scalars that are bytes.

ghost use Rattle.std.specs.Prelude.{◌≡◌, option_map, if◌then◌else◌};
ghost use Rattle.arrow_types.specs.ArrowType.{plain, binary, large_binary};

use crate::array::Binary;
use crate::scalar::ByteScalar;
use arrow_types::types::Offset;

/// Bytes, or a null, of type Binary or, where `O` is that of the large forms, LargeBinary.
pub type BinaryScalar<O> = ByteScalar<O, Binary>;

impl<O: Offset> ByteScalar<O, Binary> {
    /// Bytes, or a null. It takes no memory.
    pub fn new(value: Option<Vec<u8>>) -> BinaryScalar<O>
        ensures { result ≡ record {
          arrow_type = plain (if O.IS_LARGE then large_binary else binary);
          value = option_map (λ bytes. bytes.items) value;
        } }
    {
        ByteScalar::of_bytes(value)
    }

    /// The bytes, or `None` of a null.
    pub fn value(&self) -> Option<&[u8]>
        ensures { option_map (λ bytes. bytes.now) result ≡ self.now.value }
    {
        self.bytes()
    }
}
