//! Scalars that are texts.

ghost use Rattle.std.specs.Prelude.{◌≡◌, option_map, string_bytes, IfSome, IsUtf8, if◌then◌else◌};
ghost use Rattle.arrow_types.specs.ArrowType.{plain, utf8, large_utf8};

use crate::array::Text;
use crate::scalar::ByteScalar;
use arrow_types::types::Offset;

/// A text, or a null, of type Utf8 or, where `O` is that of the large forms, LargeUtf8.
pub type Utf8Scalar<O> = ByteScalar<O, Text>;

// The bytes of a text, which are moved and not copied.
fn into_bytes(text: Option<String>) -> Option<Vec<u8>>
    ensures same { option_map (λ bytes. bytes.items) result ≡ option_map string_bytes text }
    ensures text { IfSome result (λ bytes. IsUtf8 bytes.items) }
{
    match text {
        None => None,
        Some(text) => Some(text.into_bytes()),
    }
}

impl<O: Offset> ByteScalar<O, Text> {
    /// A text, or a null. It takes no memory.
    pub fn new(value: Option<String>) -> Utf8Scalar<O>
        ensures { result ≡ record {
          arrow_type = plain (if O.IS_LARGE then large_utf8 else utf8);
          value = option_map string_bytes value;
        } }
    {
        ByteScalar::of_bytes(into_bytes(value))
    }

    /// The text, or `None` of a null.
    pub fn value(&self) -> Option<&str>
        ensures { option_map (λ text. text.now) result ≡ self.now.value }
    {
        match self.bytes() {
            None => None,
            Some(bytes) => Some(unsafe { str::from_utf8_unchecked(bytes) }),
        }
    }
}
