//! Arrays of texts.

ghost use Rattle.std.specs.Prelude.{◌≡◌, ◌<◌, length, slice_get, Some, IsUtf8, if◌then◌else◌, refl};
ghost use Rattle.arrow_types.specs.ArrowType.{utf8, large_utf8};
ghost use Rattle.arrow_types.specs.Slot.{Text as text};
ghost use Rattle.arrow_types.specs.declared.datatypes.physical_type.PhysicalType.TheVariants as physical;
ghost use Rattle.arrow_flat.specs.ByteRows.{row_bytes};

use crate::array::{ByteKind, ByteRows, FlatArray};
use arrow_types::datatypes::{DataType, PhysicalType};
use arrow_types::types::Offset;

/// An array of texts, under offsets of 32 or of 64 bits ("Variable-size Binary Layout").
pub type Utf8Array<O> = FlatArray<ByteRows<O, Text>>;

/// Rows that are UTF-8.
pub struct Text;

impl ByteKind for Text {
    ghost slot = { text };

    ghost Allows = { IsUtf8 };

    ghost plain_type = { λ is_large. if is_large then large_utf8 else utf8 };

    ghost physical_type = { λ is_large. if is_large then physical.LargeUtf8 else physical.Utf8 };

    fn allows(bytes: &[u8]) -> bool {
        str::from_utf8(bytes).is_ok()
    }

    fn data_type(is_large: bool) -> DataType {
        if is_large {
            DataType::LargeUtf8
        } else {
            DataType::Utf8
        }
    }

    fn physical_type(is_large: bool) -> PhysicalType {
        if is_large {
            PhysicalType::LargeUtf8
        } else {
            PhysicalType::Utf8
        }
    }

    ghost values = { λ bytes. refl };

    ghost one_to_one = { λ x y same. cc };
}

impl<O: Offset> FlatArray<ByteRows<O, Text>> {
    /// The text of row `i`; of a null row, what is stored beneath it.
    ///
    /// # Requires
    /// `i` is below the count of rows.
    pub fn value(&self, i: usize) -> &str
        requires { i < length (row_bytes self.now.values) }
        ensures { slice_get (row_bytes self.now.values) i ≡ Some result.now }
    {
        unsafe { str::from_utf8_unchecked(self.values.row(i)) }
    }
}
