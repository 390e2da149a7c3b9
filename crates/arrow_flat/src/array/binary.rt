//! Arrays of bytes.

ghost use Rattle.std.specs.Prelude.{◌≡◌, ◌<◌, length, slice_get, Some, if◌then◌else◌, refl};
ghost use Rattle.arrow_types.specs.ArrowType.{binary, large_binary};
ghost use Rattle.arrow_types.specs.Slot.{Bytes as bytes};
ghost use Rattle.arrow_types.specs.declared.datatypes.physical_type.PhysicalType.TheVariants as physical;
ghost use Rattle.arrow_flat.specs.ByteRows.{row_bytes};

use crate::array::{ByteKind, ByteRows, FlatArray};
use arrow_types::datatypes::{DataType, PhysicalType};
use arrow_types::types::Offset;

/// An array of bytes, under offsets of 32 or of 64 bits ("Variable-size Binary Layout").
pub type BinaryArray<O> = FlatArray<ByteRows<O, Binary>>;

/// Rows of any bytes.
pub struct Binary;

impl ByteKind for Binary {
    ghost slot = { bytes };

    ghost Allows = { λ bytes. Unit {0} };

    ghost plain_type = { λ is_large. if is_large then large_binary else binary };

    ghost physical_type = { λ is_large. if is_large then physical.LargeBinary else physical.Binary };

    fn allows(_bytes: &[u8]) -> bool {
        true
    }

    fn data_type(is_large: bool) -> DataType {
        if is_large {
            DataType::LargeBinary
        } else {
            DataType::Binary
        }
    }

    fn physical_type(is_large: bool) -> PhysicalType {
        if is_large {
            PhysicalType::LargeBinary
        } else {
            PhysicalType::Binary
        }
    }

    ghost values = { λ bytes. refl };

    ghost one_to_one = { λ x y same. cc };
}

impl<O: Offset> FlatArray<ByteRows<O, Binary>> {
    /// The bytes of row `i`; of a null row, what is stored beneath it.
    ///
    /// # Requires
    /// `i` is below the count of rows.
    pub fn value(&self, i: usize) -> &[u8]
        requires { i < length (row_bytes self.now.values) }
        ensures { slice_get (row_bytes self.now.values) i ≡ Some result.now }
    {
        self.values.row(i)
    }
}
