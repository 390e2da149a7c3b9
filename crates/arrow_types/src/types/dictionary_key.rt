//! The integers that dictionary keys are made of.

ghost use Rattle.std.specs.Prelude.{◌≡◌};
ghost use Rattle.std.proofs.Common.{rules};
ghost use Rattle.arrow_types.specs.declared.datatypes.IntegerType.{IntegerType};
ghost use Rattle.arrow_types.specs.declared.datatypes.IntegerType.TheVariants as integer;
ghost use Rattle.arrow_types.specs.Greatest.{greatest_number};

use crate::datatypes::IntegerType;
use crate::types::Index;

/// An integer that names a value of a dictionary ("Dictionary-encoded Layout"). Of `to_usize` and
/// `from_usize` see [`Index`].
pub trait DictionaryKey: Index {
    ghost KEY_TYPE: { IntegerType };

    /// The type of the keys, as a dictionary's data type names it.
    const KEY_TYPE: IntegerType;

    ghost greatest_is: { Self.greatest ≡ greatest_number KEY_TYPE };
}

impl DictionaryKey for i8 {
    ghost KEY_TYPE = { integer.Int8 };

    const KEY_TYPE: IntegerType = IntegerType::Int8;

    ghost greatest_is = { Prim.search rules };
}

impl DictionaryKey for i16 {
    ghost KEY_TYPE = { integer.Int16 };

    const KEY_TYPE: IntegerType = IntegerType::Int16;

    ghost greatest_is = { Prim.search rules };
}

impl DictionaryKey for i32 {
    ghost KEY_TYPE = { integer.Int32 };

    const KEY_TYPE: IntegerType = IntegerType::Int32;

    ghost greatest_is = { Prim.search rules };
}

impl DictionaryKey for i64 {
    ghost KEY_TYPE = { integer.Int64 };

    const KEY_TYPE: IntegerType = IntegerType::Int64;

    ghost greatest_is = { Prim.search rules };
}

impl DictionaryKey for u8 {
    ghost KEY_TYPE = { integer.UInt8 };

    const KEY_TYPE: IntegerType = IntegerType::UInt8;

    ghost greatest_is = { Prim.search rules };
}

impl DictionaryKey for u16 {
    ghost KEY_TYPE = { integer.UInt16 };

    const KEY_TYPE: IntegerType = IntegerType::UInt16;

    ghost greatest_is = { Prim.search rules };
}

impl DictionaryKey for u32 {
    ghost KEY_TYPE = { integer.UInt32 };

    const KEY_TYPE: IntegerType = IntegerType::UInt32;

    ghost greatest_is = { Prim.search rules };
}

impl DictionaryKey for u64 {
    ghost KEY_TYPE = { integer.UInt64 };

    const KEY_TYPE: IntegerType = IntegerType::UInt64;

    ghost greatest_is = { Prim.search rules };
}
