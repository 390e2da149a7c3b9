//! The selection kernels of arrow2 under arrow2's own paths: the one crate that a caller depends on.
//!
//! It hands on what the crates below it have, and has no function of its own. Calls keep their contracts.
#![tactic(auto)]

/// Arrays of every carried type.
pub mod array {
    pub use arrow_arrays::array::{
        AnyArray, AnyKeys, AnyOffsetsBuffer, DictionaryArray, FixedSizeListArray, ListArray,
        MapArray, StructArray, UnionArray, are_within,
    };
    pub use arrow_flat::array::{
        AnyPrimitive, BinaryArray, BooleanArray, FixedSizeBinaryArray, NullArray, PrimitiveArray,
        Utf8Array,
    };
    pub use arrow_new::{new_empty_array, new_null_array};
    pub use arrow_types::types::DictionaryKey;

    /// Arrays under construction, by rows of other arrays.
    pub mod growable {
        pub use arrow_growable::growable::{
            AnyGrowable, BoundNulls, Growable, GrowableBinary, GrowableBoolean, GrowableDictionary,
            GrowableFixedSizeBinary, GrowableFixedSizeList, GrowableList, GrowableMap,
            GrowableNull, GrowablePrimitive, GrowableStruct, GrowableUnion, GrowableUtf8,
            make_growable,
        };
    }
}

/// Packed lists of bits.
pub mod bitmap {
    pub use arrow_memory::bitmap::{Bitmap, MutableBitmap};
}

/// Shared lists of values.
pub mod buffer {
    pub use arrow_memory::buffer::Buffer;
}

/// Where rows of texts, bytes, lists and maps lie.
pub mod offset {
    pub use arrow_memory::offset::{Offsets, OffsetsBuffer};
    pub use arrow_types::types::Offset;
}

/// Data types.
pub mod datatypes {
    pub use arrow_types::datatypes::{
        DataType, Field, IntegerType, IntervalUnit, PhysicalType, TimeUnit, UnionMode,
    };
    pub use arrow_types::types::PrimitiveType;
}

/// The elements of arrays of numbers.
pub mod types {
    pub use arrow_types::types::{
        Index, NativeOrd, NativeType, Offset, PrimitiveType, days_ms, i256, months_days_ns,
    };
}

/// One row, outside an array.
pub mod scalar {
    pub use arrow_flat::scalar::{
        AnyPrimitiveScalar, AnyScalar, BinaryScalar, BooleanScalar, DictionaryScalar,
        PrimitiveScalar, Utf8Scalar,
    };
}

/// The columns of a batch.
pub mod chunk {
    pub use arrow_arrays::chunk::Chunk;
}

/// What calls answer where they refuse.
pub mod error {
    pub use arrow_types::error::{ArgumentFault, Error, SpecPart, Unsupported};
}

/// The kernels.
pub mod compute {
    /// The rows at which a predicate is true.
    pub mod filter {
        pub use arrow_select::filter::{Filter, build_filter, filter, filter_chunk};
    }

    /// Relations of rows, of arrays and scalars of any type, and in a module each of one kind.
    pub mod comparison {
        pub use arrow_compare::comparison::{
            can_eq, can_eq_scalar, can_gt, can_gt_eq, can_gt_eq_scalar, can_gt_scalar, can_lt,
            can_lt_eq, can_lt_eq_scalar, can_lt_scalar, can_neq, can_neq_scalar, eq,
            eq_and_validity, eq_scalar, eq_scalar_and_validity, gt, gt_eq, gt_eq_scalar, gt_scalar,
            lt, lt_eq, lt_eq_scalar, lt_scalar, neq, neq_and_validity, neq_scalar,
            neq_scalar_and_validity,
        };
        pub use arrow_relate::comparison::{
            binary, boolean, finish_eq_validities, finish_neq_validities, primitive, utf8,
        };
    }

    pub use arrow_logic::{arity, boolean, boolean_kleene, length, nullif, substring, utils};
    pub use arrow_select::{concatenate, if_then_else, take, window};
}

/// Arrays, types and scalars as text, both ways.
pub mod text {
    pub use arrow_text::fault::Fault;
    pub use arrow_text::piece::Piece;
    pub use arrow_text::read::read_array;
    pub use arrow_text::scalar::read_scalar;
    pub use arrow_text::types::{read_type, write_type};
    pub use arrow_text::write::{write_array, write_scalar};
}

/// What a caller may replace by what, and which tests meet which conditions, each as a function's contract.
pub mod laws {
    pub use arrow_compare::laws as comparison;
    pub use arrow_logic::laws as logic;
    pub use arrow_select::laws as selection;
    pub use arrow_types::laws as types;
}
