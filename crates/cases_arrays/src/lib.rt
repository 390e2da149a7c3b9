//! Calls of data types, memory, arrays and scalars, for the program `cases`: each reads its arguments, tests its conditions,
//! and prints what the call answered.
#![tactic(auto)]

mod any;
mod bitmaps;
mod buffers;
mod builders;
mod chunks;
mod datatypes;
mod offsets;
mod parts;
mod ranges;
mod scalars;
mod validities;
mod within;

use crate::any::{OfArray, OfArrayAt, of_array, of_array_at};
use crate::bitmaps::{
    OfBitmap, OfBitmapAt, OfBitmapPart, OfBitmaps, of_bitmap, of_bitmap_at, of_bitmap_part,
    of_bitmaps,
};
use crate::buffers::{OfBuffer, of_buffer};
use crate::datatypes::{OfType, of_type};
use crate::offsets::{Method, of_offsets};
use crate::parts::OfPart;
use crate::scalars::{OfScalar, of_scalar};
use arrow_text::call::Call;
use arrow_text::fault::Fault;
use arrow_text::types::find;
use std::alloc::Global;

/// A call, by what it takes.
#[derive(Clone, Copy)]
enum Takes {
    /// An array.
    Array(OfArray),
    /// An array and a number.
    ArrayAt(OfArrayAt),
    /// A bitmap.
    Bitmap(OfBitmap),
    /// A bitmap and a number.
    BitmapAt(OfBitmapAt),
    /// A bitmap and two numbers.
    BitmapPart(OfBitmapPart),
    /// Two bitmaps.
    Bitmaps(OfBitmaps),
    /// The values of an array of 32-bit integers.
    Buffer(OfBuffer),
    /// Offsets, and a number or two.
    Offsets(Method),
    /// A scalar.
    Scalar(OfScalar),
    /// A data type.
    Type(OfType),
    /// What no other call takes.
    Other(Other),
}

/// A call that reads its arguments by itself.
#[derive(Clone, Copy)]
enum Other {
    AppendSpan,
    ArrayEq,
    ArraySlice,
    ArraySliced,
    BitmapEqualRange,
    BitmapNewConstant,
    BitmapNewZeroed,
    BitmapRepeated,
    BufferSlice,
    BufferSliced,
    ChunkIntoArrays,
    ChunkTryNew,
    FlatEqualRange,
    MutableBitmap,
    NewEmptyArray,
    NewNullArray,
    Offsets32,
    Offsets64,
    TypeEq,
    WithValidity,
}

/// The calls by their names.
const CALLS: [(&str, Takes); 71] = [
    ("AnyArray::clone", Takes::Array(OfArray::Clone)),
    ("AnyArray::data_type", Takes::Array(OfArray::DataType)),
    ("AnyArray::eq", Takes::Other(Other::ArrayEq)),
    ("AnyArray::is_empty", Takes::Array(OfArray::IsEmpty)),
    ("AnyArray::is_valid", Takes::ArrayAt(OfArrayAt::IsValid)),
    ("AnyArray::len", Takes::Array(OfArray::Len)),
    ("AnyArray::null_count", Takes::Array(OfArray::NullCount)),
    ("AnyArray::slice", Takes::Other(Other::ArraySlice)),
    ("AnyArray::sliced", Takes::Other(Other::ArraySliced)),
    ("AnyArray::validity", Takes::Array(OfArray::Validity)),
    ("AnyKeys::key", Takes::ArrayAt(OfArrayAt::Key)),
    ("AnyKeys::len", Takes::Array(OfArray::Part(OfPart::Keys))),
    (
        "AnyOffsetsBuffer::len",
        Takes::Array(OfArray::Part(OfPart::Offsets)),
    ),
    (
        "AnyOffsetsBuffer::start_end",
        Takes::ArrayAt(OfArrayAt::StartEnd),
    ),
    ("AnyScalar::data_type", Takes::Scalar(OfScalar::DataType)),
    ("AnyScalar::is_valid", Takes::Scalar(OfScalar::IsValid)),
    ("Bitmap::and", Takes::Bitmaps(OfBitmaps::And)),
    ("Bitmap::and_not", Takes::Bitmaps(OfBitmaps::AndNot)),
    ("Bitmap::clone", Takes::Bitmap(OfBitmap::Clone)),
    ("Bitmap::eq", Takes::Bitmaps(OfBitmaps::Eq)),
    ("Bitmap::equal_range", Takes::Other(Other::BitmapEqualRange)),
    ("Bitmap::from_bools", Takes::Bitmap(OfBitmap::FromBools)),
    ("Bitmap::get_bit", Takes::BitmapAt(OfBitmapAt::GetBit)),
    ("Bitmap::is_empty", Takes::Bitmap(OfBitmap::IsEmpty)),
    ("Bitmap::len", Takes::Bitmap(OfBitmap::Len)),
    (
        "Bitmap::new_constant",
        Takes::Other(Other::BitmapNewConstant),
    ),
    ("Bitmap::new_zeroed", Takes::Other(Other::BitmapNewZeroed)),
    ("Bitmap::not", Takes::Bitmap(OfBitmap::Not)),
    ("Bitmap::or", Takes::Bitmaps(OfBitmaps::Or)),
    ("Bitmap::repeated", Takes::Other(Other::BitmapRepeated)),
    ("Bitmap::run_at", Takes::BitmapPart(OfBitmapPart::RunAt)),
    ("Bitmap::runs", Takes::BitmapPart(OfBitmapPart::Runs)),
    ("Bitmap::slice", Takes::BitmapPart(OfBitmapPart::Slice)),
    ("Bitmap::sliced", Takes::BitmapPart(OfBitmapPart::Sliced)),
    ("Bitmap::unset_bits", Takes::Bitmap(OfBitmap::UnsetBits)),
    ("Bitmap::word", Takes::BitmapAt(OfBitmapAt::Word)),
    ("Buffer::clone", Takes::Buffer(OfBuffer::Clone)),
    ("Buffer::from_vec", Takes::Buffer(OfBuffer::FromVec)),
    ("Buffer::is_empty", Takes::Buffer(OfBuffer::IsEmpty)),
    ("Buffer::len", Takes::Buffer(OfBuffer::Len)),
    ("Buffer::slice", Takes::Other(Other::BufferSlice)),
    ("Buffer::sliced", Takes::Other(Other::BufferSliced)),
    ("Chunk::into_arrays", Takes::Other(Other::ChunkIntoArrays)),
    ("Chunk::try_new", Takes::Other(Other::ChunkTryNew)),
    ("DataType::clone", Takes::Type(OfType::Clone)),
    ("DataType::eq", Takes::Other(Other::TypeEq)),
    ("DataType::is_carried", Takes::Type(OfType::IsCarried)),
    (
        "DataType::to_logical_type",
        Takes::Type(OfType::ToLogicalType),
    ),
    (
        "DataType::to_physical_type",
        Takes::Type(OfType::ToPhysicalType),
    ),
    (
        "FixedSizeBinaryArray::size",
        Takes::Array(OfArray::Part(OfPart::BytesSize)),
    ),
    (
        "FixedSizeListArray::size",
        Takes::Array(OfArray::Part(OfPart::ListSize)),
    ),
    (
        "FlatArray::equal_range",
        Takes::Other(Other::FlatEqualRange),
    ),
    ("MutableBitmap", Takes::Other(Other::MutableBitmap)),
    ("Offsets32", Takes::Other(Other::Offsets32)),
    ("Offsets64", Takes::Other(Other::Offsets64)),
    ("OffsetsBuffer::clone", Takes::Offsets(Method::Clone)),
    ("OffsetsBuffer::last", Takes::Offsets(Method::Last)),
    ("OffsetsBuffer::len", Takes::Offsets(Method::Len)),
    ("OffsetsBuffer::range", Takes::Offsets(Method::Range)),
    ("OffsetsBuffer::slice", Takes::Offsets(Method::Slice)),
    ("OffsetsBuffer::start_end", Takes::Offsets(Method::StartEnd)),
    ("OffsetsBuffer::try_from", Takes::Offsets(Method::TryFrom)),
    ("Scalar::new", Takes::Scalar(OfScalar::New)),
    ("UnionArray::index", Takes::ArrayAt(OfArrayAt::Index)),
    (
        "UnionArray::start",
        Takes::Array(OfArray::Part(OfPart::Start)),
    ),
    ("append_span", Takes::Other(Other::AppendSpan)),
    ("are_within", Takes::ArrayAt(OfArrayAt::AreWithin)),
    ("new_empty_array", Takes::Other(Other::NewEmptyArray)),
    ("new_null_array", Takes::Other(Other::NewNullArray)),
    ("try_new", Takes::Array(OfArray::TryNew)),
    ("with_validity", Takes::Other(Other::WithValidity)),
];

// Appends the answer of a call to `out`; `false` where the call has none of these names.
pub fn answer(alloc: Global, call: &Call<'_>, out: &mut String) -> Result<bool, Fault> {
    match find(&CALLS, call.name) {
        Some(takes) => {
            answer_by(alloc, *takes, call, out)?;
            Ok(true)
        }
        None => Ok(false),
    }
}

// Appends the answer of a call that takes this.
fn answer_by(alloc: Global, takes: Takes, call: &Call<'_>, out: &mut String) -> Result<(), Fault> {
    match takes {
        Takes::Array(method) => of_array(alloc, method, call, out),
        Takes::ArrayAt(method) => of_array_at(alloc, method, call, out),
        Takes::Bitmap(method) => of_bitmap(alloc, method, call, out),
        Takes::BitmapAt(method) => of_bitmap_at(alloc, method, call, out),
        Takes::BitmapPart(method) => of_bitmap_part(alloc, method, call, out),
        Takes::Bitmaps(method) => of_bitmaps(alloc, method, call, out),
        Takes::Buffer(method) => of_buffer(alloc, method, call, out),
        Takes::Offsets(method) => of_offsets(alloc, method, call, out),
        Takes::Scalar(method) => of_scalar(alloc, method, call, out),
        Takes::Type(method) => of_type(alloc, method, call, out),
        Takes::Other(other) => answer_other(alloc, other, call, out),
    }
}

// Appends the answer of a call that reads its arguments by itself.
fn answer_other(
    alloc: Global,
    other: Other,
    call: &Call<'_>,
    out: &mut String,
) -> Result<(), Fault> {
    match other {
        Other::AppendSpan => buffers::append_span(alloc, call, out),
        Other::ArrayEq => any::eq(alloc, call, out),
        Other::ArraySlice => any::slice(alloc, call, out),
        Other::ArraySliced => any::sliced(alloc, call, out),
        Other::BitmapEqualRange => bitmaps::equal_range(alloc, call, out),
        Other::BitmapNewConstant => bitmaps::new_constant(alloc, call, out),
        Other::BitmapNewZeroed => bitmaps::new_zeroed(alloc, call, out),
        Other::BitmapRepeated => bitmaps::repeated(alloc, call, out),
        Other::BufferSlice => buffers::slice(alloc, call, out),
        Other::BufferSliced => buffers::sliced(alloc, call, out),
        Other::ChunkIntoArrays => chunks::into_arrays(alloc, call, out),
        Other::ChunkTryNew => chunks::try_new(alloc, call, out),
        Other::FlatEqualRange => ranges::equal_range(alloc, call, out),
        Other::MutableBitmap => builders::bits(alloc, call, out),
        Other::NewEmptyArray => any::new_empty(alloc, call, out),
        Other::NewNullArray => any::new_null(alloc, call, out),
        Other::Offsets32 => builders::offsets::<i32>(alloc, call, out),
        Other::Offsets64 => builders::offsets::<i64>(alloc, call, out),
        Other::TypeEq => datatypes::eq(alloc, call, out),
        Other::WithValidity => validities::with_validity(alloc, call, out),
    }
}
