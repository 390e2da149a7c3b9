//! A primitive array of any element type.

ghost use Rattle.std.specs.Prelude.{◌≡◌, ◌+◌, ◌≤◌, ◌↔◌, [], length, count_by, option_copied, IfOk, IsTrue, ◌<◌, not, slice_index_or};
ghost use Rattle.std.specs.Cmp.{partial_equiv_from_equiv, on_equiv};
ghost use Rattle.arrow_types.specs.Carried.{IsCarried};
ghost use Rattle.arrow_types.specs.Physical.{physical_type_of};
ghost use Rattle.arrow_types.specs.Relation.{is_null};
ghost use Rattle.arrow_types.specs.SameTree.{same_by, same_by-equivalence};
ghost use Rattle.arrow_types.specs.TypeOf.{type_of};
ghost use Rattle.arrow_types.specs.declared.datatypes.physical_type.PhysicalType.TheVariants as physical;
ghost use Rattle.arrow_memory.specs.Sliced.{sliced};
ghost use Rattle.arrow_flat.specs.AnyPrimitive.{any_parts, any_type, any_rows, any_meaning, element_of};
ghost use Rattle.arrow_flat.specs.Parts.{MarksNulls, meaning_code};
ghost use Rattle.arrow_flat.specs.declared.array.any_primitive.AnyPrimitive.TheVariants as variants;
ghost use Rattle.arrow_types.specs.Slot.{Null};

use crate::array::{PrimitiveArray, validity};
use arrow_memory::bitmap::Bitmap;
use arrow_types::datatypes::DataType;
use arrow_types::types::{days_ms, i256, months_days_ns};
use std::alloc::AllocError;

/// A primitive array of any element type.
#[derive(Drop)]
pub enum AnyPrimitive {
    Int8(PrimitiveArray<i8>),
    Int16(PrimitiveArray<i16>),
    Int32(PrimitiveArray<i32>),
    Int64(PrimitiveArray<i64>),
    Int128(PrimitiveArray<i128>),
    Int256(PrimitiveArray<i256>),
    UInt8(PrimitiveArray<u8>),
    UInt16(PrimitiveArray<u16>),
    UInt32(PrimitiveArray<u32>),
    UInt64(PrimitiveArray<u64>),
    DaysMs(PrimitiveArray<days_ms>),
    MonthDayNano(PrimitiveArray<months_days_ns>),
}

/// What an expression says of the array, whatever its element type.
macro_rules! of_any {
    ($any:expr, $array:ident => $result:expr) => {
        match $any {
            AnyPrimitive::Int8($array) => $result,
            AnyPrimitive::Int16($array) => $result,
            AnyPrimitive::Int32($array) => $result,
            AnyPrimitive::Int64($array) => $result,
            AnyPrimitive::Int128($array) => $result,
            AnyPrimitive::Int256($array) => $result,
            AnyPrimitive::UInt8($array) => $result,
            AnyPrimitive::UInt16($array) => $result,
            AnyPrimitive::UInt32($array) => $result,
            AnyPrimitive::UInt64($array) => $result,
            AnyPrimitive::DaysMs($array) => $result,
            AnyPrimitive::MonthDayNano($array) => $result,
        }
    };
}

/// What an expression says of two arrays of one element type.
macro_rules! of_both {
    ($both:expr, ($left:ident, $right:ident) => $result:expr) => {
        match $both {
            (AnyPrimitive::Int8($left), AnyPrimitive::Int8($right)) => $result,
            (AnyPrimitive::Int16($left), AnyPrimitive::Int16($right)) => $result,
            (AnyPrimitive::Int32($left), AnyPrimitive::Int32($right)) => $result,
            (AnyPrimitive::Int64($left), AnyPrimitive::Int64($right)) => $result,
            (AnyPrimitive::Int128($left), AnyPrimitive::Int128($right)) => $result,
            (AnyPrimitive::Int256($left), AnyPrimitive::Int256($right)) => $result,
            (AnyPrimitive::UInt8($left), AnyPrimitive::UInt8($right)) => $result,
            (AnyPrimitive::UInt16($left), AnyPrimitive::UInt16($right)) => $result,
            (AnyPrimitive::UInt32($left), AnyPrimitive::UInt32($right)) => $result,
            (AnyPrimitive::UInt64($left), AnyPrimitive::UInt64($right)) => $result,
            (AnyPrimitive::DaysMs($left), AnyPrimitive::DaysMs($right)) => $result,
            (AnyPrimitive::MonthDayNano($left), AnyPrimitive::MonthDayNano($right)) => $result,
            _ => unreachable!(),
        }
    };
}

impl AnyPrimitive {
    /// The data type.
    pub fn data_type(&self) -> &DataType
        ensures same { type_of result.now ≡ any_type self.now }
        ensures carried { IsCarried (any_type self.now) }
        ensures kind { physical_type_of (any_type self.now) ≡ physical.Primitive (element_of self.now) }
    {
        of_any!(self, array => array.data_type())
    }

    /// How many rows there are.
    pub fn len(&self) -> usize
        ensures { result ≡ length (any_rows self.now) }
    {
        of_any!(self, array => array.len())
    }

    /// Whether there is no row.
    pub fn is_empty(&self) -> bool
        ensures { IsTrue result ↔ (any_rows self.now ≡ []) }
    {
        self.len() == 0
    }

    /// The validity: a bit for each row, set where the row is valid. Without it no row is null.
    pub fn validity(&self) -> Option<&Bitmap>
        ensures same { option_copied result ≡ (any_parts self.now).validity }
        ensures marks { MarksNulls (option_copied result) (any_rows self.now) }
    {
        of_any!(self, array => array.validity())
    }

    /// Whether row `i` is valid: whether it is no null.
    ///
    /// # Requires
    /// `i` is below the count of rows.
    pub fn is_valid(&self, i: usize) -> bool
        requires { i < length (any_rows self.now) }
        ensures { result ≡ not (is_null (slice_index_or (any_rows self.now) i Null)) }
    {
        validity::row_is_valid(self.validity(), i)
    }

    /// How many rows are null, counted a word of the validity at a time.
    pub fn null_count(&self) -> usize
        ensures { result ≡ count_by is_null (any_rows self.now) }
    {
        validity::null_count(self.validity())
    }

    /// Keeps `len` rows from row `offset` on. Nothing is copied.
    ///
    /// # Requires
    /// `offset + len` is at most the count of rows.
    pub fn slice(&mut self, offset: usize, len: usize)
        requires { offset + len ≤ length (any_rows self.old) }
        ensures same { any_type self.new ≡ any_type self.old }
        ensures rows { any_rows self.new ≡ sliced (any_rows self.old) offset len }
    {
        of_any!(self, array => array.slice(offset, len))
    }

    /// The `len` rows from row `offset` on. Nothing is copied.
    ///
    /// # Requires
    /// `offset + len` is at most the count of rows.
    pub fn sliced(self, offset: usize, len: usize) -> AnyPrimitive
        requires { offset + len ≤ length (any_rows self) }
        ensures same { any_type result ≡ any_type self }
        ensures rows { any_rows result ≡ sliced (any_rows self) offset len }
    {
        let mut part = self;
        part.slice(offset, len);
        part
    }

    /// Whether `len` rows from row `start` on are the same as those of the other from row `other_start`
    /// on, null or not.
    ///
    /// # Requires
    /// Both arrays have the same element type; `start + len` is at most the count of rows, and
    /// `other_start + len` at most that of the other.
    pub fn equal_range(
        &self,
        start: usize,
        other: &AnyPrimitive,
        other_start: usize,
        len: usize,
    ) -> bool
        requires one_type { element_of self.now ≡ element_of other.now }
        requires here { start + len ≤ length (any_rows self.now) }
        requires there { other_start + len ≤ length (any_rows other.now) }
        ensures { IsTrue result ↔ (sliced (any_rows self.now) start len
            ≡ sliced (any_rows other.now) other_start len) }
    {
        of_both!((self, other), (left, right) => left.equal_range(start, right, other_start, len))
    }

    /// Whether the rows are the same, of two arrays of one element type.
    fn equal_rows(&self, other: &AnyPrimitive) -> bool
        requires { element_of self.now ≡ element_of other.now }
        ensures { IsTrue result ↔ (any_rows self.now ≡ any_rows other.now) }
    {
        let len = self.len();
        len == other.len() && self.equal_range(0, other, 0, len)
    }
}

/// A clone shares what is stored and copies none of it. It takes the memory of the data type's names.
impl Clone for AnyPrimitive {
    ghost is_clone = { λ array copy. copy ≡ array };

    fn clone(&self) -> Result<AnyPrimitive, AllocError> {
        match self {
            AnyPrimitive::Int8(array) => clone_int8(array),
            AnyPrimitive::Int16(array) => clone_int16(array),
            AnyPrimitive::Int32(array) => clone_int32(array),
            AnyPrimitive::Int64(array) => clone_int64(array),
            AnyPrimitive::Int128(array) => clone_int128(array),
            AnyPrimitive::Int256(array) => clone_int256(array),
            AnyPrimitive::UInt8(array) => clone_uint8(array),
            AnyPrimitive::UInt16(array) => clone_uint16(array),
            AnyPrimitive::UInt32(array) => clone_uint32(array),
            AnyPrimitive::UInt64(array) => clone_uint64(array),
            AnyPrimitive::DaysMs(array) => clone_days_ms(array),
            AnyPrimitive::MonthDayNano(array) => clone_month_day_nano(array),
        }
    }
}

// A clone of an array of one element type. Each has room for an array of that type alone: one function for all would clear
// room for an array of each type at every call.

fn clone_int8(array: &PrimitiveArray<i8>) -> Result<AnyPrimitive, AllocError>
    ensures { IfOk result (λ copy. copy ≡ variants.Int8 array.now) }
{
    Ok(AnyPrimitive::Int8(array.clone()?))
}

fn clone_int16(array: &PrimitiveArray<i16>) -> Result<AnyPrimitive, AllocError>
    ensures { IfOk result (λ copy. copy ≡ variants.Int16 array.now) }
{
    Ok(AnyPrimitive::Int16(array.clone()?))
}

fn clone_int32(array: &PrimitiveArray<i32>) -> Result<AnyPrimitive, AllocError>
    ensures { IfOk result (λ copy. copy ≡ variants.Int32 array.now) }
{
    Ok(AnyPrimitive::Int32(array.clone()?))
}

fn clone_int64(array: &PrimitiveArray<i64>) -> Result<AnyPrimitive, AllocError>
    ensures { IfOk result (λ copy. copy ≡ variants.Int64 array.now) }
{
    Ok(AnyPrimitive::Int64(array.clone()?))
}

fn clone_int128(array: &PrimitiveArray<i128>) -> Result<AnyPrimitive, AllocError>
    ensures { IfOk result (λ copy. copy ≡ variants.Int128 array.now) }
{
    Ok(AnyPrimitive::Int128(array.clone()?))
}

fn clone_int256(array: &PrimitiveArray<i256>) -> Result<AnyPrimitive, AllocError>
    ensures { IfOk result (λ copy. copy ≡ variants.Int256 array.now) }
{
    Ok(AnyPrimitive::Int256(array.clone()?))
}

fn clone_uint8(array: &PrimitiveArray<u8>) -> Result<AnyPrimitive, AllocError>
    ensures { IfOk result (λ copy. copy ≡ variants.UInt8 array.now) }
{
    Ok(AnyPrimitive::UInt8(array.clone()?))
}

fn clone_uint16(array: &PrimitiveArray<u16>) -> Result<AnyPrimitive, AllocError>
    ensures { IfOk result (λ copy. copy ≡ variants.UInt16 array.now) }
{
    Ok(AnyPrimitive::UInt16(array.clone()?))
}

fn clone_uint32(array: &PrimitiveArray<u32>) -> Result<AnyPrimitive, AllocError>
    ensures { IfOk result (λ copy. copy ≡ variants.UInt32 array.now) }
{
    Ok(AnyPrimitive::UInt32(array.clone()?))
}

fn clone_uint64(array: &PrimitiveArray<u64>) -> Result<AnyPrimitive, AllocError>
    ensures { IfOk result (λ copy. copy ≡ variants.UInt64 array.now) }
{
    Ok(AnyPrimitive::UInt64(array.clone()?))
}

fn clone_days_ms(array: &PrimitiveArray<days_ms>) -> Result<AnyPrimitive, AllocError>
    ensures { IfOk result (λ copy. copy ≡ variants.DaysMs array.now) }
{
    Ok(AnyPrimitive::DaysMs(array.clone()?))
}

fn clone_month_day_nano(array: &PrimitiveArray<months_days_ns>) -> Result<AnyPrimitive, AllocError>
    ensures { IfOk result (λ copy. copy ≡ variants.MonthDayNano array.now) }
{
    Ok(AnyPrimitive::MonthDayNano(array.clone()?))
}

/// Two arrays are equal where their data types and their rows are, whatever is stored beneath nulls.
impl PartialEq for AnyPrimitive {
    ghost eq = { λ a b. same_by meaning_code (any_meaning a) (any_meaning b) };

    ghost laws = { partial_equiv_from_equiv (on_equiv any_meaning (same_by-equivalence meaning_code)) };

    fn eq(&self, other: &AnyPrimitive) -> bool
        ensures value { result ≡ same_by meaning_code (any_meaning self.now) (any_meaning other.now) }
        ensures rows { IsTrue result
            ↔ ((any_type self.now ≡ any_type other.now) × (any_rows self.now ≡ any_rows other.now)) }
    {
        self.data_type() == other.data_type() && self.equal_rows(other)
    }
}

impl Eq for AnyPrimitive {
    ghost laws = { on_equiv any_meaning (same_by-equivalence meaning_code) };
}
