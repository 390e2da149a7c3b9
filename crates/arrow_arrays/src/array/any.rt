//! Arrays of any type.

ghost use Rattle.std.specs.Prelude.{◌≡◌, ◌+◌, ◌≤◌, ◌↔◌, [], length, count_by, option_copied, IsTrue, IfOk, IfSome, ◌<◌, not, slice_index_or};
ghost use Rattle.std.specs.Cmp.{partial_equiv_from_equiv, on_equiv};
ghost use Rattle.arrow_types.specs.Carried.{IsCarried};
ghost use Rattle.arrow_types.specs.Physical.{physical_type_of};
ghost use Rattle.arrow_types.specs.Relation.{is_null};
ghost use Rattle.arrow_types.specs.SameTree.{same_by, same_by-equivalence};
ghost use Rattle.arrow_types.specs.TypeOf.{type_of};
ghost use Rattle.arrow_memory.specs.Sliced.{sliced};
ghost use Rattle.arrow_flat.specs.Parts.{meaning_code};
ghost use Rattle.arrow_arrays.specs.Any.{layout_of, any_array_type, any_array_rows, any_array_validity, any_array_meaning, MarksArray, kind_of, kind_in};
ghost use Rattle.arrow_arrays.specs.SliceOf.{slice_of};
ghost use Rattle.arrow_arrays.specs.Spans.{AreSameSpans};
ghost use Rattle.arrow_types.specs.Slot.{Null};
ghost use Rattle.arrow_arrays.specs.declared.array.any.AnyArray.TheVariants as variants;

use crate::array::{
    DictionaryArray, FixedSizeListArray, ListArray, MapArray, StructArray, UnionArray,
};
use arrow_flat::array::{
    AnyPrimitive, BinaryArray, BooleanArray, FixedSizeBinaryArray, NullArray, Utf8Array, validity,
};
use arrow_memory::bitmap::Bitmap;
use arrow_types::datatypes::DataType;
use std::alloc::AllocError;

/// An array of any type. Lists and large lists are one variant, and so are dictionaries with keys of
/// any type.
#[cycle(arrays)]
#[derive(Drop)]
pub enum AnyArray {
    Null(NullArray),
    Boolean(BooleanArray),
    Primitive(AnyPrimitive),
    Utf8(Utf8Array<i32>),
    LargeUtf8(Utf8Array<i64>),
    Binary(BinaryArray<i32>),
    LargeBinary(BinaryArray<i64>),
    FixedSizeBinary(FixedSizeBinaryArray),
    List(ListArray),
    FixedSizeList(FixedSizeListArray),
    Struct(StructArray),
    Union(UnionArray),
    Map(MapArray),
    Dictionary(DictionaryArray),
}

/// What an expression says of the array, whatever its type.
macro_rules! of_any {
    ($any:expr, $array:ident => $result:expr) => {
        match $any {
            AnyArray::Null($array) => $result,
            AnyArray::Boolean($array) => $result,
            AnyArray::Primitive($array) => $result,
            AnyArray::Utf8($array) => $result,
            AnyArray::LargeUtf8($array) => $result,
            AnyArray::Binary($array) => $result,
            AnyArray::LargeBinary($array) => $result,
            AnyArray::FixedSizeBinary($array) => $result,
            AnyArray::List($array) => $result,
            AnyArray::FixedSizeList($array) => $result,
            AnyArray::Struct($array) => $result,
            AnyArray::Union($array) => $result,
            AnyArray::Map($array) => $result,
            AnyArray::Dictionary($array) => $result,
        }
    };
}

impl AnyArray {
    /// The data type.
    pub fn data_type(&self) -> &DataType
        ensures same { type_of result.now ≡ any_array_type self.now }
        ensures carried { IsCarried (any_array_type self.now) }
        ensures kind { kind_in (physical_type_of (any_array_type self.now)) ≡ kind_of self.now }
    {
        of_any!(self, array => array.data_type())
    }

    /// How many rows there are.
    #[cycle(len)]
    pub fn len(&self) -> usize
        ensures { result ≡ length (any_array_rows self.now) }
    {
        of_any!(self, array => array.len())
    }

    /// Whether there is no row.
    pub fn is_empty(&self) -> bool
        ensures { IsTrue result ↔ (any_array_rows self.now ≡ []) }
    {
        self.len() == 0
    }

    /// The validity: a bit for each row, set where the row is valid. Without it no row is null, but for
    /// arrays of the null type. Of a dictionary it is that of the keys, and a union has none.
    pub fn validity(&self) -> Option<&Bitmap>
        ensures same { option_copied result ≡ any_array_validity self.now }
        ensures marks { MarksArray self.now (option_copied result) }
    {
        of_any!(self, array => array.validity())
    }

    /// Whether row `i` is valid: whether it is no null.
    ///
    /// # Requires
    /// `i` is below the count of rows.
    pub fn is_valid(&self, i: usize) -> bool
        requires { i < length (any_array_rows self.now) }
        ensures { result ≡ not (is_null (slice_index_or (any_array_rows self.now) i Null)) }
    {
        match self {
            AnyArray::Null(_) => false,
            _ => validity::row_is_valid(self.validity(), i),
        }
    }

    /// How many rows are null.
    pub fn null_count(&self) -> usize
        ensures { result ≡ count_by is_null (any_array_rows self.now) }
    {
        of_any!(self, array => array.null_count())
    }

    /// Keeps `len` rows from row `offset` on. Nothing is copied.
    ///
    /// # Requires
    /// `offset + len` is at most the count of rows.
    #[cycle(slice)]
    pub fn slice(&mut self, offset: usize, len: usize)
        requires { offset + len ≤ length (any_array_rows self.old) }
        ensures part { layout_of self.new ≡ slice_of (layout_of self.old) offset len }
        ensures rows { any_array_rows self.new ≡ sliced (any_array_rows self.old) offset len }
    {
        of_any!(self, array => array.slice(offset, len))
    }

    /// The `len` rows from row `offset` on. Nothing is copied.
    ///
    /// # Requires
    /// `offset + len` is at most the count of rows.
    pub fn sliced(self, offset: usize, len: usize) -> AnyArray
        requires { offset + len ≤ length (any_array_rows self) }
        ensures part { layout_of result ≡ slice_of (layout_of self) offset len }
        ensures rows { any_array_rows result ≡ sliced (any_array_rows self) offset len }
    {
        let mut part = self;
        part.slice(offset, len);
        part
    }

    /// Whether `len` rows from row `start` on are the same as those of the other from row
    /// `other_start` on.
    #[cycle(equal)]
    pub(crate) fn equal_range(
        &self,
        start: usize,
        other: &AnyArray,
        other_start: usize,
        len: usize,
    ) -> bool
        requires one_type { any_array_type self.now ≡ any_array_type other.now }
        requires here { start + len ≤ length (any_array_rows self.now) }
        requires there { other_start + len ≤ length (any_array_rows other.now) }
        ensures { IsTrue result ↔ (sliced (any_array_rows self.now) start len
            ≡ sliced (any_array_rows other.now) other_start len) }
    {
        have_one_kind(self, other);
        match (self, other) {
            (AnyArray::Null(_), AnyArray::Null(_)) => true,
            (AnyArray::Boolean(left), AnyArray::Boolean(right)) => {
                left.equal_range(start, right, other_start, len)
            }
            (AnyArray::Primitive(left), AnyArray::Primitive(right)) => {
                left.equal_range(start, right, other_start, len)
            }
            (AnyArray::Utf8(left), AnyArray::Utf8(right)) => {
                left.equal_range(start, right, other_start, len)
            }
            (AnyArray::LargeUtf8(left), AnyArray::LargeUtf8(right)) => {
                left.equal_range(start, right, other_start, len)
            }
            (AnyArray::Binary(left), AnyArray::Binary(right)) => {
                left.equal_range(start, right, other_start, len)
            }
            (AnyArray::LargeBinary(left), AnyArray::LargeBinary(right)) => {
                left.equal_range(start, right, other_start, len)
            }
            (AnyArray::FixedSizeBinary(left), AnyArray::FixedSizeBinary(right)) => {
                left.equal_range(start, right, other_start, len)
            }
            (AnyArray::List(left), AnyArray::List(right)) => {
                left.equal_range(start, right, other_start, len)
            }
            (AnyArray::FixedSizeList(left), AnyArray::FixedSizeList(right)) => {
                left.equal_range(start, right, other_start, len)
            }
            (AnyArray::Struct(left), AnyArray::Struct(right)) => {
                left.equal_range(start, right, other_start, len)
            }
            (AnyArray::Union(left), AnyArray::Union(right)) => {
                left.equal_range(start, right, other_start, len)
            }
            (AnyArray::Map(left), AnyArray::Map(right)) => {
                left.equal_range(start, right, other_start, len)
            }
            (AnyArray::Dictionary(left), AnyArray::Dictionary(right)) => {
                left.equal_range(start, right, other_start, len)
            }
            _ => unreachable!(),
        }
    }

    /// Whether the rows are the same, of two arrays of one data type.
    fn equal_rows(&self, other: &AnyArray) -> bool
        requires { any_array_type self.now ≡ any_array_type other.now }
        ensures { IsTrue result ↔ (any_array_rows self.now ≡ any_array_rows other.now) }
    {
        let len = self.len();
        len == other.len() && self.equal_range(0, other, 0, len)
    }
}

// Arrays of one data type are of one kind.
fn have_one_kind(left: &AnyArray, right: &AnyArray)
    ensures { any_array_type left.now ≡ any_array_type right.now → kind_of left.now ≡ kind_of right.now }
{
    // The kind of each follows from its data type.
    let _ = left.data_type();
    let _ = right.data_type();
}

// Whether two rows name the same rows of their children, or are both null.
#[cycle(equal)]
pub(crate) fn equal_spans(
    span: Option<(usize, usize)>,
    values: &AnyArray,
    other_span: Option<(usize, usize)>,
    others: &AnyArray,
) -> bool
    requires one_type { any_array_type values.now ≡ any_array_type others.now }
    requires here { IfSome span (λ span. span.0 + span.1 ≤ length (any_array_rows values.now)) }
    requires there { IfSome other_span (λ span. span.0 + span.1 ≤ length (any_array_rows others.now)) }
    ensures { IsTrue result ↔ AreSameSpans (any_array_rows values.now) span (any_array_rows others.now)
        other_span }
{
    match (span, other_span) {
        (None, None) => true,
        (Some((start, len)), Some((other_start, other_len))) => {
            len == other_len && values.equal_range(start, others, other_start, len)
        }
        (None, Some(_)) | (Some(_), None) => false,
    }
}

/// A clone shares what is stored and copies none of it. It takes the memory of the names of data types,
/// and of the boxes and lists of children.
impl Clone for AnyArray {
    ghost is_clone = { λ array copy. copy ≡ array };

    fn clone(&self) -> Result<AnyArray, AllocError> {
        match self {
            AnyArray::Null(array) => clone_null(array),
            AnyArray::Boolean(array) => clone_boolean(array),
            AnyArray::Primitive(array) => clone_primitive(array),
            AnyArray::Utf8(array) => clone_utf8(array),
            AnyArray::LargeUtf8(array) => clone_large_utf8(array),
            AnyArray::Binary(array) => clone_binary(array),
            AnyArray::LargeBinary(array) => clone_large_binary(array),
            AnyArray::FixedSizeBinary(array) => clone_fixed_size_binary(array),
            _ => clone_any(self),
        }
    }
}

// A clone of an array of any type, with children or without.
#[cycle(clone)]
fn clone_any(array: &AnyArray) -> Result<AnyArray, AllocError>
    ensures { IfOk result (λ copy. copy ≡ array.now) }
{
    match array {
        AnyArray::Null(array) => clone_null(array),
        AnyArray::Boolean(array) => clone_boolean(array),
        AnyArray::Primitive(array) => clone_primitive(array),
        AnyArray::Utf8(array) => clone_utf8(array),
        AnyArray::LargeUtf8(array) => clone_large_utf8(array),
        AnyArray::Binary(array) => clone_binary(array),
        AnyArray::LargeBinary(array) => clone_large_binary(array),
        AnyArray::FixedSizeBinary(array) => clone_fixed_size_binary(array),
        AnyArray::List(array) => Ok(AnyArray::List(array.clone()?)),
        AnyArray::FixedSizeList(array) => Ok(AnyArray::FixedSizeList(array.clone()?)),
        AnyArray::Struct(array) => Ok(AnyArray::Struct(array.clone()?)),
        AnyArray::Union(array) => Ok(AnyArray::Union(array.clone()?)),
        AnyArray::Map(array) => Ok(AnyArray::Map(array.clone()?)),
        AnyArray::Dictionary(array) => Ok(AnyArray::Dictionary(array.clone()?)),
    }
}

// A clone of an array of one kind. Each has room for an array of that kind alone: one function for all would clear room for
// an array of each kind at every call.

fn clone_null(array: &NullArray) -> Result<AnyArray, AllocError>
    ensures { IfOk result (λ copy. copy ≡ variants.Null array.now) }
{
    Ok(AnyArray::Null(array.clone()?))
}

fn clone_boolean(array: &BooleanArray) -> Result<AnyArray, AllocError>
    ensures { IfOk result (λ copy. copy ≡ variants.Boolean array.now) }
{
    Ok(AnyArray::Boolean(array.clone()?))
}

fn clone_primitive(array: &AnyPrimitive) -> Result<AnyArray, AllocError>
    ensures { IfOk result (λ copy. copy ≡ variants.Primitive array.now) }
{
    Ok(AnyArray::Primitive(array.clone()?))
}

fn clone_utf8(array: &Utf8Array<i32>) -> Result<AnyArray, AllocError>
    ensures { IfOk result (λ copy. copy ≡ variants.Utf8 array.now) }
{
    Ok(AnyArray::Utf8(array.clone()?))
}

fn clone_large_utf8(array: &Utf8Array<i64>) -> Result<AnyArray, AllocError>
    ensures { IfOk result (λ copy. copy ≡ variants.LargeUtf8 array.now) }
{
    Ok(AnyArray::LargeUtf8(array.clone()?))
}

fn clone_binary(array: &BinaryArray<i32>) -> Result<AnyArray, AllocError>
    ensures { IfOk result (λ copy. copy ≡ variants.Binary array.now) }
{
    Ok(AnyArray::Binary(array.clone()?))
}

fn clone_large_binary(array: &BinaryArray<i64>) -> Result<AnyArray, AllocError>
    ensures { IfOk result (λ copy. copy ≡ variants.LargeBinary array.now) }
{
    Ok(AnyArray::LargeBinary(array.clone()?))
}

fn clone_fixed_size_binary(array: &FixedSizeBinaryArray) -> Result<AnyArray, AllocError>
    ensures { IfOk result (λ copy. copy ≡ variants.FixedSizeBinary array.now) }
{
    Ok(AnyArray::FixedSizeBinary(array.clone()?))
}

// A box of its own for a clone of the child.
#[cycle(clone)]
pub(crate) fn clone_boxed(array: &Box<AnyArray>) -> Result<Box<AnyArray>, AllocError>
    ensures { IfOk result (λ copy. copy.value ≡ array.now.value) }
{
    Ok(Box::new(*Box::allocator(array), clone_any(&**array)?)?)
}

// The clones of the children, in their order.
#[cycle(clone)]
pub(crate) fn clone_all(arrays: &Vec<AnyArray>) -> Result<Vec<AnyArray>, AllocError>
    ensures { IfOk result (λ copy. copy.items ≡ arrays.now.items) }
{
    let mut copies = Vec::with_capacity(*arrays.allocator(), arrays.len())?;
    for array in arrays {
        copies.push(clone_any(array)?)?;
    }
    Ok(copies)
}

/// Two arrays are equal where their data types and their rows are, whatever the layouts beneath.
impl PartialEq for AnyArray {
    ghost eq = { λ a b. same_by meaning_code (any_array_meaning a) (any_array_meaning b) };

    ghost laws = { partial_equiv_from_equiv (on_equiv any_array_meaning (same_by-equivalence meaning_code)) };

    fn eq(&self, other: &AnyArray) -> bool
        ensures value { result ≡ same_by meaning_code (any_array_meaning self.now)
            (any_array_meaning other.now) }
        ensures rows { IsTrue result
            ↔ ((any_array_type self.now ≡ any_array_type other.now)
            × (any_array_rows self.now ≡ any_array_rows other.now)) }
    {
        self.data_type() == other.data_type() && self.equal_rows(other)
    }
}

impl Eq for AnyArray {
    ghost laws = { on_equiv any_array_meaning (same_by-equivalence meaning_code) };
}
