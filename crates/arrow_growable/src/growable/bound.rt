//! The arrays that are bound to a growable with children.

ghost use Rattle.std.specs.Prelude.{◌≡◌, ◌<◌, length, map, All, IfOk, IsOkUnless, OnOk, option_copied};
ghost use Rattle.arrow_types.specs.declared.error.Error.{Error};
ghost use Rattle.arrow_types.specs.Carried.{IsCarried};
ghost use Rattle.arrow_types.specs.Physical.{physical_type_of};
ghost use Rattle.arrow_types.specs.TypeOf.{type_of};
ghost use Rattle.arrow_arrays.specs.Any.{Kind, fixed_size_list_kind, kind_in, kind_of, layout_of, list_kind, map_kind, struct_kind};
ghost use Rattle.arrow_arrays.specs.FixedListParts.{fixed_list_layout};
ghost use Rattle.arrow_arrays.specs.Layout.{Layout, type_of_layout};
ghost use Rattle.arrow_arrays.specs.ListParts.{list_layout};
ghost use Rattle.arrow_arrays.specs.StructParts.{struct_layout};
ghost use Rattle.arrow_flat_growable.specs.Grown.{AreOfOneType, first_type, source_at};
ghost use Rattle.arrow_growable.specs.Bound.{bound_layouts};
ghost use Rattle.arrow_growable.specs.Form.{child_type, child_types};
ghost use Rattle.arrow_growable.specs.GrowableSpans.{IsFresh};
ghost use Rattle.arrow_growable.specs.Lies.{Lies};
ghost use Rattle.arrow_growable.specs.Nested.{IsNestedType};
ghost use Rattle.arrow_growable.specs.Source.{children_in, nth_child, validity_in};

use crate::growable::grown_spans::GrowableSpans;
use crate::growable::spans::Spans;
use arrow_arrays::array::{AnyArray, FixedSizeListArray, ListArray, MapArray, StructArray};
use arrow_memory::bitmap::Bitmap;
use arrow_types::datatypes::{DataType, PhysicalType};
use arrow_types::error::Error;
use std::alloc::Global;

/// Arrays of one kind that have children: of lists, fixed-size lists, maps or structs. No other type can be one,
/// since what some methods answer has no public name.
pub trait NestedArray: Drop {
    // what a contract sees of one
    ghost layout_in: { Self → Layout };

    // the kind of arrays that they are
    ghost kind: { Kind };

    /// An array of any type as one of this kind.
    ///
    /// # Requires
    /// The array is of this kind.
    fn of_any(array: &AnyArray) -> &Self
        requires { kind_of array.now ≡ kind }
        ensures { layout_in result.now ≡ layout_of array.now };

    /// The same, by value.
    ///
    /// # Requires
    /// The array is of this kind.
    fn from_any(array: AnyArray) -> Self
        requires { kind_of array ≡ kind }
        ensures { layout_in result ≡ layout_of array };

    /// Arrays of this kind as arrays that are bound to a growable.
    fn bound<'a>(arrays: Vec<&'a Self>) -> BoundNested<'a>
        ensures { bound_layouts result ≡ map (λ r. layout_in r.now) arrays.entry.items };

    /// The data type.
    fn data_type(&self) -> &DataType
        ensures same { type_of result.now ≡ type_of_layout (layout_in self.now) }
        ensures carried { IsCarried (type_of_layout (layout_in self.now)) }
        ensures kind { kind_in (physical_type_of (type_of_layout (layout_in self.now))) ≡ kind };

    /// How many children there are: one for each that the data type says.
    fn width(&self) -> usize
        ensures count { result ≡ length (children_in (layout_in self.now)) }
        ensures types { map type_of_layout (children_in (layout_in self.now))
            ≡ child_types (type_of_layout (layout_in self.now)) };

    /// Child `f`.
    ///
    /// # Requires
    /// `f` is below the count of children.
    fn child(&self, f: usize) -> &AnyArray
        requires { f < length (children_in (layout_in self.now)) }
        ensures { layout_of result.now ≡ nth_child f (layout_in self.now) };

    /// Where the rows lie in the children.
    fn spans(&self) -> Spans<'_>
        ensures { Lies result (layout_in self.now) };

    /// The validity.
    fn validity(&self) -> Option<&Bitmap>
        ensures { option_copied result ≡ validity_in (layout_in self.now) };
}

impl NestedArray for ListArray {
    ghost layout_in = { list_layout };

    ghost kind = { list_kind };

    fn of_any(array: &AnyArray) -> &ListArray {
        match array {
            AnyArray::List(array) => array,
            _ => unreachable!(),
        }
    }

    fn from_any(array: AnyArray) -> ListArray {
        match array {
            AnyArray::List(array) => array,
            _ => unreachable!(),
        }
    }

    fn bound<'a>(arrays: Vec<&'a ListArray>) -> BoundNested<'a> {
        BoundNested::Lists(arrays)
    }

    fn data_type(&self) -> &DataType {
        self.data_type()
    }

    fn width(&self) -> usize {
        // The child is of the type of the items.
        let _ = self.data_type();
        let _ = self.values();
        1
    }

    fn child(&self, _f: usize) -> &AnyArray {
        self.values()
    }

    fn spans(&self) -> Spans<'_> {
        Spans::of_lists(self)
    }

    fn validity(&self) -> Option<&Bitmap> {
        self.validity()
    }
}

impl NestedArray for FixedSizeListArray {
    ghost layout_in = { fixed_list_layout };

    ghost kind = { fixed_size_list_kind };

    fn of_any(array: &AnyArray) -> &FixedSizeListArray {
        match array {
            AnyArray::FixedSizeList(array) => array,
            _ => unreachable!(),
        }
    }

    fn from_any(array: AnyArray) -> FixedSizeListArray {
        match array {
            AnyArray::FixedSizeList(array) => array,
            _ => unreachable!(),
        }
    }

    fn bound<'a>(arrays: Vec<&'a FixedSizeListArray>) -> BoundNested<'a> {
        BoundNested::FixedSizeLists(arrays)
    }

    fn data_type(&self) -> &DataType {
        self.data_type()
    }

    fn width(&self) -> usize {
        // The child is of the type of the items.
        let _ = self.data_type();
        let _ = self.values();
        1
    }

    fn child(&self, _f: usize) -> &AnyArray {
        self.values()
    }

    fn spans(&self) -> Spans<'_> {
        Spans::of_fixed_size_lists(self)
    }

    fn validity(&self) -> Option<&Bitmap> {
        self.validity()
    }
}

impl NestedArray for MapArray {
    ghost layout_in = { list_layout };

    ghost kind = { map_kind };

    fn of_any(array: &AnyArray) -> &MapArray {
        match array {
            AnyArray::Map(array) => array,
            _ => unreachable!(),
        }
    }

    fn from_any(array: AnyArray) -> MapArray {
        match array {
            AnyArray::Map(array) => array,
            _ => unreachable!(),
        }
    }

    fn bound<'a>(arrays: Vec<&'a MapArray>) -> BoundNested<'a> {
        BoundNested::Maps(arrays)
    }

    fn data_type(&self) -> &DataType {
        self.data_type()
    }

    fn width(&self) -> usize {
        // The child is of the type of the entries.
        let _ = self.data_type();
        let _ = self.field();
        1
    }

    fn child(&self, _f: usize) -> &AnyArray {
        self.field()
    }

    fn spans(&self) -> Spans<'_> {
        Spans::of_maps(self)
    }

    fn validity(&self) -> Option<&Bitmap> {
        self.validity()
    }
}

impl NestedArray for StructArray {
    ghost layout_in = { struct_layout };

    ghost kind = { struct_kind };

    fn of_any(array: &AnyArray) -> &StructArray {
        match array {
            AnyArray::Struct(array) => array,
            _ => unreachable!(),
        }
    }

    fn from_any(array: AnyArray) -> StructArray {
        match array {
            AnyArray::Struct(array) => array,
            _ => unreachable!(),
        }
    }

    fn bound<'a>(arrays: Vec<&'a StructArray>) -> BoundNested<'a> {
        BoundNested::Structs(arrays)
    }

    fn data_type(&self) -> &DataType {
        self.data_type()
    }

    fn width(&self) -> usize {
        // The data type is a struct's.
        let _ = self.data_type();
        self.values().len()
    }

    fn child(&self, f: usize) -> &AnyArray {
        &self.values()[f]
    }

    fn spans(&self) -> Spans<'_> {
        Spans::of_structs(self)
    }

    fn validity(&self) -> Option<&Bitmap> {
        self.validity()
    }
}

/// Arrays with children, all of one kind.
#[derive(Drop)]
pub enum BoundNested<'a> {
    Lists(Vec<&'a ListArray>),
    FixedSizeLists(Vec<&'a FixedSizeListArray>),
    Maps(Vec<&'a MapArray>),
    Structs(Vec<&'a StructArray>),
}

/// What an expression says of the arrays, whichever kind they are.
macro_rules! of_bound {
    ($bound:expr, $arrays:ident => $result:expr) => {
        match $bound {
            BoundNested::Lists($arrays) => $result,
            BoundNested::FixedSizeLists($arrays) => $result,
            BoundNested::Maps($arrays) => $result,
            BoundNested::Structs($arrays) => $result,
        }
    };
}

impl<'a> BoundNested<'a> {
    /// Arrays of any type with children, which is one of those whose arrays can grow.
    ///
    /// # Errors
    /// `OutOfMemory` where memory is refused.
    pub(crate) fn of_any(alloc: Global, arrays: &[&'a AnyArray]) -> Result<BoundNested<'a>, Error>
        requires some { 0 < length arrays.now }
        requires one_type { AreOfOneType (map (λ a. layout_of a.now) arrays.now) }
        requires nested { IsNestedType
            (physical_type_of (first_type (map (λ a. layout_of a.now) arrays.now))) }
        ensures ok { IfOk result (λ bound. bound_layouts bound ≡ map (λ a. layout_of a.now) arrays.now) }
        ensures err { IsOkUnless result Error.OutOfMemory }
    {
        let first: &'a AnyArray = arrays[0];
        match first.data_type().to_physical_type() {
            PhysicalType::List | PhysicalType::LargeList => {
                Ok(BoundNested::Lists(bind(alloc, arrays)?))
            }
            PhysicalType::FixedSizeList => Ok(BoundNested::FixedSizeLists(bind(alloc, arrays)?)),
            PhysicalType::Map => Ok(BoundNested::Maps(bind(alloc, arrays)?)),
            PhysicalType::Struct => Ok(BoundNested::Structs(bind(alloc, arrays)?)),
            _ => unreachable!(),
        }
    }

    /// The data type of the first.
    pub(crate) fn data_type(&self) -> &'a DataType
        requires { 0 < length (bound_layouts self.now) }
        ensures same { type_of result.now ≡ first_type (bound_layouts self.now) }
        ensures carried { IsCarried (first_type (bound_layouts self.now)) }
        ensures nested { IsNestedType (physical_type_of (first_type (bound_layouts self.now))) }
    {
        of_bound!(self, arrays => first_data_type(arrays))
    }

    /// Where the rows of array `index` lie in its children.
    pub(crate) fn spans(&self, index: usize) -> Spans<'a>
        requires { index < length (bound_layouts self.now) }
        ensures { Lies result (source_at (bound_layouts self.now) index) }
    {
        of_bound!(self, arrays => at(arrays, index).spans())
    }

    /// The validity of array `index`.
    pub(crate) fn validity(&self, index: usize) -> Option<&'a Bitmap>
        requires { index < length (bound_layouts self.now) }
        ensures { option_copied result ≡ validity_in (source_at (bound_layouts self.now) index) }
    {
        of_bound!(self, arrays => NestedArray::validity(at(arrays, index)))
    }

    /// How many children each array has.
    pub(crate) fn width(&self) -> usize
        requires { 0 < length (bound_layouts self.now) }
        ensures { result ≡ length (child_types (first_type (bound_layouts self.now))) }
    {
        of_bound!(self, arrays => first_width(arrays))
    }

    /// Child `f` of each.
    pub(crate) fn column(&self, alloc: Global, f: usize) -> Result<Vec<&'a AnyArray>, Error>
        requires one_type { AreOfOneType (bound_layouts self.now) }
        requires child { f < length (child_types (first_type (bound_layouts self.now))) }
        ensures ok { IfOk result (λ column. map (λ c. layout_of c.now) column.items
            ≡ map (nth_child f) (bound_layouts self.now)) }
        ensures types { OnOk result (All
            (λ l. type_of_layout l ≡ child_type (first_type (bound_layouts self.now)) f)
            (map (nth_child f) (bound_layouts self.now))) }
        ensures err { IsOkUnless result Error.OutOfMemory }
    {
        of_bound!(self, arrays => column_of(alloc, arrays, f))
    }

    /// Where the rows of an array under construction lie in its children: of one without rows, with room for so many.
    pub(crate) fn grown_spans(&self, alloc: Global, capacity: usize) -> Result<GrowableSpans, Error>
        requires some { 0 < length (bound_layouts self.now) }
        requires one_type { AreOfOneType (bound_layouts self.now) }
        ensures ok { IfOk result (λ spans. IsFresh spans (bound_layouts self.now)) }
        ensures err { IsOkUnless result Error.OutOfMemory }
    {
        GrowableSpans::new(alloc, &self.spans(0), capacity)
    }
}

// The array at a place.
fn at<'a, A: NestedArray>(arrays: &[&'a A], index: usize) -> &'a A
    requires { index < length arrays.now }
    ensures { A.layout_in result.now ≡ source_at (map (λ r. A.layout_in r.now) arrays.now) index }
{
    arrays[index]
}

// The data type of the first.
fn first_data_type<'a, A: NestedArray>(arrays: &[&'a A]) -> &'a DataType
    requires { 0 < length arrays.now }
    ensures same { type_of result.now ≡ first_type (map (λ r. A.layout_in r.now) arrays.now) }
    ensures carried { IsCarried (first_type (map (λ r. A.layout_in r.now) arrays.now)) }
    ensures kind { kind_in (physical_type_of (first_type (map (λ r. A.layout_in r.now) arrays.now)))
        ≡ A.kind }
{
    let first: &'a A = arrays[0];
    first.data_type()
}

// How many children the first has.
fn first_width<A: NestedArray>(arrays: &[&A]) -> usize
    requires { 0 < length arrays.now }
    ensures { result ≡ length (child_types (first_type (map (λ r. A.layout_in r.now) arrays.now))) }
{
    arrays[0].width()
}

// Child `f` of arrays of one kind.
fn column_of<'a, A: NestedArray>(
    alloc: Global,
    arrays: &[&'a A],
    f: usize,
) -> Result<Vec<&'a AnyArray>, Error>
    requires one_type { AreOfOneType (map (λ r. A.layout_in r.now) arrays.now) }
    requires child { f < length (child_types (first_type (map (λ r. A.layout_in r.now) arrays.now))) }
    ensures ok { IfOk result (λ column. map (λ c. layout_of c.now) column.items
        ≡ map (nth_child f) (map (λ r. A.layout_in r.now) arrays.now)) }
    ensures types { OnOk result (All
        (λ l. type_of_layout l ≡ child_type (first_type (map (λ r. A.layout_in r.now) arrays.now)) f)
        (map (nth_child f) (map (λ r. A.layout_in r.now) arrays.now))) }
    ensures err { IsOkUnless result Error.OutOfMemory }
{
    let mut column: Vec<&'a AnyArray> = Vec::with_capacity(alloc, arrays.len())?;
    for array in arrays {
        let array: &'a A = *array;
        // There is a child of each type that the data type says.
        let _ = array.width();
        column.push(array.child(f))?;
    }
    Ok(column)
}

// Arrays of any type as arrays of one kind.
fn bind<'a, A: NestedArray>(alloc: Global, arrays: &[&'a AnyArray]) -> Result<Vec<&'a A>, Error>
    requires one_type { AreOfOneType (map (λ a. layout_of a.now) arrays.now) }
    requires kind { kind_in (physical_type_of (first_type (map (λ a. layout_of a.now) arrays.now))) ≡ A.kind }
    ensures ok { IfOk result (λ bound. map (λ r. A.layout_in r.now) bound.items
        ≡ map (λ a. layout_of a.now) arrays.now) }
    ensures err { IsOkUnless result Error.OutOfMemory }
{
    let mut bound: Vec<&'a A> = Vec::with_capacity(alloc, arrays.len())?;
    for array in arrays {
        // The kind of each array follows from its data type.
        let _ = array.data_type();
        bound.push(A::of_any(*array))?;
    }
    Ok(bound)
}
