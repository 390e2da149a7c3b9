//! Arrays of unions under construction.

ghost use Rattle.std.specs.Prelude.{◌≡◌, ◌<◌, ◌↔◌, true, Err, Some, length, map, All, IfErr, IfOk, IsOkUnless, OnErr, OnOk};
ghost use Rattle.arrow_types.specs.declared.error.Error.{Error};
ghost use Rattle.arrow_types.specs.TypeOf.{type_of};
ghost use Rattle.arrow_types.specs.declared.datatypes.physical_type.PhysicalType.TheVariants as physical;
ghost use Rattle.arrow_flat.specs.Faults.{IsCarriedAs};
ghost use Rattle.arrow_types.specs.Physical.{physical_type_of};
ghost use Rattle.arrow_arrays.specs.Any.{kind_in, kind_of, layout_of, union_kind};
ghost use Rattle.arrow_arrays.specs.Crowded.{child_at};
ghost use Rattle.arrow_arrays.specs.Layout.{type_of_layout};
ghost use Rattle.arrow_arrays.specs.TypeParts.{field_types};
ghost use Rattle.arrow_arrays.specs.UnionParts.{union_layout, union_rows};
ghost use Rattle.arrow_flat_growable.specs.Grown.{AreOfOneType, HandsOut, HasFailed, IsFailedOrMemory, bound_to, empty_over, first_type};
ghost use Rattle.arrow_growable.specs.AnyGrowable.{grown_of};
ghost use Rattle.arrow_growable.specs.GrownUnion.{HaveFieldTypes, no_offsets, offsets_in, union_children};
ghost use Rattle.arrow_growable.specs.Made.{Makes};
ghost use Rattle.arrow_growable.specs.Variants.{variant_type};

use crate::growable::Growable;
use crate::growable::any::AnyGrowable;
use crate::growable::children::box_children;
use crate::growable::finish::union_array;
use crate::growable::make::make_each;
use crate::growable::variants::{extend_null_variants, extend_variants};
use arrow_arrays::array::types::mode;
use arrow_arrays::array::{AnyArray, UnionArray};
use arrow_types::datatypes::{DataType, UnionMode};
use arrow_types::error::Error;
use std::alloc::Global;
use std::marker::Model;
use std::mem;

/// An array of unions under construction, sparse or dense.
#[cycle(growables)]
pub struct GrowableUnion<'a> {
    alloc: Global,
    arrays: Vec<&'a UnionArray>,
    data_type: DataType,
    types: Vec<i8>,
    offsets: Option<Vec<i32>>,
    children: Vec<AnyGrowable<'a>>,
    len: usize,
    has_failed: bool,
}

// by hand, so that a drop is a call, and is not written out wherever a value is dropped
impl Drop for GrowableUnion<'_> {
    #[cycle(growables)]
    fn drop(self) {
        let GrowableUnion {
            alloc: _,
            arrays: _,
            data_type: _,
            types: _,
            offsets: _,
            children: _,
            len: _,
            has_failed: _,
        } = self;
    }
}

impl<'a> Model for GrowableUnion<'a> {
    ghost use Rattle.std.specs.Prelude.{Some, map};
    ghost use Rattle.arrow_types.specs.TypeOf.{type_of};
    ghost use Rattle.arrow_arrays.specs.TypeDepth.{type_depth};
    ghost use Rattle.arrow_arrays.specs.UnionParts.{union_layout};
    ghost use Rattle.arrow_flat_growable.specs.Grown.{Grown, grown_code};
    ghost use Rattle.arrow_growable.specs.GrownUnion.{IsGrownUnion, offsets_in, variant_rows};

    ghost Value = { Grown };

    ghost coded = { grown_code };

    ghost use Rattle.arrow_growable.specs.AnyGrowable.{grown_of};

    ghost view = { λ a. record {
      arrow_type = type_of a.data_type;
      sources = Some (map (λ r. union_layout r.now) a.arrays.items);
      rows = variant_rows (type_of a.data_type) a.types.items (offsets_in a.offsets)
          (map grown_of a.children.items);
      count = a.len;
      failed = a.has_failed;
    } };

    ghost invariant = { λ a. IsGrownUnion (map (λ r. union_layout r.now) a.arrays.items)
        (type_of a.data_type) a.types.items (offsets_in a.offsets) (map grown_of a.children.items) a.len
        a.has_failed };

    ghost size = { λ g. type_depth g.arrow_type };

    ghost use Rattle.arrow_growable.specs.Falls.{fields_fall};

    ghost size_decreases = { λ a h. fields_fall a.children.items (type_of a.data_type) h.bound.over.types };
}

impl<'a> GrowableUnion<'a> {
    /// A growable without rows, to which rows of these arrays, of one data type, can be appended, with
    /// room for `capacity` rows, also in each child.
    ///
    /// # Requires
    /// There is an array at least, and all are of one data type.
    ///
    /// # Errors
    /// `Overflow` only where dictionaries in the arrays can't be joined, and never of one array alone;
    /// `OutOfMemory` where memory is refused, as for a capacity that is too great.
    ///
    /// Source: arrow2's `GrowableUnion::new`.
    #[cycle(make)]
    pub fn new(
        alloc: Global,
        arrays: Vec<&'a UnionArray>,
        capacity: usize,
    ) -> Result<GrowableUnion<'a>, Error>
        requires some { 0 < length arrays.items }
        requires one_type { AreOfOneType (map (λ r. union_layout r.now) arrays.items) }
        ensures { Makes (λ growable. growable) (map (λ r. union_layout r.now) arrays.entry.items) result }
    {
        let columns = all_columns(alloc, &arrays)?;
        let children = make_each(alloc, &columns, false, capacity)?;
        GrowableUnion::over(alloc, arrays, children, capacity)
    }

    /// A growable without rows, to which rows of these arrays, of one data type, can be appended, with
    /// growables without rows over their children.
    ///
    /// # Errors
    /// `OutOfMemory` where memory is refused.
    fn over(
        alloc: Global,
        arrays: Vec<&'a UnionArray>,
        children: Vec<AnyGrowable<'a>>,
        capacity: usize,
    ) -> Result<GrowableUnion<'a>, Error>
        requires some { 0 < length arrays.items }
        requires one_type { AreOfOneType (map (λ r. union_layout r.now) arrays.items) }
        requires children { map grown_of children.items
            ≡ map bound_to (union_children (map (λ r. union_layout r.now) arrays.items)) }
        requires types { map (λ g. g.arrow_type) (map grown_of children.items)
            ≡ field_types (first_type (map (λ r. union_layout r.now) arrays.items)) }
        ensures ok { IfOk result (λ growable. growable
            ≡ bound_to (map (λ r. union_layout r.now) arrays.entry.items)) }
        ensures err { IsOkUnless result Error.OutOfMemory }
    {
        let data_type = first_data_type(&arrays).clone()?;
        let types = Vec::with_capacity(alloc, capacity)?;
        let offsets = new_offsets(alloc, mode(&data_type), capacity)?;
        Ok(GrowableUnion {
            alloc,
            arrays,
            data_type,
            types,
            offsets,
            children,
            len: 0,
            has_failed: false,
        })
    }

    /// An array of all rows.
    ///
    /// # Errors
    /// `Failed` where an earlier call refused; `OutOfMemory` where memory is refused.
    pub fn into_array(self) -> Result<UnionArray, Error>
        ensures answer { HandsOut (λ array. array.arrow_type) union_rows self.entry result }
    {
        let mut growable = self;
        growable.take_array()
    }

    /// Hands out an array of all rows so far, and is left without rows.
    #[cycle(as_box)]
    fn take_array(&mut self) -> Result<UnionArray, Error>
        ensures ok { IfOk result (λ array. (array.arrow_type ≡ self.old.arrow_type)
            × (union_rows array ≡ self.old.rows)) }
        ensures left { OnOk result (self.new ≡ empty_over self.old.arrow_type self.old.sources) }
        ensures err { OnErr result (HasFailed self.old self.new) }
        ensures failed { (result ≡ Err Error.Failed) ↔ (self.old.failed ≡ true) }
        ensures others { IfErr result IsFailedOrMemory }
    {
        if self.has_failed {
            return Err(Error::Failed);
        }
        self.has_failed = true;
        let values = box_children(self.alloc, &mut self.children)?;
        let fresh = without_offsets(self.alloc, mode(&self.data_type));
        let types = mem::replace(&mut self.types, Vec::new(self.alloc));
        let offsets = mem::replace(&mut self.offsets, fresh);
        let array = union_array(self.alloc, &self.data_type, types, values, offsets)?;
        self.len = 0;
        self.has_failed = false;
        Ok(array)
    }
}

impl<'a> Growable<'a> for GrowableUnion<'a> {
    ghost state = { λ g. g };

    #[cycle(extend)]
    #[inline(never)]
    fn extend(&mut self, index: usize, start: usize, len: usize) -> Result<(), Error> {
        if self.has_failed {
            return Err(Error::Failed);
        }
        self.has_failed = true;
        let Some(total) = self.len.checked_add(len) else {
            return Err(Error::Overflow);
        };
        extend_variants(
            &mut self.types,
            &mut self.offsets,
            &mut self.children,
            &self.arrays,
            index,
            start,
            len,
        )?;
        self.len = total;
        self.has_failed = false;
        Ok(())
    }

    #[cycle(extend_validity)]
    fn extend_validity(&mut self, additional: usize) -> Result<(), Error> {
        if self.has_failed {
            return Err(Error::Failed);
        }
        self.has_failed = true;
        let Some(total) = self.len.checked_add(additional) else {
            return Err(Error::Overflow);
        };
        extend_null_variants(
            &mut self.types,
            &mut self.offsets,
            &mut self.children,
            &self.data_type,
            additional,
        )?;
        self.len = total;
        self.has_failed = false;
        Ok(())
    }

    fn len(&self) -> usize {
        self.len
    }

    #[cycle(as_box)]
    fn as_box(&mut self) -> Result<AnyArray, Error> {
        Ok(AnyArray::Union(self.take_array()?))
    }
}

// Arrays of any type as arrays of unions.
pub(crate) fn bind<'a>(alloc: Global, arrays: &[&'a AnyArray]) -> Result<Vec<&'a UnionArray>, Error>
    requires one_type { AreOfOneType (map (λ a. layout_of a.now) arrays.now) }
    requires kind { kind_in (physical_type_of (first_type (map (λ a. layout_of a.now) arrays.now)))
        ≡ union_kind }
    ensures ok { IfOk result (λ bound. map (λ r. union_layout r.now) bound.items
        ≡ map (λ a. layout_of a.now) arrays.now) }
    ensures err { IsOkUnless result Error.OutOfMemory }
{
    let mut bound: Vec<&'a UnionArray> = Vec::with_capacity(alloc, arrays.len())?;
    for array in arrays {
        // The kind of each array follows from its data type.
        let _ = array.data_type();
        bound.push(as_union(*array))?;
    }
    Ok(bound)
}

// An array of any type as one of unions.
fn as_union(array: &AnyArray) -> &UnionArray
    requires { kind_of array.now ≡ union_kind }
    ensures { union_layout result.now ≡ layout_of array.now }
{
    match array {
        AnyArray::Union(array) => array,
        _ => unreachable!(),
    }
}

// The data type of the first.
fn first_data_type<'a>(arrays: &[&'a UnionArray]) -> &'a DataType
    requires { 0 < length arrays.now }
    ensures same { type_of result.now ≡ first_type (map (λ r. union_layout r.now) arrays.now) }
    ensures kind { IsCarriedAs physical.Union (first_type (map (λ r. union_layout r.now) arrays.now)) }
{
    let first: &'a UnionArray = arrays[0];
    first.data_type()
}

// No offsets in a dense union, and none at all in a sparse one.
fn without_offsets(alloc: Global, mode: UnionMode) -> Option<Vec<i32>>
    ensures { offsets_in result ≡ no_offsets mode }
{
    match mode {
        UnionMode::Sparse => None,
        UnionMode::Dense => Some(Vec::new(alloc)),
    }
}

// The same with room for so many.
fn new_offsets(alloc: Global, mode: UnionMode, capacity: usize) -> Result<Option<Vec<i32>>, Error>
    ensures ok { IfOk result (λ offsets. offsets_in offsets ≡ no_offsets mode) }
    ensures err { IsOkUnless result Error.OutOfMemory }
{
    match mode {
        UnionMode::Sparse => Ok(None),
        UnionMode::Dense => Ok(Some(Vec::with_capacity(alloc, capacity)?)),
    }
}

// The children of unions of one type, those of each field beside one another.
fn all_columns<'a>(
    alloc: Global,
    arrays: &[&'a UnionArray],
) -> Result<Vec<Vec<&'a AnyArray>>, Error>
    requires some { 0 < length arrays.now }
    requires one_type { AreOfOneType (map (λ r. union_layout r.now) arrays.now) }
    ensures ok { IfOk result (λ columns.
        map (λ column. map (λ a. layout_of a.now) column.items) columns.items
        ≡ union_children (map (λ r. union_layout r.now) arrays.now)) }
    ensures types { OnOk result (HaveFieldTypes (map (λ r. union_layout r.now) arrays.now)) }
    ensures err { IsOkUnless result Error.OutOfMemory }
{
    let width = arrays[0].fields().len();
    let mut columns: Vec<Vec<&'a AnyArray>> = Vec::with_capacity(alloc, width)?;
    for f in 0..width {
        columns.push(column_of(alloc, arrays, f)?)?;
    }
    Ok(columns)
}

// The children of unions of one type that field `f` has.
fn column_of<'a>(
    alloc: Global,
    arrays: &[&'a UnionArray],
    f: usize,
) -> Result<Vec<&'a AnyArray>, Error>
    requires one_type { AreOfOneType (map (λ r. union_layout r.now) arrays.now) }
    requires child { f < length (field_types (first_type (map (λ r. union_layout r.now) arrays.now))) }
    ensures ok { IfOk result (λ column. map (λ a. layout_of a.now) column.items
        ≡ map (child_at f) (map (λ r. union_layout r.now) arrays.now)) }
    ensures types { OnOk result (All
        (λ l. type_of_layout l ≡ variant_type (first_type (map (λ r. union_layout r.now) arrays.now)) f)
        (map (child_at f) (map (λ r. union_layout r.now) arrays.now))) }
    ensures err { IsOkUnless result Error.OutOfMemory }
{
    let mut column: Vec<&'a AnyArray> = Vec::with_capacity(alloc, arrays.len())?;
    for array in arrays {
        let array: &'a UnionArray = *array;
        column.push(child_of(array, f))?;
    }
    Ok(column)
}

// The child of field `f`.
fn child_of(array: &UnionArray, f: usize) -> &AnyArray
    requires { f < length (field_types array.now.arrow_type) }
    ensures child { layout_of result.now ≡ child_at f (union_layout array.now) }
    ensures field { type_of_layout (child_at f (union_layout array.now))
        ≡ variant_type array.now.arrow_type f }
{
    &array.fields()[f]
}
