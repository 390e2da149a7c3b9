//! Growables over arrays of any type.

ghost use Rattle.std.specs.Prelude.{◌≡◌, ◌<◌, Err, length, map, All, IfErr, IfOk, IsOkUnless};
ghost use Rattle.arrow_types.specs.declared.error.Error.{Error};
ghost use Rattle.arrow_types.specs.declared.datatypes.physical_type.PhysicalType.TheVariants as physical;
ghost use Rattle.arrow_types.specs.Physical.{physical_type_of};
ghost use Rattle.arrow_memory.specs.Grown.{IsGrowthError};
ghost use Rattle.arrow_arrays.specs.Any.{kind_in, kind_of, layout_of, null_kind};
ghost use Rattle.arrow_arrays.specs.TypeParts.{IsFlatType};
ghost use Rattle.arrow_growable.specs.AnyGrowable.{grown_of, primitive_grown_of};
ghost use Rattle.arrow_growable.specs.GrownUnion.{CanBind, SomeColumnUnjoined};
ghost use Rattle.arrow_growable.specs.Made.{Makes};
ghost use Rattle.arrow_flat_growable.specs.Grown.{AreOfOneType, bound_to, first_type};
ghost use Rattle.arrow_flat_growable.specs.Nulls.{null_layout};

use crate::growable::bound::BoundNested;
use crate::growable::{
    AnyGrowable, AnyGrowablePrimitive, BoundNulls, FlatGrowable, GrowableDictionary,
    GrowableNested, GrowableUnion, GrowableValues, dictionary, union,
};
use arrow_arrays::array::AnyArray;
use arrow_flat::array::NullArray;
use arrow_types::datatypes::PhysicalType;
use arrow_types::error::Error;
use arrow_types::types::PrimitiveType;
use std::alloc::Global;

/// A growable without rows, to which rows of these arrays, of one data type, can be appended, with room
/// for `capacity` rows. With `use_validity` it keeps a validity from the first row on, and else once a
/// row may be null; no row depends on that.
///
/// # Requires
/// There is an array at least, and all are of one data type.
///
/// # Errors
/// `Overflow` only where dictionaries in the arrays can't be joined, and never of one array alone; `OutOfMemory`
/// where memory is refused, as for a capacity that is too great.
///
/// Source: arrow2's `make_growable`.
#[cycle(make)]
pub fn make_growable<'a>(
    alloc: Global,
    arrays: &[&'a AnyArray],
    use_validity: bool,
    capacity: usize,
) -> Result<AnyGrowable<'a>, Error>
    requires some { 0 < length arrays.now }
    requires one_type { AreOfOneType (map (λ a. layout_of a.now) arrays.now) }
    ensures { Makes grown_of (map (λ a. layout_of a.now) arrays.now) result }
{
    let first: &'a AnyArray = arrays[0];
    match first.data_type().to_physical_type() {
        PhysicalType::Dictionary(_) => {
            let bound = dictionary::bind(alloc, arrays)?;
            let growable = GrowableDictionary::new(alloc, &bound, use_validity, capacity)?;
            Ok(AnyGrowable::Dictionary(growable))
        }
        PhysicalType::List
        | PhysicalType::LargeList
        | PhysicalType::FixedSizeList
        | PhysicalType::Map
        | PhysicalType::Struct => {
            let nested = BoundNested::of_any(alloc, arrays)?;
            Ok(AnyGrowable::Nested(GrowableNested::new(alloc, nested, use_validity, capacity)?))
        }
        PhysicalType::Union => {
            let bound = union::bind(alloc, arrays)?;
            Ok(AnyGrowable::Union(GrowableUnion::new(alloc, bound, capacity)?))
        }
        physical_type => make_flat(alloc, arrays, physical_type, use_validity, capacity),
    }
}

// Growables without rows over each of these columns of arrays, with room for so many rows.
#[cycle(make)]
pub(crate) fn make_each<'a>(
    alloc: Global,
    columns: &[Vec<&'a AnyArray>],
    use_validity: bool,
    capacity: usize,
) -> Result<Vec<AnyGrowable<'a>>, Error>
    requires { All CanBind (map (λ column. map (λ a. layout_of a.now) column.items) columns.now) }
    ensures ok { IfOk result (λ growables. map grown_of growables.items
        ≡ map bound_to (map (λ column. map (λ a. layout_of a.now) column.items) columns.now)) }
    ensures overflow { result ≡ Err Error.Overflow
        → SomeColumnUnjoined (map (λ column. map (λ a. layout_of a.now) column.items) columns.now) }
    ensures alone { All (λ column. length column ≡ 1)
        (map (λ column. map (λ a. layout_of a.now) column.items) columns.now)
        → IsOkUnless result Error.OutOfMemory }
    ensures others { IfErr result IsGrowthError }
{
    let mut growables: Vec<AnyGrowable<'a>> = Vec::with_capacity(alloc, columns.len())?;
    for column in columns {
        growables.push(make_growable(alloc, column, use_validity, capacity)?)?;
    }
    Ok(growables)
}

// The same over arrays without children.
fn make_flat<'a>(
    alloc: Global,
    arrays: &[&'a AnyArray],
    physical_type: PhysicalType,
    use_validity: bool,
    capacity: usize,
) -> Result<AnyGrowable<'a>, Error>
    requires some { 0 < length arrays.now }
    requires one_type { AreOfOneType (map (λ a. layout_of a.now) arrays.now) }
    requires kind { physical_type_of (first_type (map (λ a. layout_of a.now) arrays.now)) ≡ physical_type }
    requires flat { IsFlatType physical_type }
    ensures ok { IfOk result (λ growable. grown_of growable
        ≡ bound_to (map (λ a. layout_of a.now) arrays.now)) }
    ensures err { IsOkUnless result Error.OutOfMemory }
{
    match physical_type {
        PhysicalType::Null => Ok(AnyGrowable::Null(bound_nulls(alloc, arrays)?)),
        PhysicalType::Boolean => {
            Ok(AnyGrowable::Boolean(bound(alloc, arrays, use_validity, capacity)?))
        }
        PhysicalType::Primitive(element) => {
            let growable = bound_primitives(alloc, arrays, element, use_validity, capacity)?;
            Ok(AnyGrowable::Primitive(growable))
        }
        PhysicalType::Utf8 => Ok(AnyGrowable::Utf8(bound(alloc, arrays, use_validity, capacity)?)),
        PhysicalType::LargeUtf8 => {
            Ok(AnyGrowable::LargeUtf8(bound(alloc, arrays, use_validity, capacity)?))
        }
        PhysicalType::Binary => {
            Ok(AnyGrowable::Binary(bound(alloc, arrays, use_validity, capacity)?))
        }
        PhysicalType::LargeBinary => {
            Ok(AnyGrowable::LargeBinary(bound(alloc, arrays, use_validity, capacity)?))
        }
        PhysicalType::FixedSizeBinary => {
            Ok(AnyGrowable::FixedSizeBinary(bound(alloc, arrays, use_validity, capacity)?))
        }
        _ => unreachable!(),
    }
}

// A growable over arrays that lie in memory as its values do.
fn bound<'a, G: GrowableValues>(
    alloc: Global,
    arrays: &[&'a AnyArray],
    use_validity: bool,
    capacity: usize,
) -> Result<FlatGrowable<'a, G>, Error>
    requires some { 0 < length arrays.now }
    requires one_type { AreOfOneType (map (λ a. layout_of a.now) arrays.now) }
    requires kind { kind_in (physical_type_of (first_type (map (λ a. layout_of a.now) arrays.now))) ≡ G.kind }
    ensures ok { IfOk result (λ growable. growable ≡ bound_to (map (λ a. layout_of a.now) arrays.now)) }
    ensures err { IsOkUnless result Error.OutOfMemory }
{
    let mut flat = Vec::with_capacity(alloc, arrays.len())?;
    for array in arrays {
        // The kind of each array follows from its data type.
        let _ = array.data_type();
        flat.push(G::of_any(*array))?;
    }
    FlatGrowable::new(alloc, flat, use_validity, capacity)
}

// A growable over arrays of the null type.
fn bound_nulls<'a>(alloc: Global, arrays: &[&'a AnyArray]) -> Result<BoundNulls<'a>, Error>
    requires some { 0 < length arrays.now }
    requires one_type { AreOfOneType (map (λ a. layout_of a.now) arrays.now) }
    requires kind { physical_type_of (first_type (map (λ a. layout_of a.now) arrays.now)) ≡ physical.Null }
    ensures ok { IfOk result (λ growable. growable ≡ bound_to (map (λ a. layout_of a.now) arrays.now)) }
    ensures err { IsOkUnless result Error.OutOfMemory }
{
    let mut nulls: Vec<&'a NullArray> = Vec::with_capacity(alloc, arrays.len())?;
    for array in arrays {
        // The kind of each array follows from its data type.
        let _ = array.data_type();
        nulls.push(as_null(*array))?;
    }
    BoundNulls::new(nulls)
}

// An array of any type as one of the null type.
fn as_null(array: &AnyArray) -> &NullArray
    requires { kind_of array.now ≡ null_kind }
    ensures { null_layout result.now ≡ layout_of array.now }
{
    match array {
        AnyArray::Null(array) => array,
        _ => unreachable!(),
    }
}

// A growable over arrays of numbers or intervals of one element type.
fn bound_primitives<'a>(
    alloc: Global,
    arrays: &[&'a AnyArray],
    element: PrimitiveType,
    use_validity: bool,
    capacity: usize,
) -> Result<AnyGrowablePrimitive<'a>, Error>
    requires some { 0 < length arrays.now }
    requires one_type { AreOfOneType (map (λ a. layout_of a.now) arrays.now) }
    requires kind { physical_type_of (first_type (map (λ a. layout_of a.now) arrays.now))
        ≡ physical.Primitive element }
    ensures ok { IfOk result (λ growable. primitive_grown_of growable
        ≡ bound_to (map (λ a. layout_of a.now) arrays.now)) }
    ensures err { IsOkUnless result Error.OutOfMemory }
{
    // The type is carried, so its elements are none of the floats.
    let _ = arrays[0].data_type();
    match element {
        PrimitiveType::Int8 => {
            Ok(AnyGrowablePrimitive::Int8(bound(alloc, arrays, use_validity, capacity)?))
        }
        PrimitiveType::Int16 => {
            Ok(AnyGrowablePrimitive::Int16(bound(alloc, arrays, use_validity, capacity)?))
        }
        PrimitiveType::Int32 => {
            Ok(AnyGrowablePrimitive::Int32(bound(alloc, arrays, use_validity, capacity)?))
        }
        PrimitiveType::Int64 => {
            Ok(AnyGrowablePrimitive::Int64(bound(alloc, arrays, use_validity, capacity)?))
        }
        PrimitiveType::Int128 => {
            Ok(AnyGrowablePrimitive::Int128(bound(alloc, arrays, use_validity, capacity)?))
        }
        PrimitiveType::Int256 => {
            Ok(AnyGrowablePrimitive::Int256(bound(alloc, arrays, use_validity, capacity)?))
        }
        PrimitiveType::UInt8 => {
            Ok(AnyGrowablePrimitive::UInt8(bound(alloc, arrays, use_validity, capacity)?))
        }
        PrimitiveType::UInt16 => {
            Ok(AnyGrowablePrimitive::UInt16(bound(alloc, arrays, use_validity, capacity)?))
        }
        PrimitiveType::UInt32 => {
            Ok(AnyGrowablePrimitive::UInt32(bound(alloc, arrays, use_validity, capacity)?))
        }
        PrimitiveType::UInt64 => {
            Ok(AnyGrowablePrimitive::UInt64(bound(alloc, arrays, use_validity, capacity)?))
        }
        PrimitiveType::DaysMs => {
            Ok(AnyGrowablePrimitive::DaysMs(bound(alloc, arrays, use_validity, capacity)?))
        }
        PrimitiveType::MonthDayNano => {
            Ok(AnyGrowablePrimitive::MonthDayNano(bound(alloc, arrays, use_validity, capacity)?))
        }
        _ => unreachable!(),
    }
}
