//! Growables of arrays of one kind.

ghost use Rattle.std.specs.Prelude.{◌≡◌, ◌<◌, length, map, IfOk};
ghost use Rattle.arrow_types.specs.declared.datatypes.physical_type.PhysicalType.TheVariants as physical;
ghost use Rattle.arrow_types.specs.Physical.{physical_type_of};
ghost use Rattle.arrow_arrays.specs.Any.{dictionary_kind, kind_in, kind_of, layout_of, layouts_in, union_kind};
ghost use Rattle.arrow_arrays.specs.KeyedParts.{keyed_layout};
ghost use Rattle.arrow_arrays.specs.UnionParts.{union_layout};
ghost use Rattle.arrow_flat_growable.specs.Grown.{AreOfOneType, first_type};

use crate::select::growable::plan::Plan;
use crate::select::growable::steps::run_actions;
use arrow_arrays::array::{
    AnyArray, DictionaryArray, FixedSizeListArray, ListArray, MapArray, StructArray, UnionArray,
};
use arrow_flat::array::{Binary, Text};
use arrow_growable::growable::{
    FlatGrowable, GrowableBits, GrowableBytes, GrowableDictionary, GrowableFixedRows, GrowableNull,
    GrowableOf, GrowableParts, GrowableUnion, GrowableValues, NestedArray,
};
use arrow_text::fault::Fault;
use arrow_text::write::{write_made_or_name, write_name};
use arrow_types::datatypes::PhysicalType;
use arrow_types::error::Error;
use arrow_types::types::{PrimitiveType, days_ms, i256, months_days_ns};
use std::alloc::Global;

/// An array with children, as one of any type.
trait Nested: NestedArray {
    /// The same array.
    fn into_any(self) -> AnyArray;
}

impl Nested for ListArray {
    fn into_any(self) -> AnyArray {
        AnyArray::List(self)
    }
}

impl Nested for FixedSizeListArray {
    fn into_any(self) -> AnyArray {
        AnyArray::FixedSizeList(self)
    }
}

impl Nested for MapArray {
    fn into_any(self) -> AnyArray {
        AnyArray::Map(self)
    }
}

impl Nested for StructArray {
    fn into_any(self) -> AnyArray {
        AnyArray::Struct(self)
    }
}

// A growable of arrays that lie in memory so, of one data type.
pub(super) fn run_typed(
    alloc: Global,
    arrays: &[&AnyArray],
    physical_type: PhysicalType,
    plan: &Plan,
    out: &mut String,
) -> Result<(), Fault>
    requires some { 0 < length arrays.now }
    requires one_type { AreOfOneType (layouts_in arrays.now) }
    requires kind { physical_type_of (first_type (layouts_in arrays.now)) ≡ physical_type }
{
    match physical_type {
        PhysicalType::Null => run_null(alloc, arrays, plan, out),
        PhysicalType::Boolean => run_flat::<GrowableBits>(alloc, arrays, plan, out),
        PhysicalType::Primitive(element) => run_primitive(alloc, arrays, element, plan, out),
        PhysicalType::Utf8 => run_flat::<GrowableBytes<i32, Text>>(alloc, arrays, plan, out),
        PhysicalType::LargeUtf8 => run_flat::<GrowableBytes<i64, Text>>(alloc, arrays, plan, out),
        PhysicalType::Binary => run_flat::<GrowableBytes<i32, Binary>>(alloc, arrays, plan, out),
        PhysicalType::LargeBinary => {
            run_flat::<GrowableBytes<i64, Binary>>(alloc, arrays, plan, out)
        }
        PhysicalType::FixedSizeBinary => { run_flat::<GrowableFixedRows>(alloc, arrays, plan, out) }
        _ => run_nested_type(alloc, arrays, physical_type, plan, out),
    }
}

// The same of arrays with children.
fn run_nested_type(
    alloc: Global,
    arrays: &[&AnyArray],
    physical_type: PhysicalType,
    plan: &Plan,
    out: &mut String,
) -> Result<(), Fault>
    requires some { 0 < length arrays.now }
    requires one_type { AreOfOneType (layouts_in arrays.now) }
    requires kind { physical_type_of (first_type (layouts_in arrays.now)) ≡ physical_type }
{
    match physical_type {
        PhysicalType::List | PhysicalType::LargeList => {
            run_nested::<ListArray>(alloc, arrays, plan, out)
        }
        PhysicalType::FixedSizeList => {
            run_nested::<FixedSizeListArray>(alloc, arrays, plan, out)
        }
        PhysicalType::Map => run_nested::<MapArray>(alloc, arrays, plan, out),
        PhysicalType::Struct => run_nested::<StructArray>(alloc, arrays, plan, out),
        PhysicalType::Union => run_unions(alloc, arrays, plan, out),
        PhysicalType::Dictionary(_) => run_dictionaries(alloc, arrays, plan, out),
        _ => Err(Fault::Usage),
    }
}

// The same of numbers or intervals of one element type.
fn run_primitive(
    alloc: Global,
    arrays: &[&AnyArray],
    element: PrimitiveType,
    plan: &Plan,
    out: &mut String,
) -> Result<(), Fault>
    requires some { 0 < length arrays.now }
    requires one_type { AreOfOneType (layouts_in arrays.now) }
    requires kind { physical_type_of (first_type (layouts_in arrays.now)) ≡ physical.Primitive element }
{
    match element {
        PrimitiveType::Int8 => run_flat::<GrowableParts<i8>>(alloc, arrays, plan, out),
        PrimitiveType::Int16 => run_flat::<GrowableParts<i16>>(alloc, arrays, plan, out),
        PrimitiveType::Int32 => run_flat::<GrowableParts<i32>>(alloc, arrays, plan, out),
        PrimitiveType::Int64 => run_flat::<GrowableParts<i64>>(alloc, arrays, plan, out),
        PrimitiveType::Int128 => run_flat::<GrowableParts<i128>>(alloc, arrays, plan, out),
        PrimitiveType::Int256 => run_flat::<GrowableParts<i256>>(alloc, arrays, plan, out),
        PrimitiveType::UInt8 => run_flat::<GrowableParts<u8>>(alloc, arrays, plan, out),
        PrimitiveType::UInt16 => run_flat::<GrowableParts<u16>>(alloc, arrays, plan, out),
        PrimitiveType::UInt32 => run_flat::<GrowableParts<u32>>(alloc, arrays, plan, out),
        PrimitiveType::UInt64 => run_flat::<GrowableParts<u64>>(alloc, arrays, plan, out),
        PrimitiveType::DaysMs => run_flat::<GrowableParts<days_ms>>(alloc, arrays, plan, out),
        PrimitiveType::MonthDayNano => run_flat::<GrowableParts<months_days_ns>>(
            alloc, arrays, plan, out,
        ),
        _ => Err(Fault::Usage),
    }
}

// A growable of nulls, of the data type of the arrays.
fn run_null(alloc: Global, arrays: &[&AnyArray], plan: &Plan, out: &mut String) -> Result<(), Fault>
    requires some { 0 < length arrays.now }
    requires kind { physical_type_of (first_type (layouts_in arrays.now)) ≡ physical.Null }
{
    let data_type = arrays[0].data_type().clone()?;
    let mut growable = GrowableNull::new(alloc, data_type);
    run_actions(&mut growable, arrays, plan, out)?;
    if !plan.is_consumed {
        return Ok(());
    }
    match growable.into_array() {
        Ok(array) => write_made_or_name(out, Ok(AnyArray::Null(array))),
        Err(error) => write_name(out, error),
    }
}

// A growable of arrays that lie in memory as its values do.
fn run_flat<'a, G: GrowableValues + 'a>(
    alloc: Global,
    arrays: &[&'a AnyArray],
    plan: &Plan,
    out: &mut String,
) -> Result<(), Fault>
    requires some { 0 < length arrays.now }
    requires one_type { AreOfOneType (layouts_in arrays.now) }
    requires kind { kind_in (physical_type_of (first_type (layouts_in arrays.now))) ≡ G.kind }
{
    let mut bound: Vec<&'a G::Array> = Vec::with_capacity(alloc, arrays.len())?;
    for array in arrays {
        // The kind of each array follows from its data type.
        let _ = array.data_type();
        bound.push(G::of_any(*array))?;
    }
    let mut growable: FlatGrowable<'a, G> = FlatGrowable::new(
        alloc,
        bound,
        plan.use_validity,
        plan.capacity,
    )?;
    run_actions(&mut growable, arrays, plan, out)?;
    if !plan.is_consumed {
        return Ok(());
    }
    match growable.into_array() {
        Ok(array) => write_made_or_name(out, G::into_any(array)),
        Err(error) => write_name(out, error),
    }
}

// A growable of arrays with children, of one kind.
fn run_nested<'a, A: Nested + 'a>(
    alloc: Global,
    arrays: &[&'a AnyArray],
    plan: &Plan,
    out: &mut String,
) -> Result<(), Fault>
    requires some { 0 < length arrays.now }
    requires one_type { AreOfOneType (layouts_in arrays.now) }
    requires kind { kind_in (physical_type_of (first_type (layouts_in arrays.now))) ≡ A.kind }
{
    let mut bound: Vec<&'a A> = Vec::with_capacity(alloc, arrays.len())?;
    for array in arrays {
        // The kind of each array follows from its data type.
        let _ = array.data_type();
        bound.push(A::of_any(*array))?;
    }
    let mut growable: GrowableOf<'a, A> = GrowableOf::new(
        alloc,
        bound,
        plan.use_validity,
        plan.capacity,
    )?;
    run_actions(&mut growable, arrays, plan, out)?;
    if !plan.is_consumed {
        return Ok(());
    }
    match growable.into_array() {
        Ok(array) => write_made_or_name(out, Ok(array.into_any())),
        Err(error) => write_name(out, error),
    }
}

// A growable of dictionaries.
fn run_dictionaries(
    alloc: Global,
    arrays: &[&AnyArray],
    plan: &Plan,
    out: &mut String,
) -> Result<(), Fault>
    requires some { 0 < length arrays.now }
    requires one_type { AreOfOneType (layouts_in arrays.now) }
    requires kind { kind_in (physical_type_of (first_type (layouts_in arrays.now))) ≡ dictionary_kind }
{
    let bound = bind_dictionaries(alloc, arrays)?;
    let mut growable = GrowableDictionary::new(alloc, &bound, plan.use_validity, plan.capacity)?;
    run_actions(&mut growable, arrays, plan, out)?;
    if !plan.is_consumed {
        return Ok(());
    }
    match growable.into_array() {
        Ok(array) => write_made_or_name(out, Ok(AnyArray::Dictionary(array))),
        Err(error) => write_name(out, error),
    }
}

// Arrays of any type as arrays of dictionaries.
fn bind_dictionaries<'a>(
    alloc: Global,
    arrays: &[&'a AnyArray],
) -> Result<Vec<&'a DictionaryArray>, Error>
    requires one_type { AreOfOneType (layouts_in arrays.now) }
    requires kind { kind_in (physical_type_of (first_type (layouts_in arrays.now))) ≡ dictionary_kind }
    ensures { IfOk result (λ bound. map (λ r. keyed_layout r.now) bound.items ≡ layouts_in arrays.now) }
{
    let mut bound: Vec<&'a DictionaryArray> = Vec::with_capacity(alloc, arrays.len())?;
    for array in arrays {
        // The kind of each array follows from its data type.
        let _ = array.data_type();
        bound.push(as_dictionary(*array))?;
    }
    Ok(bound)
}

// An array of any type as one of dictionaries.
fn as_dictionary(array: &AnyArray) -> &DictionaryArray
    requires { kind_of array.now ≡ dictionary_kind }
    ensures { keyed_layout result.now ≡ layout_of array.now }
{
    match array {
        AnyArray::Dictionary(array) => array,
        _ => unreachable!(),
    }
}

// A growable of unions.
fn run_unions(
    alloc: Global,
    arrays: &[&AnyArray],
    plan: &Plan,
    out: &mut String,
) -> Result<(), Fault>
    requires some { 0 < length arrays.now }
    requires one_type { AreOfOneType (layouts_in arrays.now) }
    requires kind { kind_in (physical_type_of (first_type (layouts_in arrays.now))) ≡ union_kind }
{
    let bound = bind_unions(alloc, arrays)?;
    let mut growable = GrowableUnion::new(alloc, bound, plan.capacity)?;
    run_actions(&mut growable, arrays, plan, out)?;
    if !plan.is_consumed {
        return Ok(());
    }
    match growable.into_array() {
        Ok(array) => write_made_or_name(out, Ok(AnyArray::Union(array))),
        Err(error) => write_name(out, error),
    }
}

// Arrays of any type as arrays of unions.
fn bind_unions<'a>(alloc: Global, arrays: &[&'a AnyArray]) -> Result<Vec<&'a UnionArray>, Error>
    requires one_type { AreOfOneType (layouts_in arrays.now) }
    requires kind { kind_in (physical_type_of (first_type (layouts_in arrays.now))) ≡ union_kind }
    ensures { IfOk result (λ bound. map (λ r. union_layout r.now) bound.items ≡ layouts_in arrays.now) }
{
    let mut bound: Vec<&'a UnionArray> = Vec::with_capacity(alloc, arrays.len())?;
    for array in arrays {
        // The kind of each array follows from its data type.
        let _ = array.data_type();
        bound.push(as_union(*array))?;
    }
    Ok(bound)
}

// An array of any type as one of unions.
fn as_union(array: &AnyArray) -> &UnionArray
    requires { kind_of array.now ≡ union_kind }
    ensures { union_layout result.now ≡ layout_of array.now }
{
    match array {
        AnyArray::Union(array) => array,
        _ => unreachable!(),
    }
}
