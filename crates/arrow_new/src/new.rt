//! Arrays whose rows are all null, and arrays without rows, of any data type.

ghost use Rattle.std.specs.Prelude.{◌≡◌, ◌+◌, ◌<◌, ◌++◌, Err, length, map, replicate, IfOk, IfErr, OnOk, IsOkUnless};
ghost use Rattle.std.specs.List.{All};
ghost use Rattle.arrow_types.specs.ArrowType.{type_in};
ghost use Rattle.arrow_types.specs.Carried.{IsCarried};
ghost use Rattle.arrow_types.specs.TypeOf.{type_of, field_of};
ghost use Rattle.arrow_types.specs.declared.datatypes.physical_type.PhysicalType.TheVariants as physical;
ghost use Rattle.arrow_types.specs.declared.error.Error.{Error};
ghost use Rattle.arrow_memory.specs.Grown.{IsGrowthError};
ghost use Rattle.arrow_flat.specs.Faults.{IsCarriedAs};
ghost use Rattle.arrow_arrays.specs.Any.{any_array_type, any_array_rows};
ghost use Rattle.arrow_arrays.specs.AnyOffsetsBuffer.{offsets_of, lists_of};
ghost use Rattle.arrow_arrays.specs.Nulls.{IsNulls, FitNulls, FitNullColumns, nulls_of, null_columns_of};
ghost use Rattle.arrow_arrays.specs.TypeParts.{field_types};

mod flat;
mod nested;

use arrow_arrays::array::{AnyArray, AnyOffsetsBuffer, types};
use arrow_types::datatypes::{DataType, Field, IntegerType, PhysicalType, UnionMode};
use arrow_types::error::Error;
use std::alloc::Global;

/// An array of a data type, without rows. It takes the memory of the data types of all children.
///
/// # Requires
/// The data type is carried (`DataType::is_carried`).
///
/// # Errors
/// `OutOfMemory` where memory is refused.
///
/// Source: arrow2's `new_empty_array`.
pub fn new_empty_array(alloc: Global, data_type: DataType) -> Result<AnyArray, Error>
    requires carried { IsCarried (type_of data_type) }
    ensures ok { IfOk result (IsNulls (type_of data_type) 0) }
    ensures err { IsOkUnless result Error.OutOfMemory }
{
    new_null_array(alloc, data_type, 0)
}

/// An array of `length` null slots of a data type. A row is null, but for a union's, which has no
/// validity: it is a null slot of its first field. All such rows of a dense union are one row of that
/// field. What lies beneath nulls is zeros, and lists are empty, but for lists of a fixed size, whose
/// items are null slots too.
///
/// # Requires
/// The data type is carried (`DataType::is_carried`).
///
/// # Errors
/// `Overflow` where the bytes of a fixed size, or the items of lists of a fixed size, are not counted by
/// a `usize`: never where so many rows fit the data type; `OutOfMemory` where memory is refused.
///
/// Source: arrow2's `new_null_array`.
pub fn new_null_array(alloc: Global, data_type: DataType, length: usize) -> Result<AnyArray, Error>
    requires carried { IsCarried (type_of data_type) }
    ensures ok { IfOk result (IsNulls (type_of data_type) length) }
    ensures err { IfErr result IsGrowthError }
    ensures overflow { result ≡ Err Error.Overflow → FitNulls length (type_of data_type) → ⊥ }
{
    null_rows(alloc, data_type, length)
}

// The array that [`new_null_array`] makes.
#[cycle(new)]
fn null_rows(alloc: Global, data_type: DataType, length: usize) -> Result<AnyArray, Error>
    requires { IsCarried (type_of data_type) }
    ensures ok { IfOk result (IsNulls (type_of data_type) length) }
    ensures err { IfErr result IsGrowthError }
    ensures overflow { result ≡ Err Error.Overflow → FitNulls length (type_of data_type) → ⊥ }
{
    match data_type.to_physical_type() {
        PhysicalType::List => {
            let offsets = AnyOffsetsBuffer::Small(flat::zero_offsets(alloc, length)?);
            null_lists(alloc, data_type, offsets, length)
        }
        PhysicalType::LargeList => {
            let offsets = AnyOffsetsBuffer::Large(flat::zero_offsets(alloc, length)?);
            null_lists(alloc, data_type, offsets, length)
        }
        PhysicalType::Map => null_maps(alloc, data_type, length),
        PhysicalType::FixedSizeList => null_fixed_lists(alloc, data_type, length),
        PhysicalType::Struct => null_structs(alloc, data_type, length),
        PhysicalType::Union => null_unions(alloc, data_type, length),
        PhysicalType::Dictionary(keys) => null_dictionaries(alloc, data_type, keys, length),
        _ => flat::null_rows(alloc, data_type, length),
    }
}

// A boxed array of the data type without rows.
#[cycle(new)]
fn empty_child(alloc: Global, data_type: &DataType) -> Result<Box<AnyArray>, Error>
    requires { IsCarried (type_of data_type.now) }
    ensures ok { IfOk result (λ child. any_array_type child.value ≡ type_of data_type.now) }
    ensures err { IsOkUnless result Error.OutOfMemory }
{
    let child = null_rows(alloc, data_type.clone()?, 0)?;
    Ok(Box::new(alloc, child)?)
}

// Null lists under offsets of either width, of no item each.
#[cycle(new)]
fn null_lists(
    alloc: Global,
    data_type: DataType,
    offsets: AnyOffsetsBuffer,
    length: usize,
) -> Result<AnyArray, Error>
    requires kind { IsCarriedAs (lists_of offsets) (type_of data_type) }
    requires zeros { offsets_of offsets ≡ replicate (length + 1) 0 }
    ensures ok { IfOk result (IsNulls (type_of data_type) length) }
    ensures err { IsOkUnless result Error.OutOfMemory }
{
    let items = empty_child(alloc, types::item_type(&data_type))?;
    nested::null_lists(alloc, data_type, offsets, items, length)
}

// Null maps, of no entry each.
#[cycle(new)]
fn null_maps(alloc: Global, data_type: DataType, length: usize) -> Result<AnyArray, Error>
    requires { IsCarriedAs physical.Map (type_of data_type) }
    ensures ok { IfOk result (IsNulls (type_of data_type) length) }
    ensures err { IsOkUnless result Error.OutOfMemory }
{
    let entries = empty_child(alloc, types::item_type(&data_type))?;
    nested::null_maps(alloc, data_type, entries, length)
}

// Null lists of a fixed size, whose items are null slots.
#[cycle(new)]
fn null_fixed_lists(alloc: Global, data_type: DataType, length: usize) -> Result<AnyArray, Error>
    requires { IsCarriedAs physical.FixedSizeList (type_of data_type) }
    ensures ok { IfOk result (IsNulls (type_of data_type) length) }
    ensures err { IfErr result IsGrowthError }
    ensures overflow { result ≡ Err Error.Overflow → FitNulls length (type_of data_type) → ⊥ }
{
    let Some(count) = length.checked_mul(types::list_size(&data_type)) else {
        return Err(Error::Overflow);
    };
    let item_type = types::item_type(&data_type).clone()?;
    let items = Box::new(alloc, null_rows(alloc, item_type, count)?)?;
    nested::null_fixed_lists(alloc, data_type, items, length)
}

// Null structs, each part of which is a null slot.
#[cycle(new)]
fn null_structs(alloc: Global, data_type: DataType, length: usize) -> Result<AnyArray, Error>
    requires { IsCarriedAs physical.Struct (type_of data_type) }
    ensures ok { IfOk result (IsNulls (type_of data_type) length) }
    ensures err { IfErr result IsGrowthError }
    ensures overflow { result ≡ Err Error.Overflow → FitNulls length (type_of data_type) → ⊥ }
{
    let columns = null_columns(alloc, &data_type, length, length)?;
    nested::null_structs(alloc, data_type, columns, length)
}

// Rows of a union that are null slots of its first field: in a sparse one the other fields hold null
// slots too, and in a dense one all rows share one row of the first field.
#[cycle(new)]
fn null_unions(alloc: Global, data_type: DataType, length: usize) -> Result<AnyArray, Error>
    requires { IsCarriedAs physical.Union (type_of data_type) }
    ensures ok { IfOk result (IsNulls (type_of data_type) length) }
    ensures err { IfErr result IsGrowthError }
    ensures overflow { result ≡ Err Error.Overflow → FitNulls length (type_of data_type) → ⊥ }
{
    match types::mode(&data_type) {
        UnionMode::Sparse => {
            let fields = null_columns(alloc, &data_type, length, length)?;
            nested::sparse_nulls(alloc, data_type, fields, length)
        }
        UnionMode::Dense => {
            let fields = null_columns(alloc, &data_type, length.min(1), 0)?;
            nested::dense_nulls(alloc, data_type, fields, length)
        }
    }
}

// Null rows of a dictionary, which has no value.
#[cycle(new)]
fn null_dictionaries(
    alloc: Global,
    data_type: DataType,
    keys: IntegerType,
    length: usize,
) -> Result<AnyArray, Error>
    requires { IsCarriedAs (physical.Dictionary keys) (type_of data_type) }
    ensures ok { IfOk result (IsNulls (type_of data_type) length) }
    ensures err { IsOkUnless result Error.OutOfMemory }
{
    let values = empty_child(alloc, types::values_type(&data_type))?;
    nested::null_dictionaries(alloc, data_type, keys, values, length)
}

// An array of null slots for each field of a struct or a union: so many for the first field, and so
// many for each of the others.
#[cycle(new)]
fn null_columns(
    alloc: Global,
    data_type: &DataType,
    first: usize,
    others: usize,
) -> Result<Vec<AnyArray>, Error>
    requires carried { All IsCarried (field_types (type_of data_type.now)) }
    requires some { 0 < length (field_types (type_of data_type.now)) }
    ensures types { IfOk result
        (λ columns. map any_array_type columns.items ≡ field_types (type_of data_type.now)) }
    ensures rows { IfOk result
        (λ columns. map any_array_rows columns.items
        ≡ null_columns_of first others (field_types (type_of data_type.now))) }
    ensures err { IfErr result IsGrowthError }
    ensures overflow { result ≡ Err Error.Overflow
        → FitNullColumns first others (field_types (type_of data_type.now)) → ⊥ }
{
    let fields = types::fields_of(data_type);
    let mut columns = Vec::with_capacity(alloc, fields.len())?;
    push_columns(alloc, &mut columns, &fields[..1], first)?;
    push_columns(alloc, &mut columns, &fields[1..], others)?;
    Ok(columns)
}

// Appends an array of so many null slots for each field.
#[cycle(new)]
fn push_columns(
    alloc: Global,
    columns: &mut Vec<AnyArray>,
    fields: &[Field],
    count: usize,
) -> Result<(), Error>
    requires { All IsCarried (map (λ field. type_in (field_of field)) fields.now) }
    ensures types { OnOk result
        (map any_array_type columns.new.items
        ≡ map any_array_type columns.old.items ++ map (λ field. type_in (field_of field)) fields.now) }
    ensures rows { OnOk result
        (map any_array_rows columns.new.items
        ≡ map any_array_rows columns.old.items ++ map (λ t. nulls_of t count)
        (map (λ field. type_in (field_of field)) fields.now)) }
    ensures err { IfErr result IsGrowthError }
    ensures overflow { result ≡ Err Error.Overflow
        → All (FitNulls count) (map (λ field. type_in (field_of field)) fields.now) → ⊥ }
{
    for field in fields {
        let column = null_rows(alloc, field.data_type().clone()?, count)?;
        columns.push(column)?;
    }
    Ok(())
}
