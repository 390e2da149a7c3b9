//! Arrays over children that are there already, whose rows are all null.

ghost use Rattle.std.specs.Prelude.{◌≡◌, ◌+◌, ◌*◌, min, IfOk, IsOkUnless, map, replicate};
ghost use Rattle.arrow_types.specs.Slot.{id_at, Null};
ghost use Rattle.arrow_types.specs.TypeOf.{type_of};
ghost use Rattle.arrow_types.specs.declared.datatypes.UnionMode.{UnionMode};
ghost use Rattle.arrow_types.specs.declared.datatypes.physical_type.PhysicalType.TheVariants as physical;
ghost use Rattle.arrow_types.specs.declared.error.Error.{Error};
ghost use Rattle.arrow_flat.specs.DictionaryScalar.{values_in};
ghost use Rattle.arrow_flat.specs.Faults.{IsCarriedAs};
ghost use Rattle.arrow_arrays.specs.Any.{any_array_type, any_array_rows};
ghost use Rattle.arrow_arrays.specs.AnyOffsetsBuffer.{offsets_of, lists_of};
ghost use Rattle.arrow_arrays.specs.Layout.{field_ids};
ghost use Rattle.arrow_arrays.specs.Nulls.{IsNulls, null_columns_of};
ghost use Rattle.arrow_arrays.specs.TypeParts.{item_type, list_size, field_types, mode_in};

use crate::new::flat;
use arrow_arrays::array::{
    AnyArray, AnyOffsetsBuffer, DictionaryArray, FixedSizeListArray, ListArray, MapArray,
    StructArray, UnionArray,
};
use arrow_memory::bitmap::Bitmap;
use arrow_memory::buffer::Buffer;
use arrow_types::datatypes::{DataType, IntegerType};
use arrow_types::error::Error;
use std::alloc::Global;

// Null lists, of no item each.
pub(super) fn null_lists(
    alloc: Global,
    data_type: DataType,
    offsets: AnyOffsetsBuffer,
    items: Box<AnyArray>,
    length: usize,
) -> Result<AnyArray, Error>
    requires kind { IsCarriedAs (lists_of offsets) (type_of data_type) }
    requires zeros { offsets_of offsets ≡ replicate (length + 1) 0 }
    requires items { any_array_type items.value ≡ item_type (type_of data_type) }
    ensures ok { IfOk result (IsNulls (type_of data_type) length) }
    ensures err { IsOkUnless result Error.OutOfMemory }
{
    let validity = Bitmap::new_zeroed(alloc, length)?;
    let Ok(array) = ListArray::try_new(data_type, offsets, items, Some(validity)) else {
        unreachable!();
    };
    Ok(AnyArray::List(array))
}

// Null maps, of no entry each.
pub(super) fn null_maps(
    alloc: Global,
    data_type: DataType,
    entries: Box<AnyArray>,
    length: usize,
) -> Result<AnyArray, Error>
    requires kind { IsCarriedAs physical.Map (type_of data_type) }
    requires entries { any_array_type entries.value ≡ item_type (type_of data_type) }
    ensures ok { IfOk result (IsNulls (type_of data_type) length) }
    ensures err { IsOkUnless result Error.OutOfMemory }
{
    let offsets = flat::zero_offsets(alloc, length)?;
    let validity = Bitmap::new_zeroed(alloc, length)?;
    let Ok(array) = MapArray::try_new(data_type, offsets, entries, Some(validity)) else {
        unreachable!();
    };
    Ok(AnyArray::Map(array))
}

// Null lists of a fixed size, over items that are null slots.
pub(super) fn null_fixed_lists(
    alloc: Global,
    data_type: DataType,
    items: Box<AnyArray>,
    length: usize,
) -> Result<AnyArray, Error>
    requires kind { IsCarriedAs physical.FixedSizeList (type_of data_type) }
    requires items { IsNulls (item_type (type_of data_type)) (length * list_size (type_of data_type))
        items.value }
    ensures ok { IfOk result (IsNulls (type_of data_type) length) }
    ensures err { IsOkUnless result Error.OutOfMemory }
{
    let validity = Bitmap::new_zeroed(alloc, length)?;
    let Ok(array) = FixedSizeListArray::try_new(data_type, items, Some(validity)) else {
        unreachable!();
    };
    Ok(AnyArray::FixedSizeList(array))
}

// Null structs, over columns of null slots.
pub(super) fn null_structs(
    alloc: Global,
    data_type: DataType,
    columns: Vec<AnyArray>,
    length: usize,
) -> Result<AnyArray, Error>
    requires kind { IsCarriedAs physical.Struct (type_of data_type) }
    requires types { map any_array_type columns.items ≡ field_types (type_of data_type) }
    requires rows { map any_array_rows columns.items
        ≡ null_columns_of length length (field_types (type_of data_type)) }
    ensures ok { IfOk result (IsNulls (type_of data_type) length) }
    ensures err { IsOkUnless result Error.OutOfMemory }
{
    let validity = Bitmap::new_zeroed(alloc, length)?;
    let Ok(array) = StructArray::try_new(data_type, columns, Some(validity)) else {
        unreachable!();
    };
    Ok(AnyArray::Struct(array))
}

// The type id of the first field of a union.
fn first_id(data_type: &DataType) -> i8
    requires { IsCarriedAs physical.Union (type_of data_type.now) }
    ensures { result ≡ id_at (field_ids (type_of data_type.now)) 0 }
{
    match data_type {
        DataType::Union(_, Some(ids), _) => ids[0] as i8,
        DataType::Extension(_, inner, _) => first_id(inner),
        _ => 0,
    }
}

// So many rows of the first field of a union, by their type ids.
fn first_ids(alloc: Global, data_type: &DataType, length: usize) -> Result<Buffer<i8>, Error>
    requires { IsCarriedAs physical.Union (type_of data_type.now) }
    ensures ok { IfOk result (λ ids. ids ≡ replicate length (id_at (field_ids (type_of data_type.now)) 0)) }
    ensures err { IsOkUnless result Error.OutOfMemory }
{
    Buffer::from_vec(alloc, vec![in alloc; first_id(data_type); length]?)
}

// Rows of a sparse union that are all the first field's, over columns of null slots.
pub(super) fn sparse_nulls(
    alloc: Global,
    data_type: DataType,
    fields: Vec<AnyArray>,
    length: usize,
) -> Result<AnyArray, Error>
    requires kind { IsCarriedAs physical.Union (type_of data_type) }
    requires mode { mode_in (type_of data_type) ≡ UnionMode.Sparse }
    requires types { map any_array_type fields.items ≡ field_types (type_of data_type) }
    requires rows { map any_array_rows fields.items
        ≡ null_columns_of length length (field_types (type_of data_type)) }
    ensures ok { IfOk result (IsNulls (type_of data_type) length) }
    ensures err { IsOkUnless result Error.OutOfMemory }
{
    let types = first_ids(alloc, &data_type, length)?;
    let Ok(array) = UnionArray::try_new(data_type, types, fields, None) else {
        unreachable!();
    };
    Ok(AnyArray::Union(array))
}

// Rows of a dense union that are all the first one of the first field, a null slot.
pub(super) fn dense_nulls(
    alloc: Global,
    data_type: DataType,
    fields: Vec<AnyArray>,
    length: usize,
) -> Result<AnyArray, Error>
    requires kind { IsCarriedAs physical.Union (type_of data_type) }
    requires mode { mode_in (type_of data_type) ≡ UnionMode.Dense }
    requires types { map any_array_type fields.items ≡ field_types (type_of data_type) }
    requires rows { map any_array_rows fields.items
        ≡ null_columns_of (min length 1) 0 (field_types (type_of data_type)) }
    ensures ok { IfOk result (IsNulls (type_of data_type) length) }
    ensures err { IsOkUnless result Error.OutOfMemory }
{
    let types = first_ids(alloc, &data_type, length)?;
    let offsets = flat::zeros(alloc, length)?;
    let Ok(array) = UnionArray::try_new(data_type, types, fields, Some(offsets)) else {
        unreachable!();
    };
    Ok(AnyArray::Union(array))
}

// Null rows of a dictionary: null keys.
pub(super) fn null_dictionaries(
    alloc: Global,
    data_type: DataType,
    keys: IntegerType,
    values: Box<AnyArray>,
    length: usize,
) -> Result<AnyArray, Error>
    requires kind { IsCarriedAs (physical.Dictionary keys) (type_of data_type) }
    requires values { any_array_type values.value ≡ values_in (type_of data_type) }
    ensures ok { IfOk result (IsNulls (type_of data_type) length) }
    ensures err { IsOkUnless result Error.OutOfMemory }
{
    let keys = flat::null_keys(alloc, keys, length)?;
    let Ok(array) = DictionaryArray::try_new(data_type, keys, values) else {
        unreachable!();
    };
    Ok(AnyArray::Dictionary(array))
}
