//! Arrays with children, of the parts of one that was under construction.

ghost use Rattle.std.specs.Prelude.{◌≡◌, ◌-◌, ◌≤◌, [], ◌∷◌, length, map, IfOk, IsOkUnless};
ghost use Rattle.arrow_types.specs.declared.error.Error.{Error};
ghost use Rattle.arrow_types.specs.declared.datatypes.physical_type.PhysicalType.TheVariants as physical;
ghost use Rattle.arrow_types.specs.Rows.{masked};
ghost use Rattle.arrow_types.specs.TypeOf.{type_of};
ghost use Rattle.arrow_memory.specs.Offsets.{last_of};
ghost use Rattle.arrow_flat.specs.Faults.{IsCarriedAs};
ghost use Rattle.arrow_flat.specs.Parts.{FitsRows};
ghost use Rattle.arrow_arrays.specs.Any.{any_array_rows, any_array_type, layout_of};
ghost use Rattle.arrow_arrays.specs.AnyOffsetsBuffer.{lists_of, offsets_of};
ghost use Rattle.arrow_arrays.specs.FixedListParts.{FitsItems};
ghost use Rattle.arrow_arrays.specs.Layout.{fixed_items, list_items, struct_items};
ghost use Rattle.arrow_arrays.specs.StructParts.{FitsColumns};
ghost use Rattle.arrow_arrays.specs.TypeParts.{field_types, item_type, list_size};
ghost use Rattle.arrow_arrays.specs.UnionParts.{HoldsUnion, child_rows_of};
ghost use Rattle.arrow_growable.specs.Form.{child_types, nested_rows};
ghost use Rattle.arrow_growable.specs.GrowableSpans.{IsFormOf, form_of, grown_arrays};
ghost use Rattle.arrow_growable.specs.Nested.{AreWhole};
ghost use Rattle.arrow_growable.specs.GrownUnion.{offsets_in};

use crate::growable::GrowableValidity;
use crate::growable::grown_spans::GrowableSpans;
use arrow_arrays::array::{
    AnyArray, AnyOffsetsBuffer, FixedSizeListArray, ListArray, MapArray, StructArray, UnionArray,
};
use arrow_memory::bitmap::Bitmap;
use arrow_memory::buffer::Buffer;
use arrow_memory::offset::OffsetsBuffer;
use arrow_types::datatypes::DataType;
use arrow_types::error::Error;
use std::alloc::Global;

// An array over these children, null where a bit is not set.
pub(crate) fn finish(
    alloc: Global,
    data_type: DataType,
    spans: GrowableSpans,
    values: Vec<AnyArray>,
    validity: GrowableValidity,
) -> Result<AnyArray, Error>
    requires kind { IsCarriedAs (grown_arrays spans) (type_of data_type) }
    requires form { IsFormOf (type_of data_type) (form_of spans) }
    requires types { map any_array_type values.items ≡ child_types (type_of data_type) }
    requires whole { AreWhole (form_of spans) (length validity) (map any_array_rows values.items) }
    ensures ok { IfOk result (λ array. (any_array_type array ≡ type_of data_type)
        × (any_array_rows array ≡ nested_rows (form_of spans) validity (map any_array_rows values.items))) }
    ensures err { IsOkUnless result Error.OutOfMemory }
{
    let validity = validity.into_validity()?;
    match spans {
        GrowableSpans::Small(offsets) => {
            let offsets = AnyOffsetsBuffer::Small(offsets.into_buffer()?);
            Ok(list_array(data_type, offsets, first_boxed(alloc, values)?, validity))
        }
        GrowableSpans::Large(offsets) => {
            let offsets = AnyOffsetsBuffer::Large(offsets.into_buffer()?);
            Ok(list_array(data_type, offsets, first_boxed(alloc, values)?, validity))
        }
        GrowableSpans::Map(offsets) => {
            let offsets = offsets.into_buffer()?;
            Ok(map_array(data_type, offsets, first_boxed(alloc, values)?, validity))
        }
        GrowableSpans::FixedSize(_) => {
            Ok(fixed_size_list_array(data_type, first_boxed(alloc, values)?, validity))
        }
        GrowableSpans::Fields => Ok(struct_array(data_type, values, validity)),
    }
}

// The one child of an array.
fn first_boxed(alloc: Global, values: Vec<AnyArray>) -> Result<Box<AnyArray>, Error>
    requires { length values.items ≡ 1 }
    ensures ok { IfOk result (λ child. child.value ∷ [] ≡ values.items) }
    ensures err { IsOkUnless result Error.OutOfMemory }
{
    let mut values = values;
    let Some(child) = values.pop() else {
        unreachable!();
    };
    Ok(Box::new(alloc, child)?)
}

// An array of lists.
fn list_array(
    data_type: DataType,
    offsets: AnyOffsetsBuffer,
    values: Box<AnyArray>,
    validity: Option<Bitmap>,
) -> AnyArray
    requires kind { IsCarriedAs (lists_of offsets) (type_of data_type) }
    requires child { any_array_type values.value ≡ item_type (type_of data_type) }
    requires fits { FitsRows validity (length (offsets_of offsets) - 1) }
    requires within { last_of (offsets_of offsets) ≤ length (any_array_rows values.value) }
    ensures same_type { any_array_type result ≡ type_of data_type }
    ensures rows { any_array_rows result
        ≡ masked validity (list_items (offsets_of offsets) (any_array_rows values.value)) }
{
    AnyArray::List(ListArray::new(data_type, offsets, values, validity))
}

// An array of maps.
fn map_array(
    data_type: DataType,
    offsets: OffsetsBuffer<i32>,
    values: Box<AnyArray>,
    validity: Option<Bitmap>,
) -> AnyArray
    requires kind { IsCarriedAs physical.Map (type_of data_type) }
    requires child { any_array_type values.value ≡ item_type (type_of data_type) }
    requires fits { FitsRows validity (length offsets - 1) }
    requires within { last_of offsets ≤ length (any_array_rows values.value) }
    ensures same_type { any_array_type result ≡ type_of data_type }
    ensures rows { any_array_rows result
        ≡ masked validity (list_items offsets (any_array_rows values.value)) }
{
    AnyArray::Map(MapArray::new(data_type, offsets, values, validity))
}

// An array of lists of a fixed size.
fn fixed_size_list_array(
    data_type: DataType,
    values: Box<AnyArray>,
    validity: Option<Bitmap>,
) -> AnyArray
    requires kind { IsCarriedAs physical.FixedSizeList (type_of data_type) }
    requires child { any_array_type values.value ≡ item_type (type_of data_type) }
    requires fits { FitsItems (list_size (type_of data_type))
        (length (any_array_rows values.value)) validity }
    ensures same_type { any_array_type result ≡ type_of data_type }
    ensures rows { any_array_rows result
        ≡ masked validity (fixed_items (list_size (type_of data_type)) (any_array_rows values.value)) }
{
    // There are at most as many items as a `usize` counts.
    let _ = values.len();
    AnyArray::FixedSizeList(FixedSizeListArray::new(data_type, values, validity))
}

// An array of structs.
fn struct_array(data_type: DataType, values: Vec<AnyArray>, validity: Option<Bitmap>) -> AnyArray
    requires kind { IsCarriedAs physical.Struct (type_of data_type) }
    requires children { map any_array_type values.items ≡ field_types (type_of data_type) }
    requires fits { FitsColumns (map layout_of values.items) validity }
    ensures same_type { any_array_type result ≡ type_of data_type }
    ensures rows { any_array_rows result ≡ masked validity (struct_items (map any_array_rows values.items)) }
{
    AnyArray::Struct(StructArray::new(data_type, values, validity))
}

// An array of unions of a data type, dense where there are offsets.
pub(crate) fn union_array(
    alloc: Global,
    data_type: &DataType,
    types: Vec<i8>,
    values: Vec<AnyArray>,
    offsets: Option<Vec<i32>>,
) -> Result<UnionArray, Error>
    requires { HoldsUnion (type_of data_type.now) types.items (map layout_of values.items)
        (offsets_in offsets) }
    ensures ok { IfOk result (λ array. array
        ≡ (record {
          arrow_type = type_of data_type.now;
          types = types.items;
          child_rows = child_rows_of (offsets_in offsets);
          start = 0;
          children = map layout_of values.items;
        })) }
    ensures err { IsOkUnless result Error.OutOfMemory }
{
    let types = Buffer::from_vec(alloc, types)?;
    let offsets = offset_buffer(alloc, offsets)?;
    let data_type = data_type.clone()?;
    Ok(UnionArray::new(data_type, types, values, offsets))
}

// The offsets, if there are any, as a buffer.
fn offset_buffer(alloc: Global, offsets: Option<Vec<i32>>) -> Result<Option<Buffer<i32>>, Error>
    ensures ok { IfOk result (λ buffer. buffer ≡ offsets_in offsets) }
    ensures err { IsOkUnless result Error.OutOfMemory }
{
    match offsets {
        None => Ok(None),
        Some(offsets) => Ok(Some(Buffer::from_vec(alloc, offsets)?)),
    }
}
