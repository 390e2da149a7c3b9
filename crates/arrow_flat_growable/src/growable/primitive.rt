//! Arrays of numbers and intervals under construction.

ghost use Rattle.std.specs.Prelude.{◌≡◌, ◌++◌, map, replicate, refl, IfOk, IsOkUnless};
ghost use Rattle.std.proofs.Common.{ap};
ghost use Rattle.std.proofs.lemmas.List.{length-replicate};
ghost use Rattle.arrow_types.specs.declared.error.Error.{Error};
ghost use Rattle.arrow_types.specs.Physical.{physical_type_of};
ghost use Rattle.arrow_types.specs.declared.datatypes.physical_type.PhysicalType.TheVariants as physical;
ghost use Rattle.arrow_memory.specs.Sliced.{sliced};
ghost use Rattle.arrow_memory.proofs.SlicedLemmas.{length-sliced};
ghost use Rattle.arrow_arrays.specs.Any.{primitive_kind};
ghost use Rattle.arrow_flat_growable.specs.GrownParts.{IsBound};
ghost use Rattle.arrow_flat_growable.specs.FlatLaws.{is_counted, fits_unmasked, fits_mask, null_of_counted};

use crate::growable::flat::{FlatGrowable, GrowableValues};
use crate::growable::parts::GrowableParts;
use arrow_arrays::array::AnyArray;
use arrow_flat::array::{AnyElement, PrimitiveArray};
use arrow_memory::bitmap::{Bitmap, Mask};
use arrow_memory::buffer::Buffer;
use arrow_types::datatypes::DataType;
use arrow_types::error::Error;
use arrow_types::types::NativeType;
use std::alloc::Global;

/// An array of numbers or intervals under construction.
pub type GrowablePrimitive<'a, T> = FlatGrowable<'a, GrowableParts<T>>;

// The values of each array, shared.
fn values_of<T: NativeType>(
    alloc: Global,
    arrays: &[&PrimitiveArray<T>],
) -> Result<Vec<Buffer<T>>, Error>
    ensures ok { IfOk result (λ sources. sources.items ≡ map (λ r. r.now.values) arrays.now) }
    ensures err { IsOkUnless result Error.OutOfMemory }
{
    let mut sources = Vec::with_capacity(alloc, arrays.len())?;
    for array in arrays {
        sources.push(array.values().clone()?)?;
    }
    Ok(sources)
}

impl<T: AnyElement> GrowableValues for GrowableParts<T> {
    type Array = PrimitiveArray<T>;

    ghost type_in = { λ array. array.arrow_type };

    ghost bits_in = { λ array. array.validity };

    ghost stored_in = { λ array. map T.slot array.values };

    ghost slots = { λ x. map T.slot x.1 };

    ghost are_of = { λ values t. physical_type_of t ≡ physical.Primitive T.PRIMITIVE };

    ghost kind = { primitive_kind T.PRIMITIVE };

    ghost binds = { λ x i array. IsBound x.0 i array.values };

    ghost stored_slice = { λ array bits start len. sliced (map T.slot array.values) start len };

    ghost blanks = { λ values n. replicate n (T.slot T.zero) };

    ghost spares = { λ bits stored. Unit {0} };

    fn data_type(array: &PrimitiveArray<T>) -> &DataType {
        array.data_type()
    }

    fn validity(array: &PrimitiveArray<T>) -> Option<&Bitmap> {
        array.validity()
    }

    fn with_capacity(
        alloc: Global,
        array: &PrimitiveArray<T>,
        arrays: &[&PrimitiveArray<T>],
        capacity: usize,
    ) -> Result<GrowableParts<T>, Error> {
        // That rows of the type are stored so follows from the array.
        let _ = array.data_type();
        let sources = values_of(alloc, arrays)?;
        GrowableParts::with_capacity(alloc, sources, capacity)
    }

    fn fresh(&self) -> Result<GrowableParts<T>, Error> {
        self.without_values()
    }

    fn extend(
        &mut self,
        index: usize,
        _array: &PrimitiveArray<T>,
        start: usize,
        len: usize,
    ) -> Result<(), Error> {
        self.append_part(index, start, len)
    }

    fn extend_under(
        &mut self,
        index: usize,
        array: &PrimitiveArray<T>,
        start: usize,
        bits: &Mask,
    ) -> Result<(), Error> {
        self.extend(index, array, start, bits.len())
    }

    fn extend_nulls(&mut self, additional: usize) -> Result<(), Error> {
        self.append_zeros(additional)
    }

    fn into_array(
        self,
        data_type: DataType,
        validity: Option<Bitmap>,
    ) -> Result<PrimitiveArray<T>, Error> {
        let alloc = self.allocator();
        let values = Buffer::from_vec(alloc, self.into_vec()?)?;
        Ok(PrimitiveArray::new(data_type, values, validity))
    }

    fn of_any(array: &AnyArray) -> &PrimitiveArray<T> {
        match array {
            AnyArray::Primitive(array) => T::of_any(array),
            _ => unreachable!(),
        }
    }

    fn into_any(array: PrimitiveArray<T>) -> Result<AnyArray, Error> {
        Ok(AnyArray::Primitive(T::to_any(&array)?))
    }

    ghost rows_of_slice = { λ array bits start len many within. refl };

    ghost length_of_slice = { λ array bits start len many within. length-sliced (map T.slot array.values) start
        len within };

    ghost length_of_blanks = { λ values n. length-replicate n (T.slot T.zero) };

    ghost null_of = { λ values t kind. null_of_counted t (ap is_counted kind) };

    ghost spares_none = { tt };

    ghost spares_slice = { λ bits stored array more start len many within spared same. tt };

    ghost spares_blanks = { λ bits stored x n spared same. tt };

    ghost fits_stored = { λ x t bits stored kind spared same. fits_unmasked t bits stored
        (ap is_counted kind) same };

    ghost fits_rows = { λ x t bits stored kind same. fits_mask t bits stored (ap is_counted kind) same };
}
