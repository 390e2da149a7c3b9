//! Arrays of numbers and intervals.

ghost use Rattle.std.specs.Prelude.{◌≡◌, ◌<◌, length, map, slice_get, Some, IfOk, IfErr, OnOk};
ghost use Rattle.std.proofs.Common.{rules};
ghost use Rattle.arrow_types.specs.declared.datatypes.physical_type.PhysicalType.TheVariants as physical;
ghost use Rattle.arrow_types.specs.Physical.{physical_type_of};
ghost use Rattle.arrow_types.specs.TypeOf.{type_of};
ghost use Rattle.arrow_memory.specs.Sliced.{sliced};
ghost use Rattle.arrow_memory.proofs.OffsetLemmas.{map_sliced};
ghost use Rattle.arrow_flat.specs.Faults.{IsCarriedAs, NamesKindOrLength};
ghost use Rattle.arrow_flat.specs.Laws.{all_values};
ghost use Rattle.arrow_flat.specs.Parts.{FitsRows};

use crate::array::{FlatArray, Values, is_carried_as, validity};
use arrow_memory::bitmap::Bitmap;
use arrow_memory::buffer::Buffer;
use arrow_types::datatypes::{DataType, PhysicalType};
use arrow_types::error::{Error, SpecPart};
use arrow_types::types::NativeType;

/// An array of numbers or intervals, a value of fixed width each ("Fixed-size Primitive Layout").
pub type PrimitiveArray<T> = FlatArray<Buffer<T>>;

impl<T: NativeType> Values for Buffer<T> {
    ghost slots = { map T.slot };

    ghost are_of = { λ values t. physical_type_of t ≡ physical.Primitive T.PRIMITIVE };

    ghost slice = { sliced };

    fn len(&self) -> usize {
        Buffer::len(self)
    }

    fn slice(&mut self, offset: usize, len: usize) {
        Buffer::slice(self, offset, len)
    }

    fn equal_range(&self, start: usize, other: &Buffer<T>, other_start: usize, len: usize) -> bool {
        let (values, others) = (self.as_slice(), other.as_slice());
        values[start..start + len] == others[other_start..other_start + len]
    }

    ghost copies = { Prim.search rules };

    ghost stored = { all_values T.slot T.eq T.slots };

    ghost slots_of_slice = { λ values offset len within. map_sliced T.slot values offset len };

    ghost slice_is_of = { λ x t offset len kind. kind };
}

impl<T: NativeType> FlatArray<Buffer<T>> {
    /// The array that [`FlatArray::try_new`] makes of parts that are known to be sound: nothing is tested.
    ///
    /// # Requires
    /// The data type is carried and has the physical type of such numbers or intervals, and a validity is as long as
    /// the values.
    pub fn new(
        data_type: DataType,
        values: Buffer<T>,
        validity: Option<Bitmap>,
    ) -> FlatArray<Buffer<T>>
        requires kind { IsCarriedAs (physical.Primitive T.PRIMITIVE) (type_of data_type) }
        requires length { FitsRows validity (length values) }
        ensures { result ≡ record { arrow_type = type_of data_type; values = values; validity = validity } }
    {
        FlatArray {
            data_type,
            values,
            validity,
        }
    }

    /// An array of these values, null where the validity has a bit that is not set. It takes no memory.
    ///
    /// # Errors
    /// `OutOfSpec` of the first that fails: `Kind` where the data type is not carried or has another
    /// physical type, `Length` where the validity is not as long as the values.
    pub fn try_new(
        data_type: DataType,
        values: Buffer<T>,
        validity: Option<Bitmap>,
    ) -> Result<FlatArray<Buffer<T>>, Error>
        ensures ok { IfOk result (λ array. array
            ≡ record { arrow_type = type_of data_type; values = values; validity = validity }) }
        ensures sound { OnOk result
            (IsCarriedAs (physical.Primitive T.PRIMITIVE) (type_of data_type)
            × FitsRows validity (length values)) }
        ensures fault { IfErr result
            (NamesKindOrLength (IsCarriedAs (physical.Primitive T.PRIMITIVE) (type_of data_type))
            (FitsRows validity (length values))) }
    {
        if !is_carried_as(&data_type, PhysicalType::Primitive(T::PRIMITIVE)) {
            return Err(Error::OutOfSpec(SpecPart::Kind));
        }
        if !validity::fits_rows(&validity, values.len()) {
            return Err(Error::OutOfSpec(SpecPart::Length));
        }
        Ok(FlatArray::<Buffer<T>>::new(data_type, values, validity))
    }

    /// The values, one a row, null rows too.
    pub fn values(&self) -> &Buffer<T>
        ensures { result.now ≡ self.now.values }
    {
        &self.values
    }

    /// The value of row `i`; of a null row, what is stored beneath it.
    ///
    /// # Requires
    /// `i` is below the count of rows.
    pub fn value(&self, i: usize) -> T
        requires { i < length self.now.values }
        ensures { slice_get self.now.values i ≡ Some result }
    {
        self.values.as_slice()[i]
    }
}
