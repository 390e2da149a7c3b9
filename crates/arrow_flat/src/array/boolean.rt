//! Arrays of truth values.

ghost use Rattle.std.specs.Prelude.{◌≡◌, ◌<◌, length, map, slice_get, Some, IfOk, IfErr, OnOk, refl};
ghost use Rattle.std.proofs.lemmas.List.Elements.{All-map};
ghost use Rattle.std.proofs.Common.{rules};
ghost use Rattle.arrow_types.specs.Slot.{Boolean};
ghost use Rattle.arrow_types.specs.declared.datatypes.physical_type.PhysicalType.TheVariants as physical;
ghost use Rattle.arrow_types.specs.Physical.{physical_type_of};
ghost use Rattle.arrow_types.specs.TypeOf.{type_of};
ghost use Rattle.arrow_memory.specs.Sliced.{sliced};
ghost use Rattle.arrow_memory.proofs.OffsetLemmas.{map_sliced};
ghost use Rattle.arrow_flat.specs.Faults.{IsCarriedAs, NamesKindOrLength};
ghost use Rattle.arrow_flat.specs.Parts.{FitsRows, IsValue};

use crate::array::{FlatArray, Values, is_carried_as, validity};
use arrow_memory::bitmap::Bitmap;
use arrow_types::datatypes::{DataType, PhysicalType};
use arrow_types::error::{Error, SpecPart};

/// An array of truth values, a bit each ("Fixed-size Primitive Layout").
pub type BooleanArray = FlatArray<Bitmap>;

impl Values for Bitmap {
    ghost slots = { map Boolean };

    ghost are_of = { λ bits t. physical_type_of t ≡ physical.Boolean };

    ghost slice = { sliced };

    fn len(&self) -> usize {
        Bitmap::len(self)
    }

    fn slice(&mut self, offset: usize, len: usize) {
        Bitmap::slice(self, offset, len)
    }

    fn equal_range(&self, start: usize, other: &Bitmap, other_start: usize, len: usize) -> bool {
        Bitmap::equal_range(self, start, other, other_start, len)
    }

    ghost copies = { Prim.search rules };

    ghost stored = { λ bits. All-map IsValue Boolean bits (λ k d within. refl) };

    ghost slots_of_slice = { λ bits offset len within. map_sliced Boolean bits offset len };

    ghost slice_is_of = { λ x t offset len kind. kind };
}

impl FlatArray<Bitmap> {
    /// The array that [`FlatArray::try_new`] makes of parts that are known to be sound: nothing is tested.
    ///
    /// # Requires
    /// The data type is carried and has the physical type of booleans, and a validity is as long as the values.
    pub fn new(data_type: DataType, values: Bitmap, validity: Option<Bitmap>) -> FlatArray<Bitmap>
        requires kind { IsCarriedAs physical.Boolean (type_of data_type) }
        requires length { FitsRows validity (length values) }
        ensures { result ≡ record { arrow_type = type_of data_type; values = values; validity = validity } }
    {
        FlatArray {
            data_type,
            values,
            validity,
        }
    }

    /// An array of these values, null where the validity has a bit that is not set. It takes no memory.
    ///
    /// # Errors
    /// `OutOfSpec` of the first that fails: `Kind` where the data type is not carried or has another
    /// physical type, `Length` where the validity is not as long as the values.
    pub fn try_new(
        data_type: DataType,
        values: Bitmap,
        validity: Option<Bitmap>,
    ) -> Result<FlatArray<Bitmap>, Error>
        ensures ok { IfOk result (λ array. array
            ≡ record { arrow_type = type_of data_type; values = values; validity = validity }) }
        ensures sound { OnOk result
            (IsCarriedAs physical.Boolean (type_of data_type) × FitsRows validity (length values)) }
        ensures fault { IfErr result
            (NamesKindOrLength (IsCarriedAs physical.Boolean (type_of data_type))
            (FitsRows validity (length values))) }
    {
        if !is_carried_as(&data_type, PhysicalType::Boolean) {
            return Err(Error::OutOfSpec(SpecPart::Kind));
        }
        if !validity::fits_rows(&validity, values.len()) {
            return Err(Error::OutOfSpec(SpecPart::Length));
        }
        Ok(FlatArray::<Bitmap>::new(data_type, values, validity))
    }

    /// The values, one a row, null rows too.
    pub fn values(&self) -> &Bitmap
        ensures { result.now ≡ self.now.values }
    {
        &self.values
    }

    /// The value of row `i`; of a null row, what is stored beneath it.
    ///
    /// # Requires
    /// `i` is below the count of rows.
    pub fn value(&self, i: usize) -> bool
        requires { i < length self.now.values }
        ensures { slice_get self.now.values i ≡ Some result }
    {
        self.values.get_bit(i)
    }
}
