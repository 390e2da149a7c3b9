//! Boolean arrays under construction.

ghost use Rattle.std.specs.Prelude.{◌≡◌, ◌<◌, List, Bool, length, map, replicate, false, refl};
ghost use Rattle.std.proofs.Common.{ap};
ghost use Rattle.std.proofs.lemmas.List.{length-replicate};
ghost use Rattle.arrow_types.specs.Physical.{physical_type_of};
ghost use Rattle.arrow_types.specs.Slot.{Boolean};
ghost use Rattle.arrow_types.specs.declared.datatypes.physical_type.PhysicalType.TheVariants as physical;
ghost use Rattle.arrow_memory.specs.Sliced.{sliced};
ghost use Rattle.arrow_memory.proofs.SlicedLemmas.{length-sliced};
ghost use Rattle.arrow_arrays.specs.Any.{boolean_kind};
ghost use Rattle.arrow_flat_growable.specs.FlatLaws.{is_counted, fits_unmasked, fits_mask, null_of_counted};

use crate::growable::flat::{FlatGrowable, GrowableValues};
use arrow_arrays::array::AnyArray;
use arrow_flat::array::BooleanArray;
use arrow_memory::bitmap::{Bitmap, Mask, MutableBitmap};
use arrow_types::datatypes::DataType;
use arrow_types::error::Error;
use std::alloc::Global;
use std::marker::Model;

/// A Boolean array under construction.
pub type GrowableBoolean<'a> = FlatGrowable<'a, GrowableBits>;

/// Truth values to which others are appended.
#[derive(Drop)]
pub struct GrowableBits {
    alloc: Global,
    bits: MutableBitmap,
}

impl Model for GrowableBits {
    ghost use Rattle.std.specs.Prelude.{Bool, List};

    ghost Value = { List Bool };

    ghost view = { λ a. a.bits };
}

impl GrowableValues for GrowableBits {
    type Array = BooleanArray;

    ghost type_in = { λ array. array.arrow_type };

    ghost bits_in = { λ array. array.validity };

    ghost stored_in = { λ array. map Boolean array.values };

    ghost slots = { map Boolean };

    ghost are_of = { λ bits t. physical_type_of t ≡ physical.Boolean };

    ghost kind = { boolean_kind };

    ghost binds = { λ x i array. Unit {0} };

    ghost stored_slice = { λ array bits start len. sliced (map Boolean array.values) start len };

    ghost blanks = { λ bits n. replicate n (Boolean false) };

    ghost spares = { λ bits stored. Unit {0} };

    fn data_type(array: &BooleanArray) -> &DataType {
        array.data_type()
    }

    fn validity(array: &BooleanArray) -> Option<&Bitmap> {
        array.validity()
    }

    fn with_capacity(
        alloc: Global,
        array: &BooleanArray,
        _arrays: &[&BooleanArray],
        capacity: usize,
    ) -> Result<GrowableBits, Error> {
        // That rows of the type are stored so follows from the array.
        let _ = array.data_type();
        let bits = MutableBitmap::with_capacity(alloc, capacity)?;
        Ok(GrowableBits { alloc, bits })
    }

    fn fresh(&self) -> Result<GrowableBits, Error> {
        let bits = MutableBitmap::new(self.alloc);
        Ok(GrowableBits {
            alloc: self.alloc,
            bits,
        })
    }

    #[inline(always)]
    fn extend(
        &mut self,
        _index: usize,
        array: &BooleanArray,
        start: usize,
        len: usize,
    ) -> Result<(), Error> {
        self.bits.extend_from_bitmap(array.values(), start, len)
    }

    fn extend_under(
        &mut self,
        index: usize,
        array: &BooleanArray,
        start: usize,
        bits: &Mask,
    ) -> Result<(), Error> {
        self.extend(index, array, start, bits.len())
    }

    fn extend_nulls(&mut self, additional: usize) -> Result<(), Error> {
        self.bits.extend_constant(additional, false)
    }

    fn into_array(
        self,
        data_type: DataType,
        validity: Option<Bitmap>,
    ) -> Result<BooleanArray, Error> {
        let values = self.bits.into_bitmap()?;
        Ok(BooleanArray::new(data_type, values, validity))
    }

    fn of_any(array: &AnyArray) -> &BooleanArray {
        match array {
            AnyArray::Boolean(array) => array,
            _ => unreachable!(),
        }
    }

    fn into_any(array: BooleanArray) -> Result<AnyArray, Error> {
        Ok(AnyArray::Boolean(array))
    }

    ghost rows_of_slice = { λ array bits start len many within. refl };

    ghost length_of_slice = { λ array bits start len many within. length-sliced (map Boolean array.values) start
        len within };

    ghost length_of_blanks = { λ bits n. length-replicate n (Boolean false) };

    ghost null_of = { λ bits t kind. null_of_counted t (ap is_counted kind) };

    ghost spares_none = { tt };

    ghost spares_slice = { λ bits stored array more start len many within spared same. tt };

    ghost spares_blanks = { λ bits stored x n spared same. tt };

    ghost fits_stored = { λ x t bits stored kind spared same. fits_unmasked t bits stored
        (ap is_counted kind) same };

    ghost fits_rows = { λ x t bits stored kind same. fits_mask t bits stored (ap is_counted kind) same };
}
