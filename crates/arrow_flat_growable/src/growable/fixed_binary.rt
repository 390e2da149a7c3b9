//! Arrays of bytes of a fixed size under construction.

ghost use Rattle.std.specs.Prelude.{◌≡◌, ◌+◌, ◌*◌, ◌<◌, ◌^◌, replicate, refl, IfOk, IfErr};
ghost use Rattle.std.proofs.Common.{ap};
ghost use Rattle.std.proofs.lemmas.List.{length-replicate};
ghost use Rattle.arrow_types.specs.Physical.{physical_type_of};
ghost use Rattle.arrow_types.specs.Slot.{Bytes};
ghost use Rattle.arrow_types.specs.declared.datatypes.physical_type.PhysicalType.TheVariants as physical;
ghost use Rattle.arrow_types.specs.declared.error.Error.{Error};
ghost use Rattle.arrow_memory.specs.Sliced.{sliced};
ghost use Rattle.arrow_memory.proofs.SlicedLemmas.{length-sliced};
ghost use Rattle.arrow_flat.specs.FixedRows.{fixed_slots, fixed_size_in};
ghost use Rattle.arrow_arrays.specs.Any.{fixed_size_binary_kind};
ghost use Rattle.arrow_flat_growable.specs.FlatLaws.{is_counted, fits_unmasked, fits_mask, null_of_counted};

use crate::growable::flat::{FlatGrowable, GrowableValues};
use crate::growable::parts::append_part;
use arrow_arrays::array::AnyArray;
use arrow_flat::array::{FixedRows, FixedSizeBinaryArray};
use arrow_memory::bitmap::{Bitmap, Mask};
use arrow_memory::buffer::Buffer;
use arrow_types::datatypes::DataType;
use arrow_types::error::Error;
use std::alloc::Global;
use std::marker::Model;

/// An array of bytes of a fixed size under construction.
pub type GrowableFixedSizeBinary<'a> = FlatGrowable<'a, GrowableFixedRows>;

/// Rows of so many bytes each, to which others are appended.
#[derive(Drop)]
pub struct GrowableFixedRows {
    size: usize,
    count: usize,
    bytes: Vec<u8>,
}

impl Model for GrowableFixedRows {
    ghost use Rattle.arrow_flat.specs.FixedRows.{FixedParts, fixed_parts_code, AreFixedRows};

    ghost Value = { FixedParts };

    ghost coded = { fixed_parts_code };

    ghost view = { λ a. record { size = a.size; count = a.count; bytes = a.bytes.items } };

    ghost invariant = { λ a. AreFixedRows
        (record { size = a.size; count = a.count; bytes = a.bytes.items }) };
}

// How many rows of a size there are with more behind them, and how many bytes these have.
fn grown(count: usize, more: usize, size: usize) -> Result<(usize, usize), Error>
    ensures rows { IfOk result (λ sums. sums.0 ≡ count + more) }
    ensures bytes { IfOk result (λ sums. sums.1 ≡ (count + more) * size) }
    ensures counted { IfOk result (λ sums. sums.1 < 2 ^ 64) }
    ensures err { IfErr result (λ error. error ≡ Error.Overflow) }
    ensures overflow { IfErr result (λ _. count + more < 2 ^ 64 → (count + more) * size < 2 ^ 64 → ⊥) }
{
    let Some(rows) = count.checked_add(more) else {
        return Err(Error::Overflow);
    };
    let Some(bytes) = rows.checked_mul(size) else {
        return Err(Error::Overflow);
    };
    Ok((rows, bytes))
}

impl GrowableValues for GrowableFixedRows {
    type Array = FixedSizeBinaryArray;

    ghost type_in = { λ array. array.arrow_type };

    ghost bits_in = { λ array. array.validity };

    ghost stored_in = { λ array. fixed_slots array.values };

    ghost slots = { fixed_slots };

    ghost are_of = { λ rows t. (physical_type_of t ≡ physical.FixedSizeBinary)
        × (rows.size ≡ fixed_size_in t) };

    ghost kind = { fixed_size_binary_kind };

    ghost binds = { λ x i array. Unit {0} };

    ghost stored_slice = { λ array bits start len. sliced (fixed_slots array.values) start len };

    ghost blanks = { λ rows n. replicate n (Bytes (replicate rows.size 0)) };

    ghost spares = { λ bits stored. Unit {0} };

    fn data_type(array: &FixedSizeBinaryArray) -> &DataType {
        array.data_type()
    }

    fn validity(array: &FixedSizeBinaryArray) -> Option<&Bitmap> {
        array.validity()
    }

    fn with_capacity(
        alloc: Global,
        array: &FixedSizeBinaryArray,
        _arrays: &[&FixedSizeBinaryArray],
        capacity: usize,
    ) -> Result<GrowableFixedRows, Error> {
        // That rows of the type are stored so, and their size, follow from the array.
        let _ = array.data_type();
        let size = array.size();
        let room = capacity.saturating_mul(size);
        Ok(GrowableFixedRows {
            size,
            count: 0,
            bytes: Vec::with_capacity(alloc, room)?,
        })
    }

    fn fresh(&self) -> Result<GrowableFixedRows, Error> {
        Ok(GrowableFixedRows {
            size: self.size,
            count: 0,
            bytes: Vec::new(*self.bytes.allocator()),
        })
    }

    fn extend(
        &mut self,
        _index: usize,
        array: &FixedSizeBinaryArray,
        start: usize,
        len: usize,
    ) -> Result<(), Error> {
        let size = array.size();
        // That rows of the type are stored so, and their size, follow from the array.
        let _ = array.data_type();
        let (count, _) = grown(self.count, len, size)?;
        let bytes = array.values().as_slice();
        append_part(&mut self.bytes, bytes, start * size, len * size)?;
        self.count = count;
        Ok(())
    }

    fn extend_under(
        &mut self,
        index: usize,
        array: &FixedSizeBinaryArray,
        start: usize,
        bits: &Mask,
    ) -> Result<(), Error> {
        self.extend(index, array, start, bits.len())
    }

    fn extend_nulls(&mut self, additional: usize) -> Result<(), Error> {
        let (count, bytes) = grown(self.count, additional, self.size)?;
        self.bytes.resize(bytes, 0)?;
        self.count = count;
        Ok(())
    }

    fn into_array(
        self,
        data_type: DataType,
        validity: Option<Bitmap>,
    ) -> Result<FixedSizeBinaryArray, Error> {
        let alloc = *self.bytes.allocator();
        let bytes = Buffer::from_vec(alloc, self.bytes)?;
        Ok(FixedSizeBinaryArray::new(data_type, bytes, validity))
    }

    fn of_any(array: &AnyArray) -> &FixedSizeBinaryArray {
        match array {
            AnyArray::FixedSizeBinary(array) => array,
            _ => unreachable!(),
        }
    }

    fn into_any(array: FixedSizeBinaryArray) -> Result<AnyArray, Error> {
        Ok(AnyArray::FixedSizeBinary(array))
    }

    ghost rows_of_slice = { λ array bits start len many within. refl };

    ghost length_of_slice = { λ array bits start len many within. length-sliced (fixed_slots array.values) start
        len within };

    ghost length_of_blanks = { λ rows n. length-replicate n (Bytes (replicate rows.size 0)) };

    ghost null_of = { λ rows t kind. null_of_counted t (ap is_counted kind.0) };

    ghost spares_none = { tt };

    ghost spares_slice = { λ bits stored array more start len many within spared same. tt };

    ghost spares_blanks = { λ bits stored x n spared same. tt };

    ghost fits_stored = { λ x t bits stored kind spared same. fits_unmasked t bits stored
        (ap is_counted kind.0) same };

    ghost fits_rows = { λ x t bits stored kind same. fits_mask t bits stored (ap is_counted kind.0) same };
}
