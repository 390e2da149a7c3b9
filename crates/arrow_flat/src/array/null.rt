//! Arrays of the null type.

ghost use Rattle.std.specs.Prelude.{◌≡◌, ◌+◌, ◌≤◌, ◌↔◌, [], length, count_by, None, IsTrue, IfOk, IfErr, OnOk, ◌<◌, not, slice_index_or};
ghost use Rattle.std.specs.Cmp.{partial_equiv_from_equiv, on_equiv};
ghost use Rattle.arrow_types.specs.Relation.{is_null};
ghost use Rattle.arrow_types.specs.SameTree.{same_by, same_by-equivalence};
ghost use Rattle.arrow_types.specs.TypeOf.{type_of};
ghost use Rattle.arrow_types.specs.declared.datatypes.physical_type.PhysicalType.TheVariants as physical;
ghost use Rattle.arrow_memory.specs.Sliced.{sliced};
ghost use Rattle.arrow_flat.specs.Faults.{IsCarriedAs, NamesKindOrLength};
ghost use Rattle.arrow_flat.specs.NullParts.{NullParts, null_rows, null_meaning};
ghost use Rattle.arrow_flat.specs.Parts.{meaning_code};
ghost use Rattle.arrow_types.specs.Slot.{Null};

use crate::array::is_carried_as;
use arrow_memory::bitmap::Bitmap;
use arrow_types::datatypes::{DataType, PhysicalType};
use arrow_types::error::{Error, SpecPart};
use std::alloc::AllocError;
use std::marker::Model;

/// An array of the null type, or of an extension around it: a number of rows, all null ("Null Layout").
pub struct NullArray {
    data_type: DataType,
    length: usize,
}

// by hand, so that a drop is a call, and is not written out wherever a value is dropped
impl Drop for NullArray {
    fn drop(self) {
        let NullArray {
            data_type: _,
            length: _,
        } = self;
    }
}

impl Model for NullArray {
    ghost use Rattle.arrow_types.specs.TypeOf.{type_of};
    ghost use Rattle.arrow_types.specs.declared.datatypes.physical_type.PhysicalType.TheVariants as physical;
    ghost use Rattle.arrow_flat.specs.Faults.{IsCarriedAs};
    ghost use Rattle.arrow_flat.specs.NullParts.{NullParts, null_parts_code};

    ghost Value = { NullParts };

    ghost coded = { null_parts_code };

    ghost view = { λ a. record { arrow_type = type_of a.data_type; count = a.length } };

    ghost invariant = { λ a. IsCarriedAs physical.Null (type_of a.data_type) };
}

impl NullArray {
    /// The array that [`NullArray::try_new`] makes of a data type that is known to be the null type.
    ///
    /// # Requires
    /// The data type is carried and has the physical type null.
    pub fn new(data_type: DataType, length: usize) -> NullArray
        requires { IsCarriedAs physical.Null (type_of data_type) }
        ensures { result ≡ record { arrow_type = type_of data_type; count = length } }
    {
        NullArray { data_type, length }
    }

    /// An array of so many null rows. It takes no memory.
    ///
    /// # Errors
    /// `OutOfSpec(Kind)` where the data type is not carried or has another physical type.
    pub fn try_new(data_type: DataType, length: usize) -> Result<NullArray, Error>
        ensures ok { IfOk result (λ array. array
            ≡ record { arrow_type = type_of data_type; count = length }) }
        ensures sound { OnOk result (IsCarriedAs physical.Null (type_of data_type)) }
        ensures fault { IfErr result
            (NamesKindOrLength (IsCarriedAs physical.Null (type_of data_type)) (Unit {0})) }
    {
        if !is_carried_as(&data_type, PhysicalType::Null) {
            return Err(Error::OutOfSpec(SpecPart::Kind));
        }
        Ok(NullArray::new(data_type, length))
    }

    /// The data type.
    pub fn data_type(&self) -> &DataType
        ensures same { type_of result.now ≡ self.now.arrow_type }
        ensures kind { IsCarriedAs physical.Null self.now.arrow_type }
    {
        &self.data_type
    }

    /// How many rows there are.
    pub fn len(&self) -> usize
        ensures rows { result ≡ length (null_rows self.now) }
        ensures count { result ≡ self.now.count }
    {
        self.length
    }

    /// Whether there is no row.
    pub fn is_empty(&self) -> bool
        ensures { IsTrue result ↔ (null_rows self.now ≡ []) }
    {
        self.len() == 0
    }

    /// No bitmap: the null type has none.
    pub fn validity(&self) -> Option<&Bitmap>
        ensures { result ≡ None }
    {
        None
    }

    /// Whether row `_i` is valid: none is.
    ///
    /// # Requires
    /// `_i` is below the count of rows.
    pub fn is_valid(&self, _i: usize) -> bool
        requires { _i < length (null_rows self.now) }
        ensures { result ≡ not (is_null (slice_index_or (null_rows self.now) _i Null)) }
    {
        false
    }

    /// How many rows are null: all.
    pub fn null_count(&self) -> usize
        ensures { result ≡ count_by is_null (null_rows self.now) }
    {
        self.length
    }

    /// Keeps `len` rows from row `offset` on.
    ///
    /// # Requires
    /// `offset + len` is at most the count of rows.
    pub fn slice(&mut self, offset: usize, len: usize)
        requires { offset + len ≤ length (null_rows self.old) }
        ensures part { self.new ≡ record { arrow_type = self.old.arrow_type; count = len } }
        ensures rows { null_rows self.new ≡ sliced (null_rows self.old) offset len }
    {
        self.length = len;
    }

    /// The `len` rows from row `offset` on.
    ///
    /// # Requires
    /// `offset + len` is at most the count of rows.
    pub fn sliced(self, offset: usize, len: usize) -> NullArray
        requires { offset + len ≤ length (null_rows self) }
        ensures part { result ≡ record { arrow_type = self.arrow_type; count = len } }
        ensures rows { null_rows result ≡ sliced (null_rows self) offset len }
    {
        let mut part = self;
        part.slice(offset, len);
        part
    }
}

/// A clone has the same type and rows. It takes the memory of the data type's names.
impl Clone for NullArray {
    ghost is_clone = { λ array copy. copy ≡ array };

    fn clone(&self) -> Result<NullArray, AllocError> {
        Ok(NullArray {
            data_type: self.data_type.clone()?,
            length: self.length,
        })
    }
}

/// Two arrays are equal where their data types and their lengths are.
impl PartialEq for NullArray {
    ghost eq = { λ a b. same_by meaning_code (null_meaning a) (null_meaning b) };

    ghost laws = { partial_equiv_from_equiv (on_equiv null_meaning (same_by-equivalence meaning_code)) };

    fn eq(&self, other: &NullArray) -> bool
        ensures value { result ≡ same_by meaning_code (null_meaning self.now) (null_meaning other.now) }
        ensures rows { IsTrue result
            ↔ ((self.now.arrow_type ≡ other.now.arrow_type) × (null_rows self.now ≡ null_rows other.now)) }
    {
        self.data_type == other.data_type && self.length == other.length
    }
}

impl Eq for NullArray {
    ghost laws = { on_equiv null_meaning (same_by-equivalence meaning_code) };
}
