//! Arrays of the null type under construction.

ghost use Rattle.std.specs.Prelude.{◌≡◌, ◌<◌, ◌^◌, ◌↔◌, length, map, replicate, true, None, Err, Some, IfOk, IfErr, OnOk, OnErr};
ghost use Rattle.arrow_types.specs.declared.error.Error.{Error};
ghost use Rattle.arrow_types.specs.declared.datatypes.physical_type.PhysicalType.TheVariants as physical;
ghost use Rattle.arrow_types.specs.ArrowType.{plain, null};
ghost use Rattle.arrow_types.specs.Slot.{Null};
ghost use Rattle.arrow_types.specs.TypeOf.{type_of};
ghost use Rattle.arrow_flat.specs.Faults.{IsCarriedAs};
ghost use Rattle.arrow_flat.specs.NullParts.{null_rows};
ghost use Rattle.arrow_flat_growable.specs.Grown.{AreOfOneType, Binds, HandsOut, HasFailed, IsFailedOrOverflow, IsRefusal, CannotHold, FitsItself, FitsWith, appended, empty_over, named_rows, null_rows_of};
ghost use Rattle.arrow_flat_growable.specs.Nulls.{CannotCount, IsGrownNull, null_layout};

use crate::growable::Growable;
use arrow_arrays::array::AnyArray;
use arrow_flat::array::NullArray;
use arrow_types::datatypes::DataType;
use arrow_types::error::Error;
use std::alloc::Global;
use std::marker::Model;

/// An array of the null type under construction. It binds no array: any rows that are named are null.
pub struct GrowableNull {
    // held as each growable holds its own; no call of this one takes memory by it
    alloc: Option<Global>,
    data_type: DataType,
    len: usize,
    has_failed: bool,
}

// by hand, so that a drop is a call, and is not written out wherever a value is dropped
impl Drop for GrowableNull {
    fn drop(self) {
        let GrowableNull {
            alloc: _,
            data_type: _,
            len: _,
            has_failed: _,
        } = self;
    }
}

impl Model for GrowableNull {
    ghost use Rattle.std.specs.Prelude.{None, replicate};
    ghost use Rattle.arrow_types.specs.Slot.{Null};
    ghost use Rattle.arrow_types.specs.TypeOf.{type_of};
    ghost use Rattle.arrow_types.specs.declared.datatypes.physical_type.PhysicalType.TheVariants as physical;
    ghost use Rattle.arrow_flat.specs.Faults.{IsCarriedAs};
    ghost use Rattle.arrow_flat_growable.specs.Grown.{Grown, grown_code};

    ghost Value = { Grown };

    ghost coded = { grown_code };

    ghost view = { λ a. record {
      arrow_type = type_of a.data_type;
      sources = None;
      rows = replicate a.len Null;
      count = a.len;
      failed = a.has_failed;
    } };

    ghost invariant = { λ a. IsCarriedAs physical.Null (type_of a.data_type) };
}

impl GrowableNull {
    /// A growable without rows, of a data type that lies in memory as the null type does.
    ///
    /// # Requires
    /// The data type is carried, and its physical type is Null.
    pub fn new(alloc: Global, data_type: DataType) -> GrowableNull
        requires { IsCarriedAs physical.Null (type_of data_type) }
        ensures { result ≡ empty_over (type_of data_type) None }
    {
        GrowableNull::empty(Some(alloc), data_type)
    }

    /// A growable without rows, under an allocator or none.
    fn empty(alloc: Option<Global>, data_type: DataType) -> GrowableNull
        requires { IsCarriedAs physical.Null (type_of data_type) }
        ensures { result ≡ empty_over (type_of data_type) None }
    {
        GrowableNull {
            alloc,
            data_type,
            len: 0,
            has_failed: false,
        }
    }

    /// An array of all rows.
    ///
    /// # Errors
    /// `Failed` where an earlier call refused.
    pub fn into_array(self) -> Result<NullArray, Error>
        ensures answer { HandsOut (λ array. array.arrow_type) null_rows self result }
    {
        if self.has_failed {
            return Err(Error::Failed);
        }
        let GrowableNull {
            alloc: _,
            data_type,
            len,
            has_failed: _,
        } = self;
        Ok(NullArray::new(data_type, len))
    }

    /// Appends so many nulls.
    fn extend_nulls(&mut self, additional: usize) -> Result<(), Error>
        ensures ok { OnOk result (self.new ≡ appended self.old (replicate additional Null)) }
        ensures err { OnErr result (HasFailed self.old self.new) }
        ensures failed { (result ≡ Err Error.Failed) ↔ (self.old.failed ≡ true) }
        ensures overflow { (result ≡ Err Error.Overflow) ↔ CannotCount self.old additional }
        ensures others { IfErr result IsRefusal }
        ensures takes_no_memory { IfErr result IsFailedOrOverflow }
        ensures fits { OnOk result (self.new.count < 2 ^ 64) }
        ensures before { IsGrownNull self.old }
        ensures after { IsGrownNull self.new }
    {
        if self.has_failed {
            return Err(Error::Failed);
        }
        let Some(total) = self.len.checked_add(additional) else {
            self.has_failed = true;
            return Err(Error::Overflow);
        };
        self.len = total;
        Ok(())
    }
}

/// No rows of the null type itself, and no allocator.
impl Default for GrowableNull {
    ghost is_default = { λ growable. growable ≡ empty_over (plain null) None };

    fn default() -> GrowableNull {
        GrowableNull::empty(None, DataType::Null)
    }
}

impl<'a> Growable<'a> for GrowableNull {
    ghost state = { λ g. g };

    /// Appends `len` nulls, whatever is named. It takes no memory.
    ///
    /// # Errors
    /// `Failed` exactly where an earlier call refused, and else `Overflow` exactly where there are to be
    /// more than 2^64 - 1 rows.
    fn extend(&mut self, index: usize, start: usize, len: usize) -> Result<(), Error>
        ensures ok { OnOk result (self.new ≡ appended self.old (named_rows self.old index start len)) }
        ensures fits { OnOk result (FitsItself self.new) }
        ensures err { OnErr result (HasFailed self.old self.new) }
        ensures failed { (result ≡ Err Error.Failed) ↔ (self.old.failed ≡ true) }
        ensures overflow { result ≡ Err Error.Overflow → CannotHold self.old index start len }
        ensures others { IfErr result IsRefusal }
        ensures takes_no_memory { IfErr result IsFailedOrOverflow }
        ensures exact { (result ≡ Err Error.Overflow) ↔ CannotCount self.old len }
    {
        let _ = (index, start);
        self.extend_nulls(len)
    }

    /// Appends so many nulls. It takes no memory.
    ///
    /// # Errors
    /// As of `extend`.
    fn extend_validity(&mut self, additional: usize) -> Result<(), Error>
        ensures ok { OnOk result (self.new ≡ appended self.old (null_rows_of self.old additional)) }
        ensures fits { OnOk result (FitsItself self.new) }
        ensures err { OnErr result (HasFailed self.old self.new) }
        ensures failed { (result ≡ Err Error.Failed) ↔ (self.old.failed ≡ true) }
        ensures overflow { result ≡ Err Error.Overflow
            → FitsWith self.old (null_rows_of self.old additional) → ⊥ }
        ensures others { IfErr result IsRefusal }
        ensures takes_no_memory { IfErr result IsFailedOrOverflow }
        ensures exact { (result ≡ Err Error.Overflow) ↔ CannotCount self.old additional }
    {
        self.extend_nulls(additional)
    }

    fn len(&self) -> usize {
        self.len
    }

    fn as_box(&mut self) -> Result<AnyArray, Error> {
        if self.has_failed {
            return Err(Error::Failed);
        }
        self.has_failed = true;
        let data_type = self.data_type.clone()?;
        let array = NullArray::new(data_type, self.len);
        self.len = 0;
        self.has_failed = false;
        Ok(AnyArray::Null(array))
    }
}

/// An array of the null type under construction, to which rows of these arrays can be appended.
#[derive(Drop)]
pub struct BoundNulls<'a> {
    arrays: Vec<&'a NullArray>,
    growable: GrowableNull,
}

impl<'a> Model for BoundNulls<'a> {
    ghost use Rattle.std.specs.Prelude.{Some, map};
    ghost use Rattle.arrow_flat_growable.specs.Grown.{Grown, grown_code};
    ghost use Rattle.arrow_flat_growable.specs.Nulls.{null_layout, with_sources};

    ghost Value = { Grown };

    ghost coded = { grown_code };

    ghost view = { λ a. with_sources a.growable (Some (map (λ r. null_layout r.now) a.arrays.items)) };

    ghost invariant = { λ a. Unit {0} };
}

impl<'a> BoundNulls<'a> {
    /// A growable without rows, to which rows of these arrays, of one data type, can be appended.
    ///
    /// # Requires
    /// There is an array at least, and all are of one data type.
    ///
    /// # Errors
    /// `OutOfMemory` where memory is refused.
    pub fn new(arrays: Vec<&'a NullArray>) -> Result<BoundNulls<'a>, Error>
        requires some { 0 < length arrays.items }
        requires one_type { AreOfOneType (map (λ r. null_layout r.now) arrays.items) }
        ensures { Binds (map (λ r. null_layout r.now) arrays.entry.items) result }
    {
        let first: &'a NullArray = arrays[0];
        let data_type = first.data_type().clone()?;
        let growable = GrowableNull::new(*arrays.allocator(), data_type);
        Ok(BoundNulls { arrays, growable })
    }
}

impl<'a> Growable<'a> for BoundNulls<'a> {
    ghost state = { λ g. g };

    fn extend(&mut self, _index: usize, _start: usize, len: usize) -> Result<(), Error> {
        self.growable.extend_nulls(len)
    }

    fn extend_validity(&mut self, additional: usize) -> Result<(), Error> {
        self.growable.extend_nulls(additional)
    }

    fn len(&self) -> usize {
        self.growable.len
    }

    fn as_box(&mut self) -> Result<AnyArray, Error> {
        self.growable.as_box()
    }
}
