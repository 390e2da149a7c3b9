//! Arrays of any type under construction.

ghost use Rattle.std.specs.Prelude.{◌≡◌, ◌↔◌, true, Err, IfErr, IsTrue, OnErr, OnOk, length};
ghost use Rattle.arrow_types.specs.declared.error.Error.{Error};
ghost use Rattle.arrow_types.specs.Rows.{mask};
ghost use Rattle.arrow_types.specs.Slot.{Null, null_slot};
ghost use Rattle.arrow_flat_growable.specs.Grown.{FitsItself, FitsWith, HasFailed, IsRefusal, NamesRows, appended, named_rows};
ghost use Rattle.arrow_growable.specs.AnyGrowable.{IsFlat, grown_of, primitive_grown_of};

use crate::growable::{
    BoundNulls, Growable, GrowableBinary, GrowableBoolean, GrowableDictionary,
    GrowableFixedSizeBinary, GrowableNested, GrowablePrimitive, GrowableUnion, GrowableUtf8,
};
use arrow_arrays::array::AnyArray;
use arrow_memory::bitmap::Mask;
use arrow_types::error::Error;
use arrow_types::types::{days_ms, i256, months_days_ns};

/// An array of numbers or intervals under construction, of any element type.
pub enum AnyGrowablePrimitive<'a> {
    Int8(GrowablePrimitive<'a, i8>),
    Int16(GrowablePrimitive<'a, i16>),
    Int32(GrowablePrimitive<'a, i32>),
    Int64(GrowablePrimitive<'a, i64>),
    Int128(GrowablePrimitive<'a, i128>),
    Int256(GrowablePrimitive<'a, i256>),
    UInt8(GrowablePrimitive<'a, u8>),
    UInt16(GrowablePrimitive<'a, u16>),
    UInt32(GrowablePrimitive<'a, u32>),
    UInt64(GrowablePrimitive<'a, u64>),
    DaysMs(GrowablePrimitive<'a, days_ms>),
    MonthDayNano(GrowablePrimitive<'a, months_days_ns>),
}

/// An array under construction, of any type.
#[cycle(growables)]
pub enum AnyGrowable<'a> {
    Null(BoundNulls<'a>),
    Boolean(GrowableBoolean<'a>),
    Primitive(AnyGrowablePrimitive<'a>),
    Utf8(GrowableUtf8<'a, i32>),
    LargeUtf8(GrowableUtf8<'a, i64>),
    Binary(GrowableBinary<'a, i32>),
    LargeBinary(GrowableBinary<'a, i64>),
    FixedSizeBinary(GrowableFixedSizeBinary<'a>),
    Nested(GrowableNested<'a>),
    Dictionary(GrowableDictionary<'a>),
    Union(GrowableUnion<'a>),
}

/// What an expression says of the growable, whatever its element type.
macro_rules! of_primitive {
    ($any:expr, $growable:ident => $result:expr) => {
        match $any {
            AnyGrowablePrimitive::Int8($growable) => $result,
            AnyGrowablePrimitive::Int16($growable) => $result,
            AnyGrowablePrimitive::Int32($growable) => $result,
            AnyGrowablePrimitive::Int64($growable) => $result,
            AnyGrowablePrimitive::Int128($growable) => $result,
            AnyGrowablePrimitive::Int256($growable) => $result,
            AnyGrowablePrimitive::UInt8($growable) => $result,
            AnyGrowablePrimitive::UInt16($growable) => $result,
            AnyGrowablePrimitive::UInt32($growable) => $result,
            AnyGrowablePrimitive::UInt64($growable) => $result,
            AnyGrowablePrimitive::DaysMs($growable) => $result,
            AnyGrowablePrimitive::MonthDayNano($growable) => $result,
        }
    };
}

/// What an expression says of the growable, whatever its type.
macro_rules! of_any {
    ($any:expr, $growable:ident => $result:expr) => {
        match $any {
            AnyGrowable::Null($growable) => $result,
            AnyGrowable::Boolean($growable) => $result,
            AnyGrowable::Primitive($growable) => $result,
            AnyGrowable::Utf8($growable) => $result,
            AnyGrowable::LargeUtf8($growable) => $result,
            AnyGrowable::Binary($growable) => $result,
            AnyGrowable::LargeBinary($growable) => $result,
            AnyGrowable::FixedSizeBinary($growable) => $result,
            AnyGrowable::Nested($growable) => $result,
            AnyGrowable::Dictionary($growable) => $result,
            AnyGrowable::Union($growable) => $result,
        }
    };
}

// by hand, so that a drop is a call, and is not written out wherever a value is dropped
impl Drop for AnyGrowablePrimitive<'_> {
    fn drop(self) {
        of_primitive!(self, _growable => {})
    }
}

impl Drop for AnyGrowable<'_> {
    #[cycle(growables)]
    fn drop(self) {
        of_any!(self, _growable => {})
    }
}

impl AnyGrowablePrimitive<'_> {
    // As of a growable of one element type.
    fn extend_masked(&mut self, index: usize, start: usize, own: &Mask) -> Result<(), Error>
        requires { NamesRows (primitive_grown_of self.old) index start (length own.now) }
        ensures ok { OnOk result (primitive_grown_of self.new ≡ appended (primitive_grown_of self.old)
            (mask own.now (named_rows (primitive_grown_of self.old) index start (length own.now)))) }
        ensures fits { OnOk result (FitsItself (primitive_grown_of self.new)) }
        ensures err { OnErr result (HasFailed (primitive_grown_of self.old) (primitive_grown_of self.new)) }
        ensures failed { (result ≡ Err Error.Failed) ↔ ((primitive_grown_of self.old).failed ≡ true) }
        ensures overflow { result ≡ Err Error.Overflow → FitsWith (primitive_grown_of self.old)
            (mask own.now (named_rows (primitive_grown_of self.old) index start (length own.now))) → ⊥ }
        ensures null { null_slot (primitive_grown_of self.old).arrow_type ≡ Null }
        ensures others { IfErr result IsRefusal }
    {
        of_primitive!(self, growable => growable.extend_masked(index, start, own))
    }
}

impl AnyGrowable<'_> {
    // Whether it has no children, and its null slots are null.
    pub(crate) fn is_flat(&self) -> bool
        ensures { IsTrue result → IsFlat self.now }
    {
        match self {
            AnyGrowable::Boolean(_) | AnyGrowable::Primitive(_) => true,
            AnyGrowable::Utf8(_) | AnyGrowable::LargeUtf8(_) => true,
            AnyGrowable::Binary(_) | AnyGrowable::LargeBinary(_) => true,
            AnyGrowable::FixedSizeBinary(_) => true,
            _ => false,
        }
    }

    // Appends rows of bound array `index` from row `start` on, a row for each bit of a mask: null where the bit is not set.
    pub(crate) fn extend_masked(
        &mut self,
        index: usize,
        start: usize,
        own: &Mask,
    ) -> Result<(), Error>
        requires flat { IsFlat self.old }
        requires there { NamesRows (grown_of self.old) index start (length own.now) }
        ensures ok { OnOk result (grown_of self.new ≡ appended (grown_of self.old)
            (mask own.now (named_rows (grown_of self.old) index start (length own.now)))) }
        ensures fits { OnOk result (FitsItself (grown_of self.new)) }
        ensures err { OnErr result (HasFailed (grown_of self.old) (grown_of self.new)) }
        ensures failed { (result ≡ Err Error.Failed) ↔ ((grown_of self.old).failed ≡ true) }
        ensures overflow { result ≡ Err Error.Overflow → FitsWith (grown_of self.old)
            (mask own.now (named_rows (grown_of self.old) index start (length own.now))) → ⊥ }
        ensures null { null_slot (grown_of self.old).arrow_type ≡ Null }
        ensures others { IfErr result IsRefusal }
    {
        match self {
            AnyGrowable::Boolean(growable) => growable.extend_masked(index, start, own),
            AnyGrowable::Primitive(growable) => growable.extend_masked(index, start, own),
            AnyGrowable::Utf8(growable) => growable.extend_masked(index, start, own),
            AnyGrowable::LargeUtf8(growable) => growable.extend_masked(index, start, own),
            AnyGrowable::Binary(growable) => growable.extend_masked(index, start, own),
            AnyGrowable::LargeBinary(growable) => growable.extend_masked(index, start, own),
            AnyGrowable::FixedSizeBinary(growable) => growable.extend_masked(index, start, own),
            _ => unreachable!(),
        }
    }
}

impl<'a> Growable<'a> for AnyGrowablePrimitive<'a> {
    ghost state = { primitive_grown_of };

    fn extend(&mut self, index: usize, start: usize, len: usize) -> Result<(), Error> {
        of_primitive!(self, growable => growable.extend(index, start, len))
    }

    fn extend_validity(&mut self, additional: usize) -> Result<(), Error> {
        of_primitive!(self, growable => growable.extend_validity(additional))
    }

    fn len(&self) -> usize {
        of_primitive!(self, growable => growable.len())
    }

    fn as_box(&mut self) -> Result<AnyArray, Error> {
        of_primitive!(self, growable => growable.as_box())
    }
}

impl<'a> Growable<'a> for AnyGrowable<'a> {
    ghost state = { grown_of };

    #[cycle(extend)]
    fn extend(&mut self, index: usize, start: usize, len: usize) -> Result<(), Error> {
        of_any!(self, growable => growable.extend(index, start, len))
    }

    #[cycle(extend_validity)]
    fn extend_validity(&mut self, additional: usize) -> Result<(), Error> {
        of_any!(self, growable => growable.extend_validity(additional))
    }

    fn len(&self) -> usize {
        of_any!(self, growable => growable.len())
    }

    #[cycle(as_box)]
    fn as_box(&mut self) -> Result<AnyArray, Error> {
        of_any!(self, growable => growable.as_box())
    }
}
