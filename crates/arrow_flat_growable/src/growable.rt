//! Arrays that grow by rows of other arrays and by null slots.

ghost use Rattle.std.specs.Prelude.{◌≡◌, ◌↔◌, true, Err, IfOk, IfErr, OnOk, OnErr};
ghost use Rattle.arrow_types.specs.declared.error.Error.{Error};
ghost use Rattle.arrow_flat_growable.specs.Grown.{Grown, CannotHold, NamesRows, CountsRows, FitsItself, FitsWith, HasFailed, HoldsRows, IsRefusal, IsFailedOrMemory, appended, empty_over, named_rows, null_rows_of};

mod binary;
mod boolean;
mod byte_rows;
mod empty_nulls;
mod fixed_binary;
mod flat;
mod keys;
mod null;
mod parts;
mod primitive;
mod utf8;
mod validity;
mod waiting;

use arrow_arrays::array::AnyArray;
use arrow_types::error::Error;
pub use binary::GrowableBinary;
pub use boolean::{GrowableBits, GrowableBoolean};
pub use byte_rows::GrowableKind;
pub use fixed_binary::{GrowableFixedRows, GrowableFixedSizeBinary};
pub use flat::{FlatGrowable, GrowableValues};
pub use keys::GrowableKeys;
pub use null::{BoundNulls, GrowableNull};
pub use parts::GrowableParts;
pub use primitive::GrowablePrimitive;
pub use utf8::GrowableUtf8;
pub use validity::GrowableValidity;
pub use waiting::GrowableBytes;

/// An array under construction, to which rows of the arrays that are bound to it are appended, and null
/// slots. After a call that refused it has failed: [`Growable::len`] answers the rows from before that
/// call, and each other call answers `Failed`.
pub trait Growable<'a> {
    // its type, the arrays that are bound to it, its rows, and whether it has failed
    ghost state: { Self → Grown };

    /// Appends `len` rows of bound array `index`, from row `start` on.
    ///
    /// # Requires
    /// `index` is that of a bound array, and `start + len` at most the count of its rows.
    ///
    /// # Errors
    /// `Failed` where an earlier call refused; `Overflow` only where the rows do not fit the type or one
    /// of those named is crowded; `OutOfMemory` where memory is refused.
    fn extend(&mut self, index: usize, start: usize, len: usize) -> Result<(), Error>
        requires { NamesRows (state self.old) index start len }
        ensures ok { OnOk result (state self.new
            ≡ appended (state self.old) (named_rows (state self.old) index start len)) }
        ensures fits { OnOk result (FitsItself (state self.new)) }
        ensures err { OnErr result (HasFailed (state self.old) (state self.new)) }
        ensures failed { (result ≡ Err Error.Failed) ↔ ((state self.old).failed ≡ true) }
        ensures overflow { result ≡ Err Error.Overflow → CannotHold (state self.old) index start len }
        ensures others { IfErr result IsRefusal };

    /// Appends so many null slots of the type.
    ///
    /// # Errors
    /// `Failed` where an earlier call refused; `Overflow` only where the rows do not fit the type;
    /// `OutOfMemory` where memory is refused.
    fn extend_validity(&mut self, additional: usize) -> Result<(), Error>
        ensures ok { OnOk result (state self.new
            ≡ appended (state self.old) (null_rows_of (state self.old) additional)) }
        ensures fits { OnOk result (FitsItself (state self.new)) }
        ensures err { OnErr result (HasFailed (state self.old) (state self.new)) }
        ensures failed { (result ≡ Err Error.Failed) ↔ ((state self.old).failed ≡ true) }
        ensures overflow { result ≡ Err Error.Overflow
            → FitsWith (state self.old) (null_rows_of (state self.old) additional) → ⊥ }
        ensures others { IfErr result IsRefusal };

    /// How many rows there are.
    fn len(&self) -> usize
        ensures count { result ≡ (state self.now).count }
        ensures rows { CountsRows (state self.now) };

    /// Hands out an array of all rows so far, and is left without rows.
    ///
    /// # Errors
    /// `Failed` where an earlier call refused; `OutOfMemory` where memory is refused.
    fn as_box(&mut self) -> Result<AnyArray, Error>
        ensures ok { IfOk result (HoldsRows (state self.old)) }
        ensures left { OnOk result (state self.new
            ≡ empty_over (state self.old).arrow_type (state self.old).sources) }
        ensures err { OnErr result (HasFailed (state self.old) (state self.new)) }
        ensures failed { (result ≡ Err Error.Failed) ↔ ((state self.old).failed ≡ true) }
        ensures others { IfErr result IsFailedOrMemory };
}
