//! Values that a line says, each in a struct of its own with a drop written by hand: whoever reads one lets it go by a call,
//! and not part by part.

ghost use Rattle.std.specs.Prelude.{◌≡◌, IfOk, IsOkUnless};
ghost use Rattle.arrow_types.specs.declared.error.Error.{Error};
ghost use Rattle.arrow_text.specs.declared.fault.Fault.{Fault};

use crate::fault::Fault;
use arrow_arrays::array::AnyArray;
use arrow_flat::scalar::AnyScalar;
use std::alloc::Global;

/// An array.
pub struct Array {
    pub array: Box<AnyArray>,
}

impl Drop for Array {
    fn drop(self) {
        let Array { array: _ } = self;
    }
}

impl Array {
    /// This array.
    ///
    /// # Errors
    /// `OutOfMemory` where memory is refused.
    pub fn new(alloc: Global, array: AnyArray) -> Result<Array, Fault>
        ensures ok { IfOk result (λ made. made.array.value ≡ array) }
        ensures err { IsOkUnless result (Fault.Refused Error.OutOfMemory) }
    {
        let array = Box::new(alloc, array)?;
        Ok(Array { array })
    }

    /// The array by itself.
    pub fn into_inner(self) -> AnyArray
        ensures { result ≡ self.array.value }
    {
        let Array { array } = self;
        Box::into_inner(array)
    }
}

/// Two arrays.
pub struct Pair {
    pub left: Box<AnyArray>,
    pub right: Box<AnyArray>,
}

impl Drop for Pair {
    fn drop(self) {
        let Pair { left: _, right: _ } = self;
    }
}

/// Any number of arrays.
pub struct Arrays {
    pub arrays: Vec<AnyArray>,
}

impl Drop for Arrays {
    fn drop(self) {
        let Arrays { arrays: _ } = self;
    }
}

impl Arrays {
    /// The arrays by themselves.
    pub fn into_inner(self) -> Vec<AnyArray> {
        let Arrays { arrays } = self;
        arrays
    }
}

/// A scalar.
pub struct Scalar {
    pub scalar: Box<AnyScalar>,
}

impl Drop for Scalar {
    fn drop(self) {
        let Scalar { scalar: _ } = self;
    }
}
