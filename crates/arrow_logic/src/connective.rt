//! The two connectives, and the bits that they make of arrays.

ghost use Rattle.std.specs.Prelude.{◌≡◌, ◌&&◌, ◌||◌, not, length, map, IfOk, IsOkUnless};
ghost use Rattle.arrow_types.specs.declared.error.Error.{Error};
ghost use Rattle.arrow_memory.specs.Bits.{by_fours};
ghost use Rattle.arrow_flat.specs.Parts.{boolean_rows};
ghost use Rattle.arrow_logic.specs.Connective.{bits_by, decider, decides, known_bit};

use arrow_flat::array::BooleanArray;
use arrow_memory::bitmap::{Bitmap, QuaternaryLogic};
use arrow_types::error::Error;
use std::alloc::Global;

/// A connective of two truth values.
#[derive(Clone, Copy)]
pub(crate) enum Connective {
    And,
    Or,
}

/// Whether a row of `And` is known, by the validity and the value of each side.
struct KnownOfAnd;

impl QuaternaryLogic for KnownOfAnd {
    ghost use Rattle.arrow_logic.specs.declared.connective.Connective.{Connective};

    ghost bits = { known_bit Connective.And };

    fn of_words(left_valid: u64, left: u64, right_valid: u64, right: u64) -> u64 {
        (left_valid | right_valid & !right) & (right_valid | left_valid & !left)
    }
}

/// The same of `Or`.
struct KnownOfOr;

impl QuaternaryLogic for KnownOfOr {
    ghost use Rattle.arrow_logic.specs.declared.connective.Connective.{Connective};

    ghost bits = { known_bit Connective.Or };

    fn of_words(left_valid: u64, left: u64, right_valid: u64, right: u64) -> u64 {
        (left_valid | right_valid & right) & (right_valid | left_valid & left)
    }
}

impl Connective {
    /// What it makes of each bit with the other's, word by word.
    ///
    /// # Requires
    /// Both have as many bits.
    ///
    /// # Errors
    /// `OutOfMemory` where memory is refused.
    pub(crate) fn of_bits(self, alloc: Global, lhs: &Bitmap, rhs: &Bitmap) -> Result<Bitmap, Error>
        requires { length lhs.now ≡ length rhs.now }
        ensures ok { IfOk result (λ bits. bits ≡ bits_by self lhs.now rhs.now) }
        ensures err { IsOkUnless result Error.OutOfMemory }
    {
        match self {
            Connective::And => lhs.and(alloc, rhs),
            Connective::Or => lhs.or(alloc, rhs),
        }
    }

    /// The truth value that decides, whatever the other side is.
    pub(crate) fn decider(self) -> bool
        ensures { result ≡ decider self }
    {
        match self {
            Connective::And => false,
            Connective::Or => true,
        }
    }

    /// Which rows are that value, word by word; a null is not, whatever lies beneath it.
    ///
    /// # Errors
    /// `OutOfMemory` where memory is refused.
    pub(crate) fn deciding(self, alloc: Global, array: &BooleanArray) -> Result<Bitmap, Error>
        ensures ok { IfOk result (λ bits. bits ≡ map (decides self) (boolean_rows array.now)) }
        ensures err { IsOkUnless result Error.OutOfMemory }
    {
        let values = array.values();
        match (self, array.validity()) {
            (Connective::And, None) => values.not(alloc),
            (Connective::And, Some(validity)) => validity.and_not(alloc, values),
            (Connective::Or, None) => Ok(values.clone()?),
            (Connective::Or, Some(validity)) => validity.and(alloc, values),
        }
    }
    /// Which rows of two arrays are known, by the validity and the values of each, in one pass over the four.
    ///
    /// # Requires
    /// All have as many bits.
    ///
    /// # Errors
    /// `OutOfMemory` where memory is refused.
    pub(crate) fn known(
        self,
        alloc: Global,
        left_valid: &Bitmap,
        left: &Bitmap,
        right_valid: &Bitmap,
        right: &Bitmap,
    ) -> Result<Bitmap, Error>
        requires left { length left_valid.now ≡ length left.now }
        requires right_valid { length left_valid.now ≡ length right_valid.now }
        requires right { length left_valid.now ≡ length right.now }
        ensures ok { IfOk result (λ bits. bits
            ≡ by_fours (known_bit self) left_valid.now left.now right_valid.now right.now) }
        ensures err { IsOkUnless result Error.OutOfMemory }
    {
        match self {
            Connective::And => {
                left_valid.combined_by_fours::<KnownOfAnd>(alloc, left, right_valid, right)
            }
            Connective::Or => {
                left_valid.combined_by_fours::<KnownOfOr>(alloc, left, right_valid, right)
            }
        }
    }
}
