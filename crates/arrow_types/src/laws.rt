//! The laws of the element traits and of `==`, each the contract of a function over values that are handed
//! in. Generic code that calls one may stand on it.

ghost use Rattle.std.specs.Prelude.{◌≡◌, ◌↔◌, ◌≤◌, ◌≤ℤ◌, ◌⊎◌, pos, Some, IsTrue, IsSome};
ghost use Rattle.std.specs.Ordering.{is_le, ordering_reverse};
ghost use Rattle.std.specs.declared.cmp.Ordering.TheVariants.{Equal};
ghost use Rattle.arrow_types.specs.Greatest.{greatest_number, greatest_offset};

use crate::types::{DictionaryKey, Index, NativeOrd, NativeType, Offset};
use std::cmp::Ordering;

/// `==` holds of two elements exactly where they are the same value.
pub fn equal_is_same<T: NativeType>(left: T, right: T) -> bool
    ensures { IsTrue result ↔ (left ≡ right) }
{
    left == right
}

/// The order of numbers agrees with `==`: two compare as `Equal` exactly where they are the same value, so
/// each does with itself.
pub fn order_agrees<T: NativeOrd>(left: T, right: T) -> Ordering
    ensures order { result ≡ T.cmp left right }
    ensures agrees { (result ≡ Equal) ↔ (left ≡ right) }
{
    left.cmp(&right)
}

/// The order of numbers is antisymmetric: what compares one way compares the other way round turned.
pub fn order_turns<T: NativeOrd>(left: T, right: T) -> Ordering
    ensures order { result ≡ T.cmp right left }
    ensures turned { result ≡ ordering_reverse (T.cmp left right) }
{
    right.cmp(&left)
}

/// The order of numbers is transitive: what is at most a number is at most whatever that is at most.
pub fn order_chains<T: NativeOrd>(least: T, middle: T, greatest: T) -> bool
    ensures order { result ≡ is_le (T.cmp least greatest) }
    ensures chains { IsTrue (is_le (T.cmp least middle)) → IsTrue (is_le (T.cmp middle greatest))
        → IsTrue result }
{
    least <= greatest
}

/// The order of numbers is total: of two numbers, one is at most the other.
pub fn order_is_total<T: NativeOrd>(left: T, right: T) -> bool
    ensures order { result ≡ is_le (T.cmp left right) }
    ensures total { IsTrue result ⊎ IsTrue (is_le (T.cmp right left)) }
{
    left <= right
}

/// An index gives back the number that it was made from, and there is none exactly where the number passes
/// the greatest of the type.
pub fn index_of_number<T: Index>(number: usize) -> Option<usize>
    ensures fits { IsSome result ↔ (number ≤ T.greatest) }
    ensures same { IsSome result → result ≡ Some number }
{
    match T::from_usize(number) {
        Some(index) => Some(index.to_usize()),
        None => None,
    }
}

/// An index is made again from its number.
///
/// # Requires
/// The index is not negative.
pub fn number_of_index<T: Index>(index: T) -> Option<T>
    requires { pos 0 ≤ℤ T.number index }
    ensures { result ≡ Some index }
{
    T::from_usize(index.to_usize())
}

/// A dictionary's key gives back the number that it was made from, and there is none exactly where the
/// number passes the greatest of the key type.
pub fn key_of_number<K: DictionaryKey>(number: usize) -> Option<usize>
    ensures fits { IsSome result ↔ (number ≤ greatest_number K.KEY_TYPE) }
    ensures same { IsSome result → result ≡ Some number }
{
    index_of_number::<K>(number)
}

/// An offset gives back the number that it was made from, and there is none exactly where the number passes
/// the greatest offset of its width.
pub fn offset_of_number<O: Offset>(number: usize) -> Option<usize>
    ensures fits { IsSome result ↔ (number ≤ greatest_offset O.IS_LARGE) }
    ensures same { IsSome result → result ≡ Some number }
{
    index_of_number::<O>(number)
}

/// `==` is reflexive: of arrays, types, bitmaps and whatever else has it.
pub fn equals_itself<A: Eq>(value: &A) -> bool
    ensures { IsTrue result }
{
    value == value
}

/// `==` is symmetric.
pub fn equals_both_ways<A: Eq>(left: &A, right: &A) -> bool
    ensures answer { result ≡ A.eq right.now left.now }
    ensures symmetric { result ≡ A.eq left.now right.now }
{
    right == left
}

/// `==` is transitive.
pub fn equals_through<A: Eq>(first: &A, second: &A, third: &A) -> bool
    ensures answer { result ≡ A.eq first.now third.now }
    ensures transitive { IsTrue (A.eq first.now second.now) → IsTrue (A.eq second.now third.now)
        → IsTrue result }
{
    first == third
}
