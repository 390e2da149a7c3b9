//! Relations that are known when the program is compiled, so that a loop over rows has no test of which one it is.

ghost use Rattle.std.specs.Prelude.{◌≡◌, ◌<◌, ◌==◌, ℕ, Bool, true, if◌then◌else◌, refl};
ghost use Rattle.std.specs.Int.{bit_at};
ghost use Rattle.arrow_types.specs.Logic.{finished_eq, finished_neq};
ghost use Rattle.arrow_types.specs.Relation.{Relation as RowRelation, bool_order, related, holds};
ghost use Rattle.arrow_types.specs.Relation as relation;
ghost use Rattle.arrow_types.specs.Slot.{Slot, Boolean, Null};
ghost use Rattle.arrow_relate.specs.Same.{differs, is_same};

use arrow_memory::bitmap::Logic;
use arrow_types::types::{NativeOrd, NativeType};
use std::cmp::Ordering;

/// One of the six relations, by the order of two values; and by the words of two bitmaps, where false comes before true.
pub(crate) trait FixedRelation: Logic {
    // the relation as clauses see it
    ghost op: { RowRelation };

    /// Whether it holds of two values that compare so.
    fn holds(order: Ordering) -> bool
        ensures { result ≡ holds op order };

    // whether it holds of two truth values
    ghost of_bits: { (x y : Bool) → Boolean (Self.bits x y) ≡ related op (Boolean x) (Boolean y) };
}

/// Equality, or that there is none, where nulls are looked at too.
pub(crate) trait Sameness: FixedRelation {
    // what it answers of two rows, null or not
    ghost tells: { Slot → Slot → Slot };

    // what it makes of its answer to what is stored, and of whether each of the rows is valid
    ghost finishes: { Slot → Bool → Bool → Slot };

    /// Its answers to the rows of a word, from those to what is stored and from which rows of each side are valid.
    fn finished_word(stored: u64, left: u64, right: u64) -> u64
        ensures { (k : ℕ) → k < 64
            → Boolean (bit_at result k == 1)
            ≡ finishes (Boolean (bit_at stored k == 1)) (bit_at left k == 1) (bit_at right k == 1) };

    /// Shows what it tells of two rows, by its answer to what is stored and by which of them are valid.
    fn shows_rows()
        ensures { (p q : Bool) (s r : Slot) (b : Bool) → related Self.op s r ≡ Boolean b
            → finishes (Boolean b) p q ≡ tells (if p then s else Null) (if q then r else Null) };

    // an answer stays where both rows are valid
    ghost finishes_valid: { (b : Bool) → finishes (Boolean b) true true ≡ Boolean b };

    // a null of such answers stays
    ghost finishes_null: { (p q : Bool) → finishes Null p q ≡ Null };
}

/// A relation of values of a native type.
pub(crate) trait Test<T: NativeType>: FixedRelation {
    /// Whether it holds of two values.
    fn of(left: T, right: T) -> bool
        ensures { Boolean result ≡ related Self.op (T.slot left) (T.slot right) };
}

/// Both are equal.
pub(crate) struct Equal;

/// They are not.
pub(crate) struct NotEqual;

/// The left one comes before the right one.
pub(crate) struct Less;

/// The left one does not come after the right one.
pub(crate) struct LessOrEqual;

/// The left one comes after the right one.
pub(crate) struct Greater;

/// The left one does not come before the right one.
pub(crate) struct GreaterOrEqual;

impl Logic for Equal {
    ghost bits = { λ x y. holds relation.eq (bool_order x y) };

    fn of_words(left: u64, right: u64) -> u64 {
        !(left ^ right)
    }
}

impl FixedRelation for Equal {
    ghost op = { relation.eq };

    fn holds(order: Ordering) -> bool {
        order == Ordering::Equal
    }

    ghost of_bits = { λ x y. refl };
}

impl Logic for NotEqual {
    ghost bits = { λ x y. holds relation.neq (bool_order x y) };

    fn of_words(left: u64, right: u64) -> u64 {
        left ^ right
    }
}

impl FixedRelation for NotEqual {
    ghost op = { relation.neq };

    fn holds(order: Ordering) -> bool {
        order != Ordering::Equal
    }

    ghost of_bits = { λ x y. refl };
}

impl Logic for Less {
    ghost bits = { λ x y. holds relation.lt (bool_order x y) };

    fn of_words(left: u64, right: u64) -> u64 {
        !left & right
    }
}

impl FixedRelation for Less {
    ghost op = { relation.lt };

    fn holds(order: Ordering) -> bool {
        order == Ordering::Less
    }

    ghost of_bits = { λ x y. refl };
}

impl Logic for LessOrEqual {
    ghost bits = { λ x y. holds relation.lt_eq (bool_order x y) };

    fn of_words(left: u64, right: u64) -> u64 {
        !left | right
    }
}

impl FixedRelation for LessOrEqual {
    ghost op = { relation.lt_eq };

    fn holds(order: Ordering) -> bool {
        order != Ordering::Greater
    }

    ghost of_bits = { λ x y. refl };
}

impl Logic for Greater {
    ghost bits = { λ x y. holds relation.gt (bool_order x y) };

    fn of_words(left: u64, right: u64) -> u64 {
        left & !right
    }
}

impl FixedRelation for Greater {
    ghost op = { relation.gt };

    fn holds(order: Ordering) -> bool {
        order == Ordering::Greater
    }

    ghost of_bits = { λ x y. refl };
}

impl Logic for GreaterOrEqual {
    ghost bits = { λ x y. holds relation.gt_eq (bool_order x y) };

    fn of_words(left: u64, right: u64) -> u64 {
        left | !right
    }
}

impl FixedRelation for GreaterOrEqual {
    ghost op = { relation.gt_eq };

    fn holds(order: Ordering) -> bool {
        order != Ordering::Less
    }

    ghost of_bits = { λ x y. refl };
}

impl Sameness for Equal {
    ghost tells = { is_same };

    ghost finishes = { finished_eq };

    fn finished_word(stored: u64, left: u64, right: u64) -> u64 {
        stored & left & right | !(left | right)
    }

    fn shows_rows() {}

    ghost finishes_valid = { λ b. refl };

    ghost finishes_null = { λ p q. refl };
}

impl Sameness for NotEqual {
    ghost tells = { differs };

    ghost finishes = { finished_neq };

    fn finished_word(stored: u64, left: u64, right: u64) -> u64 {
        stored & left & right | left ^ right
    }

    fn shows_rows() {}

    ghost finishes_valid = { λ b. refl };

    ghost finishes_null = { λ p q. refl };
}

impl<T: NativeType> Test<T> for Equal {
    fn of(left: T, right: T) -> bool {
        left == right
    }
}

impl<T: NativeType> Test<T> for NotEqual {
    fn of(left: T, right: T) -> bool {
        left != right
    }
}

impl<T: NativeOrd> Test<T> for Less {
    fn of(left: T, right: T) -> bool {
        left < right
    }
}

impl<T: NativeOrd> Test<T> for LessOrEqual {
    fn of(left: T, right: T) -> bool {
        left <= right
    }
}

impl<T: NativeOrd> Test<T> for Greater {
    fn of(left: T, right: T) -> bool {
        left > right
    }
}

impl<T: NativeOrd> Test<T> for GreaterOrEqual {
    fn of(left: T, right: T) -> bool {
        left >= right
    }
}
