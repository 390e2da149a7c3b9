//! Relations of the rows of two arrays, or of an array and a scalar, each kind of rows in a module of its own, and what
//! validities make of them.

ghost use Rattle.std.specs.Prelude.{◌≡◌, ◌+◌, ◌*◌, ◌<◌, ◌==◌, ℕ, length, map, IfOk, IsOkUnless};
ghost use Rattle.std.specs.Int.{bit_at};
ghost use Rattle.arrow_types.specs.declared.error.Error.{Error};
ghost use Rattle.arrow_types.specs.ArrowType.{boolean, plain};
ghost use Rattle.arrow_types.specs.Logic.{finished_eq, finished_neq};
ghost use Rattle.arrow_types.specs.Rows.{valid_at};
ghost use Rattle.arrow_types.specs.Slot.{Boolean};
ghost use Rattle.arrow_flat.specs.Parts.{FitsRows, boolean_rows};
ghost use Rattle.arrow_relate.specs.Finished.{finished};
ghost use Rattle.arrow_relate.specs.Words.{IsWordOf};
ghost use Rattle.arrow_flat.specs.Truths.{AnswersTruths};

/// A call at a relation that is known when the program runs: its first type parameter, `_`, is that relation.
macro_rules! by_relation {
    ($by:expr, $call:ident::<_ $(, $kind:ty)*>($($argument:expr),*)) => {
        match $by {
            Relation::Eq => $call::<Equal $(, $kind)*>($($argument),*),
            Relation::Neq => $call::<NotEqual $(, $kind)*>($($argument),*),
            Relation::Lt => $call::<Less $(, $kind)*>($($argument),*),
            Relation::LtEq => $call::<LessOrEqual $(, $kind)*>($($argument),*),
            Relation::Gt => $call::<Greater $(, $kind)*>($($argument),*),
            Relation::GtEq => $call::<GreaterOrEqual $(, $kind)*>($($argument),*),
        }
    };
}

pub mod binary;
pub mod boolean;
mod bytes;
mod chunked;
pub mod primitive;
pub mod utf8;

use crate::fixed::{Equal, NotEqual, Sameness};
use arrow_flat::array::BooleanArray;
use arrow_flat::array::truths::truths;
use arrow_flat::array::validity::shared;
use arrow_memory::bitmap::Bitmap;
use arrow_types::error::Error;
use std::alloc::Global;

/// Whether rows are the same, from whether what is stored of them is equal, and from the validity of both sides: a null
/// of `out` stays; two nulls are the same, and a null and a value are not. An absent validity marks no row as null.
///
/// # Requires
/// Each validity has a bit for each row.
///
/// # Errors
/// `OutOfMemory` where memory is refused.
///
/// Source: arrow2's `comparison::finish_eq_validities`.
pub fn finish_eq_validities(
    alloc: Global,
    out: BooleanArray,
    lhs: Option<Bitmap>,
    rhs: Option<Bitmap>,
) -> Result<BooleanArray, Error>
    requires left { FitsRows lhs (length (boolean_rows out)) }
    requires right { FitsRows rhs (length (boolean_rows out)) }
    ensures { AnswersTruths result (finished finished_eq (boolean_rows out) lhs rhs) }
{
    finish::<Equal>(alloc, out, lhs, rhs)
}

/// Whether rows differ, from whether what is stored of them does, in the same way: two nulls do not, and a null and a
/// value do.
///
/// # Requires
/// Each validity has a bit for each row.
///
/// # Errors
/// `OutOfMemory` where memory is refused.
///
/// Source: arrow2's `comparison::finish_neq_validities`.
pub fn finish_neq_validities(
    alloc: Global,
    out: BooleanArray,
    lhs: Option<Bitmap>,
    rhs: Option<Bitmap>,
) -> Result<BooleanArray, Error>
    requires left { FitsRows lhs (length (boolean_rows out)) }
    requires right { FitsRows rhs (length (boolean_rows out)) }
    ensures { AnswersTruths result (finished finished_neq (boolean_rows out) lhs rhs) }
{
    finish::<NotEqual>(alloc, out, lhs, rhs)
}

// Answers to rows, from those to what is stored of them and from the validity of both sides. A null of `out` stays.
pub(crate) fn finish<E: Sameness>(
    alloc: Global,
    out: BooleanArray,
    lhs: Option<Bitmap>,
    rhs: Option<Bitmap>,
) -> Result<BooleanArray, Error>
    requires left { FitsRows lhs (length (boolean_rows out)) }
    requires right { FitsRows rhs (length (boolean_rows out)) }
    ensures array_type { IfOk result (λ array. array.arrow_type ≡ plain boolean) }
    ensures rows { IfOk result (λ array. boolean_rows array
        ≡ finished E.finishes (boolean_rows out) lhs rhs) }
    ensures err { IsOkUnless result Error.OutOfMemory }
{
    let _ = out.len();
    let bits = finished_bits::<E>(alloc, out.values(), &lhs, &rhs)?;
    Ok(truths(bits, shared(out.validity())?))
}

// The bits of what was compared, each with whether its row of both sides is valid. Without validities they are shared.
fn finished_bits<E: Sameness>(
    alloc: Global,
    stored: &Bitmap,
    lhs: &Option<Bitmap>,
    rhs: &Option<Bitmap>,
) -> Result<Bitmap, Error>
    requires left { FitsRows lhs.now (length stored.now) }
    requires right { FitsRows rhs.now (length stored.now) }
    ensures ok { IfOk result (λ bits. map Boolean bits
        ≡ finished E.finishes (map Boolean stored.now) lhs.now rhs.now) }
    ensures err { IsOkUnless result Error.OutOfMemory }
{
    if lhs.is_none() && rhs.is_none() {
        return Ok(stored.clone()?);
    }
    Bitmap::collect_words(
        alloc,
        stored.len(),
        |j| finished_word::<E>(stored, lhs, rhs, j),
    )
}

// The answers to the 64 rows from row `64 * j` on, where `stored` has those to what is stored.
fn finished_word<E: Sameness>(
    stored: &Bitmap,
    lhs: &Option<Bitmap>,
    rhs: &Option<Bitmap>,
    j: usize,
) -> u64
    requires left { FitsRows lhs.now (length stored.now) }
    requires right { FitsRows rhs.now (length stored.now) }
    ensures { IsWordOf (finished E.finishes (map Boolean stored.now) lhs.now rhs.now) j result }
{
    E::finished_word(stored.word(j), valid_word(lhs, j), valid_word(rhs, j))
}

// Which of the 64 rows from row `64 * j` on are valid, a bit each.
fn valid_word(validity: &Option<Bitmap>, j: usize) -> u64
    ensures { (len k : ℕ) → FitsRows validity.now len → k < 64 → 64 * j + k < len
        → (bit_at result k == 1) ≡ valid_at validity.now (64 * j + k) }
{
    match validity {
        Some(bits) => bits.word(j),
        None => u64::MAX,
    }
}
