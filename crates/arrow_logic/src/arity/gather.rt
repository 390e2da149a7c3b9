//! What a closure answers to the numbers of rows, gathered in order.

ghost use Rattle.std.specs.Prelude.{◌≡◌, ◌+◌, ◌^◌, ◌≤◌, ◌<◌, ◌⊎◌, ℕ, length, IfOk, IfErr, IsOkUnless};
ghost use Rattle.std.specs.List.{zip};
ghost use Rattle.std.specs.Vec.{vec_len, vec_capacity};
ghost use Rattle.arrow_types.specs.declared.error.Error.{Error};
ghost use Rattle.arrow_logic.specs.Answers.{answers_ok};
ghost use Rattle.arrow_logic.specs.Gathered.{AnswersFrom, AppendsAnswers, RefusesBelow};

use arrow_memory::bitmap::{Bitmap, MutableBitmap, WORD_BITS};
use arrow_types::error::Error;
use std::alloc::Global;

// What the closure answers to each row below `len`.
pub(super) fn gather<R: Copy, F: Fn(usize) -> R>(
    alloc: Global,
    len: usize,
    op: F,
) -> Result<Vec<R>, Error>
    requires { (row : ℕ) → row < len → F.pre op row }
    ensures each { IfOk result (λ values. AnswersFrom (F.post op) 0 values.items) }
    ensures count { IfOk result (λ values. length values.items ≡ len) }
    ensures err { IsOkUnless result Error.OutOfMemory }
{
    let mut values = Vec::with_capacity(alloc, len)?;
    for row in 0..len {
        values.push_reserved(op(row));
    }
    Ok(values)
}

// The same where an answer may be an error: the first one ends it.
pub(super) fn try_gather<R: Copy, F: Fn(usize) -> Result<R, Error>>(
    alloc: Global,
    len: usize,
    op: F,
) -> Result<Vec<R>, Error>
    requires { (row : ℕ) → row < len → F.pre op row }
    ensures each { IfOk result (λ values. AnswersFrom (answers_ok (F.post op)) 0 values.items) }
    ensures count { IfOk result (λ values. length values.items ≡ len) }
    ensures failed { IfErr result (λ error. (error ≡ Error.OutOfMemory)
        ⊎ RefusesBelow (F.post op) len error) }
{
    let mut values = Vec::with_capacity(alloc, len)?;
    for row in 0..len {
        values.push_reserved(op(row)?);
    }
    Ok(values)
}

// The same where an answer is a value and a bit: the bits are gathered in words.
pub(super) fn gather_with_bits<R: Copy, F: Fn(usize) -> (R, bool)>(
    alloc: Global,
    len: usize,
    op: F,
) -> Result<(Vec<R>, Bitmap), Error>
    requires { (row : ℕ) → row < len → F.pre op row }
    ensures each { IfOk result (λ parts. AnswersFrom (F.post op) 0 (zip parts.0.items parts.1)) }
    ensures count { IfOk result (λ parts. length parts.0.items ≡ len) }
    ensures bits { IfOk result (λ parts. length parts.1 ≡ len) }
    ensures err { IsOkUnless result Error.OutOfMemory }
{
    let mut values = Vec::with_capacity(alloc, len)?;
    let mut bits = MutableBitmap::with_capacity(alloc, len)?;
    let mut row = 0;
    while row < len {
        let count = WORD_BITS.min(len - row);
        let word = append_answers(&mut values, &op, row, count);
        bits.push_word(word, count)?;
        row += count;
    }
    Ok((values, bits.into_bitmap()?))
}

// Appends the values of `count` answers, from row `row` on, and answers their bits as a word.
fn append_answers<R: Copy, F: Fn(usize) -> (R, bool)>(
    values: &mut Vec<R>,
    op: &F,
    row: usize,
    count: usize,
) -> u64
    requires callable { (k : ℕ) → k < count → F.pre op.now (row + k) }
    requires in_word { count ≤ 64 }
    requires fits { row + count < 2 ^ 64 }
    requires room { vec_len values.old + count ≤ vec_capacity values.old }
    ensures appended { AppendsAnswers (F.post op.now) row count values.old.items values.new.items result }
    ensures capacity { vec_capacity values.new ≡ vec_capacity values.old }
{
    let mut word = 0;
    for k in 0..count {
        let (value, bit) = op(row + k);
        values.push_reserved(value);
        word |= u64::from(bit) << k;
    }
    word
}
