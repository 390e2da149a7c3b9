//! Runs of rows of a predicate that are alike: true, false or null.

ghost use Rattle.std.specs.Prelude.{◌≡◌, ◌+◌, ◌*◌, ◌/◌, ◌<◌, ◌≤◌, ◌==◌, ℕ, [], not, length, slice_index_or, IfNone, IfSome};
ghost use Rattle.std.specs.Int.{bit_at};
ghost use Rattle.arrow_types.specs.Slot.{Null};
ghost use Rattle.arrow_flat.specs.Parts.{boolean_rows};
ghost use Rattle.arrow_choice.specs.Choice.{truth_slot};
ghost use Rattle.arrow_choice.specs.Runs.{AreRowsOf, IsRunIn, IsRunTo, TakesRun, is_truth, truth_by};

use arrow_flat::array::BooleanArray;
use arrow_flat::array::validity::valid_word;
use arrow_memory::bitmap::WORD_BITS;
use std::marker::Model;

/// Of 64 rows of a predicate, a bit each: which are valid, and the values of all.
#[derive(Clone, Copy)]
struct Word {
    valid: u64,
    values: u64,
}

/// The rows of a predicate that are left, which are taken from the front, a run at a time.
#[derive(Drop)]
pub(super) struct Runs<'a> {
    predicate: &'a BooleanArray,
    row: usize,
    // the word in which the first row that is left lies
    word: Word,
}

impl<'a> Model for Runs<'a> {
    ghost use Rattle.std.specs.Prelude.{ℕ, List, drop};
    ghost use Rattle.std.specs.Coded.{coded×, coded_list, coded_ℕ};
    ghost use Rattle.arrow_types.specs.Slot.{Slot};
    ghost use Rattle.arrow_types.specs.StoredSlot.{slot_code};
    ghost use Rattle.arrow_flat.specs.Parts.{boolean_rows};
    ghost use Rattle.arrow_choice.specs.Runs.{StandsAt};

    // which row comes next, and the rows that are left
    ghost Value = { ℕ × List Slot };

    ghost coded = { coded× coded_ℕ (coded_list slot_code) };

    ghost view = { λ a. (a.row, drop a.row (boolean_rows a.predicate.now)) };

    ghost invariant = { λ a. StandsAt (boolean_rows a.predicate.now) a.row a.word.valid a.word.values };
}

impl<'a> Runs<'a> {
    /// The runs of all rows of a predicate.
    pub(super) fn new(predicate: &'a BooleanArray) -> Runs<'a>
        ensures { result ≡ (0, boolean_rows predicate.now) }
    {
        Runs {
            predicate,
            row: 0,
            word: word_at(predicate, 0),
        }
    }

    /// Takes the next run, the longest that begins there: what its rows are, the first of them, and how many they are.
    /// There is none where no row is left.
    pub(super) fn next(&mut self) -> Option<(Option<bool>, usize, usize)>
        ensures none { IfNone result (self.old.1 ≡ []) }
        ensures run { IfSome result (λ run. TakesRun self.old self.new run.0 run.1 run.2) }
    {
        let start = self.row;
        if start >= self.predicate.len() {
            return None;
        }
        let truth = self.word.truth(start % WORD_BITS);
        let (end, word) = run_end(self.predicate, start, self.word, truth);
        self.row = end;
        self.word = word;
        Some((truth, start, end - start))
    }
}

// Where the run of rows that are as row `start` ends, and the word in which the row behind it lies, if there is one.
fn run_end(predicate: &BooleanArray, start: usize, word: Word, truth: Option<bool>) -> (usize, Word)
    requires rows { AreRowsOf (boolean_rows predicate.now) (start / 64) word.valid word.values }
    requires within { start < length (boolean_rows predicate.now) }
    requires first { slice_index_or (boolean_rows predicate.now) start Null ≡ truth_slot truth }
    ensures run { IsRunTo (boolean_rows predicate.now) truth start result.0 }
    ensures word { result.0 < length (boolean_rows predicate.now)
        → AreRowsOf (boolean_rows predicate.now) (result.0 / 64) result.1.valid result.1.values }
{
    let len = predicate.len();
    let mut word = word;
    let mut end = start;
    while end < len {
        let place = end % WORD_BITS;
        let count = word.run_of(truth, place).min(len - end);
        end += count;
        if place + count < WORD_BITS {
            return (end, word);
        }
        word = word_at(predicate, end / WORD_BITS);
    }
    (end, word)
}

// The rows from row `64 * j` on.
fn word_at(predicate: &BooleanArray, j: usize) -> Word
    ensures { AreRowsOf (boolean_rows predicate.now) j result.valid result.values }
{
    Word {
        valid: valid_word(predicate.validity(), j),
        values: predicate.values().word(j),
    }
}

impl Word {
    /// What row `place` of the word is: true, false or null.
    fn truth(self, place: usize) -> Option<bool>
        requires { place < 64 }
        ensures { truth_slot result
            ≡ truth_by (bit_at self.valid place == 1) (bit_at self.values place == 1) }
    {
        if self.valid >> place & 1 == 1 {
            Some(self.values >> place & 1 == 1)
        } else {
            None
        }
    }

    /// How many rows from row `place` of the word on are so.
    fn run_of(self, truth: Option<bool>, place: usize) -> usize
        requires { place < 64 }
        ensures { IsRunIn self.valid self.values truth place result }
    {
        let others = others(truth, self.valid, self.values) >> place;
        (WORD_BITS - place).min(others.trailing_zeros() as usize)
    }
}

// The rows that are not so, of 64 that are valid where a bit of the one word is set, and have the values of the other.
#[tactic(auto, using(crate::proofs::SideLemmas::others_true, crate::proofs::SideLemmas::others_false))]
fn others(truth: Option<bool>, valid: u64, values: u64) -> u64
    ensures { (k : ℕ) → k < 64 → (bit_at result k == 1)
        ≡ not (is_truth truth (bit_at valid k == 1) (bit_at values k == 1)) }
{
    match truth {
        Some(true) => !(valid & values),
        Some(false) => !(valid & !values),
        None => valid,
    }
}
