//! Answers lines that name a call which selects rows: growables, rows that are kept, named by their numbers, joined,
//! moved and chosen.

mod filter;
mod growable;
mod kernels;
mod lists;
mod ranges;
mod take;

use arrow_text::call::{Answer, Call, answer_by};
use arrow_text::fault::Fault;
use std::alloc::Global;

/// What answers the calls, by their names.
const CALLS: [(&str, Answer); 36] = [
    ("make_growable", growable::answer),
    ("GrowableNull", growable::answer),
    ("GrowableBoolean", growable::answer),
    ("GrowablePrimitive", growable::answer),
    ("GrowableUtf8", growable::answer),
    ("GrowableBinary", growable::answer),
    ("GrowableFixedSizeBinary", growable::answer),
    ("GrowableList", growable::answer),
    ("GrowableFixedSizeList", growable::answer),
    ("GrowableStruct", growable::answer),
    ("GrowableMap", growable::answer),
    ("GrowableUnion", growable::answer),
    ("GrowableDictionary", growable::answer),
    ("join_arrays", kernels::answer_join),
    ("concatenate::concatenate", kernels::answer_join),
    ("window::shift", kernels::answer_shift),
    ("if_then_else::if_then_else", kernels::answer_choice),
    ("if_then_else::if_then_else_ranges", ranges::answer_sides),
    ("filter::filter", filter::answer_filter),
    ("filter::filter_chunk", filter::answer_chunk),
    ("filter::build_filter", filter::answer_prepared),
    ("Filter::ranges", ranges::answer_kept),
    ("filter::extend_from_word", filter::answer_word),
    ("take::can_take", take::answer_can_take),
    ("take::take", take::answer),
    ("take::primitive::take", take::answer),
    ("take::boolean::take", take::answer),
    ("take::utf8::take", take::answer),
    ("take::binary::take", take::answer),
    ("take::dict::take", take::answer),
    ("take::list::take", take::answer),
    ("take::fixed_size_list::take", take::answer),
    ("take::structure::take", take::answer),
    ("take::map::take", take::answer),
    ("take::union::take", take::answer),
    ("take::fixed_size_binary::take", take::answer),
];

// Appends the answer of a call to `out`; `false` where the call has none of these names.
pub(crate) fn answer(alloc: Global, call: &Call<'_>, out: &mut String) -> Result<bool, Fault> {
    answer_by(alloc, &CALLS, call, out)
}
