//! Which data types the calls are asked for.

use arrow_compare::comparison;
use arrow_logic::length::can_length;
use arrow_logic::substring::can_substring;
use arrow_text::call::Call;
use arrow_text::fault::Fault;
use arrow_text::types::find;
use arrow_text::write::show;
use arrow_types::datatypes::DataType;
use std::alloc::Global;

/// The calls that are asked whether another is asked for a data type.
const CALLS: [(&str, fn(&DataType) -> bool); 14] = [
    ("length::can_length", can_length),
    ("substring::can_substring", can_substring),
    ("comparison::can_eq", comparison::can_eq),
    ("comparison::can_neq", comparison::can_neq),
    ("comparison::can_lt", comparison::can_lt),
    ("comparison::can_lt_eq", comparison::can_lt_eq),
    ("comparison::can_gt", comparison::can_gt),
    ("comparison::can_gt_eq", comparison::can_gt_eq),
    ("comparison::can_eq_scalar", comparison::can_eq_scalar),
    ("comparison::can_neq_scalar", comparison::can_neq_scalar),
    ("comparison::can_lt_scalar", comparison::can_lt_scalar),
    ("comparison::can_lt_eq_scalar", comparison::can_lt_eq_scalar),
    ("comparison::can_gt_scalar", comparison::can_gt_scalar),
    ("comparison::can_gt_eq_scalar", comparison::can_gt_eq_scalar),
];

// Appends whether a call is asked for a data type; `false` where no call has the name.
pub(crate) fn answer(alloc: Global, call: &Call<'_>, out: &mut String) -> Result<bool, Fault> {
    let Some(is_asked) = find(&CALLS, call.name) else {
        return Ok(false);
    };
    call.takes(1)?;
    let data_type = call.boxed_type(alloc, 0)?;
    show(out, is_asked(&data_type))?;
    Ok(true)
}
