//! Growables of arrays of any type and of each type, step by step.

ghost use Rattle.std.specs.Prelude.{◌<◌, length};
ghost use Rattle.arrow_arrays.specs.Any.{layouts_in};
ghost use Rattle.arrow_flat_growable.specs.Grown.{AreOfOneType};

mod plan;
mod steps;
mod typed;

use crate::select::growable::plan::Plan;
use crate::select::growable::steps::run_actions;
use crate::select::growable::typed::run_typed;
use crate::select::lists::{are_of_one_type, lend_all};
use arrow_arrays::array::AnyArray;
use arrow_growable::growable::{AnyGrowable, make_growable};
use arrow_text::call::{Call, read_arrays};
use arrow_text::fault::Fault;
use arrow_text::piece::Piece;
use arrow_text::write::show;
use arrow_types::datatypes::PhysicalType;
use std::alloc::Global;

// Makes a growable over the arrays that stand before a colon, takes the steps behind it, and appends what each
// answers with a space between two, and `none` of no step.
pub(crate) fn answer(alloc: Global, call: &Call<'_>, out: &mut String) -> Result<(), Fault> {
    let (arrays, steps) = parts_of(call)?;
    let arrays = read_arrays(alloc, arrays)?;
    let plan = Plan::read(alloc, call, steps)?;
    let lent = lend_all(alloc, &arrays)?;
    let mut answers = String::new(alloc);
    run(alloc, call.name, &lent, &plan, &mut answers)?;
    show(out, answers.strip_prefix(' ').unwrap_or("none"))
}

// The arrays and the steps among the arguments: those from the third one on, and those behind a colon.
fn parts_of<'a, 'b>(call: &'b Call<'a>) -> Result<(&'b [Piece<'a>], &'b [Piece<'a>]), Fault> {
    let arguments = call.arguments.as_slice();
    for (i, argument) in arguments.iter().enumerate() {
        if argument.text() == ":" && i >= 2 {
            return Ok((&arguments[2..i], &arguments[i + 1..]));
        }
    }
    Err(Fault::Usage)
}

// The growable of this name over arrays of one data type that are lent. A space stands before the answer of each step.
fn run(
    alloc: Global,
    name: &str,
    arrays: &[&AnyArray],
    plan: &Plan,
    out: &mut String,
) -> Result<(), Fault> {
    if !are_of_one_type(arrays) {
        return Err(Fault::Usage);
    }
    if name == "make_growable" {
        return run_any(alloc, arrays, plan, out);
    }
    let physical_type = arrays[0].data_type().to_physical_type();
    if name != name_for(physical_type) {
        return Err(Fault::Usage);
    }
    run_typed(alloc, arrays, physical_type, plan, out)
}

// The name of the growable over arrays that lie in memory so.
fn name_for(physical_type: PhysicalType) -> &'static str {
    match physical_type {
        PhysicalType::Null => "GrowableNull",
        PhysicalType::Boolean => "GrowableBoolean",
        PhysicalType::Primitive(_) => "GrowablePrimitive",
        PhysicalType::Utf8 | PhysicalType::LargeUtf8 => "GrowableUtf8",
        PhysicalType::Binary | PhysicalType::LargeBinary => "GrowableBinary",
        PhysicalType::FixedSizeBinary => "GrowableFixedSizeBinary",
        PhysicalType::List | PhysicalType::LargeList => "GrowableList",
        PhysicalType::FixedSizeList => "GrowableFixedSizeList",
        PhysicalType::Struct => "GrowableStruct",
        PhysicalType::Union => "GrowableUnion",
        PhysicalType::Map => "GrowableMap",
        PhysicalType::Dictionary(_) => "GrowableDictionary",
    }
}

// A growable of arrays of any type, which becomes no array.
fn run_any(alloc: Global, arrays: &[&AnyArray], plan: &Plan, out: &mut String) -> Result<(), Fault>
    requires some { 0 < length arrays.now }
    requires one_type { AreOfOneType (layouts_in arrays.now) }
{
    if plan.is_consumed {
        return Err(Fault::Usage);
    }
    let mut growable = make_growable(alloc, arrays, plan.use_validity, plan.capacity)?;
    match &mut growable {
        AnyGrowable::Null(growable) => run_actions(growable, arrays, plan, out),
        AnyGrowable::Boolean(growable) => run_actions(growable, arrays, plan, out),
        AnyGrowable::Primitive(growable) => run_actions(growable, arrays, plan, out),
        AnyGrowable::Utf8(growable) => run_actions(growable, arrays, plan, out),
        AnyGrowable::LargeUtf8(growable) => run_actions(growable, arrays, plan, out),
        AnyGrowable::Binary(growable) => run_actions(growable, arrays, plan, out),
        AnyGrowable::LargeBinary(growable) => run_actions(growable, arrays, plan, out),
        AnyGrowable::FixedSizeBinary(growable) => run_actions(growable, arrays, plan, out),
        AnyGrowable::Nested(growable) => run_actions(growable, arrays, plan, out),
        AnyGrowable::Dictionary(growable) => run_actions(growable, arrays, plan, out),
        AnyGrowable::Union(growable) => run_actions(growable, arrays, plan, out),
    }
}
