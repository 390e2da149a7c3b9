//! Rows at which a predicate is true.

ghost use Rattle.std.specs.Prelude.{IsTrue};
ghost use Rattle.arrow_arrays.specs.StructParts.{HaveRows};

use crate::select::lists::{as_any, as_boolean, as_primitive};
use arrow_arrays::chunk::Chunk;
use arrow_flat::array::{AnyElement, AnyPrimitive, PrimitiveArray};
use arrow_memory::buffer::Buffer;
use arrow_select::filter::{Filter, build_filter, extend_from_word, filter, filter_chunk};
use arrow_text::call::Call;
use arrow_text::fault::Fault;
use arrow_text::given::Array;
use arrow_text::piece::Piece;
use arrow_text::read::read_array;
use arrow_text::write::{show, write_arrays, write_made, write_made_or_name, write_name};
use std::alloc::Global;

// The rows of an array at which a predicate is true.
pub(crate) fn answer_filter(alloc: Global, call: &Call<'_>, out: &mut String) -> Result<(), Fault> {
    let given = call.pair(alloc, 0)?;
    let predicate = as_boolean(&given.right)?;
    if given.left.len() != predicate.len() {
        return Err(Fault::Usage);
    }
    write_made(out, filter(alloc, &given.left, predicate))
}

// The rows of each column of a batch at which a predicate is true, and `none` where there is no column.
pub(crate) fn answer_chunk(alloc: Global, call: &Call<'_>, out: &mut String) -> Result<(), Fault> {
    let given = call.array(alloc, 0)?;
    let columns = Chunk::try_new(call.arrays(alloc, 1)?.into_inner())?;
    let predicate = as_boolean(&given.array)?;
    if !have_rows(&columns, predicate.len()) {
        return Err(Fault::Usage);
    }
    let kept = filter_chunk(alloc, &columns, predicate)?;
    write_arrays(out, kept.arrays())
}

// Whether each column has so many rows.
fn have_rows(columns: &Chunk, len: usize) -> bool
    ensures { IsTrue result → HaveRows len columns.now }
{
    columns.arrays().is_empty() || columns.len() == len
}

// A prepared filter: how many rows it keeps and of how many, and of each array the rows that it keeps, or why it refuses.
pub(crate) fn answer_prepared(
    alloc: Global,
    call: &Call<'_>,
    out: &mut String,
) -> Result<(), Fault> {
    let prepared = read_filter(alloc, call.argument(0)?)?;
    let given = call.arrays(alloc, 1)?;
    show(out, prepared.count())?;
    out.push(' ')?;
    show(out, prepared.mask_len())?;
    for array in &given.arrays {
        if prepared.mask_len() != array.len() {
            return Err(Fault::Usage);
        }
        out.push(' ')?;
        write_made_or_name(out, prepared.apply(array))?;
    }
    Ok(())
}

// The filter of the predicate that a piece of a line says.
pub(crate) fn read_filter(alloc: Global, piece: Piece<'_>) -> Result<Filter, Fault> {
    let predicate = Array {
        array: read_array(alloc, piece)?,
    };
    Ok(build_filter(alloc, as_boolean(&predicate.array)?)?)
}

// The values of an array behind which those of another stand whose bit in a word is set; where that is refused, its name, and the
// values that are there then.
pub(crate) fn answer_word(alloc: Global, call: &Call<'_>, out: &mut String) -> Result<(), Fault> {
    let word = call.integer_of(3, 2)?;
    let grown = call.array(alloc, 0)?;
    let values = call.array(alloc, 1)?;
    let values = as_primitive(&values.array)?;
    match as_primitive(&grown.array)? {
        AnyPrimitive::Int8(grown) => extend(alloc, grown, values, word, out),
        AnyPrimitive::Int16(grown) => extend(alloc, grown, values, word, out),
        AnyPrimitive::Int32(grown) => extend(alloc, grown, values, word, out),
        AnyPrimitive::Int64(grown) => extend(alloc, grown, values, word, out),
        AnyPrimitive::Int128(grown) => extend(alloc, grown, values, word, out),
        AnyPrimitive::Int256(grown) => extend(alloc, grown, values, word, out),
        AnyPrimitive::UInt8(grown) => extend(alloc, grown, values, word, out),
        AnyPrimitive::UInt16(grown) => extend(alloc, grown, values, word, out),
        AnyPrimitive::UInt32(grown) => extend(alloc, grown, values, word, out),
        AnyPrimitive::UInt64(grown) => extend(alloc, grown, values, word, out),
        AnyPrimitive::DaysMs(grown) => extend(alloc, grown, values, word, out),
        AnyPrimitive::MonthDayNano(grown) => extend(alloc, grown, values, word, out),
    }
}

// The same of arrays of one data type, without nulls, of which the second has a word of values at most.
fn extend<T: AnyElement>(
    alloc: Global,
    grown: &PrimitiveArray<T>,
    values: &AnyPrimitive,
    word: u64,
    out: &mut String,
) -> Result<(), Fault> {
    let are_alike = *grown.data_type() == *values.data_type();
    if !are_alike {
        return Err(Fault::Usage);
    }
    let values = T::of_any(values);
    if grown.null_count() > 0 || values.null_count() > 0 || values.len() > 64 {
        return Err(Fault::Usage);
    }
    let mut items = Vec::from_slice(alloc, grown.values().as_slice())?;
    if let Err(error) = extend_from_word(&mut items, values.values().as_slice(), word) {
        write_name(out, error)?;
        out.push(' ')?;
    }
    let items = Buffer::from_vec(alloc, items)?;
    let array = PrimitiveArray::<T>::try_new(grown.data_type().clone()?, items, None)?;
    write_made(out, as_any(&array))
}
