//! Calls of columns of one length.

use arrow_arrays::chunk::Chunk;
use arrow_text::call::Call;
use arrow_text::fault::Fault;
use arrow_text::given::Arrays;
use arrow_text::write::{show, write_array, write_arrays};
use std::alloc::Global;

// The arguments as the columns of a chunk.
fn made(alloc: Global, call: &Call<'_>) -> Result<Chunk, Fault> {
    Ok(Chunk::try_new(call.arrays(alloc, 0)?.into_inner())?)
}

// How many rows there are, and the columns.
pub(crate) fn try_new(alloc: Global, call: &Call<'_>, out: &mut String) -> Result<(), Fault> {
    let chunk = made(alloc, call)?;
    write_chunk(out, &chunk)
}

// The same of a chunk that is lent.
fn write_chunk(out: &mut String, chunk: &Chunk) -> Result<(), Fault> {
    show(out, chunk.len())?;
    for array in chunk.arrays() {
        out.push(' ')?;
        write_array(out, array)?;
    }
    Ok(())
}

// The columns, no longer bound to one length.
pub(crate) fn into_arrays(alloc: Global, call: &Call<'_>, out: &mut String) -> Result<(), Fault> {
    let arrays = made(alloc, call)?.into_arrays();
    let arrays = Arrays { arrays };
    write_arrays(out, &arrays.arrays)
}
