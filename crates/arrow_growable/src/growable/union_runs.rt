//! Runs of rows of one field in an array of unions.

ghost use Rattle.std.specs.Prelude.{◌≡◌, ◌+◌, ◌^◌, ◌<◌, ◌≤◌, ◌↔◌, ◌≤ℤ◌, IsTrue, All, pos, length, map, replicate, slice_index_or};
ghost use Rattle.std.specs.List.{range_with_len};
ghost use Rattle.arrow_memory.specs.Sliced.{sliced};
ghost use Rattle.arrow_arrays.specs.UnionParts.{child_row_of, child_rows_by};
ghost use Rattle.arrow_growable.specs.UnionRuns.{IsRun};

use arrow_arrays::array::UnionArray;
use arrow_types::types::Index;

// The field of row `row` and the row of its child, and how many rows from there on, up to `end`, are of that field
// and lie one behind the other in its child.
pub(crate) fn run_of(array: &UnionArray, row: usize, end: usize) -> (usize, usize, usize)
    requires some { row < end }
    requires part { end ≤ length array.now.types }
    ensures some { 0 < result.2 }
    ensures part { row + result.2 ≤ end }
    ensures run { IsRun array.now row result.0 result.1 result.2 }
{
    // There is a child for each field.
    let _ = array.fields();
    let (field, child_row) = array.index(row);
    let count = run_length(array, row, end);
    // The last of these rows lies in the child too.
    prove!(child_row <= array.index(row + count - 1).1);
    (field, child_row, count)
}

// How many rows they are.
fn run_length(array: &UnionArray, row: usize, end: usize) -> usize
    requires some { row < end }
    requires part { end ≤ length array.now.types }
    ensures some { 0 < result }
    ensures part { row + result ≤ end }
    ensures types { sliced array.now.types row result
        ≡ replicate result (slice_index_or array.now.types row (pos 0)) }
    ensures places { sliced (child_rows_by array.now.child_rows array.now.start
        (length array.now.types)) row result
        ≡ range_with_len (slice_index_or
        (child_rows_by array.now.child_rows array.now.start (length array.now.types)) row 0) result }
{
    let ids = array.types().as_slice();
    // A dense union has an offset for each row.
    let _ = array.fields();
    match array.offsets() {
        None => same_ids(ids, row, end),
        Some(offsets) => risen(ids, offsets.as_slice(), row, end),
    }
}

// How many type ids from `start` on, up to `end`, are the same.
fn same_ids(ids: &[i8], start: usize, end: usize) -> usize
    requires some { start < end }
    requires part { end ≤ length ids.now }
    ensures some { 0 < result }
    ensures part { start + result ≤ end }
    ensures same { sliced ids.now start result ≡ replicate result (slice_index_or ids.now start (pos 0)) }
{
    let id = ids[start];
    let mut count = 1;
    while count < end - start && ids[start + count] == id {
        count += 1;
    }
    count
}

// How many from `start` on, up to `end`, have the same type id, and offsets of which each is the next number.
fn risen(ids: &[i8], offsets: &[i32], start: usize, end: usize) -> usize
    requires some { start < end }
    requires part { end ≤ length ids.now }
    requires covered { end ≤ length offsets.now }
    requires natural { All (λ z. pos 0 ≤ℤ z) offsets.now }
    ensures some { 0 < result }
    ensures part { start + result ≤ end }
    ensures same { sliced ids.now start result ≡ replicate result (slice_index_or ids.now start (pos 0)) }
    ensures risen { sliced (map child_row_of offsets.now) start result
        ≡ range_with_len (child_row_of (slice_index_or offsets.now start (pos 0))) result }
{
    let id = ids[start];
    let mut next = offsets[start].to_usize() + 1;
    let mut count = 1;
    while count < end - start && follows(ids, offsets, start + count, id, next) {
        count += 1;
        next += 1;
    }
    count
}

// Whether a row has a type id and an offset.
fn follows(ids: &[i8], offsets: &[i32], row: usize, id: i8, next: usize) -> bool
    requires typed { row < length ids.now }
    requires placed { row < length offsets.now }
    requires natural { All (λ z. pos 0 ≤ℤ z) offsets.now }
    ensures same { IsTrue result → slice_index_or ids.now row (pos 0) ≡ id }
    ensures next { IsTrue result → child_row_of (slice_index_or offsets.now row (pos 0)) ≡ next }
    ensures small { IsTrue result → next < 2 ^ 31 }
{
    ids[row] == id && offsets[row].to_usize() == next
}
