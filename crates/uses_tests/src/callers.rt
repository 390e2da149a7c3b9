//! The callers of `uses`, with answers that were worked out by hand.

use arrow_arrays::array::AnyArray;
use arrow_arrays::chunk::Chunk;
use arrow_flat::array::{AnyPrimitive, BooleanArray, PrimitiveArray};
use arrow_text::fault::Fault;
use arrow_types::error::Error;
use std::alloc::Global;
use test_lines::arrays::{is_made, numbers, truths};
use test_lines::lines::{Answer, Line, PLAIN, wrong_line};
use uses::batch::{rows_above, rows_at};
use uses::coalesce::coalesced;
use uses::csv::with_numbers;
use uses::distinct::is_distinct;
use uses::guide::picked;
use uses::merge::merged;
use uses::store::FilterStore;

/// What is tested, by name.
const ANSWERS: [(&str, Answer); 9] = [
    ("picked", makes),
    ("with_numbers", makes),
    ("coalesced", makes),
    ("is_distinct", tells),
    ("merged", merges),
    ("parts", shares),
    ("rows_above", keeps),
    ("rows_above_a_text", keeps),
    ("rows_at", keeps),
];

// Numbers of 64 bits.
fn longs(array: &AnyArray) -> Result<&PrimitiveArray<i64>, Fault> {
    match array {
        AnyArray::Primitive(AnyPrimitive::Int64(longs)) => Ok(longs),
        _ => Err(Fault::Usage),
    }
}

// Places.
fn places(array: &AnyArray) -> Result<&PrimitiveArray<u32>, Fault> {
    match array {
        AnyArray::Primitive(AnyPrimitive::UInt32(places)) => Ok(places),
        _ => Err(Fault::Usage),
    }
}

// The bits of a mask.
fn bits(alloc: Global, mask: &BooleanArray) -> Result<Vec<bool>, Error> {
    let mut bits = Vec::with_capacity(alloc, mask.len())?;
    for i in 0..mask.len() {
        bits.push(mask.value(i))?;
    }
    Ok(bits)
}

// The rows of an array of texts.
fn texts(alloc: Global, array: &AnyArray) -> Result<Vec<&str>, Fault> {
    let AnyArray::Utf8(array) = array else {
        return Err(Fault::Usage);
    };
    let mut texts = Vec::with_capacity(alloc, array.len())?;
    for i in 0..array.len() {
        texts.push(array.value(i))?;
    }
    Ok(texts)
}

// Whether a call of two arrays, or of an array, a mask and places, makes the last array.
fn makes(alloc: Global, name: &str, arrays: &[AnyArray]) -> Result<bool, Fault> {
    match (name, arrays) {
        ("picked", [array, mask, rows, wanted]) => {
            let mask = bits(alloc, truths(mask)?)?;
            is_made(alloc, picked(alloc, array, &mask, places(rows)?), wanted)
        }
        ("with_numbers", [column, rows, wanted]) => {
            let rows = texts(alloc, rows)?;
            is_made(alloc, with_numbers(alloc, column, &rows), wanted)
        }
        (_, [first, second, wanted]) => is_made(alloc, coalesced(alloc, first, second), wanted),
        _ => Err(Fault::Usage),
    }
}

// Whether the rows of an array are distinct, as the one row of the last array says.
fn tells(alloc: Global, _name: &str, arrays: &[AnyArray]) -> Result<bool, Fault> {
    let [column, wanted] = arrays else {
        return Err(Fault::Usage);
    };
    let wanted = bits(alloc, truths(wanted)?)?;
    Ok(wanted.as_slice() == [is_distinct(alloc, column)?].as_slice())
}

// Whether two sorted columns make the last one.
fn merges(alloc: Global, _name: &str, arrays: &[AnyArray]) -> Result<bool, Fault> {
    let [left, right, wanted] = arrays else {
        return Err(Fault::Usage);
    };
    Ok(merged(alloc, longs(left)?, longs(right)?)? == *longs(wanted)?)
}

// Whether a filter that is built of a predicate has these two parts of a column, and no other filter is stored.
fn shares(alloc: Global, _name: &str, arrays: &[AnyArray]) -> Result<bool, Fault> {
    let [column, predicate, first, second] = arrays else {
        return Err(Fault::Usage);
    };
    let mut store = FilterStore::new(alloc);
    let number = store.add(truths(predicate)?)?;
    let parts = store.parts(number, column)?;
    let [left, right] = parts.as_slice() else {
        return Ok(false);
    };
    Ok((*left == *first) & (*right == *second) & store.parts(1, column).is_err())
}

// Whether a call of a batch of two columns and of numbers, places or a bound, makes a batch of the last two.
fn keeps(alloc: Global, name: &str, arrays: &[AnyArray]) -> Result<bool, Fault> {
    let [names, values, rows, wanted_names, wanted_values] = arrays else {
        return Err(Fault::Usage);
    };
    let batch = Chunk::try_new(vec![in alloc; names.clone()?, values.clone()?]?)?;
    let made = match name {
        "rows_above" => rows_above(alloc, &batch, 1, bound(rows)?)?,
        "rows_at" => rows_at(alloc, &batch, places(rows)?)?,
        _ => rows_above(alloc, &batch, 0, bound(rows)?)?,
    };
    let [names, values] = made.arrays() else {
        return Ok(false);
    };
    Ok((*names == *wanted_names) & (*values == *wanted_values))
}

// The one number of an array.
fn bound(array: &AnyArray) -> Result<i64, Fault> {
    let bound = longs(array)?;
    if bound.len() != 1 {
        return Err(Fault::Usage);
    }
    Ok(bound.value(0))
}

/// A call, what it takes, and what is wanted.
const LINES: [Line; 17] = [
    [
        "picked utf8[\"ant\",\"bee\",\"cat\"] bool[t,f,t] u32[1,0] utf8[\"cat\",\"ant\"]",
        "",
    ],
    [
        "picked utf8[\"ant\",\"bee\",\"cat\"] bool[t,f,t] u32[2] utf8[]",
        "error Lengths",
    ],
    [
        "picked utf8[\"ant\"] bool[t,f] u32[] utf8[]",
        "error Lengths",
    ],
    [
        "with_numbers i32[1,_] utf8[\"-3\",\"2147483648\",\"x\"] i32[1,_,-3,_,_]",
        "",
    ],
    [
        "with_numbers i64[1] utf8[\"2\"] i64[1,2]",
        "error ConcatenateTypes",
    ],
    ["coalesced i32[1,_,-3,_] i32[9,8,_,_] i32[1,8,-3,_]", ""],
    ["coalesced i32[1] i64[1] i32[1]", "error IfThenElseTypes"],
    ["is_distinct i32[1,8,-3,6] bool[t]", ""],
    ["is_distinct i32[4,5,5] bool[f]", ""],
    ["is_distinct i32[_,_] bool[t]", ""],
    ["is_distinct list<i32>[[1]] bool[t]", "error Caller(0)"],
    ["merged i64[_,2,5] i64[1,5,6] i64[_,1,2,5,5,6]", ""],
    ["parts i32[1,2,3,4] bool[t,t,f,t] i32[1,2] i32[4]", ""],
    [
        "rows_above utf8[\"a\",\"b\",\"c\"] i64[7,_9,8] i64[7] utf8[\"c\"] i64[8]",
        "",
    ],
    [
        "rows_above_a_text utf8[\"a\"] i64[7] i64[7] utf8[] i64[]",
        "error Caller(0)",
    ],
    [
        "rows_at utf8[\"a\",\"b\",\"c\"] i64[7,_9,8] u32[2,0] utf8[\"c\",\"a\"] i64[8,7]",
        "",
    ],
    [
        "rows_at utf8[\"a\"] i64[7] u32[1] utf8[] i64[]",
        "error Lengths",
    ],
];

#[test]
fn callers(rt: HostRuntime) {
    assert_eq!(rt; wrong_line(rt.alloc(), &ANSWERS, &LINES, &PLAIN), None);
}
