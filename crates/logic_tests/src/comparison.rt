//! Comparisons by a closure of the caller's own, which is handed eight numbers, or a word of truth values, at once.

use arrow_arrays::array::AnyArray;
use arrow_relate::comparison::{boolean, primitive};
use arrow_text::fault::Fault;
use std::alloc::Global;
use std::cell::Cell;
use test_lines::arrays::{numbers, truths};
use test_lines::lines::{Answer, Form, Line, PLAIN, wrong_line};

/// The kernels, by what their closures tell.
const ANSWERS: [(&str, Answer); 4] = [
    ("eighth_is_0", of_chunks),
    ("less", of_chunks),
    ("less_than_true", of_words),
    ("all_but_one", of_words),
];

// Which of eight numbers are less than the other one at its place, a bit each.
fn less(left: [i32; 8], right: [i32; 8]) -> u8 {
    let mut byte = 0;
    for k in 0..8 {
        byte |= u8::from(left[k] < right[k]) << k;
    }
    byte
}

// Whether these are the rows that a closure answers of numbers, eight at a time and beside copies of 5, in a call for each
// eight: which are less, or all of them where the eighth number is 0.
fn of_chunks(alloc: Global, name: &str, arrays: &[AnyArray]) -> Result<bool, Fault> {
    let [array, wanted] = arrays else {
        return Err(Fault::Usage);
    };
    let lhs = numbers(array)?;
    let calls = Cell::new(0usize);
    let op = |left: [i32; 8], right: [i32; 8]| {
        calls.set(calls.get().wrapping_add(1));
        if name == "less" {
            less(left, right)
        } else if left[7] == 0 && right[7] == 5 {
            255
        } else {
            0
        }
    };
    let made = primitive::compare_op_scalar(alloc, lhs, 5, op)?;
    Ok(made == *truths(wanted)? && calls.get() == lhs.len().div_ceil(8))
}

// Whether these are the rows that a closure answers of truth values, a word at a time, in a call for each: which come
// before true, or the rows themselves, but none where the first alone is true.
fn of_words(alloc: Global, name: &str, arrays: &[AnyArray]) -> Result<bool, Fault> {
    let [array, wanted] = arrays else {
        return Err(Fault::Usage);
    };
    let lhs = truths(array)?;
    let is_less = name == "less_than_true";
    let calls = Cell::new(0usize);
    let op = |left: u64, right: u64| {
        calls.set(calls.get().wrapping_add(1));
        if is_less {
            !left & right
        } else if left == 1 {
            right
        } else {
            left
        }
    };
    let made = boolean::compare_op_scalar(alloc, lhs, is_less, op)?;
    Ok(made == *truths(wanted)? && calls.get() == lhs.len().div_ceil(64))
}

/// Whole chunks, the last one filled, beneath nulls too.
const LINES: [Line; 6] = [
    ["eighth_is_0 i32[1*9] bool[f*8,t]", ""],
    ["eighth_is_0 i32[1*8,_1] bool[f*8,_]", ""],
    ["eighth_is_0 i32[1*7,_0] bool[t*7,_]", ""],
    ["less_than_true bool[t,_t,f] bool[f,_,t]", ""],
    ["all_but_one bool[t*65] bool[t*64,f]", ""],
    ["all_but_one bool[t] bool[f]", ""],
];

/// Rows of which parts are compared.
const PARTS: [Line; 2] = [
    [
        "less i32[1,_9,7,5,3,8,_2,6,4,0,9,_4,2,5,7,1] bool[t,_,f,f,t,f,_,f,t,t,f,_,t,f,f,t]",
        "",
    ],
    [
        "less_than_true bool[t,f,_t,f,t,t,_f,f,t,f,f,_t,t,f,t,f] bool[f,t,_,t,f,f,_,t,f,t,t,_,f,t,f,t]",
        "",
    ],
];

/// Each row comes nine times, and so many rows from one on are taken: so bits and validities begin anywhere in a word.
const FORMS: [Form; 16] = [
    ["*9,", "*9]@0+0"],
    ["*9,", "*9]@1+1"],
    ["*9,", "*9]@2+7"],
    ["*9,", "*9]@3+8"],
    ["*9,", "*9]@4+9"],
    ["*9,", "*9]@5+63"],
    ["*9,", "*9]@6+64"],
    ["*9,", "*9]@7+65"],
    ["*9,", "*9]@8+130"],
    ["*9,", "*9]@0+130"],
    ["*9,", "*9]@1+64"],
    ["*9,", "*9]@2+65"],
    ["*9,", "*9]@3+63"],
    ["*9,", "*9]@5+7"],
    ["*9,", "*9]@7+9"],
    ["*9,", "*9]@8+8"],
];

#[test]
fn comparison(rt: HostRuntime) {
    assert_eq!(rt; wrong_line(rt.alloc(), &ANSWERS, &LINES, &PLAIN), None);
    assert_eq!(rt; wrong_line(rt.alloc(), &ANSWERS, &PARTS, &FORMS), None);
}
