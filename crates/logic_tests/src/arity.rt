//! Kernels that call a closure at each stored value, beneath nulls too.

use arrow_arrays::array::AnyArray;
use arrow_flat::array::AnyPrimitive;
use arrow_logic::arity::{
    binary, binary_checked, binary_with_bitmap, try_binary, try_unary, unary, unary_checked,
    unary_with_bitmap,
};
use arrow_text::fault::Fault;
use arrow_types::datatypes::DataType;
use arrow_types::error::{ArgumentFault, Error};
use arrow_types::types::{days_ms, i256};
use std::alloc::Global;
use test_lines::arrays::{are_same_numbers, numbers, truths};
use test_lines::lines::{Answer, Form, Line, PLAIN, wrong_line};

/// The kernels, by name.
const ANSWERS: [(&str, Answer); 10] = [
    ("unary", gives_numbers),
    ("try_unary", gives_numbers),
    ("unary_checked", gives_numbers),
    ("unary_with_bitmap", gives_numbers_and_bits),
    ("unary_of_wide", turns),
    ("binary", gives_numbers),
    ("try_binary", gives_numbers),
    ("binary_checked", gives_numbers),
    ("binary_with_bitmap", gives_numbers_and_bits),
    ("binary_of_days", adds_days),
];

// One more than a number that is neither 0 nor 9, for each of which there is an error.
fn accepted(x: i32) -> Result<i32, Error> {
    match x {
        0 => Err(Error::InvalidArgumentError(ArgumentFault::Caller(7))),
        9 => Err(Error::InvalidArgumentError(ArgumentFault::Caller(8))),
        _ => Ok(x.wrapping_add(1)),
    }
}

// Whether a kernel makes these numbers of one array, or of two: one more than each number, as dates, the same with errors, ten
// by each but 0; twice each number and the other one, one more than the other one with errors, and each by the other one.
fn gives_numbers(alloc: Global, name: &str, arrays: &[AnyArray]) -> Result<bool, Fault> {
    let [left, right, ..] = arrays else {
        return Err(Fault::Usage);
    };
    let lhs = numbers(left)?;
    let rhs = numbers(right)?;
    let wanted = numbers(arrays.last().unwrap_or(right))?;
    let are_as_long = lhs.len() == rhs.len();
    let made = match name {
        "unary" => unary(alloc, lhs, |x: i32| x.wrapping_add(1), DataType::Date32),
        "try_unary" => try_unary(alloc, lhs, accepted, DataType::Date32),
        "unary_checked" => {
            unary_checked(alloc, lhs, |x: i32| 10i32.checked_div(x), DataType::Int32)
        }
        "binary" if are_as_long => binary(alloc, lhs, rhs, DataType::Int32, twice_and),
        "try_binary" => {
            let op = |_x: i32, y: i32| accepted(y);
            try_binary(alloc, lhs, rhs, DataType::Int32, op)
        }
        "binary_checked" if are_as_long => {
            let op = |x: i32, y: i32| x.checked_div(y);
            binary_checked(alloc, lhs, rhs, DataType::Int32, op)
        }
        _ => return Err(Fault::Usage),
    }?;
    Ok(are_same_numbers(&made, wanted))
}

// Twice the first, and the second.
fn twice_and(x: i32, y: i32) -> i32 {
    x.wrapping_mul(2).wrapping_add(y)
}

// Whether a kernel makes these numbers, and these bits: the numbers themselves and which are 0, or twice each number and the
// other one, and which are less than the other one.
fn gives_numbers_and_bits(alloc: Global, name: &str, arrays: &[AnyArray]) -> Result<bool, Fault> {
    let [left, right, wanted, bits] = arrays else {
        return Err(Fault::Usage);
    };
    let lhs = numbers(left)?;
    let rhs = numbers(right)?;
    let wanted = numbers(wanted)?;
    let wanted_bits = truths(bits)?.values();
    let made = if name == "unary_with_bitmap" {
        unary_with_bitmap(alloc, lhs, |x: i32| (x, x == 0), DataType::Int32)
    } else if lhs.len() == rhs.len() {
        let op = |x: i32, y: i32| (twice_and(x, y), x < y);
        binary_with_bitmap(alloc, lhs, rhs, DataType::Int32, op)
    } else {
        return Err(Fault::Usage);
    };
    let (made, made_bits) = made?;
    Ok(are_same_numbers(&made, wanted) && made_bits == *wanted_bits)
}

// Whether these are numbers of 256 bits whose bits are all turned.
fn turns(alloc: Global, _name: &str, arrays: &[AnyArray]) -> Result<bool, Fault> {
    match arrays {
        [
            AnyArray::Primitive(AnyPrimitive::Int256(array)),
            AnyArray::Primitive(AnyPrimitive::Int256(wanted)),
        ] => {
            let op = |x: i256| i256::new(!x.high(), !x.low());
            let made = unary(alloc, array, op, DataType::Decimal256(76, 2))?;
            Ok(made == *wanted)
        }
        _ => Err(Fault::Usage),
    }
}

// Whether these are numbers of 64 bits with the days of intervals added.
fn adds_days(alloc: Global, _name: &str, arrays: &[AnyArray]) -> Result<bool, Fault> {
    match arrays {
        [
            AnyArray::Primitive(AnyPrimitive::Int64(lhs)),
            AnyArray::Primitive(AnyPrimitive::DaysMs(rhs)),
            AnyArray::Primitive(AnyPrimitive::Int64(wanted)),
        ] if lhs.len() == rhs.len() => {
            let op = |x: i64, y: days_ms| x.checked_add(i64::from(y.days()));
            let made = binary_checked(alloc, lhs, rhs, DataType::Int64, op)?;
            Ok(made == *wanted)
        }
        _ => Err(Fault::Usage),
    }
}

/// Rows at which a closure answers errors, which may lie beneath nulls, or arrays whose lengths differ, and the first error.
/// Numbers of 256 bits; numbers of 64 bits beside intervals.
const LINES: [Line; 13] = [
    ["try_unary i32[1,_0] i32[]", "error Caller(7)"],
    ["try_unary i32[5,_0,9] i32[]", "error Caller(7)"],
    ["try_unary i32[5,9,_0] i32[]", "error Caller(8)"],
    ["try_unary i32[_9] i32[]", "error Caller(8)"],
    ["try_unary i32[0] i32[]", "error Caller(7)"],
    ["try_binary i32[1] i32[1,2] i32[]", "error Lengths"],
    ["try_binary i32[1,2] i32[1] i32[]", "error Lengths"],
    ["try_binary i32[5] i32[] i32[]", "error Lengths"],
    ["try_binary i32[5,5] i32[3,_0] i32[]", "error Caller(7)"],
    ["try_binary i32[5,5] i32[9,_0] i32[]", "error Caller(8)"],
    ["try_binary i32[_0,_1] i32[_0,9] i32[]", "error Caller(7)"],
    [
        "unary_of_wide decimal256<76,2>[0:5,_-1:0,7:340282366920938463463374607431768211455] \
         decimal256<76,2>[-1:340282366920938463463374607431768211450,_,-8:0]",
        "",
    ],
    [
        "binary_of_days i64[10,20,9223372036854775807,1] interval<day_time>[1:0,-2:5,3:0,_5:0] i64[11,18,_,_]",
        "",
    ],
];

/// Arrays with nulls and without, and what the kernels make of them.
const FORMED: [Line; 11] = [
    ["unary i32[1,_1,0,_0,2,5,3] date32[2,_2,1,_1,3,6,4]", ""],
    ["try_unary i32[1,_1,3,_4,2,5,3] date32[2,_2,4,_5,3,6,4]", ""],
    [
        "unary_checked i32[1,_1,0,_0,2,5,3] i32[10,_10,_0,_0,5,2,3]",
        "",
    ],
    [
        "binary i32[1,_1,0,_0,2,5,3] i32[2,_0,3,_1,1,0,_2] i32[4,_2,3,_1,5,10,_8]",
        "",
    ],
    // nulls on one side alone, and on none
    [
        "binary i32[1,_1,0,_0,2,5,3] i32[2,0,3,1,1,0,2] i32[4,_2,3,_1,5,10,8]",
        "",
    ],
    [
        "binary i32[1,1,0,0,2,5,3] i32[2,_0,3,_1,1,0,_2] i32[4,_2,3,_1,5,10,_8]",
        "",
    ],
    [
        "binary i32[1,1,0,0,2,5,3] i32[2,0,3,1,1,0,2] i32[4,2,3,1,5,10,8]",
        "",
    ],
    [
        "try_binary i32[1,_1,0,_0,2,5,3] i32[2,_1,3,_1,1,8,_2] i32[3,_2,4,_2,2,9,_3]",
        "",
    ],
    [
        "binary_checked i32[1,_1,0,_0,2,5,3] i32[2,_0,3,_1,1,0,_2] i32[0,_0,0,_0,2,_0,_1]",
        "",
    ],
    [
        "unary_with_bitmap i32[1,_1,0,_0,2,5,3] i32[1,_1,0,_0,2,5,3] i32[1,_1,0,_0,2,5,3] bool[f,f,t,t,f,f,f]",
        "",
    ],
    [
        "binary_with_bitmap i32[1,_1,0,_0,2,5,3] i32[2,_0,3,_1,1,0,_2] i32[4,_2,3,_1,5,10,_8] bool[t,f,t,t,f,f,f]",
        "",
    ],
];

/// How often each row of them comes, and which rows are taken.
const FORMS: [Form; 10] = [
    [",", "]"],
    [",", "]@0+0"],
    [",", "]@0+1"],
    [",", "]@2+5"],
    ["*9,", "*9]"],
    ["*10,", "*10]@0+64"],
    ["*10,", "*10]@1+64"],
    ["*20,", "*20]@0+130"],
    ["*20,", "*20]@63+67"],
    ["*20,", "*20]@66+64"],
];

#[test]
fn arity(rt: HostRuntime) {
    assert_eq!(rt; wrong_line(rt.alloc(), &ANSWERS, &LINES, &PLAIN), None);
    assert_eq!(rt; wrong_line(rt.alloc(), &ANSWERS, &FORMED, &FORMS), None);
}
