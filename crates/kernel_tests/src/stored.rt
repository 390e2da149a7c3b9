//! What kernels store, beneath nulls too.

ghost use Rattle.std.specs.Prelude.{◌≡◌, IsTrue};
ghost use Rattle.arrow_arrays.specs.Any.{any_array_type};

use arrow_arrays::array::AnyArray;
use arrow_growable::growable::{Growable, make_growable};
use arrow_logic::length::length;
use arrow_logic::nullif::{can_nullif, nullif};
use arrow_logic::substring::substring;
use arrow_text::fault::Fault;
use arrow_text::given::Array;
use arrow_types::error::Error;
use std::alloc::Global;
use test_lines::arrays::{are_same_numbers, numbers};
use test_lines::lines::{Answer, Line, PLAIN, wrong_line};

/// The kernels, by name.
const ANSWERS: [(&str, Answer); 4] = [
    ("length", stores),
    ("substring", stores),
    ("nullif", stores),
    ("growable", grows),
];

// Whether a call made an array that is equal to another one, beneath nulls too: of numbers, of texts, or by its keys.
fn is_same(
    alloc: Global,
    outcome: Result<AnyArray, Error>,
    wanted: &AnyArray,
) -> Result<bool, Fault> {
    let made = Array::new(alloc, outcome?)?;
    if let AnyArray::Utf8(made) = &*made.array {
        return match wanted {
            AnyArray::Utf8(wanted) => {
                Ok(*made == *wanted && made.values().as_slice() == wanted.values().as_slice())
            }
            _ => Err(Fault::Usage),
        };
    }
    Ok(are_same_numbers(numbers(&made.array)?, numbers(wanted)?))
}

// Whether a kernel makes this array: how long texts are, the second character of each, or the rows of the first array, null
// where they equal those of the second.
fn stores(alloc: Global, name: &str, arrays: &[AnyArray]) -> Result<bool, Fault> {
    match arrays {
        [array, wanted] if name == "length" => is_same(alloc, length(alloc, array), wanted),
        [array, wanted] => is_same(alloc, substring(alloc, array, 1, &Some(1)), wanted),
        [lhs, rhs, wanted]
            if lhs.len() == rhs.len() && can_nullif(lhs.data_type(), rhs.data_type()) => {
            is_same(alloc, nullif(alloc, lhs, rhs), wanted)
        }
        _ => Err(Fault::Usage),
    }
}

// Whether two arrays are of one type.
fn are_alike(lhs: &AnyArray, rhs: &AnyArray) -> bool
    ensures { IsTrue result → any_array_type lhs.now ≡ any_array_type rhs.now }
{
    *lhs.data_type() == *rhs.data_type()
}

// Whether one growable makes the first two rows of the first array, and then of its second row, a null, and the first two rows
// of the second array behind them the last one.
fn grows(alloc: Global, _name: &str, arrays: &[AnyArray]) -> Result<bool, Fault> {
    match arrays {
        [lhs, rhs, first, last] if are_alike(lhs, rhs) && lhs.len() >= 2 && rhs.len() >= 2 => {
            let mut growable = make_growable(alloc, &[lhs, rhs], false, 0)?;
            growable.extend(0, 0, 2)?;
            let is_first = is_same(alloc, growable.as_box(), first)?;
            growable.extend(0, 1, 1)?;
            growable.extend_validity(1)?;
            growable.extend(1, 0, 2)?;
            Ok(is_first && is_same(alloc, growable.as_box(), last)?)
        }
        _ => Err(Fault::Usage),
    }
}

/// Rows, and what is stored: numbers, the bytes of texts, or the keys of dictionaries.
const LINES: [Line; 6] = [
    ["nullif i32[1,_7,3,_4] i32[1,2,_3,4] i32[_1,_7,3,_4]", ""],
    [r#"length utf8["abc",_"d",""] i32[3,_0,0]"#, ""],
    [r#"substring utf8["abc",_"d",""] utf8["b",_,""]"#, ""],
    ["growable i32[1,2] i32[3,4] i32[1,2] i32[2,_0,3,4]", ""],
    [
        r#"growable utf8["a","b"] utf8["c",_"d"] utf8["a","b"] utf8["b",_,"c",_]"#,
        "",
    ],
    [
        r#"growable dict<i32,utf8>{keys=i32[0,_1];values=utf8["a","b"]} dict<i32,utf8>{keys=i32[_7,0];values=utf8["c"]} dict<i32,utf8>{keys=i32[0,_0];values=utf8["a","b"]} dict<i32,utf8>{keys=i32[_0,_0,_0,2];values=utf8["a","b","c"]}"#,
        "",
    ],
];

#[test]
fn stored(rt: HostRuntime) {
    assert_eq!(rt; wrong_line(rt.alloc(), &ANSWERS, &LINES, &PLAIN), None);
}
