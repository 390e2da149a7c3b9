//! Rows that a prepared filter copies into a growable of the caller's own, and more rows than can be printed.

use arrow_arrays::array::AnyArray;
use arrow_growable::growable::{Growable, GrowablePrimitive};
use arrow_select::concatenate::concatenate;
use arrow_select::filter::build_filter;
use arrow_text::fault::Fault;
use arrow_text::given::Array;
use arrow_types::error::Error;
use std::alloc::Global;
use test_lines::arrays::{is_made, numbers, truths};
use test_lines::lines::{Answer, Line, PLAIN, wrong_line};

/// What is tested, by name.
const ANSWERS: [(&str, Answer); 2] = [("extend_into", extends), ("concatenate", joins)];

/// A growable of numbers that counts how often rows are appended.
#[derive(Drop)]
struct Counting<'a> {
    growable: GrowablePrimitive<'a, i32>,
    calls: i32,
}

impl<'a> Growable<'a> for Counting<'a> {
    ghost state = { λ counting. counting.growable };

    fn extend(&mut self, index: usize, start: usize, len: usize) -> Result<(), Error> {
        self.calls = self.calls.wrapping_add(1);
        self.growable.extend(index, start, len)
    }

    fn extend_validity(&mut self, additional: usize) -> Result<(), Error> {
        self.growable.extend_validity(additional)
    }

    fn len(&self) -> usize {
        self.growable.len()
    }

    fn as_box(&mut self) -> Result<AnyArray, Error> {
        self.growable.as_box()
    }
}

// Whether a filter that is built of a predicate appends these rows of some numbers, in so many calls.
fn extends(alloc: Global, _name: &str, arrays: &[AnyArray]) -> Result<bool, Fault> {
    let [array, predicate, wanted, calls] = arrays else {
        return Err(Fault::Usage);
    };
    let rows = numbers(array)?;
    let filter = build_filter(alloc, truths(predicate)?)?;
    if filter.mask_len() != rows.len() {
        return Err(Fault::Usage);
    }
    let mut counting = Counting {
        growable: GrowablePrimitive::new(alloc, vec![in alloc; rows]?, false, 0)?,
        calls: 0,
    };
    filter.extend_into(&mut counting, 0)?;
    let made = Array::new(alloc, counting.as_box()?)?;
    let are_so_many = numbers(calls)?.values().as_slice() == [counting.calls].as_slice();
    Ok(are_so_many & (*made.array == *wanted))
}

// Whether the last array has all rows of the one or two before it.
fn joins(alloc: Global, _name: &str, arrays: &[AnyArray]) -> Result<bool, Fault> {
    match arrays {
        [array, wanted] => is_made(alloc, concatenate(alloc, &[array]), wanted),
        [lhs, rhs, wanted] => is_made(alloc, concatenate(alloc, &[lhs, rhs]), wanted),
        _ => Err(Fault::Usage),
    }
}

/// Numbers, a predicate, the rows and the count of calls that are wanted; arrays that are joined, and all rows of them.
const LINES: [Line; 10] = [
    [
        "extend_into i32[1,2,3,4,5,6,7,8,9] bool[t,t,f,t,f,f,t,t,t] i32[1,2,4,7,8,9] i32[3]",
        "",
    ],
    [
        "extend_into i32[1*60,2*10,3*60] bool[f*60,t*10,f*60] i32[2*10] i32[1]",
        "",
    ],
    ["extend_into i32[1*130] bool[t*130] i32[1*130] i32[1]", ""],
    [
        "extend_into i32[1*130] bool{values=tftftftftftftftftftftftftftftftftftftftftftftftftftftftftftftftftf\
          tftftftftftftftftftftftftftftftftftftftftftftftftftftftftftftftf} i32[1*65] i32[65]",
        "",
    ],
    ["extend_into i32[1,2,3] bool[f,_t,f] i32[] i32[0]", ""],
    ["extend_into i32[] bool[] i32[] i32[0]", ""],
    [
        "concatenate null{len=18446744073709551615} null[] null{len=18446744073709551615}",
        "",
    ],
    [
        "concatenate null{len=18446744073709551615} null[_] null[]",
        "error Overflow",
    ],
    [
        "concatenate fsl<9223372036854775808,null>{values=null{len=9223372036854775808}} \
         fsl<9223372036854775808,null>{values=null{len=9223372036854775808}}",
        "",
    ],
    [
        "concatenate fsl<9223372036854775808,null>[] fsl<9223372036854775808,null>{values=null{len=9223372036854775808}} \
         fsl<9223372036854775808,null>{values=null{len=9223372036854775808}}",
        "",
    ],
];

#[test]
fn selection(rt: HostRuntime) {
    assert_eq!(rt; wrong_line(rt.alloc(), &ANSWERS, &LINES, &PLAIN), None);
}
