//! What is tested of a run: lines and their answers, streams that fail, and long input.

use crate::check::check;
use arrow_tool::engine::{RunFault, run, status};
use arrow_tool::stream::{Fault, Sink, Source};
use std::alloc::{AllocError, Global};

/// A reader over bytes, which gives some of them at a time, and fails at their end if it is to.
#[derive(Drop)]
struct Input<'a> {
    rest: &'a [u8],
    step: usize,
    fails: bool,
    failed: bool,
}

impl Source for Input<'_> {
    ghost has_failed = { λ input. input.failed };

    fn read(&mut self, buffer: &mut [u8]) -> Result<usize, Fault> {
        let count = self.rest.len().min(self.step).min(buffer.len());
        if count == 0 && self.fails {
            self.failed = true;
            return Err(Fault);
        }
        let (front, rest) = self.rest.split_at(count);
        buffer[..count].copy_from_slice(front);
        self.rest = rest;
        Ok(count)
    }

    fn failed(&self) -> bool {
        self.failed
    }
}

/// A writer into memory that it has from the start, which takes some bytes at a time, and fails
/// where there is no room.
#[derive(Drop)]
struct Output {
    bytes: Vec<u8>,
    step: usize,
    failed: bool,
}

impl Sink for Output {
    ghost has_failed = { λ output. output.failed };

    fn write(&mut self, bytes: &[u8]) -> Result<usize, Fault> {
        let room = self.bytes.capacity() - self.bytes.len();
        let count = bytes.len().min(self.step).min(room);
        if count == 0 || self.bytes.extend_from_slice(&bytes[..count]).is_err() {
            self.failed = true;
            return Err(Fault);
        }
        Ok(count)
    }

    fn failed(&self) -> bool {
        self.failed
    }
}

type Outcome = Result<bool, RunFault>;

/// A run: its name; what is read, and how often; whether the reader fails behind it; how many bytes the writer takes in all;
/// what the run answers, and what is written, as often.
type Run = (
    &'static str,
    &'static [u8],
    usize,
    bool,
    usize,
    Outcome,
    &'static str,
);

/// The same of any input: what is read; whether the reader fails behind it; how many bytes the writer takes in all; what the run
/// answers, and what it writes where there is room.
type Ending<'a> = (&'a [u8], bool, usize, Outcome, &'a str);

// Whether a run ends as it is wanted, where so many bytes are read and written at a time.
fn ends_so(alloc: Global, wanted: Ending<'_>, step: usize) -> Result<bool, AllocError> {
    let (input, fails, room, outcome, output) = wanted;
    let mut writer = Output {
        bytes: Vec::with_capacity(alloc, room)?,
        step,
        failed: false,
    };
    let mut reader = Input {
        rest: input,
        step,
        fails,
        failed: false,
    };
    let found = run(alloc, &mut reader, &mut writer);
    let shown = &output.as_bytes()[..output.len().min(room)];
    if found == outcome && *writer.bytes == *shown {
        return Ok(true);
    }
    if is_out_of_memory(found, &writer.bytes, outcome, output) {
        return Err(AllocError);
    }
    Ok(false)
}

// The same of a run by its name.
fn is_right(alloc: Global, wanted: &Run, step: usize) -> Result<bool, AllocError> {
    let (_, input, times, fails, room, outcome, output) = *wanted;
    let input = input.repeat(alloc, times)?;
    let output = output.repeat(alloc, times)?;
    ends_so(alloc, (&input, fails, room, outcome, &output), step)
}

// Whether a run that was refused a request for memory says so: by a fault after whole lines of the output, or by one line in
// the place of an answer. A stream that fails does so all the same, a writer anywhere.
fn is_out_of_memory(outcome: Outcome, output: &[u8], wanted: Outcome, whole: &str) -> bool {
    let Ok(output) = str::from_utf8(output) else {
        return false;
    };
    match outcome {
        Err(RunFault::OutOfMemory) => {
            whole.starts_with(output) && (output.is_empty() || output.ends_with('\n'))
        }
        Ok(true) => wanted.is_ok() && is_refused_once(output, whole),
        Err(RunFault::Read) => outcome == wanted && is_refused_once(output, whole),
        _ => outcome == wanted,
    }
}

// Whether one line tells of refused memory in the place of an answer, and all others are as they are wanted.
fn is_refused_once(output: &str, whole: &str) -> bool {
    let Some((before, behind)) = output.split_once("error OutOfMemory\n") else {
        return false;
    };
    let is_one = output.lines().count() == whole.lines().count();
    whole.starts_with(before) & whole.ends_with(behind) & is_one
}

/// Room for any output.
const ROOM: usize = 1_000_000;

const THREE: &[u8] = b"concatenate i32[1]\nfilter i32[2] bool[t]\nconcatenate i32[3]";

/// More lines stand in `crates/kernels/stdin`.
const RUNS: [Run; 11] = [
    ("nothing", b"", 1, false, ROOM, Ok(false), ""),
    (
        "the end of the input ends a line",
        b"filter i32[5,6,7,8,9] bool[t,f,f,t,f]",
        1,
        false,
        ROOM,
        Ok(false),
        "i32[5,8]\n",
    ),
    (
        "spaces and carriage returns",
        b"  concatenate   i32[1]  \n   \nconcatenate i32[1]\r\n\r\nconcatenate i32[2]\r",
        1,
        false,
        ROOM,
        Ok(false),
        "i32[1]\ni32[1]\ni32[2]\n",
    ),
    (
        "refusals and answers",
        b"filter i32[1,_2,3] bool[f,t,t]\n\nconcatenate i32[1] bool[t]\nconcatenate i32[1] 4\nfilter i32[1 bool[t]\n\
          concatenate i32[1]\r\r\ngrow\nconcatenate bool[f]",
        1,
        false,
        ROOM,
        Ok(true),
        "i32[_,3]\nerror ConcatenateTypes\nerror Usage\nerror Syntax\nerror Syntax\nerror Command\nbool[f]\n",
    ),
    (
        "not UTF-8",
        b"concatenate \xff\n",
        1,
        false,
        ROOM,
        Ok(true),
        "error Syntax\n",
    ),
    (
        "many lines",
        b"concatenate i32[7]\ngrow\n",
        9_999,
        false,
        ROOM,
        Ok(true),
        "i32[7]\nerror Command\n",
    ),
    // the reader fails after the second line, and the writer is full within the second answer
    (
        "a read",
        THREE,
        1,
        true,
        ROOM,
        Err(RunFault::Read),
        "i32[1]\ni32[2]\n",
    ),
    (
        "a write",
        THREE,
        1,
        false,
        10,
        Err(RunFault::Write),
        "i32[1]\ni32",
    ),
    // streams that fail at once, and one that need not
    ("no input", b"", 1, true, ROOM, Err(RunFault::Read), ""),
    ("no room", b"grow", 1, false, 0, Err(RunFault::Write), ""),
    ("no answer", b"\n \n", 1, false, 0, Ok(false), ""),
];

/// How many bytes are read and written at a time: all, and one.
const STEPS: [usize; 2] = [ROOM, 1];

#[test]
fn runs(rt: HostRuntime) {
    for wanted in &RUNS {
        for step in &STEPS {
            let mut outcome = is_right(rt.alloc(), wanted, *step);
            if outcome.is_err() {
                outcome = is_right(rt.alloc(), wanted, *step);
            }
            check(&rt, outcome == Ok(true), wanted.0);
        }
    }
}

/// Lines, and what each is answered.
const LINES: [(&str, &str); 20] = [
    ("any bool[f,t]", "true"),
    ("all bool[t,f]", "false"),
    ("not bool[f,_]", "bool[t,_]"),
    ("grow i32[1]", "error Command"),
    ("filter i32[5,6] bool[f,t]", "i32[6]"),
    ("filter i32[5", "error Syntax"),
    ("shift i32[1,2] 1", "i32[_,1]"),
    ("shift i32[1] 2", "error ShiftOffset"),
    ("concatenate", "error ConcatenateEmpty"),
    ("length utf8[\"h\u{e9}\"]", "i32[3]"),
    ("substring utf8[\"a b\"] -1", "utf8[\"b\"]"),
    ("take i32[7,8] i32[1,_]", "i32[8,_]"),
    ("is_null bool[_,t]", "bool[t,f]"),
    ("ranges bool[t,t,f]", "(0,2)"),
    ("ranges bool[f]", ""),
    ("eq i32[1] i32[2]", "bool[f]"),
    ("lt bool[f] bool[t]", "bool[t]"),
    ("nullif i32[1] i32[1]", "i32[_]"),
    ("and bool[t] bool[_]", "bool[_]"),
    ("all 4", "error Usage"),
];

/// Room for the output of these lines.
const LITTLE: usize = 1000;

// Appends what a part of a line is answered where it stands alone, and tells whether it is refused.
fn append_answer(alloc: Global, line: &[u8], output: &mut String) -> Result<bool, AllocError> {
    let mut writer = Output {
        bytes: Vec::with_capacity(alloc, LITTLE)?,
        step: LITTLE,
        failed: false,
    };
    let mut reader = Input {
        rest: line,
        step: LITTLE,
        fails: false,
        failed: false,
    };
    let found = run(alloc, &mut reader, &mut writer);
    match str::from_utf8(&writer.bytes) {
        Ok(answer) if found.is_ok() & (answer != "error OutOfMemory\n") => {
            output.push_str(answer)?;
            Ok(found == Ok(true))
        }
        _ => Err(AllocError),
    }
}

// Whether an input that ends, and a reader that fails, behind each byte of the lines is answered as far as it goes, and a writer
// that is full behind each byte of the answers has these bytes.
fn ends_anywhere(alloc: Global, step: usize) -> Result<bool, AllocError> {
    let mut input = Vec::new(alloc);
    let mut output = String::new(alloc);
    let (mut is_right, mut is_refused) = (true, false);
    for (line, answer) in &LINES {
        let mut part = Vec::new(alloc);
        for byte in line.bytes() {
            input.push(byte)?;
            part.push(byte)?;
            is_right &= ends_behind(alloc, &input, &part, &output, is_refused, step)?;
        }
        input.push(b'\n')?;
        output.push_str(answer)?;
        output.push('\n')?;
        is_refused |= answer.starts_with("error");
    }
    for room in 0..output.len() {
        let full = (
            input.as_slice(),
            false,
            room,
            Err(RunFault::Write),
            output.as_str(),
        );
        is_right &= ends_so(alloc, full, step)?;
    }
    Ok(is_right)
}

// The same of one input and the part of its last line, behind lines that have their output, one of which is refused or none.
fn ends_behind(
    alloc: Global,
    input: &[u8],
    part: &[u8],
    output: &str,
    is_refused: bool,
    step: usize,
) -> Result<bool, AllocError> {
    let mut whole = output.to_string(alloc)?;
    let is_refused = append_answer(alloc, part, &mut whole)? | is_refused;
    let ended = (input, false, LITTLE, Ok(is_refused), whole.as_str());
    let failed = (input, true, LITTLE, Err(RunFault::Read), output);
    Ok(ends_so(alloc, ended, step)? & ends_so(alloc, failed, step)?)
}

// Whether a line longer than all that is read at once is answered between two others, and left where the reader fails in it.
fn ends_behind_long(alloc: Global, step: usize) -> Result<bool, AllocError> {
    let items = "7,".repeat(alloc, 50_000)?;
    let mut input = String::new(alloc);
    input.push_str("any bool[t]\nconcatenate i32[")?;
    input.push_str(&items)?;
    let failed = (input.as_bytes(), true, ROOM, Err(RunFault::Read), "true\n");
    let is_right = ends_so(alloc, failed, step)?;
    input.push_str("7]\nall bool[f]")?;
    let mut output = String::new(alloc);
    output.push_str("true\ni32[")?;
    output.push_str(&items)?;
    output.push_str("7]\nfalse\n")?;
    let ended = (input.as_bytes(), false, ROOM, Ok(false), output.as_str());
    Ok(is_right & ends_so(alloc, ended, step)?)
}

/// What is tested by a function, by name.
const ENDINGS: [(&str, fn(Global, usize) -> Result<bool, AllocError>); 2] = [
    ("at any byte", ends_anywhere),
    ("in a long line", ends_behind_long),
];

#[test]
fn endings(rt: HostRuntime) {
    for (name, ends) in &ENDINGS {
        for step in &STEPS {
            let mut outcome = ends(rt.alloc(), *step);
            if outcome.is_err() {
                outcome = ends(rt.alloc(), *step);
            }
            check(&rt, outcome == Ok(true), name);
        }
    }
}

/// What runs answer, and the status of the program.
const STATUSES: [(Outcome, u8); 5] = [
    (Ok(false), 0),
    (Ok(true), 1),
    (Err(RunFault::Read), 2),
    (Err(RunFault::Write), 2),
    (Err(RunFault::OutOfMemory), 2),
];

#[test]
fn statuses(rt: HostRuntime) {
    for (outcome, wanted) in &STATUSES {
        check(&rt, status(outcome) == *wanted, "a status");
    }
}
