//! The program `cases`: answers the lines of standard input on standard output.
#![tactic(auto)]

mod select;

use arrow_text::call::Call;
use arrow_text::fault::Fault;
use std::alloc::Global;
use std::io;
use std::io::{BufWriter, Read, Write};

// Appends the answer to a line, and answers whether a call has its name.
fn answer(alloc: Global, line: &str, out: &mut String) -> Result<bool, Fault> {
    let call = Call::read(alloc, line)?;
    Ok(
        cases_arrays::answer(alloc, &call, out)?
            || select::answer(alloc, &call, out)?
            || cases_logic::answer(alloc, &call, out)?,
    )
}

// What stands for a line: the line itself where it is a comment, and otherwise its answer.
fn answer_line(alloc: Global, line: &str, out: &mut String) -> Result<(), Fault> {
    out.clear();
    if line.is_empty() || line.starts_with('#') {
        out.push_str(line)?;
        return Ok(());
    }
    match answer(alloc, line, out) {
        Ok(true) => Ok(()),
        Ok(false) => Ok(out.push_str("unknown")?),
        Err(fault) => {
            out.clear();
            Ok(write!(out, "{fault}")?)
        }
    }
}

fn main(rt: HostRuntime) -> io::Result<()> {
    let mut text = String::new(rt.alloc());
    rt.stdin().read_to_string(&mut text)?;
    let mut writer = BufWriter::new(rt.alloc(), rt.stdout())?;
    let mut out = String::new(rt.alloc());
    for line in text.lines() {
        if answer_line(rt.alloc(), line, &mut out).is_err() {
            out.clear();
        }
        writeln!(&mut writer, "{out}")?;
    }
    writer.flush()
}
