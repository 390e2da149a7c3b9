//! The engine of the program: lines in, answers out.

ghost use Rattle.std.specs.Prelude.{◌≡◌, ◌≢◌, ◌↔◌, true, false, OnOk, IsOkUnless};
ghost use Rattle.arrow_tool.specs.declared.engine.RunFault.{RunFault};
ghost use Rattle.arrow_tool.specs.declared.engine.RunFault.TheVariants.{OutOfMemory};
ghost use Rattle.std.specs.Io.KnownBytes.{Appends};
ghost use Rattle.arrow_tool.specs.Input.{ReadsToEnd};
ghost use Rattle.arrow_tool.specs.Status.{status_of};

use crate::line::answer_to;
use crate::stream::{Sink, Source};
use std::alloc::{AllocError, Global};

/// Why a run ended before the end of its input.
#[derive(Debug, Clone, Copy, PartialEq, Eq, thiserror::Error)]
pub enum RunFault {
    /// A read failed.
    #[error("a read failed")]
    Read,
    /// A write failed.
    #[error("a write failed")]
    Write,
    /// The engine found no memory for its own work.
    #[error("out of memory")]
    OutOfMemory,
}

impl From<AllocError> for RunFault {
    ghost from_gives = { λ _ fault. fault ≡ OutOfMemory };

    fn from(_error: AllocError) -> RunFault {
        RunFault::OutOfMemory
    }
}

/// How many bytes are asked for in one read.
const CHUNK: usize = 65536;

/// What a run keeps from line to line.
#[derive(Drop)]
struct Session {
    alloc: Global,
    /// The line so far.
    line: Vec<u8>,
    /// The answer that is written next. It keeps its memory.
    output: String,
    some_refused: bool,
}

impl Session {
    fn new(alloc: Global) -> Session {
        Session {
            alloc,
            line: Vec::new(alloc),
            output: String::new(alloc),
            some_refused: false,
        }
    }

    /// Takes in some bytes, and answers each line that ends in them.
    fn take_in<W: Sink>(&mut self, bytes: &[u8], writer: &mut W) -> Result<(), RunFault>
        requires { W.has_failed writer.old ≡ false }
        ensures write { (result ≡ Err RunFault.Write) ↔ (W.has_failed writer.new ≡ true) }
        ensures read { result ≢ Err RunFault.Read }
    {
        let mut rest = bytes;
        while let Some(end) = rest.iter().position(|byte| *byte == b'\n') {
            self.line.extend_from_slice(&rest[..end])?;
            self.answer_line(writer)?;
            rest = &rest[end + 1..];
        }
        self.line.extend_from_slice(rest)?;
        Ok(())
    }

    /// Answers the line, and begins the next.
    fn answer_line<W: Sink>(&mut self, writer: &mut W) -> Result<(), RunFault>
        requires { W.has_failed writer.old ≡ false }
        ensures write { (result ≡ Err RunFault.Write) ↔ (W.has_failed writer.new ≡ true) }
        ensures read { result ≢ Err RunFault.Read }
    {
        if let Some(answer) = answer_to(self.alloc, &self.line)? {
            self.some_refused |= answer.is_refusal();
            self.output.clear();
            writeln!(&mut self.output, "{answer}")?;
            write_all(writer, self.output.as_bytes())?;
        }
        self.line.clear();
        Ok(())
    }
}

// Writes all bytes, in as many writes as the writer asks for.
fn write_all<W: Sink>(writer: &mut W, bytes: &[u8]) -> Result<(), RunFault>
    requires { W.has_failed writer.old ≡ false }
    ensures write { (result ≡ Err RunFault.Write) ↔ (W.has_failed writer.new ≡ true) }
    ensures only { IsOkUnless result RunFault.Write }
    ensures bytes { OnOk result (Appends (W.contents writer.old) (W.contents writer.new) bytes.now) }
{
    let mut rest = bytes;
    while !rest.is_empty() {
        match writer.write(rest) {
            Ok(count) => rest = &rest[count..],
            Err(_) => return Err(RunFault::Write),
        }
    }
    Ok(())
}

// Reads to the end of the input, and answers each line that a line feed ends.
fn answer_lines<R: Source, W: Sink>(
    session: &mut Session,
    reader: &mut R,
    writer: &mut W,
) -> Result<(), RunFault>
    requires reader_works { R.has_failed reader.old ≡ false }
    requires writer_works { W.has_failed writer.old ≡ false }
    ensures read { (result ≡ Err RunFault.Read) ↔ (R.has_failed reader.new ≡ true) }
    ensures write { (result ≡ Err RunFault.Write) ↔ (W.has_failed writer.new ≡ true) }
    ensures end { OnOk result (ReadsToEnd (R.remaining reader.old) (R.remaining reader.new)) }
{
    let mut chunk = [0; CHUNK];
    for _reads in 0..u64::MAX {
        match reader.read(&mut chunk) {
            Ok(0) => return Ok(()),
            Ok(count) => session.take_in(&chunk[..count], writer)?,
            Err(_) => return Err(RunFault::Read),
        }
    }
    Ok(())
}

/// Answers each line of the input by a line of output, and tells whether some line was refused. A line
/// ends at a line feed, or with the input, which also counts as ended after 2^64 - 1 reads.
///
/// # Requires
/// Neither stream has failed yet.
///
/// # Errors
/// `Read` exactly where a read failed, `Write` exactly where a write failed, and `OutOfMemory`
/// where the engine found no memory for its own work. The output then has the answers of earlier
/// lines.
pub fn run<R: Source, W: Sink>(
    alloc: Global,
    reader: &mut R,
    writer: &mut W,
) -> Result<bool, RunFault>
    requires reader_works { R.has_failed reader.old ≡ false }
    requires writer_works { W.has_failed writer.old ≡ false }
    ensures read { (result ≡ Err RunFault.Read) ↔ (R.has_failed reader.new ≡ true) }
    ensures write { (result ≡ Err RunFault.Write) ↔ (W.has_failed writer.new ≡ true) }
    ensures ok { OnOk result ((R.has_failed reader.new ≡ false) × (W.has_failed writer.new ≡ false)) }
    ensures end { OnOk result (ReadsToEnd (R.remaining reader.old) (R.remaining reader.new)) }
{
    let mut session = Session::new(alloc);
    answer_lines(&mut session, reader, writer)?;
    session.answer_line(writer)?;
    Ok(session.some_refused)
}

/// The exit status of a run: 0 where every line was answered, 1 where some line was refused, and 2
/// where the run ended by a fault.
pub fn status(outcome: &Result<bool, RunFault>) -> u8
    ensures { result ≡ status_of outcome.now }
{
    match outcome {
        Ok(false) => 0,
        Ok(true) => 1,
        Err(_) => 2,
    }
}
