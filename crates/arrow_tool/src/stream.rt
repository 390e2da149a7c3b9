//! Readers and writers that tell whether they have failed.

ghost use Rattle.std.specs.Prelude.{◌≡◌, ◌<◌, ◌≤◌, ℕ, Bool, true, false, List, Option, None, length, IfOk, OnOk, OnErr};
ghost use Rattle.std.specs.Io.KnownBytes.{ReadConsumes, WriteAppends};

use std::io::{Read, Write};
use std::marker::Model;

/// A read or a write that failed. The stream itself tells so from then on.
#[derive(Debug, Clone, Copy, PartialEq, Eq, thiserror::Error)]
#[error("the stream has failed")]
pub struct Fault;

/// A reader of bytes.
pub trait Source {
    /// Whether a read has failed.
    ghost has_failed: { Self → Bool };

    /// The bytes that it will give, where they are known.
    ghost remaining: { Self → Option (List ℕ) } = { λ _. None };

    /// Reads some bytes to the front of the buffer, and answers how many. None is the end of the input.
    ///
    /// # Requires
    /// The buffer is not empty.
    ///
    /// # Errors
    /// `Fault` where the read failed; `failed` then answers true.
    fn read(&mut self, buffer: &mut [u8]) -> Result<usize, Fault>
        requires { 0 < length buffer.old }
        ensures count { IfOk result (λ n. n ≤ length buffer.old) }
        ensures bytes { ReadConsumes (remaining self.old) (remaining self.new) result buffer.new }
        ensures ok { OnOk result (has_failed self.new ≡ has_failed self.old) }
        ensures err { OnErr result (has_failed self.new ≡ true) };

    /// Whether a read has failed.
    fn failed(&self) -> bool
        ensures { result ≡ has_failed self.now };
}

/// A writer of bytes.
pub trait Sink {
    /// Whether a write has failed.
    ghost has_failed: { Self → Bool };

    /// The bytes that it holds, where they are known.
    ghost contents: { Self → Option (List ℕ) } = { λ _. None };

    /// Writes some bytes from the front of the slice, and answers how many: at least one.
    ///
    /// # Requires
    /// The slice is not empty.
    ///
    /// # Errors
    /// `Fault` where the write failed; `failed` then answers true.
    fn write(&mut self, bytes: &[u8]) -> Result<usize, Fault>
        requires { 0 < length bytes.now }
        ensures some { IfOk result (λ n. 0 < n) }
        ensures count { IfOk result (λ n. n ≤ length bytes.now) }
        ensures bytes { WriteAppends (contents self.old) (contents self.new) result bytes.now }
        ensures ok { OnOk result (has_failed self.new ≡ has_failed self.old) }
        ensures err { OnErr result (has_failed self.new ≡ true) };

    /// Whether a write has failed.
    fn failed(&self) -> bool
        ensures { result ≡ has_failed self.now };
}

/// A reader or a writer of the standard library, with a flag for its failure. A contract sees both.
#[derive(Drop)]
pub struct Guarded<T> {
    stream: T,
    has_failed: bool,
}

impl<T> Model for Guarded<T> {
    ghost use Rattle.std.specs.Prelude.{Bool};
    ghost use Rattle.std.specs.Coded.{coded×, coded_bool};

    ghost Value = { T × Bool };

    ghost coded = { coded× T.code coded_bool };

    ghost view = { λ a. (a.stream, a.has_failed) };
}

impl<T> Guarded<T> {
    /// A stream that has not failed.
    pub fn new(stream: T) -> Guarded<T>
        ensures { result ≡ (stream, false) }
    {
        Guarded {
            stream,
            has_failed: false,
        }
    }
}

impl<T: Read> Source for Guarded<T> {
    ghost has_failed = { λ guarded. guarded.1 };

    ghost remaining = { λ guarded. T.remaining guarded.0 };

    fn read(&mut self, buffer: &mut [u8]) -> Result<usize, Fault> {
        match self.stream.read(buffer) {
            Ok(count) => Ok(count),
            Err(_) => {
                self.has_failed = true;
                Err(Fault)
            }
        }
    }

    fn failed(&self) -> bool {
        self.has_failed
    }
}

impl<T: Write> Sink for Guarded<T> {
    ghost has_failed = { λ guarded. guarded.1 };

    ghost contents = { λ guarded. T.contents guarded.0 };

    fn write(&mut self, bytes: &[u8]) -> Result<usize, Fault> {
        match self.stream.write(bytes) {
            Ok(count) if count > 0 => Ok(count),
            _ => {
                self.has_failed = true;
                Err(Fault)
            }
        }
    }

    fn failed(&self) -> bool {
        self.has_failed
    }
}
