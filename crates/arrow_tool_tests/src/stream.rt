//! What is tested of guarded streams.

use crate::check::check;
use arrow_tool::stream::{Fault, Guarded, Sink, Source};
use std::io::{self, ErrorKind, Read, Write};

/// A stream that fails at each call, or one that takes no byte.
#[derive(Drop)]
enum Stopped {
    Broken,
    Full,
}

impl Read for Stopped {
    fn read(&mut self, _buffer: &mut [u8]) -> io::Result<usize> {
        Err(io::Error::from(ErrorKind::Other))
    }
}

impl Write for Stopped {
    fn write(&mut self, _bytes: &[u8]) -> io::Result<usize> {
        match self {
            Stopped::Broken => Err(io::Error::from(ErrorKind::Other)),
            Stopped::Full => Ok(0),
        }
    }

    fn flush(&mut self) -> io::Result<()> {
        Ok(())
    }
}

#[test]
fn reads(rt: HostRuntime) {
    let (mut front, mut rest) = ([0; 4], [0; 4]);
    let mut reader = Guarded::new(b"abcdef".as_slice());
    let counts = [
        reader.read(&mut front),
        reader.read(&mut rest),
        reader.read(&mut rest),
    ];
    check(
        &rt,
        counts == [Ok(4), Ok(2), Ok(0)],
        "how many bytes are read",
    );
    check(&rt, [front, rest] == [*b"abcd", *b"ef\0\0"], "bytes");
    let mut broken = Guarded::new(Stopped::Broken);
    let is_new = !Source::failed(&broken) & !Source::failed(&reader);
    check(
        &rt,
        is_new & (broken.read(&mut rest) == Err(Fault)),
        "a read",
    );
    check(&rt, Source::failed(&broken), "a reader that has failed");
}

#[test]
fn writes(rt: HostRuntime) {
    let mut memory = [0; 4];
    let mut writer = Guarded::new(memory.as_mut_slice());
    let counts = [writer.write(b"abc"), writer.write(b"de")];
    check(&rt, counts == [Ok(3), Ok(1)], "how many bytes are written");
    let is_new = !Sink::failed(&writer);
    let mut full = Guarded::new(Stopped::Full);
    let mut broken = Guarded::new(Stopped::Broken);
    let faults = [writer.write(b"e"), full.write(b"a"), broken.write(b"a")];
    check(
        &rt,
        is_new & (faults == [Err(Fault); 3]),
        "writes that fail",
    );
    let have_failed = [
        Sink::failed(&writer),
        Sink::failed(&full),
        Sink::failed(&broken),
    ];
    check(&rt, have_failed == [true; 3], "writers that have failed");
}
