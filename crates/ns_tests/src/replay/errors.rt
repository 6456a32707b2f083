//! Readers and writers of std that return an error of each kind: an interrupted read is made
//! again, and no other, nor any write.

use super::memory::Expects;
use super::{FIRST, FIRST_TEXT, PLAIN};
use ns_replay::{Fault, OverRead, OverWrite, Sink, Source, replay};
use std::alloc::Global;
use std::io::{self, ErrorKind, Read, Write};

/// The kinds, and whether a read that returned it is made again.
const KINDS: [(ErrorKind, bool); 12] = [
    (ErrorKind::Interrupted, true),
    (ErrorKind::WouldBlock, false),
    (ErrorKind::TimedOut, false),
    (ErrorKind::UnexpectedEof, false),
    (ErrorKind::BrokenPipe, false),
    (ErrorKind::ConnectionReset, false),
    (ErrorKind::NotFound, false),
    (ErrorKind::PermissionDenied, false),
    (ErrorKind::InvalidData, false),
    (ErrorKind::WriteZero, false),
    (ErrorKind::OutOfMemory, false),
    (ErrorKind::Other, false),
];

/// A stream of which one call returns an error. It gives or takes a byte a call.
#[derive(Drop)]
struct Fails<'a> {
    bytes: &'a [u8],
    kind: ErrorKind,
    /// How many calls come before that.
    before: usize,
    /// How many calls were made.
    calls: usize,
}

impl Fails<'_> {
    /// Counts a call, and answers whether it is the one that fails.
    fn is_failing(&mut self) -> bool {
        self.calls = self.calls.wrapping_add(1);
        self.calls.wrapping_sub(1) == self.before
    }
}

impl Read for Fails<'_> {
    fn read(&mut self, buf: &mut [u8]) -> io::Result<usize> {
        if self.is_failing() {
            return Err(io::Error::from(self.kind));
        }
        let count = self.bytes.len().min(buf.len()).min(1);
        buf[..count].copy_from_slice(&self.bytes[..count]);
        self.bytes = &self.bytes[count..];
        Ok(count)
    }
}

impl Write for Fails<'_> {
    fn write(&mut self, buf: &[u8]) -> io::Result<usize> {
        if self.is_failing() {
            return Err(io::Error::from(self.kind));
        }
        Ok(buf.len().min(1))
    }

    fn flush(&mut self) -> io::Result<()> {
        Ok(())
    }
}

/// Whether a replay of a reader that returns such an error is made as it must be: with one call more where the
/// read is made again, and else with no other call, and at fault.
fn is_read_by_kind(alloc: Global, kind: ErrorKind, before: usize, is_again: bool) -> bool {
    let mut reader = Fails {
        bytes: FIRST.as_bytes(),
        kind,
        before,
        calls: 0,
    };
    let mut source = OverRead::new(&mut reader);
    let text = if is_again { FIRST_TEXT } else { "" };
    let mut sink = Expects::new(text.as_bytes(), 4096, usize::MAX);
    let outcome = replay(alloc, &mut source, &mut sink, PLAIN);
    let is_failed = source.failed();
    let calls = reader.calls;
    match outcome {
        Ok(()) => is_again && !is_failed && sink.is_done() && calls == FIRST.len() + 2,
        Err(Fault::Read) => !is_again
            && is_failed
            && sink.is_done()
            && calls == before.wrapping_add(1),
        Err(_) => false,
    }
}

#[test]
fn reads_by_kind(rt: HostRuntime) {
    for (kind, is_again) in KINDS {
        for before in [0, 7, FIRST.len()] {
            assert!(rt;
                is_read_by_kind(rt.alloc(), kind, before, is_again),
                "{kind:?} at {before}"
            );
        }
    }
}

/// Whether a replay to a writer that returns such an error is at fault, and makes no other call.
fn is_written_by_kind(alloc: Global, kind: ErrorKind, before: usize) -> bool {
    let mut writer = Fails {
        bytes: b"",
        kind,
        before,
        calls: 0,
    };
    let mut source = OverRead::new(FIRST.as_bytes());
    let mut sink = OverWrite::new(&mut writer);
    let outcome = replay(alloc, &mut source, &mut sink, PLAIN);
    let is_failed = sink.failed();
    matches!(outcome, Err(Fault::Write)) && is_failed && writer.calls == before.wrapping_add(1)
}

#[test]
fn writes_by_kind(rt: HostRuntime) {
    for (kind, _) in KINDS {
        for before in [0, 7, FIRST_TEXT.len() - 1] {
            assert!(rt;
                is_written_by_kind(rt.alloc(), kind, before),
                "{kind:?} at {before}"
            );
        }
    }
}
