//! A source, a sink and a printer in memory, which fail where they are told to.

ghost use Rattle.std.specs.Prelude.{◌≡◌, ◌≤◌, false, Some, None};

use clap::Error;
use ns_command::Prints;
use ns_replay::{Got, Sink, Source};
use std::alloc::Global;
use std::fmt::Display;

/// Bytes to read, in pieces of at most `piece`, up to a read that fails.
#[derive(Drop)]
pub struct Given<'a> {
    rest: &'a [u8],
    piece: usize,
    /// How many reads don't fail.
    reads: usize,
    pub has_failed: bool,
    asked: u64,
    ends: u64,
    last: usize,
    ghost some_piece: { 1 ≤ piece },
}

impl<'a> Given<'a> {
    /// Bytes whose reads don't fail.
    pub fn new(rest: &'a [u8]) -> Self
        ensures { result.has_failed ≡ false }
    {
        Given::in_pieces(rest, usize::MAX, usize::MAX)
    }

    /// Bytes that come in pieces of at most `piece`, in so many reads that don't fail.
    pub fn in_pieces(rest: &'a [u8], piece: usize, reads: usize) -> Self
        requires { 1 ≤ piece }
        ensures { result.has_failed ≡ false }
    {
        Given {
            rest,
            piece,
            reads,
            has_failed: false,
            asked: 0,
            ends: 0,
            last: 0,
        }
    }
}

impl Source for Given<'_> {
    ghost to_come = { λ s. Some s.rest.now };

    ghost has_failed = { λ s. s.has_failed };

    ghost asked = { λ s. s.asked };

    ghost ends = { λ s. s.ends };

    ghost last = { λ s. s.last };

    fn read(&mut self, buffer: &mut [u8]) -> Got {
        self.asked = self.asked.wrapping_add(1);
        self.last = 0;
        if self.reads == 0 {
            self.has_failed = true;
            return Got::Failed;
        }
        self.reads -= 1;
        let count = self.rest.len().min(buffer.len()).min(self.piece);
        buffer[..count].copy_from_slice(&self.rest[..count]);
        self.rest = &self.rest[count..];
        self.last = count;
        if count == 0 {
            self.ends = self.ends.wrapping_add(1);
        }
        Got::Bytes(count)
    }

    fn failed(&self) -> bool {
        self.has_failed
    }
}

/// All bytes that were written, at most `room` in a write, up to a write that fails. Want of
/// memory is a failed write.
#[derive(Drop)]
pub struct Collected {
    bytes: Vec<u8>,
    room: usize,
    /// How many writes don't fail.
    writes: usize,
    pub has_failed: bool,
    stuck: u64,
}

impl Collected {
    /// A sink that takes all, and whose writes don't fail.
    pub fn new(alloc: Global) -> Self
        ensures { result.has_failed ≡ false }
    {
        Collected::with_room(alloc, usize::MAX, usize::MAX)
    }

    /// A sink that takes at most `room` bytes a write, in so many writes that don't fail.
    pub fn with_room(alloc: Global, room: usize, writes: usize) -> Self
        ensures { result.has_failed ≡ false }
    {
        Collected {
            bytes: Vec::new(alloc),
            room,
            writes,
            has_failed: false,
            stuck: 0,
        }
    }

    /// What was written.
    pub fn into_bytes(self) -> Vec<u8> {
        self.bytes
    }
}

impl Sink for Collected {
    ghost taken = { λ s. Some s.bytes.items };

    ghost has_failed = { λ s. s.has_failed };

    ghost stuck = { λ s. s.stuck };

    fn write(&mut self, bytes: &[u8]) -> Option<usize> {
        let count = bytes.len().min(self.room);
        if self.writes == 0 || self.bytes.extend_from_slice(&bytes[..count]).is_err() {
            self.has_failed = true;
            return None;
        }
        self.writes -= 1;
        if count == 0 {
            self.stuck = self.stuck.wrapping_add(1);
        }
        Some(count)
    }

    fn failed(&self) -> bool {
        self.has_failed
    }
}

/// What was printed on either side, if it may be. Want of memory is a failure.
#[derive(Drop)]
pub struct Printed {
    pub errors: String,
    pub output: String,
    /// Whether the error side takes what is printed.
    pub takes_errors: bool,
    /// Whether the output side takes what is printed.
    pub takes_output: bool,
    has_failed: bool,
    has_failed_output: bool,
}

impl Printed {
    pub fn new(alloc: Global) -> Self {
        Printed {
            errors: String::new(alloc),
            output: String::new(alloc),
            takes_errors: true,
            takes_output: true,
            has_failed: false,
            has_failed_output: false,
        }
    }
}

impl Prints for Printed {
    ghost errors = { λ _. None };

    ghost output = { λ _. None };

    ghost has_failed = { λ p. p.has_failed };

    ghost has_failed_output = { λ p. p.has_failed_output };

    fn error_line<D: Display + Drop>(&mut self, line: D) -> bool {
        let done = self.takes_errors && writeln!(&mut self.errors, "{line}").is_ok();
        self.has_failed |= !done;
        done
    }

    fn answer(&mut self, answer: &Error) -> bool {
        if answer.use_stderr() {
            let done = self.takes_errors && write!(&mut self.errors, "{answer}").is_ok();
            self.has_failed |= !done;
            done
        } else {
            let done = self.takes_output && write!(&mut self.output, "{answer}").is_ok();
            self.has_failed_output |= !done;
            done
        }
    }
}
