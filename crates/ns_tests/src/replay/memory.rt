//! A source whose reads are interrupted, and a sink that takes no memory and fails when it is told to.

ghost use Rattle.std.specs.Prelude.{◌≡◌, Some, None, false};

use ns_replay::{Got, Sink, Source};

/// Bytes with an interrupted read before each piece of one byte, or interrupted at each read.
#[derive(Drop)]
pub struct Interrupted<'a> {
    pub bytes: &'a [u8],
    pub is_next: bool,
    pub always: bool,
    pub asked: u64,
    pub ends: u64,
    pub last: usize,
}

impl Source for Interrupted<'_> {
    ghost to_come = { λ s. Some s.bytes.now };

    ghost has_failed = { λ s. false };

    ghost asked = { λ s. s.asked };

    ghost ends = { λ s. s.ends };

    ghost last = { λ s. s.last };

    fn read(&mut self, buffer: &mut [u8]) -> Got {
        self.asked = self.asked.wrapping_add(1);
        self.last = 0;
        if self.always || self.is_next {
            self.is_next = false;
            return Got::Interrupted;
        }
        self.is_next = true;
        let count = self.bytes.len().min(buffer.len()).min(1);
        buffer[..count].copy_from_slice(&self.bytes[..count]);
        self.bytes = &self.bytes[count..];
        self.last = count;
        if count == 0 {
            self.ends = self.ends.wrapping_add(1);
        }
        Got::Bytes(count)
    }

    fn failed(&self) -> bool {
        false
    }
}

/// A sink that compares what it takes with the text that it expects, at most `room` bytes a
/// write, up to a write that fails. It takes no memory.
#[derive(Drop)]
pub struct Expects<'a> {
    pub rest: &'a [u8],
    pub room: usize,
    /// How many writes don't fail.
    pub writes: usize,
    /// Whether anything else was written.
    pub is_wrong: bool,
    pub has_failed: bool,
    pub stuck: u64,
}

impl<'a> Expects<'a> {
    pub fn new(rest: &'a [u8], room: usize, writes: usize) -> Self
        ensures { result.has_failed ≡ false }
    {
        Expects {
            rest,
            room,
            writes,
            is_wrong: false,
            has_failed: false,
            stuck: 0,
        }
    }

    /// Whether all that was expected was written, and nothing else.
    pub fn is_done(&self) -> bool {
        self.rest.is_empty() && !self.is_wrong
    }

    /// Whether just so many bytes of this text were written, where it was expected.
    pub fn has_taken(&self, text: &[u8], count: usize) -> bool {
        count <= text.len() && self.rest == &text[count..] && !self.is_wrong
    }
}

impl Sink for Expects<'_> {
    ghost taken = { λ s. None };

    ghost has_failed = { λ s. s.has_failed };

    ghost stuck = { λ s. s.stuck };

    fn write(&mut self, bytes: &[u8]) -> Option<usize> {
        if self.writes == 0 {
            self.has_failed = true;
            return None;
        }
        self.writes -= 1;
        let count = bytes.len().min(self.room);
        if self.rest.starts_with(&bytes[..count]) {
            self.rest = &self.rest[count..];
        } else {
            self.is_wrong = true;
        }
        if count == 0 {
            self.stuck = self.stuck.wrapping_add(1);
        }
        Some(count)
    }

    fn failed(&self) -> bool {
        self.has_failed
    }
}
