//! What a replay reads from and writes to.
//!
//! The bytes that are still to come, and those that were taken, are ghost members, and are known
//! only where the stream knows them. A replay claims nothing of the other bytes of the world.
//!
//! Faults of streams are told by a flag, by counts of the reads, of those that gave the end, and of
//! the writes that took nothing, and by what the last read gave. So these faults are answered only
//! where a clause can name their cause.

ghost use Rattle.std.specs.Prelude.{◌≡◌, ◌<◌, ℕ, List, Bool, Option, false, length};
ghost use Rattle.ns_replay.specs.Streams.{Counts, Reads, Writes, ends_by, given, is_failure, is_refusal, stuck_by};

/// What a read gave.
#[derive(Clone, Copy, Debug, Drop, PartialEq, Eq)]
pub enum Got {
    /// So many bytes, at the front of the buffer; 0 is the end.
    Bytes(usize),
    /// No byte, and another read may give some.
    Interrupted,
    /// No byte: the source has failed.
    Failed,
}

/// Bytes to read.
pub trait Source {
    /// The bytes that are still to come, where they are known.
    ghost to_come: { Self → Option (List ℕ) };

    /// Whether a read has failed.
    ghost has_failed: { Self → Bool };

    /// How many reads were asked for, modulo 2^64.
    ghost asked: { Self → ℕ };

    /// How many of them gave the end, modulo 2^64.
    ghost ends: { Self → ℕ };

    /// How many bytes the last one gave.
    ghost last: { Self → ℕ };

    /// Reads some bytes into the buffer, and gives none only at the end. Needs room for some, and
    /// that no read has failed.
    fn read(&mut self, buffer: &mut [u8]) -> Got
        requires fine { has_failed self.old ≡ false }
        requires room { 0 < length buffer.old }
        ensures bytes { Reads (to_come self.old) (to_come self.new) result buffer.new }
        ensures failure { has_failed self.new ≡ is_failure result }
        ensures count { Counts (asked self.old) (asked self.new) 1 }
        ensures ended { Counts (ends self.old) (ends self.new) (ends_by result) }
        ensures gave { last self.new ≡ given result };

    /// Whether a read has failed.
    fn failed(&self) -> bool
        ensures { result ≡ has_failed self.now };
}

/// A place to write to.
pub trait Sink {
    /// The bytes that were taken so far, where they are known.
    ghost taken: { Self → Option (List ℕ) };

    /// Whether a write has failed.
    ghost has_failed: { Self → Bool };

    /// How many writes took no byte of those that they were offered, and did not fail, modulo 2^64.
    ghost stuck: { Self → ℕ };

    /// Writes a front of the bytes, and answers how many it took, or `None` where the write
    /// failed and took none. An interrupted write is a failed one. Needs some bytes, and that no
    /// write has failed.
    fn write(&mut self, bytes: &[u8]) -> Option<usize>
        requires fine { has_failed self.old ≡ false }
        requires some { 0 < length bytes.now }
        ensures bytes { Writes (taken self.old) (taken self.new) result bytes.now }
        ensures failure { has_failed self.new ≡ is_refusal result }
        ensures count { Counts (stuck self.old) (stuck self.new) (stuck_by result) };

    /// Whether a write has failed.
    fn failed(&self) -> bool
        ensures { result ≡ has_failed self.now };
}
