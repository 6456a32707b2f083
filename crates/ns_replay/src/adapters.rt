//! A source over a reader of std, and a sink over a writer.

ghost use Rattle.std.specs.Prelude.{◌≡◌, ◌≢◌, false, None, IfOk, IfErr, OnErr};
ghost use Rattle.std.specs.IoError.{error_kind};

use crate::streams::{Got, Sink, Source};
use std::io::{self, ErrorKind, Read, Write};

/// What a read of std gave. An interrupted one may be made again, and any other error is a
/// failure.
fn got_of(answer: io::Result<usize>) -> Got
    ensures gave { IfOk answer (λ count. result ≡ Got.Bytes count) }
    ensures interrupted { IfErr answer (λ error. error_kind error ≡ ErrorKind.Interrupted → result ≡ Got.Interrupted) }
    ensures failed { IfErr answer (λ error. error_kind error ≢ ErrorKind.Interrupted → result ≡ Got.Failed) }
{
    match answer {
        Ok(count) => Got::Bytes(count),
        Err(error) => {
            if error.kind() == ErrorKind::Interrupted {
                Got::Interrupted
            } else {
                Got::Failed
            }
        }
    }
}

/// What a write of std took: none where it returned an error, which is a failure also where it
/// was interrupted.
fn taken_of(answer: io::Result<usize>) -> Option<usize>
    ensures took { IfOk answer (λ count. result ≡ Some count) }
    ensures failed { OnErr answer (result ≡ None) }
{
    answer.ok()
}

/// A source over a reader. An interrupted read is no failure.
#[derive(Drop)]
pub struct OverRead<R: Drop> {
    inner: R,
    has_failed: bool,
    asked: u64,
    ends: u64,
    last: usize,
}

impl<R: Read + Drop> OverRead<R> {
    /// A source over the reader, which has not failed.
    pub fn new(inner: R) -> Self
        ensures { result ≡ record { inner = inner; has_failed = false; asked = 0; ends = 0; last = 0 } }
    {
        OverRead {
            inner,
            has_failed: false,
            asked: 0,
            ends: 0,
            last: 0,
        }
    }
}

impl<R: Read + Drop> Source for OverRead<R> {
    ghost to_come = { λ s. R.remaining s.inner };

    ghost has_failed = { λ s. s.has_failed };

    ghost asked = { λ s. s.asked };

    ghost ends = { λ s. s.ends };

    ghost last = { λ s. s.last };

    fn read(&mut self, buffer: &mut [u8]) -> Got {
        let got = got_of(self.inner.read(buffer));
        self.asked = self.asked.wrapping_add(1);
        self.last = 0;
        match got {
            Got::Bytes(0) => self.ends = self.ends.wrapping_add(1),
            Got::Bytes(count) => self.last = count,
            Got::Interrupted => {}
            Got::Failed => self.has_failed = true,
        }
        got
    }

    fn failed(&self) -> bool {
        self.has_failed
    }
}

/// A sink over a writer. A write that returns an error has failed, an interrupted one too.
#[derive(Drop)]
pub struct OverWrite<W: Drop> {
    inner: W,
    has_failed: bool,
    stuck: u64,
}

impl<W: Write + Drop> OverWrite<W> {
    /// A sink over the writer, which has not failed.
    pub fn new(inner: W) -> Self
        ensures { result ≡ record { inner = inner; has_failed = false; stuck = 0 } }
    {
        OverWrite {
            inner,
            has_failed: false,
            stuck: 0,
        }
    }
}

impl<W: Write + Drop> Sink for OverWrite<W> {
    ghost taken = { λ s. W.contents s.inner };

    ghost has_failed = { λ s. s.has_failed };

    ghost stuck = { λ s. s.stuck };

    fn write(&mut self, bytes: &[u8]) -> Option<usize> {
        let taken = taken_of(self.inner.write(bytes));
        match taken {
            Some(0) => self.stuck = self.stuck.wrapping_add(1),
            Some(_) => {}
            None => self.has_failed = true,
        }
        taken
    }

    fn failed(&self) -> bool {
        self.has_failed
    }
}
