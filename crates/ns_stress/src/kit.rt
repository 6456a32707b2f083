//! What each thread of a round has.

ghost use Rattle.std.specs.Prelude.{◌<◌};

use crate::door::Door;
use crate::wish::Wish;
use ns_monitor::{Handle, Mode, Reading, Writing};
use ns_note::watcher::Watcher;
use rand_core::Rng;
use rand_pcg::Pcg32;

/// A thread's handle on the monitor of a round.
pub type RowHandle<'a> = Handle<'a, Wish, 4>;

/// A section of it that writes.
pub type RowWriting<'a> = Writing<'a, Wish, 4>;

/// A section of it that reads.
pub type RowReading<'a> = Reading<'a, Wish, 4>;

/// What a thread has done and found, or all of them.
#[derive(Clone, Copy, Default)]
pub struct Outcome {
    /// How much it has added to the sum.
    pub added: u64,
    /// How many sleepers its calls have woken.
    pub called: u64,
    /// How often it was woken as it slept.
    pub woken: u64,
    /// The first thing that was not as it has to be.
    pub wrong: Option<&'static str>,
}

/// What a thread has beside its handle on the monitor.
#[derive(Drop)]
pub struct Kit<'e, 'd> {
    /// Its watcher of clock and notes.
    pub watcher: Watcher<'e>,
    /// Who is inside a section, and how many still work.
    pub door: &'d Door,
    /// How many goods there may be.
    pub most: u64,
    /// Where its draws come from.
    pub draws: Pcg32,
    /// What it has done and found.
    pub outcome: Outcome,
}

impl Kit<'_, '_> {
    /// One of so many numbers, from 0 on.
    ///
    /// Needs one.
    pub fn draw(&mut self, many: u32) -> u32
        requires { 0 < many }
        ensures { result < many }
    {
        self.draws.next_u32() % many
    }

    /// Notes what is wrong, if it is and nothing was before.
    pub fn expect(&mut self, right: bool, what: &'static str) {
        if !right && self.outcome.wrong.is_none() {
            self.outcome.wrong = Some(what);
        }
    }

    /// Says that it is inside a section in this mode, which has just begun.
    pub fn enter(&mut self, mode: Mode) {
        let alone = self.door.enter(mode);
        self.expect(alone, "two are inside");
    }
}
