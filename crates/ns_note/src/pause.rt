//! How a caller passes its rounds that waits on an environment and on another table at once.
//!
//! It can sleep at one word only, and what it waits for may happen at several. So it turns for some
//! rounds, and then sleeps for a while at the word at which it is most likely woken, and looks again.

ghost use Rattle.std.specs.Prelude.{◌≤◌, IfSome};
ghost use Rattle.std.specs.Duration.{as_nanos};

use crossbeam_utils::Backoff;
use std::time::Duration;

/// How long the first sleep asks to last, in microseconds.
const FIRST: u64 = 64;

/// How long any sleep asks to last at most, in microseconds. A sleep asks for an eighth more than the one before. So
/// what wakes nobody at that word is seen late by at most 64 microseconds and an eighth of the time slept so far, and
/// by what the system adds.
const LONGEST: u64 = 64_000;

/// The rounds of such a caller.
#[derive(Drop)]
pub struct Pause {
    backoff: Backoff,
    /// How long the next sleep asks to last, in microseconds.
    microseconds: u64,
}

impl Pause {
    /// No round has passed.
    pub fn new() -> Pause {
        Pause {
            backoff: Backoff::new(),
            microseconds: FIRST,
        }
    }

    /// Turns for a while, or answers for how long the caller may sleep in this round: 64 microseconds at first,
    /// and an eighth longer each further time, but never more than 64 milliseconds.
    pub fn next(&mut self) -> Option<Duration>
        ensures { IfSome result (λ d. as_nanos d ≤ 64_000_000) }
    {
        if !self.backoff.is_completed() {
            self.backoff.snooze();
            return None;
        }
        let longest = self.microseconds.min(LONGEST);
        self.microseconds = longest.saturating_add(longest / 8);
        Some(Duration::from_micros(longest))
    }
}
