//! What may end a wait before its condition is met, and what did.

ghost use Rattle.std.specs.Prelude.{◌≡◌};
ghost use Rattle.ns_env.specs.Walks.{is_limited};

/// What may end a wait early: a deadline, in ticks of the clock, and a note, by its number. A wait
/// with neither goes on until its condition is met.
#[derive(Clone, Copy, Debug, PartialEq, Eq)]
pub struct Limits {
    /// The moment from which on the wait ends, in ticks.
    pub deadline: Option<u64>,
    /// The number of the note that ends the wait once it is notified.
    pub note: Option<u8>,
}

impl Limits {
    /// Whether anything may end a wait early.
    pub fn is_some(self) -> bool
        ensures { result ≡ is_limited self }
    {
        self.deadline.is_some() || self.note.is_some()
    }
}

/// What ended a wait early: its deadline passed, or its note was notified.
#[derive(Clone, Copy, Debug, PartialEq, Eq)]
pub enum Cause {
    /// Its deadline passed.
    Expired,
    /// Its note was notified.
    Notified,
}
