//! A note as it stands, and whether a moment has come.

ghost use Rattle.std.specs.Prelude.{◌≡◌};
ghost use Rattle.ns_env.specs.Prelude.{earlier as earlier_of, is_due as is_due_of, is_over as is_over_of, standing_of};

/// A note as it stands.
#[derive(Clone, Copy, Debug, PartialEq, Eq)]
pub struct NoteWord {
    /// Whether it was notified by a call. A note whose deadline has come, or whose parent is
    /// notified, need not be.
    pub notified: bool,
    /// Whether the note is made. A number that is only taken, or not even that, has no note yet.
    pub made: bool,
    /// The number of its parent, if it has one.
    pub parent: Option<u8>,
    /// The moment from which on it is notified, in ticks, if it has one.
    pub deadline: Option<u64>,
}

impl NoteWord {
    /// Whether the note itself is notified, by a call or by its deadline. Needs the clock, in ticks.
    pub fn is_over(self, clock: u64) -> bool
        ensures { result ≡ is_over_of clock (standing_of self) }
    {
        self.notified || is_due(self.deadline, clock)
    }
}

/// Whether the clock has come to the deadline, both in ticks. Where there is none, it never has.
pub fn is_due(deadline: Option<u64>, clock: u64) -> bool
    ensures { result ≡ is_due_of clock deadline }
{
    match deadline {
        None => false,
        Some(moment) => moment <= clock,
    }
}

/// The earlier of two deadlines, where there are two.
pub fn earlier(one: Option<u64>, other: Option<u64>) -> Option<u64>
    ensures { result ≡ earlier_of one other }
{
    match (one, other) {
        (Some(moment), Some(later)) => Some(moment.min(later)),
        (None, deadline) => deadline,
        (deadline, None) => deadline,
    }
}
