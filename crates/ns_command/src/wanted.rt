//! What the words of the program ask for.

use ns_outcomes::Seeds;
use ns_replay::Options;

/// What right words ask for.
#[derive(Clone, Copy, Debug, PartialEq, Eq)]
pub enum Wanted {
    /// A replay by these options.
    Replay(Options),
    /// A picture of a run of at most so many turns, as text.
    Timeline(u32),
    /// A drawing of a run of at most so many turns, as one SVG document.
    Drawing(u32),
    /// The outcomes of a script under schedules that these seeds draw.
    Outcomes(Seeds),
    /// A script with the schedule that this seed draws, whose run has at most so many turns.
    Schedule(u32, u32),
    /// Live threads, and so many items.
    Live(u32),
}
