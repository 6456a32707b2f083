//! What happens to a clock and a tree of notes, as events.

/// One event of an environment, with the seat of its caller.
///
/// To make a note takes two events: its number is taken first, and only then does the note
/// itself stand, with its parent, if any, and its deadline, if any. Other callers may see the
/// number taken while there is no note yet. A moment is in ticks.
#[derive(Clone, Copy, Debug)]
pub enum EnvEvent {
    /// The caller takes the next number.
    Take {
        /// The caller's seat.
        who: u8,
        /// The number.
        note: u8,
    },
    /// The caller makes the note whose number it has taken.
    New {
        /// The caller's seat.
        who: u8,
        /// The note's number.
        note: u8,
        /// The number of the note that it stands below, if it stands below one.
        parent: Option<u8>,
        /// The moment from which on it is notified, in ticks, if it has one.
        deadline: Option<u64>,
    },
    /// The caller notifies the note.
    Notify {
        /// The caller's seat.
        who: u8,
        /// The note's number.
        note: u8,
    },
    /// The caller moves the clock on to the moment, or leaves it where it stands later.
    Advance {
        /// The caller's seat.
        who: u8,
        /// The moment, in ticks.
        to: u64,
    },
}
