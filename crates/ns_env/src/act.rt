//! What one atomic step on the clock and the notes does, and what it finds.

use crate::note::NoteWord;

/// One atomic step on the clock or the notes. A moment is in ticks.
#[derive(Clone, Copy)]
pub enum EnvAct {
    /// Loads the number that the next note gets.
    LoadNext,
    /// Takes the number that the next note gets.
    TakeNext,
    /// Stores the note of this number, with this parent and this deadline.
    StoreNote(u8, Option<u8>, Option<u64>),
    /// Notifies the note.
    NotifyNote(u8),
    /// Moves the clock on to the moment, or leaves it where it stands later.
    MoveClock(u64),
    /// Loads the clock.
    LoadClock,
    /// Loads the note.
    LoadNote(u8),
}

/// What a step on the clock or the notes found.
#[derive(Clone, Copy)]
pub enum EnvFound {
    /// The next note's number.
    NextNumber(u8),
    /// The next note's number as it was before it was taken.
    Taken(u8),
    /// The step was made.
    Stored,
    /// The clock.
    Clock(u64),
    /// A note.
    Note(NoteWord),
}
