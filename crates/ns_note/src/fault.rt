//! What the calls of an environment refuse.

/// All 64 notes of an environment are made, or are being made.
#[derive(Clone, Copy, Debug, Drop, PartialEq, Eq)]
pub struct NotesFull;
