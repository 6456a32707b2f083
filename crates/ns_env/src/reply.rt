//! What the calls on the clock and the notes answer.

/// What a call on the clock and the notes answers.
#[derive(Clone, Copy, Debug, PartialEq, Eq)]
pub enum EnvReply {
    /// Done.
    Succeeded,
    /// The number of a note that was made.
    Number(u64),
    /// No note was made, since 64 numbers are taken.
    NotesFull,
    /// Whether a note is notified.
    Is(bool),
    /// The expiry of a note, in ticks, if it has one.
    Expiry(Option<u64>),
}
