//! Schedules, and what a run of one prints.

use crate::reply::Reply;

/// A word of a schedule: the thread takes this many items in a row. An item of a thread without
/// a call in progress starts its next one, and then makes one step; a `whole` one makes steps of
/// that call up to its answer, or until the call has to wait. With no call left an item does nothing. Each step is a turn, and
/// so is an item that makes none.
#[derive(Clone, Copy, Debug, PartialEq, Eq)]
pub struct Turn {
    /// Whose items they are: a seat's number.
    pub thread: u8,
    /// Whether an item goes on until its call returns or is idle.
    pub whole: bool,
    /// How many items there are.
    pub times: u32,
}

/// A finished call.
#[derive(Clone, Copy, Debug, PartialEq, Eq)]
pub struct Line {
    /// The seat whose call it was.
    pub thread: u8,
    /// Which of the seat's calls it was, from 0.
    pub call: u16,
    /// What it answered.
    pub reply: Reply,
    /// How many conditions its last scan tested.
    pub tests: u32,
}
