//! How to replay, and what to print.

/// How to replay, and what to print beside the finished calls, the threads whose calls are in
/// progress, and the row.
#[derive(Clone, Copy, Debug, Drop, PartialEq, Eq)]
pub struct Options {
    /// Each event of the history.
    pub history: bool,
    /// How many conditions each release tested.
    pub tests: bool,
    /// The lock word, its queue, and the wakes that are owed.
    pub state: bool,
    /// How many turns the schedule may need.
    pub limit: u32,
}
