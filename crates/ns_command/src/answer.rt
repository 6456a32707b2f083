//! What the program's words came to.

use crate::ending::Ending;

/// What the words came to: an end, or work that is left to the caller.
///
/// `run` makes no threads. So the contracts stay over streams, replays need no handle, and this
/// crate stands on none between threads. `main` makes them by ns_live, and `finish_live` prints
/// what came of it.
#[derive(Clone, Copy, Debug, Drop, PartialEq, Eq)]
pub enum Answer {
    /// All that was asked for is done, or refused.
    Ended(Ending),
    /// Live threads are asked for, and so many items. Nothing was done yet.
    LiveAsked(u32),
}
