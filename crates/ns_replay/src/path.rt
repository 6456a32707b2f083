//! Paths in a script.
//!
//! A path is kept as the member that it names, with the numbers in it, so a fault that holds one
//! takes no memory.

use std::fmt;

/// A path in a script: where something stands.
#[derive(Clone, Copy, Debug, Drop, PartialEq, Eq)]
pub enum ScriptPath {
    /// The whole text.
    Root,
    /// The member `version`.
    Version,
    /// The member `counters`.
    Counters,
    /// One of the counters.
    Counter(usize),
    /// The member `onces`.
    Onces,
    /// The member `cvs`.
    Variables,
    /// The member `threads`.
    Threads,
    /// The calls of a thread.
    Thread(usize),
    /// A call of a thread.
    Call(usize, usize),
    /// The member `schedule`.
    Schedule,
    /// A word of the schedule.
    Word(usize),
}

impl fmt::Display for ScriptPath {
    ghost use Rattle.std.specs.Prelude.{Some};
    ghost use Rattle.ns_replay.specs.Faults.{path_text};

    ghost output = { λ path. Some (path_text path) };

    fn fmt<W: fmt::Write>(&self, f: &mut fmt::Formatter<W>) -> fmt::Result {
        match self {
            ScriptPath::Root => write!(f, "/"),
            ScriptPath::Version => write!(f, "/version"),
            ScriptPath::Counters => write!(f, "/counters"),
            ScriptPath::Counter(counter) => write!(f, "/counters/{counter}"),
            ScriptPath::Onces => write!(f, "/onces"),
            ScriptPath::Variables => write!(f, "/cvs"),
            ScriptPath::Threads => write!(f, "/threads"),
            ScriptPath::Thread(thread) => write!(f, "/threads/{thread}"),
            ScriptPath::Call(thread, call) => write!(f, "/threads/{thread}/{call}"),
            ScriptPath::Schedule => write!(f, "/schedule"),
            ScriptPath::Word(word) => write!(f, "/schedule/{word}"),
        }
    }
}
