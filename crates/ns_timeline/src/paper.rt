//! What a turn of a run has changed, and where that goes.

ghost use Rattle.std.specs.Prelude.{OnOk};
ghost use Rattle.ns_timeline.specs.declared.paper.Change.{Change};

use crate::sight::{Sight, has};
use ns_replay::ScriptCondition;
use ns_world::call::Call;
use ns_world::reply::Reply;
use std::alloc::AllocError;

/// A turn that has changed something, or has ended a call.
#[derive(Clone, Copy)]
pub struct Change {
    /// Which turn it is, from 1.
    pub turn: u32,
    /// Whose it is.
    pub thread: u8,
    /// The call that the thread is in.
    pub call: Call<ScriptCondition>,
    /// What was seen before it.
    pub before: Sight,
    /// What is seen after it.
    pub after: Sight,
    /// The row's cells after it.
    pub row: [u64; 8],
    /// What the call has answered, if it is over.
    pub reply: Option<Reply>,
}

impl Change {
    /// Whether the thread's call begins by it.
    pub fn begins(&self) -> bool {
        !has(self.before.busy, self.thread)
    }
}

/// Where the changes go, one after the other.
pub trait Paper {
    /// What it may become by a change that it takes.
    ghost keeps: { Self → Change → Self → Type 0 };

    /// Takes the next change.
    fn take(&mut self, change: &Change) -> Result<(), AllocError>
        ensures { OnOk result (keeps self.old change.now self.new) };
}
