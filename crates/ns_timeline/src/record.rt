//! The changes of a run, kept to be drawn from once the run is over.

ghost use Rattle.std.specs.Prelude.{◌≡◌, []};
ghost use Rattle.ns_timeline.specs.Records.{Keeps};

use crate::paper::{Change, Paper};
use std::alloc::{AllocError, Global};

/// How many changes are kept.
const KEPT: usize = 2_000;

/// The first changes of a run, and how many there were beyond.
#[derive(Drop)]
pub struct Record {
    /// The changes, in order.
    pub changes: Vec<Change>,
    /// How many more there were.
    pub left: u32,
}

impl Record {
    /// No change.
    pub fn new(alloc: Global) -> Record
        ensures { result.changes.items ≡ [] }
    {
        Record {
            changes: Vec::new(alloc),
            left: 0,
        }
    }
}

impl Paper for Record {
    ghost keeps = { Keeps };

    fn take(&mut self, change: &Change) -> Result<(), AllocError> {
        if KEPT <= self.changes.len() {
            self.left = self.left.saturating_add(1);
            return Ok(());
        }
        Ok(self.changes.push(*change)?)
    }
}
