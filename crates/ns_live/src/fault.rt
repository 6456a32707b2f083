//! Why there is no sum.

use std::fmt;
use thiserror::Error;

/// Why there is no sum. Each prints as a few words on one line.
#[derive(Clone, Copy, Debug, Drop, PartialEq, Eq, Error)]
pub enum LiveFault {
    /// An allocation was refused.
    OutOfMemory,
    /// A thread could not be made.
    NoThread,
}

impl fmt::Display for LiveFault {
    ghost use Rattle.std.specs.Prelude.{Some};
    ghost use Rattle.ns_live.specs.Faults.{live_fault_text};

    ghost output = { λ fault. Some (live_fault_text fault) };

    fn fmt<W: fmt::Write>(&self, f: &mut fmt::Formatter<W>) -> fmt::Result {
        match self {
            LiveFault::OutOfMemory => write!(f, "out of memory"),
            LiveFault::NoThread => write!(f, "a thread could not be made"),
        }
    }
}
