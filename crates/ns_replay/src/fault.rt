//! Why a replay wrote nothing, or not all.

ghost use Rattle.std.specs.Prelude.{◌≡◌};
ghost use Rattle.ns_replay.specs.declared.fault.Fault.TheVariants.{OutOfMemory};

use crate::path::ScriptPath;
use std::alloc::{AllocError, AllocFailed};
use std::fmt;
use thiserror::Error;

/// Why a replay wrote nothing, or not all. Each prints as one line of text.
#[derive(Clone, Copy, Debug, Drop, PartialEq, Eq, Error)]
pub enum Fault {
    /// An allocation was refused.
    OutOfMemory,
    /// The bytes are no JSON text.
    NotJson,
    /// What stands there is missing, or of the wrong kind.
    BadScript(ScriptPath),
    /// There is more there than a script may have.
    TooMany(ScriptPath),
    /// The schedule needs more turns than the limit.
    StepLimit,
    /// The source failed, or did not end in as many reads as it may take.
    Read,
    /// The sink failed, or took no byte.
    Write,
}

impl fmt::Display for Fault {
    ghost use Rattle.std.specs.Prelude.{Some};
    ghost use Rattle.ns_replay.specs.Faults.{fault_text};

    ghost output = { λ fault. Some (fault_text fault) };

    fn fmt<W: fmt::Write>(&self, f: &mut fmt::Formatter<W>) -> fmt::Result {
        match self {
            Fault::OutOfMemory => write!(f, "refused 2: out of memory"),
            Fault::NotJson => write!(f, "refused 6: not JSON"),
            Fault::BadScript(path) => write!(f, "refused 7: bad script at {path}"),
            Fault::TooMany(path) => write!(f, "refused 8: too many at {path}"),
            Fault::StepLimit => write!(f, "refused 9: step limit"),
            Fault::Read => write!(f, "fault 10: read"),
            Fault::Write => write!(f, "fault 11: write"),
        }
    }
}

impl From<ns_world::fault::Fault> for Fault {
    ghost use Rattle.ns_replay.specs.Faults.{fault_of_world};

    ghost from_gives = { λ refused fault. fault ≡ fault_of_world refused };

    /// What a world refuses. With a seat for each thread of a script that was read, it refuses
    /// neither a number of seats nor a seat.
    fn from(refused: ns_world::fault::Fault) -> Fault {
        match refused {
            ns_world::fault::Fault::OutOfMemory => Fault::OutOfMemory,
            ns_world::fault::Fault::NoSuchSeat => Fault::BadScript(ScriptPath::Schedule),
            ns_world::fault::Fault::TooManySeats => Fault::TooMany(ScriptPath::Threads),
            ns_world::fault::Fault::StepLimit => Fault::StepLimit,
        }
    }
}

impl From<AllocError> for Fault {
    ghost from_gives = { λ _ fault. fault ≡ OutOfMemory };

    fn from(_error: AllocError) -> Fault {
        Fault::OutOfMemory
    }
}

impl<T: Drop> From<AllocFailed<T>> for Fault {
    ghost from_gives = { λ _ fault. fault ≡ OutOfMemory };

    fn from(_error: AllocFailed<T>) -> Fault {
        Fault::OutOfMemory
    }
}
