//! How a run of the program ends.

ghost use Rattle.std.specs.Prelude.{◌≡◌};
ghost use Rattle.ns_command.specs.Endings.{outcome_status};

use ns_replay::Fault;
use std::process::{ExitCode, Termination};

/// How a run of the program ended.
#[derive(Clone, Copy, Debug, Drop, PartialEq, Eq)]
pub enum Ending {
    /// The script was run, and what the words ask for was written.
    Replayed,
    /// Live threads have ended, and how many items they had and their sum were printed.
    Lived,
    /// A live thread could not be made, and a line on the error side says so.
    NoThread,
    /// The run that this seed draws needs more turns than the limit, and a line on the error side says so.
    PastLimit(u64),
    /// There was a fault, and its line stands on the error side.
    Failed(Fault),
    /// Help or the version was asked for, and stands on the output side.
    HelpShown,
    /// The words are wrong, and a text on the error side says how.
    Misused,
}

/// The exit status of what a replay came to: 0 where the whole text was written, 4 where a stream was at
/// fault, and 3 for every refusal.
pub fn exit_status(outcome: &Result<(), Fault>) -> u8
    ensures { result ≡ outcome_status outcome.now }
{
    match outcome {
        Ok(()) => 0,
        Err(Fault::Read | Fault::Write) => 4,
        Err(_) => 3,
    }
}

impl Ending {
    ghost use Rattle.std.specs.Prelude.{◌≡◌};
    ghost use Rattle.ns_command.specs.Endings.{status_of};

    /// The exit status: 0 for what is done, and for help and the version, 2 where the words are
    /// wrong, 4 where a stream was at fault, and 3 for every refusal.
    pub fn status(self) -> u8
        ensures { result ≡ status_of self }
    {
        match self {
            Ending::Replayed | Ending::Lived | Ending::HelpShown => 0,
            Ending::Misused => 2,
            Ending::NoThread | Ending::PastLimit(_) => 3,
            Ending::Failed(fault) => exit_status(&Err(fault)),
        }
    }
}

impl Termination for Ending {
    ghost use Rattle.std.specs.Prelude.{◌≡◌};
    ghost use Rattle.std.specs.Process.{exit_status};
    ghost use Rattle.ns_command.specs.Endings.{status_of};

    /// A `main` that gives an ending ends the process with its status.
    fn report<R: Eprint>(self, _rt: &R) -> ExitCode
        ensures { exit_status result ≡ status_of self }
    {
        ExitCode::from(self.status())
    }
}
