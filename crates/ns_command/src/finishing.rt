//! The end of a run by what a replay answered.

ghost use Rattle.std.specs.Prelude.{◌≡◌};
ghost use Rattle.std.specs.Io.KnownBytes.{Keeps};
ghost use Rattle.ns_command.specs.Endings.{Says, ending_by_seeds, ending_of};

use crate::ending::Ending;
use crate::prints::Prints;
use ns_replay::Fault;
use std::fmt;

/// The seed of a run that needs more turns than the limit.
#[derive(Clone, Copy, Drop)]
struct PastLimit(u64);

impl fmt::Display for PastLimit {
    ghost use Rattle.std.specs.Prelude.{◌++◌, Some, codes, decimal};

    ghost output = { λ past. Some (codes "refused 9: step limit by seed " ++ decimal past.0) };

    fn fmt<W: fmt::Write>(&self, f: &mut fmt::Formatter<W>) -> fmt::Result {
        let seed = self.0;
        write!(f, "refused 9: step limit by seed {seed}")
    }
}

/// Ends the runs of some seeds, the last of which is given, with the fault's line on the error side if there is
/// a fault.
pub fn finish_seeds<P: Prints>(
    printer: &mut P,
    outcome: Result<(), Fault>,
    last: Option<u64>,
) -> Ending
    ensures ending { result ≡ ending_by_seeds outcome last }
    ensures said { let failed = P.has_failed printer.new in
        Says failed (P.errors printer.old) (P.errors printer.new) result }
    ensures output { Keeps (P.output printer.old) (P.output printer.new) }
    ensures other { P.has_failed_output printer.new ≡ P.has_failed_output printer.old }
{
    match (outcome, last) {
        (Err(Fault::StepLimit), Some(seed)) => {
            let _ = printer.error_line(PastLimit(seed));
            Ending::PastLimit(seed)
        }
        (outcome, _) => finish(printer, outcome),
    }
}

/// Ends a run, with the fault's line on the error side if there is a fault.
pub fn finish<P: Prints>(printer: &mut P, outcome: Result<(), Fault>) -> Ending
    ensures ending { result ≡ ending_of outcome }
    ensures said { let failed = P.has_failed printer.new in
        Says failed (P.errors printer.old) (P.errors printer.new) result }
    ensures output { Keeps (P.output printer.old) (P.output printer.new) }
    ensures other { P.has_failed_output printer.new ≡ P.has_failed_output printer.old }
{
    match outcome {
        Ok(()) => Ending::Replayed,
        Err(fault) => {
            // Where the error side is at fault, nobody is left to be told of it.
            let _ = printer.error_line(fault);
            Ending::Failed(fault)
        }
    }
}
