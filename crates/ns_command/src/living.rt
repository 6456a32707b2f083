//! The end of a run of live threads.

ghost use Rattle.std.specs.Prelude.{◌≡◌, false, IfOk, string_bytes};
ghost use Rattle.std.specs.Io.KnownBytes.{Keeps};
ghost use Rattle.ns_command.specs.Endings.{Says};
ghost use Rattle.ns_command.specs.Lives.{EndsLive, WritesLines, WritesLive, live_lines};

use crate::ending::Ending;
use crate::finishing::finish;
use crate::prints::Prints;
use ns_replay::{Fault, Sink, write_all};
use std::alloc::{AllocError, Global};

/// Why live threads have no sum.
///
/// It is a type of its own, into which `main` turns ns_live's, so that this crate doesn't stand on that one.
/// ns_live's own prints in plain words; the lines with numbers are the command's.
#[derive(Clone, Copy, Debug, Drop, PartialEq, Eq)]
pub enum NoSum {
    /// An allocation was refused.
    OutOfMemory,
    /// A thread could not be made.
    NoThread,
}

/// What is printed where so many items had this sum.
fn live_text(alloc: Global, items: u32, sum: u64) -> Result<String, AllocError>
    ensures { IfOk result (λ text. string_bytes text ≡ live_lines items sum) }
{
    let mut text = String::new(alloc);
    writeln!(text, "items {items}")?;
    writeln!(text, "sum {sum}")?;
    Ok(text)
}

/// Writes how many items there were, and their sum.
fn write_sum<W: Sink>(alloc: Global, sink: &mut W, items: u32, sum: u64) -> Result<(), Fault>
    requires { W.has_failed sink.old ≡ false }
    ensures { WritesLines (W.taken sink.old) (W.taken sink.new) (live_lines items sum) result }
{
    let text = live_text(alloc, items, sum)?;
    write_all(sink, text.as_bytes())
}

/// Ends a run of live threads, by what they answered: writes how many items there were and their sum to
/// the sink, or the line of what went wrong to the error side.
///
/// Needs a sink that has not failed.
pub fn finish_live<W: Sink, P: Prints>(
    alloc: Global,
    items: u32,
    outcome: Result<u64, NoSum>,
    sink: &mut W,
    printer: &mut P,
) -> Ending
    requires { W.has_failed sink.old ≡ false }
    ensures ending { EndsLive outcome result }
    ensures written { WritesLive (W.taken sink.old) (W.taken sink.new) items outcome result }
    ensures said { let failed = P.has_failed printer.new in
        Says failed (P.errors printer.old) (P.errors printer.new) result }
    ensures output { Keeps (P.output printer.old) (P.output printer.new) }
{
    match outcome {
        Ok(sum) => match write_sum(alloc, sink, items, sum) {
            Ok(()) => Ending::Lived,
            Err(fault) => finish(printer, Err(fault)),
        },
        Err(NoSum::OutOfMemory) => finish(printer, Err(Fault::OutOfMemory)),
        Err(NoSum::NoThread) => {
            // Where the error side is at fault, nobody is left to be told of it.
            let _ = printer.error_line("refused 12: no thread");
            Ending::NoThread
        }
    }
}
