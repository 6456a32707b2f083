//! The end of a run whose words can't be read.

ghost use Rattle.std.specs.Prelude.{◌≡◌, ◌≢◌};
ghost use Rattle.std.specs.Io.KnownBytes.{Keeps};
ghost use Rattle.std.specs.IoError.{error_kind};
ghost use Rattle.ns_command.specs.Endings.{Says};

use crate::ending::Ending;
use crate::finishing::finish;
use crate::prints::Prints;
use ns_replay::Fault;
use std::io::{Error, ErrorKind};

/// Ends a run whose words can't be read: for want of memory, which is a fault, or because they are
/// no text, which is a wrong use of the program.
pub fn without_words<P: Prints>(printer: &mut P, error: &Error) -> Ending
    ensures memory { error_kind error.now ≡ ErrorKind.OutOfMemory
        → result ≡ Ending.Failed Fault.OutOfMemory }
    ensures no_text { error_kind error.now ≢ ErrorKind.OutOfMemory → result ≡ Ending.Misused }
    ensures said { let failed = P.has_failed printer.new in
        Says failed (P.errors printer.old) (P.errors printer.new) result }
    ensures output { Keeps (P.output printer.old) (P.output printer.new) }
{
    if error.kind() == ErrorKind::OutOfMemory {
        return finish(printer, Err(Fault::OutOfMemory));
    }
    let _ = printer.error_line("error: the words are no text");
    Ending::Misused
}
