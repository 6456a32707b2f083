//! Where the program says what is no text of a run.

ghost use Rattle.std.specs.Prelude.{◌≡◌, ◌&&◌, ◌||◌, not, ℕ, List, Bool, Option};
ghost use Rattle.std.specs.Io.KnownBytes.{Keeps};
ghost use Rattle.std.specs.Fmt.{with_newline};
ghost use Rattle.clap.specs.Words.{kind_of};
ghost use Rattle.ns_command.specs.Printing.{PrintsText, PrintsOn, is_request};

use clap::Error;
use std::fmt::Display;

/// The error side of a program, and its output side as far as clap answers there.
///
/// What was printed are ghost members, known only where the printer knows it.
pub trait Prints {
    /// What stands on the error side, where it is known.
    ghost errors: { Self → Option (List ℕ) };

    /// What stands on the output side, where it is known.
    ghost output: { Self → Option (List ℕ) };

    /// Whether printing on the error side has failed.
    ghost has_failed: { Self → Bool };

    /// Whether printing on the output side has failed.
    ghost has_failed_output: { Self → Bool };

    /// Prints a line on the error side, and answers whether it could.
    fn error_line<D: Display + Drop>(&mut self, line: D) -> bool
        ensures errors { let text = with_newline (D.output line) in
            PrintsText (errors self.old) (errors self.new) result text }
        ensures output { Keeps (output self.old) (output self.new) }
        ensures failure { has_failed self.new ≡ (has_failed self.old || not result) }
        ensures other { has_failed_output self.new ≡ has_failed_output self.old };

    /// Prints what clap says of the words: help and the version on the output side, how the words
    /// are wrong on the error side. Answers whether it could.
    fn answer(&mut self, answer: &Error) -> bool
        ensures errors { let is_mine = not (is_request (kind_of answer.now)) in
            PrintsOn is_mine (errors self.old) (errors self.new) }
        ensures output { let is_mine = is_request (kind_of answer.now) in
            PrintsOn is_mine (output self.old) (output self.new) }
        ensures failure { let is_mine = not (is_request (kind_of answer.now)) in
            has_failed self.new ≡ (has_failed self.old || (is_mine && not result)) }
        ensures output_failure { let is_mine = is_request (kind_of answer.now) in
            has_failed_output self.new ≡ (has_failed_output self.old || (is_mine && not result)) };
}
