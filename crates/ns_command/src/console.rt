//! The standard error and output of a process, as a place to print.

ghost use Rattle.std.specs.Prelude.{◌≡◌, false, None};

use crate::prints::Prints;
use clap::Error;
use std::fmt::Display;

/// A place to print over a runtime's streams, of which nothing is known.
#[derive(Drop)]
pub struct Console<R: Drop> {
    rt: R,
    has_failed: bool,
    has_failed_output: bool,
}

impl<R: Print + Eprint + Drop> Console<R> {
    /// A place to print over the runtime, where nothing has failed.
    pub fn new(rt: R) -> Self
        ensures { result ≡ record { rt = rt; has_failed = false; has_failed_output = false } }
    {
        Console {
            rt,
            has_failed: false,
            has_failed_output: false,
        }
    }
}

impl<R: Print + Eprint + Drop> Prints for Console<R> {
    ghost errors = { λ _. None };

    ghost output = { λ _. None };

    ghost has_failed = { λ c. c.has_failed };

    ghost has_failed_output = { λ c. c.has_failed_output };

    fn error_line<D: Display + Drop>(&mut self, line: D) -> bool {
        let done = self.rt.eprintln(line).is_ok();
        self.has_failed |= !done;
        done
    }

    fn answer(&mut self, answer: &Error) -> bool {
        let done = answer.print(&self.rt).is_ok();
        if answer.use_stderr() {
            self.has_failed |= !done;
        } else {
            self.has_failed_output |= !done;
        }
        done
    }
}
