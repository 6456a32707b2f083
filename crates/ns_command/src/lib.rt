//! The command: from the words of the program to its exit status.
//!
//! [`run`] reads the words, replays a script by them, says on the error side what went wrong, and
//! tells how it all [ended](Ending), or that [live threads are asked for](Answer), which are its caller's to
//! make. It is generic over its streams and over where it prints, so that its contract can speak of what was
//! read, written and printed.
//!
//! ns_cli calls it as the program, and ns_tests for each of its rows. It rests on ns_replay, ns_timeline and
//! ns_outcomes for scripts, on clap for the words, and on no crate between threads.
#![tactic(auto)]

mod answer;
mod command;
mod console;
mod ending;
mod finishing;
mod living;
mod prints;
mod running;
mod unread;
mod wanted;

pub use answer::Answer;
pub use console::Console;
pub use ending::{Ending, exit_status};
pub use living::{NoSum, finish_live};
pub use prints::Prints;
pub use running::run;
pub use unread::without_words;
