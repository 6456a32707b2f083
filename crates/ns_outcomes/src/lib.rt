//! What a script can come to under schedules that are drawn at random.
//!
//! [`outcomes`] reads a script as `ns_replay::replay` does, and runs it once for each of some seeds: its own
//! schedule first, and then turns of threads that the seed draws, until no thread can go on. It writes each
//! distinct outcome with how many seeds came to it. [`schedule`] writes the script with the schedule of one
//! seed's run in it, so that a replay or a picture shows how an outcome came about. It draws schedules, and
//! doesn't enumerate them: of those that it hasn't drawn it claims nothing. ns_command calls both; scripts are
//! read by ns_replay, and run in worlds of ns_world.
//!
//! A run is made turn by turn by ns_world, which counts it as it counts any run; beside it stands which threads
//! can go on. The contracts say which turns a seed draws, that the run ends just where no thread stands as one that
//! can go on, and how outcomes are counted. The rule in words is in docs/SCRIPTS.md.
#![tactic(auto)]

mod choosing;
mod counting;
mod drawing;
mod outcome;
mod report;
mod scheduling;
mod seeds;
mod standing;
mod tallying;
mod watch;

pub use report::outcomes;
pub use scheduling::schedule;
pub use seeds::Seeds;
pub use watch::{LastSeed, Watch};
