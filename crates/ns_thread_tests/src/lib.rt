//! What no clause says of the crates between threads: that their calls succeed where they can and come
//! back, and that threads meet and wake one another. There is nothing here but tests.
//!
//! They call ns_note, ns_gate, ns_monitor and ns_objects as the crates above these do. The crate is a library, so
//! without its tests there is nothing to prove, and there is no program to run. The tests of one crate are proved
//! in one process: these stand apart from those of ns_tests, so that they can begin once ns_objects is proved,
//! and wait for nothing of the replay.
//!
//! A test's own body is what takes the longest to prove, and the more values it has to let go, the longer:
//! so what a test does stands in functions, and its body has little more than what it compares.
#![tactic(auto)]

#[cfg(test)]
mod any_held;
#[cfg(test)]
mod barging;
#[cfg(test)]
mod by_seats;
#[cfg(test)]
mod crowd;
#[cfg(test)]
mod gate;
#[cfg(test)]
mod locks;
#[cfg(test)]
mod monitor;
#[cfg(test)]
mod note;
#[cfg(test)]
mod objects;
#[cfg(test)]
mod once;
#[cfg(test)]
mod several;
#[cfg(test)]
mod showing;
#[cfg(test)]
mod sleepers;
#[cfg(test)]
mod variables;
#[cfg(test)]
mod waits;
