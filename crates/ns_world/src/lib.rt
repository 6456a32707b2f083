//! A plain world of one lock, its condition variables, a clock, notes, counters and once cells: the
//! lock's word and row, up to 64 seats, and all that has happened to the row and the variables.
//!
//! A world steps the call machine of `ns_word` on plain data, one atomic step at a time, in
//! whatever order it is told to. It keeps the machine's law as its own invariant: see
//! [`world::World`]. The steps on clock and notes are ns_env's, those on counters and once cells
//! ns_counters', and the waiter lists ns_queue's. ns_replay, ns_timeline and ns_outcomes call it, to run scripts.
//!
//! ```rust
//! let mut world = World::<Never, 8>::new(rt.alloc(), 2, &[], 0)?; // `Never` is any `Condition<8>`
//! world.begin(0, Call::TryLock)?;
//! world.step(0)?; // Step::Went: the word was loaded
//! let step = world.step(0)?;
//! assert!(rt; step == Step::Finished(Reply::Succeeded)); // seat 0 has the lock
//! world.begin(1, Call::TryLock)?;
//! let step = world.step(1)?;
//! assert!(rt; step == Step::Finished(Reply::Busy));
//! assert!(rt; world.state().word.write && legal(world.history()));
//! ```
#![tactic(auto)]

mod among;
mod asks;
pub mod call;
mod cells;
mod environment;
mod exchanges;
pub mod fault;
pub mod law;
mod lock;
mod looks;
mod objects;
pub mod observer;
mod operate;
pub mod reply;
mod room;
pub mod run;
pub mod schedule;
mod seat;
mod seats;
mod shows;
pub mod state;
pub mod step;
mod wanted;
pub mod world;
