//! The call machine of a lock: what each call wants next and where an answer leads it, what one
//! atomic step does, what holds between any two steps, and that a step keeps it.
//!
//! A call is a [`walk::Walk`]: a place that [`walk::Walk::want`]s one [`act::Act`] next, and
//! that [`walk::Walk::got`] takes to the next place by what the act found. The lock is one
//! [`word::Word`], the lock list and the lists of four variables, a flag for each seat and the guarded
//! row; a seat's [`view::SeatView`] has its number, its place in its call, its section in hand and the
//! wakes that it owes.
//!
//! Nothing here runs. ns_world steps the machine on plain data. Between threads ns_gate makes the same
//! steps on shared words, and the walk is there for the proof alone. The lists are ns_queue's, the events
//! and their histories ns_model's; a wait's limits, and where a walk goes ([`ns_env::next`]), ns_env's.
//!
//! The law is in `specs/Lawful.antt`, its proof in `proofs/`, and the contract that carries it
//! is [`law::steps_keep_the_law`]'s. That calls end, or wait for a reason, [`progress_law`] says.
//!
//! ```rust
//! // a call is a walk: a place that wants an act next, and goes on by what the act found
//! let place: Walk<bool> = Walk::try_lock(Mode::Write);
//! assert!(rt; matches!(place.want(), Act::LoadWord));
//! let Next::On(place) = place.got::<8>(Found::Saw(Word::FREE)) else {
//!     return Ok(());
//! };
//! assert!(rt; matches!(place.want(), Act::Acquire(_, _, _))); // the word may be acquired
//! let over = place.got::<8>(Found::Made);
//! assert!(rt; matches!(over, Next::Done(Reply::Succeeded)));
//!
//! // the lock word after that, as a number
//! let word = Word::FREE.acquired(Mode::Write, Arrival::AsFresh);
//! assert!(rt; encode(word) == 1);
//! ```
#![tactic(auto)]

pub mod acquire_walk;
pub mod act;
pub mod call_law;
pub mod cell_walk;
pub mod codec;
pub mod hand;
pub mod law;
pub mod number;
pub mod owed;
pub mod progress;
pub mod progress_law;
pub mod queue_law;
pub mod release_walk;
pub mod request;
pub mod show_walk;
pub mod signal_walk;
pub mod try_walk;
pub mod view;
pub mod wait;
mod wait_walk;
pub mod walk;
pub mod word;
