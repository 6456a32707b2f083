//! A clock and a tree of notes as plain values, without threads: the steps that calls on them are
//! made of, the law that each step keeps, and what the answers of calls mean.
//!
//! A call is a [`walk::EnvWalk`]: a place that [`walk::EnvWalk::want`]s one [`act::EnvAct`] next, and
//! that [`walk::EnvWalk::got`] takes to the next place by what the act found. What an act finds and
//! leaves, and what has happened by it, is in `specs/Steps.antt`. What holds between any two steps
//! is in `specs/Lawful.antt`, of whoever keeps a clock and notes: as words that threads share, or as
//! plain data with a list of the places where its seats stand. The contracts that carry the law are
//! those of [`law`]. ns_note makes these steps between threads, ns_world on plain data. ns_word takes a
//! wait's limits from here, and it and ns_counters where a walk goes ([`next`]); the events and their
//! histories are ns_model's.
//!
//! ```rust
//! // a call is a walk: a place that wants an act next, and goes on by what the act found
//! let place = EnvWalk::NextLoad(None, Some(7));
//! assert!(rt; matches!(place.want(), EnvAct::LoadNext));
//! let Next::On(place) = place.got(EnvFound::NextNumber(3)) else {
//!     return Ok(());
//! };
//! assert!(rt; matches!(place.want(), EnvAct::TakeNext)); // a number was still left
//! let Next::On(place) = place.got(EnvFound::Taken(4)) else {
//!     return Ok(());
//! };
//! let over = place.got(EnvFound::Stored);
//! assert!(rt; matches!(over, Next::Done(EnvEnd::Over(EnvReply::Number(4)))));
//! ```
#![tactic(auto)]

pub mod act;
pub mod law;
pub mod limits;
pub mod next;
pub mod note;
pub mod reply;
pub mod request;
pub mod view;
pub mod walk;
