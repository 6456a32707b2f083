//! A clock and a tree of notes, shared between threads.
//!
//! A note becomes notified once, and stays so: where somebody says so, where its deadline comes,
//! or where that happens to a note above it. A caller that waits for something else watches a note
//! to learn that it should give up:
//!
//! ```rust
//! let (env, seats) = Env::new(rt.alloc(), 2)?; // a seat for each thread
//! let mut watchers = env.watchers(seats);
//! let (Some(mut theirs), Some(mut mine)) = (watchers.next(), watchers.next()) else {
//!     return Ok(());
//! };
//!
//! // the one that may call it off:
//! let stop = mine.note_new(None, Some(1_000))?; // notified at 1,000 ticks, or
//! mine.notify(stop); // before, by this call
//!
//! // the other, which has been handed `stop`:
//! if theirs.knows(stop) {
//!     let notified = theirs.note_wait(&rt, stop, None);
//!     assert!(rt; notified);
//! }
//! ```
//!
//! A [`watcher::Watcher`] is a seat together with the environment that it is of. Its calls are those of
//! [`env::Env`], by the same names and with the same promises, but for [`env::Env::look_for`], which the waits of
//! the crates above call. That the seat is of this environment is an invariant of its type, so no clause and no loop of
//! a program says it.
//!
//! The clock begins at 0 and only callers move it, forward, in ticks below 2^54.
//!
//! An [`env::Env`] is a table of 130 atomic words: the clock, the next note's number, 64 words
//! of notes and 64 bells, one for each seat. To make a note, a call takes a number by an addition
//! and then stores the note's word, so others may see a number taken whose note isn't made yet. To
//! ask whether a note is notified, a call loads the clock first and then the words from the note
//! up to its root.
//!
//! Only [`env::Env::note_wait`] and [`env::Env::rest`] ever wait. Each sleeps at the bell of its
//! own seat, which it has set back, a 0, and [`env::Env::notify`] and [`env::Env::advance`] ring
//! the bell of every seat, a 1, after their own step. Bells are in no event and in nothing that a
//! seat knows: a call answers by its looks alone.
//!
//! What is promised: there is one history of the environment, legal by the definitions of
//! `ns_model`, that begins with what each [`seat::EnvSeat`] has seen, and in which each seat's own
//! events are just those that its calls have added. Each call says which events it adds, and at
//! which point of the history its answer is right. Two callers compare their histories by
//! [`env::Env::meet`]; between callers that never met, nothing is said of the order.
//!
//! Programs call it, and so do the waits of ns_monitor and ns_objects. The steps and the law are
//! ns_env's, the table is the kit's atomic_table, and how its seats meet is proved by ns_seats.
#![tactic(auto)]

pub mod env;
pub mod fault;
pub mod note;
pub mod pause;
mod plays;
pub mod seat;
mod table_words;
mod view;
pub mod watcher;
