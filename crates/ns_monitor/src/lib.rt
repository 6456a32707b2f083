//! A lock round a row of numbers, shared between threads: sections as values that move.
//!
//! A thread has a handle of the lock. To acquire it gives up the handle and gets a section, and to release it
//! gives up the section and gets its handle back:
//!
//! ```rust
//! let (monitor, seats) = Monitor::<Plain, 2>::new(rt.alloc(), 2)?; // `Plain` is any `Condition<2>`
//! let Some((mut lock, _other)) = monitor.handles(seats).pair() else {
//!     return Ok(());
//! }; // a handle for each thread
//!
//! let mut held = lock.lock(&rt); // waits while somebody else holds the lock
//! let value = held.get(0);
//! held.set(0, value.wrapping_add(1));
//! lock = held.unlock(&rt);
//!
//! lock = match lock.try_rlock() {
//!     Ok(held) => held.runlock(&rt),
//!     Err(lock) => lock, // somebody else writes or waits to, or has just changed the lock's word
//! };
//! ```
//!
//! A [`Handle`] is a seat of a [`Monitor`] together with the monitor. Each call on a seat, a section or a wait stands
//! at both by one name, and promises the same: the monitor's takes its caller's seat, section or wait, which has to
//! be of that monitor, and by a handle it is.
//!
//! So a second acquire by one seat, a section used after its release or its wait, a write through a
//! read section and a release in the wrong mode don't compile. Many readers may hold the lock beside
//! each other, or one writer alone.
//!
//! What is promised: there is one legal history of all sections and wakes, that begins with what each
//! caller has seen, and in which its own events are just what it has done: the sections that it has
//! released or left by a wait, its signals and broadcasts, and that it has left a variable, or several. A section
//! begins at the row after that history. Two callers compare what they have seen by
//! [`Monitor::meet`], or, with sections that read, by [`Monitor::both_read`]; between callers that never
//! met, nothing is said of the order. The words that say so in contracts are in `Rattle.ns_monitor.specs`.
//!
//! [`Monitor::wait`] leaves a section until a condition on the row is true, and comes back with
//! another in the same mode; the one with a deadline may be ended by that or by a note of ns_note, and
//! says which. [`Monitor::cv_wait_with_deadline`] waits for one of four condition variables, by number,
//! until [`Monitor::signal`] or [`Monitor::broadcast`] wakes the caller, or it is ended likewise. One for
//! any of several variables is three calls, for callers that look at other things between them:
//! [`Monitor::any_begin`], [`Monitor::any_poll`] and [`Monitor::any_leave`].
//! [`Monitor::debug_state_and_waiters`] tells how the lock stands, and who waits.
//!
//! The behaviour is that of nsync's `nsync_mu`, `nsync_mu_wait` and `nsync_cv`: waiters queue, one
//! designated waker is enough, conditions are tested by whoever releases, and who is signalled while the
//! lock is held is moved to the waiters for it.
//!
//! Programs call it, and so do ns_fixtures and ns_objects. Its calls are made of the steps of ns_gate, which
//! follow the walks of ns_word; clock and notes are ns_note's.
#![tactic(auto)]

mod acquiring;
pub mod caller;
mod cells;
mod going;
pub mod handle;
pub mod handle_waits;
pub mod handles;
mod loops;
pub mod monitor;
mod releasing;
mod rounds;
mod scanning;
pub mod several;
pub mod showing;
mod variables;
mod waiting;
mod waking;
mod watching;

pub use caller::{Caller, Compact, Hand, ReadHeld, Renewed, Seat, Section, WriteHeld};
pub use handle::{Acting, Handle, Reading, Writing};
pub use handle_waits::WaitingForAny;
pub use handles::Handles;
pub use monitor::Monitor;
pub use ns_gate::closed::Closed;
pub use ns_model::condition::Condition;
pub use ns_model::cvs::Cvs;
pub use ns_model::event::{Answer, Mode};
pub use ns_queue::waiter::Shown;
pub use ns_seats::fault::Fault;
pub use ns_word::word::Word;
pub use several::{AnyPoll, AnyWaiting};
pub use showing::DebugState;
