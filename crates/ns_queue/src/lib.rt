//! The waiter lists of a lock: one list for the lock itself, front first, and four for its condition
//! variables. A seat stands in the lock's once, or once in any of the others, so each has at most 64
//! waiters.
//!
//! The lists are plain data: nothing here waits, wakes or takes memory. [`queues::Queues`] keeps
//! them, [`queues::Queues::scan`] decides whom a release of the lock wakes, and
//! [`queues::Queues::take_signal`] whom a signal takes. Each contract says what a call makes of the
//! lists in the words of lists; the definitions stand in `specs/`. ns_word, ns_gate and ns_world call
//! it, each with the lists in hand. It rests on ns_model for modes, seats and conditions.
//!
//! ```rust
//! let mut queues: Queues<Plain, 2> = Queues::new(); // `Plain` is any `Condition<2>`
//! for (seat, mode) in [(0, Mode::Read), (1, Mode::Write), (2, Mode::Read)] {
//!     let waiter = Waiter {
//!         seat,
//!         mode,
//!         cond: None,
//!         tries: 0,
//!         via: None,
//!     };
//!     if !queues.holds(seat) {
//!         queues.push_back(Which::Lock, waiter);
//!     }
//! }
//! let scan = queues.scan(&[0, 0]); // a reader is first, so every later reader goes with it
//! assert!(rt; scan.woken.as_slice() == [0, 2].as_slice());
//! assert!(rt; scan.tests == 0 && queues.holds(1) && !queues.holds(2));
//! ```
#![tactic(auto)]

mod alike;
mod counts;
mod gather;
mod lock_list;
mod marks;
pub mod queues;
mod remake;
mod ring;
pub mod room;
pub mod scan;
pub mod several;
pub mod signal;
pub mod waiter;
