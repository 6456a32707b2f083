//! What programs and tests share: conditions, and a ring behind a lock.
//!
//! The ring has four cells. A [`RingMonitor`] is the lock round one, [`Wish`] says what a wait is for, and
//! [`put`] and [`take`] are made in a section. They ask for room, or an item, so who forgets to wait isn't
//! proved:
//!
//! ```rust
//! let mut held = ring.lock(rt).wait(rt, Wish::Room); // comes back once there is room
//! put(&mut held, number);
//! ring = held.unlock(rt);
//! ```
//!
//! Who waits for condition variables instead asks [`is_met`] after each wake.
//!
//! ns_live, ns_bench, ns_cookbook and ns_thread_tests call it. It rests on ns_monitor.
#![tactic(auto)]

mod at_least;
mod never;
mod ring;
mod wish;

pub use at_least::AtLeast;
pub use never::Never;
pub use ring::{RingHandle, RingHeld, RingMonitor, count_taken, is_met, put, take};
pub use wish::Wish;
