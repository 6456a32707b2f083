//! Four threads and a ring: numbers that two threads put into it and two others take out.
//!
//! [`live`] makes the threads, and answers the sum of what was taken. They share the ring of ns_fixtures
//! behind an `ns_monitor` lock, and wait in it until there is room or an item. Who takes the last item
//! notifies a note, by which whoever still waits is told to end.
//!
//! ```rust
//! for (items, sum) in [(1, 1), (10, 55)] {
//!     let outcome = live(&rt, rt.alloc(), items);
//!     assert_eq!(rt; outcome, Ok(sum), "at {items}");
//! }
//! ```
//!
//! ns_cli calls it. It rests on ns_fixtures for the ring, and on ns_note for the note.
#![tactic(auto)]

mod commons;
mod consuming;
mod crew;
mod fault;
mod producing;
mod running;

pub use fault::LiveFault;
pub use running::live;
