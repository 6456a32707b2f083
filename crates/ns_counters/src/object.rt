//! Counters and once cells that stand side by side, and what one caller knows of them.
//!
//! These types are of the proof, but for [`Setup`]: no value of them is made.

use ns_model::counter::CounterEvent;
use ns_model::once::OnceEvent;
use std::collections::LinkedList;

/// One event of one of several objects.
///
/// All objects of a table have one history, in which each event says of which object it is. A seat
/// sees beginnings of that history, so two seats that meet compare all objects at once.
#[derive(Clone, Copy, Debug)]
pub enum ObjectEvent {
    /// An event of a counter.
    OnCounter {
        /// The counter's number.
        counter: u8,
        /// What happens to it.
        event: CounterEvent,
    },
    /// An event of a once cell.
    OnOnce {
        /// The cell's number.
        once: u8,
        /// What happens to it.
        event: OnceEvent,
    },
}

/// How objects were made: for so many seats, at most 16 counters, each with the value that it began
/// with, and at most 16 once cells.
#[derive(Clone, Copy, Debug)]
pub struct Setup {
    /// How many seats there are.
    pub seats: u8,
    /// How many counters there are.
    pub counters: u8,
    /// What each counter began with, by number; 0 past the last.
    pub starts: [u32; 16],
    /// How many once cells there are.
    pub cells: u8,
}

/// Where a call stands between two of its steps.
pub enum Place {
    /// In no call, or where its steps bind it to nothing.
    Free,
    /// It has loaded a counter that this change fits, and goes to change it.
    Adding {
        /// The counter's number.
        counter: u8,
        /// The change.
        delta: i64,
    },
    /// It has begun to run the function of a once cell, and goes to say that it has run.
    Running {
        /// The cell's number.
        once: u8,
    },
}

/// What one seat knows: how the objects were made, its own number, where its call stands, the
/// history that it has seen, and its own events in it.
pub struct ObjectView {
    /// How the objects were made.
    pub setup: Setup,
    /// The seat's own number.
    pub seat: u8,
    /// Where its call stands.
    pub place: Place,
    /// The history that it has seen.
    pub seen: LinkedList<ObjectEvent>,
    /// Its own events in that history.
    pub mine: LinkedList<ObjectEvent>,
}
