//! The model of a lock that guards a row of numbers: what happens to it, as events, and which
//! histories of events are legal.
//!
//! Whole sections stand in one chain, each from the row that the one before it left. Beside the
//! row, a history leaves each seat a [`phase::Phase`]: whether it stands between a wait and the
//! section that the wait returns to. There is no word, queue, flag or call in progress here:
//! the crates above prove that theirs come down to a legal history. Nearly every one of them cites
//! this crate, and it rests on none.
//!
//! [`history::legal`] decides whether a list of events is legal, [`history::row_after`] tells
//! the row that it leaves. Both are exactly the definitions of `specs/`, and take no memory.
//!
//! Beside the lock stand a clock and a tree of notes, which callers watch: their events are in
//! [`environment`], and which of their histories are legal, what the clock then shows and which
//! notes are notified is defined in `specs/`. So do counters and once cells, with what their
//! histories mean, in [`counter`] and [`once`].
//!
//! ```rust
//! // two sections in one chain: the second begins at the row that the first one left
//! let wrote = Event::Section {
//!     who: 0,
//!     mode: Mode::Write,
//!     entry: Entry::Plain,
//!     before: [0; 8],
//!     after: [5, 0, 0, 0, 0, 0, 0, 0],
//!     exit: Exit::Plain,
//! };
//! let read = Event::Section {
//!     who: 1,
//!     mode: Mode::Read,
//!     entry: Entry::Plain,
//!     before: [5, 0, 0, 0, 0, 0, 0, 0],
//!     after: [5, 0, 0, 0, 0, 0, 0, 0],
//!     exit: Exit::Plain,
//! };
//! let happened: [Event<AtLeast, 8>; 2] = [wrote, read];
//! assert!(rt; legal(&happened)); // `AtLeast` is any `Condition<8>`
//! assert!(rt; row_after(&happened) == [5, 0, 0, 0, 0, 0, 0, 0]);
//! assert!(rt; !legal(&[read, wrote])); // a reader can't see what is written later
//! ```
#![tactic(auto)]

pub mod condition;
pub mod counter;
pub mod cvs;
pub mod environment;
pub mod event;
pub mod history;
pub mod once;
pub mod phase;
pub mod seats;
pub mod sections;
pub mod wakes;
