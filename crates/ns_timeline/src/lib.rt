//! Pictures of a run: a column for each thread, and a row for each turn that changed something.
//!
//! [`timeline`] reads the same scripts as `ns_replay::replay`, refuses what that refuses, and draws who holds
//! the lock, who waits, who has the waiter queues and who is to be woken, turn by turn, with what the turn did
//! beside it. No line is longer than 100 characters. [`svg`] draws the same as one SVG document, with arrows
//! from who wakes or signals; no text of a script gets into that but with entities. ns_command calls both;
//! scripts are read by ns_replay, and run in a world of ns_world.
//!
//! ```rust
//! let script = b"{\"version\":1,\"threads\":[[\"trylock\",\"unlock\"]],\"schedule\":\"0!*2\"}";
//! let mut picture = Vec::new(rt.alloc()); // or `rt.stdout()`, over `rt.stdin()`
//! let mut source = OverRead::new(script.as_slice());
//! let mut sink = OverWrite::new(&mut picture);
//! match timeline(rt.alloc(), &mut source, &mut sink, 1_000) {
//!     Ok(()) => assert!(rt; picture.ends_with(b"       4      0 unlock, releases -> ok\n")),
//!     Err(fault) => assert_eq!(rt; fault, Fault::OutOfMemory),
//! }
//! ```
#![tactic(auto)]

mod arrows;
mod bars;
mod call;
mod changes;
mod columns;
mod document;
mod drawing;
mod escaped;
mod labels;
mod layout;
mod legend;
mod line;
mod page;
mod paper;
mod record;
mod sight;
mod stepping;
mod style;

pub use drawing::{svg, timeline};
