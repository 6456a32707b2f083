//! Scripts replayed: from the bytes of a script to the text of its run.
//!
//! A script is a JSON object with the calls of some threads and a schedule of their steps.
//! [`replay`] reads one from a [`Source`], runs it in a plain world of `ns_world`, and writes
//! every answer to a [`Sink`]. Its contract says that what was written is the text of a run of
//! the script that was read, and when each refusal comes. ns_command calls it, and ns_timeline and
//! ns_outcomes read and run scripts by it; the JSON is read by the kit's serde_json.
//!
//! ```rust
//! let script = b"{\"version\":1,\"threads\":[[\"trylock\",\"unlock\"]],\"schedule\":\"0!*2\"}";
//! let options = Options {
//!     history: true,
//!     tests: false,
//!     state: false,
//!     limit: 1_000,
//! };
//! let mut text = Vec::new(rt.alloc()); // or `rt.stdout()`, over `rt.stdin()`
//! let mut source = OverRead::new(script.as_slice());
//! let mut sink = OverWrite::new(&mut text);
//! match replay(rt.alloc(), &mut source, &mut sink, options) {
//!     Ok(()) => {}
//!     Err(Fault::Read | Fault::Write) => return Err(Fail::from("a stream failed")),
//!     Err(fault) => rt.eprintln(fault)?, // `refused 7: bad script at /threads/0/1`
//! }
//! assert!(rt; text.starts_with(b"0 0 ok\n0 1 ok\n"));
//! ```
#![tactic(auto)]

mod adapters;
mod calls;
mod condition;
mod fault;
mod objects;
mod options;
mod path;
mod replaying;
mod running;
mod script;
mod streams;
mod text;
mod transfer;
mod waits;
mod words;

pub use adapters::{OverRead, OverWrite};
pub use condition::{AtLeast, ScriptCondition};
pub use fault::Fault;
pub use options::Options;
pub use path::ScriptPath;
pub use replaying::{replay, run_bytes};
pub use running::{Run, run_script};
pub use script::{Script, read_script};
pub use streams::{Got, Sink, Source};
pub use text::push_reply;
pub use transfer::{collect_bytes, write_all};
