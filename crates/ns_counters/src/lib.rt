//! Counters and once cells as plain values, without threads: the words that a table keeps of them, the steps
//! that calls on them are made of, and the law that each step keeps ([`law`]); the walk of each call
//! ([`walk`]); and waits for any of several items, by rounds of looks ([`items`], [`round`]). What happens to one,
//! as events, and which histories of that are legal, is ns_model's; a round looks at the clock and at notes as ns_env
//! does. ns_objects makes these steps on words that threads share, and ns_world on plain data.
//!
//! ```rust
//! // a counter of 2, for whose fall to 0 somebody waits: its word, and back
//! let counter = CounterState { value: 2, waited: true };
//! assert!(rt; encode_counter(counter) == 4_294_967_298);
//! assert!(rt; decode_counter(4_294_967_298).waited);
//! ```
#![tactic(auto)]

pub mod act;
pub mod items;
pub mod law;
pub mod made;
pub mod object;
pub mod reply;
pub mod round;
pub mod walk;
pub mod word;
