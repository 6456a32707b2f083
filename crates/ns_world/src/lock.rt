//! The lock of a world.

use ns_model::condition::Condition;
use ns_model::event::Event;
use ns_queue::queues::Queues;
use ns_word::word::Word;

/// A lock as a world keeps it.
#[derive(Drop)]
pub(crate) struct Lock<C: Condition<N>, const N: usize> {
    pub(crate) word: Word,
    pub(crate) row: [u64; N],
    pub(crate) queues: Queues<C, N>,
    /// Each seat's flag.
    pub(crate) flags: [u8; 64],
    /// All that has happened to the row and the variables.
    pub(crate) history: Vec<Event<C, N>>,
}
