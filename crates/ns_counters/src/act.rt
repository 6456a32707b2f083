//! The steps that calls on counters and once cells are made of. Each is one step on one word.

ghost use Rattle.std.specs.Prelude.{◌≡◌};
ghost use Rattle.ns_counters.specs.Prelude.{word_at as word_at_of, word_left};

use crate::made::MOST;
use crate::word::{WAITED, encode_counter};
use ns_model::counter::CounterState;

/// One step.
#[derive(Clone, Copy, Debug)]
pub enum ObjectAct {
    /// A load of a counter.
    LookCounter {
        /// The counter's number.
        counter: u8,
    },
    /// A load of a counter that is to be changed: where the change is refused, that is its end.
    LoadToAdd {
        /// The counter's number.
        counter: u8,
        /// The change.
        delta: i64,
    },
    /// A compare-exchange that changes a counter, if it is as it was seen; else it is judged as by a load.
    ExchangeToAdd {
        /// The counter's number.
        counter: u8,
        /// The change.
        delta: i64,
        /// What was seen of the counter.
        seen: CounterState,
        /// The value that the change leads to from there.
        value: u32,
    },
    /// A mark on a counter: a wait for 0 begins.
    MarkWait {
        /// The counter's number.
        counter: u8,
    },
    /// A load of a once cell.
    LookOnce {
        /// The cell's number.
        once: u8,
    },
    /// A compare-exchange that begins to run the function, if nobody has begun.
    BeginOnce {
        /// The cell's number.
        once: u8,
    },
    /// A store: the function has run.
    EndOnce {
        /// The cell's number.
        once: u8,
    },
}

impl ObjectAct {
    /// The number of the word that the step is on: the counters' words, and then the once cells'.
    pub fn word_at(self) -> usize
        ensures { result ≡ word_at_of self }
    {
        match self {
            ObjectAct::LookCounter { counter } => counter as usize,
            ObjectAct::LoadToAdd { counter, .. } => counter as usize,
            ObjectAct::ExchangeToAdd { counter, .. } => counter as usize,
            ObjectAct::MarkWait { counter } => counter as usize,
            ObjectAct::LookOnce { once } => MOST + once as usize,
            ObjectAct::BeginOnce { once } => MOST + once as usize,
            ObjectAct::EndOnce { once } => MOST + once as usize,
        }
    }

    /// What the step leaves of the word that it finds.
    pub fn word_left(self, found: u64) -> u64
        ensures { result ≡ word_left self found }
    {
        match self {
            ObjectAct::ExchangeToAdd { seen, value, .. } if found == encode_counter(seen) => {
                encode_counter(CounterState { value, ..seen })
            }
            ObjectAct::MarkWait { .. } => found | WAITED,
            ObjectAct::BeginOnce { .. } if found == 0 => 1,
            ObjectAct::EndOnce { .. } => 2,
            _ => found,
        }
    }
}
