//! The words that a table keeps of counters and of once cells.
//!
//! A counter's word has the value in its bits 0 to 31, and bit 32 set once a wait for 0 has begun. A
//! once cell's word is 0 where it is unused, 1 where its function runs, and 2 where it has run.

ghost use Rattle.std.specs.Prelude.{◌≡◌};
ghost use Rattle.ns_counters.specs.Words.{counter_word, counter_of, stage_word, stage_of};

use ns_model::counter::CounterState;

/// The bit of a counter's word that is set once a wait for 0 has begun.
pub const WAITED: u64 = 1 << 32;

/// How far a once cell has come, as its word tells: not by whom.
#[derive(Clone, Copy, Debug, PartialEq, Eq)]
pub enum Stage {
    /// Nobody has begun to run the function.
    Unused,
    /// Somebody runs it.
    Running,
    /// It has run.
    Done,
}

/// The word of a counter.
pub fn encode_counter(counter: CounterState) -> u64
    ensures { result ≡ counter_word counter }
{
    let mark = if counter.waited { WAITED } else { 0 };
    u64::from(counter.value) + mark
}

/// The counter that a word tells of. Bits above 32 tell nothing.
pub fn decode_counter(word: u64) -> CounterState
    ensures { result ≡ counter_of word }
{
    CounterState {
        value: (word % WAITED) as u32,
        waited: word / WAITED % 2 == 1,
    }
}

/// The word of a once cell.
pub fn encode_once(stage: Stage) -> u64
    ensures { result ≡ stage_word stage }
{
    match stage {
        Stage::Unused => 0,
        Stage::Running => 1,
        Stage::Done => 2,
    }
}

/// How far the once cell with this word has come. Numbers above 2 stand in no cell's word, and are
/// read as 2.
pub fn decode_once(word: u64) -> Stage
    ensures { result ≡ stage_of word }
{
    match word {
        0 => Stage::Unused,
        1 => Stage::Running,
        _ => Stage::Done,
    }
}
