//! What a caller may see of a world.

use arrayvec::ArrayVec;
use ns_model::seats::Seats;
use ns_queue::waiter::Shown;
use ns_word::word::Word;

/// A world as it stands.
#[derive(Drop)]
pub struct State<const N: usize> {
    /// The lock word.
    pub word: Word,
    /// Who stands in the lock list, front first: as the caller that has the queues in its hand has
    /// it, else as it stands at home.
    pub lock: ArrayVec<Shown, 64>,
    /// Who waits for each condition variable, front first: likewise.
    pub cvs: [ArrayVec<Shown, 64>; 4],
    /// The wakes that are owed: who owes one, and whom; by the seats that owe them, then in the
    /// order in which each pays.
    pub owed: ArrayVec<(u8, u8), 64>,
    /// The row's cells.
    pub row: [u64; N],
    /// The seats with a call in progress.
    pub busy: Seats,
    /// The seats with a read section in hand.
    pub readers: Seats,
    /// The seat with a write section in hand, if one has.
    pub writers: Seats,
}
