//! A try: one exchange, and no second.
//!
//! One load and one exchange are all that it makes, and where the exchange fails it is busy. A try
//! may succeed while another seat has the queues: the exchange by which that seat puts them back
//! then fails, and looks again.

ghost use Rattle.std.specs.Prelude.{◌≡◌};
ghost use Rattle.ns_word.specs.Walks.{want_trying, got_trying};

use crate::act::{Act, Found};
use crate::wait::Aim;
use crate::walk::{Reply, Walk, WalkNext};
use crate::word::{Arrival, Word};
use ns_env::next::Next;
use ns_model::event::Mode;

/// A place in a try, with nothing in hand. A word is the one last seen.
#[derive(Clone, Copy)]
pub enum TryPlace {
    /// It is about to load the word.
    TryLoad,
    /// It has seen this word, which may be acquired.
    TryAcquire(Word),
}

impl TryPlace {
    /// The step that the place wants next.
    pub(crate) fn want<C: Copy>(self, mode: Mode) -> Act<C>
        ensures { result ≡ want_trying mode self }
    {
        match self {
            TryPlace::TryLoad => Act::LoadWord,
            TryPlace::TryAcquire(last) => Act::Acquire(Aim::ForLock(mode), Arrival::AsFresh, last),
        }
    }

    /// Where the try goes with what its step found.
    pub(crate) fn got<C: Copy>(self, mode: Mode, found: Found) -> WalkNext<C>
        ensures { result ≡ got_trying mode self found }
    {
        match (self, found) {
            (TryPlace::TryLoad, Found::Saw(word)) => {
                if word.may_acquire(mode, Arrival::AsFresh) {
                    Next::On(Walk::InTry(mode, TryPlace::TryAcquire(word)))
                } else {
                    Next::Done(Reply::Busy)
                }
            }
            (TryPlace::TryAcquire(_), Found::Saw(_)) => Next::Done(Reply::Busy),
            (TryPlace::TryAcquire(_), Found::Made) => Next::Done(Reply::Succeeded),
            (place, _) => Next::On(Walk::InTry(mode, place)),
        }
    }
}
