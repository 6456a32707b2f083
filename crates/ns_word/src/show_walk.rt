//! A call that shows the lock word and the waiter lists: the queues are taken, copied and put back
//! as they were.
//!
//! What is shown is the word that the exchange compared which took the queues, and the lists of that
//! same state.

ghost use Rattle.std.specs.Prelude.{◌≡◌};
ghost use Rattle.ns_word.specs.Walks.{want_showing, got_showing, show_by};

use crate::act::{Act, Change, Found};
use crate::walk::{Reply, Walk, WalkNext};
use crate::word::{Taking, Word};
use ns_env::next::Next;

/// A place in a call that shows. A word is the one last seen.
#[derive(Clone, Copy)]
pub enum ShowPlace {
    /// It is about to load the word.
    ShowLoad,
    /// It has seen this word, and is about to take the queues.
    TakeToShow(Word),
    /// It is about to put the queues back as they were.
    ReturnShown(Word),
}

/// Where a call that shows goes by the word last seen.
fn show_by<C: Copy>(word: Word) -> WalkNext<C>
    ensures { result ≡ show_by word }
{
    if word.spin {
        Next::Idle(Walk::InShow(ShowPlace::ShowLoad))
    } else {
        Next::On(Walk::InShow(ShowPlace::TakeToShow(word)))
    }
}

impl ShowPlace {
    /// The step that the place wants next.
    pub(crate) fn want<C: Copy>(self) -> Act<C>
        ensures { result ≡ want_showing self }
    {
        match self {
            ShowPlace::ShowLoad => Act::LoadWord,
            ShowPlace::TakeToShow(last) => Act::TakeQueues(Taking::ToChange, last),
            ShowPlace::ReturnShown(last) => Act::ReturnQueues(Change::Nothing, last),
        }
    }

    /// Where the call goes with what its step found.
    pub(crate) fn got<C: Copy>(self, found: Found) -> WalkNext<C>
        ensures { result ≡ got_showing self found }
    {
        match (self, found) {
            (ShowPlace::ShowLoad, Found::Saw(word)) => show_by(word),
            (ShowPlace::TakeToShow(_), Found::Saw(word)) => show_by(word),
            (ShowPlace::TakeToShow(last), Found::Made) => {
                let place = ShowPlace::ReturnShown(last.taken(Taking::ToChange));
                Next::On(Walk::InShow(place))
            }
            (ShowPlace::ReturnShown(_), Found::Saw(word)) => {
                Next::On(Walk::InShow(ShowPlace::ReturnShown(word)))
            }
            (ShowPlace::ReturnShown(_), Found::Made) => Next::Done(Reply::Succeeded),
            (place, _) => Next::On(Walk::InShow(place)),
        }
    }
}
