//! A signal and a broadcast of a condition variable: waiters of its list are taken from all variables'
//! lists, and moved to the lock list where the lock is held, else woken.

ghost use Rattle.std.specs.Prelude.{◌≡◌};
ghost use Rattle.ns_word.specs.Walks.{want_signaling, got_signaling, signal_by, pay_woken};

use crate::act::{Act, Change, Found, Waking};
use crate::walk::{Reply, Walk, WalkNext};
use crate::word::{Taking, Word};
use ns_env::next::Next;

/// A place in a call that wakes. A word is the one last seen.
#[derive(Clone, Copy)]
pub enum SignalPlace {
    /// It is about to load the word.
    SignalLoad,
    /// It has seen this word, and is about to take the queues.
    TakeToWake(Word),
    /// It is about to put the queues back without those whom it takes, or with them in the lock
    /// list.
    WakeAndReturn(Word),
    /// It owes wakes.
    PayTheWoken,
}

/// Where a call that wakes goes by the word last seen.
fn signal_by<C: Copy>(waking: Waking, k: u8, word: Word) -> WalkNext<C>
    ensures { result ≡ signal_by waking k word }
{
    if word.spin {
        Next::Idle(Walk::InSignal(waking, k, SignalPlace::SignalLoad))
    } else {
        Next::On(Walk::InSignal(waking, k, SignalPlace::TakeToWake(word)))
    }
}

/// Where a call that wakes goes that owes wakes, or none.
fn pay_woken<C: Copy>(waking: Waking, k: u8, owes: bool) -> WalkNext<C>
    ensures { result ≡ pay_woken waking k owes }
{
    if owes {
        Next::On(Walk::InSignal(waking, k, SignalPlace::PayTheWoken))
    } else {
        Next::Done(Reply::Succeeded)
    }
}

impl SignalPlace {
    /// The step that the place wants next.
    pub(crate) fn want<C: Copy>(self, waking: Waking, k: u8) -> Act<C>
        ensures { result ≡ want_signaling waking k self }
    {
        match self {
            SignalPlace::SignalLoad => Act::LoadWord,
            SignalPlace::TakeToWake(last) => Act::TakeQueues(Taking::ToChange, last),
            SignalPlace::WakeAndReturn(last) => {
                Act::ReturnQueues(Change::WakeWaiters(waking, k), last)
            }
            SignalPlace::PayTheWoken => Act::PayWake,
        }
    }

    /// Where the call goes with what its step found.
    pub(crate) fn got<C: Copy>(self, waking: Waking, k: u8, found: Found) -> WalkNext<C>
        ensures { result ≡ got_signaling waking k self found }
    {
        match (self, found) {
            (SignalPlace::SignalLoad, Found::Saw(word)) => signal_by(waking, k, word),
            (SignalPlace::TakeToWake(_), Found::Saw(word)) => signal_by(waking, k, word),
            (SignalPlace::TakeToWake(last), Found::Made) => {
                let place = SignalPlace::WakeAndReturn(last.taken(Taking::ToChange));
                Next::On(Walk::InSignal(waking, k, place))
            }
            (SignalPlace::WakeAndReturn(_), Found::Saw(word)) => {
                Next::On(Walk::InSignal(waking, k, SignalPlace::WakeAndReturn(word)))
            }
            (SignalPlace::WakeAndReturn(_), Found::Woke { owes }) => pay_woken(waking, k, owes),
            (SignalPlace::PayTheWoken, Found::Paid { owes }) => pay_woken(waking, k, owes),
            (place, _) => Next::On(Walk::InSignal(waking, k, place)),
        }
    }
}
