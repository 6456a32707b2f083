//! An acquire: an exchange as soon as the lock may be acquired, else the lock list.

ghost use Rattle.std.specs.Prelude.{◌≡◌, ◌≤◌};
ghost use Rattle.ns_word.specs.Walks.{want_acquiring, got_acquiring, acquire_by, acquired_for, reply_for};

use crate::act::{Act, Change, Found};
use crate::wait::{Aim, Outcome, Subject, Visit, arrival_of};
use crate::wait_walk::test_place;
use crate::walk::{Reply, Walk, WalkNext};
use crate::word::{Arrival, Taking, Word};
use ns_env::next::Next;
use ns_model::cvs::Variables;

/// A place in an acquire, with nothing in hand. A word is the one last seen.
#[derive(Clone, Copy)]
pub enum AcquirePlace {
    /// It is about to load the word.
    AcquireLoad(Arrival),
    /// It has seen this word, which may be acquired.
    AcquireExchange(Arrival, Word),
    /// It has seen this word, which may not be acquired, and is about to take the queues.
    TakeToQueue(Arrival, Word),
    /// It has the queues, and is about to set its flag.
    Arm(Arrival, Word),
    /// It is about to put the queues back with itself in the lock list.
    Queue(Arrival, Word),
    /// It waits to be woken, and stood in the list with so many failed tries.
    ///
    /// The tries stand here and in the entry of the lock list: the `long` bit is read off the
    /// entry, which the scan that takes it drops. That both are the same is law (`WaitersOwn`).
    /// Tries count per acquire: only a seat that queues again in the acquire for which it was woken
    /// has one more. Each other entry has none, also that of a wait, of a wait that queues again,
    /// and of a waiter that was moved.
    AwaitWake(u8),
}

/// Where an acquire goes by the word last seen.
fn acquire_by<C: Copy>(aim: &Aim<C>, arrival: Arrival, word: Word) -> WalkNext<C>
    ensures { result ≡ acquire_by aim.now arrival word }
{
    if word.may_acquire(aim.mode(), arrival) {
        Next::On(Walk::InAcquire(*aim, AcquirePlace::AcquireExchange(arrival, word)))
    } else if word.spin {
        Next::Idle(Walk::InAcquire(*aim, AcquirePlace::AcquireLoad(arrival)))
    } else {
        Next::On(Walk::InAcquire(*aim, AcquirePlace::TakeToQueue(arrival, word)))
    }
}

/// What a wait for these variables answers of which this came: one for a set tells which of them has
/// woken it.
fn reply_for(variables: Variables, outcome: Outcome) -> Reply
    ensures { result ≡ reply_for variables outcome }
{
    match variables {
        Variables::Only(_) => Reply::Answered(outcome.answer()),
        Variables::Any(_) => Reply::WokenBy(outcome.variable()),
    }
}

/// Where an acquire goes that was made.
fn acquired_for<C: Copy, const N: usize>(aim: &Aim<C>) -> WalkNext<C>
    requires { N ≤ 16 }
    ensures { result ≡ acquired_for N aim.now }
{
    match aim {
        Aim::ForLock(_) => Next::Done(Reply::Succeeded),
        Aim::ForWait(wait, outcome) => match wait.on {
            Subject::OnCondition(_) => {
                Next::On(test_place::<C, N>(wait, Visit::OnReturn(*outcome), 0))
            }
            Subject::OnVariables(variables) => Next::Done(reply_for(variables, *outcome)),
        },
    }
}

impl AcquirePlace {
    /// The step that the place wants next.
    pub(crate) fn want<C: Copy>(self, aim: &Aim<C>) -> Act<C>
        ensures { result ≡ want_acquiring aim.now self }
    {
        match self {
            AcquirePlace::AcquireLoad(_) => Act::LoadWord,
            AcquirePlace::AcquireExchange(arrival, last) => Act::Acquire(*aim, arrival, last),
            AcquirePlace::TakeToQueue(arrival, last) => {
                Act::TakeQueues(Taking::ToQueue(aim.mode(), arrival), last)
            }
            AcquirePlace::Arm(_, _) => Act::ArmFlag,
            AcquirePlace::Queue(arrival, last) => {
                Act::ReturnQueues(Change::QueueSelf(aim.mode(), arrival), last)
            }
            AcquirePlace::AwaitWake(_) => Act::LoadFlag,
        }
    }

    /// Where the acquire goes with what its step found.
    pub(crate) fn got<C: Copy, const N: usize>(self, aim: &Aim<C>, found: Found) -> WalkNext<C>
        requires { N ≤ 16 }
        ensures { result ≡ got_acquiring N aim.now self found }
    {
        match (self, found) {
            (AcquirePlace::AcquireLoad(arrival), Found::Saw(word)) => {
                acquire_by(aim, arrival, word)
            }
            (AcquirePlace::AcquireExchange(arrival, _), Found::Saw(word)) => {
                acquire_by(aim, arrival, word)
            }
            (AcquirePlace::AcquireExchange(_, _), Found::Made) => acquired_for::<C, N>(aim),
            (AcquirePlace::TakeToQueue(arrival, _), Found::Saw(word)) => {
                acquire_by(aim, arrival, word)
            }
            (AcquirePlace::TakeToQueue(arrival, last), Found::Made) => {
                let word = last.taken(Taking::ToQueue(aim.mode(), arrival));
                Next::On(Walk::InAcquire(*aim, AcquirePlace::Arm(arrival, word)))
            }
            (AcquirePlace::Arm(arrival, last), Found::Made) => {
                Next::On(Walk::InAcquire(*aim, AcquirePlace::Queue(arrival, last)))
            }
            (AcquirePlace::Queue(arrival, _), Found::Saw(word)) => {
                Next::On(Walk::InAcquire(*aim, AcquirePlace::Queue(arrival, word)))
            }
            (AcquirePlace::Queue(arrival, _), Found::Made) => {
                Next::On(Walk::InAcquire(*aim, AcquirePlace::AwaitWake(arrival.tries())))
            }
            (AcquirePlace::AwaitWake(tries), Found::Flag(value)) => {
                if value == 1 {
                    Next::Idle(Walk::InAcquire(*aim, AcquirePlace::AwaitWake(tries)))
                } else {
                    let place = AcquirePlace::AcquireLoad(arrival_of(tries, value));
                    Next::On(Walk::InAcquire(*aim, place))
                }
            }
            (place, _) => Next::On(Walk::InAcquire(*aim, place)),
        }
    }
}
