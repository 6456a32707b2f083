//! The walks of the calls, one atomic step at a time.
//!
//! A walk is a group of places: a try, an acquire, a release, a call on the cells, a wait, a call
//! that wakes, or one that shows the lock. A word in a place is the one last seen; *fresh* and
//! *woken* say how a seat came to acquire. A compare-exchange that finds another word leads to the
//! decision of its walk with that word, and loads nothing; but a try is over then, and the exchanges
//! that put the queues back are tried again, on the word found.
//!
//! | group, and what all its places know | place | knows besides | wants | where an answer leads |
//! |---|---|---|---|---|
//! | **try**: nothing in hand | `TryLoad` | | load the word | `TryAcquire` if it may be acquired, else `Busy` |
//! | | `TryAcquire` | the word may be acquired | acquire | `Succeeded`, or `Busy` |
//! | **acquire**, for a lock or for a wait that comes back: nothing in hand | `AcquireLoad` | | load the word | the acquire's decision |
//! | | `AcquireExchange` | the word may be acquired | acquire | `Succeeded`; for a wait that comes back, its test |
//! | | `TakeToQueue` | the word may not be acquired, and nobody has the queues | set the spinlock bit, and tell of the waiter | `Arm` |
//! | | `Arm` | has the queues | set one's own flag | `Queue` |
//! | | `Queue` | has the queues, its flag is set | put the queues back with oneself in the list: at the back if fresh, at the front and with one failed try more if woken | `AwaitWake` |
//! | | `AwaitWake` | waits, and how often it has failed | load one's own flag | clear: `AcquireLoad`, woken; else idle, and again |
//! | **release**: a section that may be left so | `ReleaseLoad` | | load the word | the release's decision |
//! | | `ReleaseExchange` | no scan is needed | release, which commits the section | `Succeeded` |
//! | | `TakeToScan` | a scan is needed, and nobody has the queues | set the spinlock bit | `ScanCells` if a waiter has a condition, else `ScanAndRelease` |
//! | | `ScanCells` | has the queues | load each cell | after the last `ScanAndRelease` |
//! | | `ScanAndRelease` | has the queues | put back what a scan leaves, release and commit | `Pay` if somebody was taken, else `Succeeded` |
//! | | `Pay` | has no section any more, and owes wakes | clear the flag of the next who is owed one | again while wakes are owed, then `Succeeded` |
//! | **cells**: a section | `GetLoad` | | load the cell | its value |
//! | | `SetLoad`, `SetStore` | it writes | load the cell's old value, store the new one | `Succeeded` |
//! | | `QuietCells`, `QuietLast` | it writes | load each cell | the last tells: a question is answered; a quiet release goes to `ReleaseLoad` of a quiet writer, or answers `Noisy` |
//! | **wait** | | as its place says | as its place says | as its place says, in `wait_walk.rt` |
//! | **signal**, and broadcast: a section or none | `SignalLoad` | | load the word | `TakeToWake`; idle, and again while another has the queues |
//! | | `TakeToWake` | nobody has the queues | set the spinlock bit | `WakeAndReturn` |
//! | | `WakeAndReturn` | has the queues | put back what is left once the waiters are taken, and commit whom it took: moved to the lock list where the word put back is held, else owed their wakes | `PayTheWoken` if wakes are owed, else `Succeeded` |
//! | | `PayTheWoken` | owes wakes | clear the flag of the next who is owed one, to 2 and the variable's number | again while wakes are owed, then `Succeeded` |
//! | **show**: a section or none | `ShowLoad` | | load the word | `TakeToShow`; idle, and again while another has the queues |
//! | | `TakeToShow` | nobody has the queues | set the spinlock bit | `ReturnShown`; what is shown is the word that this exchange compared, and the lists of that state |
//! | | `ReturnShown` | has the queues | put them back as they were, and clear the spinlock bit | `Succeeded` |
//!
//! The acquire's decision, by a word: `AcquireExchange` where it may be acquired; else idle and from
//! `AcquireLoad` again where another has the queues; else `TakeToQueue`. The release's decision:
//! `ReleaseExchange` where no scan is needed; else idle and from `ReleaseLoad` again where another
//! has the queues; else `TakeToScan`. Idle is a step that was made, after which the call repeats
//! from that place.

ghost use Rattle.std.specs.Prelude.{◌≡◌, ◌≤◌, ⊤};
ghost use Rattle.ns_word.specs.Prelude.{QuietWriter, ToRelease, ToTell, asked_of, got_of, quiet_first, wait_first, want_of};
ghost use Rattle.ns_word.specs.declared.request.Request.TheVariants as TheRequest;

use crate::acquire_walk::AcquirePlace;
use crate::act::{Act, Found, Waking};
use crate::cell_walk::{CellPlace, Judging, quiet_place};
use crate::release_walk::ReleasePlace;
use crate::show_walk::ShowPlace;
use crate::signal_walk::SignalPlace;
use crate::try_walk::TryPlace;
use crate::wait::{Aim, QueuePlace, Subject, Visit, Wait, WaitPlace};
use crate::wait_walk::test_place;
use crate::word::{Arrival, Releasing};
use ns_env::next::Next;
use ns_model::event::{Answer, Mode};
use std::alloc::AllocError;

/// A place in a call.
///
/// It, [`Act`], [`Found`] and the places have no `Debug` and no comparisons, and those
/// with a condition are cloned by hand, as a copy: what a derive writes for a type with many
/// variants is proved anew in each check.
#[derive(Copy)]
pub enum Walk<C> {
    /// A try for this mode.
    InTry(Mode, TryPlace),
    /// An acquire for this.
    InAcquire(Aim<C>, AcquirePlace),
    /// A release of a section in this way.
    InRelease(Releasing, ReleasePlace),
    /// A call on the row of the section in hand.
    InCells(CellPlace),
    /// A wait.
    InWait(Wait<C>, WaitPlace),
    /// A call that wakes those who wait for the variable of this number.
    InSignal(Waking, u8, SignalPlace),
    /// A call that shows the lock word and the waiter lists.
    InShow(ShowPlace),
}

impl<C: Copy> Clone for Walk<C> {
    ghost is_clone = { λ one other. other ≡ one };

    ghost is_infallible = { λ _. ⊤ };

    fn clone(&self) -> Result<Self, AllocError> {
        Ok(*self)
    }
}

/// What a call answers.
#[derive(Clone, Copy, Debug, PartialEq, Eq)]
pub enum Reply {
    /// Done, or acquired.
    Succeeded,
    /// Not acquired.
    Busy,
    /// Not released, since the section isn't quiet.
    Noisy,
    /// A cell's value.
    Number(u64),
    /// Whether a section is quiet.
    Is(bool),
    /// How a wait came back.
    Answered(Answer),
    /// A wait for any variables of a set came back: the one that woke it, or none where it was ended.
    WokenBy(Option<u8>),
}

/// Where a walk on the lock goes.
pub type WalkNext<C> = Next<Walk<C>, Reply>;

impl<C: Copy> Walk<C> {
    /// The first place of a call that locks in this mode.
    pub fn lock(mode: Mode) -> Walk<C>
        ensures first { result ≡ Walk.InAcquire (Aim.ForLock mode) (AcquirePlace.AcquireLoad Arrival.AsFresh) }
        ensures asked { asked_of result ≡ TheRequest.Lock mode }
    {
        Walk::InAcquire(
            Aim::ForLock(mode),
            AcquirePlace::AcquireLoad(Arrival::AsFresh),
        )
    }

    /// The first place of a call that tries to lock in this mode.
    pub fn try_lock(mode: Mode) -> Walk<C>
        ensures first { result ≡ Walk.InTry mode TryPlace.TryLoad }
        ensures asked { asked_of result ≡ TheRequest.TryLock mode }
    {
        Walk::InTry(mode, TryPlace::TryLoad)
    }

    /// The first place of a release of a section in this way.
    pub fn release(releasing: Releasing) -> Walk<C>
        ensures first { result ≡ Walk.InRelease releasing ReleasePlace.ReleaseLoad }
        ensures asked { asked_of result ≡ TheRequest.Release releasing }
    {
        Walk::InRelease(releasing, ReleasePlace::ReleaseLoad)
    }

    /// The place of a read of this cell.
    pub fn get(i: u8) -> Walk<C>
        ensures first { result ≡ Walk.InCells (CellPlace.GetLoad i) }
        ensures asked { asked_of result ≡ TheRequest.Get i }
    {
        Walk::InCells(CellPlace::GetLoad(i))
    }

    /// The first place of a write of this value into this cell.
    pub fn set(i: u8, value: u64) -> Walk<C>
        ensures first { result ≡ Walk.InCells (CellPlace.SetLoad i value) }
        ensures asked { asked_of result ≡ TheRequest.Set i value }
    {
        Walk::InCells(CellPlace::SetLoad(i, value))
    }

    /// The first place of a quiet release of a row of `N` cells.
    ///
    /// Needs a row of at most 16 cells.
    pub fn quiet_release<const N: usize>() -> Walk<C>
        requires { N ≤ 16 }
        ensures first { result ≡ quiet_first N ToRelease }
        ensures asked { asked_of result ≡ TheRequest.Release QuietWriter }
    {
        Walk::InCells(quiet_place::<N>(Judging::ToRelease, 0))
    }

    /// The first place of a question whether the section in hand is quiet, over a row of `N` cells.
    ///
    /// Needs a row of at most 16 cells.
    pub fn is_quiet<const N: usize>() -> Walk<C>
        requires { N ≤ 16 }
        ensures first { result ≡ quiet_first N ToTell }
        ensures asked { asked_of result ≡ TheRequest.IsQuiet }
    {
        Walk::InCells(quiet_place::<N>(Judging::ToTell, 0))
    }

    /// The first place of a wait over a row of `N` cells.
    ///
    /// Needs a row of at most 16 cells.
    pub fn wait<const N: usize>(wait: Wait<C>) -> Walk<C>
        requires { N ≤ 16 }
        ensures first { result ≡ wait_first N wait }
        ensures asked { asked_of result ≡ TheRequest.Await wait }
    {
        match wait.on {
            Subject::OnCondition(_) => test_place::<C, N>(&wait, Visit::OnEntry, 0),
            Subject::OnVariables(_) => {
                Walk::InWait(wait, WaitPlace::InQueuing(false, QueuePlace::Load))
            }
        }
    }

    /// The first place of a call that wakes those who wait for the variable of this number.
    pub fn signal(waking: Waking, k: u8) -> Walk<C>
        ensures first { result ≡ Walk.InSignal waking k SignalPlace.SignalLoad }
        ensures asked { asked_of result ≡ TheRequest.Wake waking k }
    {
        Walk::InSignal(waking, k, SignalPlace::SignalLoad)
    }

    /// The first place of a call that shows the lock word and the waiter lists.
    pub fn show() -> Walk<C>
        ensures first { result ≡ Walk.InShow ShowPlace.ShowLoad }
        ensures asked { asked_of result ≡ TheRequest.Show }
    {
        Walk::InShow(ShowPlace::ShowLoad)
    }

    /// The step that the walk wants next.
    pub fn want(&self) -> Act<C>
        ensures { result ≡ want_of self.now }
    {
        match self {
            Walk::InTry(mode, place) => place.want(*mode),
            Walk::InAcquire(aim, place) => place.want(aim),
            Walk::InRelease(releasing, place) => place.want(*releasing),
            Walk::InCells(place) => place.want(),
            Walk::InWait(wait, place) => place.want(wait),
            Walk::InSignal(waking, k, place) => place.want(*waking, *k),
            Walk::InShow(place) => place.want(),
        }
    }

    /// Where the walk goes with what its step found, over a row of `N` cells. What no step of the
    /// place finds leaves it where it is.
    ///
    /// Needs a row of at most 16 cells, which every condition's law says.
    pub fn got<const N: usize>(&self, found: Found) -> WalkNext<C>
        requires { N ≤ 16 }
        ensures { result ≡ got_of N self.now found }
    {
        match self {
            Walk::InTry(mode, place) => place.got(*mode, found),
            Walk::InAcquire(aim, place) => place.got::<C, N>(aim, found),
            Walk::InRelease(releasing, place) => place.got::<C, N>(*releasing, found),
            Walk::InCells(place) => place.got::<C, N>(found),
            Walk::InWait(wait, place) => place.got::<C, N>(wait, found),
            Walk::InSignal(waking, k, place) => place.got(*waking, *k, found),
            Walk::InShow(place) => place.got(found),
        }
    }
}
