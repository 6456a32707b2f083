//! A release: an exchange where no waiter has to be woken, else a scan of the lock list.

ghost use Rattle.std.specs.Prelude.{◌≡◌, ◌≤◌};
ghost use Rattle.ns_word.specs.Walks.{want_releasing, got_releasing, release_by, scan_place, pay_releasing};

use crate::act::{Act, Found};
use crate::walk::{Reply, Walk, WalkNext};
use crate::word::{Releasing, Taking, Word};
use ns_env::next::Next;

/// A place in a release. A word is the one last seen. Until `Pay` the section is in hand.
#[derive(Clone, Copy)]
pub enum ReleasePlace {
    /// It is about to load the word.
    ReleaseLoad,
    /// It has seen this word, by which it needs no scan.
    ReleaseExchange(Word),
    /// It has seen this word, and is about to take the queues.
    TakeToScan(Word),
    /// It has the queues, and is about to load this cell.
    ScanCells(Word, u8),
    /// It is about to put the queues back as a scan leaves them.
    ScanAndRelease(Word),
    /// It has released, and owes wakes.
    Pay,
}

/// Where a release goes by the word last seen.
fn release_by<C: Copy>(releasing: Releasing, word: Word) -> WalkNext<C>
    ensures { result ≡ release_by releasing word }
{
    if !word.needs_scan(releasing) {
        Next::On(Walk::InRelease(releasing, ReleasePlace::ReleaseExchange(word)))
    } else if word.spin {
        Next::Idle(Walk::InRelease(releasing, ReleasePlace::ReleaseLoad))
    } else {
        Next::On(Walk::InRelease(releasing, ReleasePlace::TakeToScan(word)))
    }
}

/// Where a release with the queues goes that has loaded so many cells.
fn scan_place<const N: usize>(last: Word, loaded: usize) -> ReleasePlace
    requires { N ≤ 16 }
    ensures { result ≡ scan_place N last loaded }
{
    if loaded < N {
        ReleasePlace::ScanCells(last, loaded as u8)
    } else {
        ReleasePlace::ScanAndRelease(last)
    }
}

/// Where a release goes that owes wakes, or none.
fn pay_releasing<C: Copy>(releasing: Releasing, owes: bool) -> WalkNext<C>
    ensures { result ≡ pay_releasing releasing owes }
{
    if owes {
        Next::On(Walk::InRelease(releasing, ReleasePlace::Pay))
    } else {
        Next::Done(Reply::Succeeded)
    }
}

impl ReleasePlace {
    /// The step that the place wants next.
    pub(crate) fn want<C: Copy>(self, releasing: Releasing) -> Act<C>
        ensures { result ≡ want_releasing releasing self }
    {
        match self {
            ReleasePlace::ReleaseLoad => Act::LoadWord,
            ReleasePlace::ReleaseExchange(last) => Act::Release(releasing, last),
            ReleasePlace::TakeToScan(last) => Act::TakeQueues(Taking::ToChange, last),
            ReleasePlace::ScanCells(_, i) => Act::LoadCell(i),
            ReleasePlace::ScanAndRelease(last) => Act::ReleaseReturning(releasing, last),
            ReleasePlace::Pay => Act::PayWake,
        }
    }

    /// Where the release goes with what its step found.
    pub(crate) fn got<C: Copy, const N: usize>(
        self,
        releasing: Releasing,
        found: Found,
    ) -> WalkNext<C>
        requires { N ≤ 16 }
        ensures { result ≡ got_releasing N releasing self found }
    {
        match (self, found) {
            (ReleasePlace::ReleaseLoad, Found::Saw(word)) => release_by(releasing, word),
            (ReleasePlace::ReleaseExchange(_), Found::Saw(word)) => release_by(releasing, word),
            (ReleasePlace::ReleaseExchange(_), Found::Made) => Next::Done(Reply::Succeeded),
            (ReleasePlace::TakeToScan(_), Found::Saw(word)) => release_by(releasing, word),
            (ReleasePlace::TakeToScan(last), Found::Made) => {
                let word = last.taken(Taking::ToChange);
                if last.cond {
                    Next::On(Walk::InRelease(releasing, scan_place::<N>(word, 0)))
                } else {
                    Next::On(Walk::InRelease(releasing, ReleasePlace::ScanAndRelease(word)))
                }
            }
            (ReleasePlace::ScanCells(last, i), Found::Cell(_)) => {
                Next::On(Walk::InRelease(releasing, scan_place::<N>(last, i as usize + 1)))
            }
            (ReleasePlace::ScanAndRelease(_), Found::Saw(word)) => {
                Next::On(Walk::InRelease(releasing, ReleasePlace::ScanAndRelease(word)))
            }
            (ReleasePlace::ScanAndRelease(_), Found::Scanned { owes, .. }) => {
                pay_releasing(releasing, owes)
            }
            (ReleasePlace::Pay, Found::Paid { owes }) => pay_releasing(releasing, owes),
            (place, _) => Next::On(Walk::InRelease(releasing, place)),
        }
    }
}
