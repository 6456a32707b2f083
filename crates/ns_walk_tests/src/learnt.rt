//! What a test knows of a driven seat behind an act, and of the places between which it goes.

ghost use Rattle.std.specs.Prelude.{◌≡◌, Some};
ghost use Rattle.ns_walk_tests.specs.Driving.{goes_between, is_made, is_returning, is_saw, is_taking, loaded, owed_behind, section_after, stored};
ghost use Rattle.ns_env.specs.Nexts.{place_after};
ghost use Rattle.ns_word.specs.Walks.{has_armed, has_queues};

use crate::known::{Rows, Section};
use ns_env::next::Next;
use ns_word::acquire_walk::AcquirePlace;
use ns_word::act::{Act, Found};
use ns_word::owed::Owed;
use ns_word::release_walk::ReleasePlace;
use ns_word::show_walk::ShowPlace;
use ns_word::signal_walk::SignalPlace;
use ns_word::wait::{LeavePlace, QueuePlace, WaitPlace};
use ns_word::walk::{Walk, WalkNext};

impl Rows {
    /// The same once the cell was loaded.
    fn loaded(self, found: Found) -> Rows
        ensures { result ≡ loaded found self }
    {
        match (found, self) {
            (Found::Cell(value), Rows::Unread) => Rows::Are(value, value),
            _ => self,
        }
    }

    /// The same once this was stored there.
    fn stored(self, value: u64) -> Rows
        ensures { result ≡ stored value self }
    {
        match self {
            Rows::Are(before, _) => Rows::Are(before, value),
            _ => Rows::Unknown,
        }
    }
}

/// The wake that is owed behind an act that puts no queues back, where this one was owed.
pub fn owed_behind<C: Copy>(act: Act<C>, owed: Option<Owed>) -> Option<Owed>
    ensures { result ≡ owed_behind act owed }
{
    match act {
        Act::PayWake => None,
        _ => owed,
    }
}

/// Whether the exchange was made.
fn is_made(found: Found) -> bool
    ensures { result ≡ is_made found }
{
    matches!(found, Found::Made)
}

/// Whether another word was found than the one last seen.
fn is_saw(found: Found) -> bool
    ensures { result ≡ is_saw found }
{
    matches!(found, Found::Saw(_))
}

/// Whether the act puts the queues back.
fn is_returning<C: Copy>(act: Act<C>) -> bool
    ensures { result ≡ is_returning act }
{
    matches!(
        act,
        Act::ReturnQueues(_, _) | Act::ReleaseReturning(_, _) | Act::WaitReturning(_, _, _)
    )
}

/// Whether the act takes the queues.
fn is_taking<C: Copy>(act: Act<C>) -> bool
    ensures { result ≡ is_taking act }
{
    matches!(act, Act::TakeQueues(_, _))
}

/// Whether the step goes between places with the queues and without as its act does.
pub fn goes_between<C: Copy>(act: Act<C>, found: Found, had: bool, has: bool) -> bool
    ensures { result ≡ goes_between act found had has }
{
    if is_taking(act) {
        !had && (if is_made(found) { has } else { !has })
    } else if is_returning(act) {
        had && !has && !is_saw(found)
    } else if had {
        has
    } else {
        !has
    }
}

/// What is known of the section behind an act that found this.
pub fn section_after<C: Copy>(
    act: Act<C>,
    found: Found,
    section: Option<Section>,
) -> Option<Section>
    ensures { result ≡ section_after act found section }
{
    match act {
        Act::Acquire(aim, _, _) => {
            if is_made(found) {
                let mode = aim.mode();
                let rows = Rows::Unread;
                Some(Section { mode, rows })
            } else {
                section
            }
        }
        Act::Release(_, _) => { if is_made(found) { None } else { section } }
        Act::ReleaseReturning(_, _) | Act::WaitReturning(_, _, _) => {
            if is_saw(found) { section } else { None }
        }
        Act::LoadCell(_) => match section {
            Some(Section { mode, rows }) => {
                let rows = rows.loaded(found);
                Some(Section { mode, rows })
            }
            None => None,
        },
        Act::StoreCell(_, value) => match section {
            Some(Section { mode, rows }) => {
                let rows = rows.stored(value);
                Some(Section { mode, rows })
            }
            None => None,
        },
        _ => section,
    }
}

/// Whether a seat at the place has the queues.
pub fn has_queues<C: Copy>(walk: Walk<C>) -> bool
    ensures { result ≡ has_queues (Some walk) }
{
    match walk {
        Walk::InAcquire(_, AcquirePlace::Arm(_, _) | AcquirePlace::Queue(_, _)) => true,
        Walk::InRelease(_, ReleasePlace::ScanCells(_, _) | ReleasePlace::ScanAndRelease(_)) => true,
        Walk::InWait(_, WaitPlace::InQueuing(_, place)) => matches!(
            place,
            QueuePlace::ArmToWait(_) | QueuePlace::LoadToScan(_, _) | QueuePlace::QueueToWait(_)
        ),
        Walk::InWait(_, WaitPlace::InLeaving(_, LeavePlace::Leave(_))) => true,
        Walk::InSignal(_, _, SignalPlace::WakeAndReturn(_)) => true,
        Walk::InShow(ShowPlace::ReturnShown(_)) => true,
        _ => false,
    }
}

/// Whether a seat at the place has armed its flag, and stands in no list yet.
pub fn has_armed<C: Copy>(walk: Walk<C>) -> bool
    ensures { result ≡ has_armed (Some walk) }
{
    match walk {
        Walk::InAcquire(_, AcquirePlace::Queue(_, _)) => true,
        Walk::InWait(_, WaitPlace::InQueuing(_, place)) => {
            matches!(
                place,
                QueuePlace::LoadToScan(_, _) | QueuePlace::QueueToWait(_)
            )
        }
        _ => false,
    }
}

/// Whether a seat has the queues that goes there.
pub fn next_has<C: Copy>(next: WalkNext<C>) -> bool
    ensures { result ≡ has_queues (place_after next) }
{
    match next {
        Next::On(walk) | Next::Idle(walk) => has_queues(walk),
        Next::Done(_) => false,
    }
}
