//! The places of a wait, for a condition or for condition variables, one atomic step at a time.
//!
//! *Again* says that the wait has come back once, found its condition false, and queues anew. A
//! compare-exchange that finds another word leads on as a load of that word would; but the two that
//! put the queues back are tried again, on the word found.
//!
//! | group, and what all its places know | place | knows besides | wants | where an answer leads |
//! |---|---|---|---|---|
//! | tests: a section, which as it comes back from the wait is unchanged | `TestCells`, `TestLast` | | load each cell; the last tells whether the condition is true | `Met`, or the wait's decision |
//! | **queuing**: a section, of whose row the condition is false | `LookIn` | waits for a condition | look at the note and the deadline | what is shown is answered; nothing: `Load` |
//! | | `Load` | | load the word | `Take`; idle, and again while another has the queues |
//! | | `Take` | nobody has the queues | set the spinlock bit | `ArmToWait` |
//! | | `ArmToWait` | has the queues | set one's own flag | `QueueToWait`; for variables `LoadToScan` if a waiter of the lock list has a condition |
//! | | `LoadToScan` | waits for variables, has the queues, its flag is set | load each cell | after the last `QueueToWait` |
//! | | `QueueToWait` | has the queues, its flag is set | put back what a scan leaves, which is made whatever `desig` says, since the section may have made conditions true; with oneself in the lock list, at the back, or at the front if again, or at the back of its variables' lists; release, and commit if not again | `PayInWait` if the scan took somebody, else `AwaitWakeInWait` |
//! | outside: waits | `PayInWait` | owes wakes | clear the flag of the next who is owed one | again while wakes are owed, then `AwaitWakeInWait` |
//! | | `AwaitWakeInWait` | | load one's own flag | cleared: `AcquireLoad`, as woken if the flag tells that it was taken from the lock list, else fresh, to come back; else `LookOut`, or idle and again if nothing may end the wait early |
//! | | `LookOut` | | look | what is shown is kept: `LeaveLoad`; nothing: idle, and `AwaitWakeInWait` again |
//! | **leaving**: waits, and has kept a cause | `LeaveLoad` | | load the word | `TakeToLeave`; idle, and again while another has the queues |
//! | | `TakeToLeave` | nobody has the queues | set the spinlock bit | `Leave` |
//! | | `Leave` | has the queues | put the queues back without oneself | `AcquireLoad`, fresh, if one still stood there; else `AwaitWakeToLeave` |
//! | | `AwaitWakeToLeave` | was taken before it could leave | load one's own flag | cleared: `AcquireLoad` as above, and a wait for variables has been woken; else idle, and again |
//!
//! The wait's decision, where its condition is false: over with the cause that has ended it early, if
//! one has; else `LookIn`, if anything may end it early; else `Load`. An acquire is *for* a lock or for
//! a wait (`Aim`): the latter goes on with the test, and with what came of the wait (`Outcome`). What a
//! wait answers early is open until the section is committed: the section in hand keeps the outcome
//! (`Opening`), and the event says 'met' where the condition is true of the row that the section began
//! at.

ghost use Rattle.std.specs.Prelude.{◌≡◌, ◌≤◌};
ghost use Rattle.ns_word.specs.Prelude.{armed_place, arrival_of, got_leaving, got_queuing, got_waiting, judge_of, leave_by, load_place, look_or_queue, pay_waiting, queue_by, rest_or_look, test_place, unmet_by, want_leaving, want_queuing, want_waiting};

use crate::acquire_walk::AcquirePlace;
use crate::act::{Act, Change, Found};
use crate::wait::{
    Aim, LeavePlace, Outcome, QueuePlace, Subject, Visit, Wait, WaitPlace, answer_of, arrival_of,
};
use crate::walk::{Reply, Walk, WalkNext};
use crate::word::{Arrival, Taking, Word};
use ns_env::limits::Cause;
use ns_env::next::Next;
use ns_model::event::Answer;

/// Where a wait goes that tests its condition and has loaded so many cells.
pub(crate) fn test_place<C: Copy, const N: usize>(
    wait: &Wait<C>,
    visit: Visit,
    loaded: usize,
) -> Walk<C>
    requires { N ≤ 16 }
    ensures { result ≡ test_place N wait.now visit loaded }
{
    let last = N.saturating_sub(1);
    if loaded < last {
        Walk::InWait(*wait, WaitPlace::TestCells(visit, loaded as u8))
    } else {
        Walk::InWait(*wait, WaitPlace::TestLast(visit, last as u8))
    }
}

/// Where a wait goes that has to go on waiting, unless a look shows something.
fn look_or_queue<C: Copy>(wait: &Wait<C>, again: bool) -> WalkNext<C>
    ensures { result ≡ look_or_queue wait.now again }
{
    if wait.limits.is_some() {
        Next::On(Walk::InWait(*wait, WaitPlace::InQueuing(again, QueuePlace::LookIn)))
    } else {
        Next::On(Walk::InWait(*wait, WaitPlace::InQueuing(again, QueuePlace::Load)))
    }
}

/// Where a wait goes that has found this value in its flag and comes back, with what came of it: it
/// acquires, and has not failed in that yet.
fn acquire_woken<C: Copy>(wait: &Wait<C>, outcome: Outcome, value: u8) -> WalkNext<C>
    ensures { result ≡ Next.On (Walk.InAcquire (Aim.ForWait wait.now outcome) (AcquirePlace.AcquireLoad (arrival_of 0 value))) }
{
    let place = AcquirePlace::AcquireLoad(arrival_of(0, value));
    Next::On(Walk::InAcquire(Aim::ForWait(*wait, outcome), place))
}

/// Where a wait goes whose condition is false.
fn unmet_by<C: Copy>(wait: &Wait<C>, visit: Visit) -> WalkNext<C>
    ensures { result ≡ unmet_by wait.now visit }
{
    match visit {
        Visit::OnEntry => look_or_queue(wait, false),
        Visit::OnReturn(Outcome::Woken(_)) => look_or_queue(wait, true),
        Visit::OnReturn(Outcome::Ended(cause)) => Next::Done(Reply::Answered(answer_of(cause))),
    }
}

/// Where a wait that is about to queue goes by the word last seen.
fn queue_by<C: Copy>(wait: &Wait<C>, again: bool, word: Word) -> WalkNext<C>
    ensures { result ≡ queue_by wait.now again word }
{
    if word.spin {
        Next::Idle(Walk::InWait(*wait, WaitPlace::InQueuing(again, QueuePlace::Load)))
    } else {
        Next::On(Walk::InWait(*wait, WaitPlace::InQueuing(again, QueuePlace::Take(word))))
    }
}

/// Where a wait goes that has queued, and owes wakes or none.
fn pay_waiting<C: Copy>(wait: &Wait<C>, owes: bool) -> WalkNext<C>
    ensures { result ≡ pay_waiting wait.now owes }
{
    if owes {
        Next::On(Walk::InWait(*wait, WaitPlace::PayInWait))
    } else {
        Next::On(Walk::InWait(*wait, WaitPlace::AwaitWakeInWait))
    }
}

/// Where a wait goes that waits to be woken, and wasn't yet.
fn rest_or_look<C: Copy>(wait: &Wait<C>) -> WalkNext<C>
    ensures { result ≡ rest_or_look wait.now }
{
    if wait.limits.is_some() {
        Next::On(Walk::InWait(*wait, WaitPlace::LookOut))
    } else {
        Next::Idle(Walk::InWait(*wait, WaitPlace::AwaitWakeInWait))
    }
}

/// Where a wait that leaves goes by the word last seen.
fn leave_by<C: Copy>(wait: &Wait<C>, cause: Cause, word: Word) -> WalkNext<C>
    ensures { result ≡ leave_by wait.now cause word }
{
    if word.spin {
        Next::Idle(Walk::InWait(*wait, WaitPlace::InLeaving(cause, LeavePlace::LeaveLoad)))
    } else {
        Next::On(Walk::InWait(
            *wait,
            WaitPlace::InLeaving(cause, LeavePlace::TakeToLeave(word)),
        ))
    }
}

/// The step that tells of a condition.
fn judge<C: Copy>(on: &Subject<C>, i: u8) -> Act<C>
    ensures { result ≡ judge_of on.now i }
{
    match on {
        Subject::OnCondition(cond) => Act::JudgeMet(i, *cond),
        Subject::OnVariables(_) => Act::LoadCell(i),
    }
}

/// Where a wait with the queues goes that loads cells for its scan and has loaded so many.
fn load_place<const N: usize>(last: Word, loaded: usize) -> QueuePlace
    requires { N ≤ 16 }
    ensures { result ≡ load_place N last loaded }
{
    if loaded < N {
        QueuePlace::LoadToScan(last, loaded as u8)
    } else {
        QueuePlace::QueueToWait(last)
    }
}

/// Where a wait goes that has the queues and has set its flag. One for a condition has loaded the
/// row already; another does where some waiter has a condition.
fn armed_place<C: Copy, const N: usize>(on: &Subject<C>, last: Word) -> QueuePlace
    requires { N ≤ 16 }
    ensures { result ≡ armed_place N on.now last }
{
    match on {
        Subject::OnVariables(_) if last.cond => load_place::<N>(last, 0),
        _ => QueuePlace::QueueToWait(last),
    }
}

impl QueuePlace {
    /// The step that the place wants next.
    fn want<C: Copy>(self, wait: &Wait<C>, again: bool) -> Act<C>
        ensures { result ≡ want_queuing wait.now again self }
    {
        match self {
            QueuePlace::LookIn => Act::Look(wait.limits, again),
            QueuePlace::Load => Act::LoadWord,
            QueuePlace::Take(last) => Act::TakeQueues(Taking::ToChange, last),
            QueuePlace::ArmToWait(_) => Act::ArmFlag,
            QueuePlace::LoadToScan(_, i) => Act::LoadCell(i),
            QueuePlace::QueueToWait(last) => Act::WaitReturning(*wait, again, last),
        }
    }

    /// Where the wait goes with what its step found.
    fn got<C: Copy, const N: usize>(self, wait: &Wait<C>, again: bool, found: Found) -> WalkNext<C>
        requires { N ≤ 16 }
        ensures { result ≡ got_queuing N wait.now again self found }
    {
        match (self, found) {
            (QueuePlace::LookIn, Found::Looked(None)) => {
                Next::On(Walk::InWait(*wait, WaitPlace::InQueuing(again, QueuePlace::Load)))
            }
            (QueuePlace::LookIn, Found::Looked(Some(cause))) => {
                Next::Done(Reply::Answered(answer_of(cause)))
            }
            (QueuePlace::Load, Found::Saw(word)) => queue_by(wait, again, word),
            (QueuePlace::Take(_), Found::Saw(word)) => queue_by(wait, again, word),
            (QueuePlace::Take(last), Found::Made) => {
                let place = QueuePlace::ArmToWait(last.taken(Taking::ToChange));
                Next::On(Walk::InWait(*wait, WaitPlace::InQueuing(again, place)))
            }
            (QueuePlace::ArmToWait(last), Found::Made) => {
                let place = armed_place::<C, N>(&wait.on, last);
                Next::On(Walk::InWait(*wait, WaitPlace::InQueuing(again, place)))
            }
            (QueuePlace::LoadToScan(last, i), Found::Cell(_)) => {
                let place = load_place::<N>(last, i as usize + 1);
                Next::On(Walk::InWait(*wait, WaitPlace::InQueuing(again, place)))
            }
            (QueuePlace::QueueToWait(_), Found::Saw(word)) => {
                let place = QueuePlace::QueueToWait(word);
                Next::On(Walk::InWait(*wait, WaitPlace::InQueuing(again, place)))
            }
            (QueuePlace::QueueToWait(_), Found::Scanned { owes, .. }) => pay_waiting(wait, owes),
            (place, _) => Next::On(Walk::InWait(*wait, WaitPlace::InQueuing(again, place))),
        }
    }
}

impl LeavePlace {
    /// The step that the place wants next.
    fn want<C: Copy>(self, wait: &Wait<C>) -> Act<C>
        ensures { result ≡ want_leaving wait.now self }
    {
        match self {
            LeavePlace::LeaveLoad => Act::LoadWord,
            LeavePlace::TakeToLeave(last) => Act::TakeQueues(Taking::ToChange, last),
            LeavePlace::Leave(last) => Act::ReturnQueues(Change::LeaveSelf(wait.on.home()), last),
            LeavePlace::AwaitWakeToLeave => Act::LoadFlag,
        }
    }

    /// Where the wait goes with what its step found.
    fn got<C: Copy>(self, wait: &Wait<C>, cause: Cause, found: Found) -> WalkNext<C>
        ensures { result ≡ got_leaving wait.now cause self found }
    {
        match (self, found) {
            (LeavePlace::LeaveLoad, Found::Saw(word)) => leave_by(wait, cause, word),
            (LeavePlace::TakeToLeave(_), Found::Saw(word)) => leave_by(wait, cause, word),
            (LeavePlace::TakeToLeave(last), Found::Made) => {
                let place = LeavePlace::Leave(last.taken(Taking::ToChange));
                Next::On(Walk::InWait(*wait, WaitPlace::InLeaving(cause, place)))
            }
            (LeavePlace::Leave(_), Found::Saw(word)) => {
                Next::On(Walk::InWait(*wait, WaitPlace::InLeaving(cause, LeavePlace::Leave(word))))
            }
            (LeavePlace::Leave(_), Found::Left(stood)) => {
                if stood {
                    let aim = Aim::ForWait(*wait, Outcome::Ended(cause));
                    Next::On(Walk::InAcquire(aim, AcquirePlace::AcquireLoad(Arrival::AsFresh)))
                } else {
                    let place = LeavePlace::AwaitWakeToLeave;
                    Next::On(Walk::InWait(*wait, WaitPlace::InLeaving(cause, place)))
                }
            }
            (LeavePlace::AwaitWakeToLeave, Found::Flag(value)) => {
                if value == 1 {
                    let place = LeavePlace::AwaitWakeToLeave;
                    Next::Idle(Walk::InWait(*wait, WaitPlace::InLeaving(cause, place)))
                } else {
                    acquire_woken(wait, wait.on.outcome_taken(cause, value), value)
                }
            }
            (place, _) => Next::On(Walk::InWait(*wait, WaitPlace::InLeaving(cause, place))),
        }
    }
}

impl WaitPlace {
    /// The step that the place wants next.
    pub(crate) fn want<C: Copy>(self, wait: &Wait<C>) -> Act<C>
        ensures { result ≡ want_waiting wait.now self }
    {
        match self {
            WaitPlace::TestCells(_, i) => Act::LoadCell(i),
            WaitPlace::TestLast(_, i) => judge(&wait.on, i),
            WaitPlace::InQueuing(again, place) => place.want(wait, again),
            WaitPlace::PayInWait => Act::PayWake,
            WaitPlace::AwaitWakeInWait => Act::LoadFlag,
            WaitPlace::LookOut => Act::Look(wait.limits, false),
            WaitPlace::InLeaving(_, place) => place.want(wait),
        }
    }

    /// Where the wait goes with what its step found.
    pub(crate) fn got<C: Copy, const N: usize>(self, wait: &Wait<C>, found: Found) -> WalkNext<C>
        requires { N ≤ 16 }
        ensures { result ≡ got_waiting N wait.now self found }
    {
        match (self, found) {
            (WaitPlace::TestCells(visit, i), Found::Cell(_)) => {
                Next::On(test_place::<C, N>(wait, visit, i as usize + 1))
            }
            (WaitPlace::TestLast(visit, _), Found::Tested(is_met)) => {
                if is_met {
                    Next::Done(Reply::Answered(Answer::Met))
                } else {
                    unmet_by(wait, visit)
                }
            }
            (WaitPlace::InQueuing(again, place), found) => place.got::<C, N>(wait, again, found),
            (WaitPlace::PayInWait, Found::Paid { owes }) => pay_waiting(wait, owes),
            (WaitPlace::AwaitWakeInWait, Found::Flag(value)) => {
                if value == 1 {
                    rest_or_look(wait)
                } else {
                    acquire_woken(wait, wait.on.woken_by(value), value)
                }
            }
            (WaitPlace::LookOut, Found::Looked(None)) => {
                Next::Idle(Walk::InWait(*wait, WaitPlace::AwaitWakeInWait))
            }
            (WaitPlace::LookOut, Found::Looked(Some(cause))) => {
                Next::On(Walk::InWait(*wait, WaitPlace::InLeaving(cause, LeavePlace::LeaveLoad)))
            }
            (WaitPlace::InLeaving(cause, place), found) => place.got(wait, cause, found),
            (place, _) => Next::On(Walk::InWait(*wait, place)),
        }
    }
}
