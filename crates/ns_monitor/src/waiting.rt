//! A wait outside: it leaves its section and queues, waits to be woken or ended, and may leave its list.

ghost use Rattle.std.specs.Prelude.{◌≡◌, None, Some, IfErr, true, []};
ghost use Rattle.ns_monitor.specs.Prelude.{AcquireLoad, AwaitWakeInWait, ForWait, HasAcquired, HasLeftToWait, HasMadeStepsTo, HasRow, HasTakenAt, IfEnded, InAcquire, InLeaving, InQueuing, InWait, IsAtPlace, IsInRange, LeaveLoad, Load, WokenOrEnded, is_limited, lacks_row, row_in, the};

use crate::acquiring::acquire;
use crate::cells::load_to_scan;
use crate::loops::{await_flag, put_back, take};
use crate::scanning::{Queuing, scan_and_return};
use crate::watching::Watch;
use ns_env::limits::Cause;
use ns_gate::bound::Bound;
use ns_gate::queues::{Returning, Turned};
use ns_model::condition::Condition;
use ns_note::pause::Pause;
use ns_word::act::Change;
use ns_word::number::LockWord;
use ns_word::wait::{
    Aim, LeavePlace, Outcome, QueuePlace, Subject, Wait as Waiting, WaitPlace, arrival_of,
};
use ns_word::walk::Walk;
use ns_word::word::{Arrival, Word};
use std::sync::Wait;

/// Whether a wait for this has no row at hand and needs it, since some waiter has a condition: one for a
/// condition has loaded the row before.
fn lacks_row<C: Copy>(on: Subject<C>, word: Word) -> bool
    ensures { result ≡ lacks_row on word }
{
    match on {
        Subject::OnCondition(_) => false,
        Subject::OnVariables(_) => word.cond,
    }
}

/// Leaves the section in hand for a wait, and wakes those waiters who can go on. Where it is for a
/// condition, this is the section's row; else the row is loaded into it where a scan needs it.
pub(crate) fn queue_to_wait<R: Wait, C: Condition<N>, const N: usize>(
    rt: &R,
    seat: &mut Bound<'_, C, N>,
    queuing: Queuing<C>,
    row: &mut [u64; N],
)
    requires range { IsInRange queuing.wait.on }
    requires at { IsAtPlace C.means (InWait queuing.wait (InQueuing queuing.again Load)) seat.old.me }
    requires row { HasRow queuing.wait.on row.old (row_in (the seat.old.me.0).at.held) }
    ensures { HasMadeStepsTo None (HasLeftToWait C.means queuing.wait) seat.old seat.new }
{
    let Queuing { wait, again } = queuing;
    let place = Walk::InWait(wait, WaitPlace::InQueuing(again, QueuePlace::Load));
    let word = take(rt, seat, None, place);
    leave_section(rt, seat, queuing, word, row);
}

/// The same with the queues in hand, taken at this word.
pub(crate) fn leave_section<R: Wait, C: Condition<N>, const N: usize>(
    rt: &R,
    seat: &mut Bound<'_, C, N>,
    queuing: Queuing<C>,
    word: LockWord,
    row: &mut [u64; N],
)
    requires range { IsInRange queuing.wait.on }
    requires taken { HasTakenAt C.means (InWait queuing.wait (InQueuing queuing.again Load)) word seat.old.me seat.old.me }
    requires row { HasRow queuing.wait.on row.old (row_in (the seat.old.me.0).at.held) }
    ensures { HasMadeStepsTo None (HasLeftToWait C.means queuing.wait) seat.old seat.new }
{
    let Queuing { wait, again } = queuing;
    seat.arm_flag();
    let parts = word.parts();
    let loads = QueuePlace::LoadToScan(parts, 0);
    let place = Walk::InWait(wait, WaitPlace::InQueuing(again, loads));
    load_to_scan(seat, lacks_row(wait.on, parts), place, row);
    scan_and_return(rt, seat, queuing, word, row);
}

/// Takes a wait out of its list that is ended early. Where it was taken from there before, waits
/// until it is woken. Answers how it comes to acquire then, and what came of it.
fn leave<R: Wait, C: Condition<N>, const N: usize>(
    rt: &R,
    seat: &mut Bound<'_, C, N>,
    wait: Waiting<C>,
    cause: Cause,
) -> (Arrival, Outcome)
    requires range { IsInRange wait.on }
    requires at { IsAtPlace C.means (InWait wait (InLeaving cause LeaveLoad)) seat.old.me }
    ensures left { HasMadeStepsTo None (IsAtPlace C.means (InAcquire (ForWait wait result.1) (AcquireLoad result.0))) seat.old seat.new }
    ensures ended { IfEnded result.1 (λ other. other ≡ cause) }
{
    let place = Walk::InWait(wait, WaitPlace::InLeaving(cause, LeavePlace::LeaveLoad));
    let word = take(rt, seat, None, place);
    let home = wait.on.home();
    let (stood, bits) = seat.leave_in_hand(home);
    let returning = Returning::Changed(Change::LeaveSelf(home));
    let turned = Turned { some: false, bits };
    put_back(rt, seat, returning, word, turned);
    if stood {
        return (Arrival::AsFresh, Outcome::Ended(cause));
    }
    let flag = await_flag(rt, seat);
    (arrival_of(0, flag), wait.on.outcome_taken(cause, flag))
}

/// Waits until a wait is woken, or has left its list since something has ended it. Answers how it
/// comes to acquire then, and what came of it.
fn await_in<R: Wait, W: Watch, C: Condition<N>, const N: usize>(
    rt: &R,
    seat: &mut Bound<'_, C, N>,
    wait: Waiting<C>,
    watch: &mut W,
) -> (Arrival, Outcome)
    requires range { IsInRange wait.on }
    requires watches { W.watches watch.old wait.limits }
    requires at { IsAtPlace C.means (InWait wait AwaitWakeInWait) seat.old.me }
    ensures comes { HasMadeStepsTo None (IsAtPlace C.means (InAcquire (ForWait wait result.1) (AcquireLoad result.0))) seat.old seat.new }
    ensures looked { W.since watch.old watch.new }
    ensures ended { IfEnded result.1 (λ cause. (is_limited wait.limits ≡ true) × W.shows watch.old watch.new wait.limits (Some cause)) }
{
    if !wait.limits.is_some() {
        let flag = await_flag(rt, seat);
        return (arrival_of(0, flag), wait.on.woken_by(flag));
    }
    match await_or_end(rt, seat, wait, watch) {
        Ok(flag) => (arrival_of(0, flag), wait.on.woken_by(flag)),
        Err(cause) => leave(rt, seat, wait, cause),
    }
}

/// Waits until a wait is woken, or has left its list since something has ended it, and acquires the
/// lock again. Answers what came of it.
pub(crate) fn come_back<R: Wait, W: Watch, C: Condition<N>, const N: usize>(
    rt: &R,
    seat: &mut Bound<'_, C, N>,
    wait: Waiting<C>,
    watch: &mut W,
) -> Outcome
    requires range { IsInRange wait.on }
    requires watches { W.watches watch.old wait.limits }
    requires at { IsAtPlace C.means (InWait wait AwaitWakeInWait) seat.old.me }
    ensures acquired { HasMadeStepsTo None (HasAcquired C.means (ForWait wait result)) seat.old seat.new }
    ensures looked { W.since watch.old watch.new }
    ensures ended { IfEnded result (λ cause. (is_limited wait.limits ≡ true) × W.shows watch.old watch.new wait.limits (Some cause)) }
{
    let (arrival, outcome) = await_in(rt, seat, wait, watch);
    acquire(rt, seat, Aim::ForWait(wait, outcome), arrival);
    outcome
}

/// Passes a round that has shown nothing: turns for a while at first, and then sleeps at the seat's
/// flag for some milliseconds at most, since a note and the clock wake nobody there.
fn rest<R: Wait, C: Condition<N>, const N: usize>(
    rt: &R,
    seat: &Bound<'_, C, N>,
    pause: &mut Pause,
) {
    if let Some(longest) = pause.next() {
        seat.park_timeout(rt, longest);
    }
}

/// Goes round between the seat's flag and a look, until the flag is cleared, whose value it answers
/// then, or the look shows what ends the wait.
fn await_or_end<R: Wait, W: Watch, C: Condition<N>, const N: usize>(
    rt: &R,
    seat: &mut Bound<'_, C, N>,
    wait: Waiting<C>,
    watch: &mut W,
) -> Result<u8, Cause>
    requires limited { is_limited wait.limits ≡ true }
    requires watches { W.watches watch.old wait.limits }
    requires at { IsAtPlace C.means (InWait wait AwaitWakeInWait) seat.old.me }
    ensures came { HasMadeStepsTo None (WokenOrEnded C.means wait result) seat.old seat.new }
    ensures looked { W.since watch.old watch.new }
    ensures ended { IfErr result (λ cause. W.shows watch.old watch.new wait.limits (Some cause)) }
{
    let mut pause = Pause::new();
    for _ in rt.forever() {
        let flag = seat.load_flag();
        if flag != 1 {
            return Ok(flag);
        }
        let shown = watch.look(wait.limits);
        seat.look(wait.limits, false, shown);
        if let Some(cause) = shown {
            return Err(cause);
        }
        rest(rt, seat, &mut pause);
    }
    unreachable!()
}
