//! Condition variables: signals and broadcasts.

ghost use Rattle.std.specs.Prelude.{◌≡◌, ◌<◌, [], ◌∷◌, None, Some};
ghost use Rattle.ns_monitor.specs.Prelude.{Broadcasting, Grows, HasAnswered, HasMadeStepsTo, HasReturnedWoken, HasTakenAt, HasTakenToWake, HasWoken, InSignal, IsAtRest, SignalLoad, Signaling, Succeeded, the, waking_by};
ghost use Rattle.ns_word.specs.declared.request.Request.TheVariants as TheRequest;

use crate::caller::{Caller, Hand};
use crate::loops::{pay, pay_one, take};
use crate::monitor::Monitor;
use arrayvec::ArrayVec;
use ns_gate::bound::Bound;
use ns_gate::queues::{Returning, Turned};
use ns_model::condition::Condition;
use ns_queue::waiter::Waiter;
use ns_word::act::{Change, Waking};
use ns_word::number::LockWord;
use ns_word::owed::{wake_by, wakes};
use ns_word::signal_walk::SignalPlace;
use ns_word::walk::Walk;
use std::sync::Wait;

/// A call that wakes: a signal or a broadcast, of this variable.
#[derive(Clone, Copy)]
struct WakeCall {
    /// Which of both it is.
    waking: Waking,
    /// The variable.
    k: u8,
}

/// Puts the queues back without those whom the call has taken, who are at the back of the lock list
/// where the word that the exchange compares is held: what is in hand is turned each time the word
/// found differs in that. Answers whether the lock was held; else they are owed their wakes.
///
/// The taken are kept apart until the queues are back. To turn what is in hand is to put them at the back
/// of the lock list there, or to take them out of it again. That needs the lists to have stood orderly,
/// which `wake_in_hand` tells. So what is in hand depends on the word, and this is a loop of its own.
fn return_woken<R: Wait, C: Condition<N>, const N: usize>(
    rt: &R,
    seat: &mut Bound<'_, C, N>,
    call: WakeCall,
    first: LockWord,
    taken: &[Waiter<C>],
    made: Turned,
) -> bool
    requires { HasTakenToWake C.means call.waking call.k first taken.now made seat.old.me }
    ensures { HasMadeStepsTo None (HasReturnedWoken C.means call.waking call.k result (the seat.old.me.0).stood) seat.old seat.new }
{
    let returning = Returning::Changed(Change::WakeWaiters(call.waking, call.k));
    let mut word = first;
    let mut turned = made;
    for _ in rt.forever() {
        match seat.exchange_to_return(returning, word, turned) {
            Ok(()) => return word.is_held(),
            Err(other) => {
                let held = other.is_held();
                if word.is_held() != held {
                    turned = seat.turn_in_hand(taken, call.waking, call.k, held);
                }
                word = other;
            }
        }
    }
    unreachable!()
}

/// Puts the queues back without this one waiter, which the call has taken alone, and pays it its wake
/// where the lock was free. It makes no list of those taken, nor of the wakes that are owed.
fn wake_sole<R: Wait, C: Condition<N>, const N: usize>(
    rt: &R,
    seat: &mut Bound<'_, C, N>,
    call: WakeCall,
    word: LockWord,
    sole: Waiter<C>,
    made: Turned,
)
    requires { HasTakenToWake C.means call.waking call.k word (sole ∷ []) made seat.old.me }
    ensures { HasMadeStepsTo None (HasAnswered C.means (TheRequest.Wake call.waking call.k) Succeeded) seat.old seat.new }
{
    let taken = [sole];
    let moved = return_woken(rt, seat, call, word, &taken, made);
    if !moved {
        pay_one(seat, wake_by(call.k, sole.seat));
    }
}

/// With the queues in hand, taken at this word: takes those of the list of the variable whom the
/// call wakes out of all variables' lists, and moves them to the lock list where the lock is held,
/// else pays them their wakes. Its lists have room for 64 waiters, so it is kept apart from the
/// calls that wake just one.
#[cold]
fn wake_waiters<R: Wait, C: Condition<N>, const N: usize>(
    rt: &R,
    seat: &mut Bound<'_, C, N>,
    call: WakeCall,
    word: LockWord,
)
    requires variable { call.k < 4 }
    requires taken { HasTakenAt C.means (InSignal call.waking call.k SignalLoad) word seat.old.me seat.old.me }
    ensures { HasMadeStepsTo None (HasAnswered C.means (TheRequest.Wake call.waking call.k) Succeeded) seat.old seat.new }
{
    let held = word.is_held();
    let (taken, made) = seat.wake_in_hand(call.waking, call.k, held);
    let moved = return_woken(rt, seat, call, word, taken.as_slice(), made);
    let owed = if moved {
        ArrayVec::new()
    } else {
        wakes(call.k, taken.as_slice())
    };
    pay(seat, &owed);
}

/// With the queues in hand, taken at this word: wakes those of the list of the variable whom the
/// call wakes, with no list made where just one waits.
fn wake_some<R: Wait, C: Condition<N>, const N: usize>(
    rt: &R,
    seat: &mut Bound<'_, C, N>,
    call: WakeCall,
    word: LockWord,
)
    requires variable { call.k < 4 }
    requires taken { HasTakenAt C.means (InSignal call.waking call.k SignalLoad) word seat.old.me seat.old.me }
    ensures { HasMadeStepsTo None (HasAnswered C.means (TheRequest.Wake call.waking call.k) Succeeded) seat.old seat.new }
{
    let held = word.is_held();
    match seat.wake_sole_in_hand(call.waking, call.k, held) {
        Some((sole, made)) => wake_sole(rt, seat, call, word, sole, made),
        None => wake_waiters(rt, seat, call, word),
    }
}

/// Takes the queues, and wakes those whom the call wakes. Where nobody waits for the variable, it
/// only puts the queues back.
fn wake<R: Wait, C: Condition<N>, const N: usize>(
    rt: &R,
    seat: &mut Bound<'_, C, N>,
    call: WakeCall,
)
    requires variable { call.k < 4 }
    requires rest { IsAtRest C.means seat.old.me }
    ensures { HasMadeStepsTo (Some (waking_by call.waking call.k)) (HasAnswered C.means (TheRequest.Wake call.waking call.k) Succeeded) seat.old seat.new }
{
    let place = Walk::InSignal(call.waking, call.k, SignalPlace::SignalLoad);
    let word = take(rt, seat, Some(place), place);
    if let Some(made) = seat.wake_nobody_in_hand(call.k) {
        let taken: [Waiter<C>; 0] = [];
        return_woken(rt, seat, call, word, &taken, made);
        return;
    }
    wake_some(rt, seat, call, word);
}

impl<C: Condition<N>, const N: usize> Monitor<C, N> {
    /// Wakes at least one of those who wait for a condition variable, if any do: the first of them, and
    /// if that one reads, every other reader and the first writer.
    ///
    /// Where the lock is held at the step that puts the queues back, as it is while the caller has a
    /// section in hand, they aren't woken at once, but moved to the waiters for the lock. Callable on a
    /// seat and on either section. It acquires nothing, and goes round while another has the waiter queues.
    /// The behaviour is that of nsync's `nsync_cv_signal`.
    ///
    /// Needs a variable below 4.
    pub fn signal<H: Hand<C, N>, R: Wait>(&self, rt: &R, caller: &mut Caller<H, C, N>, k: u8)
        requires of { caller.old.monitor ≡ self.now }
        requires variable { k < 4 }
        ensures grows { Grows C.means (waking_by Signaling k) caller.old caller.new }
        ensures woke { HasWoken Signaling k caller.old caller.new }
    {
        let waking = Waking::Signaling;
        let number = caller.number;
        let mut seat = Bound::new(&self.gate, &mut caller.seat, number);
        wake(rt, &mut seat, WakeCall { waking, k });
        seat.end();
    }

    /// Wakes everybody who waits for a condition variable, as [`Monitor::signal`] wakes at least one.
    /// The behaviour is that of nsync's `nsync_cv_broadcast`.
    ///
    /// Needs a variable below 4.
    pub fn broadcast<H: Hand<C, N>, R: Wait>(&self, rt: &R, caller: &mut Caller<H, C, N>, k: u8)
        requires of { caller.old.monitor ≡ self.now }
        requires variable { k < 4 }
        ensures grows { Grows C.means (waking_by Broadcasting k) caller.old caller.new }
        ensures woke { HasWoken Broadcasting k caller.old caller.new }
    {
        let waking = Waking::Broadcasting;
        let number = caller.number;
        let mut seat = Bound::new(&self.gate, &mut caller.seat, number);
        wake(rt, &mut seat, WakeCall { waking, k });
        seat.end();
    }
}
