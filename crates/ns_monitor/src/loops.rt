//! The loops that a call may go round in, each once. `go_or_take` and `take` are told the place at which their call
//! stands, for the proof alone. The clauses of the others speak of each place that fits.

ghost use Rattle.std.specs.Prelude.{◌≡◌, ◌≢◌, ◌∷◌, None, Some, []};
ghost use Rattle.ns_monitor.specs.Prelude.{Changing, Decides, GoesBy, HasInHand, HasMadeStepsTo, HasPaid, HasPutBack, HasSeenCleared, HasTakenAt, IsPackable, Pays, PaysAt, PutsBackAt, SleepsAt, StandsAt, WentOrTook, going_of};
ghost use Rattle.ns_monitor.specs.Prelude.{the};

use crate::going::{Going, exchange_to_go};
use arrayvec::ArrayVec;
use crossbeam_utils::Backoff;
use ns_gate::bound::Bound;
use ns_gate::queues::{Returning, Turned};
use ns_model::condition::Condition;
use ns_word::act::Found;
use ns_word::number::LockWord;
use ns_word::owed::Owed;
use ns_word::walk::Walk;
use std::sync::Wait;

/// Goes on by the word last seen, as the call does that loads the word at this place: acquires or
/// releases, where the word lets it, or takes the queues; then this is the word. Goes round while
/// another has the queues.
#[inline(always)]
pub(crate) fn go_or_take<R: Wait, C: Condition<N>, const N: usize>(
    rt: &R,
    seat: &mut Bound<'_, C, N>,
    going: Going<C>,
    _walk: Walk<C>,
    first: LockWord,
) -> Option<LockWord>
    requires { GoesBy C.means _walk going first seat.old.me }
    ensures { HasMadeStepsTo None (WentOrTook C.means _walk result seat.old.me) seat.old seat.new }
{
    let taking = going.taking();
    let backoff = Backoff::new();
    let mut word = first;
    for _ in rt.forever() {
        if going.may_go(word) {
            match exchange_to_go(seat, going, word) {
                Ok(()) => return None,
                Err(other) => word = other,
            }
        } else if word.spin() {
            backoff.snooze();
            word = seat.load(None);
        } else {
            match seat.exchange_to_take(taking, word) {
                Ok(()) => return Some(word.taken(taking)),
                Err(other) => word = other,
            }
        }
    }
    unreachable!()
}

/// Takes the queues, for a call that has to change the lists and stands at this place, or begins there. Answers
/// the word then.
#[inline(always)]
pub(crate) fn take<R: Wait, C: Condition<N>, const N: usize>(
    rt: &R,
    seat: &mut Bound<'_, C, N>,
    begins: Option<Walk<C>>,
    _walk: Walk<C>,
) -> LockWord
    requires decides { Decides _walk }
    requires going { going_of _walk ≡ Changing }
    requires stands { StandsAt C.means begins _walk seat.old.me }
    ensures { HasMadeStepsTo begins (HasTakenAt C.means _walk result seat.old.me) seat.old seat.new }
{
    let first = seat.load(begins);
    match go_or_take(rt, seat, Going::Changing, _walk, first) {
        Some(word) => word,
        None => unreachable!(),
    }
}

/// Puts the queues back as they are in hand, for this; tries again with the word found where another
/// has changed it meanwhile.
#[inline(always)]
pub(crate) fn put_back<R: Wait, C: Condition<N>, const N: usize>(
    rt: &R,
    seat: &mut Bound<'_, C, N>,
    returning: Returning<C>,
    first: LockWord,
    turned: Turned,
)
    requires word { IsPackable first }
    requires at { PutsBackAt C.means returning first seat.old.me }
    requires hand { HasInHand C.means returning turned seat.old.me }
    ensures { HasMadeStepsTo None (HasPutBack C.means returning first seat.old.me) seat.old seat.new }
{
    let mut word = first;
    for _ in rt.forever() {
        match seat.exchange_to_return(returning, word, turned) {
            Ok(()) => return,
            Err(other) => word = other,
        }
    }
    unreachable!()
}

/// Waits until the seat's flag is cleared, and sleeps meanwhile. Answers its value then.
pub(crate) fn await_flag<R: Wait, C: Condition<N>, const N: usize>(
    rt: &R,
    seat: &mut Bound<'_, C, N>,
) -> u8
    requires { SleepsAt C.means seat.old.me }
    ensures { HasMadeStepsTo None (HasSeenCleared C.means result seat.old.me) seat.old seat.new }
{
    for _ in rt.forever() {
        let flag = seat.load_flag();
        if flag != 1 {
            return flag;
        }
        seat.park(rt);
    }
    unreachable!()
}

/// Pays the wakes that the seat owes, in order.
pub(crate) fn pay<C: Condition<N>, const N: usize>(
    seat: &mut Bound<'_, C, N>,
    owed: &ArrayVec<Owed, 64>,
)
    requires at { PaysAt C.means seat.old.me }
    requires owed { (the seat.old.me.0).at.owed ≡ owed.now.items }
    ensures { HasMadeStepsTo None (HasPaid C.means seat.old.me) seat.old seat.new }
{
    for &wake in owed.as_slice() {
        seat.pay_wake(wake);
    }
}

/// Pays the one wake that the seat owes.
pub(crate) fn pay_one<C: Condition<N>, const N: usize>(seat: &mut Bound<'_, C, N>, wake: Owed)
    requires at { PaysAt C.means seat.old.me }
    requires owed { (the seat.old.me.0).at.owed ≡ wake ∷ [] }
    ensures { HasMadeStepsTo None (HasPaid C.means seat.old.me) seat.old seat.new }
{
    seat.pay_wake(wake);
}
