//! An acquire that may have to wait: in the lock list, for its flag.

ghost use Rattle.std.specs.Prelude.{◌≡◌, None};
ghost use Rattle.ns_monitor.specs.Prelude.{AcquireLoad, AcquiresBy, Arm, HasAcquired, HasMadeStepsTo, HasSince, HasUnchangedQueues, InAcquire, IsAtPlace, IsNumberOf, IsPackable, the};

use crate::going::Going;
use crate::loops::{await_flag, go_or_take, put_back};
use crate::monitor::Monitor;
use ns_gate::bound::Bound;
use ns_gate::gate::GateSeat;
use ns_gate::queues::{Returning, Turned};
use ns_model::condition::Condition;
use ns_model::event::Mode;
use ns_word::acquire_walk::AcquirePlace;
use ns_word::act::Change;
use ns_word::number::LockWord;
use ns_word::wait::{Aim, arrival_of};
use ns_word::walk::Walk;
use ns_word::word::Arrival;
use std::sync::Wait;

impl<C: Condition<N>, const N: usize> Monitor<C, N> {
    /// Goes on to acquire the lock in this mode by the word last seen, and waits in the lock list as often
    /// as it has to.
    ///
    /// It gives back the seat and no section: a section would come back in memory, and the public calls
    /// would keep it there where it was acquired at once, too.
    #[cold]
    pub(crate) fn lock_slow<R: Wait>(
        &self,
        rt: &R,
        seat: GateSeat<C, N>,
        number: u8,
        mode: Mode,
        last: LockWord,
    ) -> GateSeat<C, N>
        requires of { seat.table_id ≡ self.now }
        requires number { IsNumberOf number seat.me }
        requires at { AcquiresBy C.means (Aim.ForLock mode) Arrival.AsFresh last seat.me }
        ensures seat { result.table_id ≡ self.now }
        ensures since { HasSince None (the seat.me.0) (the result.me.0) }
        ensures acquired { HasAcquired C.means (Aim.ForLock mode) result.me }
    {
        let mut seat = seat;
        let mut bound = Bound::new(&self.gate, &mut seat, number);
        let aim = Aim::ForLock(mode);
        acquire_on(rt, &mut bound, aim, Arrival::AsFresh, last);
        bound.end();
        seat
    }
}

/// Acquires the lock for this, and waits in the lock list as often as it has to.
pub(crate) fn acquire<R: Wait, C: Condition<N>, const N: usize>(
    rt: &R,
    seat: &mut Bound<'_, C, N>,
    aim: Aim<C>,
    arrival: Arrival,
)
    requires at { IsAtPlace C.means (InAcquire aim (AcquireLoad arrival)) seat.old.me }
    ensures { HasMadeStepsTo None (HasAcquired C.means aim) seat.old seat.new }
{
    let word = seat.load(None);
    acquire_on(rt, seat, aim, arrival, word);
}

/// The same by the word last seen.
fn acquire_on<R: Wait, C: Condition<N>, const N: usize>(
    rt: &R,
    seat: &mut Bound<'_, C, N>,
    aim: Aim<C>,
    first: Arrival,
    last: LockWord,
)
    requires { AcquiresBy C.means aim first last seat.old.me }
    ensures { HasMadeStepsTo None (HasAcquired C.means aim) seat.old seat.new }
{
    let mut arrival = first;
    let mut word = last;
    for _ in rt.forever() {
        let going = Going::Acquiring(aim, arrival);
        let place = Walk::InAcquire(aim, AcquirePlace::AcquireLoad(arrival));
        let Some(taken) = go_or_take(rt, seat, going, place, word) else {
            return;
        };
        arrival = queue(rt, seat, aim, arrival, taken);
        word = seat.load(None);
    }
    unreachable!()
}

/// Puts the seat into the lock list, with the queues in hand, and waits until it is woken. Answers
/// how it comes to acquire then.
fn queue<R: Wait, C: Condition<N>, const N: usize>(
    rt: &R,
    seat: &mut Bound<'_, C, N>,
    aim: Aim<C>,
    arrival: Arrival,
    word: LockWord,
) -> Arrival
    requires word { IsPackable word }
    requires at { IsAtPlace C.means (InAcquire aim (Arm arrival word)) seat.old.me }
    requires taken { HasUnchangedQueues seat.old.me }
    ensures { HasMadeStepsTo None (IsAtPlace C.means (InAcquire aim (AcquireLoad result))) seat.old seat.new }
{
    let mode = aim.mode();
    seat.arm_flag();
    let bits = seat.queue_in_hand(mode, arrival);
    let returning = Returning::Changed(Change::QueueSelf(mode, arrival));
    let turned = Turned { some: false, bits };
    put_back(rt, seat, returning, word, turned);
    let tries = arrival.tries();
    let flag = await_flag(rt, seat);
    arrival_of(tries, flag)
}
