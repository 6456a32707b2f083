//! How a monitor stands, for whoever looks for a fault: its lock word and its waiters.

ghost use Rattle.std.specs.Prelude.{◌≡◌, None, Some};
ghost use Rattle.ns_monitor.specs.Prelude.{HasSeenMore, HasStood, HasTakenToShow, IsAtRest, ShowsState, ToChange, showing, the};

use crate::caller::{Caller, Hand};
use crate::loops::put_back;
use crate::monitor::Monitor;
use arrayvec::ArrayVec;
use crossbeam_utils::Backoff;
use ns_gate::bound::Bound;
use ns_gate::queues::{Returning, Turned};
use ns_gate::showing::ShownLists;
use ns_model::condition::Condition;
use ns_queue::waiter::Shown;
use ns_word::act::Change;
use ns_word::number::LockWord;
use ns_word::walk::Walk;
use ns_word::word::{Taking, Word};
use std::sync::Wait;

/// How a monitor stood at one moment.
#[derive(Drop)]
pub struct DebugState {
    /// The lock word.
    pub word: Word,
    /// Who stands in the lock list, front first.
    pub lock: ArrayVec<Shown, 64>,
    /// Who waits for each condition variable, front first.
    pub cvs: [ArrayVec<Shown, 64>; 4],
}

/// Begins to show, and takes the queues. Answers the word that the exchange compared. This is a loop of its
/// own, since it tells of the state in which it took the queues (`HasStood`).
fn take_to_show<R: Wait, C: Condition<N>, const N: usize>(
    rt: &R,
    seat: &mut Bound<'_, C, N>,
) -> LockWord
    requires rest { IsAtRest C.means seat.old.me }
    ensures { HasTakenToShow C.means result seat.old seat.new }
{
    let backoff = Backoff::new();
    let mut word = seat.load(Some(Walk::show()));
    for _ in rt.forever() {
        if word.spin() {
            backoff.snooze();
            word = seat.load(None);
        } else {
            match seat.exchange_to_take(Taking::ToChange, word) {
                Ok(()) => return word,
                Err(other) => word = other,
            }
        }
    }
    unreachable!()
}

impl<C: Condition<N>, const N: usize> Monitor<C, N> {
    /// How the monitor stands at one moment of the call: its lock word, and who waits in the lock list
    /// and for each condition variable.
    ///
    /// The word and the lists are of one state, in which the caller has its section in hand, if it has
    /// one; the call commits nothing, and changes no list. Callable on a seat and on either section. It
    /// takes the waiter queues and puts them back, and goes round while another has them; so it is for
    /// debugging, as nsync's `nsync_mu_debug_state_and_waiters` and `nsync_cv_debug_state_and_waiters`
    /// are, of which it answers both at once.
    pub fn debug_state_and_waiters<H: Hand<C, N>, R: Wait>(
        &self,
        rt: &R,
        caller: &mut Caller<H, C, N>,
    ) -> DebugState
        requires { caller.old.monitor ≡ self.now }
        ensures saw { HasSeenMore C.means showing caller.old caller.new }
        ensures shows { ShowsState C.means result caller.old caller.new }
    {
        let number = caller.number;
        let mut seat = Bound::new(&self.gate, &mut caller.seat, number);
        let word = take_to_show(rt, &mut seat);
        let (lists, bits) = seat.show_in_hand();
        let taken = word.taken(Taking::ToChange);
        let returning = Returning::Changed(Change::Nothing);
        let turned = Turned { some: false, bits };
        put_back(rt, &mut seat, returning, taken, turned);
        seat.end();
        let ShownLists { lock, cvs } = lists;
        let word = word.parts();
        DebugState { word, lock, cvs }
    }
}
