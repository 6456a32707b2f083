//! A signal or a broadcast on the queues in a driven seat's hand.

ghost use Rattle.std.specs.Prelude.{◌<◌, IfNone, IfSome};
ghost use Rattle.ns_gate.specs.Prelude.{HasUnchangedQueues, HasWorked};
ghost use Rattle.ns_gate.specs.declared.queues.Returning.TheVariants.{Changed};
ghost use Rattle.ns_walk_tests.specs.Driving.{IsMade};

use crate::known::Hand;
use ns_gate::bound::Bound;
use ns_model::condition::Condition;
use ns_word::act::{Change, Found, Waking};
use ns_word::owed::wake_by;
use ns_word::word::Word;
use std::process::Abort;

/// Takes the one who waits for the variable, if just one does.
fn wake_sole<C: Condition<1>>(
    seat: &mut Bound<'_, C, 1>,
    waking: Waking,
    k: u8,
    last: Word,
) -> Option<Hand>
    requires has { HasUnchangedQueues seat.old.me }
    requires variable { k < 4 }
    ensures worked { HasWorked seat.old seat.new }
    ensures made { IfSome result (λ made. IsMade C.means (Changed (Change.WakeWaiters waking k)) last made seat.new.me) }
    ensures same { IfNone result (HasUnchangedQueues seat.new.me) }
{
    let held = last.is_held();
    match seat.wake_sole_in_hand(waking, k, held) {
        Some((sole, turned)) => {
            let owed = if held {
                None
            } else {
                Some(wake_by(k, sole.seat))
            };
            let finds = Found::Woke { owes: !held };
            Some(Hand {
                turned,
                finds,
                owed,
            })
        }
        None => None,
    }
}

/// Takes those whom the call wakes of several who wait for the variable. With the lock free it is to be one of them.
fn wake_several<A: Abort, C: Condition<1>>(
    rt: &A,
    seat: &mut Bound<'_, C, 1>,
    waking: Waking,
    k: u8,
    last: Word,
) -> Hand
    requires has { HasUnchangedQueues seat.old.me }
    requires variable { k < 4 }
    ensures worked { HasWorked seat.old seat.new }
    ensures made { IsMade C.means (Changed (Change.WakeWaiters waking k)) last result seat.new.me }
{
    let held = last.is_held();
    let (taken, turned) = seat.wake_in_hand(waking, k, held);
    let owed = match (held, taken.as_slice()) {
        (true, _) => None,
        (false, [one]) => Some(wake_by(k, one.seat)),
        (false, _) => panic!(rt; "the seat would owe more than one wake, or none"),
    };
    Hand {
        turned,
        finds: Found::Woke { owes: !held },
        owed,
    }
}

/// Takes those whom the call wakes out of the list of the variable.
pub fn wake<A: Abort, C: Condition<1>>(
    rt: &A,
    seat: &mut Bound<'_, C, 1>,
    waking: Waking,
    k: u8,
    last: Word,
) -> Hand
    requires has { HasUnchangedQueues seat.old.me }
    requires variable { k < 4 }
    ensures worked { HasWorked seat.old seat.new }
    ensures made { IsMade C.means (Changed (Change.WakeWaiters waking k)) last result seat.new.me }
{
    if let Some(turned) = seat.wake_nobody_in_hand(k) {
        return Hand {
            turned,
            finds: Found::Woke { owes: false },
            owed: None,
        };
    }
    if let Some(made) = wake_sole(seat, waking, k, last) {
        return made;
    }
    wake_several(rt, seat, waking, k, last)
}
