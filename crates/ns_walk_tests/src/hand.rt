//! What a test makes of the queues in a driven seat's hand, before an act that puts them back.

ghost use Rattle.std.specs.Prelude.{◌≡◌};
ghost use Rattle.ns_gate.specs.Prelude.{HasUnchangedQueues, HasWorked, the, times};
ghost use Rattle.ns_gate.specs.declared.queues.Returning.TheVariants.{Changed};
ghost use Rattle.ns_walk_tests.specs.Driving.{IsMade, at_most_one};

use crate::known::Hand;
use ns_gate::bound::Bound;
use ns_gate::queues::Turned;
use ns_model::condition::Condition;
use ns_model::event::Mode;
use ns_word::act::{Change, Found};
use ns_word::owed::Owed;
use ns_word::wait::Home;
use ns_word::word::{Arrival, Word};

/// Puts the seat into the lock list.
pub fn queue<C: Condition<1>>(
    seat: &mut Bound<'_, C, 1>,
    owed: Option<Owed>,
    mode: Mode,
    arrival: Arrival,
    _last: Word,
) -> Hand
    requires has { HasUnchangedQueues seat.old.me }
    requires free { times (the seat.old.me.0).at.seat (the seat.old.me.0).stood ≡ 0 }
    requires owes { (the seat.old.me.0).at.owed ≡ at_most_one owed }
    ensures worked { HasWorked seat.old seat.new }
    ensures made { IsMade C.means (Changed (Change.QueueSelf mode arrival)) _last result seat.new.me }
{
    let bits = seat.queue_in_hand(mode, arrival);
    Hand {
        turned: Turned { some: false, bits },
        finds: Found::Made,
        owed,
    }
}

/// Leaves the queues as they stood, once they were shown.
pub fn show<C: Condition<1>>(seat: &mut Bound<'_, C, 1>, owed: Option<Owed>, _last: Word) -> Hand
    requires has { HasUnchangedQueues seat.old.me }
    requires owes { (the seat.old.me.0).at.owed ≡ at_most_one owed }
    ensures worked { HasWorked seat.old seat.new }
    ensures made { IsMade C.means (Changed Change.Nothing) _last result seat.new.me }
{
    let (_, bits) = seat.show_in_hand();
    Hand {
        turned: Turned { some: false, bits },
        finds: Found::Made,
        owed,
    }
}

/// Takes the seat out of the lists, if it stands where a wait of this home does.
pub fn leave<C: Condition<1>>(
    seat: &mut Bound<'_, C, 1>,
    owed: Option<Owed>,
    home: Home,
    _last: Word,
) -> Hand
    requires has { HasUnchangedQueues seat.old.me }
    requires owes { (the seat.old.me.0).at.owed ≡ at_most_one owed }
    ensures worked { HasWorked seat.old seat.new }
    ensures made { IsMade C.means (Changed (Change.LeaveSelf home)) _last result seat.new.me }
{
    let (stood, bits) = seat.leave_in_hand(home);
    Hand {
        turned: Turned { some: false, bits },
        finds: Found::Left(stood),
        owed,
    }
}
