//! The waiter lists as a seat shows them that has the queues in hand.

ghost use Rattle.std.specs.Prelude.{◌≡◌};
ghost use Rattle.ns_gate.specs.Prelude.{HasUnchangedQueues, HasWorked, ShowsLists, bits_of, the};

use crate::bound::Bound;
use arrayvec::ArrayVec;
use ns_model::condition::Condition;
use ns_queue::queues::Queues;
use ns_queue::waiter::{Shown, Which};
use ns_word::hand::bits;
use ns_word::word::Bits;

/// The waiters of all lists, front first, in the form in which they are shown.
#[derive(Clone, Drop)]
pub struct ShownLists {
    /// The lock list.
    pub lock: ArrayVec<Shown, 64>,
    /// The lists of the condition variables.
    pub cvs: [ArrayVec<Shown, 64>; 4],
}

/// All lists, as they are shown.
fn shown_lists<C: Condition<N>, const N: usize>(queues: &Queues<C, N>) -> ShownLists
    ensures { ShowsLists queues.now result }
{
    ShownLists {
        lock: queues.shown(Which::Lock),
        cvs: [
            queues.shown(Which::Cv(0)),
            queues.shown(Which::Cv(1)),
            queues.shown(Which::Cv(2)),
            queues.shown(Which::Cv(3)),
        ],
    }
}

impl<C: Condition<N>, const N: usize> Bound<'_, C, N> {
    /// Shows the queues in hand, and leaves them as they are. Tells what the lock list holds too.
    ///
    /// Needs a seat that has the queues in hand as they stood.
    pub fn show_in_hand(&mut self) -> (ShownLists, Bits)
        requires has { HasUnchangedQueues self.old.me }
        ensures worked { HasWorked self.old self.new }
        ensures has { HasUnchangedQueues self.new.me }
        ensures shows { ShowsLists (the self.old.me.0).stood result.0 }
        ensures bits { result.1 ≡ bits_of (the self.old.me.0).stood.lock }
    {
        let gate = self.gate;
        let queues = self.seat.slot_mut(&gate.table.shared, 0).lists();
        (shown_lists(queues), bits(queues))
    }
}
