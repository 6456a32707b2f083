//! What is taken out of a list, by a mark for each waiter.

ghost use Rattle.std.specs.Prelude.{◌≡◌, ◌≤◌, length};
ghost use Rattle.ns_queue.specs.Marks.{marked};

use crate::room::Queueable;
use crate::waiter::Waiter;
use arrayvec::ArrayVec;

/// Those with a mark, in order.
pub(crate) fn marked<C: Queueable<N>, const N: usize>(
    waiters: &[Waiter<C>],
    marks: &[bool],
) -> ArrayVec<Waiter<C>, 64>
    requires same { length marks.now ≡ length waiters.now }
    requires most { length waiters.now ≤ 64 }
    ensures { result.items ≡ marked marks.now waiters.now }
{
    let mut taken = ArrayVec::new();
    for i in 0..waiters.len() {
        if marks[i] {
            taken.push(waiters[i]);
        }
    }
    taken
}
