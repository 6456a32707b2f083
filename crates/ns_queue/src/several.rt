//! A waiter put into the lists of several condition variables.

ghost use Rattle.std.specs.Prelude.{◌≡◌, ◌<◌};
ghost use Rattle.ns_queue.specs.Queues.{times, with_each};

use crate::queues::Queues;
use crate::room::Queueable;
use crate::waiter::Waiter;
use ns_model::cvs::Cvs;

impl<C: Queueable<N>, const N: usize> Queues<C, N> {
    /// Puts a waiter at the back of the list of each variable of the set, with that variable named; the
    /// others stay as they are.
    ///
    /// Needs a set that has only numbers below 4, and a seat below 64 that stands in no list, which
    /// [`Queues::holds`] tells.
    pub fn push_any(&mut self, cvs: Cvs, waiter: Waiter<C>)
        requires variables { cvs.0 < 16 }
        requires below { waiter.seat < 64 }
        requires free { times waiter.seat self.old ≡ 0 }
        ensures { self.new ≡ with_each 4 cvs waiter self.old }
    {
        for k in 0..4 {
            if cvs.contains(k) {
                self.push_to(k, waiter.named(k));
            }
        }
    }
}
