//! The waiter queues on the heap.

ghost use Rattle.std.specs.Prelude.{◌≡◌, IfOk};
ghost use Rattle.std.specs.Borrow.{sem};
ghost use Rattle.ns_gate.specs.Prelude.{lends_lists, no_lists};

use ns_model::condition::Condition;
use ns_queue::queues::Queues;
use ns_queue::room::Queueable;
use std::alloc::{AllocError, Global};
use std::marker::Model;

/// The waiter queues on the heap. In contracts their value is the lists.
///
/// A seat of the table is over what its slot holds. So whoever passes a seat on, over any condition, has to show
/// that a slot fits in memory, and a pointer always does.
#[derive(Drop)]
pub struct BoxedQueues<C: Condition<N>, const N: usize> {
    queues: Box<Queues<C, N>>,
}

impl<C: Condition<N>, const N: usize> Model for BoxedQueues<C, N> {
    ghost use Rattle.ns_queue.specs.Queues.{Lists};

    ghost Value = { Lists C };

    ghost view = { λ b. b.queues.value };
}

impl<C: Queueable<N>, const N: usize> BoxedQueues<C, N> {
    /// Queues in which nobody stands.
    pub(crate) fn new(alloc: Global) -> Result<Self, AllocError>
        ensures { IfOk result (λ b. b ≡ no_lists) }
    {
        let queues = Box::new(alloc, Queues::new())?;
        Ok(BoxedQueues { queues })
    }

    /// The queues, to be changed in place.
    #[inline(always)]
    pub(crate) fn lists(&mut self) -> &mut Queues<C, N>
        ensures* writes_back { sem 𝓛 (lends_lists C.row N.row C.Condition self.entry result) }
        ensures value { result.now ≡ self.old }
    {
        self.queues.as_mut()
    }
}
