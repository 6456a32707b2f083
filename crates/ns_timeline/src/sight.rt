//! What can be seen of a world between two turns.

ghost use Rattle.std.specs.Prelude.{◌≡◌, ◌&&◌, nat_lt};
ghost use Rattle.ns_model.specs.Seats.{is_in};

use ns_model::seats::Seats;
use ns_queue::waiter::Shown;
use ns_world::state::State;

/// What can be seen of a world between two turns. The threads are its seats.
#[derive(Clone, Copy, PartialEq, Eq)]
pub struct Sight {
    /// Who has a write section in hand.
    pub writers: Seats,
    /// Who has a read section in hand.
    pub readers: Seats,
    /// Who has the waiter queues in hand.
    pub queues: Option<u8>,
    /// Who waits in the list of the lock.
    pub lock: Seats,
    /// Who waits for each condition variable.
    pub variables: [Seats; 4],
    /// Whom the one with the queues in hand has taken from its list, to be woken.
    pub taken: Seats,
    /// Who is owed a wake.
    pub owed: Seats,
    /// Who has a call in progress.
    pub busy: Seats,
}

/// The set of this thread alone.
pub fn only(thread: u8) -> Seats {
    Seats(1u64.wrapping_shl(u32::from(thread)))
}

/// Whether the thread is in the set, as one below 64 may be.
pub fn has(some: Seats, thread: u8) -> bool
    ensures { result ≡ (nat_lt thread 64 && is_in some thread) }
{
    thread < 64 && some.contains(thread)
}

/// Those of the first set who aren't in the second.
pub fn without(some: Seats, others: Seats) -> Seats {
    Seats(some.0 & !others.0)
}

/// Those who are in both sets.
pub fn both(some: Seats, others: Seats) -> Seats {
    Seats(some.0 & others.0)
}

/// Those who are in at least one of the sets.
pub fn either(some: Seats, others: Seats) -> Seats {
    Seats(some.0 | others.0)
}

/// Who stands in a list.
fn standing(list: &[Shown]) -> Seats {
    let mut seats = Seats::none();
    for waiter in list {
        seats = either(seats, only(waiter.seat));
    }
    seats
}

/// Who is owed one of these wakes.
fn owed(wakes: &[(u8, u8)]) -> Seats {
    let mut seats = Seats::none();
    for (_, to) in wakes {
        seats = either(seats, only(*to));
    }
    seats
}

/// Who has the waiter queues in hand, after a turn of the thread: who has had them before, else who has made the
/// turn. A world shows only that somebody has them, by the lock word.
fn queues(before: Option<u8>, spin: bool, thread: u8) -> Option<u8> {
    if spin { before.or(Some(thread)) } else { None }
}

impl Sight {
    /// What is seen before the first turn.
    pub fn new() -> Sight {
        Sight {
            writers: Seats::none(),
            readers: Seats::none(),
            queues: None,
            lock: Seats::none(),
            variables: [Seats::none(); 4],
            taken: Seats::none(),
            owed: Seats::none(),
            busy: Seats::none(),
        }
    }

    /// What is seen of the world's state after a turn of the thread, where this was seen before it.
    pub fn after(&self, state: &State<8>, thread: u8) -> Sight
        ensures writers { result.writers ≡ state.now.writers }
        ensures readers { result.readers ≡ state.now.readers }
        ensures busy { result.busy ≡ state.now.busy }
    {
        let [first, second, third, fourth] = &state.cvs;
        Sight {
            writers: state.writers,
            readers: state.readers,
            queues: queues(self.queues, state.word.spin, thread),
            lock: standing(state.lock.as_slice()),
            variables: [
                standing(first.as_slice()),
                standing(second.as_slice()),
                standing(third.as_slice()),
                standing(fourth.as_slice()),
            ],
            taken: Seats::none(),
            owed: owed(state.owed.as_slice()),
            busy: state.busy,
        }
        .with_taken(self)
    }

    /// The same, with those whom the one with the queues in hand has taken, by this turn or before it: who
    /// has stood in a list before, and stands in none now.
    fn with_taken(self, before: &Sight) -> Sight
        ensures writers { result.writers ≡ self.writers }
        ensures readers { result.readers ≡ self.readers }
        ensures busy { result.busy ≡ self.busy }
    {
        if self.queues.is_none() {
            return self;
        }
        let listed = either(before.queued(), before.taken);
        Sight {
            taken: without(listed, self.queued()),
            ..self
        }
    }

    /// Who waits for a condition variable.
    pub fn waiting(&self) -> Seats {
        let [first, second, third, fourth] = self.variables;
        either(either(first, second), either(third, fourth))
    }

    /// Who waits in some list.
    pub fn queued(&self) -> Seats {
        either(self.lock, self.waiting())
    }

    /// Who is to be woken.
    pub fn called(&self) -> Seats {
        either(self.taken, self.owed)
    }

    /// Who has a section in hand.
    pub fn holding(&self) -> Seats {
        either(self.readers, self.writers)
    }
}
