//! The gate: a lock word, a row and flags, shared by threads.

ghost use Rattle.std.specs.Prelude.{◌≡◌, ◌<◌, ◌≤◌, [], ◌∷◌, replicate, IfOk, MatchResult};
ghost use Rattle.ns_gate.specs.Prelude.{EndsAs, HaveMet, IsAtRest, IsOne, RefusesGate, first_of, fresh, no_lists, rest_of, the};

use crate::boxed::BoxedQueues;
use crate::closed::{Closed, cells};
use crate::plays::{FirstOut, Law, Learn, Together};
use crate::view::View;
use atomic_table::{Refused, Table};
use ns_model::condition::Condition;
use ns_seats::fault::Fault;
use ns_word::codec::unpacked;
use std::alloc::{AllocError, Global};
use std::marker::Model;

/// A seat of a gate's table.
pub type GateSeat<C, const N: usize> = atomic_table::Seat<BoxedQueues<C, N>, View<C, N>>;

/// A lock word, a row of `N` cells and 64 flags, shared by the threads that have its seats.
#[derive(Drop)]
pub struct Gate<C: Condition<N>, const N: usize> {
    pub(crate) table: Table<BoxedQueues<C, N>, View<C, N>, u8, Law<C, N>, Global>,
}

impl<C: Condition<N>, const N: usize> Model for Gate<C, N> {
    ghost use Rattle.std.specs.Prelude.{◌≡◌, ◌+◌};
    ghost use Rattle.atomic_table.specs.Seated.{TableId};

    ghost Value = { TableId };

    ghost view = { λ g. g.table.shared.table_id };

    ghost invariant = { λ g. (g.table.shared.table_id.words ≡ N + 65) × (g.table.shared.table_id.slots ≡ 1) };
}

/// So many words, each 0.
fn zeros(alloc: Global, count: usize) -> Result<Vec<u64>, AllocError>
    ensures { IfOk result (λ words. words.items ≡ replicate count 0) }
{
    vec![in alloc; 0; count]
}

/// The one slot of the table: queues in which nobody stands.
fn no_waiters<C: Condition<N>, const N: usize>(
    alloc: Global,
) -> Result<Vec<BoxedQueues<C, N>>, AllocError>
    ensures { IfOk result (λ slots. slots.items ≡ no_lists ∷ []) }
{
    let mut slots = Vec::new(alloc);
    slots.push(BoxedQueues::new(alloc)?)?;
    Ok(slots)
}

impl<C: Condition<N>, const N: usize> Gate<C, N> {
    /// A gate with a free lock over a row of zeros, and one seat that stands for so many; `part` takes
    /// them out one by one.
    ///
    /// Needs at least one seat. Refuses more than 64 seats (`TooManySeats`) before it takes any memory,
    /// and refuses where memory is refused (`OutOfMemory`).
    pub fn new(alloc: Global, seats: usize) -> Result<(Self, GateSeat<C, N>), Fault>
        requires { 0 < seats }
        ensures { MatchResult result (λ r. (r.1.table_id ≡ r.0) × (r.1.me ≡ (fresh seats 0 seats, [])) × (seats ≤ 64)) (RefusesGate seats) }
    {
        if seats > 64 {
            return Err(Fault::TooManySeats);
        }
        let words = zeros(alloc, N + 65)?;
        let slots = no_waiters::<C, N>(alloc)?;
        match Table::new(alloc, words.as_slice(), slots, &(seats as u8)) {
            Ok((table, all)) => Ok((Gate { table }, all)),
            Err(Refused { slots: _ }) => Err(Fault::OutOfMemory),
        }
    }

    /// The first of the seats that this one stands for, which then stands for the others.
    ///
    /// Needs a seat of this gate. One that stands for nobody any more gives one that does neither.
    pub fn part(&self, all: &mut GateSeat<C, N>) -> GateSeat<C, N>
        requires { all.old.table_id ≡ self.now }
        ensures all { (all.new.table_id ≡ all.old.table_id) × (all.new.me.0 ≡ rest_of all.old.me.0) × (all.new.me.1 ≡ all.old.me.1) }
        ensures part { (result.table_id ≡ all.old.table_id) × (result.me ≡ (first_of all.old.me.0, [])) }
    {
        self.table.shared.split_seat::<FirstOut>(all)
    }

    /// Two seats compare what they have seen: of what one had seen and what the other had, one begins
    /// the other, and now both have seen one history that begins with it. They are two, and where both
    /// have a section in hand, both read.
    ///
    /// To join and to split seats tells them nothing, so one load between the two learns.
    ///
    /// Needs two seats of this gate, both between their calls.
    pub fn meet(
        &self,
        first: GateSeat<C, N>,
        second: GateSeat<C, N>,
    ) -> (GateSeat<C, N>, GateSeat<C, N>)
        requires first { (first.table_id ≡ self.now) × IsAtRest C.means first.me }
        requires second { (second.table_id ≡ self.now) × IsAtRest C.means second.me }
        ensures seats { (result.0.table_id ≡ self.now) × IsAtRest C.means result.0.me × (result.1.table_id ≡ self.now) × IsAtRest C.means result.1.me }
        ensures met { HaveMet C.means (the first.me.0) (the second.me.0) (the result.0.me.0) (the result.1.me.0) }
    {
        let shared = &self.table.shared;
        let mut both = first;
        shared.join_seat::<Together>(&mut both, second);
        shared.load::<Learn<C, N>>(&mut both, 0);
        let first = shared.split_seat::<FirstOut>(&mut both);
        (first, both)
    }

    /// Ends the gate, and tells the cells as they stand, and whether the lock is free. Where it is, they
    /// are the row after all that was committed.
    ///
    /// Needs a seat of this gate. The others may be in their calls, or have a section in hand; the cells
    /// then show also what a writer has not committed.
    ///
    /// It takes a seat, since what is told of the end is that the history begins with what somebody has seen.
    /// The others may be dropped, in a call or with a section: the rule holds of those, too, and `free` says
    /// whether the lock is held.
    pub fn close(self, seat: GateSeat<C, N>) -> Closed<N>
        requires { (seat.table_id ≡ self) × IsOne seat.me.0 }
        ensures { EndsAs C.means (the seat.me.0) result.row result.free }
    {
        let Gate { table } = self;
        let mut closed = table.close_with(seat);
        let word = unpacked(closed.word(0));
        let row = cells(&closed);
        drop(closed.take(0));
        closed.free();
        Closed {
            row,
            free: !word.is_held(),
        }
    }
}
