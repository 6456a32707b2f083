//! Code over any condition owes that the values that it passes on fit in memory.

ghost use Rattle.std.specs.Mem.{FitsInMemory};
ghost use Rattle.ns_model.proofs.Sizes.{events_fit};
ghost use Rattle.ns_model.specs.contracts.event.Event.{the_row as event_row};
ghost use Rattle.ns_word.specs.contracts.view.Held.{the_row as held_row};
ghost use Rattle.ns_world.specs.Room.{held_fits, lock_fits, seat_fits};
ghost use Rattle.ns_world.specs.contracts.lock.Lock.{the_row as lock_row};
ghost use Rattle.ns_world.specs.contracts.seat.Seat.{the_row as seat_row};

use ns_model::condition::Condition;
use ns_queue::room::Queueable;

/// What code over any condition knows of the room that events, sections in hand, a world's lock and its seats take, beside
/// what the lists need. Every condition has it, so a caller never writes it.
pub trait Seated<const N: usize>: Queueable<N> {
    ghost event_fits: { FitsInMemory (event_row Self.row N.row) };

    ghost held_fits: { FitsInMemory (held_row Self.row N.row) };

    ghost seat_fits: { FitsInMemory (seat_row Self.row N.row) };

    ghost lock_fits: { FitsInMemory (lock_row Self.row N.row Self.Condition) };
}

impl<C: Condition<N>, const N: usize> Seated<N> for C {
    ghost event_fits = { events_fit Self.row N.row C.has_room };

    ghost held_fits = { held_fits Self.row N.row C.has_room };

    ghost seat_fits = { seat_fits Self.row N.row C.has_room };

    ghost lock_fits = { lock_fits Self.row N.row C.has_room Self.Condition };
}
