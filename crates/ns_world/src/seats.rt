//! The seats of a new world, and which of a world's seats have a call in progress, or a section in hand.

ghost use Rattle.std.specs.Prelude.{◌≡◌, ◌≤◌, ℕ, length, slice_get, false, IfOk};
ghost use Rattle.std.specs.Option.{option_map_or};
ghost use Rattle.ns_world.specs.Prelude.{fresh_seats, is_in, is_of};

use crate::room::Seated;
use crate::seat::{Doing, Seat, is_call};
use crate::step::mode_of;
use arrayvec::ArrayVec;
use ns_model::event::Mode;
use ns_model::seats::Seats;
use std::alloc::{AllocError, Global};

/// So many seats with no call in progress, no section and no wake to pay.
pub(crate) fn new_seats<C: Seated<N>, const N: usize>(
    alloc: Global,
    seats: u8,
) -> Result<Vec<Seat<C, N>>, AllocError>
    ensures { IfOk result (λ made. made.items ≡ fresh_seats 0 seats) }
{
    let mut made = Vec::new(alloc);
    for number in 0..seats {
        made.push(Seat {
            number,
            doing: Doing::AtRest,
            held: None,
            owed: ArrayVec::new(),
            tests: 0,
        })?;
    }
    Ok(made)
}

/// A sort of seats.
#[derive(Clone, Copy)]
pub(crate) enum Sort {
    /// A call is in progress.
    Busy,
    /// A read section is in hand.
    Reading,
    /// A write section is in hand.
    Writing,
}

/// Whether the seat is of this sort.
fn is_of<C: Seated<N>, const N: usize>(seat: &Seat<C, N>, sort: Sort) -> bool
    ensures { result ≡ is_of sort seat.now }
{
    match (sort, mode_of(&seat.held)) {
        (Sort::Busy, _) => is_call(&seat.doing),
        (Sort::Reading, Some(Mode::Read)) => true,
        (Sort::Writing, Some(Mode::Write)) => true,
        _ => false,
    }
}

/// The seats of this sort.
pub(crate) fn all_of<C: Seated<N>, const N: usize>(seats: &[Seat<C, N>], sort: Sort) -> Seats
    requires { length seats.now ≤ 64 }
    ensures { (seat : ℕ) → is_in result seat ≡ option_map_or (is_of sort) (slice_get seats.now seat) false }
{
    let mut all = Seats::none();
    for (at, seat) in seats.iter().enumerate() {
        if is_of(seat, sort) {
            all = all.with(at as u8);
        }
    }
    all
}
