//! What a world shows of its queues and its owed wakes.

ghost use Rattle.std.specs.Prelude.{◌≡◌, ◌≤◌, ◌<◌, ◌++◌, ◌+◌, ℕ, Some, IfSome, true, length, map, slice_get};
ghost use Rattle.ns_world.specs.Prelude.{HasList, hand_of, has_armed, has_queues, in_hand, lists_by, times, wakes_owed, walk_of};

use crate::room::Seated;
use crate::seat::{Seat, walk_of};
use arrayvec::ArrayVec;
use ns_queue::queues::Queues;
use ns_word::hand::{change_in_hand, has_queues};
use ns_word::owed::Owed;
use ns_word::walk::Walk;

/// The queues as a seat at this place has them in hand.
fn in_hand<C: Seated<N>, const N: usize>(
    queues: &Queues<C, N>,
    seat: u8,
    walk: Option<Walk<C>>,
    row: &[u64; N],
) -> Queues<C, N>
    requires lists { IfSome walk HasList }
    requires below { seat < 64 }
    requires free { has_armed walk ≡ true → times seat queues.now ≡ 0 }
    ensures { result ≡ hand_of C.means seat walk row.now queues.now }
{
    let mut hand = queues.copied();
    if let Some(place) = walk {
        change_in_hand(&mut hand, seat, place, row);
    }
    hand
}

/// The queues as the seat that has them has them in hand, else as they stand at home.
pub(crate) fn shown_queues<C: Seated<N>, const N: usize>(
    queues: &Queues<C, N>,
    seats: &[Seat<C, N>],
    row: &[u64; N],
) -> Queues<C, N>
    requires lists { (i : ℕ) (seat : _) → slice_get seats.now i ≡ Some seat → IfSome (walk_of seat.doing) HasList }
    requires below { (i : ℕ) (seat : _) → slice_get seats.now i ≡ Some seat → seat.number < 64 }
    requires free { (i : ℕ) (seat : _) → slice_get seats.now i ≡ Some seat → has_armed (walk_of seat.doing) ≡ true → times seat.number queues.now ≡ 0 }
    ensures { result ≡ lists_by C.means row.now queues.now seats.now }
{
    for seat in seats {
        let walk = walk_of(&seat.doing);
        if has_queues::<C, N>(walk) {
            return in_hand(queues, seat.number, walk, row);
        }
    }
    queues.copied()
}

/// Adds the wakes that a seat owes.
fn push_wakes(all: &mut ArrayVec<(u8, u8), 64>, seat: u8, owed: &[Owed])
    requires { length all.old.items + length owed.now ≤ 64 }
    ensures { all.new.items ≡ all.old.items ++ map (λ wake. (seat, wake.seat)) owed.now }
{
    for wake in owed {
        all.push((seat, wake.seat));
    }
}

/// The wakes that the seats owe, by the seats that owe them.
pub(crate) fn owed_wakes<C: Seated<N>, const N: usize>(
    seats: &[Seat<C, N>],
) -> ArrayVec<(u8, u8), 64>
    requires { length (wakes_owed seats.now) ≤ 64 }
    ensures { result.items ≡ wakes_owed seats.now }
{
    let mut all = ArrayVec::new();
    for seat in seats {
        push_wakes(&mut all, seat.number, seat.owed.as_slice());
    }
    all
}
