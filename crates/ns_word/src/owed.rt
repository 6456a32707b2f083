//! Wakes that are owed, and what a flag tells that a wake has set.

ghost use Rattle.std.specs.Prelude.{◌≡◌, ◌<◌, ◌≤◌, ◌∷◌, [], length};
ghost use Rattle.ns_word.specs.Owed.{called_by, is_from_lock, value_of, variable_told, wake_by, wakes_of};

use arrayvec::ArrayVec;
use ns_queue::waiter::Waiter;

/// A wake that is owed: to which seat, and what its flag is set to by it.
#[derive(Clone, Copy, Debug, Default, PartialEq, Eq)]
pub struct Owed {
    /// A number below 64.
    pub seat: u8,
    /// `2 + k` where the seat was taken from the list of the variable `k`; where it was taken from the
    /// lock list, `6 + k` if the wake of the variable `k` had moved it there, else 0.
    pub value: u8,
}

/// Whether a flag of this value tells that its seat was taken from the lock list.
pub fn is_from_lock(value: u8) -> bool
    ensures { result ≡ is_from_lock value }
{
    value == 0 || value > 5
}

/// The variable of which a flag of this value tells: that in whose list its seat was taken, or whose
/// wake had moved it to the lock list.
pub fn variable_told(value: u8) -> u8
    ensures { result ≡ variable_told value }
{
    if value > 5 {
        value - 6
    } else {
        value.saturating_sub(2)
    }
}

/// What the wake of one taken from the lock list sets its flag to, where the wake of this variable had
/// moved it there, or where none had. There are four variables, so no flag is above 9.
fn value_of(via: Option<u8>) -> u8
    ensures { result ≡ value_of via }
{
    match via {
        Some(k) if k < 4 => 6 + k,
        _ => 0,
    }
}

/// The wake of one seat, which a scan has taken from the lock list, where the wake of this variable had
/// moved it there, or where none had.
pub fn called_one(seat: u8, via: Option<u8>) -> Owed
    ensures { result ∷ [] ≡ called_by (seat ∷ []) (via ∷ []) }
{
    Owed {
        seat,
        value: value_of(via),
    }
}

/// The wakes of those seats, which a scan has taken from the lock list, in that order, where the wakes of
/// these variables had moved them there.
pub fn called(seats: &[u8], vias: &[Option<u8>]) -> ArrayVec<Owed, 64>
    requires few { length seats.now ≤ 64 }
    requires same { length vias.now ≡ length seats.now }
    ensures { result.items ≡ called_by seats.now vias.now }
{
    let mut owed = ArrayVec::new();
    for i in 0..seats.len() {
        let value = value_of(vias[i]);
        owed.push(Owed {
            seat: seats[i],
            value,
        });
    }
    owed
}

/// The wake of one, of this seat, whom a call has taken from the list of the variable `k`.
pub fn wake_by(k: u8, seat: u8) -> Owed
    requires { k < 4 }
    ensures { result ≡ wake_by k seat }
{
    Owed { seat, value: 2 + k }
}

/// The wakes of those whom a call has taken from the list of the variable `k`, in that order.
pub fn wakes<C: Copy>(k: u8, taken: &[Waiter<C>]) -> ArrayVec<Owed, 64>
    requires low { k < 4 }
    requires few { length taken.now ≤ 64 }
    ensures { result.items ≡ wakes_of k taken.now }
{
    let mut owed = ArrayVec::new();
    for waiter in taken {
        owed.push(wake_by(k, waiter.seat));
    }
    owed
}
