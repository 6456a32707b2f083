//! What is found along the links, from the first waiter to the last.

ghost use Rattle.std.specs.Prelude.{◌≡◌, ◌≤◌, length, map};
ghost use Rattle.ns_queue.specs.Prelude.{seated, shown_of, via_in};

use crate::ring::Ring;
use crate::room::Queueable;
use crate::waiter::{Shown, Waiter};
use arrayvec::ArrayVec;

/// The waiters, front first.
pub(crate) fn gathered<C: Queueable<N>, const N: usize>(
    ring: &Ring<C, N>,
) -> ArrayVec<Waiter<C>, 64>
    ensures { result.items ≡ ring.now }
{
    let mut all = ArrayVec::new();
    let mut at = ring.front();
    while let Some(waiter) = ring.get(at) {
        all.push(*waiter);
        at = ring.next(at);
    }
    all
}

/// The waiters, front first, in the form in which they are shown.
pub(crate) fn shown_ring<C: Queueable<N>, const N: usize>(ring: &Ring<C, N>) -> ArrayVec<Shown, 64>
    ensures { result.items ≡ map shown_of ring.now }
{
    let mut all = ArrayVec::new();
    let mut at = ring.front();
    while let Some(waiter) = ring.get(at) {
        all.push(waiter.shown());
        at = ring.next(at);
    }
    all
}

/// The variable that the waiter of this seat names, if it stands here and names one.
fn via_at<C: Queueable<N>, const N: usize>(ring: &Ring<C, N>, seat: u8) -> Option<u8>
    ensures { result ≡ via_in (seated seat ring.now) }
{
    match ring.get(seat) {
        Some(waiter) => waiter.via,
        None => None,
    }
}

/// For each of these seats, in order, the variable that its waiter names.
pub(crate) fn vias_of<C: Queueable<N>, const N: usize>(
    ring: &Ring<C, N>,
    seats: &[u8],
) -> ArrayVec<Option<u8>, 64>
    requires { length seats.now ≤ 64 }
    ensures { result.items ≡ map (λ seat. via_in (seated seat ring.now)) seats.now }
{
    let mut vias = ArrayVec::new();
    for seat in seats {
        vias.push(via_at(ring, *seat));
    }
    vias
}
