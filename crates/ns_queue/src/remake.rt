//! The links of the runs, made anew.

ghost use Rattle.ns_queue.specs.Runs.{IsRuns, MadeUpTo, WereTaken};

use crate::alike::joins;
use crate::ring::Ring;
use crate::room::Queueable;

/// Makes the links of the runs anew from the place `at` on. In front of it stands a run whose first
/// has the seat `head` and whose last so far has the seat `before`, both [`crate::ring::END`] where
/// there is nobody.
///
/// It stops where a run begins at a waiter that was the first of one before: whoever stands behind
/// has the same first as before, so the links stay right.
pub(crate) fn remake<C: Queueable<N>, const N: usize>(
    ring: &Ring<C, N>,
    heads: &mut [u8; 65],
    lasts: &mut [u8; 65],
    mut head: u8,
    mut before: u8,
    mut at: u8,
)
    requires { MadeUpTo C.means.same heads.old lasts.old head before at ring.now }
    ensures { IsRuns C.means.same heads.new lasts.new ring.now }
{
    while let Some(waiter) = ring.get(at) {
        if !joins(waiter, ring.get(head)) {
            lasts[head as usize] = before;
            if heads[at as usize] == at {
                return;
            }
            head = at;
        }
        heads[at as usize] = head;
        before = at;
        at = ring.next(at);
    }
    lasts[head as usize] = before;
}

/// Mends the links of the runs after a seat was taken out from between two places. Only where it was
/// a run's first are runs made anew: the others of its run were the same as that first, and need not
/// be the same as whoever is first now.
pub(crate) fn mend<C: Queueable<N>, const N: usize>(
    ring: &Ring<C, N>,
    heads: &mut [u8; 65],
    lasts: &mut [u8; 65],
    seat: u8,
    before: u8,
    behind: u8,
)
    requires { WereTaken C.means.same heads.old lasts.old seat before behind ring.now }
    ensures { IsRuns C.means.same heads.new lasts.new ring.now }
{
    let first = heads[seat as usize];
    if first == seat {
        let head = heads[before as usize];
        remake(ring, heads, lasts, head, before, behind);
    } else if heads[behind as usize] != first {
        // It was the last of a run that goes on without it.
        lasts[first as usize] = before;
    }
}
