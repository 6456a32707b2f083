//! Waiters by their seats, with links to both neighbours.

ghost use Rattle.std.specs.Prelude.{◌≡◌, ◌<◌, ◌↔◌, ◌∷◌, ◌++◌, [], IsTrue, OnSome, length, slice_set};
ghost use Rattle.std.specs.Option.{option_copied};
ghost use Rattle.ns_queue.specs.Prelude.{IsRow, ahead, behind, counts_of, first_seat, from, last_seat, seated, times_in, without_all, without_in};

use crate::counts::{Counts, with_one, without_one};
use crate::room::Queueable;
use crate::waiter::Waiter;
use std::marker::Model;

/// The place in front of the first waiter and behind the last.
pub(crate) const END: u8 = 64;

/// Waiters in a row. Each lies in the entry of its seat, and links lead from the place [`END`] by
/// their seats and back to it.
///
/// The arrays stand side by side, and not as one array of entries: a statement names the arrays that it
/// reads, so a write of another needs no lemma.
#[derive(Drop)]
pub(crate) struct Ring<C, const N: usize> {
    held: [Option<Waiter<C>>; 64],
    next: [u8; 65],
    prev: [u8; 65],
    counts: Counts,
}

impl<C, const N: usize> Model for Ring<C, N> {
    ghost use Rattle.std.specs.Prelude.{List, slice_index};
    ghost use Rattle.ns_queue.specs.declared.waiter.Waiter.{Waiter};

    ghost Value = { List (Waiter C) };

    ghost use Rattle.ns_queue.specs.Rings.{Holds, gather};

    ghost view = { λ r. gather r.held r.next r.counts.len (slice_index r.next 64) };

    ghost invariant = { λ r. Holds r.held r.next r.prev r.counts (gather r.held r.next r.counts.len (slice_index r.next 64)) };
}

/// Links a seat between two places.
fn link(next: &mut [u8; 65], prev: &mut [u8; 65], before: u8, seat: u8, behind: u8)
    requires before { before < 65 }
    requires seat { seat < 65 }
    requires behind { behind < 65 }
    ensures next { next.new ≡ slice_set (slice_set next.old before seat) seat behind }
    ensures prev { prev.new ≡ slice_set (slice_set prev.old behind seat) seat before }
{
    next[before as usize] = seat;
    next[seat as usize] = behind;
    prev[behind as usize] = seat;
    prev[seat as usize] = before;
}

/// Links two places with each other.
fn join(next: &mut [u8; 65], prev: &mut [u8; 65], before: u8, behind: u8)
    requires before { before < 65 }
    requires behind { behind < 65 }
    ensures next { next.new ≡ slice_set next.old before behind }
    ensures prev { prev.new ≡ slice_set prev.old behind before }
{
    next[before as usize] = behind;
    prev[behind as usize] = before;
}

impl<C: Queueable<N>, const N: usize> Ring<C, N> {
    /// Nobody.
    pub(crate) fn new() -> Ring<C, N>
        ensures { result ≡ [] }
    {
        Ring {
            held: [None; 64],
            next: [END; 65],
            prev: [END; 65],
            counts: Counts {
                len: 0,
                conditional: 0,
                plain_writers: 0,
                long: 0,
            },
        }
    }

    /// How many there are, and how many of each kind.
    pub(crate) fn counts(&self) -> Counts
        ensures { result ≡ counts_of self.now }
    {
        self.counts
    }

    /// The waiter of this seat, if it stands here.
    pub(crate) fn get(&self, seat: u8) -> Option<&Waiter<C>>
        ensures waiter { option_copied result ≡ seated seat self.now }
        ensures stands { OnSome result (0 < times_in seat self.now) }
        ensures orderly { IsRow self.now }
    {
        let held = &self.held;
        if seat >= 64 {
            return None;
        }
        held[seat as usize].as_ref()
    }

    /// Whether the seat stands here.
    pub(crate) fn holds(&self, seat: u8) -> bool
        ensures stands { IsTrue result ↔ (0 < times_in seat self.now) }
        ensures orderly { IsRow self.now }
    {
        self.get(seat).is_some()
    }

    /// The seat of the first, or [`END`] where there is nobody.
    pub(crate) fn front(&self) -> u8
        ensures place { result ≡ first_seat 64 self.now }
        ensures orderly { IsRow self.now }
    {
        self.next[64]
    }

    /// The seat of the last, or [`END`] where there is nobody.
    pub(crate) fn back(&self) -> u8
        ensures place { result ≡ last_seat 64 self.now }
        ensures orderly { IsRow self.now }
    {
        self.prev[64]
    }

    /// The seat behind this one, or [`END`].
    pub(crate) fn next(&self, seat: u8) -> u8
        requires { 0 < times_in seat self.now }
        ensures place { result ≡ first_seat 64 (behind seat self.now) }
        // so a loop along the links ends
        ensures fewer { length (from result self.now) < length (from seat self.now) }
    {
        self.next[seat as usize]
    }

    /// The seat in front of this one, or [`END`].
    pub(crate) fn prev(&self, seat: u8) -> u8
        requires { 0 < times_in seat self.now }
        ensures { result ≡ last_seat 64 (ahead seat self.now) }
    {
        self.prev[seat as usize]
    }

    /// Puts a waiter behind the others.
    pub(crate) fn push_back(&mut self, waiter: Waiter<C>)
        requires below { waiter.seat < 64 }
        requires free { times_in waiter.seat self.old ≡ 0 }
        ensures { self.new ≡ self.old ++ waiter ∷ [] }
    {
        let last = self.prev[64];
        link(&mut self.next, &mut self.prev, last, waiter.seat, END);
        self.counts = with_one(self.counts, &waiter);
        self.held[waiter.seat as usize] = Some(waiter);
    }

    /// Puts a waiter in front of the others.
    pub(crate) fn push_front(&mut self, waiter: Waiter<C>)
        requires below { waiter.seat < 64 }
        requires free { times_in waiter.seat self.old ≡ 0 }
        ensures { self.new ≡ waiter ∷ self.old }
    {
        let first = self.next[64];
        link(&mut self.next, &mut self.prev, END, waiter.seat, first);
        self.counts = with_one(self.counts, &waiter);
        self.held[waiter.seat as usize] = Some(waiter);
    }

    /// Takes the waiter of this seat out.
    pub(crate) fn remove(&mut self, seat: u8)
        requires { 0 < times_in seat self.old }
        ensures { self.new ≡ without_in seat self.old }
    {
        let before = self.prev[seat as usize];
        let behind = self.next[seat as usize];
        let Some(waiter) = &self.held[seat as usize] else {
            return;
        };
        self.counts = without_one(self.counts, waiter);
        join(&mut self.next, &mut self.prev, before, behind);
        self.held[seat as usize] = None;
    }
}

/// Takes these seats out, the last of them first. The others stay as they are.
pub(crate) fn take_out<C: Queueable<N>, const N: usize>(ring: &mut Ring<C, N>, seats: &[u8])
    ensures { ring.new ≡ without_all seats.now ring.old }
{
    let mut left = seats.len();
    while left > 0 {
        left -= 1;
        if ring.holds(seats[left]) {
            ring.remove(seats[left]);
        }
    }
}
