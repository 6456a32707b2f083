//! What a seat has in hand.

ghost use Rattle.std.specs.Prelude.{◌≡◌, ⊤};

use crate::owed::Owed;
use crate::wait::{Outcome, Subject};
use crate::walk::Walk;
use ns_model::event::Mode;
use std::alloc::AllocError;
use std::collections::LinkedList;

/// How a section in hand began.
#[derive(Copy)]
pub enum Opening<C> {
    /// A call locked.
    Locked,
    /// A wait for this came back, with what came of it. A wait for a condition is said to have met it
    /// where it is true of the row that the section began at. Where it isn't, and nothing has ended
    /// the wait, the answer is open, and the section isn't committed.
    CameBack(Subject<C>, Outcome),
}

impl<C: Copy> Clone for Opening<C> {
    ghost is_clone = { λ one other. other ≡ one };

    ghost is_infallible = { λ _. ⊤ };

    fn clone(&self) -> Result<Self, AllocError> {
        Ok(*self)
    }
}

/// A section in hand.
#[derive(Copy)]
pub struct Held<C, const N: usize> {
    /// The mode that the lock is held in.
    pub mode: Mode,
    /// How it began.
    pub entry: Opening<C>,
    /// The row that it began at.
    pub before: [u64; N],
    /// Its row now.
    pub row: [u64; N],
}

impl<C: Copy, const N: usize> Clone for Held<C, N> {
    ghost is_clone = { λ one other. other ≡ one };

    ghost is_infallible = { λ _. ⊤ };

    fn clone(&self) -> Result<Self, AllocError> {
        Ok(*self)
    }
}

/// A seat.
///
/// No program makes such a value: it is the form in which a state of the machine speaks of a
/// seat, however a world keeps it.
pub struct SeatView<C, const N: usize> {
    /// Its number.
    pub seat: u8,
    /// Its place in its call, if one is in progress. A step needs no name for its kind; what it is
    /// follows from the place.
    pub walk: Option<Walk<C>>,
    /// Its section, if it has one in hand.
    pub held: Option<Held<C, N>>,
    /// The wakes that it owes, in the order in which it pays them.
    pub owed: LinkedList<Owed>,
}
