//! A seat of a world.

ghost use Rattle.std.specs.Prelude.{◌≡◌, ⊤};
ghost use Rattle.ns_world.specs.Doings.{is_call, walk_of};

use crate::objects::AnyWait;
use arrayvec::ArrayVec;
use ns_counters::walk::ObjectWalk;
use ns_env::walk::EnvWalk;
use ns_word::owed::Owed;
use ns_word::view::Held;
use ns_word::walk::Walk;
use std::alloc::AllocError;

/// What a seat is doing: the call that it is in, and its place there.
#[derive(Copy)]
pub(crate) enum Doing<C> {
    /// No call is in progress.
    AtRest,
    /// A call on the lock, whose next step is one there. A wait for condition variables among notes and counters
    /// says what it is for.
    OnLock(Walk<C>, Option<AnyWait>),
    /// Any other wait on the lock, which looks at the clock and the notes.
    LooksByLimits(Walk<C>, EnvWalk),
    /// A wait for condition variables among notes and counters, which looks at these by a round.
    LooksByRound(Walk<C>, AnyWait, ObjectWalk),
    /// A call on the clock and the notes.
    OnNotes(EnvWalk),
    /// A call on counters and once cells.
    OnObjects(ObjectWalk),
}

impl<C: Copy> Clone for Doing<C> {
    ghost is_clone = { λ one other. other ≡ one };

    ghost is_infallible = { λ _. ⊤ };

    fn clone(&self) -> Result<Self, AllocError> {
        Ok(*self)
    }
}

/// The place of the call on the lock, if it is one.
pub(crate) fn walk_of<C: Copy>(doing: &Doing<C>) -> Option<Walk<C>>
    ensures { result ≡ walk_of doing.now }
{
    match doing {
        Doing::OnLock(walk, _) => Some(*walk),
        Doing::LooksByLimits(walk, _) => Some(*walk),
        Doing::LooksByRound(walk, _, _) => Some(*walk),
        _ => None,
    }
}

/// Whether a call is in progress.
pub(crate) fn is_call<C: Copy>(doing: &Doing<C>) -> bool
    ensures { result ≡ is_call doing.now }
{
    match doing {
        Doing::AtRest => false,
        _ => true,
    }
}

/// A seat as a world keeps it.
#[derive(Drop)]
pub(crate) struct Seat<C, const N: usize> {
    /// Its number.
    pub(crate) number: u8,
    /// What it is doing.
    pub(crate) doing: Doing<C>,
    /// Its section, if it has one in hand.
    pub(crate) held: Option<Held<C, N>>,
    /// The wakes that it owes, in the order in which it pays.
    pub(crate) owed: ArrayVec<Owed, 64>,
    /// How many conditions the last scan of its call tested; of its last call, where none is in progress.
    pub(crate) tests: u32,
}
