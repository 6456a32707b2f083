//! What a call was asked to do, told by its place.

ghost use Rattle.std.specs.Prelude.{◌≡◌, ⊤};
ghost use Rattle.ns_word.specs.Asked.{asked_of, asked_in_cells, asked_to_judge};

use crate::act::Waking;
use crate::cell_walk::{CellPlace, Judging};
use crate::wait::{Aim, Wait};
use crate::walk::Walk;
use crate::word::Releasing;
use ns_model::event::Mode;
use std::alloc::AllocError;

/// What a call was asked to do.
#[derive(Copy)]
pub enum Request<C> {
    /// To lock in this mode.
    Lock(Mode),
    /// To try to lock in this mode.
    TryLock(Mode),
    /// To release the section in this way.
    Release(Releasing),
    /// To tell the value of a cell.
    Get(u8),
    /// To set a cell to a value.
    Set(u8, u64),
    /// To tell whether the section is quiet.
    IsQuiet,
    /// To wait for this.
    Await(Wait<C>),
    /// To wake one or more, or all, of those who wait for the variable of this number.
    Wake(Waking, u8),
    /// To show the lock word and the waiter lists.
    Show,
}

impl<C: Copy> Clone for Request<C> {
    ghost is_clone = { λ one other. other ≡ one };

    ghost is_infallible = { λ _. ⊤ };

    fn clone(&self) -> Result<Self, AllocError> {
        Ok(*self)
    }
}

impl<C: Copy> Walk<C> {
    /// What the call was asked to do, which is the same at each of its places.
    pub fn asked(&self) -> Request<C>
        ensures { result ≡ asked_of self.now }
    {
        match *self {
            Walk::InTry(mode, _) => Request::TryLock(mode),
            Walk::InAcquire(Aim::ForLock(mode), _) => Request::Lock(mode),
            Walk::InAcquire(Aim::ForWait(wait, _), _) => Request::Await(wait),
            Walk::InRelease(releasing, _) => Request::Release(releasing),
            Walk::InCells(place) => place.asked(),
            Walk::InWait(wait, _) => Request::Await(wait),
            Walk::InSignal(waking, k, _) => Request::Wake(waking, k),
            Walk::InShow(_) => Request::Show,
        }
    }
}

impl Judging {
    /// What a call was asked to do that judges the section.
    fn asked<C: Copy>(self) -> Request<C>
        ensures { result ≡ asked_to_judge self }
    {
        match self {
            Judging::ToTell => Request::IsQuiet,
            Judging::ToRelease => Request::Release(Releasing::QuietWriter),
        }
    }
}

impl CellPlace {
    /// What a call on the row was asked to do.
    fn asked<C: Copy>(self) -> Request<C>
        ensures { result ≡ asked_in_cells self }
    {
        match self {
            CellPlace::GetLoad(i) => Request::Get(i),
            CellPlace::SetLoad(i, value) => Request::Set(i, value),
            CellPlace::SetStore(i, value) => Request::Set(i, value),
            CellPlace::QuietCells(judging, _) => judging.asked(),
            CellPlace::QuietLast(judging, _) => judging.asked(),
        }
    }
}
