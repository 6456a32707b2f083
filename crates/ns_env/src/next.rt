//! Where a walk goes, whatever its places and its answers are.

ghost use Rattle.std.specs.Prelude.{◌≡◌, ⊤};

use std::alloc::AllocError;

/// Where a walk goes with what its step found.
///
/// It has no `Debug` and no comparisons, and is cloned by hand, as a copy: what a derive writes for a
/// type with parameters is proved anew in each check.
#[derive(Copy)]
pub enum Next<W, R> {
    /// It goes on at this place.
    On(W),
    /// It has to wait for another seat, and repeats from this place.
    Idle(W),
    /// It is over, and answers this.
    Done(R),
}

impl<W: Copy, R: Copy> Clone for Next<W, R> {
    ghost is_clone = { λ one other. other ≡ one };

    ghost is_infallible = { λ _. ⊤ };

    fn clone(&self) -> Result<Self, AllocError> {
        Ok(*self)
    }
}
