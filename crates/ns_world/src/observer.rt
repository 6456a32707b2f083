//! Who is told of the turns of a run.

ghost use Rattle.std.specs.Prelude.{Bool, IsTrue, OnOk, OnErr};
ghost use Rattle.ns_world.specs.Seen.{Seen, seen_as};

use crate::step::Step;
use std::alloc::AllocError;

/// Who is told of each turn of a run in a world `W` with calls `K`, once it is made and counted. What was before it,
/// an observer keeps itself.
pub trait Observer<W, K> {
    /// Whether it may refuse memory.
    ghost can_refuse: { Bool };

    /// What it may become by a turn that it is told of.
    ghost sees: { Self → Seen W K → Self → Type 0 };

    /// This is the world after a turn of the seat: which turn of the run it was, from 1; the call that the seat was in
    /// or began, or none where it had none left; and what the turn was. Where it refuses memory, the run stops.
    fn see(
        &mut self,
        world: &W,
        turn: u32,
        seat: u8,
        call: Option<K>,
        step: Step,
    ) -> Result<(), AllocError>
        ensures ok { OnOk result ((before : W) → sees self.old (seen_as turn seat call before world.now step) self.new) }
        ensures err { OnErr result (IsTrue can_refuse) };
}

/// Nobody is told of a turn.
#[derive(Clone, Copy)]
pub struct Nobody;

impl<W, K: Copy> Observer<W, K> for Nobody {
    ghost use Rattle.std.specs.Prelude.{◌≡◌, false};

    ghost can_refuse = { false };

    ghost sees = { λ old turn new. new ≡ old };

    fn see(
        &mut self,
        _world: &W,
        _turn: u32,
        _seat: u8,
        _call: Option<K>,
        _step: Step,
    ) -> Result<(), AllocError>
        ensures ok { OnOk result ((before : W) → self.new ≡ self.old) }
        ensures err { OnErr result (IsTrue false) }
    {
        Ok(())
    }
}
