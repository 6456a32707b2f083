//! Where a seat stands between its sections.

ghost use Rattle.std.specs.Prelude.{◌≡◌};
ghost use Rattle.ns_model.specs.Phases.{is_write, is_waiting, is_waiting_as, woken_phase, left_phase};

use crate::cvs::Variables;
use crate::event::Mode;

/// Where a seat stands between its sections: it owes nothing, or it is on its way back from a
/// wait, in the mode that it waits in. A wait for a condition has the condition; a wait for
/// condition variables tells which they are, and goes from `Waiting` to `Woken` by a signal or a
/// broadcast of one of them, or to `Left` by its deadline, its note, or what else it waited for.
#[derive(Clone, Copy, Debug)]
pub enum Phase<C> {
    /// It owes nothing.
    Idle,
    /// It waits for the condition.
    Cond(C, Mode),
    /// It waits for the condition variables.
    Waiting(Variables, Mode),
    /// It was woken from the condition variable.
    Woken(u8, Mode),
    /// It has left the condition variables.
    Left(Variables, Mode),
}

impl Mode {
    /// Whether the mode is `Write`.
    pub fn is_write(self) -> bool
        ensures { result ≡ is_write self }
    {
        match self {
            Mode::Write => true,
            Mode::Read => false,
        }
    }
}

impl<C: Copy> Phase<C> {
    /// Whether the seat waits for the variable.
    pub(crate) fn is_waiting(&self, k: u8) -> bool
        ensures { result ≡ is_waiting k self.now }
    {
        match self {
            Phase::Waiting(variables, _) => variables.has(k),
            _ => false,
        }
    }

    /// Whether the seat waits for the variable, as a writer or as a reader.
    pub(crate) fn is_waiting_as(&self, writes: bool, k: u8) -> bool
        ensures { result ≡ is_waiting_as writes k self.now }
    {
        match self {
            Phase::Waiting(variables, mode) => variables.has(k) && writes == mode.is_write(),
            _ => false,
        }
    }

    /// The phase after a wake of the variable. Whatever else the seat waited for, it is woken by
    /// `k` then, and a wake of another variable doesn't find it any more.
    pub(crate) fn woken(self, k: u8) -> Phase<C>
        ensures { result ≡ woken_phase k self }
    {
        match self {
            Phase::Waiting(_, mode) => Phase::Woken(k, mode),
            other => other,
        }
    }

    /// The phase after the wait was left.
    pub(crate) fn left(self) -> Phase<C>
        ensures { result ≡ left_phase self }
    {
        match self {
            Phase::Waiting(variables, mode) => Phase::Left(variables, mode),
            other => other,
        }
    }
}
