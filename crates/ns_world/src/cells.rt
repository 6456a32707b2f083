//! The acts on the cells of the row, on the flags and on the section in hand.

ghost use Rattle.std.specs.Prelude.{◌<◌, IsSome};
ghost use Rattle.ns_world.specs.Prelude.{HasMode, MakesAct, MayMake, Write};

use crate::lock::Lock;
use crate::seat::Seat;
use ns_model::condition::Condition;
use ns_word::act::{Act, Found};

/// Whether the seat's section in hand is quiet.
pub(crate) fn judge<C: Condition<N>, const N: usize>(seat: &Seat<C, N>, i: u8) -> Found
    requires { HasMode Write seat.now.held }
    ensures { (lock : _) → MakesAct C.means (Act.JudgeQuiet i) lock seat.now result lock seat.now }
{
    let Some(section) = seat.held else {
        unreachable!()
    };
    Found::Quiet(C::quiet(&section.before, &section.row))
}

/// Whether the condition is true of the row in the seat's hand.
pub(crate) fn judge_met<C: Condition<N>, const N: usize>(seat: &Seat<C, N>, i: u8, cond: C) -> Found
    requires { IsSome seat.now.held }
    ensures { (lock : _) → MakesAct C.means (Act.JudgeMet i cond) lock seat.now result lock seat.now }
{
    let Some(section) = seat.held else {
        unreachable!()
    };
    Found::Tested(cond.test(&section.row))
}

impl<C: Condition<N>, const N: usize> Lock<C, N> {
    /// Stores a value into a cell, and into the section's row.
    pub(crate) fn store(&mut self, seat: &mut Seat<C, N>, i: u8, value: u64) -> Found
        requires { MayMake C.means (Act.StoreCell i value) self.old seat.old }
        ensures { MakesAct C.means (Act.StoreCell i value) self.old seat.old result self.new seat.new }
    {
        let Some(mut section) = seat.held else {
            unreachable!()
        };
        self.row[i as usize] = value;
        section.row[i as usize] = value;
        seat.held = Some(section);
        Found::Made
    }

    /// Pays the first of the wakes that the seat owes.
    pub(crate) fn pay_wake(&mut self, seat: &mut Seat<C, N>) -> Found
        requires { MayMake C.means Act.PayWake self.old seat.old }
        ensures { MakesAct C.means Act.PayWake self.old seat.old result self.new seat.new }
    {
        let wake = seat.owed.remove(0);
        self.flags[wake.seat as usize] = wake.value;
        Found::Paid {
            owes: !seat.owed.is_empty(),
        }
    }

    /// Sets the seat's own flag.
    pub(crate) fn arm_flag(&mut self, seat: &Seat<C, N>) -> Found
        requires { seat.now.number < 64 }
        ensures { MakesAct C.means Act.ArmFlag self.old seat.now result self.new seat.now }
    {
        self.flags[seat.number as usize] = 1;
        Found::Made
    }
}
