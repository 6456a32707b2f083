//! A gate with three seats for its tests, over one cell.

ghost use Rattle.std.specs.Prelude.{◌==◌, ◌≡◌, None, Option, nat_le, slice_index};
ghost use Rattle.ns_model.specs.Truths.{truths};
ghost use Rattle.ns_walk_tests.specs.Driving.{IsDriven, new_known};

use crate::known::Known;
use ns_env::limits::Cause;
use ns_gate::gate::{Gate, GateSeat};
use ns_model::condition::Condition;
use std::alloc::Global;
use std::process::Abort;

/// The cell is at least this. A change is quiet where the cell has not risen.
#[derive(Clone, Copy)]
pub struct Above {
    pub least: u64,
}

impl Condition<1> for Above {
    ghost use Rattle.std.proofs.Common.{arith, rules};

    ghost means = { truths (λ c row. nat_le c.least (slice_index row 0)) (λ c d. c.least == d.least) (λ before after. nat_le (slice_index after 0) (slice_index before 0)) };

    fn test(&self, row: &[u64; 1]) -> bool {
        self.least <= row[0]
    }

    fn same(&self, other: &Self) -> bool {
        self.least == other.least
    }

    fn quiet(before: &[u64; 1], after: &[u64; 1]) -> bool {
        after[0] <= before[0]
    }

    ghost same_agrees = { λ c d row n e. Prim.grind arith };

    ghost quiet_keeps = { λ c before after n m quiet h. Prim.grind arith };

    ghost has_cells = { Prim.search rules };

    ghost has_room = { Prim.search rules };
}

/// What is known of a new seat of this number, whose looks are to show this.
pub fn new_known(number: u8, shown: Option<Cause>) -> Known
    ensures { result ≡ new_known number shown }
{
    Known {
        number,
        section: None,
        owed: None,
        shown,
    }
}

/// A gate and its three seats.
#[derive(Drop)]
pub struct Seats<C: Condition<1>> {
    pub gate: Gate<C, 1>,
    pub one: GateSeat<C, 1>,
    pub other: GateSeat<C, 1>,
    pub third: GateSeat<C, 1>,
}

/// A new gate and its three seats. What their looks are to show is for the proof alone.
pub fn three<A: Abort, C: Condition<1>>(rt: &A, alloc: Global, _shown: Option<Cause>) -> Seats<C>
    ensures one { (result.one.table_id ≡ result.gate) × IsDriven C.means None (new_known 0 _shown) result.one.me }
    ensures other { (result.other.table_id ≡ result.gate) × IsDriven C.means None (new_known 1 _shown) result.other.me }
    ensures third { (result.third.table_id ≡ result.gate) × IsDriven C.means None (new_known 2 _shown) result.third.me }
{
    let (gate, mut all) = Gate::<C, 1>::new(alloc, 3).ok().expect(rt, "a gate");
    let one = gate.part(&mut all);
    let other = gate.part(&mut all);
    let third = gate.part(&mut all);
    Seats {
        gate,
        one,
        other,
        third,
    }
}
