//! What the threads of a workload wait for.

ghost use Rattle.std.specs.Prelude.{◌≡◌, ◌==◌, ◌&&◌, bit_and, nat_le, slice_index};
ghost use Rattle.ns_model.specs.Truths.{truths};

use ns_monitor::{Condition, Handle, Monitor, Writing};

/// The cell with a mark for each waiter, a bit.
pub const MARKS: usize = 0;

/// The cell that counts who has come to wait.
pub const ARRIVED: usize = 1;

/// The cell in which a waiter answers.
pub const ANSWER: usize = 2;

/// The cell that no condition depends on.
pub const TICK: usize = 3;

/// The cell that tells the waiters to leave.
pub const STOP: usize = 4;

/// Of the bits of cell 0 those in the mask are within bounds, at least so many have come, and at least
/// this was answered. A change is quiet where it has left these three cells as they were.
#[derive(Clone, Copy)]
pub struct Awaited {
    mask: u64,
    least: u64,
    most: u64,
    arrived: u64,
    answer: u64,
}

/// A monitor of six cells, at which threads wait for one another.
pub type SixCells = Monitor<Awaited, 6>;

/// A handle on it.
pub type SixHandle<'m> = Handle<'m, Awaited, 6>;

/// A section of it that writes.
pub type SixWriting<'m> = Writing<'m, Awaited, 6>;

impl Awaited {
    /// Cell 0 is within these bounds.
    pub fn within(least: u64, most: u64) -> Awaited {
        Awaited {
            mask: u64::MAX,
            least,
            most,
            arrived: 0,
            answer: 0,
        }
    }

    /// A mark of the mask is there.
    pub fn marked(mask: u64) -> Awaited {
        Awaited {
            mask,
            least: 1,
            most: u64::MAX,
            arrived: 0,
            answer: 0,
        }
    }

    /// So many have come.
    pub fn arrived(arrived: u64) -> Awaited {
        Awaited {
            mask: 0,
            least: 0,
            most: 0,
            arrived,
            answer: 0,
        }
    }

    /// A waiter has answered.
    pub fn answered() -> Awaited {
        Awaited {
            mask: 0,
            least: 0,
            most: 0,
            arrived: 0,
            answer: 1,
        }
    }
}

impl Condition<6> for Awaited {
    ghost use Rattle.std.proofs.Common.{arith, rules};

    ghost means = { truths (λ c row. nat_le c.least (bit_and (slice_index row 0) c.mask) && nat_le (bit_and (slice_index row 0) c.mask) c.most && nat_le c.arrived (slice_index row 1) && nat_le c.answer (slice_index row 2)) (λ c d. (c.mask == d.mask) && (c.least == d.least) && (c.most == d.most) && (c.arrived == d.arrived) && (c.answer == d.answer)) (λ before after. (slice_index before 0 == slice_index after 0) && (slice_index before 1 == slice_index after 1) && (slice_index before 2 == slice_index after 2)) };

    fn test(&self, row: &[u64; 6]) -> bool {
        let marks = row[MARKS] & self.mask;
        self.least <= marks
            && marks <= self.most
            && self.arrived <= row[ARRIVED]
            && self.answer <= row[ANSWER]
    }

    fn same(&self, other: &Self) -> bool {
        self.mask == other.mask
            && self.least == other.least
            && self.most == other.most
            && self.arrived == other.arrived
            && self.answer == other.answer
    }

    fn quiet(before: &[u64; 6], after: &[u64; 6]) -> bool {
        before[MARKS] == after[MARKS]
            && before[ARRIVED] == after[ARRIVED]
            && before[ANSWER] == after[ANSWER]
    }

    ghost same_agrees = { λ c d row n e. Prim.grind arith };

    ghost quiet_keeps = { λ c before after n m quiet h. Prim.grind arith };

    ghost has_cells = { Prim.search rules };

    ghost has_room = { Prim.search rules };
}
