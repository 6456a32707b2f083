//! A condition on the first of two cells.

ghost use Rattle.std.specs.Prelude.{◌==◌, nat_le, slice_index};
ghost use Rattle.ns_model.specs.Truths.{truths};

use ns_model::condition::Condition;

/// The first cell is at least this. A change is quiet where that cell has not risen.
#[derive(Clone, Copy)]
pub struct AtLeast {
    /// How much.
    pub least: u64,
}

impl Condition<2> for AtLeast {
    ghost use Rattle.std.proofs.Common.{arith, rules};

    ghost means = { truths (λ c row. nat_le c.least (slice_index row 0)) (λ c d. c.least == d.least) (λ before after. nat_le (slice_index after 0) (slice_index before 0)) };

    fn test(&self, row: &[u64; 2]) -> bool {
        self.least <= row[0]
    }

    fn same(&self, other: &Self) -> bool {
        self.least == other.least
    }

    fn quiet(before: &[u64; 2], after: &[u64; 2]) -> bool {
        after[0] <= before[0]
    }

    ghost same_agrees = { λ c d row n e. Prim.grind arith };

    ghost quiet_keeps = { λ c before after n m quiet h. Prim.grind arith };

    ghost has_cells = { Prim.search rules };

    ghost has_room = { Prim.search rules };
}
