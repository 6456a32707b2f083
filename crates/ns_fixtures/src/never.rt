//! A condition for those who wait for none.

ghost use Rattle.std.specs.Prelude.{false};
ghost use Rattle.ns_model.specs.Truths.{truths};

use ns_model::condition::Condition;

/// A condition that is never true, of rows of one cell.
#[derive(Clone, Copy)]
pub struct Never;

impl Condition<1> for Never {
    ghost use Rattle.std.proofs.Common.{rules};

    ghost means = { truths (λ c row. false) (λ c d. false) (λ before after. false) };

    fn test(&self, _row: &[u64; 1]) -> bool {
        false
    }

    fn same(&self, _other: &Self) -> bool {
        false
    }

    fn quiet(_before: &[u64; 1], _after: &[u64; 1]) -> bool {
        false
    }

    ghost same_agrees = { λ c d row n e. absurd (Prim.cc) };

    ghost quiet_keeps = { λ c before after n m quiet h. absurd (Prim.cc) };

    ghost has_cells = { Prim.search rules };

    ghost has_room = { Prim.search rules };
}
