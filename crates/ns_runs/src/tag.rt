//! Conditions that differ by a tag alone, and by their tags are declared the same.

ghost use Rattle.std.specs.Prelude.{◌+◌, ◌&&◌, false, nat_le, slice_index};
ghost use Rattle.ns_model.specs.Truths.{truths};

use ns_model::condition::Condition;

/// A condition with a tag. All are true where the first cell isn't 0, so whichever of them are declared the
/// same, they agree.
pub trait Tagged: Condition<2> {
    /// The condition with this tag.
    fn tagged(tag: u8) -> Self;

    /// The condition's tag.
    fn tag(&self) -> u8;
}

/// It is declared the same as those whose tag is no higher than its own, which is not symmetric.
#[derive(Clone, Copy)]
pub struct Rising {
    tag: u8,
}

/// It is declared the same as those whose tag is at most 1 away from its own, which is not transitive.
#[derive(Clone, Copy)]
pub struct Near {
    tag: u8,
}

impl Condition<2> for Rising {
    ghost use Rattle.std.proofs.Common.{arith, rules};

    ghost means = { truths (λ c row. nat_le 1 (slice_index row 0)) (λ c d. nat_le d.tag c.tag) (λ before after. false) };

    fn test(&self, row: &[u64; 2]) -> bool {
        1 <= row[0]
    }

    fn same(&self, other: &Self) -> bool {
        other.tag <= self.tag
    }

    fn quiet(_before: &[u64; 2], _after: &[u64; 2]) -> bool {
        false
    }

    ghost same_agrees = { λ c d row n e. Prim.grind arith };

    ghost quiet_keeps = { λ c before after n m quiet h. absurd (Prim.cc) };

    ghost has_cells = { Prim.search rules };

    ghost has_room = { Prim.search rules };
}

impl Condition<2> for Near {
    ghost use Rattle.std.proofs.Common.{arith, rules};

    ghost means = { truths (λ c row. nat_le 1 (slice_index row 0)) (λ c d. nat_le c.tag (d.tag + 1) && nat_le d.tag (c.tag + 1)) (λ before after. false) };

    fn test(&self, row: &[u64; 2]) -> bool {
        1 <= row[0]
    }

    fn same(&self, other: &Self) -> bool {
        let (own, others) = (u16::from(self.tag), u16::from(other.tag));
        own <= others + 1 && others <= own + 1
    }

    fn quiet(_before: &[u64; 2], _after: &[u64; 2]) -> bool {
        false
    }

    ghost same_agrees = { λ c d row n e. Prim.grind arith };

    ghost quiet_keeps = { λ c before after n m quiet h. absurd (Prim.cc) };

    ghost has_cells = { Prim.search rules };

    ghost has_room = { Prim.search rules };
}

impl Tagged for Rising {
    fn tagged(tag: u8) -> Rising {
        Rising { tag }
    }

    fn tag(&self) -> u8 {
        self.tag
    }
}

impl Tagged for Near {
    fn tagged(tag: u8) -> Near {
        Near { tag }
    }

    fn tag(&self) -> u8 {
        self.tag
    }
}
