//! The conditions of scripts: one cell, or two cells, at least a value.

ghost use Rattle.std.proofs.Common.{rules};
ghost use Rattle.std.specs.Prelude.{◌≡◌};

use ns_model::condition::Condition;
use std::fmt;

/// `I>=V`: the cell is there, and at least the value.
#[derive(Clone, Copy, Debug, PartialEq, Eq)]
pub struct AtLeast {
    /// The cell's number; a row need not have it.
    pub cell: u8,
    /// The value that the cell has to have reached.
    pub least: u64,
}

impl AtLeast {
    ghost use Rattle.ns_replay.specs.Condition.{is_at_least, has_same_fields};

    /// Whether the row's cell is there, and at least the value.
    fn holds(&self, row: &[u64; 8]) -> bool
        ensures { result ≡ is_at_least self.now row.now }
    {
        let cell = self.cell as usize;
        cell < row.len() && self.least <= row[cell]
    }

    /// Whether the two have one text.
    fn same(&self, other: &Self) -> bool
        ensures { result ≡ has_same_fields self.now other.now }
    {
        self.cell == other.cell && self.least == other.least
    }
}

impl fmt::Display for AtLeast {
    ghost use Rattle.std.specs.Prelude.{Some};
    ghost use Rattle.ns_replay.specs.Condition.{at_least_text};

    ghost output = { λ part. Some (at_least_text part) };

    fn fmt<W: fmt::Write>(&self, f: &mut fmt::Formatter<W>) -> fmt::Result {
        let AtLeast { cell, least } = *self;
        write!(f, "{cell}>={least}")
    }
}

/// `I>=V` or `I>=V&I>=V`: each part is true.
///
/// Two conditions are declared equivalent where they have one text, and a change of the row is
/// declared quiet where no cell rose.
#[derive(Clone, Copy, Debug, PartialEq, Eq)]
pub struct ScriptCondition {
    /// The part that each condition has.
    pub first: AtLeast,
    /// The part behind `&`.
    pub second: Option<AtLeast>,
}

impl fmt::Display for ScriptCondition {
    ghost use Rattle.std.specs.Prelude.{Some};
    ghost use Rattle.ns_replay.specs.Condition.{condition_text};

    ghost output = { λ condition. Some (condition_text condition) };

    fn fmt<W: fmt::Write>(&self, f: &mut fmt::Formatter<W>) -> fmt::Result {
        let first = self.first;
        match self.second {
            None => write!(f, "{first}"),
            Some(second) => write!(f, "{first}&{second}"),
        }
    }
}

impl Condition<8> for ScriptCondition {
    ghost use Rattle.ns_replay.specs.Condition.{script_truths};
    ghost use Rattle.ns_replay.specs.ConditionLaws.{same_conditions, quiet_conditions};

    ghost means = { script_truths };

    fn test(&self, row: &[u64; 8]) -> bool {
        match self.second {
            None => self.first.holds(row),
            Some(second) => self.first.holds(row) && second.holds(row),
        }
    }

    fn same(&self, other: &Self) -> bool {
        match (self.second, other.second) {
            (None, None) => self.first.same(&other.first),
            (Some(a), Some(b)) => self.first.same(&other.first) && a.same(&b),
            _ => false,
        }
    }

    fn quiet(before: &[u64; 8], after: &[u64; 8]) -> bool {
        before.iter().zip(after).all(|(old, new)| new <= old)
    }

    ghost same_agrees = { same_conditions };

    ghost quiet_keeps = { quiet_conditions };

    ghost has_cells = { Prim.search rules };

    ghost has_room = { Prim.search rules };
}
