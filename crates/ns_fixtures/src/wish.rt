//! What the threads wait for.

ghost use Rattle.std.specs.Prelude.{◌≡◌};
ghost use Rattle.ns_fixtures.specs.Wishes.{is_met_by};

use crate::ring::{LENGTH, RING, ROW};
use ns_model::condition::Condition;

/// What a thread waits for. A change is quiet where as many items are in the ring as before.
#[derive(Clone, Copy)]
pub enum Wish {
    /// The ring isn't full.
    Room,
    /// The ring isn't empty.
    Item,
}

impl Wish {
    /// Whether it is met where so many items are in the ring.
    pub(crate) fn is_met_by(self, items: u64) -> bool
        ensures { result ≡ is_met_by self items }
    {
        match self {
            Wish::Room => items < RING,
            Wish::Item => 0 < items,
        }
    }
}

impl Condition<ROW> for Wish {
    ghost use Rattle.std.proofs.Common.{rules};
    ghost use Rattle.ns_fixtures.specs.Laws.{quiet_wishes, same_wishes};
    ghost use Rattle.ns_fixtures.specs.Wishes.{wishes};

    ghost means = { wishes };

    fn test(&self, row: &[u64; ROW]) -> bool {
        self.is_met_by(row[LENGTH])
    }

    fn same(&self, other: &Self) -> bool {
        match (self, other) {
            (Wish::Room, Wish::Room) | (Wish::Item, Wish::Item) => true,
            _ => false,
        }
    }

    fn quiet(before: &[u64; ROW], after: &[u64; ROW]) -> bool {
        before[LENGTH] == after[LENGTH]
    }

    ghost same_agrees = { same_wishes };

    ghost quiet_keeps = { quiet_wishes };

    ghost has_cells = { Prim.search rules };

    ghost has_room = { Prim.search rules };
}
