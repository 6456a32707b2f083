//! What the threads of a round wait for.

ghost use Rattle.std.specs.Prelude.{◌≡◌, ◌==◌, ◌&&◌, nat_le, slice_index};
ghost use Rattle.ns_model.specs.Truths.{truths};

use ns_model::condition::Condition;

/// The goods that were given and not yet taken.
pub const GOODS: usize = 0;

/// How many more goods there may be.
pub const ROOM: usize = 1;

/// How many turns are over, or how many goods were given in all.
pub const DONE: usize = 2;

/// A sum for which nobody waits.
pub const SUM: usize = 3;

/// There are at least so many goods, there is room for so many more, and so much is done. A change is
/// quiet where none of the three has risen.
#[derive(Clone, Copy)]
pub struct Wish {
    goods: u64,
    room: u64,
    done: u64,
}

impl Wish {
    /// There are so many goods.
    pub fn goods(goods: u64) -> Wish {
        Wish {
            goods,
            room: 0,
            done: 0,
        }
    }

    /// There is room for so many more goods.
    pub fn room(room: u64) -> Wish {
        Wish {
            goods: 0,
            room,
            done: 0,
        }
    }

    /// So much is done.
    pub fn done(done: u64) -> Wish {
        Wish {
            goods: 0,
            room: 0,
            done,
        }
    }
}

impl Condition<4> for Wish {
    ghost use Rattle.std.proofs.Common.{arith, rules};

    ghost means = { truths (λ c row. nat_le c.goods (slice_index row 0) && nat_le c.room (slice_index row 1) && nat_le c.done (slice_index row 2)) (λ c d. (c.goods == d.goods) && (c.room == d.room) && (c.done == d.done)) (λ before after. nat_le (slice_index after 0) (slice_index before 0) && nat_le (slice_index after 1) (slice_index before 1) && nat_le (slice_index after 2) (slice_index before 2)) };

    fn test(&self, row: &[u64; 4]) -> bool {
        self.goods <= row[GOODS] && self.room <= row[ROOM] && self.done <= row[DONE]
    }

    fn same(&self, other: &Self) -> bool {
        self.goods == other.goods && self.room == other.room && self.done == other.done
    }

    fn quiet(before: &[u64; 4], after: &[u64; 4]) -> bool {
        after[GOODS] <= before[GOODS] && after[ROOM] <= before[ROOM] && after[DONE] <= before[DONE]
    }

    ghost same_agrees = { λ c d row n e. Prim.grind arith };

    ghost quiet_keeps = { λ c before after n m quiet h. Prim.grind arith };

    ghost has_cells = { Prim.search rules };

    ghost has_room = { Prim.search rules };
}
