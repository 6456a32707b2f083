//! An account between two threads: one pays in, the other draws once the balance covers it.
#![tactic(auto)]

ghost use Rattle.std.proofs.Common.{arith, rules};
ghost use Rattle.std.specs.Prelude.{◌==◌, nat_le, slice_index};
ghost use Rattle.ns_model.specs.Truths.{truths};

use anyhow::{Context, Result};
use ns_monitor::{Condition, Handle, Monitor};

#[derive(Clone, Copy)]
struct Covers(u64); // the balance, which is cell 0, covers this sum

impl Condition<1> for Covers {
    ghost means = { truths (λ c row. nat_le c.0 (slice_index row 0)) (λ c d. c.0 == d.0) (λ before after. nat_le (slice_index after 0) (slice_index before 0)) };

    fn test(&self, row: &[u64; 1]) -> bool {
        self.0 <= row[0]
    }

    fn same(&self, other: &Self) -> bool {
        self.0 == other.0
    }

    fn quiet(before: &[u64; 1], after: &[u64; 1]) -> bool {
        after[0] <= before[0]
    }

    ghost same_agrees = { λ c d row n e. Prim.grind arith };

    ghost quiet_keeps = { λ c before after n m quiet h. Prim.grind arith };

    ghost has_cells = { Prim.search rules };

    ghost has_room = { Prim.search rules };
}

fn pay_in<R: std::sync::Wait>(rt: &R, mut account: Handle<Covers, 1>) {
    for _ in 0..10 {
        let mut held = account.lock(rt);
        let balance = held.get(0);
        held.set(0, balance.saturating_add(35));
        account = held.unlock(rt); // wakes the other, if the balance covers what it waits for
    }
}

fn draw<R: std::sync::Wait>(rt: &R, account: Handle<Covers, 1>) -> u64 {
    let mut held = account.lock(rt).wait(rt, Covers(350));
    let left = held.get(0) - 300; // without the wait this isn't proved
    held.set(0, left);
    held.unlock(rt);
    left
}

fn main(rt: HostRuntime) -> Result<()> {
    let (account, seats) = Monitor::new(rt.alloc(), 2).ok().context("no memory")?;
    let (one, two) = account.handles(seats).pair().context("no seats")?;
    let ((), left) = std::thread::join(&rt, || pay_in(&rt, one), || draw(&rt, two));
    println!(rt; "{left} left").context("can't print")
}
