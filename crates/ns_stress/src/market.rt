//! Goods that some threads give and others take, while the rest watch.

use crate::kit::{Kit, RowHandle, RowWriting};
use crate::ring::watch;
use crate::sections::{do_some, leave};
use crate::waits::wait_until_met;
use crate::wish::{DONE, GOODS, ROOM, Wish};
use ns_monitor::Mode;
use std::sync::Wait;

/// How many goods are given or taken next, where so many are left to be: so few that never both a giver
/// and a taker have to wait.
fn draw_amount(kit: &mut Kit<'_, '_>, left: u64) -> u64 {
    let half = kit.most.div_ceil(2);
    let drawn = u64::from(kit.draw(4)).saturating_add(1);
    drawn.min(half).min(left)
}

/// Which way goods go.
#[derive(Clone, Copy)]
pub enum Way {
    /// They are given.
    Give,
    /// They are taken.
    Take,
}

impl Way {
    /// What has to be before so many goods can go: room for them, or that they are there.
    fn wish(self, amount: u64) -> Wish {
        match self {
            Way::Give => Wish::room(amount),
            Way::Take => Wish::goods(amount),
        }
    }
}

/// Moves so many goods in the section in hand, and counts those that are given.
fn transfer(held: &mut RowWriting<'_>, way: Way, amount: u64) {
    let (from, to) = match way {
        Way::Give => (ROOM, GOODS),
        Way::Take => (GOODS, ROOM),
    };
    let less = held.get(from).wrapping_sub(amount);
    held.set(from, less);
    let more = held.get(to).wrapping_add(amount);
    held.set(to, more);
    if let Way::Give = way {
        let done = held.get(DONE).wrapping_add(amount);
        held.set(DONE, done);
    }
}

/// Gives or takes so many goods, some at a time, each time once there is room for them or they are there.
pub fn trade<'m, R: Wait>(
    rt: &R,
    mut handle: RowHandle<'m>,
    kit: &mut Kit<'_, '_>,
    way: Way,
    goods: u64,
) -> RowHandle<'m> {
    let mut left = goods;
    for _ in 0..goods {
        handle = do_some(rt, handle, kit);
        let amount = draw_amount(kit, left);
        let held = handle.lock(rt);
        kit.enter(Mode::Write);
        let mut held = wait_until_met(rt, held, way.wish(amount), kit);
        transfer(&mut held, way, amount);
        handle = leave(rt, held, kit);
        left = left.saturating_sub(amount);
        if left == 0 {
            break;
        }
    }
    handle
}

/// Watches until so many goods were given, and stops at some of the numbers before.
pub fn watch_all<'m, R: Wait>(
    rt: &R,
    mut handle: RowHandle<'m>,
    kit: &mut Kit<'_, '_>,
    goods: u64,
) -> RowHandle<'m> {
    let mut seen = 0;
    for _ in 0..goods {
        handle = do_some(rt, handle, kit);
        let next = u64::from(kit.draw(5)).saturating_add(seen).min(goods);
        let (back, done) = watch(rt, handle, kit, next);
        kit.expect(seen <= done, "what was given became less");
        kit.expect(done <= goods, "more was given than there is");
        handle = back;
        seen = done;
        if seen == goods {
            return handle;
        }
    }
    let (back, done) = watch(rt, handle, kit, goods);
    kit.expect(done == goods, "more was given than there is");
    back
}
