//! A turn that goes round among the threads: each waits for its own.

use crate::kit::{Kit, RowHandle};
use crate::sections::{do_some, leave};
use crate::waits::wait_until_met;
use crate::wish::{DONE, Wish};
use ns_monitor::Mode;
use std::sync::Wait;

/// Waits in a section that reads until this many turns are over, and answers how many are.
pub fn watch<'m, R: Wait>(
    rt: &R,
    handle: RowHandle<'m>,
    kit: &mut Kit<'_, '_>,
    turns: u64,
) -> (RowHandle<'m>, u64) {
    let held = handle.rlock(rt);
    kit.enter(Mode::Read);
    let mut held = wait_until_met(rt, held, Wish::done(turns), kit);
    let done = held.get(DONE);
    kit.door.leave(Mode::Read);
    (held.runlock(rt), done)
}

/// Waits until this ticket's turn has come, and hands the turn on.
fn take_turn<'m, R: Wait>(
    rt: &R,
    mut handle: RowHandle<'m>,
    kit: &mut Kit<'_, '_>,
    ticket: u64,
) -> RowHandle<'m> {
    if kit.draw(3) == 0 {
        let (back, done) = watch(rt, handle, kit, ticket);
        kit.expect(done == ticket, "a turn was taken from its reader");
        handle = back;
    }
    let held = handle.lock(rt);
    kit.enter(Mode::Write);
    let mut held = wait_until_met(rt, held, Wish::done(ticket), kit);
    let done = held.get(DONE);
    kit.expect(done == ticket, "a turn was taken from its writer");
    held.set(DONE, ticket.saturating_add(1));
    leave(rt, held, kit)
}

/// Takes so many turns, from the one of this number on, each so many behind the last.
pub fn take_turns<'m, R: Wait>(
    rt: &R,
    mut handle: RowHandle<'m>,
    kit: &mut Kit<'_, '_>,
    first: u64,
    apart: u64,
    turns: u64,
) -> RowHandle<'m> {
    let mut ticket = first;
    for _ in 0..turns {
        handle = do_some(rt, handle, kit);
        handle = take_turn(rt, handle, kit, ticket);
        ticket = ticket.saturating_add(apart);
    }
    handle
}
