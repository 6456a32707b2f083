//! What a thread does between its turns: short sections of all kinds, the clock and the notes.

use crate::kit::{Kit, RowHandle, RowReading, RowWriting};
use crate::rousing::rouse;
use crate::waits::wait_to_be_roused;
use crate::wish::{GOODS, ROOM, SUM, Wish};
use ns_monitor::Mode;
use ns_note::note::Note;
use std::sync::Wait;
use std::thread::yield_now;

/// No clock is moved to a later moment.
pub const FAR_MOMENT: u64 = 1 << 50;

/// Ends a section that writes; where it is quiet, mostly without looking for those that it could wake. Some
/// rouse those who wait for a variable.
pub fn leave<'m, R: Wait>(
    rt: &R,
    mut held: RowWriting<'m>,
    kit: &mut Kit<'_, '_>,
) -> RowHandle<'m> {
    if kit.draw(8) == 0 {
        rouse(rt, &mut held, kit);
    }
    let plainly = kit.draw(4) == 0;
    let quiet = held.is_quiet();
    kit.door.leave(Mode::Write);
    if quiet && !plainly {
        held.unlock_without_wakeup(rt)
    } else {
        held.unlock(rt)
    }
}

/// Adds something to the sum in the section in hand, which leaves a quiet section quiet.
fn add(held: &mut RowWriting<'_>, kit: &mut Kit<'_, '_>) {
    let amount = u64::from(kit.draw(10));
    let sum = held.get(SUM);
    held.set(SUM, sum.saturating_add(amount));
    kit.outcome.added = kit.outcome.added.saturating_add(amount);
}

/// Adds to the sum in a section of its own.
fn add_alone<'m, R: Wait>(rt: &R, handle: RowHandle<'m>, kit: &mut Kit<'_, '_>) -> RowHandle<'m> {
    let mut held = handle.lock(rt);
    kit.enter(Mode::Write);
    add(&mut held, kit);
    let quiet = held.is_quiet();
    kit.expect(quiet, "an addition isn't quiet");
    leave(rt, held, kit)
}

/// Compares goods and room in the section in hand, which has just begun, and ends it.
fn look<'m, R: Wait>(rt: &R, mut held: RowReading<'m>, kit: &mut Kit<'_, '_>) -> RowHandle<'m> {
    kit.enter(Mode::Read);
    let goods = held.get(GOODS);
    let room = held.get(ROOM);
    let right = goods.checked_add(room) == Some(kit.most);
    kit.expect(right, "goods and room are not of one moment");
    kit.door.leave(Mode::Read);
    held.runlock(rt)
}

/// Adds to the sum, or looks, in a section of its own in this mode, if a try to lock succeeds.
fn try_section<'m, R: Wait>(
    rt: &R,
    handle: RowHandle<'m>,
    kit: &mut Kit<'_, '_>,
    mode: Mode,
) -> RowHandle<'m> {
    match mode {
        Mode::Write => match handle.try_lock() {
            Ok(mut held) => {
                kit.enter(mode);
                add(&mut held, kit);
                leave(rt, held, kit)
            }
            Err(handle) => handle,
        },
        Mode::Read => match handle.try_rlock() {
            Ok(held) => look(rt, held, kit),
            Err(handle) => handle,
        },
    }
}

/// Waits in a section of its own in this mode until it is roused.
fn doze<'m, R: Wait>(
    rt: &R,
    handle: RowHandle<'m>,
    kit: &mut Kit<'_, '_>,
    mode: Mode,
) -> RowHandle<'m> {
    match mode {
        Mode::Write => {
            let held = handle.lock(rt);
            kit.enter(mode);
            let held = wait_to_be_roused(rt, held, kit);
            leave(rt, held, kit)
        }
        Mode::Read => {
            let held = handle.rlock(rt);
            kit.enter(mode);
            let held = wait_to_be_roused(rt, held, kit);
            kit.door.leave(mode);
            held.runlock(rt)
        }
    }
}

/// Moves the clock on by a tick.
pub fn tick(kit: &mut Kit<'_, '_>) {
    let now = kit.watcher.now();
    if now < FAR_MOMENT {
        kit.watcher.advance(now + 1);
    }
}

/// Makes a note, or notifies one that is made, if the draw finds one.
fn change_notes(kit: &mut Kit<'_, '_>) {
    if kit.draw(4) == 0 {
        let index = kit.draw(64) as u8;
        let note = Note { index };
        if kit.watcher.knows(note) {
            kit.watcher.notify(note);
        }
    } else {
        let _ = kit.watcher.note_new(None, None);
    }
}

/// Does something that is drawn.
fn do_something<'m, R: Wait>(
    rt: &R,
    mut handle: RowHandle<'m>,
    kit: &mut Kit<'_, '_>,
) -> RowHandle<'m> {
    match kit.draw(10) {
        0 => return add_alone(rt, handle, kit),
        1 => return try_section(rt, handle, kit, Mode::Write),
        2 => return look(rt, handle.rlock(rt), kit),
        3 => return try_section(rt, handle, kit, Mode::Read),
        4 => tick(kit),
        5 => change_notes(kit),
        6 => return doze(rt, handle, kit, Mode::Write),
        7 => return doze(rt, handle, kit, Mode::Read),
        8 => rouse(rt, &mut handle, kit),
        _ => yield_now(),
    }
    handle
}

/// Does up to three things that are drawn.
pub fn do_some<'m, R: Wait>(
    rt: &R,
    mut handle: RowHandle<'m>,
    kit: &mut Kit<'_, '_>,
) -> RowHandle<'m> {
    for _ in 0..kit.draw(4) {
        handle = do_something(rt, handle, kit);
    }
    handle
}
