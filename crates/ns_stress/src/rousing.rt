//! Wakes of those who wait for a variable between their turns, as long as anybody works.

ghost use Rattle.std.specs.Prelude.{◌<◌};

use crate::kit::{Kit, RowHandle};
use crate::sections::{leave, tick};
use ns_monitor::caller::Hand;
use ns_monitor::{Acting, Condition, Mode};
use std::sync::Wait;
use std::thread::yield_now;

/// One of the two variables by which somebody is roused again and again.
pub fn draw_variable(kit: &mut Kit<'_, '_>) -> u8
    ensures { result < 4 }
{
    2 + kit.draw(2) as u8
}

/// Signals or broadcasts one of the two variables, with or without a section in hand.
pub fn rouse<H: Hand<C, N>, C: Condition<N>, const N: usize, R: Wait>(
    rt: &R,
    caller: &mut Acting<'_, H, C, N>,
    kit: &mut Kit<'_, '_>,
) {
    let variable = draw_variable(kit);
    if kit.draw(2) == 0 {
        caller.signal(rt, variable);
    } else {
        caller.broadcast(rt, variable);
    }
}

/// Rouses once, and mostly moves the clock on, so that nobody waits for ever.
fn rouse_once<'m, R: Wait>(
    rt: &R,
    mut handle: RowHandle<'m>,
    kit: &mut Kit<'_, '_>,
) -> RowHandle<'m> {
    match kit.draw(4) {
        0 => {
            let mut held = handle.lock(rt);
            kit.enter(Mode::Write);
            rouse(rt, &mut held, kit);
            handle = leave(rt, held, kit);
        }
        1 => rouse(rt, &mut handle, kit),
        _ => tick(kit),
    }
    handle
}

/// Rouses again and again until all others have done their work.
pub fn rouse_all<'m, R: Wait>(
    rt: &R,
    mut handle: RowHandle<'m>,
    kit: &mut Kit<'_, '_>,
) -> RowHandle<'m> {
    for _ in rt.forever() {
        if kit.door.is_quiet() {
            return handle;
        }
        handle = rouse_once(rt, handle, kit);
        yield_now();
    }
    unreachable!()
}
