//! Sleepers that wait for a variable, and one who calls: whom a call has to wake is known.
//!
//! Each sleeper says that it comes and waits in one section. So once all have come, all are among the
//! variable's waiters, and each signal wakes one, and a broadcast all. Behind its call the caller moves the
//! clock to the moment at which the others give up: a wake that is lost shows in the counts.

ghost use Rattle.std.specs.Prelude.{◌<◌, ◌^◌};

use crate::kit::{Kit, RowHandle};
use crate::sections::{FAR_MOMENT, do_some, leave};
use crate::waits::wait_until_met;
use crate::wish::{DONE, Wish};
use ns_monitor::caller::Hand;
use ns_monitor::{Acting, Answer, Condition, Mode};
use std::sync::Wait;

/// The variable of the call of this number: not that of the last or the next, nor one by which is roused.
fn variable_of(call: u64) -> u8
    ensures { result < 4 }
{
    (call % 2) as u8
}

/// The moment at which those give up who weren't woken by the call of this number. No ticks lead there from
/// the last.
fn moment_of(call: u64) -> u64
    ensures { result < 2 ^ 54 }
{
    call.saturating_add(1)
        .saturating_mul(1 << 32)
        .min(FAR_MOMENT)
}

/// Comes, and sleeps until it is woken by a call or gives up.
fn sleep_once<'m, R: Wait>(
    rt: &R,
    handle: RowHandle<'m>,
    kit: &mut Kit<'_, '_>,
    call: u64,
) -> RowHandle<'m> {
    let mut held = handle.lock(rt);
    kit.enter(Mode::Write);
    let come = held.get(DONE).wrapping_add(1);
    held.set(DONE, come);
    kit.door.leave(Mode::Write);
    let moment = moment_of(call);
    let (held, answer) = held.cv_wait_with_deadline(
        rt,
        variable_of(call),
        Some(moment),
        None,
        &mut kit.watcher,
    );
    kit.enter(Mode::Write);
    if answer == Answer::Met {
        kit.outcome.woken = kit.outcome.woken.saturating_add(1);
    } else {
        let now = kit.watcher.now();
        let right = answer == Answer::TimedOut && moment <= now;
        kit.expect(right, "a sleeper gives up too early");
    }
    leave(rt, held, kit)
}

/// Sleeps until each of so many calls.
pub fn sleep<'m, R: Wait>(
    rt: &R,
    mut handle: RowHandle<'m>,
    kit: &mut Kit<'_, '_>,
    calls: u64,
) -> RowHandle<'m> {
    for call in 0..calls {
        handle = do_some(rt, handle, kit);
        handle = sleep_once(rt, handle, kit, call);
    }
    handle
}

/// Wakes all of so many sleepers, or some, as is drawn, and counts them.
fn wake<H: Hand<C, N>, C: Condition<N>, const N: usize, R: Wait>(
    rt: &R,
    caller: &mut Acting<'_, H, C, N>,
    kit: &mut Kit<'_, '_>,
    call: u64,
    sleepers: u64,
) {
    let variable = variable_of(call);
    if kit.draw(2) == 0 {
        caller.broadcast(rt, variable);
        kit.outcome.called = kit.outcome.called.saturating_add(sleepers);
        return;
    }
    let signals = u64::from(kit.draw(8)).min(sleepers);
    for _ in 0..signals {
        caller.signal(rt, variable);
    }
    kit.outcome.called = kit.outcome.called.saturating_add(signals);
}

/// Waits until so many sleepers have come, and wakes them, in its section or behind it; then those who
/// weren't woken give up.
fn call_once<'m, R: Wait>(
    rt: &R,
    handle: RowHandle<'m>,
    kit: &mut Kit<'_, '_>,
    call: u64,
    sleepers: u64,
) -> RowHandle<'m> {
    let come = call.saturating_add(1).saturating_mul(sleepers);
    let held = handle.lock(rt);
    kit.enter(Mode::Write);
    let mut held = wait_until_met(rt, held, Wish::done(come), kit);
    let is_inside = kit.draw(2) == 0;
    if is_inside {
        wake(rt, &mut held, kit, call, sleepers);
    }
    let mut handle = leave(rt, held, kit);
    if !is_inside {
        wake(rt, &mut handle, kit, call, sleepers);
    }
    kit.watcher.advance(moment_of(call));
    handle
}

/// Makes so many calls, each once all of so many sleepers have come.
pub fn make_calls<'m, R: Wait>(
    rt: &R,
    mut handle: RowHandle<'m>,
    kit: &mut Kit<'_, '_>,
    calls: u64,
    sleepers: u64,
) -> RowHandle<'m> {
    for call in 0..calls {
        handle = do_some(rt, handle, kit);
        handle = call_once(rt, handle, kit, call, sleepers);
    }
    handle
}
