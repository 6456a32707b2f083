//! Threads that wait with a deadline for what doesn't come, and one that works beside them.

use crate::amount::{Amount, Count};
use crate::conditions::{ARRIVED, Awaited, SixHandle, TICK};
use crate::crowd::{add, wait_for_all};
use crate::steps::{LONG, Steps};
use ns_monitor::Answer;
use ns_note::watcher::Watcher;
use std::sync::Wait;

/// The moment at which the waits end, in ticks.
const END: u64 = 1;

/// Comes, waits for a mark that nobody sets, and leaves as the wait times out. Counts that.
pub fn wait_idly<R: Wait>(rt: &R, handle: SixHandle<'_>, mut watcher: Watcher<'_>) -> Count {
    let mut held = handle.lock(rt);
    add(&mut held, ARRIVED);
    let (held, answer) = held.wait_with_deadline(
        rt,
        Awaited::marked(1),
        Some(END),
        None,
        &mut watcher,
    );
    held.unlock(rt);
    Count::of_writes(u64::from(answer == Answer::TimedOut))
}

/// Works long, as often as there are operations, once all have come, and moves the clock to the moment at
/// which their waits end.
pub fn work_beside<'m, R: Wait>(
    rt: &R,
    handle: SixHandle<'m>,
    amount: Amount,
    watcher: &mut Watcher<'_>,
) -> SixHandle<'m> {
    let handle = wait_for_all(rt, handle, amount.threads);
    let steps = Steps::of_run(amount.operations);
    let mut value = 0u64;
    for _ in 0..amount.operations {
        value = steps.walk(value, LONG);
    }
    let mut held = handle.lock(rt);
    held.set(TICK, value);
    let handle = held.unlock(rt);
    watcher.advance(END);
    handle
}
