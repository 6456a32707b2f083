//! What a turn has done, in words.

use crate::sight::{Sight, both, either, has, only, without};
use ns_model::seats::Seats;
use std::alloc::AllocError;

/// Words for what was done to these threads, if there are any.
fn push_done(out: &mut String, words: &str, threads: Seats) -> Result<(), AllocError> {
    if threads == Seats::none() {
        return Ok(());
    }
    out.push_str(words)?;
    for thread in 0..64u8 {
        if has(threads, thread) {
            write!(out, " {thread}")?;
        }
    }
    Ok(())
}

/// Words for what was done, if it was.
fn push_if(out: &mut String, words: &str, is_done: bool) -> Result<(), AllocError> {
    if is_done { out.push_str(words) } else { Ok(()) }
}

/// Whether there is somebody in the second set who isn't in the first.
fn grew(before: Seats, after: Seats) -> bool {
    without(after, before) != Seats::none()
}

/// What a thread has done to itself in its turn.
fn push_own(out: &mut String, thread: u8, before: &Sight, after: &Sight) -> Result<(), AllocError> {
    let me = only(thread);
    let was_queued = both(before.queued(), me);
    let is_queued = both(after.queued(), me);
    push_if(
        out,
        ", takes the queues",
        before.queues.is_none() && after.queues.is_some(),
    )?;
    push_if(out, ", acquires", grew(before.holding(), after.holding()))?;
    push_if(out, ", queues", grew(was_queued, is_queued))?;
    push_if(out, ", leaves its list", grew(is_queued, was_queued))?;
    push_if(out, ", releases", grew(after.holding(), before.holding()))
}

/// What a thread has done to others in its turn: whom it has moved from a condition variable to the lock's
/// list, whom it has taken from their lists, and whom it has woken.
fn push_to_others(
    out: &mut String,
    thread: u8,
    before: &Sight,
    after: &Sight,
) -> Result<(), AllocError> {
    let me = only(thread);
    let moved = without(both(before.waiting(), after.lock), me);
    let taken = without(before.queued(), either(after.queued(), me));
    let woken = without(before.owed, after.owed);
    push_done(out, ", moves to the lock", moved)?;
    push_done(out, ", dequeues", taken)?;
    push_done(out, ", wakes", woken)?;
    push_if(
        out,
        ", puts the queues back",
        before.queues.is_some() && after.queues.is_none(),
    )
}

/// What a thread has done in its turn.
pub fn push_changes(
    out: &mut String,
    thread: u8,
    before: &Sight,
    after: &Sight,
) -> Result<(), AllocError> {
    push_own(out, thread, before, after)?;
    push_to_others(out, thread, before, after)
}
