//! Threads of which some make long sections that read.

use crate::amount::Count;
use crate::conditions::{STOP, SixHandle};
use crate::crowd::add_one_at;
use crate::mixed::Draws;
use crate::steps::{LONG, Steps};
use std::sync::Wait;

/// The cell that the long sections work on.
const WORK: usize = 5;

/// How many sections a reader makes at most until it is told to leave.
const MOST_READS: u64 = 4_000_000;

/// Makes a long section that reads, and answers what it found and whether it is to leave.
fn read_long<'m, R: Wait>(
    rt: &R,
    handle: SixHandle<'m>,
    steps: Steps,
) -> (SixHandle<'m>, u64, bool) {
    let mut held = handle.rlock(rt);
    let stops = held.get(STOP) == 1;
    let value = held.get(0);
    let value = steps.walk(value, LONG);
    (held.runlock(rt), value, stops)
}

/// Makes a long section that writes.
fn write_long<'m, R: Wait>(rt: &R, handle: SixHandle<'m>, steps: Steps) -> SixHandle<'m> {
    let mut held = handle.lock(rt);
    let value = held.get(WORK);
    held.set(WORK, steps.walk(value, LONG));
    let count = held.get(0);
    held.set(0, count.wrapping_add(1));
    held.unlock(rt)
}

/// Makes so many long sections, as the draws ask for them.
pub fn mix_long<R: Wait>(
    rt: &R,
    mut handle: SixHandle<'_>,
    times: u64,
    draws: Draws,
    steps: Steps,
) -> Count {
    let mut draws = draws;
    let mut count = Count::new();
    for _ in 0..times {
        draws = draws.next();
        if draws.asks_to_read() {
            let (back, value, _) = read_long(rt, handle, steps);
            handle = back;
            count = count.with(value);
        } else {
            handle = write_long(rt, handle, steps);
            count = count.with_write();
        }
    }
    count
}

/// Makes so many short sections that write, with work between them, and then tells the readers to leave.
pub fn write_beside<R: Wait>(rt: &R, mut handle: SixHandle<'_>, times: u64, steps: Steps) -> Count {
    let mut sum = 0;
    for _ in 0..times {
        handle = add_one_at(rt, handle, 0);
        sum = steps.walk(sum, LONG);
    }
    add_one_at(rt, handle, STOP);
    Count { writes: times, sum }
}

/// Makes long sections that read until it is told to leave.
pub fn read_until_told<R: Wait>(rt: &R, mut handle: SixHandle<'_>, steps: Steps) -> Count {
    let mut count = Count::new();
    for _ in 0..MOST_READS {
        let (back, value, stops) = read_long(rt, handle, steps);
        handle = back;
        count = count.with(value);
        if stops {
            break;
        }
    }
    count
}
