//! Sections on a row of one cell: of one thread alone, or of several that contend for the lock.

use crate::amount::Count;
use crate::mixed::Draws;
use crate::never::OneHandle;
use crate::steps::{LONG, SHORT, Steps};
use std::sync::Wait;

/// Adds 1 to the cell.
#[inline(always)]
fn add_one<'m, R: Wait>(rt: &R, handle: OneHandle<'m>) -> OneHandle<'m> {
    let mut held = handle.lock(rt);
    let value = held.get(0);
    held.set(0, value.wrapping_add(1));
    held.unlock(rt)
}

/// Reads the cell.
#[inline(always)]
fn read_one<'m, R: Wait>(rt: &R, handle: OneHandle<'m>) -> (OneHandle<'m>, u64) {
    let mut held = handle.rlock(rt);
    let value = held.get(0);
    (held.runlock(rt), value)
}

/// Adds 1 to the cell in each of so many sections.
///
/// In the loops that are measured with one thread each call stands by itself: what calls several grows too large
/// for the compiler to inline.
pub fn lock<R: Wait>(rt: &R, mut handle: OneHandle<'_>, times: u64) -> Count {
    for _ in 0..times {
        let mut held = handle.lock(rt);
        let value = held.get(0);
        held.set(0, value.wrapping_add(1));
        handle = held.unlock(rt);
    }
    Count::of_writes(times)
}

/// Adds 1 to the cell in each of so many sections that are tried for, of which each has to succeed.
pub fn try_lock<R: Wait>(rt: &R, mut handle: OneHandle<'_>, times: u64) -> Count {
    for _ in 0..times {
        let Ok(mut held) = handle.try_lock() else {
            return Count::new();
        };
        let value = held.get(0);
        held.set(0, value.wrapping_add(1));
        handle = held.unlock(rt);
    }
    Count::of_writes(times)
}

/// Adds up the cell, read in each of so many sections.
pub fn read_lock<R: Wait>(rt: &R, mut handle: OneHandle<'_>, times: u64) -> Count {
    let mut count = Count::new();
    for _ in 0..times {
        let mut held = handle.rlock(rt);
        count = count.with(held.get(0));
        handle = held.runlock(rt);
    }
    count
}

/// Adds up the cell, read in each of so many sections that are tried for.
pub fn try_read_lock<R: Wait>(rt: &R, mut handle: OneHandle<'_>, times: u64) -> Count {
    let mut count = Count::new();
    for _ in 0..times {
        handle = match handle.try_rlock() {
            Ok(mut held) => {
                count = count.with(held.get(0));
                held.runlock(rt)
            }
            Err(back) => back,
        };
    }
    count
}

/// Makes so many sections, as the draws ask for them: reads the cell, or adds 1 to it.
pub fn mix<R: Wait>(rt: &R, mut handle: OneHandle<'_>, times: u64, draws: Draws) -> Count {
    let mut draws = draws;
    let mut count = Count::new();
    for _ in 0..times {
        draws = draws.next();
        if draws.asks_to_read() {
            let (back, value) = read_one(rt, handle);
            handle = back;
            count = count.with(value);
        } else {
            handle = add_one(rt, handle);
            count = count.with_write();
        }
    }
    count
}

/// Signals a variable so many times, each without a section, and adds them up.
pub fn signal<R: Wait>(rt: &R, mut handle: OneHandle<'_>, times: u64) -> Count {
    let mut count = Count::new();
    for _ in 0..times {
        handle.signal(rt, 0);
        count = count.with(1);
    }
    count
}

/// Works long on the cell in each of so many sections.
pub fn lock_long<R: Wait>(rt: &R, mut handle: OneHandle<'_>, times: u64, steps: Steps) -> Count {
    for _ in 0..times {
        let mut held = handle.lock(rt);
        let value = held.get(0);
        held.set(0, steps.walk(value, LONG));
        handle = held.unlock(rt);
    }
    Count::of_writes(times)
}

/// Adds 1 to the cell in each of so many sections, and works long without the lock behind each.
pub fn lock_and_work<R: Wait>(
    rt: &R,
    mut handle: OneHandle<'_>,
    times: u64,
    steps: Steps,
) -> Count {
    let mut sum = 0;
    for _ in 0..times {
        handle = add_one(rt, handle);
        sum = steps.walk(sum, LONG);
    }
    Count { writes: times, sum }
}

/// Adds 1 to the cell in sections that follow one another until it is this, with short work between them.
pub fn compete<R: Wait>(rt: &R, mut handle: OneHandle<'_>, most: u64, steps: Steps) -> Count {
    let mut count = Count::new();
    for _ in 0..most.saturating_add(1) {
        let mut held = handle.lock(rt);
        let value = held.get(0);
        if value >= most {
            held.unlock(rt);
            break;
        }
        held.set(0, value.wrapping_add(1));
        handle = held.unlock(rt);
        count.writes = count.writes.wrapping_add(1);
        count.sum = steps.walk(count.sum, SHORT);
    }
    count
}
