//! Waiters, each in a thread of its own, and one who works beside them.

ghost use Rattle.std.specs.Prelude.{◌<◌};

use crate::amount::{Amount, Count};
use crate::conditions::{ANSWER, ARRIVED, Awaited, MARKS, STOP, SixHandle, SixWriting, TICK};
use std::sync::Wait;

/// The mark of a number.
pub fn mark_of(number: u64) -> u64 {
    1u64.wrapping_shl((number % 64) as u32)
}

/// The marks of the first so many numbers.
pub fn marks_below(threads: u64) -> u64 {
    if threads < 64 {
        mark_of(threads).wrapping_sub(1)
    } else {
        u64::MAX
    }
}

/// Adds 1 to a cell of the section in hand.
pub fn add(held: &mut SixWriting<'_>, i: usize)
    requires { i < 6 }
{
    let value = held.get(i);
    held.set(i, value.wrapping_add(1));
}

/// Comes, waits for a mark, and leaves. Counts nothing.
pub fn wait_once<R: Wait>(rt: &R, handle: SixHandle<'_>, mask: u64) -> Count {
    let mut held = handle.lock(rt);
    add(&mut held, ARRIVED);
    held.wait(rt, Awaited::marked(mask)).unlock(rt);
    Count::new()
}

/// Waits until so many have come.
pub fn wait_for_all<'m, R: Wait>(rt: &R, handle: SixHandle<'m>, threads: u64) -> SixHandle<'m> {
    let held = handle.lock(rt).wait(rt, Awaited::arrived(threads));
    held.unlock(rt)
}

/// Tells all waiters to go on and to leave.
pub fn dismiss<'m, R: Wait>(rt: &R, handle: SixHandle<'m>, threads: u64) -> SixHandle<'m> {
    let mut held = handle.lock(rt);
    held.set(STOP, 1);
    held.set(MARKS, marks_below(threads));
    held.unlock(rt)
}

/// Adds 1 to a cell in a section of its own.
pub fn add_one_at<'m, R: Wait>(rt: &R, handle: SixHandle<'m>, i: usize) -> SixHandle<'m>
    requires { i < 6 }
{
    let mut held = handle.lock(rt);
    add(&mut held, i);
    held.unlock(rt)
}

/// Adds 1 to the cell for which nobody waits, in each of so many sections whose release looks for whom to
/// wake.
pub fn tick<'m, R: Wait>(rt: &R, mut handle: SixHandle<'m>, times: u64) -> SixHandle<'m> {
    for _ in 0..times {
        let mut held = handle.lock(rt);
        let value = held.get(TICK);
        held.set(TICK, value.wrapping_add(1));
        handle = held.unlock(rt);
    }
    handle
}

/// Adds 1 to the cell for which nobody waits, in each of so many sections, which wake nobody as long as they
/// are quiet.
pub fn tick_quietly<'m, R: Wait>(rt: &R, mut handle: SixHandle<'m>, times: u64) -> SixHandle<'m> {
    for _ in 0..times {
        let mut held = handle.lock(rt);
        add(&mut held, TICK);
        handle = if held.is_quiet() {
            held.unlock_without_wakeup(rt)
        } else {
            held.unlock(rt)
        };
    }
    handle
}

/// Reads how many have come, in each of so many sections, and puts the sum into the cell for which nobody
/// waits.
pub fn read_beside<'m, R: Wait>(rt: &R, mut handle: SixHandle<'m>, times: u64) -> SixHandle<'m> {
    let mut sum = 0u64;
    for _ in 0..times {
        let mut held = handle.rlock(rt);
        sum = sum.wrapping_add(held.get(ARRIVED));
        handle = held.runlock(rt);
    }
    let mut held = handle.lock(rt);
    held.set(TICK, sum);
    held.unlock(rt)
}

/// Comes, and waits for a mark, takes it off and answers, so many times at most, until it is told to
/// leave. Counts nothing.
pub fn wait_and_answer<R: Wait>(rt: &R, handle: SixHandle<'_>, mask: u64, times: u64) -> Count {
    let mut held = handle.lock(rt);
    add(&mut held, ARRIVED);
    for _ in 0..times {
        held = held.wait(rt, Awaited::marked(mask));
        if held.get(STOP) == 1 {
            break;
        }
        let marks = held.get(MARKS);
        held.set(MARKS, marks & !mask);
        held.set(ANSWER, 1);
        held = held.unlock(rt).lock(rt);
    }
    held.unlock(rt);
    Count::new()
}

/// Marks one and waits for the answer.
fn ask<'m, R: Wait>(rt: &R, handle: SixHandle<'m>, mask: u64) -> SixHandle<'m> {
    let mut held = handle.lock(rt);
    held.set(MARKS, mask);
    let mut held = held.wait(rt, Awaited::answered());
    held.set(ANSWER, 0);
    add(&mut held, TICK);
    held.unlock(rt)
}

/// Marks one and waits for the answer, in each of the operations: always the first, or each in turn.
pub fn ask_often<'m, R: Wait>(
    rt: &R,
    mut handle: SixHandle<'m>,
    amount: Amount,
    is_each: bool,
) -> SixHandle<'m> {
    for k in 0..amount.operations {
        let number = k.checked_rem(amount.threads).unwrap_or(0);
        let number = if is_each { number } else { 0 };
        handle = ask(rt, handle, mark_of(number));
    }
    handle
}
