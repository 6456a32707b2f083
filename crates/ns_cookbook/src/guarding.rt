//! A value behind a lock.

ghost use Rattle.std.specs.Thread.{IsSync};

use ns_fixtures::{AtLeast, Never};
use ns_monitor::{Handle, Monitor, Reading};
use std::alloc::Global;
use std::sync::Wait;
use std::thread::{Threads, join};

/// Adds 1 to the cell, a hundred times.
fn count<'m, R: Wait>(rt: &R, mut lock: Handle<'m, Never, 1>) -> Handle<'m, Never, 1> {
    for _ in 0..100 {
        let mut held = match lock.try_lock() {
            Ok(held) => held,
            Err(lock) => lock.lock(rt), // it was busy, so wait for it
        };
        let sum = held.get(0);
        held.set(0, sum.wrapping_add(1));
        lock = held.unlock(rt);
    }
    lock
}

/// A guarded value: two threads count in one cell.
pub fn guarded_value<R: Threads + Wait + Sync>(rt: &R, alloc: Global) -> Option<u64> {
    let (monitor, seats) = Monitor::new(alloc, 2).ok()?;
    let (one, two) = monitor.handles(seats).pair()?;
    let (lock, _) = join(
        rt,
        move || -> Handle<Never, 1>
            requires { IsSync R.row }
        { count(rt, one) },
        move || -> Handle<Never, 1>
            requires { IsSync R.row }
        { count(rt, two) },
    );
    let mut held = lock.rlock(rt);
    let sum = held.get(0);
    held.runlock(rt);
    Some(sum)
}

/// Sets both cells to the same number, a hundred times.
fn write<R: Wait>(rt: &R, mut lock: Handle<AtLeast, 2>) {
    for number in 1..=100 {
        let mut held = lock.lock(rt);
        held.set(0, number);
        held.set(1, number);
        lock = held.unlock(rt);
    }
}

/// How often the cells differ, of a hundred times.
fn read<R: Wait>(rt: &R, mut lock: Handle<AtLeast, 2>) -> u64 {
    let mut torn = 0u64;
    for _ in 0..100 {
        let mut held = lock.rlock(rt); // the other reader may have it, too
        if held.get(0) != held.get(1) {
            torn = torn.wrapping_add(1);
        }
        lock = held.runlock(rt);
    }
    torn
}

/// Two read beside each other.
fn read_both<R: Threads + Wait + Sync>(
    rt: &R,
    one: Handle<AtLeast, 2>,
    two: Handle<AtLeast, 2>,
) -> u64 {
    let (torn, also) = join(
        rt,
        move || -> u64
            requires { IsSync R.row }
        { read(rt, one) },
        move || -> u64
            requires { IsSync R.row }
        { read(rt, two) },
    );
    torn.wrapping_add(also)
}

/// Readers and a writer: no reader finds half of a change.
pub fn readers_and_a_writer<R: Threads + Wait + Sync>(rt: &R, alloc: Global) -> Option<u64> {
    let (monitor, seats) = Monitor::new(alloc, 3).ok()?;
    let mut handles = monitor.handles(seats);
    let writer = handles.next()?;
    let (one, two) = handles.pair()?;
    let ((), torn) = join(
        rt,
        move ||
            requires { IsSync R.row }
        { write(rt, writer) },
        move || -> u64
            requires { IsSync R.row }
        { read_both(rt, one, two) },
    );
    Some(torn)
}

/// A release that promises to wake nobody by what its section has changed: no condition that is known to be
/// false is tested. `is_quiet` asks the condition type whether that change can have made one true.
pub fn quiet_release<R: Wait>(rt: &R, alloc: Global) -> Option<bool> {
    let (monitor, seats) = Monitor::new(alloc, 1).ok()?;
    let lock: Handle<AtLeast, 2> = monitor.handles(seats).next()?;
    let mut held = lock.lock(rt);
    held.set(1, 7); // conditions are on cell 0
    let is_quiet = held.is_quiet();
    if is_quiet {
        held.unlock_without_wakeup(rt);
    } else {
        held.unlock(rt);
    }
    Some(is_quiet)
}

/// What the debug call shows: the lock word, and who waits.
pub fn debug_call<R: Wait>(rt: &R, alloc: Global) -> Option<(bool, u8, usize)> {
    let (monitor, seats) = Monitor::new(alloc, 2).ok()?;
    let (one, mut two) = monitor.handles(seats).pair()?;
    let held: Reading<'_, Never, 1> = one.rlock(rt);
    let state = two.debug_state_and_waiters(rt);
    held.runlock(rt);
    Some((state.word.write, state.word.readers, state.lock.len()))
}
