//! Two threads that hand a turn to and fro.

use crate::amount::Count;
use crate::conditions::{Awaited, SixHandle};
use std::sync::Wait;

/// Waits for its turn, and hands it to the other of two threads, so many times.
pub fn take_turns<R: Wait>(rt: &R, mut handle: SixHandle<'_>, number: u64, times: u64) -> Count {
    for _ in 0..times {
        let mut held = handle.lock(rt).wait(rt, Awaited::within(number, number));
        held.set(0, 1u64.saturating_sub(number));
        handle = held.unlock(rt);
    }
    Count::of_writes(times)
}
