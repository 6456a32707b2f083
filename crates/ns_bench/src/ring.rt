//! The workload on the ring of `ns_fixtures`: half of the threads put goods into it, and the others take them.
//!
//! Its monitor is a [`RingMonitor`], with a row of seven cells: a put reads two of them and sets two, and a
//! take reads four and sets three. A wait is for room, or for an item, which one cell tells.

use crate::amount::{Amount, Count};
use crate::running::{Job, Work, last_row, play};
use ns_fixtures::{RingHandle, RingMonitor, Wish, put, take};
use ns_monitor::Condition;
use std::alloc::Global;
use std::sync::Wait;
use std::thread::Threads;

/// Puts so many goods into the ring, each once there is room, and adds them up: how many were put before each.
fn put_all<R: Wait>(rt: &R, mut ring: RingHandle<'_>, times: u64) -> Count {
    let mut count = Count::new();
    for _ in 0..times {
        let mut held = ring.lock(rt).wait(rt, Wish::Room);
        put(&mut held, count.writes);
        ring = held.unlock(rt);
        count = count.with(count.writes).with_write();
    }
    count
}

/// Takes so many goods from the ring, each once there is one, and takes them off the sum.
fn take_all<R: Wait>(rt: &R, mut ring: RingHandle<'_>, times: u64) -> Count {
    let mut count = Count::new();
    for _ in 0..times {
        let mut held = ring.lock(rt).wait(rt, Wish::Item);
        let good = take(&mut held);
        ring = held.unlock(rt);
        count = count.with(0u64.wrapping_sub(good));
    }
    count
}

/// The workload.
#[derive(Clone, Copy)]
struct Live;

impl<'m> Work<RingHandle<'m>> for Live {
    /// The first half of the threads put, and one half does as much as the other.
    fn work<R: Wait>(self, rt: &R, job: Job<RingHandle<'m>>, amount: Amount) -> Count {
        match amount.half(job.number) {
            (true, times) => put_all(rt, job.own, times),
            (false, times) => take_all(rt, job.own, times),
        }
    }

    /// The ring is empty, and what was taken is what was put.
    fn is_right(self, ring: RingHandle<'m>, total: Count, _amount: Amount) -> bool {
        match last_row(ring) {
            Some(row) => !Wish::Item.test(&row) && total.sum == 0,
            None => false,
        }
    }
}

/// Runs the workload, and answers whether the ring is empty in the end, what was taken is what was put, and
/// the lock is free; nothing where it could not be begun, or for an odd number of threads.
pub fn run<R: Threads + Wait + Sync>(rt: &R, alloc: Global, amount: Amount) -> Option<bool> {
    if amount.threads % 2 != 0 {
        return None;
    }
    let (monitor, seats) = RingMonitor::new(alloc, amount.seats()?).ok()?;
    play(rt, alloc, Live, amount, monitor.handles(seats))
}
