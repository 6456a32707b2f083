//! The workload on the ring of `ns_fixtures` by condition variables: half of the threads put goods into it, and the
//! others take them. Who finds no room, or no item, waits for a variable, which the others signal.

ghost use Rattle.ns_fixtures.specs.Wishes.{IsMetIn};

use crate::amount::{Amount, Count};
use crate::running::{Job, Work, last_row, play};
use ns_fixtures::{RingHandle, RingHeld, RingMonitor, Wish, is_met, put, take};
use ns_monitor::Condition;
use ns_note::env::Env;
use ns_note::watcher::Watcher;
use std::alloc::Global;
use std::sync::Wait;
use std::thread::Threads;

/// The variable that is signaled once there is room.
const NOT_FULL: u8 = 0;

/// The variable that is signaled once there is an item.
const NOT_EMPTY: u8 = 1;

/// What a thread has of its own.
type Own<'m, 'e> = (RingHandle<'m>, Watcher<'e>);

/// Waits for the wish's variable until the wish is met: a wake tells nothing of the ring.
fn wait_until<'m, R: Wait>(
    rt: &R,
    mut held: RingHeld<'m>,
    wish: Wish,
    watcher: &mut Watcher<'_>,
) -> RingHeld<'m>
    ensures { IsMetIn wish result.held }
{
    let variable = match wish {
        Wish::Room => NOT_FULL,
        Wish::Item => NOT_EMPTY,
    };
    for _ in rt.forever() {
        if is_met(&mut held, wish) {
            return held;
        }
        (held, _) = held.cv_wait_with_deadline(rt, variable, None, None, watcher);
    }
    unreachable!()
}

/// Puts so many goods into the ring, each once there is room, and adds them up: how many were put before each.
fn put_all<R: Wait>(rt: &R, own: Own<'_, '_>, times: u64) -> Count {
    let (mut ring, mut watcher) = own;
    let mut count = Count::new();
    for _ in 0..times {
        let mut held = wait_until(rt, ring.lock(rt), Wish::Room, &mut watcher);
        put(&mut held, count.writes);
        held.signal(rt, NOT_EMPTY);
        ring = held.unlock(rt);
        count = count.with(count.writes).with_write();
    }
    count
}

/// Takes so many goods from the ring, each once there is one, and takes them off the sum.
fn take_all<R: Wait>(rt: &R, own: Own<'_, '_>, times: u64) -> Count {
    let (mut ring, mut watcher) = own;
    let mut count = Count::new();
    for _ in 0..times {
        let mut held = wait_until(rt, ring.lock(rt), Wish::Item, &mut watcher);
        let good = take(&mut held);
        held.signal(rt, NOT_FULL);
        ring = held.unlock(rt);
        count = count.with(0u64.wrapping_sub(good));
    }
    count
}

/// The workload.
#[derive(Clone, Copy)]
struct LiveByVariables;

impl<'m, 'e> Work<Own<'m, 'e>> for LiveByVariables {
    /// The first half of the threads put, and one half does as much as the other.
    fn work<R: Wait>(self, rt: &R, job: Job<Own<'m, 'e>>, amount: Amount) -> Count {
        match amount.half(job.number) {
            (true, times) => put_all(rt, job.own, times),
            (false, times) => take_all(rt, job.own, times),
        }
    }

    /// The ring is empty, and what was taken is what was put.
    fn is_right(self, own: Own<'m, 'e>, total: Count, _amount: Amount) -> bool {
        match last_row(own.0) {
            Some(row) => !Wish::Item.test(&row) && total.sum == 0,
            None => false,
        }
    }
}

/// Runs the workload, and answers whether the ring is empty in the end, what was taken is what was put, and
/// the lock is free; nothing where it could not be begun, or for an odd number of threads.
pub fn run<R: Threads + Wait + Sync>(rt: &R, alloc: Global, amount: Amount) -> Option<bool> {
    if amount.threads % 2 != 0 {
        return None;
    }
    let (monitor, seats) = RingMonitor::new(alloc, amount.seats()?).ok()?;
    let (env, env_seats) = Env::new(alloc, amount.seats()?).ok()?;
    let source = (monitor.handles(seats), env.watchers(env_seats));
    play(rt, alloc, LiveByVariables, amount, source)
}
