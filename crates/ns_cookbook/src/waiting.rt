//! Waits for a condition on the row, and for a condition variable.

ghost use Rattle.std.specs.Prelude.{◌<◌};
ghost use Rattle.std.specs.Thread.{IsSync};
ghost use Rattle.ns_fixtures.specs.Wishes.{IsMetIn};

use ns_fixtures::{AtLeast, RingHandle, RingHeld, Wish, is_met, put, take};
use ns_monitor::{Handle, Monitor};
use ns_note::env::Env;
use ns_note::watcher::{Watcher, Watchers};
use std::alloc::Global;
use std::sync::Wait;
use std::thread::{Threads, join};

/// Waits until cell 0 is at least 3, and answers what it is.
fn wait_for_three<R: Wait>(rt: &R, lock: Handle<AtLeast, 2>) -> u64 {
    let mut held = lock.lock(rt).wait(rt, AtLeast { least: 3 });
    let found = held.get(0);
    held.unlock(rt);
    found
}

/// Sets cell 0.
fn set<R: Wait>(rt: &R, lock: Handle<AtLeast, 2>, value: u64) {
    let mut held = lock.lock(rt);
    held.set(0, value);
    held.unlock(rt); // tests the conditions of those who wait, and wakes who can go on
}

/// Waiting for a condition: nobody signals.
pub fn condition<R: Threads + Wait + Sync>(rt: &R, alloc: Global) -> Option<u64> {
    let (monitor, seats) = Monitor::new(alloc, 2).ok()?;
    let (one, two) = monitor.handles(seats).pair()?;
    let (found, ()) = join(
        rt,
        move || -> u64
            requires { IsSync R.row }
        { wait_for_three(rt, one) },
        move ||
            requires { IsSync R.row }
        { set(rt, two, 3) },
    );
    Some(found)
}

/// Puts the numbers 1 to 100 into the ring, once there is room for each.
fn send<R: Wait>(rt: &R, mut ring: RingHandle<'_>) {
    for number in 1..=100 {
        let mut held = ring.lock(rt).wait(rt, Wish::Room); // without it `put` isn't proved
        put(&mut held, number);
        ring = held.unlock(rt);
    }
}

/// Takes a hundred numbers out of the ring, and adds them.
fn receive<R: Wait>(rt: &R, mut ring: RingHandle<'_>) -> u64 {
    let mut sum = 0u64;
    for _ in 0..100 {
        let mut held = ring.lock(rt).wait(rt, Wish::Item); // without it `take` isn't proved
        sum = sum.wrapping_add(take(&mut held));
        ring = held.unlock(rt);
    }
    sum
}

/// A bounded queue by conditions.
pub fn queue_by_conditions<R: Threads + Wait + Sync>(rt: &R, alloc: Global) -> Option<u64> {
    let (monitor, seats) = Monitor::new(alloc, 2).ok()?;
    let (one, two) = monitor.handles(seats).pair()?;
    let ((), sum) = join(
        rt,
        move ||
            requires { IsSync R.row }
        { send(rt, one) },
        move || -> u64
            requires { IsSync R.row }
        { receive(rt, two) },
    );
    Some(sum)
}

const NOT_FULL: u8 = 0;

const NOT_EMPTY: u8 = 1;

/// Waits for the variable until the wish is met: a wake tells nothing of the ring.
fn wait_until<'m, R: Wait>(
    rt: &R,
    mut held: RingHeld<'m>,
    wish: Wish,
    variable: u8,
    watcher: &mut Watcher<'_>,
) -> RingHeld<'m>
    requires { variable < 4 }
    ensures { IsMetIn wish result.held }
{
    for _ in rt.forever() {
        if is_met(&mut held, wish) {
            return held;
        }
        (held, _) = held.cv_wait_with_deadline(rt, variable, None, None, watcher);
    }
    unreachable!()
}

/// Puts the numbers 1 to 100 into the ring, and signals for each.
fn signal_each<R: Wait>(rt: &R, mut ring: RingHandle<'_>, mut watcher: Watcher<'_>) {
    for number in 1..=100 {
        let mut held = wait_until(rt, ring.lock(rt), Wish::Room, NOT_FULL, &mut watcher);
        put(&mut held, number);
        held.signal(rt, NOT_EMPTY);
        ring = held.unlock(rt);
    }
}

/// Takes a hundred numbers out of the ring, signals for each, and adds them.
fn take_each<R: Wait>(rt: &R, mut ring: RingHandle<'_>, mut watcher: Watcher<'_>) -> u64 {
    let mut sum = 0u64;
    for _ in 0..100 {
        let mut held = wait_until(rt, ring.lock(rt), Wish::Item, NOT_EMPTY, &mut watcher);
        sum = sum.wrapping_add(take(&mut held));
        held.signal(rt, NOT_FULL);
        ring = held.unlock(rt);
    }
    sum
}

/// One sends, and the other receives.
fn send_and_receive<R: Threads + Wait + Sync>(
    rt: &R,
    one: RingHandle<'_>,
    two: RingHandle<'_>,
    mut watchers: Watchers<'_>,
) -> Option<u64> {
    let (here, there) = watchers.pair()?;
    let ((), sum) = join(
        rt,
        move ||
            requires { IsSync R.row }
        { signal_each(rt, one, here) },
        move || -> u64
            requires { IsSync R.row }
        { take_each(rt, two, there) },
    );
    Some(sum)
}

/// The same by condition variables, of which each lock has four, by number.
pub fn queue_by_variables<R: Threads + Wait + Sync>(rt: &R, alloc: Global) -> Option<u64> {
    let (monitor, seats) = Monitor::new(alloc, 2).ok()?;
    let (one, two) = monitor.handles(seats).pair()?;
    let (env, env_seats) = Env::new(alloc, 2).ok()?;
    send_and_receive(rt, one, two, env.watchers(env_seats))
}
