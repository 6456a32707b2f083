//! Counters, values made once, and waits for whichever of several things comes first.

ghost use Rattle.std.specs.Prelude.{◌≡◌, ◌<◌};
ghost use Rattle.std.specs.Thread.{IsSync};

use ns_fixtures::AtLeast;
use ns_monitor::handles::Handles;
use ns_monitor::{Handle, Monitor};
use ns_note::env::Env;
use ns_note::watcher::Watcher;
use ns_objects::any::{AnyItem, Item};
use ns_objects::objects::Objects;
use ns_objects::running::Once;
use ns_objects::sharer::Sharer;
use std::alloc::Global;
use std::sync::Wait;
use std::thread::{Threads, join};

/// Has done its part, and counts it off.
fn finish<R: Wait>(rt: &R, mut sharer: Sharer<'_>)
    requires { 0 < sharer.setup.counters }
{
    let _ = sharer.counter_add(rt, 0, -1);
}

/// Two do their parts.
fn finish_both<R: Threads + Wait + Sync>(rt: &R, one: Sharer<'_>, two: Sharer<'_>)
    requires { (0 < one.setup.counters) × (0 < two.setup.counters) }
{
    join(
        rt,
        move ||
            requires { IsSync R.row × (0 < one.setup.counters) }
        { finish(rt, one) },
        move ||
            requires { IsSync R.row × (0 < two.setup.counters) }
        { finish(rt, two) },
    );
}

/// Waits until the counter is 0, and answers that.
fn wait_for_all<R: Wait>(rt: &R, mut sharer: Sharer<'_>, mut watcher: Watcher<'_>) -> u32
    requires { 0 < sharer.setup.counters }
{
    sharer.counter_wait(rt, 0, None, &mut watcher)
}

/// One waits for the two others.
fn wait_and_finish<R: Threads + Wait + Sync>(
    rt: &R,
    alloc: Global,
    waiter: Sharer<'_>,
    one: Sharer<'_>,
    two: Sharer<'_>,
) -> Option<u32>
    requires { (0 < waiter.setup.counters) × (0 < one.setup.counters) × (0 < two.setup.counters) }
{
    let (env, env_seats) = Env::new(alloc, 1).ok()?;
    let watcher = env.watchers(env_seats).next()?;
    let (left, ()) = join(
        rt,
        move || -> u32
            requires { IsSync R.row × (0 < waiter.setup.counters) }
        { wait_for_all(rt, waiter, watcher) },
        move ||
            requires { IsSync R.row × (0 < one.setup.counters) × (0 < two.setup.counters) }
        { finish_both(rt, one, two) },
    );
    Some(left)
}

/// A counter as a wait group: who waits for 0 goes on once each has counted its part off.
pub fn wait_group<R: Threads + Wait + Sync>(rt: &R, alloc: Global) -> Option<u32> {
    let (objects, seats) = Objects::new(alloc, &[2], 0, 3).ok()?;
    let mut sharers = objects.sharers(seats);
    let waiter = sharers.next()?;
    let (one, two) = sharers.pair()?;
    wait_and_finish(rt, alloc, waiter, one, two)
}

/// Makes the value, if nobody has, and answers whether it did.
fn make<R: Wait>(rt: &R, mut sharer: Sharer<'_>) -> bool
    requires { 0 < sharer.setup.cells }
{
    match sharer.run_once(rt, 0, || 7) {
        Once::Ran(_) => true,
        Once::Already => false, // another has made it, and is done
    }
}

/// A value made once, whoever comes first.
pub fn made_once<R: Threads + Wait + Sync>(rt: &R, alloc: Global) -> Option<bool> {
    let (objects, seats) = Objects::new(alloc, &[], 1, 2).ok()?;
    let (one, two) = objects.sharers(seats).pair()?;
    let (first, second) = join(
        rt,
        move || -> bool
            requires { IsSync R.row × (0 < one.setup.cells) }
        { make(rt, one) },
        move || -> bool
            requires { IsSync R.row × (0 < two.setup.cells) }
        { make(rt, two) },
    );
    Some(first != second)
}

/// Waits for a note that nobody notifies, or for the counter, which the other brings to 0.
fn wait_for_either<R: Wait>(
    rt: &R,
    mut waiter: Sharer<'_>,
    other: Sharer<'_>,
    mut watcher: Watcher<'_>,
) -> Option<usize>
    requires { (0 < waiter.setup.counters) × (0 < other.setup.counters) }
{
    let note = watcher.note_new(None, None).ok()?;
    let items = [Item::Note(note), Item::Counter(0)];
    finish(rt, other);
    Some(waiter.wait_any(rt, &items, None, &mut watcher))
}

/// Waiting for whichever of several comes first: a note, or a counter that comes to 0.
pub fn whichever_first<R: Wait>(rt: &R, alloc: Global) -> Option<usize> {
    let (objects, seats) = Objects::new(alloc, &[1], 0, 2).ok()?;
    let (env, env_seats) = Env::new(alloc, 1).ok()?;
    let watcher = env.watchers(env_seats).next()?;
    let (waiter, other) = objects.sharers(seats).pair()?;
    wait_for_either(rt, waiter, other, watcher)
}

/// Says in cell 0 that it waits, and waits for variable 0 or the counter.
fn wait_held<R: Wait>(
    rt: &R,
    lock: Handle<AtLeast, 2>,
    mut sharer: Sharer<'_>,
    mut watcher: Watcher<'_>,
) -> usize
    requires { 0 < sharer.setup.counters }
{
    let mut held = lock.lock(rt);
    held.set(0, 1);
    let items = [AnyItem::Cv(0), AnyItem::Counter(0)];
    let (held, place) = sharer.wait_any_held(rt, held, &items, None, &mut watcher);
    held.unlock(rt);
    place
}

/// Signals variable 0 once somebody waits.
fn signal_waiter<R: Wait>(rt: &R, lock: Handle<AtLeast, 2>) {
    let mut held = lock.lock(rt).wait(rt, AtLeast { least: 1 });
    held.signal(rt, 0);
    held.unlock(rt);
}

/// One waits, and the other signals.
fn wait_and_signal<R: Threads + Wait + Sync>(
    rt: &R,
    mut locks: Handles<'_, AtLeast, 2>,
    sharer: Sharer<'_>,
    watcher: Watcher<'_>,
) -> Option<usize>
    requires { 0 < sharer.setup.counters }
{
    let (one, two) = locks.pair()?;
    let (place, ()) = join(
        rt,
        move || -> usize
            requires { IsSync R.row × (0 < sharer.setup.counters) }
        { wait_held(rt, one, sharer, watcher) },
        move ||
            requires { IsSync R.row }
        { signal_waiter(rt, two) },
    );
    Some(place)
}

/// Makes a counter and a clock beside the lock.
fn make_and_wait<R: Threads + Wait + Sync>(
    rt: &R,
    alloc: Global,
    locks: Handles<'_, AtLeast, 2>,
) -> Option<usize> {
    let (objects, seats) = Objects::new(alloc, &[1], 0, 1).ok()?;
    let (env, env_seats) = Env::new(alloc, 1).ok()?;
    let sharer = objects.sharers(seats).next()?;
    let watcher = env.watchers(env_seats).next()?;
    wait_and_signal(rt, locks, sharer, watcher)
}

/// The same with a section in hand, which the wait leaves: a variable of its lock is among the items.
pub fn whichever_first_held<R: Threads + Wait + Sync>(rt: &R, alloc: Global) -> Option<usize> {
    let (monitor, seats) = Monitor::new(alloc, 2).ok()?;
    make_and_wait(rt, alloc, monitor.handles(seats))
}
