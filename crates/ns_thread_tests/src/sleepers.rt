//! What no clause says of waits for a counter, or for any of several, between threads: that they come back by what
//! another thread does meanwhile, and at their deadline.

ghost use Rattle.std.specs.Prelude.{◌≡◌, ◌<◌};
ghost use Rattle.std.specs.Thread.{IsSync};

use crate::note::{new_env, one_watcher, two_watchers};
use crate::objects::new_objects;
use crate::once::linger;
use ns_note::watcher::Watcher;
use ns_objects::any::Item;
use ns_objects::objects::Objects;
use ns_objects::sharer::Sharer;
use std::alloc::Global;
use std::process::Abort;
use std::sync::Wait;
use std::thread::{Threads, join};
use std::time::Clock;

/// What one thread waits for, and the other brings about.
#[derive(Clone, Copy)]
enum Awaited {
    /// That the first counter is 0.
    Zero,
    /// That either counter is 0, which this one comes to be.
    Either(u8),
    /// The deadline alone.
    Tick,
}

/// A caller of objects with two counters, and of an environment.
#[derive(Drop)]
struct Caller<'a> {
    sharer: Sharer<'a>,
    watch: Watcher<'a>,
    ghost two: { sharer.setup.counters ≡ 2 },
}

/// What the counters begin with.
const START: u32 = 2;

/// The tick to which the clock is moved first.
const NEAR: u64 = 4;

/// The tick behind it.
const END: u64 = 5;

/// Waits, and answers the value of the counter, or the place of the item that is ready.
fn wait<R: Wait>(
    rt: &R,
    sharer: &mut Sharer<'_>,
    watch: &mut Watcher<'_>,
    awaited: Awaited,
    deadline: Option<u64>,
) -> usize
    requires { sharer.old.setup.counters ≡ 2 }
    ensures { sharer.new.setup ≡ sharer.old.setup }
{
    match awaited {
        Awaited::Zero => sharer.counter_wait(rt, 0, deadline, watch) as usize,
        Awaited::Either(_) => {
            let items = [Item::Counter(0), Item::Counter(1)];
            sharer.wait_any(rt, &items, deadline, watch)
        }
        Awaited::Tick => sharer.wait_any(rt, &[], deadline, watch),
    }
}

/// What a thread does that waits.
fn wait_alone<R: Wait>(
    rt: &R,
    caller: Caller<'_>,
    awaited: Awaited,
    deadline: Option<u64>,
) -> usize {
    let Caller {
        mut sharer,
        mut watch,
    } = caller;
    wait(rt, &mut sharer, &mut watch, awaited, deadline)
}

/// Moves the clock to a tick before the deadline, and a while later brings about what is awaited. Answers the value
/// that the counter is then given, or the clock.
fn bring_about<R: Wait + Clock>(rt: &R, caller: Caller<'_>, awaited: Awaited) -> Option<u64> {
    let Caller {
        mut sharer,
        mut watch,
    } = caller;
    watch.advance(NEAR);
    linger(rt);
    let counter = match awaited {
        Awaited::Zero => 0,
        Awaited::Either(counter) => counter % 2,
        Awaited::Tick => {
            watch.advance(END);
            return Some(watch.now());
        }
    };
    let value = sharer.counter_add(rt, counter, -2).ok()?;
    Some(u64::from(value))
}

/// One thread waits, and the other brings about what it waits for; what each was answered.
fn wait_and_bring_about<R: Threads + Wait + Clock + Sync>(
    rt: &R,
    first: Caller<'_>,
    second: Caller<'_>,
    awaited: Awaited,
    deadline: Option<u64>,
) -> (usize, Option<u64>) {
    join(
        rt,
        move || -> usize
            requires { IsSync R.row }
        { wait_alone(rt, first, awaited, deadline) },
        move || -> Option<u64>
            requires { IsSync R.row }
        { bring_about(rt, second, awaited) },
    )
}

/// Two threads as above, on objects and an environment of their own.
fn ended<R: Abort + Threads + Wait + Clock + Sync>(
    rt: &R,
    alloc: Global,
    awaited: Awaited,
    deadline: Option<u64>,
) -> (usize, Option<u64>) {
    let (objects, seats) = Objects::new(alloc, &[START; 2], 0, 2)
        .ok()
        .expect(rt, "objects");
    let (env, env_seats) = new_env(rt, alloc, 2);
    let (first, second) = objects.sharers(seats).pair().expect(rt, "two seats");
    let (mine, theirs) = two_watchers(rt, &env, env_seats);
    let first = Caller {
        sharer: first,
        watch: mine,
    };
    let second = Caller {
        sharer: second,
        watch: theirs,
    };
    wait_and_bring_about(rt, first, second, awaited, deadline)
}

/// A thread that waits for 0, with a deadline or without, is woken by what another counts down. It isn't back a
/// tick before its deadline, if it has begun to wait within 5 ms.
#[test]
fn waits_for_zero(rt: HostRuntime) {
    for deadline in [None, Some(END)] {
        let came = ended(&rt, rt.alloc(), Awaited::Zero, deadline);
        assert_eq!(rt; came, (0, Some(0)));
    }
}

/// A thread that waits for any sees what another counts down, at whichever counter it sleeps: the second, and
/// in a later round the first as well. It isn't back a tick before its deadline,
/// if it has begun to wait within 5 ms.
#[test]
fn waits_for_either(rt: HostRuntime) {
    let first = ended(&rt, rt.alloc(), Awaited::Either(0), None);
    let second = ended(&rt, rt.alloc(), Awaited::Either(1), Some(END));
    assert_eq!(rt; [first, second], [(0, Some(0)), (1, Some(0))]);
}

/// A thread that waits without a counter, and so sleeps at its bell, comes back when the clock is moved.
#[test]
fn waits_for_the_clock(rt: HostRuntime) {
    let came = ended(&rt, rt.alloc(), Awaited::Tick, Some(END));
    assert_eq!(rt; came, (0, Some(END)));
}

/// What a wait for the first counter, and one for either, answer at their deadline.
fn wait_at_deadline<R: Abort + Wait>(rt: &R, alloc: Global) -> [usize; 2] {
    let (objects, seats) = new_objects(rt, alloc, &[START; 2], 0, 1);
    let (env, env_seats) = new_env(rt, alloc, 1);
    let mut sharer = objects.sharers(seats).next().expect(rt, "a seat");
    let mut watch = one_watcher(rt, &env, env_seats);
    watch.advance(NEAR);
    let value = wait(rt, &mut sharer, &mut watch, Awaited::Zero, Some(NEAR));
    let place = wait(rt, &mut sharer, &mut watch, Awaited::Either(0), Some(NEAR));
    [value, place]
}

/// Waits are over at the tick of their deadline, at the value of the counter, and with the number of items.
#[test]
fn deadlines_to_the_tick(rt: HostRuntime) {
    let came = wait_at_deadline(&rt, rt.alloc());
    assert_eq!(rt; came, [START as usize, 2]);
}
