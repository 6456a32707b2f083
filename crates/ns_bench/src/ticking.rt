//! Waits with a deadline fifty ticks ahead, while another thread moves the clock by a tick about each millisecond.

ghost use Rattle.std.specs.Thread.{IsSync};

use crate::amount::Amount;
use crate::never::{OneCell, OneHandle};
use ns_fixtures::Never;
use ns_monitor::Answer;
use ns_note::env::Env;
use ns_note::note::LAST_MOMENT;
use ns_note::watcher::Watcher;
use std::alloc::Global;
use std::sync::Wait;
use std::thread::{Threads, join, sleep};
use std::time::{Clock, Duration};

/// How many ticks ahead a deadline is.
const AHEAD: u64 = 50;

/// Waits so many times, and counts how often the deadline has ended it. Then it says in the cell that it is through.
fn wait_often<R: Wait>(rt: &R, handle: OneHandle<'_>, mut watcher: Watcher<'_>, times: u64) -> u64 {
    let mut held = handle.lock(rt);
    let mut count = 0u64;
    for _ in 0..times {
        let deadline = watcher.now().saturating_add(AHEAD).min(LAST_MOMENT);
        let (back, answer) = held.wait_with_deadline(rt, Never, Some(deadline), None, &mut watcher);
        held = back;
        if answer == Answer::TimedOut {
            count = count.wrapping_add(1);
        }
    }
    held.set(0, 1);
    held.unlock(rt);
    count
}

/// Moves the clock by a tick after each sleep of a millisecond, until the cell says that nobody waits any more.
fn tick<R: Wait + Clock>(rt: &R, mut handle: OneHandle<'_>, mut watcher: Watcher<'_>) {
    for _ in rt.forever() {
        let mut held = handle.rlock(rt);
        let is_over = held.get(0) != 0;
        handle = held.runlock(rt);
        if is_over {
            return;
        }
        sleep(rt, Duration::from_millis(1));
        let now = watcher.now();
        watcher.advance(now.saturating_add(1).min(LAST_MOMENT));
    }
    unreachable!()
}

/// Runs the workload, and answers whether each wait was ended by its deadline; nothing where it could not be begun,
/// or isn't for so many threads.
pub fn run<R: Threads + Wait + Sync + Clock>(
    rt: &R,
    alloc: Global,
    amount: Amount,
) -> Option<bool> {
    if amount.threads != 2 {
        return None;
    }
    let (monitor, seats) = OneCell::new(alloc, 2).ok()?;
    let (env, env_seats) = Env::new(alloc, 2).ok()?;
    let (one, two) = monitor.handles(seats).pair()?;
    let (here, there) = env.watchers(env_seats).pair()?;
    let times = amount.operations;
    let (count, ()) = join(
        rt,
        move || -> u64
            requires { IsSync R.row }
        { wait_often(rt, one, here, times) },
        move ||
            requires { IsSync R.row }
        { tick(rt, two, there) },
    );
    Some(count == times)
}
