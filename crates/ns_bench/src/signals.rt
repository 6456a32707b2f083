//! Threads that wait for condition variables, on a row of six cells.

ghost use Rattle.std.specs.Prelude.{◌<◌};

use crate::amount::{Amount, Count};
use crate::conditions::{ARRIVED, MARKS, SixHandle, SixWriting};
use ns_note::watcher::Watcher;
use std::sync::Wait;

/// The variable that is broadcast as a round begins.
const GO: u8 = 0;

/// The variable that is signaled as the last is through a round.
const THROUGH: u8 = 1;

/// A cell is within these bounds, and whoever makes it so wakes those who wait for the variable.
#[derive(Clone, Copy)]
struct Wanted {
    variable: u8,
    cell: usize,
    least: u64,
    most: u64,
}

/// Waits for a variable until the cell is as it is wanted: a wake tells nothing of it.
fn wait_until<'m, R: Wait>(
    rt: &R,
    mut held: SixWriting<'m>,
    wanted: Wanted,
    watcher: &mut Watcher<'_>,
) -> SixWriting<'m>
    requires { (wanted.variable < 4) × (wanted.cell < 6) }
{
    for _ in rt.forever() {
        let value = held.get(wanted.cell);
        if wanted.least <= value && value <= wanted.most {
            return held;
        }
        (held, _) = held.cv_wait_with_deadline(rt, wanted.variable, None, None, watcher);
    }
    unreachable!()
}

/// Waits for its turn, by a variable of its own, and hands it to the other of two threads, so many times.
pub fn take_turns<R: Wait>(
    rt: &R,
    mut handle: SixHandle<'_>,
    number: u64,
    times: u64,
    mut watcher: Watcher<'_>,
) -> Count {
    let wanted = Wanted {
        variable: (number % 2) as u8,
        cell: 0,
        least: number,
        most: number,
    };
    let other = 1 - number % 2;
    for _ in 0..times {
        let mut held = wait_until(rt, handle.lock(rt), wanted, &mut watcher);
        held.set(0, other);
        held.signal(rt, other as u8);
        handle = held.unlock(rt);
    }
    Count::of_writes(times)
}

/// Comes through one round, once it has begun; the last of so many threads signals that.
fn come_through<'m, R: Wait>(
    rt: &R,
    held: SixWriting<'m>,
    round: u64,
    threads: u64,
    watcher: &mut Watcher<'_>,
) -> SixWriting<'m> {
    let wanted = Wanted {
        variable: GO,
        cell: MARKS,
        least: round,
        most: u64::MAX,
    };
    let mut held = wait_until(rt, held, wanted, watcher);
    let through = held.get(ARRIVED).wrapping_add(1);
    held.set(ARRIVED, through);
    if through == threads {
        held.signal(rt, THROUGH);
    }
    held
}

/// Comes through all rounds in one section, which each wait leaves. Counts nothing.
pub fn come_through_all<R: Wait>(
    rt: &R,
    handle: SixHandle<'_>,
    amount: Amount,
    mut watcher: Watcher<'_>,
) -> Count {
    let mut held = handle.lock(rt);
    for round in 0..amount.operations {
        let round = round.saturating_add(1);
        held = come_through(rt, held, round, amount.threads, &mut watcher);
    }
    held.unlock(rt);
    Count::new()
}

/// Begins a round by a broadcast, and waits until so many are through.
fn begin_round<'m, R: Wait>(
    rt: &R,
    handle: SixHandle<'m>,
    round: u64,
    threads: u64,
    watcher: &mut Watcher<'_>,
) -> SixHandle<'m> {
    let mut held = handle.lock(rt);
    held.set(MARKS, round);
    held.set(ARRIVED, 0);
    held.broadcast(rt, GO);
    let wanted = Wanted {
        variable: THROUGH,
        cell: ARRIVED,
        least: threads,
        most: threads,
    };
    wait_until(rt, held, wanted, watcher).unlock(rt)
}

/// Begins all rounds, each once all are through the last.
pub fn begin_rounds<'m, R: Wait>(
    rt: &R,
    mut handle: SixHandle<'m>,
    amount: Amount,
    watcher: &mut Watcher<'_>,
) -> SixHandle<'m> {
    for round in 0..amount.operations {
        let round = round.saturating_add(1);
        handle = begin_round(rt, handle, round, amount.threads, watcher);
    }
    handle
}
