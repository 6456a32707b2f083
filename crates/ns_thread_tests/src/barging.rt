//! What no clause says of a lock that one thread takes again and again: that the lock word tells of another
//! that waits long for it, and that the other comes through.

ghost use Rattle.std.specs.Thread.{IsSync};

use crate::locks::{Held, Lock, MANY_TRIES, new_monitor, row_at_end, set, two_locks};
use std::sync::Wait;
use std::thread::{Threads, join, yield_now};

/// How often one takes the lock again, at most.
const ROUNDS: u32 = 10_000;

/// How often one looks and yields in its section. Meanwhile the other comes to sleep, so that once woken it is
/// slower than one who only has to lock again.
const LOOKS: u32 = 200;

/// Stays in its section for a while. Tells whether the lock word said at last that somebody waits long.
fn stay<R: Wait>(rt: &R, held: &mut Held<'_>) -> bool {
    let mut long = false;
    for _ in 0..LOOKS {
        long = held.debug_state_and_waiters(rt).word.long;
        yield_now();
    }
    long
}

/// Takes the lock, stays, and leaves it, again and again, until it has seen that the other waits long. Then it
/// tells the other to stop, by the first cell. Tells whether it has seen it.
fn barge<'m, R: Wait>(rt: &R, mut lock: Lock<'m>) -> (Lock<'m>, bool) {
    for _ in 0..ROUNDS {
        let mut held = lock.lock(rt);
        let long = stay(rt, &mut held);
        if long {
            held.set(0, 1);
            return (held.unlock(rt), true);
        }
        lock = held.unlock(rt);
    }
    (set(rt, lock, 1), false)
}

/// Goes inside again and again, until it is told to stop. Then it sets the second cell to 1.
fn go_inside<'m, R: Wait>(rt: &R, mut lock: Lock<'m>) -> Lock<'m> {
    for _ in 0..MANY_TRIES {
        let mut held = lock.lock(rt);
        if held.get(0) == 1 {
            held.set(1, 1);
            return held.unlock(rt);
        }
        lock = held.unlock(rt);
        yield_now();
    }
    lock
}

/// One thread takes the lock again and again, and the other wants to come inside.
fn barge_past<'m, R: Threads + Wait + Sync>(
    rt: &R,
    first: Lock<'m>,
    second: Lock<'m>,
) -> (Lock<'m>, bool) {
    let (came, _) = join(
        rt,
        move || -> (Lock<'_>, bool)
            requires { IsSync R.row }
        { barge(rt, first) },
        move || -> Lock<'_>
            requires { IsSync R.row }
        { go_inside(rt, second) },
    );
    came
}

/// The lock word says of one past whom another takes the lock again and again that it waits long, and that
/// one comes through.
#[test]
fn long_wait_is_shown_and_comes_through(rt: HostRuntime) {
    let (monitor, seats) = new_monitor(&rt, rt.alloc(), 2);
    let (first, second) = two_locks(&rt, &monitor, seats);
    let (lock, long) = barge_past(&rt, first, second);
    assert_eq!(rt; (long, row_at_end(lock)), (true, Some([1, 1])));
}
