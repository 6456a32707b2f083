//! What no clause says of condition variables between threads: that a waiter comes back, by a signal
//! or a broadcast from each kind of caller. By its deadline and by its note it does in `waits`.

ghost use Rattle.std.specs.Prelude.{◌<◌};
ghost use Rattle.std.specs.Thread.{IsSync};

use crate::locks::{
    Held, Lock, MANY_TRIES, ReadHeld, TICK, count, new_monitor, row_at_end, two_locks,
};
use crate::note::{new_env, two_watchers};
use ns_fixtures::AtLeast;
use ns_model::event::Answer;
use ns_monitor::Handles;
use ns_note::watcher::{Watcher, Watchers};
use std::process::Abort;
use std::sync::Wait;
use std::thread::{Threads, join, yield_now};

/// A caller with no section in hand, that may wait, until a deadline if it has one.
#[derive(Drop)]
pub struct Comer<'m> {
    pub lock: Lock<'m>,
    pub watcher: Watcher<'m>,
    pub deadline: Option<u64>,
}

/// A caller with a read section in hand, that may wait.
#[derive(Drop)]
struct Reader<'m> {
    held: ReadHeld<'m>,
    watcher: Watcher<'m>,
}

/// A caller that may wait, with the last seats that are left.
fn take_comer<'m, R: Abort>(
    rt: &R,
    locks: &mut Handles<'m, AtLeast, 2>,
    watchers: &mut Watchers<'m>,
) -> Comer<'m> {
    Comer {
        lock: locks.next().expect(rt, "a seat"),
        watcher: watchers.next().expect(rt, "a seat"),
        deadline: None,
    }
}

/// Counts itself in the first cell, waits from that section for a variable, and counts itself in the second
/// cell once it is back. Answers what the wait did.
pub fn come_and_wait<R: Wait>(rt: &R, comer: Comer<'_>, k: u8) -> Answer
    requires { k < 4 }
{
    let Comer {
        lock,
        mut watcher,
        deadline,
    } = comer;
    let mut held = lock.lock(rt);
    count(&mut held, 0);
    let (mut held, answer) = held.cv_wait_with_deadline(rt, k, deadline, None, &mut watcher);
    count(&mut held, 1);
    held.unlock(rt);
    answer
}

/// Locks once a cell has come to this value.
pub fn lock_at<'m, R: Abort + Wait>(rt: &R, mut lock: Lock<'m>, cell: usize, value: u64) -> Held<'m>
    requires { cell < 2 }
{
    for _ in 0..MANY_TRIES {
        let mut held = lock.lock(rt);
        if held.get(cell) == value {
            return held;
        }
        lock = held.unlock(rt);
        yield_now();
    }
    panic!(rt; "the cell has not come to {value}")
}

/// Broadcasts the first variable once two wait for it, and looks for both to be back.
fn broadcast_behind<'m, R: Abort + Wait>(rt: &R, lock: Lock<'m>) -> Lock<'m> {
    let mut lock = lock_at(rt, lock, 0, 2).unlock(rt);
    lock.broadcast(rt, 0);
    lock_at(rt, lock, 1, 2).unlock(rt)
}

/// One thread waits, and the other broadcasts.
fn wait_and_broadcast<'m, R: Abort + Threads + Wait + Sync>(
    rt: &R,
    comer: Comer<'_>,
    waker: Lock<'m>,
) -> (Answer, Lock<'m>) {
    join(
        rt,
        move || -> Answer
            requires { IsSync R.row }
        { come_and_wait(rt, comer, 0) },
        move || -> Lock<'_>
            requires { IsSync R.row }
        { broadcast_behind(rt, waker) },
    )
}

/// Two threads wait, and a third broadcasts.
fn wait_twice_and_broadcast<'m, R: Abort + Threads + Wait + Sync>(
    rt: &R,
    comers: (Comer<'_>, Comer<'_>),
    waker: Lock<'m>,
) -> (Answer, Answer, Lock<'m>) {
    let (first, second) = comers;
    let (one, (other, lock)) = join(
        rt,
        move || -> Answer
            requires { IsSync R.row }
        { come_and_wait(rt, first, 0) },
        move || -> (Answer, Lock<'_>)
            requires { IsSync R.row }
        { wait_and_broadcast(rt, second, waker) },
    );
    (one, other, lock)
}

/// One broadcast wakes both who wait.
#[test]
fn broadcast_wakes_both(rt: HostRuntime) {
    let (monitor, seats) = new_monitor(&rt, rt.alloc(), 3);
    let (env, env_seats) = new_env(&rt, rt.alloc(), 2);
    let (mut locks, mut watchers) = (monitor.handles(seats), env.watchers(env_seats));
    let waker = locks.next().expect(&rt, "a seat");
    let second = take_comer(&rt, &mut locks, &mut watchers);
    let first = take_comer(&rt, &mut locks, &mut watchers);
    let (one, other, lock) = wait_twice_and_broadcast(&rt, (first, second), waker);
    let came = (one, other, row_at_end(lock));
    assert_eq!(rt; came, (Answer::Met, Answer::Met, Some([2, 2])));
}

/// What a caller has in hand as it signals.
#[derive(Clone, Copy)]
enum Holding {
    Nothing,
    ReadSection,
    WriteSection,
}

/// What a signal under the lock leaves in the second cell.
const LEFT: u64 = 7;

/// Signals the first variable, once, with this in hand. Under the lock it sets the second cell behind that.
fn signal_once<'m, R: Wait>(rt: &R, mut held: Held<'m>, holding: Holding) -> Lock<'m> {
    match holding {
        Holding::Nothing => {
            let mut lock = held.unlock(rt);
            lock.signal(rt, 0);
            lock
        }
        Holding::ReadSection => {
            let mut held = held.unlock(rt).rlock(rt);
            held.signal(rt, 0);
            held.runlock(rt)
        }
        Holding::WriteSection => {
            held.signal(rt, 0);
            held.set(1, LEFT);
            held.unlock(rt)
        }
    }
}

/// Signals the first variable, once, when somebody waits for it, and looks for the second cell to come
/// to this value.
fn signal_behind<'m, R: Abort + Wait>(
    rt: &R,
    lock: Lock<'m>,
    holding: Holding,
    value: u64,
) -> Lock<'m> {
    let held = lock_at(rt, lock, 0, 1);
    let lock = signal_once(rt, held, holding);
    lock_at(rt, lock, 1, value).unlock(rt)
}

/// One thread waits, and the other signals.
fn wait_and_signal<'m, R: Abort + Threads + Wait + Sync>(
    rt: &R,
    comer: Comer<'_>,
    waker: Lock<'m>,
    holding: Holding,
    value: u64,
) -> (Answer, Lock<'m>) {
    join(
        rt,
        move || -> Answer
            requires { IsSync R.row }
        { come_and_wait(rt, comer, 0) },
        move || -> Lock<'_>
            requires { IsSync R.row }
        { signal_behind(rt, waker, holding, value) },
    )
}

/// A signal from a seat, while nobody holds the lock, wakes the waiter, also where that minds a deadline.
#[test]
fn signal_with_the_lock_free(rt: HostRuntime) {
    for deadline in [None, Some(TICK)] {
        let (monitor, seats) = new_monitor(&rt, rt.alloc(), 2);
        let (lock, waker) = two_locks(&rt, &monitor, seats);
        let (env, env_seats) = new_env(&rt, rt.alloc(), 2);
        let (watcher, _) = two_watchers(&rt, &env, env_seats);
        let comer = Comer {
            lock,
            watcher,
            deadline,
        };
        let (answer, lock) = wait_and_signal(&rt, comer, waker, Holding::Nothing, 1);
        assert_eq!(rt; (answer, row_at_end(lock)), (Answer::Met, Some([1, 1])));
    }
}

/// Begins to read.
fn begin_to_read<'m, R: Wait>(rt: &R, comer: Comer<'m>) -> Reader<'m> {
    let Comer { lock, watcher, .. } = comer;
    Reader {
        held: lock.rlock(rt),
        watcher,
    }
}

/// Waits for the first variable in the read section in hand, and counts itself in the second cell, in a
/// section that writes, once it is back. Answers what the wait did.
fn read_and_wait<R: Wait>(rt: &R, reader: Reader<'_>) -> Answer {
    let Reader { held, mut watcher } = reader;
    let (held, answer) = held.cv_wait_with_deadline(rt, 0, None, None, &mut watcher);
    let mut held = held.runlock(rt).lock(rt);
    count(&mut held, 1);
    held.unlock(rt);
    answer
}

/// Two threads wait in their read sections.
fn read_and_wait_twice<R: Threads + Wait + Sync>(
    rt: &R,
    readers: (Reader<'_>, Reader<'_>),
) -> (Answer, Answer) {
    let (first, second) = readers;
    join(
        rt,
        move || -> Answer
            requires { IsSync R.row }
        { read_and_wait(rt, first) },
        move || -> Answer
            requires { IsSync R.row }
        { read_and_wait(rt, second) },
    )
}

/// Two threads wait in their read sections, a third in a write section, which begins behind those two,
/// and a fourth signals.
fn all_wait_and_signal<'m, R: Abort + Threads + Wait + Sync>(
    rt: &R,
    readers: (Reader<'_>, Reader<'_>),
    comer: Comer<'_>,
    waker: Lock<'m>,
    holding: Holding,
    value: u64,
) -> ([Answer; 3], Lock<'m>) {
    let ((one, two), (three, lock)) = join(
        rt,
        move || -> (Answer, Answer)
            requires { IsSync R.row }
        { read_and_wait_twice(rt, readers) },
        move || -> (Answer, Lock<'_>)
            requires { IsSync R.row }
        { wait_and_signal(rt, comer, waker, holding, value) },
    );
    ([one, two, three], lock)
}

/// One signal wakes two readers, of whom one is first, and the writer behind them, whatever its caller
/// has in hand.
#[test]
fn signal_takes_readers_together(rt: HostRuntime) {
    let table = [
        (Holding::Nothing, 3),
        (Holding::ReadSection, 3),
        (Holding::WriteSection, LEFT + 3),
    ];
    for (holding, value) in table {
        let (monitor, seats) = new_monitor(&rt, rt.alloc(), 4);
        let (env, env_seats) = new_env(&rt, rt.alloc(), 3);
        let (mut locks, mut watchers) = (monitor.handles(seats), env.watchers(env_seats));
        let waker = locks.next().expect(&rt, "a seat");
        let comer = take_comer(&rt, &mut locks, &mut watchers);
        let second = begin_to_read(&rt, take_comer(&rt, &mut locks, &mut watchers));
        let first = begin_to_read(&rt, take_comer(&rt, &mut locks, &mut watchers));
        let (all, lock) = all_wait_and_signal(&rt, (first, second), comer, waker, holding, value);
        assert_eq!(rt;
            (all, row_at_end(lock)),
            ([Answer::Met; 3], Some([1, value]))
        );
    }
}
