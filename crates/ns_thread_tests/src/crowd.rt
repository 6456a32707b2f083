//! Many threads that wait, for one condition or each for its own: how often a release tests them, and that
//! all of them come back.

ghost use Rattle.std.specs.Prelude.{◌≡◌, ◌==◌, All, nat_le, slice_index};
ghost use Rattle.std.specs.Thread.{IsSync};
ghost use Rattle.ns_model.specs.Truths.{truths};

use crate::locks::{new_monitor, row_at_end};
use ns_model::condition::Condition;
use ns_monitor::{Handle, Monitor, Seat, Writing};
use std::alloc::{AllocError, Global};
use std::process::Abort;
use std::sync::Wait;
use std::sync::atomic::AtomicU64;
use std::sync::atomic::Ordering::SeqCst;
use std::thread::{Threads, join, map_vec, yield_now};

/// How many threads wait.
const CROWD: u64 = 60;

/// The first cell is at least so much. Each test is counted in the word that it refers to, which is never
/// freed, so that the type names no lifetime. A change is quiet where that cell has not risen.
#[derive(Clone, Copy)]
struct Counted {
    least: u64,
    tests: &'static AtomicU64,
}

impl Condition<2> for Counted {
    ghost use Rattle.std.proofs.Common.{arith, rules};

    ghost means = { truths (λ c row. nat_le c.least (slice_index row 0)) (λ c d. c.least == d.least) (λ before after. nat_le (slice_index after 0) (slice_index before 0)) };

    fn test(&self, row: &[u64; 2]) -> bool {
        self.tests.fetch_add(1, SeqCst);
        self.least <= row[0]
    }

    fn same(&self, other: &Self) -> bool {
        self.least == other.least
    }

    fn quiet(before: &[u64; 2], after: &[u64; 2]) -> bool
        ensures { result ≡ nat_le (slice_index after.now 0) (slice_index before.now 0) }
    {
        after[0] <= before[0]
    }

    ghost same_agrees = { λ c d row n e. Prim.grind arith };

    ghost quiet_keeps = { λ c before after n m quiet h. Prim.grind arith };

    ghost has_cells = { Prim.search rules };

    ghost has_room = { Prim.search rules };
}

/// A thread's own lock.
type Lock<'m> = Handle<'m, Counted, 2>;

/// A word to count in, which is never freed.
fn new_count(alloc: Global) -> Result<&'static AtomicU64, AllocError> {
    Ok(Box::leak(Box::new(alloc, AtomicU64::new(0))?))
}

/// Comes, which the second cell counts, waits until the first is at least 1, and leaves.
fn wait_in_crowd<'m, R: Wait>(rt: &R, lock: Lock<'m>, opened: Counted) -> Lock<'m> {
    let mut held = lock.lock(rt);
    let there = held.get(1);
    held.set(1, there.wrapping_add(1));
    let mut held = held.wait(rt, opened);
    let there = held.get(1);
    held.set(1, there.wrapping_sub(1));
    held.unlock(rt)
}

/// Locks once the whole crowd has come: then each of them has left its section, and waits.
fn lock_behind_crowd<'m, R: Wait>(rt: &R, mut lock: Lock<'m>) -> Writing<'m, Counted, 2> {
    for _ in rt.forever() {
        let mut held = lock.lock(rt);
        if held.get(1) == CROWD {
            return held;
        }
        lock = held.unlock(rt);
    }
    unreachable!()
}

/// Ends a section in which nothing was changed, quietly.
fn end_quietly<'m, R: Wait>(rt: &R, mut held: Writing<'m, Counted, 2>) -> Lock<'m> {
    if held.is_quiet() {
        held.unlock_without_wakeup(rt)
    } else {
        held.unlock(rt)
    }
}

/// How many tests a release makes that may have made the condition true, and how many a quiet one behind
/// it, which has to find nothing new.
fn count_tests<R: Wait>(rt: &R, lock: Lock<'_>, tests: &'static AtomicU64) -> (u64, u64) {
    let held = lock_behind_crowd(rt, lock);
    let first = tests.load(SeqCst);
    let lock = held.unlock(rt);
    let second = tests.load(SeqCst);
    let held = lock.lock(rt);
    let lock = end_quietly(rt, held);
    let third = tests.load(SeqCst);
    let mut held = lock.lock(rt);
    held.set(0, 1);
    held.unlock(rt);
    (second.wrapping_sub(first), third.wrapping_sub(second))
}

/// Has the crowd wait, each in a thread of its own. Answers how many have come back.
fn meet_crowd<R: Threads + Wait + Sync>(
    rt: &R,
    monitor: &Monitor<Counted, 2>,
    seats: Vec<Seat<Counted, 2>>,
    opened: Counted,
) -> usize
    requires { All (λ seat. seat.monitor ≡ monitor.now) seats.items }
{
    let back = map_vec(
        rt,
        seats,
        &|seat: Seat<Counted, 2>| -> Lock<'_>
            requires { seat.monitor ≡ monitor.now }
        { wait_in_crowd(rt, Handle::new(monitor, seat), opened) },
    );
    match back {
        Ok(locks) => locks.len(),
        Err(_) => 0,
    }
}

/// The crowd waits in threads of its own, while the tests of two releases are counted; then it may go on.
fn crowd_and_count<R: Threads + Wait + Sync>(
    rt: &R,
    monitor: &Monitor<Counted, 2>,
    seats: Vec<Seat<Counted, 2>>,
    lock: Lock<'_>,
    tests: &'static AtomicU64,
) -> (usize, u64, u64)
    requires { All (λ seat. seat.monitor ≡ monitor.now) seats.items }
{
    let (back, (once, never)) = join(
        rt,
        move || -> usize
            requires { IsSync R.row × All (λ seat. seat.monitor ≡ monitor.now) seats.items }
        { meet_crowd(rt, monitor, seats, Counted { least: 1, tests }) },
        move || -> (u64, u64)
            requires { IsSync R.row }
        { count_tests(rt, lock, tests) },
    );
    (back, once, never)
}

/// The last seat that is left of a monitor's, as a handle.
fn take_lock<'m, R: Abort>(
    rt: &R,
    monitor: &'m Monitor<Counted, 2>,
    seats: &mut Vec<Seat<Counted, 2>>,
) -> Lock<'m>
    requires { All (λ seat. seat.monitor ≡ monitor.now) seats.old.items }
    ensures { All (λ seat. seat.monitor ≡ monitor.now) seats.new.items }
{
    let seat = seats.pop().expect(rt, "a seat");
    Handle::new(monitor, seat)
}

/// How many of the crowd come back, how many tests each of the two releases makes, and the cells at the end.
fn count_past_crowd<R: Abort + Threads + Wait + Sync>(
    rt: &R,
    alloc: Global,
) -> ((usize, u64, u64), Option<[u64; 2]>) {
    let tests = new_count(alloc).ok().expect(rt, "a word to count in");
    let (monitor, mut seats) = new_monitor(rt, alloc, 62);
    let last = take_lock(rt, &monitor, &mut seats);
    let lock = take_lock(rt, &monitor, &mut seats);
    let counted = crowd_and_count(rt, &monitor, seats, lock, tests);
    (counted, row_at_end(last))
}

/// Past sixty that wait for one false condition, a release tests it once, and a quiet one behind it
/// doesn't. Once it is true, all sixty go on.
#[test]
fn sixty_waiters(rt: HostRuntime) {
    let (came, row) = count_past_crowd(&rt, rt.alloc());
    assert_eq!(rt; (came, row), ((60, 1, 0), Some([1, 0])));
}

/// Sixty in a line, each with a condition of its own: who stands where, and the words in which they count,
/// which are never freed.
#[derive(Clone, Copy)]
struct Line {
    /// The place of the one whom the release takes. It reads, and with it every second one does.
    taken: u64,
    /// How many have a place.
    placed: &'static AtomicU64,
    /// How many have come inside. Once all have, how far the one who is taken is: [`BACK`], then [`COUNTED`].
    come: &'static AtomicU64,
    /// How many tests were made.
    tests: &'static AtomicU64,
}

/// The one who is taken is back, and stays in its section.
const BACK: u64 = CROWD + 1;

/// The tests of the release were counted, so it may leave.
const COUNTED: u64 = CROWD + 2;

/// What the first cell has to be for all to go on.
const EVERYBODY: u64 = CROWD + 2;

/// A line in which nobody stands yet.
fn new_line<R: Abort>(rt: &R, alloc: Global, taken: u64) -> Line {
    Line {
        taken,
        placed: new_count(alloc).ok().expect(rt, "a word to count in"),
        come: new_count(alloc).ok().expect(rt, "a word to count in"),
        tests: new_count(alloc).ok().expect(rt, "a word to count in"),
    }
}

/// Turns until the count is at least so much.
fn await_count<R: Wait>(rt: &R, count: &AtomicU64, least: u64) {
    for _ in rt.forever() {
        if count.load(SeqCst) >= least {
            return;
        }
        yield_now();
    }
}

/// What the one at this place waits for: the one who is taken for 1, and each other for a number that nobody
/// else waits for.
fn wanted_at(line: Line, place: u64) -> Counted {
    let least = if place == line.taken {
        1
    } else {
        place.wrapping_add(2)
    };
    Counted {
        least,
        tests: line.tests,
    }
}

/// Waits at its place to write.
fn write_in_line<'m, R: Wait>(rt: &R, lock: Lock<'m>, line: Line, place: u64) -> Lock<'m> {
    let held = lock.lock(rt);
    line.come.store(place.wrapping_add(1), SeqCst);
    let held = held.wait(rt, wanted_at(line, place));
    held.unlock(rt)
}

/// Waits at its place to read. The one who is taken stays in its section until the tests are counted, since its
/// own release makes some, too.
fn read_in_line<'m, R: Wait>(rt: &R, lock: Lock<'m>, line: Line, place: u64) -> Lock<'m> {
    let held = lock.rlock(rt);
    line.come.store(place.wrapping_add(1), SeqCst);
    let held = held.wait(rt, wanted_at(line, place));
    if place == line.taken {
        line.come.store(BACK, SeqCst);
        await_count(rt, line.come, COUNTED);
    }
    held.runlock(rt)
}

/// Takes the next place, and waits there. Neighbours never are in a section at once, since one of them writes:
/// so each comes inside only once the one before stands in the list, and the places are those of the list.
fn wait_in_line<'m, R: Wait>(rt: &R, lock: Lock<'m>, line: Line) -> Lock<'m> {
    let place = line.placed.fetch_add(1, SeqCst);
    await_count(rt, line.come, place);
    if place % 2 == line.taken % 2 {
        read_in_line(rt, lock, line, place)
    } else {
        write_in_line(rt, lock, line, place)
    }
}

/// Once the whole line stands in the list, makes true what the one waits for who is to be taken, and then what
/// all the others do. Answers how many tests the first release makes: all until that one is back, but for the
/// one test by which it sees that it may go on.
fn release_to_line<R: Wait>(rt: &R, lock: Lock<'_>, line: Line) -> u64 {
    await_count(rt, line.come, CROWD);
    let mut held = lock.lock(rt);
    let before = line.tests.load(SeqCst);
    held.set(0, 1);
    let lock = held.unlock(rt);
    await_count(rt, line.come, BACK);
    let made = line.tests.load(SeqCst).wrapping_sub(before);
    line.come.store(COUNTED, SeqCst);
    let mut held = lock.lock(rt);
    held.set(0, EVERYBODY);
    held.unlock(rt);
    made.wrapping_sub(1)
}

/// Has the line wait, each in a thread of its own. Answers how many have come back.
fn meet_line<R: Threads + Wait + Sync>(
    rt: &R,
    monitor: &Monitor<Counted, 2>,
    seats: Vec<Seat<Counted, 2>>,
    line: Line,
) -> usize
    requires { All (λ seat. seat.monitor ≡ monitor.now) seats.items }
{
    let back = map_vec(
        rt,
        seats,
        &|seat: Seat<Counted, 2>| -> Lock<'_>
            requires { seat.monitor ≡ monitor.now }
        { wait_in_line(rt, Handle::new(monitor, seat), line) },
    );
    match back {
        Ok(locks) => locks.len(),
        Err(_) => 0,
    }
}

/// The line waits in threads of its own, while the tests of a release are counted.
fn line_and_count<R: Threads + Wait + Sync>(
    rt: &R,
    monitor: &Monitor<Counted, 2>,
    seats: Vec<Seat<Counted, 2>>,
    lock: Lock<'_>,
    line: Line,
) -> (usize, u64)
    requires { All (λ seat. seat.monitor ≡ monitor.now) seats.items }
{
    join(
        rt,
        move || -> usize
            requires { IsSync R.row × All (λ seat. seat.monitor ≡ monitor.now) seats.items }
        { meet_line(rt, monitor, seats, line) },
        move || -> u64
            requires { IsSync R.row }
        { release_to_line(rt, lock, line) },
    )
}

/// How many of a line come back, and how many tests the release makes that takes the one at this place.
fn count_in_line<R: Abort + Threads + Wait + Sync>(
    rt: &R,
    alloc: Global,
    taken: u64,
) -> (usize, u64) {
    let line = new_line(rt, alloc, taken);
    let (monitor, mut seats) = new_monitor(rt, alloc, 62);
    take_lock(rt, &monitor, &mut seats);
    let lock = take_lock(rt, &monitor, &mut seats);
    line_and_count(rt, &monitor, seats, lock, line)
}

/// Past sixty of whom each waits for something else, a release that takes a reader tests each once whose truth
/// it needs: all up to that reader, who stands in front, in the middle or at the end, and behind it those who
/// read, every second one.
#[test]
fn release_tests_each_once(rt: HostRuntime) {
    let front = count_in_line(&rt, rt.alloc(), 0);
    let middle = count_in_line(&rt, rt.alloc(), 30);
    let end = count_in_line(&rt, rt.alloc(), 59);
    assert_eq!(rt;
        (front, middle, end),
        ((60, 1 + 29), (60, 31 + 14), (60, 60))
    );
}
