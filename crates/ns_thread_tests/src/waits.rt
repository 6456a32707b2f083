//! What no clause says of a wait for a condition: that it comes back, and that threads wake one another
//! by it.

ghost use Rattle.std.specs.Prelude.{◌≡◌, IfSome, true};
ghost use Rattle.std.specs.Thread.{IsSync};
ghost use Rattle.ns_model.specs.Environments.{IsMade};

use crate::locks::{Held, Lock, MANY_TRIES, TICK, count, new_monitor, row_at_end, set, two_locks};
use crate::note::{lineage, new_env, notify, two_watchers};
use ns_fixtures::AtLeast;
use ns_model::event::Answer;
use ns_note::note::Note;
use ns_note::watcher::Watcher;
use std::alloc::Global;
use std::process::Abort;
use std::sync::Wait;
use std::thread::{Threads, join, yield_now};

/// How often each of two threads hands the first cell to the other.
const TURNS: u64 = 1_000;

/// Waits in the section in hand until the first cell is at least 1, and answers what it is then.
fn wait_for_one<'m, R: Wait>(rt: &R, held: Held<'m>) -> (Lock<'m>, u64) {
    let mut held = held.wait(rt, AtLeast { least: 1 });
    let value = held.get(0);
    (held.unlock(rt), value)
}

/// One thread has set the second cell to 5 and waits in that section, and the other, which can't lock before,
/// sets the first cell to 1. Answers what the first finds there.
fn wait_and_set<'m, R: Threads + Wait + Sync>(
    rt: &R,
    first: Lock<'m>,
    second: Lock<'m>,
) -> (Lock<'m>, u64) {
    let mut held = first.lock(rt);
    held.set(1, 5);
    let (came, _) = join(
        rt,
        move || -> (Lock<'_>, u64)
            requires { IsSync R.row }
        { wait_for_one(rt, held) },
        move || -> Lock<'_>
            requires { IsSync R.row }
        { set(rt, second, 1) },
    );
    came
}

/// A wait comes back once another has made its condition true.
#[test]
fn wait_meets(rt: HostRuntime) {
    let (monitor, seats) = new_monitor(&rt, rt.alloc(), 2);
    let (first, second) = two_locks(&rt, &monitor, seats);
    let (lock, value) = wait_and_set(&rt, first, second);
    assert_eq!(rt; (value, row_at_end(lock)), (1, Some([1, 5])));
}

/// Whether the watcher knows the note, if one is given.
fn knows_it(watcher: &mut Watcher<'_>, note: Option<Note>) -> bool
    ensures { result ≡ true → IfSome note (λ n. IsMade watcher.new.seen n.index) }
{
    match note {
        None => true,
        Some(note) => watcher.knows(note),
    }
}

/// Waits in the section in hand for the first variable, where that is asked, else until the first cell is at
/// least 1; for the note, if one is given, else at most until the tick.
fn wait_in<'m, R: Wait>(
    rt: &R,
    held: Held<'m>,
    for_variable: bool,
    note: Option<Note>,
    watcher: &mut Watcher<'_>,
) -> (Held<'m>, Answer)
    requires { IfSome note (λ n. IsMade watcher.old.seen n.index) }
{
    let deadline = if note.is_some() { None } else { Some(TICK) };
    if for_variable {
        held.cv_wait_with_deadline(rt, 0, deadline, note, watcher)
    } else {
        held.wait_with_deadline(rt, AtLeast { least: 1 }, deadline, note, watcher)
    }
}

/// Waits so, where the watcher knows the note, and adds 1 to the second cell once it is back.
fn wait_and_count<'m, R: Wait>(
    rt: &R,
    held: Held<'m>,
    for_variable: bool,
    note: Option<Note>,
    mut watcher: Watcher<'_>,
) -> (Lock<'m>, Option<Answer>) {
    if !knows_it(&mut watcher, note) {
        return (held.unlock(rt), None);
    }
    let (mut held, answer) = wait_in(rt, held, for_variable, note, &mut watcher);
    count(&mut held, 1);
    (held.unlock(rt), Some(answer))
}

/// Has a section, which begins only when a wait has left its own, and then notifies the note, if one is given,
/// else moves the clock to the tick.
fn end_behind<R: Wait>(rt: &R, lock: Lock<'_>, note: Option<Note>, mut watcher: Watcher<'_>) {
    let held = lock.lock(rt);
    held.unlock(rt);
    match note {
        None => watcher.advance(TICK),
        Some(note) => {
            let _ = notify(&mut watcher, note);
        }
    }
}

/// One thread waits for what nobody does, in the section in hand, with the first note or up to the tick; the
/// other notifies the second note meanwhile, or moves the clock.
fn wait_and_end<'m, R: Threads + Wait + Sync>(
    rt: &R,
    held: Held<'m>,
    second: Lock<'m>,
    for_variable: bool,
    notes: (Option<Note>, Option<Note>),
    watchers: (Watcher<'m>, Watcher<'m>),
) -> (Lock<'m>, Option<Answer>) {
    let (note, above) = notes;
    let (mine, theirs) = watchers;
    let (came, ()) = join(
        rt,
        move || -> (Lock<'_>, Option<Answer>)
            requires { IsSync R.row }
        { wait_and_count(rt, held, for_variable, note, mine) },
        move || -> ()
            requires { IsSync R.row }
        { end_behind(rt, second, above, theirs) },
    );
    came
}

/// A note and one two above it, where that is asked.
fn note_and_above(watcher: &mut Watcher<'_>, asked: bool) -> (Option<Note>, Option<Note>) {
    if !asked {
        return (None, None);
    }
    match lineage(watcher) {
        Some((above, note)) => (Some(note), Some(above)),
        None => (None, None),
    }
}

/// A wait in a section of its own, for a variable or for a condition, and how it is ended: what it answers, and
/// the cells at the end.
fn end_wait<R: Abort + Threads + Wait + Sync>(
    rt: &R,
    alloc: Global,
    for_variable: bool,
    by_note: bool,
) -> (Option<Answer>, Option<[u64; 2]>) {
    let (monitor, seats) = new_monitor(rt, alloc, 2);
    let (first, second) = two_locks(rt, &monitor, seats);
    let (env, env_seats) = new_env(rt, alloc, 2);
    let (mut mine, theirs) = two_watchers(rt, &env, env_seats);
    let notes = note_and_above(&mut mine, by_note);
    let held = first.lock(rt);
    let (lock, answer) = wait_and_end(rt, held, second, for_variable, notes, (mine, theirs));
    (answer, row_at_end(lock))
}

/// A wait whose condition stays false, and one for a variable that nobody wakes, are over at their deadline,
/// each in a section of its own.
#[test]
fn wait_times_out(rt: HostRuntime) {
    for for_variable in [false, true] {
        let came = end_wait(&rt, rt.alloc(), for_variable, false);
        assert_eq!(rt; came, (Some(Answer::TimedOut), Some([0, 1])));
    }
}

/// They are over once the note two above their own is notified.
#[test]
fn wait_is_canceled(rt: HostRuntime) {
    for for_variable in [false, true] {
        let came = end_wait(&rt, rt.alloc(), for_variable, true);
        assert_eq!(rt; came, (Some(Answer::Canceled), Some([0, 1])));
    }
}

/// Sets the first cell in a section of its own, which wakes nobody where it is quiet; answers whether it
/// was.
fn set_quietly<'m, R: Wait>(rt: &R, lock: Lock<'m>, value: u64) -> (Lock<'m>, bool) {
    let mut held = lock.lock(rt);
    held.set(0, value);
    if held.is_quiet() {
        (held.unlock_without_wakeup(rt), true)
    } else {
        (held.unlock(rt), false)
    }
}

/// 2 for 3 is quiet and 4 for 2 is not, and each release leaves what it has set.
#[test]
fn quiet_releases(rt: HostRuntime) {
    let (monitor, seats) = new_monitor(&rt, rt.alloc(), 2);
    let (lock, _) = two_locks(&rt, &monitor, seats);
    let (lock, three) = set_quietly(&rt, lock, 3);
    let (lock, two) = set_quietly(&rt, lock, 2);
    let (lock, four) = set_quietly(&rt, lock, 4);
    let came = ([three, two, four], row_at_end(lock));
    assert_eq!(rt; came, ([false, true, false], Some([4, 0])));
}

/// Tries to lock, and sets the first cell to 1 where it succeeds. Else it moves the clock to the tick.
fn set_by_tries<R: Wait>(rt: &R, mut lock: Lock<'_>, mut watcher: Watcher<'_>) -> bool {
    for _ in 0..MANY_TRIES {
        match lock.try_lock() {
            Ok(mut held) => {
                held.set(0, 1);
                held.unlock(rt);
                return true;
            }
            Err(back) => lock = back,
        }
        yield_now();
    }
    watcher.advance(TICK);
    false
}

/// One thread waits in its section, at most until the tick, and the other tries to lock meanwhile.
fn wait_and_try<'m, R: Threads + Wait + Sync>(
    rt: &R,
    held: Held<'m>,
    second: Lock<'m>,
    mine: Watcher<'m>,
    theirs: Watcher<'m>,
) -> (Lock<'m>, Option<Answer>, bool) {
    let ((lock, answer), succeeded) = join(
        rt,
        move || -> (Lock<'_>, Option<Answer>)
            requires { IsSync R.row }
        { wait_and_count(rt, held, false, None, mine) },
        move || -> bool
            requires { IsSync R.row }
        { set_by_tries(rt, second, theirs) },
    );
    (lock, answer, succeeded)
}

/// A wait leaves its section: another, which only tries, gets the lock, and makes the condition true.
#[test]
fn released(rt: HostRuntime) {
    let (monitor, seats) = new_monitor(&rt, rt.alloc(), 2);
    let (first, second) = two_locks(&rt, &monitor, seats);
    let (env, env_seats) = new_env(&rt, rt.alloc(), 2);
    let (mine, theirs) = two_watchers(&rt, &env, env_seats);
    let held = first.lock(&rt);
    let (lock, answer, succeeded) = wait_and_try(&rt, held, second, mine, theirs);
    let came = (succeeded, answer, row_at_end(lock));
    assert_eq!(rt; came, (true, Some(Answer::Met), Some([1, 1])));
}

/// Waits until the first cell is the number of its next turn, and adds 1 to it. Its turns are every
/// second number, from this one on. Answers how often it found another number.
fn take_turns<'m, R: Wait>(rt: &R, mut lock: Lock<'m>, first: u64) -> (Lock<'m>, u64) {
    let mut ticket = first;
    let mut wrong = 0u64;
    for _ in 0..TURNS {
        let mut held = lock.lock(rt).wait(rt, AtLeast { least: ticket });
        let found = held.get(0);
        if found != ticket {
            wrong = wrong.wrapping_add(1);
        }
        held.set(0, found.wrapping_add(1));
        lock = held.unlock(rt);
        ticket = ticket.wrapping_add(2);
    }
    (lock, wrong)
}

/// Two threads take turns.
fn take_turns_twice<'m, R: Threads + Wait + Sync>(
    rt: &R,
    first: Lock<'m>,
    second: Lock<'m>,
) -> (Lock<'m>, u64, u64) {
    let ((lock, wrong), (_, others)) = join(
        rt,
        move || -> (Lock<'_>, u64)
            requires { IsSync R.row }
        { take_turns(rt, first, 0) },
        move || -> (Lock<'_>, u64)
            requires { IsSync R.row }
        { take_turns(rt, second, 1) },
    );
    (lock, wrong, others)
}

/// Two threads hand the first cell to and fro, and neither ever waits in vain.
#[test]
fn parked(rt: HostRuntime) {
    let (monitor, seats) = new_monitor(&rt, rt.alloc(), 2);
    let (first, second) = two_locks(&rt, &monitor, seats);
    let (lock, wrong, others) = take_turns_twice(&rt, first, second);
    let came = (wrong, others, row_at_end(lock));
    assert_eq!(rt; came, (0, 0, Some([2_000, 0])));
}
