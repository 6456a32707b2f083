//! What no clause says of a monitor: that its calls succeed where they can, and that threads meet in
//! it.

ghost use Rattle.std.specs.Prelude.{◌≡◌, ◌<◌, IfSome};
ghost use Rattle.std.specs.Thread.{IsSync};

use crate::locks::{Lock, MANY_TRIES, count, new_monitor, row_at_end, two_locks};
use crate::note::{is_notified, new_env, notify, two_watchers};
use ns_fixtures::AtLeast;
use ns_monitor::{Fault, Handle, Monitor, Seat};
use ns_note::note::Note;
use ns_note::watcher::Watcher;
use std::alloc::Global;
use std::sync::Wait;
use std::test::Fail;
use std::thread::{Threads, join, yield_now};

/// How often a thread tries.
const TRIES: u64 = 10_000;

/// Tries to lock, and sets the second cell to 7.
fn write_by_try<'m, R: Wait>(rt: &R, lock: Lock<'m>) -> Option<Lock<'m>>
    ensures { IfSome result (λ back. back.monitor ≡ lock.entry.monitor) }
{
    let mut held = lock.try_lock().ok()?;
    held.set(1, 7);
    Some(held.unlock(rt))
}

/// Two try to read beside each other, between which the second tries to write in vain. They meet as they read,
/// and behind that; what the first reads.
fn read_by_tries<'m, R: Wait>(
    rt: &R,
    first: Lock<'m>,
    second: Lock<'m>,
) -> Option<((Lock<'m>, Lock<'m>), u64)>
    requires { first.monitor ≡ second.monitor }
{
    let held = first.try_rlock().ok()?;
    let second = second.try_lock().err()?;
    let other = second.try_rlock().ok()?;
    let (mut held, other) = held.both_read(other);
    let value = held.get(1);
    let first = held.runlock(rt);
    let second = other.runlock(rt);
    Some((first.meet(second), value))
}

/// A writer's try, two readers' beside each other, and a writer's that finds the lock held.
fn try_each<R: Wait>(rt: &R, first: Lock<'_>, second: Lock<'_>) -> Option<u64>
    requires { first.monitor ≡ second.monitor }
{
    let first = write_by_try(rt, first)?;
    let (_, value) = read_by_tries(rt, first, second)?;
    Some(value)
}

/// Ends a monitor. Tells whether the lock is free, and the cells.
fn end(monitor: Monitor<AtLeast, 2>, seat: Seat<AtLeast, 2>) -> (bool, [u64; 2])
    requires { seat.monitor ≡ monitor }
{
    let closed = monitor.close(seat);
    let row = closed.row;
    (closed.free, row)
}

/// Ends a monitor while the second has a section in hand. Tells whether the lock is free, and the cells.
fn close_while_held(
    monitor: Monitor<AtLeast, 2>,
    first: Seat<AtLeast, 2>,
    second: Seat<AtLeast, 2>,
) -> Option<(bool, [u64; 2])>
    requires { (first.monitor ≡ monitor) × (second.monitor ≡ monitor) }
{
    let mut held = monitor.try_lock(second).ok()?;
    monitor.set(&mut held, 0, 3);
    let first = Handle::new(&monitor, first).into_seat(); // so that `into_seat` is run
    Some(end(monitor, first))
}

/// Tries by handles.
#[test]
fn tries(rt: HostRuntime) {
    let (monitor, seats) = new_monitor(&rt, rt.alloc(), 2);
    let (first, second) = two_locks(&rt, &monitor, seats);
    assert_eq!(rt; try_each(&rt, first, second), Some(7));
}

/// A monitor that is closed while a section is in hand says so.
#[test]
fn closed_while_held(rt: HostRuntime) {
    let (monitor, mut seats) = new_monitor(&rt, rt.alloc(), 2);
    let second = seats.pop().expect(&rt, "a seat");
    let first = seats.pop().expect(&rt, "a seat");
    let closed = close_while_held(monitor, first, second);
    assert_eq!(rt; closed, Some((false, [3, 0])));
}

/// Tries to lock, and adds 1 to a cell where it succeeds; tells how often it did.
fn add_many<R: Wait>(rt: &R, mut lock: Lock<'_>) -> u64 {
    let mut won = 0u64;
    for _ in 0..TRIES {
        lock = match lock.try_lock() {
            Ok(mut held) => {
                count(&mut held, 0);
                won = won.wrapping_add(1);
                held.unlock(rt)
            }
            Err(back) => back,
        };
    }
    won
}

/// Two threads add, each as often as its tries succeed; how often both did.
fn add_twice<R: Threads + Wait + Sync>(rt: &R, first: Lock<'_>, second: Lock<'_>) -> u64 {
    let (won, other) = join(
        rt,
        move || -> u64
            requires { IsSync R.row }
        { add_many(rt, first) },
        move || -> u64
            requires { IsSync R.row }
        { add_many(rt, second) },
    );
    won.wrapping_add(other)
}

/// No addition is lost, and the lock ends free.
#[test]
fn two_adders(rt: HostRuntime) {
    let (monitor, mut seats) = new_monitor(&rt, rt.alloc(), 3);
    let last = seats.pop().expect(&rt, "a seat");
    let (first, second) = two_locks(&rt, &monitor, seats);
    let won = add_twice(&rt, first, second);
    assert!(rt; won > 0);
    assert_eq!(rt; end(monitor, last), (true, [won, 0]));
}

/// Looks until the note is seen to be notified, and answers whether it was.
fn looks_for(watcher: &mut Watcher<'_>, note: Note) -> bool {
    for _ in 0..MANY_TRIES {
        if is_notified(watcher, note) == Some(true) {
            return true;
        }
        yield_now();
    }
    false
}

/// In a read section, notifies the one note and looks for the other. Answers whether it saw that.
fn read_and_look<R: Wait>(
    rt: &R,
    lock: Lock<'_>,
    mut watcher: Watcher<'_>,
    mine: Note,
    other: Note,
) -> bool {
    let held = lock.rlock(rt);
    let _ = notify(&mut watcher, mine);
    let seen = looks_for(&mut watcher, other);
    held.runlock(rt);
    seen
}

/// Two threads look for each other's note, each in a read section.
fn look_for_each_other<R: Threads + Wait + Sync>(
    rt: &R,
    locks: (Lock<'_>, Lock<'_>),
    watchers: (Watcher<'_>, Watcher<'_>),
    notes: (Note, Note),
) -> (bool, bool) {
    let (first, second) = locks;
    let (one, two) = watchers;
    join(
        rt,
        move || -> bool
            requires { IsSync R.row }
        { read_and_look(rt, first, one, notes.0, notes.1) },
        move || -> bool
            requires { IsSync R.row }
        { read_and_look(rt, second, two, notes.1, notes.0) },
    )
}

/// Two threads are in read sections at once: each sees there that the other is in its own.
#[test]
fn two_readers(rt: HostRuntime) -> Result<(), Fail> {
    let (monitor, seats) = new_monitor(&rt, rt.alloc(), 2);
    let locks = two_locks(&rt, &monitor, seats);
    let (env, env_seats) = new_env(&rt, rt.alloc(), 2);
    let (mut one, two) = two_watchers(&rt, &env, env_seats);
    let notes = (one.note_new(None, None)?, one.note_new(None, None)?);
    let seen = look_for_each_other(&rt, locks, (one, two), notes);
    assert_eq!(rt; seen, (true, true));
    Ok(())
}

/// How many seats are made of so many, or why no monitor is.
fn seats_of(alloc: Global, seats: usize) -> Result<usize, Fault>
    requires { 0 < seats }
{
    let (_monitor, made) = Monitor::<AtLeast, 2>::new(alloc, seats)?;
    Ok(made.len())
}

/// 64 seats are made, and 65 are refused before any memory is asked for.
#[test]
fn too_many_seats(rt: HostRuntime) {
    let made = [seats_of(rt.alloc(), 64), seats_of(rt.alloc(), 65)];
    assert_eq!(rt; made, [Ok(64), Err(Fault::TooManySeats)]);
}

/// With each allocation refused in turn no monitor is made, for that reason.
#[test]
fn refused_memory(rt: HostRuntime) {
    let made = seats_of(rt.alloc(), 3);
    assert!(rt; matches!(made, Ok(3) | Err(Fault::OutOfMemory)));
}

/// Any `Condition<2>`, by the name that it has in the example.
type Plain = AtLeast;

/// The example at the head of the crate.
#[test]
fn head_example(rt: HostRuntime) -> Result<(), Fail> {
    let (monitor, seats) = Monitor::<Plain, 2>::new(rt.alloc(), 2)?; // `Plain` is any `Condition<2>`
    let Some((mut lock, _other)) = monitor.handles(seats).pair() else {
        return Ok(());
    }; // a handle for each thread

    let mut held = lock.lock(&rt); // waits while somebody else holds the lock
    let value = held.get(0);
    held.set(0, value.wrapping_add(1));
    lock = held.unlock(&rt);

    lock = match lock.try_rlock() {
        Ok(held) => held.runlock(&rt),
        Err(lock) => lock, // somebody else writes or waits to, or has just changed the lock's word
    };

    assert_eq!(rt; row_at_end(lock), Some([1, 0]));
    Ok(())
}
