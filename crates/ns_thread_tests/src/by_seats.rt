//! The calls by seats, below handles, of which a handle's call has a body of its own: each is run once by one thread.

ghost use Rattle.std.specs.Prelude.{◌≡◌, ◌<◌};

use crate::locks::new_monitor;
use crate::note::new_env;
use ns_fixtures::AtLeast;
use ns_model::event::Answer;
use ns_monitor::{Monitor, Seat};
use ns_note::env::Env;
use ns_note::seat::EnvSeat;
use ns_objects::objects::Objects;
use ns_objects::running::Once;
use ns_objects::seat::ObjSeat;
use std::sync::Wait;

/// Sets a cell in a write section.
fn write<R: Wait>(rt: &R, monitor: &Monitor<AtLeast, 2>, seat: Seat<AtLeast, 2>) -> Seat<AtLeast, 2>
    requires { seat.monitor ≡ monitor.now }
    ensures { result.monitor ≡ monitor.now }
{
    let mut held = monitor.lock(rt, seat);
    monitor.set(&mut held, 1, 5);
    monitor.unlock(rt, held)
}

/// Reads it in a read section.
fn read<R: Wait>(
    rt: &R,
    monitor: &Monitor<AtLeast, 2>,
    seat: Seat<AtLeast, 2>,
) -> (Seat<AtLeast, 2>, u64)
    requires { seat.monitor ≡ monitor.now }
    ensures { result.0.monitor ≡ monitor.now }
{
    let mut held = monitor.rlock(rt, seat);
    let value = monitor.get(&mut held, 1);
    (monitor.runlock(rt, held), value)
}

/// Waits in a section until a moment that has come, and ends it quietly.
fn wait_in_vain<R: Wait>(
    rt: &R,
    monitor: &Monitor<AtLeast, 2>,
    seat: Seat<AtLeast, 2>,
    env: &Env,
    env_seat: &mut EnvSeat,
) -> Answer
    requires seat { seat.monitor ≡ monitor.now }
    requires env { env_seat.old.env ≡ env.now }
{
    let held = monitor.lock(rt, seat);
    let wish = AtLeast { least: 1 };
    let (mut held, answer) = monitor.wait_with_deadline(
        rt,
        held,
        wish,
        Some(0),
        None,
        env,
        env_seat,
    );
    if monitor.is_quiet(&mut held) {
        monitor.unlock_without_wakeup(rt, held);
    } else {
        monitor.unlock(rt, held);
    }
    answer
}

/// A seat locks, reads, and waits in vain.
#[test]
fn sections_by_seats(rt: HostRuntime) {
    let (monitor, mut seats) = new_monitor(&rt, rt.alloc(), 1);
    let (env, mut env_seats) = new_env(&rt, rt.alloc(), 1);
    let seat = seats.pop().expect(&rt, "a seat");
    let mut env_seat = env_seats.pop().expect(&rt, "a seat");
    let seat = write(&rt, &monitor, seat);
    let (seat, value) = read(&rt, &monitor, seat);
    assert_eq!(rt; value, 5);
    let answer = wait_in_vain(&rt, &monitor, seat, &env, &mut env_seat);
    assert_eq!(rt; answer, Answer::TimedOut);
}

/// Waits for a new note that it has notified.
#[tactic(auto, using(ns_note::proofs::Rests::made_grows))]
fn wait_for_note<R: Wait>(rt: &R, env: &Env, seat: &mut EnvSeat) -> Option<bool>
    requires { seat.old.env ≡ env.now }
{
    let note = env.note_new(seat, None, None).ok()?;
    env.notify(seat, note);
    Some(env.note_wait(rt, seat, note, None))
}

/// A seat waits for a note.
#[test]
fn note_by_seat(rt: HostRuntime) {
    let (env, mut seats) = new_env(&rt, rt.alloc(), 1);
    let mut seat = seats.pop().expect(&rt, "a seat");
    assert_eq!(rt; wait_for_note(&rt, &env, &mut seat), Some(true));
}

/// Takes 1 from the counter, and would have two functions run.
fn use_both<R: Wait>(
    rt: &R,
    objects: &Objects,
    seat: &mut ObjSeat,
) -> (Option<u32>, Once<u8>, Once<u8>)
    requires of { seat.old.objects ≡ objects.now }
    requires both { (0 < seat.old.setup.counters) × (0 < seat.old.setup.cells) }
{
    let left = objects.counter_add(rt, seat, 0, -1).ok();
    let first = objects.run_once(rt, seat, 0, || 7);
    (left, first, objects.run_once(rt, seat, 0, || 8))
}

/// A seat changes a counter and has a function run.
#[test]
fn objects_by_seat(rt: HostRuntime) {
    let (objects, mut seats) = Objects::new(rt.alloc(), &[3], 1, 1)
        .ok()
        .expect(&rt, "objects");
    let mut seat = seats.pop().expect(&rt, "a seat");
    let used = use_both(&rt, &objects, &mut seat);
    assert_eq!(rt; used, (Some(2), Once::Ran(7), Once::Already));
}
