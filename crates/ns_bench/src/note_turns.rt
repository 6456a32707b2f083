//! Two threads that hand a turn to and fro by notes: each notifies the note for which the other waits.
//!
//! An environment has 64 notes, so there is one for each 64 operations.

ghost use Rattle.std.specs.Prelude.{◌≡◌, ◌<◌};
ghost use Rattle.std.specs.Arc.{arc_value};

use crate::amount::{Amount, Count};
use crate::running::{Job, Work, play};
use ns_note::env::Env;
use ns_note::note::Note;
use ns_note::seat::EnvSeat;
use ns_note::watcher::Watcher;
use std::alloc::Global;
use std::sync::{Arc, Wait};
use std::thread::Threads;

/// How many notes an environment has.
const NOTES: u64 = 64;

/// An environment that two threads share, and a seat of it.
#[derive(Drop)]
struct Leg {
    env: Arc<Env, Global>,
    seat: EnvSeat,
    ghost of: { seat.env ≡ arc_value env },
}

/// Makes so many notes. Answers whether each could be made.
fn make_notes(watcher: &mut Watcher<'_>, count: u64) -> bool {
    for _ in 0..count {
        if watcher.note_new(None, None).is_err() {
            return false;
        }
    }
    true
}

/// The legs of both threads at a new environment with so many notes, which a third seat makes.
fn leg_of_each(alloc: Global, count: u64) -> Option<(Leg, Leg)> {
    let (env, mut seats) = Env::new(alloc, 3).ok()?;
    let (one, two) = seats.pop().zip(seats.pop())?;
    if !make_notes(&mut env.watchers(seats).next()?, count) {
        return None;
    }
    let env = Arc::new(alloc, env).ok()?;
    let again = env.clone().ok()?;
    Some((
        Leg { env, seat: one },
        Leg {
            env: again,
            seat: two,
        },
    ))
}

/// What both threads have of their own, at as many environments as so many operations take: nothing for the one
/// beside them, which is the last.
fn legs_of_all(alloc: Global, operations: u64) -> Option<Vec<Vec<Leg>>> {
    let mut first = Vec::new(alloc);
    let mut second = Vec::new(alloc);
    for k in 0..operations.div_ceil(NOTES) {
        let made = k.saturating_mul(NOTES);
        let (one, two) = leg_of_each(alloc, NOTES.min(operations.saturating_sub(made)))?;
        first.push(one).ok()?;
        second.push(two).ok()?;
    }
    let mut all = Vec::new(alloc);
    all.push(second).ok()?;
    all.push(first).ok()?;
    all.push(Vec::new(alloc)).ok()?;
    Some(all)
}

/// Notifies the note of this number, where the watcher knows it, once the one before it is notified. Answers
/// whether it has.
fn take_turn<R: Wait>(rt: &R, watcher: &mut Watcher<'_>, index: u8) -> bool
    requires { index < 64 }
{
    if index > 0 {
        let last = Note { index: index - 1 };
        if !(watcher.knows(last) && watcher.note_wait(rt, last, None)) {
            return false;
        }
    }
    let note = Note { index };
    if !watcher.knows(note) {
        return false;
    }
    watcher.notify(note);
    true
}

/// Takes every second turn at an environment, from this one on, and counts them.
fn take_turns<R: Wait>(rt: &R, leg: Leg, first: u8) -> u64 {
    let Leg { env, seat } = leg;
    let mut watcher = Watcher::new(&env, seat);
    let mut count = 0u64;
    for index in 0..NOTES as u8 {
        if index % 2 == first && take_turn(rt, &mut watcher, index) {
            count = count.wrapping_add(1);
        }
    }
    count
}

/// The workload.
#[derive(Clone, Copy)]
struct Turns;

impl Work<Vec<Leg>> for Turns {
    /// Takes every second turn at all environments, and counts them.
    fn work<R: Wait>(self, rt: &R, job: Job<Vec<Leg>>, _amount: Amount) -> Count {
        let Job { number, own: legs } = job;
        let mut count = 0u64;
        for leg in legs {
            count = count.wrapping_add(take_turns(rt, leg, (number % 2) as u8));
        }
        Count::of_writes(count)
    }

    /// All turns are taken.
    fn is_right(self, _legs: Vec<Leg>, total: Count, amount: Amount) -> bool {
        total.writes == amount.operations
    }
}

/// Runs the workload, and answers whether all turns were taken; nothing where it could not be begun, or isn't for
/// so many threads.
pub fn run<R: Threads + Wait + Sync>(rt: &R, alloc: Global, amount: Amount) -> Option<bool> {
    if amount.threads != 2 {
        return None;
    }
    play(
        rt,
        alloc,
        Turns,
        amount,
        legs_of_all(alloc, amount.operations)?,
    )
}
