//! The whole: what the threads share is made, they are started and joined, and their sums added.

ghost use Rattle.std.specs.Prelude.{IfSome};
ghost use Rattle.std.specs.Thread.{IsSync};
ghost use Rattle.ns_model.specs.Environments.{IsMade};

use crate::commons::Commons;
use crate::crew::{Crew, Job, crew_of, work};
use crate::fault::LiveFault;
use ns_fixtures::RingMonitor;
use ns_note::env::Env;
use ns_note::note::Note;
use ns_note::watcher::{Watcher, Watchers};
use std::alloc::Global;
use std::sync::Wait;
use std::thread;
use std::thread::{JoinHandle, Scope, Threads};

/// The caller's own watcher, and a note that it has made.
fn new_note<'e>(watchers: &mut Watchers<'e>) -> Option<(Watcher<'e>, Note)>
    ensures { IfSome result (λ r. IsMade r.0.seen r.1.index) }
{
    let mut watcher = watchers.next()?;
    let Ok(note) = watcher.note_new(None, None) else {
        return None;
    };
    Some((watcher, note))
}

/// Waits for a thread's end, if it was started, and answers its sum.
fn joined<R: Threads>(rt: &R, started: Option<JoinHandle<u64>>) -> Option<u64> {
    Some(started?.join(rt))
}

/// Starts a thread for this work, if one can be made.
fn started<'s, E, R: Wait + Sync>(
    scope: &Scope<'s, E>,
    rt: &'s R,
    commons: Commons,
    job: Job<'s, 's>,
) -> Option<JoinHandle<u64>>
    requires { IsSync R.row }
{
    let handle = scope.spawn(
        move || -> u64
            requires { IsSync R.row }
        { work(rt, commons, job) },
    );
    handle.ok()
}

/// Has the four threads do their work, and answers what they have taken. Where one can't be made, the
/// others are told to end by the note.
///
/// The threads are made by `thread::scope`, whose `spawn` says where one can't be made. Where `join` can't
/// make one, it makes the calls of both one behind the other, and the first would wait for good.
fn played<R: Threads + Wait + Sync>(
    rt: &R,
    commons: Commons,
    crew: Crew<'_, '_>,
    watcher: Watcher<'_>,
) -> Option<u64>
    requires { IsMade watcher.seen commons.note.index }
{
    let mut watcher = watcher;
    thread::scope(
        thread::scope_env(),
        rt,
        move |scope| -> Option<u64>
            requires { IsSync R.row × IsMade watcher.seen commons.note.index }
        {
            let Crew {
                odd,
                even,
                first,
                second,
            } = crew;
            let odd = started(scope, rt, commons, odd);
            let even = started(scope, rt, commons, even);
            let first = started(scope, rt, commons, first);
            let second = started(scope, rt, commons, second);
            if odd.is_none() || even.is_none() || first.is_none() || second.is_none() {
                watcher.notify(commons.note);
            }
            let ended = (joined(rt, odd), joined(rt, even));
            match (ended, joined(rt, first), joined(rt, second)) {
                ((Some(_), Some(_)), Some(one), Some(other)) => Some(one.wrapping_add(other)),
                _ => None,
            }
        },
    )
}

/// Has two threads put the numbers from 1 to `items` through a ring, which two others take out and add,
/// and answers the sum.
///
/// Refuses where memory is refused (`OutOfMemory`) or a thread can't be made (`NoThread`); the threads
/// that were made have ended then.
pub fn live<R: Threads + Wait + Sync>(rt: &R, alloc: Global, items: u64) -> Result<u64, LiveFault> {
    let Ok((monitor, seats)) = RingMonitor::new(alloc, 4) else {
        return Err(LiveFault::OutOfMemory);
    };
    let Ok((env, env_seats)) = Env::new(alloc, 5) else {
        return Err(LiveFault::OutOfMemory);
    };
    let mut handles = monitor.handles(seats);
    let mut watchers = env.watchers(env_seats);
    // Never refused from here on: the environment is new, and there are as many seats as are asked for.
    let Some((watcher, note)) = new_note(&mut watchers) else {
        return Err(LiveFault::OutOfMemory);
    };
    let Some(crew) = crew_of(&mut handles, &mut watchers) else {
        return Err(LiveFault::OutOfMemory);
    };
    played(rt, Commons { note, items }, crew, watcher).ok_or(LiveFault::NoThread)
}
