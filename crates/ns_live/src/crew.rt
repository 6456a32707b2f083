//! The four threads: what each has of its own, and its work.

use crate::commons::{Commons, get_to_know};
use crate::consuming::consume;
use crate::producing::produce;
use ns_fixtures::{RingHandle, Wish};
use ns_monitor::Handles;
use ns_note::watcher::{Watcher, Watchers};
use std::sync::Wait;

/// What a thread does.
#[derive(Clone, Copy)]
enum Role {
    /// It puts every second number into the ring, from this one on.
    Produces(u64),
    /// It adds what it takes out of the ring.
    Consumes,
}

/// What a thread has of its own, and what it does.
#[derive(Drop)]
pub struct Job<'m, 'e> {
    ring: RingHandle<'m>,
    watcher: Watcher<'e>,
    role: Role,
}

/// The work of four threads.
#[derive(Drop)]
pub struct Crew<'m, 'e> {
    /// The first that puts items into the ring, the odd ones.
    pub odd: Job<'m, 'e>,
    /// The second, with the even ones.
    pub even: Job<'m, 'e>,
    /// The first that takes items out.
    pub first: Job<'m, 'e>,
    /// The second.
    pub second: Job<'m, 'e>,
}

/// The work of one more thread, as long as there are seats.
fn next_job<'m, 'e>(
    handles: &mut Handles<'m, Wish, 7>,
    watchers: &mut Watchers<'e>,
    role: Role,
) -> Option<Job<'m, 'e>> {
    let ring = handles.next()?;
    let watcher = watchers.next()?;
    Some(Job {
        ring,
        watcher,
        role,
    })
}

/// The work of all four, as long as there are seats.
pub fn crew_of<'m, 'e>(
    handles: &mut Handles<'m, Wish, 7>,
    watchers: &mut Watchers<'e>,
) -> Option<Crew<'m, 'e>> {
    let odd = next_job(handles, watchers, Role::Produces(1))?;
    let even = next_job(handles, watchers, Role::Produces(2))?;
    let first = next_job(handles, watchers, Role::Consumes)?;
    let second = next_job(handles, watchers, Role::Consumes)?;
    Some(Crew {
        odd,
        even,
        first,
        second,
    })
}

/// Does a thread's work, and answers the sum of what it has taken.
pub fn work<R: Wait>(rt: &R, commons: Commons, job: Job<'_, '_>) -> u64 {
    let Job {
        ring,
        mut watcher,
        role,
    } = job;
    get_to_know(rt, commons, &mut watcher);
    match role {
        Role::Produces(first) => {
            produce(rt, commons, ring, &mut watcher, first);
            0
        }
        Role::Consumes => consume(rt, commons, ring, &mut watcher),
    }
}
