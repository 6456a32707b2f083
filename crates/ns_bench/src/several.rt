//! Waits for any of three notes of which the last is notified, by one thread.

ghost use Rattle.ns_model.specs.Environments.{IsMade};

use crate::amount::{Amount, Count};
use crate::running::{Job, Work, play};
use ns_note::env::Env;
use ns_note::note::Note;
use ns_note::watcher::Watcher;
use ns_objects::any::Item;
use ns_objects::objects::Objects;
use ns_objects::sharer::Sharer;
use std::alloc::Global;
use std::sync::Wait;
use std::thread::Threads;

/// The workload.
#[derive(Clone, Copy)]
pub struct AnyReady;

/// What the thread has of its own.
type Own<'o, 'e> = (Sharer<'o>, Watcher<'e>);

/// Three notes of which the last is notified, and who has seen them made.
#[derive(Drop)]
struct Ready<'e> {
    watcher: Watcher<'e>,
    one: Note,
    two: Note,
    last: Note,
    ghost made: { IsMade watcher.seen one.index × IsMade watcher.seen two.index × IsMade watcher.seen last.index },
}

impl<'e> Ready<'e> {
    /// Makes them.
    #[tactic(auto, using(ns_note::proofs::Rests::made_grows))]
    fn new(mut watcher: Watcher<'e>) -> Option<Self> {
        let one = watcher.note_new(None, None).ok()?;
        let two = watcher.note_new(None, None).ok()?;
        let last = watcher.note_new(None, None).ok()?;
        watcher.notify(last);
        Some(Ready {
            watcher,
            one,
            two,
            last,
        })
    }
}

/// How often the last of the notes ends the wait, of so many times.
#[tactic(auto, using(ns_note::proofs::Rests::made_grows))]
fn wait_often<R: Wait>(rt: &R, mut sharer: Sharer<'_>, ready: Ready<'_>, times: u64) -> u64 {
    let Ready {
        mut watcher,
        one,
        two,
        last,
    } = ready;
    let items = [Item::Note(one), Item::Note(two), Item::Note(last)];
    let mut count = 0u64;
    for _ in 0..times {
        if sharer.wait_any(rt, &items, None, &mut watcher) == 2 {
            count = count.wrapping_add(1);
        }
    }
    count
}

impl<'o, 'e> Work<Own<'o, 'e>> for AnyReady {
    /// Makes the notes and waits so many times, and counts how often the last has ended it.
    fn work<R: Wait>(self, rt: &R, job: Job<Own<'o, 'e>>, amount: Amount) -> Count {
        let (sharer, watcher) = job.own;
        Count::of_writes(match Ready::new(watcher) {
            None => 0,
            Some(ready) => wait_often(rt, sharer, ready, amount.operations),
        })
    }

    /// Each wait was ended so.
    fn is_right(self, _own: Own<'o, 'e>, total: Count, amount: Amount) -> bool {
        total.writes == amount.operations
    }
}

/// Runs the workload, and answers whether it has ended as it must; nothing where it could not be begun, or isn't
/// for so many threads.
pub fn run<R: Threads + Wait + Sync>(rt: &R, alloc: Global, amount: Amount) -> Option<bool> {
    if amount.threads != 1 {
        return None;
    }
    let (objects, seats) = Objects::new(alloc, &[], 0, 2).ok()?;
    let (env, env_seats) = Env::new(alloc, 2).ok()?;
    let source = (objects.sharers(seats), env.watchers(env_seats));
    play(rt, alloc, AnyReady, amount, source)
}
