//! Looks at a note, by one thread.

ghost use Rattle.ns_model.specs.Environments.{IsMade};

use crate::amount::{Amount, Count};
use crate::running::{Job, Work, play};
use ns_note::env::Env;
use ns_note::note::Note;
use ns_note::watcher::Watcher;
use std::alloc::Global;
use std::sync::Wait;
use std::thread::Threads;

/// Which note is looked at, and how.
#[derive(Clone, Copy)]
pub enum Looks {
    /// One that is not notified.
    Not,
    /// One that is.
    Notified,
    /// One below two others, none of them notified.
    Child,
    /// One that is not notified is waited for, with a deadline that has come.
    TimedOut,
}

/// A note, and who has seen it made.
#[derive(Drop)]
pub struct Watched<'e> {
    /// Who has seen it made.
    pub watcher: Watcher<'e>,
    /// The note.
    pub note: Note,
    ghost made: { IsMade watcher.seen note.index },
}

impl<'e> Watched<'e> {
    /// A new note that is looked at so.
    pub fn new(mut watcher: Watcher<'e>, looks: Looks) -> Option<Self> {
        let root = watcher.note_new(None, None).ok()?;
        let note = match looks {
            Looks::Not | Looks::TimedOut => root,
            Looks::Notified => {
                watcher.notify(root);
                root
            }
            Looks::Child => {
                let middle = watcher.note_new(Some(root), None).ok()?;
                watcher.note_new(Some(middle), None).ok()?
            }
        };
        if watcher.knows(note) {
            Some(Watched { watcher, note })
        } else {
            None
        }
    }
}

/// How often the note is found notified, of so many times.
///
/// In each loop the call stands by itself: a function that may wait costs its caller a look at whether it was cut
/// short. The loop stands by itself, too: inlined into what makes the threads it would have fewer registers.
#[inline(never)]
#[tactic(auto, using(ns_note::proofs::Rests::made_grows))]
fn look_often(watched: Watched<'_>, times: u64) -> u64 {
    let Watched { mut watcher, note } = watched;
    let mut count = 0u64;
    for _ in 0..times {
        if watcher.is_notified(note) {
            count = count.wrapping_add(1);
        }
    }
    count
}

/// How often the note is notified by a moment that has come, of so many times.
#[inline(never)]
#[tactic(auto, using(ns_note::proofs::Rests::made_grows))]
fn wait_often<R: Wait>(rt: &R, watched: Watched<'_>, times: u64) -> u64 {
    let Watched { mut watcher, note } = watched;
    let mut count = 0u64;
    for _ in 0..times {
        if watcher.note_wait(rt, note, Some(0)) {
            count = count.wrapping_add(1);
        }
    }
    count
}

impl<'e> Work<Watcher<'e>> for Looks {
    /// Makes the note and looks at it so many times, and counts how often it is notified.
    fn work<R: Wait>(self, rt: &R, job: Job<Watcher<'e>>, amount: Amount) -> Count {
        let times = amount.operations;
        Count::of_writes(match Watched::new(job.own, self) {
            None => 0,
            Some(watched) if matches!(self, Looks::TimedOut) => wait_often(rt, watched, times),
            Some(watched) => look_often(watched, times),
        })
    }

    /// Each look has found what it has to.
    fn is_right(self, _watcher: Watcher<'e>, total: Count, amount: Amount) -> bool {
        let notified = if matches!(self, Looks::Notified) {
            amount.operations
        } else {
            0
        };
        total.writes == notified
    }
}

/// Runs a workload, and answers whether it has ended as it must; nothing where it could not be begun, or isn't for
/// so many threads.
pub fn run<R: Threads + Wait + Sync>(
    rt: &R,
    alloc: Global,
    looks: Looks,
    amount: Amount,
) -> Option<bool> {
    if amount.threads != 1 {
        return None;
    }
    let (env, seats) = Env::new(alloc, 2).ok()?;
    play(rt, alloc, looks, amount, env.watchers(seats))
}
