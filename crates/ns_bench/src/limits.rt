//! Waits that end at once, since their deadline has come or their note is notified.

use crate::amount::{Amount, Count};
use crate::never::{OneCell, OneHandle};
use crate::notes::{Looks, Watched};
use crate::running::{Job, Work, last_row, play};
use ns_fixtures::Never;
use ns_monitor::Answer;
use ns_note::env::Env;
use ns_note::watcher::Watcher;
use std::alloc::Global;
use std::sync::Wait;
use std::thread::Threads;

/// What ends each wait.
#[derive(Clone, Copy)]
pub enum EarlyEnd {
    /// A deadline that has come.
    Deadline,
    /// The same, of a wait for a condition variable.
    DeadlineAtVariable,
    /// A note that is notified.
    Note,
}

/// What a thread has of its own.
type Own<'m, 'e> = (OneHandle<'m>, Watcher<'e>);

/// Waits so many times in one section, and counts how often a deadline that has come has ended it.
///
/// In this function and the next the loop has one call, which the compiler inlines, and stands by itself, so that it
/// has all registers.
#[inline(never)]
fn count_late<R: Wait>(rt: &R, handle: OneHandle<'_>, mut watcher: Watcher<'_>, times: u64) -> u64 {
    let mut held = handle.lock(rt);
    let mut count = 0u64;
    for _ in 0..times {
        let (back, answer) = held.wait_with_deadline(rt, Never, Some(0), None, &mut watcher);
        held = back;
        if answer == Answer::TimedOut {
            count = count.wrapping_add(1);
        }
    }
    held.unlock(rt);
    count
}

/// Waits so many times in one section, and counts how often the note has ended it.
#[inline(never)]
#[tactic(auto, using(ns_note::proofs::Rests::made_grows))]
fn count_canceled<R: Wait>(rt: &R, handle: OneHandle<'_>, watched: Watched<'_>, times: u64) -> u64 {
    let Watched { mut watcher, note } = watched;
    let mut held = handle.lock(rt);
    let mut count = 0u64;
    for _ in 0..times {
        let (back, answer) = held.wait_with_deadline(rt, Never, None, Some(note), &mut watcher);
        held = back;
        if answer == Answer::Canceled {
            count = count.wrapping_add(1);
        }
    }
    held.unlock(rt);
    count
}

/// Waits for a variable so many times in one section, and counts how often a deadline that has come has ended it.
fn count_late_at_variable<R: Wait>(
    rt: &R,
    handle: OneHandle<'_>,
    mut watcher: Watcher<'_>,
    times: u64,
) -> u64 {
    let mut held = handle.lock(rt);
    let mut count = 0u64;
    for _ in 0..times {
        let (back, answer) = held.cv_wait_with_deadline(rt, 0, Some(0), None, &mut watcher);
        held = back;
        if answer == Answer::TimedOut {
            count = count.wrapping_add(1);
        }
    }
    held.unlock(rt);
    count
}

impl<'m, 'e> Work<Own<'m, 'e>> for EarlyEnd {
    /// Waits so many times, and counts how often the deadline or the note has ended it.
    fn work<R: Wait>(self, rt: &R, job: Job<Own<'m, 'e>>, amount: Amount) -> Count {
        let (handle, watcher) = job.own;
        let times = amount.operations;
        Count::of_writes(match self {
            EarlyEnd::Deadline => count_late(rt, handle, watcher, times),
            EarlyEnd::DeadlineAtVariable => count_late_at_variable(rt, handle, watcher, times),
            EarlyEnd::Note => match Watched::new(watcher, Looks::Notified) {
                Some(watched) => count_canceled(rt, handle, watched, times),
                None => 0,
            },
        })
    }

    /// Each wait was ended so.
    fn is_right(self, own: Own<'m, 'e>, total: Count, amount: Amount) -> bool {
        last_row(own.0).is_some() && total.writes == amount.operations
    }
}

/// Runs a workload, and answers whether it has ended as it must, with a free lock; nothing where it could not be
/// begun, or isn't for so many threads.
pub fn run<R: Threads + Wait + Sync>(
    rt: &R,
    alloc: Global,
    early_end: EarlyEnd,
    amount: Amount,
) -> Option<bool> {
    if amount.threads != 1 {
        return None;
    }
    let (monitor, seats) = OneCell::new(alloc, 2).ok()?;
    let (env, env_seats) = Env::new(alloc, 2).ok()?;
    let source = (monitor.handles(seats), env.watchers(env_seats));
    play(rt, alloc, early_end, amount, source)
}
