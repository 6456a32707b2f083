//! The workloads on a row of six cells whose threads wait for condition variables: how they are run.

use crate::amount::{Amount, Count};
use crate::conditions::{ARRIVED, MARKS, SixCells, SixHandle};
use crate::idle::{wait_idly, work_beside};
use crate::running::{Job, Work, last_row, play};
use crate::signals::{begin_rounds, come_through_all, take_turns};
use ns_note::env::Env;
use ns_note::watcher::Watcher;
use std::alloc::Global;
use std::sync::Wait;
use std::thread::Threads;

/// What the threads do.
#[derive(Clone, Copy)]
pub enum Signaling {
    /// They hand a turn to and fro, each by the other's variable.
    Turns,
    /// They come through rounds, each of which begins with a broadcast.
    Rounds,
    /// They wait with a deadline for what doesn't come, beside long work.
    Idle,
}

/// What a thread has of its own.
type Own<'m, 'e> = (SixHandle<'m>, Watcher<'e>);

impl Signaling {
    /// Whether the row is as it has to be, and so many waits have timed out.
    fn fits(self, row: &[u64; 6], timed_out: u64, amount: Amount) -> bool {
        match self {
            Signaling::Turns => row[0] == 0,
            Signaling::Idle => timed_out == amount.threads,
            Signaling::Rounds => {
                let through = if amount.operations == 0 {
                    0
                } else {
                    amount.threads
                };
                row[MARKS] == amount.operations && row[ARRIVED] == through
            }
        }
    }
}

impl<'m, 'e> Work<Own<'m, 'e>> for Signaling {
    fn work<R: Wait>(self, rt: &R, job: Job<Own<'m, 'e>>, amount: Amount) -> Count {
        let Job { number, own } = job;
        let (handle, watcher) = own;
        let times = amount.operations / 2;
        match self {
            Signaling::Turns => take_turns(rt, handle, number, times, watcher),
            Signaling::Rounds => come_through_all(rt, handle, amount, watcher),
            Signaling::Idle => wait_idly(rt, handle, watcher),
        }
    }

    fn lead<R: Wait>(self, rt: &R, own: Own<'m, 'e>, amount: Amount) -> Own<'m, 'e> {
        let (handle, mut watcher) = own;
        let handle = match self {
            Signaling::Turns => handle,
            Signaling::Rounds => begin_rounds(rt, handle, amount, &mut watcher),
            Signaling::Idle => work_beside(rt, handle, amount, &mut watcher),
        };
        (handle, watcher)
    }

    /// The row is as it has to be, and so many waits have timed out.
    fn is_right(self, own: Own<'m, 'e>, total: Count, amount: Amount) -> bool {
        match last_row(own.0) {
            Some(row) => self.fits(&row, total.writes, amount),
            None => false,
        }
    }
}

/// Runs a workload, and answers whether it has ended as it must, with a free lock; nothing where it
/// could not be begun, or isn't for so many threads.
pub fn run<R: Threads + Wait + Sync>(
    rt: &R,
    alloc: Global,
    what: Signaling,
    amount: Amount,
) -> Option<bool> {
    if matches!(what, Signaling::Turns) && amount.threads != 2 {
        return None;
    }
    let (monitor, seats) = SixCells::new(alloc, amount.seats()?).ok()?;
    let (env, env_seats) = Env::new(alloc, amount.seats()?).ok()?;
    let source = (monitor.handles(seats), env.watchers(env_seats));
    play(rt, alloc, what, amount, source)
}
