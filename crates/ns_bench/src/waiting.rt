//! The workloads on a row of six cells, most of whose threads wait for one another: how they are run.

use crate::amount::{Amount, Count};
use crate::conditions::{SixCells, SixHandle, TICK};
use crate::crowd;
use crate::hand_over::take_turns;
use crate::long_reads::{mix_long, read_until_told, write_beside};
use crate::mixed::Draws;
use crate::running::{Job, Work, last_row, play};
use crate::steps::Steps;
use std::alloc::Global;
use std::sync::Wait;
use std::thread::Threads;

/// What is done beside waiters of which none can go on.
#[derive(Clone, Copy)]
pub enum Beside {
    /// Sections that write, and look for whom to wake.
    Tick,
    /// Sections that write, and wake nobody.
    TickQuietly,
    /// Sections that read.
    Read,
}

/// For which marks waiters wait.
#[derive(Clone, Copy)]
pub enum Marked {
    /// All for the first.
    Same,
    /// All for the first, but one for the second.
    Odd,
    /// Each for its own.
    Each,
}

/// What the threads do.
#[derive(Clone, Copy)]
pub enum Waiting {
    /// They wait while something is done beside them.
    Crowd(Marked, Beside),
    /// They are asked, one after the other or whoever it is, and answer.
    Answer(Marked),
    /// They hand a turn to and fro.
    Turns,
    /// They make long sections, of which so many of a hundred read.
    MixLong(u64),
    /// One writes, and the others read.
    OneWriter,
}

impl Marked {
    /// The marks for which the thread of this number waits.
    fn mask(self, number: u64) -> u64 {
        match self {
            Marked::Same => crowd::mark_of(0),
            Marked::Odd => crowd::mark_of(if number == 0 { 1 } else { 0 }),
            Marked::Each => crowd::mark_of(number),
        }
    }

    /// Whether each waits for its own.
    fn is_each(self) -> bool {
        matches!(self, Marked::Each)
    }
}

impl Waiting {
    /// Whether so many threads can do it, none of which is left waiting in the end.
    fn is_for(self, threads: u64) -> bool {
        match self {
            Waiting::Crowd(Marked::Odd, _) | Waiting::Answer(Marked::Odd) => threads >= 2,
            Waiting::Turns => threads == 2,
            _ => true,
        }
    }

    /// Whether the row and the sums of the counts are as they have to be.
    fn fits(self, row: &[u64; 6], total: Count, amount: Amount) -> bool {
        match self {
            Waiting::Crowd(_, Beside::Read) => {
                row[TICK] == amount.operations.wrapping_mul(amount.threads)
            }
            Waiting::Crowd(..) | Waiting::Answer(_) => row[TICK] == amount.operations,
            Waiting::Turns => row[0] == 0,
            Waiting::MixLong(_) | Waiting::OneWriter => row[0] == total.writes,
        }
    }
}

impl<'m> Work<SixHandle<'m>> for Waiting {
    fn work<R: Wait>(self, rt: &R, job: Job<SixHandle<'m>>, amount: Amount) -> Count {
        let Job {
            number,
            own: handle,
        } = job;
        let times = amount.operations;
        let steps = Steps::of_run(times);
        match self {
            Waiting::Crowd(marked, _) => crowd::wait_once(rt, handle, marked.mask(number)),
            Waiting::Answer(marked) => {
                crowd::wait_and_answer(rt, handle, marked.mask(number), times.saturating_add(1))
            }
            Waiting::Turns => take_turns(rt, handle, number, times / 2),
            Waiting::MixLong(percent) => {
                let draws = Draws::of_thread(number, percent);
                mix_long(rt, handle, amount.share(number), draws, steps)
            }
            Waiting::OneWriter if number == 0 => write_beside(rt, handle, times, steps),
            Waiting::OneWriter => read_until_told(rt, handle, steps),
        }
    }

    /// Once all wait, does what is done beside them, and then lets them leave.
    fn lead<R: Wait>(self, rt: &R, handle: SixHandle<'m>, amount: Amount) -> SixHandle<'m> {
        if !matches!(self, Waiting::Crowd(..) | Waiting::Answer(_)) {
            return handle;
        }
        let times = amount.operations;
        let handle = crowd::wait_for_all(rt, handle, amount.threads);
        let handle = match self {
            Waiting::Crowd(_, Beside::Tick) => crowd::tick(rt, handle, times),
            Waiting::Crowd(_, Beside::TickQuietly) => crowd::tick_quietly(rt, handle, times),
            Waiting::Crowd(_, Beside::Read) => crowd::read_beside(rt, handle, times),
            Waiting::Answer(marked) => crowd::ask_often(rt, handle, amount, marked.is_each()),
            _ => handle,
        };
        crowd::dismiss(rt, handle, amount.threads)
    }

    /// The row and the sums of the counts are as they have to be.
    fn is_right(self, handle: SixHandle<'m>, total: Count, amount: Amount) -> bool {
        match last_row(handle) {
            Some(row) => self.fits(&row, total, amount),
            None => false,
        }
    }
}

/// Runs a workload, and answers whether it has ended as it must, with a free lock; nothing where it
/// could not be begun, or isn't for so many threads.
pub fn run<R: Threads + Wait + Sync>(
    rt: &R,
    alloc: Global,
    what: Waiting,
    amount: Amount,
) -> Option<bool> {
    if !what.is_for(amount.threads) {
        return None;
    }
    let (monitor, seats) = SixCells::new(alloc, amount.seats()?).ok()?;
    play(rt, alloc, what, amount, monitor.handles(seats))
}
