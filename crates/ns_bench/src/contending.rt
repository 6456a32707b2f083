//! The workloads on a row of one cell, for whose threads nobody waits: how they are run.

use crate::amount::{Amount, Count};
use crate::mixed::Draws;
use crate::never::{OneCell, OneHandle};
use crate::running::{Job, Work, last_row, play};
use crate::sections::{
    compete, lock, lock_and_work, lock_long, mix, read_lock, signal, try_lock, try_read_lock,
};
use crate::steps::Steps;
use std::alloc::Global;
use std::sync::Wait;
use std::thread::Threads;

/// The value of the cell that is read.
const SEVEN: u64 = 7;

/// What each thread does, its share of times.
#[derive(Clone, Copy)]
pub enum Contending {
    /// Locks, and adds 1.
    Lock,
    /// The same by a try.
    TryLock,
    /// Locks to read, and reads.
    ReadLock,
    /// The same by a try.
    TryReadLock,
    /// Locks, and works long on the cell.
    LockLong,
    /// Locks, and adds 1; works long without the lock.
    LockAndWork,
    /// Locks, and adds 1, as often as it can.
    Compete,
    /// Locks to read, so many of a hundred times, and else locks and adds 1.
    Mix(u64),
    /// Signals a variable for which nobody waits, without a section.
    Signal,
}

impl Contending {
    /// The value that the cell begins with.
    fn first(self) -> u64 {
        match self {
            Contending::ReadLock | Contending::TryReadLock => SEVEN,
            _ => 0,
        }
    }

    /// Whether the cell and the sums of the counts are as they have to be.
    fn fits(self, cell: u64, total: Count, amount: Amount) -> bool {
        match self {
            Contending::ReadLock | Contending::TryReadLock => {
                cell == SEVEN && total.sum == amount.operations.wrapping_mul(SEVEN)
            }
            Contending::LockLong => total.writes == amount.operations,
            Contending::Mix(_) => cell == total.writes,
            Contending::Signal => cell == 0 && total.sum == amount.operations,
            _ => cell == amount.operations && total.writes == amount.operations,
        }
    }
}

impl<'m> Work<OneHandle<'m>> for Contending {
    /// Sets the cell to the value that it begins with.
    fn begin<R: Wait>(self, rt: &R, handle: OneHandle<'m>) -> OneHandle<'m> {
        let mut held = handle.lock(rt);
        held.set(0, self.first());
        held.unlock(rt)
    }

    fn work<R: Wait>(self, rt: &R, job: Job<OneHandle<'m>>, amount: Amount) -> Count {
        let Job {
            number,
            own: handle,
        } = job;
        let times = amount.share(number);
        let steps = Steps::of_run(amount.operations);
        match self {
            Contending::Lock => lock(rt, handle, times),
            Contending::TryLock => try_lock(rt, handle, times),
            Contending::ReadLock => read_lock(rt, handle, times),
            Contending::TryReadLock => try_read_lock(rt, handle, times),
            Contending::LockLong => lock_long(rt, handle, times, steps),
            Contending::LockAndWork => lock_and_work(rt, handle, times, steps),
            Contending::Compete => compete(rt, handle, amount.operations, steps),
            Contending::Mix(percent) => mix(rt, handle, times, Draws::of_thread(number, percent)),
            Contending::Signal => signal(rt, handle, times),
        }
    }

    /// The cell and the sums of the counts are as they have to be.
    fn is_right(self, handle: OneHandle<'m>, total: Count, amount: Amount) -> bool {
        match last_row(handle) {
            Some(row) => self.fits(row[0], total, amount),
            None => false,
        }
    }
}

/// Runs a workload, and answers whether it has ended as it must, with a free lock; nothing where it
/// could not be begun.
pub fn run<R: Threads + Wait + Sync>(
    rt: &R,
    alloc: Global,
    what: Contending,
    amount: Amount,
) -> Option<bool> {
    let (monitor, seats) = OneCell::new(alloc, amount.seats()?).ok()?;
    play(rt, alloc, what, amount, monitor.handles(seats))
}
