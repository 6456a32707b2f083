//! What any run needs: a job for each thread, the threads themselves, and the row that they leave.
//!
//! The threads are made here alone: a workload says by [`Work`] what each of them does.

ghost use Rattle.std.specs.Thread.{IsSend, IsSync};

use crate::amount::{Amount, Count, total};
use ns_monitor::{Condition, Handle, Handles};
use ns_note::watcher::{Watcher, Watchers};
use ns_objects::sharer::{Sharer, Sharers};
use std::alloc::{AllocError, Global};
use std::sync::{Barrier, Wait};
use std::thread::{Threads, join, map_vec};

/// A thread's number, and what it has of its own.
#[derive(Drop)]
pub struct Job<S: Drop> {
    /// The number, from 0 on.
    pub number: u64,
    /// Its handle, and what it has beside.
    pub own: S,
}

/// A workload, and what each of its threads has of its own.
pub trait Work<S: Drop>: Copy {
    /// Does what is to be done before the threads are there, and gives back what it has of its own.
    fn begin<R: Wait>(self, _rt: &R, own: S) -> S {
        own
    }

    /// Does what a thread does.
    fn work<R: Wait>(self, rt: &R, job: Job<S>, amount: Amount) -> Count;

    /// Does what is done beside the threads, and gives back what it has of its own.
    fn lead<R: Wait>(self, _rt: &R, own: S, _amount: Amount) -> S {
        own
    }

    /// Whether all has ended as it must, by the sums of what the threads have counted, with a free lock where there is one.
    fn is_right(self, own: S, total: Count, amount: Amount) -> bool;
}

/// Where threads take what they have of their own.
pub trait Source<S> {
    /// The next, as long as there is one.
    fn take(&mut self) -> Option<S>;
}

impl<S> Source<S> for Vec<S> {
    fn take(&mut self) -> Option<S> {
        self.pop()
    }
}

impl<'e> Source<Watcher<'e>> for Watchers<'e> {
    fn take(&mut self) -> Option<Watcher<'e>> {
        self.next()
    }
}

impl<'m, C: Condition<N>, const N: usize> Source<Handle<'m, C, N>> for Handles<'m, C, N> {
    fn take(&mut self) -> Option<Handle<'m, C, N>> {
        self.next()
    }
}

impl<'o> Source<Sharer<'o>> for Sharers<'o> {
    fn take(&mut self) -> Option<Sharer<'o>> {
        self.next()
    }
}

impl<S: Drop, T: Drop, F: Source<S>, G: Source<T>> Source<(S, T)> for (F, G) {
    fn take(&mut self) -> Option<(S, T)> {
        self.0.take().zip(self.1.take())
    }
}

/// The job of each of so many threads; nothing where memory is refused, or what one has of its own.
fn jobs<S: Drop, F: Source<S>>(alloc: Global, threads: u64, source: &mut F) -> Option<Vec<Job<S>>> {
    let mut jobs = Vec::new(alloc);
    for number in 0..threads {
        let own = source.take()?;
        jobs.push(Job { number, own }).ok()?;
    }
    Some(jobs)
}

/// Does all jobs, each in a thread of its own and once all others begin theirs, and answers what each has
/// counted.
fn do_jobs<R: Threads + Wait + Sync, S: Send + Drop, W: Work<S> + Send + Sync>(
    rt: &R,
    jobs: Vec<Job<S>>,
    what: W,
    amount: Amount,
) -> Result<Vec<Count>, AllocError> {
    let start = Barrier::new(jobs.len());
    let start = &start;
    map_vec(
        rt,
        jobs,
        &|job: Job<S>| -> Count
            requires { IsSync R.row × IsSync W.row }
        {
            start.wait(rt);
            what.work(rt, job, amount)
        },
    )
}

/// Does all jobs, none of them in this thread, and leads here what is done beside them; answers the sums of
/// what they have counted, and what the lead has left of its own. Nothing where memory is refused.
fn do_beside<R: Threads + Wait + Sync, S: Send + Drop, W: Work<S> + Send + Sync>(
    rt: &R,
    jobs: Vec<Job<S>>,
    own: S,
    what: W,
    amount: Amount,
) -> Option<(Count, S)> {
    let (counts, own) = join(
        rt,
        move || -> Result<Vec<Count>, AllocError>
            requires { IsSync R.row × IsSync W.row × IsSend S.row }
        { do_jobs(rt, jobs, what, amount) },
        move || -> S
            requires { IsSync R.row }
        { what.lead(rt, own, amount) },
    );
    Some((total(counts.ok()?.as_slice()), own))
}

/// Runs a workload, and answers whether it has ended as it must; nothing where it could not be begun.
pub fn play<
    R: Threads + Wait + Sync,
    S: Send + Drop,
    W: Work<S> + Send + Sync,
    F: Source<S> + Drop,
>(rt: &R, alloc: Global, what: W, amount: Amount, source: F) -> Option<bool> {
    let mut source = source;
    let own = what.begin(rt, source.take()?);
    let jobs = jobs(alloc, amount.threads, &mut source)?;
    let (total, own) = do_beside(rt, jobs, own, what, amount)?;
    Some(what.is_right(own, total, amount))
}

/// Takes the lock for good, and answers the row that it is round; nothing where it isn't free.
pub fn last_row<C: Condition<N>, const N: usize>(handle: Handle<'_, C, N>) -> Option<[u64; N]> {
    let mut held = handle.try_lock().ok()?;
    let mut row = [0; N];
    for i in 0..N {
        row[i] = held.get(i);
    }
    Some(row)
}
