//! A counter and a once cell that threads share: what each thread does, and how it is run.

ghost use Rattle.std.specs.Prelude.{◌<◌, All};

use crate::amount::{Amount, Count};
use crate::running::{Job, Source, Work, play};
use ns_objects::objects::Objects;
use ns_objects::running::Once;
use ns_objects::sharer::{Sharer, Sharers};
use std::alloc::Global;
use std::sync::Wait;
use std::thread::Threads;

/// What each thread does, its share of times.
#[derive(Clone, Copy)]
pub enum Sharing {
    /// Takes 1 from the counter, for which nobody waits.
    CountDown,
    /// Has a function run once, which has run before.
    AskDone,
}

/// A caller of objects of which one is a counter and one a once cell.
#[derive(Drop)]
struct Mate<'o> {
    sharer: Sharer<'o>,
    ghost counter: { 0 < sharer.setup.counters },
    ghost cell: { 0 < sharer.setup.cells },
}

/// The mates that no thread has yet.
#[derive(Drop)]
struct Mates<'o> {
    sharers: Sharers<'o>,
    ghost of_both: { All (λ s. (0 < s.setup.counters) × (0 < s.setup.cells)) sharers },
}

impl<'o> Source<Mate<'o>> for Mates<'o> {
    fn take(&mut self) -> Option<Mate<'o>> {
        let sharer = self.sharers.next()?;
        Some(Mate { sharer })
    }
}

/// Takes 1 from the counter so many times, and counts how often that wasn't refused.
///
/// In each loop the call stands by itself: a function that may wait costs its caller a look at whether it was cut
/// short. The loop stands by itself, too: inlined into what makes the threads it would have fewer registers.
#[inline(never)]
fn count_down<R: Wait>(rt: &R, mate: Mate<'_>, times: u64) -> u64 {
    let Mate { mut sharer } = mate;
    let mut count = 0u64;
    for _ in 0..times {
        if sharer.counter_add(rt, 0, -1).is_ok() {
            count = count.wrapping_add(1);
        }
    }
    count
}

/// Has a function run once, so many times, and counts how often it had run.
#[inline(never)]
fn ask_often<'o, R: Wait>(rt: &R, mate: Mate<'o>, times: u64) -> (Mate<'o>, u64) {
    let Mate { mut sharer } = mate;
    let mut count = 0u64;
    for _ in 0..times {
        if matches!(sharer.run_once(rt, 0, || ()), Once::Already) {
            count = count.wrapping_add(1);
        }
    }
    (Mate { sharer }, count)
}

impl Sharing {
    /// The value that the counter begins with; nothing for more operations than it holds.
    fn start(self, amount: Amount) -> Option<u32> {
        match self {
            Sharing::CountDown => u32::try_from(amount.operations).ok()?.checked_add(1),
            Sharing::AskDone => Some(1),
        }
    }
}

impl<'o> Work<Mate<'o>> for Sharing {
    /// Has the function run, for those who are to find that it has.
    fn begin<R: Wait>(self, rt: &R, mate: Mate<'o>) -> Mate<'o> {
        ask_often(rt, mate, 1).0
    }

    fn work<R: Wait>(self, rt: &R, job: Job<Mate<'o>>, amount: Amount) -> Count {
        let Job { number, own: mate } = job;
        let times = amount.share(number);
        Count::of_writes(match self {
            Sharing::CountDown => count_down(rt, mate, times),
            Sharing::AskDone => ask_often(rt, mate, times).1,
        })
    }

    /// The counter is at 1, and each thread has counted its share.
    fn is_right(self, mate: Mate<'o>, total: Count, amount: Amount) -> bool {
        let mut mate = mate;
        mate.sharer.counter_value(0) == 1 && total.writes == amount.operations
    }
}

/// Runs a workload, and answers whether it has ended as it must; nothing where it could not be begun.
pub fn run<R: Threads + Wait + Sync>(
    rt: &R,
    alloc: Global,
    what: Sharing,
    amount: Amount,
) -> Option<bool> {
    let (objects, seats) = Objects::new(alloc, &[what.start(amount)?], 1, amount.seats()?).ok()?;
    let sharers = objects.sharers(seats);
    play(rt, alloc, what, amount, Mates { sharers })
}
