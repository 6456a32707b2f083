//! Pairs of an acquire and a release that nobody contends for, of a monitor and by hand.

ghost use Rattle.std.specs.Prelude.{◌<◌, ◌≤◌};

use crate::amount::Amount;
use crate::never::{OneCell, OneHandle};
use std::alloc::Global;
use std::io;
use std::sync::Wait;
use std::sync::atomic::AtomicU64;
use std::sync::atomic::Ordering::SeqCst;
use std::time::{Clock, Duration, Instant};

/// How many batches the pairs come in, so that both kinds see the same machine.
const BATCHES: usize = 11;

/// The medians of a run, in hundredths of a nanosecond for a pair.
#[derive(Clone, Copy, Drop)]
pub struct Medians {
    /// Of a monitor.
    pub monitor: u64,
    /// By hand.
    pub by_hand: u64,
}

impl Medians {
    /// How many times as long a pair of a monitor takes, in hundredths.
    pub fn ratio(&self) -> u64 {
        per(self.monitor, self.by_hand)
    }
}

/// How many hundredths of this come on each of so many, 0 where those are none.
fn per(amount: u64, each: u64) -> u64 {
    amount.saturating_mul(100).checked_div(each).unwrap_or(0)
}

/// How many hundredths of a nanosecond each of so many pairs took.
fn each_took(time: Duration, pairs: u64) -> u64 {
    per(u64::try_from(time.as_nanos()).unwrap_or(u64::MAX), pairs)
}

/// Acquires and releases a word whose lowest bit is set while it is held.
fn pair_by_hand(word: &AtomicU64) {
    let free = word.load(SeqCst);
    if free & 1 == 0
        && word
            .compare_exchange(free, free | 1, SeqCst, SeqCst)
            .is_ok()
    {
        let held = word.load(SeqCst);
        let _ = word.compare_exchange(held, held & !1, SeqCst, SeqCst);
    }
}

/// So many pairs of a monitor, each of which acquires by a try.
fn pairs_by_tries<'m, R: Wait>(rt: &R, mut handle: OneHandle<'m>, pairs: u64) -> OneHandle<'m> {
    for _ in 0..pairs {
        handle = match handle.try_lock() {
            Ok(held) => held.unlock(rt),
            Err(handle) => handle,
        };
    }
    handle
}

/// So many pairs of a monitor, each of which acquires by a call that waits where it has to.
fn pairs_by_locks<'m, R: Wait>(rt: &R, mut handle: OneHandle<'m>, pairs: u64) -> OneHandle<'m> {
    for _ in 0..pairs {
        handle = handle.lock(rt).unlock(rt);
    }
    handle
}

/// A batch of pairs of a monitor, and how long it took.
fn batch<'m, R: Wait + Clock>(
    rt: &R,
    handle: OneHandle<'m>,
    by_tries: bool,
    pairs: u64,
) -> io::Result<(OneHandle<'m>, Duration)> {
    let start = Instant::now(rt)?;
    let handle = if by_tries {
        pairs_by_tries(rt, handle, pairs)
    } else {
        pairs_by_locks(rt, handle, pairs)
    };
    let took = start.elapsed(rt)?;
    Ok((handle, took))
}

/// How long a batch of pairs by hand took.
fn batch_by_hand<R: Clock>(rt: &R, word: &AtomicU64, pairs: u64) -> io::Result<Duration> {
    let start = Instant::now(rt)?;
    for _ in 0..pairs {
        pair_by_hand(word);
    }
    start.elapsed(rt)
}

/// The median of what the first so many batches took.
///
/// Needs one batch, and no more than there are.
fn median(took: &mut [u64; BATCHES], batches: usize) -> u64
    requires { (0 < batches) × (batches ≤ 11) }
{
    let took = &mut took[..batches];
    took.sort_unstable();
    took[batches / 2]
}

/// Makes so many pairs of each kind, in batches that take turns, and gives the medians of these.
///
/// Needs one pair.
fn measured<R: Wait + Clock>(
    rt: &R,
    mut handle: OneHandle<'_>,
    by_tries: bool,
    pairs: u64,
) -> io::Result<Medians>
    requires { 0 < pairs }
{
    let all = Amount {
        threads: BATCHES as u64,
        operations: pairs,
    };
    let word = AtomicU64::new(0);
    let mut took = [0; BATCHES];
    let mut took_by_hand = [0; BATCHES];
    for i in 0..BATCHES {
        let pairs = all.share(i as u64);
        let (back, time) = batch(rt, handle, by_tries, pairs)?;
        handle = back;
        took[i] = each_took(time, pairs);
        took_by_hand[i] = each_took(batch_by_hand(rt, &word, pairs)?, pairs);
    }
    let batches = pairs.min(BATCHES as u64) as usize;
    Ok(Medians {
        monitor: median(&mut took, batches),
        by_hand: median(&mut took_by_hand, batches),
    })
}

/// The medians of so many pairs of each kind, none where there are no pairs.
pub fn run<R: Wait + Clock>(
    rt: &R,
    alloc: Global,
    by_tries: bool,
    pairs: u64,
) -> io::Result<Option<Medians>> {
    if pairs == 0 {
        return Ok(None);
    }
    let Ok((monitor, seats)) = OneCell::new(alloc, 1) else {
        return Err(io::Error::from(io::ErrorKind::OutOfMemory));
    };
    let Some(handle) = monitor.handles(seats).next() else {
        return Ok(None);
    };
    let medians = measured(rt, handle, by_tries, pairs)?;
    Ok(Some(medians))
}
