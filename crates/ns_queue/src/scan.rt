//! Whom a release of the lock wakes.

ghost use Rattle.std.specs.Prelude.{◌≡◌, ◌<◌, ◌&&◌, ◌++◌, ◌∷◌, [], None, if◌then◌else◌, true, unwrap_or, ◌≤◌, length, map};
ghost use Rattle.std.specs.Option.{option_copied};
ghost use Rattle.ns_queue.specs.Prelude.{IsRow, array_vec_len, asked_for, asking, foremost_of, left_by_writer, left_of, reads, runs_of, seats_of, sought_of, tests_of, with_waiters, woken_of};

use crate::alike::{is_alike, is_met, tests_for};
use crate::queues::Queues;
use crate::ring::Ring;
use crate::room::Queueable;
use crate::waiter::{Waiter, Which};
use arrayvec::ArrayVec;

/// What a scan did: the seats that it took out of the list, in order, the variables that those named, and
/// how many conditions it tested.
#[derive(Drop)]
pub struct Scan {
    /// The seats of those whom it took out, in list order.
    pub woken: ArrayVec<u8, 64>,
    /// For each of them, in that order, the condition variable that it names, if it names one.
    pub vias: ArrayVec<Option<u8>, 64>,
    /// How many conditions it tested.
    pub tests: u32,
}

/// Whom a scan takes first.
#[derive(Clone, Copy)]
pub enum Foremost {
    /// Nobody: it takes none.
    Nobody,
    /// A writer, of this seat, and the condition variable that it names, if it names one. It goes alone.
    Writer(u8, Option<u8>),
    /// A reader, whom others may follow, and what the search for it found: a scan can go on from there.
    Reader(Sought),
}

/// Whom a scan takes, by their seats, in order, and how many conditions were tested to find that out.
#[derive(Drop)]
pub(crate) struct Chosen {
    pub(crate) woken: ArrayVec<u8, 64>,
    pub(crate) tests: u32,
}

/// What a search for the first that is taken found: its seat, or [`crate::ring::END`] where nobody is
/// taken, and how many conditions were tested to find that out.
///
/// It is true of the list and the row that were searched, as long as neither changes.
#[derive(Clone, Copy)]
pub struct Sought {
    pub(crate) seat: u8,
    pub(crate) tests: u32,
}

/// What a look at a waiter behind a reader that was taken tells: whether it is taken too, what is
/// known of its run then, and how many conditions were tested for that.
#[derive(Clone, Copy)]
struct Look {
    taken: bool,
    truth: Option<bool>,
    tests: u32,
}

/// Finds out whether a run's first condition is true where that is needed and not yet known, and
/// counts the test.
fn ask<C: Queueable<N>, const N: usize>(
    needed: bool,
    first: Option<&C>,
    truth: Option<bool>,
    row: &[u64; N],
) -> (Option<bool>, u32)
    ensures truth { result.0 ≡ asked_for (λ c. C.means.holds c row.now) needed (option_copied first.entry) truth }
    ensures tests { result.1 ≡ asking needed (option_copied first.entry) truth }
{
    if !needed || truth.is_some() {
        return (truth, 0);
    }
    (Some(is_met(first, row)), tests_for(first))
}

/// Looks at a waiter behind a reader that was taken, in a run with this first condition, of whose
/// truth this is known. Only a reader's is needed.
fn look_at<C: Queueable<N>, const N: usize>(
    waiter: &Waiter<C>,
    first: Option<&C>,
    truth: Option<bool>,
    row: &[u64; N],
) -> Look
    ensures truth { result.truth ≡ asked_for (λ c. C.means.holds c row.now) (reads waiter.now) (option_copied first.entry) truth }
    ensures tests { result.tests ≡ asking (reads waiter.now) (option_copied first.entry) truth }
    ensures taken { result.taken ≡ (reads waiter.now && unwrap_or result.truth true) }
{
    let needed = !waiter.mode.is_write();
    let answer = ask(needed, first, truth, row);
    let taken = needed && answer.0.unwrap_or(true);
    Look {
        taken,
        truth: answer.0,
        tests: answer.1,
    }
}

/// Adds the seat to those that were taken, if it was.
fn push_if(woken: &mut ArrayVec<u8, 64>, taken: bool, seat: u8)
    requires { array_vec_len woken.old < 64 }
    ensures { woken.new.items ≡ (if taken then woken.old.items ++ seat ∷ [] else woken.old.items) }
{
    if taken {
        woken.push(seat);
    }
}

/// Decides who is taken, where a search has looked for the first.
pub(crate) fn choose<C: Queueable<N>, const N: usize>(
    ring: &Ring<C, N>,
    sought: Sought,
    row: &[u64; N],
) -> Chosen
    requires { sought ≡ sought_of C.means.same (λ c. C.means.holds c row.now) ring.now }
    ensures woken { result.woken.items ≡ seats_of (woken_of (λ c. C.means.holds c row.now) ring.now) }
    ensures tests { result.tests ≡ tests_of C.means.same (λ c. C.means.holds c row.now) ring.now }
    ensures orderly { IsRow ring.now }
{
    let mut woken = ArrayVec::new();
    let mut tests = sought.tests;
    let Some(found) = ring.get(sought.seat) else {
        return Chosen { woken, tests };
    };
    woken.push(sought.seat);
    if found.mode.is_write() {
        // Behind a writer that is taken nobody else is, so no condition is looked at.
        return Chosen { woken, tests };
    }
    let mut first = found.cond.as_ref();
    let mut truth = Some(true);
    let mut at = ring.next(sought.seat);
    while let Some(waiter) = ring.get(at) {
        if !is_alike(waiter, first) {
            first = waiter.cond.as_ref();
            truth = None;
        }
        let seen = look_at(waiter, first, truth, row);
        truth = seen.truth;
        tests += seen.tests;
        push_if(&mut woken, seen.taken, at);
        at = ring.next(at);
    }
    Chosen { woken, tests }
}

impl<C: Queueable<N>, const N: usize> Queues<C, N> {
    /// Tells whom a scan at this row takes first, with no list made. A writer, whom a scan takes alone,
    /// is taken out of the lock list; a reader stays where it stands, and with it all others, and
    /// [`Queues::scan_from`] goes on from there.
    ///
    /// It tests as a scan does, up to that one.
    pub fn take_writer(&mut self, row: &[u64; N]) -> Foremost
        ensures told { result ≡ foremost_of (sought_of C.means.same (λ c. C.means.holds c row.now) self.old.lock) (woken_of (λ c. C.means.holds c row.now) self.old.lock) }
        ensures left { self.new ≡ with_waiters self.old Which.Lock (left_by_writer (λ c. C.means.holds c row.now) self.old.lock) }
    {
        self.lock.take_writer(row)
    }

    /// Takes those out of the lock list whom a release at this row wakes: the first waiter without
    /// condition or with one that is true of the row, and if that one reads, every later such reader
    /// too. The others stay, in order, and so do the other lists.
    ///
    /// Equivalent conditions of neighbours are tested once, and only where their truth is needed.
    pub fn scan(&mut self, row: &[u64; N]) -> Scan
        ensures woken { result.woken.items ≡ seats_of (woken_of (λ c. C.means.holds c row.now) self.old.lock) }
        ensures vias { result.vias.items ≡ map (λ w. w.via) (woken_of (λ c. C.means.holds c row.now) self.old.lock) }
        ensures left { self.new ≡ with_waiters self.old Which.Lock (left_of (λ c. C.means.holds c row.now) self.old.lock) }
        ensures tests { result.tests ≡ tests_of C.means.same (λ c. C.means.holds c row.now) self.old.lock }
        ensures at_most_runs { result.tests ≤ length (runs_of C.means.same (λ w. w.cond) self.old.lock) }
    {
        let sought = self.lock.seek(row);
        self.scan_from(row, sought)
    }

    /// The same scan, where its search is done: it goes on from what that found, and tests nothing
    /// again. The number of tests is still that of the whole scan.
    ///
    /// Needs what a search of the lock list as it stands finds at this row, as [`Queues::take_writer`]
    /// hands it on.
    pub fn scan_from(&mut self, row: &[u64; N], sought: Sought) -> Scan
        requires { sought ≡ sought_of C.means.same (λ c. C.means.holds c row.now) self.old.lock }
        ensures woken { result.woken.items ≡ seats_of (woken_of (λ c. C.means.holds c row.now) self.old.lock) }
        ensures vias { result.vias.items ≡ map (λ w. w.via) (woken_of (λ c. C.means.holds c row.now) self.old.lock) }
        ensures left { self.new ≡ with_waiters self.old Which.Lock (left_of (λ c. C.means.holds c row.now) self.old.lock) }
        ensures tests { result.tests ≡ tests_of C.means.same (λ c. C.means.holds c row.now) self.old.lock }
        ensures at_most_runs { result.tests ≤ length (runs_of C.means.same (λ w. w.cond) self.old.lock) }
    {
        self.lock.scan_from(row, sought)
    }
}
