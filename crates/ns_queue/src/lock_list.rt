//! The lock list: waiters in a row of links, with links from the first of each run to its last.

ghost use Rattle.std.specs.Prelude.{◌≡◌, ◌<◌, ◌≤◌, ◌↔◌, ◌&&◌, ◌∷◌, ◌++◌, not, [], IsTrue, None, length, map, slice_index};
ghost use Rattle.std.specs.Bool.{OnFalse};
ghost use Rattle.std.specs.List.{list_any};
ghost use Rattle.ns_queue.specs.Prelude.{IsRow, RunsOn, behind, first_seat, foremost_of, from, has_condition, head_of, is_long, last_run, left_by_writer, left_of, place_of, runs_of, seats_of, shown_of, sought_of, tests_of, times_in, without_all, without_in, woken_of, writes};

use crate::alike::{is_met, joins, tests_for};
use crate::gather::{gathered, shown_ring, vias_of};
use crate::remake::{mend, remake};
use crate::ring::{END, Ring, take_out};
use crate::room::Queueable;
use crate::scan::{Foremost, Scan, Sought, choose};
use crate::waiter::{Shown, Waiter};
use arrayvec::ArrayVec;
use ns_model::condition::Condition;
use std::marker::Model;

/// Waiters in a row, each by its seat, and for each the first of its run, and for that one the last
/// of the run. To its callers this is a list.
///
/// The place [`END`] has these links too, as it has those to neighbours: so nobody in front, or
/// behind, is no case of its own.
///
/// The links to firsts show at once whether a run goes on behind a waiter, and whether a waiter that leaves
/// was a first. Of the links to lasts only a first's is read, so a waiter that is put behind the others makes
/// no run anew.
#[derive(Drop)]
pub struct LockList<C: Condition<N>, const N: usize> {
    ring: Ring<C, N>,
    heads: [u8; 65],
    lasts: [u8; 65],
}

impl<C: Condition<N>, const N: usize> Model for LockList<C, N> {
    ghost use Rattle.std.specs.Prelude.{List};
    ghost use Rattle.ns_queue.specs.declared.waiter.Waiter.{Waiter};

    ghost Value = { List (Waiter C) };

    ghost use Rattle.ns_queue.specs.Runs.{IsRuns};

    ghost view = { λ r. r.ring };

    ghost invariant = { λ r. IsRuns C.means.same r.heads r.lasts r.ring };
}

/// The place behind the run that begins at this seat: that of the next run's first, or [`END`].
///
/// Needs a seat that stands in the row and begins a run there.
fn beyond<C: Queueable<N>, const N: usize>(
    ring: &Ring<C, N>,
    heads: &[u8; 65],
    lasts: &[u8; 65],
    seat: u8,
) -> u8
    requires row { IsRow ring.now }
    requires stands { 0 < times_in seat ring.now }
    requires runs { RunsOn C.means.same heads.now lasts.now None 64 (from seat ring.now) }
    ensures { result ≡ first_seat 64 (behind (slice_index lasts.now seat) ring.now) }
{
    // Who links to itself begins a run, and so is next. A processor guesses that, and then waits for one
    // link and not for two, one behind the other, where each run has one waiter.
    let next = ring.next(seat);
    if heads[next as usize] == next {
        return next;
    }
    ring.next(lasts[seat as usize])
}

impl<C: Queueable<N>, const N: usize> LockList<C, N> {
    /// Nobody.
    pub fn new() -> LockList<C, N>
        ensures { result ≡ [] }
    {
        LockList {
            ring: Ring::new(),
            heads: [END; 65],
            lasts: [END; 65],
        }
    }

    /// Whether the seat stands here.
    pub fn holds(&self, seat: u8) -> bool
        ensures stands { IsTrue result ↔ (0 < times_in seat self.now) }
        ensures orderly { IsRow self.now }
    {
        self.ring.holds(seat)
    }

    /// What the list holds: whether somebody waits, whether somebody waits for a condition, whether a
    /// writer waits without one, and whether somebody waits long, whose tries are
    /// [`crate::waiter::LONG_TRIES`].
    pub fn bits(&self) -> (bool, bool, bool, bool)
        ensures waiting { IsTrue result.0 ↔ (0 < length self.now) }
        ensures conditional { result.1 ≡ list_any has_condition self.now }
        ensures writer_waits { result.2 ≡ list_any (λ w. writes w && not (has_condition w)) self.now }
        ensures long { result.3 ≡ list_any is_long self.now }
    {
        let counts = self.ring.counts();
        (
            counts.len > 0,
            counts.conditional > 0,
            counts.plain_writers > 0,
            counts.long > 0,
        )
    }

    /// The waiters, front first.
    pub fn waiters(&self) -> ArrayVec<Waiter<C>, 64>
        ensures { result.items ≡ self.now }
    {
        gathered(&self.ring)
    }

    /// The waiters, front first, in the form in which they are shown. None is copied.
    pub fn shown(&self) -> ArrayVec<Shown, 64>
        ensures shown { result.items ≡ map shown_of self.now }
    {
        shown_ring(&self.ring)
    }

    /// The same list once more.
    pub fn copied(&self) -> LockList<C, N>
        ensures { result ≡ self.now }
    {
        let mut copy = LockList::new();
        let mut at = self.ring.front();
        while let Some(waiter) = self.ring.get(at) {
            copy.push_back(*waiter);
            at = self.ring.next(at);
        }
        copy
    }

    /// Looks for the first that is taken, from run to run: up to there every condition is false, so
    /// each run's first is tested and its others are passed.
    pub(crate) fn seek(&self, row: &[u64; N]) -> Sought
        ensures { result ≡ sought_of C.means.same (λ c. C.means.holds c row.now) self.now }
    {
        let mut seat = self.ring.front();
        let mut tests = 0;
        while let Some(waiter) = self.ring.get(seat) {
            let cond = waiter.cond.as_ref();
            tests += tests_for(cond);
            if is_met(cond, row) {
                return Sought { seat, tests };
            }
            seat = beyond(&self.ring, &self.heads, &self.lasts, seat);
        }
        Sought { seat, tests }
    }

    /// Puts a waiter behind the others.
    ///
    /// Needs a seat below 64 that doesn't stand here, which [`LockList::holds`] tells.
    pub fn push_back(&mut self, waiter: Waiter<C>)
        requires below { waiter.seat < 64 }
        requires free { times_in waiter.seat self.old ≡ 0 }
        ensures { self.new ≡ self.old ++ waiter ∷ [] }
    {
        let seat = waiter.seat;
        let head = self.head_for(&waiter);
        self.ring.push_back(waiter);
        self.heads[seat as usize] = head;
        self.lasts[head as usize] = seat;
    }

    /// The first of the run that a waiter would stand in behind the others: that of the last run, if
    /// it goes on with that, else itself.
    fn head_for(&self, waiter: &Waiter<C>) -> u8
        ensures head { result ≡ place_of (head_of C.means.same waiter.now (last_run C.means.same None self.now)) }
        ensures orderly { IsRow self.now }
    {
        let head = self.heads[self.ring.back() as usize];
        if joins(waiter, self.ring.get(head)) {
            head
        } else {
            waiter.seat
        }
    }

    /// Puts a waiter in front of the others.
    ///
    /// Needs a seat below 64 that doesn't stand here, which [`LockList::holds`] tells.
    pub fn push_front(&mut self, waiter: Waiter<C>)
        requires below { waiter.seat < 64 }
        requires free { times_in waiter.seat self.old ≡ 0 }
        ensures { self.new ≡ waiter ∷ self.old }
    {
        let seat = waiter.seat;
        let first = self.ring.front();
        self.ring.push_front(waiter);
        self.heads[seat as usize] = seat;
        remake(
            &self.ring,
            &mut self.heads,
            &mut self.lasts,
            seat,
            seat,
            first,
        );
    }

    /// Takes the seat out, and answers whether it stood here. The others stay as they are.
    pub fn remove(&mut self, seat: u8) -> bool
        ensures stood { IsTrue result ↔ (0 < times_in seat self.old) }
        ensures removed { self.new ≡ without_in seat self.old }
        ensures absent { OnFalse result (self.new ≡ self.old) }
    {
        if !self.ring.holds(seat) {
            return false;
        }
        let before = self.ring.prev(seat);
        let behind = self.ring.next(seat);
        self.ring.remove(seat);
        mend(
            &self.ring,
            &mut self.heads,
            &mut self.lasts,
            seat,
            before,
            behind,
        );
        true
    }

    /// Takes these seats out. The others stay as they are. Where more than one goes, the runs of
    /// those who stay are made anew once. The links to firsts are cleared before, so that `remake`
    /// nowhere finds one that was a first, and goes to the end.
    ///
    /// That pass goes over all who stay, also over those in front of the first taken, where it may compare
    /// for nothing. Were runs mended for each that leaves, some lists of 64 waiters would take about 500
    /// comparisons. This pass takes at most 63, and each who is taken costs a wake besides.
    fn remove_all(&mut self, seats: &[u8])
        ensures { self.new ≡ without_all seats.now self.old }
    {
        match seats {
            [] => {}
            [seat] => {
                self.remove(*seat);
            }
            _ => {
                take_out(&mut self.ring, seats);
                self.heads = [END; 65];
                let first = self.ring.front();
                remake(
                    &self.ring,
                    &mut self.heads,
                    &mut self.lasts,
                    END,
                    END,
                    first,
                );
            }
        }
    }

    /// Tells whom a scan at this row takes first. A writer, whom a scan takes alone, is taken out; a
    /// reader stays where it stands.
    ///
    /// It tests as a scan does, up to that one.
    pub fn take_writer(&mut self, row: &[u64; N]) -> Foremost
        ensures told { result ≡ foremost_of (sought_of C.means.same (λ c. C.means.holds c row.now) self.old) (woken_of (λ c. C.means.holds c row.now) self.old) }
        ensures left { self.new ≡ left_by_writer (λ c. C.means.holds c row.now) self.old }
    {
        let sought = self.seek(row);
        let Some(found) = self.ring.get(sought.seat) else {
            return Foremost::Nobody;
        };
        if !found.mode.is_write() {
            return Foremost::Reader(sought);
        }
        let via = found.via;
        self.remove(sought.seat);
        Foremost::Writer(sought.seat, via)
    }

    /// Takes those out whom a release at this row wakes: the first waiter without condition or with one
    /// that is true of the row, and if that one reads, every later such reader too. The others stay, in
    /// order.
    ///
    /// Goes on from the first of them, whom a search found. Equivalent conditions of neighbours are
    /// tested once, and only where their truth is needed.
    ///
    /// Needs what a search of this list finds at this row, as [`LockList::seek`] tells it.
    pub fn scan_from(&mut self, row: &[u64; N], sought: Sought) -> Scan
        requires { sought ≡ sought_of C.means.same (λ c. C.means.holds c row.now) self.old }
        ensures woken { result.woken.items ≡ seats_of (woken_of (λ c. C.means.holds c row.now) self.old) }
        ensures vias { result.vias.items ≡ map (λ w. w.via) (woken_of (λ c. C.means.holds c row.now) self.old) }
        ensures left { self.new ≡ left_of (λ c. C.means.holds c row.now) self.old }
        ensures tests { result.tests ≡ tests_of C.means.same (λ c. C.means.holds c row.now) self.old }
        ensures at_most_runs { result.tests ≤ length (runs_of C.means.same (λ w. w.cond) self.old) }
    {
        let chosen = choose(&self.ring, sought, row);
        let vias = vias_of(&self.ring, chosen.woken.as_slice());
        // Where nobody is taken, as at most releases, nothing is touched.
        self.remove_all(chosen.woken.as_slice());
        Scan {
            woken: chosen.woken,
            vias,
            tests: chosen.tests,
        }
    }
}
