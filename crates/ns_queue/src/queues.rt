//! The lists, and what changes one waiter.

ghost use Rattle.std.specs.Prelude.{◌≡◌, ◌<◌, ℕ, ◌+◌, ◌≤◌, ◌↔◌, ◌&&◌, not, [], ◌∷◌, ◌++◌, length, map, nat_lt, replicate, sum_by, take, IsTrue};
ghost use Rattle.std.specs.Bool.{OnFalse, OnTrue};
ghost use Rattle.std.specs.List.{list_any};
ghost use Rattle.ns_queue.specs.Prelude.{HaveSeats, IsList, IsOrderly, beside, cvs_without, has_condition, has_some, is_long, outside, shown_of, times, times_in, waiters_of, with_waiters, without, writes};

use crate::lock_list::LockList;
use crate::room::Queueable;
use crate::waiter::{LONG_TRIES, Shown, Waiter, Which};
use arrayvec::ArrayVec;
use ns_model::condition::Condition;
use ns_model::seats::Seats;
use std::marker::Model;

/// The waiter lists of a lock. To its callers this is five lists: the lock's, and one for each of four condition
/// variables. A seat stands in the lock's once, or once in any of the others. So a list has room
/// for every waiter: seats are below 64, and each stands there at most once.
///
/// The bound stands at the type, since the invariant of the lock list names what `same` means.
#[derive(Drop)]
pub struct Queues<C: Condition<N>, const N: usize> {
    pub(crate) lock: LockList<C, N>,
    pub(crate) cvs: [ArrayVec<Waiter<C>, 64>; 4],
}

impl<C: Condition<N>, const N: usize> Model for Queues<C, N> {
    ghost use Rattle.std.specs.Prelude.{map};
    ghost use Rattle.ns_queue.specs.Queues.{Lists, IsOrderly};

    ghost Value = { Lists C };

    ghost view = { λ q. record { lock = q.lock; cvs = map (λ v. v.items) q.cvs } };

    ghost invariant = { λ q. IsOrderly (record { lock = q.lock; cvs = map (λ v. v.items) q.cvs }) };
}

impl<C: Queueable<N>, const N: usize> Queues<C, N> {
    /// Empty lists.
    pub fn new() -> Queues<C, N>
        ensures { result ≡ record { lock = []; cvs = replicate 4 [] } }
    {
        Queues {
            lock: LockList::new(),
            cvs: [
                ArrayVec::new(),
                ArrayVec::new(),
                ArrayVec::new(),
                ArrayVec::new(),
            ],
        }
    }

    /// The waiters of a list, front first.
    ///
    /// Needs a list that there is: a variable's number below 4.
    pub fn waiters(&self, list: Which) -> ArrayVec<Waiter<C>, 64>
        requires { IsList list }
        ensures { result.items ≡ waiters_of self.now list }
    {
        match list {
            Which::Lock => self.lock.waiters(),
            Which::Cv(k) => self.copied_list(k),
        }
    }

    /// The list of a variable, as it lies there.
    ///
    /// Needs a number below 4.
    pub(crate) fn variable(&self, k: u8) -> &[Waiter<C>]
        requires { k < 4 }
        ensures list { result.now ≡ waiters_of self.now (Which.Cv k) }
        ensures below { HaveSeats result.now }
        ensures few { length result.now ≤ 64 }
        ensures orderly { IsOrderly self.now }
    {
        self.cvs[k as usize].as_slice()
    }

    /// Whether anybody waits for the variable.
    ///
    /// Needs a number below 4.
    pub fn has_waiters(&self, k: u8) -> bool
        requires { k < 4 }
        ensures { result ≡ has_some (waiters_of self.now (Which.Cv k)) }
    {
        !self.variable(k).is_empty()
    }

    /// The list of a variable once more.
    ///
    /// Needs a number below 4.
    pub(crate) fn copied_list(&self, k: u8) -> ArrayVec<Waiter<C>, 64>
        requires { k < 4 }
        ensures list { result.items ≡ waiters_of self.now (Which.Cv k) }
        ensures below { HaveSeats result.items }
        ensures orderly { IsOrderly self.now }
    {
        copied(self.variable(k))
    }

    /// Takes those of the set out of the lists of the variables.
    pub(crate) fn drop_from_variables(&mut self, set: Seats)
        ensures { self.new ≡ cvs_without set self.old }
    {
        drop_from_all(&mut self.cvs, set);
    }

    /// The waiters of a list, front first, in the form in which they are shown. None is copied.
    ///
    /// Needs a list that there is: a variable's number below 4.
    pub fn shown(&self, list: Which) -> ArrayVec<Shown, 64>
        requires { IsList list }
        ensures shown { result.items ≡ map shown_of (waiters_of self.now list) }
        ensures orderly { IsOrderly self.now }
    {
        match list {
            Which::Lock => self.lock.shown(),
            Which::Cv(k) => shown_slice(self.variable(k)),
        }
    }

    /// The same lists once more. A world shows by it how the lists are in a hand; the gate copies
    /// none.
    pub fn copied(&self) -> Queues<C, N>
        ensures { result ≡ self.now }
    {
        Queues {
            lock: self.lock.copied(),
            cvs: [
                self.copied_list(0),
                self.copied_list(1),
                self.copied_list(2),
                self.copied_list(3),
            ],
        }
    }

    /// Whether the seat stands in a list.
    pub fn holds(&self, seat: u8) -> bool
        ensures stands { IsTrue result ↔ (0 < times seat self.now) }
        ensures nowhere { OnFalse result (times seat self.now ≡ 0) }
        ensures orderly { IsOrderly self.now }
    {
        self.lock.holds(seat) || stands_in_any(&self.cvs, seat)
    }

    /// Whether the seat stands in the list of any variable.
    pub fn stands_at_variables(&self, seat: u8) -> bool
        ensures { result ≡ nat_lt 0 (sum_by (times_in seat) self.now.cvs) }
    {
        stands_in_any(&self.cvs, seat)
    }

    /// Whether the seat stands in that list.
    ///
    /// Needs a list that there is: a variable's number below 4.
    pub fn stands(&self, list: Which, seat: u8) -> bool
        requires { IsList list }
        ensures stands { result ≡ nat_lt 0 (times_in seat (waiters_of self.now list)) }
        ensures orderly { IsOrderly self.now }
    {
        match list {
            Which::Lock => self.lock.holds(seat),
            Which::Cv(k) => stands_in(self.variable(k), seat),
        }
    }

    /// Puts a waiter at the back of a list; the others stay as they are.
    ///
    /// Needs a list that there is, and a seat below 64 that stands in no list, which
    /// [`Queues::holds`] tells.
    pub fn push_back(&mut self, list: Which, waiter: Waiter<C>)
        requires list { IsList list }
        requires below { waiter.seat < 64 }
        requires free { times waiter.seat self.old ≡ 0 }
        ensures { self.new ≡ with_waiters self.old list (waiters_of self.old list ++ waiter ∷ []) }
    {
        match list {
            Which::Lock => self.lock.push_back(waiter),
            Which::Cv(k) => self.push_to(k, waiter),
        }
    }

    /// Puts a waiter at the back of the list of a variable; the others stay as they are.
    ///
    /// Needs a number below 4, and a seat below 64 that stands neither in that list nor in the lock's.
    pub(crate) fn push_to(&mut self, k: u8, waiter: Waiter<C>)
        requires variable { k < 4 }
        requires below { waiter.seat < 64 }
        requires free { beside self.old waiter.seat k ≡ 0 }
        ensures { self.new ≡ with_waiters self.old (Which.Cv k) (waiters_of self.old (Which.Cv k) ++ waiter ∷ []) }
    {
        let queue = &mut self.cvs[k as usize];
        queue.push(waiter)
    }

    /// Puts these waiters at the back of the lock list, in order; the others stay as they are.
    ///
    /// Needs each of their seats to be below 64 and to stand in no list, and none to stand twice among
    /// them.
    pub fn append(&mut self, waiters: &[Waiter<C>])
        requires below { HaveSeats waiters.now }
        requires once { (seat : ℕ) → times_in seat waiters.now ≤ 1 }
        requires free { (seat : ℕ) → 1 ≤ times_in seat waiters.now → times seat self.old ≡ 0 }
        ensures { self.new ≡ with_waiters self.old Which.Lock (self.old.lock ++ waiters.now) }
    {
        for waiter in waiters {
            self.push_back(Which::Lock, *waiter);
        }
    }

    /// Puts a waiter at the front of the lock list; the others stay as they are.
    ///
    /// Needs a seat below 64 that stands in no list, which [`Queues::holds`] tells.
    pub fn push_front(&mut self, waiter: Waiter<C>)
        requires below { waiter.seat < 64 }
        requires free { times waiter.seat self.old ≡ 0 }
        ensures { self.new ≡ with_waiters self.old Which.Lock (waiter ∷ self.old.lock) }
    {
        self.lock.push_front(waiter);
    }

    /// Takes the seat out of each list that it stands in, and answers whether it stood in one. The
    /// others stay as they are.
    pub fn remove(&mut self, seat: u8) -> bool
        ensures stood { IsTrue result ↔ (0 < times seat self.old) }
        ensures removed { OnTrue result (self.new ≡ without seat self.old) }
        ensures absent { OnFalse result (self.new ≡ self.old) }
    {
        // Who stands in the lock's list stands in no other, so then no other is looked at.
        if self.lock.remove(seat) {
            return true;
        }
        if !stands_in_any(&self.cvs, seat) {
            return false;
        }
        self.drop_from_variables(Seats::none().with(seat));
        true
    }

    /// What the lock list holds: whether somebody waits, whether somebody waits for a condition,
    /// whether a writer waits without one, and whether somebody waits long, whose tries are
    /// [`LONG_TRIES`].
    pub fn bits(&self) -> (bool, bool, bool, bool)
        ensures waiting { IsTrue result.0 ↔ (0 < length self.now.lock) }
        ensures conditional { result.1 ≡ list_any has_condition self.now.lock }
        ensures writer_waits { result.2 ≡ list_any (λ w. writes w && not (has_condition w)) self.now.lock }
        ensures long { result.3 ≡ list_any is_long self.now.lock }
    {
        self.lock.bits()
    }
}

/// Takes those of the set out of the list.
fn drop_those<C: Queueable<N>, const N: usize>(waiters: &mut ArrayVec<Waiter<C>, 64>, set: Seats)
    requires { HaveSeats waiters.old.items }
    ensures { waiters.new.items ≡ outside set waiters.old.items }
{
    let kept = keep_outside(waiters.as_mut_slice(), set);
    waiters.truncate(kept);
}

/// Moves those of other seats to the front, in order, and counts them. A condition may be large, so
/// those in front of the first that goes aren't copied.
fn keep_outside<C: Queueable<N>, const N: usize>(waiters: &mut [Waiter<C>], set: Seats) -> usize
    requires { HaveSeats waiters.old }
    ensures { take result waiters.new ≡ outside set waiters.old }
{
    let mut kept = 0;
    for i in 0..waiters.len() {
        if !set.contains(waiters[i].seat) {
            if kept != i {
                waiters[kept] = waiters[i];
            }
            kept += 1;
        }
    }
    kept
}

/// Takes those of the set out of each of the lists.
pub(crate) fn drop_from_all<C: Queueable<N>, const N: usize>(
    lists: &mut [ArrayVec<Waiter<C>, 64>],
    set: Seats,
)
    requires { (seat : ℕ) → 64 ≤ seat → sum_by (times_in seat) (map (λ v. v.items) lists.old) ≡ 0 }
    ensures { map (λ v. v.items) lists.new ≡ map (outside set) (map (λ v. v.items) lists.old) }
{
    for list in lists.iter_mut() {
        drop_those(list, set);
    }
}

/// The same list once more.
fn copied<C: Queueable<N>, const N: usize>(waiters: &[Waiter<C>]) -> ArrayVec<Waiter<C>, 64>
    requires { length waiters.now ≤ 64 }
    ensures { result.items ≡ waiters.now }
{
    let mut copy = ArrayVec::new();
    let _ = copy.try_extend_from_slice(waiters);
    copy
}

/// Waiters in the form in which they are shown.
fn shown_slice<C: Queueable<N>, const N: usize>(waiters: &[Waiter<C>]) -> ArrayVec<Shown, 64>
    requires { length waiters.now ≤ 64 }
    ensures { result.items ≡ map shown_of waiters.now }
{
    let mut all = ArrayVec::new();
    for waiter in waiters {
        all.push(waiter.shown());
    }
    all
}

/// Whether the seat stands in the list.
fn stands_in<C: Queueable<N>, const N: usize>(waiters: &[Waiter<C>], seat: u8) -> bool
    ensures { IsTrue result ↔ (0 < times_in seat waiters.now) }
{
    for waiter in waiters {
        if waiter.seat == seat {
            return true;
        }
    }
    false
}

/// Whether the seat stands in one of the lists.
fn stands_in_any<C: Queueable<N>, const N: usize>(
    lists: &[ArrayVec<Waiter<C>, 64>; 4],
    seat: u8,
) -> bool
    ensures { IsTrue result ↔ (0 < sum_by (times_in seat) (map (λ v. v.items) lists.now)) }
{
    for list in lists {
        if stands_in(list.as_slice(), seat) {
            return true;
        }
    }
    false
}
