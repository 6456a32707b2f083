//! Whom a signal and a broadcast take from the list of a condition variable.

ghost use Rattle.std.specs.Prelude.{◌≡◌, ◌<◌, ◌≤◌, [], length, IfNone, OnSome};
ghost use Rattle.ns_queue.specs.Prelude.{Anybody, HaveSeats, IsOrderly, cvs_without, is_wanted, signal_marks, signaled_of, sole_of, taken_set, waiters_of, wanted_after};

use crate::marks::marked;
use crate::queues::Queues;
use crate::room::Queueable;
use crate::waiter::{Waiter, Which};
use arrayvec::ArrayVec;
use ns_model::seats::Seats;

/// Whom a signal still takes.
#[derive(Clone, Copy)]
pub(crate) enum Wanted {
    /// The first who comes.
    Anybody,
    /// Each reader, and one writer.
    ReadersAndWriter,
    /// Each reader.
    Readers,
    /// Nobody else.
    Nobody,
}

impl Wanted {
    ghost use Rattle.std.specs.Prelude.{◌≡◌};

    fn after<C: Queueable<N>, const N: usize>(self, waiter: &Waiter<C>) -> Wanted
        ensures { result ≡ wanted_after self waiter.now }
    {
        match self {
            Wanted::Anybody if waiter.mode.is_write() => Wanted::Nobody,
            Wanted::ReadersAndWriter if waiter.mode.is_write() => Wanted::Readers,
            Wanted::Anybody => Wanted::ReadersAndWriter,
            other => other,
        }
    }

    fn takes<C: Queueable<N>, const N: usize>(self, waiter: &Waiter<C>) -> bool
        ensures { result ≡ is_wanted self waiter.now }
    {
        match self {
            Wanted::Anybody => true,
            Wanted::ReadersAndWriter => true,
            Wanted::Readers => !waiter.mode.is_write(),
            Wanted::Nobody => false,
        }
    }
}

/// A mark for each waiter that a signal takes.
fn marks_of<C: Queueable<N>, const N: usize>(waiters: &[Waiter<C>]) -> ArrayVec<bool, 64>
    requires { length waiters.now ≤ 64 }
    ensures { result.items ≡ signal_marks Anybody waiters.now }
{
    let mut wanted = Wanted::Anybody;
    let mut marks = ArrayVec::new();
    for waiter in waiters {
        marks.push(wanted.takes(waiter));
        wanted = wanted.after(waiter);
    }
    marks
}

/// Those of the list whom a signal wakes, in order.
fn signaled<C: Queueable<N>, const N: usize>(waiters: &[Waiter<C>]) -> ArrayVec<Waiter<C>, 64>
    requires { length waiters.now ≤ 64 }
    ensures { result.items ≡ signaled_of waiters.now }
{
    let marks = marks_of(waiters);
    marked(waiters, marks.as_slice())
}

/// The waiter of a list that has just one.
fn sole_in<C: Queueable<N>, const N: usize>(waiters: &[Waiter<C>]) -> Option<Waiter<C>>
    ensures { result ≡ sole_of waiters.now }
{
    match waiters {
        [waiter] => Some(*waiter),
        _ => None,
    }
}

/// The set of the seats of those whom a signal or a broadcast took.
///
/// Needs each seat to be below 64, as every seat of the lists is.
pub fn taken_set<C: Queueable<N>, const N: usize>(taken: &[Waiter<C>]) -> Seats
    requires { HaveSeats taken.now }
    ensures { result ≡ taken_set taken.now }
{
    let mut set = Seats::none();
    for waiter in taken {
        set = set.with(waiter.seat);
    }
    set
}

impl<C: Queueable<N>, const N: usize> Queues<C, N> {
    /// Takes those out of the lists of the variables whom a signal of this one wakes, and answers them
    /// in order: the first waiter of its list, and if that one reads, every other reader and the first
    /// writer too. Of an empty list it takes nobody. The others stay, in order, and so does the lock
    /// list.
    ///
    /// Needs a number below 4.
    pub fn take_signal(&mut self, k: u8) -> ArrayVec<Waiter<C>, 64>
        requires { k < 4 }
        ensures taken { result.items ≡ signaled_of (waiters_of self.old (Which.Cv k)) }
        ensures left { self.new ≡ cvs_without (taken_set (signaled_of (waiters_of self.old (Which.Cv k)))) self.old }
        ensures orderly { IsOrderly self.old }
    {
        let taken = signaled(self.variable(k));
        self.drop_from_variables(taken_set(taken.as_slice()));
        taken
    }

    /// Takes everybody who waits for the variable out of the lists of the variables, and answers them
    /// in order. The others stay, in order, and so does the lock list.
    ///
    /// Needs a number below 4.
    pub fn take_all(&mut self, k: u8) -> ArrayVec<Waiter<C>, 64>
        requires { k < 4 }
        ensures taken { result.items ≡ waiters_of self.old (Which.Cv k) }
        ensures left { self.new ≡ cvs_without (taken_set (waiters_of self.old (Which.Cv k))) self.old }
        ensures orderly { IsOrderly self.old }
    {
        let all = self.copied_list(k);
        self.drop_from_variables(taken_set(all.as_slice()));
        all
    }

    /// Where just one waits for the variable, takes that one out of the lists of the variables and
    /// answers it, as a signal and a broadcast do alike; the others stay, in order, and so does the lock
    /// list. Else answers nothing, and the lists stay as they are. It makes no list of those taken.
    ///
    /// Needs a number below 4.
    pub fn take_sole(&mut self, k: u8) -> Option<Waiter<C>>
        requires { k < 4 }
        ensures sole { result ≡ sole_of (waiters_of self.old (Which.Cv k)) }
        ensures left { OnSome result (self.new ≡ cvs_without (taken_set (waiters_of self.old (Which.Cv k))) self.old) }
        ensures same { IfNone result (self.new ≡ self.old) }
        ensures orderly { IsOrderly self.old }
    {
        match sole_in(self.variable(k)) {
            Some(sole) => {
                self.drop_from_variables(Seats::none().with(sole.seat));
                Some(sole)
            }
            None => None,
        }
    }

    /// The set of the seats whom a signal of the variable would take, with the lists left as they are.
    ///
    /// Needs a number below 4.
    pub fn signaled_set(&self, k: u8) -> Seats
        requires { k < 4 }
        ensures { result ≡ taken_set (signaled_of (waiters_of self.now (Which.Cv k))) }
    {
        taken_set(signaled(self.variable(k)).as_slice())
    }

    /// The set of the seats whom a broadcast of the variable would take, which is everybody who waits
    /// for it, with the lists left as they are.
    ///
    /// Needs a number below 4.
    pub fn waiting_set(&self, k: u8) -> Seats
        requires { k < 4 }
        ensures { result ≡ taken_set (waiters_of self.now (Which.Cv k)) }
    {
        taken_set(self.variable(k))
    }
}
