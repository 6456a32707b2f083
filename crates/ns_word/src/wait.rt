//! Waits, for a condition or for condition variables.

ghost use Rattle.std.specs.Prelude.{◌≡◌, ⊤};
ghost use Rattle.ns_word.specs.Waits.{answer_of, answer_of_wait, arrival_of, home_of, mode_for, outcome_taken, variable_in, woken_by};

use crate::owed::{is_from_lock, variable_told};
use crate::word::{Arrival, Word};
use ns_env::limits::{Cause, Limits};
use ns_model::cvs::Variables;
use ns_model::event::{Answer, Mode};
use std::alloc::AllocError;

/// What a wait waits for.
#[derive(Copy)]
pub enum Subject<C> {
    /// A condition on the row.
    OnCondition(C),
    /// A condition variable of a number below 4, or any of a set of them.
    OnVariables(Variables),
}

impl<C: Copy> Clone for Subject<C> {
    ghost is_clone = { λ one other. other ≡ one };

    ghost is_infallible = { λ _. ⊤ };

    fn clone(&self) -> Result<Self, AllocError> {
        Ok(*self)
    }
}

/// A wait.
#[derive(Copy)]
pub struct Wait<C> {
    /// The mode of the section that is left, in which the lock is acquired again.
    pub mode: Mode,
    /// What it waits for.
    pub on: Subject<C>,
    /// What may end the wait early.
    pub limits: Limits,
}

impl<C: Copy> Clone for Wait<C> {
    ghost is_clone = { λ one other. other ≡ one };

    ghost is_infallible = { λ _. ⊤ };

    fn clone(&self) -> Result<Self, AllocError> {
        Ok(*self)
    }
}

/// What came of a wait.
#[derive(Clone, Copy)]
pub enum Outcome {
    /// It was woken: by a wake of the variable of this number, if it is for variables.
    Woken(Option<u8>),
    /// It was ended early.
    Ended(Cause),
}

/// Where a wait stands that has queued, until it is taken.
#[derive(Clone, Copy)]
pub enum Home {
    /// In the lock list.
    AtLock,
    /// In the lists of the variables that it waits for.
    AtVariables(Variables),
}

/// What an acquire is for.
#[derive(Copy)]
pub enum Aim<C> {
    /// For a call that locks in this mode.
    ForLock(Mode),
    /// For a wait that comes back, with what came of it.
    ForWait(Wait<C>, Outcome),
}

impl<C: Copy> Clone for Aim<C> {
    ghost is_clone = { λ one other. other ≡ one };

    ghost is_infallible = { λ _. ⊤ };

    fn clone(&self) -> Result<Self, AllocError> {
        Ok(*self)
    }
}

/// When the condition of a wait is tested.
#[derive(Clone, Copy)]
pub enum Visit {
    /// As the call begins.
    OnEntry,
    /// After the lock was acquired again, with what came of the wait.
    OnReturn(Outcome),
}

/// A place in a wait.
#[derive(Clone, Copy)]
pub enum WaitPlace {
    /// It tests its condition, and is about to load this cell, which isn't the last.
    TestCells(Visit, u8),
    /// It tests its condition, and is about to load this cell, the last.
    TestLast(Visit, u8),
    /// Its condition is false, and it is about to queue, at this place. The flag tells whether it
    /// queues again, after it was woken and found its condition false.
    InQueuing(bool, QueuePlace),
    /// It stands in its list, and owes wakes.
    PayInWait,
    /// It waits to be woken.
    AwaitWakeInWait,
    /// It looks, while it waits to be woken.
    LookOut,
    /// It ends for this cause, at this place.
    InLeaving(Cause, LeavePlace),
}

/// A place in a wait that is about to queue, with its section in hand. A word is the one last seen.
#[derive(Clone, Copy)]
pub enum QueuePlace {
    /// It looks.
    LookIn,
    /// It is about to load the word.
    Load,
    /// It has seen this word, and is about to take the queues.
    Take(Word),
    /// It has the queues, and is about to set its flag.
    ArmToWait(Word),
    /// It waits for variables, has the queues, and is about to load this cell for the scan.
    LoadToScan(Word, u8),
    /// It is about to put the queues back as a scan leaves them, with itself in its list.
    QueueToWait(Word),
}

/// A place in a wait that ends early, and has queued. A word is the one last seen.
#[derive(Clone, Copy)]
pub enum LeavePlace {
    /// It is about to load the word.
    LeaveLoad,
    /// It has seen this word, and is about to take the queues.
    TakeToLeave(Word),
    /// It is about to put the queues back without itself.
    Leave(Word),
    /// It was taken from its list before it could leave it, and waits for its wake.
    AwaitWakeToLeave,
}

/// What a wait answers that was ended early.
pub fn answer_of(cause: Cause) -> Answer
    ensures { result ≡ answer_of cause }
{
    match cause {
        Cause::Expired => Answer::TimedOut,
        Cause::Notified => Answer::Canceled,
    }
}

impl Outcome {
    /// The variable whose wake has ended a wait of which this came, if one has.
    pub fn variable(self) -> Option<u8>
        ensures { result ≡ variable_in self }
    {
        match self {
            Outcome::Woken(by) => by,
            Outcome::Ended(_) => None,
        }
    }

    /// What a wait for a variable answers of which this came.
    pub fn answer(self) -> Answer
        ensures { result ≡ answer_of_wait self }
    {
        match self {
            Outcome::Woken(_) => Answer::Met,
            Outcome::Ended(cause) => answer_of(cause),
        }
    }
}

/// How one comes to acquire that stood there with so many failed tries, and has found this value in
/// its flag.
pub fn arrival_of(tries: u8, flag: u8) -> Arrival
    ensures { result ≡ arrival_of tries flag }
{
    if is_from_lock(flag) {
        Arrival::AsWoken(tries)
    } else {
        Arrival::AsFresh
    }
}

impl<C: Copy> Subject<C> {
    /// Where such a wait stands.
    pub fn home(self) -> Home
        ensures { result ≡ home_of self }
    {
        match self {
            Subject::OnCondition(_) => Home::AtLock,
            Subject::OnVariables(variables) => Home::AtVariables(variables),
        }
    }

    /// What came of such a wait that was woken, and has found this value in its flag: where it is for
    /// variables, that tells which of them has woken it.
    pub fn woken_by(self, flag: u8) -> Outcome
        ensures { result ≡ woken_by self flag }
    {
        match self {
            Subject::OnCondition(_) => Outcome::Woken(None),
            Subject::OnVariables(_) => Outcome::Woken(Some(variable_told(flag))),
        }
    }

    /// What came of such a wait that was about to leave for this cause, was taken from its list
    /// before, and has found this value in its flag: a wait for variables was woken, and one for a
    /// condition was ended by the cause.
    pub fn outcome_taken(self, cause: Cause, flag: u8) -> Outcome
        ensures { result ≡ outcome_taken self cause flag }
    {
        match self {
            Subject::OnCondition(_) => Outcome::Ended(cause),
            Subject::OnVariables(_) => self.woken_by(flag),
        }
    }
}

impl<C: Copy> Aim<C> {
    /// The mode in which the lock is acquired.
    pub fn mode(self) -> Mode
        ensures { result ≡ mode_for self }
    {
        match self {
            Aim::ForLock(mode) => mode,
            Aim::ForWait(wait, _) => wait.mode,
        }
    }
}
