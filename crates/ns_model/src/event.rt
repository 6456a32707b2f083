//! What happens to the lock, as events.

use crate::cvs::Cvs;
use crate::seats::Seats;

/// How a section holds the lock: alone, or beside other readers.
#[derive(Clone, Copy, Debug, PartialEq, Eq)]
pub enum Mode {
    /// Alone.
    Write,
    /// Beside other readers.
    Read,
}

/// How a wait ended: its condition was met or it was woken, its deadline passed, or its note was
/// notified. nsync's 0, `ETIMEDOUT` and `ECANCELED`.
#[derive(Clone, Copy, Debug, PartialEq, Eq)]
pub enum Answer {
    /// The condition was met, or the caller was woken: 0.
    Met,
    /// The deadline passed: `ETIMEDOUT`.
    TimedOut,
    /// The note was notified: `ECANCELED`.
    Canceled,
}

/// How a section began: by acquiring the lock, or as the return from a wait for a condition, for a
/// condition variable, or for any of several.
#[derive(Clone, Copy, Debug)]
pub enum Entry<C> {
    /// By a call that locks.
    Plain,
    /// As the return from a wait for the condition, with its answer.
    Waited(C, Answer),
    /// As the return from a wait for the condition variable, with its answer.
    AfterCv(u8, Answer),
    /// As the return from a wait for any of several condition variables: the one that woke it, or none
    /// where the wait was left.
    AfterAny(Option<u8>),
}

/// How a section ended: by a release, or by a wait for a condition, for a condition variable, or for
/// any of several.
#[derive(Clone, Copy, Debug)]
pub enum Exit<C> {
    /// By a release.
    Plain,
    /// By a wait for the condition.
    CondWait(C),
    /// By a wait for the condition variable.
    CvWait(u8),
    /// By a wait for any of the condition variables of the set.
    AnyWait(Cvs),
}

/// One event, with the seat of its caller: a whole section with the row before and after it, a
/// signal or a broadcast of a condition variable with the seats that it woke, or a wait for a
/// condition variable that was left for its deadline or its note, or one for any of several that was
/// left for its deadline or for what else it waited for.
#[derive(Clone, Copy)]
pub enum Event<C, const N: usize> {
    /// A whole section.
    Section {
        who: u8,
        mode: Mode,
        entry: Entry<C>,
        before: [u64; N],
        after: [u64; N],
        exit: Exit<C>,
    },
    /// A signal of the condition variable `k`.
    Signal {
        who: u8,
        k: u8,
        woken: Seats,
    },
    /// A broadcast of the condition variable `k`.
    Broadcast {
        who: u8,
        k: u8,
        woken: Seats,
    },
    /// A wait for the condition variable `k` was left.
    Leave {
        who: u8,
        k: u8,
    },
    /// A wait for any of the condition variables of the set was left.
    LeaveAny {
        who: u8,
        cvs: Cvs,
    },
}
