//! A waiter, how one is shown, and the name of a list.

use ns_model::event::Mode;

/// Tries are counted up to here: a waiter that has failed so often waits long. A count stays there, so 'has
/// 30' is 'has 30 or more'.
pub const LONG_TRIES: u8 = 30;

/// One who waits: its seat, the mode that it waits in, the condition that it waits for, if any, how
/// often it has failed, and the variable in whose list it stands, or whose wake has moved it from there.
#[derive(Clone, Copy)]
pub struct Waiter<C> {
    /// A number below 64.
    pub seat: u8,
    /// The mode in which it waits.
    pub mode: Mode,
    /// The condition that it waits for.
    pub cond: Option<C>,
    /// How often it has queued again in one acquire, after it was woken and could not acquire: at
    /// most [`LONG_TRIES`].
    pub tries: u8,
    /// The condition variable that it names: the one in whose list it stands, or from whose list it has come
    /// to the lock's. The lists keep what they are given, but [`Queues::push_any`] names each list's own.
    ///
    /// [`Queues::push_any`]: crate::queues::Queues::push_any
    pub via: Option<u8>,
}

/// The blank that unused places of a list hold: seat 0, writing, without condition, untried, naming no
/// variable.
impl<C> Default for Waiter<C> {
    ghost use Rattle.std.specs.Prelude.{◌≡◌, None};
    ghost use Rattle.ns_model.specs.declared.event.Mode.TheVariants.{Write};

    ghost is_default = { λ w. w ≡ record { seat = 0; mode = Write; cond = None; tries = 0; via = None } };

    fn default() -> Waiter<C> {
        Waiter {
            seat: 0,
            mode: Mode::Write,
            cond: None,
            tries: 0,
            via: None,
        }
    }
}

/// The form in which a waiter is shown: its seat, its mode, and whether it has a condition.
#[derive(Clone, Copy, Debug, PartialEq, Eq)]
pub struct Shown {
    /// A number below 64.
    pub seat: u8,
    /// The mode in which it waits.
    pub mode: Mode,
    /// Whether it waits for a condition.
    pub conditional: bool,
}

/// The blank that unused places of a list hold: seat 0, writing, without condition.
impl Default for Shown {
    ghost use Rattle.std.specs.Prelude.{◌≡◌, false};
    ghost use Rattle.ns_model.specs.declared.event.Mode.TheVariants.{Write};

    ghost is_default = { λ w. w ≡ record { seat = 0; mode = Write; conditional = false } };

    fn default() -> Shown {
        Shown {
            seat: 0,
            mode: Mode::Write,
            conditional: false,
        }
    }
}

impl<C: Copy> Waiter<C> {
    ghost use Rattle.std.specs.Prelude.{◌≡◌};
    ghost use Rattle.ns_queue.specs.Queues.{named_for};
    ghost use Rattle.ns_queue.specs.Waiters.{shown_of};

    /// The same waiter, as it stands in the list of this variable.
    pub(crate) fn named(self, k: u8) -> Waiter<C>
        ensures { result ≡ named_for k self }
    {
        Waiter {
            seat: self.seat,
            mode: self.mode,
            cond: self.cond,
            tries: self.tries,
            via: Some(k),
        }
    }

    /// The form in which the waiter is shown.
    pub fn shown(&self) -> Shown
        ensures { result ≡ shown_of self.now }
    {
        Shown {
            seat: self.seat,
            mode: self.mode,
            conditional: self.cond.is_some(),
        }
    }
}

/// The name of a list: the lock's, or that of a condition variable, numbered from 0 to 3.
#[derive(Clone, Copy, Debug, PartialEq, Eq)]
pub enum Which {
    /// The lock's list.
    Lock,
    /// That of the condition variable of this number, below 4.
    Cv(u8),
}
