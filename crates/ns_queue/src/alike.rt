//! Whether a waiter's condition is declared the same as another, whether a waiter goes on with a run,
//! whether a condition is true, and how many tests that takes.

ghost use Rattle.std.specs.Prelude.{◌≡◌, is_some};
ghost use Rattle.std.specs.Option.{option_copied};
ghost use Rattle.ns_queue.specs.Prelude.{is_alike, is_satisfied, joins, one_if};

use crate::room::Queueable;
use crate::waiter::Waiter;

/// Whether the waiter's condition is declared the same as the one given.
pub(crate) fn is_alike<C: Queueable<N>, const N: usize>(
    waiter: &Waiter<C>,
    first: Option<&C>,
) -> bool
    ensures { result ≡ is_alike C.means.same waiter.now.cond (option_copied first.entry) }
{
    match (&waiter.cond, first) {
        (Some(next), Some(first)) => next.same(first),
        _ => false,
    }
}

/// Whether the waiter goes on with the run of this first.
pub(crate) fn joins<C: Queueable<N>, const N: usize>(
    waiter: &Waiter<C>,
    first: Option<&Waiter<C>>,
) -> bool
    ensures { result ≡ joins C.means.same waiter.now (option_copied first.entry) }
{
    match first {
        Some(first) => is_alike(waiter, first.cond.as_ref()),
        None => false,
    }
}

/// Whether the condition, if there is one, is true of the row.
pub(crate) fn is_met<C: Queueable<N>, const N: usize>(first: Option<&C>, row: &[u64; N]) -> bool
    ensures { result ≡ is_satisfied (λ c. C.means.holds c row.now) (option_copied first.entry) }
{
    match first {
        Some(c) => c.test(row),
        None => true,
    }
}

/// How many tests it takes to learn whether the condition is met: one, if there is one.
pub(crate) fn tests_for<C>(cond: Option<&C>) -> u32
    ensures { result ≡ one_if (is_some (option_copied cond.entry)) }
{
    if cond.is_some() { 1 } else { 0 }
}
