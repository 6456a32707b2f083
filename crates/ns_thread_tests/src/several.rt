//! What no clause says of waits for any of several condition variables between threads: that one comes
//! back by a wake of either of them, also where that had moved it, and at its caller's will.

ghost use Rattle.std.specs.Prelude.{◌<◌, ◌≤◌};

use crate::locks::{Lock, new_monitor, two_locks};
use ns_fixtures::AtLeast;
use ns_monitor::caller::Writing;
use ns_monitor::{AnyPoll, Cvs, WaitingForAny};
use std::sync::Wait;

/// A wait that was begun in a write section.
type Begun<'m> = WaitingForAny<'m, Writing<2>, AtLeast, 2>;

/// Asks a wait that nobody has woken.
fn ask_in_vain<'m, R: Wait>(rt: &R, waiting: Begun<'m>) -> Option<Begun<'m>> {
    match waiting.any_poll(rt) {
        AnyPoll::Woken(_, _) => None,
        AnyPoll::Still(waiting) => Some(waiting),
    }
}

/// Signals a variable, and asks a wait that this wakes which one it was.
fn ask_behind<R: Wait>(rt: &R, waiting: Begun<'_>, mut other: Lock<'_>, k: u8) -> Option<u8>
    requires { k < 4 }
{
    other.signal(rt, k);
    match waiting.any_poll(rt) {
        AnyPoll::Woken(held, by) => {
            held.unlock(rt);
            Some(by)
        }
        AnyPoll::Still(_) => None,
    }
}

/// Waits for the variables, is not woken by the signal of a stranger's, and then by the one of a variable: which
/// that was, as the wait tells.
fn wait_past<R: Wait>(
    rt: &R,
    lock: Lock<'_>,
    mut other: Lock<'_>,
    cvs: Cvs,
    strange: u8,
    k: u8,
) -> Option<u8>
    requires { (1 ≤ cvs.0) × (cvs.0 < 16) × (strange < 4) × (k < 4) }
{
    let waiting = lock.lock(rt).any_begin(rt, cvs);
    let waiting = ask_in_vain(rt, waiting)?;
    other.signal(rt, strange);
    let waiting = ask_in_vain(rt, waiting)?;
    ask_behind(rt, waiting, other, k)
}

/// A signal of one of the variables ends the wait, and says which it was; that of another doesn't.
#[test]
fn a_signal_ends_it(rt: HostRuntime) {
    let (monitor, seats) = new_monitor(&rt, rt.alloc(), 2);
    let (first, second) = two_locks(&rt, &monitor, seats);
    let by = wait_past(&rt, first, second, Cvs(5), 1, 2);
    assert_eq!(rt; by, Some(2));
}

/// Begins to wait for variables, and ends it. Answers which had woken it.
fn leave_at_once<'m, R: Wait>(rt: &R, lock: Lock<'m>) -> (Lock<'m>, Option<u8>) {
    let waiting = lock.lock(rt).any_begin(rt, Cvs(10));
    let (held, by) = waiting.any_leave(rt);
    (held.unlock(rt), by)
}

/// Its caller ends it, and stands in no list then: a signal of a variable that it has left doesn't end a
/// later wait for another one.
#[test]
fn its_caller_ends_it(rt: HostRuntime) {
    let (monitor, seats) = new_monitor(&rt, rt.alloc(), 2);
    let (first, second) = two_locks(&rt, &monitor, seats);
    let (first, none) = leave_at_once(&rt, first);
    let by = wait_past(&rt, first, second, Cvs(8), 1, 3);
    assert_eq!(rt; (none, by), (None, Some(3)));
}

/// Waits for two variables, of which one is signaled under the lock, and ends it behind that release. Answers
/// which has woken it.
fn leave_where_moved<R: Wait>(rt: &R, lock: Lock<'_>, other: Lock<'_>) -> Option<u8> {
    let waiting = lock.lock(rt).any_begin(rt, Cvs(3));
    let mut held = other.lock(rt);
    held.signal(rt, 1);
    let waiting = ask_in_vain(rt, waiting)?;
    held.unlock(rt);
    let (held, by) = waiting.any_leave(rt);
    held.unlock(rt);
    by
}

/// A signal under the lock moves the wait, and its caller can't end it any more: it is woken as the lock is
/// released.
#[test]
fn a_moved_one_is_woken(rt: HostRuntime) {
    let (monitor, seats) = new_monitor(&rt, rt.alloc(), 2);
    let (first, second) = two_locks(&rt, &monitor, seats);
    assert_eq!(rt; leave_where_moved(&rt, first, second), Some(1));
}
