//! What the tests of monitors share: a lock round two cells, and short calls on it.

ghost use Rattle.std.specs.Prelude.{◌≡◌, ◌<◌, All};

use ns_fixtures::AtLeast;
use ns_monitor::{Condition, Handle, Monitor, Reading, Seat, Writing};
use std::alloc::Global;
use std::process::Abort;
use std::sync::Wait;

/// A thread's own lock.
pub type Lock<'m> = Handle<'m, AtLeast, 2>;

/// The same with a section in hand that writes.
pub type Held<'m> = Writing<'m, AtLeast, 2>;

/// The same with a section in hand that reads.
pub type ReadHeld<'m> = Reading<'m, AtLeast, 2>;

/// How often a thread tries that has to succeed.
pub const MANY_TRIES: u32 = 1_000_000;

/// The tick at which a wait gives up.
pub const TICK: u64 = 10;

/// A monitor and so many seats.
pub fn new_monitor<C: Condition<2>, R: Abort>(
    rt: &R,
    alloc: Global,
    seats: usize,
) -> (Monitor<C, 2>, Vec<Seat<C, 2>>)
    requires { 0 < seats }
    ensures { All (λ seat. seat.monitor ≡ result.0) result.1.items }
{
    Monitor::new(alloc, seats).ok().expect(rt, "a monitor")
}

/// The handles of two threads.
pub fn two_locks<'m, R: Abort>(
    rt: &R,
    monitor: &'m Monitor<AtLeast, 2>,
    seats: Vec<Seat<AtLeast, 2>>,
) -> (Lock<'m>, Lock<'m>)
    requires { All (λ seat. seat.monitor ≡ monitor.now) seats.items }
    ensures { result.0.monitor ≡ result.1.monitor }
{
    let mut seats = seats;
    let second = seats.pop().expect(rt, "a seat");
    let first = seats.pop().expect(rt, "a seat");
    (Handle::new(monitor, first), Handle::new(monitor, second))
}

/// The cells, where the lock is free.
pub fn row_at_end<C: Condition<2>>(lock: Handle<'_, C, 2>) -> Option<[u64; 2]> {
    let mut held = lock.try_lock().ok()?;
    Some([held.get(0), held.get(1)])
}

/// Adds 1 to a cell of the section in hand.
pub fn count(held: &mut Held<'_>, cell: usize)
    requires { cell < 2 }
{
    let value = held.get(cell);
    held.set(cell, value.wrapping_add(1));
}

/// Sets the first cell in a section of its own.
pub fn set<'m, R: Wait>(rt: &R, lock: Lock<'m>, value: u64) -> Lock<'m> {
    let mut held = lock.lock(rt);
    held.set(0, value);
    held.unlock(rt)
}
