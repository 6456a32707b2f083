//! What no clause says of functions that run once: that a cell is done only behind its function's end, and that
//! who comes meanwhile sleeps until then.

ghost use Rattle.std.specs.Prelude.{◌<◌};
ghost use Rattle.std.specs.Thread.{IsSync};

use ns_objects::objects::Objects;
use ns_objects::running::Once;
use ns_objects::sharer::Sharer;
use std::sync::Wait;
use std::thread::{Threads, join, sleep};
use std::time::{Clock, Duration};

/// Gives the other thread the time to fall asleep.
pub fn linger<R: Clock>(rt: &R) {
    sleep(rt, Duration::from_millis(5));
}

/// Whether the cell was done while its function ran, which looks through another seat; and what comes of a later
/// call.
fn look_inside<R: Wait>(
    rt: &R,
    mut first: Sharer<'_>,
    mut second: Sharer<'_>,
) -> (Once<bool>, Once<bool>)
    requires { (0 < first.setup.cells) × (0 < second.setup.cells) }
{
    let came = first.run_once(rt, 0, move || second.once_done(0));
    (came, first.run_once(rt, 0, || true))
}

/// A cell isn't done before its function has ended, and then no other runs.
#[test]
fn done_behind_the_function(rt: HostRuntime) {
    let (objects, seats) = Objects::new(rt.alloc(), &[], 1, 2)
        .ok()
        .expect(&rt, "objects");
    let (first, second) = objects.sharers(seats).pair().expect(&rt, "two seats");
    let (first, second) = first.meet(second);
    let came = look_inside(&rt, first, second);
    assert_eq!(rt; came, (Once::Ran(false), Once::Already));
}

/// Has a function run that takes a while, and gives this.
fn run_slowly<R: Wait + Clock>(rt: &R, sharer: &mut Sharer<'_>, given: u8) -> Once<u8>
    requires { 0 < sharer.old.setup.cells }
{
    sharer.run_once(rt, 0, move || {
        linger(rt);
        given
    })
}

/// Two threads would each have their function run, which takes a while; what came of both.
fn run_two<R: Threads + Wait + Clock + Sync>(
    rt: &R,
    mut first: Sharer<'_>,
    mut second: Sharer<'_>,
) -> (Once<u8>, Once<u8>)
    requires { (0 < first.setup.cells) × (0 < second.setup.cells) }
{
    join(
        rt,
        move || -> Once<u8>
            requires { IsSync R.row × (0 < first.setup.cells) }
        { run_slowly(rt, &mut first, 1) },
        move || -> Once<u8>
            requires { IsSync R.row × (0 < second.setup.cells) }
        { run_slowly(rt, &mut second, 2) },
    )
}

/// Of two threads that call, just one has its function run, and the other sleeps until it has.
#[test]
fn once_two(rt: HostRuntime) {
    let (objects, seats) = Objects::new(rt.alloc(), &[], 1, 2)
        .ok()
        .expect(&rt, "objects");
    let (first, second) = objects.sharers(seats).pair().expect(&rt, "two seats");
    let first = Sharer::new(&objects, first.into_seat()); // so that `into_seat` is run
    let came = run_two(&rt, first, second);
    let just_one = matches!(
        came,
        (Once::Ran(1), Once::Already) | (Once::Already, Once::Ran(2))
    );
    assert!(rt; just_one);
}
