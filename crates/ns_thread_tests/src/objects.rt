//! What no clause says of counters and once cells: that as many are made as there may be, and that changes of a
//! counter, and waits that end at once, are answered as they must be.

ghost use Rattle.std.specs.Prelude.{◌≡◌, ◌<◌, ◌≤◌, All, length};
ghost use Rattle.ns_counters.specs.Made.{setup_of};

use ns_model::counter::CounterFault;
use ns_note::env::Env;
use ns_note::note::Note;
use ns_note::watcher::Watcher;
use ns_objects::any::Item;
use ns_objects::objects::Objects;
use ns_objects::seat::ObjSeat;
use ns_objects::sharer::Sharer;
use ns_seats::fault::Fault;
use std::alloc::Global;
use std::process::Abort;
use std::sync::Wait;

/// Counters with these values, so many once cells, and so many seats.
pub fn new_objects<R: Abort>(
    rt: &R,
    alloc: Global,
    counters: &[u32],
    onces: usize,
    seats: usize,
) -> (Objects, Vec<ObjSeat>)
    requires counters { length counters.now ≤ 16 }
    requires onces { onces ≤ 16 }
    requires seats { 0 < seats }
    ensures { All (λ seat. (seat.objects ≡ result.0) × (seat.setup ≡ setup_of seats counters.now onces)) result.1.items }
{
    Objects::new(alloc, counters, onces, seats)
        .ok()
        .expect(rt, "objects")
}

/// What the changes of a counter came to, and what was read of the counters beside them.
type Answers = ([Result<u32, CounterFault>; 5], [u32; 3]);

/// Changes of counter 0 and their refusals, each of which leaves the value; then a wait for it, behind which
/// it doesn't rise any more, and one for counter 1 that ends by its deadline.
fn change_and_wait<R: Wait>(rt: &R, sharer: &mut Sharer<'_>, watch: &mut Watcher<'_>) -> Answers
    requires { sharer.old.setup.counters ≡ 2 }
    ensures { sharer.new.setup ≡ sharer.old.setup }
{
    let added = sharer.counter_add(rt, 0, 2);
    let under = sharer.counter_add(rt, 0, -3);
    let value = sharer.counter_value(0);
    let over = sharer.counter_add(rt, 0, 4_294_967_295);
    let zero = sharer.counter_add(rt, 0, -2);
    let waited = sharer.counter_wait(rt, 0, None, watch);
    let after = sharer.counter_add(rt, 0, 1);
    let other = sharer.counter_wait(rt, 1, Some(0), watch);
    ([added, under, over, zero, after], [value, waited, other])
}

/// What a wait for counter 1 or the note answers, where the watcher knows the note.
fn wait<R: Wait>(
    rt: &R,
    sharer: &mut Sharer<'_>,
    note: Note,
    deadline: Option<u64>,
    watch: &mut Watcher<'_>,
) -> Option<usize>
    requires { sharer.old.setup.counters ≡ 2 }
    ensures { sharer.new.setup ≡ sharer.old.setup }
{
    if !watch.knows(note) {
        return None;
    }
    let items = [Item::Counter(1), Item::Note(note)];
    Some(sharer.wait_any(rt, &items, deadline, watch))
}

/// Two new notes, of which the first is notified.
fn two_notes(watch: &mut Watcher<'_>) -> Option<[Note; 2]> {
    let ready = watch.note_new(None, None).ok()?;
    watch.notify(ready);
    let other = watch.note_new(None, None).ok()?;
    Some([ready, other])
}

/// All this, and then two waits for counter 1 or a note: one that is notified, and one that isn't, with a deadline
/// that has come.
fn work<R: Wait>(rt: &R, alloc: Global) -> Option<(Answers, [Option<usize>; 2])> {
    let (objects, seats) = Objects::new(alloc, &[0, 3], 0, 1).ok()?;
    let (env, watches) = Env::new(alloc, 1).ok()?;
    let mut sharer = objects.sharers(seats).next()?;
    let mut watch = env.watchers(watches).next()?;
    let [ready, other] = two_notes(&mut watch)?;
    let came = change_and_wait(rt, &mut sharer, &mut watch);
    let first = wait(rt, &mut sharer, ready, None, &mut watch);
    let none = wait(rt, &mut sharer, other, Some(0), &mut watch);
    Some((came, [first, none]))
}

/// Each change and each wait is answered as it must be.
#[test]
fn objects_15(rt: HostRuntime) {
    let changes = [
        Ok(2),
        Err(CounterFault::Under),
        Err(CounterFault::Over),
        Ok(0),
        Err(CounterFault::AfterWait),
    ];
    let came = work(&rt, rt.alloc());
    assert_eq!(rt; came, Some(((changes, [2, 0, 3]), [Some(1), Some(2)])));
}

/// How many seats are made of so many, with 16 counters and 16 cells, or why none is.
fn seats_of(alloc: Global, seats: usize) -> Result<usize, Fault>
    requires { 0 < seats }
{
    let (_objects, made) = Objects::new(alloc, &[7; 16], 16, seats)?;
    Ok(made.len())
}

/// 16 counters, 16 cells and 64 seats are made, and 65 seats are refused.
#[test]
fn as_many_as_there_may_be(rt: HostRuntime) {
    let made = [seats_of(rt.alloc(), 64), seats_of(rt.alloc(), 65)];
    assert_eq!(rt; made, [Ok(64), Err(Fault::TooManySeats)]);
}

/// With each allocation refused in turn no objects are made, for that reason.
#[test]
fn refused_memory(rt: HostRuntime) {
    let made = seats_of(rt.alloc(), 3);
    assert!(rt; matches!(made, Ok(3) | Err(Fault::OutOfMemory)));
}
