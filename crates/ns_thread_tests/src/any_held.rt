//! What no clause says of waits for condition variables among notes and counters: that they come back,
//! by whichever of them it is.

ghost use Rattle.std.specs.Prelude.{◌≡◌};
ghost use Rattle.std.specs.Thread.{IsSync};

use crate::locks::MANY_TRIES;
use crate::note::{new_env, notify, two_watchers};
use ns_fixtures::Never;
use ns_monitor::{Handle, Monitor, Writing};
use ns_note::note::Note;
use ns_note::watcher::Watcher;
use ns_objects::any::AnyItem;
use ns_objects::objects::Objects;
use ns_objects::sharer::Sharer;
use std::alloc::Global;
use std::process::Abort;
use std::sync::Wait;
use std::thread::{Threads, join, yield_now};

/// What ends a wait.
#[derive(Clone, Copy)]
enum Ender {
    Signal,
    Counter,
    Note,
    Clock,
}

/// What a thread has to call with.
#[derive(Drop)]
struct Kit<'a> {
    /// A handle of a monitor of one cell.
    handle: Handle<'a, Never, 1>,
    /// A sharer of objects.
    sharer: Sharer<'a>,
    /// A watcher of an environment.
    watch: Watcher<'a>,
}

/// Waits in the section in hand for variables 0 and 1, of which the second stands there twice, the note, where the
/// watcher knows it, and the counter, up to tick 5. Then tells in the cell that it is over.
fn wait_and_tell<R: Wait>(
    rt: &R,
    held: Writing<'_, Never, 1>,
    sharer: &mut Sharer<'_>,
    watch: &mut Watcher<'_>,
    note: Note,
) -> Option<usize>
    requires { sharer.old.setup.counters ≡ 1 }
{
    if !watch.knows(note) {
        return None;
    }
    let items = [
        AnyItem::Cv(0),
        AnyItem::Cv(1),
        AnyItem::Note(note),
        AnyItem::Counter(0),
        AnyItem::Cv(1),
    ];
    let (mut held, place) = sharer.wait_any_held(rt, held, &items, Some(5), watch);
    held.set(0, 1);
    held.unlock(rt);
    Some(place)
}

/// Comes inside, behind a wait that has left its section; whether that has told that it is over.
fn is_told<'a, R: Wait>(rt: &R, handle: Handle<'a, Never, 1>) -> (Handle<'a, Never, 1>, bool) {
    let mut held = handle.lock(rt);
    let told = held.get(0) == 1;
    (held.unlock(rt), told)
}

/// Signals variable 1 until the wait tells that it is over, or often enough.
fn signal_until_told<R: Wait>(rt: &R, mut handle: Handle<'_, Never, 1>) {
    for _ in 0..MANY_TRIES {
        handle.signal(rt, 1);
        let (back, told) = is_told(rt, handle);
        if told {
            return;
        }
        handle = back;
        yield_now();
    }
}

/// Comes inside, and then does what ends the wait: behind its signals the note is notified too, which ends a wait
/// that no signal has. Whether that had told before that it is over.
fn end_behind<R: Wait>(rt: &R, kit: Kit<'_>, note: Note, ender: Ender) -> bool
    requires { kit.sharer.setup.counters ≡ 1 }
{
    let Kit {
        handle,
        mut sharer,
        mut watch,
    } = kit;
    let (handle, told) = is_told(rt, handle);
    match ender {
        Ender::Signal => {
            signal_until_told(rt, handle);
            let _ = notify(&mut watch, note);
        }
        Ender::Counter => {
            let _ = sharer.counter_add(rt, 0, -1);
        }
        Ender::Note => {
            let _ = notify(&mut watch, note);
        }
        Ender::Clock => watch.advance(5),
    }
    told
}

/// One thread waits in the section in hand, and the other comes inside and ends that. The place that the first
/// was answered, and whether the second found it told.
fn wait_and_end<R: Threads + Wait + Sync>(
    rt: &R,
    first: Kit<'_>,
    second: Kit<'_>,
    note: Note,
    ender: Ender,
) -> (Option<usize>, bool)
    requires { (first.sharer.setup.counters ≡ 1) × (second.sharer.setup.counters ≡ 1) }
{
    let Kit {
        handle,
        mut sharer,
        mut watch,
    } = first;
    let held = handle.lock(rt);
    join(
        rt,
        move || -> Option<usize>
            requires { IsSync R.row × (sharer.setup.counters ≡ 1) }
        { wait_and_tell(rt, held, &mut sharer, &mut watch, note) },
        move || -> bool
            requires { IsSync R.row × (second.sharer.setup.counters ≡ 1) }
        { end_behind(rt, second, note, ender) },
    )
}

/// Two threads as above, on a monitor, objects and an environment of their own.
fn ended_by<R: Abort + Threads + Wait + Sync>(
    rt: &R,
    alloc: Global,
    ender: Ender,
) -> (Option<usize>, bool) {
    let (monitor, seats) = Monitor::new(alloc, 2).ok().expect(rt, "a monitor");
    let (objects, places) = Objects::new(alloc, &[1], 0, 2).ok().expect(rt, "objects");
    let (env, watches) = new_env(rt, alloc, 2);
    let (mine, theirs) = monitor.handles(seats).pair().expect(rt, "two seats");
    let (my_sharer, their_sharer) = objects.sharers(places).pair().expect(rt, "two seats");
    let (mut my_watch, their_watch) = two_watchers(rt, &env, watches);
    let note = my_watch.note_new(None, None).ok().expect(rt, "a note");
    let first = Kit {
        handle: mine,
        sharer: my_sharer,
        watch: my_watch,
    };
    let second = Kit {
        handle: theirs,
        sharer: their_sharer,
        watch: their_watch,
    };
    wait_and_end(rt, first, second, note, ender)
}

/// A signal, a note, a counter and the deadline end it: the answer is the first place of the variable, that of the
/// other, and at the deadline the number of items. Who comes inside meanwhile finds that it has left its section,
/// and waits.
#[test]
fn each_of_them_ends_it(rt: HostRuntime) {
    let table = [
        (Ender::Signal, 1),
        (Ender::Note, 2),
        (Ender::Counter, 3),
        (Ender::Clock, 5),
    ];
    for (ender, place) in table {
        assert_eq!(rt; ended_by(&rt, rt.alloc(), ender), (Some(place), false));
    }
}
