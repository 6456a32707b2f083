//! Waits that end early: by a deadline, or by a note.

ghost use Rattle.std.specs.Prelude.{IfSome};
ghost use Rattle.std.specs.Thread.{IsSync};
ghost use Rattle.ns_model.specs.Environments.{IsMade};

use ns_fixtures::AtLeast;
use ns_model::event::Answer;
use ns_monitor::handles::Handles;
use ns_monitor::{Handle, Monitor};
use ns_note::env::Env;
use ns_note::note::{LAST_MOMENT, Note};
use ns_note::watcher::{Watcher, Watchers};
use std::alloc::Global;
use std::io;
use std::sync::Wait;
use std::sync::atomic::AtomicBool;
use std::sync::atomic::Ordering::SeqCst;
use std::thread::{Threads, join, sleep};
use std::time::{Clock, Duration, Instant};

/// Waits for what nobody sets, until the tick.
fn wait_until<R: Wait>(
    rt: &R,
    lock: Handle<AtLeast, 2>,
    tick: u64,
    mut watcher: Watcher<'_>,
) -> Answer {
    let wish = AtLeast { least: 1 };
    let (held, answer) = lock
        .lock(rt)
        .wait_with_deadline(rt, wish, Some(tick), None, &mut watcher);
    held.unlock(rt);
    answer
}

/// One waits for tick 10, and the other moves the clock there.
fn wait_and_advance<R: Threads + Wait + Sync>(
    rt: &R,
    lock: Handle<AtLeast, 2>,
    here: Watcher<'_>,
    mut there: Watcher<'_>,
) -> Answer {
    let (answer, ()) = join(
        rt,
        move || -> Answer
            requires { IsSync R.row }
        { wait_until(rt, lock, 10, here) },
        move || there.advance(10),
    );
    answer
}

/// A wait with a deadline: the clock counts ticks, and only callers move it.
fn deadline<R: Threads + Wait + Sync>(
    rt: &R,
    locks: &mut Handles<'_, AtLeast, 2>,
    watchers: &mut Watchers<'_>,
) -> Option<Answer> {
    let lock = locks.next()?;
    let (here, there) = watchers.pair()?;
    Some(wait_and_advance(rt, lock, here, there))
}

/// Moves the clock to the milliseconds that have passed, about each millisecond, until it is told to end.
fn run_clock<R: Wait + Clock>(
    rt: &R,
    watcher: &mut Watcher<'_>,
    is_over: &AtomicBool,
) -> io::Result<()> {
    let start = Instant::now(rt)?;
    for _ in rt.forever() {
        if is_over.load(SeqCst) {
            return Ok(());
        }
        sleep(rt, Duration::from_millis(1));
        let passed = u64::try_from(start.elapsed(rt)?.as_millis()).unwrap_or(LAST_MOMENT);
        watcher.advance(passed.min(LAST_MOMENT));
    }
    unreachable!()
}

/// One waits for 20 milliseconds, and the other moves the clock until that has come back.
fn wait_and_run<R: Threads + Wait + Sync + Clock>(
    rt: &R,
    lock: Handle<AtLeast, 2>,
    here: Watcher<'_>,
    mut there: Watcher<'_>,
) -> (Answer, io::Result<()>) {
    let is_over = AtomicBool::new(false);
    let ending = &is_over;
    join(
        rt,
        move || -> Answer
            requires { IsSync R.row }
        {
            let answer = wait_until(rt, lock, 20, here);
            ending.store(true, SeqCst);
            answer
        },
        move || -> io::Result<()>
            requires { IsSync R.row }
        {
            let ran = run_clock(rt, &mut there, ending);
            there.advance(LAST_MOMENT); // nobody waits for a clock that has stopped
            ran
        },
    )
}

/// Deadlines in milliseconds, by a thread that moves the clock by the system's.
fn milliseconds<R: Threads + Wait + Sync + Clock>(
    rt: &R,
    locks: &mut Handles<'_, AtLeast, 2>,
    watchers: &mut Watchers<'_>,
) -> Option<Answer> {
    let lock = locks.next()?;
    let (here, there) = watchers.pair()?;
    let (answer, clock) = wait_and_run(rt, lock, here, there);
    clock.ok()?;
    Some(answer)
}

/// Waits for what nobody sets, until the note is notified.
fn wait_for_note<R: Wait>(rt: &R, waiter: Waiter<'_, '_>) -> Option<Answer> {
    let Waiter {
        lock,
        mut watcher,
        note,
    } = waiter;
    if !watcher.knows(note) {
        return None; // a watcher uses a note that it has seen made
    }
    let wish = AtLeast { least: 1 };
    let (held, answer) = lock
        .lock(rt)
        .wait_with_deadline(rt, wish, None, Some(note), &mut watcher);
    held.unlock(rt);
    Some(answer)
}

/// A note, one below it, and one below that.
fn tree(watcher: &mut Watcher<'_>) -> Option<(Note, Note, Note)>
    ensures { IfSome result (λ notes. IsMade watcher.new.seen notes.0.index) }
{
    let root = watcher.note_new(None, None).ok()?;
    let branch = watcher.note_new(Some(root), None).ok()?;
    let leaf = watcher.note_new(Some(branch), None).ok()?;
    if !watcher.knows(root) {
        return None; // it does: it has made it
    }
    Some((root, branch, leaf))
}

/// A thread's own lock, its watcher, and the note that ends its wait.
#[derive(Drop)]
struct Waiter<'m, 'e> {
    lock: Handle<'m, AtLeast, 2>,
    watcher: Watcher<'e>,
    note: Note,
}

/// Two wait, each for its own note.
fn wait_for_both<R: Threads + Wait + Sync>(
    rt: &R,
    one: Waiter<'_, '_>,
    two: Waiter<'_, '_>,
) -> (Option<Answer>, Option<Answer>) {
    join(
        rt,
        move || -> Option<Answer>
            requires { IsSync R.row }
        { wait_for_note(rt, one) },
        move || -> Option<Answer>
            requires { IsSync R.row }
        { wait_for_note(rt, two) },
    )
}

/// Two wait, and the third notifies the note above theirs.
fn wait_and_cancel<R: Threads + Wait + Sync>(
    rt: &R,
    one: Waiter<'_, '_>,
    two: Waiter<'_, '_>,
    mut watcher: Watcher<'_>,
    root: Note,
) -> (Option<Answer>, Option<Answer>)
    requires { IsMade watcher.seen root.index }
{
    let (answers, ()) = join(
        rt,
        move || -> (Option<Answer>, Option<Answer>)
            requires { IsSync R.row }
        { wait_for_both(rt, one, two) },
        move ||
            requires { IsMade watcher.seen root.index }
        { watcher.notify(root) },
    );
    answers
}

/// A waiter with the next handle and the next watcher.
fn next_waiter<'m, 'e>(
    locks: &mut Handles<'m, AtLeast, 2>,
    watchers: &mut Watchers<'e>,
    note: Note,
) -> Option<Waiter<'m, 'e>> {
    let watcher = watchers.next()?;
    let lock = locks.next()?;
    Some(Waiter {
        lock,
        watcher,
        note,
    })
}

/// Cancelling a whole tree of waits by one note: who notifies a note notifies all that stand below it.
fn canceled_tree<R: Threads + Wait + Sync>(
    rt: &R,
    locks: &mut Handles<'_, AtLeast, 2>,
    watchers: &mut Watchers<'_>,
) -> Option<(Option<Answer>, Option<Answer>)> {
    let mut mine = watchers.next()?;
    let (root, branch, leaf) = tree(&mut mine)?;
    let one = next_waiter(locks, watchers, branch)?;
    let two = next_waiter(locks, watchers, leaf)?;
    Some(wait_and_cancel(rt, one, two, mine, root))
}

/// What the waits of these recipes answer.
#[derive(Clone, Copy)]
pub struct Early {
    /// That with a deadline.
    pub deadline: Answer,
    /// That with a deadline in milliseconds.
    pub milliseconds: Answer,
    /// Those that one note cancels.
    pub canceled: (Option<Answer>, Option<Answer>),
}

/// All three, in this order, with one lock, in which nobody sets anything, and one clock, which stands at 10 behind the
/// first and at its last moment behind the second.
pub fn early_ends<R: Threads + Wait + Sync + Clock>(rt: &R, alloc: Global) -> Option<Early> {
    let (monitor, seats) = Monitor::new(alloc, 4).ok()?;
    let (env, env_seats) = Env::new(alloc, 7).ok()?;
    let mut locks = monitor.handles(seats);
    let mut watchers = env.watchers(env_seats);
    let deadline = deadline(rt, &mut locks, &mut watchers)?;
    let milliseconds = milliseconds(rt, &mut locks, &mut watchers)?;
    let canceled = canceled_tree(rt, &mut locks, &mut watchers)?;
    Some(Early {
        deadline,
        milliseconds,
        canceled,
    })
}
