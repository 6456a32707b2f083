//! What no clause says: worked trees of notes, that calls can succeed, and that threads see one
//! another's steps.

ghost use Rattle.std.specs.Prelude.{◌≡◌, ◌<◌, All, IfSome};
ghost use Rattle.std.specs.Thread.{IsSync};
ghost use Rattle.ns_model.specs.Environments.{IsMade};

use ns_env::note::NoteWord;
use ns_model::event::Answer;
use ns_note::env::Env;
use ns_note::note::{Note, encode_note};
use ns_note::seat::EnvSeat;
use ns_note::watcher::Watcher;
use ns_seats::fault::Fault;
use std::alloc::Global;
use std::process::Abort;
use std::sync::Wait;
use std::test::Fail;
use std::thread::{Threads, join};
use std::time::Duration;

/// An environment and so many seats.
pub fn new_env<R: Abort>(rt: &R, alloc: Global, seats: usize) -> (Env, Vec<EnvSeat>)
    requires { 0 < seats }
    ensures { All (λ seat. seat.env ≡ result.0) result.1.items }
{
    Env::new(alloc, seats).ok().expect(rt, "an environment")
}

/// The watcher of the only thread.
pub fn one_watcher<'e, R: Abort>(rt: &R, env: &'e Env, seats: Vec<EnvSeat>) -> Watcher<'e>
    requires { All (λ seat. seat.env ≡ env.now) seats.items }
{
    env.watchers(seats).next().expect(rt, "a seat")
}

/// The watchers of two threads.
pub fn two_watchers<'e, R: Abort>(
    rt: &R,
    env: &'e Env,
    seats: Vec<EnvSeat>,
) -> (Watcher<'e>, Watcher<'e>)
    requires { All (λ seat. seat.env ≡ env.now) seats.items }
    ensures { result.0.env ≡ result.1.env }
{
    let mut seats = seats;
    let second = seats.pop().expect(rt, "a seat");
    let first = seats.pop().expect(rt, "a seat");
    (Watcher::new(env, first), Watcher::new(env, second))
}

/// A new note, where the watcher knows its parent and there is a number left.
fn make(watcher: &mut Watcher<'_>, parent: Option<Note>) -> Option<Note> {
    if let Some(parent) = parent {
        if !watcher.knows(parent) {
            return None;
        }
    }
    watcher.note_new(parent, None).ok()
}

/// Whether the note is notified, where the watcher knows it.
pub fn is_notified(watcher: &mut Watcher<'_>, note: Note) -> Option<bool> {
    if watcher.knows(note) {
        Some(watcher.is_notified(note))
    } else {
        None
    }
}

/// A look, where the watcher knows the note.
fn look(watcher: &mut Watcher<'_>, note: Note) -> Option<Option<Answer>> {
    if watcher.knows(note) {
        Some(watcher.look(Some(note), None))
    } else {
        None
    }
}

/// Notifies the note, where the watcher knows it, and answers whether it does.
pub fn notify(watcher: &mut Watcher<'_>, note: Note) -> bool {
    let known = watcher.knows(note);
    if known {
        watcher.notify(note);
    }
    known
}

/// Waits for the note, where the watcher knows it.
fn wait<R: Wait>(
    rt: &R,
    watcher: &mut Watcher<'_>,
    note: Note,
    deadline: Option<u64>,
) -> Option<bool> {
    if watcher.knows(note) {
        Some(watcher.note_wait(rt, note, deadline))
    } else {
        None
    }
}

/// A root and its grandchild, which the watcher has made with one between them.
pub fn lineage(watcher: &mut Watcher<'_>) -> Option<(Note, Note)> {
    let root = make(watcher, None)?;
    let child = make(watcher, Some(root))?;
    let grandchild = make(watcher, Some(child))?;
    Some((root, grandchild))
}

/// What a watcher is told of a note: whether it is notified, and what a look shows.
fn told(watcher: &mut Watcher<'_>, note: Note) -> (Option<bool>, Option<Option<Answer>>) {
    let notified = is_notified(watcher, note);
    (notified, look(watcher, note))
}

/// What a watcher is told of a grandchild before its root is notified, and behind that.
fn notify_root(watcher: &mut Watcher<'_>) -> Option<[(Option<bool>, Option<Option<Answer>>); 2]> {
    let (root, grandchild) = lineage(watcher)?;
    let before = told(watcher, grandchild);
    notify(watcher, root);
    Some([before, told(watcher, grandchild)])
}

/// A note, its child and its grandchild: who is below a notified note is notified.
#[test]
fn note_tree(rt: HostRuntime) {
    let (env, seats) = new_env(&rt, rt.alloc(), 1);
    let mut watcher = one_watcher(&rt, &env, seats);
    let came = notify_root(&mut watcher);
    let before = (Some(false), Some(None));
    let behind = (Some(true), Some(Some(Answer::Canceled)));
    assert_eq!(rt; came, Some([before, behind]));
}

/// A note with a deadline, where the watcher knows its parent and then the note.
fn make_timed(watcher: &mut Watcher<'_>, parent: Option<Note>, deadline: u64) -> Option<Note>
    requires parent { IfSome parent (λ p. IsMade watcher.old.seen p.index) }
    requires deadline { deadline < 100 }
    ensures made { IfSome result (λ n. IsMade watcher.new.seen n.index) }
{
    let note = watcher.note_new(parent, Some(deadline)).ok()?;
    if watcher.knows(note) {
        Some(note)
    } else {
        None
    }
}

/// Makes a note with the deadline 5 below one with 3. When the first expires; whether it is notified at 2 and
/// at 3; and the clock, behind a call that would turn it back.
fn expire(watcher: &mut Watcher<'_>) -> Option<(Option<u64>, [Option<bool>; 2], u64)> {
    let root = make_timed(watcher, None, 3)?;
    let child = make_timed(watcher, Some(root), 5)?;
    let expiry = watcher.expiry(child);
    watcher.advance(2);
    let before = is_notified(watcher, child);
    watcher.advance(3);
    let behind = is_notified(watcher, child);
    watcher.advance(1);
    Some((expiry, [before, behind], watcher.now()))
}

/// A deadline of 5 below one of 3: both have come at 3, and not at 2. The clock doesn't go back.
#[test]
fn note_tree_by_deadline(rt: HostRuntime) {
    let (env, seats) = new_env(&rt, rt.alloc(), 1);
    let mut watcher = one_watcher(&rt, &env, seats);
    let came = expire(&mut watcher);
    assert_eq!(rt; came, Some((Some(3), [Some(false), Some(true)], 3)));
}

/// Makes 64 notes, and answers whether they came in order.
fn makes_all(watcher: &mut Watcher<'_>) -> bool {
    for i in 0..64u8 {
        match make(watcher, None) {
            Some(note) if note.index == i => {}
            _ => return false,
        }
    }
    true
}

/// Whether a note that the watcher knows expires at no tick.
fn is_endless(watcher: &mut Watcher<'_>, note: Note) -> bool {
    watcher.knows(note) && watcher.expiry(note).is_none()
}

/// Whether 64 notes are made and no more, the last of which is then notified, and no other.
fn fills(watcher: &mut Watcher<'_>) -> bool {
    let all = makes_all(watcher);
    let refused = make(watcher, None).is_none();
    let known = notify(watcher, Note { index: 63 });
    let last = is_notified(watcher, Note { index: 63 });
    let other = is_notified(watcher, Note { index: 62 });
    let endless = is_endless(watcher, Note { index: 62 });
    all && refused && known && last == Some(true) && other == Some(false) && endless
}

/// There are 64 notes and no more, and the last of them answers still.
#[test]
fn notes_full(rt: HostRuntime) {
    let (env, seats) = new_env(&rt, rt.alloc(), 1);
    let mut watcher = one_watcher(&rt, &env, seats);
    assert!(rt; fills(&mut watcher));
}

/// How many seats are made of so many, or why none is.
fn seats_of(alloc: Global, seats: usize) -> Result<usize, Fault>
    requires { 0 < seats }
{
    let (_env, made) = Env::new(alloc, seats)?;
    Ok(made.len())
}

/// 64 seats are made, and 65 are refused.
#[test]
fn seats_of_an_environment(rt: HostRuntime) {
    let made = [seats_of(rt.alloc(), 64), seats_of(rt.alloc(), 65)];
    assert_eq!(rt; made, [Ok(64), Err(Fault::TooManySeats)]);
}

/// With each allocation refused in turn no environment is made, for that reason.
#[test]
fn refused_memory(rt: HostRuntime) {
    let made = seats_of(rt.alloc(), 3);
    assert!(rt; matches!(made, Ok(3) | Err(Fault::OutOfMemory)));
}

/// The word of note 1 under note 0 with deadline 5, and of a notified note with neither.
#[test]
fn words(rt: HostRuntime) {
    let below = NoteWord {
        notified: false,
        made: true,
        parent: Some(0),
        deadline: Some(5),
    };
    let alone = NoteWord {
        notified: true,
        made: true,
        parent: None,
        deadline: None,
    };
    let words = [encode_note(below), encode_note(alone)];
    assert_eq!(rt; words, [9_223_372_036_854_778_374, 3]);
}

/// One thread moves the clock and notifies the root, while the other waits for the grandchild.
fn notify_and_wait<R: Threads + Wait + Sync>(
    rt: &R,
    mut first: Watcher<'_>,
    mut second: Watcher<'_>,
    root: Note,
    grandchild: Note,
) -> Option<bool> {
    let (_, answer) = join(
        rt,
        move || -> bool {
            first.advance(3);
            notify(&mut first, root)
        },
        move || -> Option<bool>
            requires { IsSync R.row }
        { wait(rt, &mut second, grandchild, None) },
    );
    answer
}

/// Makes a note, its child and its grandchild, of which one thread notifies the first while another waits for
/// the last. What the other was answered, and what the third watcher is told then: of the note, and the clock.
fn wait_below<R: Threads + Wait + Sync>(
    rt: &R,
    first: Watcher<'_>,
    second: Watcher<'_>,
    third: &mut Watcher<'_>,
) -> Option<(Option<bool>, Option<bool>, u64)> {
    let mut maker = first;
    let (root, grandchild) = lineage(&mut maker)?;
    let answer = notify_and_wait(rt, maker, second, root, grandchild);
    let told = is_notified(third, grandchild);
    Some((answer, told, third.now()))
}

/// After the join a third watcher, which has met nobody, sees all that was done.
#[test]
fn note_threads(rt: HostRuntime) {
    let (env, seats) = new_env(&rt, rt.alloc(), 3);
    let mut watchers = env.watchers(seats);
    let third = watchers.next().expect(&rt, "a seat");
    let mut third = Watcher::new(&env, third.into_seat()); // so that `into_seat` is run
    let (first, second) = watchers.pair().expect(&rt, "two seats");
    let came = wait_below(&rt, first, second, &mut third);
    assert_eq!(rt; came, Some((Some(true), Some(true), 3)));
}

/// Whether the note is notified before about so many milliseconds have passed.
fn is_notified_within<R: Wait>(rt: &R, watcher: &mut Watcher<'_>, note: Note, millis: u32) -> bool {
    for _ in 0..millis {
        if is_notified(watcher, note) == Some(true) {
            return true;
        }
        watcher.rest(rt, Duration::from_millis(1));
    }
    false
}

/// One thread waits for tick 10, and notifies the root once it has come back. The other moves the
/// clock to 9 and to 10, and answers whether the first came back at each of them. At 11 the wait
/// is over in any case.
fn wait_and_advance<R: Threads + Wait + Sync>(
    rt: &R,
    mut first: Watcher<'_>,
    mut second: Watcher<'_>,
    root: Note,
    other: Note,
) -> ((bool, bool), Option<bool>) {
    join(
        rt,
        move || -> (bool, bool)
            requires { IsSync R.row }
        {
            first.advance(9);
            let early = is_notified_within(rt, &mut first, root, 50);
            first.advance(10);
            let in_time = is_notified_within(rt, &mut first, root, 10_000);
            first.advance(11);
            (early, in_time)
        },
        move || -> Option<bool>
            requires { IsSync R.row }
        {
            let answer = wait(rt, &mut second, other, Some(10));
            let _ = notify(&mut second, root);
            answer
        },
    )
}

/// Two notes, neither below the other.
fn two_roots(watcher: &mut Watcher<'_>) -> Option<(Note, Note)> {
    let one = make(watcher, None)?;
    let other = make(watcher, None)?;
    Some((one, other))
}

/// What `wait_and_advance` comes to with two new notes: whether the wait was back at each tick, and its answer.
fn wait_for_one_of_two<R: Threads + Wait + Sync>(
    rt: &R,
    first: Watcher<'_>,
    second: Watcher<'_>,
) -> Option<(bool, bool, Option<bool>)>
    requires { first.env ≡ second.env }
{
    let (mut maker, second) = first.meet(second);
    let (root, other) = two_roots(&mut maker)?;
    let ((early, in_time), answer) = wait_and_advance(rt, maker, second, root, other);
    Some((early, in_time, answer))
}

/// A wait goes on at the tick before its deadline, and ends at the tick itself.
#[test]
fn waits_to_the_tick(rt: HostRuntime) {
    let (env, seats) = new_env(&rt, rt.alloc(), 2);
    let (first, second) = two_watchers(&rt, &env, seats);
    let came = wait_for_one_of_two(&rt, first, second);
    assert_eq!(rt; came, Some((false, true, Some(false))));
}

/// The example at the head of the crate.
#[test]
fn head_example(rt: HostRuntime) -> Result<(), Fail> {
    let (env, seats) = Env::new(rt.alloc(), 2)?; // a seat for each thread
    let mut watchers = env.watchers(seats);
    let (Some(mut theirs), Some(mut mine)) = (watchers.next(), watchers.next()) else {
        return Ok(());
    };

    // the one that may call it off:
    let stop = mine.note_new(None, Some(1_000))?; // notified at 1,000 ticks, or
    mine.notify(stop); // before, by this call

    // the other, which has been handed `stop`:
    if theirs.knows(stop) {
        let notified = theirs.note_wait(&rt, stop, None);
        assert!(rt; notified);
    }

    Ok(())
}
