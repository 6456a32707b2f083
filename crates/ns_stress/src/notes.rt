//! Two threads that hand a turn to and fro by notes: each notifies the note for which the other waits.
//!
//! A wait sleeps until it is rung, and a ring that it missed would come no more: such a wait has no
//! end, and neither has the run.

ghost use Rattle.std.specs.Thread.{IsSync};

use crate::round::Verdict;
use ns_note::env::Env;
use ns_note::note::Note;
use ns_note::watcher::Watcher;
use std::alloc::Global;
use std::sync::Wait;
use std::thread::{Threads, join};

/// How many notes an environment has.
const NOTES: u8 = 64;

/// Makes all notes that there may be. Answers whether each could be made.
fn make_all(watcher: &mut Watcher<'_>) -> bool {
    for _ in 0..NOTES {
        if watcher.note_new(None, None).is_err() {
            return false;
        }
    }
    true
}

/// Notifies the note, or waits for it. Answers whether it is notified then.
fn pass<R: Wait>(rt: &R, watcher: &mut Watcher<'_>, note: Note, is_mine: bool) -> bool {
    if !watcher.knows(note) {
        return false;
    }
    if is_mine {
        watcher.notify(note);
        return true;
    }
    watcher.note_wait(rt, note, None)
}

/// Goes over all notes in order: notifies every second, from this one on, and waits for each between.
/// Answers whether each was notified.
fn take_turns<R: Wait>(rt: &R, mut watcher: Watcher<'_>, first: u8) -> bool {
    for index in 0..NOTES {
        if !pass(rt, &mut watcher, Note { index }, index % 2 == first) {
            return false;
        }
    }
    true
}

/// Two threads hand a turn to and fro by all notes of a new environment.
pub fn run<R: Threads + Wait + Sync>(rt: &R, alloc: Global) -> Verdict {
    let Ok((env, seats)) = Env::new(alloc, 2) else {
        return Verdict::NoMemory;
    };
    let mut watchers = env.watchers(seats);
    let Some((mut one, two)) = watchers.next().zip(watchers.next()) else {
        return Verdict::NoMemory;
    };
    if !make_all(&mut one) {
        return Verdict::Wrong("a note could not be made");
    }
    let (first, second) = join(
        rt,
        move || -> bool
            requires { IsSync R.row }
        { take_turns(rt, one, 0) },
        move || -> bool
            requires { IsSync R.row }
        { take_turns(rt, two, 1) },
    );
    if first && second {
        Verdict::Right
    } else {
        Verdict::Wrong("a note that was waited for is not notified")
    }
}
