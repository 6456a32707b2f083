//! What no clause says of how a monitor is shown: that those who wait in other threads are seen where
//! they stand.

ghost use Rattle.std.specs.Prelude.{◌<◌};
ghost use Rattle.std.specs.Thread.{IsSync};

use crate::locks::{Lock, MANY_TRIES, ReadHeld, new_monitor, row_at_end, set, two_locks};
use crate::note::{new_env, two_watchers};
use crate::variables::{Comer, come_and_wait, lock_at};
use ns_fixtures::AtLeast;
use ns_model::event::{Answer, Mode};
use ns_monitor::showing::DebugState;
use ns_queue::waiter::Shown;
use ns_word::word::Word;
use std::alloc::Global;
use std::process::Abort;
use std::sync::Wait;
use std::thread::{Threads, join, yield_now};

/// Who may be shown: the second seat, which writes; the first, which reads for a condition; and the first, which
/// writes.
const WRITER: Shown = Shown {
    seat: 1,
    mode: Mode::Write,
    conditional: false,
};

const READER: Shown = Shown {
    seat: 0,
    mode: Mode::Read,
    conditional: true,
};

const WAITER: Shown = Shown {
    seat: 0,
    mode: Mode::Write,
    conditional: false,
};

/// The word that is shown, where just these stand in the lock list, just these wait for the variable of this
/// number, and nobody for another.
fn word_with(state: &DebugState, lock: &[Shown], k: u8, variable: &[Shown]) -> Option<Word> {
    for (number, list) in state.cvs.iter().enumerate() {
        let just: &[Shown] = if number == k as usize { variable } else { &[] };
        if list.as_slice() != just {
            return None;
        }
    }
    if state.lock.as_slice() == lock {
        Some(state.word)
    } else {
        None
    }
}

/// Asks from a read section how the monitor stands, until somebody stands in the lock list.
fn look_for_waiter<R: Abort + Wait>(rt: &R, held: &mut ReadHeld<'_>) -> DebugState {
    for _ in 0..MANY_TRIES {
        let state = held.debug_state_and_waiters(rt);
        if !state.lock.is_empty() {
            return state;
        }
        yield_now();
    }
    panic!(rt; "nobody waits for the lock")
}

/// Looks from its read section for the writer who waits for the lock, and leaves. Answers the word that is shown
/// with that one alone.
fn look_and_leave<'m, R: Abort + Wait>(rt: &R, mut held: ReadHeld<'m>) -> (Lock<'m>, Option<Word>) {
    let state = look_for_waiter(rt, &mut held);
    (held.runlock(rt), word_with(&state, &[WRITER], 0, &[]))
}

/// One thread looks from a read section, and the other locks to write.
fn look_and_lock<'m, R: Abort + Threads + Wait + Sync>(
    rt: &R,
    first: Lock<'m>,
    second: Lock<'m>,
) -> (Lock<'m>, Option<Word>) {
    let held = first.rlock(rt);
    let (came, _) = join(
        rt,
        move || -> (Lock<'_>, Option<Word>)
            requires { IsSync R.row }
        { look_and_leave(rt, held) },
        move || -> Lock<'_>
            requires { IsSync R.row }
        { set(rt, second, 1) },
    );
    came
}

/// What a reader sees of the writer who waits for it to leave: the word, and the row in the end.
fn writer_shown<R: Abort + Threads + Wait + Sync>(
    rt: &R,
    alloc: Global,
) -> (Option<Word>, Option<[u64; 2]>) {
    let (monitor, seats) = new_monitor(rt, alloc, 2);
    let (first, second) = two_locks(rt, &monitor, seats);
    let (lock, shown) = look_and_lock(rt, first, second);
    (shown, row_at_end(lock))
}

/// Looks for one who waits in the lock list, looks at it once more with no section in hand, and then sets
/// the first cell to 1. Answers the word that is shown with the reader alone.
fn look_and_set<R: Abort + Wait>(rt: &R, lock: Lock<'_>) -> Option<Word> {
    let mut held = lock.rlock(rt);
    look_for_waiter(rt, &mut held);
    let mut lock = held.runlock(rt);
    let state = lock.debug_state_and_waiters(rt);
    set(rt, lock, 1);
    word_with(&state, &[READER], 0, &[])
}

/// Waits for a condition in the read section in hand. Answers what the first cell is then.
fn read_for_one<'m, R: Wait>(rt: &R, held: ReadHeld<'m>) -> (Lock<'m>, u64) {
    let mut held = held.wait(rt, AtLeast { least: 1 });
    let value = held.get(0);
    (held.runlock(rt), value)
}

/// One thread waits for a condition in a read section, and the other looks, and makes it true.
fn wait_and_look<'m, R: Abort + Threads + Wait + Sync>(
    rt: &R,
    first: Lock<'m>,
    second: Lock<'m>,
) -> (Lock<'m>, u64, Option<Word>) {
    let held = first.rlock(rt);
    let ((lock, value), shown) = join(
        rt,
        move || -> (Lock<'_>, u64)
            requires { IsSync R.row }
        { read_for_one(rt, held) },
        move || -> Option<Word>
            requires { IsSync R.row }
        { look_and_set(rt, second) },
    );
    (lock, value, shown)
}

/// Whether the word of a free lock says that somebody waits for a condition, and no writer for the lock.
fn tells_of_condition(word: Word) -> bool {
    let free = !word.write && word.readers == 0;
    free && word.waiting && word.cond && !word.writer_waits
}

/// What is seen of a reader who waits for a condition: whether the word tells of it, the first cell once it is
/// back, and the row in the end.
fn conditional_reader_shown<R: Abort + Threads + Wait + Sync>(
    rt: &R,
    alloc: Global,
) -> (Option<bool>, u64, Option<[u64; 2]>) {
    let (monitor, seats) = new_monitor(rt, alloc, 2);
    let (first, second) = two_locks(rt, &monitor, seats);
    let (lock, value, shown) = wait_and_look(rt, first, second);
    (shown.map(tells_of_condition), value, row_at_end(lock))
}

/// A writer who waits for a reader to leave is shown to that reader; and on a new monitor a reader who waits for
/// a condition is shown as such, and is back once the condition is true.
#[test]
fn debug(rt: HostRuntime) {
    let mut word = Word::FREE;
    word.waiting = true;
    word.writer_waits = true;
    word.readers = 1;
    let writer = writer_shown(&rt, rt.alloc());
    let reader = conditional_reader_shown(&rt, rt.alloc());
    assert_eq!(rt;
        (writer, reader),
        ((Some(word), Some([1, 0])), (Some(true), 1, Some([1, 0])))
    );
}

/// Looks from one write section while somebody waits for the variable, and behind a signal of it. Then looks
/// for the waiter to be back. Answers both words that are shown with that waiter alone, where it stands.
fn look_and_signal<'m, R: Abort + Wait>(
    rt: &R,
    lock: Lock<'m>,
    k: u8,
) -> (Lock<'m>, Option<Word>, Option<Word>)
    requires { k < 4 }
{
    let mut held = lock_at(rt, lock, 0, 1);
    let before = held.debug_state_and_waiters(rt);
    held.signal(rt, k);
    let behind = held.debug_state_and_waiters(rt);
    let lock = held.unlock(rt);
    let lock = lock_at(rt, lock, 1, 1).unlock(rt);
    let before = word_with(&before, &[], k, &[WAITER]);
    (lock, before, word_with(&behind, &[WAITER], k, &[]))
}

/// One thread waits for the variable, and the other looks and signals.
fn wait_and_be_shown<'m, R: Abort + Threads + Wait + Sync>(
    rt: &R,
    comer: Comer<'_>,
    waker: Lock<'m>,
    k: u8,
) -> (Lock<'m>, Answer, [Option<Word>; 2])
    requires { k < 4 }
{
    let (answer, (lock, before, behind)) = join(
        rt,
        move || -> Answer
            requires { IsSync R.row × (k < 4) }
        { come_and_wait(rt, comer, k) },
        move || -> (Lock<'_>, Option<Word>, Option<Word>)
            requires { IsSync R.row × (k < 4) }
        { look_and_signal(rt, waker, k) },
    );
    (lock, answer, [before, behind])
}

/// A waiter is shown at its variable, whichever that is, and behind a signal under the lock in the lock list.
#[test]
fn moved_waiter_is_shown(rt: HostRuntime) {
    let mut held = Word::FREE;
    held.write = true;
    let mut waited_for = held;
    waited_for.waiting = true;
    waited_for.writer_waits = true;
    let wanted = [Some(held), Some(waited_for)];
    for k in 0..4 {
        let (monitor, seats) = new_monitor(&rt, rt.alloc(), 2);
        let (lock, waker) = two_locks(&rt, &monitor, seats);
        let (env, env_seats) = new_env(&rt, rt.alloc(), 2);
        let (watcher, _) = two_watchers(&rt, &env, env_seats);
        let comer = Comer {
            lock,
            watcher,
            deadline: None,
        };
        let (lock, answer, shown) = wait_and_be_shown(&rt, comer, waker, k);
        let came = (answer, shown, row_at_end(lock));
        assert_eq!(rt; came, (Answer::Met, wanted, Some([1, 1])));
    }
}
