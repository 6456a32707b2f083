//! What the threads share, and how each waits there.

ghost use Rattle.std.specs.Prelude.{◌≡◌, true};
ghost use Rattle.ns_model.specs.Environments.{IsMade};
ghost use Rattle.ns_fixtures.specs.Wishes.{IsMetIn};

use ns_fixtures::{RingHeld, Wish};
use ns_model::event::Answer;
use ns_note::note::Note;
use ns_note::watcher::Watcher;
use std::sync::Wait;
use std::thread::yield_now;

/// What the threads share.
#[derive(Clone, Copy)]
pub struct Commons {
    /// By this note all waits end.
    pub note: Note,
    /// The last of the numbers, from 1 on, that go through the ring.
    pub items: u64,
}

/// Goes round until the watcher has seen that the note is made, so that it may use it.
pub fn get_to_know<R: Wait>(rt: &R, commons: Commons, watcher: &mut Watcher<'_>)
    ensures { IsMade watcher.new.seen commons.note.index }
{
    for _ in rt.forever() {
        if watcher.knows(commons.note) {
            return;
        }
        yield_now();
    }
    unreachable!()
}

/// Waits in the section in hand until the wish is met, and answers whether it is: else the note is
/// notified.
#[tactic(auto, using(ns_note::proofs::Rests::made_grows))]
pub fn wait_for<'m, R: Wait>(
    rt: &R,
    commons: Commons,
    held: RingHeld<'m>,
    wish: Wish,
    watcher: &mut Watcher<'_>,
) -> (RingHeld<'m>, bool)
    requires { IsMade watcher.old.seen commons.note.index }
    ensures made { IsMade watcher.new.seen commons.note.index }
    ensures met { result.1 ≡ true → IsMetIn wish result.0.held }
{
    let (held, answer) = held.wait_with_deadline(rt, wish, None, Some(commons.note), watcher);
    (held, answer == Answer::Met)
}
