//! What a thread does that takes items out of the ring.

ghost use Rattle.ns_model.specs.Environments.{IsMade};

use crate::commons::{Commons, wait_for};
use ns_fixtures::{RingHandle, Wish, count_taken, take};
use ns_note::watcher::Watcher;
use std::sync::Wait;

/// Takes one item out of the ring once there is one, and nothing where the note is notified. With the
/// last item it notifies the note.
#[tactic(auto, using(ns_note::proofs::Rests::made_grows))]
fn take_one<'m, R: Wait>(
    rt: &R,
    commons: Commons,
    ring: RingHandle<'m>,
    watcher: &mut Watcher<'_>,
) -> (RingHandle<'m>, Option<u64>)
    requires { IsMade watcher.old.seen commons.note.index }
    ensures { IsMade watcher.new.seen commons.note.index }
{
    let (mut held, has_item) = wait_for(rt, commons, ring.lock(rt), Wish::Item, watcher);
    if !has_item {
        return (held.unlock(rt), None);
    }
    let item = take(&mut held);
    let taken = count_taken(&mut held);
    let ring = held.unlock(rt);
    if taken == commons.items {
        watcher.notify(commons.note);
    }
    (ring, Some(item))
}

/// Takes items out of the ring until the note is notified, and answers their sum.
pub fn consume<R: Wait>(
    rt: &R,
    commons: Commons,
    ring: RingHandle<'_>,
    watcher: &mut Watcher<'_>,
) -> u64
    requires { IsMade watcher.old.seen commons.note.index }
{
    let mut ring = ring;
    let mut sum = 0u64;
    for _ in 0..commons.items {
        let (back, taken) = take_one(rt, commons, ring, watcher);
        let Some(item) = taken else {
            break;
        };
        ring = back;
        sum = sum.wrapping_add(item);
    }
    sum
}
