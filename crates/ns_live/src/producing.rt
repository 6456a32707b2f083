//! What a thread does that puts items into the ring.

ghost use Rattle.ns_model.specs.Environments.{IsMade};

use crate::commons::{Commons, wait_for};
use ns_fixtures::{RingHandle, Wish, put};
use ns_note::watcher::Watcher;
use std::sync::Wait;

/// Puts one item into the ring once there is room for it, and answers whether it did: else the note is
/// notified.
fn put_one<'m, R: Wait>(
    rt: &R,
    commons: Commons,
    ring: RingHandle<'m>,
    watcher: &mut Watcher<'_>,
    item: u64,
) -> (RingHandle<'m>, bool)
    requires { IsMade watcher.old.seen commons.note.index }
    ensures { IsMade watcher.new.seen commons.note.index }
{
    let (mut held, has_room) = wait_for(rt, commons, ring.lock(rt), Wish::Room, watcher);
    if has_room {
        put(&mut held, item);
    }
    (held.unlock(rt), has_room)
}

/// Puts every second number into the ring, from this one to the last that there is.
pub fn produce<R: Wait>(
    rt: &R,
    commons: Commons,
    ring: RingHandle<'_>,
    watcher: &mut Watcher<'_>,
    first: u64,
)
    requires { IsMade watcher.old.seen commons.note.index }
{
    let mut ring = ring;
    let mut item = first;
    for _ in 0..commons.items {
        if commons.items < item {
            return;
        }
        let (back, is_put) = put_one(rt, commons, ring, watcher, item);
        if !is_put {
            return;
        }
        ring = back;
        item = item.saturating_add(2);
    }
}
