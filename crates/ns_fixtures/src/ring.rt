//! The ring: what stands in which cell of the row, and a section's calls on it.

ghost use Rattle.std.specs.Prelude.{◌≡◌, ◌++◌, [], ◌∷◌, Some, slice_index};
ghost use Rattle.ns_word.specs.Meanings.{InHand};
ghost use Rattle.ns_fixtures.specs.declared.wish.Wish.TheVariants.{Item, Room};
ghost use Rattle.ns_fixtures.specs.Rings.{queue_in, with_item, without_first};
ghost use Rattle.ns_fixtures.specs.Wishes.{IsMetIn, is_met as is_met_at};

use crate::wish::Wish;
use ns_monitor::{Handle, Monitor, Writing};

/// How many items there may be in the ring. They stand in the first cells.
pub const RING: u64 = 4;

/// The cell that says where the first item is.
const HEAD: usize = 4;

/// The cell that says how many items are in the ring.
pub const LENGTH: usize = 5;

/// The cell that says how many items were taken.
const TAKEN: usize = 6;

/// How many cells a row has.
pub const ROW: usize = 7;

/// A lock round a ring of four cells. As each monitor it is made with its seats.
pub type RingMonitor = Monitor<Wish, ROW>;

/// A handle of it, for one thread.
pub type RingHandle<'m> = Handle<'m, Wish, ROW>;

/// A section of it, in which its thread alone has the ring.
pub type RingHeld<'m> = Writing<'m, Wish, ROW>;

/// Puts an item behind the others.
///
/// Needs a section whose ring has room, as one has that waited for [`Wish::Room`]. So a program that forgets
/// to wait isn't proved.
pub fn put(held: &mut RingHeld<'_>, item: u64)
    requires { IsMetIn Room held.old.held }
    ensures monitor { held.new.monitor ≡ held.old.monitor }
    ensures section { InHand held.old.held (λ section. held.new.held ≡ Some (record section { row = with_item item section.row })) }
    ensures last { InHand held.old.held (λ section. queue_in (with_item item section.row) ≡ queue_in section.row ++ item ∷ []) }
{
    let head = held.get(HEAD) % RING;
    let length = held.get(LENGTH);
    let free = head.wrapping_add(length) % RING;
    held.set(free as usize, item);
    held.set(LENGTH, length.wrapping_add(1));
}

/// Takes the first item, and answers it.
///
/// Needs a section whose ring has an item, as one has that waited for [`Wish::Item`]. So a program that
/// forgets to wait isn't proved. What goes from thread to thread through the ring is said nowhere: behind
/// a wait, a section's row is known by the wait's condition alone.
pub fn take(held: &mut RingHeld<'_>) -> u64
    requires { IsMetIn Item held.old.held }
    ensures monitor { held.new.monitor ≡ held.old.monitor }
    ensures section { InHand held.old.held (λ section. held.new.held ≡ Some (record section { row = without_first section.row })) }
    ensures first { InHand held.old.held (λ section. queue_in section.row ≡ result ∷ queue_in (without_first section.row)) }
{
    let head = held.get(HEAD) % RING;
    let item = held.get(head as usize);
    held.set(HEAD, (head + 1) % RING);
    let length = held.get(LENGTH);
    held.set(LENGTH, length.wrapping_sub(1));
    let taken = held.get(TAKEN);
    held.set(TAKEN, taken.wrapping_add(1));
    item
}

/// Whether the wish is met in the section in hand, so that an item may be put, or taken: what a wait for a
/// condition variable, whose wake tells nothing of the ring, is followed by.
pub fn is_met(held: &mut RingHeld<'_>, wish: Wish) -> bool
    ensures monitor { held.new.monitor ≡ held.old.monitor }
    ensures same { held.new.held ≡ held.old.held }
    ensures met { InHand held.new.held (λ section. is_met_at wish section.row ≡ result) }
{
    wish.is_met_by(held.get(LENGTH))
}

/// How many items were taken by now.
pub fn count_taken(held: &mut RingHeld<'_>) -> u64
    ensures monitor { held.new.monitor ≡ held.old.monitor }
    ensures count { InHand held.old.held (λ section. result ≡ slice_index section.row 6) }
{
    held.get(TAKEN)
}
