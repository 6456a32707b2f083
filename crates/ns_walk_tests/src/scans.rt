//! A scan of the queues in a driven seat's hand, before a release, or a wait, that puts them back.

ghost use Rattle.std.specs.Prelude.{◌≡◌};
ghost use Rattle.ns_gate.specs.Prelude.{HasUnchangedQueues, HasWorked, IsInRange, row_in, sought_at, the, times};
ghost use Rattle.ns_gate.specs.declared.queues.Returning.TheVariants.{Released, Waited};
ghost use Rattle.ns_walk_tests.specs.Driving.{IsMade};

use crate::known::Hand;
use ns_gate::bound::Bound;
use ns_gate::queues::Turned;
use ns_model::condition::Condition;
use ns_queue::scan::Sought;
use ns_word::act::Found;
use ns_word::owed::called_one;
use ns_word::wait::Wait;
use ns_word::word::{Releasing, Word};
use std::process::Abort;

/// Takes those out of the lock list whom a scan wakes that begins with a reader: that one alone.
/// What is released then, and the word last seen, are for the proof alone.
fn scan_reader<A: Abort, C: Condition<1>>(
    rt: &A,
    seat: &mut Bound<'_, C, 1>,
    row: &[u64; 1],
    sought: Sought,
    _releasing: Releasing,
    _last: Word,
) -> Hand
    requires has { HasUnchangedQueues seat.old.me }
    requires row { row.now ≡ row_in (the seat.old.me.0).at.held }
    requires found { sought ≡ sought_at C.means row.now (the seat.old.me.0).stood }
    ensures worked { HasWorked seat.old seat.new }
    ensures made { IsMade C.means (Released _releasing) _last result seat.new.me }
{
    let (scan, bits) = seat.scan_from_in_hand(row, sought);
    let woken = scan.woken.as_slice();
    let vias = scan.vias.as_slice();
    if woken.len() != 1 || vias.len() != 1 {
        panic!(rt; "the seat would owe more than one wake");
    }
    Hand {
        turned: Turned { some: true, bits },
        finds: Found::Scanned {
            owes: true,
            tests: scan.tests,
        },
        owed: Some(called_one(woken[0], vias[0])),
    }
}

/// Takes those out of the lock list whom a scan at the section's row wakes: nobody, a writer, or one reader. How
/// many conditions it tests is told only where it takes a reader; so else nobody is to have one. What is released
/// then, and the word last seen, are for the proof alone.
pub fn scan<A: Abort, C: Condition<1>>(
    rt: &A,
    seat: &mut Bound<'_, C, 1>,
    row: &[u64; 1],
    releasing: Releasing,
    last: Word,
) -> Hand
    requires has { HasUnchangedQueues seat.old.me }
    requires row { row.now ≡ row_in (the seat.old.me.0).at.held }
    ensures worked { HasWorked seat.old seat.new }
    ensures made { IsMade C.means (Released releasing) last result seat.new.me }
{
    let (_, all) = seat.show_in_hand();
    match seat.scan_writer_in_hand(row) {
        Ok((owed, turned)) => {
            if all.conditional {
                panic!(rt; "how many conditions the scan tests is not told");
            }
            let finds = Found::Scanned {
                owes: owed.is_some(),
                tests: 0,
            };
            Hand {
                turned,
                finds,
                owed,
            }
        }
        Err(sought) => scan_reader(rt, seat, row, sought, releasing, last),
    }
}

/// The same for a wait, which then puts itself into its list.
pub fn enter<A: Abort, C: Condition<1>>(
    rt: &A,
    seat: &mut Bound<'_, C, 1>,
    row: &[u64; 1],
    wait: Wait<C>,
    again: bool,
    last: Word,
) -> Hand
    requires has { HasUnchangedQueues seat.old.me }
    requires row { row.now ≡ row_in (the seat.old.me.0).at.held }
    requires range { IsInRange wait.on }
    requires free { times (the seat.old.me.0).at.seat (the seat.old.me.0).stood ≡ 0 }
    ensures worked { HasWorked seat.old seat.new }
    ensures made { IsMade C.means (Waited wait again) last result seat.new.me }
{
    let scanned = scan(rt, seat, row, Releasing::of(wait.mode), last);
    let bits = seat.enter_in_hand(wait, again);
    let some = scanned.turned.some;
    Hand {
        turned: Turned { some, bits },
        finds: scanned.finds,
        owed: scanned.owed,
    }
}
