//! What is told beside the act that a driven seat's place wants, and what is made of the queues in hand for it.

ghost use Rattle.std.specs.Prelude.{Some};
ghost use Rattle.ns_gate.specs.Prelude.{HasComeBy};
ghost use Rattle.ns_walk_tests.specs.Driving.{IsDriven, IsPrepared};

use crate::asks::{beside_of, has_read, is_in_range, is_known, is_packable, may_make};
use crate::hand::{leave, queue, show};
use crate::known::Known;
use crate::learnt::{has_armed, has_queues, owed_behind};
use crate::scans::{enter, scan};
use crate::wakes::wake;
use ns_gate::bound::Bound;
use ns_gate::perform::Beside;
use ns_gate::queues::Turned;
use ns_model::condition::Condition;
use ns_word::act::{Act, Change, Found};
use ns_word::owed::Owed;
use ns_word::wait::Wait;
use ns_word::walk::Walk;
use ns_word::word::{Bits, Releasing, Word};
use std::process::Abort;

/// The hand has made nothing of the queues.
pub const UNTURNED: Turned = Turned {
    some: false,
    bits: Bits {
        waiting: false,
        conditional: false,
        writer_waits: false,
        long: false,
    },
};

/// Prepares an act that changes the lists.
fn prepare_change<A: Abort, C: Condition<1>>(
    rt: &A,
    seat: &mut Bound<'_, C, 1>,
    known: Known,
    walk: Walk<C>,
    change: Change,
    last: Word,
) -> (Beside<1>, Option<Owed>)
    requires driven { IsDriven C.means (Some walk) known seat.old.me }
    ensures { HasComeBy (IsPrepared C.means (Act.ReturnQueues change last) result.0 result.1) seat.old seat.new }
{
    if !has_queues(walk) || !is_packable(last) {
        panic!(rt; "the queues are not in hand");
    }
    let made = match change {
        Change::QueueSelf(mode, arrival) => {
            if !has_armed(walk) {
                panic!(rt; "the flag is not armed");
            }
            queue(seat, known.owed, mode, arrival, last)
        }
        Change::LeaveSelf(home) => leave(seat, known.owed, home, last),
        Change::WakeWaiters(waking, k) => {
            if k >= 4 {
                panic!(rt; "there is no such variable");
            }
            wake(rt, seat, waking, k, last)
        }
        Change::Nothing => show(seat, known.owed, last),
    };
    (beside_of(known, made.turned, made.finds), made.owed)
}

/// Prepares an act that releases with a scan.
fn prepare_release<A: Abort, C: Condition<1>>(
    rt: &A,
    seat: &mut Bound<'_, C, 1>,
    known: Known,
    walk: Walk<C>,
    releasing: Releasing,
    last: Word,
) -> (Beside<1>, Option<Owed>)
    requires driven { IsDriven C.means (Some walk) known seat.old.me }
    ensures { HasComeBy (IsPrepared C.means (Act.ReleaseReturning releasing last) result.0 result.1) seat.old seat.new }
{
    if !has_queues(walk) || !is_packable(last) || !has_read(known.section) {
        panic!(rt; "the row is not known, or the queues are not in hand");
    }
    let row = [is_known(known.section)];
    let made = scan(rt, seat, &row, releasing, last);
    (beside_of(known, made.turned, made.finds), made.owed)
}

/// Prepares an act by which a wait leaves its section with a scan.
fn prepare_wait<A: Abort, C: Condition<1>>(
    rt: &A,
    seat: &mut Bound<'_, C, 1>,
    known: Known,
    walk: Walk<C>,
    wait: Wait<C>,
    again: bool,
    last: Word,
) -> (Beside<1>, Option<Owed>)
    requires driven { IsDriven C.means (Some walk) known seat.old.me }
    ensures { HasComeBy (IsPrepared C.means (Act.WaitReturning wait again last) result.0 result.1) seat.old seat.new }
{
    if !has_queues(walk) || !is_packable(last) || !has_read(known.section) {
        panic!(rt; "the row is not known, or the queues are not in hand");
    }
    if !has_armed(walk) || !is_in_range(wait.on) {
        panic!(rt; "the flag is not armed, or there is no such variable");
    }
    let row = [is_known(known.section)];
    let made = enter(rt, seat, &row, wait, again, last);
    (beside_of(known, made.turned, made.finds), made.owed)
}

/// Prepares the act that the place wants.
pub fn prepare<A: Abort, C: Condition<1>>(
    rt: &A,
    seat: &mut Bound<'_, C, 1>,
    known: Known,
    walk: Walk<C>,
    act: Act<C>,
) -> (Beside<1>, Option<Owed>)
    requires driven { IsDriven C.means (Some walk) known seat.old.me }
    ensures { HasComeBy (IsPrepared C.means act result.0 result.1) seat.old seat.new }
{
    match act {
        Act::ReturnQueues(change, last) => { prepare_change(rt, seat, known, walk, change, last) }
        Act::ReleaseReturning(releasing, last) => {
            prepare_release(rt, seat, known, walk, releasing, last)
        }
        Act::WaitReturning(wait, again, last) => {
            prepare_wait(rt, seat, known, walk, wait, again, last)
        }
        _ => {
            if !may_make(false, act, known) {
                panic!(rt; "the act may not be made");
            }
            let finds = Found::Paid { owes: false };
            (
                beside_of(known, UNTURNED, finds),
                owed_behind(act, known.owed),
            )
        }
    }
}
