//! One step of a driven seat, and a call from place to place.

ghost use Rattle.std.specs.Prelude.{◌≡◌, None, Some};
ghost use Rattle.ns_env.specs.Nexts.{place_after};
ghost use Rattle.ns_walk_tests.specs.Driving.{IsDriven};

use crate::asks::{beside_of, may_begin, may_make};
use crate::known::Known;
use crate::learnt::{goes_between, has_queues, next_has, section_after};
use crate::prepared::{UNTURNED, prepare};
use ns_env::next::Next;
use ns_gate::bound::Bound;
use ns_gate::gate::{Gate, GateSeat};
use ns_model::condition::Condition;
use ns_word::act::Found;
use ns_word::walk::{Walk, WalkNext};
use std::process::Abort;

/// Makes the step that the place wants, and tells where the call goes.
pub fn go_on<A: Abort, C: Condition<1>>(
    rt: &A,
    gate: &Gate<C, 1>,
    seat: &mut GateSeat<C, 1>,
    known: &mut Known,
    walk: Walk<C>,
) -> WalkNext<C>
    requires of { seat.old.table_id ≡ gate.now }
    requires driven { IsDriven C.means (Some walk) known.old seat.old.me }
    ensures of { seat.new.table_id ≡ gate.now }
    ensures driven { IsDriven C.means (place_after result) known.new seat.new.me }
{
    let act = walk.want();
    let mut bound = Bound::new(gate, seat, known.number);
    let (beside, owed) = prepare(rt, &mut bound, *known, walk, act);
    bound.end();
    let found = gate.perform(seat, None, act, &beside);
    let next = walk.got::<1>(found);
    if !goes_between(act, found, has_queues(walk), next_has(next)) {
        panic!(rt; "another step came between");
    }
    known.section = section_after(act, found, known.section);
    known.owed = owed;
    next
}

/// Makes the first step of a call.
pub fn begin<A: Abort, C: Condition<1>>(
    rt: &A,
    gate: &Gate<C, 1>,
    seat: &mut GateSeat<C, 1>,
    known: &mut Known,
    first: Walk<C>,
) -> WalkNext<C>
    requires of { seat.old.table_id ≡ gate.now }
    requires driven { IsDriven C.means None known.old seat.old.me }
    ensures of { seat.new.table_id ≡ gate.now }
    ensures driven { IsDriven C.means (place_after result) known.new seat.new.me }
{
    let act = first.want();
    if !may_begin(first, known.section) || !may_make(true, act, *known) {
        panic!(rt; "the call may not begin");
    }
    let beside = beside_of(*known, UNTURNED, Found::Paid { owes: false });
    let found = gate.perform(seat, Some(first), act, &beside);
    let next = first.got::<1>(found);
    if next_has(next) {
        panic!(rt; "no first step takes the queues");
    }
    known.section = section_after(act, found, known.section);
    next
}

/// Goes on until the call is over, or has to wait for another seat.
pub fn drive<A: Abort, C: Condition<1>>(
    rt: &A,
    gate: &Gate<C, 1>,
    seat: &mut GateSeat<C, 1>,
    known: &mut Known,
    from: WalkNext<C>,
) -> WalkNext<C>
    requires of { seat.old.table_id ≡ gate.now }
    requires driven { IsDriven C.means (place_after from) known.old seat.old.me }
    ensures of { seat.new.table_id ≡ gate.now }
    ensures driven { IsDriven C.means (place_after result) known.new seat.new.me }
{
    let mut next = from;
    for _ in 0..16u8 {
        match next {
            Next::On(walk) | Next::Idle(walk) => next = go_on(rt, gate, seat, known, walk),
            Next::Done(_) => return next,
        }
        if let Next::Idle(_) = next {
            return next;
        }
    }
    panic!(rt; "the call goes on and on")
}
