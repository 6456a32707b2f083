//! What a test has its seats do, turn by turn, and what each turn must come to.

ghost use Rattle.std.specs.Prelude.{◌≡◌};
ghost use Rattle.ns_env.specs.Nexts.{place_after};
ghost use Rattle.ns_walk_tests.specs.Driving.{IsDriven};

use crate::driver::{begin, drive};
use crate::known::Known;
use crate::seats::{Seats, new_known, three};
use ns_env::limits::Cause;
use ns_env::next::Next;
use ns_gate::gate::{Gate, GateSeat};
use ns_model::condition::Condition;
use ns_word::walk::{Reply, Walk, WalkNext};
use std::alloc::Global;
use std::marker::Model;
use std::process::Abort;

/// A seat that a test drives. What is known of it is an invariant, so no function that takes one has to say it.
#[derive(Drop)]
struct Driven<'g, C: Condition<1>> {
    /// Its gate.
    gate: &'g Gate<C, 1>,
    /// The seat.
    seat: GateSeat<C, 1>,
    /// What is known of it.
    known: Known,
    /// Where its call goes, or what the last one answered.
    next: WalkNext<C>,
}

impl<'g, C: Condition<1>> Model for Driven<'g, C> {
    ghost Value = { Unit {0} };

    ghost view = { λ _. tt };

    ghost invariant = { λ d. (d.seat.table_id ≡ d.gate.now) × IsDriven C.means (place_after d.next) d.known d.seat.me };
}

/// How far a call goes in a turn.
#[derive(Clone, Copy)]
pub enum Until {
    /// It makes its first step.
    Begun,
    /// It goes on until it has to wait.
    Waits,
    /// It goes on to its end, and answers this.
    Answers(Reply),
}

/// A turn of a seat.
#[derive(Drop)]
pub struct Turn<C: Condition<1>> {
    /// The seat's number.
    pub seat: u8,
    /// The call that it begins, if it doesn't go on with the one in progress.
    pub begins: Option<Walk<C>>,
    /// How far it goes.
    pub until: Until,
}

/// Makes the first step of a call.
fn start<A: Abort, C: Condition<1>>(rt: &A, driven: &mut Driven<'_, C>, first: Walk<C>) {
    match driven.next {
        Next::Done(_) => {
            driven.next = begin(rt, driven.gate, &mut driven.seat, &mut driven.known, first);
        }
        _ => panic!(rt; "the seat is in a call"),
    }
}

/// Goes on until the call is over, or has to wait.
fn go<A: Abort, C: Condition<1>>(rt: &A, driven: &mut Driven<'_, C>) {
    driven.next = drive(
        rt,
        driven.gate,
        &mut driven.seat,
        &mut driven.known,
        driven.next,
    );
}

/// Whether the seat's call has come so far.
fn is_at<C: Condition<1>>(driven: &Driven<'_, C>, until: Until) -> bool {
    match (driven.next, until) {
        (Next::On(_), Until::Begun) | (Next::Idle(_), Until::Waits) => true,
        (Next::Done(reply), Until::Answers(wanted)) => reply == wanted,
        _ => false,
    }
}

/// Makes a turn of the seat.
fn make<A: Abort, C: Condition<1>>(rt: &A, driven: &mut Driven<'_, C>, turn: &Turn<C>) {
    if let Some(first) = turn.begins {
        start(rt, driven, first);
    }
    if !matches!(turn.until, Until::Begun) {
        go(rt, driven);
    }
    if !is_at(driven, turn.until) {
        panic!(rt; "the turn came to something else");
    }
}

/// Makes the turns of the three seats of a new gate, whose looks are to show this.
pub fn play<A: Abort, C: Condition<1>>(
    rt: &A,
    alloc: Global,
    shown: Option<Cause>,
    turns: &[Turn<C>],
) {
    let Seats {
        gate,
        one,
        other,
        third,
    } = three(rt, alloc, shown);
    let (gate, next) = (&gate, Next::Done(Reply::Succeeded));
    let mut one = Driven {
        gate,
        seat: one,
        known: new_known(0, shown),
        next,
    };
    let mut other = Driven {
        gate,
        seat: other,
        known: new_known(1, shown),
        next,
    };
    let mut third = Driven {
        gate,
        seat: third,
        known: new_known(2, shown),
        next,
    };
    for turn in turns {
        match turn.seat {
            0 => make(rt, &mut one, turn),
            1 => make(rt, &mut other, turn),
            _ => make(rt, &mut third, turn),
        }
    }
}
