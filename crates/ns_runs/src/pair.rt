//! The queues and the plain list side by side.

ghost use Rattle.std.specs.Prelude.{◌≡◌, ◌<◌};

use crate::plain::{Entry, Plain, bits, scanned, without};
use crate::tag::Tagged;
use arrayvec::ArrayVec;
use ns_model::event::Mode;
use ns_queue::queues::Queues;
use ns_queue::room::Queueable;
use ns_queue::waiter::{Waiter, Which};
use rand_core::Rng;
use rand_pcg::Pcg32;

/// One of so many numbers, from 0 on.
fn draw(draws: &mut Pcg32, many: u8) -> u8
    requires { 0 < many }
    ensures { result < many }
{
    (draws.next_u32() % u32::from(many)) as u8
}

/// A waiter with this seat that is drawn: one in 8 has no condition, unless each is to have one.
fn drawn(draws: &mut Pcg32, seat: u8, conditional: bool) -> Entry {
    let tag = if draw(draws, 8) == 0 && !conditional {
        None
    } else {
        Some(draw(draws, 4))
    };
    Entry {
        seat,
        write: draw(draws, 2) == 0,
        tag,
        tries: if draw(draws, 16) == 0 { 30 } else { 29 },
    }
}

/// The entry as the queues have it.
fn waiter<C: Tagged>(entry: Entry) -> Waiter<C>
    ensures { result.seat ≡ entry.seat }
{
    Waiter {
        seat: entry.seat,
        mode: if entry.write { Mode::Write } else { Mode::Read },
        cond: match entry.tag {
            Some(tag) => Some(C::tagged(tag)),
            None => None,
        },
        tries: entry.tries,
        via: None,
    }
}

/// The waiter as the plain list has it.
fn entry<C: Tagged>(waiter: &Waiter<C>) -> Entry {
    Entry {
        seat: waiter.seat,
        write: waiter.mode.is_write(),
        tag: match &waiter.cond {
            Some(cond) => Some(cond.tag()),
            None => None,
        },
        tries: waiter.tries,
    }
}

/// Whether the lock list has these waiters.
fn shows<C: Tagged>(queues: &Queues<C, 2>, plain: &[Entry]) -> bool {
    let mut shown: Plain = ArrayVec::new();
    for waiter in queues.waiters(Which::Lock).as_slice() {
        let _ = shown.try_push(entry(waiter));
    }
    shown.as_slice() == plain
}

/// Puts a seat that stands nowhere in front of the lists, or behind them.
fn push<C: Tagged + Queueable<2>>(
    queues: &mut Queues<C, 2>,
    plain: &mut Plain,
    added: Entry,
    front: bool,
) {
    if added.seat >= 64 || queues.holds(added.seat) {
        return;
    }
    if front {
        queues.push_front(waiter(added));
        let _ = plain.try_insert(0, added);
    } else {
        queues.push_back(Which::Lock, waiter(added));
        let _ = plain.try_push(added);
    }
}

/// Takes a seat out of the lists, and answers whether both say that it stood there, or both that it didn't.
fn remove<C: Tagged>(queues: &mut Queues<C, 2>, plain: &mut Plain, seat: u8) -> bool {
    let others = without(plain.as_slice(), seat);
    let stood = others.len() < plain.len();
    *plain = others;
    queues.remove(seat) == stood
}

/// Scans the queues at a row where each condition is `met`, or none is, and answers what the plain list comes
/// to, if the queues come to the same.
fn scan<C: Tagged>(queues: &mut Queues<C, 2>, plain: &[Entry], met: bool) -> Option<Plain> {
    let wanted = scanned::<C>(plain, met);
    let scan = queues.scan(&[u64::from(met), 0]);
    let right = scan.woken.as_slice() == wanted.woken.as_slice()
        && scan.tests == wanted.tests
        && shows(queues, wanted.left.as_slice());
    if right { Some(wanted.left) } else { None }
}

/// Does what is drawn, and answers whether that did the same to the queues and to the plain list. Each waiter
/// has a condition where that is asked.
pub fn step<C: Tagged>(
    queues: &mut Queues<C, 2>,
    plain: &mut Plain,
    draws: &mut Pcg32,
    conditional: bool,
) -> bool {
    let seat = draw(draws, 64);
    let kind = draw(draws, 16);
    if kind < 10 {
        push(queues, plain, drawn(draws, seat, conditional), kind < 4);
        return true;
    }
    if kind < 14 {
        return remove(queues, plain, seat);
    }
    let Some(left) = scan(queues, plain.as_slice(), kind == 15) else {
        return false;
    };
    *plain = left;
    true
}

/// Whether the lock list is the plain list, and a scan where all conditions are false tests as many as that
/// has runs.
///
/// Where somebody waits without condition a scan takes somebody, so a copy is scanned. Else the queues
/// themselves are, since a copy has fresh links.
pub fn agree<C: Tagged>(queues: &mut Queues<C, 2>, plain: &[Entry]) -> bool {
    if !shows(queues, plain) || queues.bits() != bits(plain) {
        return false;
    }
    if scanned::<C>(plain, false).woken.is_empty() {
        scan(queues, plain, false).is_some()
    } else {
        scan(&mut queues.copied(), plain, false).is_some()
    }
}
