//! The plain list: what each operation makes of it, by the definitions of lists alone.

use crate::tag::Tagged;
use arrayvec::ArrayVec;

/// A waiter of the plain list: its seat, whether it writes, the tag of its condition if it has one, and its
/// tries.
#[derive(Clone, Copy, Default, PartialEq, Eq)]
pub struct Entry {
    pub seat: u8,
    pub write: bool,
    pub tag: Option<u8>,
    pub tries: u8,
}

/// The plain list, front first.
pub type Plain = ArrayVec<Entry, 64>;

/// What a scan has to come to: the seats that it takes, who stays, and how many conditions it tests.
#[derive(Drop)]
pub struct Outcome {
    pub woken: ArrayVec<u8, 64>,
    pub left: Plain,
    pub tests: u32,
}

/// The list without a seat.
pub fn without(list: &[Entry], seat: u8) -> Plain {
    let mut others = ArrayVec::new();
    for entry in list {
        if entry.seat != seat {
            let _ = others.try_push(*entry);
        }
    }
    others
}

/// Whether somebody waits, whether somebody waits for a condition, whether a writer waits without one, and
/// whether somebody has tried 30 times.
pub fn bits(list: &[Entry]) -> (bool, bool, bool, bool) {
    let mut bits = (false, false, false, false);
    for entry in list {
        bits.0 = true;
        bits.1 |= entry.tag.is_some();
        bits.2 |= entry.write && entry.tag.is_none();
        bits.3 |= entry.tries == 30;
    }
    bits
}

/// Whether the condition with the tag `next` goes on with the run whose first has the tag `first`.
fn goes_on<C: Tagged>(next: Option<u8>, first: Option<u8>) -> bool {
    match (next, first) {
        (Some(next), Some(first)) => C::tagged(next).same(&C::tagged(first)),
        _ => false,
    }
}

/// What a scan comes to at a row where each condition is `met`, or none is.
///
/// Needed is the truth of each up to the first that is taken, and if that one reads, of each later reader. A
/// run is tested once, if the truth of one of its waiters is needed.
pub fn scanned<C: Tagged>(list: &[Entry], met: bool) -> Outcome {
    let mut outcome = Outcome {
        woken: ArrayVec::new(),
        left: ArrayVec::new(),
        tests: 0,
    };
    let mut taken_first: Option<Entry> = None;
    let mut run = None;
    let mut is_tested = false;
    for entry in list {
        if !goes_on::<C>(entry.tag, run) {
            run = entry.tag;
            is_tested = false;
        }
        let is_needed = match taken_first {
            Some(first) => !first.write && !entry.write,
            None => true,
        };
        if is_needed && run.is_some() && !is_tested {
            outcome.tests = outcome.tests.saturating_add(1);
            is_tested = true;
        }
        if is_needed && (met || entry.tag.is_none()) {
            let _ = outcome.woken.try_push(entry.seat);
            taken_first = taken_first.or(Some(*entry));
        } else {
            let _ = outcome.left.try_push(*entry);
        }
    }
    outcome
}
