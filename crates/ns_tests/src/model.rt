//! Histories that are legal, and the same changed in one place, which are not.

ghost use Rattle.std.specs.Prelude.{◌≡◌, nat_le, ◌==◌, slice_index, false};
ghost use Rattle.ns_model.specs.Truths.{truths};

use ns_model::condition::Condition;
use ns_model::cvs::Cvs;
use ns_model::event::{Answer, Entry, Event, Exit, Mode};
use ns_model::history::{legal, phase_of, row_after};
use ns_model::phase::Phase;
use ns_model::seats::Seats;

/// The first cell is at least a value: of a row of eight in the examples, and of one cell else.
#[derive(Clone, Copy)]
pub(crate) struct AtLeast(u64);

impl Condition<8> for AtLeast {
    ghost use Rattle.std.proofs.Common.{arith, rules};

    ghost means = { truths (λ c row. nat_le c.0 (slice_index row 0)) (λ c d. c.0 == d.0) (λ before after. false) };

    fn test(&self, row: &[u64; 8]) -> bool {
        self.0 <= row[0]
    }

    fn same(&self, other: &Self) -> bool {
        self.0 == other.0
    }

    fn quiet(_before: &[u64; 8], _after: &[u64; 8]) -> bool {
        false
    }

    ghost same_agrees = { λ c d row n e. Prim.grind arith };

    ghost quiet_keeps = { λ c before after n m quiet h. absurd (Prim.cc) };

    ghost has_cells = { Prim.search rules };

    ghost has_room = { Prim.search rules };
}

impl Condition<1> for AtLeast {
    ghost use Rattle.std.proofs.Common.{arith, rules};

    ghost means = { truths (λ c row. nat_le c.0 (slice_index row 0)) (λ c d. c.0 == d.0) (λ before after. false) };

    fn test(&self, row: &[u64; 1]) -> bool {
        self.0 <= row[0]
    }

    fn same(&self, other: &Self) -> bool {
        self.0 == other.0
    }

    fn quiet(_before: &[u64; 1], _after: &[u64; 1]) -> bool {
        false
    }

    ghost same_agrees = { λ c d row n e. Prim.grind arith };

    ghost quiet_keeps = { λ c before after n m quiet h. absurd (Prim.cc) };

    ghost has_cells = { Prim.search rules };

    ghost has_room = { Prim.search rules };
}

type Happening = Event<AtLeast, 1>;

const WANTED: AtLeast = AtLeast(1);

const MET: Entry<AtLeast> = Entry::Waited(WANTED, Answer::Met);

const LATE: Entry<AtLeast> = Entry::Waited(WANTED, Answer::TimedOut);

fn section(
    who: u8,
    mode: Mode,
    entry: Entry<AtLeast>,
    before: u64,
    after: u64,
    exit: Exit<AtLeast>,
) -> Happening {
    Event::Section {
        who,
        mode,
        entry,
        before: [before],
        after: [after],
        exit,
    }
}

/// A section that waits so.
fn waits(who: u8, mode: Mode, exit: Exit<AtLeast>) -> Happening {
    section(who, mode, Entry::Plain, 0, 0, exit)
}

/// A section that begins so.
fn back(who: u8, mode: Mode, entry: Entry<AtLeast>) -> Happening {
    section(who, mode, entry, 0, 0, Exit::Plain)
}

/// A signal that wakes the seats of these bits.
fn signal(k: u8, seats: u64) -> Happening {
    Event::Signal {
        who: 4,
        k,
        woken: Seats(seats),
    }
}

/// Seat 0 waits for the cell to be at least 1.
fn asks() -> Happening {
    waits(0, Mode::Write, Exit::CondWait(WANTED))
}

/// The same, seat 1 makes it so, and seat 0 comes back with this row.
fn handed_over(row: u64) -> [Happening; 3] {
    [
        asks(),
        section(1, Mode::Write, Entry::Plain, 0, 1, Exit::Plain),
        section(0, Mode::Write, MET, row, 1, Exit::Plain),
    ]
}

#[test]
fn a_condition_is_handed_over(rt: HostRuntime) {
    let whole = handed_over(1);
    assert!(rt; legal(&whole));
    assert!(rt; legal(&whole[..2]));
    assert!(rt; row_after(&whole) == [1]);
    assert!(rt; matches!(phase_of(&whole[..2], 0), Phase::Cond(_, Mode::Write)));
    assert!(rt; matches!(phase_of(&whole, 0), Phase::Idle));
    assert!(rt; !legal(&handed_over(2))); // a row that no section left
}

/// A section: whose, in which mode, how it begins, the cell before and after, and how it ends.
type Given = (u8, Mode, Entry<AtLeast>, u64, u64, Exit<AtLeast>);

/// Sections that can't come once seat 0 waits for the cell to be at least 1.
const CHANGED: [Given; 8] = [
    (1, Mode::Write, Entry::Plain, 1, 1, Exit::Plain), // no section left that
    (1, Mode::Read, Entry::Plain, 0, 1, Exit::Plain), // a reader writes
    (1, Mode::Write, MET, 0, 1, Exit::Plain), // it didn't wait
    (0, Mode::Write, MET, 0, 0, Exit::Plain), // it isn't met
    (0, Mode::Read, LATE, 0, 0, Exit::Plain), // it waited as a writer
    (0, Mode::Write, Entry::Plain, 0, 0, Exit::Plain), // it waits
    (1, Mode::Write, Entry::Plain, 0, 1, Exit::CondWait(WANTED)), // what it waits for is true
    (64, Mode::Write, Entry::Plain, 0, 1, Exit::Plain), // there is no such seat
];

#[test]
fn changed_sections_are_not_legal(rt: HostRuntime) {
    for (who, mode, entry, before, after, exit) in CHANGED {
        let changed = section(who, mode, entry, before, after, exit);
        assert!(rt; !legal(&[asks(), changed]));
    }
    assert!(rt; legal(&[asks(), back(0, Mode::Write, LATE)]));
}

/// Whether this may happen once readers 0 and 2 and writers 1 and 3 wait for the variable 0.
fn is_legal_after_four(event: Happening) -> bool {
    legal(&[
        waits(0, Mode::Read, Exit::CvWait(0)),
        waits(1, Mode::Write, Exit::CvWait(0)),
        waits(2, Mode::Read, Exit::CvWait(0)),
        waits(3, Mode::Write, Exit::CvWait(0)),
        event,
    ])
}

/// Whom a signal wakes, seat 0 as the last bit, and whether that may be: one writer, or the readers and at
/// most one writer.
const SIGNALED: [(u64, bool); 9] = [
    (0b00111, true),
    (0b01101, true),
    (0b00010, true),
    (0b01010, false),
    (0b01111, false),
    (0b00011, false),
    (0b00101, false),
    (0b10010, false),
    (0b00000, false),
];

#[test]
fn a_signal_wakes_one_writer_or_the_readers(rt: HostRuntime) {
    for (seats, expected) in SIGNALED {
        assert!(rt;
            is_legal_after_four(signal(0, seats)) == expected,
            "{seats}"
        );
    }
    assert!(rt; is_legal_after_four(signal(1, 0b00000))); // nobody waits for that
    assert!(rt; !is_legal_after_four(signal(1, 0b00001)));
}

/// The same of a broadcast, which wakes all.
const BROADCAST: [(u64, bool); 4] = [
    (0b01111, true),
    (0b00111, false),
    (0b11111, false),
    (0b00000, false),
];

#[test]
fn a_broadcast_wakes_all(rt: HostRuntime) {
    for (seats, expected) in BROADCAST {
        let broadcast = Event::Broadcast {
            who: 4,
            k: 0,
            woken: Seats(seats),
        };
        assert!(rt; is_legal_after_four(broadcast) == expected, "{seats}");
    }
}

/// Whether these two may happen once seat 1 waits for the variable 0.
fn is_legal_after_one(then: Happening, last: Happening) -> bool {
    legal(&[waits(1, Mode::Write, Exit::CvWait(0)), then, last])
}

#[test]
fn only_one_that_waits_leaves(rt: HostRuntime) {
    let leave = Event::Leave { who: 1, k: 0 };
    let late = back(1, Mode::Write, Entry::AfterCv(0, Answer::TimedOut));
    let met = back(1, Mode::Write, Entry::AfterCv(0, Answer::Met));
    let woken = signal(0, 0b10);
    assert!(rt; is_legal_after_one(leave, late));
    assert!(rt; !is_legal_after_one(leave, met)); // one that left was not woken
    assert!(rt; !is_legal_after_one(woken, leave)); // one that was woken doesn't leave
    assert!(rt; is_legal_after_one(woken, met));
    let other = Event::Leave { who: 1, k: 1 };
    assert!(rt; !legal(&[waits(1, Mode::Write, Exit::CvWait(0)), other])); // it waits for another
    assert!(rt; !legal(&[leave])); // nobody waits
}

/// The variables 0 and 2, and the variable 0.
const BOTH: Cvs = Cvs(0b101);

const FIRST: Cvs = Cvs(0b001);

/// Whether these two may happen once seat 0 waits for any of these variables.
fn is_legal_after_any(cvs: Cvs, then: Happening, last: Happening) -> bool {
    legal(&[waits(0, Mode::Write, Exit::AnyWait(cvs)), then, last])
}

/// A section of seat 0 that comes back from a wait for any.
fn back_by(mode: Mode, by: Option<u8>) -> Happening {
    back(0, mode, Entry::AfterAny(by))
}

/// Which variable is signaled, what the section that comes back says, and whether that may be.
const WOKEN: [(u8, Option<u8>, bool); 5] = [
    (0, Some(0), true),
    (2, Some(2), true),
    (2, Some(0), false),
    (1, Some(1), false),
    (2, None, false),
];

#[test]
fn a_wait_for_any_is_woken_by_one_of_its_variables(rt: HostRuntime) {
    for (k, by, expected) in WOKEN {
        let last = back_by(Mode::Write, by);
        assert!(rt;
            is_legal_after_any(BOTH, signal(k, 1), last) == expected,
            "{k}"
        );
    }
    assert!(rt; !legal(&[waits(0, Mode::Write, Exit::AnyWait(BOTH)), signal(2, 0)])); // it sees that one
    assert!(rt; is_legal_after_any(BOTH, signal(2, 1), signal(0, 0))); // it waits for no other then
    assert!(rt; !is_legal_after_any(BOTH, signal(2, 1), signal(0, 1)));
}

/// The variables that are waited for, those that are left, and whether that may be.
const LEFT: [(Cvs, Cvs, bool); 4] = [
    (BOTH, BOTH, true),
    (BOTH, FIRST, false),
    (FIRST, BOTH, false),
    (FIRST, FIRST, true),
];

#[test]
fn a_wait_for_any_is_left_for_all_its_variables(rt: HostRuntime) {
    for (waited, cvs, expected) in LEFT {
        let left = Event::LeaveAny { who: 0, cvs };
        let last = back_by(Mode::Write, None);
        assert!(rt; is_legal_after_any(waited, left, last) == expected);
    }
    let one = Event::Leave { who: 0, k: 0 };
    assert!(rt; !legal(&[waits(0, Mode::Write, Exit::AnyWait(BOTH)), one])); // it waits for another too
    assert!(rt; legal(&[waits(0, Mode::Write, Exit::AnyWait(FIRST)), one])); // a set of one is that one
    let set = Event::LeaveAny { who: 0, cvs: FIRST };
    assert!(rt; legal(&[waits(0, Mode::Write, Exit::CvWait(0)), set])); // one alone is a set of one
}

#[test]
fn a_wait_for_any_comes_back_as_it_ended(rt: HostRuntime) {
    let left = Event::LeaveAny { who: 0, cvs: BOTH };
    let woken = signal(2, 1);
    let late = Entry::AfterCv(0, Answer::TimedOut);
    assert!(rt; is_legal_after_any(BOTH, woken, back_by(Mode::Write, Some(2))));
    assert!(rt; is_legal_after_any(BOTH, left, back_by(Mode::Write, None)));
    assert!(rt; !is_legal_after_any(BOTH, left, back_by(Mode::Write, Some(2))));
    assert!(rt; !is_legal_after_any(BOTH, signal(1, 0), back_by(Mode::Write, None))); // neither
    assert!(rt; !is_legal_after_any(BOTH, woken, back_by(Mode::Read, Some(2))));
    assert!(rt; !is_legal_after_any(BOTH, left, back_by(Mode::Read, None)));
    assert!(rt; !is_legal_after_any(BOTH, left, back(0, Mode::Write, late))); // as of one alone
    assert!(rt; !is_legal_after_any(BOTH, woken, left)); // one that was woken doesn't leave
}
