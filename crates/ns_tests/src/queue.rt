//! Scans and signals of small lists, and how often a scan tests.

ghost use Rattle.std.specs.Prelude.{◌≡◌, ◌==◌, ◌&&◌, nat_lt, nat_le, false, slice_index, length};
ghost use Rattle.ns_model.specs.Truths.{truths};
ghost use Rattle.ns_queue.specs.Queues.{IsList};

use arrayvec::ArrayVec;
use ns_model::condition::Condition;
use ns_model::event::Mode;
use ns_queue::queues::Queues;
use ns_queue::waiter::{Waiter, Which};
use std::sync::atomic::AtomicU32;
use std::sync::atomic::Ordering::SeqCst;

/// The cell is at least the value. Each test is counted in the atomic that it refers to.
#[derive(Clone, Copy)]
pub(crate) struct AtLeast<'a> {
    cell: u8,
    value: u64,
    tests: &'a AtomicU32,
}

impl<'a> Condition<2> for AtLeast<'a> {
    ghost use Rattle.std.proofs.Common.{arith, rules};

    ghost means = { truths (λ c row. nat_lt c.cell (length row) && nat_le c.value (slice_index row c.cell)) (λ c d. (c.cell == d.cell) && (c.value == d.value)) (λ before after. false) };

    fn test(&self, row: &[u64; 2]) -> bool {
        self.tests.fetch_add(1, SeqCst);
        let cell = self.cell as usize;
        cell < row.len() && self.value <= row[cell]
    }

    fn same(&self, other: &Self) -> bool {
        self.cell == other.cell && self.value == other.value
    }

    fn quiet(_before: &[u64; 2], _after: &[u64; 2]) -> bool
        ensures { result ≡ false }
    {
        false
    }

    ghost same_agrees = { λ c d row n e. Prim.grind arith };

    ghost quiet_keeps = { λ c before after n m quiet h. absurd (Prim.cc) };

    ghost has_cells = { Prim.search rules };

    ghost has_room = { Prim.search rules };
}

/// A waiter's mode, and the cell and the least value of its condition.
type Given = (Mode, Option<(u8, u64)>);

/// A scan: who waits, seat 0 in front, the row, who is woken, who stays, and how many tests.
type ScanRow = (
    &'static [Given],
    [u64; 2],
    &'static [u8],
    &'static [u8],
    u32,
);

/// A signal: the modes of those that wait, who is taken, and who stays.
type SignalRow = (&'static [Mode], &'static [u8], &'static [u8]);

const SCANS: [ScanRow; 5] = [
    (
        &[
            (Mode::Write, Some((0, 5))),
            (Mode::Write, Some((0, 5))),
            (Mode::Write, Some((0, 5))),
            (Mode::Write, Some((1, 1))),
        ],
        [1, 0],
        &[],
        &[0, 1, 2, 3],
        2,
    ),
    (
        &[
            (Mode::Read, Some((0, 5))),
            (Mode::Write, None),
            (Mode::Read, None),
        ],
        [0, 0],
        &[1],
        &[0, 2],
        1,
    ),
    (
        &[
            (Mode::Read, None),
            (Mode::Write, None),
            (Mode::Read, Some((0, 1))),
            (Mode::Read, Some((0, 5))),
        ],
        [1, 0],
        &[0, 2],
        &[1, 3],
        2,
    ),
    (
        &[
            (Mode::Read, Some((0, 1))),
            (Mode::Write, Some((0, 1))),
            (Mode::Read, Some((0, 1))),
        ],
        [1, 0],
        &[0, 2],
        &[1],
        1,
    ),
    (
        &[(Mode::Read, None), (Mode::Write, Some((0, 1)))],
        [1, 0],
        &[0],
        &[1],
        0,
    ),
];

const SIGNALS: [SignalRow; 3] = [
    (
        &[Mode::Read, Mode::Write, Mode::Read, Mode::Write],
        &[0, 1, 2],
        &[3],
    ),
    (&[Mode::Write, Mode::Read], &[0], &[1]),
    (&[], &[], &[]),
];

/// Puts a seat that is untried and names no variable at the back of a list, if it stands nowhere yet.
fn queue<'a>(
    queues: &mut Queues<AtLeast<'a>, 2>,
    list: Which,
    seat: u8,
    mode: Mode,
    cond: Option<AtLeast<'a>>,
)
    requires { IsList list }
{
    if seat < 64 && !queues.holds(seat) {
        let waiter = Waiter {
            seat,
            mode,
            cond,
            tries: 0,
            via: None,
        };
        queues.push_back(list, waiter);
    }
}

fn condition<'a>(given: Option<(u8, u64)>, tests: &'a AtomicU32) -> Option<AtLeast<'a>> {
    match given {
        Some((cell, value)) => Some(AtLeast { cell, value, tests }),
        None => None,
    }
}

/// The seats of a list.
fn seats<'a>(waiters: &ArrayVec<Waiter<AtLeast<'a>>, 64>) -> ArrayVec<u8, 64> {
    let mut seats = ArrayVec::new();
    for waiter in waiters.as_slice() {
        let _ = seats.try_push(waiter.seat);
    }
    seats
}

/// Whether these seats stand in the list.
fn are_seats<'a>(waiters: &ArrayVec<Waiter<AtLeast<'a>>, 64>, wanted: &[u8]) -> bool {
    seats(waiters).as_slice() == wanted
}

/// Whether a scan takes whom the row says, and makes the tests that it says.
fn is_scanned(row: &ScanRow) -> bool {
    let (given, cells, woken, left, tests) = row;
    let counter = AtomicU32::new(0);
    let mut queues = Queues::new();
    for (seat, (mode, cond)) in (0u8..64).zip(given.iter()) {
        let cond = condition(*cond, &counter);
        queue(&mut queues, Which::Lock, seat, *mode, cond);
    }
    let scan = queues.scan(cells);
    scan.woken.as_slice() == *woken
        && are_seats(&queues.waiters(Which::Lock), *left)
        && scan.tests == *tests
        && counter.load(SeqCst) == *tests
}

#[test]
fn scan_table(rt: HostRuntime) {
    for (i, row) in SCANS.iter().enumerate() {
        assert!(rt; is_scanned(row), "the scan {i}");
    }
}

/// Whether a signal takes whom the row says, and a broadcast then the others.
fn is_signaled(row: &SignalRow) -> bool {
    let (modes, taken, left) = row;
    let mut queues: Queues<AtLeast<'_>, 2> = Queues::new();
    for (seat, mode) in (0u8..64).zip(modes.iter()) {
        queue(&mut queues, Which::Cv(3), seat, *mode, None);
    }
    let signaled = queues.take_signal(3);
    are_seats(&signaled, *taken) && are_seats(&queues.take_all(3), *left)
}

#[test]
fn signal_table(rt: HostRuntime) {
    for (i, row) in SIGNALS.iter().enumerate() {
        assert!(rt; is_signaled(row), "the signal {i}");
    }
}

/// How many tests a scan of 64 writers with false conditions reports, how many were made, and how
/// many writers stay. The conditions differ if `step` isn't 0.
fn crowd(step: u64) -> (u32, u32, usize) {
    let counter = AtomicU32::new(0);
    let mut queues = Queues::new();
    let mut value = 1u64;
    for seat in 0u8..64 {
        let cond = condition(Some((0, value)), &counter);
        queue(&mut queues, Which::Lock, seat, Mode::Write, cond);
        value = value.wrapping_add(step);
    }
    let scan = queues.scan(&[0, 0]);
    let others = queues.waiters(Which::Lock);
    (scan.tests, counter.load(SeqCst), others.len())
}

/// How many tests a scan reports of two waiters with one condition and one between them with another, how
/// many a scan reports once that one is removed, and how many were made in all.
fn parted() -> (u32, u32, u32) {
    let counter = AtomicU32::new(0);
    let mut queues = Queues::new();
    for (seat, given) in (0u8..64).zip([(0, 5), (1, 1), (0, 5)].iter()) {
        let cond = condition(Some(*given), &counter);
        queue(&mut queues, Which::Lock, seat, Mode::Write, cond);
    }
    let apart = queues.scan(&[0, 0]).tests;
    queues.remove(1); // the two beside it are neighbours now, and one run
    let together = queues.scan(&[0, 0]).tests;
    (apart, together, counter.load(SeqCst))
}

#[test]
fn tests_counted(rt: HostRuntime) {
    assert!(rt; crowd(0) == (1, 1, 64));
    assert!(rt; crowd(1) == (64, 64, 64));
    assert!(rt; parted() == (3, 1, 4));
}
