//! The scan of the lock list by a release, or by a wait that leaves its section.

ghost use Rattle.std.specs.Prelude.{◌≡◌, ⊤};
ghost use Rattle.ns_monitor.specs.Prelude.{Carries, FindsReaders, HasScanned, HasWorked, IsPackable, IsReady, MayEnter, MayScan, ToWait, bits_of, entered, ready_at, returning_for, the};

use crate::loops::{pay, pay_one, put_back};
use ns_gate::bound::Bound;
use ns_gate::queues::{Returning, Turned};
use ns_model::condition::Condition;
use ns_queue::scan::Sought;
use ns_word::number::LockWord;
use ns_word::owed::called;
use ns_word::wait::Wait as Waiting;
use ns_word::word::Releasing;
use std::alloc::AllocError;
use std::sync::Wait;

/// A seat that queues for a wait, and leaves its section.
#[derive(Copy)]
pub struct Queuing<C> {
    /// The wait.
    pub wait: Waiting<C>,
    /// Whether it queues again.
    pub again: bool,
}

impl<C: Copy> Clone for Queuing<C> {
    ghost is_clone = { λ one other. other ≡ one };

    ghost is_infallible = { λ _. ⊤ };

    fn clone(&self) -> Result<Self, AllocError> {
        Ok(*self)
    }
}

/// What a call scans the lock list for, with the queues in hand.
#[derive(Copy)]
pub enum Scanning<C> {
    /// It releases its section so.
    ToRelease(Releasing),
    /// It waits.
    ToWait(Queuing<C>),
}

impl<C: Copy> Clone for Scanning<C> {
    ghost is_clone = { λ one other. other ≡ one };

    ghost is_infallible = { λ _. ⊤ };

    fn clone(&self) -> Result<Self, AllocError> {
        Ok(*self)
    }
}

impl<C: Copy> Scanning<C> {
    /// What the queues are put back for after it.
    #[inline(always)]
    fn returning(self) -> Returning<C>
        ensures { result ≡ returning_for self }
    {
        match self {
            Scanning::ToRelease(releasing) => Returning::Released(releasing),
            Scanning::ToWait(queuing) => Returning::Waited(queuing.wait, queuing.again),
        }
    }
}

/// Puts a wait into its list, where the call is one, with the lists in hand as a scan has left them. Tells
/// what the hand has made of them then.
#[inline(always)]
fn enter<C: Condition<N>, const N: usize>(
    seat: &mut Bound<'_, C, N>,
    scanning: Scanning<C>,
    turned: Turned,
) -> Turned
    requires { MayEnter scanning seat.old.me }
    ensures worked { HasWorked seat.old seat.new }
    ensures lists { (lists : _) → Carries lists seat.old.me → Carries (entered scanning (the seat.old.me.0).at.seat lists) seat.new.me }
    ensures some { result.some ≡ turned.some }
    ensures bits { (lists : _) → Carries lists seat.old.me → turned.bits ≡ bits_of lists.lock → result.bits ≡ bits_of (entered scanning (the seat.old.me.0).at.seat lists).lock }
{
    match scanning {
        Scanning::ToRelease(_) => turned,
        Scanning::ToWait(Queuing { wait, again }) => {
            let bits = seat.enter_in_hand(wait, again);
            Turned { bits, ..turned }
        }
    }
}

/// With the queues in hand and a row ready: scans the lock list for a wait, which then queues, puts the queues back,
/// and pays the wakes of those whom the scan took.
///
/// Where that is nobody, or a writer alone, no list of them is made: a function pays for its lists
/// as it is called, whether it uses them or not, and whoever needs the queues waits meanwhile.
#[inline(always)]
pub(crate) fn scan_and_return<R: Wait, C: Condition<N>, const N: usize>(
    rt: &R,
    seat: &mut Bound<'_, C, N>,
    queuing: Queuing<C>,
    word: LockWord,
    row: &[u64; N],
)
    requires word { IsPackable word }
    requires may { MayScan (ToWait queuing) seat.old.me }
    requires ready { IsReady C.means (ready_at (ToWait queuing) word) row.now seat.old.me }
    ensures { HasScanned C.means (ToWait queuing) seat.old seat.new }
{
    let scanning = Scanning::ToWait(queuing);
    let (wake, left) = match seat.scan_writer_in_hand(row) {
        Ok(told) => told,
        Err(sought) => {
            scan_and_wake(rt, seat, scanning, word, row, sought);
            return;
        }
    };
    let turned = enter(seat, scanning, left);
    put_back(rt, seat, scanning.returning(), word, turned);
    if let Some(wake) = wake {
        pay_one(seat, wake);
    }
}

/// With the queues in hand and a row ready, at which a scan takes readers, of whom this is the first: scans on from
/// there, with lists of those whom it takes, lets a wait queue, puts the queues back, and pays the wakes.
#[cold]
pub(crate) fn scan_and_wake<R: Wait, C: Condition<N>, const N: usize>(
    rt: &R,
    seat: &mut Bound<'_, C, N>,
    scanning: Scanning<C>,
    word: LockWord,
    row: &[u64; N],
    sought: Sought,
)
    requires { FindsReaders C.means scanning word row.now sought seat.old.me }
    ensures { HasScanned C.means scanning seat.old seat.new }
{
    let (scan, bits) = seat.scan_from_in_hand(row, sought);
    let some = !scan.woken.is_empty();
    let turned = enter(seat, scanning, Turned { some, bits });
    put_back(rt, seat, scanning.returning(), word, turned);
    let owed = called(scan.woken.as_slice(), scan.vias.as_slice());
    pay(seat, &owed);
}
