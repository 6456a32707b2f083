//! A release, and what leads to its scan of the lock list where somebody may have to be woken.

ghost use Rattle.std.specs.Prelude.{◌≡◌, None};
ghost use Rattle.ns_monitor.specs.Prelude.{FindsReaders, HasAnswered, HasSince, HasTakenAt, InRelease, IsNumberOf, ReleaseLoad, ReleasesBy, Succeeded, ToRelease, the};
ghost use Rattle.ns_word.specs.declared.request.Request.TheVariants as TheRequest;

use crate::cells::load_to_scan;
use crate::going::Going;
use crate::loops::{go_or_take, pay_one, put_back};
use crate::monitor::Monitor;
use crate::scanning::{Scanning, scan_and_wake};
use ns_gate::bound::Bound;
use ns_gate::gate::GateSeat;
use ns_gate::queues::Returning;
use ns_model::condition::Condition;
use ns_queue::scan::Sought;
use ns_word::number::LockWord;
use ns_word::release_walk::ReleasePlace;
use ns_word::walk::Walk;
use ns_word::word::Releasing;
use std::sync::Wait;

impl<C: Condition<N>, const N: usize> Monitor<C, N> {
    /// Goes on to release the section in hand by the word last seen, and wakes those waiters who can go on.
    #[cold]
    pub(crate) fn unlock_slow<R: Wait>(
        &self,
        rt: &R,
        seat: GateSeat<C, N>,
        number: u8,
        releasing: Releasing,
        last: LockWord,
    ) -> GateSeat<C, N>
        requires of { seat.table_id ≡ self.now }
        requires number { IsNumberOf number seat.me }
        requires at { ReleasesBy C.means releasing last seat.me }
        ensures seat { result.table_id ≡ self.now }
        ensures since { HasSince None (the seat.me.0) (the result.me.0) }
        ensures released { HasAnswered C.means (TheRequest.Release releasing) Succeeded result.me }
    {
        let mut seat = seat;
        let mut bound = Bound::new(&self.gate, &mut seat, number);
        let going = Going::Leaving(releasing);
        let place = Walk::InRelease(releasing, ReleasePlace::ReleaseLoad);
        let Some(word) = go_or_take(rt, &mut bound, going, place, last) else {
            bound.end();
            return seat;
        };
        self.scan_and_release(rt, bound.end(), number, releasing, word);
        seat
    }

    /// Scans the lock list in hand at the section's row, which it loads where some waiter has a condition, puts the
    /// queues back and releases, and pays the wakes of those whom the scan took.
    #[inline(always)]
    fn scan_and_release<R: Wait>(
        &self,
        rt: &R,
        seat: &mut GateSeat<C, N>,
        number: u8,
        releasing: Releasing,
        word: LockWord,
    )
        requires of { seat.old.table_id ≡ self.now }
        requires number { IsNumberOf number seat.old.me }
        requires taken { HasTakenAt C.means (InRelease releasing ReleaseLoad) word seat.old.me seat.old.me }
        ensures seat { seat.new.table_id ≡ self.now }
        ensures since { HasSince None (the seat.old.me.0) (the seat.new.me.0) }
        ensures released { HasAnswered C.means (TheRequest.Release releasing) Succeeded seat.new.me }
    {
        let mut bound = Bound::new(&self.gate, seat, number);
        let parts = word.parts();
        let mut row = [0; N];
        let place = Walk::InRelease(releasing, ReleasePlace::ScanCells(parts, 0));
        load_to_scan(&mut bound, parts.cond, place, &mut row);
        let returning = Returning::Released(releasing);
        match bound.scan_writer_in_hand(&row) {
            Ok((wake, left)) => match wake {
                None => {
                    put_back(rt, &mut bound, returning, word, left);
                    bound.end();
                }
                Some(wake) => {
                    put_back(rt, &mut bound, returning, word, left);
                    pay_one(&mut bound, wake);
                    bound.end();
                }
            },
            Err(sought) => {
                self.wake_readers(rt, bound.end(), number, releasing, word, &row, sought);
            }
        }
    }

    /// Goes on to release where a scan at this row takes readers, of whom the search has found the first. It binds the
    /// seat anew, so that a release which wakes no readers keeps its [`Bound`] in registers, and pays nothing for what
    /// is scanned for: what a call takes is zeroed in memory first, unless the call is inlined.
    #[cold]
    fn wake_readers<R: Wait>(
        &self,
        rt: &R,
        seat: &mut GateSeat<C, N>,
        number: u8,
        releasing: Releasing,
        word: LockWord,
        row: &[u64; N],
        sought: Sought,
    )
        requires of { seat.old.table_id ≡ self.now }
        requires number { IsNumberOf number seat.old.me }
        requires readers { FindsReaders C.means (ToRelease releasing) word row.now sought seat.old.me }
        ensures seat { seat.new.table_id ≡ self.now }
        ensures since { HasSince None (the seat.old.me.0) (the seat.new.me.0) }
        ensures released { HasAnswered C.means (TheRequest.Release releasing) Succeeded seat.new.me }
    {
        let mut bound = Bound::new(&self.gate, seat, number);
        scan_and_wake(
            rt,
            &mut bound,
            Scanning::ToRelease(releasing),
            word,
            row,
            sought,
        );
        bound.end();
    }
}
