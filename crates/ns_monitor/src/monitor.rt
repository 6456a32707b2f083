//! The monitor, and its calls.

ghost use Rattle.std.specs.Prelude.{◌≡◌, ◌<◌, ◌≤◌, ◌++◌, [], ◌∷◌, None, Some, true, All, IfErr, IfOk, OnOk, length, slice_index, slice_set};
ghost use Rattle.ns_model.specs.declared.event.Exit.TheVariants as TheExit;
ghost use Rattle.ns_gate.specs.Prelude.{Read, Write, QuietWriter, Reader, Writer, InHand, HasMode, section_of, mode_released, IsAtRest, RefusesGate, ShareTheLock, the};
ghost use Rattle.ns_monitor.specs.Prelude.{AreNew, AreOfOneHistory, EndsAs, Grows, HasBegun, HasLearned, HasLocked, HasSeenMore, IsFreshIn, IsNumberOf, IsQuietFor, WentAtOnce, getting, judging, known_of, locking, releasing_by, setting, trying};

use crate::caller::{Caller, Free, Hand, ReadHeld, Renewed, Seat, Section, WriteHeld};
use crate::cells::load_to_judge;
use crate::going::{Begun, Going, go_at_once, try_acquire};
use crate::handle::Acting;
use crate::{Closed, Fault};
use ns_gate::bound::Bound;
use ns_gate::gate::{Gate, GateSeat};
use ns_model::condition::Condition;
use ns_model::event::Mode;
use ns_word::wait::Aim;
use ns_word::walk::Walk;
use ns_word::word::{Arrival, Releasing};
use std::alloc::{AllocError, Global};
use std::marker::Model;
use std::sync::Wait;

/// A lock round a row of `N` cells. Each call takes its caller's seat or section, which has to be
/// of this monitor.
#[derive(Drop)]
pub struct Monitor<C: Condition<N>, const N: usize> {
    pub(crate) gate: Gate<C, N>,
}

impl<C: Condition<N>, const N: usize> Model for Monitor<C, N> {
    ghost use Rattle.atomic_table.specs.Seated.{TableId};

    ghost Value = { TableId };

    ghost view = { λ m. m.gate };
}

/// A seat of a monitor.
pub(crate) fn seated<C: Condition<N>, const N: usize>(
    seat: GateSeat<C, N>,
    number: u8,
    alone: bool,
) -> Seat<C, N>
    requires { IsAtRest C.means seat.me × IsNumberOf number seat.me × ((the seat.me.0).at.held ≡ None) }
    ensures { result ≡ known_of seat.table_id seat.me }
{
    Caller {
        seat,
        number,
        hand: Free(0),
        alone,
    }
}

/// A section that has just begun, in the hand of this seat.
#[inline(always)]
pub(crate) fn holding<H: Renewed<C, N>, C: Condition<N>, const N: usize>(
    seat: GateSeat<C, N>,
    number: u8,
    alone: bool,
) -> Caller<H, C, N>
    requires rest { IsAtRest C.means seat.me × IsNumberOf number seat.me }
    requires fresh { IsFreshIn N H.mode (the seat.me.0).at.held }
    ensures { result ≡ known_of seat.table_id seat.me }
{
    let hand = H::begun();
    Caller {
        seat,
        number,
        hand,
        alone,
    }
}

/// Puts a seat behind the others.
fn add<C: Condition<N>, const N: usize>(
    seats: &mut Vec<Seat<C, N>>,
    seat: Seat<C, N>,
) -> Result<(), AllocError>
    ensures { OnOk result (seats.new.items ≡ seats.old.items ++ seat ∷ []) }
{
    seats.push(seat)?;
    Ok(())
}

impl<C: Condition<N>, const N: usize> Monitor<C, N> {
    /// A monitor with a free lock round a row of zeros, and its seats, one for each caller.
    ///
    /// Needs at least one seat. Refuses more than 64 seats (`TooManySeats`) before it takes any
    /// memory, and refuses where memory is refused (`OutOfMemory`).
    pub fn new(alloc: Global, seats: usize) -> Result<(Self, Vec<Seat<C, N>>), Fault>
        requires { 0 < seats }
        ensures made { IfOk result (λ r. (seats ≤ 64) × (length r.1.items ≡ seats) × AreNew seats r.0 0 r.1.items) }
        ensures seats { IfOk result (λ r. All (λ seat. seat.monitor ≡ r.0) r.1.items) }
        ensures refused { IfErr result (RefusesGate seats) }
    {
        let (gate, mut all) = Gate::new(alloc, seats)?;
        let mut given = Vec::new(alloc);
        for number in 0..seats {
            let seat = gate.part(&mut all);
            add(&mut given, seated(seat, number as u8, true))?;
        }
        Ok((Monitor { gate }, given))
    }

    /// Tries to acquire the lock for such a section.
    #[inline(always)]
    fn try_lock_as<H: Renewed<C, N>>(&self, seat: Seat<C, N>) -> Result<Caller<H, C, N>, Seat<C, N>>
        requires { seat.monitor ≡ self.now }
        ensures locked { IfOk result (λ held. HasLocked C.means (trying H.mode) H.mode seat held) }
        ensures busy { IfErr result (λ back. HasSeenMore C.means (trying H.mode) seat back) }
    {
        let Caller {
            mut seat,
            number,
            hand,
            mut alone,
        } = seat;
        let mut bound = Bound::new(&self.gate, &mut seat, number);
        if try_acquire(&mut bound, H::mode(), &mut alone) {
            bound.end();
            Ok(holding(seat, number, alone))
        } else {
            bound.end();
            Err(Caller {
                seat,
                number,
                hand,
                alone,
            })
        }
    }

    /// Tries to acquire the lock to write.
    ///
    /// Doesn't wait: the seat comes back where the lock is held, and may come back where the word
    /// changed meanwhile, or where others have waited long; then nothing has changed. Else the section
    /// that is given begins at the row after all that it has seen.
    pub fn try_lock(&self, seat: Seat<C, N>) -> Result<WriteHeld<C, N>, Seat<C, N>>
        requires { seat.monitor ≡ self.now }
        ensures locked { IfOk result (λ held. HasLocked C.means (trying Write) Write seat held) }
        ensures busy { IfErr result (λ back. HasSeenMore C.means (trying Write) seat back) }
    {
        self.try_lock_as(seat)
    }

    /// Tries to acquire the lock to read.
    ///
    /// As [`Monitor::try_lock`], but beside other readers; the seat comes back also where a writer
    /// waits.
    pub fn try_rlock(&self, seat: Seat<C, N>) -> Result<ReadHeld<C, N>, Seat<C, N>>
        requires { seat.monitor ≡ self.now }
        ensures locked { IfOk result (λ held. HasLocked C.means (trying Read) Read seat held) }
        ensures busy { IfErr result (λ back. HasSeenMore C.means (trying Read) seat back) }
    {
        self.try_lock_as(seat)
    }

    /// Begins to acquire the lock in this mode, and does it at once where the word lets it.
    ///
    /// The functions of the fast path are marked to be inlined, the public calls too, and what stands behind
    /// it as cold. Else a program with many calls keeps them apart, and hands the word, and the section, from
    /// one to the other in memory.
    #[inline(always)]
    pub(crate) fn begin_lock(&self, seat: Seat<C, N>, mode: Mode) -> Begun<C, N>
        requires { seat.monitor ≡ self.now }
        ensures of { result.seat.table_id ≡ self.now }
        ensures begun { HasBegun (locking mode) seat result.seat.table_id result.number result.seat.me }
        ensures went { WentAtOnce C.means (locking mode) result.last result.seat.me }
    {
        let Caller {
            mut seat,
            number,
            hand: _,
            mut alone,
        } = seat;
        let going = Going::Acquiring(Aim::ForLock(mode), Arrival::AsFresh);
        let mut bound = Bound::new(&self.gate, &mut seat, number);
        let last = go_at_once(&mut bound, going, Walk::lock(mode), &mut alone);
        bound.end();
        Begun {
            seat,
            number,
            alone,
            last,
        }
    }

    /// Acquires the lock to write, and waits as long as it has to. The section begins at the row after
    /// all that it has seen.
    #[inline(always)]
    pub fn lock<R: Wait>(&self, rt: &R, seat: Seat<C, N>) -> WriteHeld<C, N>
        requires { seat.monitor ≡ self.now }
        ensures { HasLocked C.means (locking Write) Write seat result }
    {
        Acting::new(self, seat).lock(rt).caller
    }

    /// Acquires the lock to read, beside other readers, and waits as long as it has to. The section
    /// begins at the row after all that it has seen.
    #[inline(always)]
    pub fn rlock<R: Wait>(&self, rt: &R, seat: Seat<C, N>) -> ReadHeld<C, N>
        requires { seat.monitor ≡ self.now }
        ensures { HasLocked C.means (locking Read) Read seat result }
    {
        Acting::new(self, seat).rlock(rt).caller
    }

    /// The value of a cell of the section's row.
    ///
    /// Needs a cell below `N`.
    pub fn get<H: Section<C, N>>(&self, held: &mut Caller<H, C, N>, i: usize) -> u64
        requires of { held.old.monitor ≡ self.now }
        requires cell { i < N }
        ensures saw { HasSeenMore C.means (getting i) held.old held.new }
        ensures wide { InHand held.old.held (λ section. length section.row ≡ N) }
        ensures value { InHand held.old.held (λ section. result ≡ slice_index section.row i) }
    {
        let cell = i as u8;
        let number = held.number;
        let mut seat = Bound::new(&self.gate, &mut held.seat, number);
        let value = seat.load_cell(Some(Walk::get(cell)), cell);
        seat.end();
        value
    }

    /// Sets a cell of the section's row to a value.
    ///
    /// Needs a cell below `N`.
    pub fn set(&self, held: &mut WriteHeld<C, N>, i: usize, value: u64)
        requires of { held.old.monitor ≡ self.now }
        requires cell { i < N }
        ensures grows { Grows C.means (setting i value) held.old held.new }
        ensures mine { held.new.mine ≡ held.old.mine }
        ensures wide { InHand held.old.held (λ section. length section.row ≡ N) }
        ensures section { InHand held.old.held (λ section. held.new.held ≡ Some (record section { row = slice_set section.row i value })) }
    {
        let cell = i as u8;
        let number = held.number;
        let mut seat = Bound::new(&self.gate, &mut held.seat, number);
        let old = seat.load_cell(Some(Walk::set(cell, value)), cell);
        seat.store_cell(cell, value);
        seat.end();
        held.hand.save(i, old);
    }

    /// Whether what the section has changed since it began is quiet: whether the condition type
    /// declares that such a change makes no false condition true.
    pub fn is_quiet(&self, held: &mut WriteHeld<C, N>) -> bool
        requires { held.old.monitor ≡ self.now }
        ensures saw { HasSeenMore C.means (judging N) held.old held.new }
        ensures quiet { InHand held.old.held (λ section. result ≡ C.means.quiet section.before section.row) }
    {
        let number = held.number;
        let mut seat = Bound::new(&self.gate, &mut held.seat, number);
        let row = load_to_judge(&mut seat);
        seat.end();
        let before = held.hand.before(&row);
        C::quiet(&before, &row)
    }

    /// Two callers compare what they have seen, with what they have in hand.
    #[inline(always)]
    fn meet_as<H: Hand<C, N>, K: Hand<C, N>>(
        &self,
        first: Caller<H, C, N>,
        second: Caller<K, C, N>,
    ) -> (Caller<H, C, N>, Caller<K, C, N>)
        requires { (first.monitor ≡ self.now) × (second.monitor ≡ self.now) }
        ensures share { ShareTheLock first.held second.held }
        ensures learned { HasLearned C.means first result.0 × HasLearned C.means second result.1 }
        ensures before { AreOfOneHistory first second }
        ensures after { result.1.seen ≡ result.0.seen }
    {
        let Caller {
            seat: one,
            number,
            hand,
            alone,
        } = first;
        let Caller {
            seat: other,
            number: other_number,
            hand: other_hand,
            alone: other_alone,
        } = second;
        let (one, other) = self.gate.meet(one, other);
        let first = Caller {
            seat: one,
            number,
            hand,
            alone,
        };
        let second = Caller {
            seat: other,
            number: other_number,
            hand: other_hand,
            alone: other_alone,
        };
        (first, second)
    }

    /// Both sections read, and their callers compare what they have seen: of what one had seen and
    /// what the other had, one begins the other, with just the events of both as their own; and now
    /// both have seen one history that begins with it.
    pub fn both_read<H: Section<C, N>, K: Section<C, N>>(
        &self,
        first: Caller<H, C, N>,
        second: Caller<K, C, N>,
    ) -> (Caller<H, C, N>, Caller<K, C, N>)
        requires { (first.monitor ≡ self.now) × (second.monitor ≡ self.now) }
        ensures read { HasMode Read first.held × HasMode Read second.held }
        ensures learned { HasLearned C.means first result.0 × HasLearned C.means second result.1 }
        ensures before { AreOfOneHistory first second }
        ensures after { result.1.seen ≡ result.0.seen }
    {
        first.attest();
        second.attest();
        self.meet_as(first, second)
    }

    /// Two callers compare what they have seen: of what one had seen and what the other had, one
    /// begins the other, with just the events of both as their own; and now both have seen one
    /// history that begins with it.
    pub fn meet(&self, first: Seat<C, N>, second: Seat<C, N>) -> (Seat<C, N>, Seat<C, N>)
        requires { (first.monitor ≡ self.now) × (second.monitor ≡ self.now) }
        ensures learned { HasLearned C.means first result.0 × HasLearned C.means second result.1 }
        ensures before { AreOfOneHistory first second }
        ensures after { result.1.seen ≡ result.0.seen }
    {
        self.meet_as(first, second)
    }

    /// Begins to release the section in hand, and does it at once where the word lets it: the section is
    /// committed as it is then, and the caller's events have it as their last.
    #[inline(always)]
    pub(crate) fn begin_unlock<H: Section<C, N> + Drop>(
        &self,
        held: Caller<H, C, N>,
        releasing: Releasing,
    ) -> Begun<C, N>
        requires of { held.monitor ≡ self.now }
        requires mode { mode_released releasing ≡ H.mode }
        requires quiet { IsQuietFor C.means releasing held.held }
        ensures of { result.seat.table_id ≡ self.now }
        ensures begun { HasBegun (releasing_by releasing) held result.seat.table_id result.number result.seat.me }
        ensures went { WentAtOnce C.means (releasing_by releasing) result.last result.seat.me }
    {
        let Caller {
            mut seat,
            number,
            hand: _,
            mut alone,
        } = held;
        let going = Going::Leaving(releasing);
        let mut bound = Bound::new(&self.gate, &mut seat, number);
        let last = go_at_once(&mut bound, going, Walk::release(releasing), &mut alone);
        bound.end();
        Begun {
            seat,
            number,
            alone,
            last,
        }
    }

    /// Ends a write section: it is committed as it is, and the caller's events have it as their last.
    ///
    /// Where waiters may be able to go on, it tests their conditions, here in this thread, and wakes
    /// those who can. It tries its exchange again where another has changed the word meanwhile, and goes
    /// round while another has the waiter queues.
    #[inline(always)]
    pub fn unlock<R: Wait>(&self, rt: &R, held: WriteHeld<C, N>) -> Seat<C, N>
        requires { held.monitor ≡ self.now }
        ensures grows { Grows C.means (releasing_by Writer) held result }
        ensures mine { InHand held.held (λ section. result.mine ≡ held.mine ++ section_of C.means.holds held.seat section TheExit.Plain ∷ []) }
    {
        Acting::new(self, held).unlock(rt).into_seat()
    }

    /// Ends a read section: it is committed, and the caller's events have it as their last.
    ///
    /// Goes round as [`Monitor::unlock`] does.
    #[inline(always)]
    pub fn runlock<R: Wait>(&self, rt: &R, held: ReadHeld<C, N>) -> Seat<C, N>
        requires { held.monitor ≡ self.now }
        ensures grows { Grows C.means (releasing_by Reader) held result }
        ensures mine { InHand held.held (λ section. result.mine ≡ held.mine ++ section_of C.means.holds held.seat section TheExit.Plain ∷ []) }
    {
        Acting::new(self, held).runlock(rt).into_seat()
    }

    /// Ends a write section that can't have made a false condition true: it is committed as it is, as
    /// [`Monitor::unlock`] does, but waiters whose conditions are known to be false aren't tested.
    ///
    /// Needs a section that is quiet, by [`Monitor::is_quiet`].
    pub fn unlock_without_wakeup<R: Wait>(&self, rt: &R, held: WriteHeld<C, N>) -> Seat<C, N>
        requires of { held.monitor ≡ self.now }
        requires quiet { InHand held.held (λ section. C.means.quiet section.before section.row ≡ true) }
        ensures grows { Grows C.means (releasing_by QuietWriter) held result }
        ensures mine { InHand held.held (λ section. result.mine ≡ held.mine ++ section_of C.means.holds held.seat section TheExit.Plain ∷ []) }
    {
        Acting::new(self, held)
            .unlock_without_wakeup(rt)
            .into_seat()
    }

    /// Ends the monitor, and tells the cells as they stand, and whether the lock is free. Where it
    /// is, they are the row after a history that begins with all that the seat has seen.
    ///
    /// The other seats may be dropped, or have a section in hand: then the lock is held, and the
    /// cells show also what a writer has not committed.
    pub fn close(self, seat: Seat<C, N>) -> Closed<N>
        requires { seat.monitor ≡ self }
        ensures { EndsAs C.means seat result.row result.free }
    {
        let Monitor { gate } = self;
        let Caller { seat, .. } = seat;
        gate.close(seat)
    }
}
