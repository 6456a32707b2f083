//! Handles: a caller of a monitor together with the monitor that it is of.
//!
//! That a seat or a section is of this monitor is an invariant of the handle's type. So a program over handles
//! needs no clause and no loop invariant that says it, but where two meet, and for `close`. Each call does what
//! the monitor's call of the same name does, for the seat or the section that the handle has, and promises what
//! that does. What locks and releases at once has its body here, and the monitor's calls make a handle for it: a
//! call of a function that may wait takes instructions, which programs by handles are spared.

ghost use Rattle.std.specs.Prelude.{◌≡◌, ◌<◌, ◌++◌, [], ◌∷◌, true, Some, IfErr, IfOk, length, slice_index, slice_set};
ghost use Rattle.ns_model.specs.declared.event.Exit.TheVariants as TheExit;
ghost use Rattle.ns_monitor.specs.Prelude.{AreOfOneHistory, Broadcasting, Grows, HasLearned, HasLocked, HasMode, HasSeenMore, HasWoken, InHand, QuietWriter, Read, Reader, ShowsState, Signaling, Write, Writer, getting, judging, locking, releasing_by, section_of, setting, showing, trying, waking_by};

use crate::caller::{Caller, Free, Hand, Reading as Reads, Seat, Section, Writing as Writes};
use crate::going::{Begun, locked, released};
use crate::monitor::{Monitor, holding, seated};
use crate::showing::DebugState;
use ns_model::condition::Condition;
use ns_model::event::Mode;
use ns_word::word::Releasing;
use std::marker::Model;
use std::sync::Wait;

/// A caller of a monitor, with what it has in hand, and the monitor, which it borrows.
///
/// For contracts it is what its caller is. The fields are public for crates that call the monitor with them,
/// as ns_objects does.
#[derive(Drop)]
pub struct Acting<'m, H: Hand<C, N>, C: Condition<N>, const N: usize> {
    /// The monitor.
    pub monitor: &'m Monitor<C, N>,
    /// The seat, or the section, which is of this monitor.
    pub caller: Caller<H, C, N>,
}

impl<'m, H: Hand<C, N>, C: Condition<N>, const N: usize> Model for Acting<'m, H, C, N> {
    ghost use Rattle.std.specs.Prelude.{◌≡◌};
    ghost use Rattle.ns_monitor.specs.Known.{Known};

    ghost Value = { Known C N };

    ghost view = { λ a. a.caller };

    ghost invariant = { λ a. a.caller.monitor ≡ a.monitor.now };
}

/// A thread's own lock: a seat of a monitor, with no section in hand.
pub type Handle<'m, C, const N: usize> = Acting<'m, Free, C, N>;

/// A handle with a write section in hand.
pub type Writing<'m, C, const N: usize> = Acting<'m, Writes<N>, C, N>;

/// A handle with a read section in hand.
pub type Reading<'m, C, const N: usize> = Acting<'m, Reads, C, N>;

impl<'m, H: Hand<C, N>, C: Condition<N>, const N: usize> Acting<'m, H, C, N> {
    /// A seat, or a section, together with its monitor.
    #[inline(always)]
    pub fn new(monitor: &'m Monitor<C, N>, caller: Caller<H, C, N>) -> Self
        requires { caller.monitor ≡ monitor.now }
        ensures { result ≡ caller }
    {
        Acting { monitor, caller }
    }

    /// How the monitor stands at one moment of the call, as [`Monitor::debug_state_and_waiters`] tells it.
    pub fn debug_state_and_waiters<R: Wait>(&mut self, rt: &R) -> DebugState
        ensures saw { HasSeenMore C.means showing self.old self.new }
        ensures shows { ShowsState C.means result self.old self.new }
    {
        self.monitor.debug_state_and_waiters(rt, &mut self.caller)
    }

    /// Wakes at least one who waits for this condition variable, if anybody does, as [`Monitor::signal`].
    ///
    /// Needs a variable below 4.
    #[inline(always)]
    pub fn signal<R: Wait>(&mut self, rt: &R, k: u8)
        requires { k < 4 }
        ensures grows { Grows C.means (waking_by Signaling k) self.old self.new }
        ensures woke { HasWoken Signaling k self.old self.new }
    {
        self.monitor.signal(rt, &mut self.caller, k);
    }

    /// Wakes everybody who waits for this condition variable, as [`Monitor::broadcast`].
    ///
    /// Needs a variable below 4.
    #[inline(always)]
    pub fn broadcast<R: Wait>(&mut self, rt: &R, k: u8)
        requires { k < 4 }
        ensures grows { Grows C.means (waking_by Broadcasting k) self.old self.new }
        ensures woke { HasWoken Broadcasting k self.old self.new }
    {
        self.monitor.broadcast(rt, &mut self.caller, k);
    }
}

impl<'m, C: Condition<N>, const N: usize> Acting<'m, Free, C, N> {
    /// The seat, as for [`Monitor::close`].
    #[inline(always)]
    pub fn into_seat(self) -> Seat<C, N>
        ensures { result ≡ self.entry }
    {
        let Acting { monitor: _, caller } = self;
        caller
    }

    /// Acquires the lock to write, and waits as long as it has to, as [`Monitor::lock`].
    #[inline(always)]
    pub fn lock<R: Wait>(self, rt: &R) -> Writing<'m, C, N>
        ensures { HasLocked C.means (locking Write) Write self.entry result }
    {
        let Acting { monitor, caller } = self;
        let caller = locked!(monitor, rt, caller, Mode::Write);
        Acting { monitor, caller }
    }

    /// Acquires the lock to read, and waits as long as it has to, as [`Monitor::rlock`].
    #[inline(always)]
    pub fn rlock<R: Wait>(self, rt: &R) -> Reading<'m, C, N>
        ensures { HasLocked C.means (locking Read) Read self.entry result }
    {
        let Acting { monitor, caller } = self;
        let caller = locked!(monitor, rt, caller, Mode::Read);
        Acting { monitor, caller }
    }

    /// Tries to acquire the lock to write, without waiting. The handle comes back where it can't, as from
    /// [`Monitor::try_lock`].
    #[inline(always)]
    pub fn try_lock(self) -> Result<Writing<'m, C, N>, Handle<'m, C, N>>
        ensures locked { IfOk result (λ held. HasLocked C.means (trying Write) Write self.entry held) }
        ensures busy { IfErr result (λ back. HasSeenMore C.means (trying Write) self.entry back) }
    {
        let Acting { monitor, caller } = self;
        match monitor.try_lock(caller) {
            Ok(caller) => Ok(Acting { monitor, caller }),
            Err(caller) => Err(Acting { monitor, caller }),
        }
    }

    /// Tries to acquire the lock to read, without waiting. The handle comes back where it can't, as from
    /// [`Monitor::try_rlock`].
    #[inline(always)]
    pub fn try_rlock(self) -> Result<Reading<'m, C, N>, Handle<'m, C, N>>
        ensures locked { IfOk result (λ held. HasLocked C.means (trying Read) Read self.entry held) }
        ensures busy { IfErr result (λ back. HasSeenMore C.means (trying Read) self.entry back) }
    {
        let Acting { monitor, caller } = self;
        match monitor.try_rlock(caller) {
            Ok(caller) => Ok(Acting { monitor, caller }),
            Err(caller) => Err(Acting { monitor, caller }),
        }
    }

    /// Two callers compare what they have seen, as by [`Monitor::meet`].
    ///
    /// Needs handles of one monitor.
    pub fn meet(self, other: Self) -> (Self, Self)
        requires { self.monitor ≡ other.monitor }
        ensures learned { HasLearned C.means self.entry result.0 × HasLearned C.means other.entry result.1 }
        ensures before { AreOfOneHistory self.entry other.entry }
        ensures after { result.1.seen ≡ result.0.seen }
    {
        let Acting { monitor, caller } = self;
        let Acting { caller: second, .. } = other;
        let (caller, second) = monitor.meet(caller, second);
        let first = Acting { monitor, caller };
        let caller = second;
        (first, Acting { monitor, caller })
    }
}

impl<'m, H: Section<C, N>, C: Condition<N>, const N: usize> Acting<'m, H, C, N> {
    /// The value of a cell of the section's row, as by [`Monitor::get`].
    ///
    /// Needs a cell below `N`.
    #[inline(always)]
    pub fn get(&mut self, i: usize) -> u64
        requires { i < N }
        ensures saw { HasSeenMore C.means (getting i) self.old self.new }
        ensures wide { InHand self.old.held (λ section. length section.row ≡ N) }
        ensures value { InHand self.old.held (λ section. result ≡ slice_index section.row i) }
    {
        self.monitor.get(&mut self.caller, i)
    }

    /// Two callers whose sections both read compare what they have seen, as by [`Monitor::both_read`].
    ///
    /// Needs handles of one monitor.
    pub fn both_read<K: Section<C, N>>(
        self,
        other: Acting<'m, K, C, N>,
    ) -> (Self, Acting<'m, K, C, N>)
        requires { self.monitor ≡ other.monitor }
        ensures read { HasMode Read self.entry.held × HasMode Read other.entry.held }
        ensures learned { HasLearned C.means self.entry result.0 × HasLearned C.means other.entry result.1 }
        ensures before { AreOfOneHistory self.entry other.entry }
        ensures after { result.1.seen ≡ result.0.seen }
    {
        let Acting { monitor, caller } = self;
        let Acting { caller: second, .. } = other;
        let (caller, second) = monitor.both_read(caller, second);
        let first = Acting { monitor, caller };
        let caller = second;
        (first, Acting { monitor, caller })
    }
}

impl<'m, C: Condition<N>, const N: usize> Acting<'m, Reads, C, N> {
    /// Ends a read section, as [`Monitor::runlock`].
    #[inline(always)]
    pub fn runlock<R: Wait>(self, rt: &R) -> Handle<'m, C, N>
        ensures grows { Grows C.means (releasing_by Reader) self.entry result }
        ensures mine { InHand self.entry.held (λ section. result.mine ≡ self.entry.mine ++ section_of C.means.holds self.entry.seat section TheExit.Plain ∷ []) }
    {
        let Acting { monitor, caller } = self;
        let caller = released!(monitor, rt, caller, Releasing::Reader);
        Acting { monitor, caller }
    }
}

impl<'m, C: Condition<N>, const N: usize> Acting<'m, Writes<N>, C, N> {
    /// Sets a cell of the section's row to a value, as [`Monitor::set`].
    ///
    /// Needs a cell below `N`.
    #[inline(always)]
    pub fn set(&mut self, i: usize, value: u64)
        requires { i < N }
        ensures grows { Grows C.means (setting i value) self.old self.new }
        ensures mine { self.new.mine ≡ self.old.mine }
        ensures wide { InHand self.old.held (λ section. length section.row ≡ N) }
        ensures section { InHand self.old.held (λ section. self.new.held ≡ Some (record section { row = slice_set section.row i value })) }
    {
        self.monitor.set(&mut self.caller, i, value);
    }

    /// Whether what the section has changed since it began is quiet, as [`Monitor::is_quiet`] tells it.
    #[inline(always)]
    pub fn is_quiet(&mut self) -> bool
        ensures saw { HasSeenMore C.means (judging N) self.old self.new }
        ensures quiet { InHand self.old.held (λ section. result ≡ C.means.quiet section.before section.row) }
    {
        self.monitor.is_quiet(&mut self.caller)
    }

    /// Ends a write section, and wakes those who can go on, as [`Monitor::unlock`].
    #[inline(always)]
    pub fn unlock<R: Wait>(self, rt: &R) -> Handle<'m, C, N>
        ensures grows { Grows C.means (releasing_by Writer) self.entry result }
        ensures mine { InHand self.entry.held (λ section. result.mine ≡ self.entry.mine ++ section_of C.means.holds self.entry.seat section TheExit.Plain ∷ []) }
    {
        let Acting { monitor, caller } = self;
        let caller = released!(monitor, rt, caller, Releasing::Writer);
        Acting { monitor, caller }
    }

    /// Ends a write section that can't have made a false condition true, as [`Monitor::unlock_without_wakeup`].
    ///
    /// Needs a section that is quiet, by [`Acting::is_quiet`].
    #[inline(always)]
    pub fn unlock_without_wakeup<R: Wait>(self, rt: &R) -> Handle<'m, C, N>
        requires { InHand self.held (λ section. C.means.quiet section.before section.row ≡ true) }
        ensures grows { Grows C.means (releasing_by QuietWriter) self.entry result }
        ensures mine { InHand self.entry.held (λ section. result.mine ≡ self.entry.mine ++ section_of C.means.holds self.entry.seat section TheExit.Plain ∷ []) }
    {
        let Acting { monitor, caller } = self;
        let caller = released!(monitor, rt, caller, Releasing::QuietWriter);
        Acting { monitor, caller }
    }
}
