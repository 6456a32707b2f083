//! The waits of handles: for a condition on the row, and for condition variables.

ghost use Rattle.std.specs.Prelude.{◌≡◌, ◌<◌, ◌⊎◌, ◌||◌, is_some, None, IfSome, Some, true};
ghost use Rattle.ns_monitor.specs.Prelude.{AreSome, EndedBy, Grows, HadLooked, HasBegunToWait, HasComeBackFromAny, HasWaitedFor, HasWaitedForVariable, IfStill, IfWoken, IsMade, WaitsStill, variable_waiting, waiting};
ghost use Rattle.ns_note.specs.Known.{Grows as EnvGrows};

use crate::caller::Renewed;
use crate::handle::Acting;
use crate::monitor::Monitor;
use crate::several::{AnyPoll, AnyWaiting};
use crate::watching::{Looker, watched};
use ns_env::limits::Limits;
use ns_model::condition::Condition;
use ns_model::cvs::Cvs;
use ns_model::event::Answer;
use ns_note::note::{Note, index_of};
use ns_note::watcher::Watcher;
use std::marker::Model;
use std::sync::Wait;

/// A wait for any of several condition variables that was begun and isn't over, and its monitor.
///
/// For contracts it is what the wait is. Where it is dropped, what [`AnyWaiting`] says of that is so.
#[derive(Drop)]
pub struct WaitingForAny<'m, H: Renewed<C, N>, C: Condition<N>, const N: usize> {
    /// The monitor.
    pub monitor: &'m Monitor<C, N>,
    /// The wait, which is of this monitor.
    pub waiting: AnyWaiting<H, C, N>,
}

impl<'m, H: Renewed<C, N>, C: Condition<N>, const N: usize> Model for WaitingForAny<'m, H, C, N> {
    ghost use Rattle.std.specs.Prelude.{◌≡◌};
    ghost use Rattle.ns_monitor.specs.Several.{WaitKnown};

    ghost Value = { WaitKnown C N };

    ghost view = { λ w. w.waiting };

    ghost invariant = { λ w. w.waiting.known.monitor ≡ w.monitor.now };
}

impl<'m, H: Renewed<C, N>, C: Condition<N>, const N: usize> Acting<'m, H, C, N> {
    /// Waits until the condition is true of the row, as [`Monitor::wait`].
    #[inline(always)]
    pub fn wait<R: Wait>(self, rt: &R, condition: C) -> Self
        ensures grows { Grows C.means (waiting N H.mode condition None None) self.entry result }
        ensures waited { HasWaitedFor C.means condition Answer.Met self.entry result }
    {
        let Acting { monitor, caller } = self;
        let caller = monitor.wait(rt, caller, condition);
        Acting { monitor, caller }
    }

    /// Waits until the condition is true of the row, and returns earlier once its note is notified or its
    /// deadline, in ticks, has come, as [`Monitor::wait_with_deadline`].
    ///
    /// Needs a note, if one is given, that the watcher has seen made.
    #[inline(always)]
    pub fn wait_with_deadline<R: Wait>(
        self,
        rt: &R,
        condition: C,
        deadline: Option<u64>,
        note: Option<Note>,
        watcher: &mut Watcher<'_>,
    ) -> (Self, Answer)
        requires { IfSome note (λ n. IsMade watcher.old.seen n.index) }
        ensures grows { Grows C.means (waiting N H.mode condition deadline note) self.entry result.0 }
        ensures waited { HasWaitedFor C.means condition result.1 self.entry result.0 }
        ensures env_grows { EnvGrows watcher.old watcher.new }
        ensures env_mine { watcher.new.mine ≡ watcher.old.mine }
        ensures ended { EndedBy note deadline watcher.old.seen watcher.new.seen result.1 }
        ensures looked { (is_some deadline || is_some note) ≡ true → (result.0.mine ≡ self.entry.mine) ⊎ HadLooked note deadline watcher.old.seen watcher.new.seen }
    {
        let Acting { monitor, caller } = self;
        let limits = Limits {
            deadline,
            note: index_of(note),
        };
        let seat = &mut watcher.seat;
        let (caller, answer) = watched!(
            watcher.env,
            seat,
            looker,
            monitor.wait_by(rt, caller, condition, limits, &mut looker)
        );
        (Acting { monitor, caller }, answer)
    }

    /// Leaves its section and waits for a condition variable, until that is woken, its note is notified or its
    /// deadline, in ticks, has come, as [`Monitor::cv_wait_with_deadline`].
    ///
    /// Needs a variable below 4; and a note, if one is given, that the watcher has seen made.
    #[inline(always)]
    pub fn cv_wait_with_deadline<R: Wait>(
        self,
        rt: &R,
        k: u8,
        deadline: Option<u64>,
        note: Option<Note>,
        watcher: &mut Watcher<'_>,
    ) -> (Self, Answer)
        requires variable { k < 4 }
        requires made { IfSome note (λ n. IsMade watcher.old.seen n.index) }
        ensures grows { Grows C.means (variable_waiting N H.mode k deadline note) self.entry result.0 }
        ensures waited { HasWaitedForVariable C.means k result.1 self.entry result.0 }
        ensures env_grows { EnvGrows watcher.old watcher.new }
        ensures env_mine { watcher.new.mine ≡ watcher.old.mine }
        ensures ended { EndedBy note deadline watcher.old.seen watcher.new.seen result.1 }
    {
        let Acting { monitor, caller } = self;
        let (caller, answer) = monitor.cv_wait_with_deadline(
            rt,
            caller,
            k,
            deadline,
            note,
            watcher.env,
            &mut watcher.seat,
        );
        (Acting { monitor, caller }, answer)
    }

    /// Leaves its section and begins to wait for any of these condition variables, as [`Monitor::any_begin`].
    ///
    /// Needs at least one variable, and each below 4.
    pub fn any_begin<R: Wait>(self, rt: &R, cvs: Cvs) -> WaitingForAny<'m, H, C, N>
        requires { AreSome cvs }
        ensures { HasBegunToWait C.means H.mode cvs self.entry result }
    {
        let Acting { monitor, caller } = self;
        let waiting = monitor.any_begin(rt, caller, cvs);
        WaitingForAny { monitor, waiting }
    }
}

impl<'m, H: Renewed<C, N>, C: Condition<N>, const N: usize> WaitingForAny<'m, H, C, N> {
    /// Asks whether the wait was woken, and gives the section or the wait back, as [`Monitor::any_poll`].
    pub fn any_poll<R: Wait>(self, rt: &R) -> AnyPoll<Acting<'m, H, C, N>, Self>
        ensures woken { IfWoken result (λ back k. HasComeBackFromAny C.means H.mode (Some k) self.entry back) }
        ensures still { IfStill result (λ still. WaitsStill C.means self.entry still) }
    {
        let WaitingForAny { monitor, waiting } = self;
        match monitor.any_poll(rt, waiting) {
            AnyPoll::Woken(caller, k) => AnyPoll::Woken(Acting { monitor, caller }, k),
            AnyPoll::Still(waiting) => AnyPoll::Still(WaitingForAny { monitor, waiting }),
        }
    }

    /// Ends the wait and gives the section, with the variable whose wake had come before, if one had, as
    /// [`Monitor::any_leave`].
    pub fn any_leave<R: Wait>(self, rt: &R) -> (Acting<'m, H, C, N>, Option<u8>)
        ensures { HasComeBackFromAny C.means H.mode result.1 self.entry result.0 }
    {
        let WaitingForAny { monitor, waiting } = self;
        let (caller, by) = monitor.any_leave(rt, waiting);
        (Acting { monitor, caller }, by)
    }
}
