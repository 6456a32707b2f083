//! The steps on the seats' flags, sleeping on them, which is no step, and the look, which is made by a load of one.

ghost use Rattle.std.specs.Prelude.{◌≡◌, ◌+◌, ◌<◌, None};
ghost use Rattle.ns_gate.specs.Prelude.{owes_more, CanStep, HasMade, IsOwedNext, MayShow, the};

use crate::bound::Bound;
use crate::boxed::BoxedQueues;
use crate::plays::{Law, Look};
use crate::view::View;
use ns_env::limits::{Cause, Limits};
use ns_model::condition::Condition;
use ns_seats::saying::load_saying;
use ns_word::act::{Act, Found};
use ns_word::owed::Owed;
use std::sync::Wait;
use std::time::Duration;

/// The number of a flag that is set.
const SET: u32 = 1;

impl<C: Condition<N>, const N: usize> Bound<'_, C, N> {
    /// The word that has the seat's own flag.
    ///
    /// A seat sleeps at its own alone: no clause could speak of a sleep at another's.
    #[inline(always)]
    fn own_flag(&self) -> usize
        ensures { (result ≡ (the self.now.me.0).at.seat + (N + 1)) × (result < N + 65) }
    {
        usize::from(self.number) + (N + 1)
    }

    /// Sets the seat's own flag.
    ///
    /// Needs a call that wants that next.
    pub fn arm_flag(&mut self)
        requires { CanStep C.means None Act.ArmFlag self.old.me }
        ensures { HasMade C.means None Act.ArmFlag Found.Made self.old self.new }
    {
        let flag = self.own_flag();
        self.store_at(flag, u64::from(SET));
    }

    /// Loads the seat's own flag: 1 while it is set.
    ///
    /// Needs a call that wants that next.
    pub fn load_flag(&mut self) -> u8
        requires { CanStep C.means None Act.LoadFlag self.old.me }
        ensures { HasMade C.means None Act.LoadFlag (Found.Flag result) self.old self.new }
    {
        let flag = self.own_flag();
        self.load_at(None, flag) as u8
    }

    /// Pays this wake: stores its value into the flag of the seat that it is owed to, and wakes that one
    /// if it sleeps there.
    ///
    /// Needs a call that wants that next, and the wake that it owes next, to a number below 64.
    pub fn pay_wake(&mut self, wake: Owed)
        requires owed { IsOwedNext wake (the self.old.me.0).at.owed × (wake.seat < 64) }
        requires can { CanStep C.means None Act.PayWake self.old.me }
        ensures { HasMade C.means None Act.PayWake (owes_more (the self.old.me.0).at.owed) self.old self.new }
    {
        let flag = usize::from(wake.seat) + (N + 1);
        self.store_at(flag, u64::from(wake.value));
        let gate = self.gate;
        gate.table.shared.wake_one(flag);
    }

    /// Tells a seat's call what the look that it wants next has shown. A look changes no word of the
    /// gate, so any load may be told of it; this one, of the seat's own flag, is made for that. That flag
    /// lies in this thread's cache already, and by the load the view is never behind the call.
    ///
    /// Needs a call that wants that next, and something that such a look may show.
    pub fn look(&mut self, _limits: Limits, _again: bool, cause: Option<Cause>)
        requires may { MayShow _limits cause }
        requires can { CanStep C.means None (Act.Look _limits _again) self.old.me }
        ensures { HasMade C.means None (Act.Look _limits _again) (Found.Looked cause) self.old self.new }
    {
        let flag = self.own_flag();
        let gate = self.gate;
        let shared = &gate.table.shared;
        load_saying::<BoxedQueues<C, N>, View<C, N>, u8, Law<C, N>, Option<Cause>, Look<C, N>>(
            shared, self.seat, flag, &cause,
        );
    }

    /// Sleeps while the seat's own flag is set, or for less. Whoever clears it wakes the sleeper.
    pub fn park<R: Wait>(&self, rt: &R) {
        let flag = self.own_flag();
        let gate = self.gate;
        gate.table.shared.park(rt, flag, SET);
    }

    /// Sleeps while the seat's own flag is set, for at most this long, or for less. Whoever clears it
    /// wakes the sleeper.
    pub fn park_timeout<R: Wait>(&self, rt: &R, longest: Duration) {
        let flag = self.own_flag();
        let gate = self.gate;
        gate.table.shared.park_timeout(rt, flag, SET, longest);
    }
}
