//! Waits for any of several condition variables, in three calls: one leaves its section and begins to
//! wait, one asks whether it was woken, and one ends the wait.
//!
//! So a caller may look at whatever else it waits for between two of them, as nsync's `nsync_wait_n` does
//! inside.

ghost use Rattle.std.specs.Prelude.{◌≡◌, Some, None, []};
ghost use Rattle.ns_monitor.specs.Prelude.{AreSome, ForWait, HasBegunToWait, HasComeBackFromAny, IfStill, IfWoken, IsNumberOf, IsWaitingForAny, WaitsStill, the, waits_for_any};

use crate::acquiring::acquire;
use crate::caller::{Caller, Renewed};
use crate::monitor::{Monitor, holding};
use crate::variables::queue_at_variables;
use crate::waiting::come_back;
use crate::watching::EndedWatch;
use ns_env::limits::Limits;
use ns_gate::bound::Bound;
use ns_gate::gate::GateSeat;
use ns_model::condition::Condition;
use ns_model::cvs::{Cvs, Variables};
use ns_model::event::Mode;
use ns_word::owed::variable_told;
use ns_word::wait::{Aim, Outcome, Subject, Wait as Waiting, WaitPlace, arrival_of};
use ns_word::walk::Walk;
use std::marker::{Model, PhantomData};
use std::sync::Wait;

/// A wait for any of several condition variables that was begun and isn't over.
///
/// For contracts it carries what its caller knows, as [`Caller`] does, and the variables. Where it is
/// dropped, its seat stays among the waiters of these variables, and a signal may be spent on it; where
/// that has moved it to the waiters for the lock, and a release has woken it, no release wakes any other
/// from then on. So it should be asked again soon.
#[derive(Drop)]
pub struct AnyWaiting<H: Renewed<C, N>, C: Condition<N>, const N: usize> {
    /// The seat of the gate, which carries what is known.
    seat: GateSeat<C, N>,
    /// The seat's number.
    number: u8,
    /// The variables.
    cvs: Cvs,
    /// What it comes back with.
    back: PhantomData<H>,
}

impl<H: Renewed<C, N>, C: Condition<N>, const N: usize> Model for AnyWaiting<H, C, N> {
    ghost use Rattle.ns_monitor.specs.Known.{known_of};
    ghost use Rattle.ns_monitor.specs.Several.{IsWaitingForAny, WaitKnown};
    ghost use Rattle.ns_monitor.specs.Standing.{IsNumberOf};

    ghost Value = { WaitKnown C N };

    ghost view = { λ w. record { known = known_of w.seat.table_id w.seat.me; cvs = w.cvs } };

    ghost invariant = { λ w. IsWaitingForAny C.means H.Section.mode w.cvs w.seat.me × IsNumberOf w.number w.seat.me };
}

/// What came of asking whether a wait for any of several condition variables was woken: a section, or the
/// wait still.
#[derive(Drop)]
pub enum AnyPoll<S, W> {
    /// It was woken, and has come back with this section; by a signal or a broadcast of the variable of this
    /// number.
    Woken(S, u8),
    /// It waits still.
    Still(W),
}

/// What a wait in this mode is for any of these variables: its caller may end it at any time.
fn for_any<C: Copy>(mode: Mode, cvs: Cvs) -> Waiting<C>
    ensures { result ≡ waits_for_any mode cvs }
{
    let on = Subject::OnVariables(Variables::Any(cvs));
    let limits = Limits {
        deadline: Some(0),
        note: None,
    };
    Waiting { mode, on, limits }
}

impl<C: Condition<N>, const N: usize> Monitor<C, N> {
    /// Leaves its section and begins to wait for any of these condition variables.
    ///
    /// In one step the section is committed and the caller stands among the waiters of each of them: no
    /// signal and no broadcast comes between the two. It wakes those waiters who can go on, and returns
    /// without waiting for the lock; but it waits while another call has the waiter queues.
    ///
    /// The behaviour is that of nsync's `nsync_wait_n` where it has put the caller into every queue. Needs
    /// at least one variable, and each below 4.
    pub fn any_begin<H: Renewed<C, N>, R: Wait>(
        &self,
        rt: &R,
        held: Caller<H, C, N>,
        cvs: Cvs,
    ) -> AnyWaiting<H, C, N>
        requires of { held.monitor ≡ self.now }
        requires variables { AreSome cvs }
        ensures { HasBegunToWait C.means H.mode cvs held result }
    {
        let Caller { seat, number, .. } = held;
        let mut seat = seat;
        let mode = H::mode();
        let wait = for_any(mode, cvs);
        let mut bound = Bound::new(&self.gate, &mut seat, number);
        queue_at_variables(rt, &mut bound, wait);
        bound.end();
        AnyWaiting {
            seat,
            number,
            cvs,
            back: PhantomData,
        }
    }

    /// Asks whether a wait for any of several variables was woken. Where it was, acquires the lock again,
    /// in the mode of the section that was left, and gives the section and the number of the variable whose
    /// signal or broadcast took it. Else it gives the wait back, with nothing changed: in some lawful state
    /// between what the caller had seen and what it has seen then, it stood where it waits, and nobody had
    /// woken it.
    ///
    /// Waits for the lock only where it was woken. The behaviour is that of `nsync_wait_n` where it looks
    /// whether it was woken. Needs a wait of this monitor.
    pub fn any_poll<H: Renewed<C, N>, R: Wait>(
        &self,
        rt: &R,
        waiting: AnyWaiting<H, C, N>,
    ) -> AnyPoll<Caller<H, C, N>, AnyWaiting<H, C, N>>
        requires of { waiting.known.monitor ≡ self.now }
        ensures woken { IfWoken result (λ back k. HasComeBackFromAny C.means H.mode (Some k) waiting back) }
        ensures still { IfStill result (λ still. WaitsStill C.means waiting still) }
    {
        let AnyWaiting {
            mut seat,
            number,
            cvs,
            back,
        } = waiting;
        let mode = H::mode();
        let wait = for_any(mode, cvs);
        let mut bound = Bound::new(&self.gate, &mut seat, number);
        let flag = bound.load_flag();
        if flag == 1 {
            bound.look(wait.limits, false, None);
            bound.end();
            return AnyPoll::Still(AnyWaiting {
                seat,
                number,
                cvs,
                back,
            });
        }
        let k = variable_told(flag);
        let aim = Aim::ForWait(wait, Outcome::Woken(Some(k)));
        acquire(rt, &mut bound, aim, arrival_of(0, flag));
        bound.end();
        AnyPoll::Woken(holding(seat, number, false), k)
    }

    /// Ends a wait for any of several variables, acquires the lock again, in the mode of the section that
    /// was left, and gives the section. Where a signal or a broadcast had taken the wait already, it also
    /// gives the number of the variable that this was of: a wake is never lost. Else it has left all the
    /// variables before any took it.
    ///
    /// Waits for the lock, while another call has the waiter queues, and where somebody owes it a wake until
    /// that has come. The behaviour is that of `nsync_wait_n` where it takes the caller out of every queue.
    /// Needs a wait of this monitor.
    pub fn any_leave<H: Renewed<C, N>, R: Wait>(
        &self,
        rt: &R,
        waiting: AnyWaiting<H, C, N>,
    ) -> (Caller<H, C, N>, Option<u8>)
        requires of { waiting.known.monitor ≡ self.now }
        ensures { HasComeBackFromAny C.means H.mode result.1 waiting result.0 }
    {
        let AnyWaiting {
            mut seat,
            number,
            cvs,
            back: _,
        } = waiting;
        let mode = H::mode();
        let wait = for_any(mode, cvs);
        let mut bound = Bound::new(&self.gate, &mut seat, number);
        let outcome = come_back(rt, &mut bound, wait, &mut EndedWatch);
        bound.end();
        let by = outcome.variable();
        (holding(seat, number, false), by)
    }
}
