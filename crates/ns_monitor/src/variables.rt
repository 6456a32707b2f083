//! Condition variables: a wait that leaves its section until somebody wakes it.

ghost use Rattle.std.specs.Prelude.{◌≡◌, ◌<◌, Some, [], true, IfSome};
ghost use Rattle.ns_gate.specs.Prelude.{AwaitWakeInWait, ForWait, HasMadeSteps, InWait, IsAtPlace, IsAtRest, IsInRange, IsMade, PlaceFits, is_limited, the, wait_first};
ghost use Rattle.ns_note.specs.Known.{Grows as EnvGrows};
ghost use Rattle.ns_monitor.specs.Prelude.{EndedBy, Grows, HasAcquired, HasLeftToWait, HasMadeStepsTo, HasWaitedForVariable, IfAnswered, IfEnded, IsForVariables, queuing_first, variable_waiting, waits_for_variable};

use crate::caller::{Caller, Renewed};
use crate::loops::take;
use crate::monitor::{Monitor, holding};
use crate::scanning::Queuing;
use crate::waiting::{come_back, leave_section};
use crate::watching::{Looker, Watch, watched};
use ns_env::limits::Limits;
use ns_gate::bound::Bound;
use ns_model::condition::Condition;
use ns_model::cvs::Variables;
use ns_model::event::Answer;
use ns_note::env::Env;
use ns_note::note::{Note, index_of};
use ns_note::seat::EnvSeat;
use ns_word::wait::{Outcome, QueuePlace, Subject, Wait as Waiting, WaitPlace};
use ns_word::walk::Walk;
use std::sync::Wait;

/// Begins a wait for variables: leaves the section in hand, puts the seat into the lists of the variables, and
/// wakes those waiters who can go on.
pub(crate) fn queue_at_variables<R: Wait, C: Condition<N>, const N: usize>(
    rt: &R,
    seat: &mut Bound<'_, C, N>,
    wait: Waiting<C>,
)
    requires rest { IsAtRest C.means seat.old.me }
    requires variables { IsForVariables wait.on × IsInRange wait.on }
    requires fits { PlaceFits C.means (Some (queuing_first wait)) (the seat.old.me.0).at.held }
    ensures { HasMadeStepsTo (Some (queuing_first wait)) (HasLeftToWait C.means wait) seat.old seat.new }
{
    let place = Walk::InWait(wait, WaitPlace::InQueuing(false, QueuePlace::Load));
    let word = take(rt, seat, Some(place), place);
    let mut row = [0; N];
    let queuing = Queuing { wait, again: false };
    leave_section(rt, seat, queuing, word, &mut row);
}

/// Waits for variables until it is woken, or what watches for its limits ends the wait. Answers what came
/// of it.
fn wait_at_variables<R: Wait, W: Watch, C: Condition<N>, const N: usize>(
    rt: &R,
    seat: &mut Bound<'_, C, N>,
    wait: Waiting<C>,
    watch: &mut W,
) -> Outcome
    requires rest { IsAtRest C.means seat.old.me }
    requires variables { IsForVariables wait.on × IsInRange wait.on }
    requires fits { PlaceFits C.means (Some (queuing_first wait)) (the seat.old.me.0).at.held }
    requires watches { W.watches watch.old wait.limits }
    ensures acquired { HasMadeStepsTo (Some (queuing_first wait)) (HasAcquired C.means (ForWait wait result)) seat.old seat.new }
    ensures looked { W.since watch.old watch.new }
    ensures ended { IfEnded result (λ cause. (is_limited wait.limits ≡ true) × W.shows watch.old watch.new wait.limits (Some cause)) }
{
    queue_at_variables(rt, seat, wait);
    come_back(rt, seat, wait, watch)
}

impl<C: Condition<N>, const N: usize> Monitor<C, N> {
    /// Waits for a variable until it is woken, or what watches for its limits ends the wait.
    fn wait_for_variable<H: Renewed<C, N>, R: Wait, W: Watch>(
        &self,
        rt: &R,
        held: Caller<H, C, N>,
        k: u8,
        limits: Limits,
        watch: &mut W,
    ) -> (Caller<H, C, N>, Answer)
        requires of { held.monitor ≡ self.now }
        requires variable { k < 4 }
        requires watches { W.watches watch.old limits }
        ensures grows { Grows C.means (wait_first N (waits_for_variable H.mode k limits)) held result.0 }
        ensures waited { HasWaitedForVariable C.means k result.1 held result.0 }
        ensures looked { W.since watch.old watch.new }
        ensures ended { IfAnswered result.1 (λ cause. W.shows watch.old watch.new limits (Some cause)) }
    {
        let Caller { seat, number, .. } = held;
        let mut seat = seat;
        let mode = H::mode();
        let on = Subject::OnVariables(Variables::Only(k));
        let wait = Waiting { mode, on, limits };
        let mut bound = Bound::new(&self.gate, &mut seat, number);
        let outcome = wait_at_variables(rt, &mut bound, wait, watch);
        bound.end();
        (holding(seat, number, false), outcome.answer())
    }

    /// Leaves its section and waits for a condition variable, until a signal or a broadcast of it wakes
    /// the caller, its note is notified, or its deadline, in ticks, has come, whichever of these two is
    /// given. Then it acquires the lock again, in the same mode.
    ///
    /// In one step the section is committed and the caller stands among the variable's waiters: no
    /// signal and no broadcast comes between the two. `Met` says that it was woken, which tells nothing of
    /// the row; `Canceled` that the note was notified, and `TimedOut` that the deadline had come while
    /// the note wasn't: then it has left the variable before anybody took it from there. A wake is never
    /// answered as an early end. It looks at neither before it has left its section: where one has come
    /// already, the section is committed all the same.
    ///
    /// The behaviour is that of nsync's `nsync_cv_wait_with_deadline`. Needs a variable below 4; the
    /// environment's own seat; and a note, if one is given, that it has seen made. Without note and
    /// deadline it sleeps until it is woken; with one of them it goes round between its wake and a look, and
    /// after a while sleeps between two rounds, for at most 64 milliseconds.
    pub fn cv_wait_with_deadline<H: Renewed<C, N>, R: Wait>(
        &self,
        rt: &R,
        held: Caller<H, C, N>,
        k: u8,
        deadline: Option<u64>,
        note: Option<Note>,
        env: &Env,
        env_seat: &mut EnvSeat,
    ) -> (Caller<H, C, N>, Answer)
        requires of { held.monitor ≡ self.now }
        requires variable { k < 4 }
        requires env { env_seat.old.env ≡ env.now }
        requires made { IfSome note (λ n. IsMade env_seat.old.seen n.index) }
        ensures grows { Grows C.means (variable_waiting N H.mode k deadline note) held result.0 }
        ensures waited { HasWaitedForVariable C.means k result.1 held result.0 }
        ensures env_grows { EnvGrows env_seat.old env_seat.new }
        ensures env_mine { env_seat.new.mine ≡ env_seat.old.mine }
        ensures ended { EndedBy note deadline env_seat.old.seen env_seat.new.seen result.1 }
    {
        let limits = Limits {
            deadline,
            note: index_of(note),
        };
        watched!(
            env,
            env_seat,
            looker,
            self.wait_for_variable(rt, held, k, limits, &mut looker)
        )
    }
}
