//! The waits for a condition: each round looks, queues, is woken or ended, comes back and tests.

ghost use Rattle.std.specs.Prelude.{◌≡◌, ◌⊎◌, ◌||◌, is_some, None, Some, IfSome, false, true};
ghost use Rattle.ns_monitor.specs.Prelude.{Answered, Await, EndedBy, Grows, HadLooked, HasAnswered, HasMadeStepsTo, HasReached, HasSince, HasWaitedFor, IfAnswered, InQueuing, InWait, IsAtPlace, IsForCondition, IsFreshIn, IsMade, IsNumberOf, Load, OnCondition, QueuesOrEnds, is_limited, look_or_queue, row_in, the};
ghost use Rattle.ns_monitor.specs.Prelude.{wait_first, waiting, waits_by};
ghost use Rattle.ns_note.specs.Known.{Grows as EnvGrows};

use crate::caller::{Caller, Renewed};
use crate::cells::test;
use crate::monitor::{Monitor, holding};
use crate::scanning::Queuing;
use crate::waiting::{come_back, queue_to_wait};
use crate::watching::{Looker, NoWatch, Watch, watched};
use ns_env::limits::{Cause, Limits};
use ns_gate::bound::Bound;
use ns_gate::gate::GateSeat;
use ns_model::condition::Condition;
use ns_model::event::Answer;
use ns_note::env::Env;
use ns_note::note::{Note, index_of};
use ns_note::seat::EnvSeat;
use ns_word::wait::{Outcome, Subject, Visit, Wait as Waiting, answer_of};
use ns_word::walk::Walk;
use std::sync::Wait;

/// Looks, before a wait queues, at what may end it early, if anything may. Answers what the look
/// has shown; then the wait is over.
fn look_before<W: Watch, C: Condition<N>, const N: usize>(
    seat: &mut Bound<'_, C, N>,
    wait: Waiting<C>,
    again: bool,
    watch: &mut W,
) -> Option<Cause>
    requires watches { W.watches watch.old wait.limits }
    requires at { HasReached C.means (Await wait) (look_or_queue wait again) seat.old.me }
    ensures leads { HasMadeStepsTo None (QueuesOrEnds C.means wait again result seat.old.me) seat.old seat.new }
    ensures looked { W.since watch.old watch.new }
    ensures shown { is_limited wait.limits ≡ true → W.shows watch.old watch.new wait.limits result }
    ensures ends { IfSome result (λ cause. is_limited wait.limits ≡ true) }
    ensures mine { (the seat.new.me.0).told.mine ≡ (the seat.old.me.0).told.mine }
    ensures fresh { IsFreshIn N wait.mode (the seat.old.me.0).at.held → IsFreshIn N wait.mode (the seat.new.me.0).at.held }
{
    if !wait.limits.is_some() {
        return None;
    }
    let shown = watch.look(wait.limits);
    seat.look(wait.limits, again, shown);
    shown
}

/// Queues, and waits until the wait's condition is true, or the wait is ended early. The condition is false of
/// this row of the section in hand.
fn wait_on<R: Wait, W: Watch, C: Condition<N>, const N: usize>(
    rt: &R,
    seat: &mut Bound<'_, C, N>,
    wait: Waiting<C>,
    row: &mut [u64; N],
    watch: &mut W,
) -> Answer
    requires on { IsForCondition wait.on }
    requires watches { W.watches watch.old wait.limits }
    requires row { row.old ≡ row_in (the seat.old.me.0).at.held }
    requires at { IsAtPlace C.means (InWait wait (InQueuing false Load)) seat.old.me }
    ensures answered { HasMadeStepsTo None (HasAnswered C.means (Await wait) (Answered result)) seat.old seat.new }
    ensures looked { W.since watch.old watch.new }
    ensures ended { IfAnswered result (λ cause. (is_limited wait.limits ≡ true) × W.shows watch.old watch.new wait.limits (Some cause)) }
    ensures fresh { IsFreshIn N wait.mode (the seat.new.me.0).at.held }
{
    let Subject::OnCondition(condition) = wait.on else {
        unreachable!()
    };
    let mut again = false;
    for _ in rt.forever() {
        queue_to_wait(rt, seat, Queuing { wait, again }, row);
        let outcome = come_back(rt, seat, wait, watch);
        let visit = Visit::OnReturn(outcome);
        if test(seat, None, wait, condition, visit, row) {
            return Answer::Met;
        }
        if let Outcome::Ended(cause) = outcome {
            return answer_of(cause);
        }
        if let Some(cause) = look_before(seat, wait, true, watch) {
            return answer_of(cause);
        }
        again = true;
    }
    unreachable!()
}

impl<C: Condition<N>, const N: usize> Monitor<C, N> {
    /// Waits until the condition is true, or what watches for its limits ends the wait. Where the
    /// condition is true of the section in hand, nothing is released, nor where the first look shows
    /// what ends it.
    #[inline(always)]
    pub(crate) fn wait_by<H: Renewed<C, N>, R: Wait, W: Watch>(
        &self,
        rt: &R,
        held: Caller<H, C, N>,
        condition: C,
        limits: Limits,
        watch: &mut W,
    ) -> (Caller<H, C, N>, Answer)
        requires of { held.monitor ≡ self.now }
        requires watches { W.watches watch.old limits }
        ensures grows { Grows C.means (wait_first N (waits_by H.mode condition limits)) held result.0 }
        ensures waited { HasWaitedFor C.means condition result.1 held result.0 }
        ensures looked { W.since watch.old watch.new }
        ensures ended { IfAnswered result.1 (λ cause. W.shows watch.old watch.new limits (Some cause)) }
        ensures before { is_limited limits ≡ true → (result.0.mine ≡ held.mine) ⊎ W.shows watch.old watch.new limits None }
    {
        let Caller {
            mut seat,
            number,
            hand,
            alone,
        } = held;
        let mode = H::mode();
        let on = Subject::OnCondition(condition);
        let wait = Waiting { mode, on, limits };
        let first = Some(Walk::wait::<N>(wait));
        let mut row = [0; N];
        let mut bound = Bound::new(&self.gate, &mut seat, number);
        if test(&mut bound, first, wait, condition, Visit::OnEntry, &mut row) {
            bound.end();
            let back = Caller {
                seat,
                number,
                hand,
                alone,
            };
            return (back, Answer::Met);
        }
        if let Some(cause) = look_before(&mut bound, wait, false, watch) {
            bound.end();
            let back = Caller {
                seat,
                number,
                hand,
                alone,
            };
            return (back, answer_of(cause));
        }
        let answer = self.wait_slow(rt, bound.end(), number, wait, &mut row, watch);
        (holding(seat, number, false), answer)
    }

    /// Goes on to wait, in a section of this row, of which the condition is false. It binds the seat anew, so that the
    /// caller's [`Bound`] stays in registers where nothing is waited for.
    fn wait_slow<R: Wait, W: Watch>(
        &self,
        rt: &R,
        seat: &mut GateSeat<C, N>,
        number: u8,
        wait: Waiting<C>,
        row: &mut [u64; N],
        watch: &mut W,
    ) -> Answer
        requires of { seat.old.table_id ≡ self.now }
        requires number { IsNumberOf number seat.old.me }
        requires on { IsForCondition wait.on }
        requires watches { W.watches watch.old wait.limits }
        requires row { row.old ≡ row_in (the seat.old.me.0).at.held }
        requires at { IsAtPlace C.means (InWait wait (InQueuing false Load)) seat.old.me }
        ensures seat { seat.new.table_id ≡ self.now }
        ensures since { HasSince None (the seat.old.me.0) (the seat.new.me.0) }
        ensures answered { HasAnswered C.means (Await wait) (Answered result) seat.new.me }
        ensures looked { W.since watch.old watch.new }
        ensures ended { IfAnswered result (λ cause. (is_limited wait.limits ≡ true) × W.shows watch.old watch.new wait.limits (Some cause)) }
        ensures fresh { IsFreshIn N wait.mode (the seat.new.me.0).at.held }
    {
        let mut bound = Bound::new(&self.gate, seat, number);
        let answer = wait_on(rt, &mut bound, wait, row, watch);
        bound.end();
        answer
    }

    /// Waits until the condition is true of the row, in a section in the same mode. Where it is true of
    /// the section in hand, nothing is released.
    ///
    /// Else the section is committed, with the condition as its exit, and the call sleeps until another
    /// has woken it; the section that it comes back with begins at the row after all that it has seen.
    /// The condition is tested also by others, who release the lock.
    pub fn wait<H: Renewed<C, N>, R: Wait>(
        &self,
        rt: &R,
        held: Caller<H, C, N>,
        condition: C,
    ) -> Caller<H, C, N>
        requires { held.monitor ≡ self.now }
        ensures grows { Grows C.means (waiting N H.mode condition None None) held result }
        ensures waited { HasWaitedFor C.means condition Answer.Met held result }
    {
        let limits = Limits {
            deadline: None,
            note: None,
        };
        let (back, _) = self.wait_by(rt, held, condition, limits, &mut NoWatch);
        back
    }

    /// Waits as [`Monitor::wait`] does, and returns earlier once its note is notified or its deadline, in
    /// ticks, has come, whichever of them is given.
    ///
    /// `Met` says that the condition is true of the section that it returns with; else `Canceled` that
    /// the note was notified, and `TimedOut` that the deadline had come while the note wasn't. Where that
    /// is so as the call begins, nothing is released: it looks before it leaves its section. (That a look
    /// within the call has shown nothing is a clause, `HadLooked`; that it came first is how it is written.
    /// Of the later looks no clause speaks; the call itself tells the gate which were made.)
    ///
    /// Needs the environment's own seat, and a note, if one is given, that it has seen made. While it
    /// waits with a deadline or a note it goes round between its wake and a look, and after a while sleeps
    /// between two rounds, for at most 64 milliseconds.
    pub fn wait_with_deadline<H: Renewed<C, N>, R: Wait>(
        &self,
        rt: &R,
        held: Caller<H, C, N>,
        condition: C,
        deadline: Option<u64>,
        note: Option<Note>,
        env: &Env,
        env_seat: &mut EnvSeat,
    ) -> (Caller<H, C, N>, Answer)
        requires of { held.monitor ≡ self.now }
        requires env { env_seat.old.env ≡ env.now }
        requires made { IfSome note (λ n. IsMade env_seat.old.seen n.index) }
        ensures grows { Grows C.means (waiting N H.mode condition deadline note) held result.0 }
        ensures waited { HasWaitedFor C.means condition result.1 held result.0 }
        ensures env_grows { EnvGrows env_seat.old env_seat.new }
        ensures env_mine { env_seat.new.mine ≡ env_seat.old.mine }
        ensures ended { EndedBy note deadline env_seat.old.seen env_seat.new.seen result.1 }
        ensures looked { (is_some deadline || is_some note) ≡ true → (result.0.mine ≡ held.mine) ⊎ HadLooked note deadline env_seat.old.seen env_seat.new.seen }
    {
        let limits = Limits {
            deadline,
            note: index_of(note),
        };
        watched!(
            env,
            env_seat,
            looker,
            self.wait_by(rt, held, condition, limits, &mut looker)
        )
    }
}
