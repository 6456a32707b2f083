//! What a seat's step was, where it leads, whether a call began, and where it begins.

ghost use Rattle.std.specs.Prelude.{◌≡◌, IfSome};
ghost use Rattle.ns_world.specs.Prelude.{IsFew, doing_after, doing_at, mode_of, placed, step_of, tests_after};

use crate::among::reply_for;
use crate::objects::AnyWait;
use crate::reply::{Reply, told};
use crate::room::Seated;
use crate::seat::{Doing, Seat};
use crate::wanted::wanted_look;
use ns_counters::round::RoundPlace;
use ns_counters::walk::ObjectWalk;
use ns_env::next::Next;
use ns_env::walk::{Chain, EnvWalk};
use ns_model::event::Mode;
use ns_word::act::Found;
use ns_word::view::Held;
use ns_word::walk::{Walk, WalkNext};

/// What a seat's step was.
#[derive(Clone, Copy, Debug, PartialEq, Eq)]
pub enum Step {
    /// A step was made, and the call goes on.
    Went,
    /// A step was made, after which the call has to wait for another seat: it repeats a place until
    /// it need not.
    Idle,
    /// A step was made, and the call is over with this answer.
    Finished(Reply),
    /// No call was in progress.
    Nothing,
}

/// Whether a call began.
#[derive(Clone, Copy, Debug, PartialEq, Eq)]
pub enum Begun {
    /// It did, and has made no step.
    Started,
    /// The call's need isn't met: it did not, and nothing has changed.
    Misuse,
    /// A call of the seat is in progress: it did not, and nothing has changed.
    Busy,
}

/// The mode of the section in hand.
pub(crate) fn mode_of<C: Seated<N>, const N: usize>(held: &Option<Held<C, N>>) -> Option<Mode>
    ensures { result ≡ mode_of held.now }
{
    match held {
        None => None,
        Some(section) => Some(section.mode),
    }
}

/// Puts the seat at the beginning of a call, which has tested no condition yet.
pub(crate) fn place<C: Seated<N>, const N: usize>(seat: &mut Seat<C, N>, doing: Doing<C>)
    ensures { seat.new ≡ placed seat.old doing }
{
    seat.tests = 0;
    seat.doing = doing;
}

/// How many conditions the scan of a seat's call tested, after a step that found this.
pub(crate) fn tests_after(found: Found, before: u32) -> u32
    ensures { result ≡ tests_after found before }
{
    match found {
        Found::Scanned { tests, .. } => tests,
        _ => before,
    }
}

/// Where a call on the lock stands at this place: where its wait is to look, at the beginning of the look.
fn doing_at<C: Seated<N>, const N: usize>(wait: Option<AnyWait>, walk: &Walk<C>) -> Doing<C>
    ensures { result ≡ doing_at wait walk.now }
{
    let Some(look) = wanted_look(walk) else {
        return Doing::OnLock(*walk, wait);
    };
    match wait {
        None => Doing::LooksByLimits(*walk, EnvWalk::ClockLoad(Chain::ForLook(look.limits))),
        Some(wait) => Doing::LooksByRound(
            *walk,
            wait,
            ObjectWalk::InRound(wait.round, RoundPlace::FirstClock),
        ),
    }
}

/// Puts the seat where its walk goes, and tells what the step was for the call.
pub(crate) fn settle<C: Seated<N>, const N: usize>(
    seat: &mut Seat<C, N>,
    wait: Option<AnyWait>,
    next: &WalkNext<C>,
) -> Step
    requires { IfSome wait IsFew }
    ensures step { result ≡ step_of wait next.now }
    ensures seat { seat.new ≡ record seat.old { doing = doing_after wait next.now } }
{
    match next {
        Next::On(walk) => {
            seat.doing = doing_at(wait, walk);
            Step::Went
        }
        Next::Idle(walk) => {
            seat.doing = doing_at(wait, walk);
            Step::Idle
        }
        Next::Done(reply) => {
            seat.doing = Doing::AtRest;
            Step::Finished(reply_for(&wait, told(*reply)))
        }
    }
}
