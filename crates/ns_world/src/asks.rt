//! One atomic step of a call on the clock and the notes, as the seat's place there wants it.

ghost use Rattle.std.specs.Prelude.{◌≡◌};
ghost use Rattle.ns_world.specs.Prelude.{EnvActFits, place_after, env_asked_of, env_want_of, there};
ghost use Rattle.ns_world.specs.Asks.{Asked, EnvSays, GoesInCall, IsNoLook, plain_of};

use crate::environment::Environment;
use crate::reply::env_told;
use crate::room::Seated;
use crate::seat::{Doing, Seat};
use crate::step::Step;
use ns_env::next::Next;
use ns_env::walk::{EnvEnd, EnvNext, EnvWalk};

/// Puts the seat where its call goes, and tells what the step was.
fn settle<C: Seated<N>, const N: usize>(seat: &mut Seat<C, N>, next: EnvNext) -> Step
    requires { GoesInCall next }
    ensures step { EnvSays next result }
    ensures seat { seat.new ≡ record seat.old { doing = there Doing.OnNotes (place_after next) } }
{
    match next {
        Next::On(walk) => {
            seat.doing = Doing::OnNotes(walk);
            Step::Went
        }
        Next::Idle(walk) => {
            seat.doing = Doing::OnNotes(walk);
            Step::Idle
        }
        Next::Done(EnvEnd::Over(reply)) => {
            seat.doing = Doing::AtRest;
            Step::Finished(env_told(reply))
        }
        Next::Done(EnvEnd::LookOver(_)) => unreachable!(),
    }
}

/// Makes the step that the seat's call wants.
pub(crate) fn ask<C: Seated<N>, const N: usize>(
    env: &mut Environment,
    seat: &mut Seat<C, N>,
    walk: EnvWalk,
) -> Step
    requires call { IsNoLook (env_asked_of walk) }
    requires fits { EnvActFits env.old.next (env_want_of walk) }
    ensures { Asked (plain_of env.old) (plain_of env.new) seat.old walk seat.new result }
{
    let found = env.make(walk.want());
    settle(seat, walk.got(found))
}
