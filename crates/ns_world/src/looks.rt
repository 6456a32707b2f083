//! One atomic step of a look of a wait, which loads the clock or a note.

ghost use Rattle.std.specs.Prelude.{◌≡◌, IfSome};
ghost use Rattle.ns_world.specs.Prelude.{EnvActFits, IsFew, LookStep, LooksAt, Sees, env_want_of, held_after, opening_by, plain_of, want_of};

use crate::environment::Environment;
use crate::objects::AnyWait;
use crate::room::Seated;
use crate::seat::{Doing, Seat};
use crate::step::{Step, settle};
use crate::wanted::came_back;
use ns_env::limits::Cause;
use ns_env::next::Next;
use ns_env::walk::{EnvEnd, EnvWalk};
use ns_word::act::Found;
use ns_word::view::{Held, Opening};
use ns_word::wait::Outcome;
use ns_word::walk::Walk;

/// A section that came back from a wait, once it is known what ended that.
fn opening_by<C: Seated<N>, const N: usize>(entry: Opening<C>, cause: Cause) -> Opening<C>
    ensures { result ≡ opening_by cause entry }
{
    match entry {
        Opening::Locked => Opening::Locked,
        Opening::CameBack(on, _) => Opening::CameBack(on, Outcome::Ended(cause)),
    }
}

/// A section that has come back from a wait goes by what its look shows.
fn keep<C: Seated<N>, const N: usize>(
    held: &mut Option<Held<C, N>>,
    again: bool,
    cause: Option<Cause>,
)
    ensures { held.new ≡ held_after again cause held.old }
{
    let Some(cause) = cause else { return };
    let Some(section) = *held else { return };
    if again {
        *held = Some(Held {
            entry: opening_by(section.entry, cause),
            ..section
        });
    }
}

/// The wait goes on with what its look has shown.
pub(crate) fn see<C: Seated<N>, const N: usize>(
    seat: &mut Seat<C, N>,
    walk: Walk<C>,
    wait: Option<AnyWait>,
    cause: Option<Cause>,
) -> Step
    requires { IfSome wait IsFew }
    ensures { Sees seat.old walk wait cause seat.new result }
{
    keep(&mut seat.held, came_back(&walk), cause);
    settle(seat, wait, &walk.got::<N>(Found::Looked(cause)))
}

/// Makes the next step of the look that the seat's wait wants, at the clock or a note.
pub(crate) fn look<C: Seated<N>, const N: usize>(
    env: &Environment,
    seat: &mut Seat<C, N>,
    walk: Walk<C>,
    place: EnvWalk,
) -> Step
    requires looks { LooksAt (want_of walk) place }
    requires fits { EnvActFits env.now.next (env_want_of place) }
    ensures { LookStep (plain_of env.now) seat.old walk place seat.new result }
{
    let found = env.load(place.want());
    match place.got(found) {
        Next::On(next) => {
            seat.doing = Doing::LooksByLimits(walk, next);
            Step::Went
        }
        Next::Done(EnvEnd::LookOver(cause)) => see(seat, walk, None, cause),
        Next::Idle(_) => unreachable!(),
        Next::Done(EnvEnd::Over(_)) => unreachable!(),
    }
}
