//! A step of a call on counters and once cells, or of the round by which a wait looks, over the parts of a world.

ghost use Rattle.std.specs.Prelude.{◌≡◌, ℕ, List};
ghost use Rattle.ns_world.specs.Prelude.{ObjectEffect, ObjectEvent, Operates, Place, StepFits, WantFits, place_after, object_step_of, plain_of, there};

use crate::environment::Environment;
use crate::objects::Objects;
use crate::reply::object_told;
use crate::room::Seated;
use crate::seat::{Doing, Seat};
use crate::step::Step;
use ns_counters::round::{ObjectFound, ObjectWant};
use ns_counters::walk::{ObjectNext, ObjectWalk};
use ns_env::next::Next;

/// Makes the step that a place wants, and tells what it found.
fn perform(env: &Environment, objects: &mut Objects, want: ObjectWant) -> ObjectFound
    requires { WantFits env.now.next want }
    ensures effect { (seat : ℕ) (place : Place) → (events : List ObjectEvent) × ObjectEffect seat place want objects.old.words (plain_of env.now) result objects.new.words events }
    ensures kept { objects.new ≡ record objects.old { words = objects.new.words } }
{
    match want {
        ObjectWant::OnWord(act) => ObjectFound::Word(objects.make(act)),
        ObjectWant::OnEnv(act) => ObjectFound::Env(env.load(act)),
    }
}

/// Makes the step that a walk on counters and once cells wants, and tells where it leads.
pub(crate) fn operate(env: &Environment, objects: &mut Objects, walk: ObjectWalk) -> ObjectNext
    requires { StepFits env.now.next walk }
    ensures { (seat : ℕ) → Operates (plain_of env.now) objects.old seat walk objects.new result }
{
    let found = perform(env, objects, walk.want());
    walk.got(found)
}

/// Puts the seat where its walk goes, and tells what the step was.
pub(crate) fn settle<C: Seated<N>, const N: usize>(seat: &mut Seat<C, N>, next: ObjectNext) -> Step
    ensures step { result ≡ object_step_of next }
    ensures seat { seat.new ≡ record seat.old { doing = there Doing.OnObjects (place_after next) } }
{
    match next {
        Next::On(walk) => {
            seat.doing = Doing::OnObjects(walk);
            Step::Went
        }
        Next::Idle(walk) => {
            seat.doing = Doing::OnObjects(walk);
            Step::Idle
        }
        Next::Done(reply) => {
            seat.doing = Doing::AtRest;
            Step::Finished(object_told(reply))
        }
    }
}
