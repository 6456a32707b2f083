//! Waits for condition variables among notes and counters.
//!
//! As such a call begins, a round looks at the notes and counters. Where that shows nothing, the call leaves
//! its section, and waits on the lock for all the variables; and whenever that wait looks, another round looks
//! at the notes and counters. What a round shows ends the wait, unless a variable has woken it.
//!
//! | the seat | a step | where that leads |
//! |---|---|---|
//! | is on the objects | ends the round with what it has shown | that is the answer, and the section is still in hand |
//! | is on the objects | ends the round, which has shown nothing | a wait on the lock for all the variables, from the section in hand |
//! | is on the lock | comes to a look | a new round |
//! | looks by a round | ends it with what it has shown, or nothing | the wait has looked, and seen so |
//! | is on the lock | ends the wait | the answer is the place of the variable which woke it, else what the last round has shown |

ghost use Rattle.std.specs.Prelude.{◌≡◌, ◌≤◌, IfSome, IsSome, true};
ghost use Rattle.ns_world.specs.Prelude.{BeginsToWait, Every, IsFew, IsLow, MayGoOn, NamesFew, Next as NextOf, ObjectLeads, ObjectReply as ReplyOf, ObjectWalk as WalkOf, Operates, RoundLeads, StepFits, cause_of, have_variable, items_of, plain_of, reply_for, reply_told, shown_by, waits_then};

use crate::environment::Environment;
use crate::looks::see;
use crate::objects::{AnyWait, Objects};
use crate::operate::{operate, settle};
use crate::reply::Reply;
use crate::room::Seated;
use crate::seat::{Doing, Seat};
use crate::step::{Step, place};
use ns_counters::reply::ObjectReply;
use ns_counters::round::Round;
use ns_counters::walk::{ObjectNext, ObjectWalk};
use ns_env::limits::{Cause, Limits};
use ns_env::next::Next;
use ns_model::cvs::Variables;
use ns_word::wait::{Subject, Wait};
use ns_word::walk::Walk;

/// What ends such a wait early is for its caller to say: a deadline that has always come lets each of its
/// looks end it.
const AT_WILL: Limits = Limits {
    deadline: Some(0),
    note: None,
};

/// The round after which the call waits on the lock: it has found nothing, and condition variables are among its
/// objects.
fn waits_then(walk: &ObjectWalk, next: &ObjectNext) -> Option<Round>
    requires { NamesFew walk.now }
    ensures { result ≡ waits_then walk.now next.now }
{
    match (walk, next) {
        (ObjectWalk::InRound(round, _), Next::Idle(_)) if round.items.has_variable() => Some(
            *round,
        ),
        _ => None,
    }
}

/// What a round has shown, by where its last step leads.
fn shown_by(next: &ObjectNext) -> Option<u64>
    ensures { result ≡ shown_by next.now }
{
    match next {
        Next::Done(ObjectReply::Number(place)) => Some(*place),
        _ => None,
    }
}

/// What it tells the lock that a round has shown this.
fn cause_of(shown: Option<u64>) -> Option<Cause>
    ensures { result ≡ cause_of shown }
{
    match shown {
        None => None,
        Some(_) => Some(Cause::Expired),
    }
}

/// The seat leaves its section to wait on the lock for the variables among these objects.
fn begin_wait<C: Seated<N>, const N: usize>(seat: &mut Seat<C, N>, round: Round) -> Step
    requires row { N ≤ 16 }
    requires holds { IsSome seat.old.held }
    requires few { round.items.count ≤ 16 }
    requires low { Every IsLow (items_of round.items) }
    requires some { have_variable round.items ≡ true }
    ensures { BeginsToWait seat.old round seat.new result }
{
    let Some(section) = seat.held else {
        unreachable!()
    };
    let wait = Wait {
        mode: section.mode,
        on: Subject::OnVariables(Variables::Any(round.items.variables())),
        limits: AT_WILL,
    };
    let after = AnyWait { round, shown: None };
    place(seat, Doing::OnLock(Walk::wait::<N>(wait), Some(after)));
    Step::Went
}

/// Makes the step of a call on counters and once cells that the seat's walk wants, and puts the seat where that
/// leads, which may be to wait on the lock.
pub(crate) fn step_objects<C: Seated<N>, const N: usize>(
    env: &Environment,
    objects: &mut Objects,
    seat: &mut Seat<C, N>,
    walk: ObjectWalk,
) -> Step
    requires row { N ≤ 16 }
    requires fits { StepFits env.now.next walk }
    requires may { MayGoOn seat.old.held walk }
    ensures { (next : NextOf WalkOf ReplyOf) × Operates (plain_of env.now) objects.old seat.old.number walk objects.new next × ObjectLeads (waits_then walk next) next seat.old seat.new result }
{
    let next = operate(env, objects, walk);
    match waits_then(&walk, &next) {
        Some(round) => begin_wait(seat, round),
        None => settle(seat, next),
    }
}

/// The seat goes where a step of the round leads by which its wait looks; where the round is over, the wait goes on
/// with what it has shown.
pub(crate) fn go_round<C: Seated<N>, const N: usize>(
    seat: &mut Seat<C, N>,
    walk: Walk<C>,
    wait: AnyWait,
    next: ObjectNext,
) -> Step
    requires { IsFew wait }
    ensures { RoundLeads next seat.old walk wait seat.new result }
{
    if let Next::On(place) = next {
        seat.doing = Doing::LooksByRound(walk, wait, place);
        return Step::Went;
    }
    let shown = shown_by(&next);
    let round = wait.round;
    see(seat, walk, Some(AnyWait { round, shown }), cause_of(shown))
}

/// What a call answers, whose wait on the lock answers this: the place of the variable that has woken it, or
/// where none has, what its last round has shown.
fn reply_told(wait: &AnyWait, reply: Reply) -> Reply
    requires { IsFew wait.now }
    ensures { result ≡ reply_told wait.now reply }
{
    match reply {
        Reply::Number(k) => Reply::Number(wait.round.items.place_of(k)),
        _ => Reply::Number(wait.shown.unwrap_or(0)),
    }
}

/// The same where it may be in no such wait.
pub(crate) fn reply_for(wait: &Option<AnyWait>, reply: Reply) -> Reply
    requires { IfSome wait.now IsFew }
    ensures { result ≡ reply_for wait.now reply }
{
    match wait {
        None => reply,
        Some(wait) => reply_told(wait, reply),
    }
}
