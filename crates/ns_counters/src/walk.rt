//! The walks of the calls on counters and once cells, one atomic step at a time.
//!
//! | place | wants | where an answer leads |
//! |---|---|---|
//! | `AddLoad` | load the counter | `AddExchange`, or the refusal |
//! | `AddExchange` | change it, if it is as it was seen | the new value; else as from `AddLoad` by the word found |
//! | `ValueLoad` | load the counter | its value |
//! | `WaitMark` | mark it: a wait for 0 begins | 0 at 0; else with a deadline `WaitClock`; else idle, `WaitLoad` |
//! | `WaitLoad` | load the counter | the same |
//! | `WaitClock` | load the clock | the value, where the deadline has come; else idle, `WaitLoad` |
//! | `OnceLoad` | load the cell | `OnceBegin`; while a function runs idle; once one has run `Already` |
//! | `OnceBegin` | begin, if nobody has | `OnceEnd`; else as from `OnceLoad` by the word found |
//! | `OnceEnd` | say that the function has run | `Ran` |
//! | `DoneLoad` | load the cell | whether a function has run |
//! | `InRound` | what the round wants | what the round shows; if that is nothing idle, a new round |

ghost use Rattle.std.specs.Prelude.{◌≡◌};
ghost use Rattle.ns_counters.specs.Walks.{by_begun, by_judging, by_round, by_stage, object_got, object_want, waited_next, IsInBounds};

use crate::act::ObjectAct;
use crate::reply::ObjectReply;
use crate::round::{ObjectFound, ObjectWant, Round, RoundNext, RoundPlace};
use crate::word::{Stage, decode_counter, decode_once, encode_counter};
use ns_env::act::{EnvAct, EnvFound};
use ns_env::next::Next;
use ns_model::counter::CounterState;

/// A place in a call on counters and once cells. Each names the number of its object; a moment is in
/// ticks.
#[derive(Clone, Copy)]
pub enum ObjectWalk {
    /// The counter is to be changed by so much, and loaded first.
    AddLoad(u8, i64),
    /// The counter was seen so, and the change leads to this value from there.
    AddExchange(u8, i64, CounterState, u32),
    /// The counter is to be loaded.
    ValueLoad(u8),
    /// A wait for 0 is to begin, at most until the deadline.
    WaitMark(u8, Option<u64>),
    /// The wait has begun, and the counter is to be loaded.
    WaitLoad(u8, Option<u64>),
    /// The wait has begun, the counter had this value, and the clock is to be loaded to compare it with this
    /// deadline.
    WaitClock(u8, u64, u32),
    /// The cell is to be loaded.
    OnceLoad(u8),
    /// Nobody had begun to run a function of the cell, and this call is to.
    OnceBegin(u8),
    /// This call has begun to run the function, which has run, and is to say so.
    OnceEnd(u8),
    /// The cell is to be loaded to tell whether a function has run.
    DoneLoad(u8),
    /// A round of a wait for any of several objects.
    InRound(Round, RoundPlace),
}

/// Where a walk on counters and once cells goes.
pub type ObjectNext = Next<ObjectWalk, ObjectReply>;

/// Where a change goes by what the counter was seen to be.
fn by_judging(counter: u8, delta: i64, word: u64) -> ObjectNext
    ensures { result ≡ by_judging counter delta word }
{
    let seen = decode_counter(word);
    match seen.judge(delta) {
        Ok(value) => Next::On(ObjectWalk::AddExchange(counter, delta, seen, value)),
        Err(fault) => Next::Done(ObjectReply::Refused(fault)),
    }
}

/// Where a wait for 0 goes by the value.
fn waited_next(counter: u8, deadline: Option<u64>, value: u32) -> ObjectNext
    ensures { result ≡ waited_next counter deadline value }
{
    if value == 0 {
        return Next::Done(ObjectReply::Number(0));
    }
    match deadline {
        None => Next::Idle(ObjectWalk::WaitLoad(counter, None)),
        Some(moment) => Next::On(ObjectWalk::WaitClock(counter, moment, value)),
    }
}

/// Where a call that would run a function goes by how far its cell has come.
fn by_stage(once: u8, stage: Stage) -> ObjectNext
    ensures { result ≡ by_stage once stage }
{
    match stage {
        Stage::Unused => Next::On(ObjectWalk::OnceBegin(once)),
        Stage::Running => Next::Idle(ObjectWalk::OnceLoad(once)),
        Stage::Done => Next::Done(ObjectReply::Already),
    }
}

/// The same, where it has tried to begin.
fn by_begun(once: u8, stage: Stage) -> ObjectNext
    ensures { result ≡ by_begun once stage }
{
    match stage {
        Stage::Unused => Next::On(ObjectWalk::OnceEnd(once)),
        other => by_stage(once, other),
    }
}

/// Where a wait for any goes by where its round goes.
fn by_round(round: Round, next: RoundNext) -> ObjectNext
    ensures { result ≡ by_round round next }
{
    match next {
        RoundNext::RoundGo(place) => Next::On(ObjectWalk::InRound(round, place)),
        RoundNext::RoundOver(None) => {
            Next::Idle(ObjectWalk::InRound(round, RoundPlace::FirstClock))
        }
        RoundNext::RoundOver(Some(at)) => Next::Done(ObjectReply::Number(u64::from(at))),
    }
}

impl ObjectWalk {
    /// The step that the walk wants next.
    pub fn want(&self) -> ObjectWant
        ensures { result ≡ object_want self.now }
    {
        let act = match *self {
            ObjectWalk::AddLoad(counter, delta) => ObjectAct::LoadToAdd { counter, delta },
            ObjectWalk::AddExchange(counter, delta, seen, value) => {
                ObjectAct::ExchangeToAdd {
                    counter,
                    delta,
                    seen,
                    value,
                }
            }
            ObjectWalk::ValueLoad(counter) => ObjectAct::LookCounter { counter },
            ObjectWalk::WaitMark(counter, _) => ObjectAct::MarkWait { counter },
            ObjectWalk::WaitLoad(counter, _) => ObjectAct::LookCounter { counter },
            ObjectWalk::WaitClock(_, _, _) => return ObjectWant::OnEnv(EnvAct::LoadClock),
            ObjectWalk::OnceLoad(once) => ObjectAct::LookOnce { once },
            ObjectWalk::OnceBegin(once) => ObjectAct::BeginOnce { once },
            ObjectWalk::OnceEnd(once) => ObjectAct::EndOnce { once },
            ObjectWalk::DoneLoad(once) => ObjectAct::LookOnce { once },
            ObjectWalk::InRound(_, place) => return Round::want(place),
        };
        ObjectWant::OnWord(act)
    }

    /// Where the walk goes with the word that its step found.
    fn got_word(self, word: u64) -> ObjectNext
        requires { IsInBounds self }
        ensures { result ≡ object_got self (ObjectFound.Word word) }
    {
        match self {
            ObjectWalk::AddLoad(counter, delta) => by_judging(counter, delta, word),
            ObjectWalk::AddExchange(_, _, seen, value) if word == encode_counter(seen) => {
                Next::Done(ObjectReply::Number(u64::from(value)))
            }
            ObjectWalk::AddExchange(counter, delta, _, _) => by_judging(counter, delta, word),
            ObjectWalk::ValueLoad(_) => {
                Next::Done(ObjectReply::Number(u64::from(decode_counter(word).value)))
            }
            ObjectWalk::WaitMark(counter, deadline) => {
                waited_next(counter, deadline, decode_counter(word).value)
            }
            ObjectWalk::WaitLoad(counter, deadline) => {
                waited_next(counter, deadline, decode_counter(word).value)
            }
            ObjectWalk::OnceLoad(once) => by_stage(once, decode_once(word)),
            ObjectWalk::OnceBegin(once) => by_begun(once, decode_once(word)),
            ObjectWalk::OnceEnd(_) => Next::Done(ObjectReply::Ran),
            ObjectWalk::DoneLoad(_) => Next::Done(ObjectReply::Is(
                decode_once(word) == Stage::Done,
            )),
            ObjectWalk::InRound(round, place) => {
                by_round(round, round.got(place, ObjectFound::Word(word)))
            }
            walk => Next::On(walk),
        }
    }

    /// Where the walk goes with the clock or the note that its step found.
    fn got_env(self, found: EnvFound) -> ObjectNext
        requires { IsInBounds self }
        ensures { result ≡ object_got self (ObjectFound.Env found) }
    {
        match (self, found) {
            (ObjectWalk::WaitClock(_, moment, value), EnvFound::Clock(clock)) if moment <= clock =>
                { Next::Done(ObjectReply::Number(u64::from(value))) }
            (ObjectWalk::WaitClock(counter, moment, _), EnvFound::Clock(_)) => {
                Next::Idle(ObjectWalk::WaitLoad(counter, Some(moment)))
            }
            (ObjectWalk::InRound(round, place), found) => {
                by_round(round, round.got(place, ObjectFound::Env(found)))
            }
            (walk, _) => Next::On(walk),
        }
    }

    /// Where the walk goes with what its step found. What no step of the place finds leaves it
    /// where it is.
    pub fn got(self, found: ObjectFound) -> ObjectNext
        requires { IsInBounds self }
        ensures { result ≡ object_got self found }
    {
        match found {
            ObjectFound::Word(word) => self.got_word(word),
            ObjectFound::Env(found) => self.got_env(found),
        }
    }
}
