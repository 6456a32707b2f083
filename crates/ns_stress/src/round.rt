//! A round: a monitor, its threads, and the counts that they have to come to.

ghost use Rattle.std.specs.Prelude.{◌<◌};
ghost use Rattle.std.specs.Thread.{IsSync};

use crate::calls::{make_calls, sleep};
use crate::door::Door;
use crate::kit::{Kit, Outcome, RowHandle};
use crate::market::{Way, trade, watch_all};
use crate::ring::take_turns;
use crate::rousing::rouse_all;
use crate::waits::row;
use crate::wish::{ROOM, Wish};
use ns_monitor::{Handles, Monitor};
use ns_note::env::Env;
use ns_note::watcher::Watchers;
use rand_core::Rng;
use rand_pcg::Pcg32;
use std::alloc::{AllocError, Global};
use std::sync::Wait;
use std::thread::{Threads, map_vec};

/// What came of a round.
#[derive(Clone, Copy)]
pub enum Verdict {
    /// All was as it has to be.
    Right,
    /// This was not.
    Wrong(&'static str),
    /// It could not be made.
    NoMemory,
}

/// What a thread has to do.
#[derive(Clone, Copy)]
enum Role {
    /// To take so many turns, from the first on, each so many behind the last.
    Turns { first: u64, apart: u64, turns: u64 },
    /// To give or to take so many goods.
    Trade(Way, u64),
    /// To watch until so many goods were given.
    Watch(u64),
    /// To make so many calls to so many sleepers.
    Call { calls: u64, sleepers: u64 },
    /// To sleep until each of so many calls.
    Sleep(u64),
    /// To rouse the others until their work is done.
    Rouse,
}

/// What the threads of a round do, but for the last, which rouses them.
#[derive(Clone, Copy)]
enum Kind {
    /// A turn goes round.
    Turns,
    /// So many give goods, and so many take them.
    Market { givers: u64, takers: u64 },
    /// One calls, and the others sleep.
    Calls,
}

/// What a round is made of, as it was drawn.
#[derive(Clone, Copy)]
struct Plan {
    /// How many threads there are, beside the one that rouses them.
    threads: u64,
    /// What they do.
    kind: Kind,
    /// How many goods there may be at a time.
    most: u64,
    /// How many turns each thread takes, how many goods each giver has for each taker, or how many calls
    /// are made.
    each: u64,
}

impl Plan {
    /// A plan that is drawn.
    fn drawn(draws: &mut Pcg32) -> Plan
        ensures { (0 < result.threads) × (result.threads < 62) }
    {
        let threads = 3 + u64::from(draws.next_u32() % 4);
        let most = 1 + u64::from(draws.next_u32() % 4);
        let each = 10 + u64::from(draws.next_u32() % 20);
        let kind = match draws.next_u32() % 3 {
            0 => Kind::Turns,
            1 => {
                let givers = 1 + u64::from(draws.next_u32()) % (threads - 1);
                let takers = 1 + u64::from(draws.next_u32()) % (threads - givers);
                Kind::Market { givers, takers }
            }
            _ => Kind::Calls,
        };
        Plan {
            threads,
            kind,
            most,
            each,
        }
    }

    /// What the thread of this number has to do.
    fn role(self, number: u64) -> Role {
        if number == self.threads {
            return Role::Rouse;
        }
        match self.kind {
            Kind::Turns => Role::Turns {
                first: number,
                apart: self.threads,
                turns: self.each,
            },
            Kind::Market { givers, takers } => {
                if number < givers {
                    Role::Trade(Way::Give, takers.saturating_mul(self.each))
                } else if number < givers.saturating_add(takers) {
                    Role::Trade(Way::Take, givers.saturating_mul(self.each))
                } else {
                    Role::Watch(self.done())
                }
            }
            Kind::Calls if number == 0 => Role::Call {
                calls: self.each,
                sleepers: self.threads.saturating_sub(1),
            },
            Kind::Calls => Role::Sleep(self.each),
        }
    }

    /// How many turns are over in the end, how many goods were given, or how often a sleeper has come.
    fn done(self) -> u64 {
        let times = match self.kind {
            Kind::Turns => self.threads,
            Kind::Market { givers, takers } => givers.saturating_mul(takers),
            Kind::Calls => self.threads.saturating_sub(1),
        };
        times.saturating_mul(self.each)
    }

    /// What came of a round with these counts, whose threads have all ended.
    fn judged(self, last: RowHandle<'_>, total: Outcome) -> Verdict {
        if let Some(what) = total.wrong {
            return Verdict::Wrong(what);
        }
        let Ok(mut held) = last.try_lock() else {
            return Verdict::Wrong("the lock ends held");
        };
        if row(&mut held) != [0, self.most, self.done(), total.added] {
            Verdict::Wrong("the cells end otherwise")
        } else if total.woken != total.called {
            Verdict::Wrong("more or fewer were woken than were called")
        } else {
            Verdict::Right
        }
    }
}

/// A thread's work: its handle, what it has beside, and its role.
#[derive(Drop)]
struct Job<'m, 'e, 'd> {
    handle: RowHandle<'m>,
    kit: Kit<'e, 'd>,
    role: Role,
}

/// Does a thread's work.
fn work<R: Wait>(rt: &R, job: Job<'_, '_, '_>) -> Outcome {
    let Job {
        handle,
        mut kit,
        role,
    } = job;
    match role {
        Role::Turns {
            first,
            apart,
            turns,
        } => take_turns(rt, handle, &mut kit, first, apart, turns),
        Role::Trade(way, goods) => trade(rt, handle, &mut kit, way, goods),
        Role::Watch(goods) => watch_all(rt, handle, &mut kit, goods),
        Role::Call { calls, sleepers } => make_calls(rt, handle, &mut kit, calls, sleepers),
        Role::Sleep(calls) => sleep(rt, handle, &mut kit, calls),
        Role::Rouse => rouse_all(rt, handle, &mut kit),
    };
    if !matches!(role, Role::Rouse) {
        kit.door.finish();
    }
    kit.outcome
}

/// The work of each thread.
fn jobs<'m, 'e, 'd>(
    alloc: Global,
    plan: Plan,
    draws: &mut Pcg32,
    door: &'d Door,
    handles: &mut Handles<'m, Wish, 4>,
    watchers: &mut Watchers<'e>,
) -> Result<Vec<Job<'m, 'e, 'd>>, AllocError> {
    let mut jobs = Vec::new(alloc);
    for number in 0..plan.threads.saturating_add(1) {
        let Some((handle, watcher)) = handles.next().zip(watchers.next()) else {
            break;
        };
        let kit = Kit {
            watcher,
            door,
            most: plan.most,
            draws: Pcg32::new(draws.next_u64(), number),
            outcome: Outcome::default(),
        };
        let role = plan.role(number);
        jobs.push(Job { handle, kit, role })?;
    }
    Ok(jobs)
}

/// What all threads have added and counted, and the first thing that one of them found wrong.
fn total(outcomes: &[Outcome]) -> Outcome {
    let mut total = Outcome::default();
    for outcome in outcomes {
        total.added = total.added.saturating_add(outcome.added);
        total.called = total.called.saturating_add(outcome.called);
        total.woken = total.woken.saturating_add(outcome.woken);
        total.wrong = total.wrong.or(outcome.wrong);
    }
    total
}

/// Has the threads do their work, and answers what they have added, counted and found wrong.
fn played<R: Threads + Wait + Sync>(
    rt: &R,
    jobs: Vec<Job<'_, '_, '_>>,
) -> Result<Outcome, AllocError> {
    let outcomes = map_vec(
        rt,
        jobs,
        &|job: Job| -> Outcome
            requires { IsSync R.row }
        { work(rt, job) },
    )?;
    Ok(total(outcomes.as_slice()))
}

/// Sets how many goods there may be, has the threads play, and answers what came of it; nothing where memory is
/// refused.
fn play<R: Threads + Wait + Sync>(
    rt: &R,
    alloc: Global,
    plan: Plan,
    mut draws: Pcg32,
    mut handles: Handles<'_, Wish, 4>,
    mut watchers: Watchers<'_>,
) -> Option<Verdict> {
    let door = Door::new(plan.threads);
    let mut held = handles.next()?.lock(rt);
    held.set(ROOM, plan.most);
    let last = held.unlock(rt);
    let jobs = jobs(alloc, plan, &mut draws, &door, &mut handles, &mut watchers).ok()?;
    let total = played(rt, jobs).ok()?;
    Some(plan.judged(last, total))
}

/// Makes the round of this number, and answers what came of it; nothing where memory is refused.
fn made<R: Threads + Wait + Sync>(rt: &R, alloc: Global, seed: u64, round: u64) -> Option<Verdict> {
    let mut draws = Pcg32::new(seed, round);
    let plan = Plan::drawn(&mut draws);
    let threads = plan.threads as usize;
    let (monitor, seats) = Monitor::new(alloc, threads + 2).ok()?;
    let (env, env_seats) = Env::new(alloc, threads + 1).ok()?;
    let handles = monitor.handles(seats);
    let watchers = env.watchers(env_seats);
    play(rt, alloc, plan, draws, handles, watchers)
}

/// The round of this number.
pub fn run<R: Threads + Wait + Sync>(rt: &R, alloc: Global, seed: u64, round: u64) -> Verdict {
    made(rt, alloc, seed, round).unwrap_or(Verdict::NoMemory)
}
