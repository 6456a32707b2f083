//! What calls pay as they begin, and a run of many steps that stays below what its calls have paid.

ghost use Rattle.std.specs.Prelude.{◌≤◌};
ghost use Rattle.ns_world.specs.Prelude.{CallInRange};

use crate::model::AtLeast;
use ns_env::limits::Limits;
use ns_model::event::Mode;
use ns_word::acquire_walk::AcquirePlace;
use ns_word::act::Waking;
use ns_word::wait::{Aim, Subject, Wait};
use ns_word::walk::Walk;
use ns_word::word::{Arrival, Releasing, Taking, Word};
use ns_world::call::Call;
use ns_world::fault::Fault;
use ns_world::step::Step;
use ns_world::world::World;
use std::alloc::Global;
use std::test::Fail;

const WAIT: Wait<bool> = Wait {
    mode: Mode::Write,
    on: Subject::OnCondition(true),
    limits: Limits {
        deadline: None,
        note: None,
    },
};

/// A lock, a release, a store and a signal pay so many steps, over a row of `N` cells.
fn costs<const N: usize>() -> [u64; 4]
    requires { N ≤ 16 }
{
    [
        Walk::<bool>::lock(Mode::Write).cost::<N>(),
        Walk::<bool>::release(Releasing::Writer).cost::<N>(),
        Walk::<bool>::set(0, 1).cost::<N>(),
        Walk::<bool>::signal(Waking::Signaling, 0).cost::<N>(),
    ]
}

/// What calls pay over rows of 1, 8 and 16 cells; the last three are waits for a condition.
#[test]
fn calls_pay_by_their_kind(rt: HostRuntime) {
    assert!(rt; costs::<1>() == [601, 60_401, 3_800_202, 401]);
    assert!(rt; costs::<8>() == [601, 61_801, 3_800_202, 401]);
    assert!(rt; costs::<16>() == [601, 63_401, 3_800_202, 401]);
    assert!(rt; Walk::wait::<1>(WAIT).cost::<1>() == 61_001);
    assert!(rt; Walk::wait::<8>(WAIT).cost::<8>() == 63_801);
    assert!(rt; Walk::wait::<16>(WAIT).cost::<16>() == 67_001);
}

/// A lock that finds the queues with another has nothing left but to look again; so has one that waits, while its
/// flag is set.
#[test]
fn calls_rest_while_they_can_only_look(rt: HostRuntime) {
    let held = Word::FREE.acquired(Mode::Write, Arrival::AsFresh);
    let taken = held.taken(Taking::ToChange);
    let lock: Walk<bool> = Walk::lock(Mode::Write);
    assert!(rt; lock.rests::<8>(taken, 0) && !lock.rests::<8>(held, 0));
    let waits: Walk<bool> = Walk::InAcquire(Aim::ForLock(Mode::Write), AcquirePlace::AwaitWake(0));
    assert!(rt; waits.rests::<8>(held, 1) && !waits.rests::<8>(held, 0));
}

/// A world, how many turns it has made, and at how many of them a call went on.
#[derive(Drop)]
struct Counted {
    world: World<AtLeast, 8>,
    turns: u64,
    went: u64,
}

impl Counted {
    /// One step of the seat, and whether its call goes on.
    fn step(&mut self, seat: u8) -> Result<bool, Fault> {
        let step = self.world.step(seat)?;
        self.turns = self.turns.saturating_add(1);
        self.went = self.went.saturating_add((step != Step::Idle) as u64);
        Ok(step == Step::Went)
    }

    /// A call of the seat from its beginning to its end, or to where it would repeat.
    fn call(&mut self, seat: u8, call: Call<AtLeast>) -> Result<(), Fault>
        requires { CallInRange 8 call }
    {
        self.world.begin(seat, call)?;
        for _ in 0..1000 {
            if !self.step(seat)? {
                break;
            }
        }
        Ok(())
    }

    /// Steps of each reader in turn, until none of them goes on.
    fn readers(&mut self) -> Result<(), Fault> {
        for _ in 0..1000 {
            let mut stirs = false;
            for seat in 1..64 {
                stirs |= self.step(seat)?;
            }
            if !stirs {
                break;
            }
        }
        Ok(())
    }

    /// A release, before which 63 readers wait; the next lock is faster than they are.
    fn release(&mut self) -> Result<(), Fault> {
        self.call(0, Call::Unlock)?;
        self.call(0, Call::Lock)?;
        self.readers()
    }
}

/// A writer with 63 readers behind it, and twenty of its releases.
fn herd(alloc: Global) -> Result<(u64, u64), Fault> {
    let mut counted = Counted {
        world: World::new(alloc, 64, &[], 0)?,
        turns: 0,
        went: 0,
    };
    counted.call(0, Call::Lock)?;
    for seat in 1..64 {
        counted.call(seat, Call::RLock)?;
    }
    for _ in 0..20 {
        counted.release()?;
    }
    Ok((counted.turns, counted.went))
}

/// Each release wakes all readers, the writer's next lock is faster, and each reader queues again, while all others
/// lose an exchange to it. All turns together, those too that find the queues with another, are below what the calls
/// have paid.
#[test]
fn a_herd_stays_below_what_it_pays(rt: HostRuntime) -> Result<(), Fail> {
    let lock = Walk::<bool>::lock(Mode::Write).cost::<8>();
    let release = Walk::<bool>::release(Releasing::Writer).cost::<8>();
    let paid = 64 * lock + 20 * (release + lock);
    let (turns, went) = herd(rt.alloc())?;
    assert!(rt; 40_000 <= went && turns <= paid / 5);
    Ok(())
}
