//! A world of `ns_world`, by its own calls, and over no condition of a script. What its contracts say
//! is not tested again; they leave open that memory is there.
//!
//! Worlds are tested by scripts where they can be: a script owes nothing, where a test that steps a
//! world owes each call's range and each step's refusals. Here stands what only a world's own calls
//! show, that a step refused for memory changes nothing.

ghost use Rattle.std.specs.Prelude.{IfOk};
ghost use Rattle.ns_world.specs.Runs.{ListFits};

use crate::model::AtLeast;
use ns_model::event::{Entry, Event, Exit};
use ns_model::history::{legal, row_after};
use ns_world::call::Call;
use ns_world::fault::Fault;
use ns_world::reply::Reply;
use ns_world::schedule::Turn;
use ns_world::step::Step;
use ns_world::world::World;
use std::alloc::{AllocError, Global};
use std::test::Fail;

/// Any `Condition<8>`, by the name that it has in the example.
type Never = AtLeast;

/// The example at the head of the crate.
#[test]
fn head_example(rt: HostRuntime) -> Result<(), Fail> {
    let mut world = World::<Never, 8>::new(rt.alloc(), 2, &[], 0)?; // `Never` is any `Condition<8>`
    world.begin(0, Call::TryLock)?;
    world.step(0)?; // Step::Went: the word was loaded
    let step = world.step(0)?;
    assert!(rt; step == Step::Finished(Reply::Succeeded)); // seat 0 has the lock
    world.begin(1, Call::TryLock)?;
    let step = world.step(1)?;
    assert!(rt; step == Step::Finished(Reply::Busy));
    assert!(rt; world.state().word.write && legal(world.history()));
    Ok(())
}

/// Makes a step of seat 0, again where it is refused, and answers whether it then is as with ample memory: the
/// refused one changed nothing.
fn step_again(world: &mut World<AtLeast, 1>) -> Result<bool, Fault> {
    match world.step(0) {
        Ok(step) => Ok(step != Step::Nothing),
        Err(Fault::OutOfMemory) => {
            let is_kept = world.state().word.write && world.history().is_empty();
            Ok(world.step(0)? == Step::Finished(Reply::Succeeded) && is_kept)
        }
        Err(fault) => Err(fault),
    }
}

/// Whether this is one section, which wrote 5.
fn is_whole(history: &[Event<AtLeast, 1>]) -> bool {
    match history {
        [
            Event::Section {
                who,
                mode,
                entry: Entry::Plain,
                after,
                exit: Exit::Plain,
                ..
            },
        ] => *who == 0 && mode.is_write() && after[0] == 5,
        _ => false,
    }
}

/// With every allocation refused in turn, each answer is `OutOfMemory` and nothing is lost, or
/// the answer with ample memory.
#[test]
fn refused_memory_loses_nothing(rt: HostRuntime) -> Result<(), Fail> {
    let mut world = match World::<AtLeast, 1>::new(rt.alloc(), 1, &[], 0) {
        Ok(world) => world,
        Err(fault) => {
            assert!(rt; fault == Fault::OutOfMemory);
            return Ok(());
        }
    };
    for call in [Call::TryLock, Call::Set(0, 5), Call::Unlock] {
        world.begin(0, call)?;
        assert!(rt; step_again(&mut world)? && step_again(&mut world)?);
    }
    assert!(rt; is_whole(world.history()));
    Ok(())
}

/// The calls of the first path: an acquire, a write, a read, and the release.
fn first_calls(alloc: Global) -> Result<Vec<Call<AtLeast>>, AllocError>
    ensures { IfOk result (λ calls. ListFits 1 calls.items) }
{
    let mut calls = Vec::new(alloc);
    calls.push(Call::TryLock)?;
    calls.push(Call::Set(0, 5))?;
    calls.push(Call::Get(0))?;
    calls.push(Call::Unlock)?;
    Ok(calls)
}

/// The same of a run.
#[test]
fn a_run_refused_memory_is_as_its_last_turn_left_it(rt: HostRuntime) -> Result<(), Fail> {
    let Ok(mut world) = World::<AtLeast, 1>::new(rt.alloc(), 1, &[], 0) else {
        return Ok(());
    };
    let Ok(calls) = first_calls(rt.alloc()) else {
        return Ok(());
    };
    let schedule = [Turn {
        thread: 0,
        whole: true,
        times: 4,
    }];
    match world.run(rt.alloc(), &[calls], &schedule, 7) {
        Ok(lines) => assert!(rt; lines.len() == 4),
        Err(fault) => assert!(rt; fault == Fault::OutOfMemory),
    }
    let state = world.state();
    if !state.word.write {
        assert!(rt; row_after(world.history()) == state.row);
    }
    Ok(())
}
