//! The run of a script in a new world, and its text.

ghost use Rattle.std.specs.Prelude.{◌≡◌, ◌≤◌, length, string_bytes, IfOk, IfErr};
ghost use Rattle.ns_replay.specs.Prelude.{IsRunFault, IsRunnable, IsToldTo, RunsTo, plan_of, script_truths, text_of, whole_of};

use crate::condition::ScriptCondition;
use crate::fault::Fault;
use crate::options::Options;
use crate::script::Script;
use crate::text::{push_history, push_lefts, push_lines, push_row, push_state};
use ns_world::call::Call;
use ns_world::observer::Observer;
use ns_world::schedule::Line;
use ns_world::world::World;
use std::alloc::{AllocError, Global};

/// A run: its world after it, and the lines of the calls that it finished.
#[derive(Drop)]
pub struct Run {
    /// The world as the run left it.
    pub world: World<ScriptCondition, 8>,
    /// The finished calls, in the order in which they ended.
    pub lines: Vec<Line>,
}

/// Runs a script in a new world, which has a seat for each thread, and tells the observer of each turn.
///
/// Needs a script that was read. Refuses a schedule that needs more turns than `limit` (`StepLimit`), and want of
/// memory (`OutOfMemory`).
pub fn run_script<O: Observer<World<ScriptCondition, 8>, Call<ScriptCondition>>>(
    alloc: Global,
    script: &Script,
    limit: u32,
    observer: &mut O,
) -> Result<Run, Fault>
    requires { IsRunnable (plan_of script.now) }
    ensures ok { IfOk result (λ run. RunsTo limit (plan_of script.now) (whole_of script_truths run.world) run.lines.items) }
    ensures told { IfOk result (λ run. IsToldTo O.sees limit (plan_of script.now) observer.old run.world observer.new) }
    ensures err { IfErr result (λ fault. IsRunFault limit (plan_of script.now) fault) }
{
    let mut world = World::new(
        alloc,
        script.threads.len(),
        &script.counters,
        script.onces as usize,
    )?;
    let lines = world.run_observed(alloc, &script.threads, &script.schedule, limit, observer)?;
    Ok(Run { world, lines })
}

/// The text of a run of a script.
#[tactic(auto, unfolding(crate::specs::Text::text_of))]
pub fn run_text(
    alloc: Global,
    script: &Script,
    run: &Run,
    options: Options,
) -> Result<String, AllocError>
    requires { length script.now.threads.items ≤ 64 }
    ensures { IfOk result (λ text. string_bytes text ≡ text_of options (plan_of script.now).cvs (plan_of script.now).threads run.now.lines.items (whole_of script_truths run.now.world)) }
{
    let state = run.world.state();
    let threads = script.threads.as_slice();
    let mut out = String::new(alloc);
    push_lines(&mut out, options.tests, threads, &run.lines)?;
    push_lefts(&mut out, state.busy, &run.lines, threads.len() as u8)?;
    push_row(&mut out, &state.row)?;
    push_history(&mut out, options.history, run.world.history())?;
    push_state(&mut out, options.state, script.cvs, &state)?;
    Ok(out)
}
