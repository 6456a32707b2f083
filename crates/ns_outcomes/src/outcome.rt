//! The outcome of one run: the answers by thread and call, and the row.

ghost use Rattle.std.specs.Prelude.{◌≡◌, ◌≤◌, ◌<◌, ◌++◌, flat_map, length, string_bytes, IfOk, IfErr, OnOk};
ghost use Rattle.std.specs.List.{range_with_len};
ghost use Rattle.ns_model.specs.Seats.{is_in};
ghost use Rattle.ns_replay.specs.Condition.{script_truths};
ghost use Rattle.ns_replay.specs.Runnable.{IsRunnable};
ghost use Rattle.ns_replay.specs.Script.{plan_of};
ghost use Rattle.ns_replay.specs.Text.{finished_calls, left_text, row_text};
ghost use Rattle.ns_world.specs.Whole.{whole_of};
ghost use Rattle.ns_outcomes.specs.Outcomes.{calls_text, call_text, thread_text, outcome_text, IsDrawFault, IsSeedRun};

use crate::drawing::draw;
use ns_model::seats::Seats;
use ns_replay::{Fault, Script, ScriptCondition, push_reply};
use ns_world::schedule::{Line, Turn};
use ns_world::world::World;
use std::alloc::{AllocError, Global};

/// The run of a seed: the drawn words, its outcome, and how many turns it has.
#[derive(Drop)]
pub struct SeedRun {
    /// The words behind the script's own.
    pub words: Vec<Turn>,
    /// The outcome.
    pub text: String,
    /// How many turns the run has.
    pub turns: u32,
}

/// The line of a finished call.
fn push_call(out: &mut String, line: &Line) -> Result<(), AllocError>
    ensures { OnOk result (string_bytes out.new ≡ string_bytes out.old ++ call_text line.now) }
{
    let Line { thread, call, .. } = *line;
    write!(out, "{thread} {call} ")?;
    push_reply(out, line.reply)?;
    out.push_str("\n")
}

/// The lines of the thread's finished calls.
fn push_calls(out: &mut String, lines: &[Line], thread: u8) -> Result<(), AllocError>
    ensures { OnOk result (string_bytes out.new ≡ string_bytes out.old ++ calls_text lines.now thread) }
{
    for line in lines {
        if line.thread == thread {
            push_call(out, line)?;
        }
    }
    Ok(())
}

/// How many calls of the thread are finished.
fn finished_of(lines: &[Line], thread: u8) -> usize
    ensures { result ≡ finished_calls lines.now thread }
{
    lines.iter().filter(|line| line.thread == thread).count()
}

/// The line of a thread whose call is in progress.
fn push_left(out: &mut String, busy: Seats, lines: &[Line], thread: u8) -> Result<(), AllocError>
    requires { thread < 64 }
    ensures { OnOk result (string_bytes out.new ≡ string_bytes out.old ++ left_text (is_in busy) lines.now thread) }
{
    if busy.contains(thread) {
        let call = finished_of(lines, thread);
        writeln!(out, "{thread} {call} left")?;
    }
    Ok(())
}

/// The lines of a thread.
fn push_thread(out: &mut String, busy: Seats, lines: &[Line], thread: u8) -> Result<(), AllocError>
    requires { thread < 64 }
    ensures { OnOk result (string_bytes out.new ≡ string_bytes out.old ++ thread_text (is_in busy) lines.now thread) }
{
    push_calls(out, lines, thread)?;
    push_left(out, busy, lines, thread)
}

/// The lines of the threads.
fn push_threads(
    out: &mut String,
    busy: Seats,
    lines: &[Line],
    threads: u8,
) -> Result<(), AllocError>
    requires { threads ≤ 64 }
    ensures { OnOk result (string_bytes out.new ≡ string_bytes out.old ++ flat_map (thread_text (is_in busy) lines.now) (range_with_len 0 threads)) }
{
    for thread in 0..threads {
        push_thread(out, busy, lines, thread)?;
    }
    Ok(())
}

/// The line of the cells.
fn push_row(out: &mut String, row: &[u64]) -> Result<(), AllocError>
    ensures { OnOk result (string_bytes out.new ≡ string_bytes out.old ++ row_text row.now) }
{
    out.push_str("row")?;
    for cell in row {
        write!(out, " {cell}")?;
    }
    out.push_str("\n")
}

/// The outcome of a run of so many threads, which ended in this world with these lines.
pub fn outcome_of(
    alloc: Global,
    world: &World<ScriptCondition, 8>,
    lines: &[Line],
    threads: u8,
) -> Result<String, AllocError>
    requires { threads ≤ 64 }
    ensures { IfOk result (λ text. string_bytes text ≡ outcome_text threads (whole_of script_truths world.now) lines.now) }
{
    let state = world.state();
    let mut out = String::new(alloc);
    push_threads(&mut out, state.busy, lines, threads)?;
    push_row(&mut out, &state.row)?;
    Ok(out)
}

/// The run of a script under its own schedule, and then the turns that the seed draws.
pub fn run_seed(alloc: Global, script: &Script, seed: u64, limit: u32) -> Result<SeedRun, Fault>
    requires { IsRunnable (plan_of script.now) }
    ensures ok { IfOk result (λ run. IsSeedRun limit (plan_of script.now) seed run.words.items (string_bytes run.text) run.turns) }
    ensures err { IfErr result (λ fault. IsDrawFault limit (plan_of script.now) seed fault) }
{
    let drawing = draw(alloc, script, seed, limit)?;
    let threads = script.threads.len() as u8;
    let text = outcome_of(alloc, &drawing.world, &drawing.tally.lines, threads)?;
    Ok(SeedRun {
        words: drawing.words,
        text,
        turns: drawing.tally.turns,
    })
}
