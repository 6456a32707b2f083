//! A replay, from bytes to bytes.
//!
//! The source is read to its end, the script is read and run, and only then is anything
//! written. Nothing else here takes memory.

ghost use Rattle.std.specs.Prelude.{◌≡◌, ◌≢◌, ◌≤◌, length, IfOk, IfErr, IsErrOf, OnOk, true, false, string_bytes};
ghost use Rattle.ns_replay.specs.Prelude.{Answers, Ended, Gave, HasRun, IsAskedEnough, IsEnough, IsFine, IsReadFault, IsRefused, IsText, IsToldTo, IsWriteFault, WasRead, plan_of, script_truths, whole_of};

use crate::condition::ScriptCondition;
use crate::fault::Fault;
use crate::options::Options;
use crate::running::{Run, run_script, run_text};
use crate::script::{Script, read_script};
use crate::streams::{Sink, Source};
use crate::transfer::{collect_bytes, write_all};
use ns_world::call::Call;
use ns_world::observer::{Nobody, Observer};
use ns_world::world::World;
use std::alloc::Global;

/// Reads the script that the bytes give, runs it in a new world, and tells the observer of each turn.
///
/// Refuses bytes that are no JSON (`NotJson`); the first place of the script that is missing or of the
/// wrong kind (`BadScript`) or that holds too much (`TooMany`), member by member; and a schedule that
/// needs more turns than `limit` (`StepLimit`). An allocation that is refused is answered at once
/// (`OutOfMemory`).
///
/// Needs at most 1 MiB.
pub fn run_bytes<O: Observer<World<ScriptCondition, 8>, Call<ScriptCondition>>>(
    alloc: Global,
    bytes: &[u8],
    limit: u32,
    observer: &mut O,
) -> Result<(Script, Run), Fault>
    requires { length bytes.now ≤ 1048576 }
    ensures ok { IfOk result (λ ran. HasRun limit bytes.now (plan_of ran.0) (whole_of script_truths ran.1.world) ran.1.lines.items) }
    ensures told { IfOk result (λ ran. IsToldTo O.sees limit (plan_of ran.0) observer.old ran.1.world observer.new) }
    ensures err { IfErr result (λ fault. IsRefused limit bytes.now fault) }
{
    let script = read_script(alloc, bytes)?;
    let run = run_script(alloc, &script, limit, observer)?;
    Ok((script, run))
}

/// The text of a run of the script that the bytes give.
fn text_for(alloc: Global, bytes: &[u8], options: Options) -> Result<String, Fault>
    requires { length bytes.now ≤ 1048576 }
    ensures ok { IfOk result (λ text. IsText options bytes.now (string_bytes text)) }
    ensures err { IfErr result (λ fault. IsRefused options.limit bytes.now fault) }
{
    let (script, run) = run_bytes(alloc, bytes, options.limit, &mut Nobody)?;
    Ok(run_text(alloc, &script, &run, options)?)
}

/// Reads a script to its end, runs it in a new world, and then writes the text of the run.
///
/// Returns `Ok` when the whole text was taken. Refuses, in this order: a source that failed or
/// did not end in 2,097,152 reads (`Read`); more than 1 MiB, as soon as it has come (`TooMany`);
/// bytes that are no JSON (`NotJson`); the first place of the script that is missing or of the
/// wrong kind (`BadScript`) or that holds too much (`TooMany`), member by member; a schedule that
/// needs more turns than `options.limit` (`StepLimit`); and a sink that failed or took no byte
/// (`Write`). An allocation that is refused is answered at once (`OutOfMemory`). After `Write`
/// the sink has a front of the text, and after any other fault nothing was written.
///
/// Needs a source and a sink that have not failed. What it says of bytes it says of streams
/// that know theirs.
///
/// It takes the allocator first, as whoever takes memory does, and is generic over its streams,
/// since a clause names their ghost members through the type.
pub fn replay<S: Source, W: Sink>(
    alloc: Global,
    source: &mut S,
    sink: &mut W,
    options: Options,
) -> Result<(), Fault>
    requires source { S.has_failed source.old ≡ false }
    requires sink { W.has_failed sink.old ≡ false }
    // What was read gives what was answered and written, and nothing else was.
    ensures answers { Gave (S.to_come source.old) (S.to_come source.new) (λ bytes.
        IsEnough bytes (S.last source.new) × WasRead bytes (S.to_come source.new) result × Answers (W.taken sink.old) (W.taken sink.new) (IsText options) options.limit bytes result) }
    // Nothing is written before the whole run is made.
    ensures untouched { IfErr result (λ fault. fault ≢ Fault.Write → sink.new ≡ sink.old) }
    // The source is asked no more often than it may be, and never after its end.
    ensures asked { IsAskedEnough (S.asked source.old) (S.asked source.new) }
    ensures ended { Ended (S.ends source.old) (S.ends source.new) result }
    ensures read_fault { IsErrOf result Fault.Read → IsReadFault (S.has_failed source.new) (S.asked source.old) (S.asked source.new) }
    // A read or a write that failed is answered, and not tried again.
    ensures failed_read { S.has_failed source.new ≡ true → IsErrOf result Fault.Read }
    ensures failed_write { W.has_failed sink.new ≡ true → IsErrOf result Fault.Write }
    ensures fine { OnOk result (IsFine (W.has_failed sink.new) (W.stuck sink.old) (W.stuck sink.new)) }
    ensures write_fault { IsErrOf result Fault.Write → IsWriteFault (W.has_failed sink.new) (W.stuck sink.old) (W.stuck sink.new) }
{
    let bytes = collect_bytes(alloc, source)?;
    let text = text_for(alloc, &bytes, options)?;
    write_all(sink, text.as_bytes())
}
