//! Pictures, from the bytes of a script to the bytes of lines, or of an SVG document.

ghost use Rattle.std.specs.Prelude.{◌≡◌, ◌≢◌, ◌≤◌, length, IfOk, IfErr, IsErrOf, OnOk, true, false};
ghost use Rattle.ns_replay.specs.Transfer.{Gave, IsAskedEnough, IsEnough, IsFine, IsReadFault, IsWriteFault};
ghost use Rattle.ns_replay.specs.Condition.{script_truths};
ghost use Rattle.ns_replay.specs.Replaying.{Answers, Ended, HasRun, IsRefused, IsRunFault, WasRead};
ghost use Rattle.ns_replay.specs.Runnable.{IsRunnable};
ghost use Rattle.ns_replay.specs.Script.{plan_of};
ghost use Rattle.ns_timeline.specs.Pictures.{IsDrawing, IsPicture, RunsIn};
ghost use Rattle.ns_timeline.specs.Records.{IsRecordOf};
ghost use Rattle.ns_world.specs.Whole.{whole_of};

use crate::columns::busiest;
use crate::document::document_of;
use crate::line::Lines;
use crate::record::Record;
use crate::sight::has;
use crate::stepping::Drawing;
use ns_model::seats::Seats;
use ns_replay::{
    Fault, Run, Script, Sink, Source, collect_bytes, read_script, run_bytes, run_script, write_all,
};
use ns_world::observer::Nobody;
use ns_world::schedule::Line;
use std::alloc::Global;

/// How many calls of a thread are over.
fn finished(lines: &[Line], thread: u8) -> usize {
    lines.iter().filter(|line| line.thread == thread).count()
}

/// How many calls each thread has begun.
fn begun(run: &Run) -> [usize; 64] {
    let busy = run.world.state().busy;
    let mut calls = [0usize; 64];
    for thread in 0..64u8 {
        let left = usize::from(has(busy, thread));
        calls[thread as usize] = finished(&run.lines, thread).saturating_add(left);
    }
    calls
}

/// The threads of the script that are shown, where it has had this run.
fn shown_in(script: &Script, run: &Run) -> Seats
    requires { IsRunnable (plan_of script.now) }
{
    busiest(&begun(run), script.threads.len() as u8)
}

/// The threads of the script that have a column: all, or where these are too many those that a run of it tells.
fn columns_for(alloc: Global, script: &Script, limit: u32) -> Result<Seats, Fault>
    requires { IsRunnable (plan_of script.now) }
    ensures { IfErr result (λ fault. IsRunFault limit (plan_of script.now) fault) }
{
    if script.threads.len() <= 16 {
        return Ok(busiest(&[0; 64], script.threads.len() as u8));
    }
    let run = run_script(alloc, script, limit, &mut Nobody)?;
    Ok(shown_in(script, &run))
}

/// The picture of a run of the script that the bytes give.
fn picture_for(alloc: Global, bytes: &[u8], limit: u32) -> Result<Vec<u8>, Fault>
    requires { length bytes.now ≤ 1048576 }
    ensures ok { IfOk result (λ picture. RunsIn limit bytes.now) }
    ensures err { IfErr result (λ fault. IsRefused limit bytes.now fault) }
{
    let script = read_script(alloc, bytes)?;
    let shown = columns_for(alloc, &script, limit)?;
    let paper = Lines::headed(alloc, shown, script.threads.len() <= 16)?;
    let mut drawing = Drawing::new(paper);
    run_script(alloc, &script, limit, &mut drawing)?;
    Ok(drawing.paper.picture)
}

/// The run of the script that the bytes give, and what is kept of its turns.
fn recorded(alloc: Global, bytes: &[u8], limit: u32) -> Result<(Script, Run, Record), Fault>
    requires { length bytes.now ≤ 1048576 }
    ensures ok { IfOk result (λ made. HasRun limit bytes.now (plan_of made.0) (whole_of script_truths made.1.world) made.1.lines.items) }
    ensures told { IfOk result (λ made. IsRecordOf limit (plan_of made.0) made.1.world made.2) }
    ensures err { IfErr result (λ fault. IsRefused limit bytes.now fault) }
{
    let mut drawing = Drawing::new(Record::new(alloc));
    let (script, run) = run_bytes(alloc, bytes, limit, &mut drawing)?;
    Ok((script, run, drawing.paper))
}

/// The drawing of a run of the script that the bytes give.
fn drawing_for(alloc: Global, bytes: &[u8], limit: u32) -> Result<Vec<u8>, Fault>
    requires { length bytes.now ≤ 1048576 }
    ensures ok { IfOk result (λ document. IsDrawing limit bytes.now document.items) }
    ensures err { IfErr result (λ fault. IsRefused limit bytes.now fault) }
{
    let (script, run, record) = recorded(alloc, bytes, limit)?;
    let is_all = script.threads.len() <= 16;
    Ok(document_of(alloc, &record, shown_in(&script, &run), is_all)?)
}

/// Reads a script to its end, runs it in a new world, and then writes a picture of the run.
///
/// The picture has a column for each thread, or for the sixteen with the most calls, and a line for each
/// turn that changed something; docs/SCRIPTS.md says what stands in it. Returns `Ok` when all of it was
/// taken. It refuses what a replay with this limit refuses, in the same order and at the same places: see
/// `ns_replay::replay`. After `Write` the sink has a front of the picture, and after any other fault nothing
/// was written.
///
/// Needs a source and a sink that have not failed. What it says of bytes it says of streams
/// that know theirs.
pub fn timeline<S: Source, W: Sink>(
    alloc: Global,
    source: &mut S,
    sink: &mut W,
    limit: u32,
) -> Result<(), Fault>
    requires source { S.has_failed source.old ≡ false }
    requires sink { W.has_failed sink.old ≡ false }
    // Where a picture is written, the script that was read has a run; each refusal is a replay's.
    ensures answers { Gave (S.to_come source.old) (S.to_come source.new) (λ bytes.
        IsEnough bytes (S.last source.new) × WasRead bytes (S.to_come source.new) result × Answers (W.taken sink.old) (W.taken sink.new) (IsPicture limit) limit bytes result) }
    // Nothing is written before the whole picture is drawn.
    ensures untouched { IfErr result (λ fault. fault ≢ Fault.Write → sink.new ≡ sink.old) }
    // The source is asked no more often than it may be, and never after its end.
    ensures asked { IsAskedEnough (S.asked source.old) (S.asked source.new) }
    ensures ended { Ended (S.ends source.old) (S.ends source.new) result }
    ensures read_fault { IsErrOf result Fault.Read → IsReadFault (S.has_failed source.new) (S.asked source.old) (S.asked source.new) }
    // A read or a write that failed is answered, and not tried again.
    ensures failed_read { S.has_failed source.new ≡ true → IsErrOf result Fault.Read }
    ensures failed_write { W.has_failed sink.new ≡ true → IsErrOf result Fault.Write }
    ensures fine { OnOk result (IsFine (W.has_failed sink.new) (W.stuck sink.old) (W.stuck sink.new)) }
    ensures write_fault { IsErrOf result Fault.Write → IsWriteFault (W.has_failed sink.new) (W.stuck sink.old) (W.stuck sink.new) }
{
    let bytes = collect_bytes(alloc, source)?;
    let picture = picture_for(alloc, &bytes, limit)?;
    write_all(sink, &picture)
}

/// Reads a script to its end, runs it in a new world, and then writes a drawing of the run: one SVG document.
///
/// The document has a lane for each thread, or for the sixteen with the most calls, and a line across for each
/// turn that changed something, at most 2,000; docs/SCRIPTS.md says what stands in it. It is the same for the
/// same script. Returns `Ok` when all of it was taken. It refuses what [`timeline`] refuses, in the same order
/// and at the same places, and leaves the same.
///
/// Needs a source and a sink that have not failed. What it says of bytes it says of streams
/// that know theirs.
pub fn svg<S: Source, W: Sink>(
    alloc: Global,
    source: &mut S,
    sink: &mut W,
    limit: u32,
) -> Result<(), Fault>
    requires source { S.has_failed source.old ≡ false }
    requires sink { W.has_failed sink.old ≡ false }
    // Where a drawing is written, the script that was read has a run; each refusal is a replay's.
    ensures answers { Gave (S.to_come source.old) (S.to_come source.new) (λ bytes.
        IsEnough bytes (S.last source.new) × WasRead bytes (S.to_come source.new) result × Answers (W.taken sink.old) (W.taken sink.new) (IsDrawing limit) limit bytes result) }
    // Nothing is written before the whole drawing is made.
    ensures untouched { IfErr result (λ fault. fault ≢ Fault.Write → sink.new ≡ sink.old) }
    // The source is asked no more often than it may be, and never after its end.
    ensures asked { IsAskedEnough (S.asked source.old) (S.asked source.new) }
    ensures ended { Ended (S.ends source.old) (S.ends source.new) result }
    ensures read_fault { IsErrOf result Fault.Read → IsReadFault (S.has_failed source.new) (S.asked source.old) (S.asked source.new) }
    // A read or a write that failed is answered, and not tried again.
    ensures failed_read { S.has_failed source.new ≡ true → IsErrOf result Fault.Read }
    ensures failed_write { W.has_failed sink.new ≡ true → IsErrOf result Fault.Write }
    ensures fine { OnOk result (IsFine (W.has_failed sink.new) (W.stuck sink.old) (W.stuck sink.new)) }
    ensures write_fault { IsErrOf result Fault.Write → IsWriteFault (W.has_failed sink.new) (W.stuck sink.old) (W.stuck sink.new) }
{
    let bytes = collect_bytes(alloc, source)?;
    let document = drawing_for(alloc, &bytes, limit)?;
    write_all(sink, &document)
}
