//! The outcomes of a script, from its bytes to their text.

ghost use Rattle.std.specs.Prelude.{◌≡◌, ◌≢◌, ◌≤◌, ◌<◌, ◌^◌, ◌++◌, length, IfOk, IfErr, IsErrOf, OnOk, true, false, string_bytes};
ghost use Rattle.ns_replay.specs.Transfer.{Gave, IsAskedEnough, IsEnough, IsFine, IsReadFault, IsWriteFault};
ghost use Rattle.ns_replay.specs.Replaying.{Ended, WasRead};
ghost use Rattle.ns_outcomes.specs.Answers.{Answers, IsReport, IsUndrawn};
ghost use Rattle.ns_outcomes.specs.Tallies.{block_text, blocks_text, head_text, last_line, report_text};

use crate::counting::{Counted, count_outcomes};
use crate::seeds::Seeds;
use crate::tallying::Found;
use crate::watch::Watch;
use ns_replay::{Fault, Sink, Source, collect_bytes, run_bytes, write_all};
use ns_world::observer::Nobody;
use std::alloc::{AllocError, Global};

/// The first line of an outcome's block.
#[tactic(auto, unfolding(crate::specs::Tallies::head_text))]
fn push_head(out: &mut String, number: usize, found: &Found, seeds: Seeds) -> Result<(), AllocError>
    ensures { OnOk result (string_bytes out.new ≡ string_bytes out.old ++ head_text seeds.count number found.now) }
{
    let Found { count, first, .. } = found;
    let all = seeds.count;
    writeln!(
        out,
        "outcome {number}: {count} of {all}, first by seed {first}"
    )
}

/// The block of an outcome.
fn push_block(
    out: &mut String,
    number: usize,
    found: &Found,
    seeds: Seeds,
) -> Result<(), AllocError>
    ensures { OnOk result (string_bytes out.new ≡ string_bytes out.old ++ block_text seeds.count number found.now) }
{
    push_head(out, number, found, seeds)?;
    out.push_str(&found.text)
}

/// The blocks of the outcomes.
fn push_blocks(out: &mut String, found: &[Found], seeds: Seeds) -> Result<(), AllocError>
    ensures { OnOk result (string_bytes out.new ≡ string_bytes out.old ++ blocks_text seeds.count 1 found.now) }
{
    for (before, found) in found.iter().enumerate() {
        push_block(out, before + 1, found, seeds)?;
    }
    Ok(())
}

/// The last line.
#[tactic(auto, unfolding(crate::specs::Tallies::last_line))]
fn push_last(
    out: &mut String,
    schedules: u32,
    distinct: usize,
    turns: u64,
) -> Result<(), AllocError>
    ensures { OnOk result (string_bytes out.new ≡ string_bytes out.old ++ last_line schedules distinct turns) }
{
    writeln!(
        out,
        "schedules {schedules} outcomes {distinct} turns {turns}"
    )
}

/// The text of what the runs of these seeds came to.
#[tactic(auto, unfolding(crate::specs::Tallies::report_text))]
fn report(alloc: Global, counted: &Counted, seeds: Seeds) -> Result<String, AllocError>
    ensures { IfOk result (λ text. string_bytes text ≡ report_text seeds.count counted.now.found.items counted.now.turns) }
{
    let mut out = String::new(alloc);
    push_blocks(&mut out, &counted.found, seeds)?;
    push_last(&mut out, seeds.count, counted.found.len(), counted.turns)?;
    Ok(out)
}

/// The text of the outcomes of the script that the bytes give.
fn report_for<P: Watch>(
    alloc: Global,
    bytes: &[u8],
    seeds: Seeds,
    watch: &mut P,
) -> Result<String, Fault>
    requires { length bytes.now ≤ 1048576 }
    ensures ok { IfOk result (λ text. IsReport seeds bytes.now (string_bytes text)) }
    ensures err { IfErr result (IsUndrawn seeds (P.last watch.old) (P.last watch.new) bytes.now) }
{
    let (script, _) = run_bytes(alloc, bytes, seeds.limit, &mut Nobody)?;
    let counted = count_outcomes(alloc, &script, seeds, watch)?;
    Ok(report(alloc, &counted, seeds)?)
}

/// Reads a script to its end, runs it once for each seed, and then writes each distinct outcome, the most frequent
/// first, and the turns of all runs.
///
/// A run has the script's own schedule first, and then turns that the seed draws, until no thread can go on. An
/// outcome is the answers by thread and call, `left` for a call that can't go on, and the row; docs/SCRIPTS.md
/// says how the text looks, and how turns are drawn. Returns `Ok` when the whole text was taken. It refuses what
/// a replay refuses, in the same order and at the same places (see `ns_replay::replay`); the limit is that of
/// each run, and where one needs more (`StepLimit`), `watch` was told its seed last. After `Write` the sink has a
/// front of the text, and after any other fault nothing was written.
///
/// Needs a source and a sink that have not failed. What it says of bytes it says of streams that know theirs.
pub fn outcomes<S: Source, W: Sink, P: Watch>(
    alloc: Global,
    source: &mut S,
    sink: &mut W,
    seeds: Seeds,
    watch: &mut P,
) -> Result<(), Fault>
    requires source { S.has_failed source.old ≡ false }
    requires sink { W.has_failed sink.old ≡ false }
    // What was read gives what was answered and written: the distinct outcomes of the seeds' runs, each with how
    // many came to it and the first of them. Where the run of a seed needs more turns, that seed was told last.
    ensures answers { Gave (S.to_come source.old) (S.to_come source.new) (λ bytes.
        IsEnough bytes (S.last source.new) × WasRead bytes (S.to_come source.new) result × Answers (W.taken sink.old) (W.taken sink.new) (IsReport seeds) (IsUndrawn seeds (P.last watch.old) (P.last watch.new)) bytes result) }
    // Nothing is written before all runs are made.
    ensures untouched { IfErr result (λ fault. fault ≢ Fault.Write → sink.new ≡ sink.old) }
    // The source is asked no more often than it may be, and never after its end.
    ensures asked { IsAskedEnough (S.asked source.old) (S.asked source.new) }
    ensures ended { Ended (S.ends source.old) (S.ends source.new) result }
    ensures read_fault { IsErrOf result Fault.Read → IsReadFault (S.has_failed source.new) (S.asked source.old) (S.asked source.new) }
    // A read or a write that failed is answered, and not tried again.
    ensures failed_read { S.has_failed source.new ≡ true → IsErrOf result Fault.Read }
    ensures failed_write { W.has_failed sink.new ≡ true → IsErrOf result Fault.Write }
    ensures fine { OnOk result (IsFine (W.has_failed sink.new) (W.stuck sink.old) (W.stuck sink.new)) }
    ensures write_fault { IsErrOf result Fault.Write → IsWriteFault (W.has_failed sink.new) (W.stuck sink.old) (W.stuck sink.new) }
{
    let bytes = collect_bytes(alloc, source)?;
    let text = report_for(alloc, &bytes, seeds, watch)?;
    write_all(sink, text.as_bytes())
}
