//! A script with the schedule of a seed's run in it.

ghost use Rattle.std.specs.Prelude.{◌≡◌, ◌≢◌, ℕ, ◌≤◌, ◌++◌, List, flat_map, length, IfOk, IfErr, IsErrOf, OnOk, true, false, string_bytes};
ghost use Rattle.serde_json.specs.Find.{get};
ghost use Rattle.serde_json.specs.View.{view};
ghost use Rattle.ns_replay.specs.Transfer.{Gave, IsAskedEnough, IsEnough, IsFine, IsReadFault, IsWriteFault};
ghost use Rattle.ns_replay.specs.Replaying.{Ended, WasRead};
ghost use Rattle.ns_replay.specs.Script.{plan_of};
ghost use Rattle.ns_outcomes.specs.Answers.{Answers, ComesElsewhere, ComesTo, IsLike, IsScheduled, IsUnscheduled};
ghost use Rattle.ns_outcomes.specs.Texts.{AreMembers, IsMember, IsScriptText, line_text, member_text, names_before, next_text, word_text, words_text};

use crate::outcome::{outcome_of, run_seed};
use ns_replay::{Fault, Script, ScriptPath, Sink, Source, collect_bytes, run_bytes, write_all};
use ns_world::observer::Nobody;
use ns_world::schedule::Turn;
use serde_json::Value;
use std::alloc::{AllocError, Global};

/// How many words a schedule may have.
const MAX_WORDS: usize = 4096;

/// How many bytes a script may have.
const MAX_BYTES: usize = 1_048_576;

/// A word of a schedule.
#[tactic(auto, unfolding(crate::specs::Texts::word_text))]
fn push_word(out: &mut String, word: &Turn) -> Result<(), AllocError>
    ensures { OnOk result (string_bytes out.new ≡ string_bytes out.old ++ word_text word.now) }
{
    let Turn {
        thread,
        whole,
        times,
    } = *word;
    write!(out, "{thread}")?;
    if whole {
        out.push_str("!")?;
    }
    if times != 1 {
        write!(out, "*{times}")?;
    }
    Ok(())
}

/// Words behind another, each after one space.
fn push_next(out: &mut String, words: &[Turn]) -> Result<(), AllocError>
    ensures { OnOk result (string_bytes out.new ≡ string_bytes out.old ++ flat_map next_text words.now) }
{
    for word in words {
        out.push_str(" ")?;
        push_word(out, word)?;
    }
    Ok(())
}

/// The words of a schedule, parted by one space.
fn push_words(out: &mut String, words: &[Turn]) -> Result<(), AllocError>
    ensures { OnOk result (string_bytes out.new ≡ string_bytes out.old ++ words_text words.now) }
{
    let Some((first, more)) = words.split_first() else {
        return Ok(());
    };
    push_word(out, first)?;
    push_next(out, more)
}

/// A member with its value as it is printed.
#[tactic(auto, unfolding(crate::specs::Texts::member_text))]
fn push_printed(out: &mut String, name: &str, printed: &str) -> Result<(), AllocError>
    ensures { OnOk result (string_bytes out.new ≡ string_bytes out.old ++ member_text name.now printed.now) }
{
    write!(out, "\"{name}\":{printed},")
}

/// The member of this name, if the value has it.
fn push_member(alloc: Global, out: &mut String, value: &Value, name: &str) -> Result<(), AllocError>
    ensures { OnOk result ((text : List ℕ) × IsMember name.now (get name.now (view value.now)) text × (string_bytes out.new ≡ string_bytes out.old ++ text)) }
{
    if let Some(member) = value.get(name) {
        let printed = member.to_string(alloc)?;
        push_printed(out, name, &printed)?;
    }
    Ok(())
}

/// The members before the schedule, as the script has them.
fn push_members(alloc: Global, out: &mut String, value: &Value) -> Result<(), AllocError>
    ensures { OnOk result ((text : List ℕ) × AreMembers names_before (view value.now) text × (string_bytes out.new ≡ string_bytes out.old ++ text)) }
{
    push_member(alloc, out, value, "version")?;
    push_member(alloc, out, value, "counters")?;
    push_member(alloc, out, value, "onces")?;
    push_member(alloc, out, value, "cvs")?;
    push_member(alloc, out, value, "threads")
}

/// A script of this JSON value, with this schedule in place of its own.
#[tactic(auto, unfolding(crate::specs::Texts::line_text))]
fn line(alloc: Global, value: &Value, words: &[Turn]) -> Result<String, AllocError>
    ensures { IfOk result (λ text. (members : List ℕ) × AreMembers names_before (view value.now) members × (string_bytes text ≡ line_text members words.now)) }
{
    let mut out = String::new(alloc);
    out.push_str("{")?;
    push_members(alloc, &mut out, value)?;
    out.push_str("\"schedule\":\"")?;
    push_words(&mut out, words)?;
    out.push_str("\"}\n")?;
    Ok(out)
}

/// A script with this schedule in place of its own, if its bytes are JSON.
fn script_with(alloc: Global, bytes: &[u8], words: &[Turn]) -> Result<String, AllocError>
    ensures { IfOk result (λ text. IsScriptText bytes.now words.now (string_bytes text)) }
{
    let Ok(value) = Value::from_slice(alloc, bytes) else {
        return Err(AllocError);
    };
    line(alloc, &value, words)
}

/// The script's own words, and then these.
fn joined(alloc: Global, script: &Script, words: &[Turn]) -> Result<Vec<Turn>, AllocError>
    ensures { IfOk result (λ schedule. schedule.items ≡ script.now.schedule.items ++ words.now) }
{
    let mut schedule = Vec::new(alloc);
    schedule.extend_from_slice(&script.schedule)?;
    schedule.extend_from_slice(words)?;
    Ok(schedule)
}

/// Whether two scripts declare the same, and have the same schedule.
fn are_alike(one: &Script, other: &Script) -> bool
    ensures same { result ≡ true → IsLike (plan_of one.now) (plan_of other.now) }
    ensures other { result ≡ false → IsLike (plan_of one.now) (plan_of other.now) → ⊥ }
{
    if one.counters != other.counters {
        return false;
    }
    if one.schedule != other.schedule {
        return false;
    }
    if one.onces != other.onces {
        return false;
    }
    one.cvs == other.cvs
}

/// Whether the text is read as a script like this one, and a replay of it comes to just this outcome.
fn comes_to(
    alloc: Global,
    text: &str,
    wanted: &Script,
    outcome: &str,
    limit: u32,
) -> Result<bool, AllocError>
    requires { length text.now ≤ 1048576 }
    ensures comes { IfOk result (λ same. same ≡ true → ComesTo limit text.now (plan_of wanted.now) outcome.now) }
    ensures other { IfOk result (λ same. same ≡ false → ComesElsewhere limit text.now (plan_of wanted.now) outcome.now) }
{
    let (script, run) = match run_bytes(alloc, text.as_bytes(), limit, &mut Nobody) {
        Ok(ran) => ran,
        Err(Fault::OutOfMemory) => return Err(AllocError),
        Err(_) => return Ok(false),
    };
    let threads = script.threads.len() as u8;
    let made = outcome_of(alloc, &run.world, &run.lines, threads)?;
    if !are_alike(&script, wanted) {
        return Ok(false);
    }
    Ok(made.as_str() == outcome)
}

/// The script that the bytes give, with the schedule of a seed's run.
fn script_for(alloc: Global, bytes: &[u8], seed: u64, limit: u32) -> Result<String, Fault>
    requires { length bytes.now ≤ 1048576 }
    ensures ok { IfOk result (λ text. IsScheduled limit seed bytes.now (string_bytes text)) }
    ensures err { IfErr result (λ fault. IsUnscheduled limit seed bytes.now fault) }
{
    let (script, _) = run_bytes(alloc, bytes, limit, &mut Nobody)?;
    let run = run_seed(alloc, &script, seed, limit)?;
    let schedule = joined(alloc, &script, &run.words)?;
    if schedule.len() > MAX_WORDS {
        return Err(Fault::TooMany(ScriptPath::Schedule));
    }
    let wanted = Script { schedule, ..script };
    let text = script_with(alloc, bytes, &wanted.schedule)?;
    if text.len() > MAX_BYTES {
        return Err(Fault::TooMany(ScriptPath::Root));
    }
    if !comes_to(alloc, &text, &wanted, &run.text, limit)? {
        return Err(Fault::BadScript(ScriptPath::Root));
    }
    Ok(text)
}

/// Reads a script to its end, and writes it with the schedule of a seed's run in place of its own.
///
/// The run is that of the seed in [`outcomes`](crate::outcomes): a replay of the text comes to its outcome. The
/// text has one line, with the members in the order in which a script is checked; the drawn words are as few as
/// can be. Returns `Ok` when all of it was taken. It refuses what a replay refuses, in the same order and at the
/// same places; a run that needs more turns than the limit (`StepLimit`); a schedule of more than 4,096 words
/// (`TooMany`, at `/schedule`); and a text of more than 1 MiB (`TooMany`, at the whole), or one that isn't read
/// back as it should be (`BadScript`, there).
/// After `Write` the sink has a front of the text, and after any other fault nothing was written.
///
/// Needs a source and a sink that have not failed. What it says of bytes it says of streams that know theirs.
pub fn schedule<S: Source, W: Sink>(
    alloc: Global,
    source: &mut S,
    sink: &mut W,
    seed: u64,
    limit: u32,
) -> Result<(), Fault>
    requires source { S.has_failed source.old ≡ false }
    requires sink { W.has_failed sink.old ≡ false }
    // What was read gives what was answered and written: a script that comes to an outcome of the one read.
    ensures answers { Gave (S.to_come source.old) (S.to_come source.new) (λ bytes.
        IsEnough bytes (S.last source.new) × WasRead bytes (S.to_come source.new) result × Answers (W.taken sink.old) (W.taken sink.new) (IsScheduled limit seed) (IsUnscheduled limit seed) bytes result) }
    // Nothing is written before the whole text is made, and read back.
    ensures untouched { IfErr result (λ fault. fault ≢ Fault.Write → sink.new ≡ sink.old) }
    // The source is asked no more often than it may be, and never after its end.
    ensures asked { IsAskedEnough (S.asked source.old) (S.asked source.new) }
    ensures ended { Ended (S.ends source.old) (S.ends source.new) result }
    ensures read_fault { IsErrOf result Fault.Read → IsReadFault (S.has_failed source.new) (S.asked source.old) (S.asked source.new) }
    // A read or a write that failed is answered, and not tried again.
    ensures failed_read { S.has_failed source.new ≡ true → IsErrOf result Fault.Read }
    ensures failed_write { W.has_failed sink.new ≡ true → IsErrOf result Fault.Write }
    ensures fine { OnOk result (IsFine (W.has_failed sink.new) (W.stuck sink.old) (W.stuck sink.new)) }
    ensures write_fault { IsErrOf result Fault.Write → IsWriteFault (W.has_failed sink.new) (W.stuck sink.old) (W.stuck sink.new) }
{
    let bytes = collect_bytes(alloc, source)?;
    let text = script_for(alloc, &bytes, seed, limit)?;
    write_all(sink, text.as_bytes())
}
