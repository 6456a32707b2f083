//! Scripts, read from JSON.
//!
//! A script is an object with the members `version`, `counters`, `onces`, `cvs`, `threads` and
//! `schedule`, checked in this order; each member for its kind, then for its size, then element by element in the same way.
//! `specs/Script.antt` says the same by cases, with a definition for each function here.
//!
//! A number in a member is whole where the JSON reading holds it as a `u64`: `1.0` and `1e0` are
//! not. Where two members have one name, the later one counts. A text that is not UTF-8 is not
//! JSON, nor is one nested deeper than 127 levels, one with half of a surrogate pair, or one with a
//! number past the largest double.

ghost use Rattle.std.specs.Prelude.{◌≡◌, ◌≤◌, map, option_map, IfOk, string_bytes};
ghost use Rattle.std.specs.List.{list_all};
ghost use Rattle.std.specs.BTreeMap.{keys};
ghost use Rattle.ns_replay.specs.Prelude.{Gives, call_at, calls_at, counter_at, counters_of, each_from, is_known, json_of, list_in, members_of, members_view, onces_of, plan_in, plan_of, schedule_of, script_of, threads_of, turn_at, variables_of, version_of, view, words_of};

use crate::calls;
use crate::condition::ScriptCondition;
use crate::fault::Fault;
use crate::objects::Declared;
use crate::path::ScriptPath;
use crate::words::parts_at;
use ns_world::call::Call;
use ns_world::schedule::Turn;
use serde_json::{Map, Value};
use std::alloc::{AllocError, Global};

/// What to run: the counters, how many once cells and condition variables there are, the calls of
/// each thread, and whose turn it is.
#[derive(Drop)]
pub struct Script {
    /// What each counter begins with.
    pub counters: Vec<u32>,
    /// How many once cells there are.
    pub onces: u8,
    /// How many condition variables there are.
    pub cvs: u8,
    /// The calls of each thread, in order.
    pub threads: Vec<Vec<Call<ScriptCondition>>>,
    /// Whose turn it is, item by item.
    pub schedule: Vec<Turn>,
}

/// The list that stands at the path, of at most so many values.
#[tactic(auto, unfolding(crate::specs::Script::list_in))]
fn list<'a>(value: Option<&'a Value>, path: ScriptPath, most: usize) -> Result<&'a [Value], Fault>
    ensures { Gives (λ x. map view x.now) result (list_in most path (option_map (λ v. view v.now) value.entry)) }
{
    let Some(value) = value else {
        return Err(Fault::BadScript(path));
    };
    let Some(list) = value.as_array() else {
        return Err(Fault::BadScript(path));
    };
    if list.len() > most {
        return Err(Fault::TooMany(path));
    }
    Ok(list.as_slice())
}

/// A call.
#[tactic(auto, unfolding(crate::specs::Script::call_at))]
fn call_in(
    alloc: Global,
    value: &Value,
    declared: Declared,
    thread: usize,
    number: usize,
) -> Result<Call<ScriptCondition>, Fault>
    ensures { Gives (λ c. c) result (call_at declared thread number (view value.now)) }
{
    let path = ScriptPath::Call(thread, number);
    let Some(text) = value.as_str() else {
        return Err(Fault::BadScript(path));
    };
    let words = parts_at(alloc, text, ' ')?;
    match calls::call(alloc, &words, declared)? {
        Some(call) => Ok(call),
        None => Err(Fault::BadScript(path)),
    }
}

/// The calls of a thread, one by one.
fn each_call(
    alloc: Global,
    values: &[Value],
    declared: Declared,
    thread: usize,
) -> Result<Vec<Call<ScriptCondition>>, Fault>
    ensures { Gives (λ v. v.items) result (each_from (call_at declared thread) 0 (map view values.now)) }
{
    let mut calls = Vec::new(alloc);
    for (number, value) in values.iter().enumerate() {
        let call = call_in(alloc, value, declared, thread, number)?;
        calls.push(call)?;
    }
    Ok(calls)
}

/// The calls of a thread.
#[tactic(auto, unfolding(crate::specs::Script::calls_at))]
fn calls(
    alloc: Global,
    value: &Value,
    declared: Declared,
    thread: usize,
) -> Result<Vec<Call<ScriptCondition>>, Fault>
    ensures { Gives (λ v. v.items) result (calls_at declared thread (view value.now)) }
{
    let values = list(Some(value), ScriptPath::Thread(thread), 256)?;
    each_call(alloc, values, declared, thread)
}

/// The threads, one by one.
fn each_thread(
    alloc: Global,
    values: &[Value],
    declared: Declared,
) -> Result<Vec<Vec<Call<ScriptCondition>>>, Fault>
    ensures { Gives (λ v. map (λ w. w.items) v.items) result (each_from (calls_at declared) 0 (map view values.now)) }
{
    let mut threads = Vec::new(alloc);
    for (thread, value) in values.iter().enumerate() {
        let calls = calls(alloc, value, declared, thread)?;
        threads.push(calls)?;
    }
    Ok(threads)
}

/// The threads of a script.
#[tactic(auto, unfolding(crate::specs::Script::threads_of))]
fn threads(
    alloc: Global,
    value: &Value,
    declared: Declared,
) -> Result<Vec<Vec<Call<ScriptCondition>>>, Fault>
    ensures { Gives (λ v. map (λ w. w.items) v.items) result (threads_of declared (view value.now)) }
{
    let values = list(value.get("threads"), ScriptPath::Threads, 64)?;
    each_thread(alloc, values, declared)
}

/// The words of a schedule.
fn schedule_words(alloc: Global, text: &str) -> Result<Vec<&str>, AllocError>
    ensures { IfOk result (λ v. map (λ x. x.now) v.items ≡ words_of text.now) }
{
    if text.is_empty() {
        return Ok(Vec::new(alloc));
    }
    parts_at(alloc, text, ' ')
}

/// A word of a schedule.
#[tactic(auto, unfolding(crate::specs::Script::turn_at))]
fn turn_in(alloc: Global, word: &str, threads: u8, number: usize) -> Result<Turn, Fault>
    ensures { Gives (λ t. t) result (turn_at threads number word.now) }
{
    let parts = parts_at(alloc, word, '*')?;
    match calls::turn(alloc, &parts, threads)? {
        Some(turn) => Ok(turn),
        None => Err(Fault::BadScript(ScriptPath::Word(number))),
    }
}

/// The words of a schedule, one by one.
fn each_turn(alloc: Global, words: &[&str], threads: u8) -> Result<Vec<Turn>, Fault>
    ensures { Gives (λ v. v.items) result (each_from (turn_at threads) 0 (map (λ x. x.now) words.now)) }
{
    let mut turns = Vec::new(alloc);
    for (number, word) in words.iter().enumerate() {
        let turn = turn_in(alloc, word, threads, number)?;
        turns.push(turn)?;
    }
    Ok(turns)
}

/// The schedule of a script with so many threads.
#[tactic(auto, unfolding(crate::specs::Script::schedule_of))]
fn schedule(alloc: Global, value: &Value, threads: u8) -> Result<Vec<Turn>, Fault>
    ensures { Gives (λ v. v.items) result (schedule_of threads (view value.now)) }
{
    let Some(text) = value.get("schedule").and_then(Value::as_str) else {
        return Err(Fault::BadScript(ScriptPath::Schedule));
    };
    let words = schedule_words(alloc, text)?;
    if words.len() > 4096 {
        return Err(Fault::TooMany(ScriptPath::Schedule));
    }
    each_turn(alloc, &words, threads)
}

fn known(name: &str) -> bool
    ensures { result ≡ is_known name.now }
{
    name == "version"
        || name == "counters"
        || name == "onces"
        || name == "cvs"
        || name == "threads"
        || name == "schedule"
}

fn all_known(members: &Map<String, Value>) -> bool
    ensures { result ≡ list_all (λ name. is_known (string_bytes name)) (keys members.now) }
{
    members.keys().all(|name| known(name.as_str()))
}

/// The members of a script, with no other among them.
#[tactic(auto, using(crate::proofs::Json::are_known_entries), unfolding(crate::specs::Script::members_of))]
fn members(value: &Value) -> Result<&Map<String, Value>, Fault>
    ensures { Gives (λ m. members_view m.now.entries) result (members_of (view value.now)) }
{
    let Some(members) = value.as_object() else {
        return Err(Fault::BadScript(ScriptPath::Root));
    };
    if !all_known(members) {
        return Err(Fault::BadScript(ScriptPath::Root));
    }
    Ok(members)
}

/// The version of a script.
#[tactic(auto, unfolding(crate::specs::Script::version_of))]
fn version(value: &Value) -> Result<u64, Fault>
    ensures { Gives (λ n. n) result (version_of (view value.now)) }
{
    match value.get("version").and_then(Value::as_u64) {
        Some(1) => Ok(1),
        Some(2) => Ok(2),
        _ => Err(Fault::BadScript(ScriptPath::Version)),
    }
}

/// What a counter begins with.
#[tactic(auto, unfolding(crate::specs::Script::counter_at))]
fn counter(value: &Value, number: usize) -> Result<u32, Fault>
    ensures { Gives (λ n. n) result (counter_at number (view value.now)) }
{
    match value.as_u64() {
        Some(start) if start <= u32::MAX as u64 => Ok(start as u32),
        _ => Err(Fault::BadScript(ScriptPath::Counter(number))),
    }
}

/// What the counters begin with, one by one.
fn each_counter(alloc: Global, values: &[Value]) -> Result<Vec<u32>, Fault>
    ensures { Gives (λ v. v.items) result (each_from counter_at 0 (map view values.now)) }
{
    let mut starts = Vec::new(alloc);
    for (number, value) in values.iter().enumerate() {
        let start = counter(value, number)?;
        starts.push(start)?;
    }
    Ok(starts)
}

/// What the counters begin with: there are none, where the script doesn't say.
#[tactic(auto, unfolding(crate::specs::Script::counters_of))]
fn counters(alloc: Global, value: Option<&Value>) -> Result<Vec<u32>, Fault>
    ensures { Gives (λ v. v.items) result (counters_of (option_map (λ v. view v.now) value.entry)) }
{
    if value.is_none() {
        return Ok(Vec::new(alloc));
    }
    let values = list(value, ScriptPath::Counters, 16)?;
    each_counter(alloc, values)
}

/// How many once cells there are: none, where the script doesn't say.
#[tactic(auto, unfolding(crate::specs::Script::onces_of))]
fn onces(value: Option<&Value>) -> Result<u8, Fault>
    ensures { Gives (λ n. n) result (onces_of (option_map (λ v. view v.now) value.entry)) }
{
    let Some(value) = value else {
        return Ok(0);
    };
    let Some(count) = value.as_u64() else {
        return Err(Fault::BadScript(ScriptPath::Onces));
    };
    if count > 16 {
        return Err(Fault::TooMany(ScriptPath::Onces));
    }
    Ok(count as u8)
}

/// How many condition variables there are: none, where the script doesn't say.
#[tactic(auto, unfolding(crate::specs::Script::variables_of))]
fn variables(value: Option<&Value>) -> Result<u8, Fault>
    ensures { Gives (λ n. n) result (variables_of (option_map (λ v. view v.now) value.entry)) }
{
    let Some(value) = value else {
        return Ok(0);
    };
    let Some(count) = value.as_u64() else {
        return Err(Fault::BadScript(ScriptPath::Variables));
    };
    if count > 4 {
        return Err(Fault::TooMany(ScriptPath::Variables));
    }
    Ok(count as u8)
}

/// The script that a JSON value gives.
#[tactic(auto, unfolding(crate::specs::Script::plan_in))]
fn script_in(alloc: Global, value: &Value) -> Result<Script, Fault>
    ensures { Gives plan_of result (plan_in (view value.now)) }
{
    let _ = members(value)?;
    let version = version(value)?;
    let counters = counters(alloc, value.get("counters"))?;
    let onces = onces(value.get("onces"))?;
    let cvs = variables(value.get("cvs"))?;
    let declared = Declared {
        counters: counters.len() as u8,
        onces,
        cvs,
        any_cvs: if version == 2 { cvs } else { 0 },
    };
    let threads = threads(alloc, value, declared)?;
    let schedule = schedule(alloc, value, threads.len() as u8)?;
    Ok(Script {
        counters,
        onces,
        cvs,
        threads,
        schedule,
    })
}

/// The JSON value that bytes give.
#[tactic(auto, unfolding(crate::specs::Script::json_of))]
fn json(alloc: Global, bytes: &[u8]) -> Result<Value, Fault>
    ensures { Gives view result (json_of bytes.now) }
{
    match Value::from_slice(alloc, bytes) {
        Ok(value) => Ok(value),
        Err(error) if error.is_memory() => Err(Fault::OutOfMemory),
        Err(_) => Err(Fault::NotJson),
    }
}

/// The script that the bytes give, or their first refusal.
#[tactic(auto, unfolding(crate::specs::Script::script_of))]
pub fn read_script(alloc: Global, bytes: &[u8]) -> Result<Script, Fault>
    ensures { Gives plan_of result (script_of bytes.now) }
{
    let value = json(alloc, bytes)?;
    script_in(alloc, &value)
}
