//! What the words of a call and of a schedule write.

ghost use Rattle.std.specs.Prelude.{◌≡◌, map, IfOk};
ghost use Rattle.ns_replay.specs.Calls.{add_of, plain_call_of, short_call_of, long_call_of, brief_call_of, call_of, actor_of, turn_of, repeats_of};

use crate::condition::ScriptCondition;
use crate::objects::{Declared, any_wait};
use crate::waits::{variable_wait, wait};
use crate::words::{
    CELLS, NOTES, change, moment, moment_or_none, note_or_none, number, number_below, parts_at,
};
use ns_world::call::Call;
use ns_world::schedule::Turn;
use std::alloc::{AllocError, Global};

/// The call that one word writes.
fn plain_call(name: &str) -> Option<Call<ScriptCondition>>
    ensures { result ≡ plain_call_of name.now }
{
    match name {
        "lock" => Some(Call::Lock),
        "rlock" => Some(Call::RLock),
        "trylock" => Some(Call::TryLock),
        "rtrylock" => Some(Call::TryRLock),
        "unlock" => Some(Call::Unlock),
        "runlock" => Some(Call::RUnlock),
        "unlockquiet" => Some(Call::UnlockQuiet),
        _ => None,
    }
}

/// The call that a name and a word write, where so many counters, once cells and condition variables
/// are declared.
fn short_call(name: &str, word: &str, declared: Declared) -> Option<Call<ScriptCondition>>
    ensures { result ≡ short_call_of declared name.now word.now }
{
    match name {
        "get" => Some(Call::Get(number_below(word, CELLS)?)),
        "notify" => Some(Call::Notify(number_below(word, NOTES)?)),
        "advance" => Some(Call::Advance(moment(word)?)),
        "isnotified" => Some(Call::IsNotified(number_below(word, NOTES)?)),
        "expiry" => Some(Call::Expiry(number_below(word, NOTES)?)),
        "signal" => Some(Call::Signal(number_below(word, declared.cvs)?)),
        "broadcast" => Some(Call::Broadcast(number_below(word, declared.cvs)?)),
        "value" => Some(Call::Value(number_below(word, declared.counters)?)),
        "once" => Some(Call::Once(number_below(word, declared.onces)?)),
        "done" => Some(Call::Done(number_below(word, declared.onces)?)),
        _ => None,
    }
}

/// The call that a name and two words write.
fn long_call(
    name: &str,
    first: &str,
    second: &str,
    declared: Declared,
) -> Option<Call<ScriptCondition>>
    ensures { result ≡ long_call_of declared name.now first.now second.now }
{
    match name {
        "set" => Some(Call::Set(number_below(first, CELLS)?, number(second)?)),
        "newnote" => Some(Call::NewNote(note_or_none(first)?, moment_or_none(second)?)),
        "notewait" => Some(Call::NoteWait(number_below(first, NOTES)?, moment_or_none(second)?)),
        "cwait" => Some(Call::CounterWait(
            number_below(first, declared.counters)?,
            moment_or_none(second)?,
        )),
        _ => None,
    }
}

/// The call that a name and at most two words after it write.
#[tactic(auto, unfolding(crate::specs::Calls::brief_call_of))]
fn brief_call(words: &[&str], declared: Declared) -> Option<Call<ScriptCondition>>
    ensures { result ≡ brief_call_of declared (map (λ x. x.now) words.now) }
{
    match words {
        [name] => plain_call(name),
        [name, word] => short_call(name, word, declared),
        [name, first, second] => long_call(name, first, second, declared),
        _ => None,
    }
}

/// The change of a counter that words after `add` write, where there are so many counters: `C D`.
#[tactic(auto, unfolding(crate::specs::Calls::add_of))]
fn add(
    alloc: Global,
    words: &[&str],
    counters: u8,
) -> Result<Option<Call<ScriptCondition>>, AllocError>
    ensures { IfOk result (λ o. o ≡ add_of counters (map (λ x. x.now) words.now)) }
{
    match words {
        [counter, word] => {
            let parts = parts_at(alloc, word, '-')?;
            match (number_below(counter, counters), change(&parts)) {
                (Some(counter), Some(delta)) => Ok(Some(Call::Add(counter, delta))),
                _ => Ok(None),
            }
        }
        _ => Ok(None),
    }
}

/// The call that words write, where so many counters, once cells and condition variables are declared.
#[tactic(auto, unfolding(crate::specs::Calls::call_of))]
pub fn call(
    alloc: Global,
    words: &[&str],
    declared: Declared,
) -> Result<Option<Call<ScriptCondition>>, AllocError>
    ensures { IfOk result (λ o. o ≡ call_of declared (map (λ x. x.now) words.now)) }
{
    match words {
        [name, rest @ ..] => {
            if *name == "wait" {
                match wait(alloc, rest)? {
                    Some((condition, limits)) => Ok(Some(Call::Wait(condition, limits))),
                    None => Ok(None),
                }
            } else if *name == "cvwait" {
                match variable_wait(rest, declared.cvs) {
                    Some((k, limits)) => Ok(Some(Call::CvWait(k, limits))),
                    None => Ok(None),
                }
            } else if *name == "waitany" {
                match any_wait(alloc, rest, declared)? {
                    Some((items, deadline)) => Ok(Some(Call::WaitAny(items, deadline))),
                    None => Ok(None),
                }
            } else if *name == "add" {
                add(alloc, rest, declared.counters)
            } else {
                Ok(brief_call(words, declared))
            }
        }
        _ => Ok(None),
    }
}

/// The thread that the parts at `!` name, and whether its call is to end.
#[tactic(auto, unfolding(crate::specs::Calls::actor_of))]
pub fn actor(words: &[&str], threads: u8) -> Option<(u8, bool)>
    ensures { result ≡ actor_of threads (map (λ x. x.now) words.now) }
{
    match words {
        [thread] => Some((number_below(thread, threads)?, false)),
        [thread, rest] => {
            if rest.is_empty() {
                Some((number_below(thread, threads)?, true))
            } else {
                None
            }
        }
        _ => None,
    }
}

/// How often an item is repeated.
pub fn repeats(word: &str) -> Option<u32>
    ensures { result ≡ repeats_of word.now }
{
    let times = number(word)?;
    if 0 < times && times <= 1_000_000 {
        Some(times as u32)
    } else {
        None
    }
}

/// The turns that the parts at `*` write: `A`, `A!`, `A*R` or `A!*R`.
#[tactic(auto, unfolding(crate::specs::Calls::turn_of))]
pub fn turn(alloc: Global, words: &[&str], threads: u8) -> Result<Option<Turn>, AllocError>
    ensures { IfOk result (λ o. o ≡ turn_of threads (map (λ x. x.now) words.now)) }
{
    match words {
        [who] => {
            let marks = parts_at(alloc, who, '!')?;
            match actor(&marks, threads) {
                Some((thread, whole)) => Ok(Some(Turn {
                    thread,
                    whole,
                    times: 1,
                })),
                None => Ok(None),
            }
        }
        [who, times] => {
            let marks = parts_at(alloc, who, '!')?;
            match (actor(&marks, threads), repeats(times)) {
                (Some((thread, whole)), Some(times)) => Ok(Some(Turn {
                    thread,
                    whole,
                    times,
                })),
                _ => Ok(None),
            }
        }
        _ => Ok(None),
    }
}
