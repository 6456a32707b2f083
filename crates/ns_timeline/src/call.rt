//! A call, in the words in which a script has it.

use ns_counters::items::{Item, Items};
use ns_env::limits::Limits;
use ns_replay::ScriptCondition;
use ns_world::call::Call;
use std::alloc::AllocError;

/// The name of a call.
pub fn name(call: Call<ScriptCondition>) -> &'static str {
    match call {
        Call::Lock => "lock",
        Call::RLock => "rlock",
        Call::TryLock => "trylock",
        Call::TryRLock => "rtrylock",
        Call::Unlock => "unlock",
        Call::RUnlock => "runlock",
        Call::UnlockQuiet => "unlockquiet",
        Call::Get(_) => "get",
        Call::Set(_, _) => "set",
        Call::Wait(_, _) => "wait",
        Call::CvWait(_, _) => "cvwait",
        Call::Signal(_) => "signal",
        Call::Broadcast(_) => "broadcast",
        Call::NewNote(_, _) => "newnote",
        Call::Notify(_) => "notify",
        Call::Advance(_) => "advance",
        Call::IsNotified(_) => "isnotified",
        Call::Expiry(_) => "expiry",
        Call::NoteWait(_, _) => "notewait",
        Call::Add(_, _) => "add",
        Call::Value(_) => "value",
        Call::CounterWait(_, _) => "cwait",
        Call::Once(_) => "once",
        Call::Done(_) => "done",
        Call::WaitAny(_, _) => "waitany",
    }
}

/// What may end a wait early.
fn push_limits(out: &mut String, limits: Limits) -> Result<(), AllocError> {
    if let Some(deadline) = limits.deadline {
        write!(out, " deadline {deadline}")?;
    }
    if let Some(note) = limits.note {
        write!(out, " note {note}")?;
    }
    Ok(())
}

/// A number, or a dash for none.
fn push_number_or_dash(out: &mut String, number: Option<u64>) -> Result<(), AllocError> {
    match number {
        Some(number) => write!(out, " {number}"),
        None => out.push_str(" -"),
    }
}

/// The words behind the name of a call on the clock or the notes.
fn push_note_words(out: &mut String, call: Call<ScriptCondition>) -> Result<(), AllocError> {
    match call {
        Call::Notify(note) | Call::IsNotified(note) | Call::Expiry(note) => write!(out, " {note}"),
        Call::Advance(moment) => write!(out, " {moment}"),
        Call::NewNote(parent, deadline) => {
            push_number_or_dash(out, parent.map(u64::from))?;
            push_number_or_dash(out, deadline)
        }
        Call::NoteWait(note, deadline) => {
            write!(out, " {note}")?;
            push_number_or_dash(out, deadline)
        }
        _ => Ok(()),
    }
}

/// The objects of a wait for any of several.
fn push_items(out: &mut String, items: &Items) -> Result<(), AllocError> {
    for place in 0..items.count {
        match items.get(place) {
            Some(Item::OnNote(note)) => write!(out, " n{note}")?,
            Some(Item::OnCounter(counter)) => write!(out, " c{counter}")?,
            Some(Item::OnVariable(k)) => write!(out, " v{k}")?,
            None => {}
        }
    }
    Ok(())
}

/// The words behind the name of a call on counters and once cells.
fn push_object_words(out: &mut String, call: Call<ScriptCondition>) -> Result<(), AllocError> {
    match call {
        Call::Add(counter, delta) => write!(out, " {counter} {delta}"),
        Call::Value(object) | Call::Once(object) | Call::Done(object) => write!(out, " {object}"),
        Call::CounterWait(counter, deadline) => {
            write!(out, " {counter}")?;
            push_number_or_dash(out, deadline)
        }
        Call::WaitAny(items, deadline) => {
            push_number_or_dash(out, deadline)?;
            push_items(out, &items)
        }
        _ => push_note_words(out, call),
    }
}

/// The words behind the name of a call.
fn push_words(out: &mut String, call: Call<ScriptCondition>) -> Result<(), AllocError> {
    match call {
        Call::Get(cell) => write!(out, " {cell}"),
        Call::Set(cell, value) => write!(out, " {cell} {value}"),
        Call::Wait(condition, limits) => {
            write!(out, " {condition}")?;
            push_limits(out, limits)
        }
        Call::CvWait(k, limits) => {
            write!(out, " {k}")?;
            push_limits(out, limits)
        }
        Call::Signal(k) | Call::Broadcast(k) => write!(out, " {k}"),
        _ => push_object_words(out, call),
    }
}

/// A call, in the words in which a script has it.
pub fn push_call(out: &mut String, call: Call<ScriptCondition>) -> Result<(), AllocError> {
    out.push_str(name(call))?;
    push_words(out, call)
}
