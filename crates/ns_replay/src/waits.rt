//! What the words of a wait write.

ghost use Rattle.std.specs.Prelude.{◌≡◌, map, IfOk};
ghost use Rattle.ns_replay.specs.Prelude.{at_least_of, bounded_cell_of, condition_of, limits_of, note_limit_of, parts, variable_wait_of, wait_of};

use crate::condition::{AtLeast, ScriptCondition};
use crate::words::{CELLS, NOTES, moment, number, number_below, parts_at};
use ns_env::limits::Limits;
use std::alloc::{AllocError, Global};

/// The cell that the parts of `I>` at `>` write.
#[tactic(auto, unfolding(crate::specs::Waits::bounded_cell_of))]
fn bounded_cell(words: &[&str]) -> Option<u8>
    ensures { result ≡ bounded_cell_of (map (λ x. x.now) words.now) }
{
    match words {
        [cell, rest] => {
            if rest.is_empty() {
                number_below(cell, CELLS)
            } else {
                None
            }
        }
        _ => None,
    }
}

/// What the parts of `I>=V` at `=` write.
#[tactic(auto, unfolding(crate::specs::Waits::at_least_of))]
fn at_least(alloc: Global, words: &[&str]) -> Result<Option<AtLeast>, AllocError>
    ensures { IfOk result (λ o. o ≡ at_least_of (map (λ x. x.now) words.now)) }
{
    match words {
        [bound, least] => {
            let sides = parts_at(alloc, bound, '>')?;
            match (bounded_cell(&sides), number(least)) {
                (Some(cell), Some(least)) => Ok(Some(AtLeast { cell, least })),
                _ => Ok(None),
            }
        }
        _ => Ok(None),
    }
}

/// What the word `I>=V` writes.
fn part(alloc: Global, word: &str) -> Result<Option<AtLeast>, AllocError>
    ensures { IfOk result (λ o. o ≡ at_least_of (parts 61 word.now)) }
{
    let words = parts_at(alloc, word, '=')?;
    at_least(alloc, &words)
}

/// The condition that the parts at `&` write: `I>=V` or `I>=V&I>=V`.
#[tactic(auto, unfolding(crate::specs::Waits::condition_of))]
fn condition(alloc: Global, words: &[&str]) -> Result<Option<ScriptCondition>, AllocError>
    ensures { IfOk result (λ o. o ≡ condition_of (map (λ x. x.now) words.now)) }
{
    match words {
        [first] => match part(alloc, first)? {
            Some(first) => Ok(Some(ScriptCondition {
                first,
                second: None,
            })),
            None => Ok(None),
        },
        [first, second] => match (part(alloc, first)?, part(alloc, second)?) {
            (Some(first), Some(second)) => Ok(Some(ScriptCondition {
                first,
                second: Some(second),
            })),
            _ => Ok(None),
        },
        _ => Ok(None),
    }
}

/// `[note M]`
#[tactic(auto, unfolding(crate::specs::Waits::note_limit_of))]
fn note_limit(words: &[&str]) -> Option<Option<u8>>
    ensures { result ≡ note_limit_of (map (λ x. x.now) words.now) }
{
    match words {
        [] => Some(None),
        [name, word] => {
            if *name == "note" {
                let note = number_below(word, NOTES)?;
                Some(Some(note))
            } else {
                None
            }
        }
        _ => None,
    }
}

/// `[deadline T] [note M]`
#[tactic(auto, unfolding(crate::specs::Waits::limits_of))]
fn limits(words: &[&str]) -> Option<Limits>
    ensures { result ≡ limits_of (map (λ x. x.now) words.now) }
{
    match words {
        [name, word, rest @ ..] => {
            if *name == "deadline" {
                let moment = moment(word)?;
                let note = note_limit(rest)?;
                Some(Limits {
                    deadline: Some(moment),
                    note,
                })
            } else {
                let note = note_limit(words)?;
                Some(Limits {
                    deadline: None,
                    note,
                })
            }
        }
        _ => {
            let note = note_limit(words)?;
            Some(Limits {
                deadline: None,
                note,
            })
        }
    }
}

/// What the words of a conditional wait after its name write: `COND [deadline T] [note M]`.
#[tactic(auto, unfolding(crate::specs::Waits::wait_of))]
pub fn wait(alloc: Global, words: &[&str]) -> Result<Option<(ScriptCondition, Limits)>, AllocError>
    ensures { IfOk result (λ o. o ≡ wait_of (map (λ x. x.now) words.now)) }
{
    match words {
        [word, rest @ ..] => {
            let words = parts_at(alloc, word, '&')?;
            match (condition(alloc, &words)?, limits(rest)) {
                (Some(condition), Some(limits)) => Ok(Some((condition, limits))),
                _ => Ok(None),
            }
        }
        _ => Ok(None),
    }
}

/// What the words of a wait for a condition variable after its name write, where there are so many
/// variables: `K [deadline T] [note M]`.
#[tactic(auto, unfolding(crate::specs::Waits::variable_wait_of))]
pub fn variable_wait(words: &[&str], cvs: u8) -> Option<(u8, Limits)>
    ensures { result ≡ variable_wait_of cvs (map (λ x. x.now) words.now) }
{
    match words {
        [word, rest @ ..] => {
            let k = number_below(word, cvs)?;
            let limits = limits(rest)?;
            Some((k, limits))
        }
        _ => None,
    }
}
