//! What the words of a wait for any of several objects write.

ghost use Rattle.std.specs.Prelude.{◌≡◌, map, option_map, IfOk};
ghost use Rattle.ns_replay.specs.Objects.{after_letter_of, item_of, items_in, any_wait_of};

use crate::words::{NOTES, moment_or_none, number_below, parts_at};
use ns_counters::items::{Item, Items};
use std::alloc::{AllocError, Global};

/// How many counters, once cells and condition variables a script declares.
#[derive(Clone, Copy, Debug)]
pub struct Declared {
    /// How many counters.
    pub counters: u8,
    /// How many once cells.
    pub onces: u8,
    /// How many condition variables.
    pub cvs: u8,
    /// How many of these a wait for any of several objects may name: all of them in version 2, and
    /// none in version 1.
    pub any_cvs: u8,
}

/// What stands behind the letter at which these are the parts of a word, if that is its first.
#[tactic(auto, unfolding(crate::specs::Objects::after_letter_of))]
fn after_letter<'a>(words: &[&'a str]) -> Option<&'a str>
    ensures { option_map (λ x. x.now) result ≡ after_letter_of (map (λ x. x.now) words.now) }
{
    match words {
        [empty, rest] if empty.is_empty() => Some(*rest),
        _ => None,
    }
}

/// One of several objects: `nM`, `cC` or `vK`, where so many counters and condition variables may be
/// named.
#[tactic(auto, unfolding(crate::specs::Objects::item_of))]
fn item(alloc: Global, word: &str, declared: Declared) -> Result<Option<Item>, AllocError>
    ensures { IfOk result (λ o. o ≡ item_of declared word.now) }
{
    let at_note = parts_at(alloc, word, 'n')?;
    if let Some(note) = after_letter(&at_note) {
        return Ok(number_below(note, NOTES).map(Item::OnNote));
    }
    let at_counter = parts_at(alloc, word, 'c')?;
    if let Some(counter) = after_letter(&at_counter) {
        return Ok(number_below(counter, declared.counters).map(Item::OnCounter));
    }
    let at_variable = parts_at(alloc, word, 'v')?;
    match after_letter(&at_variable) {
        Some(variable) => Ok(number_below(variable, declared.any_cvs).map(Item::OnVariable)),
        None => Ok(None),
    }
}

/// Several objects, of which there are at most 16.
fn items(alloc: Global, words: &[&str], declared: Declared) -> Result<Option<Items>, AllocError>
    ensures { IfOk result (λ o. o ≡ items_in declared (map (λ x. x.now) words.now)) }
{
    let mut items = Items::none();
    for word in words {
        match item(alloc, word, declared)? {
            Some(item) if items.count < 16 => items.push(item),
            _ => return Ok(None),
        }
    }
    Ok(Some(items))
}

/// What the words of a wait for any of several objects after its name write: `T ITEM ..`.
#[tactic(auto, unfolding(crate::specs::Objects::any_wait_of))]
pub fn any_wait(
    alloc: Global,
    words: &[&str],
    declared: Declared,
) -> Result<Option<(Items, Option<u64>)>, AllocError>
    ensures { IfOk result (λ o. o ≡ any_wait_of declared (map (λ x. x.now) words.now)) }
{
    match words {
        [word, rest @ ..] => match (items(alloc, rest, declared)?, moment_or_none(word)) {
            (Some(items), Some(deadline)) => Ok(Some((items, deadline))),
            _ => Ok(None),
        },
        _ => Ok(None),
    }
}
