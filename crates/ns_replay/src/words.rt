//! The words of a text: its parts between separators, and the numbers that they write.

ghost use Rattle.std.specs.Prelude.{◌≡◌, ◌<◌, map, IfOk};
ghost use Rattle.ns_replay.specs.Words.{parts, number_of, below, change_of, moment_of, moment_or_none_of, note_or_none_of};

use std::alloc::{AllocError, Global};

/// How many cells a row has.
pub const CELLS: u8 = 8;

/// How many notes there may be.
pub const NOTES: u8 = 64;

/// The first number that is no moment.
const MOMENTS: u64 = 1 << 54;

/// The parts of a text between the separators.
pub fn parts_at(alloc: Global, text: &str, separator: char) -> Result<Vec<&str>, AllocError>
    requires { separator < 128 }
    ensures { IfOk result (λ v. map (λ x. x.now) v.items ≡ parts separator text.now) }
{
    text.split(separator).collect(alloc)
}

/// The number that a word writes: digits, with no 0 before another, of a number below 2^64.
#[tactic(auto, unfolding(crate::specs::Words::number_of))]
pub fn number(word: &str) -> Option<u64>
    ensures { result ≡ number_of word.now }
{
    let bytes = word.as_bytes();
    if bytes.is_empty() || bytes[0] == b'+' || (bytes[0] == b'0' && bytes.len() > 1) {
        return None;
    }
    word.parse::<u64>().ok()
}

/// The number that a word writes, if it is below the bound.
pub fn number_below(word: &str, bound: u8) -> Option<u8>
    ensures { result ≡ below bound (number_of word.now) }
{
    let n = number(word)?;
    if n < bound as u64 {
        Some(n as u8)
    } else {
        None
    }
}

/// The moment that a word writes, in ticks.
pub fn moment(word: &str) -> Option<u64>
    ensures { result ≡ moment_of word.now }
{
    let n = number(word)?;
    if n < MOMENTS { Some(n) } else { None }
}

/// The moment that a word writes, or none for a dash.
pub fn moment_or_none(word: &str) -> Option<Option<u64>>
    ensures { result ≡ moment_or_none_of word.now }
{
    if word == "-" {
        return Some(None);
    }
    let n = moment(word)?;
    Some(Some(n))
}

/// The number of a note that a word writes, or none for a dash.
pub fn note_or_none(word: &str) -> Option<Option<u8>>
    ensures { result ≡ note_or_none_of word.now }
{
    if word == "-" {
        return Some(None);
    }
    let n = number_below(word, NOTES)?;
    Some(Some(n))
}

/// The change that the parts of a word at `-` write: `N` or `-N`, of a number that an `i64` holds.
#[tactic(auto, unfolding(crate::specs::Words::change_of))]
pub fn change(words: &[&str]) -> Option<i64>
    ensures { result ≡ change_of (map (λ x. x.now) words.now) }
{
    match words {
        [digits] => {
            let n = number(digits)?;
            i64::try_from(n).ok()
        }
        [empty, digits] => {
            let n = number(digits)?;
            if empty.is_empty() {
                i64::try_from(-i128::from(n)).ok()
            } else {
                None
            }
        }
        _ => None,
    }
}
