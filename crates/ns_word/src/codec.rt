//! The lock word as one number, as a table of atomic words keeps it. The table of the bits, with the value of
//! each, is at the head of `word.rt`; definitions and proofs have the values in `specs/Codec.antt`,
//! `specs/Encoded.antt` and `specs/Bits.antt`.

ghost use Rattle.std.specs.Prelude.{◌≡◌, ◌*◌, ◌/◌, ◌<◌, ◌≤◌, Ok, MatchResult};
ghost use Rattle.ns_word.specs.Prelude.{IsBad, IsPackable, bit, free_word, is_set, number_of, word_of};

use crate::word::Word;

pub(crate) const WRITE: u64 = 1;

pub(crate) const SPIN: u64 = 2;

pub(crate) const WAITING: u64 = 4;

pub(crate) const DESIG: u64 = 8;

pub(crate) const COND: u64 = 16;

pub(crate) const WRITER_WAITS: u64 = 32;

pub(crate) const ALL_FALSE: u64 = 64;

pub(crate) const LONG: u64 = 128;

pub(crate) const READER: u64 = 256;

/// The most readers of a word.
const MOST_READERS: u64 = 64;

/// The number is no lock word's: it has a writer beside readers, or more than 64 readers.
#[derive(Clone, Copy, Debug, PartialEq, Eq)]
pub struct BadWord;

/// The value, if the bit is set.
#[inline(always)]
pub(crate) fn valued(b: bool, value: u64) -> u64
    requires { value < 256 }
    ensures is { result ≡ value * bit b }
    ensures most { result ≤ value }
{
    if b { value } else { 0 }
}

/// Whether the bit of this value is set.
#[inline(always)]
pub(crate) fn is_set(bits: u64, value: u64) -> bool
    requires { 0 < value }
    ensures { result ≡ is_set bits value }
{
    bits / value % 2 == 1
}

/// The number of a word. Each word has one, and [`decode`] gives it back unless the word has a
/// writer beside readers, or more than 64 readers.
#[inline(always)]
pub fn encode(word: Word) -> u64
    ensures { result ≡ number_of word }
{
    valued(word.write, WRITE)
        + valued(word.spin, SPIN)
        + valued(word.waiting, WAITING)
        + valued(word.desig, DESIG)
        + valued(word.cond, COND)
        + valued(word.writer_waits, WRITER_WAITS)
        + valued(word.all_false, ALL_FALSE)
        + valued(word.long, LONG)
        + READER * u64::from(word.readers)
}

/// A free lock for which nobody waits has the number 0, so a table of zeros holds free locks.
pub fn a_free_word_is_zero()
    ensures number { number_of Word.FREE ≡ 0 }
    ensures word { Word.FREE ≡ free_word }
{}

/// The word of a number, taken apart bit by bit.
#[tactic(auto, unfolding(crate::specs::Codec::word_of))]
#[inline(always)]
fn taken_apart(bits: u64) -> Word
    requires { bits / 256 < 256 }
    ensures { result ≡ word_of bits }
{
    Word {
        write: is_set(bits, WRITE),
        spin: is_set(bits, SPIN),
        waiting: is_set(bits, WAITING),
        desig: is_set(bits, DESIG),
        cond: is_set(bits, COND),
        writer_waits: is_set(bits, WRITER_WAITS),
        all_false: is_set(bits, ALL_FALSE),
        long: is_set(bits, LONG),
        readers: (bits / READER) as u8,
    }
}

/// The word of a number that is one's, as a lawful lock's always is: nothing is tested.
#[tactic(auto, unfolding(crate::specs::Codec::word_of))]
#[inline(always)]
pub fn unpacked(bits: u64) -> Word
    requires { IsPackable (word_of bits) }
    ensures { result ≡ word_of bits }
{
    taken_apart(bits)
}

/// The word of a number, so that decoding undoes encoding. Refuses (`BadWord`) a number with a
/// writer beside readers, and one with more than 64 readers, and no other.
pub fn decode(bits: u64) -> Result<Word, BadWord>
    ensures undoes { (word : Word) → IsPackable word → bits ≡ number_of word → result ≡ Ok word }
    ensures gives { MatchResult result (λ word. (word ≡ word_of bits) × (number_of word ≡ bits) × IsPackable word) (λ bad. IsBad bits) }
{
    let write = is_set(bits, WRITE);
    let readers = bits / READER;
    if readers > MOST_READERS || write && readers > 0 {
        return Err(BadWord);
    }
    Ok(taken_apart(bits))
}
