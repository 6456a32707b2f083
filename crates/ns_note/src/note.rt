//! A note, and the word that a table keeps of it.

ghost use Rattle.std.specs.Prelude.{◌≡◌, ◌<◌, ◌^◌, IfSome, option_map};
ghost use Rattle.ns_env.specs.declared.note.NoteWord.{NoteWord};
ghost use Rattle.ns_note.specs.Words.{WordFits, deadline_at, deadline_code, note_of, parent_at, parent_code, word_of};

use ns_env::note::NoteWord;

/// A note of an environment, by its number, from 0 to 63.
#[derive(Clone, Copy, Debug, PartialEq, Eq)]
pub struct Note {
    /// The number.
    pub index: u8,
    /// There are 64 notes. So `Env::knows` needs nothing of its note.
    pub ghost in_range: { index < 64 },
}

/// The number of a note, if there is one.
pub fn index_of(note: Option<Note>) -> Option<u8>
    ensures { result ≡ option_map (λ n. n.index) note }
{
    match note {
        None => None,
        Some(Note { index }) => Some(index),
    }
}

/// The parent's number plus 1, or 0 for none.
fn parent_bits(parent: Option<u8>) -> u64
    requires { IfSome parent (λ p. p < 64) }
    ensures { result ≡ parent_code parent }
{
    match parent {
        None => 0,
        Some(number) => u64::from(number) + 1,
    }
}

/// The deadline with a bit above it that tells that there is one, or 0 for none.
fn deadline_bits(deadline: Option<u64>) -> u64
    requires { IfSome deadline (λ d. d < 2 ^ 54) }
    ensures { result ≡ deadline_code deadline }
{
    match deadline {
        None => 0,
        Some(moment) => DEADLINE + moment,
    }
}

/// The parent that these bits tell of.
fn parent_of_bits(bits: u8) -> Option<u8>
    ensures { result ≡ parent_at bits }
{
    if bits == 0 { None } else { Some(bits - 1) }
}

/// The deadline that these bits tell of.
fn deadline_of_bits(bits: u64) -> Option<u64>
    ensures { result ≡ deadline_at bits }
{
    if bits < DEADLINE {
        None
    } else {
        Some(bits - DEADLINE)
    }
}

/// The last moment of a clock, in ticks.
pub const LAST_MOMENT: u64 = (1 << 54) - 1;

/// The bit of a note's word that tells of a deadline, above each moment.
const DEADLINE: u64 = LAST_MOMENT + 1;

/// The word of a note.
///
/// Bit 0 is set where a call has notified it and bit 1 where it is made; bits 2 to 8 are the
/// parent's number plus 1, or 0 for none; bits 9 to 62 are the deadline in ticks, and bit 63
/// is set where there is one.
///
/// Needs a parent below 64 and a deadline below 2^54, where there are any.
pub fn encode_note(note: NoteWord) -> u64
    requires { WordFits note }
    ensures { result ≡ word_of note }
{
    u64::from(note.notified)
        + 2 * u64::from(note.made)
        + 4 * parent_bits(note.parent)
        + 512 * deadline_bits(note.deadline)
}

/// The note that a word tells of: from the word that [`encode_note`] gives for a note, that very
/// note.
pub fn decode_note(word: u64) -> NoteWord
    ensures decoded { result ≡ note_of word }
    ensures undoes { (note : NoteWord) → WordFits note → word ≡ word_of note → result ≡ note }
{
    NoteWord {
        notified: word % 2 == 1,
        made: word / 2 % 2 == 1,
        parent: parent_of_bits((word / 4 % 128) as u8),
        deadline: deadline_of_bits(word / 512),
    }
}
