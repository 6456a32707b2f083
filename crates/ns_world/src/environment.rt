//! The clock and the notes of a world.

ghost use Rattle.std.specs.Prelude.{◌≡◌, ◌<◌, ℕ, [], true};
ghost use Rattle.std.specs.Option.{option_map_or};
ghost use Rattle.ns_world.specs.Prelude.{EnvActFits, EnvEffect, IsLoad, fresh_plain, note_at, outcome, plain_of};

use ns_env::act::{EnvAct, EnvFound};
use ns_env::note::NoteWord;

/// A number without a note.
const NO_NOTE: NoteWord = NoteWord {
    made: false,
    notified: false,
    parent: None,
    deadline: None,
};

/// The clock, in ticks, the number of the next note, which goes on past the last, and the notes.
#[derive(Drop)]
pub(crate) struct Environment {
    pub(crate) clock: u64,
    pub(crate) next: u8,
    pub(crate) notes: [NoteWord; 64],
}

impl Environment {
    /// A clock at 0, and no note.
    pub(crate) fn new() -> Environment
        ensures { plain_of result ≡ fresh_plain }
    {
        Environment {
            clock: 0,
            next: 0,
            notes: [NO_NOTE; 64],
        }
    }

    /// Makes the act.
    pub(crate) fn make(&mut self, act: EnvAct) -> EnvFound
        requires { EnvActFits self.old.next act }
        ensures { (seat : ℕ) → EnvEffect seat act (plain_of self.old) result (plain_of self.new) (outcome seat act (plain_of self.old)).events }
    {
        match act {
            EnvAct::LoadNext => EnvFound::NextNumber(self.next),
            EnvAct::TakeNext => {
                let number = self.next;
                self.next = number + 1;
                EnvFound::Taken(number)
            }
            EnvAct::StoreNote(note, parent, deadline) => self.store_note(note, parent, deadline),
            EnvAct::NotifyNote(note) => self.notify(note),
            EnvAct::MoveClock(moment) => {
                self.clock = self.clock.max(moment);
                EnvFound::Stored
            }
            EnvAct::LoadClock => EnvFound::Clock(self.clock),
            EnvAct::LoadNote(note) => EnvFound::Note(self.notes[note as usize]),
        }
    }

    /// What a load of the clock or of a note finds.
    pub(crate) fn load(&self, act: EnvAct) -> EnvFound
        requires loads { IsLoad act }
        requires fits { EnvActFits self.now.next act }
        ensures { (seat : ℕ) → EnvEffect seat act (plain_of self.now) result (plain_of self.now) [] }
    {
        match act {
            EnvAct::LoadClock => EnvFound::Clock(self.clock),
            EnvAct::LoadNote(note) => EnvFound::Note(self.notes[note as usize]),
            _ => unreachable!(),
        }
    }

    /// Stores a note.
    fn store_note(&mut self, note: u8, parent: Option<u8>, deadline: Option<u64>) -> EnvFound
        requires { note < 64 }
        ensures { (seat : ℕ) → EnvEffect seat (EnvAct.StoreNote note parent deadline) (plain_of self.old) result (plain_of self.new) (outcome seat (EnvAct.StoreNote note parent deadline) (plain_of self.old)).events }
    {
        self.notes[note as usize] = NoteWord {
            made: true,
            notified: false,
            parent,
            deadline,
        };
        EnvFound::Stored
    }

    /// Notifies a note.
    fn notify(&mut self, note: u8) -> EnvFound
        requires { note < 64 }
        ensures { (seat : ℕ) → EnvEffect seat (EnvAct.NotifyNote note) (plain_of self.old) result (plain_of self.new) (outcome seat (EnvAct.NotifyNote note) (plain_of self.old)).events }
    {
        self.notes[note as usize].notified = true;
        EnvFound::Stored
    }
}

/// Whether the note is made.
pub(crate) fn is_made(notes: &[NoteWord; 64], note: u8) -> bool
    ensures { result ≡ (note_at notes.now note).made }
{
    match notes.get(note as usize) {
        None => false,
        Some(state) => state.made,
    }
}

/// Whether the note is made, where one is given.
pub(crate) fn is_made_or_none(notes: &[NoteWord; 64], note: Option<u8>) -> bool
    ensures { result ≡ option_map_or (λ given. (note_at notes.now given).made) note true }
{
    match note {
        None => true,
        Some(given) => is_made(notes, given),
    }
}
