//! The walks of the calls on the clock and the notes, one atomic step at a time.
//!
//! | place | wants | where an answer leads |
//! |---|---|---|
//! | `NextLoad` | load the next number | `TakeNumber`, or `NotesFull` from 64 on |
//! | `TakeNumber` | take the next number | `MakeNote` of it, or `NotesFull` from 64 on |
//! | `MakeNote` | store the note | its `Number` |
//! | `Notifying` | notify the note | `Succeeded` |
//! | `Advancing` | move the clock on | `Succeeded` |
//! | `ClockLoad` | load the clock | `NoteLoad` of the chain's note; with none the end of the chain |
//! | `NoteLoad` | load the note | over at the clock loaded: the chain stops; else `NoteLoad` of its parent; with none the end of the chain |
//! | `ExpiryLoad` | load the note | `ExpiryLoad` of its parent; with none the earliest deadline on the way |
//!
//! A chain goes from a note up to its root. Where it stops, `isnotified` and `notewait` answer
//! `true`, and a look shows `Notified`. At its end `isnotified` answers `false`; `notewait` answers
//! `false` if its own deadline has come, and else is idle and loads the clock again; a look shows
//! `Expired` if its own deadline has come, and else nothing. So a look judges the note before
//! the deadline. All are judged by the clock that was loaded first.

ghost use Rattle.std.specs.Prelude.{◌≡◌};
ghost use Rattle.ns_env.specs.Walks.{env_want_of, env_got_of, chain_note, stopped, passed, up_to, lowered_to};

use crate::act::{EnvAct, EnvFound};
use crate::limits::{Cause, Limits};
use crate::next::Next;
use crate::note::{NoteWord, earlier, is_due};
use crate::reply::EnvReply;

/// What a chain of notes, from one up to its root, is loaded for.
#[derive(Clone, Copy)]
pub enum Chain {
    /// A wait looks whether it is to end early.
    ForLook(Limits),
    /// A call asks whether the note is notified.
    ForIsNotified(u8),
    /// A call waits for the note, at most until the deadline.
    ForNoteWait(u8, Option<u64>),
}

/// A place in a call on the clock and the notes. A moment is in ticks.
#[derive(Clone, Copy)]
pub enum EnvWalk {
    /// A note is to be made with this parent and this deadline, and the next number is to be
    /// loaded.
    NextLoad(Option<u8>, Option<u64>),
    /// A number was still left, and one is to be taken.
    TakeNumber(Option<u8>, Option<u64>),
    /// This number was taken, and its note is to be stored.
    MakeNote(u8, Option<u8>, Option<u64>),
    /// The note is to be notified.
    Notifying(u8),
    /// The clock is to be moved on.
    Advancing(u64),
    /// The clock is to be loaded, then the chain's note, if it has one.
    ClockLoad(Chain),
    /// The clock was this, and this note of the chain is to be loaded.
    NoteLoad(Chain, u64, u8),
    /// The expiry of the first note is asked. The second, which is the first or one above it, is
    /// to be loaded; of those before it this is the earliest deadline.
    ExpiryLoad(u8, u8, Option<u64>),
}

/// What a walk on the clock and the notes ends with.
#[derive(Clone, Copy)]
pub enum EnvEnd {
    /// The call is over.
    Over(EnvReply),
    /// The look is over, and shows what ends the wait, if anything does.
    LookOver(Option<Cause>),
}

/// Where a walk on the clock and the notes goes.
pub type EnvNext = Next<EnvWalk, EnvEnd>;

impl Chain {
    /// The note at which the chain begins, if it has one.
    fn note(self) -> Option<u8>
        ensures { result ≡ chain_note self }
    {
        match self {
            Chain::ForLook(limits) => limits.note,
            Chain::ForIsNotified(note) => Some(note),
            Chain::ForNoteWait(note, _) => Some(note),
        }
    }

    /// Where it goes at a note that is over.
    fn stopped(self) -> EnvNext
        ensures { result ≡ stopped self }
    {
        match self {
            Chain::ForLook(_) => Next::Done(EnvEnd::LookOver(Some(Cause::Notified))),
            Chain::ForIsNotified(_) => Next::Done(EnvEnd::Over(EnvReply::Is(true))),
            Chain::ForNoteWait(_, _) => Next::Done(EnvEnd::Over(EnvReply::Is(true))),
        }
    }

    /// Where it goes at its end, with the clock that was loaded.
    fn passed(self, clock: u64) -> EnvNext
        ensures { result ≡ passed self clock }
    {
        match self {
            Chain::ForLook(limits) => {
                if is_due(limits.deadline, clock) {
                    Next::Done(EnvEnd::LookOver(Some(Cause::Expired)))
                } else {
                    Next::Done(EnvEnd::LookOver(None))
                }
            }
            Chain::ForIsNotified(_) => Next::Done(EnvEnd::Over(EnvReply::Is(false))),
            Chain::ForNoteWait(note, deadline) => {
                if is_due(deadline, clock) {
                    Next::Done(EnvEnd::Over(EnvReply::Is(false)))
                } else {
                    Next::Idle(EnvWalk::ClockLoad(Chain::ForNoteWait(note, deadline)))
                }
            }
        }
    }

    /// Where it goes that has this note before it, or none.
    fn up_to(self, clock: u64, note: Option<u8>) -> EnvNext
        ensures { result ≡ up_to self clock note }
    {
        match note {
            None => self.passed(clock),
            Some(next) => Next::On(EnvWalk::NoteLoad(self, clock, next)),
        }
    }
}

/// Where an expiry goes that has this note before it, or none, with the earliest deadline so far.
fn lowered_to(asked: u8, note: Option<u8>, least: Option<u64>) -> EnvNext
    ensures { result ≡ lowered_to asked note least }
{
    match note {
        None => Next::Done(EnvEnd::Over(EnvReply::Expiry(least))),
        Some(next) => Next::On(EnvWalk::ExpiryLoad(asked, next, least)),
    }
}

impl EnvWalk {
    /// The step that the walk wants next.
    pub fn want(&self) -> EnvAct
        ensures { result ≡ env_want_of self.now }
    {
        match *self {
            EnvWalk::NextLoad(_, _) => EnvAct::LoadNext,
            EnvWalk::TakeNumber(_, _) => EnvAct::TakeNext,
            EnvWalk::MakeNote(note, parent, deadline) => EnvAct::StoreNote(note, parent, deadline),
            EnvWalk::Notifying(note) => EnvAct::NotifyNote(note),
            EnvWalk::Advancing(moment) => EnvAct::MoveClock(moment),
            EnvWalk::ClockLoad(_) => EnvAct::LoadClock,
            EnvWalk::NoteLoad(_, _, note) => EnvAct::LoadNote(note),
            EnvWalk::ExpiryLoad(_, note, _) => EnvAct::LoadNote(note),
        }
    }

    /// Where the walk goes with what its step found. What no step of the place finds leaves it
    /// where it is.
    pub fn got(self, found: EnvFound) -> EnvNext
        ensures { result ≡ env_got_of self found }
    {
        match found {
            EnvFound::NextNumber(next) => self.got_next(next),
            EnvFound::Taken(number) => self.got_taken(number),
            EnvFound::Stored => self.got_made(),
            EnvFound::Clock(clock) => self.got_clock(clock),
            EnvFound::Note(note) => self.got_note(note),
        }
    }

    /// Where the walk goes with the next note's number.
    fn got_next(self, next: u8) -> EnvNext
        ensures { result ≡ env_got_of self (EnvFound.NextNumber next) }
    {
        match self {
            EnvWalk::NextLoad(parent, deadline) => {
                if next < 64 {
                    Next::On(EnvWalk::TakeNumber(parent, deadline))
                } else {
                    Next::Done(EnvEnd::Over(EnvReply::NotesFull))
                }
            }
            walk => Next::On(walk),
        }
    }

    /// Where the walk goes with the number that it has taken.
    fn got_taken(self, number: u8) -> EnvNext
        ensures { result ≡ env_got_of self (EnvFound.Taken number) }
    {
        match self {
            EnvWalk::TakeNumber(parent, deadline) => {
                if number < 64 {
                    Next::On(EnvWalk::MakeNote(number, parent, deadline))
                } else {
                    Next::Done(EnvEnd::Over(EnvReply::NotesFull))
                }
            }
            walk => Next::On(walk),
        }
    }

    /// Where the walk goes when its step was made.
    fn got_made(self) -> EnvNext
        ensures { result ≡ env_got_of self EnvFound.Stored }
    {
        match self {
            EnvWalk::MakeNote(note, _, _) => Next::Done(EnvEnd::Over(EnvReply::Number(
                note as u64,
            ))),
            EnvWalk::Notifying(_) => Next::Done(EnvEnd::Over(EnvReply::Succeeded)),
            EnvWalk::Advancing(_) => Next::Done(EnvEnd::Over(EnvReply::Succeeded)),
            walk => Next::On(walk),
        }
    }

    /// Where the walk goes with the clock.
    fn got_clock(self, clock: u64) -> EnvNext
        ensures { result ≡ env_got_of self (EnvFound.Clock clock) }
    {
        match self {
            EnvWalk::ClockLoad(chain) => chain.up_to(clock, chain.note()),
            walk => Next::On(walk),
        }
    }

    /// Where the walk goes with a note.
    fn got_note(self, note: NoteWord) -> EnvNext
        ensures { result ≡ env_got_of self (EnvFound.Note note) }
    {
        match self {
            EnvWalk::NoteLoad(chain, clock, _) => {
                if note.is_over(clock) {
                    chain.stopped()
                } else {
                    chain.up_to(clock, note.parent)
                }
            }
            EnvWalk::ExpiryLoad(asked, _, least) => {
                lowered_to(asked, note.parent, earlier(least, note.deadline))
            }
            walk => Next::On(walk),
        }
    }
}
