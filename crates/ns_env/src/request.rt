//! What a call on the clock and the notes was asked to do, told by its place.

ghost use Rattle.std.specs.Prelude.{◌≡◌};
ghost use Rattle.ns_env.specs.Meanings.{env_asked_of, asked_by};

use crate::limits::Limits;
use crate::walk::{Chain, EnvWalk};

/// What a call on the clock and the notes was asked to do. A moment is in ticks.
#[derive(Clone, Copy)]
pub enum EnvRequest {
    /// To make a note with this parent and this deadline.
    NewNote(Option<u8>, Option<u64>),
    /// To notify a note.
    Notify(u8),
    /// To move the clock on to a moment.
    Advance(u64),
    /// To tell whether a note is notified.
    IsNotified(u8),
    /// To wait until a note is notified, at most until the deadline.
    NoteWait(u8, Option<u64>),
    /// To tell the earliest deadline from a note up to the root.
    Expiry(u8),
    /// To look whether a wait is to end early.
    Look(Limits),
}

impl Chain {
    /// What the chain's call was asked to do.
    fn asked(self) -> EnvRequest
        ensures { result ≡ asked_by self }
    {
        match self {
            Chain::ForLook(limits) => EnvRequest::Look(limits),
            Chain::ForIsNotified(note) => EnvRequest::IsNotified(note),
            Chain::ForNoteWait(note, deadline) => EnvRequest::NoteWait(note, deadline),
        }
    }
}

impl EnvWalk {
    /// What the call was asked to do, which is the same at each of its places.
    pub fn asked(&self) -> EnvRequest
        ensures { result ≡ env_asked_of self.now }
    {
        match *self {
            EnvWalk::NextLoad(parent, deadline) => EnvRequest::NewNote(parent, deadline),
            EnvWalk::TakeNumber(parent, deadline) => EnvRequest::NewNote(parent, deadline),
            EnvWalk::MakeNote(_, parent, deadline) => EnvRequest::NewNote(parent, deadline),
            EnvWalk::Notifying(note) => EnvRequest::Notify(note),
            EnvWalk::Advancing(moment) => EnvRequest::Advance(moment),
            EnvWalk::ClockLoad(chain) => chain.asked(),
            EnvWalk::NoteLoad(chain, _, _) => chain.asked(),
            EnvWalk::ExpiryLoad(asked, _, _) => EnvRequest::Expiry(asked),
        }
    }
}
