//! One round of a wait for any of several objects: the clock, and then each note and counter in order up to
//! the first that is ready. A round passes over condition variables.
//!
//! | place | wants | where an answer leads |
//! |---|---|---|
//! | `FirstClock` | load the clock | the first object |
//! | `AtNote` | load a note | over at the clock loaded: this object is ready; else the note above; with none the next object |
//! | `AtCounter` | load a counter | at 0 this object is ready; else the next object |
//!
//! Behind the last object the round shows the number of objects, if the clock loaded had reached the
//! deadline, and else nothing.

ghost use Rattle.std.specs.Prelude.{◌≡◌, ◌<◌};
ghost use Rattle.ns_counters.specs.RoundWalks.{by_chain, from_place, round_got, round_want, IsInList};

use crate::act::ObjectAct;
use crate::items::{Item, Items};
use crate::word::decode_counter;
use ns_env::act::{EnvAct, EnvFound};
use ns_env::next::Next;
use ns_env::note::is_due;
use ns_env::reply::EnvReply;
use ns_env::walk::{Chain, EnvEnd, EnvNext, EnvWalk};

/// What a round is of: the objects, and the deadline, in ticks, if there is one.
#[derive(Clone, Copy)]
pub struct Round {
    /// The objects.
    pub items: Items,
    /// The deadline.
    pub deadline: Option<u64>,
}

/// A place in a round.
#[derive(Clone, Copy)]
pub enum RoundPlace {
    /// The clock is to be loaded.
    FirstClock,
    /// The object at this place of the list is this note, as of a clock of this moment, and the last
    /// note, which is the same or one above it, is to be loaded.
    AtNote(u8, u64, u8, u8),
    /// The object at this place of the list is this counter, which is to be loaded; the clock was this.
    AtCounter(u8, u64, u8),
}

/// One step of a call on counters and once cells.
#[derive(Clone, Copy)]
pub enum ObjectWant {
    /// A step on one of their words.
    OnWord(ObjectAct),
    /// A load of the clock or of a note.
    OnEnv(EnvAct),
}

/// What such a step found.
#[derive(Clone, Copy)]
pub enum ObjectFound {
    /// The word as it was before.
    Word(u64),
    /// The clock, or a note.
    Env(EnvFound),
}

/// Where a round goes. It never waits, so this is no [`Next`].
#[derive(Clone, Copy)]
pub enum RoundNext {
    /// It goes on at this place.
    RoundGo(RoundPlace),
    /// It is over: the object at this place was ready; or it is the number of objects, and the
    /// deadline had come; or there is nothing to tell.
    RoundOver(Option<u8>),
}

impl Round {
    /// The step that the round wants at this place.
    pub fn want(place: RoundPlace) -> ObjectWant
        ensures { result ≡ round_want place }
    {
        match place {
            RoundPlace::FirstClock => ObjectWant::OnEnv(EnvAct::LoadClock),
            RoundPlace::AtNote(_, _, _, note) => ObjectWant::OnEnv(EnvAct::LoadNote(note)),
            RoundPlace::AtCounter(_, _, counter) => {
                ObjectWant::OnWord(ObjectAct::LookCounter { counter })
            }
        }
    }

    /// Where the round goes to look at the first note or counter from this place on, or at the end.
    #[tactic(auto, using(crate::proofs::Listed::left_at))]
    fn from_place(&self, clock: u64, at: u8) -> RoundNext
        ensures { result ≡ from_place self.now clock at }
    {
        for place in at..self.items.count {
            match self.items.get(place) {
                Some(Item::OnNote(note)) => {
                    return RoundNext::RoundGo(RoundPlace::AtNote(place, clock, note, note));
                }
                Some(Item::OnCounter(counter)) => {
                    return RoundNext::RoundGo(RoundPlace::AtCounter(place, clock, counter));
                }
                Some(Item::OnVariable(_)) => {}
                None => {}
            }
        }
        if is_due(self.deadline, clock) {
            RoundNext::RoundOver(Some(self.items.count))
        } else {
            RoundNext::RoundOver(None)
        }
    }

    /// Where the round goes by the chain of the note at this place.
    fn by_chain(&self, at: u8, clock: u64, asked: u8, next: EnvNext) -> RoundNext
        requires { at < 255 }
        ensures { result ≡ by_chain self.now at clock asked next }
    {
        match next {
            Next::On(EnvWalk::NoteLoad(_, _, above)) => {
                RoundNext::RoundGo(RoundPlace::AtNote(at, clock, asked, above))
            }
            Next::Done(EnvEnd::Over(EnvReply::Is(true))) => RoundNext::RoundOver(Some(at)),
            _ => self.from_place(clock, at + 1),
        }
    }

    /// Where the round goes with what its step found. What no step of the place finds leaves it where
    /// it is.
    pub fn got(&self, place: RoundPlace, found: ObjectFound) -> RoundNext
        requires { IsInList place }
        ensures { result ≡ round_got self.now place found }
    {
        match (place, found) {
            (RoundPlace::FirstClock, ObjectFound::Env(EnvFound::Clock(clock))) => {
                self.from_place(clock, 0)
            }
            (RoundPlace::AtNote(at, clock, asked, note), ObjectFound::Env(found)) => {
                let chain = EnvWalk::NoteLoad(Chain::ForIsNotified(asked), clock, note);
                self.by_chain(at, clock, asked, chain.got(found))
            }
            (RoundPlace::AtCounter(at, clock, _), ObjectFound::Word(word)) => {
                if decode_counter(word).value == 0 {
                    RoundNext::RoundOver(Some(at))
                } else {
                    self.from_place(clock, at + 1)
                }
            }
            (place, _) => RoundNext::RoundGo(place),
        }
    }
}
