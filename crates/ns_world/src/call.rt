//! The calls of a world.

ghost use Rattle.std.specs.Prelude.{◌≡◌, ◌≤◌, ⊤, MatchOption, Some, None, ◌&&◌, is_some, length, if◌then◌else◌};
ghost use Rattle.ns_world.specs.Prelude.{CallFits, CallInRange, NamesAll, SectionFits, Setup as SetupOf, finds, is_there as is_there_in, items_of, mode_waited, note_at, object_start, start_of, wait_first};
ghost use Rattle.std.specs.List.{list_all};

use crate::environment::{is_made, is_made_or_none};
use crate::seat::Doing;
use ns_counters::items::{Item, Items};
use ns_counters::object::Setup;
use ns_counters::round::{Round, RoundPlace};
use ns_counters::walk::ObjectWalk;
use ns_env::limits::Limits;
use ns_env::note::NoteWord;
use ns_env::request::EnvRequest;
use ns_env::walk::{Chain, EnvWalk};
use ns_model::cvs::Variables;
use ns_model::event::Mode;
use ns_word::act::Waking;
use ns_word::request::Request;
use ns_word::wait::{Subject, Wait};
use ns_word::walk::Walk;
use ns_word::word::Releasing;
use std::alloc::AllocError;

/// A call.
#[derive(Copy)]
pub enum Call<C> {
    /// Locks in write mode. Needs no section in hand. Answers `Succeeded`, once the lock was acquired.
    Lock,
    /// Locks in read mode. Needs no section in hand. Answers `Succeeded`, once the lock was acquired.
    RLock,
    /// Tries to lock in write mode. Needs no section in hand. Answers `Succeeded`, or `Busy` where the
    /// lock is held, somebody waits long, or the lock changed meanwhile.
    TryLock,
    /// Tries to lock in read mode. Needs no section in hand. Answers `Succeeded`, or `Busy` where the
    /// lock is held in write mode, a writer waits, somebody waits long, or the lock changed meanwhile.
    TryRLock,
    /// Releases a write section, and wakes whom it lets go on. Answers `Succeeded`.
    Unlock,
    /// Releases a read section, and wakes whom it lets go on. Answers `Succeeded`.
    RUnlock,
    /// Releases a write section that has made no false condition true. Answers `Succeeded`; or `Noisy`
    /// where it may have: then nothing has changed, and the section stays in hand.
    UnlockQuiet,
    /// Reads a cell of the section in hand. Answers its `Number`.
    Get(u8),
    /// Writes a cell of the write section in hand. Answers `Succeeded`.
    Set(u8, u64),
    /// Waits until the condition is true, and has a section in the same mode in hand then. Needs a
    /// section in hand, and the note, if one is given, made. Answers `Answered`: `Met` where the
    /// condition holds on return; else `Canceled` where the note was notified, or `TimedOut` where
    /// the deadline had come. Where that is so as the call begins, nothing is released; else the
    /// section is left, and another one is in hand on return.
    Wait(C, Limits),
    /// Waits for the condition variable of this number until a signal or a broadcast wakes it, and has a
    /// section in the same mode in hand then. Needs a section in hand, and the note, if one is given,
    /// made. Answers `Answered`: `Met` where it was woken; else `Canceled` where the note was notified,
    /// or `TimedOut` where the deadline had come. The section is left in each case, and another one is
    /// in hand on return.
    CvWait(u8, Limits),
    /// Wakes at least one of those who wait for the condition variable of this number, if anybody does:
    /// the first, and if that one reads, every other reader and the first writer. Needs no section, and
    /// leaves one that is in hand as it is. Answers `Succeeded`.
    Signal(u8),
    /// Wakes everybody who waits for the condition variable of this number. Needs no section, and
    /// leaves one that is in hand as it is. Answers `Succeeded`.
    Broadcast(u8),
    /// Makes a note, below a parent that is made, if one is given, and with a deadline, in ticks,
    /// if one is given. Answers its `Number`, or `NotesFull` where 64 are taken.
    NewNote(Option<u8>, Option<u64>),
    /// Notifies a note that is made. Answers `Succeeded`.
    Notify(u8),
    /// Moves the clock on to a moment, in ticks, or leaves it where it stands later. Answers `Succeeded`.
    Advance(u64),
    /// Asks whether a note that is made is notified: it or one above it, by a call or by its
    /// deadline. Answers `Is`.
    IsNotified(u8),
    /// Asks for the earliest deadline of a note that is made and those above it. Answers `Expiry`.
    Expiry(u8),
    /// Waits until a note that is made is notified, at most until the deadline, in ticks, if one is
    /// given. Answers `Is`: whether the note is notified.
    NoteWait(u8, Option<u64>),
    /// Changes the value of a counter by a number, which may be below 0. Needs that there is one of this
    /// number. Answers the new value as its `Number`; or `Refused`, and then the counter is as it was: with
    /// `Under` where it would fall below 0, else with `Over` where it would rise above 4,294,967,295,
    /// else with `AfterWait` where it would rise from 0 and a wait for 0 has begun.
    Add(u8, i64),
    /// Reads a counter. Needs that there is one of this number. Answers its `Number`.
    Value(u8),
    /// Waits until a counter is 0, at most until the deadline, in ticks, if one is given. Needs that there
    /// is one of this number. Answers the value as its `Number`: one that isn't 0 where the deadline had come.
    CounterWait(u8, Option<u64>),
    /// Runs a function, if nobody has begun to run one for this once cell; else waits until that has ended.
    /// Needs that there is a cell of this number. Answers `Ran`, or `Already`.
    Once(u8),
    /// Asks whether a function of a once cell has run. Needs that there is one of this number. Answers `Is`.
    Done(u8),
    /// Waits until one of several notes and counters is ready, or a signal or a broadcast of one of several
    /// condition variables wakes it, at most until the deadline, in ticks, if one is given. Needs notes that
    /// are made, counters that there are, variables below 4, and a section in hand where a variable is among
    /// them. Answers as its `Number` the place of the first note or counter that is ready, counted from 0,
    /// or of the first item that is the variable which has woken it, or how many items there are, where the
    /// deadline had come. With a variable among them, and where none of the others is ready and the
    /// deadline hasn't come as the call begins, the section is left, and another one in the same mode is in
    /// hand on return.
    WaitAny(Items, Option<u64>),
}

impl<C: Copy> Clone for Call<C> {
    ghost is_clone = { λ one other. other ≡ one };

    ghost is_infallible = { λ _. ⊤ };

    fn clone(&self) -> Result<Self, AllocError> {
        Ok(*self)
    }
}

/// What a call asks.
///
/// No program makes such a value: it is what the law of the calls speaks of.
pub enum Asked<C> {
    /// Of the lock.
    OfLock(Request<C>),
    /// Of the clock and the notes.
    OfNotes(EnvRequest),
    /// Of counters and once cells: what a call asks that begins at this place.
    OfObjects(ObjectWalk),
}

/// A call on the clock and the notes begins where its need is met.
fn ask<C: Copy>(met: bool, walk: EnvWalk) -> Option<Doing<C>>
    ensures { result ≡ (if met then Some (Doing.OnNotes walk) else None) }
{
    if met {
        Some(Doing::OnNotes(walk))
    } else {
        None
    }
}

/// Whether there is an object: a note that is made, a counter, or a condition variable.
fn is_there(item: Item, notes: &[NoteWord; 64], setup: &Setup) -> bool
    ensures { result ≡ is_there_in setup.now (note_at notes.now) item }
{
    match item {
        Item::OnNote(note) => is_made(notes, note),
        Item::OnCounter(counter) => counter < setup.counters,
        Item::OnVariable(k) => k < 4,
    }
}

/// Whether there is each of several objects.
fn are_there(items: &Items, notes: &[NoteWord; 64], setup: &Setup) -> bool
    requires { items.now.count ≤ 16 }
    ensures all { result ≡ list_all (is_there_in setup.now (note_at notes.now)) (items_of items.now) }
    ensures many { length (items_of items.now) ≡ items.now.count }
{
    for item in &items.all[..items.count as usize] {
        if !is_there(*item, notes, setup) {
            return false;
        }
    }
    true
}

/// A call on counters and once cells begins where its need is met.
fn operate<C: Copy>(met: bool, walk: ObjectWalk) -> Option<Doing<C>>
    ensures { result ≡ (if met then Some (Doing.OnObjects walk) else None) }
{
    if met {
        Some(Doing::OnObjects(walk))
    } else {
        None
    }
}

/// A wait begins where it may leave a section in this mode, and its note is made. No step asks for the note
/// again, since notes stay made.
fn wait<C: Copy, const N: usize>(
    mode: Option<Mode>,
    on: Subject<C>,
    limits: Limits,
    met: bool,
) -> Option<Doing<C>>
    requires { N ≤ 16 }
    ensures { result ≡ (if met && is_some mode then Some (Doing.OnLock (wait_first N (record { mode = mode_waited mode; on = on; limits = limits })) None) else None) }
{
    let mode = mode?;
    if met {
        let wait = Wait { mode, on, limits };
        Some(Doing::OnLock(Walk::wait::<N>(wait), None))
    } else {
        None
    }
}

impl<C: Copy> Call<C> {
    /// Where the call begins, over a row of `N` cells, if it goes with a section in hand of this
    /// mode, or with none, and with these notes; `None` where its need isn't met.
    ///
    /// Needs a row of at most 16 cells.
    pub(crate) fn start<const N: usize>(
        self,
        mode: Option<Mode>,
        notes: &[NoteWord; 64],
        setup: &Setup,
    ) -> Option<Doing<C>>
        requires row { N ≤ 16 }
        requires range { CallInRange N self }
        ensures { MatchOption result (CallFits setup.now (note_at notes.now) self mode → ⊥) (λ start. (start ≡ start_of N mode self) × CallFits setup.now (note_at notes.now) self mode) }
    {
        match self.on_objects() {
            Some(walk) => operate(self.finds::<N>(mode, notes, setup), walk),
            None => self.start_others::<N>(mode, notes),
        }
    }

    /// The first place of a call on counters and once cells, if it is one.
    pub(crate) fn on_objects(&self) -> Option<ObjectWalk>
        ensures { result ≡ object_start self.now }
    {
        match *self {
            Call::Add(counter, delta) => Some(ObjectWalk::AddLoad(counter, delta)),
            Call::Value(counter) => Some(ObjectWalk::ValueLoad(counter)),
            Call::CounterWait(counter, deadline) => Some(ObjectWalk::WaitMark(counter, deadline)),
            Call::Once(once) => Some(ObjectWalk::OnceLoad(once)),
            Call::Done(once) => Some(ObjectWalk::DoneLoad(once)),
            Call::WaitAny(items, deadline) => {
                let round = Round { items, deadline };
                Some(ObjectWalk::InRound(round, RoundPlace::FirstClock))
            }
            _ => None,
        }
    }

    /// Whether there are the counters, the once cells and the notes that a call on counters and once
    /// cells names, and a section in hand where it names condition variables.
    fn finds<const N: usize>(
        &self,
        mode: Option<Mode>,
        notes: &[NoteWord; 64],
        setup: &Setup,
    ) -> bool
        requires { CallInRange N self.now }
        ensures found { result ≡ finds setup.now (note_at notes.now) mode self.now }
        ensures many { NamesAll self.now }
    {
        match self {
            Call::Add(counter, _) => *counter < setup.counters,
            Call::Value(counter) => *counter < setup.counters,
            Call::CounterWait(counter, _) => *counter < setup.counters,
            Call::Once(once) => *once < setup.cells,
            Call::Done(once) => *once < setup.cells,
            Call::WaitAny(items, _) => {
                are_there(items, notes, setup) && (mode.is_some() || !items.has_variable())
            }
            _ => true,
        }
    }

    /// Where a call on the lock, the clock and the notes begins.
    fn start_others<const N: usize>(
        self,
        mode: Option<Mode>,
        notes: &[NoteWord; 64],
    ) -> Option<Doing<C>>
        requires row { N ≤ 16 }
        requires others { object_start self ≡ None }
        ensures { (setup : Setup) → MatchOption result (CallFits setup (note_at notes.now) self mode → ⊥) (λ start. (start ≡ start_of N mode self) × CallFits setup (note_at notes.now) self mode) }
    {
        match self {
            Call::NewNote(parent, deadline) => {
                ask(
                    is_made_or_none(notes, parent),
                    EnvWalk::NextLoad(parent, deadline),
                )
            }
            Call::Notify(note) => ask(is_made(notes, note), EnvWalk::Notifying(note)),
            Call::Advance(moment) => ask(true, EnvWalk::Advancing(moment)),
            Call::IsNotified(note) => {
                ask(
                    is_made(notes, note),
                    EnvWalk::ClockLoad(Chain::ForIsNotified(note)),
                )
            }
            Call::Expiry(note) => {
                ask(is_made(notes, note), EnvWalk::ExpiryLoad(note, note, None))
            }
            Call::NoteWait(note, deadline) => {
                ask(
                    is_made(notes, note),
                    EnvWalk::ClockLoad(Chain::ForNoteWait(note, deadline)),
                )
            }
            Call::Wait(cond, limits) => {
                let met = is_made_or_none(notes, limits.note);
                wait::<C, N>(mode, Subject::OnCondition(cond), limits, met)
            }
            Call::CvWait(k, limits) => {
                let met = is_made_or_none(notes, limits.note);
                wait::<C, N>(mode, Subject::OnVariables(Variables::Only(k)), limits, met)
            }
            call => call.start_lock::<N>(mode),
        }
    }

    /// Where a call on the lock begins.
    fn start_lock<const N: usize>(self, mode: Option<Mode>) -> Option<Doing<C>>
        requires { N ≤ 16 }
        ensures { MatchOption result (SectionFits self mode → ⊥) (λ start. (start ≡ start_of N mode self) × SectionFits self mode) }
    {
        let walk = match (self, mode) {
            (Call::Lock, None) => Walk::lock(Mode::Write),
            (Call::RLock, None) => Walk::lock(Mode::Read),
            (Call::TryLock, None) => Walk::try_lock(Mode::Write),
            (Call::TryRLock, None) => Walk::try_lock(Mode::Read),
            (Call::Unlock, Some(Mode::Write)) => Walk::release(Releasing::Writer),
            (Call::RUnlock, Some(Mode::Read)) => Walk::release(Releasing::Reader),
            (Call::UnlockQuiet, Some(Mode::Write)) => Walk::quiet_release::<N>(),
            (Call::Get(i), Some(_)) => Walk::get(i),
            (Call::Set(i, value), Some(Mode::Write)) => Walk::set(i, value),
            (Call::Signal(k), _) => Walk::signal(Waking::Signaling, k),
            (Call::Broadcast(k), _) => Walk::signal(Waking::Broadcasting, k),
            _ => return None,
        };
        Some(Doing::OnLock(walk, None))
    }
}
