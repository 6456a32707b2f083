//! A seat of an environment together with the environment that it is of, so that a call needs no word on
//! which environment that is.

ghost use Rattle.std.specs.Prelude.{◌≡◌, ◌<◌, ◌^◌, ◌++◌, ◌↔◌, [], ◌∷◌, All, IfErr, IfOk, IfSome, IsSome, List, None, length, option_map, option_to_list};
ghost use Rattle.ns_note.specs.Prelude.{AreOfOneHistory, Grows, IsBetween, IsMade, LookAnswers, WaitAnswers, clock_of, expiry_of, is_made, is_notified, takes_in};

use crate::env::Env;
use crate::fault::NotesFull;
use crate::note::Note;
use crate::seat::EnvSeat;
use ns_model::environment::EnvEvent;
use ns_model::event::Answer;
use std::marker::Model;
use std::sync::Wait;
use std::time::Duration;

/// A caller of an environment: its seat, and the environment that it is of, which it borrows.
///
/// For contracts it is what its seat is. That the seat is of the environment is so of each `Watcher`, so
/// no clause and no loop says it. It may be taken apart; to put one together, seat and environment have to
/// fit.
#[derive(Drop)]
pub struct Watcher<'e> {
    /// The environment.
    pub env: &'e Env,
    /// A seat of it.
    pub seat: EnvSeat,
}

impl<'e> Model for Watcher<'e> {
    ghost use Rattle.std.specs.Prelude.{◌≡◌};
    ghost use Rattle.ns_note.specs.Known.{EnvKnown};

    ghost Value = { EnvKnown };

    ghost view = { λ w. w.seat };

    ghost invariant = { λ w. w.seat.env ≡ w.env.now };
}

impl<'e> Watcher<'e> {
    /// A seat together with its environment.
    ///
    /// Needs a seat of that environment.
    #[inline(always)]
    pub fn new(env: &'e Env, seat: EnvSeat) -> Self
        requires { seat.env ≡ env.now }
        ensures { result ≡ seat }
    {
        Watcher { env, seat }
    }

    /// The seat alone.
    #[inline(always)]
    pub fn into_seat(self) -> EnvSeat
        ensures { result ≡ self.entry }
    {
        let Watcher { env: _, seat } = self;
        seat
    }

    /// Two callers compare what they have seen, as [`Env::meet`].
    ///
    /// Needs two of one environment.
    #[inline(always)]
    pub fn meet(self, other: Self) -> (Self, Self)
        requires { self.env ≡ other.env }
        ensures grows { Grows self.entry result.0 × Grows other.entry result.1 }
        ensures mine { (result.0.mine ≡ self.entry.mine) × (result.1.mine ≡ other.entry.mine) }
        ensures before { AreOfOneHistory self.entry other.entry }
        ensures after { result.1.seen ≡ result.0.seen }
    {
        let Watcher { env, seat: first } = self;
        let Watcher {
            env: _,
            seat: second,
        } = other;
        let (first, second) = env.meet(first, second);
        (Watcher { env, seat: first }, Watcher { env, seat: second })
    }

    /// Makes a note below a parent, if one is given, with a deadline in ticks, if one is given, as
    /// [`Env::note_new`].
    ///
    /// Needs a parent that the caller has seen made, and a deadline below 2^54.
    #[inline(always)]
    pub fn note_new(
        &mut self,
        parent: Option<Note>,
        deadline: Option<u64>,
    ) -> Result<Note, NotesFull>
        requires parent { IfSome parent (λ p. IsMade self.old.seen p.index) }
        requires deadline { IfSome deadline (λ d. d < 2 ^ 54) }
        ensures grows { Grows self.old self.new }
        ensures made { IfOk result (λ note. self.new.mine ≡ self.old.mine ++ EnvEvent.Take self.old.seat note.index ∷ EnvEvent.New self.old.seat note.index (option_map (λ p. p.index) parent) deadline ∷ []) }
        ensures is_made { IfOk result (λ note. IsMade self.new.seen note.index) }
        ensures full { IfErr result (λ _. (self.new.mine ≡ self.old.mine) × (takes_in self.new.seen ≡ 64)) }
    {
        self.env.note_new(&mut self.seat, parent, deadline)
    }

    /// The clock, in ticks, as [`Env::now`].
    #[inline(always)]
    pub fn now(&mut self) -> u64
        ensures grows { Grows self.old self.new }
        ensures mine { self.new.mine ≡ self.old.mine }
        ensures clock { result ≡ clock_of self.new.seen }
        ensures moment { result < 2 ^ 54 }
    {
        self.env.now(&mut self.seat)
    }

    /// Moves the clock to a moment, in ticks, if it stands before it, as [`Env::advance`].
    ///
    /// Needs a moment below 2^54.
    #[inline(always)]
    pub fn advance(&mut self, to: u64)
        requires { to < 2 ^ 54 }
        ensures grows { Grows self.old self.new }
        ensures mine { self.new.mine ≡ self.old.mine ++ EnvEvent.Advance self.old.seat to ∷ [] }
    {
        self.env.advance(&mut self.seat, to);
    }

    /// Notifies a note, and with it every note below it, as [`Env::notify`].
    ///
    /// Needs a note that the caller has seen made.
    #[inline(always)]
    pub fn notify(&mut self, note: Note)
        requires { IsMade self.old.seen note.index }
        ensures grows { Grows self.old self.new }
        ensures mine { self.new.mine ≡ self.old.mine ++ EnvEvent.Notify self.old.seat note.index ∷ [] }
    {
        self.env.notify(&mut self.seat, note);
    }

    /// Whether the note is made, so that the other calls may take it, as [`Env::knows`].
    #[inline(always)]
    pub fn knows(&mut self, note: Note) -> bool
        ensures grows { Grows self.old self.new }
        ensures mine { self.new.mine ≡ self.old.mine }
        ensures made { result ≡ is_made self.new.seen note.index }
    {
        self.env.knows(&mut self.seat, note)
    }

    /// Whether the note is notified, as [`Env::is_notified`].
    ///
    /// Needs a note that the caller has seen made.
    #[inline(always)]
    pub fn is_notified(&mut self, note: Note) -> bool
        requires { IsMade self.old.seen note.index }
        ensures grows { Grows self.old self.new }
        ensures mine { self.new.mine ≡ self.old.mine }
        ensures notified { (point : List EnvEvent) × IsBetween self.old.seen point self.new.seen × (result ≡ is_notified point note.index) }
    {
        self.env.is_notified(&mut self.seat, note)
    }

    /// The earliest deadline from the note up to its root, if there is one, as [`Env::expiry`].
    ///
    /// Needs a note that the caller has seen made.
    #[inline(always)]
    pub fn expiry(&mut self, note: Note) -> Option<u64>
        requires { IsMade self.old.seen note.index }
        ensures grows { Grows self.old self.new }
        ensures mine { self.new.mine ≡ self.old.mine }
        ensures expiry { result ≡ expiry_of self.new.seen note.index }
    {
        self.env.expiry(&mut self.seat, note)
    }

    /// One look at a note and a deadline, as [`Env::look`].
    ///
    /// Needs a note, if one is given, that the caller has seen made.
    #[inline(always)]
    pub fn look(&mut self, note: Option<Note>, deadline: Option<u64>) -> Option<Answer>
        requires { IfSome note (λ n. IsMade self.old.seen n.index) }
        ensures grows { Grows self.old self.new }
        ensures mine { self.new.mine ≡ self.old.mine }
        ensures answers { LookAnswers note deadline self.old.seen self.new.seen result }
    {
        self.env.look(&mut self.seat, note, deadline)
    }

    /// Waits until the note is notified, or until the clock has reached the deadline, and answers whether
    /// the note is notified, as [`Env::note_wait`].
    ///
    /// Needs a note that the caller has seen made.
    #[inline(always)]
    pub fn note_wait<R: Wait>(&mut self, rt: &R, note: Note, deadline: Option<u64>) -> bool
        requires { IsMade self.old.seen note.index }
        ensures grows { Grows self.old self.new }
        ensures mine { self.new.mine ≡ self.old.mine }
        ensures answers { WaitAnswers note deadline self.old.seen self.new.seen result }
    {
        match self.env.look(&mut self.seat, Some(note), deadline) {
            Some(Answer::Canceled) => true,
            Some(Answer::TimedOut) => false,
            _ => self.env.go_on_waiting(rt, &mut self.seat, note, deadline),
        }
    }

    /// Sleeps until the next [`Env::notify`] or [`Env::advance`], for at most `longest`, as [`Env::rest`].
    #[inline(always)]
    pub fn rest<R: Wait>(&mut self, rt: &R, longest: Duration)
        ensures { self.new ≡ self.old }
    {
        self.env.rest(rt, &mut self.seat, longest);
    }
}

/// The seats of an environment that no watcher has yet, and the environment, which it borrows.
///
/// For contracts they are what their seats are, in order; the next is the last of them. That each seat is
/// of the environment is so of all `Watchers`.
#[derive(Drop)]
pub struct Watchers<'e> {
    env: &'e Env,
    seats: Vec<EnvSeat>,
}

impl<'e> Model for Watchers<'e> {
    ghost use Rattle.std.specs.Prelude.{◌≡◌, All, List};
    ghost use Rattle.ns_note.specs.Known.{EnvKnown};

    ghost Value = { List EnvKnown };

    ghost view = { λ w. w.seats.items };

    ghost invariant = { λ w. All (λ seat. seat.env ≡ w.env.now) w.seats.items };
}

impl<'e> Watchers<'e> {
    /// A watcher with the last of these seats, or none where no seat is left.
    #[inline(always)]
    pub fn next(&mut self) -> Option<Watcher<'e>>
        ensures taken { self.old ≡ self.new ++ option_to_list result }
        ensures some { IsSome result ↔ (0 < length self.old) }
    {
        let seat = self.seats.pop()?;
        Some(Watcher {
            env: self.env,
            seat,
        })
    }

    /// Watchers with the last two of these seats, for two threads, or none where fewer are left.
    pub fn pair(&mut self) -> Option<(Watcher<'e>, Watcher<'e>)>
        ensures taken { IfSome result (λ pair. self.old ≡ self.new ++ pair.1 ∷ pair.0 ∷ []) }
        ensures none { result ≡ None → (length self.old < 2) × (self.new ≡ self.old) }
    {
        if self.seats.len() < 2 {
            return None;
        }
        self.next().zip(self.next())
    }
}

impl Env {
    /// Watchers with these seats. It takes no memory.
    ///
    /// Needs seats of this environment, as [`Env::new`] gives them.
    #[inline(always)]
    pub fn watchers(&self, seats: Vec<EnvSeat>) -> Watchers<'_>
        requires { All (λ seat. seat.env ≡ self.now) seats.items }
        ensures { result ≡ seats.items }
    {
        Watchers { env: self, seats }
    }
}
