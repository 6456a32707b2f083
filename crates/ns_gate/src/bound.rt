//! A seat bound to its gate: what makes the steps of a call.

ghost use Rattle.std.specs.Prelude.{◌≡◌, ◌+◌, ◌<◌, IfErr, None};
ghost use Rattle.ns_gate.specs.Prelude.{CanStep, HasComeBy, HasGuessedTo, HasMade, HasTried, IsPackable, MayExchange, MayGuess, MayLoad, MayStore, PerformedWith, WantsNext, exchanged, made_by, the, tried_for, word_of};

use crate::boxed::BoxedQueues;
use crate::gate::{Gate, GateSeat};
use crate::plays::{Both, Go, Law, Load};
use crate::view::View;
use ns_model::condition::Condition;
use ns_seats::saying::{exchange_saying, load_saying};
use ns_word::act::{Act, Found};
use ns_word::number::LockWord;
use ns_word::wait::Aim;
use ns_word::walk::Walk;
use ns_word::word::{Arrival, Releasing};
use std::marker::Model;

/// A seat bound to its gate for the time of a call: a borrow of each, and the seat's number.
///
/// That the seat is of this gate, and has this number, is an invariant. So no function that takes it has a
/// clause for that, and [`Bound::end`] tells what the seat has become.
#[derive(Drop)]
pub struct Bound<'b, C: Condition<N>, const N: usize> {
    pub(crate) gate: &'b Gate<C, N>,
    pub(crate) seat: &'b mut GateSeat<C, N>,
    pub(crate) number: u8,
}

impl<'b, C: Condition<N>, const N: usize> Model for Bound<'b, C, N> {
    ghost use Rattle.std.specs.Prelude.{◌≡◌, ◌<◌};
    ghost use Rattle.ns_gate.specs.Bounds.{Bounded};
    ghost use Rattle.ns_gate.specs.Steps.{the};

    ghost Value = { Bounded C N };

    ghost view = { λ b. record { gate = b.seat.now.table_id; lent = b.seat.ghost_name; me = b.seat.now.me } };

    ghost invariant = { λ b. (b.seat.now.table_id ≡ b.gate.now) × (b.number ≡ (the b.seat.now.me.0).at.seat) × (b.number < 64) };
}

/// What an exchange of the word last seen came to, where the word's number was this.
#[inline(always)]
fn came_to(found: u64, last: LockWord) -> Result<(), LockWord>
    requires { IsPackable (word_of found) }
    ensures word { IfErr result IsPackable }
    ensures tried { (made : Found) → tried_for made result ≡ exchanged found last made }
{
    if found == last.number() {
        Ok(())
    } else {
        Err(LockWord::of(found))
    }
}

impl<'b, C: Condition<N>, const N: usize> Bound<'b, C, N> {
    /// The seat, bound to its gate.
    ///
    /// Needs a seat of the gate, and its number, below 64.
    #[inline(always)]
    pub fn new(gate: &'b Gate<C, N>, seat: &'b mut GateSeat<C, N>, number: u8) -> Self
        requires of { seat.old.table_id ≡ gate.now }
        requires number { (number ≡ (the seat.old.me.0).at.seat) × (number < 64) }
        ensures { result ≡ record { gate = seat.old.table_id; lent = seat.entry.ghost_name; me = seat.old.me } }
    {
        Bound { gate, seat, number }
    }

    /// The seat again. Whoever has lent it learns by that what it has become.
    #[inline(always)]
    pub fn end(self) -> &'b mut GateSeat<C, N>
        ensures of { result.now.table_id ≡ self.entry.gate }
        ensures lent { result.ghost_name ≡ self.entry.lent }
        ensures me { result.now.me ≡ self.entry.me }
    {
        let Bound {
            gate: _,
            seat,
            number: _,
        } = self;
        seat
    }

    /// Loads a word of the table, for the act that the seat's call wants next or begins with.
    #[inline(always)]
    pub(crate) fn load_at(&mut self, begins: Option<Walk<C>>, word: usize) -> u64
        requires below { word < N + 65 }
        requires may { MayLoad C.means begins word self.old.me }
        ensures { (act : Act C) → CanStep C.means begins act self.old.me → HasComeBy (PerformedWith C.means begins act result) self.old self.new }
    {
        let gate = self.gate;
        let shared = &gate.table.shared;
        load_saying::<BoxedQueues<C, N>, View<C, N>, u8, Law<C, N>, Option<Walk<C>>, Load<C, N>>(
            shared, self.seat, word, &begins,
        )
    }

    /// Stores this content into a word of the table, for the act that the seat's call wants next.
    #[inline(always)]
    pub(crate) fn store_at(&mut self, word: usize, content: u64)
        requires below { word < N + 65 }
        requires may { MayStore C.means word content self.old.me }
        ensures { (act : Act C) → CanStep C.means None act self.old.me → HasComeBy (PerformedWith C.means None act content) self.old self.new }
    {
        let gate = self.gate;
        gate.table
            .shared
            .store::<Go<C, N>>(self.seat, word, content);
    }

    /// Changes the lock word from the one last seen to another, for the act that the seat's call wants
    /// next; where it is not the one last seen, tells it.
    #[inline(always)]
    pub(crate) fn exchange(&mut self, last: LockWord, new: LockWord) -> Result<(), LockWord>
        requires last { IsPackable last }
        requires may { MayExchange C.means last new self.old.me }
        ensures { (act : Act C) → CanStep C.means None act self.old.me → HasTried C.means act (made_by C.means act (the self.old.me.0)) result self.old self.new }
    {
        let gate = self.gate;
        let shared = &gate.table.shared;
        let content = last.number();
        let found = shared.compare_exchange::<Go<C, N>>(self.seat, 0, content, new.number());
        came_to(found, last)
    }

    /// Begins a call that loads the lock word and then wants an exchange of it, by that exchange, with a
    /// guess of the word. Where the guess is right, this one exchange is both the load and the exchange
    /// behind it; else it is the load alone, and tells the word.
    ///
    /// The rule lets a view become whatever a step of the table can lead to, and that may be two steps away
    /// (`at_once` in ns_seats). That no step of another comes between the two no clause says; it is one
    /// exchange of one word.
    #[inline(always)]
    fn exchange_guessing(
        &mut self,
        first: Walk<C>,
        guess: LockWord,
        new: LockWord,
    ) -> Result<(), LockWord>
        requires can { CanStep C.means (Some first) Act.LoadWord self.old.me }
        requires may { MayGuess N first guess new }
        ensures { (act : Act C) → WantsNext N first guess act → HasGuessedTo C.means first guess act result self.old self.new }
    {
        let gate = self.gate;
        let shared = &gate.table.shared;
        let content = guess.number();
        let found = exchange_saying::<
            BoxedQueues<C, N>,
            View<C, N>,
            u8,
            Law<C, N>,
            Option<Walk<C>>,
            Both<C, N>,
        >(shared, self.seat, 0, content, new.number(), &Some(first));
        came_to(found, guess)
    }

    /// Loads the lock word, as the next step of the seat's call, or as the first one of the call that
    /// it begins.
    ///
    /// Needs a call that wants that next; or one that is over, and then one that may begin. As in each function,
    /// what begins is for the proof alone.
    ///
    /// The first step of each call is a load. So stores are told no call, and of the exchanges only the one
    /// that is a first load, too.
    #[inline(always)]
    pub fn load(&mut self, begins: Option<Walk<C>>) -> LockWord
        requires { CanStep C.means begins Act.LoadWord self.old.me }
        ensures word { IsPackable result }
        ensures did { HasMade C.means begins Act.LoadWord (Found.Saw result) self.old self.new }
    {
        LockWord::of(self.load_at(begins, 0))
    }

    /// Acquires the lock for this, where the lock word is still the one last seen; else tells the word.
    ///
    /// Needs a call that wants that next, and a word that has a number, as each has that a load or an
    /// exchange has told.
    #[inline(always)]
    pub fn exchange_to_acquire(
        &mut self,
        aim: Aim<C>,
        arrival: Arrival,
        last: LockWord,
    ) -> Result<(), LockWord>
        requires last { IsPackable last }
        requires can { CanStep C.means None (Act.Acquire aim arrival last) self.old.me }
        ensures { HasTried C.means (Act.Acquire aim arrival last) Found.Made result self.old self.new }
    {
        self.exchange(last, last.acquired(aim.mode(), arrival))
    }

    /// Releases the section in hand, where the lock word is still the one last seen; else tells the word.
    ///
    /// Needs a call that wants that next, and a word that has a number, as each has that a load or an
    /// exchange has told.
    #[inline(always)]
    pub fn exchange_to_release(
        &mut self,
        releasing: Releasing,
        last: LockWord,
    ) -> Result<(), LockWord>
        requires last { IsPackable last }
        requires can { CanStep C.means None (Act.Release releasing last) self.old.me }
        ensures { HasTried C.means (Act.Release releasing last) Found.Made result self.old self.new }
    {
        self.exchange(last, last.released(releasing))
    }

    /// Begins a call that loads the lock word and acquires the lock for this where it finds the word that
    /// is guessed: one exchange is both where the guess is right. Else it is the load alone, and tells the
    /// word.
    ///
    /// Needs a seat whose last call is over and which may begin this one, and a guess at which the call would
    /// acquire the lock.
    #[inline(always)]
    pub fn acquire_guessing(
        &mut self,
        first: Walk<C>,
        aim: Aim<C>,
        arrival: Arrival,
        guess: LockWord,
    ) -> Result<(), LockWord>
        requires guess { IsPackable guess }
        requires can { CanStep C.means (Some first) Act.LoadWord self.old.me }
        requires next { WantsNext N first guess (Act.Acquire aim arrival guess) }
        ensures { HasGuessedTo C.means first guess (Act.Acquire aim arrival guess) result self.old self.new }
    {
        self.exchange_guessing(first, guess, guess.acquired(aim.mode(), arrival))
    }

    /// Begins a call that loads the lock word and releases the section in hand where it finds the word that
    /// is guessed: one exchange is both where the guess is right. Else it is the load alone, and tells the
    /// word.
    ///
    /// Needs a seat whose last call is over and which may begin this one, and a guess at which the call would
    /// release the section.
    #[inline(always)]
    pub fn release_guessing(
        &mut self,
        first: Walk<C>,
        releasing: Releasing,
        guess: LockWord,
    ) -> Result<(), LockWord>
        requires can { CanStep C.means (Some first) Act.LoadWord self.old.me }
        requires next { WantsNext N first guess (Act.Release releasing guess) }
        ensures { HasGuessedTo C.means first guess (Act.Release releasing guess) result self.old self.new }
    {
        self.exchange_guessing(first, guess, guess.released(releasing))
    }
}
