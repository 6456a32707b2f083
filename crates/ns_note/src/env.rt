//! The clock and the notes of several callers.

ghost use Rattle.std.specs.Prelude.{◌≡◌, ◌<◌, ◌^◌, ◌++◌, ◌↔◌, [], ◌∷◌, true, false, All, List, length, IfSome, IfOk, IfErr, OnOk, option_map};
ghost use Rattle.ns_note.specs.Prelude.{AreNew, AreOfOneHistory, FoundFull, Grows, HasLooked, HasTakenNumber, IsAtRest, IsBetween, IsMade, IsNotified, IsNumberOf, IsOne, IsTrueToHistory, LookAnswers, Nothing, WaitAnswers, WordFits, clock_of, env_after, expiry_of, is_made, is_notified, known_of};
ghost use Rattle.ns_note.specs.Prelude.{state_of, takes_in, the};

use crate::fault::NotesFull;
use crate::note::{Note, decode_note, encode_note, index_of};
use crate::plays::{
    FirstOut, Law, Learn, LoadClock, LoadNext, LoadNote, Make, Mark, MoveClock, Ring, SetBack,
    Take, Together,
};
use crate::seat::{EnvSeat, TableSeat};
use crate::table_words::{BELLS, CLOCK, NEXT, NOTES, WORDS};
use crate::view::View;
use atomic_table::Table;
use ns_env::limits::{Cause, Limits};
use ns_env::note::{NoteWord, earlier, is_due};
use ns_model::environment::EnvEvent;
use ns_model::event::Answer;
use ns_seats::fault::Fault;
use std::alloc::{AllocError, Global};
use std::marker::Model;
use std::sync::Wait;
use std::time::Duration;

/// A clock and up to 64 notes, shared by up to 64 callers. Each call takes its caller's seat, which
/// has to be of this environment.
///
/// A call on a note needs one that the seat has seen made: that its own [`Env::note_new`] has
/// given, or of which its own [`Env::knows`] has answered `true`. Once seen, that holds for good.
#[derive(Drop)]
pub struct Env {
    table: Table<(), View, u8, Law, Global>,
    /// How many seats there are, whose bells are rung.
    seats: u8,
}

impl Model for Env {
    ghost use Rattle.std.specs.Prelude.{◌≡◌, ◌≤◌};
    ghost use Rattle.atomic_table.specs.Seated.{TableId};
    ghost use Rattle.ns_note.specs.declared.table_words.TheConstants.{WORDS};

    ghost Value = { TableId };

    ghost view = { λ e. e.table.shared.table_id };

    ghost invariant = { λ e. (e.table.shared.table_id.words ≡ WORDS) × (e.table.shared.table_id.slots ≡ 0) × (e.seats ≡ e.table.shared.key) × (e.seats ≤ 64) };
}

/// A seat, with its number.
fn seated(seat: TableSeat, number: u8) -> EnvSeat
    requires { IsAtRest seat.table_id seat.me × IsNumberOf number seat.me }
    ensures { result ≡ known_of seat.table_id (the seat.me.0) }
{
    EnvSeat { seat, number }
}

/// Puts a seat behind the others.
fn add(seats: &mut Vec<EnvSeat>, seat: EnvSeat) -> Result<(), AllocError>
    ensures { OnOk result (seats.new.items ≡ seats.old.items ++ seat ∷ []) }
{
    seats.push(seat)?;
    Ok(())
}

impl Env {
    /// An environment with its clock at 0 and no note, and its seats, one for each caller.
    ///
    /// Refuses more than 64 seats (`TooManySeats`) before it takes any memory, and refuses where memory
    /// is refused (`OutOfMemory`). Needs at least one seat.
    pub fn new(alloc: Global, seats: usize) -> Result<(Env, Vec<EnvSeat>), Fault>
        requires { 0 < seats }
        ensures made { IfOk result (λ r. (length r.1.items ≡ seats) × AreNew r.0 seats 0 r.1.items) }
        ensures seats { IfOk result (λ r. All (λ seat. seat.env ≡ r.0) r.1.items) }
        ensures refused { (result ≡ Err Fault.TooManySeats) ↔ (64 < seats) }
    {
        if seats > 64 {
            return Err(Fault::TooManySeats);
        }
        let (table, mut rest) = Table::of_words(alloc, &[0; WORDS], &(seats as u8))?;
        let mut given = Vec::new(alloc);
        for number in 0..seats {
            let seat = table.shared.split_seat::<FirstOut>(&mut rest);
            add(&mut given, seated(seat, number as u8))?;
        }
        let seats = seats as u8;
        Ok((Env { table, seats }, given))
    }

    /// Two callers compare what they have seen: of what one had seen and what the other had, one
    /// begins the other, with just the events of both as their own, and now both have seen one
    /// history that begins with it.
    ///
    /// To join and to split seats tells them nothing, so one load between the two learns.
    pub fn meet(&self, first: EnvSeat, second: EnvSeat) -> (EnvSeat, EnvSeat)
        requires { (first.env ≡ self.now) × (second.env ≡ self.now) }
        ensures grows { Grows first result.0 × Grows second result.1 }
        ensures mine { (result.0.mine ≡ first.mine) × (result.1.mine ≡ second.mine) }
        ensures before { AreOfOneHistory first second }
        ensures after { result.1.seen ≡ result.0.seen }
    {
        let EnvSeat {
            seat: mut both,
            number: first_number,
        } = first;
        let EnvSeat {
            seat: second,
            number: second_number,
        } = second;
        let shared = &self.table.shared;
        shared.join_seat::<Together>(&mut both, second);
        shared.load::<Learn>(&mut both, CLOCK);
        let first = shared.split_seat::<FirstOut>(&mut both);
        (seated(first, first_number), seated(both, second_number))
    }

    /// Takes the next number, if there still is one.
    fn take_number(&self, seat: &mut TableSeat) -> Result<u8, NotesFull>
        requires env { seat.old.table_id ≡ self.now }
        requires one { IsOne seat.old.me.0 }
        requires idle { (the seat.old.me.0).making ≡ Nothing }
        ensures seat { (seat.new.table_id ≡ seat.old.table_id) × IsOne seat.new.me.0 × (seat.new.me.1 ≡ seat.old.me.1) }
        ensures taken { IfOk result (λ number. HasTakenNumber number (the seat.old.me.0) (the seat.new.me.0)) }
        ensures full { IfErr result (λ _. FoundFull (the seat.old.me.0) (the seat.new.me.0)) }
    {
        let shared = &self.table.shared;
        if shared.load::<LoadNext>(seat, NEXT) >= 64 {
            return Err(NotesFull);
        }
        let number = shared.fetch_add::<Take>(seat, NEXT, 1);
        if number < 64 {
            Ok(number as u8)
        } else {
            Err(NotesFull)
        }
    }

    /// Makes a note below a parent, if one is given, with a deadline in ticks, if one is given.
    /// nsync's `nsync_note_new`.
    ///
    /// Refuses (`NotesFull`) only where 64 numbers are taken, and then no note has changed. Needs a parent
    /// that the seat has seen made, and a deadline below 2^54.
    pub fn note_new(
        &self,
        seat: &mut EnvSeat,
        parent: Option<Note>,
        deadline: Option<u64>,
    ) -> Result<Note, NotesFull>
        requires env { seat.old.env ≡ self.now }
        requires parent { IfSome parent (λ p. IsMade seat.old.seen p.index) }
        requires deadline { IfSome deadline (λ d. d < 2 ^ 54) }
        ensures grows { Grows seat.old seat.new }
        ensures made { IfOk result (λ note. seat.new.mine ≡ seat.old.mine ++ EnvEvent.Take seat.old.seat note.index ∷ EnvEvent.New seat.old.seat note.index (option_map (λ p. p.index) parent) deadline ∷ []) }
        ensures is_made { IfOk result (λ note. IsMade seat.new.seen note.index) }
        ensures full { IfErr result (λ _. (seat.new.mine ≡ seat.old.mine) × (takes_in seat.new.seen ≡ 64)) }
    {
        let index = self.take_number(&mut seat.seat)?;
        let word = encode_note(NoteWord {
            notified: false,
            made: true,
            parent: index_of(parent),
            deadline,
        });
        self.table
            .shared
            .store::<Make>(&mut seat.seat, usize::from(index) + NOTES, word);
        Ok(Note { index })
    }

    /// The clock, in ticks: a moment below 2^54. The answer is right at the end of the call, which is more
    /// than at some point of it.
    pub fn now(&self, seat: &mut EnvSeat) -> u64
        requires { seat.old.env ≡ self.now }
        ensures grows { Grows seat.old seat.new }
        ensures mine { seat.new.mine ≡ seat.old.mine }
        ensures clock { result ≡ clock_of seat.new.seen }
        ensures moment { result < 2 ^ 54 }
    {
        self.table.shared.load::<LoadClock>(&mut seat.seat, CLOCK)
    }

    /// Rings a bell, and answers whether it was rung before.
    ///
    /// Needs the number of one of 64 bells.
    fn ring_one(&self, seat: &mut EnvSeat, number: u8) -> bool
        requires env { seat.old.env ≡ self.now }
        requires number { number < 64 }
        ensures { seat.new ≡ seat.old }
    {
        let bell = usize::from(number) + BELLS;
        self.table.shared.swap::<Ring>(&mut seat.seat, bell, 1) == 1
    }

    /// Rings the bell of every seat, and wakes who sleeps at it, after a step that whoever waits
    /// has to see. It takes no lock and no memory, and never waits.
    ///
    /// With nobody waiting it takes a load a seat, and no call of the operating system. Where a seat has set
    /// its bell back and has gone on without sleeping, the next ring makes one wake that nobody needs.
    fn ring(&self, seat: &mut EnvSeat)
        requires { seat.old.env ≡ self.now }
        ensures { seat.new ≡ seat.old }
    {
        for number in 0..self.seats {
            // Where the bell shows that it is rung, nothing is to be done: nobody has set it back
            // since it was last rung, and whoever rang it wakes its sleeper. All steps are in one
            // order, so who sets it back from now on, and looks after that, sees the step that
            // came before this call. The same is so where the swap finds it rung meanwhile: only
            // the one that found it set back wakes, since there is but one sleeper to a bell; one that
            // stops for good between the two leaves that sleeper asleep for good.
            let bell = usize::from(number) + BELLS;
            if self.table.shared.peek(bell) == 0 && !self.ring_one(seat, number) {
                self.table.shared.wake_one(bell);
            }
        }
    }

    /// Sets the seat's own bell back, so that it is heard when it is next rung, and answers whether
    /// it was rung.
    fn set_bell_back(&self, seat: &mut EnvSeat) -> bool
        requires { seat.old.env ≡ self.now }
        ensures { seat.new ≡ seat.old }
    {
        let own = usize::from(seat.number) + BELLS;
        self.table.shared.swap::<SetBack>(&mut seat.seat, own, 0) == 1
    }

    /// Moves the clock to a moment, in ticks; a clock that stands later stays where it is. Wakes
    /// all that sleep in this environment, so that they look again.
    ///
    /// Needs a moment below 2^54.
    pub fn advance(&self, seat: &mut EnvSeat, to: u64)
        requires env { seat.old.env ≡ self.now }
        requires moment { to < 2 ^ 54 }
        ensures grows { Grows seat.old seat.new }
        ensures mine { seat.new.mine ≡ seat.old.mine ++ EnvEvent.Advance seat.old.seat to ∷ [] }
    {
        self.table
            .shared
            .fetch_max::<MoveClock>(&mut seat.seat, CLOCK, to);
        self.ring(seat);
    }

    /// Notifies a note, for good, and with it every note below it. Wakes all that sleep in this
    /// environment, so that they look again. nsync's `nsync_note_notify`.
    ///
    /// Needs a note that the seat has seen made.
    pub fn notify(&self, seat: &mut EnvSeat, note: Note)
        requires env { seat.old.env ≡ self.now }
        requires made { IsMade seat.old.seen note.index }
        ensures grows { Grows seat.old seat.new }
        ensures mine { seat.new.mine ≡ seat.old.mine ++ EnvEvent.Notify seat.old.seat note.index ∷ [] }
    {
        self.table
            .shared
            .fetch_or::<Mark>(&mut seat.seat, usize::from(note.index) + NOTES, 1);
        self.ring(seat);
    }

    /// What the word of a number tells now.
    fn word(&self, seat: &mut EnvSeat, number: u8) -> NoteWord
        requires env { seat.old.env ≡ self.now }
        requires number { number < 64 }
        ensures grows { Grows seat.old seat.new }
        ensures mine { seat.new.mine ≡ seat.old.mine }
        ensures word { result ≡ state_of ((env_after seat.new.seen).notes number) }
        ensures fits { WordFits result }
    {
        let word = self
            .table
            .shared
            .load::<LoadNote>(&mut seat.seat, usize::from(number) + NOTES);
        decode_note(word)
    }

    /// Whether the note is made, so that other calls of this seat may take it. The answer is right at the end
    /// of the call, which is more than at some point of it.
    pub fn knows(&self, seat: &mut EnvSeat, note: Note) -> bool
        requires { seat.old.env ≡ self.now }
        ensures grows { Grows seat.old seat.new }
        ensures mine { seat.new.mine ≡ seat.old.mine }
        ensures made { result ≡ is_made seat.new.seen note.index }
    {
        self.word(seat, note.index).made
    }

    /// Whether the note of this number or an ancestor is notified by a call, or has a deadline that the
    /// clock, which was loaded before, has reached.
    fn stops(&self, seat: &mut EnvSeat, note: u8, clock: u64) -> bool
        requires env { seat.old.env ≡ self.now }
        requires made { IsMade seat.old.seen note }
        requires clock { clock ≡ clock_of seat.old.seen }
        requires true_to { IsTrueToHistory seat.old }
        ensures grows { Grows seat.old seat.new }
        ensures mine { seat.new.mine ≡ seat.old.mine }
        ensures over { result ≡ true → IsNotified seat.new.seen note }
        ensures not_yet { result ≡ false → is_notified seat.old.seen note ≡ false }
    {
        let mut word = self.word(seat, note);
        while !word.is_over(clock) {
            match word.parent {
                None => return false,
                Some(number) => word = self.word(seat, number),
            }
        }
        true
    }

    /// Whether the note is notified: it or an ancestor, by a call or by its deadline. nsync's
    /// `nsync_note_is_notified`.
    ///
    /// Needs a note that the seat has seen made.
    pub fn is_notified(&self, seat: &mut EnvSeat, note: Note) -> bool
        requires env { seat.old.env ≡ self.now }
        requires made { IsMade seat.old.seen note.index }
        ensures grows { Grows seat.old seat.new }
        ensures mine { seat.new.mine ≡ seat.old.mine }
        ensures notified { (point : List EnvEvent) × IsBetween seat.old.seen point seat.new.seen × (result ≡ is_notified point note.index) }
    {
        let clock = self.now(seat);
        self.stops(seat, note.index, clock)
    }

    /// The earliest deadline from the note up to its root, in ticks, or `None` where there is
    /// none. nsync's `nsync_note_expiry`.
    ///
    /// Needs a note that the seat has seen made.
    pub fn expiry(&self, seat: &mut EnvSeat, note: Note) -> Option<u64>
        requires env { seat.old.env ≡ self.now }
        requires made { IsMade seat.old.seen note.index }
        ensures grows { Grows seat.old seat.new }
        ensures mine { seat.new.mine ≡ seat.old.mine }
        ensures expiry { result ≡ expiry_of seat.new.seen note.index }
    {
        let word = self.word(seat, note.index);
        let mut earliest = word.deadline;
        let mut next = word.parent;
        while let Some(number) = next {
            let word = self.word(seat, number);
            earliest = earlier(earliest, word.deadline);
            next = word.parent;
        }
        earliest
    }

    /// One look at what may end a wait: `Notified` where its note is notified, else `Expired` where the
    /// clock has reached its deadline, in ticks, else nothing. What the limits don't name is not looked at. With
    /// neither it loads the clock all the same, and answers nothing.
    ///
    /// Needs a note, if they name one, that the seat has seen made.
    pub fn look_for(&self, seat: &mut EnvSeat, limits: Limits) -> Option<Cause>
        requires env { seat.old.env ≡ self.now }
        requires made { IfSome limits.note (IsMade seat.old.seen) }
        ensures grows { Grows seat.old seat.new }
        ensures mine { seat.new.mine ≡ seat.old.mine }
        ensures shows { HasLooked limits result seat.old.seen seat.new.seen }
    {
        let clock = self.now(seat);
        if let Some(note) = limits.note {
            if self.stops(seat, note, clock) {
                return Some(Cause::Notified);
            }
        }
        if is_due(limits.deadline, clock) {
            Some(Cause::Expired)
        } else {
            None
        }
    }

    /// One look at a note and a deadline, in ticks: `Canceled` where the note is notified, else
    /// `TimedOut` where the clock has reached the deadline, else nothing. What is not given is
    /// not looked at. With neither it loads the clock all the same, and answers nothing.
    ///
    /// Needs a note, if one is given, that the seat has seen made.
    pub fn look(
        &self,
        seat: &mut EnvSeat,
        note: Option<Note>,
        deadline: Option<u64>,
    ) -> Option<Answer>
        requires env { seat.old.env ≡ self.now }
        requires made { IfSome note (λ n. IsMade seat.old.seen n.index) }
        ensures grows { Grows seat.old seat.new }
        ensures mine { seat.new.mine ≡ seat.old.mine }
        ensures answers { LookAnswers note deadline seat.old.seen seat.new.seen result }
    {
        let limits = Limits {
            deadline,
            note: index_of(note),
        };
        match self.look_for(seat, limits) {
            None => None,
            Some(Cause::Notified) => Some(Answer::Canceled),
            Some(Cause::Expired) => Some(Answer::TimedOut),
        }
    }

    /// Looks, and sleeps until the seat's bell is rung where the look shows nothing. It may also
    /// wake for no reason.
    fn look_or_sleep<R: Wait>(
        &self,
        rt: &R,
        seat: &mut EnvSeat,
        note: Note,
        deadline: Option<u64>,
    ) -> Option<Answer>
        requires env { seat.old.env ≡ self.now }
        requires made { IsMade seat.old.seen note.index }
        ensures grows { Grows seat.old seat.new }
        ensures mine { seat.new.mine ≡ seat.old.mine }
        ensures answers { LookAnswers (Some note) deadline seat.old.seen seat.new.seen result }
    {
        // The bell is set back before the look: what rang it before this line, the look sees, and
        // what rings it after this line, the sleep finds rung or ends by. With the look first, a
        // ring between the two would be lost for good, and the sleeper would miss its note. No
        // clause refuses that, since to sleep is no step; two threads that hand notes to and fro
        // soon stand still by it.
        self.set_bell_back(seat);
        let found = self.look(seat, Some(note), deadline);
        if found.is_none() {
            let bell = usize::from(seat.number) + BELLS;
            self.table.shared.park(rt, bell, 0);
        }
        found
    }

    /// Goes on with a wait whose first look showed nothing, and answers whether the note is notified.
    ///
    /// A function that may wait costs its caller a look at whether it was cut short, so a wait that is over
    /// as it begins calls none.
    #[cold]
    pub(crate) fn go_on_waiting<R: Wait>(
        &self,
        rt: &R,
        seat: &mut EnvSeat,
        note: Note,
        deadline: Option<u64>,
    ) -> bool
        requires env { seat.old.env ≡ self.now }
        requires made { IsMade seat.old.seen note.index }
        requires true_to { IsTrueToHistory seat.old }
        ensures grows { Grows seat.old seat.new }
        ensures mine { seat.new.mine ≡ seat.old.mine }
        ensures answers { WaitAnswers note deadline seat.old.seen seat.new.seen result }
    {
        for _ in rt.forever() {
            match self.look_or_sleep(rt, seat, note, deadline) {
                Some(Answer::Canceled) => return true,
                Some(Answer::TimedOut) => return false,
                _ => {}
            }
        }
        unreachable!()
    }

    /// Waits until the note is notified, or until the clock has reached the deadline, in ticks,
    /// and answers whether the note is notified. With no deadline it waits for the note alone.
    /// Meanwhile it sleeps, and looks again after each [`Env::notify`] and [`Env::advance`].
    /// nsync's `nsync_note_wait`.
    ///
    /// Needs a note that the seat has seen made.
    pub fn note_wait<R: Wait>(
        &self,
        rt: &R,
        seat: &mut EnvSeat,
        note: Note,
        deadline: Option<u64>,
    ) -> bool
        requires env { seat.old.env ≡ self.now }
        requires made { IsMade seat.old.seen note.index }
        ensures grows { Grows seat.old seat.new }
        ensures mine { seat.new.mine ≡ seat.old.mine }
        ensures answers { WaitAnswers note deadline seat.old.seen seat.new.seen result }
    {
        match self.look(seat, Some(note), deadline) {
            Some(Answer::Canceled) => true,
            Some(Answer::TimedOut) => false,
            _ => self.go_on_waiting(rt, seat, note, deadline),
        }
    }

    /// Sleeps until the next [`Env::notify`] or [`Env::advance`], for at most `longest`: for a
    /// caller that waits for something of this environment and for something else too, and that
    /// looks at both again afterwards.
    ///
    /// It comes back at once where one of these came since the seat's last wait or rest, and may come
    /// back early for no reason. So a caller that looks each time after it, and rests again only where
    /// that look showed nothing, sleeps through nothing of this environment. What else it waits for
    /// may come behind that look or during the sleep, and be slept through: for `longest`, or for more
    /// where the system sleeps longer than it is asked to.
    pub fn rest<R: Wait>(&self, rt: &R, seat: &mut EnvSeat, longest: Duration)
        requires { seat.old.env ≡ self.now }
        ensures { seat.new ≡ seat.old }
    {
        // Where the bell was rung since it was last set back, the caller may not have seen what
        // rang it. Where it wasn't, nobody has rung since the caller's last look.
        if !self.set_bell_back(seat) {
            let bell = usize::from(seat.number) + BELLS;
            self.table.shared.park_timeout(rt, bell, 0, longest);
        }
    }
}
