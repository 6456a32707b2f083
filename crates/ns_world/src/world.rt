//! The world: the lock with its row, a clock and notes, and beside it counters and once cells, one
//! step at a time.

ghost use Rattle.std.specs.Prelude.{◌≡◌, ◌≤◌, ◌<◌, ℕ, false, length, map, slice_get, MatchResult, IfOk, IfErr};
ghost use Rattle.std.specs.Option.{option_map_or};
ghost use Rattle.ns_world.specs.Prelude.{BeginFault, CallInRange, IsBySeats, IsLawfulWhole, IsLegal, RefusesWorld, WholeBegins, WholeFault, WholeStep, fresh_whole, holds, is_in, lists_shown, shown_of, tests_at, wakes_owed, whole_busy, whole_of};

use crate::among::{go_round, step_objects};
use crate::asks::ask;
use crate::call::Call;
use crate::environment::Environment;
use crate::fault::Fault;
use crate::lock::Lock;
use crate::looks::look;
use crate::objects::Objects;
use crate::operate::operate;
use crate::room::Seated;
use crate::seat::{Doing, Seat, is_call};
use crate::seats::{Sort, all_of, new_seats};
use crate::shows::{owed_wakes, shown_queues};
use crate::state::State;
use crate::step::{Begun, Step, mode_of, place, settle, tests_after};
use ns_model::condition::Condition;
use ns_model::event::{Event, Mode};
use ns_queue::queues::Queues;
use ns_queue::waiter::Which;
use ns_word::word::Word;
use std::alloc::Global;
use std::marker::Model;

/// A lock with a row of `N` cells, four condition variables, a clock, up to 64 notes, up to 16 counters,
/// up to 16 once cells, up to 64 seats, and all that has happened to the row and the variables.
///
/// Its contracts speak of the word, the row, the queues, the seats, the history, the clock, the notes, and the
/// words of the counters and once cells. Between any two calls the law of the lock holds of them, which
/// `ns_word` states: one writer or readers, as many as the word counts, the queues in one hand, each waiter
/// placed, nobody forgotten, and one legal history by seats of this world. The clock and the notes are as a
/// legal history by seats of this world leaves them, and so are the counters and once cells; who is to store a
/// note has taken its number, and who is to say that a function has run has begun to run it.
///
/// The queues are worked on in place, at the step that puts them back; only what is shown is a copy.
#[derive(Drop)]
pub struct World<C: Condition<N>, const N: usize> {
    lock: Lock<C, N>,
    env: Environment,
    seats: Vec<Seat<C, N>>,
    objects: Objects,
}

impl<C: Condition<N>, const N: usize> Model for World<C, N> {
    ghost use Rattle.ns_world.specs.Whole.{whole_of, IsLawfulWhole};
    ghost use Rattle.ns_world.specs.World.{Kept, kept};

    ghost Value = { Kept C N };

    ghost view = { λ w. kept w.lock w.env w.seats.items w.objects };

    ghost invariant = { λ w. IsLawfulWhole (whole_of C.means (kept w.lock w.env w.seats.items w.objects)) };
}

impl<C: Seated<N>, const N: usize> World<C, N> {
    /// A free lock over a row of zeros, with so many seats, a clock at 0 and no note, a counter for
    /// each of the values, by number, and so many once cells, before any event.
    ///
    /// Needs at most 16 counters and at most 16 once cells. Refuses more than 64 seats
    /// (`TooManySeats`), before it asks for memory (`OutOfMemory`).
    pub fn new(alloc: Global, seats: usize, counters: &[u32], onces: usize) -> Result<Self, Fault>
        requires counters { length counters.now ≤ 16 }
        requires onces { onces ≤ 16 }
        ensures made { MatchResult result (λ world. (whole_of C.means world ≡ fresh_whole C.means seats counters.now onces) × (seats ≤ 64)) (RefusesWorld seats) }
        ensures lawful { IfOk result (λ world. IsLawfulWhole (whole_of C.means world)) }
    {
        if seats > 64 {
            return Err(Fault::TooManySeats);
        }
        let objects = Objects::new(seats as u8, counters, onces as u8);
        let seats = new_seats(alloc, seats as u8)?;
        Ok(World {
            lock: Lock {
                word: Word::FREE,
                row: [0; N],
                queues: Queues::new(),
                flags: [0; 64],
                history: Vec::new(alloc),
            },
            env: Environment::new(),
            seats,
            objects,
        })
    }

    /// Begins a call of the seat, which makes no step yet. `Misuse` and `Busy` change nothing.
    ///
    /// Needs a call whose cell is below `N`, whose condition variable is below 4, whose notes are below
    /// 64, whose moments are below 2^54, and whose objects are at most 16. Refuses a number that is no
    /// seat's (`NoSuchSeat`), and then nothing has changed.
    pub fn begin(&mut self, seat: u8, call: Call<C>) -> Result<Begun, Fault>
        requires { CallInRange N call }
        ensures lawful { IsLawfulWhole (whole_of C.means self.new) }
        ensures ok { IfOk result (λ begun. WholeBegins (whole_of C.means self.old) (whole_of C.means self.new) seat call begun) }
        ensures err { IfErr result (λ fault. (whole_of C.means self.new ≡ whole_of C.means self.old) × BeginFault (whole_of C.means self.old) seat fault) }
    {
        let at = seat as usize;
        if at >= self.seats.len() {
            return Err(Fault::NoSuchSeat);
        }
        let here = &mut self.seats[at];
        if is_call(&here.doing) {
            return Ok(Begun::Busy);
        }
        let mode = mode_of(&here.held);
        let Some(start) = call.start::<N>(mode, &self.env.notes, &self.objects.setup) else {
            return Ok(Begun::Misuse);
        };
        place(here, start);
        Ok(Begun::Started)
    }

    /// Makes one atomic step of the seat's call, if one is in progress.
    ///
    /// Refuses a number that is no seat's (`NoSuchSeat`), and want of memory (`OutOfMemory`),
    /// which can only come where a step commits an event of the row or of a variable, which is to be kept;
    /// then nothing has changed. A step on the clock, the notes, counters and once cells takes no memory.
    pub fn step(&mut self, seat: u8) -> Result<Step, Fault>
        ensures lawful { IsLawfulWhole (whole_of C.means self.new) }
        ensures ok { IfOk result (λ step. WholeStep (whole_of C.means self.old) (whole_of C.means self.new) seat step) }
        ensures err { IfErr result (λ fault. (whole_of C.means self.new ≡ whole_of C.means self.old) × WholeFault (whole_of C.means self.old) seat fault) }
    {
        let at = seat as usize;
        if at >= self.seats.len() {
            return Err(Fault::NoSuchSeat);
        }
        let here = &mut self.seats[at];
        match here.doing {
            Doing::AtRest => Ok(Step::Nothing),
            Doing::OnNotes(walk) => Ok(ask(&mut self.env, here, walk)),
            Doing::OnObjects(walk) => Ok(step_objects(&self.env, &mut self.objects, here, walk)),
            Doing::LooksByLimits(walk, place) => Ok(look(&self.env, here, walk, place)),
            Doing::LooksByRound(walk, wait, round) => {
                let next = operate(&self.env, &mut self.objects, round);
                Ok(go_round(here, walk, wait, next))
            }
            Doing::OnLock(walk, wait) => {
                let found = self.lock.make(here, walk.want())?;
                here.tests = tests_after(found, here.tests);
                Ok(settle(here, wait, &walk.got::<N>(found)))
            }
        }
    }

    /// All that has happened to the row and the variables, which is a legal history by seats of this
    /// world.
    pub fn history(&self) -> &[Event<C, N>]
        ensures all { result.now ≡ self.now.history }
        ensures legal { IsLegal C.means.holds result.now }
        ensures by_seats { IsBySeats (length self.now.seats) result.now }
    {
        self.lock.history.as_slice()
    }

    /// The lock word as it stands, as [`World::state`] shows it. A picture asks for it at each turn, and for
    /// the state, which copies the lists, only where it may differ from what was seen.
    pub fn word(&self) -> Word
        ensures { result ≡ self.now.word }
    {
        self.lock.word
    }

    /// The world as it stands, of which the law of the lock holds, and those of the clock and the
    /// notes, and of the counters and once cells.
    pub fn state(&self) -> State<N>
        ensures word { result.word ≡ self.now.word }
        ensures lock { result.lock.items ≡ map shown_of (lists_shown (whole_of C.means self.now)).lock }
        ensures variables { map (λ list. list.items) result.cvs ≡ map (map shown_of) (lists_shown (whole_of C.means self.now)).cvs }
        ensures owed { result.owed.items ≡ wakes_owed self.now.seats }
        ensures row { result.row ≡ self.now.row }
        ensures busy { (seat : ℕ) → is_in result.busy seat ≡ whole_busy (whole_of C.means self.now) seat }
        ensures readers { (seat : ℕ) → is_in result.readers seat ≡ option_map_or (holds Mode.Read) (slice_get self.now.seats seat) false }
        ensures writers { (seat : ℕ) → is_in result.writers seat ≡ option_map_or (holds Mode.Write) (slice_get self.now.seats seat) false }
        ensures lawful { IsLawfulWhole (whole_of C.means self.now) }
    {
        let queues = shown_queues(&self.lock.queues, &self.seats, &self.lock.row);
        State {
            word: self.word(),
            lock: queues.shown(Which::Lock),
            cvs: [
                queues.shown(Which::Cv(0)),
                queues.shown(Which::Cv(1)),
                queues.shown(Which::Cv(2)),
                queues.shown(Which::Cv(3)),
            ],
            owed: owed_wakes(&self.seats),
            row: self.lock.row,
            busy: all_of(&self.seats, Sort::Busy),
            readers: all_of(&self.seats, Sort::Reading),
            writers: all_of(&self.seats, Sort::Writing),
        }
    }

    /// Whether a call of the seat is in progress. None is of a number that is no seat's.
    pub(crate) fn is_busy(&self, seat: u8) -> bool
        ensures { result ≡ whole_busy (whole_of C.means self.now) seat }
    {
        match self.seats.get(seat as usize) {
            Some(here) => is_call(&here.doing),
            None => false,
        }
    }

    /// How many seats there are.
    pub(crate) fn seats(&self) -> usize
        ensures count { result ≡ length self.now.seats }
        ensures few { result ≤ 64 }
    {
        self.seats.len()
    }

    /// How many conditions the last scan of the seat's call tested; of its last call, where none is in
    /// progress.
    pub(crate) fn tests(&self, seat: u8) -> u32
        requires { seat < length self.now.seats }
        ensures { result ≡ tests_at self.now.seats seat }
    {
        self.seats[seat as usize].tests
    }
}
