//! One function for every act that a seat's call wants. Only a test runs walks as values, and calls it.

ghost use Rattle.std.specs.Prelude.{◌≡◌, IfErr};
ghost use Rattle.ns_gate.specs.Prelude.{IsNumbered, IsPackable, IsOnWord, IsTurned, Needs, CanStep, HasMade, Performed, act_returning, the, tried_for};

use crate::bound::Bound;
use crate::gate::{Gate, GateSeat};
use crate::queues::{Returning, Turned};
use ns_env::limits::Cause;
use ns_model::condition::Condition;
use ns_word::act::{Act, Found};
use ns_word::number::LockWord;
use ns_word::owed::Owed;
use ns_word::walk::Walk;
use ns_word::word::Word;

/// What is to be known beside an act. Each act needs little of it, as [`Gate::perform`] says.
#[derive(Clone, Copy)]
pub struct Beside<const N: usize> {
    /// The seat's number.
    pub number: u8,
    /// The row that the section in hand began at.
    pub before: [u64; N],
    /// The section's row as it stands.
    pub row: [u64; N],
    /// What the look has shown.
    pub shown: Option<Cause>,
    /// What the hand has made of the queues.
    pub turned: Turned,
    /// The wake that is owed next.
    pub wake: Owed,
    /// What is found where the queues are put back or a wake is paid, which no word tells.
    pub finds: Found,
}

/// What an exchange came to, as the machine says it, where this is found if it is made.
fn found_by(tries: Result<(), LockWord>, made: Found) -> Found
    requires { IfErr tries IsPackable }
    ensures { result ≡ tried_for made tries }
{
    match tries {
        Ok(()) => made,
        Err(word) => Found::Saw(word.parts()),
    }
}

impl<C: Condition<N>, const N: usize> Gate<C, N> {
    /// Makes the act that the seat's call wants next, or begins with.
    ///
    /// Needs a seat of this gate, whose call wants that; its number; and beside it what the act's own function
    /// asks for: for an exchange a word that has a number, for a cell one below `N`; for a look what it has
    /// shown; for a judgment the section's rows; for a wake the one that is owed next; and for putting the
    /// queues back what the hand has made of them.
    ///
    /// The calls of a monitor use the functions of one kind, since walks as values cost many times as much.
    /// What is done to the queues in hand is no step, and has its own functions.
    pub fn perform(
        &self,
        seat: &mut GateSeat<C, N>,
        begins: Option<Walk<C>>,
        act: Act<C>,
        beside: &Beside<N>,
    ) -> Found
        requires of { seat.old.table_id ≡ self.now }
        requires number { IsNumbered beside.now (the seat.old.me.0) }
        requires can { CanStep C.means begins act seat.old.me }
        requires needs { Needs C.means begins act beside.now seat.old.me }
        ensures seat { seat.new.table_id ≡ seat.old.table_id }
        ensures did { Performed C.means begins act result seat.old.me seat.new.me }
    {
        let mut bound = Bound::new(self, seat, beside.number);
        let found = bound.perform(begins, act, beside);
        bound.end();
        found
    }
}

impl<C: Condition<N>, const N: usize> Bound<'_, C, N> {
    /// What [`Gate::perform`] does.
    fn perform(&mut self, begins: Option<Walk<C>>, act: Act<C>, beside: &Beside<N>) -> Found
        requires can { CanStep C.means begins act self.old.me }
        requires needs { Needs C.means begins act beside.now self.old.me }
        ensures { HasMade C.means begins act result self.old self.new }
    {
        match act {
            Act::LoadWord => Found::Saw(self.load(begins).parts()),
            Act::LoadCell(i) => Found::Cell(self.load_cell(begins, i)),
            Act::JudgeQuiet(i) => {
                let mut row = beside.row;
                row[usize::from(i)] = self.judge_quiet(begins, i);
                Found::Quiet(C::quiet(&beside.before, &row))
            }
            Act::JudgeMet(i, condition) => {
                let mut row = beside.row;
                row[usize::from(i)] = self.judge_met(begins, i, condition);
                Found::Tested(condition.test(&row))
            }
            Act::LoadFlag => Found::Flag(self.load_flag()),
            Act::Look(limits, again) => {
                self.look(limits, again, beside.shown);
                Found::Looked(beside.shown)
            }
            Act::StoreCell(i, value) => {
                self.store_cell(i, value);
                Found::Made
            }
            Act::ArmFlag => {
                self.arm_flag();
                Found::Made
            }
            Act::PayWake => {
                self.pay_wake(beside.wake);
                beside.finds
            }
            _ => self.perform_exchange(act, beside),
        }
    }

    /// The same for an exchange, which begins no call.
    fn perform_exchange(&mut self, act: Act<C>, beside: &Beside<N>) -> Found
        requires kind { IsOnWord act }
        requires can { CanStep C.means None act self.old.me }
        requires needs { Needs C.means None act beside.now self.old.me }
        ensures { HasMade C.means None act result self.old self.new }
    {
        match act {
            Act::Acquire(aim, arrival, last) => {
                let tries = self.exchange_to_acquire(aim, arrival, LockWord::new(last));
                found_by(tries, Found::Made)
            }
            Act::TakeQueues(taking, last) => {
                let tries = self.exchange_to_take(taking, LockWord::new(last));
                found_by(tries, Found::Made)
            }
            Act::Release(releasing, last) => {
                let tries = self.exchange_to_release(releasing, LockWord::new(last));
                found_by(tries, Found::Made)
            }
            Act::ReturnQueues(change, last) => {
                self.put_back(Returning::Changed(change), last, beside)
            }
            Act::ReleaseReturning(releasing, last) => {
                self.put_back(Returning::Released(releasing), last, beside)
            }
            Act::WaitReturning(wait, again, last) => {
                self.put_back(Returning::Waited(wait, again), last, beside)
            }
            _ => unreachable!(),
        }
    }

    /// Puts the queues back, with what is to be known beside.
    fn put_back(&mut self, returning: Returning<C>, last: Word, beside: &Beside<N>) -> Found
        requires can { CanStep C.means None (act_returning returning last) self.old.me }
        requires turned { IsTurned C.means returning last beside.now self.old.me }
        ensures { HasMade C.means None (act_returning returning last) result self.old self.new }
    {
        let tries = self.exchange_to_return(returning, LockWord::new(last), beside.turned);
        found_by(tries, beside.finds)
    }
}
