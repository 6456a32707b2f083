//! An act of a seat on the lock, and the compare-exchanges of its word. An exchange that finds the word which its
//! seat has last seen is made; any other changes nothing.

ghost use Rattle.std.specs.Prelude.{◌≡◌, ◌<◌, ◌++◌, ◌∷◌, [], false, true, None, IsSome, MatchResult, length};
ghost use Rattle.ns_world.specs.Prelude.{Acts, IsEvent, Leaves, MakesAct, MayMake, bits_of, called_by, change_commits, entry_of, exit_for, expected, has_some, leave_of, leaves_by, looks_at, opening_for, section_of, word_released_returning};

use crate::cells::{judge, judge_met};
use crate::lock::Lock;
use crate::room::Seated;
use crate::seat::Seat;
use ns_model::condition::Condition;
use ns_model::cvs::Variables;
use ns_model::event::{Answer, Entry, Event, Exit, Mode};
use ns_queue::queues::Queues;
use ns_queue::scan::Scan;
use ns_word::act::{Act, Change, Found, Waking};
use ns_word::hand::{bits, leave_self, queue_self, scan_and_queue, wake_waiters};
use ns_word::owed::called;
use ns_word::view::{Held, Opening};
use ns_word::wait::{Aim, Home, Outcome, Subject, Wait, answer_of};
use ns_word::word::{Arrival, Releasing, Taking, Word};
use std::alloc::AllocError;

/// What an act has found, where there was memory for the event that it commits.
type Made = Result<Found, AllocError>;

/// The word that the act needs to find: a compare-exchange the one that its seat has last seen, any other act none
/// in particular.
fn expected<C: Copy>(act: Act<C>, word: Word) -> Word
    ensures { result ≡ expected act word }
{
    match act {
        Act::Acquire(_, _, last) => last,
        Act::TakeQueues(_, last) => last,
        Act::ReturnQueues(_, last) => last,
        Act::Release(_, last) => last,
        Act::ReleaseReturning(_, last) => last,
        Act::WaitReturning(_, _, last) => last,
        _ => word,
    }
}

/// How a section begins that is acquired for this.
fn opening_for<C: Condition<N>, const N: usize>(aim: Aim<C>) -> Opening<C>
    ensures { result ≡ opening_for aim }
{
    match aim {
        Aim::ForLock(_) => Opening::Locked,
        Aim::ForWait(wait, outcome) => Opening::CameBack(wait.on, outcome),
    }
}

/// What a wait for these variables commits as it leaves their lists.
fn leaving<C: Condition<N>, const N: usize>(seat: u8, variables: Variables) -> Event<C, N>
    ensures { result ∷ [] ≡ leave_of seat (Home.AtVariables variables) true }
{
    match variables {
        Variables::Only(k) => Event::Leave { who: seat, k },
        Variables::Any(cvs) => Event::LeaveAny { who: seat, cvs },
    }
}

/// Commits that the seat leaves this home, where it is the variables' lists and the seat still stands
/// there. Where the event is refused, nothing has changed.
fn commit_leave<C: Seated<N>, const N: usize>(
    queues: &Queues<C, N>,
    seat: u8,
    history: &mut Vec<Event<C, N>>,
    home: Home,
) -> Result<(), AllocError>
    ensures { MatchResult result (λ done. history.new.items ≡ history.old.items ++ change_commits seat (Change.LeaveSelf home) queues.now) (λ fault. IsEvent seat (Change.LeaveSelf home) queues.now × (history.new.items ≡ history.old.items)) }
{
    if let Home::AtVariables(variables) = home {
        let stands = queues.stands_at_variables(seat);
        if stands {
            history.push(leaving(seat, variables))?;
        }
    }
    Ok(())
}

/// Commits a call that wakes, with those whom it takes. Where the event is refused, nothing has
/// changed.
fn commit_wake<C: Seated<N>, const N: usize>(
    queues: &Queues<C, N>,
    seat: u8,
    history: &mut Vec<Event<C, N>>,
    waking: Waking,
    k: u8,
) -> Result<(), AllocError>
    requires { k < 4 }
    ensures { MatchResult result (λ done. history.new.items ≡ history.old.items ++ change_commits seat (Change.WakeWaiters waking k) queues.now) (λ fault. history.new.items ≡ history.old.items) }
{
    let event = match waking {
        Waking::Signaling => Event::Signal {
            who: seat,
            k,
            woken: queues.signaled_set(k),
        },
        Waking::Broadcasting => Event::Broadcast {
            who: seat,
            k,
            woken: queues.waiting_set(k),
        },
    };
    history.push(event)?;
    Ok(())
}

/// How the section is said to begin in the history. A wait for a condition that came back is said to
/// have met it where it is true of the row that the section began at, or where nothing has ended the
/// wait. A wait for a variable says what it was ended by, or that it was woken; one for any of a set, which
/// of them has woken it, or that none has.
fn entry<C: Condition<N>, const N: usize>(section: &Held<C, N>) -> Entry<C>
    ensures { result ≡ entry_of C.means.holds section.now.before section.now.entry }
{
    match section.entry {
        Opening::Locked => Entry::Plain,
        Opening::CameBack(Subject::OnCondition(cond), Outcome::Woken(_)) => {
            Entry::Waited(cond, Answer::Met)
        }
        Opening::CameBack(Subject::OnCondition(cond), Outcome::Ended(cause)) => {
            if cond.test(&section.before) {
                Entry::Waited(cond, Answer::Met)
            } else {
                Entry::Waited(cond, answer_of(cause))
            }
        }
        Opening::CameBack(Subject::OnVariables(Variables::Only(k)), outcome) => {
            Entry::AfterCv(k, outcome.answer())
        }
        Opening::CameBack(Subject::OnVariables(Variables::Any(_)), outcome) => {
            Entry::AfterAny(outcome.variable())
        }
    }
}

/// How a section ends that is left for such a wait.
fn exit_for<C: Copy>(on: Subject<C>) -> Exit<C>
    ensures { result ≡ exit_for on }
{
    match on {
        Subject::OnCondition(cond) => Exit::CondWait(cond),
        Subject::OnVariables(Variables::Only(k)) => Exit::CvWait(k),
        Subject::OnVariables(Variables::Any(cvs)) => Exit::AnyWait(cvs),
    }
}

impl<C: Seated<N>, const N: usize> Seat<C, N> {
    /// Ends the section in hand: its event stands at the end of the history. Where that is refused,
    /// nothing has changed.
    fn commit(&mut self, history: &mut Vec<Event<C, N>>, exit: Exit<C>) -> Result<(), AllocError>
        requires { IsSome self.old.held }
        ensures { MatchResult result (λ done. Leaves (λ section. section_of C.means.holds self.old.number section exit ∷ []) self.old history.old.items self.new history.new.items) (λ fault. (self.new ≡ self.old) × (history.new.items ≡ history.old.items)) }
    {
        let Some(section) = self.held else {
            unreachable!()
        };
        history.push(Event::Section {
            who: self.number,
            mode: section.mode,
            entry: entry(&section),
            before: section.before,
            after: section.row,
            exit,
        })?;
        self.held = None;
        Ok(())
    }

    /// Ends the section in hand for a wait. One that queues again commits nothing: the section that it
    /// came back with has shown nothing to its caller.
    fn leave(
        &mut self,
        history: &mut Vec<Event<C, N>>,
        on: Subject<C>,
        again: bool,
    ) -> Result<(), AllocError>
        requires { IsSome self.old.held }
        ensures { MatchResult result (λ done. Leaves (leaves_by C.means.holds self.old.number on again) self.old history.old.items self.new history.new.items) (λ fault. (again ≡ false) × (self.new ≡ self.old) × (history.new.items ≡ history.old.items)) }
    {
        if again {
            self.held = None;
            return Ok(());
        }
        self.commit(history, exit_for(on))
    }
}

impl<C: Condition<N>, const N: usize> Lock<C, N> {
    /// Sets the spinlock bit, with which the queues are the seat's.
    fn take_queues(&mut self, taking: Taking) -> Found
        requires { self.old.word.spin ≡ false }
        ensures { (seat : _) → MakesAct C.means (Act.TakeQueues taking self.old.word) self.old seat result self.new seat }
    {
        self.word = self.word.taken(taking);
        Found::Made
    }
}

impl<C: Seated<N>, const N: usize> Lock<C, N> {
    /// Acquires for this.
    fn acquire(&mut self, seat: &mut Seat<C, N>, aim: Aim<C>, arrival: Arrival) -> Found
        requires { MayMake C.means (Act.Acquire aim arrival self.old.word) self.old seat.old }
        ensures { MakesAct C.means (Act.Acquire aim arrival self.old.word) self.old seat.old result self.new seat.new }
    {
        let mode = aim.mode();
        self.word = self.word.acquired(mode, arrival);
        seat.held = Some(Held {
            mode,
            entry: opening_for(aim),
            before: self.row,
            row: self.row,
        });
        Found::Made
    }

    /// Puts the seat into the lock list, and puts the queues back, which clears the spinlock bit.
    fn return_queued(&mut self, seat: &Seat<C, N>, mode: Mode, arrival: Arrival) -> Found
        requires { MayMake C.means (Act.ReturnQueues (Change.QueueSelf mode arrival) self.old.word) self.old seat.now }
        ensures { MakesAct C.means (Act.ReturnQueues (Change.QueueSelf mode arrival) self.old.word) self.old seat.now result self.new seat.now }
    {
        queue_self(&mut self.queues, seat.number, mode, arrival);
        self.word = self.word.returned(false, bits(&self.queues));
        Found::Made
    }

    /// Takes the seat out of all lists, if it still stands where a wait of this home does, and puts the
    /// queues back, which clears the spinlock bit. That a wait for variables was left is committed; where
    /// the event is refused, nothing has changed.
    fn return_left(&mut self, seat: &Seat<C, N>, home: Home) -> Made
        ensures { Acts C.means (Act.ReturnQueues (Change.LeaveSelf home) self.old.word) self.old seat.now result self.new seat.now }
    {
        commit_leave(&self.queues, seat.number, &mut self.history, home)?;
        let stood = leave_self(&mut self.queues, seat.number, home);
        self.word = self.word.returned(false, bits(&self.queues));
        Ok(Found::Left(stood))
    }

    /// Takes those of the list of the variable whom the call wakes out of all variables' lists, puts the
    /// queues back, which clears the spinlock bit, and commits the call. Where the lock is held they stand at the back of
    /// the lock list then, else the seat owes them their wakes. Where the event is refused, nothing has
    /// changed.
    fn return_waking(&mut self, seat: &mut Seat<C, N>, waking: Waking, k: u8) -> Made
        requires { k < 4 }
        ensures { Acts C.means (Act.ReturnQueues (Change.WakeWaiters waking k) self.old.word) self.old seat.old result self.new seat.new }
    {
        commit_wake(&self.queues, seat.number, &mut self.history, waking, k)?;
        let some = self.queues.has_waiters(k);
        let held = self.word.is_held();
        let owes = !held && some;
        seat.owed = wake_waiters(&mut self.queues, waking, k, held);
        self.word = self.word.returned(held && some, bits(&self.queues));
        Ok(Found::Woke { owes })
    }

    /// Changes the lists in hand, and puts the queues back, which clears the spinlock bit. Where the
    /// change is an event that is refused, nothing has changed.
    fn return_queues(&mut self, seat: &mut Seat<C, N>, change: Change) -> Made
        requires { MayMake C.means (Act.ReturnQueues change self.old.word) self.old seat.old }
        ensures { Acts C.means (Act.ReturnQueues change self.old.word) self.old seat.old result self.new seat.new }
    {
        match change {
            Change::QueueSelf(mode, arrival) => Ok(self.return_queued(seat, mode, arrival)),
            Change::LeaveSelf(home) => self.return_left(seat, home),
            Change::WakeWaiters(waking, k) => self.return_waking(seat, waking, k),
            Change::Nothing => {
                self.word = self.word.returned(false, bits(&self.queues));
                Ok(Found::Made)
            }
        }
    }

    /// Puts the queues back after a scan, which clears the spinlock bit, and releases the section. The seat then owes
    /// the wakes of those whom the scan has taken.
    fn release_scanned(&mut self, seat: &mut Seat<C, N>, releasing: Releasing, scan: Scan) -> Found
        requires { length scan.vias.items ≡ length scan.woken.items }
        ensures found { result ≡ Found.Scanned (has_some scan.woken.items) scan.tests }
        ensures lock { self.new ≡ record self.old { word = word_released_returning releasing (has_some scan.woken.items) (bits_of self.old.queues.lock) self.old.word } }
        ensures seat { seat.new ≡ record seat.old { owed = record { items = called_by scan.woken.items scan.vias.items } } }
    {
        let owes = !scan.woken.is_empty();
        self.word = self
            .word
            .released_returning(releasing, owes, bits(&self.queues));
        seat.owed = called(scan.woken.as_slice(), scan.vias.as_slice());
        Found::Scanned {
            owes,
            tests: scan.tests,
        }
    }

    /// Releases the section without a scan, and commits it. Where the event is refused, nothing has
    /// changed.
    fn release(&mut self, seat: &mut Seat<C, N>, releasing: Releasing) -> Made
        requires { MayMake C.means (Act.Release releasing self.old.word) self.old seat.old }
        ensures { Acts C.means (Act.Release releasing self.old.word) self.old seat.old result self.new seat.new }
    {
        seat.commit(&mut self.history, Exit::Plain)?;
        self.word = self.word.released(releasing);
        Ok(Found::Made)
    }

    /// Takes those out of the lock list whom a scan at the row wakes, clears the spinlock bit,
    /// releases the section and commits it; the seat then owes the wakes. Where the event is refused,
    /// nothing has changed.
    fn release_returning(&mut self, seat: &mut Seat<C, N>, releasing: Releasing) -> Made
        requires { MayMake C.means (Act.ReleaseReturning releasing self.old.word) self.old seat.old }
        ensures { Acts C.means (Act.ReleaseReturning releasing self.old.word) self.old seat.old result self.new seat.new }
    {
        seat.commit(&mut self.history, Exit::Plain)?;
        let scan = self.queues.scan(&self.row);
        Ok(self.release_scanned(seat, releasing, scan))
    }

    /// Takes those out of the lock list whom a scan at the row wakes, puts the wait into its list, clears
    /// the spinlock bit, releases the section and commits it, unless the wait queues again; the seat then
    /// owes the wakes. Where the event is refused, nothing has changed.
    fn wait_returning(&mut self, seat: &mut Seat<C, N>, wait: Wait<C>, again: bool) -> Made
        requires { MayMake C.means (Act.WaitReturning wait again self.old.word) self.old seat.old }
        ensures { Acts C.means (Act.WaitReturning wait again self.old.word) self.old seat.old result self.new seat.new }
    {
        seat.leave(&mut self.history, wait.on, again)?;
        let scan = scan_and_queue(&mut self.queues, &self.row, seat.number, wait, again);
        Ok(self.release_scanned(seat, Releasing::of(wait.mode), scan))
    }

    /// Makes the seat's act, which is one on the lock and no look. A compare-exchange that finds another word than its
    /// seat has last seen changes nothing. Only an act that commits an event takes memory, for that event; where it is
    /// refused, nothing has changed.
    pub(crate) fn make(&mut self, seat: &mut Seat<C, N>, act: Act<C>) -> Made
        requires fits { MayMake C.means act self.old seat.old }
        requires inside { looks_at act ≡ None }
        ensures { Acts C.means act self.old seat.old result self.new seat.new }
    {
        if !self.word.is_same(expected(act, self.word)) {
            return Ok(Found::Saw(self.word));
        }
        match act {
            Act::LoadWord => Ok(Found::Saw(self.word)),
            Act::Acquire(aim, arrival, _) => Ok(self.acquire(seat, aim, arrival)),
            Act::TakeQueues(taking, _) => Ok(self.take_queues(taking)),
            Act::ReturnQueues(change, _) => self.return_queues(seat, change),
            Act::Release(releasing, _) => self.release(seat, releasing),
            Act::ReleaseReturning(releasing, _) => self.release_returning(seat, releasing),
            Act::WaitReturning(wait, again, _) => self.wait_returning(seat, wait, again),
            Act::LoadCell(i) => Ok(Found::Cell(self.row[i as usize])),
            Act::JudgeQuiet(i) => Ok(judge(seat, i)),
            Act::JudgeMet(i, cond) => Ok(judge_met(seat, i, cond)),
            Act::StoreCell(i, value) => Ok(self.store(seat, i, value)),
            Act::ArmFlag => Ok(self.arm_flag(seat)),
            Act::PayWake => Ok(self.pay_wake(seat)),
            Act::LoadFlag => Ok(Found::Flag(self.flags[seat.number as usize])),
            Act::Look(_, _) => unreachable!(),
        }
    }
}
