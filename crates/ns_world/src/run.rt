//! A run of a schedule: items of its words one after another, each of one turn or of as many as
//! its call takes.

ghost use Rattle.std.specs.Prelude.{◌≡◌, ◌≤◌, ◌<◌, ◌+◌, ◌∷◌, [], Some, IfOk, IfErr, OnOk, OnErr, All, length, replicate, slice_get, slice_index, MatchResult, ◌^◌, ◌++◌};
ghost use Rattle.ns_world.specs.Prelude.{CallInRange, whole_of};
ghost use Rattle.ns_world.specs.Runs.{calls_of, Counts, CountsTurn, is_end, TurnsWith, tests_told, TurnFault, Advances, AdvancesSeen, IsFinished, Halts, Runs, RunFault, RunHalts, RunsSeen, AllIdle, IsCounted, ListFits, item_for, item_of, items_of, lists_of, seen, so_far, watched};

use crate::call::Call;
use crate::fault::Fault;
use crate::observer::{Nobody, Observer};
use crate::reply::Reply;
use crate::room::Seated;
use crate::schedule::{Line, Turn};
use crate::step::{Begun, Step};
use crate::world::World;
use std::alloc::{AllocError, Global};

/// How far a run has come, beside its world.
#[derive(Drop)]
pub struct Tally {
    /// How many calls of each seat are over.
    pub over: [u16; 64],
    /// The finished calls, in the order in which they ended.
    pub lines: Vec<Line>,
    /// How many turns were made.
    pub turns: u32,
}

impl Tally {
    /// Before the first turn.
    pub fn new(alloc: Global) -> Tally
        ensures over { result.over ≡ replicate 64 0 }
        ensures lines { result.lines.items ≡ [] }
        ensures turns { result.turns ≡ 0 }
    {
        Tally {
            over: [0; 64],
            lines: Vec::new(alloc),
            turns: 0,
        }
    }
}

/// The seat's call after so many. A seat without a list has none.
pub fn next_call<C: Copy>(lists: &[Vec<Call<C>>], seat: u8, over: u16) -> Option<Call<C>>
    ensures { result ≡ slice_get (calls_of (lists_of lists.now) seat) over }
{
    match lists.get(seat as usize) {
        Some(calls) => calls.get(over as usize).copied(),
        None => None,
    }
}

/// Whether an item ends with this turn of its seat: after one turn, or, for a `whole` item, once its call has
/// returned or has to wait.
fn is_end(whole: bool, step: Step) -> bool
    ensures { result ≡ is_end whole step }
{
    match step {
        Step::Went => !whole,
        Step::Idle => true,
        Step::Finished(_) => true,
        Step::Nothing => true,
    }
}

/// How many conditions a finished call's scan tested, by what its seat has kept. A misused call made none.
fn tests_told(reply: Reply, tests: u32) -> u32
    ensures { result ≡ tests_told reply tests }
{
    match reply {
        Reply::Misuse => 0,
        _ => tests,
    }
}

/// Counts a turn that was made, and the call that it finished. Without memory for its line that call isn't counted,
/// and the turn is.
fn count(tally: &mut Tally, seat: u8, step: Step, tests: u32) -> Result<(), AllocError>
    requires seat { seat < 64 }
    requires over { slice_index tally.old.over seat ≤ 256 }
    requires turns { tally.old.turns + 1 < 2 ^ 32 }
    ensures ok { OnOk result (Counts tally.old.over tally.old.lines.items seat step tests tally.new.over tally.new.lines.items) }
    ensures turns { tally.new.turns ≡ tally.old.turns + 1 }
    ensures err { OnErr result (IsFinished step × (tally.new.over ≡ tally.old.over) × (tally.new.lines.items ≡ tally.old.lines.items)) }
{
    tally.turns += 1;
    if let Step::Finished(reply) = step {
        let call = tally.over[seat as usize];
        tally.lines.push(Line {
            thread: seat,
            call,
            reply,
            tests: tests_told(reply, tests),
        })?;
        tally.over[seat as usize] = call + 1;
    }
    Ok(())
}

impl<C: Seated<N>, const N: usize> World<C, N> {
    /// The first turn of a call of the seat: it begins, and makes a step.
    fn first_turn(&mut self, seat: u8, call: Call<C>) -> Result<Step, Fault>
        requires { CallInRange N call }
        ensures ok { IfOk result (λ step. TurnsWith (Some call) (whole_of C.means self.old) seat step (whole_of C.means self.new)) }
        ensures err { IfErr result (λ fault. (whole_of C.means self.new ≡ whole_of C.means self.old) × TurnFault (whole_of C.means self.old) seat fault) }
    {
        match self.begin(seat, call)? {
            Begun::Misuse => Ok(Step::Finished(Reply::Misuse)),
            Begun::Started => self.step(seat),
            Begun::Busy => self.step(seat),
        }
    }

    /// A turn of the seat, of whose calls so many are over: a step of the call that is in progress, or else the
    /// first turn of its next one.
    fn turn(&mut self, lists: &[Vec<Call<C>>], seat: u8, over: u16) -> Result<Step, Fault>
        requires lists { All (λ calls. ListFits N calls.items) lists.now }
        requires seat { seat < length self.old.seats }
        ensures ok { IfOk result (λ step. TurnsWith (slice_get (calls_of (lists_of lists.now) seat) over) (whole_of C.means self.old) seat step (whole_of C.means self.new)) }
        ensures err { IfErr result (λ fault. (whole_of C.means self.new ≡ whole_of C.means self.old) × TurnFault (whole_of C.means self.old) seat fault) }
    {
        if self.is_busy(seat) {
            return self.step(seat);
        }
        match next_call(lists, seat, over) {
            Some(call) => self.first_turn(seat, call),
            None => Ok(Step::Nothing),
        }
    }

    /// One turn of the seat, counted, and then told to the observer: its step, where the run goes on.
    ///
    /// Needs a tally that counts the calls of this world, and lists as [`World::run`]. Refuses what that refuses of a
    /// schedule's next item. World and tally are then as before, but in two cases of `OutOfMemory`. Where the line of
    /// the call that this turn finished finds no memory, the turn is made and counted, and the call is neither told
    /// nor counted. Where the observer refuses memory, turn and call are made and counted.
    pub fn counted_turn<O: Observer<World<C, N>, Call<C>>>(
        &mut self,
        lists: &[Vec<Call<C>>],
        tally: &mut Tally,
        seat: u8,
        limit: u32,
        observer: &mut O,
    ) -> Result<Step, Fault>
        requires lists { All (λ calls. ListFits N calls.items) lists.now }
        requires counted { IsCounted (whole_of C.means self.old) tally.old.over }
        requires turns { tally.old.turns ≤ limit }
        ensures ok { IfOk result (λ step. CountsTurn (lists_of lists.now) limit (so_far C.means self.old tally.old) tally.old.turns seat step (so_far C.means self.new tally.new) tally.new.turns) }
        ensures told { IfOk result (λ step. O.sees observer.old (seen (lists_of lists.now) tally.old.over tally.new.turns seat step self.old self.new) observer.new) }
        ensures err { IfErr result (λ fault. (whole : _) → Halts O.can_refuse (lists_of lists.now) limit (so_far C.means self.old tally.old) tally.old.turns (item_for seat whole ∷ []) (so_far C.means self.new tally.new) tally.new.turns fault) }
    {
        if seat as usize >= self.seats() {
            return Err(Fault::NoSuchSeat);
        }
        if tally.turns == limit {
            return Err(Fault::StepLimit);
        }
        let over = tally.over[seat as usize];
        let step = self.turn(lists, seat, over)?;
        count(tally, seat, step, self.tests(seat))?;
        observer.see(self, tally.turns, seat, next_call(lists, seat, over), step)?;
        Ok(step)
    }

    /// An item of a word of the schedule: a turn, and for a `whole` one further turns until its call returns or is idle.
    fn item<O: Observer<World<C, N>, Call<C>>>(
        &mut self,
        lists: &[Vec<Call<C>>],
        tally: &mut Tally,
        word: &Turn,
        limit: u32,
        observer: &mut O,
    ) -> Result<(), Fault>
        requires lists { All (λ calls. ListFits N calls.items) lists.now }
        requires counted { IsCounted (whole_of C.means self.old) tally.old.over }
        requires turns { tally.old.turns ≤ limit }
        ensures ok { OnOk result (AdvancesSeen C.means O.sees (lists_of lists.now) limit (watched self.old tally.old observer.old) (item_of word.now ∷ []) [] (watched self.new tally.new observer.new)) }
        ensures counted { OnOk result (IsCounted (whole_of C.means self.new) tally.new.over) }
        ensures err { IfErr result (λ fault. Halts O.can_refuse (lists_of lists.now) limit (so_far C.means self.old tally.old) tally.old.turns (item_of word.now ∷ []) (so_far C.means self.new tally.new) tally.new.turns fault) }
    {
        loop {
            let step = self.counted_turn(lists, tally, word.thread, limit, observer)?;
            if is_end(word.whole, step) {
                return Ok(());
            }
        }
    }

    /// The items of a word of the schedule.
    fn schedule_word<O: Observer<World<C, N>, Call<C>>>(
        &mut self,
        lists: &[Vec<Call<C>>],
        tally: &mut Tally,
        word: &Turn,
        limit: u32,
        observer: &mut O,
    ) -> Result<(), Fault>
        requires lists { All (λ calls. ListFits N calls.items) lists.now }
        requires counted { IsCounted (whole_of C.means self.old) tally.old.over }
        requires turns { tally.old.turns ≤ limit }
        ensures ok { OnOk result (AdvancesSeen C.means O.sees (lists_of lists.now) limit (watched self.old tally.old observer.old) (items_of (word.now ∷ [])) [] (watched self.new tally.new observer.new)) }
        ensures counted { OnOk result (IsCounted (whole_of C.means self.new) tally.new.over) }
        ensures err { IfErr result (λ fault. Halts O.can_refuse (lists_of lists.now) limit (so_far C.means self.old tally.old) tally.old.turns (items_of (word.now ∷ [])) (so_far C.means self.new tally.new) tally.new.turns fault) }
    {
        for _ in 0..word.times {
            self.item(lists, tally, word, limit, observer)?;
        }
        Ok(())
    }

    /// The items of the words of a schedule, in the world as it stands. The observer is told of each turn.
    ///
    /// Needs what [`World::counted_turn`] needs, and refuses what [`World::run`] refuses. World and tally are then as
    /// the last turn left them, but for a line without memory, as there.
    pub fn follow<O: Observer<World<C, N>, Call<C>>>(
        &mut self,
        lists: &[Vec<Call<C>>],
        tally: &mut Tally,
        schedule: &[Turn],
        limit: u32,
        observer: &mut O,
    ) -> Result<(), Fault>
        requires lists { All (λ calls. ListFits N calls.items) lists.now }
        requires counted { IsCounted (whole_of C.means self.old) tally.old.over }
        requires turns { tally.old.turns ≤ limit }
        ensures ok { OnOk result (Advances (lists_of lists.now) limit (so_far C.means self.old tally.old) tally.old.turns (items_of schedule.now) [] (so_far C.means self.new tally.new) tally.new.turns) }
        ensures told { OnOk result (AdvancesSeen C.means O.sees (lists_of lists.now) limit (watched self.old tally.old observer.old) (items_of schedule.now) [] (watched self.new tally.new observer.new)) }
        ensures counted { OnOk result (IsCounted (whole_of C.means self.new) tally.new.over) }
        ensures err { IfErr result (λ fault. Halts O.can_refuse (lists_of lists.now) limit (so_far C.means self.old tally.old) tally.old.turns (items_of schedule.now) (so_far C.means self.new tally.new) tally.new.turns fault) }
    {
        for word in schedule {
            self.schedule_word(lists, tally, word, limit, observer)?;
        }
        Ok(())
    }

    /// Runs the schedule, where thread `t` makes the calls of the list `t` from seat `t`, in
    /// order. Answers the calls that finished, in the order of finishing. A call may be left in
    /// progress.
    ///
    /// Needs a world with no call in progress, lists of at most 256 calls, and calls whose cells
    /// are below `N`, whose condition variables are below 4, whose notes are below 64, whose moments are
    /// below 2^54, and whose objects are at most 16. Refuses an item whose thread is no seat
    /// (`NoSuchSeat`), the turn after `limit` turns (`StepLimit`), and want of memory (`OutOfMemory`), for the
    /// event of the next turn or for the line of the call that the last turn finished; the world is then as
    /// the last turn left it.
    ///
    /// An item whose thread is no seat is refused before the limit is asked. A misused call counts one turn,
    /// and so does an item of a thread with no call left.
    pub fn run(
        &mut self,
        alloc: Global,
        lists: &[Vec<Call<C>>],
        schedule: &[Turn],
        limit: u32,
    ) -> Result<Vec<Line>, Fault>
        requires idle { AllIdle (whole_of C.means self.old) }
        requires lists { All (λ calls. ListFits N calls.items) lists.now }
        ensures { MatchResult result (λ lines. Runs (lists_of lists.now) schedule.now limit (whole_of C.means self.old) (whole_of C.means self.new) lines.items)
            (RunFault (lists_of lists.now) schedule.now limit (whole_of C.means self.old) (whole_of C.means self.new)) }
    {
        self.run_observed(alloc, lists, schedule, limit, &mut Nobody)
    }

    /// Runs the schedule as [`World::run`] does, and tells the observer of each turn.
    ///
    /// Needs what that needs. Refuses what that refuses, and want of memory (`OutOfMemory`) also for what the observer
    /// keeps of the last turn.
    pub fn run_observed<O: Observer<World<C, N>, Call<C>>>(
        &mut self,
        alloc: Global,
        lists: &[Vec<Call<C>>],
        schedule: &[Turn],
        limit: u32,
        observer: &mut O,
    ) -> Result<Vec<Line>, Fault>
        requires idle { AllIdle (whole_of C.means self.old) }
        requires lists { All (λ calls. ListFits N calls.items) lists.now }
        ensures ran { MatchResult result (λ lines. Runs (lists_of lists.now) schedule.now limit (whole_of C.means self.old) (whole_of C.means self.new) lines.items)
            (RunHalts O.can_refuse (lists_of lists.now) schedule.now limit (whole_of C.means self.old) (whole_of C.means self.new)) }
        ensures told { OnOk result (RunsSeen C.means O.sees (lists_of lists.now) schedule.now limit self.old observer.old self.new observer.new) }
    {
        let mut tally = Tally::new(alloc);
        self.follow(lists, &mut tally, schedule, limit, observer)?;
        Ok(tally.lines)
    }
}
