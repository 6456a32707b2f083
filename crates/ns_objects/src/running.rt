//! Functions that run once.

ghost use Rattle.std.specs.Prelude.{◌≡◌, ◌≢◌, ◌<◌, [], ◌∷◌, true, false};
ghost use Rattle.ns_objects.specs.Prelude.{Grows, HasWords, IsOne, MayRunOnceBegun, OnceAnswers, OneComes, is_done, stage, standing_in, the};

use crate::objects::Objects;
use crate::plays::{Begin, End, LoadOnce};
use crate::seat::{ObjSeat, TableSeat};
use ns_counters::made::MOST;
use ns_counters::object::{ObjectEvent, Place};
use ns_counters::word::{Stage, decode_once, encode_once};
use ns_model::once::OnceEvent;
use std::sync::Wait;

/// What came of a call that would have a function run once.
#[derive(Clone, Copy, Debug, PartialEq, Eq)]
pub enum Once<T> {
    /// The function ran in this call, and gave this.
    Ran(T),
    /// Another call on the cell has run a function. (That it has run to its end is how that call is written,
    /// and tested: the clause is that it has said so.)
    Already,
}

impl Objects {
    /// How far a once cell has come.
    #[inline(always)]
    fn look_once(&self, seat: &mut TableSeat, once: u8) -> Stage
        requires objects { seat.old.table_id ≡ self.now }
        requires one { IsOne seat.old.me.0 }
        requires free { (the seat.old.me.0).place ≡ Place.Free }
        requires room { HasWords (the seat.old.me.0).setup }
        requires once { once < (the seat.old.me.0).setup.cells }
        ensures seat { seat.new.table_id ≡ seat.old.table_id }
        ensures came { OneComes [] Place.Free seat.old.me seat.new.me }
        ensures stage { result ≡ stage ((standing_in (the seat.new.me.0)).onces once) }
    {
        let word = MOST + usize::from(once);
        decode_once(self.table.shared.load::<LoadOnce>(seat, word))
    }

    /// Begins to run the function of a once cell, if nobody has begun. Answers how far the cell had
    /// come: where it was unused, this caller begins.
    fn begin_once(&self, seat: &mut TableSeat, once: u8) -> Stage
        requires objects { seat.old.table_id ≡ self.now }
        requires one { IsOne seat.old.me.0 }
        requires free { (the seat.old.me.0).place ≡ Place.Free }
        requires room { HasWords (the seat.old.me.0).setup }
        requires once { once < (the seat.old.me.0).setup.cells }
        ensures seat { seat.new.table_id ≡ seat.old.table_id }
        ensures begins { result ≡ Stage.Unused → OneComes (ObjectEvent.OnOnce once (OnceEvent.Began (the seat.old.me.0).seat) ∷ []) (Place.Running once) seat.old.me seat.new.me }
        ensures no { result ≢ Stage.Unused → OneComes [] Place.Free seat.old.me seat.new.me × (result ≡ stage ((standing_in (the seat.new.me.0)).onces once)) }
    {
        let (unused, running) = (encode_once(Stage::Unused), encode_once(Stage::Running));
        let word = MOST + usize::from(once);
        let shared = &self.table.shared;
        decode_once(shared.compare_exchange::<Begin>(seat, word, unused, running))
    }

    /// Says that the function of a once cell has run, which this caller has begun to run, and wakes who
    /// sleeps until it has.
    fn end_once(&self, seat: &mut TableSeat, once: u8)
        requires objects { seat.old.table_id ≡ self.now }
        requires one { IsOne seat.old.me.0 }
        requires room { HasWords (the seat.old.me.0).setup }
        requires once { once < (the seat.old.me.0).setup.cells }
        requires runs { (the seat.old.me.0).place ≡ Place.Running once }
        ensures seat { seat.new.table_id ≡ seat.old.table_id }
        ensures ends { OneComes (ObjectEvent.OnOnce once (OnceEvent.Ran (the seat.old.me.0).seat) ∷ []) Place.Free seat.old.me seat.new.me }
    {
        let word = MOST + usize::from(once);
        self.table
            .shared
            .store::<End>(seat, word, encode_once(Stage::Done));
        self.wake_at_done(once);
    }

    /// Begins to run the function of a once cell, or waits until it has run. Answers whether it begins.
    fn begin_or_wait<R: Wait>(&self, rt: &R, seat: &mut TableSeat, once: u8) -> bool
        requires objects { seat.old.table_id ≡ self.now }
        requires one { IsOne seat.old.me.0 }
        requires free { (the seat.old.me.0).place ≡ Place.Free }
        requires room { HasWords (the seat.old.me.0).setup }
        requires once { once < (the seat.old.me.0).setup.cells }
        ensures seat { seat.new.table_id ≡ seat.old.table_id }
        ensures begins { result ≡ true → OneComes (ObjectEvent.OnOnce once (OnceEvent.Began (the seat.old.me.0).seat) ∷ []) (Place.Running once) seat.old.me seat.new.me }
        ensures over { result ≡ false → OneComes [] Place.Free seat.old.me seat.new.me × (is_done ((standing_in (the seat.new.me.0)).onces once) ≡ true) }
    {
        let mut found = self.look_once(seat, once);
        for _ in rt.forever() {
            match found {
                Stage::Done => return false,
                Stage::Running => {
                    // whatever ended the sleep, the cell is looked at again
                    self.rest_while_running(rt, once);
                    found = self.look_once(seat, once);
                }
                Stage::Unused => {
                    found = self.begin_once(seat, once);
                    if found == Stage::Unused {
                        return true;
                    }
                }
            }
        }
        unreachable!()
    }

    /// Goes on with a call that has found its cell not done: runs the function, or waits until another's has run.
    ///
    /// It looks anew, so a first call loads twice: to be told what the first look saw, it would need a clause that
    /// this is true to a history.
    #[cold]
    pub(crate) fn run_or_wait<R: Wait, T, F: FnOnce() -> T>(
        &self,
        rt: &R,
        seat: &mut ObjSeat,
        once: u8,
        function: F,
    ) -> Once<T>
        requires objects { seat.old.objects ≡ self.now }
        requires once { once < seat.old.setup.cells }
        requires function { MayRunOnceBegun (F.pre function) once seat.old }
        ensures grows { Grows seat.old seat.new }
        ensures answers { OnceAnswers (F.post function) once seat.old seat.new result }
    {
        if self.begin_or_wait(rt, &mut seat.seat, once) {
            let given = function();
            self.end_once(&mut seat.seat, once);
            Once::Ran(given)
        } else {
            Once::Already
        }
    }

    /// Runs the function, if no call on this once cell has begun to run one; else waits until that one
    /// has ended, and sleeps meanwhile. nsync's `nsync_run_once`.
    ///
    /// Of all calls on one cell at most one begins its function. Any other answers `Already`, once that one has said
    /// that the function has run, which is written behind its end. A function that doesn't return leaves
    /// all others waiting. Needs the number of a once cell of these objects, and a function that may be
    /// called.
    ///
    /// The function may be called only where this caller has begun by its own event, of which a legal history
    /// has one (`MayRunOnceBegun`). So a body that calls it and answers `Already` isn't proved. A function's
    /// call is no event of the table, so no clause says that the cell is said done only behind its end; the
    /// test `done_behind_the_function` of ns_thread_tests does.
    #[inline(always)]
    pub fn run_once<R: Wait, T, F: FnOnce() -> T>(
        &self,
        rt: &R,
        seat: &mut ObjSeat,
        once: u8,
        function: F,
    ) -> Once<T>
        requires objects { seat.old.objects ≡ self.now }
        requires once { once < seat.old.setup.cells }
        requires function { MayRunOnceBegun (F.pre function) once seat.old }
        ensures grows { Grows seat.old seat.new }
        ensures answers { OnceAnswers (F.post function) once seat.old seat.new result }
    {
        // A cell that is done takes this look, and no call of a function that may wait.
        if self.once_done(seat, once) {
            return Once::Already;
        }
        self.run_or_wait(rt, seat, once, function)
    }
}
