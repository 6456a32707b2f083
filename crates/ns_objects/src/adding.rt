//! Changes of a counter.

ghost use Rattle.std.specs.Prelude.{◌≡◌, ◌<◌, ◌≤◌, ◌++◌, [], ◌∷◌, Ok};
ghost use Rattle.ns_objects.specs.Prelude.{Grows, HasJudged, HasWords, IsCounterWord, IsOne, OneActs, OneComes, change_in_hand, judged, the, word_seen};

use crate::objects::Objects;
use crate::plays::{Change, Law, LoadToChange};
use crate::seat::{ObjSeat, TableSeat};
use crate::view::View;
use ns_counters::act::ObjectAct;
use ns_counters::object::{ObjectEvent, Place, Setup};
use ns_counters::word::{decode_counter, encode_counter};
use ns_model::counter::{CounterEvent, CounterFault, CounterState};
use ns_seats::saying::load_saying;
use std::sync::Wait;

impl Objects {
    /// Loads a counter that is to be changed. Where the change is refused, the refusal has then happened.
    ///
    /// A refused change changes no word. So this load is told the change for the proof alone (`load_saying`),
    /// and the seat's place remembers it until the exchange.
    #[inline(always)]
    fn load_to_change(&self, seat: &mut TableSeat, counter: u8, delta: i64) -> u64
        requires objects { seat.old.table_id ≡ self.now }
        requires one { IsOne seat.old.me.0 }
        requires free { (the seat.old.me.0).place ≡ Place.Free }
        requires room { HasWords (the seat.old.me.0).setup }
        requires counter { counter < (the seat.old.me.0).setup.counters }
        ensures seat { seat.new.table_id ≡ seat.old.table_id }
        ensures word { IsCounterWord result }
        ensures judged { HasJudged counter delta result seat.old.me seat.new.me }
    {
        let shared = &self.table.shared;
        let word = usize::from(counter);
        load_saying::<(), View, Setup, Law, i64, LoadToChange>(shared, seat, word, &delta)
    }

    /// Changes a counter to a value, if its word is still the one seen; answers the word found.
    #[inline(always)]
    fn change(&self, seat: &mut TableSeat, counter: u8, word: u64, value: u32) -> u64
        requires objects { seat.old.table_id ≡ self.now }
        requires one { IsOne seat.old.me.0 }
        requires room { HasWords (the seat.old.me.0).setup }
        requires counter { counter < (the seat.old.me.0).setup.counters }
        requires place { (the seat.old.me.0).place ≡ Place.Adding counter (change_in_hand (the seat.old.me.0).place) }
        requires word { IsCounterWord word }
        requires fits { judged (word_seen word) (change_in_hand (the seat.old.me.0).place) ≡ Ok value }
        ensures seat { seat.new.table_id ≡ seat.old.table_id }
        ensures acted { OneActs (ObjectAct.ExchangeToAdd counter (change_in_hand (the seat.old.me.0).place) (word_seen word) value) result seat.old.me seat.new.me }
    {
        let shared = &self.table.shared;
        let seen = decode_counter(word);
        let new = encode_counter(CounterState { value, ..seen });
        shared.compare_exchange::<Change>(seat, usize::from(counter), word, new)
    }

    /// Changes a counter, through a seat that is bound to no step.
    #[inline(always)]
    pub(crate) fn add_at<R: Wait>(
        &self,
        rt: &R,
        seat: &mut TableSeat,
        counter: u8,
        delta: i64,
    ) -> Result<u32, CounterFault>
        requires objects { seat.old.table_id ≡ self.now }
        requires one { IsOne seat.old.me.0 }
        requires free { (the seat.old.me.0).place ≡ Place.Free }
        requires room { HasWords (the seat.old.me.0).setup }
        requires counter { counter < (the seat.old.me.0).setup.counters }
        ensures seat { seat.new.table_id ≡ seat.old.table_id }
        ensures added { OneComes (ObjectEvent.OnCounter counter (CounterEvent.Add (the seat.old.me.0).seat delta result) ∷ []) Place.Free seat.old.me seat.new.me }
    {
        let mut word = self.load_to_change(seat, counter, delta);
        for _ in rt.forever() {
            let value = decode_counter(word).judge(delta)?;
            let found = self.change(seat, counter, word, value);
            if found == word {
                self.wake_at_zero(counter, value);
                return Ok(value);
            }
            word = found;
        }
        unreachable!()
    }

    /// Changes the value of a counter by a number, which may be below 0, and answers the new value.
    /// nsync's `nsync_counter_add`, by changes of 64 bits.
    ///
    /// Refuses what would end below 0 (`Under`), else what would end above 4,294,967,295 (`Over`),
    /// else a rise from 0 where a wait for 0 has begun (`AfterWait`); a refused change leaves the counter
    /// as it was. A change that gives 0 wakes all who sleep in a wait for it. Goes round only where another
    /// caller has changed or marked the counter in between. Needs the number of a counter of these objects.
    #[inline(always)]
    pub fn counter_add<R: Wait>(
        &self,
        rt: &R,
        seat: &mut ObjSeat,
        counter: u8,
        delta: i64,
    ) -> Result<u32, CounterFault>
        requires objects { seat.old.objects ≡ self.now }
        requires counter { counter < seat.old.setup.counters }
        ensures grows { Grows seat.old seat.new }
        ensures added { seat.new.mine ≡ seat.old.mine ++ ObjectEvent.OnCounter counter (CounterEvent.Add seat.old.seat delta result) ∷ [] }
    {
        self.add_at(rt, &mut seat.seat, counter, delta)
    }
}
