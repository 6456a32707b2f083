//! Waits for a counter.

ghost use Rattle.std.specs.Prelude.{◌≡◌, ◌≢◌, ◌<◌, ◌≤◌, ◌++◌, [], ◌∷◌, true, false, IfSome, IsSomeAnd};
ghost use Rattle.ns_objects.specs.Prelude.{EnvGrows, EnvTrue as IsTrueToHistory, Grows, clock_of, standing_of};

use crate::objects::Objects;
use crate::plays::Mark;
use crate::seat::ObjSeat;
use ns_counters::object::ObjectEvent;
use ns_counters::word::{WAITED, decode_counter};
use ns_model::counter::CounterEvent;
use ns_note::env::Env;
use ns_note::pause::Pause;
use ns_note::seat::EnvSeat;
use std::sync::Wait;

/// Whether the clock has reached the deadline, both in ticks. Where there is none, it never has, and
/// isn't looked at.
fn is_past(env: &Env, watch: &mut EnvSeat, deadline: Option<u64>) -> bool
    requires env { watch.old.env ≡ env.now }
    requires true_to { IsTrueToHistory watch.old }
    ensures grows { EnvGrows watch.old watch.new }
    ensures mine { watch.new.mine ≡ watch.old.mine }
    ensures past { result ≡ true → IsSomeAnd deadline (λ d. d ≤ clock_of watch.new.seen) }
    ensures before { result ≡ false → IfSome deadline (λ d. clock_of watch.new.seen < d) }
{
    match deadline {
        None => false,
        Some(moment) => moment <= env.now(watch),
    }
}

impl Objects {
    /// Marks a counter: a wait for 0 begins. Answers the value.
    fn mark_wait(&self, seat: &mut ObjSeat, counter: u8) -> u32
        requires objects { seat.old.objects ≡ self.now }
        requires counter { counter < seat.old.setup.counters }
        ensures grows { Grows seat.old seat.new }
        ensures begun { seat.new.mine ≡ seat.old.mine ++ ObjectEvent.OnCounter counter (CounterEvent.Begun seat.old.seat) ∷ [] }
        ensures value { result ≡ ((standing_of seat.new).counters counter).value }
    {
        let shared = &self.table.shared;
        let word = shared.fetch_or::<Mark>(&mut seat.seat, usize::from(counter), WAITED);
        decode_counter(word).value
    }

    /// Waits until a counter is 0, or until the clock of the environment has reached the deadline, in
    /// ticks, and answers the value. With no deadline it waits for 0 alone. nsync's
    /// `nsync_counter_wait`.
    ///
    /// The value is what its last look showed. The mark with which the wait begins is a look, too, since an
    /// operation on a word answers what was there.
    ///
    /// From when the wait begins, the counter refuses to rise from 0, for good. A value that isn't 0 is
    /// answered only where the deadline has come. The call sleeps meanwhile, and the change that gives 0
    /// wakes it; with a deadline it turns for a while, and then sleeps for at most 64 milliseconds at a time.
    /// Needs the number of a counter of these objects, and the seat of a caller of the environment.
    pub fn counter_wait<R: Wait>(
        &self,
        rt: &R,
        seat: &mut ObjSeat,
        counter: u8,
        deadline: Option<u64>,
        env: &Env,
        watch: &mut EnvSeat,
    ) -> u32
        requires objects { seat.old.objects ≡ self.now }
        requires counter { counter < seat.old.setup.counters }
        requires env { watch.old.env ≡ env.now }
        ensures grows { Grows seat.old seat.new }
        ensures begun { seat.new.mine ≡ seat.old.mine ++ ObjectEvent.OnCounter counter (CounterEvent.Begun seat.old.seat) ∷ [] }
        ensures value { result ≡ ((standing_of seat.new).counters counter).value }
        ensures watch { EnvGrows watch.old watch.new }
        ensures watched { watch.new.mine ≡ watch.old.mine }
        ensures past { result ≢ 0 → IsSomeAnd deadline (λ d. d ≤ clock_of watch.new.seen) }
    {
        watch.attest();
        seat.attest();
        let mut value = self.mark_wait(seat, counter);
        let mut pause = Pause::new();
        for _ in rt.forever() {
            if value == 0 {
                return 0;
            }
            if is_past(env, watch, deadline) {
                return value;
            }
            // whatever ended the sleep, the counter is looked at again
            self.rest_at_counter(rt, counter, value, deadline, &mut pause);
            value = self.counter_value(seat, counter);
        }
        unreachable!()
    }
}
