//! Where callers sleep, and who wakes them.
//!
//! A wait for a counter sleeps at that counter's word while the value is the one just seen, and the
//! add that gives 0 wakes all who sleep there. With a deadline it sleeps for some milliseconds at a time,
//! and only once it has turned for a while: the clock moves without waking anybody at a counter. A call that
//! waits for another's function sleeps at the word of that once cell while the function runs, and who
//! ran it wakes all who sleep there. A wait for any of several sleeps for some milliseconds at a time,
//! once it has turned for a while: at the word of the first counter among its items, or at the caller's
//! bell in the environment where it has no counter.
//!
//! Sleeping is no step, and may end for no reason: who has slept looks again. Who sleeps without an end
//! names the number just seen, and the sleep itself compares the word with that. So a change between
//! the look and the sleep isn't slept through, and the wake comes behind the change. Nothing is claimed
//! of progress: no clause says that a sleep ends.

ghost use Rattle.std.specs.Prelude.{◌≡◌, ◌<◌};
ghost use Rattle.ns_objects.specs.Prelude.{Every, IsNamed};

use crate::any::{AnyItem, Looked};
use crate::objects::Objects;
use crate::seat::ObjSeat;
use ns_counters::made::MOST;
use ns_counters::word::{Stage, decode_counter, encode_once};
use ns_note::env::Env;
use ns_note::pause::Pause;
use ns_note::seat::EnvSeat;
use std::sync::Wait;
use std::time::Duration;

impl Objects {
    /// Sleeps between two looks of a wait for a counter, of which this value was just seen. With a
    /// deadline it turns for a while first, and then sleeps for some milliseconds.
    ///
    /// Needs the number of a counter, below 16.
    pub(crate) fn rest_at_counter<R: Wait>(
        &self,
        rt: &R,
        counter: u8,
        value: u32,
        deadline: Option<u64>,
        pause: &mut Pause,
    )
        requires { counter < 16 }
    {
        let word = usize::from(counter);
        let shared = &self.table.shared;
        if deadline.is_none() {
            shared.park(rt, word, value);
        } else if let Some(longest) = pause.next() {
            shared.park_timeout(rt, word, value, longest);
        }
    }

    /// Wakes all who sleep at the word of a counter, where the value that it has just been given is 0.
    ///
    /// Needs the number of a counter, below 16.
    pub(crate) fn wake_at_zero(&self, counter: u8, value: u32)
        requires { counter < 16 }
    {
        if value == 0 {
            self.table.shared.wake_all(usize::from(counter));
        }
    }

    /// Sleeps while the function of a once cell runs, or for less.
    ///
    /// Needs the number of a once cell, below 16.
    pub(crate) fn rest_while_running<R: Wait>(&self, rt: &R, once: u8)
        requires { once < 16 }
    {
        let running = encode_once(Stage::Running) as u32;
        self.table
            .shared
            .park(rt, MOST + usize::from(once), running);
    }

    /// Wakes all who sleep while the function of a once cell runs, which has now run.
    ///
    /// Needs the number of a once cell, below 16.
    pub(crate) fn wake_at_done(&self, once: u8)
        requires { once < 16 }
    {
        self.table.shared.wake_all(MOST + usize::from(once));
    }

    /// Sleeps for a while at the word of a counter, unless it is 0. The word is looked at without a seat,
    /// which tells nothing: what that look misses is seen after the sleep.
    fn rest_while_above_zero<R: Wait>(&self, rt: &R, counter: u8, longest: Duration)
        requires { counter < 16 }
    {
        let word = usize::from(counter);
        let shared = &self.table.shared;
        let value = decode_counter(shared.peek(word)).value;
        if value != 0 {
            shared.park_timeout(rt, word, value, longest);
        }
    }

    /// Passes a round of a wait for any that has shown nothing: turns for a while at first, and then sleeps
    /// for some milliseconds.
    ///
    /// Needs what the wait needs of its items.
    pub(crate) fn rest_for_any<T: Looked, R: Wait>(
        &self,
        rt: &R,
        seat: &ObjSeat,
        items: &[T],
        env: &Env,
        watch: &mut EnvSeat,
        pause: &mut Pause,
    )
        requires env { watch.old.env ≡ env.now }
        requires known { Every (λ item. IsNamed seat.now watch.old (T.any item)) items.now }
        ensures watch { watch.new ≡ watch.old }
    {
        let Some(longest) = pause.next() else {
            return;
        };
        seat.attest();
        for item in items {
            if let AnyItem::Counter(counter) = item.any() {
                self.rest_while_above_zero(rt, counter, longest);
                return;
            }
        }
        env.rest(rt, watch, longest);
    }
}
