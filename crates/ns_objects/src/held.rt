//! Waits for condition variables of a monitor among notes and counters, from a section.

ghost use Rattle.std.specs.Prelude.{◌≡◌, ◌≤◌, ◌<◌, ℕ, [], length, map, true};
ghost use Rattle.ns_objects.specs.Prelude.{AreAmong, EnvGrows, EnvTrue, Every, Grows, HeldAnswers, IsNamed, IsTrueToHistory, KnowsTruly, WaitAnswers, is_among, item_of};

use crate::any::AnyItem;
use crate::objects::Objects;
use crate::seat::ObjSeat;
use ns_counters::items::{place_of, variables_in};
use ns_model::condition::Condition;
use ns_monitor::caller::{Caller, Compact, Renewed};
use ns_monitor::monitor::Monitor;
use ns_monitor::several::{AnyPoll, AnyWaiting};
use ns_note::env::Env;
use ns_note::pause::Pause;
use ns_note::seat::EnvSeat;
use std::sync::Wait;

impl Objects {
    /// Goes round between a wait for variables that was begun and the notes and counters among the items,
    /// until a signal or a broadcast has woken it, or something else is ready, or the deadline has come.
    ///
    /// What a signal tells is loaded anew before the wait is left, so no wake is lost between the look and
    /// that. Between looks it sleeps as [`Objects::wait_any`] does, and not at its flag: one thread can't
    /// sleep at two words.
    fn await_any<H: Renewed<C, N>, C: Condition<N>, const N: usize, R: Wait>(
        &self,
        rt: &R,
        seat: &mut ObjSeat,
        monitor: &Monitor<C, N>,
        waiting: AnyWaiting<H, C, N>,
        items: &[AnyItem],
        deadline: Option<u64>,
        env: &Env,
        watch: &mut EnvSeat,
    ) -> (Caller<H, C, N>, usize)
        requires objects { seat.old.objects ≡ self.now }
        requires monitor { waiting.known.monitor ≡ monitor.now }
        requires idle { (waiting.known.owed ≡ []) × (waiting.known.carries ≡ []) }
        requires seen { KnowsTruly C.means waiting.known }
        requires variables { AreAmong waiting.cvs (map item_of items.now) }
        requires env { watch.old.env ≡ env.now }
        requires named { Every (IsNamed seat.old watch.old) items.now }
        requires true_to { IsTrueToHistory seat.old }
        requires env_true_to { EnvTrue watch.old }
        ensures grows { Grows seat.old seat.new }
        ensures mine { seat.new.mine ≡ seat.old.mine }
        ensures watch { EnvGrows watch.old watch.new }
        ensures watched { watch.new.mine ≡ watch.old.mine }
        ensures answers { WaitAnswers C.means H.mode items.now deadline (waiting, (seat.old, watch.old)) (result.0, (seat.new, watch.new)) result.1 }
    {
        let mut pause = Pause::new();
        let mut waiting = waiting;
        for _ in rt.forever() {
            waiting = match monitor.any_poll(rt, waiting) {
                AnyPoll::Woken(held, k) => return (held, place_of(items, k as u64)),
                AnyPoll::Still(waiting) => waiting,
            };
            if let Some(place) = self.look_at_any(seat, items, deadline, env, watch) {
                let (held, by) = monitor.any_leave(rt, waiting);
                return match by {
                    Some(k) => (held, place_of(items, k as u64)),
                    None => (held, place),
                };
            }
            self.rest_for_any(rt, seat, items, env, watch, &mut pause);
        }
        unreachable!()
    }

    /// Waits, with a section of a monitor in hand, until a signal or a broadcast of one of its condition
    /// variables among the items, or until one of the notes and counters among them is ready, or until the
    /// clock of the environment has reached the deadline, in ticks. Answers the place of the first item that
    /// is the variable which has woken it, of the first other item that is ready, or the number of items
    /// where the deadline came first. nsync's `nsync_wait_n` with a mutex.
    ///
    /// Where another item is ready as the call begins, or the deadline has come, nothing is released: that it
    /// looks before it leaves the section, and not behind that, is how it is written, and no clause. Else the
    /// section is left for all the variables at once, and it comes back with another one in the same mode.
    /// A wake is never lost: where one has come before the wait is left, its place is the answer. The call
    /// turns for a while, and then sleeps for at most 64 milliseconds at a time, while which a release may
    /// have woken it to acquire the lock next: others who wait for the lock then wait so long, too.
    ///
    /// Needs a section of that monitor; at most 16 items, at least one of them a variable, and variables
    /// below 4; and what [`Objects::wait_any`] needs.
    pub fn wait_any_held<H: Renewed<C, N> + Compact<N>, C: Condition<N>, const N: usize, R: Wait>(
        &self,
        rt: &R,
        seat: &mut ObjSeat,
        monitor: &Monitor<C, N>,
        held: Caller<H, C, N>,
        items: &[AnyItem],
        deadline: Option<u64>,
        env: &Env,
        watch: &mut EnvSeat,
    ) -> (Caller<H, C, N>, usize)
        requires objects { seat.old.objects ≡ self.now }
        requires monitor { held.monitor ≡ monitor.now }
        requires env { watch.old.env ≡ env.now }
        requires few { length items.now ≤ 16 }
        requires named { Every (IsNamed seat.old watch.old) items.now }
        requires variable { (k : ℕ) × (is_among k (map item_of items.now) ≡ true) }
        ensures grows { Grows seat.old seat.new }
        ensures mine { seat.new.mine ≡ seat.old.mine }
        ensures watch { EnvGrows watch.old watch.new }
        ensures watched { watch.new.mine ≡ watch.old.mine }
        ensures answers { HeldAnswers C.means H.mode items.now deadline (held, (seat.old, watch.old)) (result.0, (seat.new, watch.new)) result.1 }
    {
        seat.attest();
        watch.attest();
        if let Some(place) = self.look_at_any(seat, items, deadline, env, watch) {
            return (held, place);
        }
        let waiting = monitor.any_begin(rt, held, variables_in(items));
        self.await_any(rt, seat, monitor, waiting, items, deadline, env, watch)
    }
}
