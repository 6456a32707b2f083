//! A seat of some objects together with the objects that it is of, so that a call needs no word on which
//! objects these are.

ghost use Rattle.std.specs.Prelude.{◌≡◌, ◌≢◌, ◌<◌, ◌≤◌, ◌++◌, ◌↔◌, ℕ, [], ◌∷◌, true, All, IfSome, IsSome, IsSomeAnd, None, length, map, option_to_list};
ghost use Rattle.ns_objects.specs.Prelude.{AnyAnswers, AreOfOneHistory, EnvGrows, Every, Grows, HeldAnswers, IsKnown, IsNamed, MayRunOnceBegun, OnceAnswers, clock_of, is_among, is_done, item_of, standing_of};

use crate::any::{AnyItem, Item};
use crate::objects::Objects;
use crate::running::Once;
use crate::seat::ObjSeat;
use ns_counters::object::ObjectEvent;
use ns_model::condition::Condition;
use ns_model::counter::{CounterEvent, CounterFault};
use ns_monitor::caller::{Compact, Renewed};
use ns_monitor::handle::Acting;
use ns_note::watcher::Watcher;
use std::marker::Model;
use std::sync::Wait;

/// A caller of some objects: its seat, and the objects that it is of, which it borrows.
///
/// For contracts it is what its seat is. That the seat is of the objects is so of each `Sharer`, so no clause
/// and no loop says it.
#[derive(Drop)]
pub struct Sharer<'o> {
    /// The objects.
    pub objects: &'o Objects,
    /// A seat of them.
    pub seat: ObjSeat,
}

impl<'o> Model for Sharer<'o> {
    ghost use Rattle.std.specs.Prelude.{◌≡◌};
    ghost use Rattle.ns_objects.specs.Known.{ObjectsKnown};

    ghost Value = { ObjectsKnown };

    ghost view = { λ s. s.seat };

    ghost invariant = { λ s. s.seat.objects ≡ s.objects.now };
}

impl<'o> Sharer<'o> {
    /// A seat together with its objects.
    ///
    /// Needs a seat of those objects.
    #[inline(always)]
    pub fn new(objects: &'o Objects, seat: ObjSeat) -> Self
        requires { seat.objects ≡ objects.now }
        ensures { result ≡ seat }
    {
        Sharer { objects, seat }
    }

    /// The seat alone.
    #[inline(always)]
    pub fn into_seat(self) -> ObjSeat
        ensures { result ≡ self.entry }
    {
        let Sharer { objects: _, seat } = self;
        seat
    }

    /// Two callers compare what they have seen, as by [`Objects::meet`].
    ///
    /// Needs two of the same objects.
    #[inline(always)]
    pub fn meet(self, other: Self) -> (Self, Self)
        requires { self.objects ≡ other.objects }
        ensures grows { Grows self.entry result.0 × Grows other.entry result.1 }
        ensures mine { (result.0.mine ≡ self.entry.mine) × (result.1.mine ≡ other.entry.mine) }
        ensures before { AreOfOneHistory self.entry other.entry }
        ensures after { result.1.seen ≡ result.0.seen }
    {
        let Sharer {
            objects,
            seat: first,
        } = self;
        let Sharer {
            objects: _,
            seat: second,
        } = other;
        let (first, second) = objects.meet(first, second);
        let first = Sharer {
            objects,
            seat: first,
        };
        let second = Sharer {
            objects,
            seat: second,
        };
        (first, second)
    }

    /// Changes the value of a counter by a number, which may be below 0, and answers the new value, as
    /// [`Objects::counter_add`].
    ///
    /// Needs the number of a counter of these objects.
    #[inline(always)]
    pub fn counter_add<R: Wait>(
        &mut self,
        rt: &R,
        counter: u8,
        delta: i64,
    ) -> Result<u32, CounterFault>
        requires { counter < self.old.setup.counters }
        ensures grows { Grows self.old self.new }
        ensures added { self.new.mine ≡ self.old.mine ++ ObjectEvent.OnCounter counter (CounterEvent.Add self.old.seat delta result) ∷ [] }
    {
        self.objects.add_at(rt, &mut self.seat.seat, counter, delta)
    }

    /// The value of a counter, as [`Objects::counter_value`].
    ///
    /// Needs the number of a counter of these objects.
    #[inline(always)]
    pub fn counter_value(&mut self, counter: u8) -> u32
        requires { counter < self.old.setup.counters }
        ensures grows { Grows self.old self.new }
        ensures mine { self.new.mine ≡ self.old.mine }
        ensures value { result ≡ ((standing_of self.new).counters counter).value }
    {
        self.objects.counter_value(&mut self.seat, counter)
    }

    /// Waits until a counter is 0, or until the clock has reached the deadline, in ticks, and answers the
    /// value, as [`Objects::counter_wait`].
    ///
    /// Needs the number of a counter of these objects.
    #[inline(always)]
    pub fn counter_wait<R: Wait>(
        &mut self,
        rt: &R,
        counter: u8,
        deadline: Option<u64>,
        watch: &mut Watcher<'_>,
    ) -> u32
        requires { counter < self.old.setup.counters }
        ensures grows { Grows self.old self.new }
        ensures begun { self.new.mine ≡ self.old.mine ++ ObjectEvent.OnCounter counter (CounterEvent.Begun self.old.seat) ∷ [] }
        ensures value { result ≡ ((standing_of self.new).counters counter).value }
        ensures watch { EnvGrows watch.old watch.new }
        ensures watched { watch.new.mine ≡ watch.old.mine }
        ensures past { result ≢ 0 → IsSomeAnd deadline (λ d. d ≤ clock_of watch.new.seen) }
    {
        let Watcher { env, seat } = watch;
        self.objects
            .counter_wait(rt, &mut self.seat, counter, deadline, env, seat)
    }

    /// Whether the function of a once cell has run, as [`Objects::once_done`].
    ///
    /// Needs the number of a once cell of these objects.
    #[inline(always)]
    pub fn once_done(&mut self, once: u8) -> bool
        requires { once < self.old.setup.cells }
        ensures grows { Grows self.old self.new }
        ensures mine { self.new.mine ≡ self.old.mine }
        ensures done { result ≡ is_done ((standing_of self.new).onces once) }
    {
        self.objects.once_done(&mut self.seat, once)
    }

    /// Runs the function, if no call on this once cell has begun to run one; else waits until that one has
    /// ended, as [`Objects::run_once`].
    ///
    /// Needs the number of a once cell of these objects, and a function that may be called.
    #[inline(always)]
    pub fn run_once<R: Wait, T, F: FnOnce() -> T>(
        &mut self,
        rt: &R,
        once: u8,
        function: F,
    ) -> Once<T>
        requires once { once < self.old.setup.cells }
        requires function { MayRunOnceBegun (F.pre function) once self.old }
        ensures grows { Grows self.old self.new }
        ensures answers { OnceAnswers (F.post function) once self.old self.new result }
    {
        if self.objects.once_done(&mut self.seat, once) {
            return Once::Already;
        }
        self.objects.run_or_wait(rt, &mut self.seat, once, function)
    }

    /// Waits until one of the items is ready, or until the clock has reached the deadline, in ticks, and
    /// answers which, as [`Objects::wait_any`].
    ///
    /// Needs at most 16 items, counters of these objects, and notes that the watcher has seen made.
    #[inline(always)]
    pub fn wait_any<R: Wait>(
        &mut self,
        rt: &R,
        items: &[Item],
        deadline: Option<u64>,
        watch: &mut Watcher<'_>,
    ) -> usize
        requires few { length items.now ≤ 16 }
        requires known { Every (IsKnown self.old watch.old) items.now }
        ensures grows { Grows self.old self.new }
        ensures mine { self.new.mine ≡ self.old.mine }
        ensures watch { EnvGrows watch.old watch.new }
        ensures watched { watch.new.mine ≡ watch.old.mine }
        ensures answers { AnyAnswers items.now deadline (self.old, watch.old) (self.new, watch.new) result }
    {
        let Watcher { env, seat } = watch;
        self.objects
            .wait_any(rt, &mut self.seat, items, deadline, env, seat)
    }

    /// Waits, with a section of a monitor in hand, for condition variables of that monitor among the items, for
    /// the notes and counters among them, and for the deadline, in ticks, and answers which ended it, as
    /// [`Objects::wait_any_held`].
    ///
    /// Needs at most 16 items, at least one of them a variable, and variables below 4; and what
    /// [`Sharer::wait_any`] needs.
    pub fn wait_any_held<
        'm,
        H: Renewed<C, N> + Compact<N>,
        C: Condition<N>,
        const N: usize,
        R: Wait,
    >(
        &mut self,
        rt: &R,
        held: Acting<'m, H, C, N>,
        items: &[AnyItem],
        deadline: Option<u64>,
        watch: &mut Watcher<'_>,
    ) -> (Acting<'m, H, C, N>, usize)
        requires few { length items.now ≤ 16 }
        requires named { Every (IsNamed self.old watch.old) items.now }
        requires variable { (k : ℕ) × (is_among k (map item_of items.now) ≡ true) }
        ensures grows { Grows self.old self.new }
        ensures mine { self.new.mine ≡ self.old.mine }
        ensures watch { EnvGrows watch.old watch.new }
        ensures watched { watch.new.mine ≡ watch.old.mine }
        ensures answers { HeldAnswers C.means H.mode items.now deadline (held.entry, (self.old, watch.old)) (result.0, (self.new, watch.new)) result.1 }
    {
        let Acting { monitor, caller } = held;
        let Watcher { env, seat } = watch;
        let (caller, place) = self.objects.wait_any_held(
            rt,
            &mut self.seat,
            monitor,
            caller,
            items,
            deadline,
            env,
            seat,
        );
        (Acting { monitor, caller }, place)
    }
}

/// The seats of some objects that no sharer has yet, and the objects, which it borrows.
///
/// For contracts they are what their seats are, in order; the next is the last of them. That each seat is of
/// the objects is so of all `Sharers`.
#[derive(Drop)]
pub struct Sharers<'o> {
    objects: &'o Objects,
    seats: Vec<ObjSeat>,
}

impl<'o> Model for Sharers<'o> {
    ghost use Rattle.std.specs.Prelude.{◌≡◌, All, List};
    ghost use Rattle.ns_objects.specs.Known.{ObjectsKnown};

    ghost Value = { List ObjectsKnown };

    ghost view = { λ s. s.seats.items };

    ghost invariant = { λ s. All (λ seat. seat.objects ≡ s.objects.now) s.seats.items };
}

impl<'o> Sharers<'o> {
    /// A sharer with the last of these seats, or none where no seat is left.
    #[inline(always)]
    pub fn next(&mut self) -> Option<Sharer<'o>>
        ensures taken { self.old ≡ self.new ++ option_to_list result }
        ensures some { IsSome result ↔ (0 < length self.old) }
    {
        let seat = self.seats.pop()?;
        Some(Sharer {
            objects: self.objects,
            seat,
        })
    }

    /// Sharers with the last two of these seats, for two threads, or none where fewer are left.
    pub fn pair(&mut self) -> Option<(Sharer<'o>, Sharer<'o>)>
        ensures taken { IfSome result (λ pair. self.old ≡ self.new ++ pair.1 ∷ pair.0 ∷ []) }
        ensures none { result ≡ None → (length self.old < 2) × (self.new ≡ self.old) }
    {
        if self.seats.len() < 2 {
            return None;
        }
        self.next().zip(self.next())
    }
}

impl Objects {
    /// Sharers with these seats. It takes no memory.
    ///
    /// Needs seats of these objects, as [`Objects::new`] gives them.
    #[inline(always)]
    pub fn sharers(&self, seats: Vec<ObjSeat>) -> Sharers<'_>
        requires { All (λ seat. seat.objects ≡ self.now) seats.items }
        ensures { result ≡ seats.items }
    {
        Sharers {
            objects: self,
            seats,
        }
    }
}
