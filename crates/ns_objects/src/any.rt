//! Waits for any of several notes and counters.

ghost use Rattle.std.specs.Prelude.{◌≡◌, ◌≤◌, length};
ghost use Rattle.ns_model.specs.Tallies.{Every};
ghost use Rattle.ns_note.specs.Known.{Grows as EnvGrows, IsTrueToHistory as EnvTrue};
ghost use Rattle.ns_objects.specs.Any.{AnyAnswers, IsKnown, IsNamed, RoundAnswers, WasReadyIn, any_of, item_of, past_of};
ghost use Rattle.ns_objects.specs.declared.any.AnyItem.{AnyItem as AnyItemOf};
ghost use Rattle.ns_objects.specs.Known.{Grows, IsTrueToHistory};

use crate::objects::Objects;
use crate::seat::ObjSeat;
use ns_counters::items::{AsItem, Item as PlainItem};
use ns_note::env::Env;
use ns_note::note::Note;
use ns_note::pause::Pause;
use ns_note::seat::EnvSeat;
use std::sync::Wait;

/// What a wait for any of several is for.
#[derive(Clone, Copy, Debug)]
pub enum Item {
    /// A note, which is ready where it is notified.
    Note(Note),
    /// A counter, by its number, which is ready where its value is 0.
    Counter(u8),
}

/// What such a wait is for that is called with a section in hand.
#[derive(Clone, Copy, Debug)]
pub enum AnyItem {
    /// A note, which is ready where it is notified.
    Note(Note),
    /// A counter, by its number, which is ready where its value is 0.
    Counter(u8),
    /// A condition variable of a monitor, by its number below 4. A look at it shows nothing: it wakes who
    /// waits for it.
    Cv(u8),
}

/// What a round looks at.
pub(crate) trait Looked: Copy {
    /// Which item that is.
    ghost any: { Self → AnyItemOf };

    /// Which item that is.
    fn any(self) -> AnyItem
        ensures { result ≡ any self };
}

impl Looked for Item {
    ghost any = { any_of };

    #[inline(always)]
    fn any(self) -> AnyItem {
        match self {
            Item::Note(note) => AnyItem::Note(note),
            Item::Counter(counter) => AnyItem::Counter(counter),
        }
    }
}

impl Looked for AnyItem {
    ghost any = { λ item. item };

    #[inline(always)]
    fn any(self) -> AnyItem {
        self
    }
}

impl AsItem for AnyItem {
    ghost item = { item_of };

    #[inline(always)]
    fn item(self) -> PlainItem {
        match self {
            AnyItem::Note(note) => PlainItem::OnNote(note.index),
            AnyItem::Counter(counter) => PlainItem::OnCounter(counter),
            AnyItem::Cv(k) => PlainItem::OnVariable(k),
        }
    }
}

impl Objects {
    /// Whether an item is ready.
    fn is_ready(&self, seat: &mut ObjSeat, item: AnyItem, env: &Env, watch: &mut EnvSeat) -> bool
        requires objects { seat.old.objects ≡ self.now }
        requires env { watch.old.env ≡ env.now }
        requires known { IsNamed seat.old watch.old item }
        requires true_to { IsTrueToHistory seat.old }
        requires env_true_to { EnvTrue watch.old }
        ensures grows { Grows seat.old seat.new }
        ensures mine { seat.new.mine ≡ seat.old.mine }
        ensures watch { EnvGrows watch.old watch.new }
        ensures watched { watch.new.mine ≡ watch.old.mine }
        ensures ready { WasReadyIn result (seat.old, watch.old) (seat.new, watch.new) item }
    {
        match item {
            AnyItem::Note(note) => env.is_notified(watch, note),
            AnyItem::Counter(counter) => self.counter_value(seat, counter) == 0,
            AnyItem::Cv(_) => false,
        }
    }

    /// One round of a wait for any: the clock, and then each item in order up to the first that is ready.
    /// Answers its place, or the number of items where none is ready and the deadline, in ticks, has
    /// come, or nothing.
    pub(crate) fn look_at_any<T: Looked>(
        &self,
        seat: &mut ObjSeat,
        items: &[T],
        deadline: Option<u64>,
        env: &Env,
        watch: &mut EnvSeat,
    ) -> Option<usize>
        requires objects { seat.old.objects ≡ self.now }
        requires env { watch.old.env ≡ env.now }
        requires known { Every (λ item. IsNamed seat.old watch.old (T.any item)) items.now }
        requires true_to { IsTrueToHistory seat.old }
        ensures grows { Grows seat.old seat.new }
        ensures mine { seat.new.mine ≡ seat.old.mine }
        ensures watch { EnvGrows watch.old watch.new }
        ensures watched { watch.new.mine ≡ watch.old.mine }
        ensures answers { RoundAnswers T.any seat.old.setup items.now deadline (past_of (seat.old, watch.old)) (past_of (seat.new, watch.new)) result }
    {
        let clock = env.now(watch);
        for (i, item) in items.iter().enumerate() {
            if self.is_ready(seat, item.any(), env, watch) {
                return Some(i);
            }
        }
        match deadline {
            Some(moment) if moment <= clock => Some(items.len()),
            _ => None,
        }
    }

    /// Waits until one of the items is ready, or until the clock of the environment has reached the
    /// deadline, in ticks. Answers the place of the first item that is ready, or the number of items where
    /// the deadline came first. With no deadline it waits for the items alone. nsync's `nsync_wait_n`.
    /// Each round looks at the clock, then at the items in order up to the first that is ready; the rounds
    /// before the last showed nothing.
    /// The call turns for a while, and then sleeps for at most 64 milliseconds at a time.
    ///
    /// Begins no wait for a counter: it may rise from 0 later. Needs at most 16 items, counters of these
    /// objects, notes that the caller's seat of the environment has seen made, and that seat.
    pub fn wait_any<R: Wait>(
        &self,
        rt: &R,
        seat: &mut ObjSeat,
        items: &[Item],
        deadline: Option<u64>,
        env: &Env,
        watch: &mut EnvSeat,
    ) -> usize
        requires objects { seat.old.objects ≡ self.now }
        requires env { watch.old.env ≡ env.now }
        requires few { length items.now ≤ 16 }
        requires known { Every (IsKnown seat.old watch.old) items.now }
        ensures grows { Grows seat.old seat.new }
        ensures mine { seat.new.mine ≡ seat.old.mine }
        ensures watch { EnvGrows watch.old watch.new }
        ensures watched { watch.new.mine ≡ watch.old.mine }
        ensures answers { AnyAnswers items.now deadline (seat.old, watch.old) (seat.new, watch.new) result }
    {
        seat.attest();
        watch.attest();
        let mut pause = Pause::new();
        for _ in rt.forever() {
            if let Some(place) = self.look_at_any(seat, items, deadline, env, watch) {
                return place;
            }
            // whatever ended the sleep, there is another round
            self.rest_for_any(rt, seat, items, env, watch, &mut pause);
        }
        unreachable!()
    }
}
