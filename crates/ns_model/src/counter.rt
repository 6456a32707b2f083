//! A counter: what happens to it, which histories are legal, what they leave, and what that means.
//!
//! [`legal_counter`] decides whether a list of events is legal, and [`counter_after`] tells what it leaves:
//! exactly the definitions of `specs/`. The behaviour is that of nsync's header `nsync_counter.h`.
//!
//! ```rust
//! // a counter of 1: a wait begins, it falls to 0, and from there on it can't rise
//! let waits = CounterEvent::Begun { who: 1 };
//! let falls = CounterEvent::Add { who: 0, delta: -1, reply: Ok(0) };
//! let stays = CounterEvent::Add { who: 0, delta: 2, reply: Err(CounterFault::AfterWait) };
//! let happened = [waits, falls, stays];
//! assert!(rt; legal_counter(1, &happened));
//! assert!(rt; counter_after(1, &happened).is_ready());
//! ```

ghost use Rattle.std.specs.Prelude.{◌≡◌, ◌↔◌, IsTrue, ℕ, ℤ, List, pos, ◌+ℤ◌, true};
ghost use Rattle.std.specs.List.{fold, list_any};
ghost use Rattle.ns_model.specs.declared.counter.CounterEvent.{CounterEvent as CounterEventOf};
ghost use Rattle.ns_model.specs.declared.counter.CounterState.{CounterState as CounterStateOf};
ghost use Rattle.ns_model.specs.Courses.{IsLegalFrom};
ghost use Rattle.ns_model.specs.Meanings.{AnswersRightly, added_by, is_begun};
ghost use Rattle.ns_model.specs.Counters.{judged, IsLegalCounterEvent, counter_next, first_counter, is_ready, IsLegalCounter, counter_after};

/// Why a change was refused. A refused change leaves the counter as it was.
#[derive(Clone, Copy, Debug, PartialEq, Eq)]
pub enum CounterFault {
    /// The value would fall below 0.
    Under,
    /// The value would rise above 4,294,967,295.
    Over,
    /// The value would rise from 0, though a wait for it to be 0 has begun.
    AfterWait,
}

/// One event of a counter, with the seat of its caller.
#[derive(Clone, Copy, Debug)]
pub enum CounterEvent {
    /// The caller changes the value by a number, which may be below 0, and is answered the new value, or
    /// why the change was refused.
    Add {
        /// The caller's seat.
        who: u8,
        /// The change.
        delta: i64,
        /// The new value, or why there is none.
        reply: Result<u32, CounterFault>,
    },
    /// A wait of the caller for the value 0 begins.
    Begun {
        /// The caller's seat.
        who: u8,
    },
}

/// A counter as its history leaves it.
#[derive(Clone, Copy, Debug)]
pub struct CounterState {
    /// The value.
    pub value: u32,
    /// Whether a wait for the value 0 has begun.
    pub waited: bool,
}

impl CounterState {
    /// A counter that nothing has happened to yet.
    pub fn new(value: u32) -> CounterState
        ensures { result ≡ first_counter value }
    {
        CounterState {
            value,
            waited: false,
        }
    }

    /// What a change comes to: the new value, or why it is refused. A refusal is, in this order,
    /// `Under`, `Over` or `AfterWait`. It judges by whole numbers: the sum is made in 128 bits, where nothing
    /// overflows.
    pub fn judge(self, delta: i64) -> Result<u32, CounterFault>
        ensures { result ≡ judged self delta }
    {
        let sum = i128::from(self.value) + i128::from(delta);
        if sum < 0 {
            Err(CounterFault::Under)
        } else if sum > i128::from(u32::MAX) {
            Err(CounterFault::Over)
        } else if self.value == 0 && delta > 0 && self.waited {
            Err(CounterFault::AfterWait)
        } else {
            Ok(sum as u32)
        }
    }

    /// Whether the counter is ready, as waits for any of several objects take it: its value is 0.
    pub fn is_ready(self) -> bool
        ensures { result ≡ is_ready self }
    {
        self.value == 0
    }

    /// Whether the event may be the next.
    pub fn allows(self, event: &CounterEvent) -> bool
        ensures { IsTrue result ↔ IsLegalCounterEvent self event.now }
    {
        match event {
            CounterEvent::Add { delta, reply, .. } => *reply == self.judge(*delta),
            CounterEvent::Begun { .. } => true,
        }
    }

    /// The counter after the event.
    pub fn after(self, event: &CounterEvent) -> CounterState
        ensures { result ≡ counter_next self event.now }
    {
        match event {
            CounterEvent::Add {
                reply: Ok(value),
                ..
            } => CounterState {
                value: *value,
                ..self
            },
            CounterEvent::Add { reply: Err(_), .. } => self,
            CounterEvent::Begun { .. } => CounterState {
                waited: true,
                ..self
            },
        }
    }
}

/// The counter after the history, where it began with this value.
pub fn counter_after(start: u32, history: &[CounterEvent]) -> CounterState
    ensures { result ≡ counter_after start history.now }
{
    let mut state = CounterState::new(start);
    for event in history {
        state = state.after(event);
    }
    state
}

/// Whether the history of a counter that began with this value is legal: each change was answered
/// what it came to after the events before it.
pub fn legal_counter(start: u32, history: &[CounterEvent]) -> bool
    ensures { IsTrue result ↔ IsLegalCounter start history.now }
{
    let mut now = CounterState::new(start);
    for event in history {
        if !now.allows(event) {
            return false;
        }
        now = now.after(event);
    }
    true
}

/// The answer to a change means what it says: the new value is the sum; `Under` is answered where
/// that is below 0, `Over` where it is above 4,294,967,295, and `AfterWait` where the value would
/// rise from 0 to one that there is, after the beginning of a wait.
#[tactic(auto, using(crate::proofs::Counters::answers_rightly))]
pub fn an_answer_means_what_it_says()
    ensures { (now : CounterStateOf) (delta : ℤ) → AnswersRightly now delta (judged now delta) }
{}

/// The value of a counter is what it began with and all changes that were accepted, added up.
#[tactic(auto, using(crate::proofs::Counters::counts))]
pub fn a_counter_counts()
    ensures { (start : ℕ) (history : List CounterEventOf) → IsLegalCounter start history →
        pos (counter_after start history).value ≡ pos start +ℤ added_by history }
{}

/// A counter remembers just whether a wait for 0 has begun.
#[tactic(auto, using(crate::proofs::Counters::remembers))]
pub fn a_counter_remembers_waits()
    ensures { (start : ℕ) (history : List CounterEventOf) →
        (counter_after start history).waited ≡ list_any is_begun history }
{}

/// Where a wait for 0 has begun, a counter that is 0 is 0 for good.
#[tactic(auto, using(crate::proofs::Counters::stays_at_zero))]
pub fn a_counter_waited_for_stays_at_zero()
    ensures { (now : CounterStateOf) (events : List CounterEventOf) → now.value ≡ 0 → now.waited ≡ true →
        IsLegalFrom IsLegalCounterEvent counter_next now events → (fold counter_next now events).value ≡ 0 }
{}

/// A wait for any of several takes a counter as ready just where its value is 0.
pub fn a_counter_is_ready_at_zero()
    ensures { (now : CounterStateOf) → is_ready now ≡ true ↔ now.value ≡ 0 }
{}
