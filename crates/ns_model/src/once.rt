//! A once cell, which has its function run once: what happens to it, which histories are legal, what
//! they leave, and what that means.
//!
//! [`legal_once`] decides whether a list of events is legal, and [`once_after`] tells what it leaves: exactly
//! the definitions of `specs/`. The behaviour is that of nsync's header `nsync_once.h`.
//!
//! ```rust
//! // of two that begin to run one cell's function, the second is one too many
//! let begins = OnceEvent::Began { who: 0 };
//! let ends = OnceEvent::Ran { who: 0 };
//! assert!(rt; legal_once(&[begins, ends]));
//! assert!(rt; !legal_once(&[begins, OnceEvent::Began { who: 1 }]));
//! assert!(rt; !legal_once(&[begins, OnceEvent::Ran { who: 1 }]));
//! ```

ghost use Rattle.std.specs.Prelude.{◌≡◌, ◌↔◌, IsTrue, List};
ghost use Rattle.std.specs.List.{list_any};
ghost use Rattle.ns_model.specs.declared.once.OnceEvent.{OnceEvent as OnceEventOf};
ghost use Rattle.ns_model.specs.Meanings.{IsCourseOfOnce, is_ran};
ghost use Rattle.ns_model.specs.Onces.{IsLegalOnceEvent, once_next, IsLegalOnce, once_after, is_done};

/// One event of a once cell, with the seat of its caller.
#[derive(Clone, Copy, Debug)]
pub enum OnceEvent {
    /// The caller begins to run the function.
    Began {
        /// The caller's seat.
        who: u8,
    },
    /// The caller has run the function to its end.
    Ran {
        /// The caller's seat.
        who: u8,
    },
}

/// A once cell as its history leaves it.
#[derive(Clone, Copy, Debug)]
pub enum OnceState {
    /// Nobody has begun to run the function.
    Unused,
    /// Somebody runs it.
    Running {
        /// The seat of who runs it.
        who: u8,
    },
    /// It has run.
    Done,
}

impl OnceState {
    /// Whether the event may be the next.
    pub fn allows(self, event: &OnceEvent) -> bool
        ensures { IsTrue result ↔ IsLegalOnceEvent self event.now }
    {
        match (self, event) {
            (OnceState::Unused, OnceEvent::Began { .. }) => true,
            (OnceState::Running { who: runner }, OnceEvent::Ran { who }) => *who == runner,
            _ => false,
        }
    }

    /// The cell after the event.
    pub fn after(self, event: &OnceEvent) -> OnceState
        ensures { result ≡ once_next self event.now }
    {
        match event {
            OnceEvent::Began { who } => OnceState::Running { who: *who },
            OnceEvent::Ran { .. } => OnceState::Done,
        }
    }
}

/// The once cell after the history.
pub fn once_after(history: &[OnceEvent]) -> OnceState
    ensures { result ≡ once_after history.now }
{
    let mut state = OnceState::Unused;
    for event in history {
        state = state.after(event);
    }
    state
}

/// Whether the history of a once cell is legal: somebody begins, once, and then has run.
pub fn legal_once(history: &[OnceEvent]) -> bool
    ensures { IsTrue result ↔ IsLegalOnce history.now }
{
    let mut now = OnceState::Unused;
    for event in history {
        if !now.allows(event) {
            return false;
        }
        now = now.after(event);
    }
    true
}

/// The function of a once cell begins once at most, and has run once at most, by who began it.
#[tactic(auto, using(crate::proofs::Onces::runs_once))]
pub fn a_function_runs_once()
    ensures { (history : List OnceEventOf) → IsLegalOnce history → IsCourseOfOnce history }
{}

/// A once cell is done just where its function has run.
#[tactic(auto, using(crate::proofs::Onces::done_once_run))]
pub fn a_cell_is_done_once_its_function_has_run()
    ensures { (history : List OnceEventOf) → IsLegalOnce history → is_done (once_after history) ≡ list_any is_ran history }
{}
