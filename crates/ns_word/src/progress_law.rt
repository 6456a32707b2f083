//! How far calls go on: each step that counts lowers a number, no other changes it, and a call pays for its
//! own steps, and for those that it may cost others, as it begins.
//!
//! So while no call begins, only so many steps count, whatever the schedule. A call may load the word for ever while
//! another that has the queues makes no step, and a call that waits may look for ever. Nothing is said of which
//! call a step counts for: others that begin call after call may overtake one.

ghost use Rattle.std.specs.Prelude.{Some, [], ◌≡◌, ◌*◌, ◌+◌, ◌++◌, ◌<◌, ◌≤◌, ◌⊎◌, ℕ, List, false, length, true};
ghost use Rattle.ns_word.specs.Prelude.{AllRest, Begins, Cause, Event, Found, HasReason, IsIdleLook, IsLawful, LockState, Looked, Rounds, Run, SeatView, Step, Turn};
ghost use Rattle.ns_word.specs.Prelude.{Walk, cost_of, counted, counts, fresh_state, paid, rests_at, steps_left};

use ns_model::condition::Condition;

/// A step that counts leaves fewer than were left, in each lawful state with up to 64 seats.
pub fn each_counted_step_leaves_fewer<C: Condition<N>, const N: usize>()
    ensures { (seats : ℕ) (history : List (Event C N)) (old new : LockState C N) (view : SeatView C N) (found : Found) (commits : List (Event C N)) →
        seats ≤ 64 → IsLawful C.means seats history old →
        (step : Step C.means old view found new commits) → counts N step.walk found ≡ true →
        steps_left C.means new < steps_left C.means old }
{}

/// A step that doesn't count changes nothing but its seat's place in its call: neither what is left, nor the
/// word, the row, the lists or a flag, nor the seat's section or the wakes that it owes, and it commits nothing.
pub fn other_steps_change_nothing<C: Condition<N>, const N: usize>()
    ensures { (old new : LockState C N) (view : SeatView C N) (found : Found) (commits : List (Event C N)) →
        (step : Step C.means old view found new commits) → counts N step.walk found ≡ false →
        (steps_left C.means new ≡ steps_left C.means old) × (new ≡ record old { views = new.views })
        × (step.held ≡ view.held) × (step.owed ≡ view.owed) × (commits ≡ []) }
{}

/// In a fresh lock an acquire is left to each seat, and nothing else.
#[tactic(auto, using(crate::proofs::Turns::fresh_has_left))]
pub fn a_fresh_lock_has_acquires_left<C: Condition<N>, const N: usize>()
    ensures { (seats : ℕ) → steps_left C.means (fresh_state {C = C} {N = N} seats) ≡ 6600 * seats }
{}

/// A call that begins adds at most its cost, which goes by its kind and the number of cells alone.
pub fn a_call_adds_its_cost<C: Condition<N>, const N: usize>()
    ensures { (old new : LockState C N) (view : SeatView C N) (walk : Walk C) →
        Begins C.means old view walk new → steps_left C.means new ≤ steps_left C.means old + cost_of N walk }
{}

/// No run has more steps that count than were left as it began and its calls paid for, whoever makes its
/// turns.
pub fn a_run_is_paid_by_its_calls<C: Condition<N>, const N: usize>()
    ensures { (seats : ℕ) (history : List (Event C N)) (old new : LockState C N) (turns : List (Turn C)) →
        seats ≤ 64 → IsLawful C.means seats history old → Run C.means old turns new →
        counted N turns + steps_left C.means new ≤ steps_left C.means old + paid N turns }
{}

/// Where nothing is left to any seat but to look again, each call in progress has a reason to wait.
#[tactic(auto, using(crate::proofs::Rests::has_reason))]
pub fn at_rest_each_waits_for_a_reason<C: Condition<N>, const N: usize>()
    ensures { (seats : ℕ) (history : List (Event C N)) (s : LockState C N) → IsLawful C.means seats history s → AllRest s → HasReason C.means history s }
{}

/// A step of a seat that doesn't rest counts; or it is a look of a wait that shows nothing, and the flag that the
/// wait loads next is clear.
#[tactic(auto, using(crate::proofs::Rests::step_goes_on))]
pub fn who_does_not_rest_goes_on<C: Condition<N>, const N: usize>()
    ensures { (old new : LockState C N) (view : SeatView C N) (found : Found) (commits : List (Event C N)) →
        (step : Step C.means old view found new commits) → rests_at N old.word (old.flags view.seat) view.walk ≡ false →
        (counts N step.walk found ≡ true) ⊎ IsIdleLook step.walk found (old.flags view.seat) }
{}

/// A step of a seat that rests counts only where it is a look that shows something.
#[tactic(auto, using(crate::proofs::Rests::step_rests))]
pub fn who_rests_looks_again<C: Condition<N>, const N: usize>()
    ensures { (old new : LockState C N) (view : SeatView C N) (found : Found) (commits : List (Event C N)) →
        (step : Step C.means old view found new commits) → rests_at N old.word (old.flags view.seat) view.walk ≡ true →
        (counts N step.walk found ≡ false) ⊎ ((cause : Cause) × (found ≡ Looked (Some cause))) }
{}

/// While no call begins, a run of more rounds than steps are left comes to rest before it ends, after no more rounds than
/// that, whoever makes the turns, in whatever order. A round is a stretch of turns in which each seat that doesn't rest
/// as it begins makes two at least, or its call ends.
pub fn rounds_come_to_rest<C: Condition<N>, const N: usize>()
    ensures { (seats : ℕ) (history : List (Event C N)) (old new : LockState C N) (rounds : List (List (Turn C))) →
        seats ≤ 64 → IsLawful C.means seats history old → Rounds C.means old rounds new → steps_left C.means old < length rounds →
        (before after : List (List (Turn C))) × (s : LockState C N) × (rounds ≡ before ++ after)
        × Rounds C.means old before s × Rounds C.means s after new × (length before ≤ steps_left C.means old) × AllRest s }
{}
