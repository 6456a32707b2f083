//! The law of the steps.

ghost use Rattle.std.specs.Prelude.{◌≡◌, ◌≢◌, ◌⊎◌, ◌↔◌, ℕ, ◌<◌, ◌≤◌, true, false, List, [], ◌∷◌, ◌++◌, Option, None, Some, IsSome, IsSomeAnd, slice_get};
ghost use Rattle.std.specs.List.{list_any};
ghost use Rattle.ns_word.specs.Prelude.{AcquirePlace, Answer, Answered, Begins, BeginsWith, Cause, Cond, Done, Event, Every, ForWait, Found, HasOne, Held, InAcquire, InWait, IsFirst, IsLawful, IsLook, IsPlainWriter, IsSaidBy, IsTold, LockState, Looked, OnCondition, OnVariables, Outcome, Read};
ghost use Rattle.ns_word.specs.Prelude.{Reply, SeatStep, SeatView, Step, Told, Variables, Wait, WaitPlace, Waited, Waiter, Walk, answer_of, beside, calls_of, cause_kept, content_at, entry_of, found_of, fresh_state, got_of, has_come_back, is_back, is_long, is_met, nothing_told, phase_of};
ghost use Rattle.ns_word.specs.Prelude.{place_after, row_after, told_after, want_of, was_woken};

use ns_model::condition::Condition;

/// A fresh lock with up to 64 seats is lawful.
pub fn a_fresh_lock_is_lawful<C: Condition<N>, const N: usize>()
    ensures { (seats : ℕ) → seats ≤ 64 → IsLawful C.means seats [] (fresh_state {C = C} {N = N} seats) }
{}

/// A seat whose last call is over may begin one whose need is met: the law stays, with the same
/// history.
pub fn beginning_a_call_keeps_the_law<C: Condition<N>, const N: usize>()
    ensures { (seats : ℕ) (history : List (Event C N)) (old new : LockState C N) (view : SeatView C N) (walk : Walk C) →
        Begins C.means old view walk new →
        IsLawful C.means seats history old →
        IsLawful C.means seats history new }
{}

/// A step of any of up to 64 seats, the next of its call or the first of one that it begins, keeps
/// the law, and the history grows by what it commits.
pub fn steps_keep_the_law<C: Condition<N>, const N: usize>()
    ensures { (seats : ℕ) (history : List (Event C N)) (old new : LockState C N) (view : SeatView C N) (begun : Option (Walk C)) (found : Found) (commits : List (Event C N)) →
        seats ≤ 64 → SeatStep C.means old view begun found new commits →
        IsLawful C.means seats history old →
        IsLawful C.means seats (history ++ commits) new }
{}

/// A step that is no look finds what one word says, which it loads or compares: the rest is what
/// its seat has already, its section, the wakes that it owes and the lists in its hand.
pub fn steps_find_what_one_word_says<C: Condition<N>, const N: usize>()
    ensures { (seats : ℕ) (history : List (Event C N)) (old new : LockState C N) (view : SeatView C N) (found : Found) (commits : List (Event C N)) →
        seats ≤ 64 → (step : Step C.means old view found new commits) →
        IsLawful C.means seats history old → (IsLook (want_of step.walk) → ⊥) →
        found ≡ found_of C.means (want_of step.walk) view old.lists (content_at view.seat (want_of step.walk) old) }
{}

/// A waiter of the lock list that has a condition is in the wait for it, in its mode, by the
/// history.
#[tactic(auto, using(crate::proofs::Phases::waiter_phase))]
pub fn waiters_are_in_their_phase<C: Condition<N>, const N: usize>()
    ensures { (seats : ℕ) (history : List (Event C N)) (s : LockState C N) (at : ℕ) (w : Waiter C) (c : C) →
        IsLawful C.means seats history s → slice_get s.lists.lock at ≡ Some w → w.cond ≡ Some c →
        phase_of history w.seat ≡ Cond c w.mode }
{}

/// No seat stands twice in a list, or in the lock list and in that of a variable.
pub fn no_waiter_stands_twice<C: Condition<N>, const N: usize>()
    ensures { (seats : ℕ) (history : List (Event C N)) (s : LockState C N) (seat k : ℕ) →
        IsLawful C.means seats history s → k < 4 → beside s.lists seat k ≤ 1 }
{}

/// While nobody has the queues, the word says that somebody waits long exactly where one who stands
/// in the lock list has failed 30 times after being woken, and nobody counts more.
#[tactic(auto, using(crate::proofs::Phases::waiter_tries))]
pub fn the_word_tells_of_a_long_wait<C: Condition<N>, const N: usize>()
    ensures { (seats : ℕ) (history : List (Event C N)) (s : LockState C N) →
        IsLawful C.means seats history s →
        (s.word.spin ≡ false → s.word.long ≡ list_any is_long s.lists.lock)
        × ((at : ℕ) (w : Waiter C) → slice_get s.lists.lock at ≡ Some w → w.tries ≤ 30) }
{}

/// While nobody has the queues, the word tells who stands in the lock list: its waiting bit that somebody
/// does, its condition bit that somebody with a condition does, and its writer bit that a writer without
/// condition does. Where it says that all conditions are false, each waiter has one, and it is false of the
/// row that the history has left.
pub fn the_word_tells_who_waits<C: Condition<N>, const N: usize>()
    ensures somebody { (seats : ℕ) (history : List (Event C N)) (s : LockState C N) → IsLawful C.means seats history s → s.word.spin ≡ false →
        (s.word.waiting ≡ false ↔ s.lists.lock ≡ []) }
    ensures condition { (seats : ℕ) (history : List (Event C N)) (s : LockState C N) → IsLawful C.means seats history s → s.word.spin ≡ false →
        (s.word.cond ≡ true ↔ HasOne (λ w. IsSome w.cond) s.lists.lock) }
    ensures writer { (seats : ℕ) (history : List (Event C N)) (s : LockState C N) → IsLawful C.means seats history s → s.word.spin ≡ false →
        (s.word.writer_waits ≡ true ↔ HasOne IsPlainWriter s.lists.lock) }
    ensures all_false { (seats : ℕ) (history : List (Event C N)) (s : LockState C N) → IsLawful C.means seats history s → s.word.all_false ≡ true →
        Every (λ w. IsSomeAnd w.cond (λ c. C.means.holds c (row_after history) ≡ false)) s.lists.lock }
{}

/// While a writer without condition stands in the lock list and nobody has the queues, no fresh reader
/// acquires: who does was woken.
pub fn no_fresh_reader_passes_a_writer<C: Condition<N>, const N: usize>()
    ensures { (seats : ℕ) (history : List (Event C N)) (old new : LockState C N) (view : SeatView C N) (found : Found) (commits : List (Event C N)) (held : Held C N) →
        (step : Step C.means old view found new commits) →
        IsLawful C.means seats history old → old.word.spin ≡ false → HasOne IsPlainWriter old.lists.lock →
        view.held ≡ None → step.held ≡ Some held → held.mode ≡ Read → was_woken (Some step.walk) ≡ true }
{}

/// While the word says that somebody waits long, only waiters that were woken acquire.
#[tactic(auto, using(crate::proofs::Longs::woken_pass))]
pub fn only_the_woken_pass_a_long_wait<C: Condition<N>, const N: usize>()
    ensures { (old new : LockState C N) (view : SeatView C N) (found : Found) (commits : List (Event C N)) (held : Held C N) →
        (step : Step C.means old view found new commits) →
        old.word.long ≡ true → view.held ≡ None → step.held ≡ Some held → was_woken (Some step.walk) ≡ true }
{}

/// A seat that has begun no call was told nothing.
#[tactic(auto, using(crate::proofs::ToldAfter::told_first))]
pub fn a_fresh_seat_was_told_nothing<C: Condition<N>, const N: usize>()
    ensures { (seats seat : ℕ) → IsTold {N = N} C.means.holds seats [] seat None nothing_told }
{}

/// What a seat is told by a step of its own: it has then seen the whole history, which begins with
/// what it had seen, its own events grow by what the step commits, and the call that it goes on
/// with is the last that it has begun: with this step, if it is a call's first.
pub fn steps_tell_their_seat<C: Condition<N>, const N: usize>()
    ensures { (seats : ℕ) (history : List (Event C N)) (old new : LockState C N) (view : SeatView C N) (begun : Option (Walk C)) (found : Found) (commits : List (Event C N)) (told : Told C N) →
        seats ≤ 64 → (made : SeatStep C.means old view begun found new commits) →
        IsLawful C.means seats history old → IsTold C.means.holds seats history view.seat view.walk told →
        IsTold C.means.holds seats (history ++ commits) view.seat (place_after (got_of N made.step.walk found)) (told_after history commits (calls_of begun) told) × BeginsWith (history ++ commits) told.seen }
{}

/// What a seat was told stays true after the steps of others.
pub fn steps_tell_no_other<C: Condition<N>, const N: usize>()
    ensures { (seats : ℕ) (history : List (Event C N)) (old new : LockState C N) (view : SeatView C N) (begun : Option (Walk C)) (found : Found) (commits : List (Event C N)) (other : ℕ) (walk : Option (Walk C)) (told : Told C N) →
        SeatStep C.means old view begun found new commits →
        view.seat ≢ other → IsTold C.means.holds seats history other walk told → IsTold C.means.holds seats (history ++ commits) other walk told }
{}

/// A wait for a condition answers that it was met exactly where it holds of the row that the wait
/// returns with, and its section is in the mode that it was called in. Where it has waited, its
/// section says of itself just that answer.
pub fn waits_answer_rightly<C: Condition<N>, const N: usize>()
    ensures { (seats : ℕ) (history : List (Event C N)) (old new : LockState C N) (view : SeatView C N) (found : Found) (commits : List (Event C N)) (wait : Wait C) (c : C) (place : WaitPlace) (answer : Answer) →
        (step : Step C.means old view found new commits) →
        IsLawful C.means seats history old → step.walk ≡ InWait wait place → wait.on ≡ OnCondition c → got_of N step.walk found ≡ Done (Answered answer) →
        (held : Held C N) × (step.held ≡ Some held) × (held.mode ≡ wait.mode) × (is_met answer ≡ C.means.holds c held.row)
        × (has_come_back step.walk ≡ true → entry_of C.means.holds held.before held.entry ≡ Waited c answer) }
{}

/// A wait for variables answers what its section says of how it began: one for a variable that it was
/// woken, or by what it was ended; one for any of a set, which of them has woken it, or none. Its
/// section is in the mode that it was called in.
#[tactic(auto, using(crate::proofs::Answers::variable_answers_rightly))]
pub fn variable_waits_answer_rightly<C: Condition<N>, const N: usize>()
    ensures { (old new : LockState C N) (view : SeatView C N) (found : Found) (commits : List (Event C N)) (wait : Wait C) (outcome : Outcome) (place : AcquirePlace) (variables : Variables) (reply : Reply) →
        (step : Step C.means old view found new commits) →
        step.walk ≡ InAcquire (ForWait wait outcome) place → wait.on ≡ OnVariables variables → got_of N step.walk found ≡ Done reply →
        (held : Held C N) × (step.held ≡ Some held) × (held.mode ≡ wait.mode) × IsSaidBy variables reply (entry_of C.means.holds held.before held.entry) }
{}

/// A wait for variables answers only as it comes back: not before it has left its section and
/// acquired again.
pub fn variable_waits_answer_as_they_come_back<C: Condition<N>, const N: usize>()
    ensures { (seats : ℕ) (history : List (Event C N)) (old new : LockState C N) (view : SeatView C N) (found : Found) (commits : List (Event C N)) (wait : Wait C) (place : WaitPlace) (variables : Variables) (reply : Reply) →
        (step : Step C.means old view found new commits) →
        IsLawful C.means seats history old → step.walk ≡ InWait wait place → wait.on ≡ OnVariables variables → got_of N step.walk found ≢ Done reply }
{}

/// A wait answers by what it was ended early only where a look of its own has shown that, the deadline or
/// the note. Its place keeps a cause only where the place before kept it, or where the step was a
/// look that showed it; and it answers by a cause only where its place has kept that, or where the
/// step was such a look.
pub fn early_answers_were_shown<C: Condition<N>, const N: usize>()
    ensures { (walk : Walk C) (found : Found) (cause : Cause) →
        ((next : Walk C) → place_after (got_of N walk found) ≡ Some next → cause_kept next ≡ Some cause → (cause_kept walk ≡ Some cause) ⊎ (found ≡ Looked (Some cause)))
        × (got_of N walk found ≡ Done (Answered (answer_of cause)) → (cause_kept walk ≡ Some cause) ⊎ (found ≡ Looked (Some cause))) }
{}

/// No call begins at a place that keeps a cause.
#[tactic(auto, using(crate::proofs::Firsts::first_is_bare))]
pub fn no_call_begins_ended<C: Condition<N>, const N: usize>()
    ensures { (walk : Walk C) → IsFirst N walk → cause_kept walk ≡ None }
{}

/// What a section says of how it began stays from the answer until the section is left. Only a wait
/// that has come back with it, and hasn't answered yet, may settle that; no step of any other call
/// changes it, and none leads to such a wait while the section is in hand.
pub fn sections_keep_their_beginning<C: Condition<N>, const N: usize>()
    ensures { (old new : LockState C N) (view : SeatView C N) (found : Found) (commits : List (Event C N)) (was held : Held C N) →
        (step : Step C.means old view found new commits) →
        has_come_back step.walk ≡ false → view.held ≡ Some was → step.held ≡ Some held →
        (held.mode ≡ was.mode) × (held.before ≡ was.before) × (held.entry ≡ was.entry) × (is_back (place_after (got_of N step.walk found)) ≡ false) }
{}

/// No call begins at a place where a wait has come back, so neither do the calls that a seat makes
/// between the answer and the end of its section.
#[tactic(auto, using(crate::proofs::Firsts::first_is_bare))]
pub fn no_call_begins_back<C: Condition<N>, const N: usize>()
    ensures { (walk : Walk C) → IsFirst N walk → has_come_back walk ≡ false }
{}
