//! The laws of the lists: where a seat stands that queues, where those go that a call wakes, and what one
//! finds that leaves.

ghost use Rattle.std.specs.Prelude.{◌≡◌, ◌<◌, nat_lt, ℕ, Bool, true, List};
ghost use Rattle.ns_word.specs.Prelude.{Aim, Any, AreCalled, Arrival, Cause, Cv, Cvs, Event, InAcquire, InLeaving, InQueuing, InSignal, InWait, IsFoundLeaving, IsInRange, IsLawful, Leave, Left, LockState, Made, OnCondition, OnVariables, Only, Queue, QueueToWait, QueuesFor, Scanned, SeatView, Step};
ghost use Rattle.ns_word.specs.Prelude.{Variables, Wait, WaitsFor, WakeAndReturn, Waking, Woke, Word, is_held, mode_for, outside, standing_after, taken_by, taken_set, times, times_in, waiters_of, without_in};
ghost use Rattle.ns_model.specs.Cvs.{is_in};

use ns_model::condition::Condition;

/// Who queues for the lock fresh stands behind all others, and hasn't failed yet; who was woken
/// stands before them all, and has failed once more, of which 30 are counted. No variable's list
/// changes.
#[tactic(auto, using(crate::proofs::Stands::queues_in_place))]
pub fn who_queues_stands_in_its_place<C: Condition<N>, const N: usize>()
    ensures { (old new : LockState C N) (view : SeatView C N) (commits : List (Event C N)) (aim : Aim C) (arrival : Arrival) (last : Word) →
        (step : Step C.means old view Made new commits) → step.walk ≡ InAcquire aim (Queue arrival last) →
        QueuesFor view.seat (mode_for aim) arrival old.lists.lock new.lists.lock × (new.lists.cvs ≡ old.lists.cvs) }
{}

/// A wait for a condition stands with it behind all whom the scan has left, and before them where it
/// queues again, after it was woken and found its condition false; it names no variable. A wait for variables
/// stands behind all that wait for any of them, and names that in its list; the other variables' lists stay, and
/// the lock list is what the scan has left.
pub fn who_waits_stands_in_its_place<C: Condition<N>, const N: usize>()
    ensures { (seats : ℕ) (history : List (Event C N)) (old new : LockState C N) (view : SeatView C N) (commits : List (Event C N)) (wait : Wait C) (again : Bool) (last : Word) (owes : Bool) (tests : ℕ) →
        (step : Step C.means old view (Scanned owes tests) new commits) → IsLawful C.means seats history old → step.walk ≡ InWait wait (InQueuing again (QueueToWait last)) →
        WaitsFor C.means view.seat wait.mode wait.on again old.row old.lists new.lists }
{}

/// Those whom a signal or a broadcast takes stand behind all others in the lock list, in their order,
/// where the lock is held, and nobody is owed a wake then; else the lock list stays, and they are
/// owed their wakes in that order.
#[tactic(auto, using(crate::proofs::Stands::taken_called))]
pub fn the_taken_are_moved_or_called<C: Condition<N>, const N: usize>()
    ensures { (old new : LockState C N) (view : SeatView C N) (commits : List (Event C N)) (waking : Waking) (k : ℕ) (last : Word) (owes : Bool) →
        (step : Step C.means old view (Woke owes) new commits) → step.walk ≡ InSignal waking k (WakeAndReturn last) →
        AreCalled (is_held last) k (taken_by waking (waiters_of old.lists (Cv k))) old.lists.lock new.lists.lock step.owed }
{}

/// A wait that leaves finds out whether it still stands where it waits. One for variables stands in their
/// lists just where it waits for them still, by the history; where it doesn't, one of them has woken it. One
/// for a condition finds out whether it stands in the lock list. Who stood there stands nowhere after that.
pub fn who_leaves_waits_there_still<C: Condition<N>, const N: usize>()
    ensures variables { (seats : ℕ) (history : List (Event C N)) (old new : LockState C N) (view : SeatView C N) (commits : List (Event C N)) (wait : Wait C) (cause : Cause) (last : Word) (stood : Bool) (variables : Variables) →
        (step : Step C.means old view (Left stood) new commits) → step.walk ≡ InWait wait (InLeaving cause (Leave last)) → IsLawful C.means seats history old → wait.on ≡ OnVariables variables →
        IsFoundLeaving stood variables wait.mode ((standing_after history).phases view.seat) }
    ensures condition { (old new : LockState C N) (view : SeatView C N) (commits : List (Event C N)) (wait : Wait C) (cause : Cause) (last : Word) (stood : Bool) (c : C) →
        (step : Step C.means old view (Left stood) new commits) → step.walk ≡ InWait wait (InLeaving cause (Leave last)) → wait.on ≡ OnCondition c →
        stood ≡ nat_lt 0 (times_in view.seat old.lists.lock) }
    ensures gone { (old new : LockState C N) (view : SeatView C N) (commits : List (Event C N)) (wait : Wait C) (cause : Cause) (last : Word) →
        (step : Step C.means old view (Left true) new commits) → step.walk ≡ InWait wait (InLeaving cause (Leave last)) → times view.seat new.lists ≡ 0 }
{}

/// Those who stay in a variable's list keep their places there, where a signal or a broadcast takes others
/// out of all the lists of variables, and where one leaves all lists.
#[tactic(auto, using(crate::proofs::Leavers::stays_behind_leaver, crate::proofs::Stands::stays_behind_wake))]
pub fn who_stays_keeps_its_place<C: Condition<N>, const N: usize>()
    ensures woken { (seats : ℕ) (history : List (Event C N)) (old new : LockState C N) (view : SeatView C N) (commits : List (Event C N)) (waking : Waking) (k : ℕ) (last : Word) (owes : Bool) (j : ℕ) →
        (step : Step C.means old view (Woke owes) new commits) → step.walk ≡ InSignal waking k (WakeAndReturn last) → IsLawful C.means seats history old → j < 4 →
        waiters_of new.lists (Cv j) ≡ outside (taken_set (taken_by waking (waiters_of old.lists (Cv k)))) (waiters_of old.lists (Cv j)) }
    ensures left { (seats : ℕ) (history : List (Event C N)) (old new : LockState C N) (view : SeatView C N) (commits : List (Event C N)) (wait : Wait C) (cause : Cause) (last : Word) (j : ℕ) →
        (step : Step C.means old view (Left true) new commits) → step.walk ≡ InWait wait (InLeaving cause (Leave last)) → IsLawful C.means seats history old → j < 4 →
        (new.lists.lock ≡ without_in view.seat old.lists.lock) × (waiters_of new.lists (Cv j) ≡ without_in view.seat (waiters_of old.lists (Cv j))) }
{}

/// A wait may be for any variables that there are: for one of a number below 4, and for any of a set that has
/// some variable, and none but those.
#[tactic(auto, using(crate::proofs::Enters::are_some))]
pub fn waits_may_be_for_all_variables<C: Condition<N>, const N: usize>()
    ensures one { (k : ℕ) → k < 4 → IsInRange {C = C} (OnVariables (Only k)) }
    ensures several { (cvs : Cvs) (k : ℕ) → cvs.0 < 256 → is_in cvs k ≡ true → ((j : ℕ) → is_in cvs j ≡ true → j < 4) → IsInRange {C = C} (OnVariables (Any cvs)) }
{}
