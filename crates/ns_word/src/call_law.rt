//! The laws by call: what a call has done at each of its places, and what its answer means.

ghost use Rattle.std.specs.Prelude.{◌≡◌, ◌≢◌, ◌<◌, ◌⊎◌, ◌||◌, ◌==◌, nat_lt, Bool, ℕ, true, false, if◌then◌else◌, List, [], ◌∷◌, ◌++◌, Option, None, Some, slice_get};
ghost use Rattle.ns_word.specs.Prelude.{AcquireLoad, Aim, Answered, Arrival, AsFresh, AsWoken, Await, AwaitWake, AwaitWakeInWait, Busy, CallGoes, Cause, Course, Cv, Done, Event, Every, Flag, Found, Held, InAcquire, InTry, InWait, IsFirst, IsLawful, IsToldSo, Limits, LoadFlag, LockState, Look};
ghost use Rattle.ns_word.specs.Prelude.{Looked, Made, Met, Mode, On, OnCondition, Owed, PayWake, Queue, Read, Saw, SeatView, SoFar, Step, Tells, TryAcquire, TryPlace, Wait, Wake, Waking, Walk, Word, answer_of, asked_of, calls_from_lock, cause_kept, course_after, course_from, got_of, has_come_back};
ghost use Rattle.ns_word.specs.Prelude.{is_limited, is_woken, kept_by, may_acquire, place_after, row_after, standing_after, taken_by, tries_of, waiters_of, waits_in, wake_of, walk_at, want_of, was_woken};

use ns_model::condition::Condition;

/// No step of a call changes what it was asked to do: its mode, cell, value, wait or variable.
#[tactic(auto, using(crate::proofs::Asked::asked_stays))]
pub fn calls_stay_what_they_were_asked<C: Condition<N>, const N: usize>()
    ensures { (walk next : Walk C) (found : Found) → place_after (got_of N walk found) ≡ Some next → asked_of next ≡ asked_of walk }
{}

/// A call has changed nothing and committed nothing as it begins.
#[tactic(auto, using(crate::proofs::Courses::begins_unchanged))]
pub fn calls_begin_with_nothing_done<C: Condition<N>, const N: usize>()
    ensures { (seat : ℕ) (held : Option (Held C N)) (walk : Walk C) → IsFirst N walk → SoFar C.means seat (course_from held) walk held }
{}

/// A step takes its call on: the call is still the one that was asked, and has committed what its
/// place tells; or it is over, and its answer means what it says of the section that it began with,
/// of the one in hand now, of what it has committed, and of what its looks have shown.
pub fn steps_take_their_call_on<C: Condition<N>, const N: usize>()
    ensures { (seats : ℕ) (history : List (Event C N)) (old new : LockState C N) (view : SeatView C N) (found : Found) (commits : List (Event C N)) (course : Course C N) →
        (step : Step C.means old view found new commits) →
        IsLawful C.means seats history old → SoFar C.means view.seat course step.walk view.held →
        CallGoes C.means view.seat (row_after (history ++ commits)) (asked_of step.walk) (course_after found commits course) (got_of N step.walk found) step.held }
{}

/// A seat whose call is over owes nobody a wake.
#[tactic(auto, using(crate::proofs::Calls::over_owes_nothing))]
pub fn a_call_that_is_over_owes_nothing<C: Condition<N>, const N: usize>()
    ensures { (seats : ℕ) (history : List (Event C N)) (s : LockState C N) (at : ℕ) (view : SeatView C N) →
        IsLawful C.means seats history s → slice_get s.views at ≡ Some view → view.walk ≡ None → view.owed ≡ [] }
{}

/// A call that wakes commits its event as it takes the waiters: those whom the rule takes from its
/// variable's list, as that stands then, and the others stay there. No other step of it commits
/// anything, or changes a list.
pub fn wakes_take_whom_the_rule_takes<C: Condition<N>, const N: usize>()
    ensures { (seats : ℕ) (history : List (Event C N)) (old new : LockState C N) (view : SeatView C N) (found : Found) (commits : List (Event C N)) (waking : Waking) (k : ℕ) →
        (step : Step C.means old view found new commits) →
        IsLawful C.means seats history old → asked_of step.walk ≡ Wake waking k →
        ((commits ≡ []) × (new.lists ≡ old.lists))
        ⊎ ((commits ≡ wake_of view.seat waking k (taken_by waking (waiters_of old.lists (Cv k))) ∷ []) × (waiters_of new.lists (Cv k) ≡ kept_by waking (waiters_of old.lists (Cv k)))) }
{}

/// A look goes by what may end the wait that was asked, and knows whether that has come back.
#[tactic(auto, using(crate::proofs::Calls::looks_by_asked))]
pub fn looks_are_by_the_limits_asked<C: Condition<N>, const N: usize>()
    ensures { (walk : Walk C) (limits : Limits) (again : Bool) → want_of walk ≡ Look limits again →
        (wait : Wait C) × (asked_of walk ≡ Await wait) × (wait.limits ≡ limits) × (again ≡ has_come_back walk) }
{}

/// A wait that something may end early looks each time that it finds its flag still set, until it is
/// woken or begins to leave.
pub fn limited_waits_look_while_they_wait<C: Condition<N>, const N: usize>()
    ensures { (wait : Wait C) → is_limited wait.limits ≡ true →
        (next : Walk C) × (place_after (got_of N (InWait wait AwaitWakeInWait) (Flag 1)) ≡ Some next) × (want_of next ≡ Look wait.limits false) }
{}

/// Only who has found in its flag that it was taken from the lock list acquires as woken, by a value of 0
/// or above 5: not who has left a list by itself, and not who was taken from a variable's list
/// (`wakes_tell_where_they_come_from`).
#[tactic(auto, using(crate::proofs::Calls::woken_was_called))]
pub fn only_the_called_acquire_as_woken<C: Condition<N>, const N: usize>()
    ensures { (walk : Walk C) (found : Found) → was_woken (place_after (got_of N walk found)) ≡ true →
        (was_woken (Some walk) ≡ true) ⊎ ((value : ℕ) × (want_of walk ≡ LoadFlag) × (found ≡ Flag value) × ((value ≡ 0) ⊎ (5 < value))) }
{}

/// A wake that is owed to one that was taken from the lock list stores what tells of that, and one that
/// is owed to one that was taken from the lists of variables what doesn't; neither stores 1.
#[tactic(auto, using(crate::proofs::Calls::owed_tells))]
pub fn wakes_tell_where_they_come_from<C: Condition<N>, const N: usize>()
    ensures { (seats : ℕ) (history : List (Event C N)) (s : LockState C N) (at : ℕ) (view : SeatView C N) →
        IsLawful C.means seats history s → slice_get s.views at ≡ Some view → Every (Tells (calls_from_lock view.walk)) view.owed }
{}

/// Who waits, and finds its flag cleared, is told what is so: a wait for variables was woken by one of
/// them, and finds its number in one of two values, of which the one or the other says from where it was
/// taken (`wakes_tell_where_they_come_from`, `wakes_are_paid_as_owed`). Any other was taken from the lock
/// list, where nobody had moved it, and finds 0.
pub fn the_taken_are_told_what_is_so<C: Condition<N>, const N: usize>()
    ensures { (seats : ℕ) (history : List (Event C N)) (s : LockState C N) (seat : ℕ) → IsLawful C.means seats history s →
        s.flags seat ≢ 1 → IsToldSo (waits_in (walk_at seat s.views)) ((standing_after history).phases seat) (s.flags seat) }
{}

/// Who pays a wake pays the first that it owes: it stores what that tells into the flag of that seat, and
/// owes the others still.
#[tactic(auto, using(crate::proofs::Paid::pays_first))]
pub fn wakes_are_paid_as_owed<C: Condition<N>, const N: usize>()
    ensures { (old new : LockState C N) (view : SeatView C N) (found : Found) (commits : List (Event C N)) (step : Step C.means old view found new commits) → want_of step.walk ≡ PayWake →
        (wake : Owed) × (view.owed ≡ wake ∷ step.owed) × (new.flags wake.seat ≡ wake.value) }
{}

/// Who finds its flag cleared goes to acquire: as woken where it is 0 or above 5, else fresh.
#[tactic(auto, using(crate::proofs::Wakings::woken_acquires))]
pub fn who_was_woken_goes_to_acquire<C: Condition<N>, const N: usize>()
    ensures { (walk : Walk C) (flag : ℕ) → want_of walk ≡ LoadFlag → flag ≢ 1 →
        (aim : Aim C) × (arrival : Arrival) × (got_of N walk (Flag flag) ≡ On (InAcquire aim (AcquireLoad arrival))) × (is_woken arrival ≡ ((flag == 0) || nat_lt 5 flag)) }
{}

/// Who waits for the lock remembers how often it has failed: it waits with the tries with which it
/// has queued, and is woken with those.
#[tactic(auto, using(crate::proofs::Wakings::tries_kept))]
pub fn failed_tries_are_remembered<C: Condition<N>, const N: usize>()
    ensures queues { (aim : Aim C) (arrival : Arrival) (last : Word) → got_of N (InAcquire aim (Queue arrival last)) Made ≡ On (InAcquire aim (AwaitWake (tries_of arrival))) }
    ensures woken { (aim : Aim C) (tries flag : ℕ) → ((flag ≡ 0) ⊎ (5 < flag)) → got_of N (InAcquire aim (AwaitWake tries)) (Flag flag) ≡ On (InAcquire aim (AcquireLoad (AsWoken tries))) }
{}

/// A try is busy only where it has found a word by which it may not acquire, or its exchange has found
/// another word than the one last seen.
#[tactic(auto, using(crate::proofs::Wakings::busy_why))]
pub fn tries_are_busy_for_a_reason<C: Condition<N>, const N: usize>()
    ensures { (mode : Mode) (place : TryPlace) (found : Found) → got_of {C = C} N (InTry mode place) found ≡ Done Busy →
        (word : Word) × (found ≡ Saw word) × ((may_acquire mode AsFresh word ≡ false) ⊎ ((last : Word) × (place ≡ TryAcquire last))) }
{}

/// A look that shows what ends its wait ends it: the wait answers that, or goes on with that kept.
#[tactic(auto, using(crate::proofs::Wakings::shown_ends))]
pub fn a_shown_cause_ends_the_wait<C: Condition<N>, const N: usize>()
    ensures { (walk : Walk C) (limits : Limits) (again : Bool) (cause : Cause) → want_of walk ≡ Look limits again →
        (got_of N walk (Looked (Some cause)) ≡ Done (Answered (answer_of cause)))
        ⊎ ((next : Walk C) × (place_after (got_of N walk (Looked (Some cause))) ≡ Some next) × (cause_kept next ≡ Some cause)) }
{}

/// What a look has shown isn't forgotten: a wait for a condition that keeps a cause is over with its next
/// step, by what that cause answers or because its condition is met; or it goes on at a place that keeps
/// the cause.
pub fn a_kept_cause_is_answered<C: Condition<N>, const N: usize>()
    ensures { (walk : Walk C) (found : Found) (cause : Cause) (wait : Wait C) (c : C) →
        asked_of walk ≡ Await wait → wait.on ≡ OnCondition c → cause_kept walk ≡ Some cause →
        (got_of N walk found ≡ Done (Answered Met))
        ⊎ ((got_of N walk found ≡ Done (Answered (answer_of cause)))
        ⊎ ((next : Walk C) × (place_after (got_of N walk found) ≡ Some next) × (cause_kept next ≡ Some cause))) }
{}

/// Readers join readers where nobody waits who keeps them out; and while a writer waits, a fresh
/// reader stands back.
#[tactic(auto, using(crate::proofs::Wakings::readers_join, crate::proofs::Wakings::readers_stand_back))]
pub fn readers_join_and_stand_back<C: Condition<N>, const N: usize>()
    ensures join { (arrival : Arrival) (word : Word) → word.write ≡ false → word.writer_waits ≡ false → word.long ≡ false → may_acquire Read arrival word ≡ true }
    ensures back { (word : Word) → word.writer_waits ≡ true → may_acquire Read AsFresh word ≡ false }
{}
