//! What a step does to the histories of a world, what the answer of a call means, and what a new world is.

ghost use Rattle.std.specs.Prelude.{◌≡◌, ◌≤◌, ℕ, false, true, List, None, Some, length, slice_index};
ghost use Rattle.ns_world.specs.Prelude.{AnswersCall, Call, HasLedTo, IsLawfulWhole, Past, Reply, Step, Whole, WholeStep, fresh_whole, held_at};
ghost use Rattle.ns_world.specs.Among.{LooksOn, is_for_any};
ghost use Rattle.ns_world.specs.Meanings.{AnswersOfLock, GoesOnBy, GoesOnInRound, IsUntouched, LeadsOn, RunsCall, SaysOfRead, SaysOfRelease, SaysOfTry, SaysOfWait, led_by};
ghost use Rattle.ns_world.specs.Moves.{GoesRound, ObjectsSteps};
ghost use Rattle.ns_world.specs.Names.{AreAsAsked, Await, Cause, EnvEvent, Mode, ObjectWalk, Releasing, Round, RoundPlace, Seat, Truths, WaitFor, is_among, items_of, most};
ghost use Rattle.ns_counters.specs.declared.reply.ObjectReply.TheVariants as TheObject;
ghost use Rattle.ns_env.specs.declared.next.Next.TheVariants as TheNext;
ghost use Rattle.ns_word.specs.declared.request.Request.TheVariants as TheRequest;

use ns_model::condition::Condition;

/// The clock and the notes of a world have one history, and so have its counters and once cells. Both
/// only grow: what has led to a world, with the events of its next step behind it, has led to the
/// world after that step. These events are those of the seat that steps.
pub fn steps_extend_the_histories<C: Condition<N>, const N: usize>()
    ensures { (past : Past) (old new : Whole C N) (seat : ℕ) (step : Step) →
        IsLawfulWhole old → HasLedTo past old → (made : WholeStep old new seat step) → LeadsOn past old new seat step made }
{}

/// Whatever others do between the beginning of a call and the step that finishes it, its answer means
/// what it says: of the section that the seat had in hand before and of the one
/// that it has after, of what the call has committed, which is just what the seat has added to the
/// history, and of what has happened to the clock and the notes, and to the counters and once cells,
/// since the call began.
pub fn calls_mean_what_they_answer<C: Condition<N>, const N: usize>()
    ensures { (n seat : ℕ) (before begun last after : Whole C N) (earlier : Past) (call : Call C) (reply : Reply) →
        (run : RunsCall n seat before begun last after earlier call reply) → HasLedTo (led_by run) after × AnswersCall before earlier seat call reply after (led_by run) }
{}

/// Of the round that a wait for any of several makes with its section in hand, where it names a condition variable: no
/// step leads back, to the clock, with which a round begins, or to an object before the one that it looked at.
pub fn waits_for_variables_make_one_round<C: Condition<N>, const N: usize>()
    ensures { (old new : Whole C N) (here next : Seat C N) (step : Step) (steps : ObjectsSteps old new here next step) (round again : Round) (place behind : RoundPlace) (k : ℕ) →
        GoesOnInRound steps round place again behind → is_among k (items_of round.items) ≡ true → (again ≡ round) × LooksOn place behind }
{}

/// A round by which a wait looks ends that wait where it has shown a place, which the wait keeps: the wait goes on as
/// one whose look has shown a cause. Where the round has shown nothing, it goes on as one whose look has shown nothing.
pub fn rounds_end_waits_by_what_they_show<C: Condition<N>, const N: usize>()
    ensures shown { (old new : Whole C N) (here next : Seat C N) (step : Step) (round : GoesRound old new here next step) (place : ℕ) →
        round.leads ≡ TheNext.Done (TheObject.Number place) → (cause : Cause) × GoesOnBy round (Some place) (Some cause) }
    ensures nothing { (old new : Whole C N) (here next : Seat C N) (step : Step) (round : GoesRound old new here next step) (walk : ObjectWalk) →
        round.leads ≡ TheNext.Idle walk → GoesOnBy round None None }
{}

/// What the replies of calls on the lock say of the section in hand: of a try, of a release, of a cell that is read, and
/// of a wait for a condition or for one variable.
pub fn replies_tell_of_the_section<C: Condition<N>, const N: usize>()
    ensures tried { (before after : Whole C N) (earlier later : List EnvEvent) (seat : ℕ) (mode : Mode) (reply : Reply) →
        AnswersOfLock before earlier seat (TheRequest.TryLock mode) reply after later → SaysOfTry mode reply (held_at before seat) (held_at after seat) }
    ensures released { (before after : Whole C N) (earlier later : List EnvEvent) (seat : ℕ) (kind : Releasing) (reply : Reply) →
        AnswersOfLock before earlier seat (TheRequest.Release kind) reply after later → SaysOfRelease kind reply (held_at before seat) (held_at after seat) }
    ensures read { (before after : Whole C N) (earlier later : List EnvEvent) (seat i : ℕ) (reply : Reply) →
        AnswersOfLock before earlier seat (TheRequest.Get i) reply after later → SaysOfRead i reply (held_at after seat) }
    ensures waited { (before after : Whole C N) (earlier later : List EnvEvent) (seat : ℕ) (wait : WaitFor C) (reply : Reply) →
        is_for_any wait.on ≡ false → (answers : AnswersOfLock before earlier seat (Await wait) reply after later) → SaysOfWait seat wait answers.course reply after }
{}

/// A new world has the counters and once cells that were asked for, each counter with its value. Nothing has happened to
/// its row and its variables, its clock and notes, its counters and once cells.
pub fn new_worlds_are_as_they_were_asked_for<C: Condition<N>, const N: usize>()
    ensures asked { (truths : Truths C) (seats : ℕ) (counters : List ℕ) (onces : ℕ) →
        let world : Whole C N = fresh_whole truths seats counters onces in AreAsAsked seats counters onces world.objects.setup }
    ensures untouched { (truths : Truths C) (seats : ℕ) (counters : List ℕ) (onces : ℕ) → seats ≤ 64 → length counters ≤ 16 → onces ≤ 16 → ((k : ℕ) → slice_index counters k ≤ most) →
        IsUntouched (fresh_whole {N = N} truths seats counters onces) }
{}
