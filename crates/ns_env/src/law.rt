//! The law of the steps on a clock and notes, and what calls on them answer. Each function is a
//! theorem: its clause holds, and it does nothing.

ghost use Rattle.std.specs.Prelude.{List, Option, Some, [], if◌then◌else◌, slice_get, ℕ, ◌++◌, ◌+◌, ◌<◌, ◌≡◌, ◌≢◌};
ghost use Rattle.ns_env.specs.Prelude.{BeginsWith, CanAct, Chain, ChainFits, Clock, ClockLoad, Done, EnvAct, EnvBegins, EnvCourse, EnvEvent, EnvFound, EnvGoes, EnvPlain, EnvSoFar, EnvState, EnvStep, EnvView, EnvWalk, Expiry, ExpiryLoad, HasActed, IsFirstAsk, IsLawful, IsLawfulEnv, IsMade, Meets};
ghost use Rattle.ns_env.specs.Prelude.{Note, NoteLoad, NoteStanding, NoteWord, On, Over, ViewFits, acted, adds, env_after, env_asked_of, env_course_after, env_course_at, env_got_of, events_of, expiry_of, fresh_asks, fresh_plain, is_notified, looked, making_after, outcome, passed, place_after};
ghost use Rattle.ns_env.specs.Prelude.{standing_of, stopped};

/// A step that its caller may make keeps the law, and what has happened by it comes to the history.
/// Of the other seats so many go to take a number.
pub fn a_step_keeps_the_law()
    ensures { (seats others : ℕ) (plain : EnvPlain) (history : List EnvEvent) (view : EnvView) (act : EnvAct) →
        others < seats → IsLawful seats plain (others + adds view.making) history → ViewFits seats history view → CanAct (env_after view.seen) view.making act →
        IsLawful seats (outcome view.seat act plain).plain (others + adds (making_after act plain view.making)) (history ++ events_of act plain view) }
{}

/// Who has made a step knows how the clock and the notes stood, what it has done, and what fits the
/// history.
pub fn a_step_tells_its_caller()
    ensures { (seats others : ℕ) (plain : EnvPlain) (history : List EnvEvent) (view : EnvView) (act : EnvAct) →
        others < seats → IsLawful seats plain (others + adds view.making) history → ViewFits seats history view → CanAct (env_after view.seen) view.making act →
        HasActed act plain view (acted act plain history view) × ViewFits seats (history ++ events_of act plain view) (acted act plain history view) }
{}

/// What any other seat knows still fits the history.
pub fn a_step_tells_no_other()
    ensures { (seats others : ℕ) (plain : EnvPlain) (history : List EnvEvent) (view other : EnvView) (act : EnvAct) →
        others < seats → IsLawful seats plain (others + adds view.making) history → ViewFits seats history view → CanAct (env_after view.seen) view.making act →
        other.seat ≢ view.seat → ViewFits seats history other → ViewFits seats (history ++ events_of act plain view) other }
{}

/// A clock at 0 without notes is lawful, with any number of seats of which none goes to take a
/// number.
#[tactic(auto, using(crate::proofs::Begins::new_lawful))]
pub fn a_new_environment_is_lawful()
    ensures { (seats : ℕ) → IsLawful seats fresh_plain 0 [] }
{}

/// The same as plain data, with seats that stand in no call.
pub fn a_fresh_environment_is_lawful()
    ensures { (seats : ℕ) → IsLawfulEnv [] (fresh_asks seats) }
{}

/// A seat that stands in no call on the clock and the notes may begin one whose notes are made:
/// the law stays, with the same events.
pub fn beginning_to_ask_keeps_the_law()
    ensures { (events : List EnvEvent) (old new : EnvState) (seat : ℕ) (walk : EnvWalk) →
        EnvBegins old seat walk new → IsLawfulEnv events old → IsLawfulEnv events new }
{}

/// A step of any seat keeps the law, and the events grow by those of the step.
pub fn asking_keeps_the_law()
    ensures { (events more : List EnvEvent) (old new : EnvState) (seat : ℕ) (found : EnvFound) →
        EnvStep old seat found new more → IsLawfulEnv events old → IsLawfulEnv (events ++ more) new }
{}

/// A chain finds in one go whether its note is notified.
#[tactic(auto, using(crate::proofs::Looks::finds_notified))]
pub fn a_chain_finds_the_notified()
    ensures { (events : List EnvEvent) (plain : EnvPlain) (chain : Chain) (most note : ℕ) →
        Meets events plain → IsMade events note → note < most →
        looked most plain chain note ≡ (if is_notified events note then stopped chain else passed chain plain.clock) }
{}

/// A chain goes on to a note that is made and has a smaller number, so it ends.
#[tactic(auto, using(crate::proofs::Looks::chain_up))]
pub fn a_chain_goes_up()
    ensures { (events : List EnvEvent) (plain : EnvPlain) (chain chain' : Chain) (clock clock' at next : ℕ) (note : NoteWord) →
        Meets events plain → standing_of note ≡ plain.notes at →
        env_got_of (NoteLoad chain clock at) (Note note) ≡ On (NoteLoad chain' clock' next) →
        (next < at) × IsMade events next }
{}

/// A chain begins at the clock that it loads: it goes to its note, or has none and is over at once.
#[tactic(auto, using(crate::proofs::Chains::chain_begins))]
pub fn a_chain_begins_at_its_clock()
    ensures { (now : List EnvEvent) (state : EnvState) (seat : ℕ) (chain : Chain) →
        IsLawfulEnv now state → slice_get state.askings seat ≡ Some (Some (ClockLoad chain)) →
        ChainFits now now chain (env_got_of (ClockLoad chain) (Clock state.plain.clock)) }
{}

/// Whatever happened since its clock was loaded, a chain that loads a note answers rightly or goes
/// on: that its note is notified is so by now, and that it wasn't was so when the clock was
/// loaded, with a deadline that had or hadn't come by then.
#[tactic(auto, using(crate::proofs::Chains::chain_answers))]
pub fn a_chain_answers_rightly()
    ensures { (point now : List EnvEvent) (state : EnvState) (chain : Chain) (clock at : ℕ) (note : NoteWord) →
        IsLawfulEnv now state → BeginsWith now point → ChainFits point now chain (On (NoteLoad chain clock at)) → standing_of note ≡ state.plain.notes at →
        ChainFits point now chain (env_got_of (NoteLoad chain clock at) (Note note)) }
{}

/// What an expiry answers is the earliest deadline from its note up to the root, as it stands.
#[tactic(auto, using(crate::proofs::Looks::expiry_is))]
pub fn an_expiry_is_the_earliest()
    ensures { (events : List EnvEvent) (state : EnvState) (seat asked at : ℕ) (least answer : Option ℕ) (note : NoteWord) →
        IsLawfulEnv events state → slice_get state.askings seat ≡ Some (Some (ExpiryLoad asked at least)) → standing_of note ≡ state.plain.notes at →
        env_got_of (ExpiryLoad asked at least) (Note note) ≡ Done (Over (Expiry answer)) → answer ≡ expiry_of events asked }
{}

/// No step of a call changes what it was asked to do.
pub fn calls_on_notes_stay_what_they_were_asked()
    ensures { (walk next : EnvWalk) (found : EnvFound) →
        place_after (env_got_of walk found) ≡ Some next → env_asked_of next ≡ env_asked_of walk }
{}

/// A call on the clock and the notes, or a look, has done nothing as it begins.
#[tactic(auto, using(crate::proofs::Courses::begins_course))]
pub fn calls_on_notes_begin_with_nothing_done()
    ensures { (events : List EnvEvent) (notes : ℕ → NoteStanding) (seat : ℕ) (walk : EnvWalk) →
        IsFirstAsk notes walk → EnvSoFar events seat (env_course_at events) walk }
{}

/// A step takes its call on: the call is still the one that was asked, and has done what its place
/// tells; or it is over, and its answer means of all that has happened what it says.
pub fn steps_on_notes_take_their_call_on()
    ensures { (events more : List EnvEvent) (old new : EnvState) (seat : ℕ) (found : EnvFound) (course : EnvCourse) →
        (step : EnvStep old seat found new more) →
        IsLawfulEnv events old → EnvSoFar events seat course step.walk →
        EnvGoes (events ++ more) seat (env_asked_of step.walk) (env_course_after more course) (env_got_of step.walk found) }
{}

/// What others do leaves a call where it is.
pub fn steps_of_others_leave_a_call_on_notes()
    ensures { (events more : List EnvEvent) (seat : ℕ) (course : EnvCourse) (walk : EnvWalk) →
        EnvSoFar events seat course walk → EnvSoFar (events ++ more) seat course walk }
{}
