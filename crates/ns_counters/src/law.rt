//! The history of each object in that of all, and the law of the steps on them. Each function is a
//! theorem: its clause holds, and it does nothing.

ghost use Rattle.std.specs.Prelude.{◌≡◌, ℕ, ◌<◌, ◌≤◌, ◌≢◌, ◌++◌, List, [], Some, length, slice_get, slice_index, slice_set};
ghost use Rattle.ns_counters.specs.Prelude.{AreAsAsked, CanAct, EnvEvent, EnvPlain, EnvState, Every, HasActed, IsLater, IsLawful, IsLawfulEnv, IsLawfulObjects, IsLegalCounter, IsLegalObjects, IsLegalOnce, Meets, ObjectAct, ObjectEvent, ObjectFound, ObjectGoes, ObjectSoFar, ObjectState, ObjectStep, ObjectView};
ghost use Rattle.ns_counters.specs.Prelude.{ObjectWalk, Past, Setup, ViewFits, WalkFits, acted, counter_after, events_of, first_words, most, object_asked, object_got, object_who, objects_after, objects_own, of_counter, of_once, once_after, outcome, padded, past_and, setup_of, walk_in, word_at};

/// In a legal history of all objects each counter has a legal history of its own, which leaves it as
/// it then stands.
pub fn each_counter_has_a_legal_history()
    ensures { (setup : Setup) (history : List ObjectEvent) (number : ℕ) → IsLegalObjects setup history →
        IsLegalCounter (slice_index setup.starts number) (of_counter number history) × ((objects_after setup history).counters number ≡ counter_after (slice_index setup.starts number) (of_counter number history)) }
{}

/// In a legal history of all objects each once cell has a legal history of its own, which leaves it
/// as it then stands.
pub fn each_cell_has_a_legal_history()
    ensures { (setup : Setup) (history : List ObjectEvent) (number : ℕ) → IsLegalObjects setup history →
        IsLegalOnce (of_once number history) × ((objects_after setup history).onces number ≡ once_after (of_once number history)) }
{}

/// New objects are lawful, before any event, and as they were asked for.
#[tactic(auto, using(crate::proofs::NewObjects::new_lawful, crate::proofs::NewObjects::new_asked))]
pub fn new_objects_are_lawful()
    ensures lawful { (seats : ℕ) (values : List ℕ) (cells : ℕ) → seats ≤ 64 → length values ≤ 16 → cells ≤ 16 → ((number : ℕ) → slice_index values number ≤ most) →
        IsLawful (setup_of seats values cells) (first_words (padded values)) [] }
    ensures asked { (seats : ℕ) (values : List ℕ) (cells : ℕ) → AreAsAsked seats values cells (setup_of seats values cells) }
{}

/// A step that its caller may make keeps the law, and what has happened by it comes to the history.
pub fn a_step_keeps_the_law()
    ensures { (setup : Setup) (words : List ℕ) (history : List ObjectEvent) (view : ObjectView) (act : ObjectAct) →
        IsLawful setup words history → ViewFits setup history view → CanAct setup view.place act →
        IsLawful setup (slice_set words (word_at act) (outcome view.seat act view.place (slice_index words (word_at act))).word) (history ++ events_of act (slice_index words (word_at act)) view) }
{}

/// Who has made a step knows what it has found and done, and what fits the history.
pub fn a_step_tells_its_caller()
    ensures { (setup : Setup) (words : List ℕ) (history : List ObjectEvent) (view : ObjectView) (act : ObjectAct) →
        IsLawful setup words history → ViewFits setup history view → CanAct setup view.place act →
        HasActed act (slice_index words (word_at act)) view (acted act (slice_index words (word_at act)) history view)
        × ViewFits setup (history ++ events_of act (slice_index words (word_at act)) view) (acted act (slice_index words (word_at act)) history view) }
{}

/// What any other seat knows still fits the history.
pub fn a_step_tells_no_other()
    ensures { (setup : Setup) (words : List ℕ) (history : List ObjectEvent) (view other : ObjectView) (act : ObjectAct) →
        IsLawful setup words history → ViewFits setup history view → CanAct setup view.place act →
        other.seat ≢ view.seat → ViewFits setup history other →
        ViewFits setup (history ++ events_of act (slice_index words (word_at act)) view) other }
{}

/// A seat may begin a call at any place that fits: the law stays, with the same events.
#[tactic(auto, using(crate::proofs::Placed::put_keeps))]
pub fn beginning_to_walk_keeps_the_law()
    ensures { (history : List ObjectEvent) (env : EnvPlain) (state : ObjectState) (seat : ℕ) (walk : ObjectWalk) →
        IsLawfulObjects history state env.notes → seat < length state.walks → seat < state.setup.seats → WalkFits state.setup (objects_after state.setup history) env.notes seat walk →
        IsLawfulObjects history (record state { walks = slice_set state.walks seat (Some walk) }) env.notes }
{}

/// A step of any seat's walk keeps the law, and the history grows by the events of the step, which are the seat's.
pub fn walking_keeps_the_law()
    ensures { (history more : List ObjectEvent) (happened : List EnvEvent) (env : EnvPlain) (old new : ObjectState) (seat : ℕ) (walk : ObjectWalk) (found : ObjectFound) →
        Meets happened env → IsLawfulObjects history old env.notes → walk_in old.walks seat ≡ Some walk → ObjectStep env seat walk old found new more →
        IsLawfulObjects (history ++ more) new env.notes × Every (λ event. object_who event ≡ seat) more }
{}

/// A step of a call takes it on: the call goes on as what it was asked, or it is over, and its answer means what it
/// says of what has happened since it began.
pub fn steps_on_objects_take_their_call_on()
    ensures { (earlier now : Past) (seat : ℕ) (events more : List ObjectEvent) (notes : EnvState) (old new : ObjectState) (walk : ObjectWalk) (found : ObjectFound) →
        IsLawfulEnv now.notes notes → IsLawfulObjects now.objects old notes.plain.notes → IsLater earlier now → objects_own now.objects seat ≡ objects_own earlier.objects seat ++ events →
        walk_in old.walks seat ≡ Some walk → ObjectSoFar old.setup earlier now seat events walk → ObjectStep notes.plain seat walk old found new more →
        ObjectGoes old.setup earlier (past_and now (record { notes = []; objects = more })) seat (object_asked walk) (events ++ more) (object_got walk found) }
{}

/// What others do leaves a call where it is.
#[tactic(auto, using(crate::proofs::Courses::so_far_on))]
pub fn steps_of_others_leave_a_call_on_objects()
    ensures { (setup : Setup) (earlier now more : Past) (seat : ℕ) (events : List ObjectEvent) (walk : ObjectWalk) →
        ObjectSoFar setup earlier now seat events walk → ObjectSoFar setup earlier (past_and now more) seat events walk }
{}
