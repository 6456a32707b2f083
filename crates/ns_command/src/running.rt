//! A run of the program, from its words to its end.

ghost use Rattle.std.specs.Io.KnownBytes.{Keeps};
ghost use Rattle.std.specs.Prelude.{◌≡◌, ◌≢◌, ◌⊎◌, [], ℕ, map, true, false, None, string_bytes, IfErr};
ghost use Rattle.clap.specs.Words.{kind_of};
ghost use Rattle.ns_replay.specs.Transfer.{Gave, IsReadFault, IsWriteFault};
ghost use Rattle.ns_replay.specs.Replaying.{Answers, IsText, WasRead};
ghost use Rattle.ns_timeline.specs.Pictures.{IsDrawing, IsPicture};
ghost use Rattle.ns_outcomes.specs.Answers.{Answers as AnswersBy, IsReport, IsScheduled, IsUndrawn, IsUnscheduled};
ghost use Rattle.ns_outcomes.specs.declared.seeds.Seeds.{Seeds};
ghost use Rattle.ns_command.specs.Words.{kinds_of};
ghost use Rattle.ns_command.specs.Answers.{ByAnswer};
ghost use Rattle.ns_command.specs.Asked.{asked_by};
ghost use Rattle.ns_replay.specs.declared.options.Options.{Options};
ghost use Rattle.ns_command.specs.declared.wanted.Wanted.TheVariants as TheWanted;
ghost use Rattle.ns_command.specs.Endings.{Says, Shows, EndsFor, EndsForOneOf, outcome_of, seed_of};

use crate::answer::Answer;
use crate::command::asked;
use crate::ending::Ending;
use crate::finishing::{finish, finish_seeds};
use crate::prints::Prints;
use crate::wanted::Wanted;
use clap::Error;
use clap::error::ErrorKind;
use ns_outcomes::{LastSeed, outcomes, schedule};
use ns_replay::{Fault, Sink, Source, replay};
use ns_timeline::{svg, timeline};
use std::alloc::Global;

/// Ends a run whose words ask for nothing else, by what clap says of them.
fn answered<P: Prints>(printer: &mut P, answer: Error) -> Ending
    ensures told { EndsFor (kind_of answer) result }
    ensures said { let failed = P.has_failed printer.new in
        Says failed (P.errors printer.old) (P.errors printer.new) result }
    ensures shown { Shows (P.output printer.old) (P.output printer.new) result }
    ensures write_fault { result ≡ Ending.Failed Fault.Write
        → P.has_failed_output printer.new ≡ true }
{
    if answer.kind() == ErrorKind::OutOfMemory {
        return finish(printer, Err(Fault::OutOfMemory));
    }
    let is_done = printer.answer(&answer);
    if answer.use_stderr() {
        Ending::Misused
    } else if is_done {
        Ending::HelpShown
    } else {
        finish(printer, Err(Fault::Write))
    }
}

/// Runs the program by its words, the first of which is its name.
///
/// It reads a script from the source, and writes to the sink what the words ask for: the text of its run, a
/// picture or a drawing of that, its outcomes under schedules that seeds draw, or the script with such a schedule.
///
/// Where the words ask for live threads, it answers that, with the number of items, for the caller to make
/// them. Where they are wrong, or ask for help, clap answers them. In both cases the source and the sink
/// stay as they are. The line of a fault goes to the error side; where printing fails there, the ending is the
/// same. Help that can't be printed is a failed write.
///
/// Needs a source and a sink that have not failed.
pub fn run<S: Source, W: Sink, P: Prints>(
    alloc: Global,
    words: &[String],
    source: &mut S,
    sink: &mut W,
    printer: &mut P,
) -> Answer
    requires source { S.has_failed source.old ≡ false }
    requires sink { W.has_failed sink.old ≡ false }
    // The words decide whether a script is run, and else what is said.
    ensures heeded { let kinds = kinds_of (map string_bytes words.now) in
        ByAnswer result (EndsForOneOf kinds) (λ items. kinds ≡ []) }
    ensures unread { kinds_of (map string_bytes words.now) ≢ [] → source.new ≡ source.old }
    ensures unwritten { kinds_of (map string_bytes words.now) ≢ [] → sink.new ≡ sink.old }
    // A replay is made by the options that the words give. Only of outcomes may the ending name a seed.
    ensures replayed { (options : Options) → kinds_of (map string_bytes words.now) ≡ []
        → asked_by (map string_bytes words.now) ≡ TheWanted.Replay options
        → ByAnswer result (λ ending. (seed_of ending ≡ None) × Gave (S.to_come source.old) (S.to_come source.new) (λ bytes.
        WasRead bytes (S.to_come source.new) (outcome_of ending)
        × Answers (W.taken sink.old) (W.taken sink.new) (IsText options) options.limit bytes (outcome_of ending)))
        (λ items. ⊥) }
    // A picture is drawn within the limit that the words give.
    ensures drawn { (limit : ℕ) → kinds_of (map string_bytes words.now) ≡ []
        → asked_by (map string_bytes words.now) ≡ TheWanted.Timeline limit
        → ByAnswer result (λ ending. (seed_of ending ≡ None) × Gave (S.to_come source.old) (S.to_come source.new) (λ bytes.
        WasRead bytes (S.to_come source.new) (outcome_of ending)
        × Answers (W.taken sink.old) (W.taken sink.new) (IsPicture limit) limit bytes (outcome_of ending)))
        (λ items. ⊥) }
    // And so is a drawing made.
    ensures marked { (limit : ℕ) → kinds_of (map string_bytes words.now) ≡ []
        → asked_by (map string_bytes words.now) ≡ TheWanted.Drawing limit
        → ByAnswer result (λ ending. (seed_of ending ≡ None) × Gave (S.to_come source.old) (S.to_come source.new) (λ bytes.
        WasRead bytes (S.to_come source.new) (outcome_of ending)
        × Answers (W.taken sink.old) (W.taken sink.new) (IsDrawing limit) limit bytes (outcome_of ending)))
        (λ items. ⊥) }
    // Each outcome shown is that of a run of the script that was read, within the limit that the words give. A seed
    // that is named is the first whose run needs more.
    ensures drawn_outcomes { (seeds : Seeds) → kinds_of (map string_bytes words.now) ≡ []
        → asked_by (map string_bytes words.now) ≡ TheWanted.Outcomes seeds
        → ByAnswer result (λ ending. Gave (S.to_come source.old) (S.to_come source.new) (λ bytes.
        WasRead bytes (S.to_come source.new) (outcome_of ending)
        × AnswersBy (W.taken sink.old) (W.taken sink.new) (IsReport seeds) (IsUndrawn seeds None (seed_of ending)) bytes (outcome_of ending)))
        (λ items. ⊥) }
    // The script is written with the schedule that the seed draws. A replay of what is written comes to the outcome
    // of that seed's run.
    ensures drawn_schedule { (seed limit : ℕ) → kinds_of (map string_bytes words.now) ≡ []
        → asked_by (map string_bytes words.now) ≡ TheWanted.Schedule seed limit
        → ByAnswer result (λ ending. (seed_of ending ≡ None) × Gave (S.to_come source.old) (S.to_come source.new) (λ bytes.
        WasRead bytes (S.to_come source.new) (outcome_of ending)
        × AnswersBy (W.taken sink.old) (W.taken sink.new) (IsScheduled limit seed) (IsUnscheduled limit seed) bytes (outcome_of ending)))
        (λ items. ⊥) }
    // Live threads are left to the caller, by the number of items that the words give.
    ensures live { (items : ℕ) → kinds_of (map string_bytes words.now) ≡ []
        → asked_by (map string_bytes words.now) ≡ TheWanted.Live items
        → ((result ≡ Answer.LiveAsked items) ⊎ (result ≡ Answer.Ended (Ending.Failed Fault.OutOfMemory)))
        × (source.new ≡ source.old) × (sink.new ≡ sink.old) }
    ensures untouched { ByAnswer result (λ ending. IfErr (outcome_of ending) (λ fault. fault ≢ Fault.Write
        → sink.new ≡ sink.old)) (λ items. sink.new ≡ sink.old) }
    // A read or a write that failed is told, and not tried again.
    ensures failed_read { S.has_failed source.new ≡ true → result ≡ Answer.Ended (Ending.Failed Fault.Read) }
    ensures failed_write { W.has_failed sink.new ≡ true → result ≡ Answer.Ended (Ending.Failed Fault.Write) }
    ensures read_fault { result ≡ Answer.Ended (Ending.Failed Fault.Read)
        → IsReadFault (S.has_failed source.new) (S.asked source.old) (S.asked source.new) }
    ensures write_fault { result ≡ Answer.Ended (Ending.Failed Fault.Write)
        → IsWriteFault (W.has_failed sink.new) (W.stuck sink.old) (W.stuck sink.new)
        ⊎ (P.has_failed_output printer.new ≡ true) }
    // The line of a fault is printed where there is one, at most a text where the words are wrong, and
    // nothing else.
    ensures said { let failed = P.has_failed printer.new in
        ByAnswer result (Says failed (P.errors printer.old) (P.errors printer.new))
        (λ items. Keeps (P.errors printer.old) (P.errors printer.new)) }
    ensures shown { ByAnswer result (Shows (P.output printer.old) (P.output printer.new))
        (λ items. Keeps (P.output printer.old) (P.output printer.new)) }
{
    match asked(alloc, words) {
        Ok(Wanted::Live(items)) => Answer::LiveAsked(items),
        Ok(Wanted::Replay(options)) => {
            let outcome = replay(alloc, source, sink, options);
            Answer::Ended(finish(printer, outcome))
        }
        Ok(Wanted::Timeline(limit)) => {
            let outcome = timeline(alloc, source, sink, limit);
            Answer::Ended(finish(printer, outcome))
        }
        Ok(Wanted::Drawing(limit)) => {
            let outcome = svg(alloc, source, sink, limit);
            Answer::Ended(finish(printer, outcome))
        }
        Ok(Wanted::Outcomes(seeds)) => {
            let mut last = LastSeed(None);
            let outcome = outcomes(alloc, source, sink, seeds, &mut last);
            Answer::Ended(finish_seeds(printer, outcome, last.0))
        }
        Ok(Wanted::Schedule(seed, limit)) => {
            let outcome = schedule(alloc, source, sink, u64::from(seed), limit);
            Answer::Ended(finish(printer, outcome))
        }
        Err(answer) => Answer::Ended(answered(printer, answer)),
    }
}
