//! The run of a seed: the script's own schedule, and then turns that the seed draws, until nobody can go on.

ghost use Rattle.std.specs.Prelude.{◌≡◌, ◌≢◌, ◌≤◌, ◌<◌, ◌+◌, ◌++◌, ◌∷◌, [], All, IfOk, IfErr, OnOk, ◌||◌, if◌then◌else◌, map, length, true, false};
ghost use Rattle.ns_world.specs.Runs.{IsCounted, ListFits, Stops, items_of, progress};
ghost use Rattle.ns_world.specs.Whole.{whole_of};
ghost use Rattle.ns_replay.specs.Condition.{script_truths};
ghost use Rattle.ns_replay.specs.Runnable.{IsRunnable};
ghost use Rattle.ns_replay.specs.Replaying.{IsRunFault};
ghost use Rattle.ns_replay.specs.Script.{plan_of};
ghost use Rattle.ns_outcomes.specs.Drawn.{AreFewest, HasBegun, HasDrawn, IsDrawingFault, IsDrawn, TurnStands, drawing_fault, first_standing, first_standings, stage_of};
ghost use Rattle.ns_outcomes.specs.Outcomes.{IsDrawFault};
ghost use Rattle.ns_outcomes.specs.declared.standing.Standing.TheVariants.{Going, Over};

use crate::choosing::pick;
use crate::standing::{Made, Standing, stand};
use ns_replay::{Fault, Script, ScriptCondition};
use ns_word::word::Word;
use ns_world::call::Call;
use ns_world::fault::Fault as Refused;
use ns_world::observer::Nobody;
use ns_world::run::{Tally, next_call};
use ns_world::schedule::Turn;
use ns_world::step::Step;
use ns_world::world::World;
use rand_core::SeedableRng;
use rand_core::utils::NextWord;
use rand_pcg::Pcg32;
use std::alloc::{AllocError, Global};

/// How far a run has come whose schedule is drawn.
#[derive(Drop)]
pub struct Drawing {
    /// The world of the run.
    pub world: World<ScriptCondition, 8>,
    /// Its calls that are over, and its turns.
    pub tally: Tally,
    /// Where its threads stand.
    pub standings: Vec<Standing>,
    /// The words that spell the drawn turns.
    pub words: Vec<Turn>,
}

/// Where a thread stands before a turn is drawn, by whether a call of it is in progress, and whether one is left.
fn first_standing(is_busy: bool, has_next: bool) -> Standing
    ensures { result ≡ (if is_busy || has_next then Going else Over) }
{
    if is_busy || has_next {
        Standing::Going
    } else {
        Standing::Over
    }
}

/// Where the threads stand before a turn is drawn.
fn first_standings(
    alloc: Global,
    world: &World<ScriptCondition, 8>,
    threads: &[Vec<Call<ScriptCondition>>],
    tally: &Tally,
) -> Result<Vec<Standing>, AllocError>
    requires { length threads.now ≤ 64 }
    ensures { IfOk result (λ standings. standings.items ≡ first_standings (map (λ calls. calls.items) threads.now) (progress (whole_of script_truths world.now) tally.now.over tally.now.lines.items)) }
{
    let busy = world.state().busy;
    let mut standings = Vec::new(alloc);
    for thread in 0..threads.len() as u8 {
        let next = next_call(threads, thread, tally.over[thread as usize]);
        standings.push(first_standing(busy.contains(thread), next.is_some()))?;
    }
    Ok(standings)
}

/// What the fault of a run comes to. Every thread has a seat, so that but for the limit only memory can be refused.
fn fault_of(refused: Refused) -> Fault
    ensures { result ≡ drawing_fault refused }
{
    match refused {
        Refused::StepLimit => Fault::StepLimit,
        Refused::NoSuchSeat | Refused::TooManySeats | Refused::OutOfMemory => Fault::OutOfMemory,
    }
}

/// Makes the script's own schedule in a new world.
fn begin(alloc: Global, script: &Script, limit: u32) -> Result<Drawing, Fault>
    requires { IsRunnable (plan_of script.now) }
    ensures ok { IfOk result (λ drawing. HasBegun limit (plan_of script.now) (stage_of drawing) drawing.tally.turns) }
    ensures counted { IfOk result (λ drawing. IsCounted (whole_of script_truths drawing.world) drawing.tally.over) }
    ensures unspelled { IfOk result (λ drawing. drawing.words.items ≡ []) }
    ensures few { IfOk result (λ drawing. length drawing.standings.items ≤ 64) }
    ensures err { IfErr result (λ fault. IsRunFault limit (plan_of script.now) fault) }
{
    let threads = script.threads.as_slice();
    let mut world = World::new(
        alloc,
        threads.len(),
        &script.counters,
        script.onces as usize,
    )?;
    let mut tally = Tally::new(alloc);
    if let Err(refused) = world.follow(threads, &mut tally, &script.schedule, limit, &mut Nobody) {
        return Err(fault_of(refused));
    }
    let standings = first_standings(alloc, &world, threads, &tally)?;
    Ok(Drawing {
        world,
        tally,
        standings,
        words: Vec::new(alloc),
    })
}

/// Whether two lock words differ.
fn differ(old: Word, new: Word) -> bool
    ensures same { result ≡ false → new ≡ old }
    ensures other { result ≡ true → new ≢ old }
{
    !old.is_same(new)
}

/// Makes a turn of the thread, and tells where the threads stand after it.
fn make_turn(
    drawing: &mut Drawing,
    threads: &[Vec<Call<ScriptCondition>>],
    thread: u8,
    limit: u32,
) -> Result<Step, Refused>
    requires lists { All (λ calls. ListFits 8 calls.items) threads.now }
    requires thread { thread < 64 }
    requires counted { IsCounted (whole_of script_truths drawing.old.world) drawing.old.tally.over }
    requires turns { drawing.old.tally.turns ≤ limit }
    ensures ok { IfOk result (λ step. TurnStands (map (λ calls. calls.items) threads.now) (stage_of drawing.old) (record { seat = thread; step = step }) (stage_of drawing.new)) }
    ensures counted { OnOk result (IsCounted (whole_of script_truths drawing.new.world) drawing.new.tally.over) }
    ensures turns { OnOk result ((drawing.new.tally.turns ≡ drawing.old.tally.turns + 1) × (drawing.new.tally.turns ≤ limit)) }
    ensures unspelled { drawing.new.words ≡ drawing.old.words }
    ensures many { OnOk result (length drawing.new.standings.items ≡ length drawing.old.standings.items) }
    ensures err { IfErr result (λ fault. Stops (map (λ calls. calls.items) threads.now) limit (stage_of drawing.old).progress drawing.old.tally.turns (record { seat = thread; whole = false } ∷ []) (stage_of drawing.new).progress drawing.new.tally.turns fault) }
{
    let word = drawing.world.word();
    let step = drawing
        .world
        .counted_turn(threads, &mut drawing.tally, thread, limit, &mut Nobody)?;
    let made = Made {
        step,
        changed: differ(word, drawing.world.word()),
        more: next_call(threads, thread, drawing.tally.over[thread as usize]).is_some(),
    };
    stand(&mut drawing.standings, thread as usize, made);
    Ok(step)
}

/// Puts a turn of the thread behind the words: one word has all turns that a thread takes in a row.
fn push_word(words: &mut Vec<Turn>, thread: u8) -> Result<(), AllocError>
    ensures spelled { OnOk result (items_of words.new.items ≡ items_of words.old.items ++ record { seat = thread; whole = false } ∷ []) }
    ensures fewest { OnOk result (AreFewest words.old.items → AreFewest words.new.items) }
{
    let mut times = 1;
    if let Some(last) = words.pop() {
        if last.thread == thread && !last.whole && last.times < 1_000_000 {
            times = last.times + 1;
        } else {
            words.push(last)?;
        }
    }
    words.push(Turn {
        thread,
        whole: false,
        times,
    })?;
    Ok(())
}

/// Draws turns and makes them, until nobody can go on.
fn draw_turns(
    drawing: &mut Drawing,
    threads: &[Vec<Call<ScriptCondition>>],
    draws: &mut Pcg32,
    limit: u32,
) -> Result<(), Fault>
    requires lists { All (λ calls. ListFits 8 calls.items) threads.now }
    requires counted { IsCounted (whole_of script_truths drawing.old.world) drawing.old.tally.over }
    requires turns { drawing.old.tally.turns ≤ limit }
    requires unspelled { drawing.old.words.items ≡ [] }
    requires few { length drawing.old.standings.items ≤ 64 }
    ensures ok { OnOk result (HasDrawn (map (λ calls. calls.items) threads.now) limit draws.old (stage_of drawing.old) drawing.old.tally.turns drawing.new.words.items (stage_of drawing.new) drawing.new.tally.turns) }
    ensures err { IfErr result (λ fault. IsDrawingFault (map (λ calls. calls.items) threads.now) limit draws.old (stage_of drawing.old) drawing.old.tally.turns fault) }
{
    while let Some(thread) = pick(&drawing.standings, draws.next_word()) {
        if let Err(refused) = make_turn(drawing, threads, thread as u8, limit) {
            return Err(fault_of(refused));
        }
        push_word(&mut drawing.words, thread as u8)?;
    }
    Ok(())
}

/// Makes the run of a seed.
pub fn draw(alloc: Global, script: &Script, seed: u64, limit: u32) -> Result<Drawing, Fault>
    requires { IsRunnable (plan_of script.now) }
    ensures ok { IfOk result (λ drawing. IsDrawn limit (plan_of script.now) seed drawing.words.items (stage_of drawing) drawing.tally.turns) }
    ensures err { IfErr result (λ fault. IsDrawFault limit (plan_of script.now) seed fault) }
{
    let mut drawing = begin(alloc, script, limit)?;
    let mut draws = Pcg32::seed_from_u64(seed);
    draw_turns(&mut drawing, &script.threads, &mut draws, limit)?;
    Ok(drawing)
}
