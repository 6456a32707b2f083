//! What of a run is drawn: each turn that changed something, or ended a call.

ghost use Rattle.std.specs.Prelude.{◌≡◌, IsTrue, OnErr, OnOk, Some, true};
ghost use Rattle.ns_replay.specs.declared.condition.ScriptCondition.{ScriptCondition};
ghost use Rattle.ns_world.specs.Seen.{seen_as};
ghost use Rattle.ns_world.specs.World.{Kept};
ghost use Rattle.ns_timeline.specs.Records.{Draws, reply_in};

use crate::paper::{Change, Paper};
use crate::sight::{Sight, both, only};
use ns_model::seats::Seats;
use ns_replay::ScriptCondition;
use ns_word::word::Word;
use ns_world::call::Call;
use ns_world::observer::Observer;
use ns_world::reply::Reply;
use ns_world::step::Step;
use ns_world::world::World;
use std::alloc::AllocError;

/// A drawing of a run, as far as that has come.
#[derive(Drop)]
pub struct Drawing<P> {
    /// Where it is drawn.
    pub paper: P,
    /// What is seen.
    pub sight: Sight,
    /// The lock word when that was seen.
    pub word: Word,
}

impl<P> Drawing<P> {
    /// A drawing on this paper, of which no turn is made.
    pub fn new(paper: P) -> Drawing<P>
        ensures { result.paper ≡ paper }
    {
        Drawing {
            paper,
            sight: Sight::new(),
            word: Word::FREE,
        }
    }
}

/// Whether the thread's call was in progress before this step, and has to wait: such a step has only loaded,
/// or failed to exchange, and changed nothing that is seen. No lemma says so; without this shortcut the
/// picture is the same on every row of ns_tests.
fn is_waiting(seen: &Sight, thread: u8, step: Step) -> bool {
    matches!(step, Step::Idle) && both(seen.busy, only(thread)) != Seats::none()
}

/// Whether the step can't have changed what is seen, of which to ask the world would take most of the time of a
/// run that waits: the thread's call was in progress before and still is, the lock word is the same, nobody has
/// the waiter queues in hand, and nobody is owed a wake. So who holds the lock and who stands in which list is
/// as before, since a list changes only with the queues in a hand.
fn is_as_seen<P>(drawing: &Drawing<P>, word: Word, thread: u8, step: Step) -> bool {
    let sight = &drawing.sight;
    matches!(step, Step::Went)
        && both(sight.busy, only(thread)) != Seats::none()
        && sight.owed == Seats::none()
        && !word.spin
        && word == drawing.word
}

/// The answer by which a step has ended its call.
fn reply_in(step: Step) -> Option<Reply>
    ensures { result ≡ reply_in step }
{
    match step {
        Step::Finished(reply) => Some(reply),
        Step::Went | Step::Idle | Step::Nothing => None,
    }
}

/// Draws a turn of the thread's call, if it changed something, or the call is over.
fn draw<P: Paper>(
    drawing: &mut Drawing<P>,
    world: &World<ScriptCondition, 8>,
    turn: u32,
    thread: u8,
    call: Call<ScriptCondition>,
    step: Step,
) -> Result<(), AllocError>
    ensures { OnOk result ((before : Kept ScriptCondition 8) → Draws P.keeps drawing.old (seen_as turn thread (Some call) before world.now step) drawing.new) }
{
    let word = world.word();
    if is_waiting(&drawing.sight, thread, step) || is_as_seen(drawing, word, thread, step) {
        return Ok(());
    }
    let state = world.state();
    let before = drawing.sight;
    let after = before.after(&state, thread);
    let reply = reply_in(step);
    drawing.word = word;
    drawing.sight = after;
    if after == before && reply.is_none() {
        return Ok(());
    }
    drawing.paper.take(&Change {
        turn,
        thread,
        call,
        before,
        after,
        row: state.row,
        reply,
    })?;
    Ok(())
}

impl<P: Paper> Observer<World<ScriptCondition, 8>, Call<ScriptCondition>> for Drawing<P> {
    ghost can_refuse = { true };

    ghost sees = { Draws P.keeps };

    fn see(
        &mut self,
        world: &World<ScriptCondition, 8>,
        turn: u32,
        seat: u8,
        call: Option<Call<ScriptCondition>>,
        step: Step,
    ) -> Result<(), AllocError>
        ensures ok { OnOk result ((before : Kept ScriptCondition 8) → Draws P.keeps self.old (seen_as turn seat call before world.now step) self.new) }
        ensures err { OnErr result (IsTrue true) }
    {
        // A thread with no call left changes nothing.
        match call {
            Some(call) => draw(self, world, turn, seat, call, step),
            None => Ok(()),
        }
    }
}
