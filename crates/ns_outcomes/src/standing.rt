//! Where the threads of a drawn run stand: which can go on, and which have found nothing to go on with.
//!
//! A call that has to wait looks at one thing after another (a flag, the clock, a note, a counter), and says that
//! it is idle where the last has shown nothing. A look may leave something that another call sees: the first one of
//! `cwait` leaves a mark at its counter. But no call waits for that.
//!
//! A turn stirs where it ends a call, or makes a step, not an idle one, of a call that isn't waiting. A call that
//! was idle is waiting until a step of its own changes the lock word, and that step stirs. What ends a wait either
//! ends the call, or changes the lock word next, so it stirs too.
//!
//! So a thread is stuck once it has been idle twice since a turn last stirred: all that it looked at in between, it
//! would find the same again.

ghost use Rattle.std.specs.Prelude.{◌≡◌, map};
ghost use Rattle.ns_outcomes.specs.Standings.{can_go, stirs, stirred, stands_after, stood};

use ns_world::step::Step;

/// Where a thread stands.
#[derive(Clone, Copy, Debug, PartialEq, Eq)]
pub enum Standing {
    /// A call of it is in progress or still to begin, and doesn't count as waiting.
    Going,
    /// It has been idle, but not since a turn last stirred.
    Waiting,
    /// It has been idle once since a turn last stirred.
    Tried,
    /// It has been idle twice since a turn last stirred. It can't go on before one stirs again.
    Stuck,
    /// It has ended its calls.
    Over,
}

/// A turn that a thread made.
#[derive(Clone, Copy, Debug, PartialEq, Eq)]
pub struct Made {
    /// What the turn was.
    pub step: Step,
    /// Whether it changed the lock word.
    pub changed: bool,
    /// Whether a call of the thread is still to end: the one that the turn went on with, or one behind that which it
    /// ended.
    pub more: bool,
}

impl Standing {
    /// Whether the thread can go on.
    pub fn can_go(self) -> bool
        ensures { result ≡ can_go self }
    {
        match self {
            Standing::Going | Standing::Waiting | Standing::Tried => true,
            Standing::Stuck | Standing::Over => false,
        }
    }

    /// Whether a turn stirs, of a thread that stood here.
    fn stirs(self, made: Made) -> bool
        ensures { result ≡ stirs self made }
    {
        match (made.step, self) {
            (Step::Idle | Step::Nothing, _) => false,
            (Step::Finished(_), _) => true,
            (Step::Went, Standing::Going | Standing::Over) => true,
            (Step::Went, Standing::Waiting | Standing::Tried | Standing::Stuck) => made.changed,
        }
    }

    /// Where a thread stands once a turn has stirred.
    fn stirred(self) -> Standing
        ensures { result ≡ stirred self }
    {
        match self {
            Standing::Tried | Standing::Stuck => Standing::Waiting,
            Standing::Going => Standing::Going,
            Standing::Waiting => Standing::Waiting,
            Standing::Over => Standing::Over,
        }
    }

    /// Where the thread stands after a turn of its own.
    fn after(self, made: Made) -> Standing
        ensures { result ≡ stands_after self made }
    {
        match made.step {
            Step::Nothing => Standing::Over,
            Step::Finished(_) if made.more => Standing::Going,
            Step::Finished(_) => Standing::Over,
            Step::Idle => match self {
                Standing::Tried | Standing::Stuck => Standing::Stuck,
                Standing::Going | Standing::Waiting | Standing::Over => Standing::Tried,
            },
            Step::Went if self.stirs(made) => Standing::Going,
            Step::Went => self,
        }
    }
}

/// Whoever was stuck may go on again.
fn stir(standings: &mut [Standing])
    ensures { standings.new ≡ map stirred standings.old }
{
    for standing in standings.iter_mut() {
        *standing = standing.stirred();
    }
}

/// Where the threads stand after a turn of one.
pub fn stand(standings: &mut [Standing], thread: usize, made: Made)
    ensures { standings.new ≡ stood standings.old thread made }
{
    let Some(before) = standings.get(thread).copied() else {
        return;
    };
    if before.stirs(made) {
        stir(standings);
    }
    standings[thread] = before.after(made);
}
