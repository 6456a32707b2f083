//! The look that a walk wants next, told by its place alone: each step of a seat asks for it, and the act that the
//! walk wants is large.

ghost use Rattle.std.specs.Prelude.{◌≡◌};
ghost use Rattle.ns_world.specs.Prelude.{came_back, look_in, want_of, want_queuing, want_waiting};

use crate::room::Seated;
use ns_env::limits::Limits;
use ns_word::wait::{QueuePlace, Wait, WaitPlace};
use ns_word::walk::Walk;

/// A look of a wait: what it goes by, and whether the wait has come back.
#[derive(Clone, Copy)]
pub(crate) struct Look {
    pub(crate) limits: Limits,
    pub(crate) again: bool,
}

/// The look that a wait wants which is about to queue.
fn queuing_look<C: Seated<N>, const N: usize>(
    wait: &Wait<C>,
    again: bool,
    place: &QueuePlace,
) -> Option<Look>
    ensures { result ≡ look_in (want_queuing wait.now again place.now) }
{
    match place {
        QueuePlace::LookIn => Some(Look {
            limits: wait.limits,
            again,
        }),
        QueuePlace::Load => None,
        QueuePlace::Take(_) => None,
        QueuePlace::ArmToWait(_) => None,
        QueuePlace::LoadToScan(_, _) => None,
        QueuePlace::QueueToWait(_) => None,
    }
}

/// The look that a wait wants at this place.
fn waiting_look<C: Seated<N>, const N: usize>(wait: &Wait<C>, place: &WaitPlace) -> Option<Look>
    ensures { result ≡ look_in (want_waiting wait.now place.now) }
{
    match place {
        WaitPlace::LookOut => Some(Look {
            limits: wait.limits,
            again: false,
        }),
        WaitPlace::InQueuing(again, at) => queuing_look(wait, *again, at),
        WaitPlace::TestCells(_, _) => None,
        WaitPlace::TestLast(_, _) => None,
        WaitPlace::PayInWait => None,
        WaitPlace::AwaitWakeInWait => None,
        WaitPlace::InLeaving(_, _) => None,
    }
}

/// The look that the walk wants next, if it wants one.
pub(crate) fn wanted_look<C: Seated<N>, const N: usize>(walk: &Walk<C>) -> Option<Look>
    ensures { result ≡ look_in (want_of walk.now) }
{
    match walk {
        Walk::InWait(wait, place) => waiting_look(wait, place),
        Walk::InTry(_, _) => None,
        Walk::InAcquire(_, _) => None,
        Walk::InRelease(_, _) => None,
        Walk::InCells(_) => None,
        Walk::InSignal(_, _, _) => None,
        Walk::InShow(_) => None,
    }
}

/// Whether the walk wants a look next, of a wait that has come back.
pub(crate) fn came_back<C: Seated<N>, const N: usize>(walk: &Walk<C>) -> bool
    ensures { result ≡ came_back (want_of walk.now) }
{
    match wanted_look(walk) {
        Some(look) => look.again,
        None => false,
    }
}
