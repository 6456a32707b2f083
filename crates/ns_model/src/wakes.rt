//! Which wakes are legal, by counts over the 64 seats.

ghost use Rattle.std.specs.Prelude.{◌≡◌, ◌<◌, ◌↔◌, IsTrue};
ghost use Rattle.ns_model.specs.Counted.{is_counted};
ghost use Rattle.ns_model.specs.Phases.{count_seats};
ghost use Rattle.ns_model.specs.Histories.{standing_after};
ghost use Rattle.ns_model.specs.Wakes.{IsLegalSignal, IsLegalBroadcast, IsLegalLeave, IsLegalLeaveAny};

use crate::cvs::Cvs;
use crate::event::Event;
use crate::history::phase_of;
use crate::phase::Phase;
use crate::seats::Seats;

/// Whom a count is of, of a variable and of the seats that are woken.
#[derive(Clone, Copy)]
enum Counted {
    /// Those that wait for the variable, as writers or as readers.
    WaitingAs { writes: bool },
    /// Those of them that are woken.
    WokenAs { writes: bool },
    /// The woken that don't wait for it.
    Stranger,
    /// Those that wait for it and aren't woken.
    Left,
}

/// Whether the count is of this seat, which is in this phase.
fn is_counted<C: Copy>(who: Counted, k: u8, woken: Seats, seat: u8, phase: &Phase<C>) -> bool
    requires { seat < 64 }
    ensures { result ≡ is_counted who k woken seat phase.now }
{
    match who {
        Counted::WaitingAs { writes } => phase.is_waiting_as(writes, k),
        Counted::WokenAs { writes } => woken.contains(seat) && phase.is_waiting_as(writes, k),
        Counted::Stranger => woken.contains(seat) && !phase.is_waiting(k),
        Counted::Left => !woken.contains(seat) && phase.is_waiting(k),
    }
}

/// How many of the seats the count is of.
fn count<C: Copy, const N: usize>(who: Counted, k: u8, woken: Seats, past: &[Event<C, N>]) -> u8
    ensures { result ≡ count_seats 64 (is_counted who k woken) (standing_after past.now).phases }
{
    let mut count = 0;
    for seat in 0..64 {
        let phase = phase_of(past, seat);
        if is_counted(who, k, woken, seat, &phase) {
            count += 1;
        }
    }
    count
}

/// Whether a signal may wake these after the past.
pub(crate) fn signal_fits<C: Copy, const N: usize>(
    k: u8,
    woken: Seats,
    past: &[Event<C, N>],
) -> bool
    ensures { IsTrue result ↔ IsLegalSignal k woken (standing_after past.now).phases }
{
    let writers = count(Counted::WokenAs { writes: true }, k, woken, past);
    let readers = count(Counted::WokenAs { writes: false }, k, woken, past);
    let waiting_writers = count(Counted::WaitingAs { writes: true }, k, woken, past);
    let waiting_readers = count(Counted::WaitingAs { writes: false }, k, woken, past);
    count(Counted::Stranger, k, woken, past) == 0
        && (writers == 1 && readers == 0
            || writers == waiting_writers.min(1) && readers == waiting_readers)
}

/// Whether a broadcast may wake these after the past.
pub(crate) fn broadcast_fits<C: Copy, const N: usize>(
    k: u8,
    woken: Seats,
    past: &[Event<C, N>],
) -> bool
    ensures { IsTrue result ↔ IsLegalBroadcast k woken (standing_after past.now).phases }
{
    count(Counted::Stranger, k, woken, past) == 0 && count(Counted::Left, k, woken, past) == 0
}

/// Whether one in this phase may leave the variable.
pub(crate) fn leave_fits<C: Copy>(k: u8, phase: Phase<C>) -> bool
    ensures { IsTrue result ↔ IsLegalLeave k phase }
{
    match phase {
        Phase::Waiting(variables, _) => variables.is_just(k),
        _ => false,
    }
}

/// Whether one in this phase may leave the variables of the set.
pub(crate) fn leave_any_fits<C: Copy>(cvs: Cvs, phase: Phase<C>) -> bool
    ensures { IsTrue result ↔ IsLegalLeaveAny cvs phase }
{
    match phase {
        Phase::Waiting(variables, _) => variables.is_exactly(cvs),
        _ => false,
    }
}
