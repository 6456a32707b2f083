//! Which histories are legal, the row that one leaves, and the phase that it leaves a seat in.

ghost use Rattle.std.specs.Prelude.{◌≡◌, ◌↔◌, ◌<◌, IsTrue};
ghost use Rattle.ns_model.specs.Histories.{IsLegal, IsLegalEvent, standing_after, row_after, phase_of, phase_next};

use crate::condition::Condition;
use crate::event::Event;
use crate::phase::Phase;
use crate::sections::{entry_fits, exit_fits, mode_fits, phase_after};
use crate::wakes::{broadcast_fits, leave_any_fits, leave_fits, signal_fits};

/// What the event leaves of a seat's phase.
pub(crate) fn phase_next<C: Copy, const N: usize>(
    seat: u8,
    phase: Phase<C>,
    event: &Event<C, N>,
) -> Phase<C>
    requires { seat < 64 }
    ensures { result ≡ phase_next seat phase event.now }
{
    match event {
        Event::Section {
            who,
            mode,
            exit,
            ..
        } => {
            if *who == seat {
                phase_after(*mode, *exit)
            } else {
                phase
            }
        }
        Event::Signal { k, woken, .. } => {
            if woken.contains(seat) {
                phase.woken(*k)
            } else {
                phase
            }
        }
        Event::Broadcast { k, woken, .. } => {
            if woken.contains(seat) {
                phase.woken(*k)
            } else {
                phase
            }
        }
        Event::Leave { who, .. } | Event::LeaveAny { who, .. } => {
            if *who == seat { phase.left() } else { phase }
        }
    }
}

/// The phase of the seat after the history. Needs a seat below 64.
pub fn phase_of<C: Copy, const N: usize>(history: &[Event<C, N>], seat: u8) -> Phase<C>
    requires { seat < 64 }
    ensures { result ≡ phase_of history.now seat }
{
    let mut phase = Phase::Idle;
    for event in history {
        phase = phase_next(seat, phase, event);
    }
    phase
}

/// The row after the history: the row that its last section left, or zeros.
pub fn row_after<C: Copy, const N: usize>(history: &[Event<C, N>]) -> [u64; N]
    ensures { result ≡ row_after history.now }
{
    let mut row = [0; N];
    for event in history {
        if let Event::Section { after, .. } = event {
            row = *after;
        }
    }
    row
}

/// Whether this is the row after the history.
fn is_row_after<C: Copy, const N: usize>(history: &[Event<C, N>], row: &[u64; N]) -> bool
    ensures { IsTrue result ↔ (row.now ≡ row_after history.now) }
{
    *row == row_after(history)
}

/// Whether the event is legal after those of the past.
fn event_fits<C: Condition<N>, const N: usize>(past: &[Event<C, N>], event: &Event<C, N>) -> bool
    ensures { IsTrue result ↔ IsLegalEvent C.means.holds (standing_after past.now) event.now }
{
    match event {
        Event::Section {
            who,
            mode,
            entry,
            before,
            after,
            exit,
        } => {
            *who < 64
                && is_row_after(past, before)
                && mode_fits(*mode, before, after)
                && entry_fits(before, *mode, entry, phase_of(past, *who))
                && exit_fits(after, exit)
        }
        Event::Signal { who, k, woken } => *who < 64 && signal_fits(*k, *woken, past),
        Event::Broadcast { who, k, woken } => *who < 64 && broadcast_fits(*k, *woken, past),
        Event::Leave { who, k } => *who < 64 && leave_fits(*k, phase_of(past, *who)),
        Event::LeaveAny { who, cvs } => *who < 64 && leave_any_fits(*cvs, phase_of(past, *who)),
    }
}

/// Whether the history is legal: each event, by a seat below 64, is legal after those before it.
///
/// It is a judge for tests and tools, and no part of a running lock.
///
/// Takes no memory. The time grows with the square of the history's length, since the past is
/// read again for each event.
pub fn legal<C: Condition<N>, const N: usize>(history: &[Event<C, N>]) -> bool
    ensures { IsTrue result ↔ IsLegal C.means.holds history.now }
{
    for (i, event) in history.iter().enumerate() {
        if !event_fits(&history[..i], event) {
            return false;
        }
    }
    true
}
