//! Waits with limits that are drawn, and what they have to answer.

ghost use Rattle.std.specs.Prelude.{IfSome};
ghost use Rattle.ns_model.specs.Environments.{IsMade};

use crate::kit::Kit;
use crate::rousing::draw_variable;
use ns_monitor::caller::Renewed;
use ns_monitor::{Acting, Answer, AnyPoll, Condition, Cvs};
use ns_note::note::Note;
use std::sync::Wait;
use std::thread::yield_now;

/// The row of the section in hand.
pub fn row<H: Renewed<C, N>, C: Condition<N>, const N: usize>(
    held: &mut Acting<'_, H, C, N>,
) -> [u64; N] {
    let mut row = [0; N];
    for i in 0..N {
        row[i] = held.get(i);
    }
    row
}

/// A note that is made, if the draw finds one.
fn draw_note(kit: &mut Kit<'_, '_>) -> Option<Note>
    ensures made { IfSome result (λ note. IsMade kit.new.watcher.seen note.index) }
{
    let index = kit.draw(64) as u8;
    let note = Note { index };
    if kit.watcher.knows(note) {
        Some(note)
    } else {
        None
    }
}

/// A deadline that has come, or comes soon where others move the clock, or never comes; or none.
fn draw_deadline(kit: &mut Kit<'_, '_>) -> Option<u64> {
    let ticks = match kit.draw(4) {
        0 => return None,
        1 => 1 << 40,
        _ => u64::from(kit.draw(4)),
    };
    let now = kit.watcher.now();
    Some(now.saturating_add(ticks))
}

/// Whether a wait may answer so, which had these limits and came back with a row of which the condition
/// is true or isn't.
fn is_right(
    kit: &mut Kit<'_, '_>,
    answer: Answer,
    is_met: bool,
    deadline: Option<u64>,
    note: Option<Note>,
) -> bool {
    match (answer, deadline, note) {
        (Answer::Met, _, _) => is_met,
        (Answer::TimedOut, Some(moment), _) => {
            let now = kit.watcher.now();
            !is_met && moment <= now
        }
        (Answer::Canceled, _, Some(note)) => {
            let known = kit.watcher.knows(note);
            !is_met && known && kit.watcher.is_notified(note)
        }
        _ => false,
    }
}

/// Waits in a section, with limits that are drawn, and answers whether the condition is true now.
fn wait_limited<'m, H: Renewed<C, N>, C: Condition<N>, const N: usize, R: Wait>(
    rt: &R,
    held: Acting<'m, H, C, N>,
    wish: C,
    kit: &mut Kit<'_, '_>,
) -> (Acting<'m, H, C, N>, bool) {
    let deadline = draw_deadline(kit);
    let note = draw_note(kit);
    kit.door.leave(H::mode());
    let (mut held, answer) = held.wait_with_deadline(rt, wish, deadline, note, &mut kit.watcher);
    kit.enter(H::mode());
    let row = row(&mut held);
    let is_met = wish.test(&row);
    let right = is_right(kit, answer, is_met, deadline, note);
    kit.expect(right, "a wait answers what isn't so");
    (held, is_met)
}

/// Whether it is one of the two variables by which somebody is roused.
fn is_rousing(variable: u8) -> bool {
    variable == 2 || variable == 3
}

/// Waits in a section for either of the two variables by which somebody is roused again and again: asks some
/// times, and then ends it.
fn wait_for_either<'m, H: Renewed<C, N>, C: Condition<N>, const N: usize, R: Wait>(
    rt: &R,
    held: Acting<'m, H, C, N>,
    kit: &mut Kit<'_, '_>,
) -> Acting<'m, H, C, N> {
    kit.door.leave(H::mode());
    let mut waiting = held.any_begin(rt, Cvs(12));
    for _ in 0..kit.draw(64) {
        waiting = match waiting.any_poll(rt) {
            AnyPoll::Woken(held, variable) => {
                kit.enter(H::mode());
                kit.expect(is_rousing(variable), "woken by another variable");
                return held;
            }
            AnyPoll::Still(waiting) => waiting,
        };
        yield_now();
    }
    let (held, by) = waiting.any_leave(rt);
    kit.enter(H::mode());
    if let Some(variable) = by {
        kit.expect(is_rousing(variable), "woken by another variable");
    }
    held
}

/// Waits in a section for a variable by which somebody is roused again and again, with limits that are drawn,
/// or for either of them.
pub fn wait_to_be_roused<'m, H: Renewed<C, N>, C: Condition<N>, const N: usize, R: Wait>(
    rt: &R,
    held: Acting<'m, H, C, N>,
    kit: &mut Kit<'_, '_>,
) -> Acting<'m, H, C, N> {
    if kit.draw(3) == 0 {
        return wait_for_either(rt, held, kit);
    }
    let variable = draw_variable(kit);
    let deadline = draw_deadline(kit);
    let note = draw_note(kit);
    kit.door.leave(H::mode());
    let (held, answer) = held.cv_wait_with_deadline(rt, variable, deadline, note, &mut kit.watcher);
    kit.enter(H::mode());
    let is_woken = answer == Answer::Met;
    let right = is_right(kit, answer, is_woken, deadline, note);
    kit.expect(right, "a wait for a variable answers what isn't so");
    held
}

/// Waits in a section until the condition is true, some times with limits and then with none.
pub fn wait_until_met<'m, H: Renewed<C, N>, C: Condition<N>, const N: usize, R: Wait>(
    rt: &R,
    mut held: Acting<'m, H, C, N>,
    wish: C,
    kit: &mut Kit<'_, '_>,
) -> Acting<'m, H, C, N> {
    for _ in 0..kit.draw(4) {
        if kit.draw(4) == 0 {
            held = wait_to_be_roused(rt, held, kit);
        }
        let (back, is_met) = wait_limited(rt, held, wish, kit);
        held = back;
        if is_met {
            return held;
        }
    }
    kit.door.leave(H::mode());
    let mut held = held.wait(rt, wish);
    kit.enter(H::mode());
    let row = row(&mut held);
    kit.expect(
        wish.test(&row),
        "a wait comes back to a condition that is false",
    );
    held
}
