//! Arrows from one thread to others: wakes that are paid, and signals.

use crate::call::push_call;
use crate::layout::{DOT, Layout, WAITS};
use crate::page::{Page, Shape};
use crate::paper::Change;
use crate::sight::{both, either, has, only, without};
use ns_model::seats::Seats;
use ns_world::call::Call;
use std::alloc::AllocError;

/// What an arrow stands for.
#[derive(Clone, Copy)]
pub enum Arrow {
    /// A wake, to whom it wakes.
    Wake,
    /// A signal or a broadcast, to whom it takes.
    Signal,
}

impl Arrow {
    /// The class of its shape.
    pub fn class(self) -> &'static str {
        match self {
            Arrow::Wake => "wake",
            Arrow::Signal => "signal",
        }
    }

    /// What it says.
    fn words(self) -> &'static str {
        match self {
            Arrow::Wake => "wakes",
            Arrow::Signal => "takes",
        }
    }

    /// To whom there is such an arrow in the turn of the change.
    fn to(self, change: &Change) -> Seats {
        let Change { before, after, .. } = change;
        match (self, change.call) {
            (Arrow::Wake, _) => without(before.owed, after.owed),
            (Arrow::Signal, Call::Signal(_) | Call::Broadcast(_)) => {
                let me = only(change.thread);
                let moved = without(both(before.waiting(), after.lock), me);
                either(moved, without(before.queued(), either(after.queued(), me)))
            }
            _ => Seats::none(),
        }
    }
}

/// Adds the arrow to a thread.
fn push_arrow(
    page: &mut Page,
    layout: &Layout,
    place: usize,
    change: &Change,
    arrow: Arrow,
    to: u8,
) -> Result<(), AllocError> {
    page.words.clear();
    let from = change.thread;
    write!(
        page.words,
        "turn {}: {from} {} {to}: ",
        change.turn,
        arrow.words()
    )?;
    push_call(&mut page.words, change.call)?;
    let title = page.said()?;
    let from = layout.beside(from, DOT);
    let bar = layout.beside(to, WAITS);
    let shape = Shape::Across {
        from,
        to: if from < bar {
            bar.saturating_sub(3)
        } else {
            bar.saturating_add(3)
        },
        y: layout.line(place),
    };
    page.mark(arrow.class(), shape, &title)
}

/// Adds the arrows of a change.
pub fn push_arrows(
    page: &mut Page,
    layout: &Layout,
    place: usize,
    change: &Change,
    arrow: Arrow,
) -> Result<(), AllocError> {
    let all = arrow.to(change);
    if all == Seats::none() {
        return Ok(());
    }
    for to in 0..64u8 {
        if has(all, to) {
            push_arrow(page, layout, place, change, arrow, to)?;
        }
    }
    Ok(())
}
