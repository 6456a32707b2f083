//! The bars of a thread: its calls, its sections, its waits, and while it has the queues.

use crate::call::push_call;
use crate::layout::{Layout, WAITS};
use crate::page::{Page, Shape};
use crate::paper::Change;
use crate::sight::{Sight, has};
use ns_replay::{ScriptCondition, push_reply};
use ns_world::call::Call;
use std::alloc::AllocError;

/// What a bar stands for.
#[derive(Clone, Copy, PartialEq, Eq)]
pub enum Bar {
    /// A write section in hand.
    Write,
    /// A read section in hand.
    Read,
    /// A wait in the lock's list, for the lock alone.
    Lock,
    /// A wait in the lock's list, for a condition.
    Condition,
    /// A wait in the list of a condition variable.
    Variable,
    /// The waiter queues in hand.
    Queues,
}

/// Bars of one layer stand in one place, since at most one of them is there at a time.
#[derive(Clone, Copy)]
pub enum Layer {
    /// Sections.
    Sections,
    /// Waits.
    Waits,
    /// The queues.
    Queues,
}

/// A bar that has begun.
#[derive(Clone, Copy)]
struct Begun {
    bar: Bar,
    /// The place of the change that has begun it.
    from: usize,
    /// That change.
    change: Change,
}

impl Bar {
    /// The class of its shapes.
    pub fn class(self) -> &'static str {
        match self {
            Bar::Write => "write",
            Bar::Read => "read",
            Bar::Lock => "lock",
            Bar::Condition => "condition",
            Bar::Variable => "variable",
            Bar::Queues => "queues",
        }
    }

    /// What it says of its thread.
    fn words(self) -> &'static str {
        match self {
            Bar::Write => "has a write section",
            Bar::Read => "has a read section",
            Bar::Lock => "waits for the lock",
            Bar::Condition => "waits for a condition",
            Bar::Variable => "waits for a variable",
            Bar::Queues => "has the queues",
        }
    }

    /// Where it has its middle, from the left edge of a lane.
    pub fn middle(self) -> usize {
        match self {
            Bar::Write | Bar::Read => 16,
            Bar::Lock | Bar::Condition | Bar::Variable => WAITS,
            Bar::Queues => 40,
        }
    }

    /// Its shape in a lane that begins here, between two lines.
    pub fn shape(self, left: usize, from: usize, to: usize) -> Shape {
        let height = to.saturating_sub(from);
        match self {
            Bar::Write | Bar::Read => Shape::Rect {
                x: left.saturating_add(8),
                y: from,
                width: 16,
                height,
            },
            Bar::Lock | Bar::Condition | Bar::Variable => Shape::Down {
                x: left.saturating_add(WAITS),
                from,
                to,
            },
            Bar::Queues => Shape::Rect {
                x: left.saturating_add(37),
                y: from,
                width: 6,
                height,
            },
        }
    }
}

/// The wait of a thread in this call, which had this one before. Whom another has taken from its list goes on with
/// that until it is woken.
fn wait(sight: &Sight, thread: u8, call: Call<ScriptCondition>, last: Option<Bar>) -> Option<Bar> {
    if has(sight.called(), thread) && sight.queues != Some(thread) {
        last
    } else if has(sight.waiting(), thread) {
        Some(Bar::Variable)
    } else if !has(sight.lock, thread) {
        None
    } else if let Call::Wait(_, _) = call {
        Some(Bar::Condition)
    } else {
        Some(Bar::Lock)
    }
}

/// The bar of the layer that the thread has, where it is in this call, and had this one before.
fn bar_in(
    layer: Layer,
    sight: &Sight,
    thread: u8,
    call: Call<ScriptCondition>,
    last: Option<Bar>,
) -> Option<Bar> {
    match layer {
        Layer::Sections if has(sight.writers, thread) => Some(Bar::Write),
        Layer::Sections if has(sight.readers, thread) => Some(Bar::Read),
        Layer::Waits => wait(sight, thread, call, last),
        Layer::Queues if sight.queues == Some(thread) => Some(Bar::Queues),
        _ => None,
    }
}

/// Which cells have changed from one row to another, and how.
fn push_row_change(
    out: &mut String,
    before: &[u64; 8],
    after: &[u64; 8],
) -> Result<(), AllocError> {
    for (cell, (old, new)) in before.iter().zip(after.iter()).enumerate() {
        if *old != *new {
            if !out.is_empty() {
                out.push_str(", ")?;
            }
            write!(out, "{cell}: {old} -> {new}")?;
        }
    }
    Ok(())
}

/// From which turn to which.
fn push_turns(out: &mut String, from: &Change, to: Option<&Change>) -> Result<(), AllocError> {
    match to {
        Some(to) => write!(out, ", turns {} to {}: ", from.turn, to.turn),
        None => write!(out, ", from turn {} on: ", from.turn),
    }?;
    push_call(out, from.call)
}

/// Writes along a write section what it has changed of the row, where that fits.
fn push_section_text(
    page: &mut Page,
    x: usize,
    from: usize,
    to: usize,
    rows: (&Change, &Change),
) -> Result<(), AllocError> {
    page.words.clear();
    push_row_change(&mut page.words, &rows.0.row, &rows.1.row)?;
    let length = page.words.len().saturating_mul(8);
    if !page.words.is_empty() && length < to.saturating_sub(from) {
        let text = page.said()?;
        let middle = from.saturating_add(to.saturating_sub(from) / 2);
        page.text("row", x, middle, &text)?;
    }
    Ok(())
}

/// Adds a bar that ends with the change at this place, if there is one there.
fn push_bar(
    page: &mut Page,
    layout: &Layout,
    changes: &[Change],
    thread: u8,
    begun: &Begun,
    to: usize,
) -> Result<(), AllocError> {
    let Begun { bar, from, change } = *begun;
    let end = changes.get(to);
    page.words.clear();
    write!(page.words, "{thread} {}", bar.words())?;
    push_turns(&mut page.words, &change, end)?;
    let title = page.said()?;
    let (top, bottom) = (layout.line(from), layout.line(to));
    page.open(&title)?;
    page.shape(bar.class(), bar.shape(layout.left(thread), top, bottom))?;
    if let (Bar::Write, Some(end)) = (bar, end) {
        push_section_text(page, layout.beside(thread, 16), top, bottom, (&change, end))?;
    }
    page.close()
}

/// Adds the bars of the layer that the thread has.
pub fn push_bars(
    page: &mut Page,
    layout: &Layout,
    changes: &[Change],
    thread: u8,
    layer: Layer,
) -> Result<(), AllocError> {
    let mut begun: Option<Begun> = None;
    let mut call = Call::Lock;
    for (place, change) in changes.iter().enumerate() {
        if change.thread == thread {
            call = change.call;
        }
        let last = begun.map(|begun| begun.bar);
        let found = bar_in(layer, &change.after, thread, call, last);
        if found.is_some() && found == last {
            continue;
        }
        if let Some(last) = begun {
            push_bar(page, layout, changes, thread, &last, place)?;
        }
        begun = found.map(|bar| Begun {
            bar,
            from: place,
            change: *change,
        });
    }
    match begun {
        Some(last) => push_bar(page, layout, changes, thread, &last, changes.len()),
        None => Ok(()),
    }
}

/// Adds the band of a call, from the change that has begun it to the one that has ended it.
fn push_call_band(
    page: &mut Page,
    layout: &Layout,
    from: (usize, &Change),
    to: (usize, Option<&Change>),
) -> Result<(), AllocError> {
    let thread = from.1.thread;
    page.words.clear();
    write!(page.words, "{thread}")?;
    push_turns(&mut page.words, from.1, to.1)?;
    if let Some(reply) = to.1.and_then(|change| change.reply) {
        page.words.push_str(" -> ")?;
        push_reply(&mut page.words, reply)?;
    }
    let title = page.said()?;
    let y = layout.line(from.0).saturating_sub(9);
    let shape = Shape::Rect {
        x: layout.beside(thread, 2),
        y,
        width: layout.lane.saturating_sub(4),
        height: layout.line(to.0).saturating_add(9).saturating_sub(y),
    };
    page.mark("call", shape, &title)
}

/// Adds the bands of the thread's calls.
pub fn push_calls(
    page: &mut Page,
    layout: &Layout,
    changes: &[Change],
    thread: u8,
) -> Result<(), AllocError> {
    let mut begun: Option<(usize, &Change)> = None;
    for (place, change) in changes.iter().enumerate() {
        if change.thread == thread {
            let from = begun.unwrap_or((place, change));
            if change.reply.is_some() {
                push_call_band(page, layout, from, (place, Some(change)))?;
                begun = None;
            } else {
                begun = Some(from);
            }
        }
    }
    match begun {
        Some(from) => push_call_band(page, layout, from, (changes.len(), None)),
        None => Ok(()),
    }
}
