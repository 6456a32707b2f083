//! A document of marks, from the changes of a run.

ghost use Rattle.std.specs.Prelude.{IfOk};
ghost use Rattle.ns_timeline.specs.Pictures.{IsDocument};

use crate::arrows::{Arrow, push_arrows};
use crate::bars::{Layer, push_bars, push_calls};
use crate::labels::push_turn;
use crate::layout::Layout;
use crate::legend::push_legend;
use crate::page::{Page, Shape};
use crate::paper::Change;
use crate::record::Record;
use crate::sight::has;
use ns_model::seats::Seats;
use std::alloc::{AllocError, Global};

/// How each document begins, and ends.
const HEAD: &[u8] = b"<svg xmlns=\"http://www.w3.org/2000/svg\" role=\"img\"";

const TAIL: &[u8] = b"</svg>\n";

/// The number that no thread has, for those who share the last lane.
const OTHERS: u8 = 64;

/// Adds the line and the name of a lane.
fn push_lane(page: &mut Page, layout: &Layout, thread: u8) -> Result<(), AllocError> {
    page.words.clear();
    if thread < OTHERS {
        write!(page.words, "thread {thread}")?;
    } else {
        page.words.push_str("other threads")?;
    }
    let name = page.said()?;
    let line = Shape::Down {
        x: layout.beside(thread, 16),
        from: layout.line(0).saturating_sub(10),
        to: layout.bottom(),
    };
    page.open(&name)?;
    page.shape("lane", line)?;
    let y = layout.line(0).saturating_sub(16);
    page.text("name", layout.beside(thread, 8), y, &name)?;
    page.close()
}

/// Adds the lanes, with their calls.
fn push_lanes(page: &mut Page, layout: &Layout, changes: &[Change]) -> Result<(), AllocError> {
    for thread in 0..64u8 {
        if has(layout.shown, thread) {
            push_lane(page, layout, thread)?;
            push_calls(page, layout, changes, thread)?;
        }
    }
    if layout.is_all {
        Ok(())
    } else {
        push_lane(page, layout, OTHERS)
    }
}

/// Adds the arrows. They go under the bars, so that no text along a bar is crossed.
fn push_all_arrows(page: &mut Page, layout: &Layout, changes: &[Change]) -> Result<(), AllocError> {
    for (place, change) in changes.iter().enumerate() {
        push_arrows(page, layout, place, change, Arrow::Signal)?;
        push_arrows(page, layout, place, change, Arrow::Wake)?;
    }
    Ok(())
}

/// Adds the bars.
fn push_all_bars(page: &mut Page, layout: &Layout, changes: &[Change]) -> Result<(), AllocError> {
    for thread in 0..64u8 {
        if has(layout.shown, thread) {
            push_bars(page, layout, changes, thread, Layer::Sections)?;
            push_bars(page, layout, changes, thread, Layer::Waits)?;
            push_bars(page, layout, changes, thread, Layer::Queues)?;
        }
    }
    Ok(())
}

/// Adds the marks of the turns.
fn push_turns(
    page: &mut Page,
    alloc: Global,
    layout: &Layout,
    changes: &[Change],
) -> Result<(), AllocError> {
    for (place, change) in changes.iter().enumerate() {
        push_turn(page, alloc, layout, place, change)?;
    }
    Ok(())
}

/// Adds how many changes are left, if some are.
fn push_left(page: &mut Page, layout: &Layout, left: u32) -> Result<(), AllocError> {
    if left == 0 {
        return Ok(());
    }
    page.words.clear();
    write!(page.words, "{left} more changes are left.")?;
    let text = page.said()?;
    page.text("name", 8, layout.bottom().saturating_add(20), &text)?;
    page.end_line()
}

/// What stands between the head and the end of the document of these changes.
fn body_of(
    alloc: Global,
    record: &Record,
    shown: Seats,
    is_all: bool,
) -> Result<Vec<u8>, AllocError> {
    let changes = record.changes.as_slice();
    let layout = Layout::new(shown, is_all, changes.len());
    let mut page = Page::new(alloc);
    page.begin(layout.width, layout.height())?;
    push_legend(&mut page, &layout)?;
    push_lanes(&mut page, &layout, changes)?;
    push_all_arrows(&mut page, &layout, changes)?;
    push_all_bars(&mut page, &layout, changes)?;
    push_turns(&mut page, alloc, &layout, changes)?;
    push_left(&mut page, &layout, record.left)?;
    Ok(page.into_body())
}

/// The document of these changes, with a lane for each of these threads, whether or not they are all.
pub fn document_of(
    alloc: Global,
    record: &Record,
    shown: Seats,
    is_all: bool,
) -> Result<Vec<u8>, AllocError>
    ensures { IfOk result (λ document. IsDocument document.items) }
{
    let body = body_of(alloc, record, shown, is_all)?;
    let mut document = Vec::new(alloc);
    document.extend_from_slice(HEAD)?;
    document.extend_from_slice(&body)?;
    document.extend_from_slice(TAIL)?;
    Ok(document)
}
