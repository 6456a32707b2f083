//! What the marks mean, above the lanes.

use crate::arrows::Arrow;
use crate::bars::Bar;
use crate::labels::End;
use crate::layout::Layout;
use crate::page::{Page, Shape};
use std::alloc::AllocError;

/// How far apart the columns of the legend are.
const COLUMN: usize = 208;

/// How far apart its lines are.
const LINE: usize = 24;

/// Where a mark has its middle, from the left of its column.
const MIDDLE: usize = 31;

/// Its first line.
const FIRST: usize = 24;

/// What the marks mean.
const MEANINGS: [(Sign, &str); 12] = [
    (Sign::Bar(Bar::Write), "write section"),
    (Sign::Bar(Bar::Read), "read section"),
    (Sign::Call, "call in progress"),
    (Sign::End(End::Plain), "turn of the thread"),
    (Sign::Bar(Bar::Lock), "waits for the lock"),
    (Sign::Bar(Bar::Condition), "waits for a condition"),
    (Sign::Bar(Bar::Variable), "waits for a variable"),
    (Sign::Bar(Bar::Queues), "has the queues"),
    (Sign::Arrow(Arrow::Wake), "wakes"),
    (Sign::Arrow(Arrow::Signal), "signal, broadcast"),
    (Sign::End(End::Deadline), "end by a deadline"),
    (Sign::End(End::Note), "end by a note"),
];

/// A mark of the legend.
#[derive(Clone, Copy)]
enum Sign {
    Bar(Bar),
    Call,
    End(End),
    Arrow(Arrow),
}

impl Sign {
    /// Its class.
    fn class(self) -> &'static str {
        match self {
            Sign::Bar(bar) => bar.class(),
            Sign::Call => "call",
            Sign::End(end) => end.class(),
            Sign::Arrow(arrow) => arrow.class(),
        }
    }

    /// Its shape, where its column begins here, on this line.
    fn shape(self, left: usize, y: usize) -> Shape {
        let (top, bottom) = (y.saturating_sub(8), y.saturating_add(8));
        match self {
            Sign::Bar(bar) => {
                let left = left.saturating_add(MIDDLE).saturating_sub(bar.middle());
                bar.shape(left, top, bottom)
            }
            Sign::Call => Shape::Rect {
                x: left.saturating_add(14),
                y: top,
                width: 34,
                height: 16,
            },
            Sign::End(end) => end.shape(left.saturating_add(MIDDLE), y),
            Sign::Arrow(_) => Shape::Across {
                from: left.saturating_add(14),
                to: left.saturating_add(48),
                y: y.saturating_sub(9),
            },
        }
    }
}

/// Adds what a mark means, at this place of the legend.
fn push_meaning(page: &mut Page, place: usize, sign: Sign, words: &str) -> Result<(), AllocError> {
    let left = COLUMN.saturating_mul(place / 4);
    let y = FIRST.saturating_add(LINE.saturating_mul(place % 4));
    let text = page.own(words)?;
    page.open(&text)?;
    page.shape(sign.class(), sign.shape(left, y))?;
    page.text("means", left.saturating_add(58), y.saturating_add(4), &text)?;
    page.close()
}

/// Adds a line of the document's own words.
fn push_note(page: &mut Page, y: usize, words: &str) -> Result<(), AllocError> {
    let text = page.own(words)?;
    page.text("goes", 8, y, &text)?;
    page.end_line()
}

/// Adds what the marks mean.
pub fn push_legend(page: &mut Page, layout: &Layout) -> Result<(), AllocError> {
    for (place, (sign, words)) in MEANINGS.iter().enumerate() {
        push_meaning(page, place, *sign, words)?;
    }
    push_note(
        page,
        124,
        "At the left: turns. Along a write section: the row's change, as 0: 4 -> 5 of cell 0.",
    )?;
    if layout.is_all {
        Ok(())
    } else {
        push_note(
            page,
            140,
            "Only the threads with the most calls have a lane.",
        )
    }
}
