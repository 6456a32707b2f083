//! The picture as lines of text.

ghost use Rattle.std.specs.Prelude.{⊤};

use crate::call::{name, push_call};
use crate::changes::push_changes;
use crate::columns::{push_columns, push_numbers};
use crate::paper::{Change, Paper};
use crate::sight::{both, only};
use ns_model::seats::Seats;
use ns_replay::push_reply;
use std::alloc::{AllocError, Global};

/// How many characters a line may have.
const WIDTH: usize = 100;

/// How many of them are left of a line that is cut.
const KEPT: usize = 98;

/// What the marks in a column mean.
const LEGEND: [&str; 2] = [
    "#  writes   :  reads   @  has the queues   .  is in a call   !  is to be woken",
    "z  waits for the lock or a condition   0-3  waits for that condition variable",
];

/// Adds a line, and cuts what doesn't fit.
fn push_cut(picture: &mut Vec<u8>, line: &str) -> Result<(), AllocError> {
    let bytes = line.as_bytes();
    match bytes.get(..KEPT) {
        Some(front) if WIDTH < bytes.len() => {
            picture.extend_from_slice(front)?;
            picture.extend_from_slice(b"..")?;
        }
        _ => picture.extend_from_slice(bytes)?,
    }
    picture.extend_from_slice(b"\n")
}

/// The lines above the turns: what the marks mean, and the numbers of those who have a column.
fn push_head(
    picture: &mut Vec<u8>,
    line: &mut String,
    shown: Seats,
    is_all: bool,
) -> Result<(), AllocError> {
    for words in LEGEND {
        push_cut(picture, words)?;
    }
    if !is_all {
        push_cut(
            picture,
            "only the threads with the most calls have a column",
        )?;
    }
    line.clear();
    line.push_str("    turn  ")?;
    push_numbers(line, shown)?;
    push_cut(picture, line.trim_end())
}

/// Puts the line of a turn together, with the whole call, or its name alone.
fn set_turn(
    line: &mut String,
    shown: Seats,
    change: &Change,
    is_whole: bool,
) -> Result<(), AllocError> {
    let Change { turn, thread, .. } = *change;
    line.clear();
    write!(line, "{turn:>8}  ")?;
    push_columns(line, shown, &change.after)?;
    write!(line, " {thread} ")?;
    if is_whole {
        push_call(line, change.call)?;
    } else {
        line.push_str(name(change.call))?;
    }
    push_changes(line, thread, &change.before, &change.after)?;
    if let Some(reply) = change.reply {
        line.push_str(" -> ")?;
        push_reply(line, reply)?;
    }
    Ok(())
}

/// The line of a turn. Where it is too long, a call that has begun before stands by its name alone, so that
/// what it has done is not cut.
fn push_turn(
    picture: &mut Vec<u8>,
    line: &mut String,
    shown: Seats,
    change: &Change,
) -> Result<(), AllocError> {
    set_turn(line, shown, change, true)?;
    if WIDTH < line.len() && both(change.before.busy, only(change.thread)) != Seats::none() {
        set_turn(line, shown, change, false)?;
    }
    push_cut(picture, line)
}

/// A picture as lines of text.
#[derive(Drop)]
pub struct Lines {
    /// What is drawn.
    pub picture: Vec<u8>,
    /// Where a line is put together.
    line: String,
    /// Who has a column.
    shown: Seats,
}

impl Lines {
    /// The head of a picture in which these threads have a column, and no turn yet.
    pub fn headed(alloc: Global, shown: Seats, is_all: bool) -> Result<Lines, AllocError> {
        let mut picture = Vec::new(alloc);
        let mut line = String::new(alloc);
        push_head(&mut picture, &mut line, shown, is_all)?;
        Ok(Lines {
            picture,
            line,
            shown,
        })
    }
}

impl Paper for Lines {
    ghost keeps = { λ old change new. ⊤ };

    fn take(&mut self, change: &Change) -> Result<(), AllocError> {
        push_turn(&mut self.picture, &mut self.line, self.shown, change)
    }
}
