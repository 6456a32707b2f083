//! What a turn did, in words beside its mark.

use crate::call::push_call;
use crate::changes::push_changes;
use crate::layout::{DOT, LABEL, Layout, TURNS};
use crate::page::{Page, Shape};
use crate::paper::Change;
use crate::sight::has;
use ns_model::event::Answer;
use ns_replay::push_reply;
use ns_world::call::Call;
use ns_world::reply::Reply;
use std::alloc::{AllocError, Global};

/// What is left out of a text that is cut.
const CUT: &str = "..";

/// How a call ends by a turn, if it does.
#[derive(Clone, Copy)]
pub enum End {
    /// It goes on, or ends by what it waited for.
    Plain,
    /// It ends early, by its deadline.
    Deadline,
    /// It ends early, by its note.
    Note,
}

impl End {
    /// How the call of the change ends by it.
    fn of(change: &Change) -> End {
        match (change.call, change.reply) {
            (_, Some(Reply::Answered(Answer::TimedOut))) => End::Deadline,
            (_, Some(Reply::Answered(Answer::Canceled))) => End::Note,
            (Call::NoteWait(_, _), Some(Reply::Is(false))) => End::Deadline,
            (Call::CounterWait(_, _), Some(Reply::Number(value))) if value != 0 => End::Deadline,
            (Call::WaitAny(items, _), Some(Reply::Number(place)))
                if place == u64::from(items.count) => { End::Deadline }
            _ => End::Plain,
        }
    }

    /// The class of its mark.
    pub fn class(self) -> &'static str {
        match self {
            End::Plain => "plain",
            End::Deadline => "deadline",
            End::Note => "note",
        }
    }

    /// Its mark.
    pub fn shape(self, x: usize, y: usize) -> Shape {
        match self {
            End::Plain => Shape::Dot { x, y },
            End::Deadline => Shape::Triangle { x, y },
            End::Note => Shape::Diamond { x, y },
        }
    }
}

/// The words of a change: its call, if that begins by it; what it has done; what the call has answered.
#[derive(Drop)]
struct Words {
    call: String,
    done: String,
    answer: String,
}

impl Words {
    fn of(alloc: Global, change: &Change) -> Result<Words, AllocError> {
        let mut call = String::new(alloc);
        let mut done = String::new(alloc);
        let mut answer = String::new(alloc);
        if change.begins() {
            push_call(&mut call, change.call)?;
        }
        push_changes(&mut done, change.thread, &change.before, &change.after)?;
        if let Some(reply) = change.reply {
            answer.push_str(" -> ")?;
            push_reply(&mut answer, reply)?;
        }
        Ok(Words { call, done, answer })
    }
}

/// Adds a text, or a front of it where there is room for no more, or none where there is no room for that.
fn push_cut(out: &mut String, text: &str, room: usize) -> Result<(), AllocError> {
    if text.len() <= room {
        return out.push_str(text);
    }
    if room <= CUT.len() {
        return Ok(());
    }
    for letter in text.chars().take(room.saturating_sub(CUT.len())) {
        out.push(letter)?;
    }
    out.push_str(CUT)
}

/// Adds the words for which there is room: what was done is left out before the call, and that is cut before
/// what the call has answered.
fn push_label(out: &mut String, words: &Words, room: usize) -> Result<(), AllocError> {
    let Words { call, done, answer } = words;
    let done = if call.is_empty() {
        done.strip_prefix(", ").unwrap_or("")
    } else {
        done.as_str()
    };
    let length = call
        .len()
        .saturating_add(done.len())
        .saturating_add(answer.len());
    if length <= room {
        out.push_str(call)?;
        out.push_str(done)?;
    } else if call.is_empty() && answer.is_empty() {
        push_cut(out, done, room)?;
    } else {
        push_cut(out, call, room.saturating_sub(answer.len()))?;
    }
    push_cut(out, answer, room)
}

/// What a browser shows of a change where a pointer rests on its mark.
fn push_title(out: &mut String, change: &Change) -> Result<(), AllocError> {
    write!(out, "turn {}: {} ", change.turn, change.thread)?;
    push_call(out, change.call)?;
    push_changes(out, change.thread, &change.before, &change.after)?;
    if let Some(reply) = change.reply {
        out.push_str(" -> ")?;
        push_reply(out, reply)?;
    }
    Ok(())
}

/// Adds the mark of a change: its turn at the left, a dot or how its call ends in the thread's lane, and beside
/// that its words.
pub fn push_turn(
    page: &mut Page,
    alloc: Global,
    layout: &Layout,
    place: usize,
    change: &Change,
) -> Result<(), AllocError> {
    let y = layout.line(place);
    page.words.clear();
    push_title(&mut page.words, change)?;
    let title = page.said()?;
    page.words.clear();
    write!(page.words, "{}", change.turn)?;
    let turn = page.said()?;
    page.words.clear();
    if !has(layout.shown, change.thread) {
        write!(page.words, "{}: ", change.thread)?;
    }
    let words = Words::of(alloc, change)?;
    let room = layout.room().saturating_sub(page.words.len());
    push_label(&mut page.words, &words, room)?;
    let label = page.said()?;
    let class = if change.begins() { "begins" } else { "goes" };
    let end = End::of(change);
    page.open(&title)?;
    page.text("turn", TURNS, y.saturating_add(4), &turn)?;
    page.shape(end.class(), end.shape(layout.beside(change.thread, DOT), y))?;
    page.text(
        class,
        layout.beside(change.thread, LABEL),
        y.saturating_add(4),
        &label,
    )?;
    page.close()
}
