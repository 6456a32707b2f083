//! What no contract says: streams that fail at each place, and what memory there is. Scripts with
//! their texts, and refusals at their places, are rows.

ghost use Rattle.std.specs.Prelude.{◌≡◌, ◌≤◌, false};

mod errors;
mod example;
mod memory;
mod timelines;
mod worlds;

use self::memory::{Expects, Interrupted};
use crate::memory::Given;
use ns_replay::{Fault, Options, ScriptPath, Sink, Source, replay};
use std::alloc::{AllocError, Global};
use std::test::Fail;

/// The first path.
const FIRST: &str =
    "{\"version\":1,\"threads\":[[\"trylock\",\"set 0 5\",\"get 0\",\"unlock\"]],\"schedule\":\"0!*4\"}";

const FIRST_TEXT: &str = "0 0 ok\n0 1 ok\n0 2 5\n0 3 ok\nrow 5 0 0 0 0 0 0 0\n";

/// The first of the worked scripts: a section, and what it left is read in another.
const WORKED: &str =
    "{\"version\":1,\"threads\":[[\"lock\",\"set 0 5\",\"get 0\",\"unlock\",\"rlock\",\"get 0\",\"runlock\"]],\"schedule\":\"0!*7\"}";

const ROW: &str = "row 0 0 0 0 0 0 0 0\n";

const EMPTY: &str = "{\"version\":1,\"threads\":[],\"schedule\":\"\"}";

const PLAIN: Options = Options {
    history: false,
    tests: false,
    state: false,
    limit: 1_000_000,
};

/// What a replay answers of the pieces, which writes to a sink that expects its text.
fn replayed(alloc: Global, source: &mut Given<'_>, sink: &mut Expects<'_>) -> Result<(), Fault>
    requires source { source.old.has_failed ≡ false }
    requires sink { sink.old.has_failed ≡ false }
{
    replay(alloc, source, sink, PLAIN)
}

/// What a replay of the script in pieces of this length answers, if it wrote this text and nothing else.
fn answered(alloc: Global, script: &[u8], piece: usize, text: &str) -> Option<Result<(), Fault>>
    requires { 1 ≤ piece }
{
    let mut source = Given::in_pieces(script, piece, usize::MAX);
    let mut sink = Expects::new(text.as_bytes(), 4096, usize::MAX);
    let outcome = replayed(alloc, &mut source, &mut sink);
    if sink.is_done() { Some(outcome) } else { None }
}

#[test]
fn fronts(rt: HostRuntime) {
    let bytes = WORKED.as_bytes();
    for n in 0..bytes.len() {
        let answer = answered(rt.alloc(), &bytes[..n], 4096, "");
        assert!(rt; matches!(answer, Some(Err(Fault::NotJson))), "at {n}");
    }
}

/// A script of so many bytes.
fn blank_script(alloc: Global, length: usize) -> Result<Vec<u8>, AllocError> {
    let mut script = Vec::new(alloc);
    script.extend_from_slice(EMPTY.as_bytes())?;
    for _ in EMPTY.len()..length {
        script.push(b' ')?;
    }
    Ok(script)
}

#[test]
fn lengths(rt: HostRuntime) -> Result<(), Fail> {
    for piece in [4096, 1] {
        let most = blank_script(rt.alloc(), 1_048_576)?;
        assert!(rt; matches!(answered(rt.alloc(), &most, piece, ROW), Some(Ok(()))));
        let more = blank_script(rt.alloc(), 1_048_577)?;
        let answer = answered(rt.alloc(), &more, piece, "");
        assert!(rt; matches!(answer, Some(Err(Fault::TooMany(ScriptPath::Root)))));
    }
    Ok(())
}

/// Whether a replay is at fault whose source fails after so many reads of one byte, and writes nothing.
fn is_read_failed(alloc: Global, reads: usize) -> bool {
    let mut source = Given::in_pieces(FIRST.as_bytes(), 1, reads);
    let mut sink = Expects::new(b"", 1, usize::MAX);
    let outcome = replayed(alloc, &mut source, &mut sink);
    matches!(outcome, Err(Fault::Read)) && source.failed() && sink.is_done()
}

#[test]
fn failing_reads(rt: HostRuntime) {
    for reads in 0..FIRST.len() + 1 {
        assert!(rt; is_read_failed(rt.alloc(), reads), "at {reads}");
    }
}

/// Whether a replay whose sink fails after so many writes of one byte has written just these, and is at fault
/// where the sink has failed.
fn is_written(alloc: Global, writes: usize) -> bool {
    let text = FIRST_TEXT.as_bytes();
    let mut source = Given::new(FIRST.as_bytes());
    let mut sink = Expects::new(text, 1, writes);
    let outcome = replayed(alloc, &mut source, &mut sink);
    let is_whole = writes == text.len();
    let is_answered = match outcome {
        Ok(()) => is_whole,
        Err(fault) => fault == Fault::Write && !is_whole,
    };
    is_answered && sink.failed() != is_whole && sink.has_taken(text, writes)
}

#[test]
fn failing_writes(rt: HostRuntime) {
    for writes in 0..FIRST_TEXT.len() + 1 {
        assert!(rt; is_written(rt.alloc(), writes), "at {writes}");
    }
}

#[test]
fn stuck(rt: HostRuntime) {
    let mut source = Given::new(FIRST.as_bytes());
    let mut sink = Expects::new(FIRST_TEXT.as_bytes(), 0, usize::MAX);
    let outcome = replayed(rt.alloc(), &mut source, &mut sink);
    assert!(rt; matches!(outcome, Err(Fault::Write)) && !sink.failed());
    assert!(rt; sink.has_taken(FIRST_TEXT.as_bytes(), 0));
}

/// What a replay of a source whose reads are interrupted answers, how often it was asked, and whether just this
/// text was written.
fn interrupted_by(alloc: Global, always: bool, text: &str) -> (Result<(), Fault>, u64, bool) {
    let mut source = Interrupted {
        bytes: FIRST.as_bytes(),
        is_next: true,
        always,
        asked: 0,
        ends: 0,
        last: 0,
    };
    let mut sink = Expects::new(text.as_bytes(), 4096, usize::MAX);
    let outcome = replay(alloc, &mut source, &mut sink, PLAIN);
    (outcome, source.asked, sink.is_done())
}

#[test]
fn interrupted(rt: HostRuntime) {
    let now_and_then = interrupted_by(rt.alloc(), false, FIRST_TEXT);
    assert!(rt; matches!(now_and_then, (Ok(()), _, true)));
    let always = interrupted_by(rt.alloc(), true, "");
    assert!(rt; matches!(always, (Err(Fault::Read), 2_097_152, true)));
}

/// With each allocation refused in turn the replay is refused and writes nothing, or does without.
#[test]
fn refused_memory(rt: HostRuntime) {
    let mut source = Given::new(FIRST.as_bytes());
    let mut sink = Expects::new(FIRST_TEXT.as_bytes(), 4096, usize::MAX);
    match replayed(rt.alloc(), &mut source, &mut sink) {
        Ok(()) => assert!(rt; sink.is_done()),
        Err(fault) => {
            assert!(rt; fault == Fault::OutOfMemory);
            assert!(rt; sink.has_taken(FIRST_TEXT.as_bytes(), 0));
        }
    }
}
