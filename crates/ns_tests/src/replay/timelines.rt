//! Pictures of runs, where streams fail and memory is refused. What stands in them are rows.

use super::FIRST;
use super::memory::Expects;
use crate::memory::Given;
use ns_replay::{Fault, OverRead, OverWrite, Sink};
use ns_timeline::timeline;
use std::alloc::Global;

const PICTURE: &str = "\
#  writes   :  reads   @  has the queues   .  is in a call   !  is to be woken
z  waits for the lock or a condition   0-3  waits for that condition variable
    turn  0
       1   .  0 trylock
       2  #   0 trylock, acquires -> ok
       3  #.  0 set 0 5
       4  #   0 set 0 5 -> ok
       5  #   0 get 0 -> 5
       6  #.  0 unlock
       7      0 unlock, releases -> ok
";

/// Whether a picture to a sink that fails after so many writes of one byte has these bytes at its front and no
/// other, and is at fault where the sink has failed.
fn is_drawn(alloc: Global, writes: usize) -> bool {
    let text = PICTURE.as_bytes();
    let mut source = Given::new(FIRST.as_bytes());
    let mut sink = Expects::new(text, 1, writes);
    let is_whole = writes == text.len();
    let is_answered = match timeline(alloc, &mut source, &mut sink, 7) {
        Ok(()) => is_whole,
        Err(fault) => fault == Fault::Write && !is_whole,
    };
    is_answered && sink.failed() != is_whole && sink.has_taken(text, writes)
}

#[test]
fn failing_writes(rt: HostRuntime) {
    for writes in [0, 1, PICTURE.len() - 1, PICTURE.len()] {
        assert!(rt; is_drawn(rt.alloc(), writes), "at {writes}");
    }
}

/// With each allocation refused in turn the picture is refused and nothing is written, or it is drawn without.
#[test]
fn refused_memory(rt: HostRuntime) {
    let mut source = Given::new(FIRST.as_bytes());
    let mut sink = Expects::new(PICTURE.as_bytes(), 4096, usize::MAX);
    match timeline(rt.alloc(), &mut source, &mut sink, 7) {
        Ok(()) => assert!(rt; sink.is_done()),
        Err(fault) => {
            assert!(rt; fault == Fault::OutOfMemory);
            assert!(rt; sink.has_taken(PICTURE.as_bytes(), 0));
        }
    }
}

/// The example at the head of the crate.
#[test]
fn head_example(rt: HostRuntime) {
    let script = b"{\"version\":1,\"threads\":[[\"trylock\",\"unlock\"]],\"schedule\":\"0!*2\"}";
    let mut picture = Vec::new(rt.alloc()); // or `rt.stdout()`, over `rt.stdin()`
    let mut source = OverRead::new(script.as_slice());
    let mut sink = OverWrite::new(&mut picture);
    match timeline(rt.alloc(), &mut source, &mut sink, 1_000) {
        Ok(()) => assert!(rt; picture.ends_with(b"       4      0 unlock, releases -> ok\n")),
        Err(fault) => assert_eq!(rt; fault, Fault::OutOfMemory),
    }
}
