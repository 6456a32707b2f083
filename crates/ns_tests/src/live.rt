//! The live threads: that they take all that is put, and what is said of their end.

use crate::memory::{Collected, Printed};
use ns_command::{Ending, NoSum, finish_live};
use ns_live::{LiveFault, live};
use ns_replay::Fault;
use std::alloc::Global;

/// What is said of a sum of ten items.
const TEXT: &str = "items 10\nsum 55\n";

/// Whether a run of ten items whose threads answered so ends so, with this written and this said.
fn is_ended(
    alloc: Global,
    outcome: Result<u64, NoSum>,
    writes: usize,
    ending: Ending,
    errors: &str,
) -> bool {
    let mut sink = Collected::with_room(alloc, 1, writes);
    let mut printer = Printed::new(alloc);
    let ended = finish_live(alloc, 10, outcome, &mut sink, &mut printer);
    ended == ending
        && sink.into_bytes().as_slice() == &TEXT.as_bytes()[..writes.min(TEXT.len())]
        && printer.errors.as_str() == errors
        && printer.output.is_empty()
}

/// The threads take each number once.
#[test]
fn sums(rt: HostRuntime) {
    for (items, sum) in [(1, 1), (10, 55)] {
        let outcome = live(&rt, rt.alloc(), items);
        assert_eq!(rt; outcome, Ok(sum), "at {items}");
    }
}

/// With each allocation refused in turn there is no sum, or the right one.
#[test]
fn refused_memory(rt: HostRuntime) {
    let outcome = live(&rt, rt.alloc(), 10);
    assert!(rt; outcome == Ok(55) || outcome == Err(LiveFault::OutOfMemory));
}

/// What is said where a thread could not be made, and the status.
#[test]
fn no_thread(rt: HostRuntime) {
    let errors = "refused 12: no thread\n";
    assert!(rt;
        is_ended(
            rt.alloc(),
            Err(NoSum::NoThread),
            0,
            Ending::NoThread,
            errors
        )
    );
    assert!(rt; Ending::NoThread.status() == 3);
}

/// A sink that fails has taken what was written before, and the ending says that it failed.
#[test]
fn failing_sinks(rt: HostRuntime) {
    for writes in 0..TEXT.len() {
        let ending = Ending::Failed(Fault::Write);
        assert!(rt;
            is_ended(rt.alloc(), Ok(55), writes, ending, "fault 11: write\n"),
            "at {writes}"
        );
    }
}
