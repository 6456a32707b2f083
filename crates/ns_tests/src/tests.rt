//! Streams and printers that fail, which no file can show.

use crate::memory::{Collected, Given, Printed};
use crate::row::{Seen, run_seen, words_in};
use ns_command::without_words;
use std::alloc::Global;
use std::io;
use std::sync::Wait;
use std::test::Fail;
use std::thread::Threads;

/// The first path.
const FIRST: &str =
    "{\"version\":1,\"threads\":[[\"trylock\",\"set 0 5\",\"get 0\",\"unlock\"]],\"schedule\":\"0!*4\"}";

const FIRST_TEXT: &str = "0 0 ok\n0 1 ok\n0 2 5\n0 3 ok\nrow 5 0 0 0 0 0 0 0\n";

/// Whether this was seen.
fn is_seen(seen: &Seen, output: &[u8], errors: &str, status: u8) -> bool {
    seen.output.as_slice() == output
        && seen.errors.as_slice() == errors.as_bytes()
        && seen.status == status
}

/// Whether a replay of the first path, whose source fails after so many reads, and whose sink takes so many
/// bytes a write in so many writes, has written what that sink takes, and says this.
fn is_stopped<R: AllocGlobal + Threads + Wait + Sync>(
    rt: &R,
    reads: usize,
    room: usize,
    writes: usize,
    errors: &str,
) -> Result<bool, Fail> {
    let words = words_in(rt.alloc(), "replay")?;
    let got = run_seen(
        rt,
        words.as_slice(),
        Given::in_pieces(FIRST.as_bytes(), usize::MAX, reads),
        Collected::with_room(rt.alloc(), room, writes),
        Printed::new(rt.alloc()),
    )?;
    let front = room.saturating_mul(writes).min(FIRST_TEXT.len());
    Ok(is_seen(&got, &FIRST_TEXT.as_bytes()[..front], errors, 4))
}

/// A stream that fails is told on the error side, and by the status. `replay.rt` has each read and each write
/// fail in turn; that a run is told of it is a clause.
#[test]
fn failing_streams(rt: HostRuntime) -> Result<(), Fail> {
    assert!(rt; is_stopped(&rt, 1, 0, 0, "fault 10: read\n")?);
    assert!(rt; is_stopped(&rt, 2, 1, 17, "fault 11: write\n")?);
    assert!(rt; is_stopped(&rt, 2, 0, usize::MAX, "fault 11: write\n")?); // it takes nothing
    Ok(())
}

/// What is printed by a run of these words whose printer may fail, and the status: the words, whether the output
/// side and whether the error side takes what is printed, and what stands there.
type Printing = (&'static str, bool, bool, &'static str, &'static str, u8);

/// Help that can't be printed is a failed write; on the error side a failure changes no status.
const PRINTINGS: [Printing; 6] = [
    ("--help", false, true, "", "fault 11: write\n", 4),
    ("--version", false, true, "", "fault 11: write\n", 4),
    ("--version", true, false, "ns_cli 0.1.0\n", "", 0),
    ("play", true, false, "", "", 2),
    ("replay\n--limit\n6", true, false, "", "", 3),
    ("replay", false, false, FIRST_TEXT, "", 0),
];

/// Whether a run whose streams serve prints so.
fn is_printed<R: AllocGlobal + Threads + Wait + Sync>(
    rt: &R,
    row: &Printing,
) -> Result<bool, Fail> {
    let (words, takes_output, takes_errors, output, errors, status) = row;
    let words = words_in(rt.alloc(), words)?;
    let mut printer = Printed::new(rt.alloc());
    printer.takes_output = *takes_output;
    printer.takes_errors = *takes_errors;
    let source = Given::new(FIRST.as_bytes());
    let sink = Collected::new(rt.alloc());
    let got = run_seen(rt, words.as_slice(), source, sink, printer)?;
    Ok(is_seen(&got, output.as_bytes(), errors, *status))
}

#[test]
fn failing_printers(rt: HostRuntime) -> Result<(), Fail> {
    for row in PRINTINGS.iter() {
        assert!(rt; is_printed(&rt, row)?, "at {}", row.0);
    }
    Ok(())
}

/// Whether words that can't be read, for an error of this kind, are told so.
fn is_told(alloc: Global, kind: io::ErrorKind, errors: &str, status: u8) -> bool {
    let mut printer = Printed::new(alloc);
    let ending = without_words(&mut printer, &io::Error::from(kind));
    ending.status() == status && printer.errors.as_str() == errors && printer.output.is_empty()
}

#[test]
fn unread_words(rt: HostRuntime) {
    let memory = "refused 2: out of memory\n";
    assert!(rt; is_told(rt.alloc(), io::ErrorKind::OutOfMemory, memory, 3));
    let text = "error: the words are no text\n";
    assert!(rt; is_told(rt.alloc(), io::ErrorKind::InvalidData, text, 2));
}
