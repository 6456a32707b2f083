//! The example at the head of the crate.

use ns_replay::{Fault, Options, OverRead, OverWrite, replay};
use std::test::Fail;

#[test]
fn head_example(rt: HostRuntime) -> Result<(), Fail> {
    let script = b"{\"version\":1,\"threads\":[[\"trylock\",\"unlock\"]],\"schedule\":\"0!*2\"}";
    let options = Options {
        history: true,
        tests: false,
        state: false,
        limit: 1_000,
    };
    let mut text = Vec::new(rt.alloc()); // or `rt.stdout()`, over `rt.stdin()`
    let mut source = OverRead::new(script.as_slice());
    let mut sink = OverWrite::new(&mut text);
    match replay(rt.alloc(), &mut source, &mut sink, options) {
        Ok(()) => {}
        Err(Fault::Read | Fault::Write) => return Err(Fail::from("a stream failed")),
        Err(fault) => rt.eprintln(fault)?, // `refused 7: bad script at /threads/0/1`
    }
    assert!(rt; text.starts_with(b"0 0 ok\n0 1 ok\n"));
    Ok(())
}
