//! The program `ns_cli`: replays scripts from standard input to standard output, and has live threads
//! use the lock.
//!
//! It only reads its words, passes them and the process's streams on to the command, which is
//! ns_command's, and makes the threads by ns_live where those are asked for. `./ns_cli` runs it.
#![tactic(auto)]

ghost use Rattle.std.specs.Prelude.{◌≡◌, false};

use ns_command::{Answer, Console, Ending, NoSum, Prints, finish_live, run, without_words};
use ns_live::{LiveFault, live};
use ns_replay::{OverRead, OverWrite, Sink};
use std::sync::Wait;
use std::thread::Threads;
use std::{env, io};

/// The words of the program, the first of which is its name.
fn words(rt: &HostRuntime) -> io::Result<Vec<String>> {
    Ok(env::args(rt)?.collect(rt.alloc())?)
}

/// Has live threads put so many items through a ring, and ends the run by their sum.
fn run_live<R: AllocGlobal + Threads + Wait + Sync, W: Sink, P: Prints>(
    rt: &R,
    items: u32,
    sink: &mut W,
    printer: &mut P,
) -> Ending
    requires { W.has_failed sink.old ≡ false }
{
    let outcome = live(rt, rt.alloc(), u64::from(items)).map_err(|fault| match fault {
        LiveFault::OutOfMemory => NoSum::OutOfMemory,
        LiveFault::NoThread => NoSum::NoThread,
    });
    finish_live(rt.alloc(), items, outcome, sink, printer)
}

fn main(rt: HostRuntime) -> Ending {
    let mut console = Console::new(&rt);
    let answer = match words(&rt) {
        Ok(words) => {
            let mut source = OverRead::new(rt.stdin());
            let mut sink = OverWrite::new(rt.stdout());
            run(
                rt.alloc(),
                words.as_slice(),
                &mut source,
                &mut sink,
                &mut console,
            )
        }
        Err(error) => Answer::Ended(without_words(&mut console, &error)),
    };
    match answer {
        Answer::LiveAsked(items) => {
            let mut sink = OverWrite::new(rt.stdout());
            run_live(&rt, items, &mut sink, &mut console)
        }
        Answer::Ended(ending) => ending,
    }
}
