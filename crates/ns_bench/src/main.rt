//! The program `ns_bench`: times a monitor. It calls ns_monitor, ns_note and ns_objects as any program
//! does, and takes its ring from ns_fixtures.
//!
//!     ns_bench WORKLOAD THREADS OPERATIONS
//!
//! So many threads make so many operations together, each its share. One of a pair is the main thread, which also makes
//! what is done past waiters (`ccs_false_*`, `ccs_silent`, `cv_bcast`, `idle_timed`); no other thread is. A run with 0
//! operations does all the rest, so that the difference of two runs is the operations' time.
//!
//! * `mu_lock`, `mu_try`, `mu_rlock`, `mu_rtry`, `rw_wlock`: a short section that writes or reads, by a
//!   call that waits for the lock or by a try; `mu_long`: a long one; `mu_out`: long work between short
//!   ones; `fair`: as many as each thread gets; `mix90`, `mix99`, `mixlong99`: so many of a hundred
//!   read; `wlat`: one writes beside long sections that read.
//! * `ccs_pp`: two threads hand a turn to and fro by waits for a condition; `live`: a ring of four cells
//!   between threads that put and threads that take.
//! * `ccs_false_same`, `ccs_false_odd`, `ccs_false_each`: a section beside waiters whose conditions stay
//!   false, which are one, or one and another, or each another; `ccs_false_rd`: a section that reads;
//!   `ccs_silent`: a release without a wakeup; `ccs_true_same`, `ccs_true_each`: one of the waiters is
//!   asked and answers.
//! * `cv_pp`, `live_cv`: as `ccs_pp` and `live`, but by condition variables; `cv_bcast`: a broadcast to all
//!   threads, the last of which signals that it is through; `cv_signal`: a signal with nobody waiting.
//! * `idle_timed`: long work beside threads that wait with a deadline for what doesn't come.
//! * `to0_mu`, `to0_cv`, `to0_note`, `cancel0`: a wait whose deadline has come, or whose note is notified;
//!   `note_no`, `note_yes`, `note_child`: a look at a note; `note_pp`: two threads hand a turn to and fro by
//!   notes.
//! * `waitn_ready`: a wait for any of three notes of which the last is notified; `to_tick`: a wait with a deadline
//!   fifty ticks ahead, where a second thread moves the clock by one about each millisecond.
//! * `counter_add`: a change of a counter for which nobody waits; `once_done`: a call that would have a
//!   function run once, which has run.
//! * `pairs`: one thread makes so many pairs of an acquire by a try and a release, and as many by hand on
//!   one word, and prints the medians of both in nanoseconds a pair, and how many times as long one takes
//!   as the other; `mu`: the same, but each acquire is by a call that may wait.
//!
//! The last line is `done OPERATIONS`, with status 0; `wrong WORKLOAD`, with status 3, where the
//! workload did not end as it must; or `lacks WORKLOAD`, with status 4, where there is no such
//! workload for so many threads. Where the words are wrong, the status is 2.
#![tactic(auto)]

mod amount;
mod asked;
mod conditions;
mod contending;
mod crowd;
mod hand_over;
mod idle;
mod limits;
mod long_reads;
mod mixed;
mod never;
mod note_turns;
mod notes;
mod objects;
mod pairs;
mod ring;
mod ring_variables;
mod running;
mod sections;
mod several;
mod signals;
mod steps;
mod ticking;
mod variables;
mod waiting;

use crate::amount::Amount;
use crate::asked::parsed;
use crate::contending::Contending;
use crate::limits::EarlyEnd;
use crate::notes::Looks;
use crate::objects::Sharing;
use crate::pairs::Medians;
use crate::variables::Signaling;
use crate::waiting::{Beside, Marked, Waiting};
use std::process::ExitCode;
use std::sync::Wait;
use std::thread::Threads;
use std::time::Clock;
use std::{env, io};

/// How a workload ended.
#[derive(Clone, Copy, Drop)]
enum Ended {
    /// As it must.
    Done,
    /// Otherwise.
    Wrong,
    /// It was not begun, since there is none.
    Lacks,
}

impl Ended {
    /// How a workload ended that was right or wasn't, or could not be begun.
    fn of(is_right: Option<bool>) -> Ended {
        match is_right {
            Some(true) => Ended::Done,
            Some(false) => Ended::Wrong,
            None => Ended::Lacks,
        }
    }
}

/// Prints what this is, in hundredths.
fn print_line<R: Print>(rt: &R, what: &str, hundredths: u64) -> io::Result<()> {
    println!(rt; "{what} {}.{:02}", hundredths / 100, hundredths % 100)
}

/// Prints the medians, and how many times as long one takes as the other.
fn print<R: Print>(rt: &R, medians: &Medians) -> io::Result<()> {
    print_line(rt, "monitor", medians.monitor)?;
    print_line(rt, "by hand", medians.by_hand)?;
    print_line(rt, "ratio", medians.ratio())
}

/// A workload.
#[derive(Clone, Copy)]
enum Workload {
    /// At a row of one cell.
    OneCell(Contending),
    /// At a row of six cells.
    SixCells(Waiting),
    /// At condition variables and a row of six cells.
    Variables(Signaling),
    /// At a counter or a once cell.
    Objects(Sharing),
    /// At a note.
    Notes(Looks),
    /// Waits that end at once.
    Limits(EarlyEnd),
    /// At the ring.
    Ring,
    /// At the ring, by condition variables.
    RingByVariables,
    /// Turns by notes.
    NoteTurns,
    /// Waits for any of several notes.
    AnyReady,
    /// Waits with a deadline, where the clock is moved.
    ToTick,
    /// Pairs, by tries or by locks.
    Pairs(bool),
}

/// Each workload by its name.
const WORKLOADS: [(&str, Workload); 40] = [
    ("mu_lock", Workload::OneCell(Contending::Lock)),
    ("rw_wlock", Workload::OneCell(Contending::Lock)),
    ("mu_try", Workload::OneCell(Contending::TryLock)),
    ("mu_rlock", Workload::OneCell(Contending::ReadLock)),
    ("mu_rtry", Workload::OneCell(Contending::TryReadLock)),
    ("mu_long", Workload::OneCell(Contending::LockLong)),
    ("mu_out", Workload::OneCell(Contending::LockAndWork)),
    ("fair", Workload::OneCell(Contending::Compete)),
    ("mix90", Workload::OneCell(Contending::Mix(90))),
    ("mix99", Workload::OneCell(Contending::Mix(99))),
    ("cv_signal", Workload::OneCell(Contending::Signal)),
    (
        "ccs_false_same",
        Workload::SixCells(Waiting::Crowd(Marked::Same, Beside::Tick)),
    ),
    (
        "ccs_false_odd",
        Workload::SixCells(Waiting::Crowd(Marked::Odd, Beside::Tick)),
    ),
    (
        "ccs_false_each",
        Workload::SixCells(Waiting::Crowd(Marked::Each, Beside::Tick)),
    ),
    (
        "ccs_false_rd",
        Workload::SixCells(Waiting::Crowd(Marked::Each, Beside::Read)),
    ),
    (
        "ccs_silent",
        Workload::SixCells(Waiting::Crowd(Marked::Each, Beside::TickQuietly)),
    ),
    (
        "ccs_true_same",
        Workload::SixCells(Waiting::Answer(Marked::Same)),
    ),
    (
        "ccs_true_each",
        Workload::SixCells(Waiting::Answer(Marked::Each)),
    ),
    ("ccs_pp", Workload::SixCells(Waiting::Turns)),
    ("mixlong99", Workload::SixCells(Waiting::MixLong(99))),
    ("wlat", Workload::SixCells(Waiting::OneWriter)),
    ("cv_pp", Workload::Variables(Signaling::Turns)),
    ("cv_bcast", Workload::Variables(Signaling::Rounds)),
    ("idle_timed", Workload::Variables(Signaling::Idle)),
    ("counter_add", Workload::Objects(Sharing::CountDown)),
    ("once_done", Workload::Objects(Sharing::AskDone)),
    ("note_no", Workload::Notes(Looks::Not)),
    ("note_yes", Workload::Notes(Looks::Notified)),
    ("note_child", Workload::Notes(Looks::Child)),
    ("to0_note", Workload::Notes(Looks::TimedOut)),
    ("to0_mu", Workload::Limits(EarlyEnd::Deadline)),
    ("to0_cv", Workload::Limits(EarlyEnd::DeadlineAtVariable)),
    ("cancel0", Workload::Limits(EarlyEnd::Note)),
    ("live", Workload::Ring),
    ("live_cv", Workload::RingByVariables),
    ("note_pp", Workload::NoteTurns),
    ("waitn_ready", Workload::AnyReady),
    ("to_tick", Workload::ToTick),
    ("pairs", Workload::Pairs(true)),
    ("mu", Workload::Pairs(false)),
];

/// The workload of this name, if there is one.
fn workload_of(name: &str) -> Option<Workload> {
    for (known, workload) in &WORKLOADS {
        if *known == name {
            return Some(*workload);
        }
    }
    None
}

/// Times pairs of an acquire and a release.
fn compare<R: AllocGlobal + Print + Clock + Wait>(
    rt: &R,
    by_tries: bool,
    amount: Amount,
) -> io::Result<Ended> {
    if amount.threads != 1 {
        return Ok(Ended::Lacks);
    }
    if let Some(medians) = pairs::run(rt, rt.alloc(), by_tries, amount.operations)? {
        print(rt, &medians)?;
    }
    Ok(Ended::Done)
}

/// Runs the workload that is asked for.
fn run<R: AllocGlobal + Print + Clock + Threads + Wait + Sync>(
    rt: &R,
    workload: Workload,
    amount: Amount,
) -> io::Result<Ended> {
    let is_right = match workload {
        Workload::OneCell(what) => contending::run(rt, rt.alloc(), what, amount),
        Workload::SixCells(what) => waiting::run(rt, rt.alloc(), what, amount),
        Workload::Variables(what) => variables::run(rt, rt.alloc(), what, amount),
        Workload::Objects(what) => objects::run(rt, rt.alloc(), what, amount),
        Workload::Notes(looks) => notes::run(rt, rt.alloc(), looks, amount),
        Workload::Limits(early_end) => limits::run(rt, rt.alloc(), early_end, amount),
        Workload::Ring => ring::run(rt, rt.alloc(), amount),
        Workload::RingByVariables => ring_variables::run(rt, rt.alloc(), amount),
        Workload::NoteTurns => note_turns::run(rt, rt.alloc(), amount),
        Workload::AnyReady => several::run(rt, rt.alloc(), amount),
        Workload::ToTick => ticking::run(rt, rt.alloc(), amount),
        Workload::Pairs(by_tries) => return compare(rt, by_tries, amount),
    };
    Ok(Ended::of(is_right))
}

/// Runs the workload that these words ask for, prints how it ended, and answers the status that the process ends
/// with.
fn answer<R: AllocGlobal + Print + Eprint + Clock + Threads + Wait + Sync>(
    rt: &R,
    words: &[String],
) -> io::Result<ExitCode> {
    let Some(asked) = parsed(words) else {
        eprintln!(rt; "usage: ns_bench WORKLOAD THREADS OPERATIONS")?;
        return Ok(ExitCode::from(2));
    };
    let amount = Amount {
        threads: asked.threads,
        operations: asked.operations,
    };
    let ended = match workload_of(asked.workload) {
        Some(workload) => run(rt, workload, amount)?,
        None => Ended::Lacks,
    };
    let (word, status) = match ended {
        Ended::Done => {
            println!(rt; "done {}", asked.operations)?;
            return Ok(ExitCode::SUCCESS);
        }
        Ended::Wrong => ("wrong", 3),
        Ended::Lacks => ("lacks", 4),
    };
    println!(rt; "{word} {}", asked.workload)?;
    Ok(ExitCode::from(status))
}

fn main(rt: HostRuntime) -> io::Result<ExitCode> {
    let words: Vec<String> = env::args(&rt)?.collect(rt.alloc())?;
    answer(&rt, words.as_slice())
}
