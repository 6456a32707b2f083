//! The program `ns_stress`: threads that meet in a monitor at random, and counts that have to come out.
//!
//!     ns_stress SEED ROUNDS
//!
//! In each round 3 to 6 threads share a monitor, a clock and notes. They hand a turn round, or give and
//! take goods, by waits with and without limits, or sleep at condition variables until one of them calls;
//! and between that they make sections of all kinds, and wait for one of two variables, or for either, by
//! which one thread more rouses them until their work is done. What they do is drawn from the seed; in
//! which order it happens is left to the machine. Whatever that is, each wait has to come to an end, and the
//! counts of a round are known beforehand, or, of wakes, have to agree: who is called is woken, and nobody
//! else.
//!
//! Behind each round two threads hand a turn to and fro by 1,024 fresh notes. The program calls
//! ns_monitor and ns_note.
//!
//! The last line is `seed SEED ok`, with status 0, or `seed SEED round ROUND wrong: WHAT`, with status 3.
//! Where memory is refused, the status is 4, and where the words are wrong, 2.
#![tactic(auto)]

mod asked;
mod calls;
mod door;
mod kit;
mod market;
mod notes;
mod ring;
mod round;
mod rousing;
mod sections;
mod waits;
mod wish;

use crate::asked::{Asked, parsed};
use crate::round::Verdict;
use std::process::ExitCode;
use std::sync::Wait;
use std::thread::Threads;
use std::{env, io};

/// How often two threads hand a turn round by the notes of an environment, behind each round: 64 notes
/// each time, so 1,024 a round.
const ENVIRONMENTS: u32 = 16;

/// A round of this number, and behind it the notes that are handed round.
fn one_round<R: AllocGlobal + Threads + Wait + Sync>(rt: &R, seed: u64, round: u64) -> Verdict {
    let mut verdict = round::run(rt, rt.alloc(), seed, round);
    for _ in 0..ENVIRONMENTS {
        if let Verdict::Right = verdict {
            verdict = notes::run(rt, rt.alloc());
        }
    }
    verdict
}

/// Makes the rounds that are asked for, up to the first that is wrong, and prints what came of them.
fn run<R: AllocGlobal + Print + Threads + Wait + Sync>(
    rt: &R,
    asked: Asked,
) -> io::Result<ExitCode> {
    let Asked { seed, rounds } = asked;
    for round in 0..rounds {
        match one_round(rt, seed, round) {
            Verdict::Right => (),
            Verdict::Wrong(what) => {
                println!(rt; "seed {seed} round {round} wrong: {what}")?;
                return Ok(ExitCode::from(3));
            }
            Verdict::NoMemory => {
                println!(rt; "seed {seed} round {round} has no memory")?;
                return Ok(ExitCode::from(4));
            }
        }
    }
    println!(rt; "seed {seed} ok")?;
    Ok(ExitCode::SUCCESS)
}

fn main(rt: HostRuntime) -> io::Result<ExitCode> {
    let words: Vec<String> = env::args(&rt)?.collect(rt.alloc())?;
    let Some(asked) = parsed(words.as_slice()) else {
        eprintln!(rt; "usage: ns_stress SEED ROUNDS")?;
        return Ok(ExitCode::from(2));
    };
    run(&rt, asked)
}
