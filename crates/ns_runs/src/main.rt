//! The program `ns_runs`: a lock list that is changed at random, beside a plain list. The lock list
//! is ns_queue's, called by itself, without a lock.
//!
//!     ns_runs SEED OPERATIONS
//!
//! The conditions are declared the same in a way that is not symmetric, and then in one that is not
//! transitive. So whoever is the first of a run decides how far that goes, and one more or one less may part
//! the waiters behind it otherwise. Which runs there are shows in how many conditions a scan tests. What is
//! done is drawn from the seed, and after each operation the waiters, what they are counted as, and the tests
//! of a scan have to be those of the plain list.
//!
//! For each of the two, with some waiters that have no condition and then with none such, the program prints
//! `ok OPERATIONS`, and ends with status 0, or it prints `operation OPERATION differs`, and ends with status 3.
//! Where the words are wrong, the status is 2.
#![tactic(auto)]

mod pair;
mod plain;
mod tag;

use crate::pair::{agree, step};
use crate::tag::{Near, Rising, Tagged};
use arrayvec::ArrayVec;
use ns_queue::queues::Queues;
use rand_pcg::Pcg32;
use std::process::ExitCode;
use std::{env, io};

/// What the words ask for: what the draws begin with, and how many operations are done.
fn asked(words: &[String]) -> Option<(u64, u64)> {
    let [_, seed, operations] = words else {
        return None;
    };
    Some((seed.parse().ok()?, operations.parse().ok()?))
}

/// Does so many operations, and answers at which the lists differ, if they do. Each waiter has a condition
/// where that is asked.
fn differing<C: Tagged>(seed: u64, operations: u64, conditional: bool) -> Option<u64> {
    let mut draws = Pcg32::new(seed, 0);
    let mut queues: Queues<C, 2> = Queues::new();
    let mut plain = ArrayVec::new();
    for operation in 0..operations {
        if !step(&mut queues, &mut plain, &mut draws, conditional)
            || !agree(&mut queues, plain.as_slice())
        {
            return Some(operation);
        }
    }
    None
}

/// Prints whether the lists differ, and answers whether they don't.
fn report<R: Print>(rt: &R, operations: u64, differing: Option<u64>) -> io::Result<bool> {
    match differing {
        Some(operation) => println!(rt; "operation {operation} differs")?,
        None => println!(rt; "ok {operations}")?,
    }
    Ok(differing.is_none())
}

/// Compares the lists over conditions of one type: with some waiters that have none, and then with none such,
/// where each scan looks at the links that the changes have left. Answers whether they never differ.
fn compare<C: Tagged, R: Print>(rt: &R, seed: u64, operations: u64) -> io::Result<bool> {
    let with_some = report(rt, operations, differing::<C>(seed, operations, false))?;
    let with_none = report(rt, operations, differing::<C>(seed, operations, true))?;
    Ok(with_some && with_none)
}

fn main(rt: HostRuntime) -> io::Result<ExitCode> {
    let words: Vec<String> = env::args(&rt)?.collect(rt.alloc())?;
    let Some((seed, operations)) = asked(words.as_slice()) else {
        eprintln!(rt; "usage: ns_runs SEED OPERATIONS")?;
        return Ok(ExitCode::from(2));
    };
    let rising = compare::<Rising, _>(&rt, seed, operations)?;
    let near = compare::<Near, _>(&rt, seed, operations)?;
    Ok(ExitCode::from(if rising && near { 0 } else { 3 }))
}
