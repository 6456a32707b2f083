//! Runs the rows of `data/` through the command, each over streams in memory, and says of each
//! whether it printed what it must, and ended as it must.
//!
//! A row is what a user sees of one run of the program, as files: `NAME.args` has its words, one a
//! line, `NAME.json` its standard input, `NAME.stdout` and `NAME.stderr` what it must print, and
//! `NAME.status` its exit status. Input and errors are empty where their file is missing, and the
//! status is 0. The file `rows` lists the names; a row `NAME of OTHER` has the input of the row `OTHER`.
//!
//! The folder of the rows may be named by a word, as `rt run -- data`; else it is the one that the
//! program runs in.
//!
//! A row goes through the whole command, which is ns_command's, so that nothing between the words and the
//! exit status stays untested; a row more costs the gate nothing. `#[test]` functions have what no file can
//! show: streams that fail, memory that is refused, the ends of live threads, the examples of the plain
//! libraries.
#![tactic(auto)]

mod compare;
#[cfg(test)]
mod costs;
#[cfg(test)]
mod examples;
#[cfg(test)]
mod live;
mod memory;
#[cfg(test)]
mod model;
#[cfg(test)]
mod queue;
#[cfg(test)]
mod replay;
mod row;
#[cfg(test)]
mod tests;
#[cfg(test)]
mod words;

use crate::compare::report;
use crate::row::Row;
use std::rt::Files;
use std::sync::Wait;
use std::thread::Threads;
use std::{env, fs, io};

/// Runs the row that a line of the list names, and prints what came of it.
fn try_row<R: Files + AllocGlobal + Print + Threads + Wait + Sync>(
    rt: &R,
    folder: &str,
    line: &str,
) -> io::Result<()> {
    let (name, given) = line.split_once(" of ").unwrap_or((line, line));
    match Row::read(rt, folder, name, given) {
        Ok(row) => {
            let got = row.run(rt)?;
            report(rt, name, &row.wanted, &got)
        }
        Err(error) => println!(rt; "{name}: FAILED\n  it can't be read: {error}"),
    }
}

fn main(rt: HostRuntime) -> io::Result<()> {
    let given = env::args(&rt)?.nth(1);
    let folder = match &given {
        Some(folder) => folder.as_str(),
        None => ".",
    };
    let list = format!(in rt.alloc(); "{folder}/rows")?;
    let names = fs::read_to_string(&rt, list.as_str())?;
    for line in names.lines() {
        if !line.is_empty() && !line.starts_with('#') {
            try_row(&rt, folder, line)?;
        }
    }
    Ok(())
}
