//! A row: what a run of the program is given, and what it must print.

ghost use Rattle.std.specs.Prelude.{◌≡◌, false};

use crate::memory::{Collected, Given, Printed};
use ns_command::{Answer, Ending, NoSum, finish_live, run};
use ns_live::{LiveFault, live};
use std::alloc::{AllocError, Global};
use std::rt::Files;
use std::sync::Wait;
use std::thread::Threads;
use std::{fs, io};

/// What a user sees of a run.
#[derive(Drop)]
pub struct Seen {
    pub output: Vec<u8>,
    pub errors: Vec<u8>,
    pub status: u8,
}

/// What a run is given, and what must be seen of it.
#[derive(Drop)]
pub struct Row {
    words: Vec<String>,
    input: Vec<u8>,
    pub wanted: Seen,
}

/// The path of a row's file.
fn path<R: AllocGlobal>(
    rt: &R,
    folder: &str,
    row: &str,
    ending: &str,
) -> Result<String, AllocError> {
    format!(in rt.alloc(); "{folder}/{row}.{ending}")
}

/// The bytes of a row's file, none if it is missing.
fn file<R: Files + AllocGlobal>(
    rt: &R,
    folder: &str,
    row: &str,
    ending: &str,
) -> io::Result<Vec<u8>> {
    let path = path(rt, folder, row, ending)?;
    match fs::read(rt, path.as_str()) {
        Err(error) if error.kind() == io::ErrorKind::NotFound => Ok(Vec::new(rt.alloc())),
        answer => answer,
    }
}

/// The words of a row.
fn words<R: Files + AllocGlobal>(rt: &R, folder: &str, row: &str) -> io::Result<Vec<String>> {
    let path = path(rt, folder, row, "args")?;
    let text = fs::read_to_string(rt, path.as_str())?;
    Ok(words_in(rt.alloc(), text.as_str())?)
}

/// What a row must print, whose file has to be there.
fn output<R: Files + AllocGlobal>(rt: &R, folder: &str, row: &str) -> io::Result<Vec<u8>> {
    let path = path(rt, folder, row, "stdout")?;
    fs::read(rt, path.as_str())
}

/// The program's name, and then a word for each line.
pub fn words_in(alloc: Global, text: &str) -> Result<Vec<String>, AllocError> {
    let mut words = Vec::new(alloc);
    words.push(String::from_str(alloc, "ns_cli")?)?;
    for word in text.lines() {
        words.push(String::from_str(alloc, word)?)?;
    }
    Ok(words)
}

/// The number that the bytes write, 0 if there are none.
fn status_in(bytes: &[u8]) -> io::Result<u8> {
    if bytes.is_empty() {
        return Ok(0);
    }
    let text = str::from_utf8(bytes).unwrap_or("");
    match text.trim().parse::<u8>() {
        Ok(status) => Ok(status),
        Err(_) => Err(io::Error::from(io::ErrorKind::InvalidData)),
    }
}

/// Makes the live threads that a run has asked for. Answers how that ended, and what was written.
fn run_live<R: AllocGlobal + Threads + Wait + Sync>(
    rt: &R,
    items: u32,
    printer: &mut Printed,
) -> (Ending, Vec<u8>) {
    let mut sink = Collected::new(rt.alloc());
    let outcome = live(rt, rt.alloc(), u64::from(items)).map_err(|fault| match fault {
        LiveFault::OutOfMemory => NoSum::OutOfMemory,
        LiveFault::NoThread => NoSum::NoThread,
    });
    let ending = finish_live(rt.alloc(), items, outcome, &mut sink, printer);
    (ending, sink.into_bytes())
}

/// What is seen of a run by these words over these streams. Live threads write to a sink of their own.
pub fn run_seen<R: AllocGlobal + Threads + Wait + Sync>(
    rt: &R,
    words: &[String],
    source: Given,
    sink: Collected,
    printer: Printed,
) -> Result<Seen, AllocError>
    requires source { source.has_failed ≡ false }
    requires sink { sink.has_failed ≡ false }
{
    let mut source = source;
    let mut sink = sink;
    let mut printer = printer;
    let answer = run(rt.alloc(), words, &mut source, &mut sink, &mut printer);
    let mut output = sink.into_bytes();
    let ending = match answer {
        Answer::LiveAsked(items) => {
            let (ending, written) = run_live(rt, items, &mut printer);
            output.extend_from_slice(&written)?;
            ending
        }
        Answer::Ended(ending) => ending,
    };
    output.extend_from_slice(printer.output.as_bytes())?;
    Ok(Seen {
        output,
        errors: printer.errors.into_bytes(),
        status: ending.status(),
    })
}

impl Seen {
    /// Reads what must be seen of the row of this name.
    fn read<R: Files + AllocGlobal>(rt: &R, folder: &str, name: &str) -> io::Result<Seen> {
        let status = status_in(&file(rt, folder, name, "status")?)?;
        Ok(Seen {
            output: output(rt, folder, name)?,
            errors: file(rt, folder, name, "stderr")?,
            status,
        })
    }
}

impl Row {
    /// Reads the files of the row of this name, which has the input of the row `given`.
    pub fn read<R: Files + AllocGlobal>(
        rt: &R,
        folder: &str,
        name: &str,
        given: &str,
    ) -> io::Result<Row> {
        Ok(Row {
            words: words(rt, folder, name)?,
            input: file(rt, folder, given, "json")?,
            wanted: Seen::read(rt, folder, name)?,
        })
    }

    /// What is seen of a run of the program in memory.
    pub fn run<R: AllocGlobal + Threads + Wait + Sync>(&self, rt: &R) -> Result<Seen, AllocError> {
        run_seen(
            rt,
            self.words.as_slice(),
            Given::new(&self.input),
            Collected::new(rt.alloc()),
            Printed::new(rt.alloc()),
        )
    }
}
