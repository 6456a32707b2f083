//! What was seen of a run, beside what was wanted.

use crate::row::Seen;
use std::io;

/// A line that differs.
#[derive(Drop)]
struct Difference<'a> {
    number: usize,
    wanted: Option<&'a str>,
    got: Option<&'a str>,
}

/// The first line that differs, if one does.
fn first_difference<'a>(wanted: &'a str, got: &'a str) -> Option<Difference<'a>> {
    let mut wanted = wanted.split('\n');
    let mut got = got.split('\n');
    for number in 1..usize::MAX {
        let pair = (wanted.next(), got.next());
        match pair {
            (None, None) => return None,
            (wanted, got) => {
                if wanted != got {
                    return Some(Difference {
                        number,
                        wanted,
                        got,
                    });
                }
            }
        }
    }
    None
}

/// Prints the first line that differs, if one does.
fn report_text(rt: &impl Print, side: &str, wanted: &[u8], got: &[u8]) -> io::Result<()> {
    let wanted = str::from_utf8(wanted).unwrap_or("no text");
    let got = str::from_utf8(got).unwrap_or("no text");
    let Some(found) = first_difference(wanted, got) else {
        return Ok(());
    };
    let number = found.number;
    let wanted = found.wanted.unwrap_or("no more");
    let got = found.got.unwrap_or("no more");
    println!(rt; "  {side}, line {number}: wanted: {wanted}")?;
    println!(rt; "  {side}, line {number}: got: {got}")
}

/// Prints whether what was seen of the row is what was wanted, and else where it differs.
pub fn report(rt: &impl Print, name: &str, wanted: &Seen, got: &Seen) -> io::Result<()> {
    if wanted.output == got.output && wanted.errors == got.errors && wanted.status == got.status {
        return println!(rt; "{name}: ok");
    }
    println!(rt; "{name}: FAILED")?;
    report_text(rt, "stdout", &wanted.output, &got.output)?;
    report_text(rt, "stderr", &wanted.errors, &got.errors)?;
    if wanted.status != got.status {
        let wanted = wanted.status;
        let got = got.status;
        println!(rt; "  status: wanted {wanted}, got {got}")?;
    }
    Ok(())
}
