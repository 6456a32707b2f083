//! The columns: which threads have one, and what stands in it.
//!
//! A column has two marks and a blank. The words of a turn stand beside the columns, since one
//! thread makes each turn. That leaves room for sixteen threads and for the whole of what a turn has
//! done.

ghost use Rattle.std.specs.Prelude.{◌<◌, ◌≤◌};

use crate::sight::{Sight, has};
use ns_model::seats::Seats;
use std::alloc::AllocError;

/// How many threads may have a column.
const COLUMNS: u8 = 16;

/// How many threads come before this one, which have more calls, or as many and a lower number.
fn rank(calls: &[usize; 64], thread: u8) -> u8
    requires { thread < 64 }
{
    let mine = calls[thread as usize];
    let mut ahead = 0u8;
    for (other, count) in calls.iter().enumerate() {
        if mine < *count || (mine == *count && other < thread as usize) {
            ahead = ahead.saturating_add(1);
        }
    }
    ahead
}

/// Of so many threads those that have a column: the busiest, by how many calls each has begun.
pub fn busiest(calls: &[usize; 64], threads: u8) -> Seats
    requires { threads ≤ 64 }
{
    let mut shown = Seats::none();
    for thread in 0..threads {
        if rank(calls, thread) < COLUMNS {
            shown = shown.with(thread);
        }
    }
    shown
}

/// The bar of a section: `#` for one that writes, `:` for one that reads.
fn bar(sight: &Sight, thread: u8) -> char {
    if has(sight.writers, thread) {
        '#'
    } else if has(sight.readers, thread) {
        ':'
    } else {
        ' '
    }
}

/// The number of the condition variable that a thread waits for, the lowest where it waits for several, or
/// `z` if it waits in the lock's list.
fn list(sight: &Sight, thread: u8) -> Option<char> {
    if has(sight.lock, thread) {
        return Some('z');
    }
    let [first, second, third, fourth] = sight.variables;
    if has(first, thread) {
        Some('0')
    } else if has(second, thread) {
        Some('1')
    } else if has(third, thread) {
        Some('2')
    } else if has(fourth, thread) {
        Some('3')
    } else {
        None
    }
}

/// Where a thread stands in its call, if it is in one.
fn place(sight: &Sight, thread: u8) -> char {
    if sight.queues == Some(thread) {
        '@'
    } else if has(sight.called(), thread) {
        '!'
    } else if let Some(list) = list(sight, thread) {
        list
    } else if has(sight.busy, thread) {
        '.'
    } else {
        ' '
    }
}

/// The columns of those who have one.
pub fn push_columns(out: &mut String, shown: Seats, sight: &Sight) -> Result<(), AllocError> {
    for thread in 0..64u8 {
        if has(shown, thread) {
            out.push(bar(sight, thread))?;
            out.push(place(sight, thread))?;
            out.push(' ')?;
        }
    }
    Ok(())
}

/// The numbers of those who have a column.
pub fn push_numbers(out: &mut String, shown: Seats) -> Result<(), AllocError> {
    for thread in 0..64u8 {
        if has(shown, thread) {
            write!(out, "{thread:<3}")?;
        }
    }
    Ok(())
}
