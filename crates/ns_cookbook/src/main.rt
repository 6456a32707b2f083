//! A short function for each thing that a program comes to the library for. docs/USING.md shows them.
//!
//! Each has its threads end by themselves, and its result is the same in every run. It rests on ns_monitor,
//! ns_note and ns_objects, and takes its conditions and its ring from ns_fixtures.
#![tactic(auto)]

mod deadlines;
mod guarding;
mod sharing;
mod waiting;

use crate::deadlines::early_ends;
use crate::guarding::{debug_call, guarded_value, quiet_release, readers_and_a_writer};
use crate::sharing::{made_once, wait_group, whichever_first, whichever_first_held};
use crate::waiting::{condition, queue_by_conditions, queue_by_variables};
use anyhow::{Context, Result};
use std::alloc::Global;
use std::sync::Wait;
use std::thread::Threads;
use std::time::Clock;

/// A value behind a lock.
fn guard<R: Print + Threads + Wait + Sync>(rt: &R, alloc: Global) -> Result<()> {
    let sum = guarded_value(rt, alloc).context("no memory")?;
    println!(rt; "a guarded value: {sum}")?;
    let torn = readers_and_a_writer(rt, alloc).context("no memory")?;
    println!(rt; "readers and a writer: {torn} torn")?;
    Ok(())
}

/// Waits for a condition, and for condition variables.
fn wait<R: Print + Threads + Wait + Sync>(rt: &R, alloc: Global) -> Result<()> {
    let found = condition(rt, alloc).context("no memory")?;
    println!(rt; "a condition: {found}")?;
    let sum = queue_by_conditions(rt, alloc).context("no memory")?;
    println!(rt; "a bounded queue by conditions: {sum}")?;
    let sum = queue_by_variables(rt, alloc).context("no memory")?;
    println!(rt; "by condition variables: {sum}")?;
    Ok(())
}

/// Waits that end early.
fn end_early<R: Print + Threads + Wait + Sync + Clock>(rt: &R, alloc: Global) -> Result<()> {
    let early = early_ends(rt, alloc).context("no memory, or no clock")?;
    println!(rt; "a deadline: {:?}", early.deadline)?;
    println!(rt; "in milliseconds: {:?}", early.milliseconds)?;
    println!(rt; "a canceled tree: {:?}", early.canceled)?;
    Ok(())
}

/// Counters, a value made once, and waits for any of several.
fn share<R: Print + Threads + Wait + Sync>(rt: &R, alloc: Global) -> Result<()> {
    let left = wait_group(rt, alloc).context("no memory")?;
    println!(rt; "a wait group: {left}")?;
    let once = made_once(rt, alloc).context("no memory")?;
    println!(rt; "made once: {once}")?;
    let place = whichever_first(rt, alloc).context("no memory")?;
    println!(rt; "whichever comes first: {place}")?;
    let place = whichever_first_held(rt, alloc).context("no memory")?;
    println!(rt; "with a lock held: {place}")?;
    Ok(())
}

/// A quiet release, and what the debug call shows.
fn look<R: Print + Wait>(rt: &R, alloc: Global) -> Result<()> {
    let is_quiet = quiet_release(rt, alloc).context("no memory")?;
    println!(rt; "a quiet release: {is_quiet}")?;
    let (writes, readers, waiters) = debug_call(rt, alloc).context("no memory")?;
    println!(rt; "the debug call: {writes} {readers} {waiters}")?;
    Ok(())
}

fn main(rt: HostRuntime) -> Result<()> {
    let alloc = rt.alloc();
    guard(&rt, alloc)?;
    wait(&rt, alloc)?;
    end_early(&rt, alloc)?;
    share(&rt, alloc)?;
    look(&rt, alloc)
}
