//! Seats of a gate that are driven by walks as values, act by act, each made by `Gate::perform`.
//!
//! One thread drives all seats. A call goes from what its place wants to where its walk goes, and stands where it waits
//! until another seat has let it go on. What is known of a seat that is driven, and when it may make an act, is
//! in `specs/`: the contracts of tests speak of it.
//!
//! There is nothing here but tests, and the types that `specs/` speaks of. They rest on ns_gate alone, so they can begin
//! once that is proved.
#![tactic(auto)]

#[cfg(test)]
mod asks;
#[cfg(test)]
mod driver;
#[cfg(test)]
mod hand;
pub mod known;
#[cfg(test)]
mod learnt;
#[cfg(test)]
mod prepared;
#[cfg(test)]
mod scans;
#[cfg(test)]
mod seats;
#[cfg(test)]
mod turns;
#[cfg(test)]
mod wakes;
#[cfg(test)]
mod walks;
