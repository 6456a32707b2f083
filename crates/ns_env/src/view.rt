//! What a seat knows. These are values of the proof: no value of them is made.

use ns_model::environment::EnvEvent;
use std::collections::LinkedList;

/// How far a seat has come in making a note.
pub enum Making {
    /// It makes none.
    Nothing,
    /// It has seen that a number is free, and goes to take one.
    Adding,
    /// It has taken this number, and goes to make the note.
    Taken(u8),
}

/// What one seat knows: how many seats its environment has, its own number, the history that it
/// has seen, and its own events in it.
pub struct EnvView {
    /// How many seats the environment has.
    pub seat_count: u8,
    /// The seat's own number.
    pub seat: u8,
    /// How far it has come in making a note.
    pub making: Making,
    /// The history that it has seen.
    pub seen: LinkedList<EnvEvent>,
    /// Its own events in that history.
    pub mine: LinkedList<EnvEvent>,
}
