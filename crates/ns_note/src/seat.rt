//! The seats through which callers use an environment.

ghost use Rattle.ns_note.specs.Known.{IsTrueToHistory};

use crate::view::View;
use std::marker::Model;

/// A seat on the table, with what it knows.
pub(crate) type TableSeat = atomic_table::Seat<(), View>;

/// A seat of an environment. Each call takes one, and each caller needs its own.
///
/// For contracts it carries which environment it is of, how many seats that has, its own number,
/// the history of the environment that it has seen, and its own events in it. At run time it has its
/// number alone, one byte.
#[derive(Drop)]
pub struct EnvSeat {
    /// The seat of the table, which carries what is known.
    pub(crate) seat: TableSeat,
    /// The seat's number, by which it finds its bell.
    pub(crate) number: u8,
}

impl Model for EnvSeat {
    ghost use Rattle.ns_note.specs.Known.{EnvKnown, IsAtRest, IsNumberOf, known_of, the};

    ghost Value = { EnvKnown };

    ghost view = { λ s. known_of s.seat.table_id (the s.seat.me.0) };

    ghost invariant = { λ s. IsAtRest s.seat.table_id s.seat.me × IsNumberOf s.number s.seat.me };
}

impl EnvSeat {
    /// Attests what is so of each seat: what it has seen is a legal history by the seats that there
    /// are, in which its own events are just its own. It does nothing.
    pub fn attest(&self)
        ensures { IsTrueToHistory self.now }
    {
        let _ = &self.seat;
    }
}
