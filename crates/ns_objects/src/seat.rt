//! The seats through which callers use objects.

ghost use Rattle.ns_objects.specs.Known.{IsTrueToHistory};

use crate::view::View;
use std::marker::Model;

/// A seat on the table, with what it knows.
pub(crate) type TableSeat = atomic_table::Seat<(), View>;

/// A seat of some objects. Each call takes one, and each caller needs its own.
///
/// For contracts it carries which objects it is of and how they were made, its own number, the
/// history of all of them that it has seen, and its own events in it. It has no bytes.
#[derive(Drop)]
pub struct ObjSeat {
    /// The seat of the table, which carries what is known.
    pub(crate) seat: TableSeat,
}

impl Model for ObjSeat {
    ghost use Rattle.ns_objects.specs.Known.{ObjectsKnown, IsAtRest, known_of, the};

    ghost Value = { ObjectsKnown };

    ghost view = { λ s. known_of s.seat.table_id (the s.seat.me.0) };

    ghost invariant = { λ s. IsAtRest s.seat.table_id s.seat.me };
}

impl ObjSeat {
    /// Attests what is so of each seat: what it has seen is a legal history by the seats that there
    /// are, in which its own events are just its own. It does nothing.
    pub fn attest(&self)
        ensures { IsTrueToHistory self.now }
    {
        let _ = &self.seat;
    }
}
