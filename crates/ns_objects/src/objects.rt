//! The counters and once cells of several callers.

ghost use Rattle.std.specs.Prelude.{◌≡◌, ◌<◌, ◌≤◌, ◌++◌, ◌↔◌, [], ◌∷◌, All, length, IfOk, Err, OnOk, replicate, ◌-◌, ◌+◌};
ghost use Rattle.ns_objects.specs.Prelude.{AreNew, AreOfOneHistory, Grows, IsAtRest, is_done, known_of, setup_of, standing_of, the};

use crate::plays::{FirstOut, Law, Learn, LoadCounter, LoadOnce, Together};
use crate::seat::{ObjSeat, TableSeat};
use crate::view::View;
use atomic_table::Table;
use ns_counters::made::MOST;
use ns_counters::object::Setup;
use ns_counters::word::{Stage, decode_counter, decode_once};
use ns_seats::fault::Fault;
use std::alloc::{AllocError, Global};
use std::marker::Model;

/// Up to 16 counters and up to 16 once cells, shared by up to 64 callers. Each call takes its
/// caller's seat, which has to be of these objects.
#[derive(Drop)]
pub struct Objects {
    pub(crate) table: Table<(), View, Setup, Law, Global>,
}

impl Model for Objects {
    ghost use Rattle.std.specs.Prelude.{◌≡◌};
    ghost use Rattle.atomic_table.specs.Seated.{TableId};

    ghost Value = { TableId };

    ghost view = { λ o. o.table.shared.table_id };

    ghost invariant = { λ o. (o.table.shared.table_id.words ≡ 32) × (o.table.shared.table_id.slots ≡ 0) };
}

/// One new seat.
fn seated(seat: TableSeat) -> ObjSeat
    requires { IsAtRest seat.table_id seat.me }
    ensures { result ≡ known_of seat.table_id (the seat.me.0) }
{
    ObjSeat { seat }
}

/// Puts a seat behind the others.
fn add(seats: &mut Vec<ObjSeat>, seat: ObjSeat) -> Result<(), AllocError>
    ensures { OnOk result (seats.new.items ≡ seats.old.items ++ seat ∷ []) }
{
    seats.push(seat)?;
    Ok(())
}

impl Objects {
    /// A counter for each of the values, by number, so many once cells, and the seats, one for each
    /// caller. nsync's `nsync_counter_new` and `NSYNC_ONCE_INIT`.
    ///
    /// Refuses more than 64 seats (`TooManySeats`) before it takes any memory, and refuses where memory
    /// is refused (`OutOfMemory`). Needs at least one seat, and at most 16 counters and 16 cells.
    pub fn new(
        alloc: Global,
        counters: &[u32],
        onces: usize,
        seats: usize,
    ) -> Result<(Objects, Vec<ObjSeat>), Fault>
        requires counters { length counters.now ≤ 16 }
        requires onces { onces ≤ 16 }
        requires seats { 0 < seats }
        ensures made { IfOk result (λ r. (length r.1.items ≡ seats) × AreNew r.0 (setup_of seats counters.now onces) 0 r.1.items) }
        ensures seats { IfOk result (λ r. All (λ seat. (seat.objects ≡ r.0) × (seat.setup ≡ setup_of seats counters.now onces)) r.1.items) }
        ensures refused { (result ≡ Err Fault.TooManySeats) ↔ (64 < seats) }
    {
        if seats > 64 {
            return Err(Fault::TooManySeats);
        }
        let setup = Setup::new(seats as u8, counters, onces as u8);
        let (table, mut rest) = Table::of_words(alloc, &setup.words(), &setup)?;
        let mut given = Vec::new(alloc);
        for _number in 0..seats {
            let seat = table.shared.split_seat::<FirstOut>(&mut rest);
            add(&mut given, seated(seat))?;
        }
        Ok((Objects { table }, given))
    }

    /// Two callers compare what they have seen: of what one had seen and what the other had, one
    /// begins the other, with just the events of both as their own, and now both have seen one
    /// history that begins with it.
    ///
    /// To join and to split seats tells them nothing, so one load between the two learns.
    pub fn meet(&self, first: ObjSeat, second: ObjSeat) -> (ObjSeat, ObjSeat)
        requires { (first.objects ≡ self.now) × (second.objects ≡ self.now) }
        ensures grows { Grows first result.0 × Grows second result.1 }
        ensures mine { (result.0.mine ≡ first.mine) × (result.1.mine ≡ second.mine) }
        ensures before { AreOfOneHistory first second }
        ensures after { result.1.seen ≡ result.0.seen }
    {
        let ObjSeat { seat: mut both } = first;
        let ObjSeat { seat: second } = second;
        let shared = &self.table.shared;
        shared.join_seat::<Together>(&mut both, second);
        shared.load::<Learn>(&mut both, 0);
        let first = shared.split_seat::<FirstOut>(&mut both);
        (seated(first), seated(both))
    }

    /// The value of a counter. nsync's `nsync_counter_value`.
    ///
    /// Needs the number of a counter of these objects.
    pub fn counter_value(&self, seat: &mut ObjSeat, counter: u8) -> u32
        requires objects { seat.old.objects ≡ self.now }
        requires counter { counter < seat.old.setup.counters }
        ensures grows { Grows seat.old seat.new }
        ensures mine { seat.new.mine ≡ seat.old.mine }
        ensures value { result ≡ ((standing_of seat.new).counters counter).value }
    {
        let shared = &self.table.shared;
        decode_counter(shared.load::<LoadCounter>(&mut seat.seat, usize::from(counter))).value
    }

    /// Whether the function of a once cell has run.
    ///
    /// Needs the number of a once cell of these objects.
    pub fn once_done(&self, seat: &mut ObjSeat, once: u8) -> bool
        requires objects { seat.old.objects ≡ self.now }
        requires once { once < seat.old.setup.cells }
        ensures grows { Grows seat.old seat.new }
        ensures mine { seat.new.mine ≡ seat.old.mine }
        ensures done { result ≡ is_done ((standing_of seat.new).onces once) }
    {
        let shared = &self.table.shared;
        let word = shared.load::<LoadOnce>(&mut seat.seat, MOST + usize::from(once));
        decode_once(word) == Stage::Done
    }
}
