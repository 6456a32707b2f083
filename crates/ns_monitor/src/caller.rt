//! A seat of a monitor, and the sections that it may have in hand.

ghost use Rattle.std.specs.Prelude.{◌≡◌, ◌<◌, ℕ, Option, None, Some, length, slice_index, slice_index_or};
ghost use Rattle.ns_gate.specs.Prelude.{Mode, Read, Write, Held, HasMode};
ghost use Rattle.ns_monitor.specs.Room.{TakesLittle};
ghost use Rattle.ns_monitor.specs.Prelude.{HasSaved, IsFresh, saved_after, value_before};

use ns_gate::gate::GateSeat;
use ns_model::condition::Condition;
use ns_model::event::Mode;
use std::marker::Model;

/// What a caller has in hand.
pub trait Hand<C, const N: usize> {
    /// Which section that is, or that it is none.
    ghost fits: { Self → Option (Held C N) → Type 0 };
}

/// A section in hand, in either mode.
pub trait Section<C, const N: usize>: Hand<C, N> {
    /// Its mode.
    ghost mode: { Mode };

    /// There is one, in that mode.
    ghost in_mode: { (me : Self) (held : Option (Held C N)) → Self.Hand.fits me held → HasMode mode held };
}

/// A section that may begin anew.
pub trait Renewed<C, const N: usize>: Section<C, N> + Drop {
    /// Its mode.
    fn mode() -> Mode
        ensures { result ≡ Self.Section.mode };

    /// What is in hand where such a section has just begun.
    fn begun() -> Self
        ensures { (held : Held C N) → IsFresh N Self.Section.mode held → Self.Hand.fits result (Some held) };
}

/// A section in hand that takes little memory, as both do. Code that holds any of them beside much else takes
/// this for a bound, too. It is no part of [`Renewed`], since only `wait_any_held` of ns_objects needs it.
pub trait Compact<const N: usize> {
    /// Where a row takes less than 2^32, the section takes less than 2^40.
    ghost has_room: { TakesLittle Self.row N.row };
}

/// No section is in hand.
///
/// It takes a byte, which nothing reads, and so does [`Reading`]. The compiler copies a caller of two bytes as one
/// number of 16 bits, and a loop over handles then takes that apart and puts it together again for each section,
/// by four instructions. It copies a caller of three bytes field by field.
#[derive(Drop)]
pub struct Free(pub(crate) u8);

impl<C, const N: usize> Hand<C, N> for Free {
    ghost fits = { λ me held. held ≡ None };
}

/// A section in hand that reads.
#[derive(Drop)]
pub struct Reading(u8);

impl<C, const N: usize> Hand<C, N> for Reading {
    ghost fits = { λ me held. HasMode Read held };
}

impl<C, const N: usize> Section<C, N> for Reading {
    ghost mode = { Read };

    ghost in_mode = { λ me held h. h };
}

impl<C, const N: usize> Renewed<C, N> for Reading {
    #[inline(always)]
    fn mode() -> Mode {
        Mode::Read
    }

    #[inline(always)]
    fn begun() -> Self {
        Reading(0)
    }
}

impl<const N: usize> Compact<N> for Reading {
    ghost use Rattle.ns_monitor.specs.Sizes.{reading_small};

    ghost has_room = { reading_small N.row };
}

/// A section in hand that writes, with what it found in the cells that it has set. So `is_quiet` has the row
/// that the section began at, by the loads that `set` makes anyway, and an acquire loads no cell.
#[derive(Drop)]
pub struct Writing<const N: usize> {
    /// For each cell, what it held as the section began, if the section has set it.
    pub(crate) saved: [Option<u64>; N],
}

impl<C, const N: usize> Hand<C, N> for Writing<N> {
    ghost fits = { λ me held. HasMode Write held × HasSaved me.saved held };
}

impl<C, const N: usize> Section<C, N> for Writing<N> {
    ghost mode = { Write };

    ghost in_mode = { λ me held h. h.0 };
}

impl<C, const N: usize> Renewed<C, N> for Writing<N> {
    #[inline(always)]
    fn mode() -> Mode {
        Mode::Write
    }

    #[inline(always)]
    fn begun() -> Self {
        Writing { saved: [None; N] }
    }
}

impl<const N: usize> Compact<N> for Writing<N> {
    ghost use Rattle.ns_monitor.specs.Sizes.{writing_small};

    ghost has_room = { writing_small N.row };
}

/// A caller of a monitor, with what it has in hand.
///
/// For contracts it carries which monitor it is of, how many seats that has, its own number, the
/// history that it has seen, its own events in it, the calls that it has begun, and its section, if
/// it has one in hand.
#[derive(Drop)]
pub struct Caller<H: Hand<C, N>, C: Condition<N>, const N: usize> {
    /// The seat of the gate, which carries what is known.
    pub(crate) seat: GateSeat<C, N>,
    /// The seat's number.
    pub(crate) number: u8,
    /// Whether the word that its last lock, try or release began with had to do with no other caller; after a
    /// wait it is false. By it the next one guesses, and nothing rests on it.
    pub(crate) alone: bool,
    /// What is in hand.
    pub(crate) hand: H,
}

impl<H: Hand<C, N>, C: Condition<N>, const N: usize> Model for Caller<H, C, N> {
    ghost use Rattle.ns_gate.specs.Calls.{IsAtRest};
    ghost use Rattle.ns_gate.specs.Steps.{the};
    ghost use Rattle.ns_monitor.specs.Known.{Known, known_of};
    ghost use Rattle.ns_monitor.specs.Standing.{IsNumberOf};

    ghost Value = { Known C N };

    ghost view = { λ c. known_of c.seat.table_id c.seat.me };

    ghost invariant = { λ c. IsAtRest C.means c.seat.me × IsNumberOf c.number c.seat.me × H.fits c.hand (the c.seat.me.0).at.held };
}

impl<H: Section<C, N>, C: Condition<N>, const N: usize> Caller<H, C, N> {
    /// Attests that the section in hand is in the mode that its type says. It does nothing.
    pub(crate) fn attest(&self)
        ensures { HasMode H.mode self.now.held }
    {
        let _ = &self.hand;
    }
}

/// A seat with no section in hand.
pub type Seat<C, const N: usize> = Caller<Free, C, N>;

/// A write section in hand.
pub type WriteHeld<C, const N: usize> = Caller<Writing<N>, C, N>;

/// A read section in hand.
pub type ReadHeld<C, const N: usize> = Caller<Reading, C, N>;

impl<const N: usize> Writing<N> {
    /// Saves what a cell held, if that was not done before.
    ///
    /// Needs a cell below `N`.
    pub(crate) fn save(&mut self, i: usize, old: u64)
        requires { i < N }
        ensures { self.new.saved ≡ saved_after i old self.old.saved }
    {
        if self.saved[i].is_none() {
            self.saved[i] = Some(old);
        }
    }

    /// The row as the section began, where this is the row now.
    pub(crate) fn before(&self, row: &[u64; N]) -> [u64; N]
        ensures width { length result ≡ length row.now }
        ensures cells { (i : ℕ) → i < N → slice_index result i ≡ value_before (slice_index_or self.now.saved i None) (slice_index row.now i) }
    {
        let mut before = *row;
        for i in 0..N {
            if let Some(old) = self.saved[i] {
                before[i] = old;
            }
        }
        before
    }
}
