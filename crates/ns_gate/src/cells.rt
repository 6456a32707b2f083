//! The steps on the cells of the row.

ghost use Rattle.std.specs.Prelude.{◌≡◌, ◌<◌, None, slice_index};
ghost use Rattle.ns_gate.specs.Prelude.{CanStep, HasMade, before_in, row_in, the};

use crate::bound::Bound;
use ns_model::condition::Condition;
use ns_word::act::{Act, Found};
use ns_word::walk::Walk;

impl<C: Condition<N>, const N: usize> Bound<'_, C, N> {
    /// Loads a cell of the row, as the next step of the seat's call, or as the first one of the call
    /// that it begins.
    ///
    /// Needs a call that wants that next or begins with it, and a cell below `N`.
    pub fn load_cell(&mut self, begins: Option<Walk<C>>, i: u8) -> u64
        requires cell { i < N }
        requires can { CanStep C.means begins (Act.LoadCell i) self.old.me }
        ensures { HasMade C.means begins (Act.LoadCell i) (Found.Cell result) self.old self.new }
    {
        self.load_at(begins, usize::from(i) + 1)
    }

    /// Loads the last cell of the row for a call that judges whether its section is quiet; the number
    /// is the cell of the section in hand.
    ///
    /// Needs a call that wants that next or begins with it, and a cell below `N`.
    pub fn judge_quiet(&mut self, begins: Option<Walk<C>>, i: u8) -> u64
        requires cell { i < N }
        requires can { CanStep C.means begins (Act.JudgeQuiet i) self.old.me }
        ensures did { HasMade C.means begins (Act.JudgeQuiet i) (Found.Quiet (C.means.quiet (before_in (the self.old.me.0).at.held) (row_in (the self.old.me.0).at.held))) self.old self.new }
        ensures cell { result ≡ slice_index (row_in (the self.old.me.0).at.held) i }
    {
        let quiet_cell = usize::from(i) + 1;
        self.load_at(begins, quiet_cell)
    }

    /// Loads the last cell of the row for a call that tests its condition; the number is the cell of the
    /// section in hand.
    ///
    /// Needs a call that wants that next or begins with it, and a cell below `N`.
    pub fn judge_met(&mut self, begins: Option<Walk<C>>, i: u8, _condition: C) -> u64
        requires cell { i < N }
        requires can { CanStep C.means begins (Act.JudgeMet i _condition) self.old.me }
        ensures did { HasMade C.means begins (Act.JudgeMet i _condition) (Found.Tested (C.means.holds _condition (row_in (the self.old.me.0).at.held))) self.old self.new }
        ensures cell { result ≡ slice_index (row_in (the self.old.me.0).at.held) i }
    {
        let tested_cell = usize::from(i) + 1;
        self.load_at(begins, tested_cell)
    }

    /// Stores a value into a cell of the row.
    ///
    /// Needs a call that wants that next, and a cell below `N`.
    pub fn store_cell(&mut self, i: u8, value: u64)
        requires cell { i < N }
        requires can { CanStep C.means None (Act.StoreCell i value) self.old.me }
        ensures { HasMade C.means None (Act.StoreCell i value) Found.Made self.old self.new }
    {
        self.store_at(usize::from(i) + 1, value);
    }
}
