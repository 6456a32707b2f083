//! What a seat of the table knows. It is for the proof alone: no value of it is made.

use std::marker::{Model, PhantomData};

/// The seats that a seat of the table stands for: one, but for while seats are split or joined.
///
/// What it is for the proof is its model's value alone, so it has nothing to drop, and asks no room.
pub struct View<C, const N: usize> {
    of: PhantomData<C>,
}

impl<C, const N: usize> Model for View<C, N> {
    ghost use Rattle.std.specs.Prelude.{List, []};
    ghost use Rattle.ns_gate.specs.Law.{GateView};

    ghost Value = { List (GateView C N) };

    ghost view = { λ v. [] };
}
