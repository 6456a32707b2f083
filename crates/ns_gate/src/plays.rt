//! The rule of the table, and what each step on it tells.

ghost use Rattle.std.specs.Prelude.{◌++◌, [], None};
ghost use Rattle.ns_gate.specs.Prelude.{Holds, first_of, fresh, rest_of, HaveLearned, HasGuessed, HasLooked, PerformedWith, act_by, first_said, the};

use crate::boxed::BoxedQueues;
use crate::view::View;
use atomic_table::{Join, Play, Split, TableRule};
use ns_env::limits::Cause;
use ns_model::condition::Condition;
use ns_seats::saying::Telling;
use ns_word::walk::Walk;
use std::marker::PhantomData;

/// The table shows a lawful state of the machine.
pub struct Law<C, const N: usize> {
    of: PhantomData<C>,
}

impl<C: Condition<N>, const N: usize> TableRule<BoxedQueues<C, N>, View<C, N>, u8> for Law<C, N> {
    ghost holds = { λ seat_count s. Holds C.means seat_count s };

    ghost first = { λ seat_count. fresh seat_count 0 seat_count };
}

/// The step that the seat's call wants next.
pub struct Go<C, const N: usize> {
    of: PhantomData<C>,
}

impl<C: Condition<N>, const N: usize> Play<BoxedQueues<C, N>, View<C, N>> for Go<C, N> {
    ghost then = { λ st me found now. PerformedWith C.means None (act_by None (the me.0)) found me now };
}

/// The load that the seat's call wants next, or begins with where it is told a call.
pub struct Load<C, const N: usize> {
    of: PhantomData<C>,
}

impl<C: Condition<N>, const N: usize> Telling<BoxedQueues<C, N>, View<C, N>, Option<Walk<C>>>
    for Load<C, N> {
    ghost after = { λ begins st me found now. PerformedWith C.means (first_said begins) (act_by (first_said begins) (the me.0)) found me now };
}

/// The load of the lock word with which a call begins that it is told, and the exchange that the call
/// wants behind it where it found the word that was guessed.
pub struct Both<C, const N: usize> {
    of: PhantomData<C>,
}

impl<C: Condition<N>, const N: usize> Telling<BoxedQueues<C, N>, View<C, N>, Option<Walk<C>>>
    for Both<C, N> {
    ghost after = { λ begins st me found now. HasGuessed C.means (first_said begins) st.first found me now };
}

/// The look that the seat's call wants next, which has shown what it is told.
pub struct Look<C, const N: usize> {
    of: PhantomData<C>,
}

impl<C: Condition<N>, const N: usize> Telling<BoxedQueues<C, N>, View<C, N>, Option<Cause>>
    for Look<C, N> {
    ghost after = { λ causes st me found now. HasLooked C.means (first_said causes) me now };
}

/// The first seat of a view goes to a seat of its own.
pub struct FirstOut;

impl<C, const N: usize> Split<View<C, N>> for FirstOut {
    ghost left = { rest_of };

    ghost right = { first_of };
}

/// A load by two seats that are joined: both see the history so far.
pub struct Learn<C, const N: usize> {
    of: PhantomData<C>,
}

impl<C: Condition<N>, const N: usize> Play<BoxedQueues<C, N>, View<C, N>> for Learn<C, N> {
    ghost then = { λ st me found now. HaveLearned C.means me now };
}

/// Two seats stand for both their seats together, while they meet.
pub struct Together;

impl<C, const N: usize> Join<View<C, N>> for Together {
    ghost both = { λ v w. v ++ w };

    ghost spent = { [] };
}
