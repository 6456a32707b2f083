//! The rule of the table, and what each step on it tells.

ghost use Rattle.std.specs.Prelude.{◌-◌, ◌++◌, []};
ghost use Rattle.ns_objects.specs.Prelude.{BeginOnce, ExchangeToAdd, Holds, Learned, LoadToAdd, LookCounter, LookOnce, MarkWait, OneActs, OneEnds, change_in_hand, change_said, first_of, fresh, once_at, rest_of, the, value_of, word_seen};

use crate::view::View;
use atomic_table::{Join, Play, Split, TableRule};
use ns_counters::object::Setup;
use ns_seats::saying::Telling;

/// The words are as one legal history leaves them, which each seat has seen a beginning of.
pub struct Law;

impl TableRule<(), View, Setup> for Law {
    ghost holds = { λ setup s. Holds setup s };

    ghost first = { λ setup. fresh setup 0 setup.seats };
}

/// A load of a counter.
pub struct LoadCounter;

impl Play<(), View> for LoadCounter {
    ghost then = { λ st me found now. OneActs (LookCounter st.word) found me now };
}

/// A load of a counter that is to be changed by the number that it is told.
pub struct LoadToChange;

impl Telling<(), View, i64> for LoadToChange {
    ghost after = { λ said st me found now. OneActs (LoadToAdd st.word (change_said said)) found me now };
}

/// A change of a counter as it was seen.
pub struct Change;

impl Play<(), View> for Change {
    ghost then = { λ st me found now. OneActs (ExchangeToAdd st.word (change_in_hand (the me.0).place) (word_seen st.first) (value_of st.second)) found me now };
}

/// A mark on a counter: a wait begins.
pub struct Mark;

impl Play<(), View> for Mark {
    ghost then = { λ st me found now. OneActs (MarkWait st.word) found me now };
}

/// A load of a once cell.
pub struct LoadOnce;

impl Play<(), View> for LoadOnce {
    ghost then = { λ st me found now. OneActs (LookOnce (once_at st.word)) found me now };
}

/// A once cell is taken, to run its function.
pub struct Begin;

impl Play<(), View> for Begin {
    ghost then = { λ st me found now. OneActs (BeginOnce (once_at st.word)) found me now };
}

/// The function of a once cell has run.
pub struct End;

impl Play<(), View> for End {
    ghost then = { λ st me found now. OneEnds (once_at st.word) me now };
}

/// A load by two seats that are joined: both see the history so far.
pub struct Learn;

impl Play<(), View> for Learn {
    ghost then = { λ st me found now. Learned me now };
}

/// The first seat of a view goes to a seat of its own.
pub struct FirstOut;

impl Split<View> for FirstOut {
    ghost left = { rest_of };

    ghost right = { first_of };
}

/// Two seats stand for both their seats together, while they meet.
pub struct Together;

impl Join<View> for Together {
    ghost both = { λ v w. v ++ w };

    ghost spent = { [] };
}
