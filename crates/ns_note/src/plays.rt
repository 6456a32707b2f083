//! The rule of the table, and what each step on it tells.

ghost use Rattle.std.specs.Prelude.{◌≡◌, ◌+◌, ◌-◌, ◌++◌, []};
ghost use Rattle.ns_note.specs.Prelude.{BELLS, Holds, Learned, NOTES, OneActs, OneMakes, first_of, fresh, note_stored, rest_of, the};
ghost use Rattle.ns_env.specs.declared.act.EnvAct.TheVariants as TheAct;

use crate::view::View;
use atomic_table::{Join, Play, Split, TableRule};

/// The words are as one legal history leaves them, which each seat has seen a beginning of.
pub struct Law;

impl TableRule<(), View, u8> for Law {
    ghost holds = { λ seat_count s. Holds seat_count s };

    ghost first = { λ seat_count. fresh seat_count 0 seat_count };
}

/// A load of the clock.
pub struct LoadClock;

impl Play<(), View> for LoadClock {
    ghost then = { λ st me found now. OneActs TheAct.LoadClock found me now };
}

/// A load of the next number, before one is taken.
pub struct LoadNext;

impl Play<(), View> for LoadNext {
    ghost then = { λ st me found now. OneActs TheAct.LoadNext found me now };
}

/// A load of a note's word.
pub struct LoadNote;

impl Play<(), View> for LoadNote {
    ghost then = { λ st me found now. OneActs (TheAct.LoadNote (st.word - NOTES)) found me now };
}

/// An addition of 1 to the next number.
pub struct Take;

impl Play<(), View> for Take {
    ghost then = { λ st me found now. OneActs TheAct.TakeNext found me now };
}

/// A store of a new note's word.
pub struct Make;

impl Play<(), View> for Make {
    ghost then = { λ st me found now. OneMakes (note_stored (st.word - NOTES) st.first) me now };
}

/// A mark on a note's word.
pub struct Mark;

impl Play<(), View> for Mark {
    ghost then = { λ st me found now. OneActs (TheAct.NotifyNote (st.word - NOTES)) found me now };
}

/// A move of the clock.
pub struct MoveClock;

impl Play<(), View> for MoveClock {
    ghost then = { λ st me found now. OneActs (TheAct.MoveClock st.first) found me now };
}

/// A bell is rung, whosever it is: nothing has happened by it, and the seat is as it was.
pub struct Ring;

impl Play<(), View> for Ring {
    ghost then = { λ st me found now. (now ≡ me) × (st.first ≡ 1) };
}

/// A seat sets its own bell back: nothing has happened by it, and the seat is as it was.
pub struct SetBack;

impl Play<(), View> for SetBack {
    ghost then = { λ st me found now. (now ≡ me) × ((st.first ≡ 0) × (st.word ≡ (the me.0).seat + BELLS)) };
}

/// A load by two seats that are joined: both see the history so far.
pub struct Learn;

impl Play<(), View> for Learn {
    ghost then = { λ st me found now. Learned me now };
}

/// The first seat of a view goes to a seat of its own.
pub struct FirstOut;

impl Split<View> for FirstOut {
    ghost left = { rest_of };

    ghost right = { first_of };
}

/// Two seats stand for both their seats together, while they meet.
pub struct Together;

impl Join<View> for Together {
    ghost both = { λ v w. v ++ w };

    ghost spent = { [] };
}
