//! The lock word as its number alone, as a table of words keeps it: what is decided by it and made of it. No such
//! function takes the word apart; [`LockWord::parts`] does, for what is shown and what a walk is told.
//!
//! What [`Word`] has a function for, the function of the same name does to the word that this is the number of. The
//! others make the number of a word, read a part of it, or change one. The values of the bits stand in `codec.rt`.

ghost use Rattle.std.specs.Prelude.{◌≡◌, ◌<◌, ◌+◌, ◌-◌};
ghost use Rattle.ns_word.specs.Prelude.{IsPackable, is_held, may_acquire, needs_scan, number_of, value_of_bit, word_acquired, word_of, word_released, word_released_returning, word_returned, word_taken, word_with};

use crate::codec::{
    ALL_FALSE, COND, DESIG, LONG, READER, SPIN, WAITING, WRITE, WRITER_WAITS, encode, is_set,
    unpacked, valued,
};
use crate::word::{Arrival, Bits, Releasing, Taking, Word};
use ns_model::event::Mode;
use std::marker::Model;

/// A bit of the lock word.
#[derive(Clone, Copy)]
enum Bit {
    Write,
    Spin,
    Waiting,
    Desig,
    Cond,
    WriterWaits,
    AllFalse,
    Long,
}

impl Bit {
    /// Its value in the number of a word.
    #[inline(always)]
    fn value(self) -> u64
        ensures { result ≡ value_of_bit self }
    {
        match self {
            Bit::Write => WRITE,
            Bit::Spin => SPIN,
            Bit::Waiting => WAITING,
            Bit::Desig => DESIG,
            Bit::Cond => COND,
            Bit::WriterWaits => WRITER_WAITS,
            Bit::AllFalse => ALL_FALSE,
            Bit::Long => LONG,
        }
    }
}

/// The lock word as its number. To its callers this is the word that has the number.
#[derive(Clone, Copy)]
pub struct LockWord {
    number: u64,
}

impl Model for LockWord {
    ghost use Rattle.std.proofs.Common.{ap};
    ghost use Rattle.ns_word.specs.declared.word.Word.{Word};
    ghost use Rattle.ns_word.specs.Codec.{number_of, word_of};
    ghost use Rattle.ns_word.specs.Encoded.{encoded};

    ghost Value = { Word };

    ghost view = { λ w. word_of w.number };

    ghost inverse = { λ w. record { number = number_of w } };

    ghost inverse_ok = { λ w h. ap (λ n. record { number = n }) (encoded w.number) };
}

impl LockWord {
    /// The word of this number.
    #[inline(always)]
    pub fn of(number: u64) -> LockWord
        ensures { result ≡ word_of number }
    {
        LockWord { number }
    }

    /// The number of the word.
    #[tactic(auto, using(crate::proofs::Codes::decoded))]
    #[inline(always)]
    pub fn new(word: Word) -> LockWord
        ensures { result ≡ word }
    {
        LockWord {
            number: encode(word),
        }
    }

    /// The word's number.
    #[tactic(auto, using(crate::specs::Encoded::encoded))]
    #[inline(always)]
    pub fn number(self) -> u64
        ensures { result ≡ number_of self }
    {
        self.number
    }

    /// The word, taken apart.
    #[inline(always)]
    pub fn parts(self) -> Word
        requires { IsPackable self }
        ensures { result ≡ self }
    {
        unpacked(self.number)
    }
}

/// The parts of the word.
#[tactic(auto, unfolding(crate::specs::Codec::word_of))]
impl LockWord {
    /// How many seats hold the lock in read mode.
    #[inline(always)]
    fn readers(self) -> u64
        ensures { result ≡ self.readers }
    {
        self.number / READER
    }

    /// Whether the lock is held in write mode.
    #[inline(always)]
    fn write(self) -> bool
        ensures { result ≡ self.write }
    {
        is_set(self.number, WRITE)
    }

    /// Whether one seat has the queues.
    #[inline(always)]
    pub fn spin(self) -> bool
        ensures { result ≡ self.spin }
    {
        is_set(self.number, SPIN)
    }

    /// Whether somebody stands in the lock list.
    #[inline(always)]
    fn waiting(self) -> bool
        ensures { result ≡ self.waiting }
    {
        is_set(self.number, WAITING)
    }

    /// Whether the designated waker is on its way.
    #[inline(always)]
    fn desig(self) -> bool
        ensures { result ≡ self.desig }
    {
        is_set(self.number, DESIG)
    }

    /// Whether a waiter with a condition stands in the lock list.
    #[inline(always)]
    pub fn cond(self) -> bool
        ensures { result ≡ self.cond }
    {
        is_set(self.number, COND)
    }

    /// Whether a writer without condition stands in the lock list.
    #[inline(always)]
    fn writer_waits(self) -> bool
        ensures { result ≡ self.writer_waits }
    {
        is_set(self.number, WRITER_WAITS)
    }

    /// Whether all who stand in the lock list wait for conditions that are false.
    #[inline(always)]
    fn all_false(self) -> bool
        ensures { result ≡ self.all_false }
    {
        is_set(self.number, ALL_FALSE)
    }

    /// Whether one who stands in the lock list has failed too often after being woken.
    #[inline(always)]
    fn long(self) -> bool
        ensures { result ≡ self.long }
    {
        is_set(self.number, LONG)
    }
}

impl LockWord {
    /// The word with this bit so.
    #[inline(always)]
    fn with(self, bit: Bit, set: bool) -> LockWord
        ensures { result ≡ word_with bit set self }
    {
        let value = bit.value();
        let old = valued(is_set(self.number, value), value);
        let number = self.number - old + valued(set, value);
        LockWord { number }
    }

    /// Whether somebody holds the lock.
    #[inline(always)]
    pub fn is_held(self) -> bool
        ensures { result ≡ is_held self }
    {
        self.write() || self.readers() > 0
    }

    /// Whether a lock with this word may be acquired in the mode.
    #[inline(always)]
    pub fn may_acquire(self, mode: Mode, arrival: Arrival) -> bool
        ensures { result ≡ may_acquire mode arrival self }
    {
        match mode {
            Mode::Write => !self.write()
                && self.readers() == 0
                && (arrival.is_woken() || !self.long()),
            Mode::Read => !self.write()
                && (arrival.is_woken() || !self.writer_waits() && !self.long()),
        }
    }

    /// Whether a release of a lock with this word has to look for waiters to wake.
    #[inline(always)]
    pub fn needs_scan(self, releasing: Releasing) -> bool
        ensures { result ≡ needs_scan releasing self }
    {
        let excused = match releasing {
            Releasing::Writer => false,
            Releasing::QuietWriter => self.all_false(),
            Releasing::Reader => self.readers() > 1 || self.all_false(),
        };
        self.waiting() && !self.desig() && !excused
    }

    /// The word after an acquire in the mode.
    ///
    /// Needs a count of readers below 255; the law keeps it at 64 or below.
    #[inline(always)]
    pub fn acquired(self, mode: Mode, arrival: Arrival) -> LockWord
        requires { self.readers < 255 }
        ensures { result ≡ word_acquired mode arrival self }
    {
        let here = if arrival.is_woken() {
            self.with(Bit::Desig, false)
        } else {
            self
        };
        match mode {
            Mode::Write => here.with(Bit::Write, true),
            Mode::Read => here.with_reader(),
        }
    }

    /// The word with one reader more.
    #[inline(always)]
    fn with_reader(self) -> LockWord
        requires { self.readers < 255 }
        ensures { result ≡ record self { readers = self.readers + 1 } }
    {
        let number = self.number + READER;
        LockWord { number }
    }

    /// The word with one reader less, if there is one.
    #[inline(always)]
    fn without_reader(self) -> LockWord
        ensures { result ≡ record self { readers = self.readers - 1 } }
    {
        let number = if self.readers() > 0 {
            self.number - READER
        } else {
            self.number
        };
        LockWord { number }
    }

    /// The word after the queues were taken.
    pub fn taken(self, taking: Taking) -> LockWord
        ensures { result ≡ word_taken taking self }
    {
        let taken = self.with(Bit::Spin, true);
        match taking {
            Taking::ToChange => taken,
            Taking::ToQueue(mode, arrival) => taken
                .with(Bit::Waiting, true)
                .with(Bit::Desig, self.desig() && !arrival.is_woken())
                .with(Bit::WriterWaits, self.writer_waits() || mode.is_write())
                .with(Bit::AllFalse, false),
        }
    }

    /// The word after the queues were put back, with a lock list that these bits tell of. `moved`
    /// says whether somebody was moved there, who has no condition.
    pub fn returned(self, moved: bool, bits: Bits) -> LockWord
        ensures { result ≡ word_returned moved bits self }
    {
        self.with(Bit::Spin, false)
            .with(Bit::Waiting, bits.waiting)
            .with(Bit::Cond, bits.conditional)
            .with(Bit::WriterWaits, bits.writer_waits)
            .with(Bit::Long, bits.long)
            .with(Bit::AllFalse, self.all_false() && bits.waiting && !moved)
    }

    /// The word after a release without a scan.
    #[inline(always)]
    pub fn released(self, releasing: Releasing) -> LockWord
        ensures { result ≡ word_released releasing self }
    {
        match releasing {
            Releasing::Writer => self.with(Bit::Write, false).with(Bit::AllFalse, false),
            Releasing::QuietWriter => self.with(Bit::Write, false),
            Releasing::Reader => self.without_reader(),
        }
    }

    /// The word after a release that puts the queues back, with a lock list that these bits tell
    /// of. `took` says whether the scan took somebody.
    pub fn released_returning(self, releasing: Releasing, took: bool, bits: Bits) -> LockWord
        ensures { result ≡ word_released_returning releasing took bits self }
    {
        self.released(releasing)
            .returned(false, bits)
            .with(Bit::Desig, took || self.desig())
            .with(Bit::AllFalse, bits.waiting && !took)
    }
}
