//! The lock word, the decisions by it, and the words that the steps make of it.
//!
//! # How the lock works
//!
//! A caller acquires by one compare-exchange on the word, and releases by another, where nobody waits.
//! One that can't acquire takes the waiter queues by setting the spinlock bit, puts itself into the lock
//! list, puts the queues back, and waits for its own flag to be cleared.
//!
//! - **One designated waker is enough.** A release that wakes somebody sets the `desig` bit; while it
//!   is set, other releases wake nobody. The woken one clears it as it acquires or queues again, so from
//!   then on a release looks at the list itself. So somebody is always on its way, or the next release
//!   looks, and nobody is forgotten; and a lock that changes hands often wakes no crowd. A seat is on its
//!   way that was taken from the lock list and has neither acquired nor queued since. A seat that was woken
//!   straight from a variable acquires as fresh, and doesn't count.
//! - **When `all_false` may be believed.** A release that has the queues, tests the waiters' conditions
//!   and takes nobody sets the bit: all wait for conditions that are false of the row which it leaves.
//!   Whoever may change that clears it: an ordinary writer as it releases, a waiter without condition as
//!   it queues, and a signal or a broadcast that moves one there.
//!   A reader, and a writer whose change is quiet, leave it, and need no scan while it is set.
//! - **A long wait lets nobody fresh in.** A woken one that can't acquire, since others were faster,
//!   queues again at the front, and counts one more try. Where one stands in the lock list with 30,
//!   nobody acquires who was not woken, of either mode; the bit goes with that waiter. A long waiter is in
//!   an acquire, and can't leave it: where the deadline of its wait has passed, it is woken and acquires
//!   first, and can answer that only then.
//! - **Why a woken reader passes a waiting writer.** A fresh reader stands back where a writer waits, so
//!   that readers who come and go keep no writer out. A woken one was taken from the list in its turn:
//!   if it stood back, the writer could wait for it, and it for the writer.
//!
//! # The bits
//!
//! | value | part | tells |
//! |---|---|---|
//! | 1 | write | the lock is held in write mode |
//! | 2 | spin | the spinlock bit: one seat has the queues |
//! | 4 | waiting | somebody stands in the lock list |
//! | 8 | desig | the designated waker: one taken from the lock list is on its way |
//! | 16 | cond | a waiter with a condition stands in the lock list |
//! | 32 | writer_waits | a writer without condition stands in the lock list |
//! | 64 | all_false | all who stand in the lock list wait for conditions that are false |
//! | 128 | long | one who stands in the lock list has failed too often after being woken |
//! | 256 | readers | how many seats hold the lock in read mode; each counts 256, up to 64 of them |
//!
//! While the spinlock bit is set, `waiting` and `writer_waits` may tell of one that is about to queue.
//! What the list holds is told while nobody has the queues.

ghost use Rattle.std.specs.Prelude.{◌≡◌, ◌≢◌, ◌<◌, true, false};
ghost use Rattle.ns_word.specs.Words.{is_held, is_woken, tries_of, releasing_of, may_acquire, needs_scan, word_acquired, word_taken, word_returned, word_released, word_released_returning};

use ns_model::event::Mode;
use ns_queue::waiter::LONG_TRIES;

/// The lock word, part by part.
#[derive(Clone, Copy, Debug, PartialEq, Eq)]
pub struct Word {
    /// The lock is held in write mode.
    pub write: bool,
    /// The spinlock bit.
    pub spin: bool,
    /// Somebody stands in the lock list.
    pub waiting: bool,
    /// The designated waker is on its way.
    pub desig: bool,
    /// A waiter with a condition stands in the lock list.
    pub cond: bool,
    /// A writer without condition stands in the lock list.
    pub writer_waits: bool,
    /// All who stand in the lock list wait for conditions that are false.
    pub all_false: bool,
    /// One who stands in the lock list has failed too often after being woken.
    pub long: bool,
    /// How many seats hold the lock in read mode.
    pub readers: u8,
}

/// What the lock list holds.
#[derive(Clone, Copy, Debug, PartialEq, Eq)]
pub struct Bits {
    /// Somebody.
    pub waiting: bool,
    /// Somebody with a condition.
    pub conditional: bool,
    /// A writer without condition.
    pub writer_waits: bool,
    /// One that has failed too often after being woken.
    pub long: bool,
}

/// How a section is released.
#[derive(Clone, Copy, Debug, PartialEq, Eq)]
pub enum Releasing {
    /// A write section.
    Writer,
    /// A write section that changed the row quietly.
    QuietWriter,
    /// A read section.
    Reader,
}

/// What the queues are taken for.
#[derive(Clone, Copy, Debug, PartialEq, Eq)]
pub enum Taking {
    /// To change what the lock list holds; the word tells of that as they are put back.
    ToChange,
    /// To queue oneself in this mode, of which the word tells at once. The waiting bit, and that of
    /// a waiting writer, are set before the seat stands in the list, so that nobody releases past
    /// it.
    ToQueue(Mode, Arrival),
}

/// How a seat comes to acquire. It has names of its own, since it goes from place to place and into
/// acts, where a bare number would tell nothing of what it means.
#[derive(Clone, Copy, Debug, PartialEq, Eq)]
pub enum Arrival {
    /// It has not waited in the lock list for this, or has left it by itself.
    AsFresh,
    /// It was woken from the lock list, where it stood with so many failed tries.
    AsWoken(u8),
}

impl Arrival {
    /// Whether the seat was woken.
    #[inline(always)]
    pub fn is_woken(self) -> bool
        ensures { result ≡ is_woken self }
    {
        match self {
            Arrival::AsFresh => false,
            Arrival::AsWoken(_) => true,
        }
    }

    /// The failed tries with which the seat queues, if it can't acquire: one more where it was
    /// woken, up to [`LONG_TRIES`].
    pub fn tries(self) -> u8
        ensures { result ≡ tries_of self }
    {
        match self {
            Arrival::AsFresh => 0,
            Arrival::AsWoken(tries) => {
                if tries < LONG_TRIES {
                    tries + 1
                } else {
                    LONG_TRIES
                }
            }
        }
    }
}

impl Releasing {
    /// How a wait releases a section in this mode.
    pub fn of(mode: Mode) -> Releasing
        ensures { result ≡ releasing_of mode }
    {
        match mode {
            Mode::Write => Releasing::Writer,
            Mode::Read => Releasing::Reader,
        }
    }
}

impl Word {
    /// The word of a free lock for which nobody waits.
    pub const FREE: Word = Word {
        write: false,
        spin: false,
        waiting: false,
        desig: false,
        cond: false,
        writer_waits: false,
        all_false: false,
        long: false,
        readers: 0,
    };

    /// Whether a lock with this word may be acquired in the mode. A fresh caller stands back where
    /// one waits long, and a fresh reader where a writer waits; a woken one passes.
    #[inline(always)]
    pub fn may_acquire(self, mode: Mode, arrival: Arrival) -> bool
        ensures { result ≡ may_acquire mode arrival self }
    {
        match mode {
            Mode::Write => !self.write && self.readers == 0 && (arrival.is_woken() || !self.long),
            Mode::Read => {
                !self.write && (arrival.is_woken() || !self.writer_waits && !self.long)
            }
        }
    }

    /// Whether a release of a lock with this word has to look for waiters to wake. It need not
    /// where nobody waits or one is on its way already; a reader also not where it isn't the last
    /// or all conditions are known to be false, and a quiet writer not where they are.
    #[inline(always)]
    pub fn needs_scan(self, releasing: Releasing) -> bool
        ensures { result ≡ needs_scan releasing self }
    {
        let excused = match releasing {
            Releasing::Writer => false,
            Releasing::QuietWriter => self.all_false,
            Releasing::Reader => self.readers > 1 || self.all_false,
        };
        self.waiting && !self.desig && !excused
    }

    /// Whether the words are the same, which a compare-exchange asks.
    pub fn is_same(self, other: Word) -> bool
        ensures same { result ≡ true → self ≡ other }
        ensures another { result ≡ false → self ≢ other }
    {
        self == other
    }

    /// The word after an acquire in the mode. One that was woken is on its way no more.
    ///
    /// Needs a count of readers below 255; the law keeps it at 64 or below.
    #[inline(always)]
    pub fn acquired(self, mode: Mode, arrival: Arrival) -> Word
        requires { self.readers < 255 }
        ensures { result ≡ word_acquired mode arrival self }
    {
        let desig = self.desig && !arrival.is_woken();
        match mode {
            Mode::Write => Word {
                write: true,
                desig,
                ..self
            },
            Mode::Read => Word {
                readers: self.readers + 1,
                desig,
                ..self
            },
        }
    }

    /// The word after the queues were taken.
    pub fn taken(self, taking: Taking) -> Word
        ensures { result ≡ word_taken taking self }
    {
        match taking {
            Taking::ToChange => Word { spin: true, ..self },
            Taking::ToQueue(mode, arrival) => Word {
                spin: true,
                waiting: true,
                desig: self.desig && !arrival.is_woken(),
                writer_waits: self.writer_waits || mode.is_write(),
                all_false: false,
                ..self
            },
        }
    }

    /// Whether somebody holds the lock.
    pub fn is_held(self) -> bool
        ensures { result ≡ is_held self }
    {
        self.write || self.readers > 0
    }

    /// The word after the queues were put back, with a lock list that these bits tell of. `moved`
    /// says whether somebody was moved there, who has no condition.
    pub fn returned(self, moved: bool, bits: Bits) -> Word
        ensures { result ≡ word_returned moved bits self }
    {
        Word {
            spin: false,
            waiting: bits.waiting,
            cond: bits.conditional,
            writer_waits: bits.writer_waits,
            long: bits.long,
            all_false: self.all_false && bits.waiting && !moved,
            ..self
        }
    }

    /// The word after a release without a scan.
    #[inline(always)]
    pub fn released(self, releasing: Releasing) -> Word
        ensures { result ≡ word_released releasing self }
    {
        match releasing {
            Releasing::Writer => Word {
                write: false,
                all_false: false,
                ..self
            },
            Releasing::QuietWriter => Word {
                write: false,
                ..self
            },
            Releasing::Reader => Word {
                readers: self.readers.saturating_sub(1),
                ..self
            },
        }
    }

    /// The word after a release that puts the queues back, with a lock list that these bits tell
    /// of. `took` says whether the scan took somebody: then one is on its way, else nobody who
    /// stands in the list can go on.
    pub fn released_returning(self, releasing: Releasing, took: bool, bits: Bits) -> Word
        ensures { result ≡ word_released_returning releasing took bits self }
    {
        Word {
            desig: took || self.desig,
            all_false: bits.waiting && !took,
            ..self.released(releasing).returned(false, bits)
        }
    }
}
