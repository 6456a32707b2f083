//! What one atomic step does, and what it finds.

ghost use Rattle.std.specs.Prelude.{◌≡◌, ⊤};

use crate::wait::{Aim, Home, Wait};
use crate::word::{Arrival, Releasing, Taking, Word};
use ns_env::limits::{Cause, Limits};
use ns_model::event::Mode;
use std::alloc::AllocError;

/// What is done to the lists in hand before they are put back.
#[derive(Clone, Copy)]
pub enum Change {
    /// One puts itself in, without condition, in this mode: at the back, or at the front if it was
    /// woken from the list before, so that it loses no turn.
    QueueSelf(Mode, Arrival),
    /// One that waits takes itself out of all lists, if it still stands where this wait does.
    LeaveSelf(Home),
    /// Those whom this takes from the list of the variable leave all lists of variables. Where the
    /// lock is held they go to the back of the lock list, in the order taken; else they are owed their
    /// wakes.
    WakeWaiters(Waking, u8),
    /// The lists are put back as they stood.
    Nothing,
}

/// Whom a call on a condition variable wakes.
#[derive(Clone, Copy, Debug, PartialEq, Eq)]
pub enum Waking {
    /// At least one: the first waiter, and if that one reads, every other reader and the first
    /// writer.
    Signaling,
    /// Everybody.
    Broadcasting,
}

/// One atomic step. Where it is a compare-exchange, the word is the one last seen. A look reads a
/// clock and notes, one load after another, and nothing of the lock: whoever runs the walk makes
/// it, and tells what it has shown.
#[derive(Copy)]
pub enum Act<C> {
    /// Loads the lock word.
    LoadWord,
    /// Acquires the lock for this.
    Acquire(Aim<C>, Arrival, Word),
    /// Sets the spinlock bit and takes the queues.
    TakeQueues(Taking, Word),
    /// Changes the lists in hand, puts the queues back and clears the spinlock bit. It commits a
    /// signal, a broadcast, or that a wait for variables was left.
    ReturnQueues(Change, Word),
    /// Releases the section without a scan, and commits it.
    Release(Releasing, Word),
    /// Takes out of the lock list in hand those whom a scan wakes, puts the queues back, clears the
    /// spinlock bit, releases the section and commits it. The seat then owes the wakes.
    ReleaseReturning(Releasing, Word),
    /// The same for a wait, which also puts itself into its list: the lock list with its condition,
    /// at the back, or at the front if it queues again, or those of its variables, at the back. Where
    /// it queues again, nothing is committed.
    WaitReturning(Wait<C>, bool, Word),
    /// Loads a cell.
    LoadCell(u8),
    /// Loads a cell, the row's last, and tells whether the section in hand is quiet.
    JudgeQuiet(u8),
    /// Loads a cell, the row's last, and tells whether the condition is true of the row in hand.
    JudgeMet(u8, C),
    /// Stores a value into a cell.
    StoreCell(u8, u64),
    /// Stores 1 into one's own flag.
    ArmFlag,
    /// Pays the first of the wakes that are owed: stores its value into the flag of its seat.
    PayWake,
    /// Loads one's own flag.
    LoadFlag,
    /// Looks at the note and the deadline of a wait. The flag tells whether the wait has come back:
    /// then what the look shows is the cause that the section in hand goes by.
    Look(Limits, bool),
}

impl<C: Copy> Clone for Act<C> {
    ghost is_clone = { λ one other. other ≡ one };

    ghost is_infallible = { λ _. ⊤ };

    fn clone(&self) -> Result<Self, AllocError> {
        Ok(*self)
    }
}

/// What a step found.
#[derive(Clone, Copy)]
pub enum Found {
    /// The lock word, by a load or by a compare-exchange that failed.
    Saw(Word),
    /// The exchange or the store was made.
    Made,
    /// A cell's value.
    Cell(u64),
    /// Whether the section in hand is quiet.
    Quiet(bool),
    /// Whether the condition is true.
    Tested(bool),
    /// The release with a scan was made.
    Scanned {
        /// Whether wakes are owed now.
        owes: bool,
        /// How many conditions the scan tested.
        tests: u32,
    },
    /// A wake was paid.
    Paid {
        /// Whether more are owed.
        owes: bool,
    },
    /// The queues were put back by one that leaves: whether it still stood there.
    Left(bool),
    /// The queues were put back by one that wakes.
    Woke {
        /// Whether wakes are owed now.
        owes: bool,
    },
    /// The value of one's own flag.
    Flag(u8),
    /// What ends the wait, if anything does.
    Looked(Option<Cause>),
}
