//! Who is inside a section, and who still works, counted beside the monitor.

use ns_model::event::Mode;
use std::sync::atomic::AtomicU64;
use std::sync::atomic::Ordering::SeqCst;

/// What one writer inside counts. A reader counts 1.
const WRITER: u64 = 1 << 32;

/// Counts those who say that they are inside: each says so just after it has acquired the lock, and that
/// it leaves just before it releases it. It also counts the threads whose work isn't done.
#[derive(Drop)]
pub struct Door {
    inside: AtomicU64,
    busy: AtomicU64,
}

impl Door {
    /// A door with nobody inside, and so many threads that work.
    pub fn new(threads: u64) -> Door {
        Door {
            inside: AtomicU64::new(0),
            busy: AtomicU64::new(threads),
        }
    }

    /// A thread's work is done.
    pub fn finish(&self) {
        self.busy.fetch_sub(1, SeqCst);
    }

    /// Whether nobody works any more.
    pub fn is_quiet(&self) -> bool {
        self.busy.load(SeqCst) == 0
    }

    /// Somebody enters in this mode; answers whether nobody is inside with whom it can't be.
    pub fn enter(&self, mode: Mode) -> bool {
        match mode {
            Mode::Write => self.inside.fetch_add(WRITER, SeqCst) == 0,
            Mode::Read => self.inside.fetch_add(1, SeqCst) < WRITER,
        }
    }

    /// Somebody leaves who has entered in this mode.
    pub fn leave(&self, mode: Mode) {
        match mode {
            Mode::Write => self.inside.fetch_sub(WRITER, SeqCst),
            Mode::Read => self.inside.fetch_sub(1, SeqCst),
        };
    }
}
