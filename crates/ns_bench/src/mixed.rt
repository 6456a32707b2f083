//! Draws, by which threads make most sections to read and some to write.

use crate::steps::next_draw;

/// What the draws of the first thread begin with.
const SEED: u64 = 88_172_645_463_325_252;

/// The draws of a thread, so many of a hundred of which ask for a section that reads.
#[derive(Clone, Copy)]
pub struct Draws {
    draw: u64,
    percent: u64,
}

impl Draws {
    /// Those of the thread of this number.
    pub fn of_thread(number: u64, percent: u64) -> Draws {
        Draws {
            draw: SEED.wrapping_add(number),
            percent,
        }
    }

    /// The draws behind the next one.
    #[inline(always)]
    pub fn next(self) -> Draws {
        Draws {
            draw: next_draw(self.draw),
            percent: self.percent,
        }
    }

    /// Whether this one asks for a section that reads.
    #[inline(always)]
    pub fn asks_to_read(self) -> bool {
        (self.draw >> 33) % 100 < self.percent
    }
}
