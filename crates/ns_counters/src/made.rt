//! How counters and once cells are made, and the words that they begin with.

ghost use Rattle.std.specs.Prelude.{◌≡◌, ◌≤◌, length};
ghost use Rattle.ns_counters.specs.Made.{first_words, padded, setup_of};

use crate::object::Setup;

/// How many counters there may be, and how many once cells. A table has the words of so many of
/// each, whatever is asked for, so no list of words has to be made.
pub const MOST: usize = 16;

/// The values by number, and 0 past the last.
fn starts_of(counters: &[u32]) -> [u32; MOST]
    requires { length counters.now ≤ 16 }
    ensures { result ≡ padded counters.now }
{
    let mut starts = [0; MOST];
    starts[..counters.len()].copy_from_slice(counters);
    starts
}

impl Setup {
    /// For so many seats, a counter for each of the values, by number, and so many once cells.
    ///
    /// Needs at most 16 counters.
    pub fn new(seats: u8, counters: &[u32], cells: u8) -> Setup
        requires { length counters.now ≤ 16 }
        ensures { result ≡ setup_of seats counters.now cells }
    {
        Setup {
            seats,
            counters: counters.len() as u8,
            starts: starts_of(counters),
            cells,
        }
    }

    /// The words of the objects before any step: each counter with the value that it begins with,
    /// and then as many unused once cells.
    pub fn words(&self) -> [u64; 32]
        ensures { result ≡ first_words self.now.starts }
    {
        let mut words = [0; 32];
        for (i, start) in self.starts.iter().enumerate() {
            words[i] = u64::from(*start);
        }
        words
    }
}
