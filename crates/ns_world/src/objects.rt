//! The counters and once cells of a world.

ghost use Rattle.std.specs.Prelude.{◌≡◌, ◌<◌, ◌≤◌, length, slice_index, slice_set};
ghost use Rattle.ns_world.specs.Prelude.{fresh_words, word_at, word_left};

use ns_counters::act::ObjectAct;
use ns_counters::object::Setup;
use ns_counters::round::Round;

/// A wait for condition variables among notes and counters whose first round has found nothing: on the lock it
/// waits for the variables, and whenever it looks, it looks at the others by a round.
#[derive(Clone, Copy)]
pub struct AnyWait {
    /// What it is for.
    pub(crate) round: Round,
    /// What its last round has shown: the place of an object that was ready, or how many objects there are,
    /// where the deadline had come; or nothing.
    pub(crate) shown: Option<u64>,
}

/// The words of up to 16 counters and up to 16 once cells.
#[derive(Drop)]
pub(crate) struct Objects {
    /// How many there are of each, and how they began.
    pub(crate) setup: Setup,
    /// Their words.
    pub(crate) words: [u64; 32],
}

impl Objects {
    /// A counter for each of the values, by number, and so many once cells, for so many seats.
    pub(crate) fn new(seats: u8, counters: &[u32], cells: u8) -> Objects
        requires { length counters.now ≤ 16 }
        ensures { result ≡ fresh_words seats counters.now cells }
    {
        let setup = Setup::new(seats, counters, cells);
        let words = setup.words();
        Objects { setup, words }
    }

    /// Makes the step on a word; answers the word found.
    pub(crate) fn make(&mut self, act: ObjectAct) -> u64
        requires { word_at act < 32 }
        ensures found { result ≡ slice_index self.old.words (word_at act) }
        ensures left { self.new ≡ record self.old { words = slice_set self.old.words (word_at act) (word_left act result) } }
    {
        let at = act.word_at();
        let found = self.words[at];
        self.words[at] = act.word_left(found);
        found
    }
}
