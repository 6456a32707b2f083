//! Where the words of an environment's table stand.

/// The word of the clock.
pub const CLOCK: usize = 0;

/// The word of the next note's number.
pub const NEXT: usize = 1;

/// The word of note 0; the words of the other notes follow, by number.
pub const NOTES: usize = 2;

/// The word of the bell of seat 0; the words of the other seats' bells follow, by number.
pub const BELLS: usize = 66;

/// How many words there are: those of 64 bells are the last.
pub const WORDS: usize = 130;
