//! Where things stand in a document: in pixels, from its top left corner.
//!
//! Each thread has a lane from top to bottom, and each change a line across. Sums saturate: no document comes
//! near where that shows.

use crate::sight::has;
use ns_model::seats::Seats;

/// The line of the first change.
const TOP: usize = 176;

/// From one change's line to the next.
const ROW: usize = 20;

/// The room at the left for the numbers of turns.
const LEFT: usize = 64;

/// Where the numbers of turns end.
pub const TURNS: usize = 56;

/// How far right of its left edge a lane has the bars of waits, its dots, and its texts.
pub const WAITS: usize = 31;

pub const DOT: usize = 50;

pub const LABEL: usize = 58;

/// The width that the lanes have together, where that leaves each neither too little nor too much.
const LANES: usize = 1_136;

/// What a lane has at least, and at most.
const NARROWEST: usize = 142;

const WIDEST: usize = 336;

/// What a document has at least, so that its legend has room.
const LEAST: usize = 640;

/// What stands left of a lane's text, and right of it, together.
const BESIDE_TEXT: usize = 62;

/// Where things stand.
#[derive(Clone, Copy)]
pub struct Layout {
    /// Who has a lane.
    pub shown: Seats,
    /// Whether these are all threads.
    pub is_all: bool,
    /// The left edge of each thread's lane. Those who have none share one behind the others.
    left: [usize; 64],
    /// The left edge of that one.
    others: usize,
    /// How wide a lane is.
    pub lane: usize,
    /// How wide the document is.
    pub width: usize,
    /// How many changes there are.
    rows: usize,
}

/// How many are in the set.
fn count(some: Seats) -> usize {
    let mut count = 0usize;
    for thread in 0..64u8 {
        count = count.saturating_add(usize::from(has(some, thread)));
    }
    count
}

/// The left edges of the lanes, where those who have none have this one.
fn edges(shown: Seats, lane: usize, others: usize) -> [usize; 64] {
    let mut left = [others; 64];
    let mut next = LEFT;
    for thread in 0..64u8 {
        if has(shown, thread) {
            left[thread as usize] = next;
            next = next.saturating_add(lane);
        }
    }
    left
}

impl Layout {
    /// Where so many changes stand, with a lane for each of these threads, and for all others one, if there
    /// are others.
    pub fn new(shown: Seats, is_all: bool, rows: usize) -> Layout {
        let lanes = count(shown).saturating_add(usize::from(!is_all));
        let lane = (LANES / lanes.max(1)).max(NARROWEST).min(WIDEST);
        let width = LEFT.saturating_add(lane.saturating_mul(lanes)).max(LEAST);
        let others = LEFT.saturating_add(lane.saturating_mul(count(shown)));
        Layout {
            shown,
            is_all,
            left: edges(shown, lane, others),
            others,
            lane,
            width,
            rows,
        }
    }

    /// The left edge of the thread's lane.
    pub fn left(&self, thread: u8) -> usize {
        match self.left.get(thread as usize) {
            Some(left) => *left,
            None => self.others,
        }
    }

    /// So far right of the left edge of the thread's lane.
    pub fn beside(&self, thread: u8, offset: usize) -> usize {
        self.left(thread).saturating_add(offset)
    }

    /// The line of the change at this place.
    pub fn line(&self, place: usize) -> usize {
        TOP.saturating_add(ROW.saturating_mul(place))
    }

    /// Where the lanes end.
    pub fn bottom(&self) -> usize {
        self.line(self.rows)
    }

    /// How high the document is.
    pub fn height(&self) -> usize {
        self.bottom().saturating_add(ROW.saturating_mul(2))
    }

    /// How many characters have room in a lane.
    pub fn room(&self) -> usize {
        self.lane.saturating_sub(BESIDE_TEXT).saturating_mul(10) / 73
    }
}
