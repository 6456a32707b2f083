//! What a test knows of a seat that it drives by walks as values, over a row of one cell.

use ns_env::limits::Cause;
use ns_gate::queues::Turned;
use ns_model::event::Mode;
use ns_word::act::Found;
use ns_word::owed::Owed;

/// What is known of a section's cell: as the section began, and as it stands.
#[derive(Clone, Copy)]
pub enum Rows {
    /// Nothing yet, but that nothing was stored.
    Unread,
    /// Both.
    Are(u64, u64),
    /// Nothing.
    Unknown,
}

/// A section in hand.
#[derive(Clone, Copy)]
pub struct Section {
    /// Its mode.
    pub mode: Mode,
    /// Its rows.
    pub rows: Rows,
}

/// What is known of a driven seat beside the place where it stands.
#[derive(Clone, Copy)]
pub struct Known {
    /// Its number.
    pub number: u8,
    /// The section that it has in hand.
    pub section: Option<Section>,
    /// The one wake that it owes.
    pub owed: Option<Owed>,
    /// What its next look shows.
    pub shown: Option<Cause>,
}

/// What has been made of the queues in hand, for an act that puts them back.
#[derive(Clone, Copy)]
pub struct Hand {
    /// What they hold, and whether somebody was moved or taken.
    pub turned: Turned,
    /// What is found once they are back.
    pub finds: Found,
    /// The one wake that is owed then.
    pub owed: Option<Owed>,
}
