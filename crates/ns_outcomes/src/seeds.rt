//! Which runs to make.

/// Which runs to make: one for each of so many seeds, from a first one on.
#[derive(Clone, Copy, Debug, Drop, PartialEq, Eq)]
pub struct Seeds {
    /// How many seeds there are.
    pub count: u32,
    /// The first seed. After the greatest number of 64 bits comes 0.
    pub from: u64,
    /// How many turns each run may take.
    pub limit: u32,
}
