//! Work of a known length, and draws.

/// The factor of a step.
const FACTOR: u64 = 6_364_136_223_846_793_005;

/// What a step adds.
const INCREMENT: u64 = 1_442_695_040_888_963_407;

/// How many steps the longer work has.
pub const LONG: u64 = 200;

/// How many steps the shorter work has.
pub const SHORT: u64 = 20;

/// The next of a row of draws.
pub fn next_draw(draw: u64) -> u64 {
    draw.wrapping_mul(FACTOR).wrapping_add(INCREMENT)
}

/// Steps, each of which depends on the last.
#[derive(Clone, Copy)]
pub struct Steps {
    factor: u64,
}

impl Steps {
    /// The steps of a run of so many operations, fewer than 2^63.
    ///
    /// The factor hangs on them, so that no compiler knows it and makes one step of several.
    pub fn of_run(operations: u64) -> Steps {
        Steps {
            factor: FACTOR ^ (operations >> 63),
        }
    }

    /// What so many steps make of a value.
    pub fn walk(self, from: u64, count: u64) -> u64 {
        let factor = self.factor;
        let mut value = from;
        for _ in 0..count {
            value = value.wrapping_mul(factor).wrapping_add(INCREMENT);
        }
        value
    }
}
