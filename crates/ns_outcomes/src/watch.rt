//! Who is told how far the runs have come.

ghost use Rattle.std.specs.Prelude.{◌≡◌, ℕ, Option, Some};

/// Who is told of each run before it is made, so that the seed of a run that was refused can be named.
pub trait Watch {
    /// The seed that was told last, if one was.
    ghost last: { Self → Option ℕ };

    /// The run of this seed is made next.
    fn begins(&mut self, seed: u64)
        ensures { last self.new ≡ Some seed };
}

/// Keeps the seed of the run that was begun last.
#[derive(Clone, Copy, Debug, Drop, PartialEq, Eq)]
pub struct LastSeed(pub Option<u64>);

impl Watch for LastSeed {
    ghost last = { λ kept. kept.0 };

    fn begins(&mut self, seed: u64) {
        self.0 = Some(seed);
    }
}
