//! How much is done, and what came of it.

ghost use Rattle.std.specs.Prelude.{◌<◌, IfSome};

/// How many operations there are in all, and how many threads share them.
#[derive(Clone, Copy)]
pub struct Amount {
    /// How many threads there are.
    pub threads: u64,
    /// How many operations they make together.
    pub operations: u64,
}

impl Amount {
    /// A seat for each thread, and one for what is done beside them; nothing for more than can be counted.
    pub fn seats(self) -> Option<usize>
        ensures { IfSome result (λ seats. 0 < seats) }
    {
        usize::try_from(self.threads).ok()?.checked_add(1)
    }

    /// How many operations the thread of this number makes: no more than one more than any other.
    pub fn share(self, number: u64) -> u64 {
        let least = self.operations.checked_div(self.threads).unwrap_or(0);
        let rest = self.operations.checked_rem(self.threads).unwrap_or(0);
        if number < rest {
            least.saturating_add(1)
        } else {
            least
        }
    }

    /// Whether the thread of this number is of the first half, and how many operations it makes, where one half
    /// makes as many as the other.
    pub fn half(self, number: u64) -> (bool, u64) {
        let half = Amount {
            threads: self.threads / 2,
            operations: self.operations,
        };
        let times = half.share(number.checked_rem(half.threads).unwrap_or(0));
        (number < half.threads, times)
    }
}

/// What a thread has counted.
#[derive(Clone, Copy)]
pub struct Count {
    /// How many of its sections wrote.
    pub writes: u64,
    /// The sum of what it has read or worked out.
    pub sum: u64,
}

impl Count {
    /// Nothing.
    pub fn new() -> Count {
        Count { writes: 0, sum: 0 }
    }

    /// So many sections that wrote.
    pub fn of_writes(writes: u64) -> Count {
        Count { writes, sum: 0 }
    }

    /// One more section that wrote.
    pub fn with_write(self) -> Count {
        Count {
            writes: self.writes.wrapping_add(1),
            sum: self.sum,
        }
    }

    /// A value more in the sum.
    pub fn with(self, value: u64) -> Count {
        Count {
            writes: self.writes,
            sum: self.sum.wrapping_add(value),
        }
    }
}

/// The sums of the counts.
pub fn total(counts: &[Count]) -> Count {
    let mut total = Count::new();
    for count in counts {
        total.writes = total.writes.wrapping_add(count.writes);
        total.sum = total.sum.wrapping_add(count.sum);
    }
    total
}
