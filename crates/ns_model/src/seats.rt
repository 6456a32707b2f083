//! A set of seats.

ghost use Rattle.std.specs.Prelude.{◌≡◌, ◌<◌, ◌==◌, ◌||◌, ℕ, false};
ghost use Rattle.ns_model.specs.Seats.{is_in};

/// A set of seat numbers from 0 to 63: bit `n` tells whether seat `n` is in it.
#[derive(Clone, Copy, Debug, PartialEq, Eq)]
pub struct Seats(pub u64);

impl Seats {
    /// No seat.
    pub fn none() -> Seats
        ensures { (n : ℕ) → is_in result n ≡ false }
    {
        Seats(0)
    }

    /// Whether the seat is in the set. Needs a seat below 64.
    pub fn contains(self, seat: u8) -> bool
        requires { seat < 64 }
        ensures { result ≡ is_in self seat }
    {
        (self.0 >> seat) & 1 == 1
    }

    /// The set with the seat in it, and else as it was. Needs a seat below 64.
    pub fn with(self, seat: u8) -> Seats
        requires { seat < 64 }
        ensures { (n : ℕ) → is_in result n ≡ (is_in self n || (n == seat)) }
    {
        Seats(self.0 | 1 << seat)
    }
}
