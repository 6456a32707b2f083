//! Sets of condition variables, and which of them a wait is for.

ghost use Rattle.std.specs.Prelude.{◌≡◌, ◌<◌, ◌==◌, ◌||◌, ℕ, false};
ghost use Rattle.ns_model.specs.Cvs.{has, is_in, is_just, is_exactly};

/// A set of condition variables: bit `k` tells whether the variable of number `k` is in it.
#[derive(Clone, Copy, Debug, PartialEq, Eq)]
pub struct Cvs(pub u8);

impl Cvs {
    /// No variable.
    pub fn none() -> Cvs
        ensures { (k : ℕ) → is_in result k ≡ false }
    {
        Cvs(0)
    }

    /// Whether the variable is in the set.
    pub fn contains(self, k: u8) -> bool
        ensures { result ≡ is_in self k }
    {
        k < 8 && (self.0 >> k) & 1 == 1
    }

    /// The set with the variable in it, and else as it was. Needs a number below 8.
    pub fn with(self, k: u8) -> Cvs
        requires { k < 8 }
        ensures { (n : ℕ) → is_in result n ≡ (is_in self n || (n == k)) }
    {
        Cvs(self.0 | 1 << k)
    }
}

/// What a wait is for: one condition variable, whose number may be any, or any of a set.
///
/// A set of just one variable and that variable are told apart by no rule. There are two forms,
/// since `legal` is decided of every list of events, and an event may name a variable of any
/// number. A set has a bit for each of eight, which all count, though a lock has four variables.
#[derive(Clone, Copy, Debug)]
pub enum Variables {
    /// The variable of this number.
    Only(u8),
    /// Any of these.
    Any(Cvs),
}

impl Variables {
    /// Whether it is for this one.
    pub(crate) fn has(self, k: u8) -> bool
        ensures { result ≡ has self k }
    {
        match self {
            Variables::Only(j) => j == k,
            Variables::Any(cvs) => cvs.contains(k),
        }
    }

    /// Whether it is for this one and no other.
    pub(crate) fn is_just(self, k: u8) -> bool
        ensures { result ≡ is_just self k }
    {
        match self {
            Variables::Only(j) => j == k,
            Variables::Any(cvs) => k < 8 && cvs.0 == 1 << k,
        }
    }

    /// Whether it is for these and no others.
    pub(crate) fn is_exactly(self, cvs: Cvs) -> bool
        ensures { result ≡ is_exactly self cvs }
    {
        match self {
            Variables::Only(j) => j < 8 && cvs.0 == 1 << j,
            Variables::Any(own) => own == cvs,
        }
    }
}
