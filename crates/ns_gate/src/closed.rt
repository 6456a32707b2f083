//! What is left of a gate that is closed.

ghost use Rattle.std.specs.Prelude.{◌≡◌, ◌+◌, ◌<◌, ℕ, length, slice_index};
ghost use Rattle.std.specs.Mem.Slots.{slots_items, slots_len, IsFull};
ghost use lib.ListN.{get_elem?};
ghost use mathlib.Core.Option.{some};

use std::alloc::Global;

/// What is left of a gate that is closed.
#[derive(Drop)]
pub struct Closed<const N: usize> {
    /// The cells as they stand.
    pub row: [u64; N],
    /// Whether the lock is free: nobody holds it.
    pub free: bool,
}

/// The cells, as the words of a closed table show them.
pub(crate) fn cells<S, const N: usize>(closed: &atomic_table::Closed<S, Global>) -> [u64; N]
    requires { IsFull closed.now.words × (N < slots_len closed.now.words) }
    ensures { (length result ≡ N) × ((k : ℕ) → k < N → get_elem? (slots_items closed.now.words) (k + 1) ≡ some (slice_index result k)) }
{
    let mut row = [0; N];
    for i in 0..N {
        row[i] = closed.word(i + 1);
    }
    row
}
