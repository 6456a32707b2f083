//! A caller's condition on the guarded row.

ghost use Rattle.std.specs.Prelude.{◌≡◌, ◌≤◌};
ghost use Rattle.ns_model.specs.Room.{HasRoom};
ghost use Rattle.ns_model.specs.Truths.{Truths, SameAgrees, QuietKeeps};

/// A truth on rows of `N` cells, `N` from 1 to 16. It depends on the row alone, and a test
/// changes nothing: whoever holds the lock may test it, not always the waiter.
///
/// The laws range over all lists of `N` natural numbers, past what a `u64` can hold. They
/// are nsync's: two conditions may be declared equivalent, and then one test serves both; a
/// change of the row may be declared quiet, and then it makes no false condition true.
pub trait Condition<const N: usize>: Copy {
    /// Where each condition is true, which are declared equivalent, and which changes of the row are
    /// declared quiet.
    ghost means: { Truths Self };

    /// Whether the condition is true of the row.
    fn test(&self, row: &[u64; N]) -> bool
        ensures { result ≡ means.holds self.now row.now };

    /// Whether the conditions are declared equivalent. It need be neither symmetric nor
    /// transitive, and `false` is always right.
    fn same(&self, other: &Self) -> bool
        ensures { result ≡ means.same self.now other.now };

    /// Whether a change of the row from `before` to `after` is declared quiet. `false` is always
    /// right.
    fn quiet(before: &[u64; N], after: &[u64; N]) -> bool
        ensures { result ≡ means.quiet before.now after.now };

    /// Equivalent conditions are true of the same rows.
    ghost same_agrees: { SameAgrees N means };

    /// What holds after a quiet change held before it.
    ghost quiet_keeps: { QuietKeeps N means };

    /// A row has 1 to 16 cells.
    ghost has_cells: { (1 ≤ N) × (N ≤ 16) };

    /// A condition and a row take little memory, so that code over any condition fits.
    ghost has_room: { HasRoom Self.row N.row };
}
